//! Tests of transmit rings: memory, packets without bytes, which no trace has, and two examples worked out by hand.

use dql_core::Dql;
use std::alloc::Global;
use std::process::Abort;
use std::test::Fail;
use tx_ring::{TxEvent, TxFault, TxRing, TxState};

fn new_ring(alloc: Global, capacity: usize, min: u32) -> Result<TxRing, Fail> {
    Ok(TxRing::new(alloc, capacity, Dql::new(min, 1_879_048_192, 1000, 0)?)?)
}

fn shown(queued: u32, completed: u32, limit: u32, avail: i64, stopped: bool) -> TxState {
    TxState {
        queued,
        completed,
        limit,
        avail,
        stopped,
    }
}

// Makes a ring of this capacity, and fills it.
fn fill_ring(rt: &impl Abort, alloc: Global, capacity: usize) -> Result<(), Fail> {
    let mut ring = new_ring(alloc, capacity, 1000)?;
    for _ in 0..capacity {
        ring.send(0)?;
    }
    assert_eq!(rt; ring.send(0), Err(TxFault::Full));
    Ok(())
}

// there is memory for each capacity; the program `memory_tests` tests failing allocations
#[test]
fn rings_of_many_capacities(rt: HostRuntime) -> Result<(), Fail> {
    for capacity in 1..100 {
        fill_ring(&rt, rt.alloc(), capacity)?;
    }
    for size in [
        128usize, 256, 512, 1000, 1024, 2048, 4096, 8192, 16_384, 32_768,
    ] {
        fill_ring(&rt, rt.alloc(), size.saturating_sub(1))?;
        fill_ring(&rt, rt.alloc(), size)?;
        fill_ring(&rt, rt.alloc(), size.saturating_add(1))?;
    }
    fill_ring(&rt, rt.alloc(), 65_535)
}

#[test]
fn a_ring_of_the_greatest_capacity(rt: HostRuntime) -> Result<(), Fail> {
    let mut limit = Dql::new(1000, 1_879_048_192, 1000, 0)?;
    limit.queued(10)?;
    limit.reset(7);
    let ring = TxRing::new(rt.alloc(), 65_536, limit)?;
    assert_eq!(rt; ring.state(), shown(0, 0, 1000, 1000, false));
    Ok(())
}

#[test]
fn packets_of_no_bytes(rt: HostRuntime) -> Result<(), Fail> {
    let mut ring = new_ring(rt.alloc(), 4, 0)?;
    ring.send(0)?;
    ring.send(10)?;
    let stopped = shown(10, 0, 0, -10, true);
    assert_eq!(rt; ring.state(), stopped);
    ring.done(1, 5)?;
    assert_eq!(rt; ring.state(), stopped);
    ring.done(1, 6)?;
    assert_eq!(rt; ring.state(), shown(10, 10, 10, 10, false));
    Ok(())
}

// Events after which the limit is 3000 bytes.
const GROWN: [TxEvent; 6] = [
    TxEvent::Send(1500),
    TxEvent::Finish(1, 6),
    TxEvent::Send(1500),
    TxEvent::Send(1500),
    TxEvent::Finish(1, 6),
    TxEvent::Finish(1, 7),
];

#[test]
fn ring_over_the_limit(rt: HostRuntime) -> Result<(), Fail> {
    let mut ring = new_ring(rt.alloc(), 8, 0)?;
    assert_eq!(rt; ring.run(&GROWN), 0);
    for bytes in [1000, 100, 1900] {
        ring.send(bytes)?;
    }
    assert_eq!(rt; ring.state(), shown(7500, 4500, 3000, 0, false));
    ring.done(1, 8)?;
    assert_eq!(rt; ring.state(), shown(7500, 5500, 3000, 1000, false));
    ring.done(1, 1100)?;
    assert_eq!(rt; ring.state(), shown(7500, 5600, 200, -1700, false));
    ring.send(1)?;
    assert_eq!(rt; ring.state(), shown(7501, 5600, 200, -1701, true));
    assert_eq!(rt; ring.send(1), Err(TxFault::Stopped));
    Ok(())
}

#[test]
fn transmit_refusals(rt: HostRuntime) -> Result<(), Fail> {
    let mut ring = new_ring(rt.alloc(), 1, 1000)?;
    ring.send(10)?;
    assert_eq!(rt; ring.state(), shown(10, 0, 1000, 990, false));
    assert_eq!(rt; ring.send(10), Err(TxFault::Full));
    assert_eq!(rt; ring.done(2, 5), Err(TxFault::MoreThanSent));
    ring.done(0, 5)?;
    assert_eq!(rt; ring.state(), shown(10, 0, 1000, 990, false));
    let mut ring = new_ring(rt.alloc(), 1, 1000)?;
    let refused = ring.run(&[TxEvent::Send(10), TxEvent::Send(10), TxEvent::Finish(2, 5)]);
    assert_eq!(rt; refused, 2);
    let mut ring = new_ring(rt.alloc(), 2, 1000)?;
    ring.send(10)?;
    assert_eq!(rt; ring.send(268_435_456), Err(TxFault::TooLarge));
    let mut ring = new_ring(rt.alloc(), 8, 1_073_741_823)?;
    for bytes in [268_435_455, 268_435_455, 268_435_455, 268_435_455, 3] {
        ring.send(bytes)?;
    }
    assert_eq!(rt; (ring.state().avail, ring.state().stopped), (0, false));
    assert_eq!(rt; ring.send(1), Err(TxFault::TooMuchInFlight));
    for capacity in [0, 65_537] {
        let limit = Dql::new(1000, 1_879_048_192, 1000, 0)?;
        let made = TxRing::new(rt.alloc(), capacity, limit);
        assert_eq!(rt; made.err(), Some(TxFault::BadCapacity));
    }
    Ok(())
}
