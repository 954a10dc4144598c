//! Tests of a ring: an example worked out by hand, and what no contract says: that later puts find room, that polls find what was
//! put, and that both work from two threads.

ghost use Rattle.std.specs.Prelude.{◌≤◌};
ghost use Rattle.rx_ring.specs.Ends.{SameIn, SameCtx};
ghost use Rattle.rx_ring.specs.ReceiveRing.{NAPI_POLL_WEIGHT};

use crate::bed::put;
use rx_ring::{Batch, Packet, RingFault, RxCounts, RxCtx, RxIn, Totals, beside, finish, ring};
use std::alloc::Global;
use std::process::Abort;
use std::sync::Wait;
use std::test::Fail;
use std::thread;

// Capacities that are tried with the numbers next to them, up to the greatest.
const SIZES: [usize; 11] = [
    128, 256, 512, 1000, 1024, 2048, 4096, 8192, 16_384, 32_768, 65_536,
];

fn packet(number: u64, bytes: u32) -> Packet {
    Packet { number, bytes }
}

// Makes a ring of this capacity, and fills it.
fn fill_ring(rt: &impl Abort, alloc: Global, capacity: usize) -> Result<(), Fail> {
    let (mut input, ctx) = ring(alloc, capacity)?;
    for k in 0..capacity {
        assert!(rt; input.put(packet(k as u64, 1)).is_ok());
    }
    assert_eq!(rt; input.put(packet(0, 1)), Err(packet(0, 1)));
    assert_eq!(rt; ctx.counts().polls, 0);
    Ok(())
}

// there is memory for each capacity; the program `memory_tests` tests failing allocations
#[test]
fn rings_of_many_capacities(rt: HostRuntime) -> Result<(), Fail> {
    for capacity in 1..100 {
        fill_ring(&rt, rt.alloc(), capacity)?;
    }
    for size in SIZES {
        fill_ring(&rt, rt.alloc(), size.saturating_sub(1))?;
        fill_ring(&rt, rt.alloc(), size)?;
        if size < 65_536 {
            fill_ring(&rt, rt.alloc(), size.saturating_add(1))?;
        }
    }
    Ok(())
}

/// Polls with this weight, which has to return these packets.
pub fn polls(rt: &impl Abort, ctx: &mut RxCtx, weight: usize, packets: &[Packet])
    requires { (1 ≤ weight) × (weight ≤ NAPI_POLL_WEIGHT) }
    ensures { SameCtx ctx.old ctx.new }
{
    let mut batch = Batch::new();
    ctx.poll(weight, &mut batch);
    assert_eq!(rt; batch.as_slice(), packets);
}

#[test]
fn receive_ring_of_two(rt: HostRuntime) -> Result<(), Fail> {
    let (mut input, mut ctx) = ring(rt.alloc(), 2)?;
    beside(&mut input, &mut ctx);
    assert_eq!(rt; input.put(packet(1, 10)), Ok(()));
    beside(&mut input, &mut ctx);
    assert_eq!(rt; input.put(packet(2, 20)), Ok(()));
    beside(&mut input, &mut ctx);
    assert_eq!(rt; input.put(packet(3, 30)), Err(packet(3, 30)));
    beside(&mut input, &mut ctx);
    polls(&rt, &mut ctx, 64, &[packet(1, 10), packet(2, 20)]);
    let counts = RxCounts {
        polls: 1,
        packets: 2,
        bytes: 30,
    };
    assert_eq!(rt; ctx.counts(), counts);
    beside(&mut input, &mut ctx);
    assert_eq!(rt; input.put(packet(4, 40)), Ok(()));
    let totals = Totals {
        put: 3,
        polled: 2,
        left: 1,
        bytes: 70,
    };
    assert_eq!(rt; finish(input, ctx), totals);
    for capacity in [0, 65_537] {
        let made = ring(rt.alloc(), capacity);
        assert_eq!(rt; made.err(), Some(RingFault::BadCapacity));
    }
    Ok(())
}

// a poll right after `beside` returns what was in the ring then, and the next poll returns what was put since
#[test]
fn put_after_beside_waits_for_the_next_poll(rt: HostRuntime) -> Result<(), Fail> {
    let (mut input, mut ctx) = ring(rt.alloc(), 4)?;
    put(&rt, &mut input, packet(1, 10));
    beside(&mut input, &mut ctx);
    put(&rt, &mut input, packet(2, 20));
    polls(&rt, &mut ctx, 64, &[packet(1, 10)]);
    polls(&rt, &mut ctx, 64, &[packet(2, 20)]);
    polls(&rt, &mut ctx, 64, &[]);
    Ok(())
}

// no contract says that a poll reads the ring, so this is tested: each of many polls finds what was put before it, with many
// packets, and with more bytes in all than 32 bits can count
#[test]
fn a_poll_finds_what_was_put_after_a_million_packets(rt: HostRuntime) -> Result<(), Fail> {
    let (mut input, mut ctx) = ring(rt.alloc(), 64)?;
    for number in 0..1_024_000 {
        put(&rt, &mut input, packet(number, u32::MAX));
        polls(&rt, &mut ctx, 64, &[packet(number, u32::MAX)]);
    }
    Ok(())
}

// Puts three packets, for which there has to be room.
fn put_burst(rt: &impl Abort, input: &mut RxIn, burst: &[Packet; 3]) {
    assert_eq!(rt; input.put_all(burst), 3);
}

// Polls into an array, which has to return this many packets.
fn polls_into(rt: &impl Abort, ctx: &mut RxCtx, weight: usize, count: usize)
    requires { (1 ≤ weight) × (weight ≤ 4) }
{
    let mut packets = [packet(9, 90); 4];
    assert_eq!(rt; ctx.poll_into(weight, &mut packets), count);
}

// no contract says that either: a poll that knows of packets, but of fewer than its weight, finds what was put since
#[test]
fn a_poll_that_knows_of_too_few_reads_the_ring(rt: HostRuntime) -> Result<(), Fail> {
    let (mut input, mut ctx) = ring(rt.alloc(), 4)?;
    let burst = [packet(1, 10), packet(2, 20), packet(3, 30)];
    put_burst(&rt, &mut input, &burst);
    polls(&rt, &mut ctx, 1, &burst[..1]);
    put(&rt, &mut input, packet(4, 40));
    polls(&rt, &mut ctx, 3, &[burst[1], burst[2], packet(4, 40)]);
    put_burst(&rt, &mut input, &burst);
    polls_into(&rt, &mut ctx, 1, 1);
    put(&rt, &mut input, packet(4, 40));
    polls_into(&rt, &mut ctx, 4, 3);
    Ok(())
}

// after a context went to another owner and came back, a poll finds what was put meanwhile
#[test]
fn context_given_away_overlooks_nothing(rt: HostRuntime) -> Result<(), Fail> {
    let (mut input, mut ctx) = ring(rt.alloc(), 4)?;
    beside(&mut input, &mut ctx);
    put(&rt, &mut input, packet(1, 10));
    ctx.apart();
    let mut slot = Some(ctx);
    put(&rt, &mut input, packet(2, 20));
    let mut ctx = slot.take().ok_or("the slot is empty")?;
    polls(&rt, &mut ctx, 64, &[packet(1, 10), packet(2, 20)]);
    Ok(())
}

const COUNT: u64 = 100_000;

// Puts the packets 0, 1, .. in order, and waits while the ring is full.
fn put_all(rt: &impl Wait, input: RxIn) -> RxIn
    ensures { SameIn input result }
{
    let mut input = input;
    let mut next = 0u64;
    for _ in rt.forever() {
        if next >= COUNT {
            return input;
        }
        match input.put(packet(next, 3)) {
            Ok(()) => next += 1,
            Err(_) => thread::yield_now(),
        }
    }
    unreachable!()
}

// Polls until this many packets arrived, and counts those that arrived in order.
fn poll_all(rt: &impl Wait, ctx: RxCtx) -> (RxCtx, u64)
    ensures { SameCtx ctx result.0 }
{
    let mut ctx = ctx;
    let mut batch = Batch::new();
    let mut next = 0u64;
    for _ in rt.forever() {
        if ctx.counts().packets >= COUNT {
            return (ctx, next);
        }
        if ctx.poll(64, &mut batch) == 0 {
            thread::yield_now();
        }
        for packet in batch.as_slice() {
            next = next.wrapping_add(u64::from(packet.number == next));
        }
    }
    unreachable!()
}

#[test]
fn two_threads_lose_nothing(rt: HostRuntime) -> Result<(), Fail> {
    let (input, ctx) = ring(rt.alloc(), 64)?;
    let (input, (ctx, in_turn)) = thread::join(
        &rt,
        move || -> RxIn
            ensures { SameIn input result }
        { put_all(&rt, input) },
        move || -> (RxCtx, u64)
            ensures { SameCtx ctx result.0 }
        { poll_all(&rt, ctx) },
    );
    assert_eq!(rt; in_turn, COUNT);
    let totals = Totals {
        put: COUNT,
        polled: COUNT,
        left: 0,
        bytes: 300_000,
    };
    assert_eq!(rt; finish(input, ctx), totals);
    Ok(())
}
