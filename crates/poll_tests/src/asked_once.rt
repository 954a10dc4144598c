//! How often a run asks its gate: exactly once before each act, once as each poller starts, and not at all before that.

use crate::threads::{replayed, text_of};
use poll_engine::Gate;
use replay::ReplayFault;
use std::sync::atomic::{AtomicU32, Ordering};
use std::test::Fail;

/// Always open, and counts how often it is asked for each act of devices 1 and 2, and as each poller starts.
#[derive(Drop)]
struct CountsEach {
    first: [AtomicU32; 6],
    second: [AtomicU32; 6],
    // Pollers 100 to 102, and the threads of devices 1 and 2.
    starts: [AtomicU32; 5],
    others: AtomicU32,
}

const fn zero() -> AtomicU32 {
    AtomicU32::new(0)
}

impl CountsEach {
    fn new() -> CountsEach {
        CountsEach {
            first: [zero(), zero(), zero(), zero(), zero(), zero()],
            second: [zero(), zero(), zero(), zero(), zero(), zero()],
            starts: [zero(), zero(), zero(), zero(), zero()],
            others: zero(),
        }
    }

    fn count_of(&self, worker: u32, act: u32) -> Option<&AtomicU32> {
        match (worker, act) {
            (1, act) => self.first.get(act as usize),
            (2, act) => self.second.get(act as usize),
            (100, 0) => self.starts.get(0),
            (101, 0) => self.starts.get(1),
            (102, 0) => self.starts.get(2),
            (201, 0) => self.starts.get(3),
            (202, 0) => self.starts.get(4),
            _ => None,
        }
    }
}

impl CountsEach {
    // Returns how often it was asked for each act of both devices, for each start, and for anything else.
    fn asked(&self) -> ([u32; 6], [u32; 6], [u32; 5], u32) {
        (
            loaded(&self.first),
            loaded(&self.second),
            loaded(&self.starts),
            self.others.load(Ordering::SeqCst),
        )
    }
}

impl Gate for CountsEach {
    fn pass(&self, worker: u32, act: u32) -> bool {
        let count = self.count_of(worker, act).unwrap_or(&self.others);
        count.fetch_add(1, Ordering::SeqCst);
        true
    }
}

fn loaded<const N: usize>(counts: &[AtomicU32; N]) -> [u32; N] {
    let mut found = [0; N];
    for (place, count) in found.iter_mut().zip(counts) {
        *place = count.load(Ordering::SeqCst);
    }
    found
}

// Each row but an open row is an act. Only device 2 gets a thread. A third poller has no device, and asks too.
#[test]
fn each_act_and_each_start_is_asked_once(rt: HostRuntime) -> Result<(), Fail> {
    let rows = [
        (1, "0,1,open,50\n0,2,open,50\n1,2,threaded,1\n"),
        (3, "2,1,rx,100\n2,2,rx,100\n"),
        (1, "3,1,disable,0\n4,1,enable,0\n5,1,threaded,0\n"),
        (1, "3,2,disable,0\n4,2,enable,0\n"),
    ];
    let text = text_of(rt.alloc(), &rows)?;
    for pollers in 1..=3 {
        let gate = CountsEach::new();
        let (polled, _report) = replayed(&rt, rt.alloc(), text.as_str(), pollers, &gate)?;
        assert!(rt; polled.is_ok());
        let starts = [1, u32::from(pollers > 1), u32::from(pollers > 2), 0, 1];
        assert_eq!(rt; gate.asked(), ([1; 6], [1; 6], starts, 0));
    }
    Ok(())
}

// a ring that is too small is found before any gate is asked
#[test]
fn a_ring_is_too_small_before_any_gate(rt: HostRuntime) -> Result<(), Fail> {
    let text = text_of(rt.alloc(), &[(1, "0,1,open,1\n"), (2, "1,1,rx,100\n")])?;
    let gate = CountsEach::new();
    let (polled, _report) = replayed(&rt, rt.alloc(), text.as_str(), 1, &gate)?;
    let small = ReplayFault::RingTooSmall {
        device: 1,
        needs: 2,
    };
    assert_eq!(rt; polled.err(), Some(small));
    assert_eq!(rt; gate.asked(), ([0; 6], [0; 6], [0; 5], 0));
    Ok(())
}

/// Returns false at act 2 of device 1, and counts how often it is asked for that act.
#[derive(Drop)]
struct CountsShut {
    asked: AtomicU32,
}

impl Gate for CountsShut {
    fn pass(&self, worker: u32, act: u32) -> bool {
        if (worker, act) == (1, 2) {
            self.asked.fetch_add(1, Ordering::SeqCst);
            return false;
        }
        true
    }
}

// a gate that returns false isn't asked again
#[test]
fn a_shut_gate_is_asked_once(rt: HostRuntime) -> Result<(), Fail> {
    let text = text_of(rt.alloc(), &[(1, "0,1,open,50\n"), (3, "2,1,rx,100\n")])?;
    let gate = CountsShut { asked: zero() };
    let (polled, report) = replayed(&rt, rt.alloc(), text.as_str(), 1, &gate)?;
    assert_eq!(rt; polled.err(), Some(ReplayFault::GateShut));
    let asked = gate.asked.load(Ordering::SeqCst);
    assert_eq!(rt; (report.len(), asked), (0, 1));
    Ok(())
}
