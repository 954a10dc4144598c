//! Tests of what is still done after a gate has returned false.

ghost use Rattle.std.specs.Prelude.{◌≡◌, ◌≤◌, ◌∷◌, ◌++◌, [], IfOk};
ghost use Rattle.std.specs.List.{All};
ghost use Rattle.poll_engine.specs.Opens.{IsStation};
ghost use Rattle.poll_engine.specs.Numbers.{numbers_of};

use crate::gates::{ShutAt, run};
use crate::pacing::{LONG, comes};
use poll_engine::{Act, Device, Gate, OpenGate, Station, WorkFault};
use std::alloc::{AllocError, Global};
use std::sync::atomic::{AtomicU32, Ordering};
use std::test::Fail;

const ACTS: u32 = 10;

const HALF: u32 = 5;

/// A device with ten acts that do nothing, which counts them.
#[derive(Drop)]
struct Counting<'a> {
    made: &'a AtomicU32,
}

impl Device for Counting<'_> {
    ghost use Rattle.poll_engine.specs.declared.acts.Act.TheVariants.{Nothing};

    ghost acts = { λ _. 10 };

    ghost answer = { λ _ _. Nothing };

    ghost after = { λ d _. d };

    fn acts(&self) -> u32 {
        ACTS
    }

    fn act(&mut self, _k: u32) -> Act {
        self.made.fetch_add(1, Ordering::SeqCst);
        Act::Nothing
    }
}

// Adds one more device with its own thread, which counts its acts in this variable.
fn with<'a>(
    mut stations: Vec<Station<Counting<'a>>>,
    number: u32,
    made: &'a AtomicU32,
) -> Result<Vec<Station<Counting<'a>>>, AllocError>
    requires all { All IsStation stations.items }
    requires number { (1 ≤ number) × (number ≤ 16) }
    ensures all { IfOk result (λ v. All IsStation v.items) }
    ensures numbers { IfOk result
        (λ v. numbers_of v.items ≡ numbers_of stations.entry.items ++ number ∷ []) }
{
    stations.push(Station {
        number,
        capacity: 4,
        thread: true,
        device: Counting { made },
    })?;
    Ok(stations)
}

// Returns devices 1 and 2.
fn two<'a>(
    alloc: Global,
    first: &'a AtomicU32,
    second: &'a AtomicU32,
) -> Result<Vec<Station<Counting<'a>>>, AllocError>
    ensures all { IfOk result (λ v. All IsStation v.items) }
    ensures numbers { IfOk result (λ v. numbers_of v.items ≡ 1 ∷ 2 ∷ []) }
{
    let stations = with(Vec::new(alloc), 1, first)?;
    with(stations, 2, second)
}

// the acts before the gate returns false are made, and none from there on
#[test]
fn no_act_is_made_behind_a_shut_gate(rt: HostRuntime) -> Result<(), Fail> {
    for act in 0..ACTS {
        let made = [AtomicU32::new(0), AtomicU32::new(0)];
        let stations = two(rt.alloc(), &made[0], &made[1])?;
        let gate = ShutAt { worker: 1, act };
        let done = run(&rt, rt.alloc(), stations, 2, &gate);
        assert!(rt; matches!(done, Err(WorkFault::GateShut)));
        assert_eq!(rt; made[0].load(Ordering::SeqCst), act);
    }
    Ok(())
}

/// A gate that returns false at the first act of worker 1. Worker 2 reaches its own first act only some time later.
#[derive(Drop)]
struct ShutFirst {
    shut: AtomicU32,
}

impl Gate for ShutFirst {
    fn pass(&self, worker: u32, _act: u32) -> bool {
        if worker == 1 {
            self.shut.store(1, Ordering::SeqCst);
            return false;
        }
        if worker == 2 {
            comes(&self.shut, 1, LONG);
        }
        true
    }
}

// a worker that waits at an act while the gate returns false for another worker makes no further act
#[test]
fn a_shut_gate_stops_the_others(rt: HostRuntime) -> Result<(), Fail> {
    let made = [AtomicU32::new(0), AtomicU32::new(0)];
    let stations = two(rt.alloc(), &made[0], &made[1])?;
    let gate = ShutFirst {
        shut: AtomicU32::new(0),
    };
    let done = run(&rt, rt.alloc(), stations, 2, &gate);
    assert!(rt; matches!(done, Err(WorkFault::GateShut)));
    assert_eq!(rt; made[0].load(Ordering::SeqCst), 0);
    assert!(rt; made[1].load(Ordering::SeqCst) <= 1);
    Ok(())
}

/// A gate that returns false when one of the pollers starts, after worker 1 has made half of its acts. The worker reaches its
/// next act only some time later.
#[derive(Drop)]
struct ShutStart {
    starts: u32,
    half: AtomicU32,
    shut: AtomicU32,
}

impl Gate for ShutStart {
    fn pass(&self, worker: u32, act: u32) -> bool {
        if worker == self.starts {
            comes(&self.half, 1, 0);
            self.shut.store(1, Ordering::SeqCst);
            return false;
        }
        if (worker, act) == (1, HALF) {
            self.half.store(1, Ordering::SeqCst);
            comes(&self.shut, 1, LONG);
        }
        true
    }
}

// no further act is made if the gate returns false for a poller or for a thread
#[test]
fn a_gate_shut_for_a_poller_stops_the_workers(rt: HostRuntime) -> Result<(), Fail> {
    for starts in [100, 201] {
        let made = [AtomicU32::new(0), AtomicU32::new(0)];
        let stations = two(rt.alloc(), &made[0], &made[1])?;
        let gate = ShutStart {
            starts,
            half: AtomicU32::new(0),
            shut: AtomicU32::new(0),
        };
        let done = run(&rt, rt.alloc(), stations, 2, &gate);
        assert!(rt; matches!(done, Err(WorkFault::GateShut)));
        assert_eq!(rt; made[0].load(Ordering::SeqCst), HALF + 1);
    }
    Ok(())
}

// if the gate always returns true, each act is made once
#[test]
fn each_act_is_made_once(rt: HostRuntime) -> Result<(), Fail> {
    let made = [AtomicU32::new(0), AtomicU32::new(0)];
    let stations = two(rt.alloc(), &made[0], &made[1])?;
    let done = run(&rt, rt.alloc(), stations, 2, &OpenGate)?;
    assert_eq!(rt; done.len(), 2);
    for made in &made {
        assert_eq!(rt; made.load(Ordering::SeqCst), ACTS);
    }
    Ok(())
}
