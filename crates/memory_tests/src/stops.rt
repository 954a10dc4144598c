//! Runs that are stopped: if an allocation of a run fails, no device acts; if the start of a thread fails, the other threads
//! stop.

ghost use Rattle.std.specs.Prelude.{IfOk, vec_items};
ghost use Rattle.std.specs.List.{All};
ghost use Rattle.poll_engine.specs.Opens.{IsStation};

use anyhow::{Result, ensure};
use poll_engine::{Act, Device, Gate, Station, WorkFault, have_distinct_numbers, run_workers};
use std::alloc::{AllocError, Global};
use std::sync::Wait;
use std::sync::atomic::{AtomicU32, Ordering};
use std::thread;
use std::thread::Threads;

const ACTS: u32 = 10;

// How often a delayed act checks whether the other device has come. A failure comes long before that.
const LOOKS: u32 = 500_000;

/// A device with ten acts that do nothing, which counts them.
#[derive(Drop)]
struct Counting<'a> {
    made: &'a AtomicU32,
}

impl Device for Counting<'_> {
    ghost use Rattle.poll_engine.specs.declared.acts.Act.TheVariants.{Nothing};

    ghost acts = { λ _. 10 };

    ghost answer = { λ _ _. Nothing };

    ghost after = { λ d _. d };

    fn acts(&self) -> u32 {
        ACTS
    }

    fn act(&mut self, _k: u32) -> Act {
        self.made.fetch_add(1, Ordering::SeqCst);
        Act::Nothing
    }
}

/// A gate that delays the first act of device 1 until device 2 reaches its own first act, but not forever.
#[derive(Drop)]
struct HoldsFirstThread {
    came: AtomicU32,
}

impl Gate for HoldsFirstThread {
    fn pass(&self, worker: u32, act: u32) -> bool {
        if worker == 2 {
            self.came.store(1, Ordering::SeqCst);
        }
        for _ in 0..LOOKS {
            if worker != 1 || act != 0 || self.came.load(Ordering::SeqCst) == 1 {
                break;
            }
            thread::yield_now();
        }
        true
    }
}

fn try_stations<'a>(
    alloc: Global,
    made: &'a [AtomicU32; 2],
) -> Result<Vec<Station<Counting<'a>>>, AllocError>
    ensures { IfOk result (λ v. All IsStation (vec_items v)) }
{
    let mut stations = Vec::new(alloc);
    for index in 0..2u32 {
        stations.push(Station {
            number: index + 1,
            capacity: 4,
            thread: true,
            device: Counting {
                made: &made[index as usize],
            },
        })?;
    }
    Ok(stations)
}

// Returns how many acts device 1 made in a run of two devices with a poller each, and the error of the run, if there is one.
fn count<R: Threads + Wait + Sync>(rt: &R, alloc: Global) -> Result<(u32, Option<WorkFault>)> {
    let made = [AtomicU32::new(0), AtomicU32::new(0)];
    let gate = HoldsFirstThread {
        came: AtomicU32::new(0),
    };
    let Ok(stations) = try_stations(alloc, &made) else {
        return Ok((0, Some(WorkFault::OutOfMemory)));
    };
    ensure!(have_distinct_numbers(&stations), "one number twice");
    let fault = match run_workers(rt, alloc, stations, 2, 300, 64, 1024, &gate) {
        Ok(_) => None,
        Err(WorkFault::GateShut) => return Err(WorkFault::GateShut.into()),
        Err(fault) => Some(fault),
    };
    Ok((made[0].load(Ordering::SeqCst), fault))
}

// Returns the error of the first run, if there is one. After an error, another run succeeds.
pub(crate) fn acts_are_stopped<R: Threads + Wait + Sync>(
    rt: &R,
    alloc: Global,
) -> Result<Option<WorkFault>> {
    let (made, fault) = count(rt, alloc)?;
    match fault {
        None => {
            ensure!(made == ACTS, "{made} acts were made");
            return Ok(None);
        }
        Some(WorkFault::OutOfMemory) => {
            ensure!(
                made == 0,
                "{made} acts were made without memory for the run"
            );
        }
        Some(_) => {
            ensure!(
                made <= 1,
                "{made} acts were made though another device's thread was refused"
            );
        }
    }
    let (again, other) = count(rt, alloc)?;
    ensure!(other.is_none() && again == ACTS, "refused twice");
    Ok(fault)
}
