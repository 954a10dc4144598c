//! A run of workers. The tool that makes this program's allocations fail also counts the threads that were started and not
//! joined.

ghost use Rattle.std.specs.Prelude.{IfOk, IsTrue, vec_items};
ghost use Rattle.std.specs.List.{All};
ghost use Rattle.poll_engine.specs.Opens.{IsStation};
ghost use Rattle.poll_engine.specs.Numbers.{have_distinct_numbers};

use anyhow::{Context, Result, ensure};
use poll_engine::{
    Act, ActList, Finished, OpenGate, Station, WorkFault, have_distinct_numbers, run_workers,
};
use rx_ring::Packet;
use std::alloc::{AllocError, Global};
use std::sync::Wait;
use std::thread::Threads;

const ARRIVAL: Act = Act::Arrive(Packet {
    number: 7,
    bytes: 60,
});

// Returns two stations, each with a packet and its own thread.
fn try_stations(alloc: Global) -> Result<Vec<Station<ActList>>, AllocError>
    ensures { IfOk result (λ v. All IsStation (vec_items v)) }
{
    let mut stations = Vec::new(alloc);
    for index in 0..2u32 {
        let acts = vec![in alloc; Act::SetThreaded(true), ARRIVAL]?;
        stations.push(Station {
            number: index + 1,
            capacity: 4,
            thread: true,
            device: ActList::new(acts),
        })?;
    }
    Ok(stations)
}

fn stations(alloc: Global) -> Result<Vec<Station<ActList>>, AllocError>
    ensures { IfOk result (λ v. All IsStation (vec_items v)) }
{
    match try_stations(alloc) {
        Ok(stations) => Ok(stations),
        Err(_) => try_stations(alloc),
    }
}

// Runs the stations by two pollers. Returns the error if an allocation or the start of a thread fails.
fn run<R: Threads + Wait + Sync>(
    rt: &R,
    alloc: Global,
    stations: Vec<Station<ActList>>,
) -> Result<std::result::Result<Vec<Finished<ActList>>, WorkFault>>
    requires { All IsStation (vec_items stations) }
{
    ensure!(have_distinct_numbers(&stations), "one number twice");
    match run_workers(rt, alloc, stations, 2, 300, 64, 1024, &OpenGate) {
        Err(WorkFault::GateShut) => Err(WorkFault::GateShut.into()),
        run => Ok(run),
    }
}

// Returns whether both devices were returned, and the packet of each was polled.
fn are_polled(done: Vec<Finished<ActList>>) -> bool {
    if done.len() != 2 {
        return false;
    }
    for one in done {
        if one.totals.put != 1 || one.totals.polled != 1 {
            return false;
        }
    }
    true
}

// Returns the error of the first run, if there is one. After an error, another run succeeds.
pub(crate) fn workers_are_run<R: Threads + Wait + Sync>(
    rt: &R,
    alloc: Global,
) -> Result<Option<WorkFault>> {
    let fault = match run(rt, alloc, stations(alloc)?)? {
        Ok(done) => {
            ensure!(are_polled(done), "a packet isn't polled");
            return Ok(None);
        }
        Err(fault) => fault,
    };
    let again = run(rt, alloc, stations(alloc)?)?;
    let done = again.ok().context("refused twice")?;
    ensure!(are_polled(done), "a packet isn't polled");
    Ok(Some(fault))
}
