//! A run of all stations.

ghost use Rattle.std.specs.Prelude.{◌≡◌, ◌≤◌, IfErr, IfOk, IfSome, IsErrOf, IsTrue, None, OnOk, length, vec_items, vec_len};
ghost use Rattle.std.specs.List.{All, AllZip};
ghost use Rattle.std.specs.Borrow.{Bor};
ghost use Rattle.poll_engine.specs.Asks.{IsAsked};
ghost use Rattle.poll_engine.specs.Courses.{ArePolled, HaveRun, limits_of};
ghost use Rattle.poll_engine.specs.Finishes.{IsFinished};
ghost use Rattle.poll_engine.specs.declared.fault.WorkFault.TheVariants.{GateShut, OutOfMemory, SpawnFailed};
ghost use Rattle.poll_engine.specs.WorkFaults.{IsWantOfMemory, run_result};
ghost use Rattle.poll_engine.specs.Numbers.{have_distinct_numbers};
ghost use Rattle.poll_engine.specs.Opens.{IsKeptPartOf, IsKeptSideOf, IsStation};
ghost use Rattle.poll_engine.specs.Limits.{IsLawful};
ghost use Rattle.poll_engine.specs.Refusals.{IsRefused};
ghost use Rattle.poll_engine.specs.Stops.{IsStop};
ghost use Rattle.poll_engine.specs.Wakers.{Wakes};

use crate::acts::Device;
use crate::driving::{Tasks, drive};
use crate::fault::WorkFault;
use crate::gate::Gate;
use crate::gathering::gather;
use crate::setup::context::{PollLimits, RunContext};
use crate::setup::opening::{Loose, Placed, end_all, open_all};
use crate::setup::pollers::{RunTasks, closes_of, pollers_of, wakers_of};
use crate::setup::signals::{IdleWait, Waker};
use crate::setup::spreading::spread;
use crate::station::{Finished, Station};
use crate::tasks::first_stop;
use napi_calls::DropBomb;
use std::alloc::Global;
use std::mem;
use std::sync::Wait;
use std::thread::Threads;

// Fails with the reason if a run ended early.
fn stop_of_run<'t, 'p, 'n, R: Wait + Drop + Copy, D: Device + Drop, G: Gate>(
    tasks: &RunTasks<'t, 'p, 'n, R, D, G>,
) -> Result<(), WorkFault>
    requires workers { All (λ w. IfSome w.stop (IsStop G.may_shut)) (vec_items tasks.now.workers) }
    requires pollers { All (λ p. IfSome p.stop (IsStop G.may_shut)) (vec_items tasks.now.pollers) }
    requires threads { All (λ p. IfSome p.stop (IsStop G.may_shut)) (vec_items tasks.now.threads) }
    ensures whole { OnOk result (All (λ w. w.stop ≡ None) (vec_items tasks.now.workers)
        × All (λ p. p.stop ≡ None) (vec_items tasks.now.pollers)
        × All (λ p. p.stop ≡ None) (vec_items tasks.now.threads)) }
    ensures why { IfErr result (IsStop G.may_shut) }
{
    first_stop(tasks.pollers.as_slice())?;
    first_stop(tasks.threads.as_slice())?;
    first_stop(tasks.workers.as_slice())
}

// Runs all threads in one scope, with the parts of the instances that are for them, and takes these parts back. If an allocation
// fails, no thread starts.
fn run_threads<'t, 'p, 'n, R, D, G>(
    context: &'t RunContext<R, G>,
    alloc: Global,
    wakers: &'p [Waker],
    waits: Vec<IdleWait>,
    placed: &'n [DropBomb<R, Placed>],
    loose: &mut Vec<DropBomb<R, Loose<D>>>,
) -> Result<(), WorkFault>
where
    R: Threads + Wait + Copy + Drop + Send + Sync,
    D: Device + Drop + Send,
    G: Gate + Sync,
    requires pollers { (1 ≤ length wakers.now) × (length wakers.now ≤ 8) }
    requires wakes { AllZip Wakes wakers.now (vec_items waits) }
    requires limits { IsLawful context.now.limits }
    requires count { vec_len loose.old ≤ 16 }
    requires sides { AllZip IsKeptSideOf (vec_items loose.old) placed.now }
    requires parts { AllZip IsKeptPartOf (vec_items loose.old) placed.now }
    ensures parts { AllZip IsKeptPartOf (vec_items loose.new) placed.now }
    ensures why { IfErr result (IsStop G.may_shut) }
    ensures ran { OnOk result (HaveRun D.acts D.answer D.after G.answers context.now
        (length wakers.now) (vec_items loose.old) (vec_items loose.new)) }
{
    let count = loose.len();
    let (pollers, ends) = pollers_of(context, alloc, wakers, waits, count)?;
    let tasks = Tasks::new(alloc, pollers, count)?;
    let room = Vec::with_capacity(alloc, count)?;
    let parts = mem::replace(loose, room);
    let tasks = spread(context, wakers, placed, parts, ends, tasks);
    let closes = closes_of(&tasks);
    let (tasks, _closes) = drive(context, tasks, wakers, closes);
    let ended = stop_of_run(&tasks);
    gather(context.rt, tasks, loose);
    ended
}

// Opens all stations, runs them, and closes their instances.
fn run_all<'t, R, D, G>(
    context: &'t RunContext<R, G>,
    alloc: Global,
    pollers: usize,
    stations: Vec<Station<D>>,
) -> Result<Vec<Finished<D>>, WorkFault>
where
    R: Threads + Wait + Copy + Drop + Send + Sync,
    D: Device + Drop + Send,
    G: Gate + Sync,
    requires pollers { (1 ≤ pollers) × (pollers ≤ 8) }
    requires limits { IsLawful context.now.limits }
    requires stations { All IsStation (vec_items stations) }
    requires count { vec_len stations ≤ 16 }
    ensures finished { IfOk result
        (λ all. AllZip (IsFinished D.acts D.answer D.after (G.answers context.now.gate))
        (vec_items stations) (vec_items all)) }
    ensures polled { IfOk result
        (λ all. ArePolled R (IsAsked G.answers context.now.gate) context.now.limits
        D.acts D.answer D.after pollers (vec_items stations) (vec_items all)) }
    ensures why { IfErr result (IsStop G.may_shut) }
{
    let count = stations.len();
    if count == 0 {
        return Ok(Vec::new(alloc));
    }
    let (wakers, waits) = wakers_of(alloc, pollers)?;
    let finished = Vec::with_capacity(alloc, count)?;
    let mut placed = Vec::with_capacity(alloc, count)?;
    let mut loose = Vec::with_capacity(alloc, count)?;
    if let Err(error) = open_all(context.rt, alloc, stations, &mut placed, &mut loose) {
        end_all(placed, loose, finished);
        return Err(error.into());
    }
    let here = placed.as_slice();
    let ran = run_threads(context, alloc, wakers.as_slice(), waits, here, &mut loose);
    let finished = end_all(placed, loose, finished);
    match ran {
        Ok(()) => Ok(finished),
        Err(fault) => Err(fault),
    }
}

// Returns the result of a run, or its error. `refused` says whether a thread could not be started.
fn run_result<T: Drop>(came: Result<T, WorkFault>, refused: bool) -> Result<T, WorkFault>
    ensures { result ≡ run_result came refused }
{
    match came {
        Err(WorkFault::OutOfMemory) => Err(WorkFault::OutOfMemory),
        _ if refused => Err(WorkFault::SpawnFailed),
        came => came,
    }
}

/// Runs the devices of the stations concurrently, each in its own thread, whose acts are made in order, as interrupts of its
/// own instance. Station `number` is polled by poller `(number - 1) mod pollers`, in runs over that poller's list
/// (`net_rx_action`), and while THREADED is set, by its own thread, if it has one (`napi_threaded_poll`). At the end each
/// device is disabled, its instance closed, and its ring counted. Returns the devices in the order of the stations, each with
/// the counts of its ring and with its closed instance; for no stations the result is empty.
///
/// `pollers` is 1 to 8. A run ends after `budget` packets, 1 to 65535 (`netdev_budget`), or `window` polls, 1 to 65535; a
/// thread's turn also has at most `window` polls. One poll returns at most `weight` packets, 1 to 64. Each station has its own
/// number in 1 to 16 ([`have_distinct_numbers`](crate::have_distinct_numbers) checks that) and 1 to 65536 places.
///
/// Fails with `OutOfMemory` (1) if an allocation fails, with `SpawnFailed` (3) if a thread can't be started, and with
/// `GateShut` (2) if the gate returns false; the first two take precedence over the third. All threads that were started have
/// then been joined, all instances are closed, and the stations are dropped.
pub fn run_workers<R, D, G>(
    rt: &R,
    alloc: Global,
    stations: Vec<Station<D>>,
    pollers: u32,
    budget: u32,
    weight: u32,
    window: u32,
    gate: &G,
) -> Result<Vec<Finished<D>>, WorkFault>
where
    R: Threads + Wait + Sync,
    D: Device + Drop + Send,
    G: Gate + Sync,
    requires stations { All IsStation (vec_items stations) }
    requires numbers { IsTrue (have_distinct_numbers (vec_items stations)) }
    requires pollers { (1 ≤ pollers) × (pollers ≤ 8) }
    requires budget { (1 ≤ budget) × (budget ≤ 65535) }
    requires weight { (1 ≤ weight) × (weight ≤ 64) }
    requires window { (1 ≤ window) × (window ≤ 65535) }
    // Each device made all its acts, each once and in order, and each allowed by the gate; every packet put was polled or is
    // still in the ring.
    ensures finished { IfOk result
        (λ all. AllZip (IsFinished D.acts D.answer D.after (G.answers gate.now))
        (vec_items stations) (vec_items all)) }
    // The history of each instance has the polls of its poller, in runs with these limits, and of its thread exactly if it has
    // one. Its worker pushed on the list of that poller. The gate allowed each of them to start.
    ensures polled { IfOk result
        (λ all. ArePolled (Bor R) (IsAsked G.answers gate.now) (limits_of budget weight window)
        D.acts D.answer D.after pollers (vec_items stations) (vec_items all)) }
    // Only if an allocation failed.
    ensures memory { IsErrOf result OutOfMemory → IsWantOfMemory }
    // So a gate that always returns true never causes this error.
    ensures gate { IsErrOf result GateShut → G.may_shut }
    // Only if a thread could not be started, so not because of the gate.
    ensures spawn { IsErrOf result SpawnFailed → IsRefused }
{
    let limits = PollLimits {
        budget,
        weight,
        window,
    };
    let context = RunContext::new(rt, gate, limits);
    let came = run_all(&context, alloc, pollers as usize, stations);
    run_result(came, context.is_refused())
}
