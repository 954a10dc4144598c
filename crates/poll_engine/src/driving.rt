//! The threads of a run.

ghost use Rattle.std.specs.Prelude.{◌≡◌, ◌++◌, true, IfOk, map, vec_len};
ghost use Rattle.std.specs.List.{AllZip};
ghost use Rattle.poll_engine.specs.QueueCloses.{ClosesInTime};
ghost use Rattle.poll_engine.specs.Tasks.{HasRoom};
ghost use Rattle.poll_engine.specs.Trails.{signals};

use crate::gate::Gate;
use crate::setup::context::RunContext;
use crate::setup::signals::Waker;
use crate::setup::trail::{Signal, Trail};
use crate::tasks::{Spawned, Task, join_all, spawn_all};
use std::alloc::{AllocError, Global};
use std::sync::Wait;
use std::thread;
use std::thread::Threads;

/// The tasks of a run, before and after their threads run them, and room for these threads: nothing may be allocated once they
/// run.
#[derive(Drop)]
pub struct Tasks<P: Task + Drop, W: Task + Drop, S: Task + Drop> {
    /// The pollers.
    pub pollers: Vec<P>,
    /// The interrupt workers, one for each instance.
    pub workers: Vec<W>,
    /// The thread pollers: each is the thread of one instance.
    pub threads: Vec<S>,
    polling: Vec<Spawned<P>>,
    working: Vec<Spawned<W>>,
    siding: Vec<Spawned<S>>,
}

impl<P: Task + Drop, W: Task + Drop, S: Task + Drop> Tasks<P, W, S> {
    /// Returns these pollers, with room for this many workers and thread pollers, and for the threads of all.
    pub fn new(alloc: Global, pollers: Vec<P>, count: usize) -> Result<Tasks<P, W, S>, AllocError>
        ensures pollers { IfOk result (λ tasks. tasks.pollers ≡ pollers) }
        ensures polling { IfOk result (λ tasks. HasRoom (vec_len pollers) tasks.polling) }
        ensures workers { IfOk result
            (λ tasks. HasRoom count tasks.workers × HasRoom count tasks.working) }
        ensures threads { IfOk result
            (λ tasks. HasRoom count tasks.threads × HasRoom count tasks.siding) }
    {
        Ok(Tasks {
            workers: Vec::with_capacity(alloc, count)?,
            threads: Vec::with_capacity(alloc, count)?,
            polling: Vec::with_capacity(alloc, pollers.len())?,
            working: Vec::with_capacity(alloc, count)?,
            siding: Vec::with_capacity(alloc, count)?,
            pollers,
        })
    }
}

// Closes the queues of the pollers. The closes and the tasks at that time are added to the trace.
fn close_all<P: Task + Drop, W: Task + Drop, S: Task + Drop>(
    wakers: &[Waker],
    tasks: &Tasks<P, W, S>,
    closes: &mut Trail<Signal<Tasks<P, W, S>>>,
)
    ensures { signals closes.new ≡ signals closes.old
        ++ map (λ waker. (waker, true, tasks.now)) wakers.now }
{
    for waker in wakers {
        waker.close(tasks, closes);
    }
}

/// Runs the threads of a run. All pollers and thread pollers are started before the workers: if one of them can't be started,
/// no worker makes an act, so no worker waits for a poll. After all workers have ended, the wakers of the pollers are closed,
/// and the pollers end. Sets the flags of threads that couldn't be started. The closes are added to the trace.
pub fn drive<R, P, W, S, G: Gate>(
    context: &RunContext<R, G>,
    tasks: Tasks<P, W, S>,
    wakers: &[Waker],
    closes: Trail<Signal<Tasks<P, W, S>>>,
) -> (Tasks<P, W, S>, Trail<Signal<Tasks<P, W, S>>>)
where
    R: Threads + Wait + Sync,
    P: Task + Drop + Send,
    W: Task + Drop + Send,
    S: Task + Drop + Send,
    requires pollers { HasRoom (vec_len tasks.pollers) tasks.polling }
    requires workers { HasRoom (vec_len tasks.workers) tasks.working }
    requires threads { HasRoom (vec_len tasks.threads) tasks.siding }
    ensures pollers { AllZip P.gives tasks.pollers.items result.0.pollers.items }
    ensures workers { AllZip W.gives tasks.workers.items result.0.workers.items }
    ensures threads { AllZip S.gives tasks.threads.items result.0.threads.items }
    ensures closes { ClosesInTime wakers.now closes result.0 result.1 }
{
    thread::scope(
        thread::scope_env(),
        &context.rt,
        |scope| -> (Tasks<P, W, S>, Trail<Signal<Tasks<P, W, S>>>)
            requires pollers { HasRoom (vec_len tasks.pollers) tasks.polling }
            requires workers { HasRoom (vec_len tasks.workers) tasks.working }
            requires threads { HasRoom (vec_len tasks.threads) tasks.siding }
            ensures pollers { AllZip P.gives tasks.pollers.items result.0.pollers.items }
            ensures workers { AllZip W.gives tasks.workers.items result.0.workers.items }
            ensures threads { AllZip S.gives tasks.threads.items result.0.threads.items }
            ensures closes { ClosesInTime wakers.entry.now closes result.0 result.1 }
        {
            let mut tasks = tasks;
            let mut closes = closes;
            spawn_all(
                scope,
                &mut tasks.threads,
                &context.unpolled,
                &mut tasks.siding,
            );
            spawn_all(
                scope,
                &mut tasks.pollers,
                &context.unpolled,
                &mut tasks.polling,
            );
            spawn_all(
                scope,
                &mut tasks.workers,
                &context.refused,
                &mut tasks.working,
            );
            join_all(&context.rt, &mut tasks.working, &mut tasks.workers);
            close_all(wakers, &tasks, &mut closes);
            join_all(&context.rt, &mut tasks.polling, &mut tasks.pollers);
            join_all(&context.rt, &mut tasks.siding, &mut tasks.threads);
            (tasks, closes)
        },
    )
}
