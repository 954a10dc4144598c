//! Tasks that each run in their own thread.

ghost use Rattle.std.specs.Prelude.{◌≤◌, ◌≡◌, List, None, IfErr, IfSome, OnOk, vec_len, vec_capacity};
ghost use Rattle.std.specs.List.{All, AllZip};
ghost use Rattle.poll_engine.specs.Tasks.{HasRoom, IsSpawned};

use crate::fault::WorkFault;
use crate::setup::context::SpawnFailure;
use std::snapshot::Snapshot;
use std::sync::atomic::{AtomicIn, Ordering};
use std::thread::{Promise, PromisedHandle, Scope, Threads};

/// What one thread does. `run` returns the task itself, so its fields contain the results.
pub trait Task {
    ghost use Rattle.std.specs.Prelude.{◌≡◌, Bool, Option};
    ghost use Rattle.poll_engine.specs.declared.fault.WorkFault.{WorkFault};

    /// Whether it waits for no other task.
    ghost idle: { Self → Bool };

    /// `gives before after`: the task before `run`, and as `run` returns it.
    ghost gives: { Self → Self → Type 0 };

    /// The reason, if its work ended early.
    ghost stopped: { Self → Option WorkFault };

    /// `may_stop stop`: what holds if its work ended early for this reason.
    ghost may_stop: { WorkFault → Type 0 };

    /// Returns whether it needs no thread, because it waits for no other task.
    fn is_idle(&self) -> bool
        ensures { result ≡ idle self.now };

    /// Does the work of the task.
    fn run(self) -> Self
        ensures { gives self result };

    /// Returns the reason if its work ended early.
    fn stop(&self) -> Option<WorkFault>
        ensures { result ≡ stopped self.now };
}

// The postcondition of a thread: it returns its task after it has run.
#[derive(Drop)]
pub(crate) struct Gives<J>(pub(crate) Snapshot<J>);

impl<J: Task> Promise<J> for Gives<J> {
    ghost kept_by = { λ p out. J.gives p.0.value out };
}

/// A task that was started.
#[derive(Drop)]
pub(crate) enum Spawned<J: Task> {
    /// Its thread was started.
    Running(PromisedHandle<J, Gives<J>>),
    /// It was run by the caller's thread, because it needs no thread or because no thread could be started.
    Ended(J),
}

/// Starts a task in a new thread. If no thread can be started, the flag is set first, and then the caller runs the task: a task
/// reads the flag before it waits for any other task.
pub(crate) fn spawn<'s, E, J: Task + Drop + Send + 's>(
    scope: &Scope<'s, E>,
    task: J,
    refused: &AtomicIn<SpawnFailure>,
) -> Spawned<J>
    ensures { IsSpawned J.gives task result }
{
    if task.is_idle() {
        return Spawned::Ended(task.run());
    }
    let promise = Gives(Snapshot::of(&task));
    let run = move || -> J
        ensures { J.gives task result }
    { task.run() };
    match scope.spawn_with(promise, run) {
        Ok(handle) => Spawned::Running(handle),
        Err(not_started) => {
            refused.store(1, Ordering::SeqCst);
            Spawned::Ended((not_started.value)())
        }
    }
}

/// Starts all tasks, in order. Requires room for them in the vector that held them.
pub(crate) fn spawn_all<'s, E, J: Task + Drop + Send + 's>(
    scope: &Scope<'s, E>,
    tasks: &mut Vec<J>,
    refused: &AtomicIn<SpawnFailure>,
    spawned: &mut Vec<Spawned<J>>,
)
    requires { HasRoom (vec_len tasks.old) spawned.old }
    ensures each { AllZip (IsSpawned J.gives) tasks.old.items spawned.new.items }
    ensures room { HasRoom (vec_len spawned.new) tasks.new }
{
    while !tasks.is_empty() {
        spawned.push_reserved(spawn(scope, tasks.remove(0), refused));
    }
}

/// Joins all tasks, in order. Requires room for them in the result.
pub(crate) fn join_all<R: Threads, J: Task>(
    rt: &R,
    spawned: &mut Vec<Spawned<J>>,
    tasks: &mut Vec<J>,
)
    requires { HasRoom (vec_len spawned.old) tasks.old }
    ensures { (before : List J) → AllZip (IsSpawned J.gives) before spawned.old.items
        → AllZip J.gives before tasks.new.items }
{
    while !spawned.is_empty() {
        let task = match spawned.remove(0) {
            Spawned::Running(handle) => handle.join(rt),
            Spawned::Ended(task) => task,
        };
        tasks.push_reserved(task);
    }
}

/// Fails with the reason of the first of these tasks whose work ended early.
pub fn first_stop<J: Task>(tasks: &[J]) -> Result<(), WorkFault>
    requires { All (λ j. IfSome (J.stopped j) J.may_stop) tasks.now }
    ensures whole { OnOk result (All (λ j. J.stopped j ≡ None) tasks.now) }
    ensures why { IfErr result J.may_stop }
{
    for task in tasks {
        if let Some(stop) = task.stop() {
            return Err(stop);
        }
    }
    Ok(())
}
