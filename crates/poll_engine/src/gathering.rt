//! Takes the parts of each instance out of the threads of a run.

ghost use Rattle.std.specs.Prelude.{◌≡◌, ◌≤◌, Some, length, vec_items, vec_len};
ghost use Rattle.std.specs.List.{AllZip};
ghost use Rattle.napi_calls.specs.Instance.{IsSeatOf};
ghost use Rattle.napi_calls.specs.declared.kept.DropBomb.{DropBomb};
ghost use Rattle.poll_engine.specs.declared.handle.PollHandle.{PollHandle};
ghost use Rattle.poll_engine.specs.Tasks.{EachAt, HasRoom};
ghost use Rattle.poll_engine.specs.Outcomes.{AreLeftBy, AreSeatsAt, IsLeftBy, IsThreadWith};

use crate::acts::Device;
use crate::dealing::poller_of;
use crate::driving::Tasks;
use crate::gate::Gate;
use crate::poller::Poller;
use crate::setup::opening::Loose;
use crate::setup::pollers::{OwnThread, RunTasks};
use crate::thread_poller::ThreadPoller;
use crate::worker::InterruptWorker;
use napi_calls::{Caller, DropBomb};
use std::sync::Wait;

// What the threads of one instance hold of it.
fn leave<'t, 'p, 'n, R: Wait + Drop, D: Drop, G: Gate>(
    worker: InterruptWorker<'t, 'p, 'n, R, D, G>,
    poller: Caller,
    thread: OwnThread<'t, 'p, 'n, R, G>,
) -> Loose<D>
    requires poller { IsSeatOf worker.handler.napi.now poller.pass }
    requires thread { IsThreadWith worker thread }
    ensures { (seat : DropBomb _ PollHandle) → seat.value.caller ≡ Some poller
        → IsLeftBy worker.entry seat thread.entry result }
{
    let InterruptWorker {
        handler,
        out,
        device,
        rx,
        handles,
        ..
    } = worker;
    let Poller { wait, served, .. } = thread;
    let ThreadPoller { seat, .. } = served;
    Loose {
        number: handler.number,
        device,
        rx,
        handles: handles.open(),
        poller,
        thread: seat.open().leave(),
        has_thread: handler.thread.is_some(),
        wait,
        asked: out.asked,
    }
}

/// Takes the parts of each instance out of the threads, in order. Requires room for them.
pub(crate) fn gather<'t, 'p, 'n, R: Wait + Drop + Copy, D: Device + Drop, G: Gate>(
    rt: R,
    tasks: RunTasks<'t, 'p, 'n, R, D, G>,
    loose: &mut Vec<DropBomb<R, Loose<D>>>,
)
    requires some { 1 ≤ length (vec_items tasks.pollers) }
    requires seats { EachAt
        (AreSeatsAt (length (vec_items tasks.pollers)) (vec_items tasks.workers))
        (vec_items tasks.pollers) }
    requires threads { AllZip IsThreadWith (vec_items tasks.workers) (vec_items tasks.threads) }
    requires room { HasRoom (vec_len tasks.workers) loose.old }
    ensures { AreLeftBy (vec_items tasks.entry.workers) (vec_items tasks.entry.pollers)
        (vec_items tasks.entry.threads) (vec_items loose.new) }
{
    let Tasks {
        mut pollers,
        workers,
        threads,
        ..
    } = tasks;
    let count = pollers.len();
    let mut sides = threads.into_iter();
    let mut all = workers.into_iter();
    while let Some(worker) = all.next() {
        let Some(side) = sides.next() else {
            unreachable!()
        };
        let poller = poller_of(worker.handler.number, count);
        let caller = pollers[poller].take();
        loose.push_reserved(DropBomb::new(rt, leave(worker, caller, side)));
    }
}
