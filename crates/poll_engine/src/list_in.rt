//! The ends of a shared poll list at which other threads push.

ghost use Rattle.std.specs.Prelude.{◌≡◌, true, [], ◌∷◌, ◌++◌};
ghost use Rattle.std.specs.Arc.{arc_value};
ghost use Rattle.crossbeam_queue.specs.Passes.{view, IsPassOf, ruled_capacity};

use crate::list_rule::{EndPass, PushQueue, PushedLast};
use std::sync::{Arc, Wait};
use std::thread;

/// An end of a [`SharedList`](crate::shared::SharedList) at which one thread pushes: an interrupt handler that queues its instance for
/// another thread's poller (`____napi_schedule`; the kernel has a list per processor, without other pushers).
///
/// Each end knows its own pushes, and can be sent to another thread.
#[derive(Drop)]
pub struct ListIn<R> {
    pub(crate) rt: R,
    pub(crate) queue: Arc<PushQueue>,
    pub(crate) pass: EndPass,
    ghost fits: { IsPassOf (arc_value queue) pass },
    ghost places: { ruled_capacity (arc_value queue) ≡ 64 },
    ghost live: { (view pass).live ≡ true },
}

impl<R: Wait> ListIn<R> {
    ghost use Rattle.std.specs.Prelude.{◌≡◌, [], ◌∷◌, ◌++◌};
    ghost use Rattle.poll_engine.specs.SharedLists.{pushed_by, SameListIn};

    /// Appends an instance's number to the list (`list_add_tail` in `____napi_schedule`). If the queue holds 64 numbers, it
    /// waits for the poller to take one.
    pub fn push(&mut self, id: u32)
        ensures list { SameListIn self.old self.new }
        ensures pushed { pushed_by self.new ≡ pushed_by self.old ++ id ∷ [] }
    {
        push_waiting(&self.rt, &self.queue, &mut self.pass, id);
    }
}

// Pushes a number at this end, and retries while the queue is full.
pub(crate) fn push_waiting<R: Wait>(rt: &R, queue: &PushQueue, pass: &mut EndPass, id: u32)
    requires pass { IsPassOf queue.now pass.old × ((view pass.old).live ≡ true) }
    ensures pass { IsPassOf queue.now pass.new × (pass.new.table_id ≡ pass.old.table_id) }
    ensures pushed { view pass.new
        ≡ record (view pass.old) { pushed = (view pass.old).pushed ++ id ∷ [] } }
{
    for _ in rt.forever() {
        if queue.push_as::<PushedLast, R>(rt, pass, id).is_ok() {
            return;
        }
        thread::yield_now();
    }
    unreachable!()
}
