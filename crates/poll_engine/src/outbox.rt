//! What goes out of an interrupt worker: pushes on its poller's list, questions to the gate, and wake-ups.

ghost use Rattle.std.specs.Prelude.{◌≡◌, ◌++◌, ◌∷◌, []};
ghost use Rattle.poll_engine.specs.Hands.{HasListed};
ghost use Rattle.poll_engine.specs.SharedLists.{SameListIn, pushed_by};
ghost use Rattle.poll_engine.specs.Trails.{signals_with, wakes_after};

use crate::list_in::ListIn;
use crate::setup::signals::Waker;
use crate::setup::trail::{Asked, Signal, Trail};
use napi_calls::Caller;
use std::sync::Wait;

/// What goes out of a worker. Only proofs read its traces.
#[derive(Drop)]
pub struct Outbox<R, D> {
    // Its end of the list of its poller. Only `queue` pushes there.
    list: ListIn<R>,
    // Its wake-ups of that poller, each with the list at that time.
    list_wakes: Trail<Signal<ListIn<R>>>,
    /// Its questions to the gate, each with the device at that time.
    pub asked: Trail<Asked<D>>,
    /// Its wake-ups of the instance's thread, each with the caller at that time.
    pub thread_wakes: Trail<Signal<Caller>>,
}

impl<R, D> Outbox<R, D> {
    /// Returns the outbox of a worker with these traces.
    pub fn new(
        list: ListIn<R>,
        list_wakes: Trail<Signal<ListIn<R>>>,
        asked: Trail<Asked<D>>,
        thread_wakes: Trail<Signal<Caller>>,
    ) -> Outbox<R, D>
        ensures list { result.list ≡ list }
        ensures asked { result.asked ≡ asked }
    {
        Outbox {
            list,
            list_wakes,
            asked,
            thread_wakes,
        }
    }
}

impl<R: Wait, D> Outbox<R, D> {
    /// Appends an instance's number to the list, and then wakes the poller of the list. A poller that pops the number finds the
    /// instance queued, because its caller has queued it before.
    pub fn queue(&mut self, number: u32, poller: &Waker, caller: &Caller)
        requires { HasListed caller.now.pass }
        ensures same { SameListIn self.old.list self.new.list }
        ensures pushed { pushed_by self.new.list ≡ pushed_by self.old.list ++ number ∷ [] }
        ensures woken { signals_with pushed_by self.new.list_wakes
            ≡ signals_with pushed_by self.old.list_wakes
            ++ wakes_after poller.now (pushed_by self.old.list) (number ∷ []) }
        ensures rest { self.new
            ≡ record self.old { list = self.new.list; list_wakes = self.new.list_wakes } }
    {
        self.list.push(number);
        poller.wake(&self.list, &mut self.list_wakes);
    }
}
