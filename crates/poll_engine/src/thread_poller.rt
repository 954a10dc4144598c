//! The poller that is the thread of one instance: it polls only that instance.

ghost use Rattle.std.specs.Prelude.{◌≡◌, ◌++◌, not, is_some};
ghost use Rattle.poll_engine.specs.SharedLists.{pushed_by};
ghost use Rattle.poll_engine.specs.Limits.{IsLawful};
ghost use Rattle.poll_engine.specs.Trails.{signals_with, wakes_after};
ghost use Rattle.poll_engine.specs.Polled.{handed_on};

use crate::handle::PollHandle;
use crate::list_in::ListIn;
use crate::poller::Serves;
use crate::setup::context::PollLimits;
use crate::setup::signals::Waker;
use crate::setup::trail::{Signal, Trail};
use napi_calls::DropBomb;
use napi_model::Kind;
use poll_runs::Next;
use rx_ring::Batch;
use std::sync::Wait;

/// One instance as its own thread polls it, if the instance has a thread (`napi_threaded_poll`).
#[derive(Drop)]
pub struct ThreadPoller<'p, 'n, R: Wait + Drop> {
    /// The runtime, by which a push waits if the list is full.
    pub rt: R,
    /// The handle that polls as the instance's thread. It has a waker if the instance has a thread.
    pub seat: DropBomb<R, PollHandle<'n>>,
    /// The list on which the instance is queued if the thread may not poll it again, or if THREADED was cleared.
    pub list: ListIn<R>,
    /// The waker of that list's poller.
    pub poller: &'p Waker,
    /// The wake-ups of that poller, each with the list at that time. Only proofs read them.
    pub wakes: Trail<Signal<ListIn<R>>>,
    /// Its weight and window.
    pub limits: PollLimits,
    /// The packets of the last poll.
    pub batch: Batch,
    ghost lawful: { IsLawful limits },
}

impl<'p, 'n, R: Wait + Drop> ThreadPoller<'p, 'n, R> {
    /// Returns the thread of the handle's instance, with this end of the list and the waker of the list's poller.
    pub fn new(
        rt: R,
        seat: DropBomb<R, PollHandle<'n>>,
        list: ListIn<R>,
        poller: &'p Waker,
        wakes: Trail<Signal<ListIn<R>>>,
        limits: PollLimits,
    ) -> Self
        requires { IsLawful limits }
        ensures seat { result.seat ≡ seat.entry }
        ensures list { result.list ≡ list }
        ensures poller { result.poller.now ≡ poller.now }
        ensures limits { result.limits ≡ limits }
    {
        ThreadPoller {
            rt,
            seat,
            list,
            poller,
            wakes,
            limits,
            batch: Batch::new(),
        }
    }
}

// Pushes an instance on the list, if it was queued there after its thread's last poll, and wakes the poller of the list.
fn hand_on<R: Wait>(
    list: &mut ListIn<R>,
    poller: &Waker,
    wakes: &mut Trail<Signal<ListIn<R>>>,
    number: u32,
    next: Next,
)
    ensures pushed { pushed_by list.new ≡ pushed_by list.old ++ handed_on next number }
    ensures woken { signals_with pushed_by wakes.new ≡ signals_with pushed_by wakes.old
        ++ wakes_after poller.now (pushed_by list.old) (handed_on next number) }
{
    if matches!(next, Next::Repoll | Next::Again(Kind::List)) {
        list.push(number);
        poller.wake(list, wakes);
    }
}

impl<'p, 'n, R: Wait + Drop> Serves for ThreadPoller<'p, 'n, R> {
    ghost use Rattle.poll_engine.specs.Turns.{TurnsAlone, has_no_thread};

    ghost idle = { has_no_thread };

    ghost turns = { TurnsAlone };

    fn is_idle(&self) -> bool {
        self.seat.value.thread.is_none()
    }

    fn turn(&mut self) -> bool {
        let report = self.seat.value.poll_thread(
            &self.rt,
            self.limits.weight,
            self.limits.window,
            &mut self.batch,
        );
        hand_on(
            &mut self.list,
            self.poller,
            &mut self.wakes,
            self.seat.value.number,
            report.next,
        );
        report.polls > 0
    }
}
