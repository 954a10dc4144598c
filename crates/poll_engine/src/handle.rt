//! A poller's handle on one instance.

ghost use Rattle.std.specs.Prelude.{◌≡◌, ◌≤◌, IsSome, None};
ghost use Rattle.std.specs.Option.{ForSome};
ghost use Rattle.napi_calls.specs.Instance.{IsSeatOf};
ghost use Rattle.poll_runs.specs.Ranges.{IsMost, IsWeight};

use crate::setup::signals::Waker;
use crate::setup::trail::{Signal, Trail};
use napi_calls::{Caller, Napi};
use napi_model::Kind;
use poll_runs::{Next, Once, ThreadReport};
use poll_shared::{poll_instance, poll_instance_by_thread};
use rx_ring::Batch;
use std::mem;
use std::sync::Wait;

/// A poller's handle on one instance. It is linear: it can't be dropped.
pub struct PollHandle<'n> {
    /// The device's number.
    pub number: u32,
    /// The instance.
    pub napi: &'n Napi,
    /// The waker of the instance's own thread, if it has one.
    pub thread: Option<&'n Waker>,
    /// The caller that polls; `None` only during a poll.
    pub caller: Option<Caller>,
    ghost of: { ForSome caller (λ c. IsSeatOf napi.now c.pass) },
}

impl<'n> PollHandle<'n> {
    ghost use Rattle.std.specs.Prelude.{◌≡◌, ◌≤◌, IsSome, Some, is_some};
    ghost use Rattle.poll_engine.specs.Polled.{Polls, PollsByThread};
    ghost use Rattle.poll_engine.specs.Woken.{WakesThread};
    ghost use Rattle.poll_engine.specs.SeatKeeping.{IsSameSeat};

    // Puts the caller back into the handle, after a poll.
    fn sit(&mut self, caller: Caller)
        requires seat { IsSeatOf self.old.napi.now caller.pass }
        requires away { self.old.caller ≡ None }
        ensures number { self.new.number ≡ self.old.number }
        ensures napi { self.new.napi ≡ self.old.napi }
        ensures thread { self.new.thread ≡ self.old.thread }
        ensures caller { self.new.caller ≡ Some caller }
    {
        match mem::replace(&mut self.caller, Some(caller)) {
            None => {}
            Some(_) => unreachable!(),
        }
    }

    /// Returns the caller, and ends the handle.
    pub fn leave(self) -> Caller
        requires { IsSome self.caller }
        ensures of { IsSeatOf self.entry.napi.now result.pass }
        ensures caller { self.entry.caller ≡ Some result }
    {
        let PollHandle {
            number: _,
            napi: _,
            thread: _,
            caller,
        } = self;
        let Some(caller) = caller else { unreachable!() };
        caller
    }

    /// Polls the instance once, if it is on the list. If the poll queues it for its thread, the thread is woken then.
    pub(crate) fn poll<R: Wait>(
        &mut self,
        rt: &R,
        weight: u32,
        batch: &mut Batch,
        wakes: &mut Trail<Signal<Option<Caller>>>,
    ) -> Once
        requires weight { IsWeight weight }
        ensures same { IsSameSeat self.old self.new }
        ensures polls { Polls (is_some self.old.thread) weight self.old.caller result
            batch.new.items self.new.caller }
        ensures wakes { WakesThread self.old.thread result.next self.new.caller
            wakes.old wakes.new }
        ensures work { result.work ≤ weight }
    {
        let Some(caller) = mem::replace(&mut self.caller, None) else {
            return Once {
                work: 0,
                next: Next::Absent,
            };
        };
        let (caller, once) = poll_instance(
            rt,
            self.napi,
            caller,
            weight,
            self.thread.is_some(),
            batch,
        );
        self.sit(caller);
        if once.next == Next::Again(Kind::Thread)
            && let Some(waker) = self.thread
        {
            waker.wake(&self.caller, wakes);
        }
        once
    }

    /// Polls the instance as its thread, if it was queued for the thread, at most this many times.
    pub(crate) fn poll_thread<R: Wait>(
        &mut self,
        rt: &R,
        weight: u32,
        most: u32,
        batch: &mut Batch,
    ) -> ThreadReport
        requires weight { IsWeight weight }
        requires most { IsMost most }
        ensures same { IsSameSeat self.old self.new }
        ensures polls { PollsByThread weight most self.old.caller result batch.new.items
            self.new.caller }
    {
        let Some(caller) = mem::replace(&mut self.caller, None) else {
            return ThreadReport {
                polls: 0,
                work: 0,
                next: Next::Absent,
            };
        };
        let (caller, report) = poll_instance_by_thread(rt, self.napi, caller, weight, most, batch);
        self.sit(caller);
        report
    }
}
