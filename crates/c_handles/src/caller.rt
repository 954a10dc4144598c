//! A caller and the controller of a shared instance, each with the instance, as objects of handles. Each call is one attempt,
//! which doesn't wait. Its status is NOT_ALLOWED, and it has no effect, if the object's state doesn't allow it.
ghost use Rattle.std.specs.Prelude.{◌≡◌, ◌≢◌, ◌≤◌, length, take};
ghost use Rattle.std.specs.Arc.{arc_value};
ghost use Rattle.c_handles.specs.Answers.{count_answer};
ghost use Rattle.c_handles.specs.Status.{OK};
ghost use Rattle.c_handles.specs.CallerCalls.{CallerLooks, CallerReceives, caller_counts, controller_counts};
ghost use Rattle.c_handles.specs.CallerCalls.{CallerSchedules, CallerHands, CallerTakes, CallerRequeues, CallerCompletes};
ghost use Rattle.c_handles.specs.CallerCalls.{CallerBusyTakes, CallerBusyStops, CallerSetsThreaded};
ghost use Rattle.c_handles.specs.CallerCalls.{ControlEnables, ControlMarks, ControlTakes};
ghost use Rattle.c_handles.specs.Callers.{CallsAt, ControlsAt, calls_prop, controls_prop};
ghost use Rattle.napi_calls.specs.declared.state.CallerState.TheVariants as caller;
ghost use Rattle.napi_calls.specs.declared.state.ControlState.TheVariants as controller;
ghost use Rattle.poll_runs.specs.Ranges.{IsWeight};

use crate::answers::FqAnswers;
use crate::status;
use napi_calls::{CallerState, ControlState, Napi, TryBusy, TryDone, TryPrep, TryStop, TryTake};
use napi_model::{Kind, Seen};
use rx_ring::{Packet, RxCounts};
use std::alloc::Global;
use std::mem;
use std::sync::Arc;
use std::sync::atomic::{AtomicU64, Ordering};

/// The instance, shared by the handles of its callers and its controller.
pub struct Shared {
    /// The instance.
    pub napi: Napi,
    // How often the controller was asked whether a caller belongs to it, to tell this instance from others.
    asked: AtomicU64,
}

impl Drop for Shared {
    fn drop(self) {
        let Shared { napi, asked: _ } = self;
        napi.abandon();
    }
}

impl Shared {
    /// Returns an instance, to be shared.
    pub fn new(napi: Napi) -> Shared
        ensures { result.napi ≡ napi }
    {
        Shared {
            napi,
            asked: AtomicU64::new(0),
        }
    }

    /// Returns the instance, after the other handles were freed.
    pub fn into_napi(self) -> Napi
        ensures { result ≡ self.napi }
    {
        let Shared { napi, asked: _ } = self;
        napi
    }
}

/// A caller, with its instance.
pub struct CallerObject {
    /// Its instance.
    pub napi: Arc<Shared, Global>,
    /// Its state.
    pub state: CallerState,
    /// The counts of the results of its calls.
    pub answers: FqAnswers,
    /// Proof that the caller belongs to that instance.
    pub ghost belongs: { CallsAt (arc_value napi).napi state } by { calls_prop (arc_value napi).napi state },
}

impl Drop for CallerObject {
    fn drop(self) {
        let CallerObject {
            napi: _napi,
            state,
            answers: _,
        } = self;
        state.abandon();
    }
}

impl CallerObject {
    ghost use Rattle.c_handles.specs.Handles.{CallerStep};

    // Ends a call: writes the caller's state after it, counts its status, and returns that.
    #[inline(always)]
    fn end(&mut self, state: CallerState, status: u32) -> u32
        requires gone { self.old.state ≡ caller.Gone }
        requires belongs { CallsAt (arc_value self.old.napi).napi state }
        ensures state { self.new.state ≡ state }
        ensures counted { self.new.answers ≡ count_answer status self.old.answers }
        ensures status { result ≡ status }
    {
        self.state.put(state);
        self.answers.count(status);
        status
    }

    /// Like `Caller::try_schedule`: returns GRANTED, MISSED, DISABLED or CHANGED.
    #[inline]
    pub fn schedule(&mut self) -> u32
        ensures { CallerStep CallerSchedules self.old result self.new }
    {
        match mem::replace(&mut self.state, CallerState::Gone) {
            CallerState::Rests(caller) => match caller.try_schedule(&self.napi.napi) {
                TryPrep::Granted(granted) => {
                    self.end(CallerState::Granted(granted), status::GRANTED)
                }
                TryPrep::Missed(caller) => self.end(CallerState::Rests(caller), status::MISSED),
                TryPrep::Disabled(caller) => self.end(CallerState::Rests(caller), status::DISABLED),
                TryPrep::Changed(caller) => self.end(CallerState::Rests(caller), status::CHANGED),
            },
            other => self.end(other, status::NOT_ALLOWED),
        }
    }

    /// Like `Granted::hand`: returns OK.
    #[inline]
    pub fn hand(&mut self, kind: Kind) -> u32
        ensures { CallerStep (CallerHands kind) self.old result self.new }
    {
        match mem::replace(&mut self.state, CallerState::Gone) {
            CallerState::Granted(granted) => {
                let caller = granted.hand(&self.napi.napi, kind);
                self.end(CallerState::Rests(caller), status::OK)
            }
            other => self.end(other, status::NOT_ALLOWED),
        }
    }

    /// Like `Caller::take`: returns TAKEN or NOT_THERE.
    #[inline]
    pub fn take(&mut self, kind: Kind) -> u32
        ensures { CallerStep (CallerTakes kind) self.old result self.new }
    {
        match mem::replace(&mut self.state, CallerState::Gone) {
            CallerState::Rests(caller) => match caller.take(&self.napi.napi, kind) {
                Ok(polling) => self.end(CallerState::Polls(polling), status::TAKEN),
                Err(caller) => self.end(CallerState::Rests(caller), status::NOT_THERE),
            },
            other => self.end(other, status::NOT_ALLOWED),
        }
    }

    /// Like `Polling::requeue`: returns OK.
    #[inline]
    pub fn requeue(&mut self) -> u32
        ensures { CallerStep CallerRequeues self.old result self.new }
    {
        match mem::replace(&mut self.state, CallerState::Gone) {
            CallerState::Polls(polling) => {
                let caller = polling.requeue(&self.napi.napi);
                self.end(CallerState::Rests(caller), status::OK)
            }
            other => self.end(other, status::NOT_ALLOWED),
        }
    }

    /// Like `Polling::try_complete`: returns RELEASED, AGAIN or CHANGED; HELD if the caller busy polls (`Busy::complete_held`).
    #[inline]
    pub fn complete(&mut self) -> u32
        ensures { CallerStep CallerCompletes self.old result self.new }
    {
        match mem::replace(&mut self.state, CallerState::Gone) {
            CallerState::Polls(polling) => match polling.try_complete(&self.napi.napi) {
                TryDone::Released(caller) => self.end(CallerState::Rests(caller), status::RELEASED),
                TryDone::Again(granted) => self.end(CallerState::Granted(granted), status::AGAIN),
                TryDone::Changed(polling) => self.end(CallerState::Polls(polling), status::CHANGED),
            },
            CallerState::Busy(mut busy) => {
                busy.complete_held(&self.napi.napi);
                self.end(CallerState::Busy(busy), status::HELD)
            }
            other => self.end(other, status::NOT_ALLOWED),
        }
    }

    /// Like `Caller::try_busy`: returns TAKEN, BUSY or CHANGED.
    #[inline]
    pub fn busy_take(&mut self) -> u32
        ensures { CallerStep CallerBusyTakes self.old result self.new }
    {
        match mem::replace(&mut self.state, CallerState::Gone) {
            CallerState::Rests(caller) => match caller.try_busy(&self.napi.napi) {
                TryBusy::Taken(busy) => self.end(CallerState::Busy(busy), status::TAKEN),
                TryBusy::Refused(caller) => self.end(CallerState::Rests(caller), status::BUSY),
                TryBusy::Changed(caller) => self.end(CallerState::Rests(caller), status::CHANGED),
            },
            other => self.end(other, status::NOT_ALLOWED),
        }
    }

    /// Like `Busy::try_stop`: returns OK or CHANGED.
    #[inline]
    pub fn busy_stop(&mut self) -> u32
        ensures { CallerStep CallerBusyStops self.old result self.new }
    {
        match mem::replace(&mut self.state, CallerState::Gone) {
            CallerState::Busy(busy) => match busy.try_stop(&self.napi.napi) {
                TryStop::Stopped(polling) => self.end(CallerState::Polls(polling), status::OK),
                TryStop::Changed(busy) => self.end(CallerState::Busy(busy), status::CHANGED),
            },
            other => self.end(other, status::NOT_ALLOWED),
        }
    }

    /// Like `Caller::set_threaded`: returns OK.
    pub fn set_threaded(&mut self, threaded: bool) -> u32
        ensures { CallerStep (CallerSetsThreaded threaded) self.old result self.new }
    {
        match &mut self.state {
            CallerState::Rests(caller) => {
                caller.set_threaded(&self.napi.napi, threaded);
                status::OK
            }
            _ => status::NOT_ALLOWED,
        }
    }

    /// Reads the state word, in every state; returns `None` within a call.
    pub fn look(&mut self) -> Option<Seen>
        ensures looks { CallerLooks self.old.state result self.new.state }
        ensures answers { self.new.answers ≡ self.old.answers }
    {
        let napi = &self.napi.napi;
        match &mut self.state {
            CallerState::Rests(caller) => Some(caller.look(napi)),
            CallerState::Granted(granted) => Some(granted.look(napi)),
            CallerState::Polls(polling) => Some(polling.look(napi)),
            CallerState::Busy(busy) => Some(busy.look(napi)),
            CallerState::Gone => None,
        }
    }

    /// The counts of the ring's polls, if the caller polls.
    pub fn counts(&self) -> Option<RxCounts>
        ensures { result ≡ caller_counts self.now.state }
    {
        match &self.state {
            CallerState::Polls(polling) => Some(polling.counts()),
            CallerState::Busy(busy) => Some(busy.counts()),
            _ => None,
        }
    }

    /// Like `Polling::poll_into` and `Busy::poll_into`: sets `count`; the packets are the first `count` elements.
    #[inline]
    pub fn poll(&mut self, weight: usize, out: &mut [Packet], count: &mut usize) -> u32
        requires weight { IsWeight weight }
        requires room { weight ≤ length out.old }
        requires none { count.old ≡ 0 }
        ensures polls { CallerReceives weight (take count.new out.new) self.old.state result
            self.new.state }
        ensures most { (count.new ≤ weight) × (count.new ≤ length out.new) }
        ensures answers { self.new.answers ≡ self.old.answers }
        ensures kept { result ≢ OK → (count.new ≡ 0) × (out.new ≡ out.old)
            × (self.new ≡ self.old) }
    {
        *count = match &mut self.state {
            CallerState::Polls(polling) => polling.poll_into(weight, out),
            CallerState::Busy(busy) => busy.poll_into(weight, out),
            _ => return status::NOT_ALLOWED,
        };
        status::OK
    }
}

/// The controller, with its instance.
pub struct Controller {
    /// Its instance.
    pub napi: Arc<Shared, Global>,
    /// Its state.
    pub state: ControlState,
    /// Proof that the controller belongs to that instance.
    pub ghost belongs: { ControlsAt (arc_value napi).napi state } by { controls_prop (arc_value napi).napi state },
}

impl Drop for Controller {
    fn drop(self) {
        let Controller { napi: _napi, state } = self;
        state.abandon();
    }
}

impl Controller {
    ghost use Rattle.c_handles.specs.Handles.{ControlStep};

    // Ends a call: writes the controller's state after it, and returns its status.
    fn end(&mut self, state: ControlState, status: u32) -> u32
        requires gone { self.old.state ≡ controller.Gone }
        requires controls { ControlsAt (arc_value self.old.napi).napi state }
        ensures state { self.new.state ≡ state }
        ensures status { result ≡ status }
    {
        self.state.put(state);
        status
    }

    /// Like `Control::try_enable`: returns OK or CHANGED.
    pub fn enable(&mut self, threaded: bool) -> u32
        ensures { ControlStep (ControlEnables threaded) self.old result self.new }
    {
        match mem::replace(&mut self.state, ControlState::Gone) {
            ControlState::Off(control) => match control.try_enable(&self.napi.napi, threaded) {
                Ok(control) => self.end(ControlState::On(control), status::OK),
                Err(control) => self.end(ControlState::Off(control), status::CHANGED),
            },
            other => self.end(other, status::NOT_ALLOWED),
        }
    }

    /// Like `Control::mark`: returns OK.
    pub fn mark(&mut self) -> u32
        ensures { ControlStep ControlMarks self.old result self.new }
    {
        match mem::replace(&mut self.state, ControlState::Gone) {
            ControlState::On(control) => {
                let control = control.mark(&self.napi.napi);
                self.end(ControlState::Marked(control), status::OK)
            }
            other => self.end(other, status::NOT_ALLOWED),
        }
    }

    /// Like `Control::try_take`: returns TAKEN, BUSY or CHANGED.
    pub fn try_take(&mut self) -> u32
        ensures { ControlStep ControlTakes self.old result self.new }
    {
        match mem::replace(&mut self.state, ControlState::Gone) {
            ControlState::Marked(control) => match control.try_take(&self.napi.napi) {
                TryTake::Taken(control) => self.end(ControlState::Off(control), status::TAKEN),
                TryTake::Busy(control) => self.end(ControlState::Marked(control), status::BUSY),
                TryTake::Changed(control) => self.end(
                    ControlState::Marked(control),
                    status::CHANGED,
                ),
            },
            other => self.end(other, status::NOT_ALLOWED),
        }
    }

    /// Returns whether a caller belongs to the controller's instance. It may also return true for a caller of another instance
    /// whose controller is asked at the same time.
    pub fn has(&self, caller: &CallerObject) -> bool {
        let before = caller.napi.asked.load(Ordering::SeqCst);
        self.napi.asked.fetch_add(1, Ordering::SeqCst);
        caller.napi.asked.load(Ordering::SeqCst) != before
    }

    /// The counts of the ring's polls, if the instance is disabled.
    pub fn counts(&self) -> Option<RxCounts>
        ensures { result ≡ controller_counts self.now.state }
    {
        match &self.state {
            ControlState::Off(control) => Some(control.counts()),
            _ => None,
        }
    }
}
