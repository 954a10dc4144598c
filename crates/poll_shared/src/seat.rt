//! A caller's handle on an instance that threads share, as its poller uses it.

ghost use Rattle.std.specs.Prelude.{◌≡◌, List};
ghost use Rattle.napi_model.specs.declared.event.Operation.{Operation};
ghost use Rattle.napi_calls.specs.Dealt.{Delivers};
ghost use Rattle.napi_calls.specs.Instance.{IsSeatOf};
ghost use Rattle.napi_calls.specs.Made.{Made};
ghost use Rattle.napi_calls.specs.Packets.{Quiet, polled};
ghost use Rattle.poll_runs.specs.Polling.{completed, handed, kind_for, next_of};
ghost use Rattle.poll_shared.specs.Tries.{PlanMakes};

use napi_calls::{Busy, Caller, CallerState, Completed, Granted, Napi, Polling};
use napi_model::{Flags, Kind};
use poll_runs::{BusyInstance, Instance};
use rx_ring::{Batch, Packet, batch_bytes};
use std::mem;
use std::sync::Wait;

/// A handle by which a caller polls, as an [`Instance`]. It is linear: [`rise`](SharedHandle::rise) returns the caller.
pub(crate) struct SharedHandle<'a, R> {
    pub(crate) rt: &'a R,
    pub(crate) napi: &'a Napi,
    pub(crate) thread: bool,
    pub(crate) state: CallerState,
}

// Returns the instance's own thread if THREADED is set, otherwise the list.
fn kind_for(flags: Flags) -> Kind
    ensures { result ≡ kind_for flags }
{
    if flags.threaded {
        Kind::Thread
    } else {
        Kind::List
    }
}

/// Queues an instance that was granted (`____napi_schedule`): for its own thread, if `thread` says that it has one and THREADED
/// is set, otherwise on the list. Returns which; if it is the list, the caller still has to push the number.
pub fn hand_over(napi: &Napi, mut granted: Granted, thread: bool) -> (Caller, Kind)
    requires { IsSeatOf napi.now granted.pass }
    ensures made { (os : List Operation) × Made granted.pass os result.0.pass
        × PlanMakes (handed thread) os result.1 }
    ensures packets { Quiet granted.pass result.0.pass }
{
    if !thread {
        return (granted.hand(napi, Kind::List), Kind::List);
    }
    let seen = granted.look(napi);
    let kind = kind_for(seen.flags);
    (granted.hand(napi, kind), kind)
}

/// Completes an instance (`napi_complete_done`). After a missed request it queues the instance again, like [`hand_over`], and
/// returns in which queue; `None` means that the instance was released.
pub fn complete<R: Wait>(
    rt: &R,
    napi: &Napi,
    polling: Polling,
    thread: bool,
) -> (Caller, Option<Kind>)
    requires { IsSeatOf napi.now polling.pass }
    ensures made { (os : List Operation) × Made polling.pass os result.0.pass
        × PlanMakes (completed thread) os (next_of result.1) }
    ensures packets { Delivers polling.pass (polled polling.pass polling.ctx) result.0.pass }
{
    match polling.complete(rt, napi) {
        Completed::Released(caller) => (caller, None),
        Completed::Again(granted) => {
            let (caller, kind) = hand_over(napi, granted, thread);
            (caller, Some(kind))
        }
    }
}

impl<'a, R: Wait> SharedHandle<'a, R> {
    ghost use Rattle.std.specs.Prelude.{◌≡◌};
    ghost use Rattle.poll_shared.specs.Seat.{seat_in_busy, seat_in_hand, seat_rests};
    ghost use Rattle.napi_calls.specs.declared.state.CallerState.TheVariants as variant;

    /// Ends the handle, and returns its caller, which doesn't poll any more.
    pub(crate) fn rise(self) -> Caller
        requires { seat_rests self }
        ensures { self.entry.state ≡ variant.Rests result }
    {
        let SharedHandle {
            rt: _,
            napi: _,
            thread: _,
            state,
        } = self;
        match state {
            CallerState::Rests(caller) => caller,
            _ => unreachable!(),
        }
    }

    // Takes the caller out of the handle, for a call.
    fn caller(&mut self) -> Caller
        requires { seat_rests self.old }
        ensures was { self.old.state ≡ variant.Rests result }
        ensures gone { self.new ≡ record self.old { state = variant.Gone } }
    {
        match mem::replace(&mut self.state, CallerState::Gone) {
            CallerState::Rests(caller) => caller,
            _ => unreachable!(),
        }
    }

    // Takes the poller out of the handle, for a call.
    fn polling(&mut self) -> Polling
        requires { seat_in_hand self.old }
        ensures was { self.old.state ≡ variant.Polls result }
        ensures gone { self.new ≡ record self.old { state = variant.Gone } }
    {
        match mem::replace(&mut self.state, CallerState::Gone) {
            CallerState::Polls(polling) => polling,
            _ => unreachable!(),
        }
    }

    // Takes the busy poller out of the handle, for a call.
    fn busy(&mut self) -> Busy
        requires { seat_in_busy self.old }
        ensures was { self.old.state ≡ variant.Busy result }
        ensures gone { self.new ≡ record self.old { state = variant.Gone } }
    {
        match mem::replace(&mut self.state, CallerState::Gone) {
            CallerState::Busy(busy) => busy,
            _ => unreachable!(),
        }
    }

    // Puts the result of a call back into the handle.
    fn put(&mut self, state: CallerState)
        requires { self.old.state ≡ variant.Gone }
        ensures { self.new ≡ record self.old { state = state } }
    {
        self.state.put(state);
    }
}

impl<'a, R: Wait> Instance for SharedHandle<'a, R> {
    ghost use Rattle.poll_shared.specs.Seat.{SeatDid, seat_in_hand, seat_rests};
    ghost use Rattle.poll_shared.specs.SeatLaws.{seat_joins, seat_nothing};
    ghost use Rattle.poll_shared.specs.Tries.{Tries};

    type Packet = Packet;

    type Packets = Batch;

    ghost rests = { seat_rests };

    ghost in_hand = { seat_in_hand };

    ghost thread = { λ s. s.thread };

    ghost tries = { Tries };

    ghost did = { SeatDid };

    ghost has = { λ batch packets. batch.items ≡ packets };

    fn take(&mut self, kind: Kind) -> bool {
        match self.caller().take(self.napi, kind) {
            Ok(polling) => {
                self.put(CallerState::Polls(polling));
                true
            }
            Err(caller) => {
                self.put(CallerState::Rests(caller));
                false
            }
        }
    }

    fn poll(&mut self, weight: u32, batch: &mut Batch) -> u32 {
        let mut polling = self.polling();
        let work = polling.poll(weight as usize, batch);
        self.put(CallerState::Polls(polling));
        work as u32
    }

    fn is_disabling(&mut self) -> bool {
        let mut polling = self.polling();
        let seen = polling.look(self.napi);
        self.put(CallerState::Polls(polling));
        seen.flags.disable
    }

    fn requeue(&mut self) {
        let caller = self.polling().requeue(self.napi);
        self.put(CallerState::Rests(caller));
    }

    fn complete(&mut self) -> Option<Kind> {
        let polling = self.polling();
        let (caller, again) = complete(self.rt, self.napi, polling, self.thread);
        self.put(CallerState::Rests(caller));
        again
    }

    ghost nothing = { seat_nothing };

    ghost joins = { seat_joins };

    ghost same = { λ before after deeds did. did.thread };
}

impl<'a, R: Wait> BusyInstance for SharedHandle<'a, R> {
    ghost use Rattle.rx_ring.specs.ReceiveRing.{bytes_of};
    ghost use Rattle.poll_shared.specs.Seat.{seat_in_busy};

    ghost in_busy = { seat_in_busy };

    ghost bytes_in = { bytes_of };

    fn busy_take(&mut self) -> bool {
        match self.caller().busy(self.rt, self.napi) {
            Ok(busy) => {
                self.put(CallerState::Busy(busy));
                true
            }
            Err(caller) => {
                self.put(CallerState::Rests(caller));
                false
            }
        }
    }

    fn busy_poll(&mut self, weight: u32, batch: &mut Batch) -> u32 {
        let mut busy = self.busy();
        let work = busy.poll(weight as usize, batch);
        self.put(CallerState::Busy(busy));
        work as u32
    }

    fn hold(&mut self) {
        let mut busy = self.busy();
        busy.complete_held(self.napi);
        self.put(CallerState::Busy(busy));
    }

    fn stop(&mut self) {
        let polling = self.busy().stop(self.rt, self.napi);
        self.put(CallerState::Polls(polling));
    }

    fn bytes_of(batch: &Batch) -> u64 {
        batch_bytes(batch)
    }
}
