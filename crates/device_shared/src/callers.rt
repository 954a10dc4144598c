//! The calls on an instance, each made by one of the callers that one thread owns.

ghost use Rattle.std.specs.Prelude.{◌≡◌, ◌≤◌, true, length, not};
ghost use Rattle.napi_calls.specs.declared.state.CallerState.TheVariants as caller;
ghost use Rattle.rx_ring.specs.Ends.{SameIn};
ghost use Rattle.device_shared.specs.Callers.{IsBusyTaken, IsFed, IsSeat, IsTaken, Same, control_pass, control_marked, control_off, control_on, fits_poller, fits_thread, owns, state_pass, has_polling, has_busy, has_caller};

use napi_calls::{Busy, Caller, CallerState, ControlState, Napi, Polling, Sched, TryTake};
use napi_model::{Kind, Prep, Seen};
use poll_shared::{complete, hand_over};
use rx_ring::{Batch, MAX_WEIGHT, RxIn};
use std::mem;
use std::sync::Wait;

// Takes a caller that owns nothing out of its place.
fn resting(place: &mut CallerState) -> Caller
    requires { has_caller place.old ≡ true }
    ensures was { place.old ≡ caller.Rests result }
    ensures gone { place.new ≡ caller.Gone }
{
    match mem::replace(place, CallerState::Gone) {
        CallerState::Rests(caller) => caller,
        _ => unreachable!(),
    }
}

// Takes a poller out of its place.
fn polling(place: &mut CallerState) -> Polling
    requires { has_polling place.old ≡ true }
    ensures was { place.old ≡ caller.Polls result }
    ensures gone { place.new ≡ caller.Gone }
{
    match mem::replace(place, CallerState::Gone) {
        CallerState::Polls(polling) => polling,
        _ => unreachable!(),
    }
}

// Takes a busy poller out of its place.
fn busy(place: &mut CallerState) -> Busy
    requires { has_busy place.old ≡ true }
    ensures was { place.old ≡ caller.Busy result }
    ensures gone { place.new ≡ caller.Gone }
{
    match mem::replace(place, CallerState::Gone) {
        CallerState::Busy(busy) => busy,
        _ => unreachable!(),
    }
}

/// Reads the state word, by a caller that owns nothing.
pub(crate) fn look(napi: &Napi, place: &mut CallerState) -> Seen
    requires rests { has_caller place.old ≡ true }
    requires seat { IsSeat napi.now (state_pass place.old) }
    ensures same { Same (state_pass place.old) (state_pass place.new) }
    ensures state { has_caller place.new ≡ true }
{
    let mut caller = resting(place);
    let seen = caller.look(napi);
    place.put(CallerState::Rests(caller));
    seen
}

/// Sets whether the instance is scheduled on the device's thread, by a caller that owns nothing.
pub(crate) fn set_threaded(napi: &Napi, place: &mut CallerState, threaded: bool)
    requires rests { has_caller place.old ≡ true }
    requires seat { IsSeat napi.now (state_pass place.old) }
    ensures same { Same (state_pass place.old) (state_pass place.new) }
    ensures state { has_caller place.new ≡ true }
{
    let mut caller = resting(place);
    caller.set_threaded(napi, threaded);
    place.put(CallerState::Rests(caller));
}

/// Requests a poll, as an interrupt handler does; if the request is granted, it queues the instance.
pub(crate) fn request<R: Wait>(rt: &R, napi: &Napi, place: &mut CallerState) -> (Prep, Option<Kind>)
    requires rests { has_caller place.old ≡ true }
    requires seat { IsSeat napi.now (state_pass place.old) }
    ensures same { Same (state_pass place.old) (state_pass place.new) }
    ensures state { has_caller place.new ≡ true }
{
    let (caller, prep, kind) = match resting(place).schedule(rt, napi) {
        Sched::Granted(granted) => {
            let (caller, kind) = hand_over(napi, granted, true);
            (caller, Prep::Granted, Some(kind))
        }
        Sched::Missed(caller) => (caller, Prep::Missed, None),
        Sched::Disabled(caller) => (caller, Prep::Disabled, None),
    };
    place.put(CallerState::Rests(caller));
    (prep, kind)
}

/// Tries to take the instance from this queue.
pub(crate) fn take(napi: &Napi, place: &mut CallerState, kind: Kind) -> bool
    requires rests { has_caller place.old ≡ true }
    requires seat { IsSeat napi.now (state_pass place.old) }
    ensures same { Same (state_pass place.old) (state_pass place.new) }
    ensures state { IsTaken result place.new }
{
    match resting(place).take(napi, kind) {
        Ok(polling) => {
            place.put(CallerState::Polls(polling));
            true
        }
        Err(caller) => {
            place.put(CallerState::Rests(caller));
            false
        }
    }
}

/// Tries to take an idle instance, to busy poll it.
pub(crate) fn busy_take<R: Wait>(rt: &R, napi: &Napi, place: &mut CallerState) -> bool
    requires rests { has_caller place.old ≡ true }
    requires seat { IsSeat napi.now (state_pass place.old) }
    ensures same { Same (state_pass place.old) (state_pass place.new) }
    ensures state { IsBusyTaken result place.new }
{
    match resting(place).busy(rt, napi) {
        Ok(busy) => {
            place.put(CallerState::Busy(busy));
            true
        }
        Err(caller) => {
            place.put(CallerState::Rests(caller));
            false
        }
    }
}

/// Queues an instance that this caller polls on the list again.
pub(crate) fn requeue(napi: &Napi, place: &mut CallerState)
    requires polls { has_polling place.old ≡ true }
    requires seat { IsSeat napi.now (state_pass place.old) }
    ensures same { Same (state_pass place.old) (state_pass place.new) }
    ensures state { has_caller place.new ≡ true }
{
    let caller = polling(place).requeue(napi);
    place.put(CallerState::Rests(caller));
}

/// Completes an instance that this caller polls, and queues it again after a missed request.
pub(crate) fn complete_by<R: Wait>(rt: &R, napi: &Napi, place: &mut CallerState) -> Option<Kind>
    requires polls { has_polling place.old ≡ true }
    requires seat { IsSeat napi.now (state_pass place.old) }
    ensures same { Same (state_pass place.old) (state_pass place.new) }
    ensures state { has_caller place.new ≡ true }
{
    let (caller, again) = complete(rt, napi, polling(place), true);
    place.put(CallerState::Rests(caller));
    again
}

/// Completes a poll of an instance that this caller busy polls.
pub(crate) fn hold(napi: &Napi, place: &mut CallerState)
    requires polls { has_busy place.old ≡ true }
    requires seat { IsSeat napi.now (state_pass place.old) }
    ensures same { Same (state_pass place.old) (state_pass place.new) }
    ensures state { has_busy place.new ≡ true }
{
    let mut busy = busy(place);
    busy.complete_held(napi);
    place.put(CallerState::Busy(busy));
}

/// Stops busy polling: the caller still polls the instance.
pub(crate) fn stop<R: Wait>(rt: &R, napi: &Napi, place: &mut CallerState)
    requires polls { has_busy place.old ≡ true }
    requires seat { IsSeat napi.now (state_pass place.old) }
    ensures same { Same (state_pass place.old) (state_pass place.new) }
    ensures state { has_polling place.new ≡ true }
{
    let polling = busy(place).stop(rt, napi);
    place.put(CallerState::Polls(polling));
}

/// Polls the ring once, by a caller that polls the instance. The ends of the ring meet before the poll, so that it finds every
/// packet, and after it, so that the input end knows every free slot.
pub(crate) fn poll(place: &mut CallerState, input: &mut RxIn, weight: usize, batch: &mut Batch)
    requires polls { owns place.old ≡ true }
    requires fed { IsFed input.old (state_pass place.old) }
    requires weight { (1 ≤ weight) × (weight ≤ MAX_WEIGHT) }
    ensures pass { state_pass place.new ≡ state_pass place.old }
    ensures same { (has_polling place.new ≡ has_polling place.old)
        × (has_busy place.new ≡ has_busy place.old) }
    ensures kinds { (fits_poller place.new ≡ fits_poller place.old)
        × (fits_thread place.new ≡ fits_thread place.old) }
    ensures input { SameIn input.old input.new }
    ensures few { length batch.new.items ≤ weight }
{
    match place {
        CallerState::Polls(polling) => {
            polling.beside(input);
            polling.poll(weight, batch);
            polling.beside(input);
        }
        CallerState::Busy(busy) => {
            busy.beside(input);
            busy.poll(weight, batch);
            busy.beside(input);
        }
        _ => unreachable!(),
    }
}

/// Marks a disable on an instance that is enabled.
pub(crate) fn mark(napi: &Napi, place: &mut ControlState)
    requires on { control_on place.old ≡ true }
    requires seat { IsSeat napi.now (control_pass place.old) }
    ensures same { Same (control_pass place.old) (control_pass place.new) }
    ensures state { control_marked place.new ≡ true }
{
    let marked = match mem::replace(place, ControlState::Gone) {
        ControlState::On(control) => control.mark(napi),
        _ => unreachable!(),
    };
    place.put(ControlState::Marked(marked));
}

/// Tries a pending disable once. Returns whether the controller took the instance.
pub(crate) fn try_take(napi: &Napi, place: &mut ControlState) -> bool
    requires marked { control_marked place.old ≡ true }
    requires seat { IsSeat napi.now (control_pass place.old) }
    ensures same { Same (control_pass place.old) (control_pass place.new) }
    ensures state { control_marked place.new ≡ not result }
{
    let tried = match mem::replace(place, ControlState::Gone) {
        ControlState::Marked(control) => control.try_take(napi),
        _ => unreachable!(),
    };
    match tried {
        TryTake::Taken(control) => {
            place.put(ControlState::Off(control));
            true
        }
        TryTake::Busy(control) | TryTake::Changed(control) => {
            place.put(ControlState::Marked(control));
            false
        }
    }
}

/// Enables an instance that is disabled.
pub(crate) fn enable<R: Wait>(rt: &R, napi: &Napi, place: &mut ControlState, threaded: bool)
    requires off { control_off place.old ≡ true }
    requires seat { IsSeat napi.now (control_pass place.old) }
    ensures same { Same (control_pass place.old) (control_pass place.new) }
    ensures state { control_on place.new ≡ true }
{
    let enabled = match mem::replace(place, ControlState::Gone) {
        ControlState::Off(control) => control.enable(rt, napi, threaded),
        _ => unreachable!(),
    };
    place.put(ControlState::On(enabled));
}
