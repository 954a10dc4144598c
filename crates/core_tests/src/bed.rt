//! An instance with two callers, and calls that return what a test expects; any other result fails the test.

ghost use Rattle.std.specs.Prelude.{◌≡◌, ◌≤◌, ℕ, [], ◌∷◌, length, slice_get, Some, true, false};
ghost use Rattle.rx_ring.specs.Ends.{IsOneRing, SameIn, received_list};
ghost use Rattle.rx_ring.specs.ReceiveRing.{NAPI_POLL_WEIGHT};
ghost use Rattle.napi_model.specs.declared.state.Seen.{Seen};
ghost use Rattle.napi_model.specs.declared.state.Kind.TheVariants as kind;
ghost use Rattle.napi_model.specs.declared.event.Prep.TheVariants as prep;
ghost use Rattle.napi_model.specs.declared.event.Done.TheVariants as done;
ghost use Rattle.napi_model.specs.declared.event.Operation.TheVariants.{Look, Schedule, Hand, Take, Complete, MarkDisable, TakeDisable, Unmark};
ghost use Rattle.napi_calls.specs.declared.types.Caller.{Caller};
ghost use Rattle.napi_calls.specs.Instance.{IsSeatOf, IsNewSeat, callers_of, first_of_instance};
ghost use Rattle.napi_calls.specs.Seats.{PutsIntoRingOf};
ghost use Rattle.napi_calls.specs.Made.{Made};
ghost use Rattle.napi_calls.specs.Calls.{EnablesAt};
ghost use Rattle.napi_calls.specs.Closed.{IsClosed};

use napi_calls::{Caller, Control, Granted, Napi, Off, On, Polling, TryDone, TryPrep, TryTake};
use napi_model::{Kind, encode};
use rx_ring::{Batch, Packet, RxCtx, RxIn, ring};
use std::alloc::Global;
use std::process::Abort;

/// A disabled instance with a ring for four packets, and its two callers.
pub struct Bed {
    /// The input end of its ring.
    pub input: RxIn,
    /// The instance.
    pub napi: Napi,
    /// Caller 0.
    pub first: Caller,
    /// Caller 1.
    pub second: Caller,
    /// Its controller.
    pub control: Control<Off>,
    ghost two: { callers_of napi ≡ 2 },
    ghost first_of: { IsSeatOf napi first.pass },
    ghost second_of: { IsSeatOf napi second.pass },
    ghost control_of: { IsSeatOf napi control.pass },
}

/// The two callers of a new instance.
fn seat_two(
    rt: &impl Abort,
    input: RxIn,
    napi: Napi,
    mut callers: Vec<Caller>,
    control: Control<Off>,
) -> Bed
    requires two { (callers_of napi ≡ 2) × (length callers.items ≡ 2) }
    requires callers { (k : ℕ) (c : Caller) → slice_get callers.items k ≡ Some c
        → IsNewSeat napi k c.pass }
    requires control { IsNewSeat napi 2 control.pass }
    ensures bed { (result.napi ≡ napi) × (result.input ≡ input) }
    ensures first { IsNewSeat napi 0 result.first.pass }
    ensures second { IsNewSeat napi 1 result.second.pass }
    ensures control { IsNewSeat napi 2 result.control.pass }
{
    let popped = callers.pop();
    let Some(second) = popped else {
        panic!(rt; "no second caller")
    };
    let popped = callers.pop();
    let Some(first) = popped else {
        panic!(rt; "no first caller")
    };
    callers.destroy_empty();
    Bed {
        input,
        napi,
        first,
        second,
        control,
    }
}

/// Returns a new instance with its ring and its callers.
pub fn make_bed(rt: &impl Abort, alloc: Global) -> Bed
    ensures first { IsNewSeat result.napi 0 result.first.pass }
    ensures second { IsNewSeat result.napi 1 result.second.pass }
    ensures control { IsNewSeat result.napi 2 result.control.pass }
    ensures input { PutsIntoRingOf result.input result.first.pass }
    ensures nothing { received_list (first_of_instance result.napi) ≡ [] }
{
    let made = ring(alloc, 4);
    let Ok((input, ctx)) = made else {
        panic!(rt; "no ring")
    };
    let made = Napi::new(alloc, ctx, 2);
    let Ok((napi, callers, control)) = made else {
        panic!(rt; "no instance")
    };
    seat_two(rt, input, napi, callers, control)
}

/// Puts a packet, for which there has to be room.
pub fn put(rt: &impl Abort, input: &mut RxIn, packet: Packet)
    ensures { SameIn input.old input.new }
{
    assert_eq!(rt; input.put(packet), Ok(()));
}

/// Puts four packets of 60 bytes, with the numbers 0 to 3.
fn put_four(rt: &impl Abort, input: &mut RxIn)
    ensures { SameIn input.old input.new }
{
    for number in 0u64..4 {
        put(rt, input, Packet { number, bytes: 60 });
    }
}

/// Returns a new instance with these four packets in its ring.
pub fn make_full_bed(rt: &impl Abort, alloc: Global) -> Bed
    ensures first { IsNewSeat result.napi 0 result.first.pass }
    ensures second { IsNewSeat result.napi 1 result.second.pass }
    ensures control { IsNewSeat result.napi 2 result.control.pass }
    ensures input { PutsIntoRingOf result.input result.first.pass }
    ensures nothing { received_list (first_of_instance result.napi) ≡ [] }
{
    let Bed {
        mut input,
        napi,
        first,
        second,
        control,
    } = make_bed(rt, alloc);
    put_four(rt, &mut input);
    Bed {
        input,
        napi,
        first,
        second,
        control,
    }
}

/// Polls with this weight, which has to return these packets.
pub fn polls(rt: &impl Abort, polling: &mut Polling, weight: usize, packets: &[Packet])
    requires { (1 ≤ weight) × (weight ≤ NAPI_POLL_WEIGHT) }
    ensures { polling.new.pass ≡ polling.old.pass }
{
    let mut batch = Batch::new();
    polling.poll(weight, &mut batch);
    assert_eq!(rt; batch.as_slice(), packets);
}

/// Reads the state word, which has to be this one.
pub fn looked(rt: &impl Abort, napi: &Napi, caller: &mut Caller, word: u64)
    requires { IsSeatOf napi.now caller.old.pass }
    ensures { IsSeatOf napi.now caller.new.pass }
{
    let found = encode(caller.look(napi));
    if found != word {
        panic!(rt; "the word is {found} and not {word}")
    }
}

/// Enables the instance; the first attempt has to succeed.
pub fn enabled(rt: &impl Abort, napi: &Napi, control: Control<Off>, threaded: bool) -> Control<On>
    requires { IsSeatOf napi.now control.pass }
    ensures seat { IsSeatOf napi.now result.pass }
    ensures made { EnablesAt threaded control.pass result.pass }
{
    let answer = control.try_enable(napi, threaded);
    let Ok(control) = answer else {
        panic!(rt; "not enabled")
    };
    control
}

/// Makes a schedule, which has to be granted.
pub fn granted(rt: &impl Abort, napi: &Napi, caller: Caller) -> Granted
    requires { IsSeatOf napi.now caller.pass }
    ensures seat { IsSeatOf napi.now result.pass }
    ensures made { (x : Seen) × Made caller.pass (Look x ∷ Schedule prep.Granted ∷ []) result.pass }
{
    let answer = caller.try_schedule(napi);
    let TryPrep::Granted(granted) = answer else {
        panic!(rt; "not granted")
    };
    granted
}

/// Makes a schedule, which has to be missed.
pub fn missed(rt: &impl Abort, napi: &Napi, caller: Caller) -> Caller
    requires { IsSeatOf napi.now caller.pass }
    ensures seat { IsSeatOf napi.now result.pass }
    ensures made { (x : Seen) × Made caller.pass (Look x ∷ Schedule prep.Missed ∷ []) result.pass }
{
    let answer = caller.try_schedule(napi);
    let TryPrep::Missed(caller) = answer else {
        panic!(rt; "not missed")
    };
    caller
}

/// Queues the granted instance.
pub fn handed(napi: &Napi, granted: Granted, kind: Kind) -> Caller
    requires { IsSeatOf napi.now granted.pass }
    ensures seat { IsSeatOf napi.now result.pass }
    ensures made { Made granted.pass (Hand kind ∷ []) result.pass }
{
    granted.hand(napi, kind)
}

/// Takes the instance, which has to be in that queue.
pub fn taken(rt: &impl Abort, napi: &Napi, caller: Caller, kind: Kind) -> Polling
    requires { IsSeatOf napi.now caller.pass }
    ensures seat { IsSeatOf napi.now result.pass }
    ensures made { Made caller.pass (Take kind true ∷ []) result.pass }
{
    let answer = caller.take(napi, kind);
    let Ok(polling) = answer else {
        panic!(rt; "not there")
    };
    polling
}

/// Tries to take the instance, which must not be in that queue.
pub fn not_there(rt: &impl Abort, napi: &Napi, caller: Caller, kind: Kind) -> Caller
    requires { IsSeatOf napi.now caller.pass }
    ensures seat { IsSeatOf napi.now result.pass }
    ensures made { Made caller.pass (Take kind false ∷ []) result.pass }
{
    let answer = caller.take(napi, kind);
    let Err(caller) = answer else {
        panic!(rt; "taken")
    };
    caller
}

/// Completes a poll; a request has to have been missed.
pub fn again(rt: &impl Abort, napi: &Napi, polling: Polling) -> Granted
    requires { IsSeatOf napi.now polling.pass }
    ensures seat { IsSeatOf napi.now result.pass }
    ensures made { (x : Seen) × Made polling.pass (Look x ∷ Complete done.Again ∷ []) result.pass }
{
    let answer = polling.try_complete(napi);
    let TryDone::Again(granted) = answer else {
        panic!(rt; "not again")
    };
    granted
}

/// Completes a poll, which has to release the instance.
pub fn released(rt: &impl Abort, napi: &Napi, polling: Polling) -> Caller
    requires { IsSeatOf napi.now polling.pass }
    ensures seat { IsSeatOf napi.now result.pass }
    ensures made { (x : Seen)
        × Made polling.pass (Look x ∷ Complete done.Released ∷ []) result.pass }
{
    let answer = polling.try_complete(napi);
    let TryDone::Released(caller) = answer else {
        panic!(rt; "not released")
    };
    caller
}

/// Disables the instance, which no caller may own.
pub fn disabled(rt: &impl Abort, napi: &Napi, control: Control<On>) -> Control<Off>
    requires { IsSeatOf napi.now control.pass }
    ensures seat { IsSeatOf napi.now result.pass }
    ensures made { (x : Seen)
        × Made control.pass (MarkDisable ∷ Look x ∷ TakeDisable true ∷ Unmark ∷ []) result.pass }
{
    let answer = control.mark(napi).try_take(napi);
    let TryTake::Taken(control) = answer else {
        panic!(rt; "not disabled")
    };
    control
}

/// Queues the instance on the list to be polled again.
pub fn requeued(napi: &Napi, polling: Polling) -> Caller
    requires { IsSeatOf napi.now polling.pass }
    ensures { IsSeatOf napi.now result.pass }
{
    polling.requeue(napi)
}

/// Closes the instance with both callers.
pub fn closed(
    rt: &impl Abort,
    alloc: Global,
    napi: Napi,
    first: Caller,
    second: Caller,
    control: Control<Off>,
) -> RxCtx
    requires first { IsSeatOf napi first.pass }
    requires second { IsSeatOf napi second.pass }
    requires control { IsSeatOf napi control.pass }
    ensures { IsClosed napi (first ∷ second ∷ []) control.pass result }
{
    let made = Vec::with_capacity(alloc, 2);
    let Ok(mut callers) = made else {
        panic!(rt; "no memory")
    };
    callers.push_reserved(first);
    callers.push_reserved(second);
    let answer = napi_calls::close(napi, callers, control);
    let Ok(ctx) = answer else {
        panic!(rt; "callers are missing")
    };
    ctx
}
