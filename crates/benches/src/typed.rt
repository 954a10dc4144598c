//! The same cycles with the typed calls, which are based on these steps, and cycles of busy polling.
ghost use Rattle.napi_calls.specs.Instance.{IsSeatOf};

use crate::turns::Tally;
use napi_calls::{
    Caller, Napi, NewBack, NewFault, Polling, TryBusy, TryDone, TryPrep, next_caller,
};
use napi_model::Kind;
use rx_ring::RxCtx;
use std::alloc::Global;
use std::sync::Wait;

/// How a cycle polls.
#[derive(Clone, Copy)]
pub enum Round {
    /// From the list, on which a schedule puts the instance.
    Listed,
    /// By busy polling: a completion that returns Held, the stop, and a completion.
    Busy,
}

// Requests a poll once, and queues the instance if it is granted.
fn schedule(napi: &Napi, caller: Caller, tally: &mut Tally) -> Caller
    requires { IsSeatOf napi.now caller.pass }
    ensures { IsSeatOf napi.now result.pass }
{
    match caller.try_schedule(napi) {
        TryPrep::Granted(granted) => granted.hand(napi, Kind::List),
        TryPrep::Missed(caller) | TryPrep::Disabled(caller) => caller,
        TryPrep::Changed(caller) => {
            tally.lost = tally.lost.wrapping_add(1);
            caller
        }
    }
}

// Ends a poll. If two attempts fail, the instance goes back on the list.
fn complete(napi: &Napi, mut polling: Polling, tally: &mut Tally) -> Caller
    requires { IsSeatOf napi.now polling.pass }
    ensures { IsSeatOf napi.now result.pass }
{
    for _ in 0..2 {
        match polling.try_complete(napi) {
            TryDone::Released(caller) => return caller,
            TryDone::Again(granted) => {
                tally.again = tally.again.wrapping_add(1);
                return granted.hand(napi, Kind::List);
            }
            TryDone::Changed(rest) => {
                tally.lost = tally.lost.wrapping_add(1);
                polling = rest;
            }
        }
    }
    polling.requeue(napi)
}

// Makes a schedule, and a poll if the instance waits on the list.
fn turn(napi: &Napi, caller: Caller, tally: &mut Tally) -> Caller
    requires { IsSeatOf napi.now caller.pass }
    ensures { IsSeatOf napi.now result.pass }
{
    let caller = schedule(napi, caller, tally);
    match caller.take(napi, Kind::List) {
        Err(caller) => caller,
        Ok(polling) => {
            tally.polls = tally.polls.wrapping_add(1);
            complete(napi, polling, tally)
        }
    }
}

// Makes a cycle of busy polling, if the instance is idle.
fn busy_turn(rt: &impl Wait, napi: &Napi, caller: Caller, tally: &mut Tally) -> Caller
    requires { IsSeatOf napi.now caller.pass }
    ensures { IsSeatOf napi.now result.pass }
{
    match caller.try_busy(napi) {
        TryBusy::Refused(caller) => caller,
        TryBusy::Changed(caller) => {
            tally.lost = tally.lost.wrapping_add(1);
            caller
        }
        TryBusy::Taken(mut busy) => {
            busy.complete_held(napi);
            tally.polls = tally.polls.wrapping_add(1);
            complete(napi, busy.stop(rt, napi), tally)
        }
    }
}

fn make_turns(
    rt: &impl Wait,
    napi: &Napi,
    mut caller: Caller,
    kind: Round,
    turns: u64,
) -> (Caller, Tally)
    requires { IsSeatOf napi.now caller.pass }
    ensures { IsSeatOf napi.now result.0.pass }
{
    let mut tally = Tally {
        polls: 0,
        again: 0,
        lost: 0,
    };
    for _ in 0..turns {
        caller = match kind {
            Round::Listed => turn(napi, caller, &mut tally),
            Round::Busy => busy_turn(rt, napi, caller, &mut tally),
        };
    }
    (caller, tally)
}

/// Makes an instance with this context, makes this many cycles of this kind by one caller, and closes it.
pub fn make_typed_turns(
    rt: &impl Wait,
    alloc: Global,
    ctx: RxCtx,
    kind: Round,
    turns: u64,
) -> Result<Tally, NewFault> {
    let (napi, mut callers, control) = match Napi::new(alloc, ctx, 2) {
        Ok(made) => made,
        Err(NewBack { fault, ctx: _ }) => return Err(fault),
    };
    let control = control.enable(rt, &napi, false);
    let other = next_caller(&napi, &mut callers);
    let caller = next_caller(&napi, &mut callers);
    let (caller, tally) = make_turns(rt, &napi, caller, kind, turns);
    callers.push_reserved(caller);
    callers.push_reserved(other);
    let control = control.disable(rt, &napi);
    let closed = napi_calls::close(napi, callers, control);
    let Ok(_ctx) = closed else { unreachable!() };
    Ok(tally)
}
