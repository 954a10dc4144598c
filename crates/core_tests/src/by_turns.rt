//! Two callers in two threads, which alternate by a lock. Each reply depends on the calls made before it.

ghost use Rattle.napi_calls.specs.Instance.{IsSeatOf};

use crate::bed::{
    Bed, again, closed, disabled, enabled, granted, handed, make_bed, missed, not_there, polls,
    released, taken,
};
use napi_calls::{Caller, DropBomb, Napi, meet};
use napi_model::Kind;
use std::process::Abort;
use std::sync::{Condvar, Mutex, Wait};
use std::test::Fail;
use std::thread;
use std::thread::Threads;

// How many turns were made, and the condition on which the next thread waits.
#[derive(Drop)]
struct Turns {
    made: Mutex<u32>,
    changed: Condvar,
}

// Waits until this many turns were made.
fn await_turn<R: Wait>(rt: &R, turns: &Turns, made: u32) {
    let _made = turns
        .changed
        .wait_while(rt, turns.made.lock(rt), |count| *count != made);
}

// Records that this many turns were made.
fn end_turn<R: Wait>(rt: &R, turns: &Turns, made: u32) {
    *turns.made.lock(rt) = made;
    turns.changed.notify_all();
}

// Caller 0 has the turns 0, 2 and 4: it is granted the instance, its next request is missed, and it takes and releases the
// instance that caller 1 queues.
fn first_turns<R: Wait + Abort>(rt: &R, napi: &Napi, first: Caller, turns: &Turns) -> Caller
    requires { IsSeatOf napi.now first.pass }
    ensures { IsSeatOf napi.now result.pass }
{
    await_turn(rt, turns, 0);
    let owner = granted(rt, napi, first);
    let first = handed(napi, owner, Kind::List);
    end_turn(rt, turns, 1);
    await_turn(rt, turns, 2);
    let first = not_there(rt, napi, first, Kind::List);
    let first = missed(rt, napi, first);
    end_turn(rt, turns, 3);
    await_turn(rt, turns, 4);
    let mut poller = taken(rt, napi, first, Kind::List);
    polls(rt, &mut poller, 64, &[]);
    released(rt, napi, poller)
}

// Caller 1 has the turns 1 and 3: it takes the instance, is granted it again, and queues it.
fn second_turns<R: Wait + Abort>(rt: &R, napi: &Napi, second: Caller, turns: &Turns) -> Caller
    requires { IsSeatOf napi.now second.pass }
    ensures { IsSeatOf napi.now result.pass }
{
    await_turn(rt, turns, 1);
    let poller = taken(rt, napi, second, Kind::List);
    end_turn(rt, turns, 2);
    await_turn(rt, turns, 3);
    let owner = again(rt, napi, poller);
    let second = handed(napi, owner, Kind::List);
    end_turn(rt, turns, 4);
    second
}

// Runs both callers, each in its own thread.
fn play<R: Threads + Wait + Abort + Copy + Drop + Send>(
    rt: R,
    napi: &Napi,
    first: Caller,
    second: Caller,
) -> (Caller, Caller)
    requires first { IsSeatOf napi.now first.pass }
    requires second { IsSeatOf napi.now second.pass }
    ensures { IsSeatOf napi.now result.0.pass × IsSeatOf napi.now result.1.pass }
{
    let turns = Turns {
        made: Mutex::new(0),
        changed: Condvar::new(),
    };
    let turns = &turns;
    let first = DropBomb::new(rt, first);
    let second = DropBomb::new(rt, second);
    thread::join(
        &rt,
        move || -> Caller
            requires { IsSeatOf napi.now first.value.pass }
            ensures { IsSeatOf napi.entry.now result.pass }
        { first_turns(&rt, napi, first.open(), turns) },
        move || -> Caller
            requires { IsSeatOf napi.now second.value.pass }
            ensures { IsSeatOf napi.entry.now result.pass }
        { second_turns(&rt, napi, second.open(), turns) },
    )
}

#[test]
fn two_threads_take_turns(rt: HostRuntime) -> Result<(), Fail> {
    let Bed {
        input: _,
        napi,
        mut first,
        mut second,
        control,
    } = make_bed(&rt, rt.alloc());
    let control = enabled(&rt, &napi, control, false);
    meet(&napi, &mut first, &mut second);
    let (first, second) = play(rt, &napi, first, second);
    let control = disabled(&rt, &napi, control);
    let ctx = closed(&rt, rt.alloc(), napi, first, second, control);
    assert_eq!(rt; ctx.counts().polls, 1);
    Ok(())
}
