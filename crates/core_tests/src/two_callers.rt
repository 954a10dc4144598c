//! Two callers of one instance, worked out by hand. The state words are those of docs/FORMATS.md.

ghost use Rattle.std.specs.Prelude.{◌≡◌};
ghost use Rattle.napi_calls.specs.Instance.{IsSeatOf};

use crate::bed::{
    Bed, again, closed, disabled, enabled, granted, handed, looked, make_bed, missed, not_there,
    polls, released, taken,
};
use napi_calls::{Caller, CloseBack, CloseFault, Control, Napi, NewBack, NewFault, Off, meet};
use napi_model::Kind;
use rx_ring::ring;
use std::alloc::Global;
use std::process::Abort;
use std::test::Fail;

// Makes the calls, and reads the word after each.
fn take_turns(
    rt: &impl Abort,
    napi: &Napi,
    mut first: Caller,
    mut second: Caller,
    control: Control<Off>,
) -> (Caller, Caller, Control<Off>)
    requires first { IsSeatOf napi.now first.pass }
    requires second { IsSeatOf napi.now second.pass }
    requires control { IsSeatOf napi.now control.pass }
    ensures first { IsSeatOf napi.now result.0.pass }
    ensures second { IsSeatOf napi.now result.1.pass }
    ensures control { IsSeatOf napi.now result.2.pass }
{
    looked(rt, napi, &mut first, 9);
    let control = enabled(rt, napi, control, false);
    looked(rt, napi, &mut first, 0);
    meet(napi, &mut first, &mut second);
    let owner = granted(rt, napi, first);
    let mut first = handed(napi, owner, Kind::List);
    looked(rt, napi, &mut first, 4_294_967_297);
    let poller = taken(rt, napi, second, Kind::List);
    looked(rt, napi, &mut first, 1);
    let first = not_there(rt, napi, first, Kind::List);
    let mut first = missed(rt, napi, first);
    looked(rt, napi, &mut first, 3);
    let owner = again(rt, napi, poller);
    looked(rt, napi, &mut first, 1);
    let mut second = handed(napi, owner, Kind::List);
    looked(rt, napi, &mut second, 4_294_967_297);
    let mut poller = taken(rt, napi, first, Kind::List);
    polls(rt, &mut poller, 64, &[]);
    let mut first = released(rt, napi, poller);
    looked(rt, napi, &mut first, 0);
    let control = disabled(rt, napi, control);
    looked(rt, napi, &mut first, 9);
    (first, second, control)
}

// Tries to close the instance with one caller of two, which fails and returns all three.
fn not_all(
    rt: &impl Abort,
    alloc: Global,
    napi: Napi,
    first: Caller,
    control: Control<Off>,
) -> (Napi, Caller, Control<Off>)
    requires first { IsSeatOf napi first.pass }
    requires control { IsSeatOf napi control.pass }
    ensures napi { result.0 ≡ napi }
    ensures first { result.1 ≡ first }
    ensures control { result.2 ≡ control }
{
    let made = Vec::with_capacity(alloc, 1);
    let Ok(mut callers) = made else {
        panic!(rt; "no memory")
    };
    callers.push_reserved(first);
    let answer = napi_calls::close(napi, callers, control);
    let Err(back) = answer else {
        panic!(rt; "closed with one caller of two")
    };
    let CloseBack {
        fault,
        napi,
        mut callers,
        control,
    } = back;
    assert_eq!(rt; (fault, callers.len()), (CloseFault::NotAll, 1));
    let popped = callers.pop();
    let Some(first) = popped else { unreachable!() };
    callers.destroy_empty();
    (napi, first, control)
}

#[test]
fn two_callers(rt: HostRuntime) -> Result<(), Fail> {
    let Bed {
        input: _,
        napi,
        first,
        second,
        control,
    } = make_bed(&rt, rt.alloc());
    assert_eq!(rt; (first.number(), second.number()), (0, 1));
    let (first, second, control) = take_turns(&rt, &napi, first, second, control);
    let (napi, first, control) = not_all(&rt, rt.alloc(), napi, first, control);
    let ctx = closed(&rt, rt.alloc(), napi, first, second, control);
    assert_eq!(rt; ctx.counts().polls, 1);
    Ok(())
}

#[test]
fn too_few_or_too_many_callers(rt: HostRuntime) -> Result<(), Fail> {
    for callers in [0, 1, 9] {
        let (_input, ctx) = ring(rt.alloc(), 4)?;
        let made = Napi::new(rt.alloc(), ctx, callers);
        let Err(NewBack { fault, ctx }) = made else {
            panic!(rt; "an instance with {callers} callers")
        };
        assert_eq!(rt; fault, NewFault::BadCount, "{callers} callers");
        assert_eq!(rt; ctx.counts().polls, 0);
    }
    Ok(())
}

// an instance that is set threaded while it is polled is queued for its thread, and only taken from there
#[test]
fn threaded_while_polled(rt: HostRuntime) -> Result<(), Fail> {
    let Bed {
        input: _,
        napi,
        first,
        second,
        control,
    } = make_bed(&rt, rt.alloc());
    let control = enabled(&rt, &napi, control, false);
    let owner = granted(&rt, &napi, first);
    let mut first = handed(&napi, owner, Kind::List);
    let poller = taken(&rt, &napi, second, Kind::List);
    looked(&rt, &napi, &mut first, 1);
    first.set_threaded(&napi, true);
    looked(&rt, &napi, &mut first, 257);
    let mut first = missed(&rt, &napi, first);
    looked(&rt, &napi, &mut first, 259);
    let owner = again(&rt, &napi, poller);
    looked(&rt, &napi, &mut first, 257);
    let second = handed(&napi, owner, Kind::Thread);
    looked(&rt, &napi, &mut first, 8_589_935_361);
    let second = not_there(&rt, &napi, second, Kind::List);
    let poller = taken(&rt, &napi, second, Kind::Thread);
    looked(&rt, &napi, &mut first, 769);
    let second = released(&rt, &napi, poller);
    let control = disabled(&rt, &napi, control);
    let ctx = closed(&rt, rt.alloc(), napi, first, second, control);
    assert_eq!(rt; ctx.counts().polls, 0);
    Ok(())
}
