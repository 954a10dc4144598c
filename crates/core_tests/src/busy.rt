//! Busy polls of packets.

ghost use Rattle.napi_calls.specs.Instance.{IsSeatOf};

use crate::bed::{Bed, again, closed, handed, make_bed, missed, put, released, taken};
use napi_calls::{Busy, Caller, Napi};
use napi_model::Kind;
use rx_ring::Packet;
use std::process::Abort;
use std::sync::Wait;
use std::test::Fail;

const PACKET: Packet = Packet {
    number: 1,
    bytes: 60,
};

// Busy polls once, which has to return these packets.
fn busy_polled(rt: &impl Abort, napi: &Napi, busy: &mut Busy, packets: &[Packet])
    requires { IsSeatOf napi.now busy.old.pass }
    ensures { IsSeatOf napi.now busy.new.pass }
{
    let mut given = [PACKET; 64];
    let count = busy.poll_into(64, &mut given);
    assert_eq!(rt; &given[..count], packets);
}

// Caller 0 takes the instance to busy poll it, by the form of the call that waits; a completion returns Held.
fn busy_twice(rt: &(impl Wait + Abort), napi: &Napi, first: Caller) -> Busy
    requires { IsSeatOf napi.now first.pass }
    ensures { IsSeatOf napi.now result.pass }
{
    let answer = first.busy(rt, napi);
    let Ok(mut busy) = answer else {
        panic!(rt; "refused")
    };
    busy_polled(rt, napi, &mut busy, &[PACKET]);
    busy.complete_held(napi);
    busy_polled(rt, napi, &mut busy, &[]);
    busy
}

// Caller 1 can't take the instance, by the form of the call that waits.
fn not_taken(rt: &(impl Wait + Abort), napi: &Napi, second: Caller) -> Caller
    requires { IsSeatOf napi.now second.pass }
    ensures { IsSeatOf napi.now result.pass }
{
    let answer = second.busy(rt, napi);
    let Err(second) = answer else {
        panic!(rt; "taken twice")
    };
    second
}

// with the forms that wait, and with packets: polls return what was put before them; a poll right after the ends of the ring
// met doesn't return what was put since
#[test]
fn busy_polls_give_what_was_put(rt: HostRuntime) -> Result<(), Fail> {
    let Bed {
        mut input,
        napi,
        first,
        second,
        control,
    } = make_bed(&rt, rt.alloc());
    let control = control.enable(&rt, &napi, false);
    put(&rt, &mut input, PACKET);
    let busy = busy_twice(&rt, &napi, first);
    let second = not_taken(&rt, &napi, second);
    let second = missed(&rt, &napi, second);
    let polling = busy.stop(&rt, &napi);
    let second = missed(&rt, &napi, second);
    let owner = again(&rt, &napi, polling);
    let first = handed(&napi, owner, Kind::List);
    let polling = taken(&rt, &napi, first, Kind::List);
    let first = released(&rt, &napi, polling);
    let control = control.disable(&rt, &napi);
    let ctx = closed(&rt, rt.alloc(), napi, first, second, control);
    assert_eq!(rt; ctx.counts().packets, 1);
    Ok(())
}
