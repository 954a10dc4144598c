//! The packets of an instance that two callers poll.

use crate::bed::{
    Bed, closed, disabled, enabled, granted, handed, make_bed, make_full_bed, polls, put, released,
    requeued, taken,
};
use crate::receive;
use napi_model::Kind;
use rx_ring::Packet;
use std::test::Fail;

// calls that return or take the context lose no packets: all batches together are the packets put
#[test]
fn no_packet_is_thrown_away(rt: HostRuntime) -> Result<(), Fail> {
    let Bed {
        input: _,
        napi,
        first,
        second,
        control,
    } = make_full_bed(&rt, rt.alloc());
    let control = enabled(&rt, &napi, control, false);
    let owner = granted(&rt, &napi, first);
    let mut caller = handed(&napi, owner, Kind::List);
    for number in 0u64..3 {
        let mut poller = taken(&rt, &napi, caller, Kind::List);
        polls(&rt, &mut poller, 1, &[Packet { number, bytes: 60 }]);
        caller = requeued(&napi, poller);
    }
    let poller = taken(&rt, &napi, caller, Kind::List);
    let first = released(&rt, &napi, poller);
    let control = disabled(&rt, &napi, control);
    assert_eq!(rt; control.counts().packets, 3);
    let mut ctx = closed(&rt, rt.alloc(), napi, first, second, control);
    let last = Packet {
        number: 3,
        bytes: 60,
    };
    receive::polls(&rt, &mut ctx, 64, &[last]);
    Ok(())
}

// the mark of `beside` is cleared when the context is returned: the next poller finds what was put meanwhile
#[test]
fn what_is_put_behind_a_meeting_is_polled(rt: HostRuntime) -> Result<(), Fail> {
    let Bed {
        mut input,
        napi,
        first,
        second,
        control,
    } = make_bed(&rt, rt.alloc());
    let control = enabled(&rt, &napi, control, false);
    let owner = granted(&rt, &napi, first);
    let caller = handed(&napi, owner, Kind::List);
    let mut poller = taken(&rt, &napi, caller, Kind::List);
    poller.beside(&mut input);
    let first = requeued(&napi, poller);
    let packet = Packet {
        number: 7,
        bytes: 60,
    };
    put(&rt, &mut input, packet);
    let mut poller = taken(&rt, &napi, second, Kind::List);
    polls(&rt, &mut poller, 64, &[packet]);
    let second = released(&rt, &napi, poller);
    let control = disabled(&rt, &napi, control);
    let ctx = closed(&rt, rt.alloc(), napi, first, second, control);
    assert_eq!(rt; ctx.counts().packets, 1);
    Ok(())
}
