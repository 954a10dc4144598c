//! Two callers that alternate, with all their events: closing the instance returns its complete history.

ghost use Rattle.std.specs.Prelude.{◌≡◌, List, [], ◌∷◌};
ghost use Rattle.napi_model.specs.declared.event.Event.{Event};
ghost use Rattle.napi_model.specs.declared.state.Seen.{Seen};
ghost use Rattle.napi_calls.specs.Instance.{IsSeatOf};
ghost use Rattle.napi_calls.specs.Made.{Made};
ghost use Rattle.napi_calls.specs.Turns.{by_first, by_second, by_controller, IsHistoryInTurns};

use crate::bed::{
    Bed, again, closed, disabled, enabled, granted, handed, make_bed, missed, not_there, released,
    taken,
};
use napi_calls::{Caller, Control, Napi, Off, meet};
use napi_model::Kind;
use rx_ring::{Batch, RxCtx};
use std::alloc::Global;
use std::process::Abort;
use std::test::Fail;

fn take_turns(
    rt: &impl Abort,
    napi: &Napi,
    mut first: Caller,
    mut second: Caller,
    control: Control<Off>,
) -> (Caller, Caller, Control<Off>)
    requires first { IsSeatOf napi.now first.pass }
    requires second { IsSeatOf napi.now second.pass }
    requires control { IsSeatOf napi.now control.pass }
    ensures first { (w : Seen) × (x : Seen) × (y : Seen) × (z : Seen)
        × Made first.pass (by_first w x y z) result.0.pass }
    ensures second { (x : Seen) × (y : Seen) × Made second.pass (by_second x y) result.1.pass }
    ensures control { (x : Seen) × (y : Seen)
        × Made control.pass (by_controller x y) result.2.pass }
{
    let control = enabled(rt, napi, control, false);
    meet(napi, &mut first, &mut second);
    let owner = granted(rt, napi, first);
    let first = handed(napi, owner, Kind::List);
    let poller = taken(rt, napi, second, Kind::List);
    let first = not_there(rt, napi, first, Kind::List);
    let first = missed(rt, napi, first);
    let owner = again(rt, napi, poller);
    let second = handed(napi, owner, Kind::List);
    let mut poller = taken(rt, napi, first, Kind::List);
    poller.poll(64, &mut Batch::new());
    let first = released(rt, napi, poller);
    (first, second, disabled(rt, napi, control))
}

fn run_in_turns(rt: &impl Abort, alloc: Global) -> RxCtx
    ensures { (h : List Event) × IsHistoryInTurns h }
{
    let Bed {
        input: _,
        napi,
        first,
        second,
        control,
    } = make_bed(rt, alloc);
    let (first, second, control) = take_turns(rt, &napi, first, second, control);
    closed(rt, alloc, napi, first, second, control)
}

#[test]
fn two_callers_make_21_events(rt: HostRuntime) -> Result<(), Fail> {
    let ctx = run_in_turns(&rt, rt.alloc());
    assert_eq!(rt; ctx.counts().polls, 1);
    Ok(())
}
