//! Another caller acts between the read and the compare-exchange of a call: the call returns `Changed`, and the next attempt sees
//! what was done. No contract says when the action runs.

ghost use Rattle.std.specs.Prelude.{◌≡◌, is_none, true};
ghost use Rattle.std.specs.Option.{ForSome};
ghost use Rattle.napi_calls.specs.Instance.{IsSeatOf};
ghost use Rattle.napi_calls.specs.Calls.{seat_of};

use crate::bed::{Bed, again, enabled, granted, handed, looked, make_bed, missed, taken};
use napi_calls::{Between, Caller, Granted, Napi, TryBusy, TryDone, TryPrep, TryStop, TryTake};
use napi_model::Kind;
use std::process::Abort;
use std::test::Fail;

// Another caller, which schedules once during a call.
struct SchedulesBetween<'a> {
    napi: &'a Napi,
    caller: Option<Caller>,
    answer: Option<TryPrep>,
    ghost before: { ForSome caller (λ c. IsSeatOf napi.now c.pass × (is_none answer ≡ true)) },
    ghost after: { ForSome answer (λ a. IsSeatOf napi.now (seat_of a)) },
}

impl Between for SchedulesBetween<'_> {
    ghost ran = { λ s t. t.napi.now ≡ s.napi.now };

    fn run(&mut self) {
        if let Some(caller) = self.caller.take() {
            let answer = caller.try_schedule(self.napi);
            let old = self.answer.replace(answer);
            let None = old else { unreachable!() };
        }
    }
}

impl SchedulesBetween<'_> {
    // Returns the result of the schedule.
    fn answered(self, rt: &impl Abort) -> TryPrep
        ensures { IsSeatOf self.entry.napi.now (seat_of result) }
    {
        let SchedulesBetween {
            napi: _,
            caller,
            answer,
        } = self;
        let None = caller else {
            panic!(rt; "nothing was run")
        };
        let Some(answer) = answer else {
            panic!(rt; "nothing was answered")
        };
        answer
    }

    // Returns the instance, which the schedule has to be granted.
    fn granted(self, rt: &impl Abort) -> Granted
        ensures { IsSeatOf self.entry.napi.now result.pass }
    {
        let answer = self.answered(rt);
        let TryPrep::Granted(granted) = answer else {
            panic!(rt; "the other isn't granted")
        };
        granted
    }

    // Returns the caller, whose schedule has to be missed.
    fn missed(self, rt: &impl Abort) -> Caller
        ensures { IsSeatOf self.entry.napi.now result.pass }
    {
        let answer = self.answered(rt);
        let TryPrep::Missed(caller) = answer else {
            panic!(rt; "the other isn't missed")
        };
        caller
    }
}

// Another caller, which sets the instance threaded during a call.
struct SetsThreadedBetween<'a> {
    napi: &'a Napi,
    caller: Caller,
    ghost seat: { IsSeatOf napi.now caller.pass },
}

impl Between for SetsThreadedBetween<'_> {
    ghost ran = { λ s t. t.napi.now ≡ s.napi.now };

    fn run(&mut self) {
        self.caller.set_threaded(self.napi, true);
    }
}

#[test]
fn schedule_loses_to_a_schedule(rt: HostRuntime) -> Result<(), Fail> {
    let Bed {
        input: _,
        napi,
        first,
        second,
        control,
    } = make_bed(&rt, rt.alloc());
    let control = enabled(&rt, &napi, control, false);
    let mut other = SchedulesBetween {
        napi: &napi,
        caller: Some(second),
        answer: None,
    };
    let answer = first.try_schedule_between(&napi, &mut other);
    let TryPrep::Changed(first) = answer else {
        panic!(rt; "the first isn't changed")
    };
    let owner = other.granted(&rt);
    let second = handed(&napi, owner, Kind::List);
    let mut first = missed(&rt, &napi, first);
    looked(&rt, &napi, &mut first, 4294967299);
    first.abandon();
    second.abandon();
    control.abandon();
    napi.abandon();
    Ok(())
}

#[test]
fn complete_loses_to_a_schedule(rt: HostRuntime) -> Result<(), Fail> {
    let Bed {
        input: _,
        napi,
        first,
        second,
        control,
    } = make_bed(&rt, rt.alloc());
    let control = enabled(&rt, &napi, control, false);
    let owner = granted(&rt, &napi, first);
    let first = handed(&napi, owner, Kind::List);
    let poller = taken(&rt, &napi, second, Kind::List);
    let mut other = SchedulesBetween {
        napi: &napi,
        caller: Some(first),
        answer: None,
    };
    let answer = poller.try_complete_between(&napi, &mut other);
    let TryDone::Changed(poller) = answer else {
        panic!(rt; "the second isn't changed")
    };
    let mut first = other.missed(&rt);
    let owner = again(&rt, &napi, poller);
    looked(&rt, &napi, &mut first, 1);
    first.abandon();
    owner.abandon();
    control.abandon();
    napi.abandon();
    Ok(())
}

#[test]
fn disable_loses_to_a_setting(rt: HostRuntime) -> Result<(), Fail> {
    let Bed {
        input: _,
        napi,
        first,
        mut second,
        control,
    } = make_bed(&rt, rt.alloc());
    let control = enabled(&rt, &napi, control, false).mark(&napi);
    let mut other = SetsThreadedBetween {
        napi: &napi,
        caller: first,
    };
    let answer = control.try_take_between(&napi, &mut other);
    let TryTake::Changed(control) = answer else {
        panic!(rt; "not changed")
    };
    let SetsThreadedBetween {
        napi: _,
        caller: first,
    } = other;
    looked(&rt, &napi, &mut second, 260);
    let answer = control.try_take(&napi);
    let TryTake::Taken(control) = answer else {
        panic!(rt; "not taken")
    };
    looked(&rt, &napi, &mut second, 9);
    first.abandon();
    second.abandon();
    control.abandon();
    napi.abandon();
    Ok(())
}

#[test]
fn enable_loses_to_a_schedule(rt: HostRuntime) -> Result<(), Fail> {
    let Bed {
        input: _,
        napi,
        first,
        mut second,
        control,
    } = make_bed(&rt, rt.alloc());
    let mut other = SchedulesBetween {
        napi: &napi,
        caller: Some(first),
        answer: None,
    };
    let answer = control.try_enable_between(&napi, true, &mut other);
    let Err(control) = answer else {
        panic!(rt; "not changed")
    };
    let first = other.missed(&rt);
    looked(&rt, &napi, &mut second, 11);
    let control = enabled(&rt, &napi, control, true);
    looked(&rt, &napi, &mut second, 258);
    first.abandon();
    second.abandon();
    control.abandon();
    napi.abandon();
    Ok(())
}

#[test]
fn busy_loses_to_a_schedule(rt: HostRuntime) -> Result<(), Fail> {
    let Bed {
        input: _,
        napi,
        first,
        second,
        control,
    } = make_bed(&rt, rt.alloc());
    let control = enabled(&rt, &napi, control, false);
    let mut other = SchedulesBetween {
        napi: &napi,
        caller: Some(second),
        answer: None,
    };
    let answer = first.try_busy_between(&napi, &mut other);
    let TryBusy::Changed(first) = answer else {
        panic!(rt; "not changed")
    };
    let owner = other.granted(&rt);
    let answer = first.try_busy(&napi);
    let TryBusy::Refused(first) = answer else {
        panic!(rt; "not refused")
    };
    first.abandon();
    owner.abandon();
    control.abandon();
    napi.abandon();
    Ok(())
}

#[test]
fn stop_loses_to_a_schedule(rt: HostRuntime) -> Result<(), Fail> {
    let Bed {
        input: _,
        napi,
        first,
        second,
        control,
    } = make_bed(&rt, rt.alloc());
    let control = enabled(&rt, &napi, control, false);
    let answer = first.try_busy(&napi);
    let TryBusy::Taken(busy) = answer else {
        panic!(rt; "not taken to be busy polled")
    };
    let mut other = SchedulesBetween {
        napi: &napi,
        caller: Some(second),
        answer: None,
    };
    let answer = busy.try_stop_between(&napi, &mut other);
    let TryStop::Changed(busy) = answer else {
        panic!(rt; "not changed")
    };
    let mut second = other.missed(&rt);
    let answer = busy.try_stop(&napi);
    let TryStop::Stopped(polling) = answer else {
        panic!(rt; "not stopped")
    };
    looked(&rt, &napi, &mut second, 1);
    polling.abandon();
    second.abandon();
    control.abandon();
    napi.abandon();
    Ok(())
}
