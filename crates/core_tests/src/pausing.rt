//! The pauses of a disable: one after each attempt that finds the instance busy, and no other. No contract says that.

ghost use Rattle.std.specs.Prelude.{◌≡◌, is_none, true};
ghost use Rattle.std.specs.Option.{ForSome};
ghost use Rattle.napi_calls.specs.Instance.{IsSeatOf};

use crate::bed::{Bed, enabled, granted, handed, make_bed, taken};
use napi_calls::{Between, Caller, Control, DropBomb, Napi, On, Polling, TryDone};
use napi_model::Kind;
use std::process::Abort;
use std::sync::Wait;
use std::sync::atomic::{AtomicBool, Ordering};
use std::test::Fail;
use std::thread;

const PAUSES: u64 = 3;

const ROUNDS: u64 = 5000;

const SETTINGS: u64 = 10_000_000;

// A poller that completes its poll in the third pause of a disable.
struct CompletesInPause<'a> {
    napi: &'a Napi,
    polling: Option<Polling>,
    answer: Option<TryDone>,
    pauses: u64,
    ghost before: { ForSome polling (λ p. IsSeatOf napi.now p.pass × (is_none answer ≡ true)) },
}

impl Between for CompletesInPause<'_> {
    fn run(&mut self) {
        self.pauses = self.pauses.saturating_add(1);
        if self.pauses < PAUSES {
            return;
        }
        if let Some(polling) = self.polling.take() {
            let answer = polling.try_complete(self.napi);
            let old = self.answer.replace(answer);
            let None = old else { unreachable!() };
        }
    }
}

impl CompletesInPause<'_> {
    // Returns the caller that released the instance, and how many pauses there were.
    fn released(self, rt: &impl Abort) -> (Caller, u64) {
        let CompletesInPause {
            napi: _,
            polling,
            answer,
            pauses,
        } = self;
        let None = polling else {
            panic!(rt; "not completed")
        };
        let Some(TryDone::Released(caller)) = answer else {
            panic!(rt; "not released")
        };
        (caller, pauses)
    }
}

#[test]
fn a_disable_pauses_after_each_busy_attempt(rt: HostRuntime) -> Result<(), Fail> {
    let Bed {
        input: _,
        napi,
        first,
        second,
        control,
    } = make_bed(&rt, rt.alloc());
    let control = enabled(&rt, &napi, control, false);
    let owner = granted(&rt, &napi, first);
    let first = handed(&napi, owner, Kind::List);
    let polling = taken(&rt, &napi, first, Kind::List);
    let mut pause = CompletesInPause {
        napi: &napi,
        polling: Some(polling),
        answer: None,
        pauses: 0,
    };
    let control = control.disable_pausing(&rt, &napi, &mut pause);
    let (first, pauses) = pause.released(&rt);
    assert_eq!(rt; pauses, PAUSES);
    first.abandon();
    second.abandon();
    control.abandon();
    napi.abandon();
    Ok(())
}

// Sets and clears THREADED until `over` is set.
fn keep_setting(napi: &Napi, caller: Caller, over: &AtomicBool) -> Caller
    requires { IsSeatOf napi.now caller.pass }
{
    let mut caller = caller;
    for k in 0..SETTINGS {
        if over.load(Ordering::SeqCst) {
            break;
        }
        caller.set_threaded(napi, k % 2 == 0);
    }
    caller
}

// Counts its runs.
#[derive(Drop)]
struct Counts {
    runs: u64,
}

impl Between for Counts {
    fn run(&mut self) {
        self.runs = self.runs.saturating_add(1);
    }
}

// Disables and enables the instance this many times, and counts the pauses.
fn count_pauses(
    rt: &impl Wait,
    napi: &Napi,
    control: Control<On>,
    over: &AtomicBool,
) -> (Control<On>, u64)
    requires { IsSeatOf napi.now control.pass }
{
    let mut control = control;
    let mut pauses = Counts { runs: 0 };
    for _ in 0..ROUNDS {
        let off = control.disable_pausing(rt, napi, &mut pauses);
        control = off.enable(rt, napi, false);
    }
    over.store(true, Ordering::SeqCst);
    (control, pauses.runs)
}

// a disable of an idle instance makes no pause, also not when another thread changes the word so that an attempt fails
#[test]
fn a_disable_of_an_idle_instance_makes_no_pause(rt: HostRuntime) -> Result<(), Fail> {
    let Bed {
        input: _,
        napi,
        first,
        second,
        control,
    } = make_bed(&rt, rt.alloc());
    let control = enabled(&rt, &napi, control, false);
    let over = AtomicBool::new(false);
    let first = DropBomb::new(rt, first);
    let control = DropBomb::new(rt, control);
    let (shared, end) = (&napi, &over);
    let (setter, (control, pauses)) = thread::join(
        &rt,
        move || -> Caller
            requires { IsSeatOf shared.now first.value.pass }
        { keep_setting(shared, first.open(), end) },
        move || -> (Control<On>, u64)
            requires { IsSeatOf shared.now control.value.pass }
        { count_pauses(&rt, shared, control.open(), end) },
    );
    setter.abandon();
    second.abandon();
    control.abandon();
    napi.abandon();
    assert_eq!(rt; pauses, 0);
    Ok(())
}
