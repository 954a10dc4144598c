//! Two interrupt handlers, a poller and the controller, each in its own thread.

ghost use Rattle.std.specs.Prelude.{◌≡◌};
ghost use Rattle.napi_calls.specs.Instance.{IsSeatOf, callers_of};

use crate::bed::enabled;
use napi_calls::{
    Caller, Completed, Control, DropBomb, Napi, Off, On, Polling, Sched, next_caller,
};
use napi_model::Kind;
use rx_ring::{Batch, Packet, RxCtx, RxIn, ring};
use std::alloc::Global;
use std::process::Abort;
use std::sync::Wait;
use std::sync::atomic::{AtomicU64, Ordering};
use std::test::Fail;
use std::thread;
use std::thread::Threads;

const SCHEDULES: u64 = 1000;

const TURNS: u64 = 1_000_000;

// An instance over this ring, with three callers.
struct Seated {
    napi: Napi,
    first: Caller,
    second: Caller,
    poller: Caller,
    control: Control<Off>,
}

fn seat_three(rt: &impl Abort, alloc: Global, ctx: RxCtx) -> Seated
    ensures count { callers_of result.napi ≡ 3 }
    ensures first { IsSeatOf result.napi result.first.pass }
    ensures second { IsSeatOf result.napi result.second.pass }
    ensures poller { IsSeatOf result.napi result.poller.pass }
    ensures control { IsSeatOf result.napi result.control.pass }
{
    let made = Napi::new(alloc, ctx, 3);
    let Ok((napi, mut callers, control)) = made else {
        panic!(rt; "no instance")
    };
    let poller = next_caller(&napi, &mut callers);
    let second = next_caller(&napi, &mut callers);
    let first = next_caller(&napi, &mut callers);
    callers.destroy_empty();
    Seated {
        napi,
        first,
        second,
        poller,
        control,
    }
}

// Requests a poll, and queues the instance on the list if it is granted.
fn ask(rt: &impl Wait, napi: &Napi, caller: Caller) -> Caller
    requires { IsSeatOf napi.now caller.pass }
    ensures { IsSeatOf napi.now result.pass }
{
    match caller.schedule(rt, napi) {
        Sched::Granted(granted) => granted.hand(napi, Kind::List),
        Sched::Missed(caller) => caller,
        Sched::Disabled(caller) => caller,
    }
}

// Schedules this many times; if it has a ring, it puts a packet before each.
fn interrupt(
    rt: &impl Wait,
    napi: &Napi,
    caller: Caller,
    mut input: Option<RxIn>,
    halves: &AtomicU64,
    done: &AtomicU64,
) -> Caller
    requires { IsSeatOf napi.now caller.pass }
    ensures { IsSeatOf napi.now result.pass }
{
    let mut caller = caller;
    for number in 0..SCHEDULES {
        if let Some(input) = &mut input {
            let _ = input.put(Packet { number, bytes: 60 });
        }
        caller = ask(rt, napi, caller);
        if number == SCHEDULES / 2 {
            halves.fetch_add(1, Ordering::SeqCst);
        }
    }
    done.fetch_add(1, Ordering::SeqCst);
    caller
}

// What a poller did: its caller, and how many packets arrived in order.
struct PolledPackets {
    caller: Caller,
    in_turn: u64,
}

// Returns how many packets arrived in order, after this batch.
fn counted(batch: &Batch, in_turn: u64) -> u64 {
    let mut next = in_turn;
    for packet in batch.as_slice() {
        next = next.wrapping_add(u64::from(packet.number == next));
    }
    next
}

// Takes the instance and polls it once, if it is on the list; returns whether it was.
fn turn(
    rt: &impl Wait,
    napi: &Napi,
    caller: Caller,
    batch: &mut Batch,
    in_turn: &mut u64,
) -> (Caller, bool)
    requires { IsSeatOf napi.now caller.pass }
    ensures { IsSeatOf napi.now result.0.pass }
{
    match caller.take(napi, Kind::List) {
        Err(caller) => (caller, false),
        Ok(mut polling) => {
            let work = polling.poll(64, batch);
            *in_turn = counted(batch, *in_turn);
            (end_poll(rt, napi, polling, work), true)
        }
    }
}

// Polls until all other threads are done and the instance isn't on the list.
fn poll_all(rt: &impl Wait, napi: &Napi, caller: Caller, done: &AtomicU64) -> PolledPackets
    requires { IsSeatOf napi.now caller.pass }
    ensures { IsSeatOf napi.now result.caller.pass }
{
    let mut caller = caller;
    let mut in_turn = 0u64;
    let mut batch = Batch::new();
    for _ in 0..TURNS {
        let last = done.load(Ordering::SeqCst) == 3;
        let (rest, is_there) = turn(rt, napi, caller, &mut batch, &mut in_turn);
        caller = rest;
        if last && !is_there {
            return PolledPackets { caller, in_turn };
        }
        if !is_there {
            thread::yield_now();
        }
    }
    PolledPackets { caller, in_turn }
}

fn end_poll(rt: &impl Wait, napi: &Napi, polling: Polling, work: usize) -> Caller
    requires { IsSeatOf napi.now polling.pass }
    ensures { IsSeatOf napi.now result.pass }
{
    if work == 64 {
        return polling.requeue(napi);
    }
    match polling.complete(rt, napi) {
        Completed::Released(caller) => caller,
        Completed::Again(granted) => granted.hand(napi, Kind::List),
    }
}

// Disables and enables the instance, after both interrupt handlers have made half of their schedules.
fn switch(
    rt: &impl Wait,
    napi: &Napi,
    control: Control<On>,
    halves: &AtomicU64,
    done: &AtomicU64,
) -> Control<On>
    requires { IsSeatOf napi.now control.pass }
    ensures { IsSeatOf napi.now result.pass }
{
    for _ in 0..TURNS {
        if halves.load(Ordering::SeqCst) == 2 {
            break;
        }
        thread::yield_now();
    }
    let control = control.disable(rt, napi);
    let control = control.enable(rt, napi, false);
    done.fetch_add(1, Ordering::SeqCst);
    control
}

// Runs both interrupt handlers, the poller and the controller, each in its own thread.
fn play<R: Threads + Wait + Copy + Drop + Send>(
    rt: R,
    napi: &Napi,
    callers: (Caller, Caller, Caller),
    control: Control<On>,
    input: RxIn,
) -> (Caller, Caller, PolledPackets, Control<On>)
    requires first { IsSeatOf napi.now callers.0.pass }
    requires second { IsSeatOf napi.now callers.1.pass }
    requires poller { IsSeatOf napi.now callers.2.pass }
    requires control { IsSeatOf napi.now control.pass }
    ensures first { IsSeatOf napi.now result.0.pass }
    ensures second { IsSeatOf napi.now result.1.pass }
    ensures poller { IsSeatOf napi.now result.2.caller.pass }
    ensures control { IsSeatOf napi.now result.3.pass }
{
    let (first, second, poller) = callers;
    let halves = AtomicU64::new(0);
    let done = AtomicU64::new(0);
    let first = DropBomb::new(rt, first);
    let second = DropBomb::new(rt, second);
    let poller = DropBomb::new(rt, poller);
    let control = DropBomb::new(rt, control);
    let (half, end) = (&halves, &done);
    let ((first, second), (poller, control)) = thread::join(
        &rt,
        move || -> (Caller, Caller)
            requires { IsSeatOf napi.now first.value.pass × IsSeatOf napi.now second.value.pass }
            ensures { IsSeatOf napi.entry.now result.0.pass
                × IsSeatOf napi.entry.now result.1.pass }
        {
            thread::join(
                &rt,
                move || -> Caller
                    requires { IsSeatOf napi.now first.value.pass }
                    ensures { IsSeatOf napi.entry.now result.pass }
                { interrupt(&rt, napi, first.open(), Some(input), half, end) },
                move || -> Caller
                    requires { IsSeatOf napi.now second.value.pass }
                    ensures { IsSeatOf napi.entry.now result.pass }
                { interrupt(&rt, napi, second.open(), None, half, end) },
            )
        },
        move || -> (PolledPackets, Control<On>)
            requires { IsSeatOf napi.now poller.value.pass × IsSeatOf napi.now control.value.pass }
            ensures { IsSeatOf napi.entry.now result.0.caller.pass
                × IsSeatOf napi.entry.now result.1.pass }
        {
            thread::join(
                &rt,
                move || -> PolledPackets
                    requires { IsSeatOf napi.now poller.value.pass }
                    ensures { IsSeatOf napi.entry.now result.caller.pass }
                { poll_all(&rt, napi, poller.open(), end) },
                move || -> Control<On>
                    requires { IsSeatOf napi.now control.value.pass }
                    ensures { IsSeatOf napi.entry.now result.pass }
                { switch(&rt, napi, control.open(), half, end) },
            )
        },
    );
    (first, second, poller, control)
}

// Closes the instance.
fn closed(
    rt: &impl Abort,
    alloc: Global,
    napi: Napi,
    callers: (Caller, Caller, Caller),
    control: Control<Off>,
) -> RxCtx
    requires count { callers_of napi ≡ 3 }
    requires first { IsSeatOf napi callers.0.pass }
    requires second { IsSeatOf napi callers.1.pass }
    requires poller { IsSeatOf napi callers.2.pass }
    requires control { IsSeatOf napi control.pass }
{
    let (first, second, poller) = callers;
    let made = Vec::with_capacity(alloc, 3);
    let Ok(mut all) = made else {
        panic!(rt; "no memory")
    };
    all.push_reserved(first);
    all.push_reserved(second);
    all.push_reserved(poller);
    let answer = napi_calls::close(napi, all, control);
    let Ok(ctx) = answer else { unreachable!() };
    ctx
}

#[test]
fn two_interrupts_and_a_poller(rt: HostRuntime) -> Result<(), Fail> {
    let (input, ctx) = ring(rt.alloc(), 1024)?;
    let Seated {
        napi,
        first,
        second,
        poller,
        control,
    } = seat_three(&rt, rt.alloc(), ctx);
    let control = enabled(&rt, &napi, control, false);
    let (first, second, polled, control) = play(rt, &napi, (first, second, poller), control, input);
    let PolledPackets {
        caller: poller,
        in_turn,
    } = polled;
    let control = control.disable(&rt, &napi);
    let counts = control.counts();
    assert_eq!(rt; counts.packets, in_turn);
    let callers = (first, second, poller);
    let mut ctx = closed(&rt, rt.alloc(), napi, callers, control);
    let mut batch = Batch::new();
    let mut next = in_turn;
    for _ in 0..20 {
        ctx.poll(64, &mut batch);
        next = counted(&batch, next);
    }
    assert_eq!(rt; next, SCHEDULES);
    assert_eq!(rt; ctx.counts().packets, SCHEDULES);
    Ok(())
}
