//! Tests of the polling of a shared instance, worked by hand. The state words are those of docs/FORMATS.md.

ghost use Rattle.std.specs.Prelude.{◌≡◌, ℕ, slice_get, Some};
ghost use Rattle.rx_ring.specs.declared.ends.RxCtx.{RxCtx};
ghost use Rattle.rx_ring.specs.Ends.{IsOneRing, ring_name};
ghost use Rattle.napi_calls.specs.declared.types.Caller.{Caller};
ghost use Rattle.napi_calls.specs.Instance.{IsSeatOf, ring_of_instance};
ghost use Rattle.poll_engine.specs.Ranges.{IsMost};

use napi_calls::{Caller, Control, Napi, Off, Sched, TryTake};
use napi_model::{Kind, encode};
use poll_engine::{
    BusyReport, Next, Once, ThreadReport, busy_instance, poll_instance, poll_instance_by_thread,
};
use rx_ring::{Batch, Packet, RxCtx, RxIn, finish, ring};
use std::alloc::Global;
use std::process::Abort;
use std::sync::Wait;
use std::test::Fail;

fn packet(number: u64) -> Packet {
    Packet { number, bytes: 60 }
}

const fn once(work: u32, next: Next) -> Once {
    Once { work, next }
}

/// A disabled instance, with its two callers and packets of these sizes in its ring.
struct PollBed {
    input: RxIn,
    napi: Napi,
    first: Caller,
    second: Caller,
    control: Control<Off>,
    ghost first_of: { IsSeatOf napi first.pass },
    ghost second_of: { IsSeatOf napi second.pass },
    ghost control_of: { IsSeatOf napi control.pass },
}

fn pop(rt: &impl Abort, napi: &Napi, callers: &mut Vec<Caller>) -> Caller
    requires { (k : ℕ) (c : Caller) → slice_get callers.old.items k ≡ Some c
        → IsSeatOf napi.now c.pass }
    ensures caller { IsSeatOf napi.now result.pass }
    ensures left { (k : ℕ) (c : Caller) → slice_get callers.new.items k ≡ Some c
        → IsSeatOf napi.now c.pass }
{
    let popped = callers.pop();
    let Some(caller) = popped else {
        panic!(rt; "no caller is left")
    };
    caller
}

fn make_bed(rt: &impl Abort, alloc: Global, capacity: usize, bytes: &[u32]) -> PollBed
    ensures { (ctx : RxCtx) × (ring_of_instance result.napi ≡ ring_name ctx)
        × IsOneRing result.input ctx }
{
    let made = ring(alloc, capacity);
    let Ok((mut input, ctx)) = made else {
        panic!(rt; "no ring")
    };
    for (number, bytes) in bytes.iter().enumerate() {
        let packet = Packet {
            number: number as u64,
            bytes: *bytes,
        };
        assert_eq!(rt; input.put(packet), Ok(()));
    }
    let made = Napi::new(alloc, ctx, 2);
    let Ok((napi, mut callers, control)) = made else {
        panic!(rt; "no instance")
    };
    let second = pop(rt, &napi, &mut callers);
    let first = pop(rt, &napi, &mut callers);
    let popped = callers.pop();
    let None = popped else {
        panic!(rt; "a third caller")
    };
    callers.destroy_empty();
    PollBed {
        input,
        napi,
        first,
        second,
        control,
    }
}

fn word(napi: &Napi, caller: &mut Caller) -> u64
    requires { IsSeatOf napi.now caller.old.pass }
    ensures { IsSeatOf napi.now caller.new.pass }
{
    encode(caller.look(napi))
}

/// Requests a poll, which is granted, and queues the instance.
fn handed<R: Abort + Wait>(rt: &R, napi: &Napi, caller: Caller, kind: Kind) -> Caller
    requires { IsSeatOf napi.now caller.pass }
    ensures { IsSeatOf napi.now result.pass }
{
    let answer = caller.schedule(rt, napi);
    let Sched::Granted(granted) = answer else {
        panic!(rt; "not granted")
    };
    granted.hand(napi, kind)
}

/// Closes the instance with both callers.
fn closed(
    rt: &impl Abort,
    alloc: Global,
    napi: Napi,
    first: Caller,
    second: Caller,
    control: Control<Off>,
) -> RxCtx
    requires first { IsSeatOf napi first.pass }
    requires second { IsSeatOf napi second.pass }
    requires control { IsSeatOf napi control.pass }
    ensures { ring_name result ≡ ring_of_instance napi }
{
    let made = Vec::with_capacity(alloc, 2);
    let Ok(mut callers) = made else {
        panic!(rt; "no memory")
    };
    callers.push_reserved(first);
    callers.push_reserved(second);
    let answer = napi_calls::close(napi, callers, control);
    let Ok(ctx) = answer else {
        panic!(rt; "callers are missing")
    };
    ctx
}

#[test]
fn an_instance_on_the_list_that_is_being_disabled(rt: HostRuntime) -> Result<(), Fail> {
    let PollBed {
        input,
        napi,
        first,
        second,
        control,
    } = make_bed(&rt, rt.alloc(), 4, &[60, 60, 60]);
    let control = control.enable(&rt, &napi, false);
    let mut first = handed(&rt, &napi, first, Kind::List);
    let control = control.mark(&napi);
    assert_eq!(rt; word(&napi, &mut first), 4294967301);
    let mut batch = Batch::new();
    let (mut second, polled) = poll_instance(&rt, &napi, second, 2, true, &mut batch);
    assert_eq!(rt; polled, once(2, Next::Gone));
    assert_eq!(rt; batch.as_slice(), [packet(0), packet(1)].as_slice());
    assert_eq!(rt; word(&napi, &mut second), 4);
    let answer = control.try_take(&napi);
    let TryTake::Taken(control) = answer else {
        panic!(rt; "not disabled")
    };
    assert_eq!(rt; word(&napi, &mut second), 9);
    let ctx = closed(&rt, rt.alloc(), napi, first, second, control);
    let totals = finish(input, ctx);
    assert_eq!(rt; (totals.put, totals.polled, totals.left), (3, 2, 1));
    Ok(())
}

/// Polls three packets by the thread, with at most this many polls of weight 2. Returns the report, and what is left on the
/// list.
fn play_by_thread<R: Abort + Wait>(rt: &R, alloc: Global, most: u32, want: ThreadReport, left: Once)
    requires { IsMost most }
{
    let PollBed {
        input: _,
        napi,
        first,
        second,
        control,
    } = make_bed(rt, alloc, 4, &[60, 60, 60]);
    let control = control.enable(rt, &napi, true);
    let mut batch = Batch::new();
    let (second, report) = poll_instance_by_thread(rt, &napi, second, 2, most, &mut batch);
    assert_eq!(rt;
        (report.polls, report.work, report.next),
        (0, 0, Next::Absent)
    );
    let first = handed(rt, &napi, first, Kind::Thread);
    let (second, report) = poll_instance_by_thread(rt, &napi, second, 2, most, &mut batch);
    assert_eq!(rt; report, want);
    let (second, polled) = poll_instance(rt, &napi, second, 2, true, &mut batch);
    assert_eq!(rt; polled, left);
    let control = control.disable(rt, &napi);
    let _ = closed(rt, alloc, napi, first, second, control);
}

#[test]
fn a_thread_polls_until_no_repoll_is_asked(rt: HostRuntime) {
    let whole = ThreadReport {
        polls: 2,
        work: 3,
        next: Next::Gone,
    };
    let cut = ThreadReport {
        polls: 1,
        work: 2,
        next: Next::Repoll,
    };
    play_by_thread(&rt, rt.alloc(), 1, cut, once(1, Next::Gone));
    play_by_thread(&rt, rt.alloc(), 2, whole, once(0, Next::Absent));
    play_by_thread(&rt, rt.alloc(), 131072, whole, once(0, Next::Absent));
}

#[test]
fn busy_polling_gives_the_next_packets_and_hands_over(rt: HostRuntime) -> Result<(), Fail> {
    let PollBed {
        input: _,
        napi,
        first,
        second,
        control,
    } = make_bed(&rt, rt.alloc(), 8, &[1, 2, 4, 8, 16, 32]);
    let mut batch = Batch::new();
    let (first, refused) = busy_instance(&rt, &napi, first, 2, 2, &mut batch);
    assert_eq!(rt; refused, BusyReport::NONE);
    assert_eq!(rt; batch.len(), 0);
    let control = control.enable(&rt, &napi, false);
    let (mut first, report) = busy_instance(&rt, &napi, first, 2, 2, &mut batch);
    let want = BusyReport {
        polls: 3,
        work: 6,
        held: 0,
        bytes: 63,
        next: Next::Repoll,
    };
    assert_eq!(rt; report, want);
    let last = [
        Packet {
            number: 4,
            bytes: 16,
        },
        Packet {
            number: 5,
            bytes: 32,
        },
    ];
    assert_eq!(rt; batch.as_slice(), last.as_slice());
    assert_eq!(rt; word(&napi, &mut first), 4294967297);
    let (second, polled) = poll_instance(&rt, &napi, second, 2, true, &mut batch);
    assert_eq!(rt; polled, once(0, Next::Gone));
    let (second, idle) = busy_instance(&rt, &napi, second, 2, 64, &mut batch);
    assert_eq!(rt; (idle.polls, idle.held, idle.next), (3, 2, Next::Gone));
    let control = control.disable(&rt, &napi);
    let _ = closed(&rt, rt.alloc(), napi, first, second, control);
    Ok(())
}
