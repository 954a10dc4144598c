//! An instance that both threads share: the first puts packets and requests polls, the second polls.
ghost use Rattle.napi_word.specs.Passes.{SameTable};
ghost use Rattle.napi_calls.specs.Instance.{IsSeatOf};

use crate::tally::{PLACES, ReceivedCounts, packet};
use anyhow::Result;
use napi_calls::{Caller, Completed, DropBomb, Napi, NewBack, Polling, Sched, next_caller};
use napi_model::Kind;
use rx_ring::{Batch, Packet, RxIn, ring};
use std::alloc::Global;
use std::sync::Wait;
use std::sync::atomic::{AtomicBool, Ordering};
use std::thread::{Threads, join, yield_now};

const WEIGHT: usize = 64;

// Puts the packet into the ring, and waits while it is full.
fn put(rt: &impl Wait, input: &mut RxIn, mut packet: Packet) {
    for _ in rt.forever() {
        match input.put(packet) {
            Ok(()) => return,
            Err(back) => packet = back,
        }
        yield_now();
    }
}

// Requests a poll, and queues the instance on the list if it is granted.
fn ask(rt: &impl Wait, napi: &Napi, caller: Caller) -> Caller
    requires { IsSeatOf napi.now caller.pass }
    ensures { IsSeatOf napi.now result.pass }
{
    match caller.schedule(rt, napi) {
        Sched::Granted(granted) => granted.hand(napi, Kind::List),
        Sched::Missed(caller) | Sched::Disabled(caller) => caller,
    }
}

// The interrupt thread: this many packets, each followed by a request.
fn interrupt(
    rt: &impl Wait,
    napi: &Napi,
    mut caller: Caller,
    mut input: RxIn,
    packets: u64,
    ended: &AtomicBool,
) -> Caller
    requires { IsSeatOf napi.now caller.pass }
    ensures { IsSeatOf napi.now result.pass }
{
    for number in 0..packets {
        put(rt, &mut input, packet(number));
        caller = ask(rt, napi, caller);
    }
    ended.store(true, Ordering::SeqCst);
    caller
}

// Polls once. A poll that used its whole weight is followed by another; any other one ends, unless a request was missed.
fn poll(rt: &impl Wait, napi: &Napi, mut polling: Polling, batch: &mut Batch) -> Caller
    requires { IsSeatOf napi.now polling.pass }
    ensures { IsSeatOf napi.now result.pass }
{
    if polling.poll(WEIGHT, batch) == WEIGHT {
        return polling.requeue(napi);
    }
    match polling.complete(rt, napi) {
        Completed::Released(caller) => caller,
        Completed::Again(granted) => granted.hand(napi, Kind::List),
    }
}

fn add_all(tally: &mut ReceivedCounts, batch: &Batch) {
    for packet in batch.as_slice() {
        tally.add(packet);
    }
}

// The poller: polls whenever the instance is on the list, until the interrupt thread has ended and the instance isn't on the
// list any more.
fn poll_all(
    rt: &impl Wait,
    napi: &Napi,
    mut caller: Caller,
    ended: &AtomicBool,
) -> (Caller, ReceivedCounts)
    requires { IsSeatOf napi.now caller.pass }
    ensures { IsSeatOf napi.now result.0.pass }
{
    let mut batch = Batch::new();
    let mut tally = ReceivedCounts::new();
    for _ in rt.forever() {
        let last = ended.load(Ordering::SeqCst);
        match caller.take(napi, Kind::List) {
            Ok(polling) => {
                caller = poll(rt, napi, polling, &mut batch);
                add_all(&mut tally, &batch);
            }
            Err(rest) if last => return (rest, tally),
            Err(rest) => {
                caller = rest;
                yield_now();
            }
        }
    }
    unreachable!()
}

// Runs the interrupt thread and the poller.
fn serve<R: Threads + Wait + Copy + Drop + Send>(
    rt: R,
    napi: &Napi,
    seats: (Caller, Caller),
    input: RxIn,
    packets: u64,
) -> (Caller, Caller, ReceivedCounts)
    requires { IsSeatOf napi.now seats.0.pass × IsSeatOf napi.now seats.1.pass }
    ensures { IsSeatOf napi.now result.0.pass × IsSeatOf napi.now result.1.pass }
{
    let (first, poller) = seats;
    let ended = AtomicBool::new(false);
    let end = &ended;
    let first = DropBomb::new(rt, first);
    let poller = DropBomb::new(rt, poller);
    // If no thread can be started, `join` calls the second closure before the first, and it waits forever once the ring is
    // full.
    let ((poller, tally), first) = join(
        &rt,
        move || -> (Caller, ReceivedCounts)
            requires { IsSeatOf napi.now poller.value.pass }
            ensures { SameTable poller.value.pass result.0.pass }
        { poll_all(&rt, napi, poller.open(), end) },
        move || -> Caller
            requires { IsSeatOf napi.now first.value.pass }
            ensures { SameTable first.value.pass result.pass }
        { interrupt(&rt, napi, first.open(), input, packets, end) },
    );
    (first, poller, tally)
}

/// Passes this many packets to a second thread.
pub fn pass_shared<R: Threads + Wait + Copy + Drop + Send>(
    rt: R,
    alloc: Global,
    packets: u64,
) -> Result<ReceivedCounts> {
    let (input, ctx) = ring(alloc, PLACES)?;
    let (napi, mut callers, control) = match Napi::new(alloc, ctx, 2) {
        Ok(made) => made,
        Err(NewBack { fault, ctx: _ }) => return Err(fault.into()),
    };
    let control = control.enable(&rt, &napi, false);
    let poller = next_caller(&napi, &mut callers);
    let first = next_caller(&napi, &mut callers);
    let (first, poller, tally) = serve(rt, &napi, (first, poller), input, packets);
    callers.push_reserved(first);
    callers.push_reserved(poller);
    let control = control.disable(&rt, &napi);
    let closed = napi_calls::close(napi, callers, control);
    let Ok(_ctx) = closed else { unreachable!() };
    Ok(tally)
}
