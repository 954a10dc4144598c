//! Two pollers, each in its own thread: their batches and the packets that are left are together exactly those that were put,
//! each once.

ghost use Rattle.std.specs.Prelude.{◌≡◌, List, [], length};
ghost use Rattle.rx_ring.specs.declared.packet.Packet.{Packet};
ghost use Rattle.rx_ring.specs.Ends.{put_list, received_list};
ghost use Rattle.rx_ring.specs.ReceiveRing.{capped};
ghost use Rattle.napi_calls.specs.Instance.{IsSeatOf, IsNewSeat, first_of_instance};
ghost use Rattle.napi_calls.specs.Seats.{SameSeat, PutsIntoRingOf};
ghost use Rattle.napi_calls.specs.Packets.{Quiet};
ghost use Rattle.napi_calls.specs.Dealt.{Delivers, IsDealt};

use crate::bed::{Bed, closed, make_full_bed};
use napi_calls::{Caller, Completed, DropBomb, Napi, Sched};
use napi_model::Kind;
use rx_ring::{Batch, Totals, finish};
use std::alloc::Global;
use std::process::Abort;
use std::sync::Wait;
use std::test::Fail;
use std::thread::{Threads, join, yield_now};

// Requests a poll, and queues the instance on the list if it is granted.
fn ask(rt: &impl Wait, napi: &Napi, caller: Caller) -> Caller
    requires { IsSeatOf napi.now caller.pass }
    ensures seat { SameSeat caller.pass result.pass }
    ensures packets { Quiet caller.pass result.pass }
{
    match caller.schedule(rt, napi) {
        Sched::Granted(granted) => granted.hand(napi, Kind::List),
        Sched::Missed(caller) => caller,
        Sched::Disabled(caller) => caller,
    }
}

// Waits until the instance is on the list, polls two of its packets, and queues it on the list again.
fn poll_two(rt: &impl Wait, napi: &Napi, caller: Caller, batch: &mut Batch) -> Caller
    requires { IsSeatOf napi.now caller.pass }
    ensures seat { SameSeat caller.pass result.pass }
    ensures packets { Delivers caller.pass batch.new.items result.pass }
{
    let mut caller = caller;
    for _ in rt.forever() {
        match caller.take(napi, Kind::List) {
            Ok(mut polling) => {
                polling.poll(2, batch);
                return polling.requeue(napi);
            }
            Err(rest) => {
                caller = rest;
                yield_now();
            }
        }
    }
    unreachable!()
}

// Takes the instance from the list, and releases it.
fn release(rt: &impl Wait, napi: &Napi, caller: Caller) -> Caller
    requires { IsSeatOf napi.now caller.pass }
    ensures seat { SameSeat caller.pass result.pass }
    ensures packets { Delivers caller.pass [] result.pass }
{
    match caller.take(napi, Kind::List) {
        Err(caller) => caller,
        Ok(polling) => match polling.complete(rt, napi) {
            Completed::Released(caller) => caller,
            Completed::Again(granted) => granted.hand(napi, Kind::List),
        },
    }
}

// Runs each poller in its own thread.
fn both<R: Threads + Wait + Copy + Drop + Send>(
    rt: R,
    napi: &Napi,
    first: Caller,
    second: Caller,
) -> ((Caller, Batch), (Caller, Batch))
    requires { IsSeatOf napi.now first.pass × IsSeatOf napi.now second.pass }
    ensures first { SameSeat first.pass result.0.0.pass
        × Delivers first.pass result.0.1.items result.0.0.pass }
    ensures second { SameSeat second.pass result.1.0.pass
        × Delivers second.pass result.1.1.items result.1.0.pass }
{
    let first = DropBomb::new(rt, first);
    let second = DropBomb::new(rt, second);
    join(
        &rt,
        move || -> (Caller, Batch)
            requires { IsSeatOf napi.now first.value.pass }
            ensures { SameSeat first.value.pass result.0.pass
                × Delivers first.value.pass result.1.items result.0.pass }
        {
            let mut batch = Batch::new();
            let caller = poll_two(&rt, napi, first.open(), &mut batch);
            (caller, batch)
        },
        move || -> (Caller, Batch)
            requires { IsSeatOf napi.now second.value.pass }
            ensures { SameSeat second.value.pass result.0.pass
                × Delivers second.value.pass result.1.items result.0.pass }
        {
            let mut batch = Batch::new();
            let caller = poll_two(&rt, napi, second.open(), &mut batch);
            (caller, batch)
        },
    )
}

// Runs both pollers, and checks the end: what each of them polled, and the totals of the ring.
fn deal<R: Threads + Wait + Abort + Copy + Drop + Send>(
    rt: R,
    alloc: Global,
    bed: Bed,
) -> (Batch, Batch, Totals)
    requires first { IsNewSeat bed.napi 0 bed.first.pass }
    requires second { IsNewSeat bed.napi 1 bed.second.pass }
    requires control { IsNewSeat bed.napi 2 bed.control.pass }
    requires input { PutsIntoRingOf bed.input bed.first.pass }
    requires nothing { received_list (first_of_instance bed.napi) ≡ [] }
    ensures { (left : List Packet) × IsDealt (put_list bed.input) result.0.items result.1.items left
        × (result.2.left ≡ capped (length left)) }
{
    let Bed {
        input,
        napi,
        first,
        second,
        control,
    } = bed;
    let control = control.enable(&rt, &napi, false);
    let first = ask(&rt, &napi, first);
    let ((first, one), (second, two)) = both(rt, &napi, first, second);
    let first = release(&rt, &napi, first);
    let control = control.disable(&rt, &napi);
    let ctx = closed(&rt, alloc, napi, first, second, control);
    (one, two, finish(input, ctx))
}

#[test]
fn two_pollers_are_dealt_each_packet_once(rt: HostRuntime) -> Result<(), Fail> {
    let bed = make_full_bed(&rt, rt.alloc());
    let (one, two, totals) = deal(rt, rt.alloc(), bed);
    assert_eq!(rt; (one.len(), two.len()), (2, 2));
    assert_eq!(rt; (totals.put, totals.polled, totals.left), (4, 4, 0));
    Ok(())
}
