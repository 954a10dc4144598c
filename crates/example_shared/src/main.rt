//! A network card whose interrupts and poller are separate threads, with one shared instance and a receive ring. Its interrupt
//! line is shared with another device: the first interrupt puts a packet into the ring and requests a poll, the second only
//! requests. Then the card is reset: as many packets arrive while the controller owns the instance, so that all their requests
//! fail. However the threads are scheduled, every packet is polled before the program ends.
//!
//! `handlers.rt` has what each thread does; here the instance is made, used and closed. A caller or the controller of the
//! instance (`Caller`, `Control`) is a linear value, called a seat: it goes to its thread in a `DropBomb`, is returned as the
//! thread's result, and is passed to `close`.
#![tactic(auto)]

ghost use Rattle.rx_ring.specs.Ends.{SameIn};
ghost use Rattle.napi_word.specs.Passes.{SameTable};
ghost use Rattle.napi_calls.specs.Instance.{IsSeatOf};

mod handlers;

use anyhow::Result;
use handlers::{open, poll_all, receive, request};
use napi_calls::{Caller, Control, DropBomb, Napi, NewBack, On, next_caller};
use rx_ring::{RxIn, Totals, finish, ring};
use std::sync::Wait;
use std::sync::atomic::AtomicU64;
use std::thread::{Threads, join};

// The capacity of the ring, which is large enough that no packet is dropped.
const PLACES: usize = 1024;

// Runs both interrupts and the poller, each in its own thread, until all packets are polled.
fn serve<R: Threads + Wait + Copy + Drop + Send>(
    rt: R,
    napi: &Napi,
    seats: (Caller, Caller, Caller),
    input: RxIn,
) -> ((Caller, RxIn), Caller, Caller)
    requires { IsSeatOf napi.now seats.0.pass × IsSeatOf napi.now seats.1.pass
        × IsSeatOf napi.now seats.2.pass }
    ensures seats { IsSeatOf napi.now result.0.0.pass × IsSeatOf napi.now result.1.pass
        × IsSeatOf napi.now result.2.pass }
    ensures input { SameIn input result.0.1 }
{
    let (first, second, poller) = seats;
    let ended = AtomicU64::new(0);
    let end = &ended;
    let first = DropBomb::new(rt, first);
    let second = DropBomb::new(rt, second);
    let poller = DropBomb::new(rt, poller);
    // If no thread can be started, `join` calls the second closure before the first: so the poller runs after both interrupts.
    let (poller, (first, second)) = join(
        &rt,
        move || -> Caller
            requires { IsSeatOf napi.now poller.value.pass }
            ensures { SameTable poller.value.pass result.pass }
        { poll_all(&rt, napi, poller.open(), end) },
        move || -> ((Caller, RxIn), Caller)
            requires { IsSeatOf napi.now first.value.pass × IsSeatOf napi.now second.value.pass }
            ensures seats { SameTable first.value.pass result.0.0.pass
                × SameTable second.value.pass result.1.pass }
            ensures input { SameIn input result.0.1 }
        {
            join(
                &rt,
                move || -> (Caller, RxIn)
                    requires { IsSeatOf napi.now first.value.pass }
                    ensures { SameTable first.value.pass result.0.pass × SameIn input result.1 }
                { receive(&rt, napi, first.open(), input, end) },
                move || -> Caller
                    requires { IsSeatOf napi.now second.value.pass }
                    ensures { SameTable second.value.pass result.pass }
                { request(&rt, napi, second.open(), end) },
            )
        },
    );
    (first, second, poller)
}

// Resets the card: packets arrive while the controller owns the instance, and each request for them fails. `open` requests a
// poll for all of them; otherwise none would be polled.
fn reset(
    rt: &impl Wait,
    napi: &Napi,
    control: Control<On>,
    seats: (Caller, Caller, Caller),
    input: RxIn,
) -> (Control<On>, (Caller, Caller, Caller), RxIn)
    requires control { IsSeatOf napi.now control.pass }
    requires seats { IsSeatOf napi.now seats.0.pass × IsSeatOf napi.now seats.1.pass
        × IsSeatOf napi.now seats.2.pass }
    ensures control { IsSeatOf napi.now result.0.pass }
    ensures seats { IsSeatOf napi.now result.1.0.pass × IsSeatOf napi.now result.1.1.pass
        × IsSeatOf napi.now result.1.2.pass }
    ensures input { SameIn input result.2 }
{
    let (first, poller, own) = seats;
    // the second interrupt has nothing to do
    let ended = AtomicU64::new(1);
    let control = control.disable(rt, napi);
    let (first, input) = receive(rt, napi, first, input, &ended);
    let (control, own) = open(rt, napi, control, own);
    let poller = poll_all(rt, napi, poller, &ended);
    (control, (first, poller, own), input)
}

fn main(rt: HostRuntime) -> Result<()> {
    let (input, ctx) = ring(rt.alloc(), PLACES)?;
    let (napi, mut callers, control) = match Napi::new(rt.alloc(), ctx, 4) {
        Ok(made) => made,
        Err(NewBack { fault, ctx: _ }) => return Err(fault.into()),
    };
    let poller = next_caller(&napi, &mut callers);
    let second = next_caller(&napi, &mut callers);
    let first = next_caller(&napi, &mut callers);
    let own = next_caller(&napi, &mut callers);
    let (control, own) = open(&rt, &napi, control, own);
    let ((first, input), second, poller) = serve(rt, &napi, (first, second, poller), input);
    let (control, (first, poller, own), input) = reset(
        &rt,
        &napi,
        control,
        (first, poller, own),
        input,
    );
    let control = control.disable(&rt, &napi);
    callers.push_reserved(first);
    callers.push_reserved(second);
    callers.push_reserved(poller);
    callers.push_reserved(own);
    let closed = napi_calls::close(napi, callers, control);
    let Ok(ctx) = closed else { unreachable!() };
    let Totals {
        put,
        polled,
        left,
        bytes,
    } = finish(input, ctx);
    println!(rt; "put {put}, polled {polled}, left {left}, bytes {bytes}")?;
    Ok(())
}
