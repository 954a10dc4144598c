//! What the interrupt handlers, the poller and the controller do. Each function takes a caller or the controller of the
//! instance (a linear value, called a seat), and returns it.
ghost use Rattle.rx_ring.specs.Ends.{SameIn};
ghost use Rattle.napi_calls.specs.Instance.{IsSeatOf};

use napi_calls::{Caller, Completed, Control, Napi, Off, On, Polling, Sched};
use napi_model::Kind;
use rx_ring::{Batch, Packet, RxIn};
use std::sync::Wait;
use std::sync::atomic::{AtomicU64, Ordering};
use std::thread;

const PACKETS: u64 = 1000;

const WEIGHT: usize = 64;

// Requests a poll, and queues the instance on the list if it is granted.
fn ask(rt: &impl Wait, napi: &Napi, caller: Caller) -> Caller
    requires { IsSeatOf napi.now caller.pass }
    ensures { IsSeatOf napi.now result.pass }
{
    match caller.schedule(rt, napi) {
        Sched::Granted(granted) => granted.hand(napi, Kind::List),
        Sched::Missed(caller) | Sched::Disabled(caller) => caller,
    }
}

/// Enables the instance, and then requests a poll once, as a caller of its own. Requests for packets that arrived while the
/// instance was disabled have failed, and without this request those packets would stay in the ring until the next one arrives.
pub(crate) fn open(
    rt: &impl Wait,
    napi: &Napi,
    control: Control<Off>,
    own: Caller,
) -> (Control<On>, Caller)
    requires { IsSeatOf napi.now control.pass × IsSeatOf napi.now own.pass }
    ensures { IsSeatOf napi.now result.0.pass × IsSeatOf napi.now result.1.pass }
{
    let control = control.enable(rt, napi, false);
    let own = ask(rt, napi, own);
    (control, own)
}

/// The first interrupt: a packet arrives, and a poll is requested. A full ring drops the packet.
pub(crate) fn receive(
    rt: &impl Wait,
    napi: &Napi,
    mut caller: Caller,
    mut input: RxIn,
    ended: &AtomicU64,
) -> (Caller, RxIn)
    requires { IsSeatOf napi.now caller.pass }
    ensures caller { IsSeatOf napi.now result.0.pass }
    ensures input { SameIn input result.1 }
{
    for number in 0..PACKETS {
        let _ = input.put(Packet { number, bytes: 60 });
        caller = ask(rt, napi, caller);
    }
    ended.fetch_add(1, Ordering::SeqCst);
    (caller, input)
}

/// The second interrupt, of the same line, which has no packet.
pub(crate) fn request(rt: &impl Wait, napi: &Napi, mut caller: Caller, ended: &AtomicU64) -> Caller
    requires { IsSeatOf napi.now caller.pass }
    ensures { IsSeatOf napi.now result.pass }
{
    for _ in 0..PACKETS {
        caller = ask(rt, napi, caller);
    }
    ended.fetch_add(1, Ordering::SeqCst);
    caller
}

// Polls once. A poll that used its whole weight is followed by another; any other one ends, unless a request was missed.
fn poll(rt: &impl Wait, napi: &Napi, mut polling: Polling, batch: &mut Batch) -> Caller
    requires { IsSeatOf napi.now polling.pass }
    ensures { IsSeatOf napi.now result.pass }
{
    if polling.poll(WEIGHT, batch) == WEIGHT {
        return polling.requeue(napi);
    }
    match polling.complete(rt, napi) {
        Completed::Released(caller) => caller,
        Completed::Again(granted) => granted.hand(napi, Kind::List),
    }
}

/// The poller: polls whenever the instance is on the list, until both interrupts have ended and the instance isn't on the list
/// any more. It reads whether they have ended before it looks at the list, so it doesn't overlook their last requests.
pub(crate) fn poll_all(rt: &impl Wait, napi: &Napi, mut caller: Caller, ended: &AtomicU64) -> Caller
    requires { IsSeatOf napi.now caller.pass }
    ensures { IsSeatOf napi.now result.pass }
{
    let mut batch = Batch::new();
    for _ in rt.forever() {
        let last = ended.load(Ordering::SeqCst) == 2;
        match caller.take(napi, Kind::List) {
            Ok(polling) => caller = poll(rt, napi, polling, &mut batch),
            Err(rest) if last => return rest,
            Err(rest) => {
                caller = rest;
                thread::yield_now();
            }
        }
    }
    unreachable!()
}
