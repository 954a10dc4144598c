//! Closes a receive side: its instance and its ring.

ghost use Rattle.std.specs.Prelude.{◌≡◌, [], ◌∷◌, Some, length, true, vec_capacity};
ghost use Rattle.napi_calls.specs.Closed.{IsClosed};
ghost use Rattle.napi_calls.specs.Instance.{IsSeatOf, callers_of};
ghost use Rattle.rx_ring.specs.Ends.{IsOneRing, SameCtx, SameIn, put_list, received_list};
ghost use Rattle.device_shared.specs.Callers.{HasCallerRoom, IsSeat, Same, control_pass, fits_poller, state_pass};

use napi_calls::{Caller, CallerState, Control, ControlState, Napi, Off, TryTake};
use napi_model::Kind;
use poll_shared::complete;
use rx_ring::{Batch, MAX_WEIGHT, RxCtx, RxIn, beside};
use std::sync::Wait;

/// Closes an instance that the controller owns, and returns its poll context.
pub(crate) fn close(
    napi: Napi,
    interrupt: Caller,
    poller: Caller,
    thread: Caller,
    control: Control<Off>,
    mut callers: Vec<Caller>,
) -> RxCtx
    requires interrupt { IsSeatOf napi interrupt.pass }
    requires poller { IsSeatOf napi poller.pass }
    requires thread { IsSeatOf napi thread.pass }
    requires control { IsSeatOf napi control.pass }
    requires room { HasCallerRoom (callers_of napi) (length callers.items) (vec_capacity callers) }
    ensures closed { IsClosed
        napi (interrupt ∷ poller ∷ thread ∷ []) control.pass result }
    ensures ctx { result ≡ control.state.ctx }
{
    callers.push_reserved(interrupt);
    callers.push_reserved(poller);
    callers.push_reserved(thread);
    let closed = napi_calls::close(napi, callers, control);
    let Ok(ctx) = closed else { unreachable!() };
    ctx
}

/// Polls all packets in the ring that has these ends.
pub(crate) fn empty(input: &mut RxIn, ctx: &mut RxCtx)
    requires { IsOneRing input.old ctx.old }
    ensures input { SameIn input.old input.new }
    ensures ctx { SameCtx ctx.old ctx.new }
    ensures put { put_list input.new ≡ put_list input.old }
    ensures polled { received_list ctx.new ≡ put_list input.old }
{
    let mut batch = Batch::new();
    loop {
        beside(input, ctx);
        let given = ctx.poll(MAX_WEIGHT, &mut batch);
        if given == 0 {
            return;
        }
    }
}

// Makes a caller release the instance. If the instance waits in this queue, the caller takes it first.
fn release<R: Wait>(rt: &R, napi: &Napi, state: CallerState, kind: Kind) -> Caller
    requires state { fits_poller state ≡ true }
    requires seat { IsSeat napi.now (state_pass state) }
    ensures { IsSeatOf napi.now result.pass }
{
    let polling = match state {
        CallerState::Rests(caller) => match caller.take(napi, kind) {
            Ok(polling) => polling,
            Err(caller) => return caller,
        },
        CallerState::Polls(polling) => polling,
        CallerState::Busy(busy) => busy.stop(rt, napi),
        _ => unreachable!(),
    };
    complete(rt, napi, polling, true).0
}

/// Makes the callers release the instance, and disables it.
pub(crate) fn disable<R: Wait>(
    rt: &R,
    napi: &Napi,
    poller: CallerState,
    thread: CallerState,
    control: ControlState,
) -> (Caller, Caller, Control<Off>)
    requires poller { fits_poller poller ≡ true }
    requires poller_seat { IsSeat napi.now (state_pass poller) }
    requires thread { fits_poller thread ≡ true }
    requires thread_seat { IsSeat napi.now (state_pass thread) }
    requires control { IsSeat napi.now (control_pass control) }
    ensures poller { IsSeatOf napi.now result.0.pass }
    ensures thread { IsSeatOf napi.now result.1.pass }
    ensures control { Same (control_pass control) (Some result.2.pass) }
{
    let mut poller = release(rt, napi, poller, Kind::List);
    let mut thread = release(rt, napi, thread, Kind::Thread);
    let mut marked = match control {
        ControlState::Off(control) => return (poller, thread, control),
        ControlState::On(control) => control.mark(napi),
        ControlState::Marked(control) => control,
        ControlState::Gone => unreachable!(),
    };
    for _ in rt.forever() {
        match marked.try_take(napi) {
            TryTake::Taken(control) => return (poller, thread, control),
            TryTake::Busy(control) | TryTake::Changed(control) => marked = control,
        }
        poller = release(rt, napi, CallerState::Rests(poller), Kind::List);
        thread = release(rt, napi, CallerState::Rests(thread), Kind::Thread);
    }
    unreachable!()
}
