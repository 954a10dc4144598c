//! What a receive side leaves at its end.

ghost use Rattle.std.specs.Prelude.{[], ◌∷◌};
ghost use Rattle.rx_ring.specs.declared.ends.RxCtx.{RxCtx};
ghost use Rattle.napi_calls.specs.Closed.{IsClosed};

use napi_calls::{Caller, Control, Napi, Off};
use rx_ring::Totals;
use std::snapshot::Snapshot;

/// The counts of a receive side's ring; and its closed instance, its three callers and its controller, as clauses see them, so
/// clauses are about the history of that instance. Only the counts take bytes. Each value of this type has the proof that its
/// instance was closed with these callers and this controller, so only a real close creates one.
#[derive(Drop)]
pub struct ClosedSide {
    /// The counts of its ring.
    pub totals: Totals,
    pub(crate) napi: Snapshot<Napi>,
    pub(crate) interrupt: Snapshot<Caller>,
    pub(crate) poller: Snapshot<Caller>,
    pub(crate) thread: Snapshot<Caller>,
    pub(crate) control: Snapshot<Control<Off>>,
    ghost closed: { ∥ ((ctx : RxCtx) × IsClosed napi.value
        (interrupt.value ∷ poller.value ∷ thread.value ∷ []) control.value.pass ctx) ∥₁ },
}
