//! What a run takes and what it returns, for each station.

ghost use Rattle.std.specs.Prelude.{[], ◌∷◌};
ghost use Rattle.rx_ring.specs.declared.ends.RxCtx.{RxCtx};
ghost use Rattle.napi_calls.specs.Closed.{IsClosed};

use crate::setup::trail::{Asked, Trail};
use napi_calls::{Caller, Control, Napi, Off};
use rx_ring::Totals;
use std::snapshot::Snapshot;

/// A device to run, with its ring and its thread.
#[derive(Drop)]
pub struct Station<D> {
    /// The device's number, 1 to 16. No two stations of a run have the same.
    pub number: u32,
    /// The packets that its receive ring can hold, 1 to 65536.
    pub capacity: usize,
    /// Whether it has its own thread, which polls it while THREADED is set (`dev_set_threaded`). Without one it is polled from
    /// the list.
    pub thread: bool,
    /// The device.
    pub device: D,
}

/// A device after its run.
#[derive(Drop)]
pub struct Finished<D> {
    /// Its number.
    pub number: u32,
    /// The device after its acts.
    pub device: D,
    /// The counts of its receive ring.
    pub totals: Totals,
    /// Its instance and all its callers, as they were when it was closed.
    pub closed: Closed,
    /// The questions to the gate before its acts, each with the device at that time. Only proofs read them.
    pub asked: Trail<Asked<D>>,
}

/// A closed instance with its three callers and its controller, for contracts: it has no bytes at run time. A value of this
/// type is the proof that its instance was closed with these callers and this controller, so clauses about it are about the
/// history of that instance.
#[derive(Drop)]
pub struct Closed {
    pub(crate) napi: Snapshot<Napi>,
    pub(crate) worker: Snapshot<Caller>,
    pub(crate) poller: Snapshot<Caller>,
    pub(crate) thread: Snapshot<Caller>,
    pub(crate) control: Snapshot<Control<Off>>,
    ghost closed: { ∥ ((ctx : RxCtx) × IsClosed napi.value
        (worker.value ∷ poller.value ∷ thread.value ∷ []) control.value.pass ctx) ∥₁ },
}
