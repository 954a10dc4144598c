//! The objects of C's handles.
ghost use Rattle.rx_ring.specs.Ends.{IsOneRing};

use crate::caller::{CallerObject, Controller};
use crate::input::RingInput;
use crate::lister::ListObject;
use driver_core::Driver;
use place_ring::{PlaceIn, PlaceOut};
use rx_ring::RxCtx;
use std::alloc::Global;
use tx_ring::TxRing;

/// A receive ring with both of its ends.
#[derive(Drop)]
pub struct Ring {
    /// The producer's end.
    pub input: RingInput,
    /// The consumer's end, which polls.
    pub ctx: RxCtx,
    /// Proof that both ends belong to the same ring.
    pub ghost one: { IsOneRing input.end ctx },
}

/// The object of a handle.
#[derive(Drop)]
pub enum Object {
    /// A ring with both ends, without an instance.
    Ring(Ring),
    /// The input of a ring whose other end an instance has, or another handle.
    In(RingInput),
    /// The poll end of a ring, without an instance.
    Ctx(RxCtx),
    /// The input end of a ring of places.
    PlaceIn(PlaceIn),
    /// The output end of a ring of places.
    PlaceOut(PlaceOut),
    /// A poll list.
    List(Box<ListObject, Global>),
    /// A driver.
    Driver(Box<Driver, Global>),
    /// A caller of a shared instance (`fq_caller_..` in C).
    Caller(CallerObject),
    /// The controller of a shared instance.
    Controller(Controller),
    /// A transmit ring.
    Tx(TxRing),
    /// The object is taken out for a call.
    Gone,
}
