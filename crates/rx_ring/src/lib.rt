//! The receive ring of an instance: an interrupt handler puts packets in at one end, and polls take them out at the other, each
//! once and in order, at most their weight at a time.
//!
//! This is the ring that a driver's poll function drains in the kernel (`Documentation/networking/napi.rst` of Linux 6.6, and
//! the `poll` that `__napi_poll` of `net/core/dev.c` calls). [`RxIn`] is the handler's end and [`RxCtx`] the poll's: the two
//! may be in different threads, and neither waits for the other. `specs/ReceiveRing.antt` defines the ring, and
//! `specs/Ends.antt` what each end knows of it.
#![tactic(auto)]

mod ends;
mod fault;
mod packet;
mod pair;

pub use ends::{RxCtx, RxIn};
pub use fault::RingFault;
pub use packet::{Batch, MAX_WEIGHT, Packet, RxCounts, Totals, batch_bytes};
pub use pair::{MAX_CAPACITY, beside, finish, names_tell_rings, ring};
