//! Internal crate of the facade `device_model`: the receive side of a device (its ring and its instance), with an instance that
//! threads could share, while one thread owns all its callers; and the bench of such devices.
//!
//! [`SharedReceive`] owns the callers and the controller of an instance of `napi_calls`, each with the state that its type says:
//! who polls the instance, who busy polls it, and whether it is disabled or a disable is pending. Contracts know this much of
//! the instance between two calls, and no more: it isn't an exact [`ReceiveSide`](device_bench::ReceiveSide). When it ends, the
//! instance is closed, and then they know its one complete history ([`ClosedSide`]). Tests compare the reports of such devices
//! with those of devices for one thread, byte by byte.
#![tactic(auto)]

mod bench;
mod callers;
mod closed_side;
mod ending;
mod opening;
mod shared_receive;

pub use bench::SharedBench;
pub use closed_side::ClosedSide;
pub use shared_receive::SharedReceive;
