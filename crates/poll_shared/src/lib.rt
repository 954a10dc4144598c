//! Internal crate of the facade `poll_engine`: the polling of a shared instance.
#![tactic(auto)]

mod seat;
mod shared_instance;

pub use seat::{complete, hand_over};
pub use shared_instance::{busy_instance, poll_instance, poll_instance_by_thread};
