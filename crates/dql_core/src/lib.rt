//! Dynamic queue limits: how many bytes a transmit queue may have in flight, adapted to its completions.
//!
//! These are the rules of `lib/dynamic_queue_limits.c` of Linux 6.6, the arithmetic of byte queue limits. [`Dql`] keeps 32-bit
//! counters that wrap, as the kernel's `struct dql` does. [`Limit`] is the same limit in whole numbers: `specs/Limit.antt`
//! defines what each call does to it, and the contracts of `Dql` say that `Dql` does the same.
#![tactic(auto)]

mod bounds;
mod counter;
mod event;
mod queue;
mod whole;

pub use bounds::{MAX_IN_FLIGHT, MAX_LIMIT, MAX_OBJECT};
pub use event::{DqlFault, LimitEvent};
pub use queue::Dql;
pub use whole::Limit;
