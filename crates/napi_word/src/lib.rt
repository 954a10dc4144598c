//! The state word of an instance that threads share, with the slot of its poll context. Every step on it is one event of a
//! legal history of the one-thread NAPI object, however the threads are scheduled.
//!
//! A [`StateTable`] has the word and the slot. A thread makes its steps with a [`Pass`], which has a caller's number and, only
//! in contracts, the list of events that it has seen; it contains the seat by which it makes atomic steps (see `atomic_table`).
//! A read of the word is a step too, called a look. Each step is one atomic load, or, and, addition, subtraction or
//! compare-exchange of the word (`napi_schedule_prep`, `napi_complete_done` and others in `net/core/dev.c` of Linux 6.6,
//! `napi->state`); no step locks, loops or allocates. `specs/Rule.antt` has the rule that every step preserves, and
//! `specs/Events.antt` the contract of every step.
#![tactic(auto)]

mod atoms;
mod busy;
mod control;
mod ending;
mod gathering;
mod history;
mod making;
mod meeting;
mod owner;
mod rule;
mod slot;
mod step_kinds;
mod steps;
mod table;

pub use ending::{Ended, end};
pub use gathering::{Found, Gathering};
pub use history::{Delivery, Holds, Key, Knowledge, LocalHistory};
pub use making::TableBack;
pub use rule::InOneHistory;
pub use table::{Pass, StateTable};
