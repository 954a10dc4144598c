//! The one-thread NAPI object: its state, its legal steps and histories, its state word, and [`SerialNapi`], which executes the
//! steps.
//!
//! The rules are those of the packet polling core of Linux 6.6 (`net/core/dev.c`, `include/linux/netdevice.h`). All contracts
//! cite the definitions in `specs/`: `Step` has the table of legal steps, `History` the state after a list of events, `Word`
//! the bits.
#![tactic(auto)]

pub mod bits;
mod event;
mod history;
mod laws;
mod serial;
mod state;
mod word;

pub use event::{Call, Done, Event, Operation, Prep};
pub use history::{first_illegal, is_accepted_schedule, is_poll_start, own, state_after};
pub use laws::{
    busy_poll_is_polling, control_is_the_controllers, others_leave_disable, others_leave_owner,
    others_leave_ownership, own_of_joined, sched_clear_is_nobody, sched_threaded_is_handed,
};
pub use serial::SerialNapi;
pub use state::{Flags, Kind, Place, Seen, State};
pub use word::{decode, decode_known, encode};
