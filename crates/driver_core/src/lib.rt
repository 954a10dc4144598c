//! The core of a driver that polls up to 64 devices by NAPI's rules on one thread.
//!
//! [`Driver`] owns the instances, the poll list and the runs over it, and does no input or output: [`Driver::next`] returns
//! what the caller has to do at a card, [`Driver::done`] reports that it was done, and the other calls report what else
//! happened. `specs/Device.antt` has the rule of one device, `specs/World.antt` a card and a thread that drives it.
#![tactic(auto)]

mod counts;
mod device;
mod devices;
mod driver;
mod laws;
mod limits;
mod list;
mod pacing;
mod place;
mod said;
mod todo;
mod turns;

pub use counts::PollCounts;
pub use device::{Chore, DriverDevice, Rearm, Stage};
pub use driver::Driver;
pub use laws::{
    calls_are_legal, listed_is_masked, masked_first_is_fetched, no_packet_waits_unseen,
    polled_in_turn, turns_are_calls,
};
pub use limits::Limits;
pub use pacing::{DeviceSettings, Pacing};
pub use place::TodoPlace;
pub use poll_runs::RunReport;
pub use todo::{NotDue, Refused, Todo, What};
