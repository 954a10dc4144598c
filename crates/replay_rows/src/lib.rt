//! Internal crate of the facade `replay`: a whole replay of a trace of network events through the packet polling core, from the
//! bytes of the trace to the bytes of the report, or the message and the exit status of an error.
//!
//! [`replay_serial`] replays on one thread, and a [`Replay`] on any bench. [`SerialReplay`] processes the rows one by one, for
//! programs that read the state after each, and the polls of each run.
#![tactic(auto)]

mod line;
mod replay;
mod report;
mod run_log;
mod serial;
mod serial_replay;
mod softirq;
mod transmit_line;
mod whole;

pub use line::PollRecord;
pub use replay::{Replay, room_for_lines};
pub use report::{add_numbers, state_word};
pub use run_log::RunPoll;
pub use serial::replay_serial;
pub use serial_replay::SerialReplay;
pub use softirq::is_softirq;
pub use transmit_line::add_transmit;
