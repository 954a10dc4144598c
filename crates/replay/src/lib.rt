//! Whole replays of a trace of network events: from the bytes of the trace to the bytes of the report, or to the message and
//! the exit status of an error. A replay runs on one thread, by one thread on instances that threads could share, or with
//! threads. The crate also has the command line that selects one of these.
//!
//! This is a facade: `text_io` has the command line, the settings and the errors, `replay_rows` the replay on one thread, and
//! `replay_raised` the runs that the kernel adds; the other two kinds of replay are here. `specs/Lib.antt` re-exports what
//! contracts cite. The program `napi_replay` makes these calls.
#![tactic(auto)]

mod dealing;
mod polled;
mod report;
mod script;
mod shared;
mod stations;
mod threads;

pub use polled::Polled;
pub use replay_raised::{raise_rows, raise_trace, raised_is_trace};
pub use replay_rows::{Replay, replay_serial};
pub use script::{ScriptDevice, opening_of};
pub use shared::replay_shared;
pub use text_io::{
    ReplayFault, ReplayMode as Mode, ReplaySettings as Settings, WordFault, fault_line,
    parse_words, status, word_line, word_status,
};
pub use threads::replay_threads;
