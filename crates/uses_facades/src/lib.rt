//! A user of each of the twelve facades, with a file for each. Its own contracts are proved from what the facade promises. A
//! file names only its facade and `std`; `names` and `run_names` have the public names of nine facades, each used once.
#![tactic(auto)]

pub mod driver_loop;
pub mod names;
pub mod one_thread;
pub mod places;
pub mod polling;
pub mod prediction;
pub mod queue_limit;
pub mod receive;
pub mod run_names;
pub mod shared_instance;
pub mod state_word;
pub mod traces;
pub mod transmit;
pub mod whole_replay;
