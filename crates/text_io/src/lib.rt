//! What all programs share: their arguments, reading standard input, and writing a report or the line of an error.
#![tactic(auto)]

mod args;
mod fault;
mod lines;
mod mode;
mod options;
mod program;
mod settings;

pub use args::{WordFault, number_of, parse_serial_words, parse_words, word_line, word_status};
pub use fault::{ReplayFault, fault_line, status};
pub use lines::write_text;
pub use mode::ReplayMode;
pub use options::{number_within, option_number, read_options, with_name};
pub use program::{Fault, Program, ProgramFault, end_by, given_args, run_asked};
pub use settings::{MOST_BUDGET, MOST_WEIGHT, MOST_WINDOW, ReplaySettings};
