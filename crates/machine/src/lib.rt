//! A machine that receives packets over simulated time, by Linux's polling rules. It shows which latency, drops and processor
//! time follow from settings, arrivals and the costs of interrupts, polls, packets and their use. For programs that predict the
//! effect of another setting.
//!
//! It computes the bytes of a report from the bytes of arrivals, or the message and the exit status of an error, and it parses
//! the options of a program. This is a facade over an internal crate: `machine_model` has the options and the machine;
//! the arrivals, the report and the errors are here. The program `napi_machine` makes these calls.
//!
//! `laws.rt` has what is proved about whole runs. `specs/` has the statements of these laws: `Lives` defines the life of a
//! processor, `Fates` the fate of packets and the counts of a queue, `Gaps` the distance of interrupts, and `Reports` says that
//! they hold for what a report shows. `specs/Lib.antt` also re-exports what other contracts cite.
#![tactic(auto)]

mod arrival;
mod arrivals;
mod fault;
mod laws;
mod plain;
mod report;
mod run;

pub use arrival::Arrival;
pub use arrivals::Arrivals;
pub use fault::{MachineFault, fault_line, status};
pub use laws::{
    arrives_as_one, counts_of_queue, delivers_in_order, each_lives, every_run_ends, has_one_report,
    interrupts_are_apart, reports_live, runs_as_one, works_within,
};
pub use machine_model::{
    ApplicationReport, Machine, MachineOption, MachineSettings, OPTION_COUNT, OPTIONS,
    ProcessorCounts, ProcessorReport, QueueCounts, QueueReport, WaitCounts, parse_words,
};
pub use run::run_machine;
pub use text_io::{WordFault, word_line, word_status};
