//! Internal crate of the facade `machine`: a machine that receives packets over simulated time, with polling runs of one
//! thread, its settings, and the options that ask for them.
//!
//! `src/settings.rt` has the table of the options. `specs/` defines the machine: `Options` the names, ranges and defaults of the
//! options, and the settings that arguments ask for; `Waits` how waits are counted; `Device` a receive queue, and `Devices` the
//! queues of a processor; `Softirq` the poll list and its run; `Application` the application; `Processor` which work a processor
//! begins and what happens as time passes; `Machine` the effect of arrivals on all processors. `Shown` and `Kept` say how the
//! program's state represents a state of the definition. Types of the definition (`Phase`, `Work` and others) are exported,
//! because the crates with its laws name them.
#![tactic(auto)]

mod application;
mod args;
mod costs;
mod device;
mod devices;
mod machine;
mod processor;
mod settings;
mod softirq;
mod tasks;
mod waits;

pub use application::{Activity, ApplicationReport};
pub use args::parse_words;
pub use device::{Expiry, Line, NapiState, Phase, QueueCounts, QueueReport};
pub use devices::Timer;
pub use machine::Machine;
pub use processor::{InHand, Looking, ProcessorCounts, ProcessorReport, Rest, Upcoming, Work};
pub use settings::{MachineOption, MachineSettings, OPTION_COUNT, OPTIONS};
pub use tasks::RunnableTask;
pub use waits::{WaitCounts, Waits};
