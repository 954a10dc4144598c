//! Polling of network devices by NAPI's rules: poll lists of one thread and shared ones, polling runs under a budget, the
//! polling of an instance by its thread, busy polling, and whole runs with threads for devices and pollers.
//!
//! This is a facade over two internal crates: `poll_runs` has lists, benches and runs of one thread, and `poll_shared` the polling
//! of an instance that threads share. Here are the poll list that threads share (`list_ends`, `shared`), the threads of a run
//! (`tasks`, `context`, `signals`), that of a device (`worker`, `opening`), the pollers (`poller`, `list_poller`, `thread_poller`)
//! and runs of all (`run`). `specs/Lib.antt` re-exports what contracts cite.
#![tactic(auto)]

mod act_list;
mod acts;
mod dealing;
mod driving;
mod fault;
mod gate;
mod gathering;
mod handle;
mod list_ends;
mod list_fault;
mod list_in;
mod list_poller;
mod list_rule;
mod numbers;
mod outbox;
mod poller;
mod pops;
mod run;
mod setup;
mod shared;
mod station;
mod tasks;
mod thread_poller;
mod worker;

pub use act_list::ActList;
pub use acts::{Act, Device};
pub use fault::WorkFault;
pub use gate::{Gate, OpenGate};
pub use list_ends::{ListBack, end_list, shared_list};
pub use list_fault::ListFault;
pub use list_in::ListIn;
pub use numbers::have_distinct_numbers;
pub use poll_runs::{
    Bench, BusyInstance, BusyReport, Instance, Next, Once, PlainList, PollList, RunReport,
    SoftList, ThreadReport, no_other_arrivals, plain_list_afterwards, poll_busy_of, poll_once_of,
    poll_thread_of, run_is_function, run_is_shown, run_softirq, runs_agree,
};
pub use poll_shared::{busy_instance, poll_instance, poll_instance_by_thread};
pub use run::run_workers;
pub use setup::trail::{Asked, Trail};
pub use shared::SharedList;
pub use station::{Closed, Finished, Station};
