//! Internal crate of the facade `poll_engine`: poll lists of one thread, polling runs, and the polling of an instance by its
//! thread, for any kind of instance.
//!
//! The rules are those of `net_rx_action` and `napi_threaded_poll` of Linux 6.6 (`net/core/dev.c`). A [`Bench`] polls instances
//! by number, and states by its own relations what a poll does; a [`PollList`] holds numbers. With a [`PollingRun`] the caller
//! makes the polls one by one; [`run_softirq`] takes the same steps over a bench. Both are proved once, for every list and
//! every bench. The definitions that the contracts cite are in `specs/`: `Polls` has lists of polls, `Thread` the polling of an
//! instance by its thread, `Run` the polling run, `Driven` the state of a run between its polls, `Laws` what follows for a list
//! of one thread.
#![tactic(auto)]

mod bench;
mod busy_polling;
mod driven;
mod instance;
mod laws;
mod list;
mod plain;
mod polling;
mod polling_run;
mod run;
mod soft;

pub use bench::{Bench, BusyReport, Next, Once, ThreadReport};
pub use busy_polling::poll_busy_of;
pub use instance::{BusyInstance, Instance};
pub use laws::{
    no_other_arrivals, plain_list_afterwards, run_is_function, run_is_shown, runs_agree,
};
pub use list::PollList;
pub use plain::PlainList;
pub use polling::{poll_once_of, poll_thread_of};
pub use polling_run::PollingRun;
pub use run::{RunReport, run_softirq};
pub use soft::SoftList;
