//! The typed calls on a shared NAPI instance: types show which call is allowed when, and contracts what each call did.
//!
//! [`Napi::new`] makes an instance over a receive ring's poll context, disabled, with its callers and its controller. A
//! [`Caller`] requests polls and takes the instance to poll it; a [`Granted`] caller has to queue it; [`Polling`] has the poll
//! context, and so has [`Busy`], which busy polls; [`Control`] enables and disables the instance. Each has a caller's pass of
//! the instance's state table (a seat), is used by one thread, and is linear: it goes into the next call, and at last into
//! [`close`].
//!
//! Every call is a few atomic steps on one word, without a lock. However the threads are scheduled, these steps form one legal
//! history of the one-thread object of `napi_model`. In `specs/`, `Seats` defines what each value shows of that history, `Made`
//! what a call adds to it, `Calls` the events of each result, `Knows` what a value's type says, `Closed` the history at the
//! end.
//!
//! The `_between` forms run something between the look and the exchange of one call, for tests and simulators.
#![tactic(auto)]

mod abandon;
mod answers;
mod between;
mod busy;
mod caller;
mod control;
mod fault;
mod granted;
mod instance;
mod kept;
mod polling;
mod sharing;
mod state;
mod types;

pub use answers::{Completed, Sched, TryBusy, TryDone, TryPrep, TryStop, TryTake};
pub use between::{Between, Nothing};
pub use caller::meet;
pub use fault::{CloseFault, NewFault};
pub use instance::{CloseBack, NewBack, close, next_caller};
pub use kept::DropBomb;
pub use sharing::{is_sent, is_shared};
pub use state::{CallerState, ControlState};
pub use types::{Busy, Caller, Control, Granted, Marked, Mode, Napi, Off, On, Polling};
