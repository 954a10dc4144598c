//! The results of the calls. Each contains the value for the next call.
use crate::types::{Busy, Caller, Control, Granted, Marked, Off, Polling};

/// The result of one attempt to schedule.
pub enum TryPrep {
    /// The caller owns the instance, and has to queue it (`napi_schedule_prep` returns true).
    Granted(Granted),
    /// A poll is requested already, and another one will follow it.
    Missed(Caller),
    /// The instance is disabled, or a disable is pending: no poll was requested.
    Disabled(Caller),
    /// The state word changed between the read and the compare-exchange: nothing is decided.
    Changed(Caller),
}

/// The result of a schedule.
pub enum Sched {
    /// The caller owns the instance, and has to queue it (`napi_schedule_prep` returns true).
    Granted(Granted),
    /// A poll is requested already, and another one will follow it.
    Missed(Caller),
    /// The instance is disabled, or a disable is pending: no poll was requested.
    Disabled(Caller),
}

/// The result of one attempt to complete.
pub enum TryDone {
    /// No caller owns the instance any more (`napi_complete_done` returns true).
    Released(Caller),
    /// A poll was requested meanwhile: the caller still owns the instance, and has to queue it again.
    Again(Granted),
    /// The state word changed between the read and the compare-exchange: nothing is decided.
    Changed(Polling),
}

/// The result of a completion.
pub enum Completed {
    /// No caller owns the instance any more (`napi_complete_done` returns true).
    Released(Caller),
    /// A poll was requested meanwhile: the caller still owns the instance, and has to queue it again.
    Again(Granted),
}

/// The result of one attempt to busy poll.
pub enum TryBusy {
    /// The caller owns the instance, and busy polls it.
    Taken(Busy),
    /// A poll is requested or in progress, or the instance is disabled, or a disable is pending.
    Refused(Caller),
    /// The state word changed between the read and the compare-exchange: nothing is decided.
    Changed(Caller),
}

/// The result of one attempt to stop busy polling.
pub enum TryStop {
    /// The caller polls the instance once more.
    Stopped(Polling),
    /// The state word changed between the read and the compare-exchange: nothing is decided.
    Changed(Busy),
}

/// The result of one attempt to take the instance for a disable.
pub enum TryTake {
    /// The instance is disabled, and the disable isn't pending any more.
    Taken(Control<Off>),
    /// A poll is requested or in progress: nothing is decided.
    Busy(Control<Marked>),
    /// The state word changed between the read and the compare-exchange: nothing is decided.
    Changed(Control<Marked>),
}
