//! The calls on an instance, their replies, and events: calls with their replies.

use crate::{Kind, Seen};

/// The reply to a request for a poll. `napi_schedule_prep` returns true exactly for `Granted`.
#[derive(Clone, Copy, PartialEq, Eq, Debug)]
pub enum Prep {
    /// The caller owns the instance, and has to queue it.
    Granted,
    /// A poll is requested or in progress already, and another one follows it; or the controller owns the instance, and none
    /// follows.
    Missed,
    /// A disable is pending; nothing changed.
    Disabled,
}

/// The reply to a completion. `napi_complete_done` returns true for `Released`, and false for the others. With deferred
/// interrupts (`napi_defer_hard_irqs`), which aren't part of this model, it also releases the instance and returns false.
#[derive(Clone, Copy, PartialEq, Eq, Debug)]
pub enum Done {
    /// No caller owns the instance any more.
    Released,
    /// A request was missed: the caller still owns the instance, and has to queue it again.
    Again,
    /// The instance is busy polled: the caller still polls it.
    Held,
}

/// A call on an instance.
#[derive(Clone, Copy, PartialEq, Eq, Debug)]
pub enum Call {
    /// Read the word.
    Look,
    /// Ask for a poll (`napi_schedule_prep`).
    Schedule,
    /// Queue a granted or polled instance (`____napi_schedule`).
    Hand(Kind),
    /// Take a queued instance.
    Take(Kind),
    /// End a poll (`napi_complete_done`).
    Complete,
    /// Take an idle instance, to busy poll it (`napi_busy_loop`).
    BusyTake,
    /// Stop busy polling, and poll once more (`busy_poll_stop`).
    BusyStop,
    /// Mark a disable as pending (`napi_disable`).
    MarkDisable,
    /// Try to take the instance for the controller (`napi_disable`).
    TakeDisable,
    /// Clear the mark of a pending disable (`napi_disable`).
    Unmark,
    /// Enable a disabled instance, threaded if true (`napi_enable`).
    Enable(bool),
    /// Set whether the instance is threaded (`dev_set_threaded`).
    SetThreaded(bool),
}

/// A call together with its reply.
#[derive(Clone, Copy, PartialEq, Eq, Debug)]
pub enum Operation {
    /// A read of the word, and what it showed.
    Look(Seen),
    /// A request for a poll, and its reply (`napi_schedule_prep`).
    Schedule(Prep),
    /// The instance was queued (`____napi_schedule`).
    Hand(Kind),
    /// An attempt to take the instance: whether it was taken.
    Take(Kind, bool),
    /// A completion, and its reply (`napi_complete_done`).
    Complete(Done),
    /// An idle instance was taken, to busy poll it (`napi_busy_loop`).
    BusyTake,
    /// Busy polling was stopped (`busy_poll_stop`).
    BusyStop,
    /// A disable was marked as pending (`napi_disable`).
    MarkDisable,
    /// An attempt to take the instance for the controller (`napi_disable`): whether it was taken.
    TakeDisable(bool),
    /// The mark of a pending disable was cleared (`napi_disable`).
    Unmark,
    /// The instance was enabled, threaded if true (`napi_enable`).
    Enable(bool),
    /// The instance was set to threaded or not (`dev_set_threaded`).
    SetThreaded(bool),
}

/// One step of one caller on an instance.
#[derive(Clone, Copy, PartialEq, Eq, Debug)]
pub struct Event {
    /// The caller's number.
    pub caller: u32,
    /// The operation, with its reply.
    pub operation: Operation,
}
