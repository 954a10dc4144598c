//! Laws of legal histories. Each is the contract of a function that does nothing.
ghost use Rattle.std.specs.Prelude.{ℕ};
ghost use Rattle.napi_model.specs.Step.{opening, idle};
ghost use Rattle.napi_model.specs.Laws.{IsSound, IsControlled, BusyIsPolled, ThreadsIsHanded, SchedClearIsNobody, BusyPollIsPolling, SchedThreadedIsHanded, OthersLeaveOwner, OthersLeaveOwnership, ControlIsTheControllers, OthersLeaveDisable, OwnOfJoined};

/// In every state that a legal history leads to, from a new or from an idle instance, SCHED clear implies that the place is
/// `Nobody`.
pub fn sched_clear_is_nobody()
    ensures after { SchedClearIsNobody }
    ensures opening { (controller : ℕ) → IsSound (opening controller) }
    ensures idle { IsSound idle }
{}

/// In every state that a legal history leads to, from a new or from an idle instance, IN_BUSY_POLL implies that the place is a
/// `Polling`.
pub fn busy_poll_is_polling()
    ensures after { BusyPollIsPolling }
    ensures opening { (controller : ℕ) → BusyIsPolled (opening controller) }
    ensures idle { BusyIsPolled idle }
{}

/// In every state that a legal history leads to, from a new or from an idle instance, SCHED_THREADED implies that the instance
/// is queued for its thread or polled.
pub fn sched_threaded_is_handed()
    ensures after { SchedThreadedIsHanded }
    ensures opening { (controller : ℕ) → ThreadsIsHanded (opening controller) }
    ensures idle { ThreadsIsHanded idle }
{}

/// No event of another caller changes a caller's `Granted`, `Polling` or `Control`, nor whether it busy polls.
pub fn others_leave_owner()
    ensures { OthersLeaveOwner }
{}

/// No event of another caller changes whether a caller owns the instance.
pub fn others_leave_ownership()
    ensures { OthersLeaveOwnership }
{}

/// In every state that a legal history leads to from a new instance, the number in the place `Control` is the controller's.
pub fn control_is_the_controllers()
    ensures after { ControlIsTheControllers }
    ensures opening { (controller : ℕ) → IsControlled controller (opening controller) }
{}

/// Only the controller's events change the disable flag.
pub fn others_leave_disable()
    ensures { OthersLeaveDisable }
{}

/// The own list of two concatenated histories is the concatenation of their own lists.
pub fn own_of_joined()
    ensures { OwnOfJoined }
{}
