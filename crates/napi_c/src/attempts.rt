//! Attempts that are repeated while another thread interferes.
ghost use Rattle.std.specs.Prelude.{◌≡◌, ℕ};
ghost use Rattle.napi_c.specs.Rules.{Repeats};

use c_handles::{CallerObject, Controller, status};

/// A call on an object of a shared instance that is a single attempt: CHANGED says that another thread changed the instance,
/// and that the attempt did nothing.
pub(crate) trait Attempt {
    /// The object.
    type On;

    // The effect of an attempt.
    ghost makes: { Self → Self.On → ℕ → Self.On → Type 0 };

    /// Makes one attempt, and returns its status.
    fn make(&self, it: &mut Self::On) -> u32
        ensures { makes self.now it.old result it.new };
}

/// `CallerObject::schedule`.
#[derive(Drop)]
pub(crate) struct ScheduleAttempt;

impl Attempt for ScheduleAttempt {
    ghost use Rattle.c_handles.specs.{Handles.CallerStep, CallerCalls.CallerSchedules};

    type On = CallerObject;

    ghost makes = { λ _. CallerStep CallerSchedules };

    #[inline(always)]
    fn make(&self, it: &mut CallerObject) -> u32 {
        it.schedule()
    }
}

/// `CallerObject::complete`.
#[derive(Drop)]
pub(crate) struct CompleteAttempt;

impl Attempt for CompleteAttempt {
    ghost use Rattle.c_handles.specs.{Handles.CallerStep, CallerCalls.CallerCompletes};

    type On = CallerObject;

    ghost makes = { λ _. CallerStep CallerCompletes };

    #[inline(always)]
    fn make(&self, it: &mut CallerObject) -> u32 {
        it.complete()
    }
}

/// `Controller::enable`.
#[derive(Drop)]
pub(crate) struct EnableAttempt {
    /// Its argument.
    pub(crate) threaded: bool,
}

impl Attempt for EnableAttempt {
    ghost use Rattle.c_handles.specs.{Handles.ControlStep, CallerCalls.ControlEnables};

    type On = Controller;

    ghost makes = { λ a. ControlStep (ControlEnables a.threaded) };

    fn make(&self, it: &mut Controller) -> u32 {
        it.enable(self.threaded)
    }
}

/// `Controller::try_take`.
#[derive(Drop)]
pub(crate) struct TakeAttempt;

impl Attempt for TakeAttempt {
    ghost use Rattle.c_handles.specs.{Handles.ControlStep, CallerCalls.ControlTakes};

    type On = Controller;

    ghost makes = { λ _. ControlStep ControlTakes };

    fn make(&self, it: &mut Controller) -> u32 {
        it.try_take()
    }
}

/// Makes an attempt, and repeats it while another thread interferes. It returns CHANGED only after 2^64 attempts that failed:
/// an export has no capability to wait without end.
#[inline(always)]
pub(crate) fn repeat<A: Attempt>(it: &mut A::On, attempt: &A) -> u32
    ensures { Repeats (A.makes attempt.now) it.old result it.new }
{
    for _ in 0..u64::MAX {
        let status = attempt.make(it);
        if status != status::CHANGED {
            return status;
        }
    }
    attempt.make(it)
}
