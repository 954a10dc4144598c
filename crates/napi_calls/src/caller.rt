//! The calls of a caller.
ghost use Rattle.std.specs.Prelude.{◌≡◌, [], ◌∷◌};
ghost use mathlib.Core.List.{IsPrefix};
ghost use Rattle.napi_model.specs.declared.state.Seen.{Seen};
ghost use Rattle.napi_model.specs.declared.event.Operation.TheVariants.{Look, SetThreaded};
ghost use Rattle.napi_model.specs.Laws.{IsOwnedBy};
ghost use Rattle.napi_calls.specs.Seats.{pass_number, shown, state_shown, ShowsLegal};
ghost use Rattle.napi_calls.specs.Instance.{IsSeatOf};
ghost use Rattle.napi_calls.specs.Made.{Made};
ghost use Rattle.napi_calls.specs.Calls.{Prepares, Schedules, Takes, RunsUnlessDisabled};
ghost use Rattle.napi_calls.specs.Packets.{Quiet, PreparesQuietly, SchedulesQuietly, TakesFresh};

use crate::answers::{Sched, TryPrep};
use crate::between::{Between, Nothing};
use crate::types::{Caller, Granted, Napi, Polling};
use napi_model::{Kind, Prep, Seen};
use std::sync::Wait;

impl Caller {
    /// Returns the caller's number: 0, 1 and so on, in the order of the callers of [`Napi::new`].
    pub fn number(&self) -> u32
        ensures { result ≡ pass_number self.now.pass }
    {
        self.number
    }

    /// States what holds for every caller, however it was obtained.
    pub fn knows(&self)
        ensures shows { ShowsLegal self.now.pass }
        ensures place { ¬ IsOwnedBy (pass_number self.now.pass) (state_shown self.now.pass).place }
    {}

    /// Reads the state word: the flags, and in which queue the instance waits until it is taken.
    #[inline]
    pub fn look(&mut self, napi: &Napi) -> Seen
        requires { IsSeatOf napi.now self.old.pass }
        ensures event { Made self.old.pass (Look result ∷ []) self.new.pass }
        ensures packets { Quiet self.old.pass self.new.pass }
    {
        napi.table.look(&mut self.pass)
    }

    /// Sets whether the instance is scheduled on its own thread from now on (`dev_set_threaded`). Allowed in any state.
    pub fn set_threaded(&mut self, napi: &Napi, threaded: bool)
        requires { IsSeatOf napi.now self.old.pass }
        ensures event { Made self.old.pass (SetThreaded threaded ∷ []) self.new.pass }
        ensures packets { Quiet self.old.pass self.new.pass }
    {
        napi.table.threaded(&mut self.pass, threaded);
    }

    /// Tries once to request a poll (`napi_schedule_prep`): a look, and an exchange. It doesn't wait; it makes at most two
    /// steps.
    #[inline]
    pub fn try_schedule(self, napi: &Napi) -> TryPrep
        requires { IsSeatOf napi.now self.pass }
        ensures events { Prepares self.pass result }
        ensures packets { PreparesQuietly self.pass result }
    {
        self.try_schedule_between(napi, &mut Nothing)
    }

    /// Like [`try_schedule`](Caller::try_schedule); it runs `between` after the look, unless it returns `Disabled`.
    #[inline]
    pub fn try_schedule_between<B: Between>(self, napi: &Napi, between: &mut B) -> TryPrep
        requires { IsSeatOf napi.now self.pass }
        ensures events { Prepares self.pass result }
        ensures packets { PreparesQuietly self.pass result }
        ensures run { RunsUnlessDisabled result (between.new ≡ between.old)
            (B.ran between.old between.new) }
    {
        let Caller { mut pass, number } = self;
        let Some(seen) = napi.table.schedule_load(&mut pass) else {
            return TryPrep::Disabled(Caller { pass, number });
        };
        between.run();
        match napi.table.schedule_swap(&mut pass, seen) {
            Ok(Prep::Granted) => TryPrep::Granted(Granted { pass, number }),
            Ok(Prep::Missed) => TryPrep::Missed(Caller { pass, number }),
            Ok(Prep::Disabled) => unreachable!(),
            Err(_) => TryPrep::Changed(Caller { pass, number }),
        }
    }

    /// Requests a poll, and retries until an attempt decides (`napi_schedule_prep`).
    pub fn schedule<R: Wait>(self, rt: &R, napi: &Napi) -> Sched
        requires { IsSeatOf napi.now self.pass }
        ensures events { Schedules self.pass result }
        ensures packets { SchedulesQuietly self.pass result }
    {
        let mut caller = self;
        for _ in rt.forever() {
            match caller.try_schedule(napi) {
                TryPrep::Granted(granted) => return Sched::Granted(granted),
                TryPrep::Missed(missed) => return Sched::Missed(missed),
                TryPrep::Disabled(disabled) => return Sched::Disabled(disabled),
                TryPrep::Changed(changed) => caller = changed,
            }
        }
        unreachable!()
    }

    /// Takes the instance from the list or from its thread's queue, and its poll context out of the slot (`net_rx_action`,
    /// `napi_thread_wait`). Returns `Err`, and changes nothing, if the instance isn't there.
    #[inline]
    pub fn take(self, napi: &Napi, kind: Kind) -> Result<Polling, Caller>
        requires { IsSeatOf napi.now self.pass }
        ensures event { Takes kind self.pass result }
        ensures packets { TakesFresh self.pass result }
    {
        let Caller { mut pass, number } = self;
        if !napi.table.take(&mut pass, kind) {
            return Err(Caller { pass, number });
        }
        let ctx = napi.table.slot_out(&mut pass);
        Ok(Polling { pass, number, ctx })
    }
}

/// Reads the state word as `first` and then as `second`. After that, the history that `second` has seen contains all that
/// `first` has seen.
pub fn meet(napi: &Napi, first: &mut Caller, second: &mut Caller)
    requires first { IsSeatOf napi.now first.old.pass }
    requires second { IsSeatOf napi.now second.old.pass }
    ensures first { (x : Seen) × Made first.old.pass (Look x ∷ []) first.new.pass }
    ensures second { (x : Seen) × Made second.old.pass (Look x ∷ []) second.new.pass }
    ensures met { IsPrefix (shown first.new.pass) (shown second.new.pass) }
{
    napi.table.meet(&mut first.pass, &mut second.pass);
}
