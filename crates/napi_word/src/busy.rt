//! The steps of busy polling: taking an idle instance, completions that are held, and the stop.
ghost use Rattle.std.specs.Prelude.{◌≡◌, ◌≢◌, true, IfErr, is_ok};
ghost use Rattle.napi_model.specs.declared.event.Done.TheVariants.{Held};
ghost use Rattle.napi_model.specs.declared.event.Operation.TheVariants.{Complete, BusyTake, BusyStop};
ghost use Rattle.napi_model.specs.Step.{MayBusyTake};
ghost use Rattle.napi_word.specs.Slot.{stays, taken};
ghost use Rattle.napi_word.specs.Events.{by_swap};
ghost use Rattle.napi_word.specs.Operations.{when};
ghost use Rattle.napi_word.specs.Passes.{IsPassOf, Makes, PassPolls};

use crate::history::Holds;
use crate::step_kinds::{CompletesHeld, StopsBusy, TakesBusy};
use crate::table::{Pass, StateTable};
use napi_model::{Operation, Seen};

impl StateTable {
    /// Takes an idle instance to busy poll it, if the word still shows what was seen (`napi_busy_loop`, its `cmpxchg` on
    /// `napi->state`): sets SCHED and IN_BUSY_POLL. The pass then polls it, and has the slot with the context. Returns `Err` if
    /// another step changed the word: nothing was written, and this was a look.
    #[inline]
    pub fn busy_swap(&self, pass: &mut Pass, seen: Seen) -> Result<(), Seen>
        requires table { IsPassOf self.now pass.old }
        requires idle { MayBusyTake seen.flags }
        ensures step { Makes pass.old (by_swap BusyTake result)
            (when (is_ok result) taken) pass.new }
        ensures other { IfErr result (λ found. found ≢ seen) }
    {
        self.exchange::<TakesBusy>(&mut pass.seat, seen, Operation::BusyTake)?;
        pass.holds = Holds::Within;
        Ok(())
    }

    /// Stops busy polling if the word still shows what was seen (`busy_poll_stop`, which clears the bits one by one): clears
    /// IN_BUSY_POLL and MISSED. The pass keeps polling. Returns `Err` if another step changed the word: nothing was written,
    /// and this was a look.
    #[inline]
    pub fn stop_swap(&self, pass: &mut Pass, seen: Seen) -> Result<(), Seen>
        requires table { IsPassOf self.now pass.old }
        requires owner { PassPolls true pass.old }
        ensures step { Makes pass.old (by_swap BusyStop result) stays pass.new }
        ensures other { IfErr result (λ found. found ≢ seen) }
    {
        self.exchange::<StopsBusy>(&mut pass.seat, seen, Operation::BusyStop)
    }

    /// Completes a poll while busy polling (`napi_complete_done`, which finds IN_BUSY_POLL and does nothing): a load.
    #[inline]
    pub fn complete_load(&self, pass: &mut Pass)
        requires table { IsPassOf self.now pass.old }
        requires owner { PassPolls true pass.old }
        ensures { Makes pass.old (Complete Held) stays pass.new }
    {
        self.load::<CompletesHeld>(&mut pass.seat);
    }
}
