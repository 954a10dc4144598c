//! The steps of the controller: disabling in three steps, and enabling.
ghost use Rattle.std.specs.Prelude.{◌≡◌, ◌≢◌, true, false, IfSome, IfErr, is_ok};
ghost use Rattle.napi_model.specs.declared.event.Operation.TheVariants.{MarkDisable, TakeDisable, Unmark, Enable};
ghost use Rattle.napi_word.specs.Slot.{stays, taken, given};
ghost use Rattle.napi_word.specs.Events.{by_take_load, by_swap};
ghost use Rattle.napi_word.specs.Operations as operations;
ghost use Rattle.napi_word.specs.Operations.{when};
ghost use Rattle.napi_word.specs.Passes.{IsPassOf, Makes, IsSlotFilled, IsController, Controls, IsNoOwner, Disable};

use crate::history::Holds;
use crate::step_kinds::{Asks, Disables, Enables, EnablesThreaded, Marks, Unmarks};
use crate::table::{Pass, StateTable};
use napi_model::bits::DISABLE;
use napi_model::{Operation, Seen};

fn is_busy(seen: Seen) -> bool
    ensures { result ≡ operations.shows_busy seen }
{
    seen.flags.sched || seen.flags.npsvc
}

impl StateTable {
    /// Marks a disable as pending (`napi_disable`, its `set_bit` of DISABLE): from now on requests for a poll fail.
    pub fn mark(&self, pass: &mut Pass)
        requires table { IsPassOf self.now pass.old }
        requires controller { IsController pass.old }
        requires free { IsNoOwner pass.old }
        requires unmarked { Disable false pass.old }
        ensures step { Makes pass.old MarkDisable stays pass.new }
    {
        self.add::<Marks>(&mut pass.seat, DISABLE);
    }

    /// Reads whether a marked instance can be taken (`napi_disable`, its wait while SCHED or NPSVC is set). Returns `None` if
    /// it is busy, which counts as a failed attempt to take it; otherwise [`take_swap`](StateTable::take_swap) may take it, and
    /// this was a look.
    pub fn take_load(&self, pass: &mut Pass) -> Option<Seen>
        requires table { IsPassOf self.now pass.old }
        requires controller { IsController pass.old }
        requires marked { Disable true pass.old }
        ensures step { Makes pass.old (by_take_load result) stays pass.new }
        ensures idle { IfSome result
            (λ seen. (seen.flags.disable ≡ true) × (seen.flags.sched ≡ false)
            × (seen.flags.npsvc ≡ false)) }
    {
        let seen = self.load::<Asks>(&mut pass.seat);
        if is_busy(seen) { None } else { Some(seen) }
    }

    /// Takes a marked, idle instance if the word still shows what was seen (`napi_disable`, its `try_cmpxchg`): sets SCHED and
    /// NPSVC, clears THREADED. The controller then has the slot with the context. Returns `Err` if another step changed the
    /// word: nothing was written, and this was a look.
    pub fn take_swap(&self, pass: &mut Pass, seen: Seen) -> Result<(), Seen>
        requires table { IsPassOf self.now pass.old }
        requires controller { IsController pass.old }
        requires idle { (seen.flags.disable ≡ true) × (seen.flags.sched ≡ false)
            × (seen.flags.npsvc ≡ false) }
        ensures step { Makes pass.old (by_swap (TakeDisable true) result)
            (when (is_ok result) taken) pass.new }
        ensures other { IfErr result (λ found. found ≢ seen) }
    {
        self.exchange::<Disables>(&mut pass.seat, seen, Operation::TakeDisable(true))?;
        pass.holds = Holds::Within;
        Ok(())
    }

    /// Clears the mark of a pending disable, of an instance that the controller owns (`napi_disable`, its `clear_bit` of
    /// DISABLE).
    pub fn unmark(&self, pass: &mut Pass)
        requires table { IsPassOf self.now pass.old }
        requires controller { IsController pass.old }
        requires owner { Controls pass.old }
        requires marked { Disable true pass.old }
        ensures step { Makes pass.old Unmark stays pass.new }
    {
        self.subtract::<Unmarks>(&mut pass.seat, DISABLE);
    }

    /// Enables a disabled instance if the word still shows what was seen (`napi_enable`, its `try_cmpxchg`): clears SCHED and
    /// NPSVC, sets THREADED if `threaded` is true, and keeps MISSED. The context must be in the slot. Returns `Err` if another
    /// step changed the word: nothing was written, and this was a look.
    pub fn enable_swap(&self, pass: &mut Pass, seen: Seen, threaded: bool) -> Result<(), Seen>
        requires table { IsPassOf self.now pass.old }
        requires controller { IsController pass.old }
        requires owner { Controls pass.old }
        requires unmarked { Disable false pass.old }
        requires within { IsSlotFilled pass.old }
        ensures step { Makes pass.old (by_swap (Enable threaded) result)
            (when (is_ok result) given) pass.new }
        ensures other { IfErr result (λ found. found ≢ seen) }
    {
        if threaded {
            self.exchange::<EnablesThreaded>(&mut pass.seat, seen, Operation::Enable(true))?;
        } else {
            self.exchange::<Enables>(&mut pass.seat, seen, Operation::Enable(false))?;
        }
        pass.holds = Holds::Nothing;
        Ok(())
    }
}
