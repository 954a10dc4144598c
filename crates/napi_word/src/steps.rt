//! The steps of any pass: looks, requests for a poll, and the threaded flag.
ghost use Rattle.std.specs.Prelude.{◌≡◌, ◌≢◌, IfSome, IfOk, IfErr, true, false};
ghost use Rattle.napi_model.specs.declared.event.Operation.TheVariants.{Look, SetThreaded};
ghost use Rattle.napi_model.specs.declared.event.Prep.TheVariants as prep;
ghost use Rattle.napi_word.specs.Slot.{stays};
ghost use Rattle.napi_word.specs.Events.{by_load, by_schedule};
ghost use Rattle.napi_word.specs.Operations.{prep_of};
ghost use Rattle.napi_word.specs.Passes.{IsPassOf, Makes};

use crate::step_kinds::{ClearsThreaded, Looks, Schedules, SetsThreaded, Tries};
use crate::table::{Pass, StateTable};
use napi_model::bits::THREADED;
use napi_model::{Operation, Prep, Seen};

// Returns the reply to a request for a poll while no disable is pending.
#[inline]
fn scheduled(sched: bool) -> Prep
    ensures { result ≡ prep_of sched }
{
    if sched { Prep::Missed } else { Prep::Granted }
}

impl StateTable {
    /// Reads the word (`napi->state`): the flags, and in which queue the instance waits until it is taken.
    #[inline]
    pub fn look(&self, pass: &mut Pass) -> Seen
        requires table { IsPassOf self.now pass.old }
        ensures step { Makes pass.old (Look result) stays pass.new }
    {
        self.load::<Looks>(&mut pass.seat)
    }

    /// The first half of `napi_schedule_prep`. Returns `None` if a disable is pending, which is the reply to the request;
    /// otherwise [`schedule_swap`](StateTable::schedule_swap) may follow, and this was a look.
    #[inline]
    pub fn schedule_load(&self, pass: &mut Pass) -> Option<Seen>
        requires table { IsPassOf self.now pass.old }
        ensures step { Makes pass.old (by_load result) stays pass.new }
        ensures enabled { IfSome result (λ seen. seen.flags.disable ≡ false) }
    {
        let seen = self.load::<Tries>(&mut pass.seat);
        if seen.flags.disable { None } else { Some(seen) }
    }

    /// The second half of `napi_schedule_prep` (`try_cmpxchg` on `napi->state`): sets SCHED, or MISSED if SCHED is set, if the
    /// word still shows what was seen, which must not have DISABLE. Returns `Err` with what the word shows now if another step
    /// changed it: nothing was written, and this was a look.
    #[inline(always)]
    pub fn schedule_swap(&self, pass: &mut Pass, seen: Seen) -> Result<Prep, Seen>
        requires table { IsPassOf self.now pass.old }
        requires enabled { seen.flags.disable ≡ false }
        ensures step { Makes pass.old (by_schedule result) stays pass.new }
        ensures reply { IfOk result (λ reply. reply ≡ prep_of seen.flags.sched) }
        ensures other { IfErr result (λ found. found ≢ seen) }
    {
        let reply = scheduled(seen.flags.sched);
        self.exchange::<Schedules>(&mut pass.seat, seen, Operation::Schedule(reply))?;
        Ok(reply)
    }

    /// Sets or clears THREADED, in any state (`dev_set_threaded`).
    #[inline]
    pub fn threaded(&self, pass: &mut Pass, threaded: bool)
        requires table { IsPassOf self.now pass.old }
        ensures step { Makes pass.old (SetThreaded threaded) stays pass.new }
    {
        if threaded {
            self.set::<SetsThreaded>(&mut pass.seat, THREADED);
        } else {
            self.keep::<ClearsThreaded>(&mut pass.seat, !THREADED);
        }
    }
}
