//! The steps by which an instance changes its owner: queue, take, complete.
ghost use Rattle.std.specs.Prelude.{◌≡◌, ◌≢◌, false, IfOk, IfErr, is_ok};
ghost use Rattle.napi_model.specs.declared.event.Operation.TheVariants.{Hand, Take};
ghost use Rattle.napi_word.specs.Slot.{taken, given};
ghost use Rattle.napi_word.specs.Events.{by_complete};
ghost use Rattle.napi_word.specs.Operations.{when, is_marked, done_of};
ghost use Rattle.napi_word.specs.Passes.{IsPassOf, Makes, IsSlotFilled, PassMayHand, PassPolls};

use crate::history::Holds;
use crate::step_kinds::{Completes, HandsToList, HandsToThread, TakesFromList, TakesFromThread};
use crate::table::{Pass, StateTable};
use napi_model::bits::{QUEUED, SCHED_THREADED, TO_THREAD};
use napi_model::{Done, Kind, Operation, Seen};

// Returns the reply to a completion.
#[inline]
fn completed(missed: bool) -> Done
    ensures { result ≡ done_of missed }
{
    if missed { Done::Again } else { Done::Released }
}

#[inline]
fn is_handed(handed: Option<Kind>, kind: Kind) -> bool
    ensures { result ≡ is_marked kind handed }
{
    match (handed, kind) {
        (Some(Kind::List), Kind::List) | (Some(Kind::Thread), Kind::Thread) => true,
        (Some(Kind::List), Kind::Thread) | (Some(Kind::Thread), Kind::List) | (None, _) => false,
    }
}

impl StateTable {
    /// Queues the instance (`____napi_schedule`): on the list, if the pass was granted it or polls it; for the thread, if it
    /// was granted it. The context must be in the slot. The pass then owns neither.
    #[inline]
    pub fn hand(&self, pass: &mut Pass, kind: Kind)
        requires table { IsPassOf self.now pass.old }
        requires owner { PassMayHand kind pass.old }
        requires within { IsSlotFilled pass.old }
        ensures step { Makes pass.old (Hand kind) given pass.new }
    {
        match kind {
            Kind::List => self.add::<HandsToList>(&mut pass.seat, QUEUED),
            Kind::Thread => self.add::<HandsToThread>(&mut pass.seat, TO_THREAD | SCHED_THREADED),
        };
        pass.holds = Holds::Nothing;
    }

    /// Takes a queued instance (`net_rx_action` from the list, `napi_thread_wait` from the thread's queue). If it returns true,
    /// the pass polls the instance, and has the slot with the context. If the instance isn't in that queue, it returns false
    /// and changes nothing.
    #[inline]
    pub fn take(&self, pass: &mut Pass, kind: Kind) -> bool
        requires table { IsPassOf self.now pass.old }
        ensures step { Makes pass.old (Take kind result) (when result taken) pass.new }
    {
        let seen = match kind {
            Kind::List => self.keep::<TakesFromList>(&mut pass.seat, !QUEUED),
            Kind::Thread => self.keep::<TakesFromThread>(&mut pass.seat, !TO_THREAD),
        };
        let there = is_handed(seen.handed, kind);
        if there {
            pass.holds = Holds::Within;
        }
        there
    }

    /// Ends a poll if the word still shows what was seen (`napi_complete_done`, its `try_cmpxchg` on `napi->state`): `Released`
    /// clears SCHED; `Again` clears MISSED and keeps SCHED, and the pass has to queue the instance. The context must be in the
    /// slot. Returns `Err` if another step changed the word: nothing was written, and this was a look.
    #[inline(always)]
    pub fn complete_swap(&self, pass: &mut Pass, seen: Seen) -> Result<Done, Seen>
        requires table { IsPassOf self.now pass.old }
        requires owner { PassPolls false pass.old }
        requires within { IsSlotFilled pass.old }
        ensures step { Makes pass.old (by_complete result) (when (is_ok result) given) pass.new }
        ensures reply { IfOk result (λ reply. reply ≡ done_of seen.flags.missed) }
        ensures other { IfErr result (λ found. found ≢ seen) }
    {
        let reply = completed(seen.flags.missed);
        self.exchange::<Completes>(&mut pass.seat, seen, Operation::Complete(reply))?;
        pass.holds = Holds::Nothing;
        Ok(reply)
    }
}
