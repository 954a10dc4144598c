//! A poll list to which several threads push.

ghost use Rattle.std.specs.Prelude.{◌≡◌, ℕ, ◌+◌, ◌≤◌, ◌<◌, true, List, [], ◌∷◌, ◌++◌, length};
ghost use Rattle.std.specs.Arc.{arc_value};
ghost use Rattle.crossbeam_queue.specs.Passes.{view, IsPassOf, ruled_capacity};
ghost use Rattle.poll_engine.specs.EmptyPops.{CountsOne};
ghost use Rattle.poll_engine.specs.PushOrder.{PopsMore, WasEmpty};

use crate::list_rule::{EndPass, PoppedLast, PushQueue, PushedLast};
use crate::pops::Pops;
use poll_runs::{PollList, SoftList};
use std::sync::{Arc, Wait};

/// A poll list that threads share, without a lock: the poller's end, the only one at which numbers are taken. Other threads
/// push at its [`ListIn`](crate::list_in::ListIn)s.
///
/// Its queue holds at most 64 entries, and the poller may hold some more. All pushes form one order, in which the pushes of
/// each end keep their order; the numbers popped are the first part of it, each push once.
#[derive(Drop)]
pub struct SharedList<R> {
    pub(crate) rt: R,
    pub(crate) queue: Arc<PushQueue>,
    pub(crate) pass: EndPass,
    pub(crate) pops: Pops,
    pub(crate) hand: SoftList,
    pub(crate) pushers: u32,
    ghost fits: { IsPassOf (arc_value queue) pass },
    ghost places: { ruled_capacity (arc_value queue) ≡ 64 },
    ghost polls: { ((view pass).live ≡ true) × ((view pass).polls ≡ true) },
    ghost whole: { ((view pass).returned ≡ []) × ((view pass).number ≡ 0) × ((view pass).made ≡ pushers + 1) },
}

// Pops until a pop finds the queue empty, or `into` has `most` entries.
pub(crate) fn fill<R: Wait>(
    rt: &R,
    queue: &PushQueue,
    pass: &mut EndPass,
    pops: &mut Pops,
    into: &mut SoftList,
    most: usize,
)
    requires pass { IsPassOf queue.now pass.old × ((view pass.old).polls ≡ true) }
    requires most { most ≤ 64 }
    ensures pass { IsPassOf queue.now pass.new × (pass.new.table_id ≡ pass.old.table_id) }
    ensures popped { (fresh : List ℕ) × (into.new ≡ into.old ++ fresh)
        × PopsMore (view pass.old) fresh (view pass.new) }
    ensures most { length into.old ≤ most → length into.new ≤ most }
    ensures all { length into.new < most → WasEmpty (view pass.new) }
    ensures empty { length into.new < most → CountsOne pops.old pops.new }
    ensures full { most ≤ length into.new → pops.new ≡ pops.old }
{
    for _ in into.ids().len()..most {
        match pops.pop(rt, queue, pass) {
            Some(id) => into.append(id),
            None => return,
        }
    }
}

// Pushes a number at the poller's end. If the queue is full, the poller takes the queue's first number and holds it itself. It
// can't wait for room, because only the poller makes room.
fn push_own<R: Wait>(rt: &R, queue: &PushQueue, pass: &mut EndPass, hand: &mut SoftList, id: u32)
    requires pass { IsPassOf queue.now pass.old × ((view pass.old).live ≡ true)
        × ((view pass.old).polls ≡ true) }
    requires place { length hand.old < 64 }
    ensures pass { IsPassOf queue.now pass.new × (pass.new.table_id ≡ pass.old.table_id) }
    ensures pushed { (came : List ℕ) × (length came ≤ 1) × (hand.new ≡ hand.old ++ came)
        × (view pass.new
        ≡ record (view pass.old) {
          pushed = (view pass.old).pushed ++ id
              ∷ [];
          popped = (view pass.old).popped ++ came;
        }) }
{
    if let Some(first) = queue.force_push_as::<PushedLast, PoppedLast, R>(rt, pass, id) {
        hand.append(first);
    }
}

impl<R: Wait> PollList for SharedList<R> {
    ghost use Rattle.std.proofs.Common.{rules, arith};
    ghost use Rattle.std.proofs.lemmas.Grind.{common_steps};
    ghost use Rattle.poll_runs.specs.Batches.{empties};
    ghost use Rattle.poll_engine.specs.SharedLists.{FindsEmpty, HandsHavePlace, HandsHaveRoom, IsAllPopped, PopsCame, in_hand};

    ghost entries = { in_hand };

    ghost moves = { PopsCame };

    ghost is_all = { IsAllPopped };

    ghost can_push = { HandsHavePlace };

    ghost has_room = { HandsHaveRoom };

    /// Appends a number to the queue, after the pushes of other threads. If the queue holds 64 numbers, the poller takes the
    /// first of them and holds it itself. The push doesn't wait, because only the poller makes room.
    fn push(&mut self, id: u32) {
        push_own(&self.rt, &self.queue, &mut self.pass, &mut self.hand, id);
    }

    /// Takes the numbers that the poller holds itself, and then pops until the queue is empty or 64 are taken.
    fn splice(&mut self, to: &mut SoftList) -> usize
        requires { to.old ≡ [] }
        ensures given { (came : List ℕ) × PopsCame self.old [] came (empties to.new) self.new
            × (to.new ≡ in_hand self.old ++ came) }
        ensures nothing_kept { in_hand self.new ≡ [] }
        ensures all { IsAllPopped to.new self.new }
        ensures count { result ≡ length to.new }
        ensures most { result ≤ 64 }
        ensures room { HandsHaveRoom self.new (length to.new) }
        ensures empty { length to.new < 64 → FindsEmpty self.old self.new }
    {
        to.take_all(&mut self.hand);
        fill(
            &self.rt,
            &self.queue,
            &mut self.pass,
            &mut self.pops,
            to,
            64,
        );
        to.ids().len()
    }

    /// Holds the rest, then pops until the queue is empty or the poller holds 64 numbers including the repolls, and appends the
    /// repolls.
    fn put_back(&mut self, rest: &SoftList, repoll: &SoftList)
        requires { HandsHaveRoom self.old (length rest.now + length repoll.now) }
        ensures back { (came : List ℕ)
            × PopsCame self.old [] came (empties (in_hand self.new)) self.new
            × (in_hand self.new ≡ rest.now ++ (in_hand self.old ++ came) ++ repoll.now) }
        ensures all { IsAllPopped (in_hand self.new) self.new }
        ensures empty { length (in_hand self.new) < 64 → FindsEmpty self.old self.new }
    {
        let most = 64 - repoll.ids().len();
        if !rest.is_empty() {
            self.hand.put_before(rest);
        }
        fill(
            &self.rt,
            &self.queue,
            &mut self.pass,
            &mut self.pops,
            &mut self.hand,
            most,
        );
        self.hand.append_all(repoll);
    }

    ghost stays = { λ list. (Prim.search rules, Prim.search rules, Prim.search rules, omega arith) };

    ghost joins = { λ first second third pushed more came later n m h k. (
      Prim.search (rules, common_steps, h.0, k.0),
      Prim.search (rules, common_steps, h.1, k.1),
      Prim.search (rules, common_steps, h.2, k.2),
      omega (arith, h.3, k.3),
    ) };

    ghost room_to_push = { λ list n room. omega (arith, room) };

    ghost room_for_less = { λ list n room. omega (arith, room) };
}
