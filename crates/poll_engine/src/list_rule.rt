//! The invariant of a shared list's queue, and what its ends know. It exists only in proofs.

use crossbeam_queue::protocol::{Join, Lesson, Outcome, Protocol, Split};
use crossbeam_queue::{Pass, RuledArrayQueue};
use std::collections::LinkedList;

/// A returned end: its number, and its pushes. It exists only in proofs.
pub struct Returned {
    /// Its number.
    pub number: u64,
    /// Its pushes, in order.
    pub pushed: LinkedList<u32>,
}

/// What an end of the list knows. It exists only in proofs.
pub struct EndView {
    /// False after the end was returned.
    pub live: bool,
    /// Whether it is the poller's end.
    pub polls: bool,
    /// The number of the end: the poller's is 0, the ends for pushing have 1, 2 and so on.
    pub number: u64,
    /// For the poller: how many ends were made, including its own.
    pub made: u64,
    /// Its pushes, in order.
    pub pushed: LinkedList<u32>,
    /// For the poller: its pops, in order.
    pub popped: LinkedList<u32>,
    /// For the poller: the ends that were returned.
    pub returned: LinkedList<Returned>,
}

/// The invariant: there is one order of all pushes. The pushes that were popped are its first part, and those in the queue are
/// the rest.
pub struct OneOrder;

impl Protocol<u32, EndView> for OneOrder {
    ghost use Rattle.std.specs.Prelude.{[]};
    ghost use Rattle.poll_engine.specs.PushOrder.{poller, InOneOrder};

    ghost holds = { InOneOrder };

    ghost first = { poller 1 [] [] [] };
}

/// The poller makes one more end for pushing, or an end is returned to it.
pub struct PusherEnd;

impl Split<EndView> for PusherEnd {
    ghost use Rattle.std.specs.Prelude.{[], ◌+◌};
    ghost use Rattle.poll_engine.specs.PushOrder.{poller, pusher};

    ghost left = { λ v. poller (v.made + 1) v.pushed v.popped v.returned };

    ghost right = { λ v. pusher v.made [] };
}

impl Join<EndView> for PusherEnd {
    ghost use Rattle.std.specs.Prelude.{[], ◌++◌, ◌∷◌};
    ghost use Rattle.poll_engine.specs.PushOrder.{poller, returned_end, spent_end};

    ghost both = { λ v w. poller v.made v.pushed v.popped (v.returned ++ returned_end w.number w.pushed ∷ []) };

    ghost spent = { spent_end };
}

/// A push becomes the last one of its end.
pub struct PushedLast;

impl Outcome<u32, EndView> for PushedLast {
    ghost use Rattle.std.specs.Prelude.{◌≡◌, ◌++◌, ◌∷◌, []};

    ghost then = { λ v x w. w ≡ record v { pushed = v.pushed ++ x ∷ [] } };
}

impl Lesson<u32, EndView> for PushedLast {
    ghost fact = { λ _ _. Unit {0} };
}

/// A pop becomes the last one of the poller. If the queue is empty, everything that was pushed was popped.
pub struct PoppedLast;

impl Outcome<u32, EndView> for PoppedLast {
    ghost use Rattle.std.specs.Prelude.{◌∷◌, []};
    ghost use Rattle.poll_engine.specs.PushOrder.{PopsMore};

    ghost then = { λ v x w. PopsMore v (x ∷ []) w };
}

impl Lesson<u32, EndView> for PoppedLast {
    ghost use Rattle.poll_engine.specs.PushOrder.{KnowsOrder};

    ghost fact = { KnowsOrder };
}

pub(crate) type PushQueue = RuledArrayQueue<u32, EndView, OneOrder>;

pub(crate) type EndPass = Pass<u32, EndView>;
