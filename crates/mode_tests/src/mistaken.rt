//! A receive side that makes a mistake which no clause refuses.

use device_model::{ClosedSide, KitSide, ReceiveSide, SharedReceive};
use napi_model::{Kind, Prep, Seen};
use std::alloc::{AllocError, Global};
use std::sync::Wait;

/// What a [`Mistaken`] receive side does wrong.
#[derive(Clone, Copy, PartialEq, Eq, Drop)]
pub(crate) enum Mistake {
    CompletionHidesTheHandOver,
    DisableNotMarked,
    FullRingTakesOneMore,
    InterruptAsksTwice,
    PacketThrownAway,
    ThreadTakesFromTheList,
    WordKeptFromBefore,
}

/// The mistakes and their names.
pub(crate) const MISTAKES: [(Mistake, &str); 7] = [
    (
        Mistake::CompletionHidesTheHandOver,
        "a completion doesn't return in which queue it put the instance",
    ),
    (Mistake::DisableNotMarked, "a disable isn't marked"),
    (
        Mistake::FullRingTakesOneMore,
        "a packet that finds no room is counted as put",
    ),
    (
        Mistake::InterruptAsksTwice,
        "an interrupt requests two polls",
    ),
    (
        Mistake::PacketThrownAway,
        "a poll returns only one of its packets",
    ),
    (
        Mistake::ThreadTakesFromTheList,
        "the device's thread takes the instance from the list",
    ),
    (
        Mistake::WordKeptFromBefore,
        "the state word is the one before the last request",
    ),
];

/// A receive side over a shared instance, with a mistake.
pub(crate) struct Mistaken<R: Wait + Drop> {
    side: SharedReceive<R>,
    mistake: Mistake,
    // What the state word showed before the last request.
    word: Seen,
}

impl<R: Wait + Copy + Drop> KitSide for Mistaken<R> {}

impl<R: Wait + Copy + Drop> ReceiveSide for Mistaken<R> {
    ghost use Rattle.std.specs.Prelude.{false};

    type Kit = (R, Mistake);

    type End = ClosedSide;

    ghost side = { λ s. s.side };

    ghost exact = { false };

    ghost ended = { λ end. Unit };

    fn open(kit: &(R, Mistake), alloc: Global, capacity: u32) -> Result<Mistaken<R>, AllocError> {
        let side = SharedReceive::open(&kit.0, alloc, capacity)?;
        let word = side.seen();
        Ok(Mistaken {
            side,
            mistake: kit.1,
            word,
        })
    }

    fn put(&mut self, bytes: u32) -> bool {
        self.side.put(bytes) || self.mistake == Mistake::FullRingTakesOneMore
    }

    fn left(&self) -> usize {
        self.side.left()
    }

    fn seen(&self) -> Seen {
        if self.mistake == Mistake::WordKeptFromBefore {
            self.word
        } else {
            self.side.seen()
        }
    }

    fn is_marked(&self) -> bool {
        self.side.is_marked()
    }

    fn is_off(&self) -> bool {
        self.side.is_off()
    }

    fn request(&mut self) -> (Prep, Option<Kind>) {
        self.word = self.side.seen();
        let requested = self.side.request();
        if self.mistake == Mistake::InterruptAsksTwice {
            self.side.request();
        }
        requested
    }

    fn take(&mut self, kind: Kind) -> bool {
        if self.mistake == Mistake::ThreadTakesFromTheList {
            return self.side.take(Kind::List);
        }
        self.side.take(kind)
    }

    fn receive(&mut self, weight: u32) -> (u32, u64) {
        let (count, bytes) = self.side.receive(weight);
        if self.mistake == Mistake::PacketThrownAway {
            return (count.min(1), bytes);
        }
        (count, bytes)
    }

    fn requeue(&mut self) {
        self.side.requeue();
    }

    fn complete(&mut self) -> Option<Kind> {
        let again = self.side.complete();
        if self.mistake == Mistake::CompletionHidesTheHandOver {
            return None;
        }
        again
    }

    fn busy_take(&mut self) -> bool {
        self.side.busy_take()
    }

    fn hold(&mut self) {
        self.side.hold();
    }

    fn stop(&mut self) {
        self.side.stop();
    }

    fn mark(&mut self) {
        if self.mistake != Mistake::DisableNotMarked {
            self.side.mark();
        }
    }

    fn try_take(&mut self) -> bool {
        self.side.try_take()
    }

    fn enable(&mut self, threaded: bool) {
        self.side.enable(threaded);
    }

    fn set_threaded(&mut self, threaded: bool) {
        self.side.set_threaded(threaded);
    }

    fn end(self) -> ClosedSide {
        let Mistaken {
            side,
            mistake: _,
            word: _,
        } = self;
        side.end()
    }
}
