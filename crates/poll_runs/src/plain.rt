//! The poll list of one thread.

ghost use Rattle.std.specs.Prelude.{◌≡◌, ◌≤◌, List, ℕ, [], length, refl};
ghost use Rattle.std.proofs.Common.{rules};
ghost use Rattle.poll_runs.specs.Plain.{CanPush, HasListRoom, NothingBehind, OwnPushes, all_held};

use crate::list::PollList;
use crate::soft::SoftList;
use std::marker::Model;

/// A poll list of one thread. It holds at most 64 numbers.
#[derive(Drop)]
pub struct PlainList {
    entries: SoftList,
}

impl Model for PlainList {
    ghost Value = { List ℕ };

    ghost view = { λ list. list.entries };
}

impl PlainList {
    /// Returns an empty list.
    pub fn new() -> PlainList
        ensures { result ≡ [] }
    {
        PlainList {
            entries: SoftList::new(),
        }
    }

    /// The numbers, in order.
    pub fn ids(&self) -> &[u32]
        ensures ids { result.now ≡ self.now }
        ensures room { length self.now ≤ 64 }
    {
        self.entries.ids()
    }
}

impl PollList for PlainList {
    ghost entries = { all_held };

    ghost moves = { OwnPushes };

    ghost is_all = { NothingBehind };

    ghost can_push = { CanPush };

    ghost has_room = { HasListRoom };

    fn push(&mut self, id: u32) {
        self.entries.append(id);
    }

    fn splice(&mut self, to: &mut SoftList) -> usize {
        if self.entries.is_empty() {
            return 0;
        }
        to.take_all(&mut self.entries);
        to.ids().len()
    }

    fn put_back(&mut self, rest: &SoftList, repoll: &SoftList) {
        if !rest.is_empty() {
            self.entries.put_before(rest);
        }
        if !repoll.is_empty() {
            self.entries.append_all(repoll);
        }
    }

    ghost stays = { λ _. refl };

    ghost joins = { Prim.search rules };

    ghost room_to_push = { Prim.search rules };

    ghost room_for_less = { Prim.search rules };
}
