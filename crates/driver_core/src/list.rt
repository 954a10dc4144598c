//! The poll list of a driver.

ghost use Rattle.std.specs.Prelude.{◌≡◌, ◌==◌, ◌+◌, ◌<◌, ◌≤◌, ◌++◌, List, ℕ, [], length, refl, None};
ghost use Rattle.std.proofs.Common.{rules};
ghost use Rattle.poll_runs.specs.{Plain.{CanPush, HasListRoom, NothingBehind, OwnPushes, all_held}, Turn.{asked_for}};

use poll_runs::{Next, Once, PollList, PollingRun, SoftList};
use std::marker::Model;

/// The poll list of a driver. It holds at most 64 numbers. The first one has a place of its own: most lists hold one device, which
/// a run then takes without a copy of the others.
#[derive(Drop)]
pub struct DriverList {
    first: Option<u32>,
    more: SoftList,
}

impl Model for DriverList {
    ghost Value = { List ℕ };

    ghost view = { λ list. asked_for list.first ++ list.more };

    ghost invariant = { λ list. (list.first ≡ None → list.more ≡ []) × (length list.more < 64) };
}

impl DriverList {
    /// Returns an empty list.
    pub fn new() -> DriverList
        ensures { result ≡ [] }
    {
        DriverList {
            first: None,
            more: SoftList::new(),
        }
    }

    /// Returns whether the list is empty.
    #[inline(always)]
    pub fn is_empty(&self) -> bool
        ensures { result ≡ (length self.now == 0) }
    {
        self.first.is_none()
    }

    // Puts these numbers before those of the list; there is room for them.
    #[cold]
    #[inline(never)]
    fn put_before(&mut self, rest: &SoftList)
        requires { length rest.now + length self.old ≤ 64 }
        ensures { self.new ≡ rest.now ++ self.old }
    {
        let mut all = SoftList::new();
        self.splice(&mut all);
        all.put_before(rest);
        let Some(id) = all.pop_front() else {
            return;
        };
        self.first = Some(id);
        self.more = all;
    }

    // Puts these numbers after those of the list; there is room for them.
    #[cold]
    #[inline(never)]
    fn put_after(&mut self, repoll: &SoftList)
        requires { length self.old + length repoll.now ≤ 64 }
        ensures { self.new ≡ self.old ++ repoll.now }
    {
        if self.first.is_some() {
            self.more.append_all(repoll);
            return;
        }
        if let [id] = repoll.ids() {
            self.first = Some(*id);
            return;
        }
        self.more.append_all(repoll);
        self.first = self.more.pop_front();
    }
}

impl DriverList {
    ghost use Rattle.std.specs.Prelude.{◌≡◌, ◌+◌, ◌≤◌, ◌∷◌, ◌++◌, [], true, is_some, if◌then◌else◌, None, Some, length};
    ghost use Rattle.poll_runs.specs.{Driven.{IsGoing, SameSettings, and_poll, held}, Plain.{HasListRoom, NothingBehind, OwnPushes, all_held}};
    ghost use Rattle.poll_runs.specs.{Polls.{Poll, is_arrival, is_repoll}, Turn.HandsOn};

    // Reports the outcome of a poll to the run over this list (`PollingRun::polled`), out of line.
    #[cold]
    #[inline(never)]
    fn queues(&mut self, run: &mut PollingRun, work: u32, next: Next)
        requires asked { is_some run.old.asked ≡ true }
        requires work { work ≤ run.old.weight }
        requires room { HasListRoom self.old (held run.old) }
        ensures going { (start : _) (polls : List Poll) (id : _) → run.old.asked ≡ Some id
            → IsGoing all_held OwnPushes NothingBehind start polls self.old run.old
            → IsGoing all_held OwnPushes NothingBehind start
            (and_poll polls id (record { work = work; next = next })) self.new run.new }
        ensures list { (id : _) → run.old.asked ≡ Some id
            → HandsOn all_held OwnPushes HasListRoom self.old (is_arrival next) id self.new }
        ensures repoll { (id : _) → run.old.asked ≡ Some id
            → run.new.repoll ≡ run.old.repoll ++ (if is_repoll next then id ∷ [] else []) }
        ensures kept { run.new.own ≡ run.old.own }
        ensures rests { run.new.asked ≡ None }
        ensures settings { SameSettings run.old run.new }
    {
        run.polled(self, Once { work, next });
    }

    // The same, in line for most polls: they leave nothing to be queued.
    #[inline(always)]
    pub(crate) fn polled(&mut self, run: &mut PollingRun, work: u32, next: Next)
        requires asked { is_some run.old.asked ≡ true }
        requires work { work ≤ run.old.weight }
        requires room { HasListRoom self.old (held run.old) }
        ensures going { (start : _) (polls : List Poll) (id : _) → run.old.asked ≡ Some id
            → IsGoing all_held OwnPushes NothingBehind start polls self.old run.old
            → IsGoing all_held OwnPushes NothingBehind start
            (and_poll polls id (record { work = work; next = next })) self.new run.new }
        ensures list { (id : _) → run.old.asked ≡ Some id
            → HandsOn all_held OwnPushes HasListRoom self.old (is_arrival next) id self.new }
        ensures repoll { (id : _) → run.old.asked ≡ Some id
            → run.new.repoll ≡ run.old.repoll ++ (if is_repoll next then id ∷ [] else []) }
        ensures kept { run.new.own ≡ run.old.own }
        ensures rests { run.new.asked ≡ None }
        ensures settings { SameSettings run.old run.new }
    {
        if next != Next::Gone {
            self.queues(run, work, next);
            return;
        }
        let gone = Once {
            work,
            next: Next::Gone,
        };
        run.polled(self, gone);
    }
}

// Moves all numbers of a list to the end of another one, where there is room for them. Returns how many that one then has.
#[cold]
#[inline(never)]
fn move_all(from: &mut SoftList, to: &mut SoftList) -> usize
    requires { length to.old + length from.old ≤ 64 }
    ensures to { to.new ≡ to.old ++ from.old }
    ensures from { from.new ≡ [] }
    ensures count { result ≡ length to.new }
{
    to.append_all(from);
    *from = SoftList::new();
    to.ids().len()
}

impl PollList for DriverList {
    ghost entries = { all_held };

    ghost moves = { OwnPushes };

    ghost is_all = { NothingBehind };

    ghost can_push = { CanPush };

    ghost has_room = { HasListRoom };

    #[inline(always)]
    fn push(&mut self, id: u32) {
        if self.first.is_some() {
            self.more.append(id);
            return;
        }
        self.first = Some(id);
    }

    #[inline(always)]
    fn splice(&mut self, to: &mut SoftList) -> usize {
        let Some(id) = self.first else {
            return 0;
        };
        self.first = None;
        to.append(id);
        if self.more.is_empty() {
            return 1;
        }
        move_all(&mut self.more, to)
    }

    #[inline(always)]
    fn put_back(&mut self, rest: &SoftList, repoll: &SoftList) {
        if !rest.is_empty() {
            self.put_before(rest);
        }
        if !repoll.is_empty() {
            self.put_after(repoll);
        }
    }

    ghost stays = { λ _. refl };

    ghost joins = { Prim.search rules };

    ghost room_to_push = { Prim.search rules };

    ghost room_for_less = { Prim.search rules };
}
