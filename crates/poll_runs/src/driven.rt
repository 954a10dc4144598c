//! A polling run, one poll at a time.

ghost use Rattle.std.specs.Prelude.{◌≡◌, ◌+◌, ◌<◌, ◌≤◌, true, false, is_some, List, [], ◌∷◌, ◌++◌, length, if◌then◌else◌, None, Some};
ghost use Rattle.poll_runs.specs.Polls.{Poll, is_arrival, is_repoll, work_of};
ghost use Rattle.poll_runs.specs.Batches.{empties};
ghost use Rattle.poll_runs.specs.Run.{IsRun, is_squeezed};
ghost use Rattle.poll_runs.specs.Steps.{Asks, Begins, HoldsNothing, has_spent};
ghost use Rattle.poll_runs.specs.Turn.{HandsOn, Refills};
ghost use Rattle.poll_runs.specs.Driven.{IsGoing, IsOver, SameSettings, and_poll, held, in_run};
ghost use Rattle.poll_runs.specs.Ranges.{IsBudget, IsWeight, IsWindow};

use crate::bench::{Next, Once};
use crate::list::PollList;
use crate::polling_run::PollingRun;
use crate::run::RunReport;
use crate::soft::SoftList;
use napi_model::Kind;

// Returns whether the work reaches the budget or the number of polls the window.
pub(crate) fn is_spent(budget: u32, window: u32, polls: u32, work: u32) -> bool
    ensures spent { result ≡ is_squeezed budget window polls work }
    ensures left { result ≡ false → (work < budget) × (polls < window) }
{
    budget <= work || window <= polls
}

// Takes all entries of the list, if all that were taken before are polled and no repoll is pending.
pub(crate) fn refill<L: PollList>(own: &mut SoftList, list: &mut L, repoll: &SoftList)
    ensures { Refills L.entries L.moves L.is_all L.has_room own.old list.old repoll.now own.new
        list.new }
{
    if own.is_empty() && repoll.is_empty() {
        list.splice(own);
    }
}

// Queues a number that was polled, by how its poll ended.
pub(crate) fn hand_on<L: PollList>(next: Next, id: u32, list: &mut L, repoll: &mut SoftList)
    requires list { L.can_push list.old }
    requires repoll { length repoll.old < 64 }
    ensures list { HandsOn L.entries L.moves L.has_room list.old (is_arrival next) id list.new }
    ensures repoll { repoll.new ≡ repoll.old ++ (if is_repoll next then id ∷ [] else []) }
{
    match next {
        Next::Again(Kind::List) => list.push(id),
        Next::Repoll => repoll.append(id),
        _ => {}
    }
}

// Puts the numbers that the run holds back on the list, and returns its report.
#[inline(always)]
fn give_back<L: PollList>(run: &PollingRun, list: &mut L) -> RunReport
    requires room { L.has_room list.old (length run.now.own + length run.now.repoll) }
    ensures back { (came : List _)
        × L.moves list.old [] came (empties (L.entries list.new)) list.new
        × (L.entries list.new ≡ run.now.own ++ (L.entries list.old ++ came) ++ run.now.repoll) }
    ensures all { L.is_all (L.entries list.new) list.new }
    ensures report { result ≡ record {
      polls = run.now.polls;
      work = run.now.work;
      squeezed = has_spent run.now;
    } }
{
    list.put_back(&run.own, &run.repoll);
    RunReport {
        polls: run.polls,
        work: run.work,
        squeezed: is_spent(run.budget, run.window, run.polls, run.work),
    }
}

// Takes all entries of the list.
fn start<L: PollList>(run: &mut PollingRun, list: &mut L)
    requires { HoldsNothing run.old }
    ensures begins { Begins L.entries L.moves L.is_all list.old run.new list.new }
    ensures rests { run.new.asked ≡ None }
    ensures room { L.has_room list.new (held run.new) }
    ensures settings { SameSettings run.old run.new }
{
    list.splice(&mut run.own);
}

impl PollingRun {
    /// Returns a run that holds nothing and is over.
    pub fn idle() -> PollingRun
        ensures { HoldsNothing result }
    {
        PollingRun {
            own: SoftList::new(),
            repoll: SoftList::new(),
            asked: None,
            budget: 1,
            weight: 1,
            window: 1,
            polls: 0,
            work: 0,
        }
    }

    /// Starts a run: takes all entries of the list. The weight is in 1..=64, budget and window in 1..=65535.
    pub fn begin<L: PollList>(list: &mut L, budget: u32, weight: u32, window: u32) -> PollingRun
        requires weight { IsWeight weight }
        requires budget { IsBudget budget }
        requires window { IsWindow window }
        ensures going { IsGoing L.entries L.moves L.is_all list.old [] list.new result }
        ensures begins { Begins L.entries L.moves L.is_all list.old result list.new }
        ensures rests { result.asked ≡ None }
        ensures room { L.has_room list.new (held result) }
        ensures settings { (result.budget ≡ budget) × (result.weight ≡ weight)
            × (result.window ≡ window) }
    {
        let mut run = PollingRun::idle();
        run.restart(list, budget, weight, window);
        run
    }

    /// Like [`begin`](PollingRun::begin), in place of a run that holds nothing.
    pub fn restart<L: PollList>(&mut self, list: &mut L, budget: u32, weight: u32, window: u32)
        requires nothing { HoldsNothing self.old }
        requires weight { IsWeight weight }
        requires budget { IsBudget budget }
        requires window { IsWindow window }
        ensures going { IsGoing L.entries L.moves L.is_all list.old [] list.new self.new }
        ensures begins { Begins L.entries L.moves L.is_all list.old self.new list.new }
        ensures rests { self.new.asked ≡ None }
        ensures room { L.has_room list.new (held self.new) }
        ensures settings { (self.new.budget ≡ budget) × (self.new.weight ≡ weight)
            × (self.new.window ≡ window) }
    {
        self.budget = budget;
        self.weight = weight;
        self.window = window;
        start(self, list);
    }

    /// Returns the number to poll next, or `None` if the run is over: the work reaches the budget, or the number of polls the
    /// window, or all entries are polled and a repoll is pending or the list is empty.
    #[inline(always)]
    pub fn next<L: PollList>(&mut self, list: &mut L) -> Option<u32>
        requires rests { self.old.asked ≡ None }
        requires room { L.has_room list.old (held self.old) }
        ensures going { (start : _) (polls : List Poll)
            → IsGoing L.entries L.moves L.is_all start polls list.old self.old
            → IsGoing L.entries L.moves L.is_all start polls list.new self.new }
        ensures over { (start : _) (polls : List Poll) → result ≡ None
            → IsGoing L.entries L.moves L.is_all start polls list.old self.old
            → IsOver L.entries L.moves L.is_all start polls self.new }
        ensures spent { has_spent self.old ≡ true
            → (result ≡ None) × (self.new ≡ self.old) × (list.new ≡ list.old) }
        ensures left { has_spent self.old ≡ false → Asks L.entries L.moves L.is_all L.has_room
            self.old list.old result self.new.own list.new }
        ensures asks { self.new.asked ≡ result }
        ensures kept { (self.new.repoll ≡ self.old.repoll) × (self.new.work ≡ self.old.work) }
        ensures room { L.has_room list.new (held self.new) }
        ensures counts { self.new.polls ≡ self.old.polls }
        ensures settings { SameSettings self.old self.new }
    {
        if is_spent(self.budget, self.window, self.polls, self.work) {
            return None;
        }
        refill(&mut self.own, list, &self.repoll);
        self.asked = self.own.pop_front();
        self.asked
    }

    /// The number that [`next`](PollingRun::next) returned and whose poll wasn't reported yet.
    pub fn asked(&self) -> Option<u32>
        ensures { result ≡ self.now.asked }
    {
        self.asked
    }

    /// The weight: the most packets that one poll may process.
    pub fn weight(&self) -> u32
        ensures { result ≡ self.now.weight }
    {
        self.weight
    }

    /// How many numbers of the list the run holds.
    pub fn held(&self) -> usize
        ensures held { result ≡ held self.now }
        ensures few { result ≤ 64 }
    {
        let asked = usize::from(self.asked.is_some());
        self.own.ids().len() + asked + self.repoll.ids().len()
    }

    /// Returns whether the run holds this number: to be polled, or to be put back.
    pub fn is_waiting(&self, id: u32) -> bool
        ensures { result ≡ in_run self.now id }
    {
        self.own.ids().contains(&id) || self.repoll.ids().contains(&id)
    }

    /// Reports the outcome of the poll of the number that [`next`](PollingRun::next) returned last; its work is at most the
    /// weight.
    #[inline(always)]
    pub fn polled<L: PollList>(&mut self, list: &mut L, once: Once)
        requires asked { is_some self.old.asked ≡ true }
        requires work { once.work ≤ self.old.weight }
        requires room { L.has_room list.old (held self.old) }
        ensures going { (start : _) (polls : List Poll) (id : _) → self.old.asked ≡ Some id
            → IsGoing L.entries L.moves L.is_all start polls list.old self.old
            → IsGoing L.entries L.moves L.is_all start (and_poll polls id once) list.new self.new }
        ensures list { (id : _) → self.old.asked ≡ Some id → HandsOn L.entries L.moves L.has_room
            list.old (is_arrival once.next) id list.new }
        ensures repoll { (id : _) → self.old.asked ≡ Some id → self.new.repoll
            ≡ self.old.repoll ++ (if is_repoll once.next then id ∷ [] else []) }
        ensures kept { self.new.own ≡ self.old.own }
        ensures rests { self.new.asked ≡ None }
        ensures room { L.has_room list.new (held self.new) }
        ensures counts { (self.new.polls ≡ self.old.polls + 1)
            × (self.new.work ≡ self.old.work + once.work) }
        ensures settings { SameSettings self.old self.new }
    {
        let Some(id) = self.asked else {
            return;
        };
        self.asked = None;
        self.polls += 1;
        self.work += once.work;
        hand_on(once.next, id, list, &mut self.repoll);
    }

    /// Ends the run: puts on the list what wasn't polled, before what arrived meanwhile, and the repolls after it. It may be
    /// called early, before [`next`](PollingRun::next) returns `None`.
    pub fn end<L: PollList>(self, list: &mut L) -> RunReport
        requires rests { self.asked ≡ None }
        requires room { L.has_room list.old (held self) }
        ensures run { (start : _) (polls : List Poll)
            → IsGoing L.entries L.moves L.is_all start polls list.old self
            → IsOver L.entries L.moves L.is_all start polls self
            → IsRun L.entries L.moves L.is_all self.budget self.window start polls list.new result }
        ensures early { (start : _) (polls : List Poll)
            → IsGoing L.entries L.moves L.is_all start polls list.old self
            → (result.polls ≡ length polls) × (result.work ≡ work_of polls) }
        ensures back { (came : List _)
            × L.moves list.old [] came (empties (L.entries list.new)) list.new
            × (L.entries list.new ≡ self.own ++ (L.entries list.old ++ came) ++ self.repoll) }
        ensures report { result
            ≡ record { polls = self.polls; work = self.work; squeezed = has_spent self } }
        ensures polls { result.polls ≤ self.window }
        ensures work { result.work < self.budget + self.weight }
    {
        give_back(&self, list)
    }

    /// Like [`end`](PollingRun::end), for a run behind a reference, which holds nothing afterwards.
    #[inline(always)]
    pub fn finish<L: PollList>(&mut self, list: &mut L) -> RunReport
        requires rests { self.old.asked ≡ None }
        requires room { L.has_room list.old (held self.old) }
        ensures run { (start : _) (polls : List Poll)
            → IsGoing L.entries L.moves L.is_all start polls list.old self.old
            → IsOver L.entries L.moves L.is_all start polls self.old
            → IsRun L.entries L.moves L.is_all self.old.budget self.old.window start polls list.new
            result }
        ensures early { (start : _) (polls : List Poll)
            → IsGoing L.entries L.moves L.is_all start polls list.old self.old
            → (result.polls ≡ length polls) × (result.work ≡ work_of polls) }
        ensures back { (came : List _)
            × L.moves list.old [] came (empties (L.entries list.new)) list.new
            × (L.entries list.new
            ≡ self.old.own ++ (L.entries list.old ++ came) ++ self.old.repoll) }
        ensures report { result ≡ record {
          polls = self.old.polls;
          work = self.old.work;
          squeezed = has_spent self.old;
        } }
        ensures polls { result.polls ≤ self.old.window }
        ensures work { result.work < self.old.budget + self.old.weight }
        ensures nothing { HoldsNothing self.new }
    {
        let report = give_back(self, list);
        self.own.clear();
        self.repoll.clear();
        self.polls = 0;
        self.work = 0;
        report
    }
}
