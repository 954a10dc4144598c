//! A polling run whose polls the C program makes, one by one.
ghost use Rattle.std.specs.Prelude.{◌≡◌, ◌≢◌, ◌+◌, ◌<◌, ◌≤◌, ◌↔◌, ◌++◌, [], ◌∷◌, List, Some, None, is_some, true, length};
ghost use Rattle.poll_runs.specs.Polls.{Poll, work_of};
ghost use Rattle.poll_runs.specs.Driven.{and_poll};
ghost use Rattle.poll_runs.specs.declared.bench.Next.{Next};
ghost use Rattle.c_handles.specs.Status.{OK, DONE, NOT_ALLOWED};
ghost use Rattle.c_handles.specs.Lists.{held_by_run};
ghost use Rattle.c_handles.specs.Runs.{next_in, asked_id, list_run, list_has, run_has, without, is_doubled, Runs, IsThrough, IsBetweenPolls, HasSettings, SameSettingsIn, IsRunOf, has_spent_in, list_after_end, push_status, remove_status, begin_status, polled_status};

use crate::lister::{FqRunReport, ListObject};
use crate::status;
use napi_model::Kind;
use poll_runs::{Next, Once, PlainList, PollList, PollingRun};
use std::mem::size_of;

// Returns how a poll ended, from its number in C (`enum fq_next`).
fn next_of(number: u32) -> Option<Next>
    ensures { result ≡ next_in number }
{
    match number {
        0 => Some(Next::Gone),
        1 => Some(Next::Again(Kind::List)),
        2 => Some(Next::Again(Kind::Thread)),
        3 => Some(Next::Repoll),
        4 => Some(Next::Absent),
        _ => None,
    }
}

// Returns the list without this number.
fn without(list: &PlainList, id: u32) -> PlainList
    ensures { result ≡ without id list.now }
{
    let mut others = PlainList::new();
    let ids = list.ids();
    for other in ids {
        if *other != id {
            others.push(*other);
        }
    }
    others
}

impl ListObject {
    /// Returns an empty list.
    pub fn new() -> ListObject
        ensures list { result.list ≡ [] }
        ensures run { list_run result ≡ None }
    {
        ListObject {
            list: PlainList::new(),
            place: PollingRun::idle(),
            runs: false,
        }
    }

    /// Returns whether a run is in progress.
    pub fn is_running(&self) -> bool
        ensures { result ≡ is_some (list_run self.now) }
    {
        self.runs
    }

    /// How many numbers list and run hold together.
    pub fn len(&self) -> usize
        ensures { result ≡ length self.now.list + held_by_run (list_run self.now) }
    {
        let held = if self.runs { self.place.held() } else { 0 };
        self.list.ids().len() + held
    }

    fn is_listed(&self, id: u32) -> bool
        ensures { result ≡ list_has self.now id }
    {
        self.list.ids().contains(&id) || self.runs && self.place.is_waiting(id)
    }

    /// Appends a number to the list, if neither list nor run has it and they hold fewer than 64.
    pub fn push(&mut self, id: u32) -> u32
        ensures status { result ≡ push_status self.old id }
        ensures pushed { result ≡ OK → self.new.list ≡ self.old.list ++ id ∷ [] }
        ensures run { list_run self.new ≡ list_run self.old }
        ensures kept { result ≢ OK → self.new ≡ self.old }
    {
        if self.is_listed(id) {
            return status::IN_USE;
        }
        if self.len() >= 64 {
            return status::FULL;
        }
        self.list.push(id);
        status::OK
    }

    fn run_has(&self, id: u32) -> bool
        ensures { result ≡ run_has (list_run self.now) id }
    {
        let is_polled = match self.place.asked() {
            Some(polled) => polled == id,
            None => false,
        };
        self.runs && (self.place.is_waiting(id) || is_polled)
    }

    /// Removes a number from the list, whose others keep their order. Returns BUSY if only the run has it, and NOT_THERE if
    /// neither has it.
    pub fn remove(&mut self, id: u32) -> u32
        ensures status { result ≡ remove_status self.old id }
        ensures removed { result ≡ OK → self.new.list ≡ without id self.old.list }
        ensures run { list_run self.new ≡ list_run self.old }
        ensures kept { result ≢ OK → self.new ≡ self.old }
    {
        if !self.list.ids().contains(&id) {
            return if self.run_has(id) {
                status::BUSY
            } else {
                status::NOT_THERE
            };
        }
        self.list = without(&self.list, id);
        status::OK
    }

    /// Starts a run (`PollingRun::restart`).
    pub fn begin(&mut self, budget: u32, weight: u32, window: u32) -> u32
        ensures status { result ≡ begin_status self.old budget weight window }
        ensures going { result ≡ OK → Runs self.old.list [] self.new }
        ensures rests { result ≡ OK → IsBetweenPolls self.new }
        ensures settings { result ≡ OK → HasSettings budget weight window (list_run self.new) }
        ensures kept { result ≢ OK → self.new ≡ self.old }
    {
        if self.runs {
            return status::NOT_ALLOWED;
        }
        if weight == 0 || weight > 64 {
            return status::BAD_WEIGHT;
        }
        if budget == 0 || budget > 65535 || window == 0 || window > 65535 {
            return status::BAD_BUDGET;
        }
        self.place.restart(&mut self.list, budget, weight, window);
        self.runs = true;
        status::OK
    }

    fn is_between_polls(&self) -> bool
        ensures { result ≡ true ↔ IsBetweenPolls self.now }
    {
        self.runs && self.place.asked().is_none()
    }

    /// Sets `id` to the number to poll next, or returns DONE if the run is over (`PollingRun::next`).
    pub fn next(&mut self, id: &mut u32) -> u32
        ensures going { (start : _) (polls : List Poll) → Runs start polls self.old
            → Runs start polls self.new }
        ensures over { (start : _) (polls : List Poll) → result ≡ DONE → Runs start polls self.old
            → IsThrough start polls self.new }
        ensures asks { result ≡ OK → asked_id (list_run self.new) ≡ Some id.new }
        ensures none { result ≢ OK → id.new ≡ id.old }
        ensures settings { SameSettingsIn (list_run self.old) (list_run self.new) }
        ensures refused { result ≡ NOT_ALLOWED ↔ ¬ IsBetweenPolls self.old }
        ensures kept { result ≡ NOT_ALLOWED → self.new ≡ self.old }
    {
        if !self.is_between_polls() {
            return status::NOT_ALLOWED;
        }
        match self.place.next(&mut self.list) {
            Some(next) => {
                *id = next;
                status::OK
            }
            None => status::DONE,
        }
    }

    // Returns whether the number that was polled would go back to a list that has it already.
    fn is_doubled(&self, id: u32, next: Next) -> bool
        ensures { result ≡ is_doubled self.now (Some id) next }
    {
        match next {
            Next::Again(Kind::List) | Next::Repoll => self.is_listed(id),
            _ => false,
        }
    }

    /// Reports the outcome of a poll (`PollingRun::polled`).
    pub fn polled(&mut self, work: u32, next: u32) -> u32
        ensures status { result ≡ polled_status self.old work next }
        ensures going { (start : _) (polls : List Poll) (id : _) (n : Next) → result ≡ OK
            → asked_id (list_run self.old) ≡ Some id → next_in next ≡ Some n
            → Runs start polls self.old
            → Runs start (and_poll polls id (record { work = work; next = n })) self.new }
        ensures rests { result ≡ OK → IsBetweenPolls self.new }
        ensures settings { SameSettingsIn (list_run self.old) (list_run self.new) }
        ensures kept { result ≢ OK → self.new ≡ self.old }
    {
        if !self.runs {
            return status::NOT_ALLOWED;
        }
        let Some(id) = self.place.asked() else {
            return status::NOT_ALLOWED;
        };
        if work > self.place.weight() {
            return status::BAD_WORK;
        }
        let Some(next) = next_of(next) else {
            return status::BAD_NEXT;
        };
        if self.is_doubled(id, next) {
            return status::IN_USE;
        }
        self.place.polled(&mut self.list, Once { work, next });
        status::OK
    }

    /// Ends the run (`PollingRun::finish`).
    pub fn end(&mut self, report: &mut FqRunReport) -> u32
        ensures run { (start : _) (polls : List Poll) (budget weight window : _) → result ≡ OK
            → HasSettings budget weight window (list_run self.old)
            → Runs start polls self.old → IsThrough start polls self.old
            → IsRunOf budget window start polls self.new.list report.new }
        ensures early { (start : _) (polls : List Poll) → result ≡ OK → Runs start polls self.old
            → (report.new.polls ≡ length polls) × (report.new.work ≡ work_of polls) }
        ensures size { result ≡ OK → report.new.size ≡ 24 }
        ensures squeezed { result ≡ OK → report.new.squeezed ≡ has_spent_in (list_run self.old) }
        ensures back { result ≡ OK
            → self.new.list ≡ list_after_end (list_run self.old) self.old.list }
        ensures bounds { (budget weight window : _) → result ≡ OK
            → HasSettings budget weight window (list_run self.old)
            → (report.new.polls ≤ window) × (report.new.work < budget + weight) }
        ensures over { result ≡ OK → list_run self.new ≡ None }
        ensures refused { result ≢ OK ↔ ¬ IsBetweenPolls self.old }
        ensures kept { result ≢ OK → (self.new ≡ self.old) × (report.new ≡ report.old) }
    {
        if !self.is_between_polls() {
            return status::NOT_ALLOWED;
        }
        let done = self.place.finish(&mut self.list);
        self.runs = false;
        // this proves that the list holds at most 64 numbers
        let _few = self.list.ids();
        *report = FqRunReport {
            size: size_of::<FqRunReport>(),
            polls: done.polls,
            work: done.work,
            squeezed: done.squeezed,
        };
        status::OK
    }
}
