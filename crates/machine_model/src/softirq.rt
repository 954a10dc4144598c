//! A processor's poll list and its polling run.

ghost use Rattle.std.specs.Prelude.{◌≡◌, ◌<◌, ◌≤◌, None, Some, true, false, is_some, length, if◌then◌else◌};
ghost use Rattle.machine_model.specs.Shown.{listed, weight_in};
ghost use Rattle.machine_model.specs.Softirq.{asked_in, begun, poll_ended, run_ended, is_run_spent, run_next, softirq_polled, pushed};
ghost use Rattle.std.specs.Option.{option_map_or};
ghost use Rattle.poll_runs.specs.Polls.{is_arrival};
ghost use Rattle.poll_runs.specs.declared.bench.Next.TheVariants.{Gone, Repoll};
ghost use Rattle.poll_runs.specs.Ranges.{IsBudget, IsWeight, IsWindow};

use poll_runs::{Next, Once, PlainList, PollList, PollingRun};
use std::marker::Model;

/// The poll list of a processor, and the run in progress (`struct softnet_data`).
#[derive(Drop)]
pub(crate) struct Softirq {
    list: PlainList,
    run: PollingRun,
    is_running: bool,
    began: u64,
}

impl Model for Softirq {
    ghost use Rattle.std.specs.Prelude.{◌≡◌, ◌≤◌, false};
    ghost use Rattle.poll_runs.specs.Steps.{HoldsNothing};
    ghost use Rattle.machine_model.specs.Shown.{listed, run_if};
    ghost use Rattle.machine_model.specs.Softirq.{SoftirqView};

    ghost Value = { SoftirqView };

    ghost view = { λ s. record { list = s.list; run = run_if s.is_running s.run; began = s.began } };

    ghost invariant = { λ s. (listed (record { list = s.list; run = run_if s.is_running s.run; began = s.began }) ≤ 64)
        × (s.is_running ≡ false → HoldsNothing s.run) };
}

// Returns how a poll ends; `full` says whether it used its whole weight.
fn next_after(full: bool) -> Next
    ensures { result ≡ (if full then Repoll else Gone) }
{
    if full { Next::Repoll } else { Next::Gone }
}

impl Softirq {
    ghost use Rattle.std.specs.Prelude.{◌≡◌, ◌<◌, ◌≤◌, None, Some, [], ◌==◌, true, false, is_some, length};
    ghost use Rattle.machine_model.specs.Shown.{listed, weight_in};
    ghost use Rattle.machine_model.specs.Softirq.{asked_in, begun, poll_ended, run_ended, is_run_spent, run_next, softirq_polled, pushed};
    ghost use Rattle.std.specs.Option.{option_map_or};
    ghost use Rattle.poll_runs.specs.Polls.{is_arrival};

    /// Returns an empty list, without a run.
    pub(crate) fn new() -> Softirq
        ensures { result ≡ record { list = []; run = None; began = 0 } }
    {
        Softirq {
            list: PlainList::new(),
            run: PollingRun::idle(),
            is_running: false,
            began: 0,
        }
    }

    /// Returns whether a run is in progress.
    pub(crate) fn is_running(&self) -> bool
        ensures { result ≡ is_some self.now.run }
    {
        self.is_running
    }

    /// Returns whether the list is empty.
    pub(crate) fn is_empty(&self) -> bool
        ensures { result ≡ (length self.now.list == 0) }
    {
        self.list.ids().is_empty()
    }

    /// When the run began.
    pub(crate) fn began(&self) -> u64
        ensures { result ≡ self.now.began }
    {
        self.began
    }

    /// Appends a number to the list.
    pub(crate) fn push(&mut self, number: u32)
        requires { listed self.old < 64 }
        ensures { self.new ≡ pushed number self.old }
    {
        self.list.push(number);
    }

    /// Begins a run, which takes the whole list (`net_rx_action`).
    pub(crate) fn begin(&mut self, moment: u64, budget: u32, weight: u32, window: u32)
        requires none { self.old.run ≡ None }
        requires weight { IsWeight weight }
        requires budget { IsBudget budget }
        requires window { IsWindow window }
        ensures { self.new ≡ begun moment budget weight window self.old }
    {
        self.run.restart(&mut self.list, budget, weight, window);
        self.is_running = true;
        self.began = moment;
    }

    /// Returns the number to poll next; `None` if the run is over.
    #[tactic(auto, unfolding(crate::specs::Softirq::run_next))]
    pub(crate) fn next(&mut self) -> Option<u32>
        requires { asked_in self.old.run ≡ None }
        ensures softirq { self.new ≡ run_next self.old }
        ensures answer { result ≡ asked_in self.new.run }
    {
        if !self.is_running {
            return None;
        }
        self.run.next(&mut self.list)
    }

    /// Reports the outcome of the poll of that number.
    #[tactic(auto, unfolding(crate::specs::Softirq::softirq_polled))]
    pub(crate) fn polled(&mut self, once: Once)
        requires asked { is_some (asked_in self.old.run) ≡ true }
        requires work { once.work ≤ weight_in self.old.run }
        requires next { is_arrival once.next ≡ false }
        ensures { self.new ≡ softirq_polled once self.old }
    {
        if self.is_running {
            self.run.polled(&mut self.list, once);
        }
    }

    /// Ends the poll of that number, which processed this many packets: if it used its whole weight (`full`), it is polled again
    /// by the run. If it completed and is scheduled again at once, it is appended to the list.
    pub(crate) fn poll_ended(&mut self, number: u32, given: u32, full: bool, again: bool)
        requires asked { asked_in self.old.run ≡ Some number }
        requires work { given ≤ weight_in self.old.run }
        ensures { self.new ≡ poll_ended number given full again self.old }
    {
        if self.is_running {
            self.polled(Once {
                work: given,
                next: next_after(full),
            });
            if again && !full {
                self.push(number);
            }
        }
    }

    /// Ends the run. Returns whether it reached its budget or its window.
    #[tactic(auto, unfolding(crate::specs::Softirq::run_ended))]
    pub(crate) fn end(&mut self) -> bool
        requires { asked_in self.old.run ≡ None }
        ensures softirq { self.new ≡ run_ended self.old }
        ensures spent { result ≡ option_map_or is_run_spent self.old.run false }
    {
        if !self.is_running {
            return false;
        }
        self.is_running = false;
        self.run.finish(&mut self.list).squeezed
    }
}
