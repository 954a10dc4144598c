//! The interface between polling and what is polled.

ghost use Rattle.std.specs.Prelude.{ℕ, List, ◌≤◌};
ghost use Rattle.poll_runs.specs.Polling.{NoBusyPolls};
ghost use Rattle.poll_runs.specs.Ranges.{IsMost, IsRounds, IsWeight};
ghost use Rattle.poll_runs.specs.Thread.{IsThreadPolling, NoThreadPolls};
ghost use Rattle.poll_runs.specs.declared.bench.BusyReport.{BusyReport};
ghost use Rattle.poll_runs.specs.declared.bench.Once.{Once};

use napi_model::Kind;

/// How a poll ended (`__napi_poll` and `napi_complete_done`).
#[derive(Clone, Copy, Debug, PartialEq, Eq)]
pub enum Next {
    /// The instance wasn't in the queue: nothing was polled.
    Absent,
    /// The poll completed the instance and released it (`napi_complete_done` returns true).
    Gone,
    /// The poll completed the instance, was granted it again because of a missed request, and queued it (`____napi_schedule`).
    /// If it goes to the list, the caller still has to push its number.
    Again(Kind),
    /// The poll used its whole weight and keeps the instance, which gets a repoll (`list_add_tail` to `repoll`). The caller
    /// still has to put its number back.
    Repoll,
}

/// The outcome of one poll (`napi_poll`).
#[derive(Clone, Copy, Debug, PartialEq, Eq)]
pub struct Once {
    /// The packets that it processed, at most the weight.
    pub work: u32,
    /// How it ended.
    pub next: Next,
}

/// The outcome of a thread's polling of an instance (`napi_threaded_poll`).
#[derive(Clone, Copy, Debug, PartialEq, Eq)]
pub struct ThreadReport {
    /// The number of polls.
    pub polls: u32,
    /// The packets of all polls together.
    pub work: u32,
    /// How the last poll ended; [`Next::Absent`] if there was none. After [`Next::Repoll`] the instance was queued on the list,
    /// and the caller still has to push its number, as after [`Next::Again`] with the list.
    pub next: Next,
}

/// The outcome of busy polling an instance (`napi_busy_loop`).
#[derive(Clone, Copy, Debug, PartialEq, Eq)]
pub struct BusyReport {
    /// The number of polls: one for each round, and one more.
    pub polls: u32,
    /// The packets of all polls together.
    pub work: u32,
    /// The rounds with work below the weight, whose completions returned `Held`.
    pub held: u32,
    /// The bytes of the packets.
    pub bytes: u64,
    /// How the last poll ended; [`Next::Absent`] if the instance wasn't idle and there was none. After [`Next::Repoll`], and
    /// [`Next::Again`] with the list, the caller still has to push its number.
    pub next: Next,
}

impl ThreadReport {
    /// No polls.
    pub const NONE: ThreadReport = ThreadReport {
        polls: 0,
        work: 0,
        next: Next::Absent,
    };
}

impl BusyReport {
    /// No polls.
    pub const NONE: BusyReport = BusyReport {
        polls: 0,
        work: 0,
        held: 0,
        bytes: 0,
        next: Next::Absent,
    };
}

/// The instances that a poller polls by number: from a list, by their threads, and by busy polling. Each bench states, by
/// relations, what its polls do. A bench that is only polled from a list returns [`ThreadReport::NONE`] and
/// [`BusyReport::NONE`] from the other two calls, and keeps the default relations, which say exactly that.
pub trait Bench {
    /// `polls before id weight once after`: a poll of this instance from the list, with this weight, leads from one bench to
    /// the other with this outcome.
    ghost polls: { Self → ℕ → ℕ → Once → Self → Type 0 };

    /// `thread_polls before id weight most polls after`: polling of this instance by its thread leads from one bench to the
    /// other by these polls. A take that finds nothing is one of them, and so is queueing on the list after a last `Repoll`. By
    /// default nothing is polled and the bench is unchanged.
    ghost thread_polls: { Self → ℕ → ℕ → ℕ → List Once → Self → Type 0 } = { NoThreadPolls };

    /// `busy_polls before id weight rounds report after`: busy polling of this instance for this many rounds leads from one
    /// bench to the other with this report. By default nothing is polled and the bench is unchanged.
    ghost busy_polls: { Self → ℕ → ℕ → ℕ → BusyReport → Self → Type 0 } = { NoBusyPolls };

    /// Takes an instance from the list and polls it once with this weight, in 1..=64 (`napi_poll`). Returns [`Next::Absent`]
    /// for an instance that isn't on the list.
    fn poll_once(&mut self, id: u32, weight: u32) -> Once
        requires weight { IsWeight weight }
        ensures leads { polls self.old id weight result self.new }
        ensures bound { result.work ≤ weight };

    /// Takes an instance as its thread does, and polls it at most `most` times, in 1..=131072 (`napi_threaded_poll`). It stops
    /// earlier if a poll asks for no repoll and a take doesn't find the instance in the thread's queue.
    fn poll_thread(&mut self, id: u32, weight: u32, most: u32) -> ThreadReport
        requires weight { IsWeight weight }
        requires most { IsMost most }
        ensures { (polls : List Once)
            × thread_polls self.old id weight most polls self.new
            × IsThreadPolling weight most polls result };

    /// Takes an idle instance, polls it for this many rounds, in 1..=65535, stops, and polls it once more (`napi_busy_loop`,
    /// `busy_poll_stop`).
    fn busy_poll(&mut self, id: u32, weight: u32, rounds: u32) -> BusyReport
        requires weight { IsWeight weight }
        requires rounds { IsRounds rounds }
        ensures leads { busy_polls self.old id weight rounds result self.new };
}
