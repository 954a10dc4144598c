//! Laws of runs over a list of one thread. Each is the contract of a function that does nothing.
ghost use Rattle.std.specs.Prelude.{ℕ};
ghost use Rattle.poll_runs.specs.Function.{RunIsFunction, RunIsShown};
ghost use Rattle.poll_runs.specs.Laws.{NoOtherArrivals, PlainListAfterwards, RunsAgree};
ghost use Rattle.poll_runs.specs.declared.bench.Once.{Once};

use crate::bench::Bench;

/// In a run over a list of one thread, the only arrivals are those of its own polls: the first batch is the whole initial list,
/// and each further one is what the polls of the previous batch queued.
pub fn no_other_arrivals()
    ensures { NoOtherArrivals }
{}

/// The polls of a run over a list of one thread determine which numbers it polled and what it leaves on the list.
pub fn plain_list_afterwards()
    ensures { PlainListAfterwards }
{}

/// If each poll of the bench has one outcome, two runs from the same list of one thread and the same bench, with the same
/// budget, weight and window, have the same polls, report, list and bench afterwards.
pub fn runs_agree<B: Bench>()
    ensures { RunsAgree B.polls }
{}

/// If the polls of the bench are a function of the bench, the number and the weight, a run over a list of one thread is a
/// function too: the one that polls batch after batch. Its result is a run, and every run has its result.
pub fn run_is_function<B: Bench>()
    ensures { RunIsFunction B.polls }
{}

/// If the polls of the bench are a function of a view of it, so is a run over a list of one thread: on the view, every run has
/// the result of the function that polls batch after batch.
pub fn run_is_shown<B: Bench, V>()
    ensures { (shown : B → V) (poll : V → ℕ → ℕ → Once × V) → RunIsShown B.polls shown poll }
{}
