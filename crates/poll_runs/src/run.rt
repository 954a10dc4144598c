//! A polling run.

ghost use Rattle.std.specs.Prelude.{◌≡◌, ◌+◌, ◌<◌, ◌≤◌, List};
ghost use Rattle.poll_runs.specs.Polls.{At, Chain, Poll};
ghost use Rattle.poll_runs.specs.Ranges.{IsBudget, IsWeight, IsWindow};
ghost use Rattle.poll_runs.specs.Run.{IsRun};

use crate::bench::Bench;
use crate::driven::{hand_on, is_spent, refill};
use crate::list::PollList;
use crate::soft::SoftList;

/// The outcome of a polling run (`net_rx_action`).
#[derive(Clone, Copy, Debug, PartialEq, Eq)]
pub struct RunReport {
    /// The number of polls, including those that found their instance absent; at most the window.
    pub polls: u32,
    /// The packets of all polls together, less than budget plus weight.
    pub work: u32,
    /// Whether the budget or the window was used up, which stopped the run (`time_squeeze`).
    pub squeezed: bool,
}

/// Makes a polling run (`net_rx_action`): takes all entries of the list and polls them in order, with this weight. It stops
/// when the work reaches the budget or the number of polls the window. If all entries are polled before that, it takes the
/// list's new entries and continues with them, unless a poll asked for a repoll. At the end it puts on the list what wasn't
/// polled, before what arrived meanwhile, and the repolls after it.
///
/// The weight is in 1..=64, budget and window in 1..=65535.
pub fn run_softirq<L: PollList, B: Bench>(
    list: &mut L,
    bench: &mut B,
    budget: u32,
    weight: u32,
    window: u32,
) -> RunReport
    requires weight { IsWeight weight }
    requires budget { IsBudget budget }
    requires window { IsWindow window }
    ensures run { (polls : List Poll)
        × Chain (At B.polls weight) bench.old polls bench.new
        × IsRun L.entries L.moves L.is_all budget window list.old polls list.new result }
    ensures polls { result.polls ≤ window }
    ensures work { result.work < budget + weight }
{
    let mut own = SoftList::new();
    let mut repoll = SoftList::new();
    let mut polls = 0;
    let mut work = 0;
    list.splice(&mut own);
    while !is_spent(budget, window, polls, work) {
        refill(&mut own, list, &repoll);
        let Some(id) = own.pop_front() else {
            break;
        };
        let once = bench.poll_once(id, weight);
        polls += 1;
        work += once.work;
        hand_on(once.next, id, list, &mut repoll);
    }
    list.put_back(&own, &repoll);
    RunReport {
        polls,
        work,
        squeezed: is_spent(budget, window, polls, work),
    }
}
