//! A run over the poll list that keeps its polls.

ghost use Rattle.std.specs.Prelude.{◌≡◌, ◌≤◌, ◌+◌, [], IfOk, OnOk, length, true, vec_capacity, vec_len};
ghost use Rattle.device_bench.specs.Bench.{counts_at};
ghost use Rattle.device_bench.specs.DeviceBench.{IsListPoll, ShowsTransmits, devices_of};
ghost use Rattle.device_places.specs.Places.{at};
ghost use Rattle.device_bench.specs.Transmits.{Transmits, tx_counts_of};
ghost use Rattle.poll_runs.specs.Laws.{IsPlainRun};
ghost use Rattle.poll_runs.specs.Polls.{At, Chain};
ghost use Rattle.replay_rows.specs.RunLog.{logged, polls_in};

use device_bench::{DeviceBench, DeviceCounts, ReceiveSide};
use poll_runs::{Bench, Once, PlainList, PollingRun, RunReport};
use std::alloc::{AllocError, Global};
use text_io::ReplaySettings;

/// One poll of a run, and its device after it.
#[derive(Clone, Copy)]
pub struct RunPoll {
    /// The number that was polled.
    pub device: u32,
    /// The packets that the poll processed, and how it ended.
    pub once: Once,
    /// What a report would show of the device after the poll; `None` if there is no such device.
    pub counts: Option<DeviceCounts>,
}

/// The polls of a softirq row, and the poll list before them; both are empty for any other row.
#[derive(Drop)]
pub(crate) struct RunLog {
    pub(crate) list: Vec<u32>,
    pub(crate) polls: Vec<RunPoll>,
    ghost few: { length polls.items ≤ 65535 },
}

impl RunLog {
    /// Returns an empty log.
    pub(crate) fn new(alloc: Global) -> RunLog
        ensures list { result.list.items ≡ [] }
        ensures polls { result.polls.items ≡ [] }
    {
        RunLog {
            list: Vec::new(alloc),
            polls: Vec::new(alloc),
        }
    }

    /// Removes all polls.
    pub(crate) fn clear(&mut self)
        ensures list { self.new.list.items ≡ [] }
        ensures polls { self.new.polls.items ≡ [] }
    {
        self.list.clear();
        self.polls.clear();
    }

    /// Keeps the list before a run, and makes room for the run's polls, at most this many.
    pub(crate) fn begin(&mut self, list: &[u32], window: u32) -> Result<(), AllocError>
        requires list { self.old.list.items ≡ [] }
        requires polls { self.old.polls.items ≡ [] }
        ensures list { OnOk result (self.new.list.items ≡ list.now) }
        ensures polls { OnOk result (self.new.polls.items ≡ []) }
        ensures room { OnOk result (window ≤ vec_capacity self.new.polls) }
    {
        self.list.extend_from_slice(list)?;
        self.polls.reserve(window as usize)?;
        Ok(())
    }
}

/// Returns what a report would show of a device, or `None` if there is no such device.
pub(crate) fn counts_of<S: ReceiveSide>(bench: &DeviceBench<S>, device: u32) -> Option<DeviceCounts>
    ensures { S.exact ≡ true → (all : Transmits) → ShowsTransmits bench.now all
        → result ≡ counts_at (at device (devices_of bench.now)) (tx_counts_of (at device all)) }
{
    if !bench.is_attached(device) {
        return None;
    }
    Some(bench.counts(device))
}

/// Makes one run over the poll list like `run_softirq`, and appends its polls.
pub(crate) fn run_logged<S: ReceiveSide>(
    list: &mut PlainList,
    bench: &mut DeviceBench<S>,
    settings: &ReplaySettings,
    polls: &mut Vec<RunPoll>,
) -> RunReport
    requires none { polls.old.items ≡ [] }
    requires room { settings.now.window ≤ vec_capacity polls.old }
    ensures few { length polls.new.items ≤ settings.now.window }
    ensures polls { Chain (At IsListPoll settings.now.weight) bench.old (polls_in polls.new.items)
        bench.new }
    ensures run { IsPlainRun settings.now.budget settings.now.window list.old
        (polls_in polls.new.items) list.new result }
    ensures logged { S.exact ≡ true → (all : Transmits) → ShowsTransmits bench.old all
        → polls.new.items
        ≡ logged settings.now all (devices_of bench.old) (polls_in polls.new.items) }
{
    let mut run = PollingRun::begin(list, settings.budget, settings.weight, settings.window);
    while let Some(device) = run.next(list) {
        let once = bench.poll_once(device, settings.weight);
        run.polled(list, once);
        polls.push_reserved(RunPoll {
            device,
            once,
            counts: counts_of(bench, device),
        });
    }
    run.end(list)
}
