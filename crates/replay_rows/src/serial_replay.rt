//! A replay on one thread, row by row.

use crate::line::PollRecord;
use crate::replay::{Replay, room_for_lines};
use crate::run_log::{RunLog, RunPoll, counts_of};
use device_bench::{DeviceCounts, SerialBench, SerialReceive};
use device_rows::Row;
use std::alloc::{AllocError, Global};
use text_io::{ReplayFault, ReplaySettings};

/// A replay on one thread that processes the rows one by one, and shows the state after each row.
#[derive(Drop)]
pub struct SerialReplay {
    replay: Replay<SerialReceive>,
    log: RunLog,
}

impl SerialReplay {
    ghost use Rattle.std.specs.Prelude.{◌≡◌, ◌⊎◌, ◌≤◌, ◌<◌, ◌+◌, ℕ, [], List, Err, IfOk, IfErr, OnOk, length};
    ghost use Rattle.device_rows.specs.Trace.{AcceptedAfter};
    ghost use Rattle.device_rows.specs.declared.row.Row.{Row};
    ghost use Rattle.text_io.specs.declared.settings.ReplaySettings.{ReplaySettings};
    ghost use Rattle.replay_rows.specs.After.{IsAfter, counts_after, is_used_after, list_after, polled_after};
    ghost use Rattle.replay_rows.specs.Replay.{after_all_rows};
    ghost use Rattle.replay_rows.specs.RunLog.{list_before, polls_of_row};
    ghost use Rattle.text_io.specs.Outside.{IsReplayOutOfMemory};

    /// Returns a replay before its first row, with room for the lines of these rows.
    pub fn new(alloc: Global, rows: &[Row]) -> Result<SerialReplay, AllocError>
        ensures { IfOk result
            (λ replay. (s : ReplaySettings) (rows : List Row) → IsAfter s rows 0 replay) }
    {
        Ok(SerialReplay {
            replay: Replay::new(SerialBench::new(alloc)?, room_for_lines(alloc, rows)?),
            log: RunLog::new(alloc),
        })
    }

    /// Processes the row with this index of a trace, after all rows before it. After an error the replay can't be used any
    /// more.
    pub fn play_row(
        &mut self,
        alloc: Global,
        settings: &ReplaySettings,
        rows: &[Row],
        index: usize,
    ) -> Result<(), ReplayFault>
        requires accepted { AcceptedAfter [] rows.now }
        requires count { length rows.now ≤ 100000 }
        requires index { index < length rows.now }
        requires after { IsAfter settings.now rows.now index self.old }
        ensures after { OnOk result (IsAfter settings.now rows.now (index + 1) self.new) }
        ensures fault { IfErr result
            (λ fault. IsReplayOutOfMemory fault
            ⊎ (after_all_rows settings.now rows.now ≡ Err fault)) }
    {
        self.replay.play_logged(
            alloc,
            settings,
            index as u32 + 1,
            &rows[index],
            &mut self.log,
        )?;
        Ok(())
    }

    /// Returns what the report of the rows so far shows of a device, or `None` if there is no such device.
    pub fn counts(&self, device: u32) -> Option<DeviceCounts>
        ensures { (s : ReplaySettings) (rows : List Row) (n : ℕ) → IsAfter s rows n self.now
            → result ≡ counts_after s rows n device }
    {
        counts_of(&self.replay.bench, device)
    }

    /// Returns whether the report of the rows so far shows the device's transmit side, which it does after the device's first
    /// tx or done row.
    pub fn uses_transmit(&self, device: u32) -> bool
        ensures { (s : ReplaySettings) (rows : List Row) (n : ℕ) → IsAfter s rows n self.now
            → result ≡ is_used_after rows n device }
    {
        self.replay.bench.uses_transmit(device)
    }

    /// The numbers on the poll list, the next one first.
    pub fn list(&self) -> &[u32]
        ensures { (s : ReplaySettings) (rows : List Row) (n : ℕ) → IsAfter s rows n self.now
            → result.now ≡ list_after s rows n }
    {
        self.replay.list.ids()
    }

    /// Returns what the row with this number did, if it is the last row processed and it polled.
    pub fn polled(&self, number: u32) -> Option<PollRecord>
        ensures { (s : ReplaySettings) (rows : List Row) → IsAfter s rows number self.now
            → result ≡ polled_after s rows number }
    {
        match self.replay.lines.last() {
            Some(line) if line.row() == number => Some(*line),
            _ => None,
        }
    }

    /// The polls of the last row processed, in order, if it is a softirq row; otherwise there are none.
    pub fn polls(&self) -> &[RunPoll]
        ensures few { length result.now ≤ 65535 }
        ensures polls { (s : ReplaySettings) (rows : List Row) (n : ℕ) → IsAfter s rows n self.now
            → result.now ≡ polls_of_row s rows n }
    {
        self.log.polls.as_slice()
    }

    /// The numbers on the poll list before the last row processed, if that is a softirq row; otherwise there are none.
    pub fn list_before(&self) -> &[u32]
        ensures { (s : ReplaySettings) (rows : List Row) (n : ℕ) → IsAfter s rows n self.now
            → result.now ≡ list_before s rows n }
    {
        self.log.list.as_slice()
    }
}
