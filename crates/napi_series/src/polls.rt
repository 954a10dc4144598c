//! The lines of a run's polls.

ghost use Rattle.std.specs.Prelude.{◌≡◌, ◌+◌, ◌++◌, ◌∷◌, [], ℕ, List, IfOk, OnOk, length, string_bytes};
ghost use Rattle.device_rows.specs.declared.row.Row.{Row};
ghost use Rattle.napi_series.specs.Series.{ending, list_left, once_end, once_fields, polls_part};
ghost use Rattle.napi_series.specs.RunList.{IsListAfter};
ghost use Rattle.text_io.specs.declared.settings.ReplaySettings.{ReplaySettings};
ghost use Rattle.replay_rows.specs.After.{IsAfter};
ghost use Rattle.replay_rows.specs.Report.{spaced};
ghost use Rattle.replay_rows.specs.declared.run_log.RunPoll.{RunPoll};

use crate::line::{add_device, add_queue, add_word};
use device_rows::Row;
use napi_model::Kind;
use poll_runs::Next;
use replay_rows::{RunPoll, SerialReplay, add_numbers};
use std::alloc::{AllocError, Global};

/// The poll list in the course of a run: what was on it at first and what polls queued, and the numbers of the repolls.
#[derive(Drop)]
pub(crate) struct RunList {
    queue: Vec<u32>,
    repolls: Vec<u32>,
}

impl RunList {
    // Returns the list before a run.
    fn new(alloc: Global, list: &[u32]) -> Result<RunList, AllocError>
        ensures { IfOk result (λ run. IsListAfter list.now [] run) }
    {
        let queue = list.to_vec(alloc)?;
        Ok(RunList {
            queue,
            repolls: Vec::new(alloc),
        })
    }

    // Adds a poll.
    fn hand_on(&mut self, poll: &RunPoll) -> Result<(), AllocError>
        ensures { OnOk result ((list : List ℕ) (polls : List RunPoll)
            → IsListAfter list polls self.old
            → IsListAfter list (polls ++ poll.now ∷ []) self.new) }
    {
        match poll.once.next {
            Next::Again(Kind::List) => Ok(self.queue.push(poll.device)?),
            Next::Repoll => Ok(self.repolls.push(poll.device)?),
            Next::Again(Kind::Thread) => Ok(()),
            Next::Gone => Ok(()),
            Next::Absent => Ok(()),
        }
    }

    // Appends the list as it is if the run ends after this many polls.
    fn add(&self, text: &mut String, count: usize) -> Result<(), AllocError>
        ensures { (list : List ℕ) (polls : List RunPoll) → IsListAfter list polls self.now
            → count ≡ length polls → OnOk result
            (string_bytes text.new ≡ string_bytes text.old ++ spaced (list_left list polls)) }
    {
        if count < self.queue.len() {
            add_numbers(text, &self.queue[count..])?;
        }
        add_numbers(text, self.repolls.as_slice())
    }
}

// Returns the name of how a poll ended.
fn ending(next: Next) -> &'static str
    ensures { result.now ≡ ending next }
{
    match next {
        Next::Absent => "absent",
        Next::Gone => "complete",
        Next::Again(_) => "again",
        Next::Repoll => "repoll",
    }
}

// Appends the fields of poll `count` of a row before the list: those of its device after it, and those of the poll.
fn add_once(
    text: &mut String,
    number: u32,
    row: &Row,
    count: usize,
    used: bool,
    poll: &RunPoll,
) -> Result<(), AllocError>
    ensures { OnOk result (string_bytes text.new
        ≡ string_bytes text.old ++ once_fields number count row.now used poll.now) }
{
    write!(text, "{}.{},{},{}", number, count, row.moment, poll.device)?;
    add_device(text, poll.counts)?;
    add_queue(text, used, poll.counts)?;
    write!(text, ",1,{},", poll.once.work)?;
    add_word(text, poll.counts)
}

// Appends the packets of a poll, and how it ended.
fn add_once_end(text: &mut String, poll: &RunPoll) -> Result<(), AllocError>
    ensures { OnOk result (string_bytes text.new ≡ string_bytes text.old ++ once_end poll.now) }
{
    writeln!(
        text,
        ", {}:{},{}",
        poll.device,
        poll.once.work,
        ending(poll.once.next)
    )?;
    Ok(())
}

/// Appends a line for each poll of the row with this number, if it is a run.
pub(crate) fn add_polls(
    alloc: Global,
    text: &mut String,
    number: u32,
    row: &Row,
    replay: &SerialReplay,
) -> Result<(), AllocError>
    ensures { (s : ReplaySettings) (rows : List Row) → IsAfter s rows number replay.now
        → OnOk result
        (string_bytes text.new ≡ string_bytes text.old ++ polls_part s rows number row.now) }
{
    let mut list = RunList::new(alloc, replay.list_before())?;
    for (k, poll) in replay.polls().iter().enumerate() {
        list.hand_on(poll)?;
        add_once(
            text,
            number,
            row,
            k + 1,
            replay.uses_transmit(poll.device),
            poll,
        )?;
        text.push_str(",")?;
        list.add(text, k + 1)?;
        add_once_end(text, poll)?;
    }
    Ok(())
}
