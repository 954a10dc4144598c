//! The text of a line of the series.

ghost use Rattle.std.specs.Prelude.{◌≡◌, ◌≤◌, ◌++◌, List, OnOk, length, string_bytes};
ghost use Rattle.device_rows.specs.declared.row.Row.{Row};
ghost use Rattle.replay_rows.specs.After.{IsAfter};
ghost use Rattle.replay_rows.specs.Report.{lines_below};
ghost use Rattle.text_io.specs.declared.settings.ReplaySettings.{ReplaySettings};
ghost use Rattle.napi_series.specs.Series.{device_fields, gave, is_absent, is_poll_of, list_fields, poll_fields, polls_by, queue_fields, row_fields, row_gave, run_fields, run_gave, word_field, work_by};

use device_bench::DeviceCounts;
use device_places::TABLE_LEN;
use device_rows::Row;
use poll_runs::Next;
use replay_rows::{PollRecord, RunPoll, SerialReplay, add_numbers, state_word};
use std::alloc::AllocError;

fn add_row(text: &mut String, number: u32, row: &Row) -> Result<(), AllocError>
    ensures { OnOk result
        (string_bytes text.new ≡ string_bytes text.old ++ row_fields number row.now) }
{
    write!(text, "{},{},{}", number, row.moment, row.device)?;
    Ok(())
}

pub(crate) fn add_device(text: &mut String, counts: Option<DeviceCounts>) -> Result<(), AllocError>
    ensures { OnOk result (string_bytes text.new ≡ string_bytes text.old ++ device_fields counts) }
{
    match counts {
        Some(counts) => write!(
            text,
            ",{},{},{},{},{}",
            state_word(counts.state),
            counts.left,
            counts.arrived,
            counts.dropped,
            counts.polled
        )?,
        None => text.push_str(",,,,,")?,
    }
    Ok(())
}

pub(crate) fn add_queue(
    text: &mut String,
    used: bool,
    counts: Option<DeviceCounts>,
) -> Result<(), AllocError>
    ensures { OnOk result
        (string_bytes text.new ≡ string_bytes text.old ++ queue_fields used counts) }
{
    match counts {
        Some(counts) if used => {
            let queue = counts.tx.state;
            write!(
                text,
                ",{},{},{},{}",
                queue.queued.wrapping_sub(queue.completed),
                queue.limit,
                queue.avail,
                u8::from(queue.stopped)
            )?
        }
        _ => text.push_str(",,,,")?,
    }
    Ok(())
}

fn add_run(text: &mut String, polled: Option<PollRecord>) -> Result<(), AllocError>
    ensures { OnOk result (string_bytes text.new ≡ string_bytes text.old ++ run_fields polled) }
{
    match polled {
        Some(PollRecord::Softirq { run, .. }) => write!(
            text,
            ",{},{},{}",
            run.polls,
            run.work,
            u8::from(run.squeezed)
        )?,
        Some(PollRecord::Kthread { report, .. }) => {
            write!(text, ",{},{},", report.polls, report.work)?
        }
        Some(PollRecord::Busy { report, .. }) => {
            write!(text, ",{},{},", report.polls, report.work)?
        }
        None => text.push_str(",,,")?,
    }
    Ok(())
}

pub(crate) fn add_word(text: &mut String, counts: Option<DeviceCounts>) -> Result<(), AllocError>
    ensures { OnOk result (string_bytes text.new ≡ string_bytes text.old ++ word_field counts) }
{
    match counts {
        Some(counts) => write!(text, ",{}", counts.word)?,
        None => text.push_str(",")?,
    }
    Ok(())
}

/// Appends the fields after the row's own: those of its device, of the device's transmit side if it had a tx or done row, what
/// the row polled, and the device's state word.
pub(crate) fn add_poll(
    text: &mut String,
    number: u32,
    row: &Row,
    used: bool,
    counts: Option<DeviceCounts>,
    polled: Option<PollRecord>,
) -> Result<(), AllocError>
    ensures { OnOk result (string_bytes text.new
        ≡ string_bytes text.old ++ poll_fields number row.now used counts polled) }
{
    add_row(text, number, row)?;
    add_device(text, counts)?;
    add_queue(text, used, counts)?;
    add_run(text, polled)?;
    add_word(text, counts)
}

// Appends how many packets a device processed by this many polls, if there was one.
fn add_gave(text: &mut String, device: u32, polls: u32, work: u64) -> Result<(), AllocError>
    ensures { OnOk result
        (string_bytes text.new ≡ string_bytes text.old ++ gave device polls work) }
{
    if polls != 0 {
        write!(text, " {}:{}", device, work)?;
    }
    Ok(())
}

fn is_absent(next: Next) -> bool
    ensures { result ≡ is_absent next }
{
    match next {
        Next::Absent => true,
        Next::Gone | Next::Again(_) | Next::Repoll => false,
    }
}

// Returns whether a poll found this device on the list.
fn is_poll_of(device: u32, poll: &RunPoll) -> bool
    ensures { result ≡ is_poll_of device poll.now }
{
    poll.device == device && !is_absent(poll.once.next)
}

// Returns 1 for a poll of this device, and 0 for any other.
fn polls_by(device: u32, poll: &RunPoll) -> u32
    ensures polls { result ≡ polls_by device poll.now }
    ensures range { result ≤ 1 }
{
    if is_poll_of(device, poll) { 1 } else { 0 }
}

// Returns the packets of a poll of this device, and 0 for any other.
fn work_by(device: u32, poll: &RunPoll) -> u64
    ensures work { result ≡ work_by device poll.now }
    ensures range { result ≤ 4294967295 }
{
    if is_poll_of(device, poll) {
        u64::from(poll.once.work)
    } else {
        0
    }
}

// Appends how many packets a device processed in a run.
fn add_run_gave(text: &mut String, polls: &[RunPoll], device: u32) -> Result<(), AllocError>
    requires { length polls.now ≤ 65535 }
    ensures { OnOk result
        (string_bytes text.new ≡ string_bytes text.old ++ run_gave polls.now device) }
{
    let mut count = 0;
    let mut work = 0;
    for poll in polls {
        count += polls_by(device, poll);
        work += work_by(device, poll);
    }
    add_gave(text, device, count, work)
}

// Appends how many packets each device processed in a run.
fn add_all_gave(text: &mut String, polls: &[RunPoll]) -> Result<(), AllocError>
    requires { length polls.now ≤ 65535 }
    ensures { OnOk result
        (string_bytes text.new ≡ string_bytes text.old ++ lines_below (run_gave polls.now) 17) }
{
    for device in 0..TABLE_LEN {
        add_run_gave(text, polls, device)?;
    }
    Ok(())
}

// Appends how many packets each device processed that the row polled.
fn add_row_gave(
    text: &mut String,
    polled: Option<PollRecord>,
    polls: &[RunPoll],
) -> Result<(), AllocError>
    requires { length polls.now ≤ 65535 }
    ensures { OnOk result
        (string_bytes text.new ≡ string_bytes text.old ++ row_gave polled polls.now) }
{
    match polled {
        Some(PollRecord::Softirq { .. }) => add_all_gave(text, polls),
        Some(PollRecord::Kthread { device, report, .. }) => {
            add_gave(text, device, report.polls, u64::from(report.work))
        }
        Some(PollRecord::Busy { device, report, .. }) => {
            add_gave(text, device, report.polls, u64::from(report.work))
        }
        None => Ok(()),
    }
}

/// Appends the poll list after the row with this number, and how many packets each device processed that the row polled.
pub(crate) fn add_list(
    text: &mut String,
    replay: &SerialReplay,
    number: u32,
) -> Result<(), AllocError>
    ensures { (s : ReplaySettings) (rows : List Row) → IsAfter s rows number replay.now
        → OnOk result (string_bytes text.new ≡ string_bytes text.old ++ list_fields s rows number) }
{
    text.push_str(",")?;
    add_numbers(text, replay.list())?;
    text.push_str(",")?;
    add_row_gave(text, replay.polled(number), replay.polls())
}
