//! The text of the report, for all modes that process rows.

ghost use Rattle.std.specs.Prelude.{◌≡◌, ◌+◌, ◌^◌, ◌<◌, ◌≤◌, ◌++◌, Some, OnOk, flat_map, length, string_bytes};
ghost use Rattle.replay_rows.specs.Report.{device_line, device_lines, held_part, list_line, napi_line, of_run, poll_line, spaced, state_word, total_line, run_totals};
ghost use Rattle.text_io.specs.Lines.{with_newline, flag};

use crate::line::PollRecord;
use crate::replay::Replay;
use crate::transmit_line::add_transmit;
use device_bench::{DeviceCounts, DeviceState, ReceiveSide};
use device_places::TABLE_LEN;
use poll_runs::PollList;
use std::alloc::{AllocError, Global};
use std::fmt;

// Appends the line of each row that polled.
fn add_lines(text: &mut String, lines: &[PollRecord]) -> Result<(), AllocError>
    ensures { OnOk result
        (string_bytes text.new ≡ string_bytes text.old
        ++ flat_map (λ line. with_newline (poll_line line)) lines.now) }
{
    for line in lines {
        add_line(text, line)?;
    }
    Ok(())
}

fn add_line(text: &mut String, line: &PollRecord) -> Result<(), AllocError>
    ensures { OnOk result
        (string_bytes text.new ≡ string_bytes text.old ++ with_newline (poll_line line.now)) }
{
    match line {
        PollRecord::Softirq { row, run } => writeln!(
            text,
            "softirq {} polls {} work {} squeezed {}",
            row,
            run.polls,
            run.work,
            u8::from(run.squeezed)
        )?,
        PollRecord::Kthread {
            row,
            device,
            report,
        } => writeln!(
            text,
            "kthread {} device {} polls {} work {}",
            row, device, report.polls, report.work
        )?,
        PollRecord::Busy {
            row,
            device,
            report,
        } => writeln!(
            text,
            "busy {} device {} polls {} work {}",
            row, device, report.polls, report.work
        )?,
    }
    Ok(())
}

// Appends the lines of a device: two, and a third one if its transmit side had a tx or done row.
fn add_device(
    text: &mut String,
    version: u32,
    number: u32,
    used: bool,
    counts: &DeviceCounts,
) -> Result<(), AllocError>
    ensures { OnOk result (string_bytes text.new
        ≡ string_bytes text.old ++ device_lines version number used (Some counts.now)) }
{
    add_device_line(text, number, counts)?;
    add_napi_line(text, version, number, counts)?;
    if used {
        add_transmit(text, number, &counts.tx)?;
    }
    Ok(())
}

/// Returns the name of a device's state.
pub fn state_word(state: DeviceState) -> &'static str
    ensures { result.now ≡ state_word state }
{
    match state {
        DeviceState::On => "on",
        DeviceState::Off => "off",
        DeviceState::Pending => "pending",
    }
}

fn add_device_line(text: &mut String, number: u32, counts: &DeviceCounts) -> Result<(), AllocError>
    ensures { OnOk result
        (string_bytes text.new ≡ string_bytes text.old
        ++ with_newline (device_line number counts.now)) }
{
    writeln!(
        text,
        "device {} {} arrived {} dropped {} polled {} bytes {} left {} polls {}",
        number,
        state_word(counts.state),
        counts.arrived,
        counts.dropped,
        counts.polled,
        counts.bytes,
        counts.left,
        counts.polls
    )?;
    Ok(())
}

// Appends the completions that returned Held, in version 2.
fn add_held(text: &mut String, version: u32, held: u64) -> Result<(), AllocError>
    ensures { OnOk result
        (string_bytes text.new ≡ string_bytes text.old ++ held_part version held) }
{
    if version == 2 {
        write!(text, " held {held}")?;
    }
    Ok(())
}

fn add_napi_line(
    text: &mut String,
    version: u32,
    number: u32,
    counts: &DeviceCounts,
) -> Result<(), AllocError>
    ensures { OnOk result
        (string_bytes text.new ≡ string_bytes text.old
        ++ with_newline (napi_line version number counts.now)) }
{
    write!(
        text,
        "napi {} granted {} missed {} disabled {} again {} released {} word {}",
        number,
        counts.granted,
        counts.missed,
        counts.disabled,
        counts.again,
        counts.released,
        counts.word
    )?;
    add_held(text, version, counts.held)?;
    text.push_str("\n")?;
    Ok(())
}

// Appends the line of the poll list.
fn add_list(text: &mut String, list: &[u32]) -> Result<(), AllocError>
    ensures { OnOk result
        (string_bytes text.new ≡ string_bytes text.old ++ with_newline (list_line list.now)) }
{
    text.push_str("list")?;
    add_numbers(text, list)?;
    text.push_str("\n")?;
    Ok(())
}

/// Appends the numbers, each preceded by a space.
pub fn add_numbers(text: &mut String, numbers: &[u32]) -> Result<(), AllocError>
    ensures { OnOk result (string_bytes text.new ≡ string_bytes text.old ++ spaced numbers.now) }
{
    for number in numbers {
        write!(text, " {number}")?;
    }
    Ok(())
}

/// The sums in the last line: the opened devices, and sums over the runs of all softirq rows.
#[derive(Clone, Copy)]
pub(crate) struct RunTotals {
    /// Opened devices.
    pub devices: usize,
    /// Runs of the softirq.
    pub runs: u64,
    /// Polls of these runs.
    pub polls: u64,
    /// Packets that these polls processed.
    pub work: u64,
    /// Runs that were squeezed.
    pub squeezed: u64,
}

impl fmt::Display for RunTotals {
    ghost use Rattle.std.specs.Prelude.{Some};
    ghost use Rattle.replay_rows.specs.Report.{total_line};

    ghost output = { λ totals. Some (total_line totals) };

    fn fmt<W: fmt::Write>(&self, f: &mut fmt::Formatter<W>) -> fmt::Result {
        write!(
            f,
            "total devices {} runs {} polls {} work {} squeezed {}",
            self.devices, self.runs, self.polls, self.work, self.squeezed
        )
    }
}

impl RunTotals {
    // Adds the run of a softirq row. A thread's polling and busy polling aren't runs, and add nothing.
    fn add(&mut self, line: &PollRecord)
        requires { (self.old.runs < 2 ^ 63) × (self.old.polls < 2 ^ 63) × (self.old.work < 2 ^ 63)
            × (self.old.squeezed < 2 ^ 63) }
        ensures devices { self.new.devices ≡ self.old.devices }
        ensures runs { self.new.runs ≡ self.old.runs + of_run (λ run. 1) line.now }
        ensures polls { self.new.polls ≡ self.old.polls + of_run (λ run. run.polls) line.now }
        ensures work { self.new.work ≡ self.old.work + of_run (λ run. run.work) line.now }
        ensures squeezed { self.new.squeezed ≡ self.old.squeezed
            + of_run (λ run. flag run.squeezed) line.now }
        ensures few { (self.new.runs ≤ self.old.runs + 1)
            × (self.new.squeezed ≤ self.old.squeezed + 1) }
        ensures most { (self.new.polls ≤ self.old.polls + 4294967295)
            × (self.new.work ≤ self.old.work + 4294967295) }
    {
        if let PollRecord::Softirq { run, .. } = line {
            self.runs += 1;
            self.polls += u64::from(run.polls);
            self.work += u64::from(run.work);
            self.squeezed += u64::from(run.squeezed);
        }
    }

    /// Returns the sums over these rows.
    pub(crate) fn of(devices: usize, lines: &[PollRecord]) -> RunTotals
        requires { length lines.now ≤ 100000 }
        ensures { result ≡ run_totals devices lines.now }
    {
        let mut totals = RunTotals {
            devices,
            runs: 0,
            polls: 0,
            work: 0,
            squeezed: 0,
        };
        for line in lines {
            totals.add(line);
        }
        totals
    }
}

// Appends the last line.
fn add_totals(text: &mut String, totals: &RunTotals) -> Result<(), AllocError>
    ensures { OnOk result
        (string_bytes text.new ≡ string_bytes text.old ++ with_newline (total_line totals.now)) }
{
    writeln!(text, "{totals}")?;
    Ok(())
}

impl<S: ReceiveSide> Replay<S> {
    ghost use Rattle.std.specs.Prelude.{◌≡◌, ◌++◌, IfOk, OnOk, string_bytes, true};
    ghost use Rattle.device_bench.specs.{DeviceBench.ShowsTransmits, Transmits.Transmits};
    ghost use Rattle.replay_rows.specs.Played.{replay_state};
    ghost use Rattle.replay_rows.specs.Report.{lines_below, lines_of, serial_text};

    // Appends the lines of each device, by increasing number.
    fn add_devices(&self, version: u32, text: &mut String) -> Result<(), AllocError>
        ensures { S.exact ≡ true → (all : Transmits) → ShowsTransmits self.now.bench all
            → OnOk result (string_bytes text.new ≡ string_bytes text.old
            ++ lines_below (lines_of version (replay_state self.now) all) 17) }
    {
        for number in 0..TABLE_LEN {
            if self.bench.is_attached(number) {
                let used = self.bench.uses_transmit(number);
                add_device(text, version, number, used, &self.bench.counts(number))?;
            }
        }
        Ok(())
    }

    /// Returns the text of the report, for a trace of this version.
    #[tactic(auto, unfolding(crate::specs::Report::text_by))]
    pub(crate) fn report(&self, alloc: Global, version: u32) -> Result<String, AllocError>
        requires { length self.now.lines.items ≤ 100000 }
        ensures { S.exact ≡ true → (all : Transmits) → ShowsTransmits self.now.bench all
            → IfOk result
            (λ text. string_bytes text ≡ serial_text version (replay_state self.now)
            all) }
    {
        let mut text = String::new(alloc);
        add_lines(&mut text, self.lines.as_slice())?;
        self.add_devices(version, &mut text)?;
        add_list(&mut text, self.list.ids())?;
        let totals = RunTotals::of(self.bench.attached(), self.lines.as_slice());
        add_totals(&mut text, &totals)?;
        Ok(text)
    }
}
