//! A whole replay on one thread, from a trace in the caller's memory to a report in the caller's memory; and a trace with the runs
//! that the kernel adds.

ghost use Rattle.std.specs.Prelude.{◌≡◌, ◌≢◌, ◌<◌, ◌⊎◌, ◌↔◌, Ok, Err, IfOk, IfErr, IsTrue, Some, length, take, drop};
ghost use Rattle.text_io.specs.Outside.{IsOutside};
ghost use Rattle.replay_rows.specs.Answer.{replay_of};
ghost use Rattle.replay_raised.specs.RaisedTrace.{raised_trace};
ghost use Rattle.files_c.specs.Status.{FILES_OK, FILES_NO_ROOM, FILES_BAD_SIZE, FILES_BAD_TRACE};
ghost use Rattle.files_c.specs.ReplayFaults.{fault_status};
ghost use Rattle.files_c.specs.Replay.{IsCallResult, AreSettingsOf, HasReplaySizes, HasWeight, HasBudget, Lacks, ReportsFault, computed_by};

use crate::replay_fault::{fault_status, row_of};
use crate::status;
use replay_raised::raise_trace;
use replay_rows::replay_serial;
use std::alloc::Global;
use std::mem::size_of;
use text_io::{ReplayFault, ReplaySettings};

/// The settings of a replay: `struct fq_settings`.
#[repr(C)]
#[derive(Clone, Copy)]
pub struct FqSettings {
    /// The size of this struct in bytes, which the caller sets.
    pub size: usize,
    /// Packets that a run polls before it is squeezed, 1 to 65535 (`netdev_budget`).
    pub budget: u32,
    /// Packets that one poll may process, 1 to 64 (`NAPI_POLL_WEIGHT`).
    pub weight: u32,
    /// Polls that a run makes before it is squeezed, 1 to 65535; it takes the place of the kernel's `netdev_budget_usecs`.
    pub window: u32,
}

/// The result of a replay besides its status: `struct fq_replayed`.
#[repr(C)]
#[derive(Clone, Copy)]
pub struct FqReplayed {
    /// The size of this struct in bytes, which the caller sets.
    pub size: usize,
    /// The length of the report in bytes, even if there is no room for it; 0 if there is none.
    pub length: usize,
    /// The number of the trace's error, 1 to 12; 0 if it has none.
    pub fault: u32,
    /// The row that the error names; 0 if it names none.
    pub row: u32,
}

impl FqReplayed {
    const SIZE: usize = size_of::<FqReplayed>();
}

// Returns whether the caller set the sizes of both structs.
fn has_sizes(settings: &FqSettings, replayed: &FqReplayed) -> bool
    ensures { IsTrue result ↔ HasReplaySizes settings.now replayed.now }
{
    settings.size == size_of::<FqSettings>() && replayed.size == FqReplayed::SIZE
}

// Returns the settings with these numbers, or the status of the first that is out of its range.
fn asked_by(settings: &FqSettings) -> Result<ReplaySettings, u32>
    ensures asked { IfOk result
        (λ s. AreSettingsOf settings.now s × HasWeight settings.now × HasBudget settings.now) }
    ensures refused { IfErr result (λ status. Lacks settings.now status) }
{
    if settings.weight == 0 || settings.weight > 64 {
        return Err(status::BAD_WEIGHT);
    }
    match ReplaySettings::new(1, settings.budget, settings.weight, settings.window) {
        Some(asked) => Ok(asked),
        None => Err(status::BAD_BUDGET),
    }
}

// Returns the report of a trace; or with a number of restarts, the trace with the runs that the kernel adds.
fn text_of(
    alloc: Global,
    settings: &ReplaySettings,
    restarts: Option<u32>,
    trace: &[u8],
) -> Result<Vec<u8>, ReplayFault>
    ensures text { IfOk result
        (λ text. computed_by restarts settings.now trace.now ≡ Ok text.items) }
    ensures fault { IfErr result (λ fault. IsOutside fault
        ⊎ (computed_by restarts settings.now trace.now ≡ Err fault)) }
{
    let mut text = Vec::new(alloc);
    let computed = match restarts {
        None => replay_serial(alloc, trace, &mut text, settings),
        Some(_) => raise_trace(alloc, trace, &mut text, settings, restarts),
    };
    match computed {
        Ok(()) => Ok(text),
        Err(fault) => Err(fault),
    }
}

// Copies a report to the caller's array, if that has room for all of it.
fn put_report(text: &[u8], report: &mut [u8], replayed: &mut FqReplayed) -> u32
    ensures ok { result ≡ FILES_OK → take replayed.new.length report.new ≡ text.now }
    ensures no_room { result ≢ FILES_OK → (result ≡ FILES_NO_ROOM)
        × (length report.old < length text.now) }
    ensures rest { drop (length text.now) report.new ≡ drop (length text.now) report.old }
    ensures length { replayed.new.length ≡ length text.now }
    ensures kept { result ≢ FILES_OK → report.new ≡ report.old }
    ensures faultless { (replayed.new.fault ≡ replayed.old.fault)
        × (replayed.new.row ≡ replayed.old.row) }
{
    replayed.length = text.len();
    if report.len() < text.len() {
        return status::NO_ROOM;
    }
    report[..text.len()].copy_from_slice(text);
    status::OK
}

// Reports an error of the trace by its numbers.
fn report_fault(fault: &ReplayFault, replayed: &mut FqReplayed) -> u32
    ensures status { result ≡ fault_status fault.now }
    ensures reported { result ≡ FILES_BAD_TRACE → ReportsFault fault.now replayed.new }
    ensures unreported { result ≢ FILES_BAD_TRACE → replayed.new ≡ replayed.old }
{
    let status = fault_status(fault);
    if status == status::BAD_TRACE {
        *replayed = FqReplayed {
            size: FqReplayed::SIZE,
            length: 0,
            fault: u32::from(fault.number()),
            row: row_of(fault),
        };
    }
    status
}

// Computes the report of a trace, or the trace with added runs, and writes it to the caller's array.
fn answer(
    alloc: Global,
    settings: &FqSettings,
    restarts: Option<u32>,
    trace: &[u8],
    to: &mut [u8],
    replayed: &mut FqReplayed,
) -> u32
    ensures { IsCallResult (computed_by restarts) settings.now trace.now to.old to.new replayed.new
        result }
{
    *replayed = FqReplayed {
        size: FqReplayed::SIZE,
        length: 0,
        fault: 0,
        row: 0,
    };
    match asked_by(settings) {
        Ok(asked) => match text_of(alloc, &asked, restarts, trace) {
            Ok(text) => put_report(text.as_slice(), to, replayed),
            Err(fault) => report_fault(&fault, replayed),
        },
        Err(status) => status,
    }
}

/// Like `replay_serial`, from the bytes of a trace to an array: the report is the first `length` bytes of the array. Returns
/// OK; BAD_SIZE for one of the structs; NO_ROOM, and writes nothing; BAD_WEIGHT or BAD_BUDGET (also for the window); BAD_TRACE, with the numbers of its error;
/// or OUT_OF_MEMORY.
#[unsafe(no_mangle)]
pub extern "C" fn fq_replay_sized(
    alloc: Global,
    settings: &FqSettings,
    trace: &[u8],
    report: &mut [u8],
    replayed: &mut FqReplayed,
) -> u32
    ensures called { HasReplaySizes settings.now replayed.old → IsCallResult replay_of settings.now
        trace.now report.old report.new replayed.new result }
    ensures size { ¬ HasReplaySizes settings.now replayed.old → (result ≡ FILES_BAD_SIZE)
        × (report.new ≡ report.old) × (replayed.new ≡ replayed.old) }
{
    if !has_sizes(settings, replayed) {
        return status::BAD_SIZE;
    }
    answer(alloc, settings, None, trace, report, replayed)
}

/// Like `raise_trace`, from the bytes of a trace to an array: the trace with added runs, at most `restarts` after each softirq
/// row, is the first `length` bytes of the array. Returns what `fq_replay_sized` returns.
#[unsafe(no_mangle)]
pub extern "C" fn fq_raise_sized(
    alloc: Global,
    settings: &FqSettings,
    restarts: u32,
    trace: &[u8],
    raised: &mut [u8],
    replayed: &mut FqReplayed,
) -> u32
    ensures called { HasReplaySizes settings.now replayed.old
        → IsCallResult (λ s bytes. raised_trace s (Some restarts) bytes) settings.now trace.now
        raised.old raised.new replayed.new result }
    ensures size { ¬ HasReplaySizes settings.now replayed.old → (result ≡ FILES_BAD_SIZE)
        × (raised.new ≡ raised.old) × (replayed.new ≡ replayed.old) }
{
    if !has_sizes(settings, replayed) {
        return status::BAD_SIZE;
    }
    answer(alloc, settings, Some(restarts), trace, raised, replayed)
}
