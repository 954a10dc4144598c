//! The series of a trace: from the bytes of the trace to the bytes of the series.

ghost use Rattle.std.specs.Prelude.{◌≡◌, ◌≢◌, ◌⊎◌, ◌≤◌, ◌<◌, ◌+◌, ◌++◌, [], Some, Ok, Err, IfOk, IfErr, OnOk, List, length, slice_get, string_bytes};
ghost use Rattle.device_rows.specs.Trace.{AcceptedAfter};
ghost use Rattle.device_rows.specs.declared.row.Row.{Row};
ghost use Rattle.napi_series.specs.Series.{lines_after, names_end, part_after, row_end, row_part, series_by, series_of, series_of_raised};
ghost use Rattle.replay_rows.specs.After.{IsAfter};
ghost use Rattle.replay_raised.specs.RaisedTrace.{with_added_runs};
ghost use Rattle.replay_rows.specs.Replay.{after_all_rows};
ghost use Rattle.text_io.specs.Outside.{IsOutside, IsReplayOutOfMemory};
ghost use Rattle.text_io.specs.Written.{IsFaultBy, LeavesText, Writes};
ghost use Rattle.text_io.specs.declared.fault.ReplayFault.TheVariants.{OutputFailed};

use crate::line::{add_list, add_poll};
use crate::polls::add_polls;
use crate::settings::SeriesSettings;
use device_rows::{Row, Trace, read_trace};
use replay_raised::{raise_rows, raise_trace};
use replay_rows::SerialReplay;
use std::alloc::{AllocError, Global};
use std::io::{Read, Write};
use text_io::{ReplayFault, write_text};

const NAMES: &str =
    "row,moment,device,state,waiting,arrived,dropped,polled,in_flight,limit,avail,stopped,polls,work,squeezed,word,list,gave";

// Returns the end of the first line.
fn names_end(polls: bool) -> &'static str
    ensures { result.now ≡ names_end polls }
{
    if polls { ",ended\n" } else { "\n" }
}

// Returns the end of a row's line. With polls there is one more column, which rows leave empty.
fn row_end(polls: bool) -> &'static str
    ensures { result.now ≡ row_end polls }
{
    if polls { ",\n" } else { "\n" }
}

// Appends the line of the row with this number.
fn add_row_part(
    text: &mut String,
    settings: &SeriesSettings,
    number: u32,
    row: &Row,
    replay: &SerialReplay,
) -> Result<(), AllocError>
    ensures { (rows : List Row) → IsAfter settings.now.replay rows number replay.now
        → OnOk result (string_bytes text.new
        ≡ string_bytes text.old ++ row_part settings.now rows number row.now) }
{
    add_poll(
        text,
        number,
        row,
        replay.uses_transmit(row.device),
        replay.counts(row.device),
        replay.polled(number),
    )?;
    add_list(text, replay, number)?;
    text.push_str(row_end(settings.options.polls))?;
    Ok(())
}

// Appends the lines of the row with this number: those of its polls if they are wanted, and its own.
fn add_row_lines(
    alloc: Global,
    text: &mut String,
    settings: &SeriesSettings,
    number: u32,
    row: &Row,
    replay: &SerialReplay,
) -> Result<(), AllocError>
    ensures { (rows : List Row) → IsAfter settings.now.replay rows number replay.now
        → OnOk result (string_bytes text.new
        ≡ string_bytes text.old ++ lines_after settings.now rows number (Some row.now)) }
{
    if !settings.options.polls {
        return add_row_part(text, settings, number, row, replay);
    }
    add_polls(alloc, text, number, row, replay)?;
    add_row_part(text, settings, number, row, replay)?;
    Ok(())
}

// Appends the lines of the row with this index, if it has any.
fn add_part(
    alloc: Global,
    text: &mut String,
    settings: &SeriesSettings,
    rows: &[Row],
    index: usize,
    replay: &SerialReplay,
) -> Result<(), AllocError>
    requires count { length rows.now ≤ 100000 }
    requires index { index < length rows.now }
    requires after { IsAfter settings.now.replay rows.now (index + 1) replay.now }
    ensures { OnOk result
        (string_bytes text.new ≡ string_bytes text.old
        ++ part_after settings.now rows.now index (slice_get rows.now index)) }
{
    let number = index as u32 + 1;
    if number % settings.every() != 0 {
        return Ok(());
    }
    add_row_lines(alloc, text, settings, number, &rows[index], replay)
}

// Returns the series of the rows.
fn series_of(alloc: Global, settings: &SeriesSettings, rows: &[Row]) -> Result<String, ReplayFault>
    requires accepted { AcceptedAfter [] rows.now }
    requires count { length rows.now ≤ 100000 }
    ensures text { IfOk result (λ text. series_of settings.now rows.now ≡ Ok (string_bytes text)) }
    ensures fault { IfErr result (λ fault. IsReplayOutOfMemory fault
        ⊎ (after_all_rows settings.now.replay rows.now ≡ Err fault)) }
{
    let mut text = String::from_str(alloc, NAMES)?;
    text.push_str(names_end(settings.options.polls))?;
    let mut replay = SerialReplay::new(alloc, rows)?;
    for index in 0..rows.len() {
        replay.play_row(alloc, &settings.replay, rows, index)?;
        add_part(alloc, &mut text, settings, rows, index, &replay)?;
    }
    Ok(text)
}

// Returns the series of a trace's rows, with the added runs.
fn raised_series(
    alloc: Global,
    settings: &SeriesSettings,
    trace: &Trace,
) -> Result<String, ReplayFault>
    ensures text { IfOk result (λ text. series_of_raised settings.now
        (with_added_runs settings.now.replay settings.now.options.restarts trace.now.rows)
        ≡ Ok (string_bytes text)) }
    ensures fault { IfErr result (λ fault. IsReplayOutOfMemory fault
        ⊎ (series_of_raised settings.now
        (with_added_runs settings.now.replay settings.now.options.restarts trace.now.rows)
        ≡ Err fault)) }
    ensures unwritten { IfErr result (λ fault. fault ≢ OutputFailed) }
{
    match settings.options.restarts {
        Some(restarts) => {
            let rows = raise_rows(alloc, &settings.replay, restarts, trace.rows())?;
            series_of(alloc, settings, rows.as_slice())
        }
        None => series_of(alloc, settings, trace.rows()),
    }
}

/// Replays a trace on one thread, and writes its series, or its rows, as the settings say.
///
/// Nothing is written before the whole trace is read and processed. So nothing was written after any error but `OutputFailed`;
/// after that one, only a part of the text was. `OutOfMemory` may be returned instead of any other error.
pub(crate) fn write_series<R: Read + Drop, W: Write>(
    alloc: Global,
    reader: R,
    writer: &mut W,
    settings: &SeriesSettings,
) -> Result<(), ReplayFault>
    // The bytes written are the series of the rows of the bytes read.
    ensures written { OnOk result
        (Writes (λ bytes text. series_by settings.now bytes ≡ Ok text)
        (R.remaining reader) (W.contents writer.old) (W.contents writer.new)) }

    // An error is that of the bytes read, unless the reader, an allocation or the writer failed.
    ensures fault { IfErr result (IsFaultBy IsOutside
        (λ bytes fault. series_by settings.now bytes ≡ Err fault) (R.remaining reader)) }
    // If the output failed, only a part of the series was written; after any other error, nothing was.
    ensures output { IfErr result
        (LeavesText (λ bytes text. series_by settings.now bytes ≡ Ok text)
        (R.remaining reader) (W.contents writer.old) (W.contents writer.new)) }
{
    if settings.options.rows {
        let restarts = settings.options.restarts;
        return raise_trace(alloc, reader, writer, &settings.replay, restarts);
    }
    let trace = read_trace(alloc, reader)?;
    let text = raised_series(alloc, settings, &trace)?;
    write_text(writer, text.as_bytes())
}
