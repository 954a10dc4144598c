//! A trace with the runs that the kernel adds, from the bytes of a trace to the bytes of another.

ghost use Rattle.std.specs.Prelude.{◌≡◌, ◌≢◌, ◌⊎◌, Ok, Err, IfErr, IfOk, OnOk};
ghost use Rattle.text_io.specs.Outside.{IsOutside, IsReplayOutOfMemory};
ghost use Rattle.text_io.specs.Written.{IsFaultBy, LeavesText, Writes};
ghost use Rattle.replay_raised.specs.RaisedTrace.{raised_trace, with_added_runs, text_in};
ghost use Rattle.text_io.specs.declared.fault.ReplayFault.TheVariants.{OutputFailed};

use crate::raised::raise_rows;
use crate::rows_text::trace_text;
use device_rows::{Trace, read_trace};
use std::alloc::Global;
use std::io::{Read, Write};
use text_io::{ReplayFault, ReplaySettings, write_text};

// Returns the text of a trace with the added runs.
fn text_of(
    alloc: Global,
    settings: &ReplaySettings,
    restarts: Option<u32>,
    trace: &Trace,
) -> Result<Vec<u8>, ReplayFault>
    ensures text { IfOk result (λ text. text_in trace.now.version
        (with_added_runs settings.now restarts trace.now.rows) ≡ Ok (text.items)) }
    ensures fault { IfErr result (λ fault. IsReplayOutOfMemory fault
        ⊎ (text_in trace.now.version (with_added_runs settings.now restarts trace.now.rows)
        ≡ Err fault)) }
    ensures unwritten { IfErr result (λ fault. fault ≢ OutputFailed) }
{
    match restarts {
        Some(restarts) => {
            let rows = raise_rows(alloc, settings, restarts, trace.rows())?;
            Ok(trace_text(alloc, trace.version(), rows.as_slice())?)
        }
        None => Ok(trace_text(alloc, trace.version(), trace.rows())?),
    }
}

/// Writes a trace with the runs that the kernel adds, at most `restarts` after each softirq row, as [`raise_rows`] does. With
/// `None` it writes the trace's own rows, and plays none of them.
///
/// Nothing is written before the whole trace is read and processed. So nothing was written after any error but `OutputFailed`;
/// after that one, only a part of the trace was. `OutOfMemory` may be returned instead of any other error.
pub fn raise_trace<R: Read + Drop, W: Write>(
    alloc: Global,
    reader: R,
    writer: &mut W,
    settings: &ReplaySettings,
    restarts: Option<u32>,
) -> Result<(), ReplayFault>
    // The bytes written are the raised trace of the bytes read.
    ensures written { OnOk result
        (Writes (λ bytes text. raised_trace settings.now restarts bytes ≡ Ok text)
        (R.remaining reader) (W.contents writer.old) (W.contents writer.new)) }

    // An error is that of the bytes read, unless the reader, an allocation or the writer failed.
    ensures fault { IfErr result (IsFaultBy IsOutside
        (λ bytes fault. raised_trace settings.now restarts bytes ≡ Err fault)
        (R.remaining reader)) }

    // If the output failed, only a part of the trace was written; after any other error, nothing was.
    ensures output { IfErr result
        (LeavesText (λ bytes text. raised_trace settings.now restarts bytes ≡ Ok text)
        (R.remaining reader) (W.contents writer.old) (W.contents writer.new)) }
{
    let trace = read_trace(alloc, reader)?;
    let text = text_of(alloc, settings, restarts, &trace)?;
    write_text(writer, text.as_slice())
}
