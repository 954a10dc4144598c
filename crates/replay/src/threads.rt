//! A whole run with threads: from the bytes of a trace to the bytes of a report.

ghost use Rattle.std.specs.Prelude.{◌≡◌, [], ℕ, List, Ok, Err, Some, IfErr, IfOk, OnOk, map, vec_items};
ghost use Rattle.std.specs.Borrow.{Bor};
ghost use Rattle.std.specs.List.{AllZip};
ghost use Rattle.device_rows.specs.Trace.{records_of, trace_of};
ghost use Rattle.device_rows.specs.declared.row.Row.{Row};
ghost use Rattle.poll_engine.specs.Asks.{IsAsked};
ghost use Rattle.replay.specs.ThreadsAnswer.{IsPolledDevice, IsThreadsOutside, RanBy, threads_of};
ghost use Rattle.replay.specs.ThreadsStations.{polled_of};
ghost use Rattle.text_io.specs.declared.fault.ReplayFault.TheVariants.{OutputFailed};
ghost use Rattle.replay.specs.ThreadsReport.{opened_devices};
ghost use Rattle.text_io.specs.Written.{IsFaultBy, LeavesText, Writes};

use crate::polled::Polled;
use crate::report::report_of;
use crate::script::ScriptDevice;
use crate::stations::run_rows;
use device_rows::{Row, read_trace};
use poll_engine::{Finished, Gate};
use std::alloc::{AllocError, Global};
use std::io::{Read, Write};
use std::sync::Wait;
use std::thread::Threads;
use text_io::{ReplayFault, ReplaySettings, write_text};

// Returns the counts of the polls of each device.
fn all_polled(alloc: Global, ends: &[Finished<ScriptDevice>]) -> Result<Vec<Polled>, AllocError>
    ensures { IfOk result (λ all. vec_items all ≡ map polled_of ends.now) }
{
    let mut all = Vec::with_capacity(alloc, ends.len())?;
    for end in ends {
        all.push(Polled {
            device: end.number,
            polled: end.totals.polled,
            left: end.totals.left,
        })?;
    }
    Ok(all)
}

/// Replays a trace with threads, and writes its report. An interrupt worker for each device makes the device's acts in order.
/// As many pollers as the settings ask for poll the devices, and each device that is ever threaded has its own thread. The gate
/// is asked before each act. Returns the counts of the polls of each device, by increasing number.
///
/// The report shows what arrived and the transmit sides, and depends on no setting. Softirq and kthread rows do nothing; a
/// disable waits until no caller owns the instance.
///
/// Fails with `RingTooSmall` before any worker starts, for the device with the lowest number whose ring can't hold all packets
/// that arrive there; with `GateShut` if the gate returns false; with `SpawnFailed` if a thread can't be started. Then all
/// threads have ended. Nothing is written before the whole run is over. So nothing was written after any error but
/// `OutputFailed`; after that one, only a part of the report was. `OutOfMemory` may be returned instead of any other error.
pub fn replay_threads<P, R, W, G>(
    rt: &P,
    alloc: Global,
    reader: R,
    writer: &mut W,
    settings: &ReplaySettings,
    gate: &G,
) -> Result<Vec<Polled>, ReplayFault>
where
    P: Threads + Wait + Sync,
    R: Read + Drop,
    W: Write,
    G: Gate + Sync,
    // The bytes written are the report in threads mode of the rows of the bytes read.
    ensures written { OnOk result (Writes (λ bytes text. threads_of bytes ≡ Ok text)
        (R.remaining reader) (W.contents writer.old) (W.contents writer.new)) }
    // For each device that they open, the packets polled and left are those that arrived.
    ensures polled { IfOk result (λ all. (bytes : List ℕ) → R.remaining reader ≡ Some bytes
        → (rows : List Row) × (trace_of (records_of bytes) ≡ Ok rows)
        × AllZip (IsPolledDevice rows) (opened_devices rows) (vec_items all)) }
    // These are the counts of devices that ended as the rows say, each with the one history of its closed instance. They were
    // polled by as many pollers as the settings ask for, with the settings' budget, weight and window.
    ensures run { IfOk result (λ all. RanBy (Bor P) (IsAsked G.answers gate.now) settings.now
        (R.remaining reader) (vec_items all)) }
    // An error is that of the bytes read, unless the reader, an allocation, the writer or a thread failed, or the gate stopped
    // the run, if the gate may do that.
    ensures fault { IfErr result (IsFaultBy (IsThreadsOutside G.may_shut)
        (λ bytes fault. threads_of bytes ≡ Err fault) (R.remaining reader)) }
    // If the output failed, only a part of the report was written; after any other error, nothing was.
    ensures output { IfErr result (LeavesText (λ bytes text. threads_of bytes ≡ Ok text)
        (R.remaining reader) (W.contents writer.old) (W.contents writer.new)) }
{
    let trace = read_trace(alloc, reader)?;
    let ends = run_rows(rt, alloc, trace.rows(), settings, gate)?;
    let text = report_of(alloc, ends.as_slice())?;
    let polled = all_polled(alloc, ends.as_slice())?;
    write_text(writer, text.as_bytes())?;
    Ok(polled)
}
