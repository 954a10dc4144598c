//! A whole replay on one thread.

ghost use Rattle.std.specs.Prelude.{◌≡◌, Ok, Err, IfErr, OnOk};
ghost use Rattle.text_io.specs.Outside.{IsOutside};
ghost use Rattle.text_io.specs.Written.{IsFaultBy, LeavesText, Writes};
ghost use Rattle.replay_rows.specs.Answer.{replay_of};

use crate::replay::Replay;
use device_bench::SerialBench;
use std::alloc::Global;
use std::io::{Read, Write};
use text_io::{ReplayFault, ReplaySettings};

/// Replays a trace on one thread, and writes its report.
///
/// Nothing is written before the whole trace is read and processed. So nothing was written after any error but `OutputFailed`;
/// after that one, only a part of the report was. `OutOfMemory` may be returned instead of any other error.
pub fn replay_serial<R: Read + Drop, W: Write>(
    alloc: Global,
    reader: R,
    writer: &mut W,
    settings: &ReplaySettings,
) -> Result<(), ReplayFault>
    // The bytes written are the report of the rows of the bytes read.
    ensures written { OnOk result (Writes (λ bytes text. replay_of settings.now bytes ≡ Ok text)
        (R.remaining reader) (W.contents writer.old) (W.contents writer.new)) }

    // An error is that of the bytes read, unless the reader, an allocation or the writer failed.
    ensures fault { IfErr result (IsFaultBy IsOutside
        (λ bytes fault. replay_of settings.now bytes ≡ Err fault) (R.remaining reader)) }

    // If the output failed, only a part of the report was written; after any other error, nothing was.
    ensures output { IfErr result (LeavesText (λ bytes text. replay_of settings.now bytes ≡ Ok text)
        (R.remaining reader) (W.contents writer.old) (W.contents writer.new)) }
{
    let mut replay = Replay::new(SerialBench::new(alloc)?, Vec::new(alloc));
    replay.write_report(alloc, reader, writer, settings)
}
