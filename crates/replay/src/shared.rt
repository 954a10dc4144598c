//! A whole replay in shared mode.

ghost use Rattle.std.specs.Prelude.{IfErr, OnOk};
ghost use Rattle.text_io.specs.Outside.{IsOutside};
ghost use Rattle.text_io.specs.Written.{IsFaultBy, LeavesText, Writes};
ghost use Rattle.replay_rows.specs.Answer.{IsFaultOfTrace};
ghost use Rattle.replay.specs.SharedRun.{RanShared};

use device_shared::SharedBench;
use replay_rows::Replay;
use std::alloc::Global;
use std::io::{Read, Write};
use std::sync::Wait;
use text_io::{ReplayFault, ReplaySettings};

/// Replays a trace by one thread on instances that threads could share, and writes its report. That the report is the one that
/// [`replay_serial`](replay_rows::replay_serial) writes is tested, and no clause says so.
///
/// Nothing is written before the whole trace is read and processed. So nothing was written after any error but `OutputFailed`;
/// after that one, only a part of the report was. `OutOfMemory` may be returned instead of any other error. Finally, even after
/// an error, the bench is ended, which may wait: each instance is closed, and all packets in its ring are polled.
pub fn replay_shared<H: Wait + Copy + Drop, R: Read + Drop, W: Write>(
    rt: H,
    alloc: Global,
    reader: R,
    writer: &mut W,
    settings: &ReplaySettings,
) -> Result<(), ReplayFault>
    // The bytes written are some text.
    ensures written { OnOk result (Writes (λ bytes text. Unit)
        (R.remaining reader) (W.contents writer.old) (W.contents writer.new)) }

    // An error is the first one of the trace, or of an enable row that meets a pending disable; unless the reader, an allocation
    // or the writer failed.
    ensures fault { IfErr result (IsFaultBy IsOutside IsFaultOfTrace (R.remaining reader)) }

    // If the output failed, only a part of the text was written; after any other error, nothing was.
    ensures output { IfErr result (LeavesText (λ bytes text. Unit)
        (R.remaining reader) (W.contents writer.old) (W.contents writer.new)) }

    // The rows were processed on shared instances, each of which was closed at the end.
    ensures run { OnOk result (RanShared (R.remaining reader)) }
{
    let bench = SharedBench::new(rt, alloc)?;
    let mut replay = Replay::new(bench, Vec::new(alloc));
    let replayed = replay.write_report(alloc, reader, writer, settings);
    let _ends = replay.into_bench().end();
    replayed
}
