//! A program that uses only `replay`: a replay on one thread, with the exit status of an error. Its contract on the output is
//! that of `replay_serial`.

ghost use Rattle.std.specs.Prelude.{◌≡◌, Ok, IfErr, OnOk};
ghost use Rattle.replay.specs.Answer.{replay_of};
ghost use Rattle.replay.specs.Fault.{replay_fault_status};
ghost use Rattle.replay.specs.ReplayFault.{ReplayFault};
ghost use Rattle.replay.specs.Written.{Writes};

use replay::{Settings, replay_serial, status};
use std::alloc::Global;
use std::io::{Read, Write};

/// Replays a trace with these settings, and writes its report. The error is the exit status.
pub fn replay<R: Read + Drop, W: Write>(
    alloc: Global,
    reader: R,
    writer: &mut W,
    settings: &Settings,
) -> Result<(), u8>
    ensures written { OnOk result (Writes (λ bytes text. replay_of settings.now bytes ≡ Ok text)
        (R.remaining reader) (W.contents writer.old) (W.contents writer.new)) }
    ensures status { IfErr result (λ s. (fault : ReplayFault) × (s ≡ replay_fault_status fault)) }
{
    replay_serial(alloc, reader, writer, settings).map_err(|fault| status(&fault))
}
