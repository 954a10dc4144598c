//! A whole replay on a bench: from the bytes of a trace to the bytes of a report.

use crate::replay::{Replay, room_for_lines};
use device_bench::{DeviceBench, ReceiveSide};
use device_rows::read_trace;
use std::alloc::Global;
use std::io::{Read, Write};
use text_io::{ReplayFault, ReplaySettings, write_text};

impl<S: ReceiveSide> Replay<S> {
    ghost use Rattle.std.specs.Prelude.{◌≡◌, true, Ok, Err, IfErr, OnOk};
    ghost use Rattle.device_bench.specs.DeviceBench.{ShowsTransmits, devices_of};
    ghost use Rattle.device_places.specs.Places.{empty};
    ghost use Rattle.text_io.specs.Outside.{IsOutside};
    ghost use Rattle.text_io.specs.Written.{IsFaultBy, LeavesText, Writes};
    ghost use Rattle.replay_rows.specs.Answer.{IsFaultOfTrace, OpensDevices, replay_of};
    ghost use Rattle.replay_rows.specs.Played.{replay_state};
    ghost use Rattle.replay_rows.specs.Replay.{start};

    /// Replays a trace on a bench that has no devices yet, and writes its report.
    ///
    /// Nothing is written before the whole trace is read and processed. So nothing was written after any error but
    /// `OutputFailed`; after that one, only a part of the report was. `OutOfMemory` may be returned instead of any other error.
    pub fn write_report<R: Read + Drop, W: Write>(
        &mut self,
        alloc: Global,
        reader: R,
        writer: &mut W,
        settings: &ReplaySettings,
    ) -> Result<(), ReplayFault>
        requires start { replay_state self.old ≡ start }
        requires transmits { ShowsTransmits self.old.bench empty }

        // The bytes written are a text: if the bench is exact, the report of the rows of the bytes read.
        ensures written { OnOk result (Writes
            (λ bytes text. S.exact ≡ true → replay_of settings.now bytes ≡ Ok text)
            (R.remaining reader) (W.contents writer.old) (W.contents writer.new)) }

        // An error is one that the bytes read can have, and if the bench is exact, the one that they have; unless the reader, an
        // allocation or the writer failed.
        ensures own { IfErr result
            (IsFaultBy IsOutside IsFaultOfTrace (R.remaining reader)) }
        ensures fault { IfErr result (IsFaultBy IsOutside
            (λ bytes fault. S.exact ≡ true → replay_of settings.now bytes ≡ Err fault)
            (R.remaining reader)) }

        // If the output failed, only a part of the report was written; after any other error, nothing was.
        ensures output { IfErr result (LeavesText
            (λ bytes text. S.exact ≡ true → replay_of settings.now bytes ≡ Ok text)
            (R.remaining reader) (W.contents writer.old) (W.contents writer.new)) }

        // The bench has exactly the devices that the rows of the bytes read open.
        ensures opened { OnOk result
            (OpensDevices (R.remaining reader) (devices_of self.new.bench)) }
    {
        let trace = read_trace(alloc, reader)?;
        self.lines = room_for_lines(alloc, trace.rows())?;
        self.play_rows(alloc, settings, trace.rows())?;
        let text = self.report(alloc, trace.version())?;
        write_text(writer, text.as_bytes())
    }

    /// Returns the bench.
    pub fn into_bench(self) -> DeviceBench<S>
        ensures { result ≡ self.bench }
    {
        let Replay {
            bench,
            list: _,
            lines: _,
        } = self;
        bench
    }
}
