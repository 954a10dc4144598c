//! Writing a report.

ghost use Rattle.std.specs.Prelude.{◌≡◌, IfErr, OnErr, OnOk, false, true};
ghost use Rattle.std.specs.Io.KnownBytes.{Appends};
ghost use Rattle.text_io.specs.Stops.{HasStopped};
ghost use Rattle.text_io.specs.Written.{AppendsPart};
ghost use Rattle.text_io.specs.declared.fault.ReplayFault.TheVariants.{OutputFailed};

use crate::fault::ReplayFault;
use std::io::{ErrorKind, Write};

/// Writes the bytes in order, and returns whether all were written. It calls the writer until all bytes are written or the
/// writer accepts no more.
pub(crate) fn write_out<W: Write>(writer: &mut W, bytes: &[u8]) -> bool
    ensures whole { result ≡ true
        → Appends (W.contents writer.old) (W.contents writer.new) bytes.now }
    ensures cut { result ≡ false
        → AppendsPart (W.contents writer.old) (W.contents writer.new) bytes.now }
    ensures stopped { result ≡ false → HasStopped }
{
    let mut rest = bytes;
    for _ in 0..u64::MAX {
        if rest.is_empty() {
            return true;
        }
        match writer.write(rest) {
            Ok(count) => {
                if count == 0 {
                    return false;
                }
                rest = &rest[count..];
            }
            Err(error) if error.kind() == ErrorKind::Interrupted => {}
            Err(_) => return false,
        }
    }
    rest.is_empty()
}

/// Writes the whole text of a report or a trace. Fails only with [`OutputFailed`](ReplayFault::OutputFailed); then only a part of the text
/// was written.
pub fn write_text<W: Write>(writer: &mut W, text: &[u8]) -> Result<(), ReplayFault>
    ensures written { OnOk result
        (Appends (W.contents writer.old) (W.contents writer.new) text.now) }
    ensures fault { IfErr result (λ fault. (fault ≡ OutputFailed) × HasStopped) }
    ensures cut { OnErr result
        (AppendsPart (W.contents writer.old) (W.contents writer.new) text.now) }
{
    if write_out(writer, text) {
        Ok(())
    } else {
        Err(ReplayFault::OutputFailed)
    }
}
