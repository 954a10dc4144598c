//! The report's line of a device's transmit side.

ghost use Rattle.std.specs.Prelude.{◌≡◌, ◌++◌, OnOk, string_bytes};
ghost use Rattle.text_io.specs.Lines.{with_newline};
ghost use Rattle.replay_rows.specs.TransmitLine.{tx_line};

use device_bench::TxCounts;
use std::alloc::AllocError;

/// Appends the line of a device's transmit side. Fails only if an allocation fails.
pub fn add_transmit(text: &mut String, number: u32, counts: &TxCounts) -> Result<(), AllocError>
    ensures { OnOk result
        (string_bytes text.new ≡ string_bytes text.old
        ++ with_newline (tx_line number counts.now)) }
{
    writeln!(
        text,
        "tx {} sent {} held {} done {} denied {} limit {} avail {} stopped {}",
        number,
        counts.sent,
        counts.held,
        counts.done,
        counts.denied,
        counts.state.limit,
        counts.state.avail,
        u8::from(counts.state.stopped)
    )?;
    Ok(())
}
