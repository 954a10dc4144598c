//! The text of the report.

ghost use Rattle.std.specs.Prelude.{◌≡◌, ◌++◌, IfOk, List, OnOk, flat_map, length, string_bytes, vec_items};
ghost use Rattle.std.specs.List.{AllZip};
ghost use Rattle.device_rows.specs.declared.row.Row.{Row};
ghost use Rattle.replay.specs.ThreadsStations.{IsStationEnd, end_lines};
ghost use Rattle.replay.specs.ThreadsReport.{arrived_line, opened_devices, threads_report, threads_total_line};
ghost use Rattle.text_io.specs.Lines.{with_newline};

use crate::script::ScriptDevice;
use poll_engine::Finished;
use replay_rows::add_transmit;
use std::alloc::{AllocError, Global};

// Appends the lines of a device: one, and a second one if its transmit side had a tx or done row.
fn add_end(text: &mut String, end: &Finished<ScriptDevice>) -> Result<(), AllocError>
    ensures { OnOk result (string_bytes text.new ≡ string_bytes text.old ++ end_lines end.now) }
{
    writeln!(
        text,
        "device {} arrived {} bytes {}",
        end.number, end.totals.put, end.totals.bytes
    )?;
    if end.device.uses_transmit() {
        add_transmit(text, end.number, &end.device.tx_counts())?;
    }
    Ok(())
}

fn add_ends(text: &mut String, ends: &[Finished<ScriptDevice>]) -> Result<(), AllocError>
    ensures { OnOk result
        (string_bytes text.new ≡ string_bytes text.old ++ flat_map end_lines ends.now) }
{
    for end in ends {
        add_end(text, end)?;
    }
    Ok(())
}

fn add_total(text: &mut String, devices: usize) -> Result<(), AllocError>
    ensures { OnOk result
        (string_bytes text.new ≡ string_bytes text.old
        ++ with_newline (threads_total_line devices)) }
{
    writeln!(text, "total devices {devices}")?;
    Ok(())
}

/// Returns the text of the report of devices that were run.
pub(crate) fn report_of(
    alloc: Global,
    ends: &[Finished<ScriptDevice>],
) -> Result<String, AllocError>
    ensures { (rows : List Row) → AllZip (IsStationEnd rows) (opened_devices rows) ends.now
        → IfOk result (λ text. string_bytes text ≡ threads_report rows) }
{
    let mut text = String::new(alloc);
    add_ends(&mut text, ends)?;
    add_total(&mut text, ends.len())?;
    Ok(text)
}
