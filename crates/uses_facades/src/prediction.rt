//! A program that uses only `machine`: a run, with the exit status of an error. Its contract on the output is that of
//! `run_machine`.

ghost use Rattle.std.specs.Prelude.{◌≡◌, IfErr, OnOk};
ghost use Rattle.machine.specs.Answer.{IsReportOf};
ghost use Rattle.machine.specs.Fault.{machine_fault_status};
ghost use Rattle.machine.specs.declared.fault.MachineFault.{MachineFault};
ghost use Rattle.machine.specs.Written.{Writes};

use machine::{MachineSettings, run_machine, status};
use std::alloc::Global;
use std::io::{Read, Write};

/// Runs the machine with these settings on arrivals, and writes its report. The error is the exit status.
pub fn run<R: Read + Drop, W: Write>(
    alloc: Global,
    reader: R,
    writer: &mut W,
    settings: &MachineSettings,
) -> Result<(), u8>
    ensures written { OnOk result (Writes (IsReportOf settings.now)
        (R.remaining reader) (W.contents writer.old) (W.contents writer.new)) }
    ensures status { IfErr result (λ s. (fault : MachineFault) × (s ≡ machine_fault_status fault)) }
{
    run_machine(alloc, reader, writer, settings).map_err(|fault| status(&fault))
}
