//! Errors of arrivals, as the numbers that C gets.

ghost use Rattle.std.specs.Prelude.{◌≡◌};
ghost use Rattle.files_c.specs.MachineFaults.{machine_c_status, machine_fault_row};

use crate::status;
use machine::MachineFault;

/// Returns the status of an error. Arrivals are read from memory and the report is written to memory, so a reader or a writer
/// fails only if an allocation does.
pub(crate) fn machine_c_status(fault: &MachineFault) -> u32
    ensures { result ≡ machine_c_status fault.now }
{
    match fault {
        MachineFault::ReadFailed | MachineFault::OutOfMemory | MachineFault::OutputFailed => {
            status::OUT_OF_MEMORY
        }
        _ => status::BAD_ARRIVALS,
    }
}

/// Returns the row that an error names, or 0.
pub(crate) fn machine_fault_row(fault: &MachineFault) -> u64
    ensures { result ≡ machine_fault_row fault.now }
{
    match fault {
        MachineFault::BadFields { row }
        | MachineFault::BadNumber { row }
        | MachineFault::OutOfRange { row }
        | MachineFault::Falls { row } => *row,
        _ => 0,
    }
}
