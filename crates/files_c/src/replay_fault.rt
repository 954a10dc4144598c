//! Errors of a trace, as the numbers that C gets.

ghost use Rattle.std.specs.Prelude.{◌≡◌};
ghost use Rattle.files_c.specs.Status.{FILES_BAD_TRACE};
ghost use Rattle.files_c.specs.ReplayFaults.{fault_status, fault_row, trace_row};

use crate::status;
use device_rows::TraceFault;
use text_io::ReplayFault;

// Returns the status of an error. A trace is read from memory and the report is written to memory, so a reader or a writer
// fails only if an allocation does.
pub(crate) fn fault_status(fault: &ReplayFault) -> u32
    ensures { result ≡ fault_status fault.now }
{
    match fault {
        ReplayFault::Trace(TraceFault::ReadFailed)
        | ReplayFault::Trace(TraceFault::OutOfMemory)
        | ReplayFault::OutputFailed => status::OUT_OF_MEMORY,
        _ => status::BAD_TRACE,
    }
}

fn trace_row(fault: &TraceFault) -> u32
    ensures { result ≡ trace_row fault.now }
{
    match fault {
        TraceFault::BadFields { row }
        | TraceFault::BadNumber { row }
        | TraceFault::BadEvent { row }
        | TraceFault::OutOfRange { row }
        | TraceFault::UnknownDevice { row }
        | TraceFault::OpenTwice { row }
        | TraceFault::WrongState { row } => *row,
        TraceFault::TooManyRows => 100001,
        TraceFault::BadHeader | TraceFault::ReadFailed | TraceFault::OutOfMemory => 0,
    }
}

// Returns the row that an error names, or 0.
pub(crate) fn row_of(fault: &ReplayFault) -> u32
    ensures { result ≡ fault_row fault.now }
{
    match fault {
        ReplayFault::Trace(fault) => trace_row(fault),
        ReplayFault::Pending { row } => *row,
        _ => 0,
    }
}
