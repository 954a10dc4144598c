//! Why arrivals have no report.

ghost use Rattle.std.specs.Prelude.{◌≡◌, ◌++◌, IfOk, codes, string_bytes};
ghost use Rattle.machine.specs.Fault.{machine_fault_line, machine_fault_number, machine_fault_status};

use device_rows::ReadError;
use std::alloc::{AllocError, Global};
use std::fmt;
use text_io::Fault;
use thiserror::Error;

/// Why arrivals have no report. Nothing was written, unless the error is `OutputFailed`. Errors 2 to 8 name the first row that
/// has one, and of its errors the one with the lowest number; the numbers are those of a replay's errors. Rows count from 1.
#[derive(Clone, Copy, Debug, PartialEq, Eq, Error)]
pub enum MachineFault {
    /// 1: the text has no first record, or it isn't `ns,device,bytes`.
    #[error("the first record isn't `ns,device,bytes`")]
    BadHeader,
    /// 2: the row doesn't have three fields.
    #[error("row {row} hasn't three fields")]
    BadFields { row: u64 },
    /// 3: a field of the row isn't one to twenty ASCII digits.
    #[error("a number of row {row} isn't one to twenty digits")]
    BadNumber { row: u64 },
    /// 5: the row's time, device or number of bytes is out of its range.
    #[error("a number of row {row} is out of its range")]
    OutOfRange { row: u64 },
    /// 8: the row's time is before that of the row above it.
    #[error("the time of row {row} falls")]
    Falls { row: u64 },
    /// 10: the reader failed.
    #[error("the arrivals could not be read")]
    ReadFailed,
    /// 11: out of memory.
    #[error("out of memory")]
    OutOfMemory,
    /// 15: the writer failed. Less than the whole report was written.
    #[error("the report could not be written")]
    OutputFailed,
}

impl From<AllocError> for MachineFault {
    ghost use Rattle.machine.specs.Fault.{IsMachineOutOfMemory};

    ghost from_gives = { λ _ fault. IsMachineOutOfMemory fault };

    fn from(_: AllocError) -> MachineFault {
        MachineFault::OutOfMemory
    }
}

impl From<ReadError> for MachineFault {
    ghost use Rattle.device_rows.specs.Source.{HasCause};
    ghost use Rattle.machine.specs.Fault.{IsArrivalReadFailure};

    ghost from_gives = { λ error fault. HasCause error → IsArrivalReadFailure fault };

    fn from(error: ReadError) -> MachineFault {
        match error {
            ReadError::ReadFailed => MachineFault::ReadFailed,
            ReadError::OutOfMemory => MachineFault::OutOfMemory,
        }
    }
}

impl MachineFault {
    /// Returns the number of this error.
    pub fn number(self) -> u8
        ensures { result ≡ machine_fault_number self }
    {
        match self {
            MachineFault::BadHeader => 1,
            MachineFault::BadFields { .. } => 2,
            MachineFault::BadNumber { .. } => 3,
            MachineFault::OutOfRange { .. } => 5,
            MachineFault::Falls { .. } => 8,
            MachineFault::ReadFailed => 10,
            MachineFault::OutOfMemory => 11,
            MachineFault::OutputFailed => 15,
        }
    }
}

// The message for an error.
#[derive(Drop)]
struct MachineFaultLine<'a>(&'a MachineFault);

impl fmt::Display for MachineFaultLine<'_> {
    ghost use Rattle.std.specs.Prelude.{Some};
    ghost use Rattle.machine.specs.Fault.{machine_fault_line};

    ghost output = { λ line. Some (machine_fault_line line.0.now) };

    fn fmt<W: fmt::Write>(&self, f: &mut fmt::Formatter<W>) -> fmt::Result {
        match self.0 {
            MachineFault::BadHeader => write!(f, "arrivals fault 1 BadHeader row 0"),
            MachineFault::BadFields { row } => write!(f, "arrivals fault 2 BadFields row {row}"),
            MachineFault::BadNumber { row } => write!(f, "arrivals fault 3 BadNumber row {row}"),
            MachineFault::OutOfRange { row } => write!(f, "arrivals fault 5 OutOfRange row {row}"),
            MachineFault::Falls { row } => write!(f, "arrivals fault 8 Falls row {row}"),
            MachineFault::ReadFailed => write!(f, "arrivals fault 10 ReadFailed"),
            MachineFault::OutOfMemory => write!(f, "memory fault 11 OutOfMemory"),
            MachineFault::OutputFailed => write!(f, "output fault 15 OutputFailed"),
        }
    }
}

/// Returns the message of an error for standard error, including the line feed. Fails only if an allocation fails.
pub fn fault_line(alloc: Global, fault: &MachineFault) -> Result<String, AllocError>
    ensures { IfOk result (λ line. string_bytes line ≡ machine_fault_line fault.now ++ codes "\n") }
{
    format!(in alloc; "{}\n", MachineFaultLine(fault))
}

/// Returns the exit status of an error: 4 if an allocation or the output failed, otherwise 2.
pub fn status(fault: &MachineFault) -> u8
    ensures { result ≡ machine_fault_status fault.now }
{
    match fault {
        MachineFault::OutOfMemory | MachineFault::OutputFailed => 4,
        _ => 2,
    }
}

impl Fault for MachineFault {
    ghost use Rattle.machine.specs.Fault.{machine_fault_line, machine_fault_status};
    ghost use Rattle.machine.specs.declared.fault.MachineFault.TheVariants.{OutputFailed};

    ghost line = { machine_fault_line };

    ghost status = { machine_fault_status };

    ghost output_failed = { OutputFailed };

    fn line(&self, alloc: Global) -> Result<String, AllocError> {
        fault_line(alloc, self)
    }

    fn status(&self) -> u8 {
        status(self)
    }
}
