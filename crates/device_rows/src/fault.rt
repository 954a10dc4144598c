//! Why a text isn't a trace.

ghost use Rattle.std.specs.Prelude.{◌≡◌};
ghost use Rattle.device_rows.specs.Fault.{trace_fault_number};

use crate::source::ReadError;
use std::alloc::AllocError;
use thiserror::Error;

/// Why a text isn't a trace. Errors 2 to 8 name the first row that has one, and of its errors the one with the lowest number.
/// Rows count from 1.
#[derive(Clone, Copy, Debug, PartialEq, Eq, Error)]
pub enum TraceFault {
    /// 1: the text has no first record, or it isn't `moment,device,event,value`, with a fifth field `2` in version 2.
    #[error("the first record isn't `moment,device,event,value`")]
    BadHeader,
    /// 2: the row doesn't have four fields.
    #[error("row {row} hasn't four fields")]
    BadFields { row: u32 },
    /// 3: the row's moment, device or value isn't one to twenty ASCII digits.
    #[error("a number of row {row} isn't one to twenty digits")]
    BadNumber { row: u32 },
    /// 4: the row's event isn't the name of an event.
    #[error("row {row} names no event")]
    BadEvent { row: u32 },
    /// 5: the row's moment, device or value is out of its range.
    #[error("a number of row {row} is out of its range")]
    OutOfRange { row: u32 },
    /// 6: the row's device wasn't opened.
    #[error("the device of row {row} wasn't opened")]
    UnknownDevice { row: u32 },
    /// 7: the row opens a device that is open.
    #[error("row {row} opens a device that is open")]
    OpenTwice { row: u32 },
    /// 8: the row disables a device whose last switch was a disable, or enables one whose last switch wasn't.
    #[error("row {row} disables or enables a device out of turn")]
    WrongState { row: u32 },
    /// 9: the text has a row 100001.
    #[error("the trace has more than 100000 rows")]
    TooManyRows,
    /// 10: the reader failed.
    #[error("the trace could not be read")]
    ReadFailed,
    /// 11: out of memory.
    #[error("out of memory")]
    OutOfMemory,
}

impl From<AllocError> for TraceFault {
    ghost use Rattle.std.specs.Prelude.{◌≡◌};
    ghost use Rattle.device_rows.specs.Failures.{IsTraceOutOfMemory};
    ghost use Rattle.device_rows.specs.declared.fault.TraceFault.TheVariants.{OutOfMemory};

    ghost from_gives = { λ _ fault. (fault ≡ OutOfMemory) × IsTraceOutOfMemory };

    fn from(_: AllocError) -> TraceFault {
        TraceFault::OutOfMemory
    }
}

impl From<ReadError> for TraceFault {
    ghost use Rattle.device_rows.specs.Source.{HasCause, IsReadFailure};

    ghost from_gives = { λ error fault. HasCause error → IsReadFailure fault };

    fn from(error: ReadError) -> TraceFault {
        match error {
            ReadError::ReadFailed => TraceFault::ReadFailed,
            ReadError::OutOfMemory => TraceFault::OutOfMemory,
        }
    }
}

impl TraceFault {
    /// The number of this error, 1 to 11.
    pub fn number(self) -> u8
        ensures { result ≡ trace_fault_number self }
    {
        match self {
            TraceFault::BadHeader => 1,
            TraceFault::BadFields { .. } => 2,
            TraceFault::BadNumber { .. } => 3,
            TraceFault::BadEvent { .. } => 4,
            TraceFault::OutOfRange { .. } => 5,
            TraceFault::UnknownDevice { .. } => 6,
            TraceFault::OpenTwice { .. } => 7,
            TraceFault::WrongState { .. } => 8,
            TraceFault::TooManyRows => 9,
            TraceFault::ReadFailed => 10,
            TraceFault::OutOfMemory => 11,
        }
    }
}
