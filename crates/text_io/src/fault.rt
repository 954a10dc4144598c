//! Why a replay has no report.

ghost use Rattle.std.specs.Prelude.{◌≡◌, IfOk, string_bytes};
ghost use Rattle.text_io.specs.Fault.{replay_fault_line, replay_fault_number, replay_fault_status};

use crate::program::Fault;
use device_rows::TraceFault;
use std::alloc::{AllocError, Global};
use std::fmt;
use thiserror::Error;

/// Why a replay has no report. Nothing was written, unless the error is `OutputFailed`.
#[derive(Clone, Copy, Debug, PartialEq, Eq, Error)]
pub enum ReplayFault {
    /// 1 to 11: the text isn't a trace, the reader failed, or an allocation failed, while the trace was read or later.
    #[error(transparent)]
    Trace(TraceFault),
    /// 12: this row enables a device whose disable is still pending. Rows count from 1.
    #[error("row {row} enables a device whose disable is pending still")]
    Pending { row: u32 },
    /// 13: more packets arrive at this device than its ring can hold. Only runs with threads have this error, and it names the
    /// device with the lowest number.
    #[error("the ring of device {device} needs {needs} places")]
    RingTooSmall { device: u32, needs: u32 },
    /// 14: a gate stopped a run with threads.
    #[error("a gate was shut")]
    GateShut,
    /// 15: the writer failed. Only a part of the report was written.
    #[error("the report could not be written")]
    OutputFailed,
    /// 16: a thread of a run couldn't be started.
    #[error("a thread could not be started")]
    SpawnFailed,
}

impl From<TraceFault> for ReplayFault {
    ghost use Rattle.std.specs.Prelude.{◌≡◌};
    ghost use Rattle.text_io.specs.declared.fault.ReplayFault.TheVariants.{Trace};

    ghost from_gives = { λ fault given. given ≡ Trace fault };

    fn from(fault: TraceFault) -> ReplayFault {
        ReplayFault::Trace(fault)
    }
}

impl From<AllocError> for ReplayFault {
    ghost use Rattle.text_io.specs.Outside.{IsReplayOutOfMemory};

    ghost from_gives = { λ _ fault. IsReplayOutOfMemory fault };

    fn from(_: AllocError) -> ReplayFault {
        ReplayFault::Trace(TraceFault::OutOfMemory)
    }
}

impl ReplayFault {
    /// The number of this error.
    pub fn number(self) -> u8
        ensures { result ≡ replay_fault_number self }
    {
        match self {
            ReplayFault::Trace(fault) => fault.number(),
            ReplayFault::Pending { .. } => 12,
            ReplayFault::RingTooSmall { .. } => 13,
            ReplayFault::GateShut => 14,
            ReplayFault::OutputFailed => 15,
            ReplayFault::SpawnFailed => 16,
        }
    }
}

// The message for an error of the trace.
#[derive(Drop)]
struct TraceLine<'a>(&'a TraceFault);

impl fmt::Display for TraceLine<'_> {
    ghost use Rattle.std.specs.Prelude.{Some};
    ghost use Rattle.text_io.specs.Fault.{trace_line};

    ghost output = { λ line. Some (trace_line line.0.now) };

    fn fmt<W: fmt::Write>(&self, f: &mut fmt::Formatter<W>) -> fmt::Result {
        match self.0 {
            TraceFault::BadHeader => write!(f, "trace fault 1 BadHeader row 0"),
            TraceFault::BadFields { row } => write!(f, "trace fault 2 BadFields row {row}"),
            TraceFault::BadNumber { row } => write!(f, "trace fault 3 BadNumber row {row}"),
            TraceFault::BadEvent { row } => write!(f, "trace fault 4 BadEvent row {row}"),
            TraceFault::OutOfRange { row } => write!(f, "trace fault 5 OutOfRange row {row}"),
            TraceFault::UnknownDevice { row } => write!(f, "trace fault 6 UnknownDevice row {row}"),
            TraceFault::OpenTwice { row } => write!(f, "trace fault 7 OpenTwice row {row}"),
            TraceFault::WrongState { row } => write!(f, "trace fault 8 WrongState row {row}"),
            TraceFault::TooManyRows => write!(f, "trace fault 9 TooManyRows row 100001"),
            TraceFault::ReadFailed => write!(f, "trace fault 10 ReadFailed"),
            TraceFault::OutOfMemory => write!(f, "memory fault 11 OutOfMemory"),
        }
    }
}

// The message for an error.
#[derive(Drop)]
struct FaultLine<'a>(&'a ReplayFault);

impl fmt::Display for FaultLine<'_> {
    ghost use Rattle.std.specs.Prelude.{Some};
    ghost use Rattle.text_io.specs.Fault.{replay_fault_line};

    ghost output = { λ line. Some (replay_fault_line line.0.now) };

    fn fmt<W: fmt::Write>(&self, f: &mut fmt::Formatter<W>) -> fmt::Result {
        match self.0 {
            ReplayFault::Trace(fault) => write!(f, "{}", TraceLine(fault)),
            ReplayFault::Pending { row } => write!(f, "trace fault 12 Pending row {row}"),
            ReplayFault::RingTooSmall { device, needs } => {
                write!(
                    f,
                    "ring fault 13 RingTooSmall device {device} needs {needs}"
                )
            }
            ReplayFault::GateShut => write!(f, "worker fault 14 GateShut"),
            ReplayFault::OutputFailed => write!(f, "output fault 15 OutputFailed"),
            ReplayFault::SpawnFailed => write!(f, "worker fault 16 SpawnFailed"),
        }
    }
}

ghost use Rattle.std.specs.Prelude.{◌++◌, codes};

/// Returns the message of an error for standard error, including the line feed. Fails only if an allocation fails.
pub fn fault_line(alloc: Global, fault: &ReplayFault) -> Result<String, AllocError>
    ensures { IfOk result (λ line. string_bytes line ≡ replay_fault_line fault.now ++ codes "\n") }
{
    format!(in alloc; "{}\n", FaultLine(fault))
}

/// Returns the exit status of an error: 2 for an error of the trace, 3 for a ring that is too small, 4 if an allocation, the
/// output or a thread failed, or the gate stopped the run.
pub fn status(fault: &ReplayFault) -> u8
    ensures { result ≡ replay_fault_status fault.now }
{
    match fault {
        ReplayFault::Trace(TraceFault::OutOfMemory)
        | ReplayFault::GateShut
        | ReplayFault::OutputFailed
        | ReplayFault::SpawnFailed => 4,
        ReplayFault::RingTooSmall { .. } => 3,
        _ => 2,
    }
}

impl Fault for ReplayFault {
    ghost use Rattle.text_io.specs.Fault.{replay_fault_line, replay_fault_status};
    ghost use Rattle.text_io.specs.declared.fault.ReplayFault.TheVariants.{OutputFailed};

    ghost line = { replay_fault_line };

    ghost status = { replay_fault_status };

    ghost output_failed = { OutputFailed };

    fn line(&self, alloc: Global) -> Result<String, AllocError> {
        fault_line(alloc, self)
    }

    fn status(&self) -> u8 {
        status(self)
    }
}
