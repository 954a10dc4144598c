//! Why a run failed.

ghost use Rattle.std.specs.Prelude.{◌≡◌};
ghost use Rattle.poll_engine.specs.WorkFaults.{number_of};

use std::alloc::AllocError;
use thiserror::Error;

/// Why a run failed, or why one of its threads made no further acts. All threads that were started have ended when a run fails.
#[derive(Clone, Copy, Debug, PartialEq, Eq, Error)]
pub enum WorkFault {
    /// Out of memory.
    #[error("work fault 1 OutOfMemory")]
    OutOfMemory,
    /// The gate returned false.
    #[error("work fault 2 GateShut")]
    GateShut,
    /// A thread could not be started.
    #[error("work fault 3 SpawnFailed")]
    SpawnFailed,
}

impl From<AllocError> for WorkFault {
    ghost use Rattle.std.specs.Prelude.{◌≡◌};
    ghost use Rattle.poll_engine.specs.WorkFaults.{IsWantOfMemory};
    ghost use Rattle.poll_engine.specs.declared.fault.WorkFault.TheVariants.{OutOfMemory};

    ghost from_gives = { λ _ fault. (fault ≡ OutOfMemory) × IsWantOfMemory };

    fn from(_: AllocError) -> WorkFault {
        WorkFault::OutOfMemory
    }
}

impl WorkFault {
    /// Returns the number of this error: 1 `OutOfMemory`, 2 `GateShut`, 3 `SpawnFailed`.
    pub fn number(&self) -> u32
        ensures { result ≡ number_of self.now }
    {
        match self {
            WorkFault::OutOfMemory => 1,
            WorkFault::GateShut => 2,
            WorkFault::SpawnFailed => 3,
        }
    }
}
