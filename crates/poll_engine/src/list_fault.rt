//! Why a shared list can't be made or closed.

ghost use Rattle.std.specs.Prelude.{◌≡◌};
ghost use Rattle.poll_engine.specs.ListFaults.{list_fault_number};

use thiserror::Error;

/// Why a shared list can't be made or closed.
#[derive(Clone, Copy, Debug, PartialEq, Eq, Error)]
pub enum ListFault {
    /// Number 1: no ends for pushing, or more than 64.
    #[error("the count of pushers is out of range")]
    BadSize = 1,
    /// Number 2: out of memory.
    #[error("out of memory")]
    OutOfMemory = 2,
    /// Number 3: some of the ends that were made are missing.
    #[error("ends of the list are missing")]
    NotAll = 3,
}

impl ListFault {
    /// The number of this error, 1 to 3.
    pub fn number(self) -> u8
        ensures { result ≡ list_fault_number self }
    {
        self as u8
    }
}
