//! Why an instance can't be made, and why it can't be closed.

ghost use Rattle.std.specs.Prelude.{◌≡◌};
ghost use Rattle.napi_calls.specs.Fault.{new_fault_number, close_fault_number};

use thiserror::Error;

/// Why an instance can't be made.
#[derive(Clone, Copy, Debug, PartialEq, Eq, Error)]
pub enum NewFault {
    /// Number 1: out of memory.
    #[error("out of memory")]
    OutOfMemory = 1,
    /// Number 2: fewer than 2 callers, or more than 8.
    #[error("the count of callers is out of range")]
    BadCount = 2,
}

impl NewFault {
    /// The number of this error, 1 or 2.
    pub fn number(self) -> u8
        ensures { result ≡ new_fault_number self }
    {
        self as u8
    }
}

/// Why an instance can't be closed.
#[derive(Clone, Copy, Debug, PartialEq, Eq, Error)]
pub enum CloseFault {
    /// Number 1: not all callers were given.
    #[error("callers are missing")]
    NotAll = 1,
}

impl CloseFault {
    /// The number of this error, 1.
    pub fn number(self) -> u8
        ensures { result ≡ close_fault_number self }
    {
        self as u8
    }
}
