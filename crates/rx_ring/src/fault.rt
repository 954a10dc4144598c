//! Why a ring can't be made.

ghost use Rattle.std.specs.Prelude.{◌≡◌};
ghost use Rattle.rx_ring.specs.Fault.{ring_fault_number};

use thiserror::Error;

/// Why a ring can't be made.
#[derive(Clone, Copy, Debug, PartialEq, Eq, Error)]
pub enum RingFault {
    /// Number 1: out of memory.
    #[error("out of memory")]
    OutOfMemory = 1,
    /// Number 2: a capacity of 0, or of more than [`MAX_CAPACITY`](crate::MAX_CAPACITY) packets.
    #[error("the capacity is out of range")]
    BadCapacity = 2,
}

impl RingFault {
    /// The number of this error, 1 or 2.
    pub fn number(self) -> u8
        ensures { result ≡ ring_fault_number self }
    {
        self as u8
    }
}
