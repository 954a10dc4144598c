//! The calls on a transmit ring as values, their errors, and the state of the ring.

ghost use Rattle.std.specs.Prelude.{◌≡◌};
ghost use Rattle.tx_ring.specs.Fault.{tx_fault_number};

use thiserror::Error;

/// A call on a transmit ring, as a value for [`TxRing::run`](crate::TxRing::run).
#[derive(Clone, Copy, Debug, PartialEq, Eq)]
pub enum TxEvent {
    /// A packet of this many bytes is sent: [`TxRing::send`](crate::TxRing::send).
    Send(u32),
    /// This many packets complete, at this time in milliseconds: [`TxRing::done`](crate::TxRing::done).
    Finish(u32, u64),
}

/// Why a call on a transmit ring failed. A call that fails changes nothing.
#[derive(Clone, Copy, Debug, PartialEq, Eq, Error)]
pub enum TxFault {
    /// Number 1: the limit has stopped the queue, and no completion has started it since.
    #[error("the queue is stopped")]
    Stopped = 1,
    /// Number 2: the ring is full.
    #[error("the ring is full")]
    Full = 2,
    /// Number 3: a packet of more than [`dql_core::MAX_OBJECT`] bytes.
    #[error("the packet is too large")]
    TooLarge = 3,
    /// Number 4: more than [`dql_core::MAX_IN_FLIGHT`] bytes would be in flight.
    #[error("too many bytes would be in flight")]
    TooMuchInFlight = 4,
    /// Number 5: more packets complete than the ring holds.
    #[error("more packets are complete than were sent")]
    MoreThanSent = 5,
    /// Number 6: a capacity of 0, or of more than [`MAX_CAPACITY`](crate::MAX_CAPACITY) packets.
    #[error("the capacity is out of range")]
    BadCapacity = 6,
    /// Number 7: out of memory.
    #[error("out of memory")]
    OutOfMemory = 7,
}

impl TxFault {
    /// The number of this error, 1 to 7.
    pub fn number(self) -> u8
        ensures { result ≡ tx_fault_number self }
    {
        self as u8
    }
}

/// The state of a transmit ring.
#[derive(Clone, Copy, Debug, PartialEq, Eq)]
pub struct TxState {
    /// The bytes of all packets ever sent, modulo 2^32.
    pub queued: u32,
    /// The bytes of all packets ever completed, modulo 2^32.
    pub completed: u32,
    /// The limit in bytes.
    pub limit: u32,
    /// The bytes that may still be queued, negative if the queue is over its limit.
    pub avail: i64,
    /// Whether the queue is stopped.
    pub stopped: bool,
}
