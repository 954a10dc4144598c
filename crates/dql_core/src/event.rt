//! The calls on a limit as values, and their errors.

ghost use Rattle.std.specs.Prelude.{◌≡◌};
ghost use Rattle.dql_core.specs.Fault.{dql_fault_number};

use thiserror::Error;

/// A call on a limit, as a value for [`Dql::run`](crate::Dql::run).
#[derive(Clone, Copy, Debug, PartialEq, Eq)]
pub enum LimitEvent {
    /// These bytes were queued: [`Dql::queued`](crate::Dql::queued).
    Queued(u32),
    /// These bytes were completed, at this time in milliseconds: [`Dql::completed`](crate::Dql::completed).
    Completed(u32, u64),
    /// The limit is reset at this time in milliseconds: [`Dql::reset`](crate::Dql::reset).
    Reset(u64),
}

/// Why a call on a limit failed. A call that fails changes nothing.
///
/// Where the kernel's `dql_queued` and `dql_completed` stop the machine by `BUG_ON`, these calls fail with
/// [`TooLarge`](DqlFault::TooLarge) and [`MoreThanQueued`](DqlFault::MoreThanQueued). Since Linux 6.10
/// `dql_queued` only warns, and ignores the object.
#[derive(Clone, Copy, Debug, PartialEq, Eq, Error)]
pub enum DqlFault {
    /// Number 1: the least limit is greater than the greatest, or the greatest is over [`MAX_LIMIT`](crate::MAX_LIMIT).
    #[error("the bounds of the limit are out of order or too large")]
    BadBounds = 1,
    /// Number 2: an object of more than [`MAX_OBJECT`](crate::MAX_OBJECT) bytes.
    #[error("the object is too large")]
    TooLarge = 2,
    /// Number 3: more than [`MAX_IN_FLIGHT`](crate::MAX_IN_FLIGHT) bytes would be in flight.
    #[error("too many bytes would be in flight")]
    TooMuchInFlight = 3,
    /// Number 4: more bytes completed than are in flight.
    #[error("more bytes are completed than were queued")]
    MoreThanQueued = 4,
}

impl DqlFault {
    /// The number of this error, 1 to 4.
    pub fn number(self) -> u8
        ensures { result ≡ dql_fault_number self }
    {
        self as u8
    }
}
