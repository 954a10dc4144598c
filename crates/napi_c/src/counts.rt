//! Counts and states of rings, as structs for C.
ghost use Rattle.std.specs.Prelude.{◌≡◌};
ghost use Rattle.napi_c.specs.Counts.{counts_for_c, totalled, tx_shown_of};

use rx_ring::{RxCounts, Totals};
use std::mem::size_of;
use tx_ring::TxState;

/// The counts of a ring's polls: `struct fq_counts`.
#[repr(C)]
#[derive(Clone, Copy)]
pub struct FqCounts {
    /// The size of this struct in bytes.
    pub size: usize,
    /// The polls.
    pub polls: u64,
    /// The packets that they returned.
    pub packets: u64,
    /// The bytes of these packets.
    pub bytes: u64,
}

impl FqCounts {
    /// Returns the same counts as a struct for C.
    pub(crate) fn of(counts: RxCounts) -> FqCounts
        ensures { result ≡ counts_for_c counts }
    {
        FqCounts {
            size: size_of::<FqCounts>(),
            polls: counts.polls,
            packets: counts.packets,
            bytes: counts.bytes,
        }
    }
}

/// The counts of a whole ring: `struct fq_totals`.
#[repr(C)]
#[derive(Clone, Copy)]
pub struct FqTotals {
    /// The size of this struct in bytes.
    pub size: usize,
    /// The packets that were put.
    pub put: u64,
    /// The packets that polls returned.
    pub polled: u64,
    /// The packets that were left in the ring.
    pub left: u64,
    /// The bytes of all packets that were put.
    pub bytes: u64,
}

impl FqTotals {
    /// Returns the same counts as a struct for C.
    pub(crate) fn of(totals: Totals) -> FqTotals
        ensures { result ≡ totalled totals }
    {
        FqTotals {
            size: size_of::<FqTotals>(),
            put: totals.put,
            polled: totals.polled,
            left: totals.left,
            bytes: totals.bytes,
        }
    }
}

/// The state of a transmit ring: `struct fq_tx_shown`.
#[repr(C)]
#[derive(Clone, Copy)]
pub struct FqTxShown {
    /// The size of this struct in bytes.
    pub size: usize,
    /// The bytes of all packets ever sent, modulo 2^32.
    pub queued: u32,
    /// The bytes of all packets ever completed, modulo 2^32.
    pub completed: u32,
    /// The limit in bytes.
    pub limit: u32,
    /// The bytes that may still be sent, negative if the queue is over its limit.
    pub avail: i64,
    /// Whether the queue is stopped.
    pub stopped: bool,
}

impl FqTxShown {
    /// Returns the same state as a struct for C.
    pub(crate) fn of(state: TxState) -> FqTxShown
        ensures { result ≡ tx_shown_of state }
    {
        FqTxShown {
            size: size_of::<FqTxShown>(),
            queued: state.queued,
            completed: state.completed,
            limit: state.limit,
            avail: state.avail,
            stopped: state.stopped,
        }
    }
}
