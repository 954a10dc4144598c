//! The transmit side of a device.

ghost use Rattle.std.specs.Prelude.{◌≡◌, IfOk};
ghost use Rattle.device_places.specs.Range.{IsWithin};
ghost use Rattle.device_bench.specs.Transmit.{ShowsTransmit, TransmitView, after_finish, after_tx, opened_transmit, tx_counts};

use dql_core::{Dql, MAX_LIMIT};
use std::alloc::{AllocError, Global};
use tx_ring::{TxFault, TxRing, TxState};

/// How long slack has to last before the limit shrinks, in milliseconds.
const HOLD: u64 = 1000;

/// The transmit side of a device: its ring, and the counts of its tx and done rows. The counts saturate.
#[derive(Drop)]
pub struct Transmit {
    ring: TxRing,
    sent: u64,
    held: u64,
    done: u64,
    denied: u64,
    used: bool,
}

/// What the report shows of a device's transmit side.
#[derive(Clone, Copy, Debug, PartialEq, Eq)]
pub struct TxCounts {
    /// Packets sent.
    pub sent: u64,
    /// Packets that the ring rejected.
    pub held: u64,
    /// Packets completed.
    pub done: u64,
    /// Completions that the ring rejected.
    pub denied: u64,
    /// The state of the ring and its limit after the last row.
    pub state: TxState,
}

impl TxCounts {
    /// The counts of a device without a transmit side.
    pub const NONE: TxCounts = TxCounts {
        sent: 0,
        held: 0,
        done: 0,
        denied: 0,
        state: TxState {
            queued: 0,
            completed: 0,
            limit: 0,
            avail: 0,
            stopped: false,
        },
    };
}

impl Transmit {
    /// Returns a new ring of this capacity, under a limit with the kernel's bounds that starts at this time.
    pub fn open(alloc: Global, capacity: u32, moment: u64) -> Result<Transmit, AllocError>
        requires { IsWithin 1 65536 capacity }
        ensures { IfOk result
            (λ transmit. ShowsTransmit transmit (opened_transmit capacity moment)) }
    {
        let Ok(limit) = Dql::new(0, MAX_LIMIT, HOLD, moment) else {
            unreachable!();
        };
        match TxRing::new(alloc, capacity as usize, limit) {
            Ok(ring) => Ok(Transmit {
                ring,
                sent: 0,
                held: 0,
                done: 0,
                denied: 0,
                used: false,
            }),
            Err(TxFault::OutOfMemory) => Err(AllocError),
            Err(_) => unreachable!(),
        }
    }

    /// Applies a tx row: sends a packet of this many bytes, or counts it as held if the ring rejects it
    /// (`netdev_tx_sent_queue`).
    pub fn send(&mut self, bytes: u32)
        ensures { (view : TransmitView) → ShowsTransmit self.old view
            → ShowsTransmit self.new (after_tx bytes view) }
    {
        self.used = true;
        match self.ring.send(bytes) {
            Ok(()) => self.sent = self.sent.saturating_add(1),
            Err(_) => self.held = self.held.saturating_add(1),
        }
    }

    /// Applies a done row: completes this many packets, or counts it as denied if the ring holds fewer
    /// (`netdev_tx_completed_queue`).
    pub fn finish(&mut self, count: u32, moment: u64)
        ensures { (view : TransmitView) → ShowsTransmit self.old view
            → ShowsTransmit self.new (after_finish count moment view) }
    {
        self.used = true;
        match self.ring.done(count, moment) {
            Ok(()) => self.done = self.done.saturating_add(u64::from(count)),
            Err(_) => self.denied = self.denied.saturating_add(1),
        }
    }

    /// Returns the counts that the report shows.
    pub fn counts(&self) -> TxCounts
        ensures { (view : TransmitView) → ShowsTransmit self.now view → result ≡ tx_counts view }
    {
        TxCounts {
            sent: self.sent,
            held: self.held,
            done: self.done,
            denied: self.denied,
            state: self.ring.state(),
        }
    }

    /// Returns whether it had a tx or done row; otherwise the report omits it.
    pub fn is_used(&self) -> bool
        ensures { (view : TransmitView) → ShowsTransmit self.now view → result ≡ view.used }
    {
        self.used
    }
}
