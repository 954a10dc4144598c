//! A driver's watchdog over a transmit ring, for C.
ghost use Rattle.std.specs.Prelude.{◌≡◌, ◌≢◌, false};
ghost use Rattle.tx_ring.specs.Queue.{TransmitQueue, tx_state};
ghost use Rattle.c_handles.specs.Status.{OK, BAD_HANDLE};
ghost use Rattle.c_handles.specs.Transmits.{TxShows};
ghost use Rattle.napi_c.specs.Objects.{is_tx, LeadsToOther};
ghost use Rattle.napi_c.specs.Watch.{after_check, is_stuck};

use c_handles::{FqHandle, Object, status};
use tx_ring::TxState;

/// What a watchdog keeps from its last check that found a change: `struct fq_tx_watchdog`. Any bytes represent such a state.
#[repr(C)]
#[derive(Clone, Copy)]
pub struct FqTxWatchdog {
    /// Whether the ring was stopped: it was unless the byte is 0.
    pub stopped: u8,
    /// The bytes of all packets completed, modulo 2^32.
    pub completed: u32,
    /// The time of that check, in milliseconds.
    pub since: u64,
}

impl FqTxWatchdog {
    // Returns whether the ring has been stopped for `limit` milliseconds without a completed byte.
    fn check(&mut self, ring: TxState, limit: u64, now: u64) -> bool
        ensures kept { self.new ≡ after_check self.old ring now }
        ensures stuck { result ≡ is_stuck self.old ring limit now }
    {
        let is_unmoved = self.stopped != 0 && ring.stopped && self.completed == ring.completed;
        if !is_unmoved {
            self.stopped = u8::from(ring.stopped);
            self.completed = ring.completed;
            self.since = now;
        }
        ring.stopped && limit <= now.saturating_sub(self.since)
    }
}

/// Checks a transmit ring at a tick of the driver's timer (`dev_watchdog`): sets `stuck` to whether it has been stopped for
/// `limit` milliseconds without a completed byte, since the first check that found it so. Returns OK; BAD_HANDLE, and `stuck` is
/// false.
#[unsafe(no_mangle)]
pub extern "C" fn fq_tx_watch(
    handle: &mut FqHandle,
    watchdog: &mut FqTxWatchdog,
    limit: u64,
    now: u64,
    stuck: &mut bool,
) -> u32
    ensures checked { (t : TransmitQueue) → TxShows handle.old t → (result ≡ OK)
        × (watchdog.new ≡ after_check watchdog.old (tx_state t) now)
        × (stuck.new ≡ is_stuck watchdog.old (tx_state t) limit now) }
    ensures other { LeadsToOther is_tx handle.old → result ≡ BAD_HANDLE }
    ensures kept { result ≢ OK → (watchdog.new ≡ watchdog.old) × (stuck.new ≡ false)
        × (result ≡ BAD_HANDLE) }
    ensures same { handle.new.held.body ≡ handle.old.held.body }
{
    *stuck = false;
    if !handle.is_set() {
        return status::BAD_HANDLE;
    }
    match &*handle.held.as_mut() {
        Object::Tx(ring) => {
            *stuck = watchdog.check(ring.state(), limit, now);
            status::OK
        }
        _ => status::BAD_HANDLE,
    }
}
