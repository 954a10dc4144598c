//! A program that uses only `tx_ring`: its contract is about the transmit queue that a ring represents, and about the first
//! reason for which a packet can't be sent.

ghost use Rattle.std.specs.Prelude.{◌≡◌, ◌↔◌, None, true};
ghost use Rattle.tx_ring.specs.Queue.{TransmitQueue, after_send, send_fault};
ghost use Rattle.tx_ring.specs.Ring.{ShowsQueue};

use tx_ring::TxRing;

/// Sends a packet, and returns whether that succeeded.
pub fn is_sent(ring: &mut TxRing, bytes: u32) -> bool
    ensures when { (t : TransmitQueue) → ShowsQueue ring.old t
        → (result ≡ true) ↔ (send_fault t bytes ≡ None) }
    ensures sent { result ≡ true → (t : TransmitQueue) → ShowsQueue ring.old t
        → ShowsQueue ring.new (after_send t bytes) }
{
    ring.send(bytes).is_ok()
}
