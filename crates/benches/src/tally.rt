//! What arrives at the second thread.

use rx_ring::Packet;

/// The capacity of each ring.
pub const PLACES: usize = 1024;

/// The counts of the packets that arrived. They wrap.
#[derive(Clone, Copy)]
pub struct ReceivedCounts {
    /// The packets that arrived in order.
    pub in_turn: u64,
    /// The bytes of all packets.
    pub bytes: u64,
}

impl ReceivedCounts {
    /// Returns zero counts.
    pub fn new() -> ReceivedCounts {
        ReceivedCounts {
            in_turn: 0,
            bytes: 0,
        }
    }

    /// Counts one more packet.
    pub fn add(&mut self, packet: &Packet) {
        self.in_turn = self
            .in_turn
            .wrapping_add(u64::from(packet.number == self.in_turn));
        self.bytes = self.bytes.wrapping_add(u64::from(packet.bytes));
    }
}

/// Returns the packet with this number.
pub fn packet(number: u64) -> Packet {
    Packet { number, bytes: 60 }
}
