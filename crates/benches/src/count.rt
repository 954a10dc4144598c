//! The counts of the packets of a run.

use crate::load::Share;
use rx_ring::Totals;

/// The packets of all devices.
#[derive(Clone, Copy, Default)]
pub struct Count {
    /// Packets that were put into the rings.
    pub packets: u64,
    /// Packets that arrived and were neither polled nor left.
    pub lost: u64,
    /// Packets that were polled or left more than once.
    pub doubled: u64,
    /// Packets that are left in their rings.
    pub left: u64,
}

impl Count {
    /// Counts the packets of one device. If as many were polled and left as arrived, but their bytes differ, one was lost and
    /// another one doubled: all packets of a device have different sizes.
    pub fn add(&mut self, share: Share, totals: Totals) {
        let counted = totals.polled.saturating_add(totals.left);
        let mistaken = u64::from(counted == share.packets && totals.bytes != share.bytes);
        let lost = share
            .packets
            .saturating_sub(counted)
            .saturating_add(mistaken);
        let doubled = counted
            .saturating_sub(share.packets)
            .saturating_add(mistaken);
        self.packets = self.packets.saturating_add(totals.put);
        self.lost = self.lost.saturating_add(lost);
        self.doubled = self.doubled.saturating_add(doubled);
        self.left = self.left.saturating_add(totals.left);
    }
}
