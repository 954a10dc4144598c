//! Packets, the batches that polls return, and their counts.

ghost use Rattle.std.specs.Prelude.{◌≡◌, ◌<◌, ◌≤◌, ◌^◌, length};
ghost use Rattle.rx_ring.specs.ReceiveRing.{bytes_of};

use arrayvec::ArrayVec;

/// A packet, as far as the ring is concerned.
#[repr(C)]
#[derive(Clone, Copy, Debug, Default, PartialEq, Eq)]
pub struct Packet {
    /// Its number, which the ring doesn't use.
    pub number: u64,
    /// Its size in bytes, as polls count it.
    pub bytes: u32,
}

/// The greatest weight of a poll, which is the kernel's default (`NAPI_POLL_WEIGHT`, `include/linux/netdevice.h`).
pub const MAX_WEIGHT: usize = 64;

/// The packets that one poll returned. It has room for the greatest weight, and doesn't allocate.
pub type Batch = ArrayVec<Packet, MAX_WEIGHT>;

/// Returns the sum of the bytes of a batch's packets.
pub fn batch_bytes(batch: &Batch) -> u64
    ensures sum { result ≡ bytes_of batch.now.items }
    ensures bound { result < 2 ^ 38 }
{
    bytes_in(batch.as_slice())
}

// Returns the sum of the bytes of at most 64 packets.
pub(crate) fn bytes_in(packets: &[Packet]) -> u64
    requires { length packets.now ≤ 64 }
    ensures sum { result ≡ bytes_of packets.now }
    ensures bound { result < 2 ^ 38 }
{
    let mut bytes = 0;
    for packet in packets {
        bytes += u64::from(packet.bytes);
    }
    bytes
}

/// The counts of a context's polls. Each count saturates.
#[derive(Clone, Copy, Debug, PartialEq, Eq)]
pub struct RxCounts {
    /// The polls.
    pub polls: u64,
    /// The packets that they returned.
    pub packets: u64,
    /// The bytes of these packets.
    pub bytes: u64,
}

/// The counts of a whole ring. Each count saturates.
#[derive(Clone, Copy, Debug, PartialEq, Eq)]
pub struct Totals {
    /// The packets that were put.
    pub put: u64,
    /// The packets that polls returned.
    pub polled: u64,
    /// The packets that were left in the ring.
    pub left: u64,
    /// The bytes of all packets that were put.
    pub bytes: u64,
}
