//! The input end of a ring, with its counts.
ghost use Rattle.std.specs.Prelude.{◌≡◌, ◌⊎◌, ◌<◌, ◌≤◌, ◌-◌, ◌++◌, [], ◌∷◌, length, take, min};
ghost use Rattle.rx_ring.specs.ReceiveRing.{capped};
ghost use Rattle.rx_ring.specs.Ends.{put_list, capacity_of, SameIn};
ghost use Rattle.c_handles.specs.Inputs.{shown_of};
ghost use Rattle.c_handles.specs.Status.{FULL, OK};

use crate::status;
use rx_ring::{Packet, RxIn};
use std::mem::size_of;

/// The state of a ring's input: `struct fq_ring_shown`.
#[repr(C)]
#[derive(Clone, Copy)]
pub struct FqRingShown {
    /// The size of this struct in bytes.
    pub size: usize,
    /// The packets that were put so far; the count saturates.
    pub put: u64,
    /// How many packets the ring can hold.
    pub capacity: usize,
}

/// The input end of a ring.
#[derive(Drop)]
pub struct RingInput {
    end: RxIn,
    shown: FqRingShown,
    ghost size: { shown.size ≡ 24 },
    ghost capacity: { shown.capacity ≡ capacity_of end },
    ghost put: { shown.put ≡ capped (length (put_list end)) },
}

impl RingInput {
    /// Returns the input of a new ring of this capacity.
    pub fn new(end: RxIn, capacity: usize) -> RingInput
        requires capacity { capacity_of end ≡ capacity }
        requires empty { put_list end ≡ [] }
        ensures { result.end ≡ end }
    {
        let shown = FqRingShown {
            size: size_of::<FqRingShown>(),
            put: 0,
            capacity,
        };
        RingInput { end, shown }
    }

    /// Returns the end, without its counts.
    pub fn into_end(self) -> RxIn
        ensures { result ≡ self.end }
    {
        let RingInput { end, shown: _ } = self;
        end
    }

    /// Returns the state of the input.
    pub fn shown(&self) -> FqRingShown
        ensures { result ≡ shown_of self.now.end }
    {
        self.shown
    }

    /// Like `RxIn::put`: returns OK or FULL.
    pub fn put(&mut self, packet: Packet) -> u32
        ensures ring { SameIn self.old.end self.new.end }
        ensures answers { (result ≡ OK) ⊎ (result ≡ FULL) }
        ensures ok { result ≡ OK
            → put_list self.new.end ≡ put_list self.old.end ++ packet ∷ [] }
        ensures full { result ≡ FULL → put_list self.new.end ≡ put_list self.old.end }
        ensures first { length (put_list self.old.end) < capacity_of self.old.end → result ≡ OK }
    {
        match self.end.put(packet) {
            Ok(()) => {
                self.shown.put = self.shown.put.saturating_add(1);
                status::OK
            }
            Err(_) => status::FULL,
        }
    }

    /// Like `RxIn::put_all`: returns how many packets were put.
    pub fn put_all(&mut self, packets: &[Packet]) -> usize
        ensures ring { SameIn self.old.end self.new.end }
        ensures put { put_list self.new.end
            ≡ put_list self.old.end ++ take result packets.now }
        ensures count { result ≤ length packets.now }
        ensures first { min (length packets.now)
            (capacity_of self.old.end - length (put_list self.old.end)) ≤ result }
    {
        let count = self.end.put_all(packets);
        self.shown.put = self.shown.put.saturating_add(count as u64);
        count
    }
}
