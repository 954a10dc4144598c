//! The two ends of a ring of places.

ghost use Rattle.std.specs.Prelude.{◌≡◌, ◌+◌, ◌%◌, ◌<◌, ◌≤◌, length};
ghost use Rattle.rtrb.specs.Ring.{sent, received, known_items, known_free, producer_capacity, consumer_capacity};
ghost use Rattle.place_ring.specs.Bounds.{most_ring_places, most_at_once};

use rtrb::{Consumer, Producer};

/// The most places that a claim or a peek gives: a poll's greatest weight (`NAPI_POLL_WEIGHT`, `include/linux/netdevice.h`).
pub const MOST_PLACES: usize = 64;

// What the ring of positions contains: an item without a size for each packet.
const UNITS: [(); MOST_PLACES] = [(); MOST_PLACES];

/// Places of the caller's array that are side by side.
#[repr(C)]
#[derive(Clone, Copy, Debug, PartialEq, Eq)]
pub struct Places {
    /// The index of the first one.
    pub first: usize,
    /// How many there are.
    pub count: usize,
}

/// The end that publishes packets. It can be sent to another thread.
#[derive(Drop)]
pub struct PlaceIn {
    pub(crate) producer: Producer<()>,
    // the place of the next packet
    pub(crate) first: usize,
    // how many places from there on were claimed
    pub(crate) claimed: usize,
    ghost size: { (0 < producer_capacity producer) × (producer_capacity producer ≤ most_ring_places) },
    ghost next: { first ≡ length (sent producer) % producer_capacity producer },
    ghost owned: { (claimed ≤ known_free producer) × (claimed ≤ most_at_once) × (first + claimed ≤ producer_capacity producer) },
}

/// The end that takes packets. It can be sent to another thread.
#[derive(Drop)]
pub struct PlaceOut {
    pub(crate) consumer: Consumer<()>,
    // the place of the oldest packet
    pub(crate) first: usize,
    // how many places from there on were peeked
    pub(crate) peeked: usize,
    ghost size: { (0 < consumer_capacity consumer) × (consumer_capacity consumer ≤ most_ring_places) },
    ghost next: { first ≡ length (received consumer) % consumer_capacity consumer },
    ghost owned: { (peeked ≤ length (known_items consumer)) × (peeked ≤ most_at_once) × (first + peeked ≤ consumer_capacity consumer) },
}

impl PlaceIn {
    ghost use Rattle.std.specs.Prelude.{◌≡◌, ◌+◌, ◌<◌, ◌≤◌};
    ghost use Rattle.place_ring.specs.Places.{published_of, claimed_of, free_places_of, SamePlaceIn, Claims};

    /// How many places are claimed.
    pub fn claimed(&self) -> usize
        ensures { result ≡ claimed_of self.now }
    {
        self.claimed
    }

    /// Publishes the packets in the first `publish` of the places that were claimed last; all other claims end. Then claims up to
    /// `want` places and at most [`MOST_PLACES`], which are the caller's until the next call.
    ///
    /// They are side by side, so a claim ends at the last place of the array; the next one begins at the first. It gives fewer
    /// than it was asked for only there, or if the ring is full. Claiming 0 places only publishes.
    pub fn claim(&mut self, publish: usize, want: usize) -> Places
        requires { publish ≤ claimed_of self.old }
        ensures { Claims publish want self.old self.new result }
    {
        if publish > 0 {
            self.publish(publish);
        }
        let wanted = want
            .min(MOST_PLACES)
            .min(self.producer.capacity() - self.first);
        let mut free = self.producer.cached_slots();
        if free < wanted {
            free = self.producer.slots();
        }
        self.claimed = wanted.min(free);
        Places {
            first: self.first,
            count: self.claimed,
        }
    }

    // Publishes some of the claimed places; the other claims end.
    #[inline(always)]
    fn publish(&mut self, count: usize)
        requires { (0 < count) × (count ≤ claimed_of self.old) }
        ensures ring { SamePlaceIn self.old self.new }
        ensures published { published_of self.new ≡ published_of self.old + count }
        ensures free { free_places_of self.old ≤ free_places_of self.new + count }
        ensures none { claimed_of self.new ≡ 0 }
    {
        let Ok(()) = self.producer.push_entire_slice(&UNITS[..count]) else {
            unreachable!();
        };
        self.first = after(self.first, count, self.producer.capacity());
        self.claimed = 0;
    }
}

impl PlaceOut {
    ghost use Rattle.std.specs.Prelude.{◌≡◌, ◌+◌, ◌<◌, ◌≤◌};
    ghost use Rattle.place_ring.specs.Places.{released_of, peeked_of, known_of, SamePlaceOut, Peeks};

    /// How many places are peeked.
    pub fn peeked(&self) -> usize
        ensures { result ≡ peeked_of self.now }
    {
        self.peeked
    }

    /// Releases the first `release` of the places that were peeked last: the input may claim them again. Then peeks at up to `want`
    /// published packets and at most [`MOST_PLACES`], the oldest ones, whose places are the caller's until the next call.
    ///
    /// They are side by side, so a peek ends at the last place of the array. It gives fewer than it was asked for only there, or
    /// if no more packets were published. Packets that are peeked and not released are peeked again. Peeking at 0 only releases.
    pub fn peek(&mut self, release: usize, want: usize) -> Places
        requires { release ≤ peeked_of self.old }
        ensures { Peeks release want self.old self.new result }
    {
        if release > 0 {
            self.release(release);
        }
        let wanted = want
            .min(MOST_PLACES)
            .min(self.consumer.capacity() - self.first);
        let mut known = self.consumer.cached_slots();
        if known < wanted {
            known = self.consumer.slots();
        }
        self.peeked = wanted.min(known);
        Places {
            first: self.first,
            count: self.peeked,
        }
    }

    // Releases some of the peeked places; the others aren't peeked any more.
    #[inline(always)]
    fn release(&mut self, count: usize)
        requires { (0 < count) × (count ≤ peeked_of self.old) }
        ensures ring { SamePlaceOut self.old self.new }
        ensures released { released_of self.new ≡ released_of self.old + count }
        ensures known { known_of self.old ≤ known_of self.new + count }
        ensures none { peeked_of self.new ≡ 0 }
    {
        let mut units = UNITS;
        let Ok(()) = self.consumer.pop_entire_slice(&mut units[..count]) else {
            unreachable!();
        };
        self.first = after(self.first, count, self.consumer.capacity());
        self.peeked = 0;
    }
}

// Returns the place that is `count` after `first`.
#[inline(always)]
fn after(first: usize, count: usize, capacity: usize) -> usize
    requires { (first < capacity) × (first + count ≤ capacity) × (capacity ≤ most_ring_places) }
    ensures { result ≡ (first + count) % capacity }
{
    let next = first + count;
    if next == capacity { 0 } else { next }
}
