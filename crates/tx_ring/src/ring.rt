//! The transmit ring.

ghost use Rattle.std.specs.Prelude.{◌≡◌, ◌+◌, ◌<◌, ◌≤◌, ◌^◌, ◌&&◌, length, sum, take, drop};
ghost use Rattle.dql_core.specs.Dql.{Shows, bytes_in_flight};
ghost use Rattle.dql_core.specs.declared.whole.Limit.{Limit};
ghost use Rattle.tx_ring.specs.Queue.{is_over};

use crate::event::{TxEvent, TxFault, TxState};
use circular_buffer::HeapCircularBuffer;
use dql_core::{Dql, DqlFault};
use std::alloc::Global;

/// The greatest capacity of a ring, in packets.
pub const MAX_CAPACITY: usize = 65_536;

/// A transmit ring: the sizes of the packets that were sent and aren't complete, the limit on their bytes, and whether the
/// queue is stopped.
///
/// A new ring isn't stopped. A send stops it if [`Dql::avail`] becomes negative (`netdev_tx_sent_queue`). A completion of more
/// than 0 bytes starts it if `avail` isn't negative then; any other leaves it as it was (`netdev_tx_completed_queue`). Only
/// [`new`](TxRing::new) allocates.
#[derive(Drop)]
pub struct TxRing {
    limit: Dql,
    sizes: HeapCircularBuffer<u32>,
    stopped: bool,
    ghost counted: { sum sizes.items ≡ bytes_in_flight limit },
    ghost fits: { length sizes.items ≤ sizes.capacity },
}

impl TxRing {
    ghost use Rattle.std.specs.Prelude.{◌≡◌, ◌≢◌, ℕ, ◌+◌, ◌<◌, ◌≤◌, ◌⊎◌, ◌↔◌, length, IfOk, IfErr, OnOk, OnErr, IsErrOf};
    ghost use Rattle.std.specs.Result.{result_err};
    ghost use Rattle.dql_core.specs.Accepted.{accepted, after_all};
    ghost use Rattle.dql_core.specs.Dql.{Shows, IsNewLimit};
    ghost use Rattle.dql_core.specs.Limit.{new_limit};
    ghost use Rattle.tx_ring.specs.Queue.{TransmitQueue, most_tx_places, opening_queue, tx_state, after_send, after_done, send_fault, done_fault, tx_event_fault, tx_after};
    ghost use Rattle.tx_ring.specs.Ring.{ShowsQueue};
    ghost use Rattle.tx_ring.specs.declared.event.TxFault.TheVariants.{BadCapacity, OutOfMemory};

    /// Returns a new ring for `capacity` packets, with a limit that is new or was just reset; the queue isn't stopped.
    ///
    /// Fails with [`BadCapacity`](TxFault::BadCapacity) if `capacity` is 0 or over [`MAX_CAPACITY`], otherwise with
    /// [`OutOfMemory`](TxFault::OutOfMemory) if the allocation fails. The limit is dropped then.
    pub fn new(alloc: Global, capacity: usize, limit: Dql) -> Result<TxRing, TxFault>
        requires { IsNewLimit limit }
        ensures ok { (min max hold now : ℕ) → Shows limit (new_limit min max hold now)
            → IfOk result (λ r. ShowsQueue r
            (opening_queue capacity (new_limit min max hold now))) }
        ensures bad { IsErrOf result BadCapacity ↔ ((capacity ≡ 0) ⊎ (most_tx_places < capacity)) }
        ensures memory { IfErr result (λ e. e ≢ BadCapacity → e ≡ OutOfMemory) }
    {
        if capacity == 0 || capacity > MAX_CAPACITY {
            return Err(TxFault::BadCapacity);
        }
        match HeapCircularBuffer::with_capacity(alloc, capacity) {
            Ok(sizes) => Ok(TxRing {
                limit,
                sizes,
                stopped: false,
            }),
            Err(_) => Err(TxFault::OutOfMemory),
        }
    }

    /// The state of the ring.
    pub fn state(&self) -> TxState
        ensures { (t : TransmitQueue) → ShowsQueue self.now t → result ≡ tx_state t }
    {
        TxState {
            queued: self.limit.total_queued(),
            completed: self.limit.total_completed(),
            limit: self.limit.limit(),
            avail: self.limit.avail(),
            stopped: self.stopped,
        }
    }

    /// Sends a packet of `bytes` bytes, and stops the queue if the bytes available become negative.
    ///
    /// Fails, in this order, with [`Stopped`](TxFault::Stopped) if the queue is stopped, [`Full`](TxFault::Full) if the ring is
    /// full, [`TooLarge`](TxFault::TooLarge) if `bytes` is over [`dql_core::MAX_OBJECT`], and
    /// [`TooMuchInFlight`](TxFault::TooMuchInFlight) if more than [`dql_core::MAX_IN_FLIGHT`] bytes would be in flight. The
    /// packet isn't sent then, and nothing changes.
    pub fn send(&mut self, bytes: u32) -> Result<(), TxFault>
        ensures ok { (t : TransmitQueue) → ShowsQueue self.old t
            → OnOk result (ShowsQueue self.new (after_send t bytes)) }
        ensures err { OnErr result (self.new ≡ self.old) }
        ensures fault { (t : TransmitQueue) → ShowsQueue self.old t
            → result_err result ≡ send_fault t bytes }
    {
        if self.stopped {
            return Err(TxFault::Stopped);
        }
        if self.sizes.is_full() {
            return Err(TxFault::Full);
        }
        match self.limit.queued(bytes) {
            Ok(()) => {}
            Err(DqlFault::TooLarge) => return Err(TxFault::TooLarge),
            Err(_) => return Err(TxFault::TooMuchInFlight),
        }
        let Ok(()) = self.sizes.try_push_back(bytes) else {
            unreachable!();
        };
        self.stopped = is_over(&self.limit);
        Ok(())
    }

    /// Completes the `count` oldest packets at the time `now`. If they have more than 0 bytes, it reports these to the limit,
    /// and starts a stopped queue if the bytes available aren't negative; otherwise the limit isn't changed.
    ///
    /// Fails with [`MoreThanSent`](TxFault::MoreThanSent) if the ring holds fewer packets; nothing changes then.
    pub fn done(&mut self, count: u32, now: u64) -> Result<(), TxFault>
        ensures ok { (t : TransmitQueue) → ShowsQueue self.old t
            → OnOk result (ShowsQueue self.new (after_done t count now)) }
        ensures err { OnErr result (self.new ≡ self.old) }
        ensures fault { (t : TransmitQueue) → ShowsQueue self.old t
            → result_err result ≡ done_fault t count }
    {
        if count as usize > self.sizes.len() {
            return Err(TxFault::MoreThanSent);
        }
        let bytes = take_front(&mut self.sizes, count as usize);
        if bytes > 0 {
            let Ok(()) = self.limit.completed(bytes, now) else {
                unreachable!();
            };
            self.stopped = stays_stopped(self.stopped, &self.limit);
        }
        Ok(())
    }

    /// Makes these calls in order, and returns how many failed.
    pub fn run(&mut self, events: &[TxEvent]) -> u64
        ensures state { (t : TransmitQueue) → ShowsQueue self.old t
            → ShowsQueue self.new (after_all tx_event_fault tx_after t events.now) }
        ensures refused { (t : TransmitQueue) → ShowsQueue self.old t
            → result + length (accepted tx_event_fault tx_after t events.now) ≡ length events.now }
    {
        let mut refused = 0u64;
        for i in 0..events.len() {
            let event = events[i];
            refused += u64::from(self.apply(event).is_err());
        }
        refused
    }

    // Makes the call that the event names.
    fn apply(&mut self, event: TxEvent) -> Result<(), TxFault>
        ensures ok { (t : TransmitQueue) → ShowsQueue self.old t
            → OnOk result (ShowsQueue self.new (tx_after t event)) }
        ensures err { OnErr result (self.new ≡ self.old) }
        ensures fault { (t : TransmitQueue) → ShowsQueue self.old t
            → result_err result ≡ tx_event_fault t event }
    {
        match event {
            TxEvent::Send(bytes) => self.send(bytes),
            TxEvent::Finish(count, now) => self.done(count, now),
        }
    }
}

fn is_over(limit: &Dql) -> bool
    ensures { (s : Limit) → Shows limit.now s → result ≡ is_over s }
{
    limit.avail() < 0
}

fn stays_stopped(stopped: bool, limit: &Dql) -> bool
    ensures { (s : Limit) → Shows limit.now s → result ≡ (stopped && is_over s) }
{
    stopped && is_over(limit)
}

// Removes the oldest sizes, and returns their sum.
#[tactic(auto, using(crate::proofs::Sums::sums))]
fn take_front(sizes: &mut HeapCircularBuffer<u32>, count: usize) -> u32
    requires { (count ≤ length sizes.old.items) × (sum sizes.old.items < 2 ^ 32) }
    ensures rest { (sizes.new.items ≡ drop count sizes.old.items)
        × (sizes.new.capacity ≡ sizes.old.capacity) }
    ensures parts { result + sum sizes.new.items ≡ sum sizes.old.items }
    ensures taken { result ≡ sum (take count sizes.old.items) }
{
    let mut bytes = 0u32;
    for _ in 0..count {
        let Some(size) = sizes.pop_front() else {
            unreachable!();
        };
        bytes += size;
    }
    bytes
}
