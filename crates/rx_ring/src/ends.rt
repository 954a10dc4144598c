//! The two ends of a ring.

ghost use Rattle.std.specs.Prelude.{◌≡◌, ◌+◌, ◌≤◌, ◌++◌, [], true, length, take, min};
ghost use mathlib.Core.List.{IsPrefix};
ghost use Rattle.rtrb.specs.Ring.{sent, received, known_items, known_free, producer_capacity, ConsumerLooked, SameConsumer};
ghost use Rattle.rx_ring.specs.ReceiveRing.{NAPI_POLL_WEIGHT, capped, bytes_of};

use crate::packet::{Batch, MAX_WEIGHT, Packet, RxCounts, bytes_in};
use core::mem::replace_with;
use rtrb::{Consumer, Producer, PushError};

/// The producer's end, to which an interrupt handler puts packets. It can be sent to another thread.
#[derive(Drop)]
pub struct RxIn {
    pub(crate) producer: Producer<Packet>,
    ghost first_fit: { producer_capacity producer ≤ known_free producer + length (sent producer) },
}

/// The consumer's end, which polls: the poll context of an instance. It can be sent from thread to thread.
#[derive(Drop)]
pub struct RxCtx {
    // On the heap, because a context is moved at each poll: so the move is one pointer.
    pub(crate) end: Box<PollEnd>,
}

/// The contents of a context.
#[derive(Drop)]
pub(crate) struct PollEnd {
    pub(crate) consumer: Consumer<Packet>,
    // Whether the mark of `beside` is set.
    pub(crate) mark: bool,
    pub(crate) polls: u64,
    pub(crate) packets: u64,
    pub(crate) bytes: u64,
    ghost packets_counted: { packets ≡ capped (length (received consumer)) },
    ghost bytes_counted: { bytes ≡ capped (bytes_of (received consumer)) },
}

impl RxIn {
    ghost use Rattle.std.specs.Prelude.{◌≡◌, ◌<◌, ◌≤◌, ◌+◌, ◌-◌, [], ◌∷◌, ◌++◌, length, take, min, IsOk, OnOk, IfErr, OnErr};
    ghost use Rattle.rx_ring.specs.Ends.{put_list, capacity_of, free_of, SameIn};

    /// Puts a packet at the end of the ring, or returns it if the ring is full; nothing changes then.
    ///
    /// The first `capacity` packets always fit. Later ones fit if polls have freed slots; this end learns of slots that were
    /// freed before the call. For a caller that owns both ends, [`beside`](crate::beside) makes all free slots known; each put
    /// uses one, and while some are known no put fails.
    pub fn put(&mut self, packet: Packet) -> Result<(), Packet>
        ensures ring { SameIn self.old self.new }
        ensures ok { OnOk result (put_list self.new ≡ put_list self.old ++ packet ∷ []) }
        ensures full { OnErr result (put_list self.new ≡ put_list self.old) }
        ensures back { IfErr result (λ p. p ≡ packet) }
        ensures first { length (put_list self.old) < capacity_of self.old → IsOk result }
        ensures fits { 0 < free_of self.old → IsOk result }
        ensures used { OnOk result (free_of self.old ≤ free_of self.new + 1) }
    {
        match self.producer.push(packet) {
            Ok(()) => Ok(()),
            Err(PushError::Full(back)) => Err(back),
        }
    }

    /// Puts a burst at the end of the ring, in order: as many of its first packets as fit. Returns how many these are; the
    /// caller may put the others later.
    ///
    /// Which packets fit is as for [`put`](RxIn::put); the poll's end sees all of them at once.
    #[inline(always)]
    pub fn put_all(&mut self, packets: &[Packet]) -> usize
        ensures ring { SameIn self.old self.new }
        ensures put { put_list self.new ≡ put_list self.old ++ take result packets.now }
        ensures count { result ≤ length packets.now }
        ensures first { min (length packets.now) (capacity_of self.old - length (put_list self.old))
            ≤ result }
        ensures fits { min (length packets.now) (free_of self.old) ≤ result }
        ensures used { free_of self.old ≤ free_of self.new + result }
    {
        let (put, _) = self.producer.push_partial_slice(packets);
        put.len()
    }
}

impl RxCtx {
    ghost use Rattle.std.specs.Prelude.{◌≡◌, ◌≤◌, length, take, drop, false};
    ghost use Rattle.rx_ring.specs.ReceiveRing.{NAPI_POLL_WEIGHT, counts_of};
    ghost use Rattle.rx_ring.specs.Ends.{received_list, known_list, polls_of, is_beside, SameCtx, GivesNext};

    /// The counts of the polls so far.
    pub fn counts(&self) -> RxCounts
        ensures { result ≡ counts_of (polls_of self.now) (received_list self.now) }
    {
        RxCounts {
            polls: self.end.polls,
            packets: self.end.packets,
            bytes: self.end.bytes,
        }
    }

    /// Polls once, like a driver's `poll` that `__napi_poll` calls: clears the batch, and moves the ring's next packets into
    /// it, at most `weight`, which is 1 to [`MAX_WEIGHT`](crate::MAX_WEIGHT). Returns how many these are.
    ///
    /// If fewer packets are known than the weight allows, it reads the ring first, and so finds what was put before the call. A
    /// poll right after [`beside`](crate::beside) doesn't read it again: it returns exactly the lesser of the weight and what
    /// the ring held then, and leaves what was put since to later polls.
    pub fn poll(&mut self, weight: usize, batch: &mut Batch) -> usize
        requires { (1 ≤ weight) × (weight ≤ NAPI_POLL_WEIGHT) }
        ensures next { GivesNext weight self.old self.new batch.new.items }
        ensures work { result ≡ length batch.new.items }
    {
        self.end.poll(weight, batch)
    }

    /// Like [`poll`](RxCtx::poll), into an array that has room for at least `weight` packets: it moves the packets into the first
    /// elements, and returns how many these are. The array's other elements stay as they are.
    #[inline(always)]
    pub fn poll_into(&mut self, weight: usize, packets: &mut [Packet]) -> usize
        requires weight { (1 ≤ weight) × (weight ≤ NAPI_POLL_WEIGHT) }
        requires room { weight ≤ length packets.old }
        ensures next { GivesNext weight self.old self.new (take result packets.new) }
        ensures work { result ≤ weight }
        ensures others { drop result packets.new ≡ drop result packets.old }
    {
        self.end.poll_into(weight, packets)
    }

    /// Clears the mark that [`beside`](crate::beside) sets, so that the next poll reads the ring again. Call it before another
    /// thread may put packets: otherwise the next poll would overlook them.
    #[tactic(auto, unfolding(crate::specs::Ends::is_beside))]
    pub fn apart(&mut self)
        ensures ring { SameCtx self.old self.new }
        ensures received { received_list self.new ≡ received_list self.old }
        ensures known { known_list self.new ≡ known_list self.old }
        ensures polls { polls_of self.new ≡ polls_of self.old }
        ensures unmarked { is_beside self.new ≡ false }
    {
        self.end.mark = false;
    }
}

impl PollEnd {
    ghost use Rattle.std.specs.Prelude.{◌≡◌, ◌+◌, ◌≤◌, ◌++◌, length, take, drop, false};
    ghost use Rattle.rx_ring.specs.Ends.{Gives};
    ghost use Rattle.rx_ring.specs.Taking.{TakesKnown};

    fn poll(&mut self, weight: usize, batch: &mut Batch) -> usize
        requires { (1 ≤ weight) × (weight ≤ NAPI_POLL_WEIGHT) }
        ensures next { Gives weight self.old self.new batch.new.items }
        ensures work { result ≡ length batch.new.items }
    {
        let count = due(&mut self.consumer, self.mark, weight);
        resize(batch, count);
        self.take(batch.as_mut_slice())
    }

    #[inline(never)]
    fn poll_into(&mut self, weight: usize, packets: &mut [Packet]) -> usize
        requires weight { (1 ≤ weight) × (weight ≤ NAPI_POLL_WEIGHT) }
        requires room { weight ≤ length packets.old }
        ensures next { Gives weight self.old self.new (take result packets.new) }
        ensures work { result ≤ weight }
        ensures others { drop result packets.new ≡ drop result packets.old }
    {
        let count = due(&mut self.consumer, self.mark, weight);
        if count == 1 {
            return self.take(&mut packets[..1]);
        }
        self.take_burst(&mut packets[..count])
    }

    // The same as `take`, as a function of its own: a burst needs more registers than a single packet.
    #[inline(never)]
    fn take_burst(&mut self, packets: &mut [Packet]) -> usize
        requires known { length packets.old ≤ length (known_items self.old.consumer) }
        requires room { length packets.old ≤ NAPI_POLL_WEIGHT }
        ensures takes { TakesKnown result self.old self.new packets.new }
        ensures count { result ≡ length packets.old }
    {
        self.take(packets)
    }

    // A poll that takes as many packets as the slice has elements, and returns how many these are.
    #[inline(always)]
    fn take(&mut self, packets: &mut [Packet]) -> usize
        requires known { length packets.old ≤ length (known_items self.old.consumer) }
        requires room { length packets.old ≤ NAPI_POLL_WEIGHT }
        ensures takes { TakesKnown result self.old self.new packets.new }
        ensures count { result ≡ length packets.old }
    {
        let bytes = take_known(&mut self.consumer, packets);
        self.bytes = self.bytes.saturating_add(bytes);
        self.packets = self.packets.saturating_add(packets.len() as u64);
        self.polls = self.polls.saturating_add(1);
        self.mark = false;
        packets.len()
    }
}

// Reads the ring if the mark isn't set and fewer packets are known than the weight allows. Returns how many packets a poll takes.
#[inline(always)]
fn due(consumer: &mut Consumer<Packet>, mark: bool, weight: usize) -> usize
    ensures looked { ConsumerLooked consumer.old consumer.new }
    ensures count { result ≡ min weight (length (known_items consumer.new)) }
    ensures marked { mark ≡ true → consumer.new ≡ consumer.old }
{
    let known = consumer.cached_slots();
    if !mark && known < weight {
        return consumer.slots().min(weight);
    }
    known.min(weight)
}

// Moves as many packets that the consumer knows of as the slice has elements into it, in one step, and returns the sum of
// their bytes.
#[inline(always)]
fn take_known(consumer: &mut Consumer<Packet>, packets: &mut [Packet]) -> u64
    requires known { length packets.old ≤ length (known_items consumer.old) }
    requires room { length packets.old ≤ NAPI_POLL_WEIGHT }
    ensures ring { SameConsumer consumer.old consumer.new }
    ensures taken { packets.new ≡ take (length packets.old) (known_items consumer.old) }
    ensures received { received consumer.new ≡ received consumer.old ++ packets.new }
    ensures known { IsPrefix (known_items consumer.old)
        (packets.new ++ known_items consumer.new) }
    ensures bytes { result ≡ bytes_of packets.new }
{
    // A single packet, as under light load, needs no slice.
    if packets.len() == 1 {
        let packet = consumer.pop_known();
        packets[0] = packet;
        return u64::from(packet.bytes);
    }
    bytes_in(replace_with(consumer, packets, pop_burst))
}

// Fills the slice with packets that the consumer knows of, in one step. It takes the consumer by value, so that the loop keeps
// its fields in registers.
#[inline(always)]
fn pop_burst<'a>(
    mut consumer: Consumer<Packet>,
    packets: &'a mut [Packet],
) -> (Consumer<Packet>, &'a mut [Packet])
    requires { length packets.now ≤ length (known_items consumer) }
    ensures same { result.1.ghost_name ≡ packets.entry.ghost_name }
    ensures ring { SameConsumer consumer result.0 }
    ensures received { received result.0 ≡ received consumer ++ result.1.now }
    ensures taken { result.1.now ≡ take (length packets.entry.now) (known_items consumer) }
    ensures known { IsPrefix (known_items consumer) (result.1.now ++ known_items result.0) }
{
    let Ok(()) = consumer.pop_entire_slice(packets) else {
        unreachable!();
    };
    (consumer, packets)
}

const BLANKS: [Packet; MAX_WEIGHT] = [Packet {
    number: 0,
    bytes: 0,
}; MAX_WEIGHT];

// Resizes the batch to `count` packets. All of them are overwritten, so only new ones are filled.
fn resize(batch: &mut Batch, count: usize)
    requires { count ≤ NAPI_POLL_WEIGHT }
    ensures { length batch.new.items ≡ count }
{
    batch.truncate(count);
    if batch.len() < count {
        let Ok(()) = batch.try_extend_from_slice(&BLANKS[batch.len()..count]) else {
            unreachable!();
        };
    }
}
