//! Functions on both ends of a ring: it is made, its ends meet, and it is finished.

ghost use Rattle.std.specs.Prelude.{◌≡◌, ◌≢◌, ◌+◌, ◌<◌, ◌^◌, ◌++◌, ◌⊎◌, ◌↔◌, [], false, length, IfOk, IfErr, IsErrOf};
ghost use Rattle.rtrb.specs.Ring.{received, known_items, IsPair};
ghost use Rattle.rx_ring.specs.ReceiveRing.{most_rx_places, capped, bytes_of, IsInOrder, totals_of};
ghost use Rattle.rx_ring.specs.Ends.{put_list, capacity_of, received_list, known_list, polls_of, is_beside, IsOneRing, ring_of, Meets, Meeting, NamesTellRings};
ghost use Rattle.rx_ring.specs.declared.fault.RingFault.TheVariants.{BadCapacity, OutOfMemory};

use crate::ends::{PollEnd, RxCtx, RxIn};
use crate::fault::RingFault;
use crate::packet::{Packet, Totals};
use rtrb::{Consumer, RingBuffer};
use std::alloc::Global;

/// The greatest capacity of a ring, in packets.
pub const MAX_CAPACITY: usize = 65_536;

/// Returns the two ends of a new ring for `capacity` packets. It is the only call here that allocates: the packets, and the
/// contents of the context.
///
/// Fails with [`BadCapacity`](RingFault::BadCapacity) if `capacity` is 0 or over [`MAX_CAPACITY`], otherwise with
/// [`OutOfMemory`](RingFault::OutOfMemory) if the allocation fails.
#[tactic(auto, unfolding(crate::specs::Ends::is_beside))]
pub fn ring(alloc: Global, capacity: usize) -> Result<(RxIn, RxCtx), RingFault>
    ensures one { IfOk result (λ r. IsOneRing r.0 r.1) }
    ensures capacity { IfOk result (λ r. capacity_of r.0 ≡ capacity) }
    ensures empty { IfOk result
        (λ r. (put_list r.0 ≡ []) × (received_list r.1 ≡ []) × (known_list r.1 ≡ [])) }
    ensures unpolled { IfOk result (λ r. (polls_of r.1 ≡ 0) × (is_beside r.1 ≡ false)) }
    ensures bad { IsErrOf result BadCapacity ↔ ((capacity ≡ 0) ⊎ (most_rx_places < capacity)) }
    ensures memory { IfErr result (λ e. e ≢ BadCapacity → e ≡ OutOfMemory) }
{
    if capacity == 0 || capacity > MAX_CAPACITY {
        return Err(RingFault::BadCapacity);
    }
    match RingBuffer::new(alloc, capacity) {
        Ok((producer, consumer)) => {
            let end = PollEnd {
                consumer,
                mark: false,
                polls: 0,
                packets: 0,
                bytes: 0,
            };
            match Box::new(alloc, end) {
                Ok(end) => Ok((RxIn { producer }, RxCtx { end })),
                Err(_) => Err(RingFault::OutOfMemory),
            }
        }
        Err(_) => Err(RingFault::OutOfMemory),
    }
}

/// Lets the two ends of one ring meet: the context learns of all packets in the ring, and gets a mark; the other end learns of
/// all free slots. Nothing is put or received.
///
/// A poll right after it returns exactly the lesser of the weight and what the ring holds. That poll clears the mark, and so
/// does [`RxCtx::apart`].
pub fn beside(input: &mut RxIn, ctx: &mut RxCtx)
    requires { IsOneRing input.old ctx.old }
    ensures { Meets input.old ctx.old input.new ctx.new }
{
    meet(input, &mut *ctx.end);
}

fn meet(input: &mut RxIn, end: &mut PollEnd)
    requires { IsPair input.old.producer end.old.consumer }
    ensures { Meeting input.old end.old input.new end.new }
{
    input.producer.slots_beside(&mut end.consumer);
    end.consumer.slots_beside(&mut input.producer);
    end.mark = true;
}

/// Finishes a ring, from its two ends: returns how many packets were put, received and left, and the bytes of all.
pub fn finish(input: RxIn, ctx: RxCtx) -> Totals
    requires { IsOneRing input ctx }
    ensures totals { result ≡ totals_of (ring_of input ctx) }
    ensures order { IsInOrder (ring_of input ctx) }
    ensures sum { length (put_list input) < 2 ^ 64 → result.put ≡ result.polled + result.left }
{
    let mut input = input;
    let mut ctx = ctx;
    beside(&mut input, &mut ctx);
    let PollEnd {
        mut consumer,
        mark: _,
        polls: _,
        packets,
        bytes,
    } = Box::into_inner(ctx.end);
    let left = consumer.cached_slots();
    Totals {
        put: packets.saturating_add(left as u64),
        polled: packets,
        left: left as u64,
        bytes: count_left(&mut consumer, left, bytes),
    }
}

// Adds the bytes of the packets that are left to those counted so far.
fn count_left(consumer: &mut Consumer<Packet>, left: usize, bytes: u64) -> u64
    requires left { left ≡ length (known_items consumer.old) }
    requires bytes { bytes ≡ capped (bytes_of (received consumer.old)) }
    ensures { result ≡ capped (bytes_of (received consumer.old ++ known_items consumer.old)) }
{
    let mut bytes = bytes;
    for _ in 0..left {
        bytes = bytes.saturating_add(u64::from(consumer.pop_known().bytes));
    }
    bytes
}

/// Law: two contexts belong to the same ring exactly if their rings have the same name. So a name can stand for the ring where
/// the context itself isn't accessible, as in a slot.
pub fn names_tell_rings()
    ensures { NamesTellRings }
{}
