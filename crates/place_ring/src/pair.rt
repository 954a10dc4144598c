//! Functions on both ends of a ring of places.

ghost use Rattle.std.specs.Prelude.{◌≡◌, ◌≢◌, ◌<◌, ◌⊎◌, ◌↔◌, IfOk, IfErr, IsErrOf};
ghost use Rattle.place_ring.specs.Bounds.{most_ring_places};
ghost use Rattle.place_ring.specs.Places.{input_capacity, output_capacity, published_of, claimed_of, free_places_of, released_of, peeked_of, IsPlacePair, OwnApart};
ghost use Rattle.place_ring.specs.declared.pair.PlaceFault.TheVariants.{BadCapacity, OutOfMemory};

use crate::ends::{PlaceIn, PlaceOut};
use rtrb::RingBuffer;
use std::alloc::Global;
use thiserror::Error;

/// The greatest capacity of a ring, in places.
pub const MAX_CAPACITY: usize = 65_536;

/// Why a ring of places can't be made.
#[derive(Clone, Copy, Debug, PartialEq, Eq, Error)]
pub enum PlaceFault {
    /// Out of memory.
    #[error("out of memory")]
    OutOfMemory,
    /// A capacity of 0, or of more than [`MAX_CAPACITY`] places.
    #[error("the capacity is out of range")]
    BadCapacity,
}

/// Returns the two ends of a new ring for `capacity` packets, whose array has as many elements. No other call here allocates.
///
/// Fails with [`BadCapacity`](PlaceFault::BadCapacity) if `capacity` is 0 or over [`MAX_CAPACITY`], otherwise with
/// [`OutOfMemory`](PlaceFault::OutOfMemory) if the allocation fails.
pub fn place_ring(alloc: Global, capacity: usize) -> Result<(PlaceIn, PlaceOut), PlaceFault>
    ensures one { IfOk result (λ r. IsPlacePair r.0 r.1) }
    ensures capacity { IfOk result
        (λ r. (input_capacity r.0 ≡ capacity) × (output_capacity r.1 ≡ capacity)) }
    ensures empty { IfOk result (λ r. (published_of r.0 ≡ 0) × (released_of r.1 ≡ 0)) }
    ensures free { IfOk result (λ r. free_places_of r.0 ≡ capacity) }
    ensures unowned { IfOk result (λ r. (claimed_of r.0 ≡ 0) × (peeked_of r.1 ≡ 0)) }
    ensures bad { IsErrOf result BadCapacity ↔ ((capacity ≡ 0) ⊎ (most_ring_places < capacity)) }
    ensures memory { IfErr result (λ e. e ≢ BadCapacity → e ≡ OutOfMemory) }
{
    if capacity == 0 || capacity > MAX_CAPACITY {
        return Err(PlaceFault::BadCapacity);
    }
    match RingBuffer::new(alloc, capacity) {
        Ok((producer, consumer)) => {
            let input = PlaceIn {
                producer,
                first: 0,
                claimed: 0,
            };
            let output = PlaceOut {
                consumer,
                first: 0,
                peeked: 0,
            };
            Ok((input, output))
        }
        Err(_) => Err(PlaceFault::OutOfMemory),
    }
}

/// Law: no place belongs to both ends of a ring. The output end owns only places of published packets, and the input end none of
/// a packet that isn't released. Nothing changes.
pub fn ends_are_apart(input: &mut PlaceIn, output: &mut PlaceOut)
    requires { IsPlacePair input.old output.old }
    ensures { OwnApart input.old output.old }
{
    input.producer.slots_beside(&mut output.consumer);
    output.consumer.slots_beside(&mut input.producer);
}
