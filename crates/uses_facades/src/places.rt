//! A program that uses only `place_ring`: its contracts state how many packets it publishes and releases.

ghost use Rattle.std.specs.Prelude.{◌≡◌, ◌+◌, IfOk};
ghost use Rattle.place_ring.specs.Places.{published_of, claimed_of, released_of, peeked_of, IsPlacePair, OwnApart};

use place_ring::{PlaceFault, PlaceIn, PlaceOut, Places, ends_are_apart, place_ring};
use std::alloc::Global;

/// Makes a ring of 256 places.
pub fn of_256(alloc: Global) -> Result<(PlaceIn, PlaceOut), PlaceFault>
    ensures { IfOk result (λ r. IsPlacePair r.0 r.1) }
{
    place_ring(alloc, 256)
}

/// Publishes all packets that are claimed, and claims a burst.
pub fn publish_claimed(input: &mut PlaceIn) -> Places
    ensures { published_of input.new ≡ published_of input.old + claimed_of input.old }
{
    input.claim(input.claimed(), 32)
}

/// Releases all packets that are peeked, and peeks at a burst.
pub fn release_peeked(output: &mut PlaceOut) -> Places
    ensures { released_of output.new ≡ released_of output.old + peeked_of output.old }
{
    output.peek(output.peeked(), 32)
}

/// No element that is claimed is peeked at.
pub fn apart(input: &mut PlaceIn, output: &mut PlaceOut)
    requires { IsPlacePair input.old output.old }
    ensures { OwnApart input.old output.old }
{
    ends_are_apart(input, output);
}
