//! Rings of places for C: the packets stay in an array of the program's.
ghost use Rattle.std.specs.Prelude.{◌≡◌, ◌≢◌, ◌<◌, ◌⊎◌, ◌↔◌, Some, IsNone, IsSome};
ghost use Rattle.place_ring.specs.Bounds.{most_ring_places};
ghost use Rattle.place_ring.specs.Places.{Claims, Peeks, claimed_of, peeked_of};
ghost use Rattle.place_ring.specs.declared.ends.{PlaceIn.PlaceIn, PlaceOut.PlaceOut};
ghost use Rattle.c_handles.specs.declared.body.Object.TheVariants as variant;
ghost use Rattle.c_handles.specs.Status.{OK, NOT_ALLOWED, BAD_HANDLE, IN_USE, OUT_OF_MEMORY, BAD_CAPACITY};
ghost use Rattle.c_handles.specs.Rings.{LeadsToPlaceIn, LeadsToPlaceOut, AreNewPlaces};
ghost use Rattle.napi_c.specs.Objects.{is_place_in, is_place_out, LeadsToOther};

use c_handles::{FqHandle, Object, status};
use place_ring::{PlaceFault, place_ring};
use std::alloc::Global;

/// Like `place_ring::place_ring`: each handle gets one end.
#[unsafe(no_mangle)]
pub extern "C" fn fq_ring_places(
    alloc: Global,
    input: &mut FqHandle,
    output: &mut FqHandle,
    capacity: usize,
) -> u32
    ensures made { result ≡ OK → LeadsToPlaceIn
        (λ i. LeadsToPlaceOut (AreNewPlaces capacity i) output.new.held.body) input.new.held.body }
    ensures kept { result ≢ OK → (input.new ≡ input.old) × (output.new ≡ output.old) }
    ensures in_use { (result ≡ IN_USE)
        ↔ (IsSome input.old.held.body ⊎ IsSome output.old.held.body) }
    ensures capacity { (result ≡ BAD_CAPACITY) ↔ (IsNone input.old.held.body
        × IsNone output.old.held.body × ((capacity ≡ 0) ⊎ (most_ring_places < capacity))) }
    ensures memory { result ≢ OK → result ≢ IN_USE → result ≢ BAD_CAPACITY
        → result ≡ OUT_OF_MEMORY }
{
    if input.is_set() || output.is_set() {
        return status::IN_USE;
    }
    let (first, second) = match place_ring(alloc, capacity) {
        Ok(ends) => ends,
        Err(PlaceFault::OutOfMemory) => return status::OUT_OF_MEMORY,
        Err(PlaceFault::BadCapacity) => return status::BAD_CAPACITY,
    };
    let Ok(first) = Box::new(alloc, Object::PlaceIn(first)) else {
        return status::OUT_OF_MEMORY;
    };
    let Ok(second) = Box::new(alloc, Object::PlaceOut(second)) else {
        return status::OUT_OF_MEMORY;
    };
    input.put(first);
    output.put(second);
    status::OK
}

/// Like `PlaceIn::claim`: sets the index of the first place and how many there are. Returns NOT_ALLOWED if fewer than `publish`
/// places are claimed.
#[unsafe(no_mangle)]
pub extern "C" fn fq_ring_claim(
    handle: &mut FqHandle,
    publish: usize,
    want: usize,
    first: &mut usize,
    count: &mut usize,
) -> u32
    ensures ok { (i : PlaceIn) → handle.old.held.body ≡ Some (variant.PlaceIn i) → result ≡ OK
        → LeadsToPlaceIn (λ j. Claims publish want i j
        (record { first = first.new; count = count.new })) handle.new.held.body }
    ensures not_allowed { (i : PlaceIn) → handle.old.held.body ≡ Some (variant.PlaceIn i)
        → (result ≡ NOT_ALLOWED) ↔ (claimed_of i < publish) }
    ensures other { (result ≡ BAD_HANDLE) ↔ LeadsToOther is_place_in handle.old }
    ensures kept { result ≢ OK → (handle.new.held.body ≡ handle.old.held.body)
        × (first.new ≡ 0) × (count.new ≡ 0) }
    ensures refused { result ≢ OK → result ≢ BAD_HANDLE → result ≡ NOT_ALLOWED }
{
    *first = 0;
    *count = 0;
    if !handle.is_set() {
        return status::BAD_HANDLE;
    }
    let Object::PlaceIn(input) = handle.held.as_mut() else {
        return status::BAD_HANDLE;
    };
    if publish > input.claimed() {
        return status::NOT_ALLOWED;
    }
    let places = input.claim(publish, want);
    *first = places.first;
    *count = places.count;
    status::OK
}

/// Like `PlaceOut::peek`: sets the index of the first place and how many there are. Returns NOT_ALLOWED if fewer than `release`
/// places are peeked.
#[unsafe(no_mangle)]
pub extern "C" fn fq_ring_peek(
    handle: &mut FqHandle,
    release: usize,
    want: usize,
    first: &mut usize,
    count: &mut usize,
) -> u32
    ensures ok { (o : PlaceOut) → handle.old.held.body ≡ Some (variant.PlaceOut o) → result ≡ OK
        → LeadsToPlaceOut (λ p. Peeks release want o p
        (record { first = first.new; count = count.new })) handle.new.held.body }
    ensures not_allowed { (o : PlaceOut) → handle.old.held.body ≡ Some (variant.PlaceOut o)
        → (result ≡ NOT_ALLOWED) ↔ (peeked_of o < release) }
    ensures other { (result ≡ BAD_HANDLE) ↔ LeadsToOther is_place_out handle.old }
    ensures kept { result ≢ OK → (handle.new.held.body ≡ handle.old.held.body)
        × (first.new ≡ 0) × (count.new ≡ 0) }
    ensures refused { result ≢ OK → result ≢ BAD_HANDLE → result ≡ NOT_ALLOWED }
{
    *first = 0;
    *count = 0;
    if !handle.is_set() {
        return status::BAD_HANDLE;
    }
    let Object::PlaceOut(output) = handle.held.as_mut() else {
        return status::BAD_HANDLE;
    };
    if release > output.peeked() {
        return status::NOT_ALLOWED;
    }
    let places = output.peek(release, want);
    *first = places.first;
    *count = places.count;
    status::OK
}
