//! Receive rings for C, with both ends in one handle.
ghost use Rattle.std.specs.Prelude.{◌≡◌, ◌≢◌, ◌<◌, ◌≤◌, ◌-◌, ◌⊎◌, ◌↔◌, [], ◌∷◌, length, take, min, Some, IsNone, IsSome};
ghost use Rattle.rx_ring.specs.ReceiveRing.{most_rx_places};
ghost use Rattle.rx_ring.specs.Ends.{put_list, capacity_of, GivesNext};
ghost use Rattle.rx_ring.specs.declared.ends.RxCtx.{RxCtx};
ghost use Rattle.c_handles.specs.declared.body.Ring.{Ring};
ghost use Rattle.c_handles.specs.declared.input.RingInput.{RingInput};
ghost use Rattle.c_handles.specs.declared.body.Object.TheVariants as variant;
ghost use Rattle.c_handles.specs.Status.{OK, FULL, BAD_HANDLE, IN_USE, OUT_OF_MEMORY, BAD_CAPACITY, BAD_WEIGHT, NO_ROOM};
ghost use Rattle.c_handles.specs.Rings.{CountsAre, LeadsTo, LeadsToItsInput, LeadsToRing, LeadsToInput, LeadsToCtx, IsNewRing, IsAfterPut, IsAfterInput, IsAfterPoll, burst_status};
ghost use Rattle.napi_c.specs.Counts.{no_polls};
ghost use Rattle.napi_c.specs.Objects.{has_input, has_poll_end, LeadsToKind, LeadsToOther};

use c_handles::{FqHandle, Object, Ring, RingInput, status};
use rx_ring::{MAX_WEIGHT, Packet, ring};
use std::alloc::Global;

/// Like `rx_ring::ring`.
#[unsafe(no_mangle)]
pub extern "C" fn fq_ring_new(alloc: Global, handle: &mut FqHandle, capacity: usize) -> u32
    ensures made { result ≡ OK → LeadsToRing (IsNewRing capacity) handle.new.held.body }
    ensures unpolled { result ≡ OK → CountsAre no_polls handle.new.held.body }
    ensures kept { result ≢ OK → handle.new ≡ handle.old }
    ensures in_use { (result ≡ IN_USE) ↔ IsSome handle.old.held.body }
    ensures capacity { (result ≡ BAD_CAPACITY) ↔ (IsNone handle.old.held.body
        × ((capacity ≡ 0) ⊎ (most_rx_places < capacity))) }
    ensures memory { result ≢ OK → result ≢ IN_USE → result ≢ BAD_CAPACITY
        → result ≡ OUT_OF_MEMORY }
{
    if handle.is_set() {
        return status::IN_USE;
    }
    match ring(alloc, capacity) {
        Ok((end, ctx)) => {
            let input = RingInput::new(end, capacity);
            match Box::new(alloc, Object::Ring(Ring { input, ctx })) {
                Ok(body) => {
                    handle.put(body);
                    status::OK
                }
                Err(_) => status::OUT_OF_MEMORY,
            }
        }
        Err(fault) => match fault {
            rx_ring::RingFault::OutOfMemory => status::OUT_OF_MEMORY,
            rx_ring::RingFault::BadCapacity => status::BAD_CAPACITY,
        },
    }
}

/// Like `RxIn::put`.
#[unsafe(no_mangle)]
pub extern "C" fn fq_ring_put(handle: &mut FqHandle, number: u64, bytes: u32) -> u32
    ensures ok { (r : Ring) → LeadsTo handle.old r → result ≡ OK
        → LeadsToRing
        (IsAfterPut r (record { number = number; bytes = bytes } ∷ [])) handle.new.held.body }
    ensures first { (i : RingInput) → LeadsToItsInput i handle.old.held.body
        → length (put_list i.end) < capacity_of i.end → result ≡ OK }
    ensures input { (i : RingInput) → handle.old.held.body ≡ Some (variant.In i) → result ≡ OK
        → LeadsToInput
        (IsAfterInput i (record { number = number; bytes = bytes } ∷ [])) handle.new.held.body }
    ensures full { (r : Ring) → LeadsTo handle.old r → result ≢ OK → (result ≡ FULL)
        × LeadsToRing (IsAfterPut r []) handle.new.held.body }
    ensures input_full { (i : RingInput) → handle.old.held.body ≡ Some (variant.In i)
        → result ≢ OK → (result ≡ FULL)
        × LeadsToInput (IsAfterInput i []) handle.new.held.body }
    ensures other { LeadsToOther has_input handle.old
        → (result ≡ BAD_HANDLE) × (handle.new.held.body ≡ handle.old.held.body) }
{
    if !handle.is_set() {
        return status::BAD_HANDLE;
    }
    let packet = Packet { number, bytes };
    // not a `match`, which would compare a ring's kind with those of all other objects first
    let body = handle.held.as_mut();
    if let Object::Ring(ring) = body {
        return ring.input.put(packet);
    }
    if let Object::In(input) = body {
        return input.put(packet);
    }
    status::BAD_HANDLE
}

/// Like `RxIn::put_all`: sets `count` to how many of the packets were put, the first ones.
#[unsafe(no_mangle)]
pub extern "C" fn fq_ring_put_all(
    handle: &mut FqHandle,
    packets: &[Packet],
    count: &mut usize,
) -> u32
    ensures put { (r : Ring) → LeadsTo handle.old r
        → LeadsToRing (IsAfterPut r (take count.new packets.now)) handle.new.held.body }
    ensures input { (i : RingInput) → handle.old.held.body ≡ Some (variant.In i)
        → LeadsToInput (IsAfterInput i (take count.new packets.now)) handle.new.held.body }
    ensures first { (i : RingInput) → LeadsToItsInput i handle.old.held.body
        → min (length packets.now) (capacity_of i.end - length (put_list i.end)) ≤ count.new }
    ensures count { count.new ≤ length packets.now }
    ensures status { result ≡ burst_status handle.old.held.body count.new packets.now }
    ensures kept { result ≡ BAD_HANDLE
        → (handle.new.held.body ≡ handle.old.held.body) × (count.new ≡ 0) }
{
    *count = 0;
    if !handle.is_set() {
        return status::BAD_HANDLE;
    }
    *count = match handle.held.as_mut() {
        Object::Ring(ring) => ring.input.put_all(packets),
        Object::In(input) => input.put_all(packets),
        _ => return status::BAD_HANDLE,
    };
    if *count == packets.len() {
        status::OK
    } else {
        status::FULL
    }
}

/// Like `RxCtx::poll`, into an array: sets `count`; the packets are the first `count` elements.
#[unsafe(no_mangle)]
pub extern "C" fn fq_ring_poll(
    handle: &mut FqHandle,
    weight: usize,
    out: &mut [Packet],
    count: &mut usize,
) -> u32
    ensures ok { (r : Ring) → LeadsTo handle.old r → result ≡ OK
        → LeadsToRing (IsAfterPoll weight r (take count.new out.new)) handle.new.held.body }
    ensures context { (c : RxCtx) → handle.old.held.body ≡ Some (variant.Ctx c) → result ≡ OK
        → LeadsToCtx
        (λ d. GivesNext weight c d (take count.new out.new)) handle.new.held.body }
    ensures there { LeadsToKind has_poll_end handle.old → 1 ≤ weight → weight ≤ 64
        → weight ≤ length out.old → result ≡ OK }
    ensures other { LeadsToOther has_poll_end handle.old → 1 ≤ weight → weight ≤ 64
        → weight ≤ length out.old → result ≡ BAD_HANDLE }
    ensures work { (count.new ≤ weight) × (count.new ≤ length out.new) }
    ensures none { result ≢ OK → (count.new ≡ 0) × (out.new ≡ out.old) }
    ensures kept { result ≢ OK → handle.new.held.body ≡ handle.old.held.body }
    ensures weight { (result ≡ BAD_WEIGHT) ↔ ((weight ≡ 0) ⊎ (64 < weight)) }
    ensures room { (result ≡ NO_ROOM) ↔ ((1 ≤ weight) × (weight ≤ 64)
        × (length out.old < weight)) }
{
    *count = 0;
    if weight == 0 || weight > MAX_WEIGHT {
        return status::BAD_WEIGHT;
    }
    if out.len() < weight {
        return status::NO_ROOM;
    }
    if !handle.is_set() {
        return status::BAD_HANDLE;
    }
    let body = handle.held.as_mut();
    if let Object::Ring(ring) = body {
        *count = ring.ctx.poll_into(weight, out);
        return status::OK;
    }
    if let Object::Ctx(ctx) = body {
        *count = ctx.poll_into(weight, out);
        return status::OK;
    }
    status::BAD_HANDLE
}
