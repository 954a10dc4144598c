//! The two ends of a receive ring without an instance, and the counts of a ring.
ghost use Rattle.std.specs.Prelude.{◌≡◌, ◌≢◌, ◌↔◌, false, Some, None, IsNone, IsSome};
ghost use Rattle.rx_ring.specs.declared.packet.RxCounts.{RxCounts};
ghost use Rattle.rx_ring.specs.ReceiveRing.{IsInOrder, totals_of};
ghost use Rattle.rx_ring.specs.Ends.{ring_of};
ghost use Rattle.c_handles.specs.declared.body.Ring.{Ring};
ghost use Rattle.c_handles.specs.declared.body.Object.TheVariants as variant;
ghost use Rattle.c_handles.specs.declared.input.RingInput.{RingInput};
ghost use Rattle.c_handles.specs.Inputs.{shown_of};
ghost use Rattle.c_handles.specs.Rings.{LeadsTo, LeadsToItsInput, CountsAre, ring_counts_in};
ghost use Rattle.c_handles.specs.Status.{OK, NOT_ALLOWED, BAD_HANDLE, IN_USE, OUT_OF_MEMORY, BAD_SIZE};
ghost use Rattle.napi_c.specs.Counts.{counts_for_c, totalled};
ghost use Rattle.napi_c.specs.Objects.{has_counts, has_input, is_ring, LeadsToOther};

use crate::counts::{FqCounts, FqTotals};
use c_handles::{FqHandle, FqRingShown, Object, Ring, status};
use rx_ring::{RxCounts, finish};
use std::alloc::Global;
use std::mem::{self, size_of};

/// Moves a ring's poll end to a second handle; `ring` keeps the input end. Returns IN_USE if the second handle has an object.
#[unsafe(no_mangle)]
pub extern "C" fn fq_ring_split(alloc: Global, ring: &mut FqHandle, ctx: &mut FqHandle) -> u32
    ensures split { (r : Ring) → LeadsTo ring.old r → result ≡ OK
        → (ring.new.held.body ≡ Some (variant.In r.input))
        × (ctx.new.held.body ≡ Some (variant.Ctx r.ctx)) }
    ensures kept { result ≢ OK → (ring.new.held.body ≡ ring.old.held.body)
        × (ctx.new ≡ ctx.old) }
    ensures in_use { (result ≡ IN_USE) ↔ IsSome ctx.old.held.body }
    ensures refused { (r : Ring) → LeadsTo ring.old r → result ≢ OK → result ≢ IN_USE
        → result ≡ OUT_OF_MEMORY }
    ensures other { LeadsToOther is_ring ring.old → IsNone ctx.old.held.body
        → result ≡ BAD_HANDLE }
{
    if ctx.is_set() {
        return status::IN_USE;
    }
    if !ring.is_set() {
        return status::BAD_HANDLE;
    }
    let body = ring.held.as_mut();
    // checked before anything is allocated
    if !matches!(&*body, Object::Ring(_)) {
        return status::BAD_HANDLE;
    }
    let Ok(mut second) = Box::new(alloc, Object::Gone) else {
        return status::OUT_OF_MEMORY;
    };
    let Object::Ring(whole) = mem::replace(body, Object::Gone) else {
        unreachable!()
    };
    let Ring { input, ctx: other } = whole;
    *body = Object::In(input);
    *second = Object::Ctx(other);
    ctx.put(second);
    status::OK
}

/// Finishes a ring with both ends, like `rx_ring::finish`: sets its totals; after that the handle has no object.
#[unsafe(no_mangle)]
pub extern "C" fn fq_ring_finish_sized(
    alloc: Global,
    ring: &mut FqHandle,
    totals: &mut FqTotals,
) -> u32
    ensures totals { (r : Ring) → LeadsTo ring.old r → totals.old.size ≡ 40 → (result ≡ OK)
        × (totals.new ≡ totalled (totals_of (ring_of r.input.end r.ctx))) }
    ensures order { (r : Ring) → LeadsTo ring.old r → totals.old.size ≡ 40
        → IsInOrder (ring_of r.input.end r.ctx) }
    ensures left { result ≡ OK → ring.new.held.body ≡ None }
    ensures other { LeadsToOther is_ring ring.old → totals.old.size ≡ 40
        → result ≡ BAD_HANDLE }
    ensures size { (result ≡ BAD_SIZE) ↔ (totals.old.size ≢ 40) }
    ensures kept { result ≢ OK → (ring.new.held.body ≡ ring.old.held.body)
        × (totals.new ≡ totals.old) × (result ≢ BAD_SIZE → result ≡ BAD_HANDLE) }
{
    if totals.size != size_of::<FqTotals>() {
        return status::BAD_SIZE;
    }
    let Some(mut first) = ring.take(alloc) else {
        return status::BAD_HANDLE;
    };
    match mem::replace(&mut *first, Object::Gone) {
        Object::Ring(whole) => {
            let Ring { input, ctx } = whole;
            *totals = FqTotals::of(finish(input.into_end(), ctx));
            status::OK
        }
        body => {
            *first = body;
            ring.put(first);
            status::BAD_HANDLE
        }
    }
}

fn counts_of(at: &Object) -> Option<RxCounts>
    ensures { result ≡ ring_counts_in at.now }
{
    match at {
        Object::Ring(ring) => Some(ring.ctx.counts()),
        Object::Ctx(ctx) => Some(ctx.counts()),
        Object::Caller(caller) => caller.counts(),
        Object::Controller(control) => control.counts(),
        _ => None,
    }
}

/// Sets the counts of a ring's polls. Allowed for an object that has the ring's poll end: a ring, a caller (`fq_caller_..`) that
/// polls, the controller of a disabled instance.
#[unsafe(no_mangle)]
pub extern "C" fn fq_count_sized(handle: &mut FqHandle, counts: &mut FqCounts) -> u32
    ensures counts { (c : RxCounts) → CountsAre c handle.old.held.body → counts.old.size ≡ 32
        → (result ≡ OK) × (counts.new ≡ counts_for_c c) }
    ensures kept { result ≢ OK → counts.new ≡ counts.old }
    ensures size { (result ≡ BAD_SIZE) ↔ (counts.old.size ≢ 32) }
    ensures bad { (result ≡ BAD_HANDLE) ↔ ((counts.old.size ≡ 32)
        × IsNone handle.old.held.body) }
    ensures other { LeadsToOther has_counts handle.old → IsSome handle.old.held.body
        → counts.old.size ≡ 32 → result ≡ NOT_ALLOWED }
    ensures refused { result ≢ OK → result ≢ BAD_SIZE → result ≢ BAD_HANDLE
        → result ≡ NOT_ALLOWED }
    ensures same { handle.new.held.body ≡ handle.old.held.body }
{
    if counts.size != size_of::<FqCounts>() {
        return status::BAD_SIZE;
    }
    if !handle.is_set() {
        return status::BAD_HANDLE;
    }
    let Some(found) = counts_of(handle.held.as_mut()) else {
        return status::NOT_ALLOWED;
    };
    *counts = FqCounts::of(found);
    status::OK
}

/// Sets the state of a ring's input: its capacity, and how many packets were put. Allowed for a ring, and for the input of one.
#[unsafe(no_mangle)]
pub extern "C" fn fq_ring_show_sized(handle: &mut FqHandle, shown: &mut FqRingShown) -> u32
    ensures shown { (i : RingInput) → LeadsToItsInput i handle.old.held.body
        → shown.old.size ≡ 24 → (result ≡ OK) × (shown.new ≡ shown_of i.end) }
    ensures other { LeadsToOther has_input handle.old → shown.old.size ≡ 24
        → result ≡ BAD_HANDLE }
    ensures size { (result ≡ BAD_SIZE) ↔ (shown.old.size ≢ 24) }
    ensures kept { result ≢ OK → (shown.new ≡ shown.old)
        × (result ≢ BAD_SIZE → result ≡ BAD_HANDLE) }
    ensures same { handle.new.held.body ≡ handle.old.held.body }
{
    if shown.size != size_of::<FqRingShown>() {
        return status::BAD_SIZE;
    }
    if !handle.is_set() {
        return status::BAD_HANDLE;
    }
    match &*handle.held.as_mut() {
        Object::Ring(ring) => *shown = ring.input.shown(),
        Object::In(input) => *shown = input.shown(),
        _ => return status::BAD_HANDLE,
    }
    status::OK
}
