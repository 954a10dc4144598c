//! Making a shared instance over the poll context of a ring.
ghost use Rattle.std.specs.Prelude.{◌≡◌, ◌≢◌, ◌≤◌, ◌<◌, ◌⊎◌, ◌↔◌, ℕ, true, false, Some, length, slice_get, IfOk, IfErr, IsTrue};
ghost use Rattle.std.specs.List.{All};
ghost use Rattle.std.specs.Arc.{arc_value};
ghost use Rattle.napi_calls.specs.declared.types.Caller.{Caller};
ghost use Rattle.napi_calls.specs.Instance.{IsSeatOf, first_of_instance};
ghost use Rattle.napi_calls.specs.Seats.{own_list, state_shown};
ghost use Rattle.c_handles.specs.declared.body.Object.TheVariants as variant;
ghost use Rattle.c_handles.specs.declared.body.Ring.{Ring};
ghost use Rattle.c_handles.specs.Rings.{HasInput, LeadsTo, LeadsToItsInput};
ghost use Rattle.napi_c.specs.Objects.{is_ring, LeadsToOther};
ghost use Rattle.napi_c.specs.Shared.{AreFree, AreFresh, AreOfOne, AreUnthreaded, IsFree, IsInstanceOver, IsUnthreaded, LeadsToNewCaller};
ghost use Rattle.c_handles.specs.Status.{OK, IN_USE, BAD_COUNT, BAD_HANDLE, OUT_OF_MEMORY};

use c_handles::{
    CallerObject, Controller, FqAnswers, FqHandle, Object, Ring, RingInput, Shared, status,
};
use napi_calls::{Caller, CallerState, Control, ControlState, Napi, NewBack, Off, close};
use rx_ring::{names_tell_rings, ring};
use std::alloc::Global;
use std::mem;
use std::sync::Arc;

fn are_free(handles: &[FqHandle]) -> bool
    ensures { IsTrue result ↔ AreFree handles.now }
{
    handles.iter().all(|handle| !handle.is_set())
}

// A new instance with its callers and its controller.
struct Opened {
    napi: Arc<Shared, Global>,
    callers: Vec<Caller>,
    off: Control<Off>,
    ghost callers_are: { (k : ℕ) (c : Caller) → slice_get callers.items k ≡ Some c → IsSeatOf (arc_value napi).napi c.pass },
    ghost control_is: { IsSeatOf (arc_value napi).napi off.pass },
    ghost callers_new: { (k : ℕ) (c : Caller) → slice_get callers.items k ≡ Some c → IsUnthreaded (own_list c.pass) (state_shown c.pass) },
    ghost control_new: { IsUnthreaded (own_list off.pass) (state_shown off.pass) },
}

// Makes an instance over the poll context of a ring. Returns the ring if an allocation fails.
fn open(alloc: Global, ring: Ring, callers: u32) -> Result<(RingInput, Opened), Ring>
    requires { (2 ≤ callers) × (callers ≤ 8) }
    ensures input { IfOk result (λ r. r.0 ≡ ring.input) }
    ensures over { IfOk result
        (λ r. first_of_instance (arc_value r.1.napi).napi ≡ ring.ctx) }
    ensures back { IfErr result (λ r. r.input ≡ ring.input) }
{
    let Ring { input, ctx } = ring;
    let (napi, callers, off) = match Napi::new(alloc, ctx, callers) {
        Ok(made) => made,
        Err(NewBack { fault: _, ctx }) => return Err(Ring { input, ctx }),
    };
    match Arc::new(alloc, Shared::new(napi)) {
        Ok(napi) => Ok((input, Opened { napi, callers, off })),
        Err(refused) => {
            // this proves that the context belongs to the ring
            names_tell_rings();
            match close(refused.value.into_napi(), callers, off) {
                Ok(ctx) => Err(Ring { input, ctx }),
                Err(_) => unreachable!(),
            }
        }
    }
}

// Allocates the memory for a handle's object.
fn reserve(alloc: Global, handle: &mut FqHandle) -> bool {
    match Box::new(alloc, Object::Gone) {
        Ok(body) => {
            handle.put(body);
            true
        }
        Err(_) => false,
    }
}

// Allocates the memory for all handles, or for none.
fn reserve_all(alloc: Global, control: &mut FqHandle, handles: &mut [FqHandle]) -> bool
    ensures { result ≡ false → IsFree control.new × AreFree handles.new }
{
    let mut is_there = reserve(alloc, control);
    for handle in handles.iter_mut() {
        is_there = is_there && reserve(alloc, handle);
    }
    if !is_there {
        clear(alloc, control, handles);
    }
    is_there
}

// Frees the objects of these handles.
fn clear(alloc: Global, control: &mut FqHandle, handles: &mut [FqHandle])
    ensures control { IsFree control.new }
    ensures handles { AreFree handles.new }
{
    let _control = control.take(alloc);
    for handle in handles.iter_mut() {
        let _taken = handle.take(alloc);
    }
}

// Sets the object of a handle whose memory is allocated.
fn fill(alloc: Global, handle: &mut FqHandle, body: Object) -> bool
    ensures { result ≡ true → handle.new.held.body ≡ Some body }
{
    let Some(mut boxed) = handle.take(alloc) else {
        return false;
    };
    *boxed = body;
    handle.put(boxed);
    true
}

fn give_caller(
    alloc: Global,
    shared: &Arc<Shared, Global>,
    caller: Caller,
    handle: &mut FqHandle,
) -> bool
    requires belongs { IsSeatOf (arc_value shared.now).napi caller.pass }
    requires new { IsUnthreaded (own_list caller.pass) (state_shown caller.pass) }
    ensures { result ≡ true → LeadsToNewCaller (arc_value shared.now).napi handle.new }
{
    let Ok(napi) = Arc::try_clone(shared) else {
        caller.abandon();
        return false;
    };
    let object = CallerObject {
        napi,
        state: CallerState::Rests(caller),
        answers: FqAnswers::none(),
    };
    fill(alloc, handle, Object::Caller(object))
}

fn abandon_all(mut callers: Vec<Caller>) {
    while let Some(caller) = callers.pop() {
        caller.abandon();
    }
    callers.destroy_empty();
}

fn give_callers(
    alloc: Global,
    shared: &Arc<Shared, Global>,
    mut callers: Vec<Caller>,
    handles: &mut [FqHandle],
) -> bool
    requires handles { (k : ℕ) (c : Caller) → slice_get callers.items k ≡ Some c
        → IsSeatOf (arc_value shared.now).napi c.pass }
    requires new { (k : ℕ) (c : Caller) → slice_get callers.items k ≡ Some c
        → IsUnthreaded (own_list c.pass) (state_shown c.pass) }
    ensures { result ≡ true → All (LeadsToNewCaller (arc_value shared.now).napi) handles.new }
{
    let mut given = true;
    for handle in handles.iter_mut() {
        given = match callers.pop() {
            Some(caller) => give_caller(alloc, shared, caller, handle) && given,
            None => false,
        };
    }
    abandon_all(callers);
    given
}

fn give(alloc: Global, opened: Opened, control: &mut FqHandle, handles: &mut [FqHandle]) -> u32
    ensures made { result ≡ OK → AreOfOne control.new handles.new }
    ensures fresh { result ≡ OK → AreFresh handles.new }
    ensures unthreaded { result ≡ OK → AreUnthreaded control.new handles.new }
    ensures over { result ≡ OK
        → IsInstanceOver (first_of_instance (arc_value opened.napi).napi) control.new }
    ensures memory { result ≡ OUT_OF_MEMORY → IsFree control.new × AreFree handles.new }
    ensures only { result ≢ OK → result ≡ OUT_OF_MEMORY }
{
    let Opened { napi, callers, off } = opened;
    let given = give_callers(alloc, &napi, callers, handles);
    let controller = Controller {
        napi,
        state: ControlState::Off(off),
    };
    if fill(alloc, control, Object::Controller(controller)) && given {
        return status::OK;
    }
    clear(alloc, control, handles);
    status::OUT_OF_MEMORY
}

// Makes an instance over the ring of a handle; the handle keeps the ring's input.
fn share(alloc: Global, body: &mut Object, control: &mut FqHandle, handles: &mut [FqHandle]) -> u32
    requires { (2 ≤ length handles.old) × (length handles.old ≤ 8) }
    ensures made { result ≡ OK → AreOfOne control.new handles.new }
    ensures fresh { result ≡ OK → AreFresh handles.new }
    ensures unthreaded { result ≡ OK → AreUnthreaded control.new handles.new }
    ensures memory { result ≡ OUT_OF_MEMORY → IsFree control.new × AreFree handles.new }
    ensures only { (r : Ring) → body.old ≡ variant.Ring r → result ≢ OK → result ≡ OUT_OF_MEMORY }
    ensures other { is_ring body.old ≡ false → result ≡ BAD_HANDLE }
    ensures input { (r : Ring) → body.old ≡ variant.Ring r → result ≡ OK
        → body.new ≡ variant.In r.input }
    ensures over { (r : Ring) → body.old ≡ variant.Ring r → result ≡ OK
        → IsInstanceOver r.ctx control.new }
    ensures left { (r : Ring) → body.old ≡ variant.Ring r → result ≡ OUT_OF_MEMORY
        → HasInput r.input body.new }
    ensures kept { result ≢ OK → result ≢ OUT_OF_MEMORY → (control.new ≡ control.old)
        × (handles.new ≡ handles.old) × (body.new ≡ body.old) }
{
    // checked before anything is allocated
    if !matches!(&*body, Object::Ring(_)) {
        return status::BAD_HANDLE;
    }
    if !reserve_all(alloc, control, handles) {
        return status::OUT_OF_MEMORY;
    }
    let Object::Ring(ring) = mem::replace(body, Object::Gone) else {
        unreachable!()
    };
    match open(alloc, ring, handles.len() as u32) {
        Ok((input, opened)) => {
            *body = Object::In(input);
            give(alloc, opened, control, handles)
        }
        Err(ring) => {
            *body = Object::Ring(ring);
            clear(alloc, control, handles);
            status::OUT_OF_MEMORY
        }
    }
}

/// Like `Napi::new`, with the context of a ring. After it, `input` has only the ring's input end, `control` has the controller,
/// and `handles` (2 to 8 handles) have the callers. If an allocation fails, nothing changes.
#[unsafe(no_mangle)]
pub extern "C" fn fq_shared_new(
    alloc: Global,
    input: &mut FqHandle,
    control: &mut FqHandle,
    handles: &mut [FqHandle],
) -> u32
    ensures made { result ≡ OK → AreOfOne control.new handles.new }
    ensures fresh { result ≡ OK → AreFresh handles.new }
    ensures unthreaded { result ≡ OK → AreUnthreaded control.new handles.new }
    ensures input { (r : Ring) → LeadsTo input.old r → result ≡ OK
        → input.new.held.body ≡ Some (variant.In r.input) }
    ensures over { (r : Ring) → LeadsTo input.old r → result ≡ OK
        → IsInstanceOver r.ctx control.new }
    ensures kept { result ≢ OK → result ≢ OUT_OF_MEMORY → (control.new ≡ control.old)
        × (handles.new ≡ handles.old) × (input.new.held.body ≡ input.old.held.body) }
    ensures left { (r : Ring) → LeadsTo input.old r → result ≡ OUT_OF_MEMORY
        → LeadsToItsInput r.input input.new.held.body }
    ensures memory { result ≡ OUT_OF_MEMORY → IsFree control.new × AreFree handles.new }
    ensures in_use { ¬ (IsFree control.old × AreFree handles.old) → result ≡ IN_USE }
    ensures count { IsFree control.old → AreFree handles.old
        → (length handles.old < 2) ⊎ (8 < length handles.old) → result ≡ BAD_COUNT }
    ensures only { (r : Ring) → LeadsTo input.old r → IsFree control.old → AreFree handles.old
        → (2 ≤ length handles.old) × (length handles.old ≤ 8)
        → (result ≡ OK) ⊎ (result ≡ OUT_OF_MEMORY) }
    ensures other { LeadsToOther is_ring input.old → IsFree control.old → AreFree handles.old
        → (2 ≤ length handles.old) × (length handles.old ≤ 8) → result ≡ BAD_HANDLE }
{
    if control.is_set() || !are_free(handles) {
        return status::IN_USE;
    }
    if handles.len() < 2 || 8 < handles.len() {
        return status::BAD_COUNT;
    }
    if !input.is_set() {
        return status::BAD_HANDLE;
    }
    share(alloc, input.held.as_mut(), control, handles)
}

/// Like `Napi::new`, but without a ring, for a card that the driver polls itself: `fq_caller_poll` returns no packets. `control`
/// and `handles` are as in [`fq_shared_new`].
#[unsafe(no_mangle)]
pub extern "C" fn fq_shared_bare(
    alloc: Global,
    control: &mut FqHandle,
    handles: &mut [FqHandle],
) -> u32
    ensures made { result ≡ OK → AreOfOne control.new handles.new }
    ensures fresh { result ≡ OK → AreFresh handles.new }
    ensures unthreaded { result ≡ OK → AreUnthreaded control.new handles.new }
    ensures kept { result ≢ OK → result ≢ OUT_OF_MEMORY → (control.new ≡ control.old)
        × (handles.new ≡ handles.old) }
    ensures memory { result ≡ OUT_OF_MEMORY → IsFree control.new × AreFree handles.new }
    ensures in_use { ¬ (IsFree control.old × AreFree handles.old) → result ≡ IN_USE }
    ensures count { IsFree control.old → AreFree handles.old
        → (length handles.old < 2) ⊎ (8 < length handles.old) → result ≡ BAD_COUNT }
    ensures only { IsFree control.old → AreFree handles.old
        → (2 ≤ length handles.old) × (length handles.old ≤ 8)
        → (result ≡ OK) ⊎ (result ≡ OUT_OF_MEMORY) }
{
    if control.is_set() || !are_free(handles) {
        return status::IN_USE;
    }
    if handles.len() < 2 || 8 < handles.len() {
        return status::BAD_COUNT;
    }
    let Ok((end, ctx)) = ring(alloc, 1) else {
        return status::OUT_OF_MEMORY;
    };
    let input = RingInput::new(end, 1);
    share(
        alloc,
        &mut Object::Ring(Ring { input, ctx }),
        control,
        handles,
    )
}
