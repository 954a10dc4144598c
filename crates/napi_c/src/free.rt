//! Freeing the objects of handles.
ghost use Rattle.std.specs.Prelude.{◌≡◌, ◌≢◌, None};
ghost use Rattle.c_handles.specs.Freeing.{is_freeable, free_status, abandon_status, move_status};
ghost use Rattle.c_handles.specs.Status.{OK};

use c_handles::{FqHandle, Object, status};
use napi_calls::{CallerState, ControlState};
use std::alloc::Global;

// Returns whether an object may be freed, because no other object depends on it.
fn is_freeable(body: &Object) -> bool
    ensures { result ≡ is_freeable body.now }
{
    match body {
        Object::Caller(caller) => matches!(caller.state, CallerState::Rests(_)),
        Object::Controller(control) => matches!(control.state, ControlState::Off(_)),
        Object::List(list) => !list.is_running(),
        _ => true,
    }
}

/// Frees a handle's object: returns OK, after which the handle has none; NOT_ALLOWED, without an effect, for a caller
/// (`fq_caller_..`) that owns something, for a controller of an enabled instance, and for a list in a run; BAD_HANDLE if there is
/// no object.
#[unsafe(no_mangle)]
pub extern "C" fn fq_free(alloc: Global, handle: &mut FqHandle) -> u32
    ensures status { result ≡ free_status handle.old.held.body }
    ensures freed { result ≡ OK → handle.new.held.body ≡ None }
    ensures kept { result ≢ OK → handle.new.held.body ≡ handle.old.held.body }
{
    let Some(boxed) = handle.take(alloc) else {
        return status::BAD_HANDLE;
    };
    if !is_freeable(&*boxed) {
        handle.put(boxed);
        return status::NOT_ALLOWED;
    }
    status::OK
}

/// Frees a handle's object, in any state: returns OK, or BAD_HANDLE if there is none.
#[unsafe(no_mangle)]
pub extern "C" fn fq_abandon(alloc: Global, handle: &mut FqHandle) -> u32
    ensures status { result ≡ abandon_status handle.old.held.body }
    ensures left { handle.new.held.body ≡ None }
{
    match handle.take(alloc) {
        Some(_) => status::OK,
        None => status::BAD_HANDLE,
    }
}

/// Moves a handle's object to another handle: returns OK; BAD_HANDLE if there is none; IN_USE if the other handle has one.
#[unsafe(no_mangle)]
pub extern "C" fn fq_move(alloc: Global, from: &mut FqHandle, to: &mut FqHandle) -> u32
    ensures moved { result ≡ OK → (to.new.held.body ≡ from.old.held.body)
        × (from.new.held.body ≡ None) }
    ensures kept { result ≢ OK → (to.new ≡ to.old)
        × (from.new.held.body ≡ from.old.held.body) }
    ensures status { result ≡ move_status from.old.held.body to.old.held.body }
{
    if to.is_set() {
        return status::IN_USE;
    }
    let Some(boxed) = from.take(alloc) else {
        return status::BAD_HANDLE;
    };
    to.put(boxed);
    status::OK
}
