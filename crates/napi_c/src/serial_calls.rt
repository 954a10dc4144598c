//! The calls on the instance of one thread that any caller may make.
ghost use Rattle.std.specs.Prelude.{◌≡◌, ◌≢◌, ◌↔◌, ◌⊎◌, true, false, None, Some};
ghost use Rattle.napi_model.specs.declared.event.Operation.TheVariants as operation;
ghost use Rattle.napi_model.specs.declared.event.Prep.TheVariants as prep;
ghost use Rattle.napi_model.specs.declared.event.Done.TheVariants as done;
ghost use Rattle.napi_model.specs.declared.event.Call.TheVariants as call;
ghost use Rattle.napi_model.specs.declared.state.Kind.{Kind};
ghost use Rattle.napi_model.specs.Step.{MayCall};
ghost use Rattle.napi_c.specs.Serial.{fq_state, FqSteps};
ghost use Rattle.c_handles.specs.Kinds.{kind_in};
ghost use Rattle.c_handles.specs.Status.{OK, GRANTED, MISSED, DISABLED, TAKEN, NOT_THERE, RELEASED, AGAIN, HELD, BUSY, NOT_ALLOWED, BAD_KIND};

use crate::serial::{FqNapi, step};
use c_handles::{kind_of, status};
use napi_model::{Call, Done, Operation, Prep};

/// Like `SerialNapi::schedule`: returns GRANTED, MISSED or DISABLED.
#[unsafe(no_mangle)]
pub extern "C" fn fq_napi_schedule(napi: &mut FqNapi, who: u32) -> u32
    ensures granted { result ≡ GRANTED
        → FqSteps napi.old who (operation.Schedule prep.Granted) napi.new }
    ensures missed { result ≡ MISSED
        → FqSteps napi.old who (operation.Schedule prep.Missed) napi.new }
    ensures disabled { result ≡ DISABLED
        → FqSteps napi.old who (operation.Schedule prep.Disabled) napi.new }
    ensures only { (result ≡ GRANTED) ⊎ (result ≡ MISSED) ⊎ (result ≡ DISABLED) }
{
    let Some(Operation::Schedule(reply)) = step(napi, who, Call::Schedule) else {
        unreachable!()
    };
    match reply {
        Prep::Granted => status::GRANTED,
        Prep::Missed => status::MISSED,
        Prep::Disabled => status::DISABLED,
    }
}

/// Like `SerialNapi::hand`: returns OK; NOT_ALLOWED if the caller doesn't own the instance; BAD_KIND.
#[unsafe(no_mangle)]
pub extern "C" fn fq_napi_hand(napi: &mut FqNapi, who: u32, kind: u32) -> u32
    ensures made { result ≡ OK → (k : Kind) → kind_in kind ≡ Some k
        → FqSteps napi.old who (operation.Hand k) napi.new }
    ensures refused { (k : Kind) → kind_in kind ≡ Some k
        → (result ≡ NOT_ALLOWED ↔ ¬ MayCall who (call.Hand k) (fq_state napi.old)) }
    ensures bad { (result ≡ BAD_KIND) ↔ (kind_in kind ≡ None) }
    ensures kept { result ≢ OK → napi.new ≡ napi.old }
    ensures only { (result ≡ OK) ⊎ (result ≡ NOT_ALLOWED) ⊎ (result ≡ BAD_KIND) }
{
    let Some(kind) = kind_of(kind) else {
        return status::BAD_KIND;
    };
    match step(napi, who, Call::Hand(kind)) {
        Some(_) => status::OK,
        None => status::NOT_ALLOWED,
    }
}

/// Like `SerialNapi::take`: returns TAKEN, NOT_THERE or BAD_KIND.
#[unsafe(no_mangle)]
pub extern "C" fn fq_napi_take(napi: &mut FqNapi, who: u32, kind: u32) -> u32
    ensures taken { result ≡ TAKEN → (k : Kind) → kind_in kind ≡ Some k
        → FqSteps napi.old who (operation.Take k true) napi.new }
    ensures absent { result ≡ NOT_THERE → (k : Kind) → kind_in kind ≡ Some k
        → FqSteps napi.old who (operation.Take k false) napi.new }
    ensures bad { (result ≡ BAD_KIND) ↔ (kind_in kind ≡ None) }
    ensures kept { result ≡ BAD_KIND → napi.new ≡ napi.old }
    ensures only { (result ≡ TAKEN) ⊎ (result ≡ NOT_THERE) ⊎ (result ≡ BAD_KIND) }
{
    let Some(kind) = kind_of(kind) else {
        return status::BAD_KIND;
    };
    let Some(Operation::Take(_, taken)) = step(napi, who, Call::Take(kind)) else {
        unreachable!()
    };
    if taken {
        status::TAKEN
    } else {
        status::NOT_THERE
    }
}

/// Like `SerialNapi::complete`: returns RELEASED, AGAIN or HELD; NOT_ALLOWED if the caller doesn't poll the instance.
#[unsafe(no_mangle)]
pub extern "C" fn fq_napi_complete(napi: &mut FqNapi, who: u32) -> u32
    ensures released { result ≡ RELEASED
        → FqSteps napi.old who (operation.Complete done.Released) napi.new }
    ensures again { result ≡ AGAIN → FqSteps napi.old who (operation.Complete done.Again) napi.new }
    ensures held { result ≡ HELD → FqSteps napi.old who (operation.Complete done.Held) napi.new }
    ensures refused { result ≡ NOT_ALLOWED ↔ ¬ MayCall who call.Complete (fq_state napi.old) }
    ensures kept { result ≡ NOT_ALLOWED → napi.new ≡ napi.old }
    ensures only { (result ≡ RELEASED) ⊎ (result ≡ AGAIN) ⊎ (result ≡ HELD)
        ⊎ (result ≡ NOT_ALLOWED) }
{
    match step(napi, who, Call::Complete) {
        Some(Operation::Complete(Done::Released)) => status::RELEASED,
        Some(Operation::Complete(Done::Again)) => status::AGAIN,
        Some(Operation::Complete(Done::Held)) => status::HELD,
        Some(_) => unreachable!(),
        None => status::NOT_ALLOWED,
    }
}

/// Like `SerialNapi::busy_take`: returns TAKEN, or BUSY if the instance isn't idle.
#[unsafe(no_mangle)]
pub extern "C" fn fq_napi_busy_take(napi: &mut FqNapi, who: u32) -> u32
    ensures taken { result ≡ TAKEN → FqSteps napi.old who operation.BusyTake napi.new }
    ensures busy { result ≡ BUSY ↔ ¬ MayCall who call.BusyTake (fq_state napi.old) }
    ensures kept { result ≡ BUSY → napi.new ≡ napi.old }
    ensures only { (result ≡ TAKEN) ⊎ (result ≡ BUSY) }
{
    match step(napi, who, Call::BusyTake) {
        Some(_) => status::TAKEN,
        None => status::BUSY,
    }
}

/// Like `SerialNapi::busy_stop`: returns OK, or NOT_ALLOWED if the caller doesn't busy poll the instance.
#[unsafe(no_mangle)]
pub extern "C" fn fq_napi_busy_stop(napi: &mut FqNapi, who: u32) -> u32
    ensures made { result ≡ OK → FqSteps napi.old who operation.BusyStop napi.new }
    ensures refused { result ≡ NOT_ALLOWED ↔ ¬ MayCall who call.BusyStop (fq_state napi.old) }
    ensures kept { result ≡ NOT_ALLOWED → napi.new ≡ napi.old }
    ensures only { (result ≡ OK) ⊎ (result ≡ NOT_ALLOWED) }
{
    match step(napi, who, Call::BusyStop) {
        Some(_) => status::OK,
        None => status::NOT_ALLOWED,
    }
}

/// Like `SerialNapi::set_threaded`; any caller may call it.
#[unsafe(no_mangle)]
pub extern "C" fn fq_napi_set_threaded(napi: &mut FqNapi, who: u32, threaded: bool)
    ensures { FqSteps napi.old who (operation.SetThreaded threaded) napi.new }
{
    let Some(_) = step(napi, who, Call::SetThreaded(threaded)) else {
        unreachable!()
    };
}
