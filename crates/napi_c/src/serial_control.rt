//! The calls of the controller on the instance of one thread.
ghost use Rattle.std.specs.Prelude.{◌≡◌, ◌↔◌, ◌⊎◌, IsNone, IfSome, true, false};
ghost use Rattle.napi_model.specs.declared.event.Operation.TheVariants as operation;
ghost use Rattle.napi_model.specs.declared.event.Call.TheVariants as call;
ghost use Rattle.napi_model.specs.Step.{MayCall, reply_of};
ghost use Rattle.napi_c.specs.Serial.{fq_state, FqSteps};
ghost use Rattle.c_handles.specs.Status.{OK, TAKEN, BUSY, NOT_ALLOWED};

use crate::serial::{FqNapi, step};
use c_handles::status;
use napi_model::{Call, Operation};

// Makes a call of the controller, if it is allowed.
fn control(napi: &mut FqNapi, who: u32, call: Call) -> Option<Operation>
    ensures refused { IsNone result
        ↔ ¬ ((who ≡ napi.old.controller) × MayCall who call (fq_state napi.old)) }
    ensures answer { IfSome result (λ o. o ≡ reply_of call (fq_state napi.old)) }
    ensures step { IfSome result (λ o. FqSteps napi.old who o napi.new) }
    ensures kept { IsNone result → napi.new ≡ napi.old }
{
    if who != napi.controller {
        return None;
    }
    step(napi, who, call)
}

/// Like `SerialNapi::mark_disable`: returns OK or NOT_ALLOWED.
#[unsafe(no_mangle)]
pub extern "C" fn fq_napi_mark_disable(napi: &mut FqNapi, who: u32) -> u32
    ensures made { result ≡ OK → FqSteps napi.old who operation.MarkDisable napi.new }
    ensures refused { result ≡ NOT_ALLOWED
        ↔ ¬ ((who ≡ napi.old.controller) × MayCall who call.MarkDisable (fq_state napi.old)) }
    ensures kept { result ≡ NOT_ALLOWED → napi.new ≡ napi.old }
    ensures only { (result ≡ OK) ⊎ (result ≡ NOT_ALLOWED) }
{
    match control(napi, who, Call::MarkDisable) {
        Some(_) => status::OK,
        None => status::NOT_ALLOWED,
    }
}

/// Like `SerialNapi::take_disable`: returns TAKEN, BUSY or NOT_ALLOWED.
#[unsafe(no_mangle)]
pub extern "C" fn fq_napi_take_disable(napi: &mut FqNapi, who: u32) -> u32
    ensures taken { result ≡ TAKEN → FqSteps napi.old who (operation.TakeDisable true) napi.new }
    ensures busy { result ≡ BUSY → FqSteps napi.old who (operation.TakeDisable false) napi.new }
    ensures refused { result ≡ NOT_ALLOWED
        ↔ ¬ ((who ≡ napi.old.controller) × MayCall who call.TakeDisable (fq_state napi.old)) }
    ensures kept { result ≡ NOT_ALLOWED → napi.new ≡ napi.old }
    ensures only { (result ≡ TAKEN) ⊎ (result ≡ BUSY) ⊎ (result ≡ NOT_ALLOWED) }
{
    match control(napi, who, Call::TakeDisable) {
        Some(Operation::TakeDisable(true)) => status::TAKEN,
        Some(_) => status::BUSY,
        None => status::NOT_ALLOWED,
    }
}

/// Like `SerialNapi::unmark`: returns OK or NOT_ALLOWED.
#[unsafe(no_mangle)]
pub extern "C" fn fq_napi_unmark(napi: &mut FqNapi, who: u32) -> u32
    ensures made { result ≡ OK → FqSteps napi.old who operation.Unmark napi.new }
    ensures refused { result ≡ NOT_ALLOWED
        ↔ ¬ ((who ≡ napi.old.controller) × MayCall who call.Unmark (fq_state napi.old)) }
    ensures kept { result ≡ NOT_ALLOWED → napi.new ≡ napi.old }
    ensures only { (result ≡ OK) ⊎ (result ≡ NOT_ALLOWED) }
{
    match control(napi, who, Call::Unmark) {
        Some(_) => status::OK,
        None => status::NOT_ALLOWED,
    }
}

/// Like `SerialNapi::enable`: returns OK or NOT_ALLOWED.
#[unsafe(no_mangle)]
pub extern "C" fn fq_napi_enable(napi: &mut FqNapi, who: u32, threaded: bool) -> u32
    ensures made { result ≡ OK → FqSteps napi.old who (operation.Enable threaded) napi.new }
    ensures refused { result ≡ NOT_ALLOWED
        ↔ ¬ ((who ≡ napi.old.controller) × MayCall who (call.Enable threaded) (fq_state napi.old)) }
    ensures kept { result ≡ NOT_ALLOWED → napi.new ≡ napi.old }
    ensures only { (result ≡ OK) ⊎ (result ≡ NOT_ALLOWED) }
{
    match control(napi, who, Call::Enable(threaded)) {
        Some(_) => status::OK,
        None => status::NOT_ALLOWED,
    }
}
