//! The callers of an instance that was just made.

ghost use Rattle.std.specs.Prelude.{◌≡◌, ℕ, Some, length, slice_get, vec_capacity};
ghost use Rattle.napi_calls.specs.Instance.{IsNewSeat};
ghost use Rattle.napi_calls.specs.declared.types.Caller.{Caller};

use napi_calls::{Caller, Napi, next_caller};

/// Takes the three callers out of their vector.
pub(crate) fn three_callers(napi: &Napi, callers: &mut Vec<Caller>) -> (Caller, Caller, Caller)
    requires many { length callers.old.items ≡ 3 }
    requires each { (k : ℕ) (c : Caller) → slice_get callers.old.items k ≡ Some c
        → IsNewSeat napi.now k c.pass }
    ensures new { IsNewSeat napi.now 0 result.0.pass × IsNewSeat napi.now 1 result.1.pass
        × IsNewSeat napi.now 2 result.2.pass }
    ensures none { length callers.new.items ≡ 0 }
    ensures room { vec_capacity callers.new ≡ vec_capacity callers.old }
{
    let thread = next_caller(napi, callers);
    let poller = next_caller(napi, callers);
    let interrupt = next_caller(napi, callers);
    (interrupt, poller, thread)
}
