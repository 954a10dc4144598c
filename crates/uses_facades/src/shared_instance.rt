//! A program that uses only `napi_calls`: its contract states that the controller still belongs to its instance, how the
//! instance's history continues, which deliveries the controller knows, and which state its type implies.

ghost use Rattle.std.specs.Prelude.{◌≡◌, false};
ghost use mathlib.Core.List.{IsPrefix};
ghost use Rattle.napi_calls.specs.Instance.{IsSeatOf};
ghost use Rattle.napi_calls.specs.Packets.{delivered};
ghost use Rattle.napi_calls.specs.Seats.{SameSeat, ShowsLegal, shown, state_shown};

use napi_calls::{Control, Napi, On};
use std::sync::Wait;

/// Resets a card: waits until no caller owns its instance, and enables it again, to be polled from the list.
pub fn reset<R: Wait>(rt: &R, napi: &Napi, control: Control<On>) -> Control<On>
    requires { IsSeatOf napi.now control.pass }
    ensures seat { SameSeat control.pass result.pass }
    ensures begins { IsPrefix (shown control.pass) (shown result.pass) }
    ensures dealt { IsPrefix (delivered control.pass) (delivered result.pass) }
    ensures legal { ShowsLegal result.pass }
    ensures enabled { (state_shown result.pass).flags.disable ≡ false }
{
    let control = control.disable(rt, napi).enable(rt, napi, false);
    control.knows();
    control
}
