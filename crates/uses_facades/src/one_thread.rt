//! A program that uses only `napi_model`: its contract states the instance's state after a call, and the reply, which that
//! state determines.

ghost use Rattle.std.specs.Prelude.{◌≡◌};
ghost use Rattle.napi_model.specs.Serial.{state_of};
ghost use Rattle.napi_model.specs.Step.{schedule_reply};
ghost use Rattle.napi_model.specs.declared.event.Prep.TheVariants.{Granted};
ghost use Rattle.napi_model.specs.declared.state.Place.TheVariants.{Listed};

use napi_model::{Kind, Prep, SerialNapi};

/// Requests a poll, and queues the instance if it is granted. Returns the reply; an instance that was granted is then on the
/// list.
pub fn interrupt(napi: &mut SerialNapi, who: u32) -> Prep
    ensures reply { result ≡ schedule_reply (state_of napi.old) }
    ensures listed { result ≡ Granted → (state_of napi.new).place ≡ Listed }
{
    let reply = napi.schedule(who);
    if reply == Prep::Granted {
        napi.hand(who, Kind::List);
    }
    reply
}
