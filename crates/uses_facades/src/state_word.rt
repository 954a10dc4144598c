//! A program that uses only `napi_word`: its contract states which step a pass made, and that it still belongs to its table.

ghost use Rattle.std.specs.Prelude.{◌≡◌, None, false};
ghost use Rattle.napi_word.specs.Events.{by_load};
ghost use Rattle.napi_word.specs.Passes.{IsPassOf, Makes};
ghost use Rattle.napi_word.specs.Slot.{stays};

use napi_word::{Pass, StateTable};

/// Returns whether a request for a poll may be tried now. If a disable is pending it may not, and this step counts as the
/// failed request.
pub fn may_ask(table: &StateTable, pass: &mut Pass) -> bool
    requires { IsPassOf table.now pass.old }
    ensures pass { IsPassOf table.now pass.new }
    ensures refused { result ≡ false → Makes pass.old (by_load None) stays pass.new }
{
    table.schedule_load(pass).is_some()
}
