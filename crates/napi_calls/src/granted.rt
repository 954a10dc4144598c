//! The calls of a caller that was granted the instance.
ghost use Rattle.std.specs.Prelude.{◌≡◌, [], ◌∷◌, false};
ghost use Rattle.napi_model.specs.declared.state.Place.TheVariants as place;
ghost use Rattle.napi_model.specs.declared.event.Operation.TheVariants.{Look, Hand};
ghost use Rattle.napi_calls.specs.Seats.{pass_number, state_shown, ShowsLegal};
ghost use Rattle.napi_calls.specs.Instance.{IsSeatOf};
ghost use Rattle.napi_calls.specs.Made.{Made};
ghost use Rattle.napi_calls.specs.Packets.{Quiet};

use crate::types::{Caller, Granted, Napi};
use napi_model::{Kind, Seen};

impl Granted {
    /// The caller's number.
    pub fn number(&self) -> u32
        ensures { result ≡ pass_number self.now.pass }
    {
        self.number
    }

    /// States what holds for every caller that was granted the instance.
    pub fn knows(&self)
        ensures shows { ShowsLegal self.now.pass }
        ensures place { (state_shown self.now.pass).place
            ≡ place.Granted (pass_number self.now.pass) }
        ensures flag { (state_shown self.now.pass).flags.in_busy_poll ≡ false }
    {}

    /// Reads the state word: the flags, and in which queue the instance waits until it is taken.
    #[inline]
    pub fn look(&mut self, napi: &Napi) -> Seen
        requires { IsSeatOf napi.now self.old.pass }
        ensures event { Made self.old.pass (Look result ∷ []) self.new.pass }
        ensures packets { Quiet self.old.pass self.new.pass }
    {
        napi.table.look(&mut self.pass)
    }

    /// Queues the instance on the list or for its thread (`____napi_schedule`).
    #[inline]
    pub fn hand(self, napi: &Napi, kind: Kind) -> Caller
        requires { IsSeatOf napi.now self.pass }
        ensures event { Made self.pass (Hand kind ∷ []) result.pass }
        ensures packets { Quiet self.pass result.pass }
    {
        let Granted { mut pass, number } = self;
        napi.table.hand(&mut pass, kind);
        Caller { pass, number }
    }
}
