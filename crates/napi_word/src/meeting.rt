//! One pass learns the events that another one has seen.
ghost use Rattle.std.specs.Prelude.{◌≡◌};
ghost use mathlib.Core.List.{IsPrefix};
ghost use Rattle.napi_model.specs.declared.event.Operation.TheVariants.{Look};
ghost use Rattle.napi_word.specs.Knowledge.{view_shown};
ghost use Rattle.napi_word.specs.Slot.{stays};
ghost use Rattle.napi_word.specs.Passes.{view_of, IsPassOf, Makes};

use crate::step_kinds::{CopiesHistory, JoinsPass};
use crate::table::{Pass, StateTable};
use napi_model::Seen;

impl StateTable {
    /// Reads the word with `first` and then with `second`, and returns both results. Afterwards `second` has seen all events
    /// that `first` has seen: its later calls come after all that `first` had done.
    pub fn meet(&self, first: &mut Pass, second: &mut Pass) -> (Seen, Seen)
        requires first { IsPassOf self.now first.old }
        requires second { IsPassOf self.now second.old }
        ensures first { Makes first.old (Look result.0) stays first.new }
        ensures second { Makes second.old (Look result.1) stays second.new }
        ensures met { IsPrefix (view_shown (view_of first.new)) (view_shown (view_of second.new)) }
    {
        let found = self.look(first);
        let copy = self
            .table
            .shared
            .split_seat::<CopiesHistory>(&mut first.seat);
        self.table
            .shared
            .join_seat::<JoinsPass>(&mut second.seat, copy);
        (found, self.look(second))
    }
}
