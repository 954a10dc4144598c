//! The place that a driver writes the next action to.

ghost use Rattle.std.specs.Prelude.{◌≡◌};

use crate::todo::Todo;

/// A place that a driver writes the next action to ([`Driver::step_into`](crate::Driver::step_into)), in the form that its owner
/// needs, such as a struct of C.
pub trait TodoPlace {
    ghost use Rattle.driver_core.specs.declared.todo.Todo.{Todo};

    /// `takes before todo after`: after this action was written, the place is `after`.
    ghost takes: { Self → Todo → Self → Type 0 };

    /// Writes the action.
    fn put(&mut self, todo: Todo)
        ensures { takes self.old todo self.new };
}

/// No place: the action is only returned.
#[derive(Clone, Copy)]
pub(crate) struct Nowhere;

impl TodoPlace for Nowhere {
    ghost takes = { λ _ _ _. Unit {0} };

    #[inline(always)]
    fn put(&mut self, _todo: Todo) {}
}
