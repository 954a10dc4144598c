//! Code that runs between the two atomic steps of a call, for tests and simulators.

/// An action between a call's read of the state word and its compare-exchange, as another thread might take it. A call runs it
/// once, if it gets that far.
pub trait Between {
    // How `run` changes the value. An `impl` that states nothing about this has only `run`.
    ghost ran: { Self → Self → Type 0 } = { λ _ _. Unit {0} };

    /// Runs once, between the read and the compare-exchange.
    fn run(&mut self)
        ensures { ran self.old self.new };
}

/// Does nothing. The `try_` forms of the calls are the `_between` forms with this action.
#[derive(Drop)]
pub struct Nothing;

impl Between for Nothing {
    ghost use Rattle.std.specs.Prelude.{◌≡◌};

    ghost ran = { λ s t. t ≡ s };

    fn run(&mut self) {}
}
