//! The check that a run makes before each act.

ghost use Rattle.std.specs.Prelude.{◌≡◌, ℕ, Bool, true, false};

/// A check that can stop a run. It is called before each act of a worker, with its device's number and the act's. It is called
/// with act 0 when a poller starts: with 100 plus the number of a poller of lists, counted from 0, or with 200 plus the
/// device's number for the thread of an instance.
pub trait Gate {
    /// A property that a gate which may return false has. It can't be proved for a gate that always returns true.
    ghost may_shut: { Type 0 } = { Unit {0} };

    /// `answers self worker act answer`: it was called with these arguments and returned `answer`. By default nothing is known
    /// about this.
    ghost answers: { Self → ℕ → ℕ → Bool → Type 0 } = { λ gate worker act answer. Unit {0} };

    /// Returns false to stop the run: no further act is made, pollers continue until everything that was begun has ended, and
    /// the run fails.
    fn pass(&self, worker: u32, act: u32) -> bool
        ensures shut { result ≡ false → may_shut }
        ensures answers { answers self.now worker act result };
}

impl<G: Gate> Gate for &G {
    ghost may_shut = { G.may_shut };

    ghost answers = { λ gate. G.answers gate.now };

    fn pass(&self, worker: u32, act: u32) -> bool {
        (**self).pass(worker, act)
    }
}

/// A gate that always returns true.
#[derive(Drop)]
pub struct OpenGate;

impl Gate for OpenGate {
    ghost may_shut = { ⊥ };

    fn pass(&self, _worker: u32, _act: u32) -> bool {
        true
    }
}
