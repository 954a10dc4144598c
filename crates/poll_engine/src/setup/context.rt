//! What all threads of a run share.

ghost use Rattle.std.specs.Prelude.{◌≡◌, ◌++◌, ◌∷◌, [], true, None, IfSome};
ghost use Rattle.poll_engine.specs.Refusals.{IsRefused};
ghost use Rattle.poll_engine.specs.Stops.{IsStop, WasGoing};
ghost use Rattle.poll_engine.specs.Trails.{questions};

use crate::fault::WorkFault;
use crate::gate::Gate;
use crate::setup::trail::{Asked, Trail};
use std::marker::PhantomData;
use std::snapshot::Snapshot;
use std::sync::atomic::{AtomicIn, Ordering, Rule};

/// How the pollers of a run poll.
#[derive(Clone, Copy, Debug, PartialEq, Eq)]
pub struct PollLimits {
    /// The packets after which a polling run ends, 1 to 65535 (`netdev_budget`).
    pub budget: u32,
    /// The most packets of one poll, 1 to 64 (`struct napi_struct`, `weight`).
    pub weight: u32,
    /// The most polls of a run, and of one turn of an instance's thread, 1 to 65535.
    pub window: u32,
}

// The invariant of a flag: it is 0 unless a thread could not be started.
pub(crate) struct SpawnFailure;

impl Rule for SpawnFailure {
    ghost use Rattle.std.specs.Prelude.{◌≡◌, ◌⊎◌};
    ghost use Rattle.poll_engine.specs.Refusals.{IsRefused};

    ghost invariant = { λ n. (n ≡ 0) ⊎ IsRefused };
}

// The invariant of a flag: it is 0 unless the gate may return false.
struct Shut<G>(PhantomData<G>);

impl<G: Gate> Rule for Shut<G> {
    ghost use Rattle.std.specs.Prelude.{◌≡◌, ◌⊎◌};

    ghost invariant = { λ n. (n ≡ 0) ⊎ G.may_shut };
}

/// What all threads of a run share. Its private fields are the flags that say why no further acts are made, each 0 or 1. Proofs
/// rest on their invariants: each stop has a reason.
#[derive(Drop)]
pub struct RunContext<R, G: Gate> {
    /// The runtime: starts threads, and waits.
    pub rt: R,
    // The check before each act. Only `ask` calls it, so a thread's trace has each call.
    gate: G,
    /// How pollers poll.
    pub limits: PollLimits,
    // The thread of a poller could not be started. This is set before any worker begins.
    pub(crate) unpolled: AtomicIn<SpawnFailure>,
    // The thread of a worker could not be started.
    pub(crate) refused: AtomicIn<SpawnFailure>,
    // The gate has returned false.
    shut: AtomicIn<Shut<G>>,
}

impl<R, G: Gate> RunContext<R, G> {
    /// Returns the context of a run that isn't stopped.
    pub fn new(rt: R, gate: G, limits: PollLimits) -> RunContext<R, G>
        ensures gate { result.gate ≡ gate }
        ensures limits { result.limits ≡ limits }
    {
        RunContext {
            rt,
            gate,
            limits,
            unpolled: AtomicIn::new(0),
            refused: AtomicIn::new(0),
            shut: AtomicIn::new(0),
        }
    }

    /// Returns whether the thread of a poller could not be started.
    pub fn is_unpolled(&self) -> bool
        ensures { result ≡ true → IsRefused }
    {
        self.unpolled.load(Ordering::SeqCst) != 0
    }

    /// Returns whether a thread could not be started.
    pub fn is_refused(&self) -> bool
        ensures { result ≡ true → IsRefused }
    {
        self.is_unpolled() || self.refused.load(Ordering::SeqCst) != 0
    }

    /// Returns the reason if no further acts are made. The calling thread passes its state at this time.
    pub fn stop<A>(&self, at: &A) -> Option<WorkFault>
        ensures why { IfSome result (IsStop G.may_shut) }
        ensures going { result ≡ None → WasGoing self.now at.now }
    {
        if self.is_refused() {
            return Some(WorkFault::SpawnFailed);
        }
        if self.shut.load(Ordering::SeqCst) != 0 {
            return Some(WorkFault::GateShut);
        }
        None
    }

    /// Calls the gate before an act, or when a poller starts. If it returns false, the run stops: no further acts are made. The
    /// question and the thread's state are added to the trace.
    pub fn ask<A>(
        &self,
        by: u32,
        act: u32,
        at: &A,
        asked: &mut Trail<Asked<A>>,
    ) -> Option<WorkFault>
        ensures open { result ≡ None → G.answers self.now.gate by act true }
        ensures shut { IfSome result (IsStop G.may_shut) }
        ensures asked { questions asked.new ≡ questions asked.old ++ (by, act, at.now) ∷ [] }
    {
        let at = Snapshot::of(at);
        asked.add(Asked { by, act, at });
        if self.gate.pass(by, act) {
            return None;
        }
        self.shut.store(1, Ordering::SeqCst);
        Some(WorkFault::GateShut)
    }
}
