//! The thread of a poller: it takes turns until its queue is closed.

ghost use Rattle.poll_engine.specs.Serving.{IsServed};

use crate::fault::WorkFault;
use crate::gate::Gate;
use crate::setup::context::RunContext;
use crate::setup::signals::{IdleWait, Waker};
use crate::setup::trail::{Asked, Trail};
use crate::tasks::Task;
use std::sync::Wait;

/// What a poller polls: the instances on a list, or the one instance whose thread it is.
pub(crate) trait Serves {
    ghost use Rattle.std.specs.Prelude.{◌≡◌, Bool};

    ghost idle: { Self → Bool };

    /// `turns before found after`: one turn leads from `before` to `after`; `found` says whether it polled anything.
    ghost turns: { Self → Bool → Self → Type 0 };

    /// Returns whether there is nothing that it could ever poll: then it needs no thread.
    fn is_idle(&self) -> bool
        ensures { result ≡ idle self.now };

    /// Polls everything that is ready. Returns whether there was anything.
    fn turn(&mut self) -> bool
        ensures { turns self.old result self.new };
}

// Takes turns as long as they find something to poll. A turn that finds nothing is the last one if the waker was closed before
// that turn: everything is queued before the close.
fn serve<R: Wait, S: Serves>(rt: &R, waker: &Waker, wait: &IdleWait, served: &mut S)
    ensures { IsServed waker.now S.turns served.old served.new }
{
    for _ in rt.forever() {
        let is_last = waker.is_closed(served);
        if served.turn() {
            wait.reset();
        } else if is_last {
            return;
        } else {
            wait.wait(rt);
        }
    }
    unreachable!()
}

/// A poller, which runs in its own thread. What polls for an instance that has no thread needs none, and takes no turns.
#[derive(Drop)]
pub struct Poller<'t, 'p, R: Wait + Drop, G: Gate, S: Drop> {
    /// What all threads of the run share.
    pub context: &'t RunContext<R, G>,
    /// The number by which the poller identifies itself to the gate.
    pub name: u32,
    /// The waker of the poller.
    pub waker: &'p Waker,
    /// How the poller waits.
    pub wait: IdleWait,
    /// What it polls.
    pub served: S,
    /// Its questions to the gate, each with what it polls at that time. Only proofs read them.
    pub asked: Trail<Asked<S>>,
    /// The reason, if its run ended early: a thread couldn't be started, and it took no turn; or its gate returned false.
    pub stop: Option<WorkFault>,
}

impl<'t, 'p, R: Wait + Drop, G: Gate, S: Serves + Drop> Task for Poller<'t, 'p, R, G, S> {
    ghost use Rattle.poll_engine.specs.Gives.{IsPolled};
    ghost use Rattle.poll_engine.specs.Stops.{IsStop};

    ghost idle = { λ p. S.idle p.served };

    ghost gives = { IsPolled S.idle S.turns G.may_shut G.answers };

    ghost stopped = { λ p. p.stop };

    ghost may_stop = { IsStop G.may_shut };

    fn is_idle(&self) -> bool {
        self.served.is_idle()
    }

    fn run(self) -> Poller<'t, 'p, R, G, S> {
        let mut poller = self;
        if poller.served.is_idle() {
            poller.stop = None;
            return poller;
        }
        let context = poller.context;
        if context.is_unpolled() {
            poller.stop = Some(WorkFault::SpawnFailed);
            return poller;
        }
        let own = &mut poller;
        own.stop = context.ask(own.name, 0, &own.served, &mut own.asked);
        serve(&context.rt, own.waker, &own.wait, &mut own.served);
        poller
    }

    fn stop(&self) -> Option<WorkFault> {
        self.stop
    }
}
