//! The signals between the threads of a run. Proofs rest on one fact: a waker wakes exactly the thread that it was created for.

ghost use Rattle.std.specs.Prelude.{◌≡◌, ◌++◌, ◌∷◌, [], true, false, IfOk};
ghost use Rattle.poll_engine.specs.Trails.{signals};
ghost use Rattle.poll_engine.specs.Wakers.{SawClosed, Wakes};

use crate::setup::trail::{Signal, Trail};
use crossbeam_utils::Backoff;
use crossbeam_utils::sync::{Parker, Unparker};
use std::alloc::{AllocError, Global};
use std::snapshot::Snapshot;
use std::sync::Wait;
use std::sync::atomic::{AtomicIn, Ordering, Rule};

// The invariant of a waker's flag: it is 0 unless the queue was closed.
struct Closing;

impl Rule for Closing {
    ghost use Rattle.std.specs.Prelude.{◌≡◌, ◌⊎◌};
    ghost use Rattle.poll_engine.specs.Wakers.{IsQueueClosed};

    ghost invariant = { λ n. (n ≡ 0) ⊎ IsQueueClosed };
}

/// Wakes a poller, and closes its queue: after that nothing more is queued for it.
#[derive(Drop)]
pub struct Waker {
    unparker: Unparker,
    closed: AtomicIn<Closing>,
}

impl Waker {
    /// Returns a waker, and the `IdleWait` of its poller.
    pub fn new(alloc: Global) -> Result<(Waker, IdleWait), AllocError>
        ensures { IfOk result (λ r. Wakes r.0 r.1) }
    {
        let parker = Parker::new(alloc)?;
        let unparker = parker.unparker().clone()?;
        let closed = AtomicIn::new(0);
        let wait = IdleWait {
            parker,
            backoff: Backoff::new(),
        };
        Ok((Waker { unparker, closed }, wait))
    }

    /// Wakes the poller, or keeps it awake if it is about to sleep. It is called after an instance was queued for the poller. The
    /// wake-up and the calling thread's state are added to the trace.
    pub fn wake<A>(&self, at: &A, trail: &mut Trail<Signal<A>>)
        ensures { signals trail.new ≡ signals trail.old ++ (self.now, false, at.now) ∷ [] }
    {
        trail.add(Signal {
            waker: Snapshot::of(self),
            closes: false,
            at: Snapshot::of(at),
        });
        self.unparker.unpark();
    }

    /// Closes the queue of the poller: nothing more is queued for it. The close and the calling thread's state are added to the
    /// trace.
    pub fn close<A>(&self, at: &A, trail: &mut Trail<Signal<A>>)
        ensures { signals trail.new ≡ signals trail.old ++ (self.now, true, at.now) ∷ [] }
    {
        trail.add(Signal {
            waker: Snapshot::of(self),
            closes: true,
            at: Snapshot::of(at),
        });
        self.closed.store(1, Ordering::SeqCst);
        self.unparker.unpark();
    }

    /// Returns whether the queue was closed. The calling thread passes its state at this time.
    pub fn is_closed<A>(&self, at: &A) -> bool
        ensures { result ≡ true → SawClosed self.now at.now }
    {
        self.closed.load(Ordering::SeqCst) != 0
    }
}

/// How a poller waits while there is nothing to poll: it spins and yields for a while, and then sleeps. A wake-up just before
/// the sleep isn't lost.
#[derive(Drop)]
pub struct IdleWait {
    parker: Parker,
    backoff: Backoff,
}

impl IdleWait {
    /// Starts with spinning again, because something was polled.
    pub fn reset(&self) {
        self.backoff.reset();
    }

    /// Waits, because nothing was polled: spins or yields at first, and later sleeps until the waker wakes it.
    pub fn wait<R: Wait>(&self, rt: &R) {
        if self.backoff.is_completed() {
            self.parker.park(rt);
            self.backoff.reset();
        } else {
            self.backoff.snooze();
        }
    }
}
