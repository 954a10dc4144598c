//! The ghost trace of a thread: what it asked its gate and which wakers it used, in order. It has no bytes, and its calls do
//! nothing at run time. Only the modules that set up a run can make a trace or add to it.

ghost use Rattle.std.specs.Prelude.{◌≡◌, List, [], ◌∷◌, ◌++◌};
ghost use Rattle.std.specs.Borrow.{ftrue};

use crate::setup::signals::Waker;
use std::marker::{Model, PhantomData};
use std::snapshot::Snapshot;

/// A question to the gate: before which act of which thread, and in which state that thread was. Only proofs read it.
#[derive(Drop)]
pub struct Asked<A> {
    /// The number by which the thread identifies itself to the gate.
    pub by: u32,
    /// The number of the act.
    pub act: u32,
    /// The state of the thread at this time.
    pub at: Snapshot<A>,
}

/// The use of a waker by a thread. Only proofs read it.
#[derive(Drop)]
pub struct Signal<A> {
    /// The waker.
    pub waker: Snapshot<Waker>,
    /// Whether the queue of its poller was closed too.
    pub closes: bool,
    /// The state of the thread at this time.
    pub at: Snapshot<A>,
}

/// A history that only proofs read. A clause reads its entries as `entries`.
#[derive(Drop)]
pub struct Trail<A> {
    of: PhantomData<A>,
    /// The entries, in order.
    pub ghost entries: { List A },
}

impl<A> Model for Trail<A> {
    ghost also_owns = { λ _. ftrue };
}

// It owns nothing.
unsafe impl<A> Send for Trail<A> {}

impl<A> Trail<A> {
    // Returns an empty trace, for a thread that has done nothing yet.
    pub(super) fn new() -> Trail<A>
        ensures { result.entries ≡ [] }
    {
        Trail { of: PhantomData }
    }

    // Returns this trace with one more entry.
    fn with(&self, entry: &A) -> Trail<A>
        ensures { result.entries ≡ self.now.entries ++ entry.now ∷ [] }
    {
        Trail { of: PhantomData }
    }
}

impl<A: Drop> Trail<A> {
    // Adds an entry.
    pub(super) fn add(&mut self, entry: A)
        ensures { self.new.entries ≡ self.old.entries ++ entry ∷ [] }
    {
        *self = self.with(&entry);
    }
}
