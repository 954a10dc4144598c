//! Pops by the poller of a shared list, with a count.

ghost use Rattle.std.specs.Prelude.{◌≡◌, true, [], ◌∷◌, IfNone, IfSome};
ghost use Rattle.crossbeam_queue.specs.Passes.{view, IsPassOf};
ghost use Rattle.poll_engine.specs.PushOrder.{PopsMore, WasEmpty};
ghost use Rattle.poll_engine.specs.EmptyPops.{CountsOne, found_empty};

use crate::list_rule::{EndPass, PoppedLast, PushQueue};
use std::sync::Wait;

/// Counts the pops that found the queue empty.
#[derive(Drop)]
pub struct Pops {
    // The count, which saturates.
    empty: u64,
}

impl Pops {
    /// The count of a poller that hasn't popped.
    pub(crate) fn none() -> Pops
        ensures { found_empty result ≡ 0 }
    {
        Pops { empty: 0 }
    }

    /// Pops the first number of the queue. If the queue is empty, this is counted.
    pub(crate) fn pop<R: Wait>(
        &mut self,
        rt: &R,
        queue: &PushQueue,
        pass: &mut EndPass,
    ) -> Option<u32>
        requires pass { IsPassOf queue.now pass.old × ((view pass.old).polls ≡ true) }
        ensures pass { IsPassOf queue.now pass.new × (pass.new.table_id ≡ pass.old.table_id) }
        ensures popped { IfSome result (λ id. PopsMore (view pass.old) (id ∷ []) (view pass.new)) }
        ensures same { IfSome result (λ _. self.new ≡ self.old) }
        ensures kept { IfNone result (view pass.new ≡ view pass.old) }
        ensures empty { IfNone result (WasEmpty (view pass.new)) }
        ensures counted { IfNone result (CountsOne self.old self.new) }
    {
        let popped = queue.pop_as::<PoppedLast, R>(rt, pass);
        if popped.is_none() {
            self.empty = self.empty.saturating_add(1);
        }
        popped
    }
}
