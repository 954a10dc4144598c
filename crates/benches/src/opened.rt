//! A table whose instance is enabled, with two passes that own nothing.
ghost use Rattle.std.specs.Prelude.{IfSome};
ghost use Rattle.benches.specs.Ready.{IsReady};
ghost use Rattle.napi_word.specs.Passes.{IsNewPass};

use napi_model::decode;
use napi_word::{Pass, StateTable};
use rx_ring::RxCtx;
use std::alloc::Global;

/// A state table, and the passes of its two callers and its controller.
#[derive(Drop)]
pub struct OpenedWord {
    /// The instance's state word, and the slot of its poll context.
    pub table: StateTable,
    /// The pass that makes the cycles.
    pub poller: Pass,
    /// The pass that schedules all the time.
    pub scheduler: Pass,
    control: Pass,
}

impl OpenedWord {
    fn new(alloc: Global, ctx: RxCtx) -> Option<OpenedWord>
        ensures poller { IfSome result (λ o. IsNewPass o.table 2 ctx 0 o.poller) }
        ensures scheduler { IfSome result (λ o. IsNewPass o.table 2 ctx 1 o.scheduler) }
        ensures control { IfSome result (λ o. IsNewPass o.table 2 ctx 2 o.control) }
    {
        let Ok((table, mut passes)) = StateTable::new(alloc, ctx, 3) else {
            return None;
        };
        let last = passes.pop();
        let Some(control) = last else { unreachable!() };
        let last = passes.pop();
        let Some(scheduler) = last else {
            unreachable!()
        };
        let last = passes.pop();
        let Some(poller) = last else { unreachable!() };
        Some(OpenedWord {
            table,
            poller,
            scheduler,
            control,
        })
    }

    /// Returns a table with three passes, whose instance was enabled by the last of them. Returns `None` if an allocation
    /// fails.
    pub fn enabled(alloc: Global, ctx: RxCtx) -> Option<OpenedWord>
        ensures poller { IfSome result (λ o. IsReady o.table o.poller) }
        ensures scheduler { IfSome result (λ o. IsReady o.table o.scheduler) }
    {
        let mut opened = OpenedWord::new(alloc, ctx)?;
        // the state word 9 of a new instance: SCHED and NPSVC are set
        let disabled = decode(9)?;
        opened
            .table
            .enable_swap(&mut opened.control, disabled, false)
            .ok()?;
        Some(opened)
    }
}
