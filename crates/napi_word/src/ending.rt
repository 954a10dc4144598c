//! Closing a table, after all its passes were joined.
ghost use Rattle.std.specs.Prelude.{◌≡◌, ℕ, ◌+◌, ◌≤◌, List, [], ◌∷◌, length, Some, slice_get};
ghost use Rattle.napi_word.specs.declared.history.Holds.TheVariants as holds;
ghost use Rattle.napi_word.specs.Knowledge.{view_ring};
ghost use Rattle.napi_word.specs.Passes.{view_of, IsPassOf, controller_of_table};
ghost use Rattle.napi_word.specs.Ends.{Finds, picked, IsGatheredOf, Gathered, IsClosedTable};

use crate::gathering::{Found, Gathering};
use crate::history::{Holds, Knowledge};
use crate::step_kinds::{JoinsPass, ReturnsSlot};
use crate::table::{Pass, StateTable};
use atomic_table::Seat;
use rx_ring::RxCtx;

/// What is left after a table was closed.
#[derive(Drop)]
pub struct Ended {
    /// The context, or `None` if a pass has taken it out of the slot.
    pub ctx: Option<RxCtx>,
}

// Returns a context that a pass had in the slot, otherwise the one in the slot itself; `None` if a pass has taken it out.
fn pick(found: Found, slot: Option<RxCtx>) -> Option<RxCtx>
    ensures { result ≡ picked found.out found.ctx slot }
{
    let Found { ctx, out } = found;
    if out {
        return None;
    }
    match ctx {
        Some(ctx) => Some(ctx),
        None => slot,
    }
}

impl StateTable {
    // Returns the seat of a pass that owns the slot and has taken the context out of it: the slot is returned empty. A seat is
    // what `atomic_table` gives a thread for its steps.
    fn return_slot(&self, pass: Pass) -> Seat<Option<RxCtx>, Knowledge>
        requires table { IsPassOf self.now pass }
        requires out { pass.holds ≡ holds.Out }
        ensures table { result.table_id ≡ self.now.table.shared.table_id }
        ensures seat { result.me ≡ (view_of pass, []) }
    {
        let Pass { mut seat, holds: _ } = pass;
        self.table.shared.load::<ReturnsSlot>(&mut seat, 0);
        seat
    }

    // Returns the seat of a pass, which holds nothing afterwards. What it held is added to `found`.
    fn give_up(&self, pass: Pass, found: &mut Found) -> Seat<Option<RxCtx>, Knowledge>
        requires table { IsPassOf self.now pass }
        ensures table { result.table_id ≡ self.now.table.shared.table_id }
        ensures seat { result.me ≡ (view_of pass, []) }
        ensures found { Finds pass.holds (view_ring (view_of pass)) found.old found.new }
    {
        let mut pass = pass;
        match pass.holds {
            Holds::Nothing => {
                let Pass { seat, holds: _ } = pass;
                seat
            }
            Holds::Within => {
                let ctx = self.slot_out(&mut pass);
                found.ctx = Some(ctx);
                self.return_slot(pass)
            }
            Holds::Out => {
                found.out = true;
                self.return_slot(pass)
            }
        }
    }

    /// Starts to gather the passes of a table, with the first one. This is for callers that must not allocate: they add the
    /// other passes by [`join`](StateTable::join), and then call [`finish`](StateTable::finish).
    pub fn gather(&self, first: Pass) -> Gathering
        requires table { IsPassOf self.now first }
        ensures table { IsGatheredOf self.now result }
        ensures has { Gathered (first ∷ []) result.seat.me.0 result.found }
    {
        let mut found = Found {
            ctx: None,
            out: false,
        };
        let seat = self.give_up(first, &mut found);
        Gathering { seat, found }
    }

    /// Adds one more pass to those gathered.
    pub fn join(&self, gathering: &mut Gathering, pass: Pass)
        requires table { IsGatheredOf self.now gathering.old }
        requires pass { IsPassOf self.now pass }
        ensures table { IsGatheredOf self.now gathering.new }
        ensures has { (taken : List Pass)
            → Gathered taken gathering.old.seat.me.0 gathering.old.found
            → Gathered (pass ∷ taken) gathering.new.seat.me.0 gathering.new.found }
    {
        let seat = self.give_up(pass, &mut gathering.found);
        self.table
            .shared
            .join_seat::<JoinsPass>(&mut gathering.seat, seat);
    }

    /// Closes the table. If all its passes were gathered, the contract states its complete history.
    pub fn finish(self, gathering: Gathering) -> Ended
        requires table { IsGatheredOf self gathering }
        ensures { (taken : List Pass) → Gathered taken gathering.seat.me.0 gathering.found
            → controller_of_table self + 1 ≤ length taken → IsClosedTable self taken result.ctx }
    {
        let StateTable { table } = self;
        let Gathering { seat, found } = gathering;
        let mut closed = table.close_with(seat);
        let slot = closed.take(0);
        closed.free();
        Ended {
            ctx: pick(found, slot),
        }
    }
}

/// Closes the table with all its passes. The contract states its complete history: it is legal, each pass's own list is exactly
/// its number's events in it, and the longest list shown is the history itself. A pass that has taken the context out of the
/// slot is allowed too.
pub fn end(table: StateTable, mut passes: Vec<Pass>) -> Ended
    requires passes { (k : ℕ) (p : Pass) → slice_get passes.items k ≡ Some p → IsPassOf table p }
    requires count { length passes.items ≡ controller_of_table table + 1 }
    ensures { IsClosedTable table passes.items result.ctx }
{
    let popped = passes.pop();
    let Some(first) = popped else { unreachable!() };
    let mut gathering = table.gather(first);
    while let Some(pass) = passes.pop() {
        table.join(&mut gathering, pass);
    }
    passes.destroy_empty();
    table.finish(gathering)
}
