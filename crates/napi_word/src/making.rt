//! Making a table with its passes.
ghost use Rattle.std.specs.Prelude.{◌≡◌, ℕ, ◌+◌, ◌-◌, ◌<◌, ◌≤◌, [], ◌∷◌, length, vec_len, IfOk, IfErr, Some, slice_get};
ghost use Rattle.napi_word.specs.declared.history.Holds.TheVariants as holds;
ghost use Rattle.rx_ring.specs.Ends.{ring_name};
ghost use Rattle.napi_word.specs.Rule.{new_history, maker_at, first_view};
ghost use Rattle.napi_word.specs.Passes.{view_of, ctx_of, IsPassOf, SameTable, IsStored, IsNewPass, controller_of_table, ring_of_table, first_of_table};

use crate::history::{Holds, Key, Knowledge};
use crate::step_kinds::{GivesNumber, TakesFirstSlot};
use crate::table::{Pass, StateTable};
use atomic_table::{Refused, Seat, Table};
use rx_ring::RxCtx;
use std::alloc::{AllocFailed, Global};
use std::snapshot::Snapshot;

/// A failed attempt to make a table: out of memory.
#[derive(Drop)]
pub struct TableBack {
    /// The context that was passed in.
    pub ctx: RxCtx,
}

fn one_slot(alloc: Global, ctx: RxCtx) -> Result<Vec<Option<RxCtx>>, TableBack>
    ensures ok { IfOk result (λ v. v.items ≡ Some ctx ∷ []) }
    ensures err { IfErr result (λ b. b.ctx ≡ ctx) }
{
    let mut slots = Vec::new(alloc);
    match slots.push(Some(ctx)) {
        Ok(()) => Ok(slots),
        Err(failed) => {
            slots.destroy_empty();
            let AllocFailed { value } = failed;
            let Some(ctx) = value else { unreachable!() };
            Err(TableBack { ctx })
        }
    }
}

fn back(mut slots: Vec<Option<RxCtx>>) -> TableBack
    requires { (x : RxCtx) × (slots.items ≡ Some x ∷ []) }
    ensures { slots.items ≡ Some result.ctx ∷ [] }
{
    let last = slots.pop();
    slots.destroy_empty();
    let Some(slot) = last else { unreachable!() };
    let Some(ctx) = slot else { unreachable!() };
    TableBack { ctx }
}

// Takes the slot for the controller with the table's first seat (what `atomic_table` gives a thread for its steps), and clears
// the mark of `beside` on the context. The seat has the local histories of all numbers, the controller's first.
fn begin(table: &StateTable, mut seat: Seat<Option<RxCtx>, Knowledge>) -> Pass
    requires table { seat.table_id ≡ table.now.table.shared.table_id }
    requires first { seat.me ≡ (first_view table.now.table.shared.key, []) }
    ensures table { IsPassOf table.now result }
    ensures view { view_of result
        ≡ maker_at table.now.table.shared.key.controller table.now.table.shared.key.ring.value 0 }
    ensures holds { result.holds ≡ holds.Within }
    ensures stored { IsStored table.now.table.shared.key.ring.value result }
{
    table.table.shared.load::<TakesFirstSlot>(&mut seat, 0);
    let Some(mut ctx) = table.table.shared.exchange(&mut seat, 0, None) else {
        unreachable!()
    };
    ctx.apart();
    let None = table.table.shared.exchange(&mut seat, 0, Some(ctx)) else {
        unreachable!()
    };
    Pass {
        seat,
        holds: Holds::Within,
    }
}

// Splits off the local history of the next number, into a pass of its own.
fn next_pass(table: &StateTable, maker: &mut Pass, number: u32) -> Pass
    requires table { IsPassOf table.now maker.old }
    requires number { number < table.now.table.shared.key.controller }
    requires view { view_of maker.old
        ≡ maker_at table.now.table.shared.key.controller table.now.table.shared.key.ring.value
        number }
    ensures table { SameTable maker.old maker.new }
    ensures view { view_of maker.new
        ≡ maker_at table.now.table.shared.key.controller table.now.table.shared.key.ring.value
        (number + 1) }
    ensures holds { maker.new.holds ≡ maker.old.holds }
    ensures slot { ctx_of maker.new ≡ ctx_of maker.old }
    ensures made { IsNewPass table.now table.now.table.shared.key.controller
        table.now.table.shared.key.ring.value number result }
{
    Pass {
        seat: table
            .table
            .shared
            .split_seat::<GivesNumber>(&mut maker.seat),
        holds: Holds::Nothing,
    }
}

impl StateTable {
    /// Returns a table in the opening state, disabled (`netif_napi_add`: SCHED and NPSVC), with this many passes, 1 to 9. They
    /// have the numbers from 0 on, in order; the last is the controller's, which has the slot with the context in it.
    ///
    /// Fails only if an allocation fails, and then returns the context. No other call of a table allocates.
    pub fn new(alloc: Global, ctx: RxCtx, seats: u32) -> Result<(StateTable, Vec<Pass>), TableBack>
        requires { (1 ≤ seats) × (seats ≤ 9) }
        ensures count { IfOk result (λ r. (vec_len r.1 ≡ seats) × (length r.1.items ≡ seats)) }
        ensures controller { IfOk result (λ r. controller_of_table r.0 ≡ seats - 1) }
        ensures ring { IfOk result (λ r. ring_of_table r.0 ≡ ring_name ctx) }
        ensures first { IfOk result (λ r. first_of_table r.0 ≡ ctx) }
        ensures new { IfOk result
            (λ r. (k : ℕ) (p : Pass) → slice_get r.1.items k ≡ Some p
            → IsNewPass r.0 (seats - 1) ctx k p) }
        ensures back { IfErr result (λ b. b.ctx ≡ ctx) }
    {
        let Ok(mut passes) = Vec::with_capacity(alloc, seats as usize) else {
            return Err(TableBack { ctx });
        };
        let controller = seats - 1;
        let key = Key {
            controller,
            ring: Snapshot::of(&ctx),
        };
        let slots = match one_slot(alloc, ctx) {
            Ok(slots) => slots,
            Err(failed) => {
                passes.destroy_empty();
                return Err(failed);
            }
        };
        let (table, seat) = match Table::new(alloc, &[9], slots, &key) {
            Ok(made) => made,
            Err(Refused { slots }) => {
                passes.destroy_empty();
                return Err(back(slots));
            }
        };
        let made = StateTable { table };
        let mut maker = begin(&made, seat);
        for number in 0..controller {
            let pass = next_pass(&made, &mut maker, number);
            let pushed = passes.push(pass);
            let Ok(()) = pushed else { unreachable!() };
        }
        let pushed = passes.push(maker);
        let Ok(()) = pushed else { unreachable!() };
        Ok((made, passes))
    }
}
