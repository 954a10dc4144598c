//! Making and closing an instance.
ghost use Rattle.std.specs.Prelude.{◌≡◌, ◌≢◌, ◌<◌, ◌≤◌, ◌+◌, ◌-◌, ℕ, [], ◌∷◌, ◌++◌, length, IfOk, IfErr, Some, slice_get, false, vec_capacity};
ghost use Rattle.rx_ring.specs.declared.ends.RxCtx.{RxCtx};
ghost use Rattle.napi_word.specs.declared.table.Pass.{Pass};
ghost use Rattle.napi_word.specs.declared.table.StateTable.{StateTable};
ghost use Rattle.rx_ring.specs.Ends.{ring_name};
ghost use Rattle.napi_word.specs.Passes.{view_of, IsPassOf, IsNewPass};
ghost use Rattle.napi_calls.specs.declared.types.Caller.{Caller};
ghost use Rattle.napi_calls.specs.declared.fault.CloseFault.TheVariants.{NotAll};
ghost use Rattle.napi_calls.specs.Fault.{is_bad_count, new_fault};
ghost use Rattle.napi_calls.specs.Instance.{callers_of, ring_of_instance, first_of_instance, IsSeatOf, IsNewSeat};
ghost use Rattle.napi_calls.specs.Closed.{seats_of, IsClosed};

use crate::fault::{CloseFault, NewFault};
use crate::types::{Caller, Control, Napi, Off};
use napi_word::{Ended, Pass, StateTable, TableBack};
use rx_ring::RxCtx;
use std::alloc::Global;

/// A failed attempt to make an instance, with its arguments.
pub struct NewBack {
    /// Why it failed.
    pub fault: NewFault,
    /// The context that was passed in, unchanged.
    pub ctx: RxCtx,
}

/// A failed attempt to close an instance, with its arguments.
pub struct CloseBack {
    /// Why it failed.
    pub fault: CloseFault,
    /// The instance, unchanged.
    pub napi: Napi,
    /// The callers, unchanged.
    pub callers: Vec<Caller>,
    /// The controller, unchanged.
    pub control: Control<Off>,
}

/// Removes and returns the next caller from the list that [`Napi::new`] returned: the last that is left in it.
pub fn next_caller(napi: &Napi, callers: &mut Vec<Caller>) -> Caller
    requires some { 1 ≤ length callers.old.items }
    requires seats { (k : ℕ) (c : Caller) → slice_get callers.old.items k ≡ Some c
        → IsSeatOf napi.now c.pass }
    ensures caller { IsSeatOf napi.now result.pass }
    ensures left { callers.old.items ≡ callers.new.items ++ result ∷ [] }
    ensures seats { (k : ℕ) (c : Caller) → slice_get callers.new.items k ≡ Some c
        → IsSeatOf napi.now c.pass }
    ensures room { vec_capacity callers.new ≡ vec_capacity callers.old }
{
    let popped = callers.pop();
    let Some(caller) = popped else { unreachable!() };
    caller
}

// Returns the controller of a new pass, with the context taken out of the slot.
fn control_of(table: &StateTable, mut pass: Pass, last: u32) -> Control<Off>
    requires { (ctx : RxCtx) × IsNewPass table.now last ctx last pass }
    ensures table { IsPassOf table.now result.pass }
    ensures view { view_of result.pass ≡ view_of pass }
{
    let ctx = table.slot_out(&mut pass);
    Control {
        pass,
        state: Off { ctx },
    }
}

// Returns the caller of a new pass.
fn caller_of(pass: Pass, number: u32) -> Caller
    requires { (t : StateTable) × (last : ℕ) × (ctx : RxCtx) × (number < last)
        × IsNewPass t last ctx number pass }
    ensures { result.pass ≡ pass }
{
    Caller { pass, number }
}

fn is_bad(callers: u32) -> bool
    ensures is { result ≡ is_bad_count callers }
    ensures good { result ≡ false → (2 ≤ callers) × (callers ≤ 8) }
{
    callers < 2 || 8 < callers
}

// Returns the callers of these new passes, in order.
fn seat_callers(passes: Vec<Pass>, mut callers: Vec<Caller>) -> Vec<Caller>
    requires new { (t : StateTable) × (last : ℕ) × (ctx : RxCtx) × (length passes.items ≤ last)
        × (last ≤ 8)
        × ((k : ℕ) (p : Pass) → slice_get passes.items k ≡ Some p → IsNewPass t last ctx k p) }
    requires empty { callers.items ≡ [] }
    requires room { length passes.items ≤ vec_capacity callers }
    ensures { seats_of result.items ≡ passes.items }
{
    let mut rest = passes.into_iter();
    let mut number = 0;
    while let Some(pass) = rest.next() {
        callers.push_reserved(caller_of(pass, number));
        number += 1;
    }
    rest.destroy_empty();
    callers
}

impl Napi {
    /// Returns a new instance over the poll context of a receive ring (`netif_napi_add`), with its callers and its controller.
    /// It is disabled. The callers have the numbers from 0 on, in order, and the controller's is their count. This is the only
    /// call that allocates.
    ///
    /// Fails with [`BadCount`](NewFault::BadCount) if `callers` isn't 2 to 8, otherwise only with
    /// [`OutOfMemory`](NewFault::OutOfMemory), if an allocation fails. Both return the context.
    pub fn new(
        alloc: Global,
        ctx: RxCtx,
        callers: u32,
    ) -> Result<(Napi, Vec<Caller>, Control<Off>), NewBack>
        ensures fault { IfErr result (λ b. b.fault ≡ new_fault (is_bad_count callers)) }
        ensures back { IfErr result (λ b. b.ctx ≡ ctx) }
        ensures count { IfOk result
            (λ r. (is_bad_count callers ≡ false) × (callers_of r.0 ≡ callers)
            × (length r.1.items ≡ callers)) }
        ensures ring { IfOk result (λ r. ring_of_instance r.0 ≡ ring_name ctx) }
        ensures first { IfOk result (λ r. first_of_instance r.0 ≡ ctx) }
        ensures callers { IfOk result
            (λ r. (k : ℕ) (c : Caller) → slice_get r.1.items k ≡ Some c → IsNewSeat r.0 k c.pass) }
        ensures control { IfOk result (λ r. IsNewSeat r.0 callers r.2.pass) }
    {
        if is_bad(callers) {
            return Err(NewBack {
                fault: NewFault::BadCount,
                ctx,
            });
        }
        let Ok(seated) = Vec::with_capacity(alloc, callers as usize) else {
            return Err(NewBack {
                fault: NewFault::OutOfMemory,
                ctx,
            });
        };
        let (table, mut passes) = match StateTable::new(alloc, ctx, callers + 1) {
            Ok(both) => both,
            Err(TableBack { ctx }) => {
                seated.destroy_empty();
                return Err(NewBack {
                    fault: NewFault::OutOfMemory,
                    ctx,
                });
            }
        };
        let popped = passes.pop();
        let Some(last) = popped else { unreachable!() };
        let control = control_of(&table, last, callers);
        let seated = seat_callers(passes, seated);
        Ok((Napi { table, callers }, seated, control))
    }
}

/// Closes a disabled instance (`netif_napi_del`) and returns its poll context. Fails with [`NotAll`](CloseFault::NotAll) if
/// callers are missing, and returns all three arguments unchanged.
///
/// Its contract states the complete history of the instance.
pub fn close(
    napi: Napi,
    mut callers: Vec<Caller>,
    control: Control<Off>,
) -> Result<RxCtx, CloseBack>
    requires callers { (k : ℕ) (c : Caller) → slice_get callers.items k ≡ Some c
        → IsSeatOf napi c.pass }
    requires control { IsSeatOf napi control.pass }
    ensures fault { IfErr result
        (λ b. (b.fault ≡ NotAll) × (length callers.items < callers_of napi)) }
    ensures back { IfErr result
        (λ b. (b.napi ≡ napi) × (b.callers ≡ callers) × (b.control ≡ control)) }
    ensures closed { IfOk result (λ ctx. IsClosed napi callers.items control.pass ctx) }
    ensures ctx { IfOk result (λ ctx. ctx ≡ control.state.ctx) }
{
    if callers.len() < napi.callers as usize {
        return Err(CloseBack {
            fault: CloseFault::NotAll,
            napi,
            callers,
            control,
        });
    }
    let Napi { table, callers: _ } = napi;
    let Control {
        pass,
        state: Off { ctx },
    } = control;
    let mut gathering = table.gather(pass);
    while let Some(caller) = callers.pop() {
        let Caller { pass, number: _ } = caller;
        table.join(&mut gathering, pass);
    }
    callers.destroy_empty();
    let Ended { ctx: _left } = table.finish(gathering);
    Ok(ctx)
}
