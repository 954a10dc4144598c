//! The public types and calls of the lower facades, from `napi_model` to `napi_calls`, each used as a user writes it: a name that is
//! lost, or a signature that changes, stops this crate.

ghost use Rattle.std.specs.Prelude.{◌≡◌, ◌+◌, ℕ, Some, false, length, slice_get, true};
ghost use Rattle.napi_model.specs.Serial.{serial_controller, state_of};
ghost use Rattle.napi_model.specs.Step.{IsControl, MayHand};
ghost use Rattle.napi_model.specs.declared.state.Kind.TheVariants as kind;
ghost use Rattle.napi_model.specs.declared.state.Place.TheVariants as place;
ghost use Rattle.rx_ring.specs.Ends.{IsOneRing};
ghost use Rattle.dql_core.specs.Dql.{IsNewLimit};
ghost use Rattle.napi_calls.specs.declared.types.Caller.{Caller};
ghost use Rattle.napi_calls.specs.Instance.{IsSeatOf};
ghost use Rattle.napi_calls.specs.Seats.{PutsIntoRingOf};
ghost use Rattle.napi_word.specs.Passes.{IsPassOf, controller_of_table};
ghost use Rattle.napi_word.specs.declared.table.Pass.{Pass};

use dql_core::{Dql, DqlFault};
use napi_calls::{
    Between, Busy, Caller, CloseBack, Completed, Control, Granted, Marked, Napi, NewBack, Off, On,
    Polling, Sched, TryBusy, TryDone, TryPrep, TryStop, TryTake, close, meet,
};
use napi_model::{Done, Flags, Kind, Place, Prep, Seen, SerialNapi, decode, encode};
use napi_word::{Ended, Pass, StateTable, TableBack, end};
use rx_ring::{Batch, Packet, RingFault, RxCounts, RxCtx, RxIn, Totals, beside, finish, ring};
use std::alloc::Global;
use std::sync::Wait;
use tx_ring::{TxEvent, TxFault, TxRing, TxState};

// ---- napi_model

/// A new instance, what it shows, and a request for a poll.
pub fn requested() -> (Prep, Flags, Place) {
    let mut napi = SerialNapi::new(2);
    napi.set_threaded(true);
    let prep = napi.schedule(0);
    (prep, napi.flags(), napi.place())
}

/// The state word of what an instance shows.
pub fn word(napi: &SerialNapi) -> Option<Option<Kind>> {
    let seen: Seen = napi.look();
    decode(encode(seen)).map(|seen| seen.handed)
}

/// A granted instance is queued on the list.
pub fn hand(napi: &mut SerialNapi, who: u32)
    requires { MayHand who kind.List (state_of napi.old) }
{
    napi.hand(who, Kind::List);
}

/// A poller takes an instance.
pub fn take(napi: &mut SerialNapi, who: u32) -> bool {
    napi.take(who, Kind::Thread)
}

/// A poller completes.
pub fn complete(napi: &mut SerialNapi, who: u32) -> Done
    requires { (state_of napi.old).place ≡ place.Polling who }
{
    napi.complete(who)
}

/// The controller marks a disable.
pub fn mark_disable(napi: &mut SerialNapi, who: u32)
    requires controller { who ≡ serial_controller napi.old }
    requires unmarked { (state_of napi.old).flags.disable ≡ false }
    requires place { ¬ IsControl (state_of napi.old).place }
{
    napi.mark_disable(who);
}

/// The controller tries to take the instance.
pub fn take_disable(napi: &mut SerialNapi, who: u32) -> bool
    requires controller { who ≡ serial_controller napi.old }
    requires marked { (state_of napi.old).flags.disable ≡ true }
{
    napi.take_disable(who)
}

/// The controller clears the mark.
pub fn unmark(napi: &mut SerialNapi, who: u32)
    requires controller { who ≡ serial_controller napi.old }
    requires place { (state_of napi.old).place ≡ place.Control who }
    requires marked { (state_of napi.old).flags.disable ≡ true }
{
    napi.unmark(who);
}

/// The controller enables the instance.
pub fn enable(napi: &mut SerialNapi, who: u32)
    requires controller { who ≡ serial_controller napi.old }
    requires place { (state_of napi.old).place ≡ place.Control who }
    requires unmarked { (state_of napi.old).flags.disable ≡ false }
{
    napi.enable(who, false);
}

// ---- dql_core, rx_ring, tx_ring

/// The calls of a queue limit.
pub fn limit() -> Result<(u32, u32, i64), DqlFault> {
    let mut limit = Dql::new(0, 1879048192, 1000, 0)?;
    limit.queued(1500)?;
    limit.completed(1500, 6)?;
    limit.reset(7);
    Ok((limit.limit(), limit.in_flight(), limit.avail()))
}

/// The calls of a receive ring.
pub fn receive(alloc: Global, batch: &mut Batch) -> Result<(usize, RxCounts), RingFault> {
    let (mut input, mut ctx) = ring(alloc, 4)?;
    let _ = input.put(Packet {
        number: 0,
        bytes: 60,
    });
    let count = ctx.poll(64, batch);
    Ok((count, ctx.counts()))
}

/// The calls of both ends of a ring.
pub fn both_ends(input: RxIn, ctx: RxCtx) -> Totals
    requires { IsOneRing input ctx }
{
    let (mut input, mut ctx) = (input, ctx);
    beside(&mut input, &mut ctx);
    finish(input, ctx)
}

/// The calls of a transmit ring.
pub fn transmit(alloc: Global, limit: Dql) -> Result<(u64, TxState), TxFault>
    requires { IsNewLimit limit }
{
    let mut ring = TxRing::new(alloc, 8, limit)?;
    ring.send(1000)?;
    ring.done(1, 6)?;
    let refused = ring.run(&[TxEvent::Send(60), TxEvent::Finish(1, 7)]);
    Ok((refused, ring.state()))
}

// ---- napi_word, napi_calls

/// A pass looks.
pub fn pass_looks(table: &StateTable, pass: &mut Pass) -> Seen
    requires { IsPassOf table.now pass.old }
{
    table.look(pass)
}

/// A table of one caller and the controller.
pub fn table(alloc: Global, ctx: RxCtx) -> Result<(StateTable, Vec<Pass>), TableBack> {
    StateTable::new(alloc, ctx, 2)
}

/// A table is closed.
pub fn ended(table: StateTable, passes: Vec<Pass>) -> Ended
    requires passes { (k : ℕ) (p : Pass) → slice_get passes.items k ≡ Some p → IsPassOf table p }
    requires count { length passes.items ≡ controller_of_table table + 1 }
{
    end(table, passes)
}

/// A new instance.
pub fn napi(alloc: Global, ctx: RxCtx) -> Result<(Napi, Vec<Caller>, Control<Off>), NewBack> {
    Napi::new(alloc, ctx, 2)
}

/// An instance is closed.
pub fn closed(napi: Napi, callers: Vec<Caller>, control: Control<Off>) -> Result<RxCtx, CloseBack>
    requires callers { (k : ℕ) (c : Caller) → slice_get callers.items k ≡ Some c
        → IsSeatOf napi c.pass }
    requires control { IsSeatOf napi control.pass }
{
    close(napi, callers, control)
}

/// A caller looks, sets THREADED, and tries to request a poll.
pub fn try_schedule(napi: &Napi, caller: Caller) -> (u32, Seen, TryPrep)
    requires { IsSeatOf napi.now caller.pass }
{
    let mut caller = caller;
    let seen = caller.look(napi);
    caller.set_threaded(napi, true);
    (caller.number(), seen, caller.try_schedule(napi))
}

/// A request, in which another caller acts between the look and the exchange.
pub fn schedule_between<B: Between>(napi: &Napi, caller: Caller, other: &mut B) -> TryPrep
    requires { IsSeatOf napi.now caller.pass }
{
    caller.try_schedule_between(napi, other)
}

/// A caller tries to take the instance for busy polling.
pub fn try_busy(napi: &Napi, caller: Caller) -> TryBusy
    requires { IsSeatOf napi.now caller.pass }
{
    caller.try_busy(napi)
}

/// A caller completes a busy poll, and tries to stop.
pub fn try_stop(napi: &Napi, busy: Busy) -> TryStop
    requires { IsSeatOf napi.now busy.pass }
{
    let mut busy = busy;
    busy.complete_held(napi);
    busy.try_stop(napi)
}

/// A caller takes the instance.
pub fn take_listed(napi: &Napi, caller: Caller) -> Result<Polling, Caller>
    requires { IsSeatOf napi.now caller.pass }
{
    caller.take(napi, Kind::List)
}

/// A granted instance is queued.
pub fn hand_granted(napi: &Napi, granted: Granted) -> (u32, Seen, Caller)
    requires { IsSeatOf napi.now granted.pass }
{
    let mut granted = granted;
    let seen = granted.look(napi);
    (granted.number(), seen, granted.hand(napi, Kind::List))
}

/// A poller polls, and tries to complete.
pub fn try_complete(napi: &Napi, polling: Polling, batch: &mut Batch) -> (u32, RxCounts, TryDone)
    requires { IsSeatOf napi.now polling.pass }
{
    let mut polling = polling;
    let _seen: Seen = polling.look(napi);
    let _count: usize = polling.poll(64, batch);
    (
        polling.number(),
        polling.counts(),
        polling.try_complete(napi),
    )
}

/// A poller queues its instance again.
pub fn requeue(napi: &Napi, polling: Polling) -> Caller
    requires { IsSeatOf napi.now polling.pass }
{
    polling.requeue(napi)
}

/// A poller meets the input end of its ring.
pub fn polling_beside(polling: &mut Polling, input: &mut RxIn)
    requires { PutsIntoRingOf input.old polling.old.pass }
{
    polling.beside(input);
}

/// A controller meets the input end of its ring.
pub fn control_beside(control: &mut Control<Off>, input: &mut RxIn) -> RxCounts
    requires { PutsIntoRingOf input.old control.old.pass }
{
    control.beside(input);
    control.counts()
}

/// Two callers meet.
pub fn meets(napi: &Napi, first: &mut Caller, second: &mut Caller)
    requires first { IsSeatOf napi.now first.old.pass }
    requires second { IsSeatOf napi.now second.old.pass }
{
    meet(napi, first, second);
}

/// A controller tries to disable.
pub fn try_disable(napi: &Napi, control: Control<On>) -> TryTake
    requires { IsSeatOf napi.now control.pass }
{
    let marked: Control<Marked> = control.mark(napi);
    marked.try_take(napi)
}

/// A controller tries to enable.
pub fn try_enable(napi: &Napi, control: Control<Off>) -> Result<Control<On>, Control<Off>>
    requires { IsSeatOf napi.now control.pass }
{
    control.try_enable(napi, false)
}

/// A request that retries.
pub fn schedule<R: Wait>(rt: &R, napi: &Napi, caller: Caller) -> Sched
    requires { IsSeatOf napi.now caller.pass }
{
    caller.schedule(rt, napi)
}

/// A completion that retries.
pub fn completes<R: Wait>(rt: &R, napi: &Napi, polling: Polling) -> Completed
    requires { IsSeatOf napi.now polling.pass }
{
    polling.complete(rt, napi)
}

/// A controller disables and enables.
pub fn switch<R: Wait>(rt: &R, napi: &Napi, control: Control<On>) -> Control<On>
    requires { IsSeatOf napi.now control.pass }
{
    control.disable(rt, napi).enable(rt, napi, false)
}
