//! Rings, tables, instances and lists. Each function returns whether an allocation failed once.

ghost use Rattle.std.specs.Prelude.{◌≡◌, ◌+◌, ℕ, Some, length, slice_get};
ghost use Rattle.napi_calls.specs.declared.types.Caller.{Caller};
ghost use Rattle.napi_calls.specs.Instance.{IsSeatOf, callers_of};
ghost use Rattle.napi_word.specs.declared.table.Pass.{Pass};
ghost use Rattle.napi_word.specs.Passes.{IsPassOf, controller_of_table};

use anyhow::{Result, ensure};
use dql_core::Dql;
use napi_calls::{Caller, Control, Napi, NewBack, NewFault, Off, Sched, next_caller};
use napi_model::Kind;
use napi_word::{Ended, Pass, StateTable, TableBack};
use poll_engine::{ListFault, ListIn, PollList, SharedList, SoftList, poll_instance, shared_list};
use rx_ring::{Batch, Packet, RingFault, RxCtx, RxIn, ring};
use std::alloc::Global;
use std::sync::Wait;
use tx_ring::{TxFault, TxRing};

const PACKET: Packet = Packet {
    number: 7,
    bytes: 60,
};

// Returns a ring with a packet in it.
fn filled(alloc: Global) -> Result<(RxIn, RxCtx)> {
    let (_, (mut input, ctx)) = made!(ring(alloc, 4), RingFault::OutOfMemory);
    ensure!(input.put(PACKET).is_ok(), "no place for a packet");
    Ok((input, ctx))
}

pub(crate) fn ring_is_made(alloc: Global) -> Result<bool> {
    let (refused, (mut input, ctx)) = made!(ring(alloc, 4), RingFault::OutOfMemory);
    ensure!(input.put(PACKET).is_ok(), "no place for a packet");
    ensure!(gives_packet(ctx), "another packet");
    Ok(refused)
}

pub(crate) fn transmit_ring_is_made(alloc: Global) -> Result<bool> {
    let (refused, mut ring) = made!(
        TxRing::new(alloc, 4, Dql::new(0, 3000, 1000, 0)?),
        TxFault::OutOfMemory
    );
    ring.send(60)?;
    Ok(refused)
}

// Returns whether a poll of this context returns the packet.
fn gives_packet(mut ctx: RxCtx) -> bool {
    let mut batch = Batch::new();
    ctx.poll(64, &mut batch);
    batch.as_slice() == [PACKET].as_slice()
}

// Closes a table with all its passes, and returns whether that returns its context.
fn ended(table: StateTable, passes: Vec<Pass>) -> bool
    requires passes { (k : ℕ) (p : Pass) → slice_get passes.items k ≡ Some p → IsPassOf table p }
    requires count { length passes.items ≡ controller_of_table table + 1 }
{
    let Ended { ctx } = napi_word::end(table, passes);
    match ctx {
        Some(ctx) => gives_packet(ctx),
        None => false,
    }
}

pub(crate) fn table_is_made(alloc: Global) -> Result<bool> {
    let (_input, ctx) = filled(alloc)?;
    let ctx = match StateTable::new(alloc, ctx, 9) {
        Ok((table, passes)) => {
            ensure!(ended(table, passes), "another context");
            return Ok(false);
        }
        Err(TableBack { ctx }) => ctx,
    };
    match StateTable::new(alloc, ctx, 9) {
        Ok((table, passes)) => ensure!(ended(table, passes), "another context"),
        Err(TableBack { ctx: _ }) => return Err(RingFault::OutOfMemory.into()),
    }
    Ok(true)
}

// Polls the packet of an instance, and closes it.
fn polled(rt: &impl Wait, napi: Napi, mut callers: Vec<Caller>, control: Control<Off>) -> Result<()>
    requires callers { (k : ℕ) (c : Caller) → slice_get callers.items k ≡ Some c
        → IsSeatOf napi c.pass }
    requires control { IsSeatOf napi control.pass }
    requires two { (length callers.items ≡ 2) × (callers_of napi ≡ 2) }
{
    let other = next_caller(&napi, &mut callers);
    let caller = next_caller(&napi, &mut callers);
    let control = control.enable(rt, &napi, false);
    let caller = match caller.schedule(rt, &napi) {
        Sched::Granted(granted) => granted.hand(&napi, Kind::List),
        Sched::Missed(caller) | Sched::Disabled(caller) => caller,
    };
    let mut batch = Batch::new();
    let (caller, once) = poll_instance(rt, &napi, caller, 64, false, &mut batch);
    let control = control.disable(rt, &napi);
    callers.push_reserved(caller);
    callers.push_reserved(other);
    let closed = napi_calls::close(napi, callers, control);
    let Ok(_ctx) = closed else { unreachable!() };
    ensure!(
        once.work == 1 && batch.as_slice() == [PACKET].as_slice(),
        "another packet"
    );
    Ok(())
}

pub(crate) fn instance_is_made(rt: &impl Wait, alloc: Global) -> Result<bool> {
    let (_input, ctx) = filled(alloc)?;
    let ctx = match Napi::new(alloc, ctx, 2) {
        Ok((napi, callers, control)) => {
            polled(rt, napi, callers, control)?;
            return Ok(false);
        }
        Err(NewBack { fault, ctx }) => {
            ensure!(
                fault == NewFault::OutOfMemory,
                "another fault of an instance"
            );
            ctx
        }
    };
    match Napi::new(alloc, ctx, 2) {
        Ok((napi, callers, control)) => polled(rt, napi, callers, control)?,
        Err(NewBack { fault, ctx: _ }) => return Err(fault.into()),
    }
    Ok(true)
}

// Returns whether each end's push arrives at the list.
fn gives_pushes<R: Wait + Drop>(mut list: SharedList<R>, mut ins: Vec<ListIn<R>>) -> bool {
    for k in 0..ins.len() {
        ins[k].push(5);
    }
    let mut soft = SoftList::new();
    list.splice(&mut soft);
    soft.ids() == [5, 5, 5].as_slice()
}

pub(crate) fn list_is_made<R: Wait + Copy + Drop>(rt: R, alloc: Global) -> Result<bool> {
    let (refused, (list, ins)) = made!(shared_list(rt, alloc, 3), ListFault::OutOfMemory);
    ensure!(gives_pushes(list, ins), "other numbers");
    Ok(refused)
}
