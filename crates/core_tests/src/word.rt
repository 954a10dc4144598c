//! Tests of the tables of state words: there is one for every number of passes; and two examples worked out by hand, in one
//! thread and in two.

ghost use Rattle.std.specs.Prelude.{◌≡◌, ◌++◌, ◌∷◌, [], IfSome};
ghost use Rattle.rx_ring.specs.declared.ends.RxCtx.{RxCtx};
ghost use Rattle.napi_model.specs.Step.{event};
ghost use Rattle.napi_model.specs.declared.event.Operation.TheVariants.{Look, Schedule};
ghost use Rattle.napi_model.specs.declared.event.Prep.TheVariants as prep;
ghost use Rattle.napi_word.specs.Knowledge.{mine, view_number};
ghost use Rattle.napi_word.specs.Passes.{IsNewPass, IsPassOf, SameTable, controller_of_table, view_of};

use napi_model::{Prep, Seen, decode, encode};
use napi_word::{Ended, Pass, StateTable};
use rx_ring::{RxCtx, ring};
use std::alloc::Global;
use std::test::Fail;
use std::thread::join;

// the program `memory_tests` tests failing allocations
#[test]
fn there_is_memory_for_every_number_of_passes(rt: HostRuntime) -> Result<(), Fail> {
    for seats in 1..=9u32 {
        let (_input, ctx) = ring(rt.alloc(), 4)?;
        let made = StateTable::new(rt.alloc(), ctx, seats);
        let Ok((_table, passes)) = made else {
            panic!(rt; "no memory for {seats} passes")
        };
        assert_eq!(rt; passes.len(), seats as usize);
    }
    Ok(())
}

// A table with two callers, 0 and 1, and the controller 2.
#[derive(Drop)]
struct TwoCallers {
    table: StateTable,
    first: Pass,
    second: Pass,
    control: Pass,
}

fn table_of_two(alloc: Global, ctx: RxCtx) -> Option<TwoCallers>
    ensures first { IfSome result (λ o. IsNewPass o.table 2 ctx 0 o.first) }
    ensures second { IfSome result (λ o. IsNewPass o.table 2 ctx 1 o.second) }
    ensures control { IfSome result (λ o. IsNewPass o.table 2 ctx 2 o.control) }
    ensures controller { IfSome result (λ o. controller_of_table o.table ≡ 2) }
{
    let Ok((table, mut room)) = StateTable::new(alloc, ctx, 3) else {
        return None;
    };
    let last = room.pop();
    let Some(control) = last else { unreachable!() };
    let last = room.pop();
    let Some(second) = last else { unreachable!() };
    let last = room.pop();
    let Some(first) = last else { unreachable!() };
    Some(TwoCallers {
        table,
        first,
        second,
        control,
    })
}

// Enables the instance, whose state word can only have been 9.
fn enable(table: &StateTable, control: &mut Pass) -> bool
    requires table { IsPassOf table.now control.old }
    requires new { (ctx : RxCtx) × IsNewPass table.now 2 ctx 2 control.old }
    ensures table { SameTable control.old control.new }
{
    let Some(nine) = decode(9) else {
        return false;
    };
    table.enable_swap(control, nine, false).is_ok()
}

// Closes the table with its three passes, and returns whether that returns its context.
fn is_closed(table: StateTable, first: Pass, second: Pass, control: Pass) -> bool
    requires first { IsPassOf table first }
    requires second { IsPassOf table second }
    requires control { IsPassOf table control }
{
    let mut all = table.gather(control);
    table.join(&mut all, second);
    table.join(&mut all, first);
    let Ended { ctx } = table.finish(all);
    ctx.is_some()
}

// Caller 0 reads the word and is granted the schedule. Caller 1 expects a word without flags, and finds another one; then its
// request is missed. Returns both words. The callers' own lists grow by these four events.
fn swaps(table: &StateTable, first: &mut Pass, second: &mut Pass) -> Option<(Seen, Seen)>
    requires { IsPassOf table.now first.old × IsPassOf table.now second.old }
    ensures table { SameTable first.old first.new × SameTable second.old second.new }
    ensures first { IfSome result
        (λ r. mine (view_of first.new) ≡ mine (view_of first.old)
        ++ event (view_number (view_of first.old)) (Look r.0)
        ∷ event (view_number (view_of first.old)) (Schedule prep.Granted) ∷ []) }
    ensures second { IfSome result
        (λ r. mine (view_of second.new) ≡ mine (view_of second.old)
        ++ event (view_number (view_of second.old)) (Look r.1)
        ∷ event (view_number (view_of second.old)) (Schedule prep.Missed) ∷ []) }
{
    let idle = table.look(first);
    if idle.flags.disable {
        return None;
    }
    let Ok(Prep::Granted) = table.schedule_swap(first, idle) else {
        return None;
    };
    let Err(found) = table.schedule_swap(second, idle) else {
        return None;
    };
    if found.flags.disable {
        return None;
    }
    let Ok(Prep::Missed) = table.schedule_swap(second, found) else {
        return None;
    };
    Some((idle, found))
}

#[test]
fn two_passes(rt: HostRuntime) -> Result<(), Fail> {
    let (_input, ctx) = ring(rt.alloc(), 4)?;
    let Some(made) = table_of_two(rt.alloc(), ctx) else {
        panic!(rt; "no memory")
    };
    let TwoCallers {
        table,
        mut first,
        mut second,
        mut control,
    } = made;
    assert!(rt; enable(&table, &mut control));
    let Some((idle, found)) = swaps(&table, &mut first, &mut second) else {
        panic!(rt; "other replies")
    };
    assert_eq!(rt; (encode(idle), encode(found)), (0, 1));
    assert_eq!(rt; encode(table.look(&mut control)), 3);
    assert!(rt; is_closed(table, first, second, control));
    Ok(())
}

// Makes 1000 schedules, each a load and a compare-exchange. Returns how many were granted.
fn schedule_often(table: &StateTable, pass: Pass) -> (Pass, u64)
    requires { IsPassOf table.now pass }
    ensures { IsPassOf table.now result.0 }
{
    let mut pass = pass;
    let mut granted = 0u64;
    for _ in 0..1000 {
        if let Some(seen) = table.schedule_load(&mut pass) {
            let reply = table.schedule_swap(&mut pass, seen);
            granted = granted.saturating_add(u64::from(reply == Ok(Prep::Granted)));
        }
    }
    (pass, granted)
}

// two threads make 1000 swaps each: exactly one in all is granted
#[test]
fn a_thousand_swaps_of_two_threads(rt: HostRuntime) -> Result<(), Fail> {
    let (_input, ctx) = ring(rt.alloc(), 4)?;
    let Some(made) = table_of_two(rt.alloc(), ctx) else {
        panic!(rt; "no memory")
    };
    let TwoCallers {
        table,
        first,
        second,
        mut control,
    } = made;
    assert!(rt; enable(&table, &mut control));
    let (first, second) = join(
        &rt,
        || -> (Pass, u64)
            requires { IsPassOf table first }
            ensures { IsPassOf table result.0 }
        { schedule_often(&table, first) },
        || -> (Pass, u64)
            requires { IsPassOf table second }
            ensures { IsPassOf table result.0 }
        { schedule_often(&table, second) },
    );
    assert_eq!(rt; first.1.checked_add(second.1), Some(1));
    assert_eq!(rt; encode(table.look(&mut control)), 3);
    assert!(rt; is_closed(table, first.0, second.0, control));
    Ok(())
}
