//! The cycles: each requests a poll, and polls if the instance waits on the list.
ghost use Rattle.std.specs.Prelude.{false};
ghost use Rattle.napi_word.specs.Passes.{IsSlotFilled, PassPolls};
ghost use Rattle.benches.specs.Ready.{IsReady};

use napi_model::{Done, Kind, Prep};
use napi_word::{Pass, StateTable};
use std::sync::atomic::{AtomicBool, Ordering};
use std::thread::{Threads, join};

// The greatest number of schedules that the second thread makes for each cycle of the first.
const SCHEDULES: u64 = 1000;

/// The counts of the cycles. They wrap.
#[derive(Clone, Copy)]
pub struct Tally {
    /// The polls.
    pub polls: u64,
    /// The polls that completed after a missed request, so that another poll follows.
    pub again: u64,
    /// The compare-exchanges of the word that failed, because another step changed it.
    pub lost: u64,
}

// Requests a poll once, and queues the instance if it is granted.
fn schedule(table: &StateTable, pass: &mut Pass, tally: &mut Tally)
    requires { IsReady table.now pass.old }
    ensures { IsReady table.now pass.new }
{
    let Some(seen) = table.schedule_load(pass) else {
        return;
    };
    match table.schedule_swap(pass, seen) {
        Ok(Prep::Granted) => table.hand(pass, Kind::List),
        Ok(Prep::Missed | Prep::Disabled) => {}
        Err(_) => tally.lost = tally.lost.wrapping_add(1),
    }
}

// Ends a poll. At most one compare-exchange can fail: once MISSED is set, a schedule changes nothing more. If two failed, the
// instance would go back on the list.
fn complete(table: &StateTable, pass: &mut Pass, tally: &mut Tally)
    requires ready { IsReady table.now pass.old }
    requires polls { PassPolls false pass.old }
    ensures { IsReady table.now pass.new }
{
    let mut seen = table.look(pass);
    for _ in 0..2 {
        match table.complete_swap(pass, seen) {
            Ok(Done::Released) => return,
            Ok(Done::Held) => unreachable!(),
            Ok(Done::Again) => {
                tally.again = tally.again.wrapping_add(1);
                table.hand(pass, Kind::List);
                return;
            }
            Err(found) => {
                tally.lost = tally.lost.wrapping_add(1);
                seen = found;
            }
        }
    }
    table.hand(pass, Kind::List);
}

// Makes a schedule, and a poll if the instance waits on the list.
fn turn(table: &StateTable, pass: &mut Pass, tally: &mut Tally)
    requires { IsReady table.now pass.old }
    ensures { IsReady table.now pass.new }
{
    schedule(table, pass, tally);
    if table.take(pass, Kind::List) {
        tally.polls = tally.polls.wrapping_add(1);
        let ctx = table.slot_out(pass);
        table.slot_in(pass, ctx);
        complete(table, pass, tally);
    }
}

/// Makes this many cycles.
pub fn make_turns(table: &StateTable, pass: &mut Pass, turns: u64) -> Tally
    requires { IsReady table.now pass.old }
    ensures { IsReady table.now pass.new }
{
    let mut tally = Tally {
        polls: 0,
        again: 0,
        lost: 0,
    };
    for _ in 0..turns {
        turn(table, pass, &mut tally);
    }
    tally
}

// Schedules until `over` is set, but at most `most` times.
fn keep_scheduling(table: &StateTable, pass: &mut Pass, most: u64, over: &AtomicBool)
    requires { IsReady table.now pass.old }
{
    let mut tally = Tally {
        polls: 0,
        again: 0,
        lost: 0,
    };
    for _ in 0..most {
        if over.load(Ordering::SeqCst) {
            return;
        }
        schedule(table, pass, &mut tally);
    }
}

/// Makes this many cycles while a second thread schedules all the time.
pub fn make_turns_beside<R: Threads>(
    rt: &R,
    table: &StateTable,
    poller: &mut Pass,
    scheduler: &mut Pass,
    turns: u64,
) -> Tally
    requires poller { IsReady table.now poller.old }
    requires scheduler { IsReady table.now scheduler.old }
{
    let over = AtomicBool::new(false);
    let most = turns.saturating_mul(SCHEDULES);
    let (_, tally) = join(
        rt,
        ||
            requires { IsReady table.now scheduler.now }
        { keep_scheduling(table, scheduler, most, &over) },
        || -> Tally
            requires { IsReady table.now poller.now }
        {
            let tally = make_turns(table, poller, turns);
            over.store(true, Ordering::SeqCst);
            tally
        },
    );
    tally
}
