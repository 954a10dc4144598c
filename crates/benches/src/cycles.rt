//! Cycles of an instance: schedule, queue on the list, take, move the context out of its slot and back, complete.

use crate::opened::OpenedWord;
use crate::turns::{Tally, make_turns, make_turns_beside};
use crate::typed::{Round, make_typed_turns};
use anyhow::{Context, Result};
use rx_ring::ring;
use std::io::Eprint;
use std::rt::Clock;
use std::sync::Wait;
use std::thread::Threads;
use std::time::Instant;

/// Times so many cycles by the steps on the state word: by one thread, and while a second one schedules all the time.
pub fn time_steps(
    rt: &(impl Clock + Print + Eprint + Threads + AllocGlobal),
    turns: u64,
) -> Result<()> {
    let (_input, ctx) = ring(rt.alloc(), 4)?;
    let mut opened = OpenedWord::enabled(rt.alloc(), ctx).context("no memory")?;

    let start = Instant::now(rt)?;
    let Tally { polls, again, lost } = make_turns(&opened.table, &mut opened.poller, turns);
    let spent = start.elapsed(rt)?.as_nanos();
    println!(rt; "one thread: turns {turns} polls {polls} again {again} lost {lost}")?;
    eprintln!(rt; "one {spent} ns")?;

    let start = Instant::now(rt)?;
    let Tally { polls, again, lost } = make_turns_beside(
        rt,
        &opened.table,
        &mut opened.poller,
        &mut opened.scheduler,
        turns,
    );
    let spent = start.elapsed(rt)?.as_nanos();
    println!(rt; "two threads: turns {turns}")?;
    eprintln!(rt; "two {spent} ns polls {polls} again {again} lost {lost}")?;
    Ok(())
}

/// Times so many cycles by the typed calls, which are based on these steps, and so many cycles of busy polling.
pub fn time_calls(
    rt: &(impl Clock + Print + Eprint + Wait + AllocGlobal),
    turns: u64,
) -> Result<()> {
    for (name, short, round) in [
        ("typed calls", "typed", Round::Listed),
        ("busy polling", "busy", Round::Busy),
    ] {
        let (_input, ctx) = ring(rt.alloc(), 4)?;
        let start = Instant::now(rt)?;
        let Tally { polls, again, lost } = make_typed_turns(rt, rt.alloc(), ctx, round, turns)?;
        let spent = start.elapsed(rt)?.as_nanos();
        println!(rt; "{name}: turns {turns} polls {polls} again {again} lost {lost}")?;
        eprintln!(rt; "{short} {spent} ns")?;
    }
    Ok(())
}
