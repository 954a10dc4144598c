//! A run with threads, and its counts.

use crate::count::Count;
use crate::gate::HoldsFirst;
use crate::load::Load;
use anyhow::{Result, ensure};
use poll_engine::{have_distinct_numbers, run_workers};
use std::io::Eprint;
use std::rt::Clock;
use std::sync::Wait;
use std::thread::Threads;
use std::time::Instant;

const BUDGET: u32 = 300;

const WEIGHT: u32 = 64;

const WINDOW: u32 = 1024;

/// Runs this load, and prints its counts and its time.
pub fn run_threads<
    R: Clock + Print + Eprint + AllocGlobal + Threads + Wait + Sync + Copy + Drop + Send,
>(rt: R, load: &Load) -> Result<()> {
    let stations = load.stations(rt.alloc())?;
    ensure!(
        have_distinct_numbers(&stations),
        "two devices have one number"
    );
    let gate = HoldsFirst::new(rt, load.hold);
    let start = Instant::now(&rt)?;
    let finished = run_workers(
        &rt,
        rt.alloc(),
        stations,
        load.pollers,
        BUDGET,
        WEIGHT,
        WINDOW,
        &gate,
    )?;
    let spent = start.elapsed(&rt)?.as_nanos();
    let mut count = Count::default();
    for one in finished {
        count.add(load.share(one.number), one.totals);
    }
    let Count {
        packets,
        lost,
        doubled,
        left,
    } = count;
    println!(rt; "packets {packets} lost {lost} doubled {doubled}")?;
    eprintln!(rt; "{spent} ns, {left} left in their rings")?;
    ensure!(packets == load.packets, "other packets were put than came");
    ensure!(lost == 0 && doubled == 0, "packets were lost or doubled");
    Ok(())
}
