//! `mode_tests ROWS RANDOM` compares what shared mode writes and returns with serial mode: for all traces of up to ROWS rows (at
//! most 5) after the first ones, and for RANDOM random traces. No clause says that they are the same. Then it looks for mistakes
//! that are planted in a receive side, and each has to change some report.
//!
//! The exit status is 1 if a trace differs, which is printed, or if a mistake isn't found. `tests/modes.sh` runs this.
#![tactic(auto)]

mod mistaken;
mod traces;

use anyhow::{Context, Result, ensure};
use device_model::ReplayBench;
use mistaken::{MISTAKES, Mistake, Mistaken};
use replay::{Replay, Settings, replay_serial, replay_shared};
use std::alloc::{AllocError, Global};
use std::env;
use std::sync::Wait;
use traces::{random_trace, small_trace};

// Budget, weight and window of the replays, in turn.
const LIMITS: [(u32, u32, u32); 3] = [(300, 64, 1024), (1, 1, 1024), (64, 2, 3)];

// Returns the settings of the replay with this number.
fn settings_of(number: u32) -> Settings {
    let (budget, weight, window) = LIMITS[(number % 3) as usize];
    match Settings::new(1, budget, weight, window) {
        Some(settings) => settings,
        None => Settings::default(),
    }
}

// Compares what both modes write for a trace, and what they return. Returns whether the trace has a report.
fn compare(
    rt: impl Wait + Copy + Drop,
    alloc: Global,
    trace: &str,
    settings: &Settings,
) -> Result<bool> {
    let mut serial = Vec::new(alloc);
    let mut shared = Vec::new(alloc);
    let by_serial = replay_serial(alloc, trace.as_bytes(), &mut serial, settings);
    let by_shared = replay_shared(rt, alloc, trace.as_bytes(), &mut shared, settings);
    ensure!(
        by_serial == by_shared && serial.as_slice() == shared.as_slice(),
        "this trace differs with {settings:?}\n{trace}"
    );
    Ok(by_serial.is_ok())
}

// Returns whether a device with this mistake writes something else for a trace, or returns something else.
fn differs<R: Wait + Copy + Drop>(
    rt: R,
    alloc: Global,
    mistake: Mistake,
    trace: &str,
    settings: &Settings,
) -> Result<bool, AllocError> {
    let mut serial = Vec::new(alloc);
    let mut mistaken = Vec::new(alloc);
    let by_serial = replay_serial(alloc, trace.as_bytes(), &mut serial, settings);
    let bench = ReplayBench::<Mistaken<R>>::new((rt, mistake), alloc)?;
    let mut replay = Replay::new(bench, Vec::new(alloc));
    let by_mistaken = replay.write_report(alloc, trace.as_bytes(), &mut mistaken, settings);
    let _ends = replay.into_bench().end();
    Ok(by_serial != by_mistaken || serial.as_slice() != mistaken.as_slice())
}

// Returns whether this trace shows a mistake with some settings.
fn shows(
    rt: impl Wait + Copy + Drop,
    alloc: Global,
    mistake: Mistake,
    trace: &str,
) -> Result<bool, AllocError> {
    for number in 0..3 {
        if differs(rt, alloc, mistake, trace, &settings_of(number))? {
            return Ok(true);
        }
    }
    Ok(false)
}

// Compares all traces of so many rows after the first ones. Returns how many these are.
fn compare_small(rt: impl Wait + Copy + Drop, alloc: Global, rows: u32) -> Result<u32> {
    let many = 10u32.saturating_pow(rows);
    for number in 0..many {
        let trace = small_trace(alloc, number, rows)?;
        compare(rt, alloc, trace.as_str(), &settings_of(number))?;
    }
    Ok(many)
}

// Compares so many random traces, at least half of which have a report.
fn compare_random(rt: impl Wait + Copy + Drop, alloc: Global, many: u32) -> Result<()> {
    let mut reports = 0u32;
    for number in 0..many {
        let trace = random_trace(alloc, number)?;
        let has_report = compare(rt, alloc, trace.as_str(), &settings_of(number))?;
        reports = reports.saturating_add(u32::from(has_report));
    }
    ensure!(
        reports >= many / 2,
        "only {reports} random traces have a report"
    );
    Ok(())
}

// Returns whether a small trace shows this mistake.
fn is_found(
    rt: impl Wait + Copy + Drop,
    alloc: Global,
    mistake: Mistake,
) -> Result<bool, AllocError> {
    for number in 0..1000 {
        let trace = small_trace(alloc, number, 3)?;
        if shows(rt, alloc, mistake, trace.as_str())? {
            return Ok(true);
        }
    }
    Ok(false)
}

// Looks for each mistake.
fn find_all(rt: &(impl Wait + Print + AllocGlobal)) -> Result<()> {
    for (mistake, name) in MISTAKES {
        ensure!(is_found(rt, rt.alloc(), mistake)?, "no trace shows: {name}");
        println!(rt; "found: {name}")?;
    }
    Ok(())
}

fn main(rt: HostRuntime) -> Result<()> {
    let mut words = env::args(&rt)?;
    let word = words.nth(1).context("a number of rows is wanted")?;
    let most: u32 = word.as_str().parse().context("the number of rows")?;
    ensure!(most <= 5, "at most 5 rows");
    let word = words.next().context("a number of random traces is wanted")?;
    let random: u32 = word.as_str().parse().context("the number of traces")?;
    for rows in 0..most + 1 {
        let many = compare_small(&rt, rt.alloc(), rows)?;
        println!(rt; "{many} traces of {rows} rows are the same")?;
    }
    compare_random(&rt, rt.alloc(), random)?;
    println!(rt; "{random} random traces are the same")?;
    find_all(&rt)
}
