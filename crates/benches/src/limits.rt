//! Pairs of `queued` and `completed` on a `Dql`: phases in which the queue starves, and phases in which it holds more than it
//! needs.

use anyhow::Result;
use dql_core::{Dql, DqlFault, MAX_LIMIT};
use std::io::Eprint;
use std::rt::Clock;
use std::time::Instant;

// The number of pairs in a phase.
const PHASE: u64 = 64;

// How long slack has to last before the limit shrinks, in milliseconds; each pair takes one millisecond.
const HOLD: u64 = 4;

// The counts of the pairs. The sums wrap.
#[derive(Clone, Copy)]
struct LimitCounts {
    // The sum of the limits after each pair.
    limits: u64,
    // How many objects were queued over the limit.
    over: u64,
    // All bytes queued, modulo 2^32.
    queued: u32,
    // The limit at the end.
    limit: u32,
}

// Queues an object and completes bytes, this many times. In a phase that starves the queue, objects grow, and everything in
// flight completes. In a phase with slack, objects are small, and a quarter of what is in flight completes. One pair in nine
// raises the limit, and one in 64 lowers it. Within `main` the loop takes six instructions more for a pair.
#[inline(never)]
fn run_pairs(pairs: u64) -> Result<LimitCounts, DqlFault> {
    let mut dql = Dql::new(0, MAX_LIMIT, HOLD, 0)?;
    let mut limits = 0u64;
    let mut over = 0u64;
    for pair in 0..pairs {
        let starves = pair / PHASE % 2 == 0;
        dql.queued(if starves {
            1500 << (pair % PHASE / 4)
        } else {
            1500
        })?;
        over = over.wrapping_add(u64::from(dql.avail() < 0));
        let in_flight = dql.in_flight();
        dql.completed(if starves { in_flight } else { in_flight / 4 }, pair)?;
        limits = limits.wrapping_add(u64::from(dql.limit()));
    }
    Ok(LimitCounts {
        limits,
        over,
        queued: dql.total_queued(),
        limit: dql.limit(),
    })
}

/// Times so many pairs.
pub fn time_pairs(rt: &(impl Clock + Print + Eprint), pairs: u64) -> Result<()> {
    let start = Instant::now(rt)?;
    let LimitCounts {
        limits,
        over,
        queued,
        limit,
    } = run_pairs(pairs)?;
    let spent = start.elapsed(rt)?.as_nanos();
    println!(rt; "pairs {pairs} limits {limits} over {over} queued {queued} limit {limit}")?;
    eprintln!(rt; "{spent} ns")?;
    Ok(())
}
