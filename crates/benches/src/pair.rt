//! Packets from one thread to another: through an instance that both threads share, with a request for a poll for each packet;
//! and through a bare ring of `rtrb`, from which the second thread reads all the time.

use crate::plain::pass_plainly;
use crate::shared::pass_shared;
use crate::tally::ReceivedCounts;
use anyhow::Result;
use std::io::Eprint;
use std::rt::Clock;
use std::sync::Wait;
use std::thread::Threads;
use std::time::Instant;

/// Times so many packets in both ways.
pub fn time_packets<R: Clock + Print + Eprint + AllocGlobal + Threads + Wait + Copy + Drop + Send>(
    rt: R,
    packets: u64,
) -> Result<()> {
    let start = Instant::now(&rt)?;
    let ReceivedCounts { in_turn, bytes } = pass_shared(rt, rt.alloc(), packets)?;
    let spent = start.elapsed(&rt)?.as_nanos();
    println!(rt; "shared in turn {in_turn} bytes {bytes}")?;
    eprintln!(rt; "shared {spent} ns")?;

    let start = Instant::now(&rt)?;
    let ReceivedCounts { in_turn, bytes } = pass_plainly(rt, rt.alloc(), packets)?;
    let spent = start.elapsed(&rt)?.as_nanos();
    println!(rt; "rtrb in turn {in_turn} bytes {bytes}")?;
    eprintln!(rt; "rtrb {spent} ns")?;
    Ok(())
}
