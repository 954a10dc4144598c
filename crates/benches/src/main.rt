//! Times the parts of the library that the arguments name, in their order. Each part is a name and its numbers:
//!
//! - `pairs PAIRS`: `queued` and `completed` on a `Dql`. `bench/limits.sh` compares them with the same rules as a plain
//!   function, `bench/kernel_limits.sh` with Linux's own.
//! - `polls ROUNDS`: polls of a receive ring of 4096 packets, compared with the `pop` of `rtrb` (`bench/receive.sh`).
//! - `cycles CYCLES`: cycles of an instance that threads share, by the steps on the state word and by the typed calls.
//!   `bench/word.sh` compares them with plain C++.
//! - `packets PACKETS`: packets from one thread to another. `bench/pair.sh` compares them with a queue with a mutex in C++.
//! - `runs ROUNDS`: runs of the softirq. `bench/softirq.sh` compares them with plain C++.
//! - `threads DEVICES POLLERS PACKETS MILLISECONDS`: packets through 1 to 16 devices whose interrupts, pollers (1 to 8) and
//!   threads run concurrently. None may be lost or doubled. The gate delays the first device by the milliseconds before its
//!   first act. `bench/workers.sh` runs that.
//!
//! Counts that are the same in each run go to standard output, times and other counts to standard error.
#![tactic(auto)]

mod cards;
mod count;
mod cycles;
mod gate;
mod limits;
mod load;
mod opened;
mod pair;
mod plain;
mod receive;
mod shared;
mod softirq;
mod tally;
mod threads;
mod turns;
mod typed;

use anyhow::{Result, ensure};
use cycles::{time_calls, time_steps};
use limits::time_pairs;
use load::{Load, number};
use pair::time_packets;
use receive::time_rounds;
use softirq::time_softirq;
use std::alloc::Global;
use std::env;
use std::env::Args;
use std::io::Eprint;
use std::rt::Clock;
use std::sync::Wait;
use std::thread::Threads;
use threads::run_threads;

// The most parts of a run.
const MOST_PARTS: u32 = 8;

// Times the part with this name, whose numbers are the next arguments.
fn time_part<R: Clock + Print + Eprint + AllocGlobal + Threads + Wait + Sync + Copy + Drop + Send>(
    rt: R,
    part: &str,
    words: &mut Args<Global>,
) -> Result<()> {
    if part == "threads" {
        return run_threads(rt, &Load::of_words(words)?);
    }
    let count = number(words, "how often")?;
    if part == "pairs" {
        return time_pairs(&rt, u64::from(count));
    }
    if part == "polls" {
        return time_rounds(&rt, count);
    }
    if part == "packets" {
        return time_packets(rt, u64::from(count));
    }
    if part == "runs" {
        return time_softirq(&rt, count);
    }
    ensure!(part == "cycles", "there is no such part");
    time_steps(&rt, u64::from(count))?;
    time_calls(&rt, u64::from(count))
}

fn main(rt: HostRuntime) -> Result<()> {
    let mut words = env::args(&rt)?;
    words.next();
    for _ in 0..MOST_PARTS {
        let Some(part) = words.next() else {
            return Ok(());
        };
        time_part(rt, part.as_str(), &mut words)?;
    }
    Ok(())
}
