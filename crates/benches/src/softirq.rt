//! Runs of the softirq: interrupts fill the rings of 16 devices, and then runs empty them while the clock runs.

use crate::cards::{Cards, DEVICES};
use anyhow::Result;
use poll_engine::{PlainList, PollList, run_softirq};
use rx_ring::Packet;
use std::alloc::Global;
use std::io::Eprint;
use std::time::{Clock, Instant};

// The kernel's defaults (`net.core.netdev_budget`, `NAPI_POLL_WEIGHT`), and a number of polls in place of its time
// limit, `net.core.netdev_budget_usecs`.
const BUDGET: u32 = 300;

const WEIGHT: u32 = 64;

const WINDOW: u32 = 1024;

// More runs than a round ever needs: each run but the last uses up its budget.
const MOST_RUNS: u32 = 64;

// The time and the counts of the runs. The counts wrap.
#[derive(Clone, Copy)]
struct SoftirqTimes {
    // The time in nanoseconds.
    nanos: u128,
    // The runs.
    runs: u64,
    // The polls of these runs.
    polls: u64,
    // The packets that these polls processed.
    work: u64,
    // The runs that were squeezed.
    squeezed: u64,
}

impl SoftirqTimes {
    fn new() -> SoftirqTimes {
        SoftirqTimes {
            nanos: 0,
            runs: 0,
            polls: 0,
            work: 0,
            squeezed: 0,
        }
    }
}

// Delivers this many packets to each device, one device after the other.
fn fill(cards: &mut Cards, list: &mut PlainList, packets: u32) {
    for id in 0..DEVICES {
        for number in 0..packets {
            let packet = Packet {
                number: u64::from(number),
                bytes: 60,
            };
            if cards.receive(id, packet) && list.ids().len() < 64 {
                list.push(id);
            }
        }
    }
}

// Makes runs until the list is empty.
fn empty(cards: &mut Cards, list: &mut PlainList, spent: &mut SoftirqTimes) {
    for _ in 0..MOST_RUNS {
        if list.ids().is_empty() {
            return;
        }
        let run = run_softirq(list, cards, BUDGET, WEIGHT, WINDOW);
        spent.runs = spent.runs.wrapping_add(1);
        spent.polls = spent.polls.wrapping_add(u64::from(run.polls));
        spent.work = spent.work.wrapping_add(u64::from(run.work));
        spent.squeezed = spent.squeezed.wrapping_add(u64::from(run.squeezed));
    }
}

// Fills the rings and empties them again, this many times.
fn time_runs(rt: &impl Clock, alloc: Global, rounds: u32, packets: u32) -> Result<SoftirqTimes> {
    let mut cards = Cards::new(alloc)?;
    let mut list = PlainList::new();
    let mut spent = SoftirqTimes::new();
    for _ in 0..rounds {
        fill(&mut cards, &mut list, packets);
        let start = Instant::now(rt)?;
        empty(&mut cards, &mut list, &mut spent);
        spent.nanos = spent.nanos.wrapping_add(start.elapsed(rt)?.as_nanos());
    }
    Ok(spent)
}

/// Times so many rounds for each number of packets.
pub fn time_softirq(rt: &(impl Clock + Print + Eprint + AllocGlobal), rounds: u32) -> Result<()> {
    for packets in [1u32, 8, 64, 256] {
        let SoftirqTimes {
            nanos,
            runs,
            polls,
            work,
            squeezed,
        } = time_runs(rt, rt.alloc(), rounds, packets)?;
        println!(rt; "each-{packets} runs {runs} polls {polls} work {work} squeezed {squeezed}")?;
        eprintln!(rt; "each-{packets} {nanos} ns")?;
    }
    Ok(())
}
