//! A network card in a simulation: packets arrive in bursts, runs of the softirq poll them, and packets are sent under a queue
//! limit. `card.rt` is the card; it is polled once by a bench that declares nothing about its polls (`quiet.rt`), and once by
//! one that states them as equations (`stated.rt`). Both print the same.
#![tactic(auto)]

mod card;
mod quiet;
mod stated;

use crate::card::{CARD, Card, CardDriver};
use crate::quiet::QuietBench;
use crate::stated::StatedBench;
use anyhow::Result;
use poll_engine::{PlainList, PollList, run_softirq};

/// The settings of a run (`net.core.netdev_budget`, `NAPI_POLL_WEIGHT`, and a number of polls in place of the kernel's time
/// limit, `net.core.netdev_budget_usecs`).
const BUDGET: u32 = 128;

const WEIGHT: u32 = 64;

const WINDOW: u32 = 1024;

// A burst of packets arrives, and the card's number is pushed to the list if its interrupt says so. There is room: the number
// is in the list at most once.
fn burst(card: &mut Card, list: &mut PlainList, packets: u32) {
    for packet in 0..packets {
        if card.receive(60 + packet % 1440) && list.ids().len() < 64 {
            list.push(CARD);
        }
    }
}

// Runs the softirq until the list is empty, at most four times. Returns how many polls it made and how many packets these
// processed.
fn softirq<D: CardDriver>(driver: &mut D, list: &mut PlainList) -> (u32, u32) {
    let mut polls = 0u32;
    let mut work = 0u32;
    for _ in 0..4 {
        let run = run_softirq(list, driver, BUDGET, WEIGHT, WINDOW);
        polls = polls.saturating_add(run.polls);
        work = work.saturating_add(run.work);
        if list.ids().is_empty() {
            break;
        }
    }
    (polls, work)
}

// Ten rounds: a burst arrives, packets are sent, the softirq runs, and what was sent completes.
fn simulate<D: CardDriver>(rt: &HostRuntime, driver: &mut D) -> Result<()> {
    let mut list = PlainList::new();
    for moment in 0u64..10 {
        burst(driver.card(), &mut list, 30 * moment as u32);
        let sent = driver.card().send_all(16, 1500);
        let (polls, work) = softirq(driver, &mut list);
        driver.card().complete(sent, moment);
        let limit = driver.card().transmit_side().limit;
        println!(rt; "{moment}: polls {polls} work {work}, sent {sent} limit {limit}")?;
    }
    Ok(())
}

fn main(rt: HostRuntime) -> Result<()> {
    println!(rt; "a bench that states nothing")?;
    let card = Card::new(rt.alloc(), 256)?;
    simulate(&rt, &mut QuietBench { card })?;
    println!(rt; "a bench that states its polls")?;
    let card = Card::new(rt.alloc(), 256)?;
    simulate(&rt, &mut StatedBench { card })
}
