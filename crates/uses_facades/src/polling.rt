//! A program that uses only `poll_engine`: a bench of its own that declares its polls, and a run over it with the contract of
//! `run_softirq`.

ghost use Rattle.std.specs.Prelude.{◌≤◌, List};
ghost use Rattle.poll_engine.specs.Plain.{NothingBehind, OwnPushes, all_held};
ghost use Rattle.poll_engine.specs.Polls.{At, Chain, Poll};
ghost use Rattle.poll_engine.specs.Run.{IsRun};
ghost use Rattle.uses_facades.specs.Polled.{PolledCardPolls};

use poll_engine::{Bench, BusyReport, Next, Once, PlainList, RunReport, ThreadReport, run_softirq};

/// A card with this many packets.
#[derive(Drop)]
pub struct PolledCard {
    /// The packets that wait to be polled.
    pub packets: u32,
}

impl Bench for PolledCard {
    ghost polls = { PolledCardPolls };

    fn poll_once(&mut self, _id: u32, weight: u32) -> Once {
        let work = self.packets.min(weight);
        self.packets -= work;
        let next = if work == weight {
            Next::Repoll
        } else {
            Next::Gone
        };
        Once { work, next }
    }

    fn poll_thread(&mut self, _id: u32, _weight: u32, _most: u32) -> ThreadReport {
        ThreadReport::NONE
    }

    fn busy_poll(&mut self, _id: u32, _weight: u32, _rounds: u32) -> BusyReport {
        BusyReport::NONE
    }
}

/// A run over the card with the kernel's budget and weight.
pub fn softirq(list: &mut PlainList, card: &mut PolledCard) -> RunReport
    ensures run { (polls : List Poll)
        × Chain (At PolledCardPolls 64) card.old polls card.new
        × IsRun all_held OwnPushes NothingBehind 300 1024 list.old polls list.new result }
    ensures polls { result.polls ≤ 1024 }
{
    run_softirq(list, card, 300, 64, 1024)
}
