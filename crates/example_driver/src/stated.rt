//! A bench that declares its polls as equations: the outcome of a poll and the card after it are functions of the card and the
//! weight (`specs/Polled.antt`). So the prover rejects a poll that returns `Gone` without completing.

ghost use Rattle.std.specs.Prelude.{◌≡◌, ◌≤◌, ◌==◌, length};
ghost use Rattle.napi_model.specs.Serial.{state_of};
ghost use Rattle.napi_model.specs.declared.state.Place.TheVariants.{Polling};
ghost use Rattle.example_driver.specs.Polled.{CardPolls, card_ended, card_given, card_polled, received, card_view};
ghost use Rattle.example_driver.specs.declared.card.TheConstants.{POLLER};
ghost use Rattle.poll_engine.specs.Ranges.{IsWeight};

use crate::card::{CARD, Card, CardDriver, POLLER};
use napi_model::{Done, Kind};
use poll_engine::{Bench, BusyReport, Next, Once, ThreadReport};
use rx_ring::beside;

/// A bench of one card.
#[derive(Drop)]
pub(crate) struct StatedBench {
    pub(crate) card: Card,
}

impl Card {
    // Takes the next packets. `beside` lets the ends of the ring meet, so the poll finds everything that the ring holds, up to
    // the weight.
    fn poll_ring(&mut self, weight: u32) -> u32
        requires { IsWeight weight }
        ensures card { card_view self.new ≡ received weight (card_view self.old) }
        ensures work { result ≡ length (card_given weight (card_view self.old)) }
    {
        beside(&mut self.input, &mut self.ctx);
        self.ctx.poll(weight as usize, &mut self.batch) as u32
    }

    // Ends a poll; `is_whole` says whether it used its whole weight.
    fn end_poll(&mut self, is_whole: bool) -> Next
        requires { (state_of self.old.napi).place ≡ Polling POLLER }
        ensures next { result ≡ (card_ended is_whole (card_view self.old)).0 }
        ensures card { card_view self.new ≡ (card_ended is_whole (card_view self.old)).1 }
    {
        if is_whole {
            self.napi.hand(POLLER, Kind::List);
            return Next::Repoll;
        }
        match self.napi.complete(POLLER) {
            Done::Released => Next::Gone,
            Done::Held => unreachable!(),
            Done::Again => {
                self.napi.hand(POLLER, Kind::List);
                Next::Again(Kind::List)
            }
        }
    }

    // Takes the card from the list and polls it once.
    #[tactic(auto, unfolding(crate::specs::Polled::card_polled))]
    fn poll(&mut self, weight: u32) -> Once
        requires { IsWeight weight }
        ensures once { result ≡ (card_polled weight (card_view self.old)).0 }
        ensures card { card_view self.new ≡ (card_polled weight (card_view self.old)).1 }
        ensures bound { result.work ≤ weight }
    {
        if !self.napi.take(POLLER, Kind::List) {
            return Once {
                work: 0,
                next: Next::Absent,
            };
        }
        let work = self.poll_ring(weight);
        let next = self.end_poll(work == weight);
        Once { work, next }
    }
}

impl CardDriver for StatedBench {
    fn card(&mut self) -> &mut Card {
        &mut self.card
    }
}

impl Bench for StatedBench {
    ghost polls = { CardPolls };

    fn poll_once(&mut self, id: u32, weight: u32) -> Once {
        if id == CARD {
            return self.card.poll(weight);
        }
        Once {
            work: 0,
            next: Next::Absent,
        }
    }

    fn poll_thread(&mut self, _id: u32, _weight: u32, _most: u32) -> ThreadReport {
        ThreadReport::NONE
    }

    fn busy_poll(&mut self, _id: u32, _weight: u32, _rounds: u32) -> BusyReport {
        BusyReport::NONE
    }
}
