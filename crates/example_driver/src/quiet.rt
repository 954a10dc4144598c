//! A bench that declares nothing about its polls. What holds for every run is proved without that: which numbers are polled and
//! in which order, that polls and work keep within budget, weight and window, and what the list holds afterwards. What a poll
//! does isn't checked: a poll that returns `Gone` but leaves the instance scheduled is accepted too, and then the card is never
//! polled again.

use crate::card::{CARD, Card, CardDriver, POLLER};
use napi_model::{Done, Kind};
use poll_engine::{Bench, BusyReport, Next, Once, ThreadReport};

/// A bench of one card.
#[derive(Drop)]
pub(crate) struct QuietBench {
    pub(crate) card: Card,
}

impl CardDriver for QuietBench {
    fn card(&mut self) -> &mut Card {
        &mut self.card
    }
}

impl Bench for QuietBench {
    ghost polls = { λ _ _ _ _ _. Unit };

    fn poll_once(&mut self, id: u32, weight: u32) -> Once {
        let card = &mut self.card;
        if id != CARD || !card.napi.take(POLLER, Kind::List) {
            return Once {
                work: 0,
                next: Next::Absent,
            };
        }
        let work = card.ctx.poll(weight as usize, &mut card.batch) as u32;
        let next = if work == weight {
            card.napi.hand(POLLER, Kind::List);
            Next::Repoll
        } else {
            match card.napi.complete(POLLER) {
                Done::Released => Next::Gone,
                Done::Held => unreachable!(),
                Done::Again => {
                    card.napi.hand(POLLER, Kind::List);
                    Next::Again(Kind::List)
                }
            }
        };
        Once { work, next }
    }

    fn poll_thread(&mut self, _id: u32, _weight: u32, _most: u32) -> ThreadReport {
        ThreadReport::NONE
    }

    fn busy_poll(&mut self, _id: u32, _weight: u32, _rounds: u32) -> BusyReport {
        BusyReport::NONE
    }
}
