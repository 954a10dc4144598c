//! The devices, and the bench that polls them. The bench declares no relation for its polls.

ghost use Rattle.std.specs.Prelude.{◌≡◌, ◌≤◌, false};
ghost use Rattle.napi_model.specs.Serial.{state_of};
ghost use Rattle.poll_engine.specs.Ranges.{IsWeight};

use anyhow::Result;
use napi_model::{Done, Kind, Prep, SerialNapi};
use poll_engine::{Bench, BusyReport, Next, Once, ThreadReport};
use rx_ring::{Batch, Packet, RxCtx, RxIn, ring};
use std::alloc::Global;

/// The number of devices.
pub const DEVICES: u32 = 16;

// The capacity of a device's ring.
const PLACES: usize = 256;

// The numbers of an instance's callers.
const INTERRUPT: u32 = 0;

const POLLER: u32 = 1;

const CONTROLLER: u32 = 2;

#[derive(Drop)]
struct Card {
    napi: SerialNapi,
    input: RxIn,
    ctx: RxCtx,
    ghost quiet: { (state_of napi).flags.in_busy_poll ≡ false },
}

impl Card {
    // Returns a card whose instance is enabled.
    fn new(alloc: Global) -> Result<Card> {
        let (input, ctx) = ring(alloc, PLACES)?;
        let mut napi = SerialNapi::new(CONTROLLER);
        napi.enable(CONTROLLER, false);
        Ok(Card { napi, input, ctx })
    }

    fn poll(&mut self, weight: usize, batch: &mut Batch) -> Once
        requires { IsWeight weight }
        ensures { result.work ≤ weight }
    {
        if !self.napi.take(POLLER, Kind::List) {
            return Once {
                work: 0,
                next: Next::Absent,
            };
        }
        let work = self.ctx.poll(weight, batch);
        let next = if work == weight {
            self.napi.hand(POLLER, Kind::List);
            Next::Repoll
        } else {
            match self.napi.complete(POLLER) {
                Done::Released => Next::Gone,
                Done::Held => unreachable!(),
                Done::Again => {
                    self.napi.hand(POLLER, Kind::List);
                    Next::Again(Kind::List)
                }
            }
        };
        Once {
            work: work as u32,
            next,
        }
    }
}

/// The devices, and the batch to which their packets are polled.
#[derive(Drop)]
pub struct Cards {
    cards: Vec<Card>,
    batch: Batch,
}

impl Cards {
    /// Returns all devices, with empty rings.
    pub fn new(alloc: Global) -> Result<Cards> {
        let mut cards = Vec::new(alloc);
        for _ in 0..DEVICES {
            cards.push(Card::new(alloc)?)?;
        }
        Ok(Cards {
            cards,
            batch: Batch::new(),
        })
    }

    /// The receive interrupt of a device. Returns whether its number has to be pushed to the list.
    pub fn receive(&mut self, id: u32, packet: Packet) -> bool {
        let Some(card) = self.cards.get_mut(id as usize) else {
            return false;
        };
        if card.input.put(packet).is_err() || card.napi.schedule(INTERRUPT) != Prep::Granted {
            return false;
        }
        card.napi.hand(INTERRUPT, Kind::List);
        true
    }
}

impl Bench for Cards {
    ghost polls = { λ _ _ _ _ _. Unit };

    fn poll_once(&mut self, id: u32, weight: u32) -> Once {
        match self.cards.get_mut(id as usize) {
            Some(card) => card.poll(weight as usize, &mut self.batch),
            None => Once {
                work: 0,
                next: Next::Absent,
            },
        }
    }

    fn poll_thread(&mut self, _id: u32, _weight: u32, _most: u32) -> ThreadReport {
        ThreadReport::NONE
    }

    fn busy_poll(&mut self, _id: u32, _weight: u32, _rounds: u32) -> BusyReport {
        BusyReport::NONE
    }
}
