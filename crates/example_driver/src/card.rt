//! A network card in a simulation: two rings, an instance, and what its interrupt handlers do.

ghost use Rattle.std.specs.Prelude.{◌≡◌, false};
ghost use Rattle.rx_ring.specs.Ends.{IsOneRing};
ghost use Rattle.napi_model.specs.Serial.{state_of};

use anyhow::Result;
use dql_core::{Dql, MAX_LIMIT};
use napi_model::{Kind, Prep, SerialNapi};
use poll_engine::Bench;
use rx_ring::{Batch, Packet, RxCtx, RxIn, ring};
use std::alloc::Global;
use tx_ring::{TxRing, TxState};

/// The numbers of the instance's callers. On one thread a number only says who owns the instance.
pub(crate) const INTERRUPT: u32 = 0;

pub(crate) const POLLER: u32 = 1;

const CONTROLLER: u32 = 2;

/// The number of the card on the poll list.
pub(crate) const CARD: u32 = 1;

/// A network card with a receive ring, a transmit ring under a queue limit, and one instance.
#[derive(Drop)]
pub(crate) struct Card {
    pub(crate) napi: SerialNapi,
    pub(crate) input: RxIn,
    pub(crate) ctx: RxCtx,
    pub(crate) batch: Batch,
    tx: TxRing,
    arrived: u64,
    ghost rings: { IsOneRing input ctx },
    ghost quiet: { (state_of napi).flags.in_busy_poll ≡ false },
}

/// A bench that drives one card.
pub(crate) trait CardDriver: Bench {
    /// Returns the card.
    fn card(&mut self) -> &mut Card;
}

impl Card {
    /// Returns a card with rings of this capacity, whose instance is enabled. Its queue limit has the kernel's bounds, and a
    /// hold time of one second.
    pub(crate) fn new(alloc: Global, places: usize) -> Result<Card> {
        let (input, ctx) = ring(alloc, places)?;
        let tx = TxRing::new(alloc, places, Dql::new(0, MAX_LIMIT, 1000, 0)?)?;
        let mut napi = SerialNapi::new(CONTROLLER);
        napi.enable(CONTROLLER, false);
        Ok(Card {
            napi,
            input,
            ctx,
            batch: Batch::new(),
            tx,
            arrived: 0,
        })
    }

    /// The receive interrupt: puts a packet into the ring, or drops it if the ring is full, and requests a poll. Returns
    /// whether the card's number has to be pushed to the poll list now.
    pub(crate) fn receive(&mut self, bytes: u32) -> bool {
        self.arrived = self.arrived.wrapping_add(1);
        let packet = Packet {
            number: self.arrived,
            bytes,
        };
        if self.input.put(packet).is_err() || self.napi.schedule(INTERRUPT) != Prep::Granted {
            return false;
        }
        self.napi.hand(INTERRUPT, Kind::List);
        true
    }

    /// Sends packets of this size until the queue is stopped, and returns how many it took.
    pub(crate) fn send_all(&mut self, packets: u32, bytes: u32) -> u32 {
        for sent in 0..packets {
            if self.tx.send(bytes).is_err() {
                return sent;
            }
        }
        packets
    }

    /// The transmit interrupt: this many of the oldest packets complete. If fewer were sent, nothing changes.
    pub(crate) fn complete(&mut self, packets: u32, moment: u64) {
        let _ = self.tx.done(packets, moment);
    }

    /// The state of the transmit side.
    pub(crate) fn transmit_side(&self) -> TxState {
        self.tx.state()
    }
}
