//! The receive side of a device whose instance isn't shared.

ghost use Rattle.std.specs.Prelude.{◌≡◌, ◌≤◌, ◌<◌, ◌^◌, true, length, sum, IfOk};
ghost use Rattle.device_bench.specs.Receive.{after_hand, is_polling_place, state_kind, opened_side};
ghost use Rattle.napi_model.specs.declared.state.Place.TheVariants.{Granted, Polling};

use crate::device::{CONTROLLER, INTERRUPT, POLLER, THREAD};
use crate::receive_side::ReceiveSide;
use circular_buffer::HeapCircularBuffer;
use napi_model::{Done, Kind, Place, Prep, Seen, SerialNapi};
use std::alloc::{AllocError, Global};
use std::marker::Model;

/// The most packets that one poll processes (`NAPI_POLL_WEIGHT`).
const MOST_WEIGHT: usize = 64;

/// A ring and an instance on which no other thread makes calls.
#[derive(Drop)]
pub struct SerialReceive {
    napi: SerialNapi,
    ring: HeapCircularBuffer<u32>,
}

impl Model for SerialReceive {
    ghost use Rattle.std.specs.Prelude.{◌≡◌};
    ghost use Rattle.device_bench.specs.Owner.{IsOurs};
    ghost use Rattle.device_bench.specs.Receive.{ReceiveView};
    ghost use Rattle.device_bench.specs.declared.device.TheConstants.{CONTROLLER};
    ghost use Rattle.napi_model.specs.Serial.{serial_controller, state_of};

    ghost Value = { ReceiveView };

    ghost view = { λ s. record {
      napi = state_of s.napi;
      packets = s.ring.items;
      capacity = s.ring.capacity;
    } };

    ghost invariant = { λ s. (serial_controller s.napi ≡ CONTROLLER) × IsOurs (state_of s.napi) };
}

impl SerialReceive {
    // Queues the instance for its thread if THREADED is set, otherwise on the list, and returns in which queue.
    fn hand_over(&mut self, caller: u32) -> Kind
        requires { self.old.napi.place ≡ Granted caller }
        ensures kind { result ≡ state_kind self.old.napi }
        ensures side { self.new ≡ record self.old { napi = after_hand caller self.old.napi } }
    {
        let kind = if self.napi.flags().threaded {
            Kind::Thread
        } else {
            Kind::List
        };
        self.napi.hand(caller, kind);
        kind
    }

    // Returns the number of the caller that polls the instance.
    fn poller(&self) -> u32
        requires { is_polling_place self.now.napi.place ≡ true }
        ensures { self.now.napi.place ≡ Polling result }
    {
        match self.napi.place() {
            Place::Polling(poller) => poller,
            _ => unreachable!(),
        }
    }
}

impl ReceiveSide for SerialReceive {
    type Kit = ();

    type End = ();

    ghost side = { λ s. s };

    ghost exact = { true };

    ghost ended = { λ end. Unit };

    fn open(_kit: &(), alloc: Global, capacity: u32) -> Result<SerialReceive, AllocError> {
        let ring = HeapCircularBuffer::with_capacity(alloc, capacity as usize)?;
        let mut napi = SerialNapi::new(CONTROLLER);
        napi.enable(CONTROLLER, false);
        Ok(SerialReceive { napi, ring })
    }

    fn put(&mut self, bytes: u32) -> bool {
        self.ring.try_push_back(bytes).is_ok()
    }

    fn left(&self) -> usize {
        self.ring.len()
    }

    fn seen(&self) -> Seen {
        self.napi.look()
    }

    fn is_marked(&self) -> bool {
        self.napi.flags().disable
    }

    fn is_off(&self) -> bool {
        matches!(self.napi.place(), Place::Control(_))
    }

    fn request(&mut self) -> (Prep, Option<Kind>) {
        let reply = self.napi.schedule(INTERRUPT);
        match reply {
            Prep::Granted => (reply, Some(self.hand_over(INTERRUPT))),
            Prep::Missed | Prep::Disabled => (reply, None),
        }
    }

    fn take(&mut self, kind: Kind) -> bool {
        match kind {
            Kind::List => self.napi.take(POLLER, Kind::List),
            Kind::Thread => self.napi.take(THREAD, Kind::Thread),
        }
    }

    fn receive(&mut self, weight: u32) -> (u32, u64) {
        let mut batch = [0u32; MOST_WEIGHT];
        let count = self.ring.read_into(&mut batch[..weight as usize]);
        (count as u32, byte_sum(&batch[..count]))
    }

    fn requeue(&mut self) {
        let poller = self.poller();
        self.napi.hand(poller, Kind::List);
    }

    fn complete(&mut self) -> Option<Kind> {
        let poller = self.poller();
        match self.napi.complete(poller) {
            Done::Released => None,
            Done::Held => unreachable!(),
            Done::Again => Some(self.hand_over(poller)),
        }
    }

    fn busy_take(&mut self) -> bool {
        self.napi.busy_take(POLLER)
    }

    fn hold(&mut self) {
        self.napi.complete(POLLER);
    }

    fn stop(&mut self) {
        self.napi.busy_stop(POLLER);
    }

    fn mark(&mut self) {
        self.napi.mark_disable(CONTROLLER);
    }

    fn try_take(&mut self) -> bool {
        if !self.napi.take_disable(CONTROLLER) {
            return false;
        }
        self.napi.unmark(CONTROLLER);
        true
    }

    fn enable(&mut self, threaded: bool) {
        self.napi.enable(CONTROLLER, threaded);
    }

    fn set_threaded(&mut self, threaded: bool) {
        self.napi.set_threaded(threaded);
    }

    fn end(self) {}
}

// Returns the sum of the bytes of a batch of packets.
fn byte_sum(batch: &[u32]) -> u64
    requires { length batch.now ≤ 64 }
    ensures sum { result ≡ sum batch.now }
    ensures bound { result < 2 ^ 38 }
{
    let mut sum = 0;
    for bytes in batch {
        sum += u64::from(*bytes);
    }
    sum
}
