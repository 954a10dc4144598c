//! The receive side of a device over an instance that threads could share.

ghost use Rattle.std.specs.Prelude.{◌≡◌};
ghost use Rattle.device_bench.specs.Receive.{ReceiveView};
ghost use Rattle.device_shared.specs.Callers.{is_owned};

use crate::callers::{
    busy_take, complete_by, enable, hold, look, mark, poll, request, requeue, set_threaded, stop,
    take, try_take,
};
use crate::closed_side::ClosedSide;
use crate::ending::{close, disable, empty};
use crate::opening::three_callers;
use device_bench::{KitSide, ReceiveSide};
use napi_calls::{Caller, CallerState, ControlState, Napi, NewBack};
use napi_model::{Kind, Prep, Seen};
use rx_ring::{Batch, Packet, RingFault, RxIn, batch_bytes, finish, ring};
use std::alloc::{AllocError, Global};
use std::marker::Model;
use std::snapshot::Snapshot;
use std::sync::Wait;

/// A receive ring and a NAPI instance that threads could share, with all its callers, owned by one thread.
///
/// It is linear: [`end`](ReceiveSide::end) waits until no caller owns the instance, disables and closes it, and polls all packets
/// in the ring.
pub struct SharedReceive<R: Wait + Drop> {
    rt: R,
    napi: Napi,
    interrupt: CallerState,
    poller: CallerState,
    thread: CallerState,
    control: ControlState,
    // Room for collecting the callers at the end.
    callers: Vec<Caller>,
    input: RxIn,
    batch: Batch,
    // How many packets the ring holds.
    held: usize,
    // What the state word showed after the last call.
    seen: Seen,
    // How many packets arrived, including those that found no room; the count saturates. A packet's number is this count.
    arrived: u64,
}

impl<R: Wait + Drop> Model for SharedReceive<R> {
    ghost use Rattle.std.specs.Prelude.{length, vec_capacity};
    ghost use Rattle.device_bench.specs.Receive.{ReceiveView};
    ghost use Rattle.napi_calls.specs.Instance.{callers_of};
    ghost use Rattle.device_shared.specs.Callers.{AreCallers, HasCallerRoom, callers_side};

    ghost Value = { ReceiveView };

    ghost view = { λ s. callers_side s.poller s.thread s.control };

    ghost invariant = { λ s. AreCallers s.napi s.input s.interrupt s.poller s.thread s.control
        × HasCallerRoom (callers_of s.napi) (length s.callers.items) (vec_capacity s.callers) };
}

impl<R: Wait + Copy + Drop> SharedReceive<R> {
    // Returns whether a caller has the poll context.
    fn is_owned(&self) -> bool
        ensures { result ≡ is_owned self.now.napi.place }
    {
        let poller = matches!(self.poller, CallerState::Polls(_) | CallerState::Busy(_));
        let thread = matches!(self.thread, CallerState::Polls(_));
        poller || thread || matches!(self.control, ControlState::Off(_))
    }

    // Reads the state word, by the interrupt handler.
    fn look(&mut self)
        ensures { self.new ≡ self.old }
    {
        self.seen = look(&self.napi, &mut self.interrupt);
    }
}

impl<R: Wait + Copy + Drop> KitSide for SharedReceive<R> {}

impl<R: Wait + Copy + Drop> ReceiveSide for SharedReceive<R> {
    ghost use Rattle.std.specs.Prelude.{false};
    ghost use Rattle.device_shared.specs.Ending.{IsSideClosed};

    type Kit = R;

    type End = ClosedSide;

    ghost side = { λ s. s };

    ghost exact = { false };

    ghost ended = { IsSideClosed };

    fn open(rt: &R, alloc: Global, capacity: u32) -> Result<SharedReceive<R>, AllocError> {
        let (input, ctx) = match ring(alloc, capacity as usize) {
            Ok(ends) => ends,
            Err(RingFault::OutOfMemory) => return Err(AllocError),
            Err(RingFault::BadCapacity) => unreachable!(),
        };
        let (napi, mut callers, control) = match Napi::new(alloc, ctx, 3) {
            Ok(made) => made,
            Err(NewBack { fault: _, ctx: _ }) => return Err(AllocError),
        };
        let (mut interrupt, poller, thread) = three_callers(&napi, &mut callers);
        let control = control.enable(rt, &napi, false);
        let seen = interrupt.look(&napi);
        Ok(SharedReceive {
            rt: *rt,
            napi,
            interrupt: CallerState::Rests(interrupt),
            poller: CallerState::Rests(poller),
            thread: CallerState::Rests(thread),
            control: ControlState::On(control),
            callers,
            input,
            batch: Batch::new(),
            held: 0,
            seen,
            arrived: 0,
        })
    }

    fn put(&mut self, bytes: u32) -> bool {
        self.arrived = self.arrived.saturating_add(1);
        let packet = Packet {
            number: self.arrived,
            bytes,
        };
        if self.input.put(packet).is_err() {
            return false;
        }
        self.held = self.held.saturating_add(1);
        true
    }

    fn left(&self) -> usize {
        self.held
    }

    fn seen(&self) -> Seen {
        self.seen
    }

    fn is_marked(&self) -> bool {
        matches!(self.control, ControlState::Marked(_))
    }

    fn is_off(&self) -> bool {
        matches!(self.control, ControlState::Off(_))
    }

    fn request(&mut self) -> (Prep, Option<Kind>) {
        let requested = request(&self.rt, &self.napi, &mut self.interrupt);
        self.look();
        requested
    }

    fn take(&mut self, kind: Kind) -> bool {
        if self.is_owned() {
            return false;
        }
        let taken = match kind {
            Kind::List => take(&self.napi, &mut self.poller, kind),
            Kind::Thread => take(&self.napi, &mut self.thread, kind),
        };
        self.look();
        taken
    }

    fn receive(&mut self, weight: u32) -> (u32, u64) {
        if matches!(self.poller, CallerState::Polls(_) | CallerState::Busy(_)) {
            poll(
                &mut self.poller,
                &mut self.input,
                weight as usize,
                &mut self.batch,
            );
        } else {
            poll(
                &mut self.thread,
                &mut self.input,
                weight as usize,
                &mut self.batch,
            );
        }
        let given = self.batch.len();
        self.held = self.held.saturating_sub(given);
        (given as u32, batch_bytes(&self.batch))
    }

    fn requeue(&mut self) {
        if matches!(self.poller, CallerState::Polls(_)) {
            requeue(&self.napi, &mut self.poller);
        } else {
            requeue(&self.napi, &mut self.thread);
        }
        self.look();
    }

    fn complete(&mut self) -> Option<Kind> {
        let again = if matches!(self.poller, CallerState::Polls(_)) {
            complete_by(&self.rt, &self.napi, &mut self.poller)
        } else {
            complete_by(&self.rt, &self.napi, &mut self.thread)
        };
        self.look();
        again
    }

    fn busy_take(&mut self) -> bool {
        if self.is_owned() {
            return false;
        }
        let taken = busy_take(&self.rt, &self.napi, &mut self.poller);
        self.look();
        taken
    }

    fn hold(&mut self) {
        hold(&self.napi, &mut self.poller);
        self.look();
    }

    fn stop(&mut self) {
        stop(&self.rt, &self.napi, &mut self.poller);
        self.look();
    }

    fn mark(&mut self) {
        mark(&self.napi, &mut self.control);
        self.look();
    }

    fn try_take(&mut self) -> bool {
        let taken = try_take(&self.napi, &mut self.control);
        self.look();
        taken
    }

    fn enable(&mut self, threaded: bool) {
        enable(&self.rt, &self.napi, &mut self.control, threaded);
        self.look();
    }

    fn set_threaded(&mut self, threaded: bool) {
        set_threaded(&self.napi, &mut self.interrupt, threaded);
        self.look();
    }

    fn end(self) -> ClosedSide {
        let SharedReceive {
            rt,
            napi,
            interrupt,
            poller,
            thread,
            control,
            callers,
            mut input,
            batch: _,
            held: _,
            seen: _,
            arrived: _,
        } = self;
        let CallerState::Rests(interrupt) = interrupt else {
            unreachable!()
        };
        let (poller, thread, control) = disable(&rt, &napi, poller, thread, control);
        let at = Snapshot::of(&napi);
        let first = Snapshot::of(&interrupt);
        let second = Snapshot::of(&poller);
        let third = Snapshot::of(&thread);
        let off = Snapshot::of(&control);
        let mut ctx = close(napi, interrupt, poller, thread, control, callers);
        empty(&mut input, &mut ctx);
        let totals = finish(input, ctx);
        ClosedSide {
            totals,
            napi: at,
            interrupt: first,
            poller: second,
            thread: third,
            control: off,
        }
    }
}
