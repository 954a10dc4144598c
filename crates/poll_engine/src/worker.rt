//! An interrupt worker: makes its device's acts, and queues the instance for its poller.

ghost use Rattle.std.specs.Prelude.{◌≡◌, ℕ, ◌+◌, ◌≤◌, ◌<◌, ◌++◌, ◌∷◌, [], true, false, None, IfSome, is_some, length};
ghost use Rattle.rx_ring.specs.Ends.{SameIn, capacity_of, put_list};
ghost use Rattle.napi_calls.specs.Instance.{IsSeatOf};
ghost use Rattle.poll_engine.specs.Acts.{after_acts, arrivals, brings};
ghost use Rattle.poll_engine.specs.Calls.{Acts, AllActs, HandsOver, Interrupts, IsPutLast, TurnsOff, TurnsOn};
ghost use Rattle.poll_engine.specs.Hands.{Lists, ThreadWakes};
ghost use Rattle.poll_engine.specs.Questions.{all_questions};
ghost use Rattle.poll_engine.specs.Handles.{AreAtRest, AreHandlesOf, AreSameHandles, pass_of};
ghost use Rattle.poll_engine.specs.Asks.{WasLet};
ghost use Rattle.poll_engine.specs.Stops.{IsStop, WasGoing};
ghost use Rattle.poll_engine.specs.Trails.{questions};

use crate::acts::{Act, Device};
use crate::fault::WorkFault;
use crate::gate::Gate;
use crate::outbox::Outbox;
use crate::setup::context::RunContext;
use crate::setup::signals::Waker;
use crate::setup::trail::{Asked, Signal, Trail};
use crate::tasks::Task;
use napi_calls::{Between, Caller, Control, DropBomb, Granted, Napi, Off, On, Sched};
use napi_model::Kind;
use rx_ring::{Packet, RxIn};
use std::sync::Wait;
use std::thread;

// Yields the processor, so that the thread that owns the instance can continue.
#[derive(Drop)]
struct Yields;

impl Between for Yields {
    fn run(&mut self) {
        thread::yield_now();
    }
}

// The controller of an instance, which is on or off.
pub(crate) enum ControllerState {
    On(Control<On>),
    Off(Control<Off>),
}

/// A worker's handles on its instance. It is linear: it can't be dropped.
pub struct WorkerHandles {
    // The caller that requests polls.
    pub(crate) caller: Caller,
    // The controller of the instance.
    pub(crate) control: ControllerState,
    // The device's threaded setting, which an enable writes (`dev_set_threaded`).
    pub(crate) threaded: bool,
}

/// Where the interrupts of a worker go: the instance and the wakers.
#[derive(Drop)]
pub struct InterruptHandler<'p, 'n, R> {
    /// The runtime, by which it waits.
    pub rt: R,
    /// The device's number.
    pub number: u32,
    /// The instance.
    pub napi: &'n Napi,
    /// The waker of its thread, if it has one.
    pub thread: Option<&'n Waker>,
    /// The waker of the poller of its list.
    pub poller: &'p Waker,
}

impl<'p, 'n, R: Wait> InterruptHandler<'p, 'n, R> {
    // Queues the instance on the list, and wakes the poller of the list.
    fn hand_to_list<D>(&self, out: &mut Outbox<R, D>, granted: Granted) -> Caller
        requires { IsSeatOf self.now.napi.now granted.pass }
        ensures of { IsSeatOf self.now.napi.now result.pass }
        ensures handed { HandsOver false granted.pass result.pass }
        ensures lists { Lists self.now granted.pass result.pass out.old out.new }
        ensures wakes { ThreadWakes self.now granted.pass result.pass out.old out.new }
        ensures asked { out.new.asked ≡ out.old.asked }
    {
        let caller = granted.hand(self.napi, Kind::List);
        out.queue(self.number, self.poller, &caller);
        caller
    }

    // Queues a granted instance: for its thread, if it has one and THREADED is set, otherwise on the list; and wakes the poller
    // (`____napi_schedule`).
    fn hand_over<D>(&self, out: &mut Outbox<R, D>, mut granted: Granted) -> Caller
        requires { IsSeatOf self.now.napi.now granted.pass }
        ensures of { IsSeatOf self.now.napi.now result.pass }
        ensures handed { HandsOver (is_some self.now.thread) granted.pass result.pass }
        ensures lists { Lists self.now granted.pass result.pass out.old out.new }
        ensures wakes { ThreadWakes self.now granted.pass result.pass out.old out.new }
        ensures asked { out.new.asked ≡ out.old.asked }
    {
        let Some(waker) = self.thread else {
            return self.hand_to_list(out, granted);
        };
        if !granted.look(self.napi).flags.threaded {
            return self.hand_to_list(out, granted);
        }
        let caller = granted.hand(self.napi, Kind::Thread);
        waker.wake(&caller, &mut out.thread_wakes);
        caller
    }

    // The interrupt of a packet that was put: requests a poll, and queues the instance if the request is granted
    // (`napi_schedule`).
    fn interrupt<D>(
        &self,
        out: &mut Outbox<R, D>,
        caller: Caller,
        rx: &RxIn,
        packet: Packet,
    ) -> Caller
        requires of { IsSeatOf self.now.napi.now caller.pass }
        requires put { IsPutLast packet rx.now }
        ensures of { IsSeatOf self.now.napi.now result.pass }
        ensures interrupts { Interrupts (is_some self.now.thread) caller.pass result.pass }
        ensures lists { Lists self.now caller.pass result.pass out.old out.new }
        ensures wakes { ThreadWakes self.now caller.pass result.pass out.old out.new }
        ensures asked { out.new.asked ≡ out.old.asked }
    {
        match caller.schedule(&self.rt, self.napi) {
            Sched::Granted(granted) => self.hand_over(out, granted),
            Sched::Missed(caller) | Sched::Disabled(caller) => caller,
        }
    }

    // Enables the instance if it is disabled.
    fn turn_on(&self, control: ControllerState, threaded: bool) -> ControllerState
        requires { IsSeatOf self.now.napi.now (pass_of control) }
        ensures of { IsSeatOf self.now.napi.now (pass_of result) }
        ensures turns { TurnsOn threaded control result }
    {
        match control {
            ControllerState::On(control) => ControllerState::On(control),
            ControllerState::Off(control) => {
                ControllerState::On(control.enable(&self.rt, self.napi, threaded))
            }
        }
    }

    // Disables the instance if it is enabled, and waits until its polls have ended.
    fn turn_off(&self, control: ControllerState) -> ControllerState
        requires { IsSeatOf self.now.napi.now (pass_of control) }
        ensures of { IsSeatOf self.now.napi.now (pass_of result) }
        ensures turns { TurnsOff control result }
    {
        match control {
            ControllerState::On(control) => {
                ControllerState::Off(control.disable_pausing(&self.rt, self.napi, &mut Yields))
            }
            ControllerState::Off(control) => ControllerState::Off(control),
        }
    }

    // Makes the next act: the device returns it, and the worker executes it.
    #[inline(always)]
    #[tactic(auto, using(crate::proofs::Listings::wakes_same, crate::proofs::Listings::wakes_none))]
    fn make_act<D: Device>(
        &self,
        out: &mut Outbox<R, D>,
        device: &mut D,
        k: u32,
        handles: WorkerHandles,
        rx: &mut RxIn,
    ) -> WorkerHandles
        requires below { k < D.acts device.old }
        requires of { AreHandlesOf self.now.napi.now handles }
        ensures of { AreHandlesOf self.now.napi.now result }
        ensures made { Acts (is_some self.now.thread)
            (D.answer device.old k) handles result rx.old rx.new }
        ensures lists { Lists self.now handles.caller.pass result.caller.pass out.old out.new }
        ensures wakes { ThreadWakes self.now handles.caller.pass result.caller.pass
            out.old out.new }
        ensures asked { out.new.asked ≡ out.old.asked }
        ensures device { device.new ≡ D.after device.old k }
        ensures acts { D.acts device.new ≡ D.acts device.old }
        ensures ring { SameIn rx.old rx.new }
        ensures few { length (put_list rx.new) ≤ length (put_list rx.old) + 1 }
        ensures put { length (put_list rx.old) + length (brings (D.answer device.old k))
            ≤ capacity_of rx.old
            → put_list rx.new ≡ put_list rx.old ++ brings (D.answer device.old k) }
    {
        let mut handles = handles;
        match device.act(k) {
            Act::Arrive(packet) => match rx.put(packet) {
                Ok(()) => {
                    handles.caller = self.interrupt(out, handles.caller, rx, packet);
                    handles
                }
                Err(_dropped) => handles,
            },
            Act::Disable => {
                handles.control = self.turn_off(handles.control);
                handles
            }
            Act::Enable => {
                handles.control = self.turn_on(handles.control, handles.threaded);
                handles
            }
            Act::SetThreaded(threaded) => {
                handles.caller.set_threaded(self.napi, threaded);
                handles.threaded = threaded;
                handles
            }
            Act::Nothing => handles,
        }
    }

    // Returns the reason if the worker must not make its next act. If the gate returns false, the run stops.
    fn stop_before<D, G: Gate>(
        &self,
        context: &RunContext<R, G>,
        k: u32,
        device: &D,
        asked: &mut Trail<Asked<D>>,
    ) -> Option<WorkFault>
        ensures going { result ≡ None → WasGoing context.now device.now }
        ensures open { result ≡ None → G.answers context.now.gate self.now.number k true }
        ensures why { IfSome result (IsStop G.may_shut) }
        ensures asked { result ≡ None → questions asked.new
            ≡ questions asked.old ++ (self.now.number, k, device.now) ∷ [] }
    {
        match context.stop(device) {
            Some(stop) => Some(stop),
            None => context.ask(self.number, k, device, asked),
        }
    }

    // Makes the device's acts in order. Returns the reason if not all were made.
    #[tactic(auto, using(crate::proofs::ActSteps::steps))]
    fn make_acts<D: Device, G: Gate>(
        &self,
        out: &mut Outbox<R, D>,
        device: &mut D,
        handles: WorkerHandles,
        rx: &mut RxIn,
        context: &RunContext<R, G>,
    ) -> (WorkerHandles, Option<WorkFault>)
        requires { AreHandlesOf self.now.napi.now handles }
        ensures of { AreHandlesOf self.now.napi.now result.0 }
        ensures same { AreSameHandles handles result.0 }
        ensures lists { Lists self.now handles.caller.pass result.0.caller.pass out.old out.new }
        ensures wakes { ThreadWakes self.now handles.caller.pass result.0.caller.pass
            out.old out.new }
        ensures asked { result.1 ≡ None → questions out.new.asked ≡ questions out.old.asked
            ++ all_questions D.after self.now.number device.old (D.acts device.old) }
        ensures why { IfSome result.1 (IsStop G.may_shut) }
        ensures made { result.1 ≡ None
            → AllActs (is_some self.now.thread) D.answer D.after device.old
            (D.acts device.old) handles result.0 rx.old rx.new }
        ensures let_go { result.1 ≡ None
            → WasLet (G.answers context.now.gate) self.now.number (D.acts device.old) }
        ensures device { result.1 ≡ None
            → device.new ≡ after_acts D.after device.old (D.acts device.old) }
        ensures ring { SameIn rx.old rx.new }
        ensures few { length (put_list rx.new) ≤ length (put_list rx.old) + 4294967295 }
        ensures put { result.1 ≡ None
            → length (put_list rx.old)
            + length (arrivals D.answer D.after device.old (D.acts device.old)) ≤ capacity_of rx.old
            → put_list rx.new ≡ put_list rx.old
            ++ arrivals D.answer D.after device.old (D.acts device.old) }
    {
        let mut handles = handles;
        for k in 0..device.acts() {
            if let Some(stop) = self.stop_before(context, k, device, &mut out.asked) {
                return (handles, Some(stop));
            }
            handles = self.make_act(out, device, k, handles, rx);
        }
        (handles, None)
    }
}

/// An interrupt worker, which runs in its own thread. It enables its instance, makes its device's acts and disables the
/// instance, also if the run was stopped.
#[derive(Drop)]
pub struct InterruptWorker<'t, 'p, 'n, R: Wait + Drop, D, G: Gate> {
    /// What all threads of the run share.
    pub context: &'t RunContext<R, G>,
    /// Where its interrupts go.
    pub handler: InterruptHandler<'p, 'n, R>,
    /// What goes out of it.
    pub out: Outbox<R, D>,
    /// The close of its instance's thread, with its handles at that time. Only proofs read it.
    pub closes: Trail<Signal<WorkerHandles>>,
    /// The device.
    pub device: D,
    /// The input of the device's receive ring.
    pub rx: RxIn,
    /// Its handles on the instance, which is disabled before and after the run.
    pub handles: DropBomb<R, WorkerHandles>,
    /// The reason, if not all acts were made.
    pub stop: Option<WorkFault>,
    ghost of: { AreAtRest handler.napi.now handles.value },
}

impl<'t, 'p, 'n, R: Wait + Copy + Drop, D: Device + Drop, G: Gate> Task
    for InterruptWorker<'t, 'p, 'n, R, D, G> {
    ghost use Rattle.std.specs.Prelude.{false};
    ghost use Rattle.poll_engine.specs.Works.{IsWorked};
    ghost use Rattle.poll_engine.specs.Stops.{IsStop};

    ghost idle = { λ _. false };

    ghost gives = { IsWorked D.acts D.answer D.after G.may_shut G.answers };

    ghost stopped = { λ w. w.stop };

    ghost may_stop = { IsStop G.may_shut };

    fn is_idle(&self) -> bool {
        false
    }

    fn run(self) -> InterruptWorker<'t, 'p, 'n, R, D, G> {
        let InterruptWorker {
            context,
            handler,
            mut out,
            mut closes,
            mut device,
            mut rx,
            handles,
            stop: _,
        } = self;
        let mut handles = handles.open();
        handles.control = handler.turn_on(handles.control, handles.threaded);
        let (mut handles, stop) = handler.make_acts(
            &mut out,
            &mut device,
            handles,
            &mut rx,
            context,
        );
        handles.control = handler.turn_off(handles.control);
        if let Some(waker) = handler.thread {
            waker.close(&handles, &mut closes);
        }
        InterruptWorker {
            context,
            handler,
            out,
            closes,
            device,
            rx,
            handles: DropBomb::new(context.rt, handles),
            stop,
        }
    }

    fn stop(&self) -> Option<WorkFault> {
        self.stop
    }
}
