//! The instance for one thread.

use crate::{Call, Done, Event, Flags, Kind, Operation, Place, Prep, Seen, State};

/// A NAPI instance that one thread at a time calls: the kernel's rules without its races.
///
/// A caller is a number. Only the controller, named when the instance is made, disables and enables it. No call allocates,
/// waits or fails: what a call requires of its caller is a precondition, checked by the prover.
#[derive(Drop, Debug)]
pub struct SerialNapi {
    state: State,
    controller: u32,
}

impl SerialNapi {
    ghost use Rattle.std.specs.Prelude.{◌≡◌, ◌↔◌, ℕ, true, false, IsTrue, IsFalse};
    ghost use Rattle.napi_model.specs.declared.event.Operation.TheVariants as operation;
    ghost use Rattle.napi_model.specs.Step.{opening, seen_of, IsControl, MayHand, MayCall, reply_of, schedule_reply, take_reply, complete_reply, take_disable_reply, MayBusyTake, CallerPolls};
    ghost use Rattle.napi_model.specs.Serial.{state_of, serial_controller, SerialSteps};

    /// Returns a new instance, disabled: SCHED and NPSVC are set, and the place is `Control(controller)` (`netif_napi_add`).
    pub fn new(controller: u32) -> SerialNapi
        ensures state { state_of result ≡ opening controller }
        ensures controller { serial_controller result ≡ controller }
    {
        SerialNapi {
            state: State::opening(controller),
            controller,
        }
    }

    /// The flags.
    pub fn flags(&self) -> Flags
        ensures { result ≡ (state_of self.now).flags }
    {
        self.look().flags
    }

    /// The place of the instance: who owns it, or where it waits.
    pub fn place(&self) -> Place
        ensures { result ≡ (state_of self.now).place }
    {
        self.state.place
    }

    /// Reads the state word.
    pub fn look(&self) -> Seen
        ensures { result ≡ seen_of (state_of self.now) }
    {
        self.state.seen()
    }

    // Makes a call that the caller may make in this state: returns the reply that the table of steps determines, and changes
    // the state as it says.
    fn step(&mut self, caller: u32, call: Call) -> Operation
        requires { MayCall caller call (state_of self.old) }
        ensures answer { result ≡ reply_of call (state_of self.old) }
        ensures step { SerialSteps self.old caller result self.new }
    {
        let operation = self.state.answer(caller, call);
        self.state = self.state.after(Event { caller, operation });
        operation
    }

    /// Requests a poll (`napi_schedule_prep`). If DISABLE is set, it returns `Disabled` and changes nothing. Otherwise, if
    /// SCHED is clear, it returns `Granted` and sets SCHED, and the caller has to [`hand`](SerialNapi::hand) the instance over.
    /// If SCHED is set, it returns `Missed` and sets MISSED, so the poller polls once more; no poll follows if the instance is
    /// disabled.
    pub fn schedule(&mut self, who: u32) -> Prep
        ensures step { SerialSteps self.old who (operation.Schedule result) self.new }
        ensures reply { result ≡ schedule_reply (state_of self.old) }
    {
        let Operation::Schedule(reply) = self.step(who, Call::Schedule) else {
            unreachable!()
        };
        reply
    }

    /// Queues an instance that the caller was granted, or puts one that it polls back on the list (`____napi_schedule`). For
    /// the thread, it also sets SCHED_THREADED.
    pub fn hand(&mut self, who: u32, kind: Kind)
        requires { MayHand who kind (state_of self.old) }
        ensures { SerialSteps self.old who (operation.Hand kind) self.new }
    {
        self.step(who, Call::Hand(kind));
    }

    /// Takes a queued instance, to poll it. Returns false, and changes nothing, if the instance isn't in that queue.
    pub fn take(&mut self, who: u32, kind: Kind) -> bool
        ensures step { SerialSteps self.old who (operation.Take kind result) self.new }
        ensures reply { result ≡ take_reply kind (state_of self.old) }
    {
        let Operation::Take(_, taken) = self.step(who, Call::Take(kind)) else {
            unreachable!()
        };
        taken
    }

    /// Ends a poll (`napi_complete_done`). If MISSED is set, it clears MISSED and returns `Again`, and the caller has to queue
    /// the instance again. Otherwise it clears SCHED and returns `Released`. Both clear SCHED_THREADED. While the caller busy
    /// polls, it returns `Held` instead and changes nothing.
    pub fn complete(&mut self, who: u32) -> Done
        requires { (state_of self.old).place ≡ Place.Polling who }
        ensures step { SerialSteps self.old who (operation.Complete result) self.new }
        ensures reply { result ≡ complete_reply (state_of self.old) }
    {
        let Operation::Complete(reply) = self.step(who, Call::Complete) else {
            unreachable!()
        };
        reply
    }

    /// Takes an idle instance, to busy poll it (the `cmpxchg` of `napi_busy_loop`): sets SCHED and IN_BUSY_POLL; the place
    /// becomes `Polling(who)`. Returns false, as a mere read of the word, if DISABLE, SCHED or IN_BUSY_POLL is set.
    pub fn busy_take(&mut self, who: u32) -> bool
        ensures taken { IsTrue result → SerialSteps self.old who operation.BusyTake self.new }
        ensures refused { IsFalse result
            → SerialSteps self.old who (operation.Look (seen_of (state_of self.old))) self.new }
        ensures when { IsTrue result ↔ MayBusyTake (state_of self.old).flags }
    {
        if !self.state.may_call(who, Call::BusyTake) {
            self.step(who, Call::Look);
            return false;
        }
        self.step(who, Call::BusyTake);
        true
    }

    /// Stops busy polling (`busy_poll_stop`): clears IN_BUSY_POLL and MISSED, and the caller polls once more.
    pub fn busy_stop(&mut self, who: u32)
        requires { CallerPolls who true (state_of self.old) }
        ensures { SerialSteps self.old who operation.BusyStop self.new }
    {
        self.step(who, Call::BusyStop);
    }

    /// Marks a disable as pending (`napi_disable` sets DISABLE first): from now on requests for a poll return `Disabled`.
    pub fn mark_disable(&mut self, who: u32)
        requires controller { who ≡ serial_controller self.old }
        requires unmarked { (state_of self.old).flags.disable ≡ false }
        requires place { ¬ IsControl (state_of self.old).place }
        ensures { SerialSteps self.old who operation.MarkDisable self.new }
    {
        self.step(who, Call::MarkDisable);
    }

    /// Tries to take the instance for the controller (the loop of `napi_disable`): sets SCHED and NPSVC and clears THREADED;
    /// the place becomes `Control(who)`. Returns false, and changes nothing, if SCHED or NPSVC is set.
    pub fn take_disable(&mut self, who: u32) -> bool
        requires controller { who ≡ serial_controller self.old }
        requires marked { (state_of self.old).flags.disable ≡ true }
        ensures step { SerialSteps self.old who (operation.TakeDisable result) self.new }
        ensures reply { result ≡ take_disable_reply (state_of self.old) }
    {
        let Operation::TakeDisable(taken) = self.step(who, Call::TakeDisable) else {
            unreachable!()
        };
        taken
    }

    /// Clears the mark of a pending disable (`napi_disable` clears DISABLE last).
    pub fn unmark(&mut self, who: u32)
        requires controller { who ≡ serial_controller self.old }
        requires place { (state_of self.old).place ≡ Place.Control who }
        requires marked { (state_of self.old).flags.disable ≡ true }
        ensures { SerialSteps self.old who operation.Unmark self.new }
    {
        self.step(who, Call::Unmark);
    }

    /// Enables a disabled instance (`napi_enable`): clears SCHED and NPSVC, and sets THREADED if `threaded` is true. MISSED,
    /// and otherwise THREADED, keep their value.
    pub fn enable(&mut self, who: u32, threaded: bool)
        requires controller { who ≡ serial_controller self.old }
        requires place { (state_of self.old).place ≡ Place.Control who }
        requires unmarked { (state_of self.old).flags.disable ≡ false }
        ensures { SerialSteps self.old who (operation.Enable threaded) self.new }
    {
        self.step(who, Call::Enable(threaded));
    }

    /// Sets or clears THREADED, in any state and by any caller (`dev_set_threaded`).
    pub fn set_threaded(&mut self, threaded: bool)
        ensures step { (who : ℕ) → SerialSteps self.old who (operation.SetThreaded threaded)
            self.new }
        ensures controller { serial_controller self.new ≡ serial_controller self.old }
    {
        self.step(0, Call::SetThreaded(threaded));
    }
}
