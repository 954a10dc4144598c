//! The state of an instance, and the table of its steps.

use crate::{Call, Done, Event, Operation, Prep};

/// The flags of an instance that `include/linux/netdevice.h` names `NAPI_STATE_..`.
#[derive(Clone, Copy, PartialEq, Eq, Debug)]
pub struct Flags {
    /// A poll is requested or in progress, or the instance is disabled (`NAPI_STATE_SCHED`).
    pub sched: bool,
    /// A poll was requested again while SCHED was set (`NAPI_STATE_MISSED`).
    pub missed: bool,
    /// A disable is pending (`NAPI_STATE_DISABLE`).
    pub disable: bool,
    /// The instance is disabled (`NAPI_STATE_NPSVC`; the kernel's netpoll uses the bit too).
    pub npsvc: bool,
    /// The instance is busy polled (`NAPI_STATE_IN_BUSY_POLL`).
    pub in_busy_poll: bool,
    /// The instance is polled by its own thread (`NAPI_STATE_THREADED`).
    pub threaded: bool,
    /// The instance was scheduled on its thread, which hasn't completed it since (`NAPI_STATE_SCHED_THREADED`).
    pub sched_threaded: bool,
}

impl Flags {
    ghost use Rattle.std.specs.Prelude.{◌≡◌, ◌↔◌, IsTrue};
    ghost use Rattle.napi_model.specs.Step.{MayBusyTake, flags_after};

    /// No flag is set.
    pub const NONE: Flags = Flags {
        sched: false,
        missed: false,
        disable: false,
        npsvc: false,
        in_busy_poll: false,
        threaded: false,
        sched_threaded: false,
    };

    /// Returns whether an instance with these flags may be taken to busy poll it: none of DISABLE, SCHED and IN_BUSY_POLL is
    /// set (`napi_busy_loop`, the test before its `cmpxchg`).
    pub fn may_busy_take(self) -> bool
        ensures { IsTrue result ↔ MayBusyTake self }
    {
        !self.disable && !self.sched && !self.in_busy_poll
    }

    /// Returns the flags after an operation; those that it doesn't name keep their value.
    #[inline]
    pub fn after(self, operation: Operation) -> Flags
        ensures { result ≡ flags_after operation self }
    {
        let mut flags = self;
        match operation {
            Operation::Schedule(Prep::Granted) => flags.sched = true,
            Operation::Schedule(Prep::Missed) => flags.missed = true,
            Operation::Hand(Kind::Thread) => flags.sched_threaded = true,
            Operation::Complete(Done::Again) => {
                flags.missed = false;
                flags.sched_threaded = false;
            }
            Operation::Complete(Done::Released) => {
                flags.sched = false;
                flags.sched_threaded = false;
            }
            Operation::BusyTake => {
                flags.sched = true;
                flags.in_busy_poll = true;
            }
            Operation::BusyStop => {
                flags.in_busy_poll = false;
                flags.missed = false;
            }
            Operation::MarkDisable => flags.disable = true,
            Operation::TakeDisable(true) => {
                flags.sched = true;
                flags.npsvc = true;
                flags.threaded = false;
            }
            Operation::Unmark => flags.disable = false,
            Operation::Enable(threaded) => {
                flags.sched = false;
                flags.npsvc = false;
                flags.threaded |= threaded;
            }
            Operation::SetThreaded(threaded) => flags.threaded = threaded,
            _ => {}
        }
        flags
    }
}

/// The queue for a scheduled instance.
#[derive(Clone, Copy, PartialEq, Eq, Debug)]
pub enum Kind {
    /// The poll list of the softirq (`____napi_schedule`, `list_add_tail`).
    List,
    /// The instance's own thread (`napi_threaded_poll`).
    Thread,
}

/// What the state word shows: the flags, and in which queue the instance waits until it is taken.
#[derive(Clone, Copy, PartialEq, Eq, Debug)]
pub struct Seen {
    /// The flags (`struct napi_struct`, `state`).
    pub flags: Flags,
    /// The queue in which the instance waits; `None` if it isn't queued, or was taken.
    pub handed: Option<Kind>,
}

impl Seen {
    ghost use Rattle.std.specs.Prelude.{◌≡◌};
    ghost use Rattle.napi_model.specs.Step.{handed_after, seen_after};

    /// Returns what the word shows after an operation.
    #[inline]
    pub fn after(self, operation: Operation) -> Seen
        ensures { result ≡ seen_after operation self }
    {
        let handed = match operation {
            Operation::Hand(kind) => Some(kind),
            Operation::Take(_, true) => None,
            _ => self.handed,
        };
        Seen {
            flags: self.flags.after(operation),
            handed,
        }
    }
}

/// The place of an instance: the queue in which it waits, or the number of the caller that owns it. The state word doesn't
/// contain the number.
#[derive(Clone, Copy, PartialEq, Eq, Debug)]
pub enum Place {
    /// Enabled, and no poll is requested.
    Nobody,
    /// The caller was granted the poll, and has to queue the instance.
    Granted(u32),
    /// On the poll list.
    Listed,
    /// Waits for the instance's thread.
    ToThread,
    /// The caller polls it, and owns the poll context.
    Polling(u32),
    /// Disabled; the controller owns it.
    Control(u32),
}

impl Place {
    ghost use Rattle.std.specs.Prelude.{◌≡◌};
    ghost use Rattle.napi_model.specs.Step.{place_after};

    // Returns the place of the instance after an operation of a caller.
    fn after(self, caller: u32, operation: Operation) -> Place
        ensures { result ≡ place_after caller operation self }
    {
        match operation {
            Operation::Schedule(Prep::Granted) | Operation::Complete(Done::Again) => {
                Place::Granted(caller)
            }
            Operation::Hand(Kind::List) => Place::Listed,
            Operation::Hand(Kind::Thread) => Place::ToThread,
            Operation::Take(_, true) | Operation::BusyTake => Place::Polling(caller),
            Operation::Complete(Done::Released) | Operation::Enable(_) => Place::Nobody,
            Operation::TakeDisable(true) => Place::Control(caller),
            _ => self,
        }
    }
}

/// The whole state of an instance.
#[derive(Clone, Copy, PartialEq, Eq, Debug)]
pub struct State {
    /// The flags (`struct napi_struct`, `state`).
    pub flags: Flags,
    /// The place: who owns the instance, or where it waits.
    pub place: Place,
}

impl State {
    ghost use Rattle.std.specs.Prelude.{◌≡◌, ◌↔◌, IsTrue, IsFalse};
    ghost use Rattle.napi_model.specs.declared.event.Operation.{Operation};
    ghost use Rattle.napi_model.specs.declared.state.State.{State};
    ghost use Rattle.napi_model.specs.Step.{opening, idle, seen_of, seen_after, IsLegal, IsLegalBy, after, LegalStep, MayCall, call_of, reply_of};
    ghost use Rattle.napi_model.specs.Laws.{IsSound};

    /// Returns the state of a new instance: disabled, owned by its controller.
    pub fn opening(controller: u32) -> State
        ensures { result ≡ opening controller }
    {
        let flags = Flags {
            sched: true,
            npsvc: true,
            ..Flags::NONE
        };
        State {
            flags,
            place: Place::Control(controller),
        }
    }

    /// Returns the state that is enabled and not threaded, with no poll requested.
    pub fn idle() -> State
        ensures { result ≡ idle }
    {
        State {
            flags: Flags::NONE,
            place: Place::Nobody,
        }
    }

    /// Returns what the state word shows of this state.
    pub fn seen(self) -> Seen
        ensures { result ≡ seen_of self }
    {
        let handed = match self.place {
            Place::Listed => Some(Kind::List),
            Place::ToThread => Some(Kind::Thread),
            _ => None,
        };
        Seen {
            flags: self.flags,
            handed,
        }
    }

    /// Returns whether the event, with its reply, is a legal step from this state.
    pub fn is_legal(self, event: Event) -> bool
        ensures { IsTrue result ↔ IsLegal self event }
    {
        let caller = event.caller;
        let flags = self.flags;
        match event.operation {
            Operation::Look(seen) => self.seen() == seen,
            Operation::Schedule(Prep::Disabled) => flags.disable,
            Operation::Schedule(Prep::Granted) => !flags.disable && !flags.sched,
            Operation::Schedule(Prep::Missed) => !flags.disable && flags.sched,
            Operation::Hand(Kind::List) => {
                self.place == Place::Granted(caller)
                    || self.place == Place::Polling(caller) && !flags.in_busy_poll
            }
            Operation::Hand(Kind::Thread) => self.place == Place::Granted(caller),
            Operation::Take(Kind::List, taken) => taken == (self.place == Place::Listed),
            Operation::Take(Kind::Thread, taken) => taken == (self.place == Place::ToThread),
            Operation::Complete(Done::Again) => self.place == Place::Polling(caller)
                && flags.missed
                && !flags.in_busy_poll,
            Operation::Complete(Done::Released) => self.place == Place::Polling(caller)
                && !flags.missed
                && !flags.in_busy_poll,
            Operation::BusyTake => flags.may_busy_take(),
            Operation::Complete(Done::Held) | Operation::BusyStop => {
                self.place == Place::Polling(caller) && flags.in_busy_poll
            }
            Operation::MarkDisable => !flags.disable && !matches!(&self.place, Place::Control(_)),
            Operation::TakeDisable(taken) => flags.disable && taken != (flags.sched || flags.npsvc),
            Operation::Unmark => self.place == Place::Control(caller) && flags.disable,
            Operation::Enable(_) => self.place == Place::Control(caller) && !flags.disable,
            Operation::SetThreaded(_) => true,
        }
    }

    /// Returns the state after an event; flags that the event doesn't name keep their value.
    pub fn after(self, event: Event) -> State
        ensures state { result ≡ after self event }

        // A legal event has exactly one next state.
        ensures next { IsLegal self event → LegalStep self event result }
        ensures only { (other : State) → LegalStep self event other → other ≡ result }

        // The word before a legal event determines the word after it, though it doesn't contain the owner.
        ensures seen { IsSound self → IsLegal self event
            → seen_of result ≡ seen_after event.operation (seen_of self) }
    {
        State {
            flags: self.flags.after(event.operation),
            place: self.place.after(event.caller, event.operation),
        }
    }

    /// Returns whether a caller may make this call in this state. If it may not, no reply to the call is legal.
    pub fn may_call(self, caller: u32, call: Call) -> bool
        ensures may { IsTrue result ↔ MayCall caller call self }
        ensures none { IsFalse result → (o : Operation) → call_of o ≡ call
            → ¬ IsLegalBy caller o self }
    {
        let flags = self.flags;
        match call {
            Call::Hand(Kind::List) => self.place == Place::Granted(caller)
                || self.place == Place::Polling(caller) && !flags.in_busy_poll,
            Call::Hand(Kind::Thread) => self.place == Place::Granted(caller),
            Call::Complete => self.place == Place::Polling(caller),
            Call::BusyTake => flags.may_busy_take(),
            Call::BusyStop => self.place == Place::Polling(caller) && flags.in_busy_poll,
            Call::MarkDisable => !flags.disable && !matches!(&self.place, Place::Control(_)),
            Call::TakeDisable => flags.disable,
            Call::Unmark => self.place == Place::Control(caller) && flags.disable,
            Call::Enable(_) => self.place == Place::Control(caller) && !flags.disable,
            Call::Look | Call::Schedule | Call::Take(_) | Call::SetThreaded(_) => true,
        }
    }

    /// Returns the call with its reply: the only one that is legal in this state.
    pub fn answer(self, caller: u32, call: Call) -> Operation
        requires { MayCall caller call self }
        ensures answer { result ≡ reply_of call self }
        ensures legal { IsLegalBy caller result self }
        ensures only { (o : Operation) → call_of o ≡ call → IsLegalBy caller o self → o ≡ result }
    {
        let flags = self.flags;
        match call {
            Call::Look => Operation::Look(self.seen()),
            Call::Schedule if flags.disable => Operation::Schedule(Prep::Disabled),
            Call::Schedule if flags.sched => Operation::Schedule(Prep::Missed),
            Call::Schedule => Operation::Schedule(Prep::Granted),
            Call::Hand(kind) => Operation::Hand(kind),
            Call::Take(Kind::List) => Operation::Take(Kind::List, self.place == Place::Listed),
            Call::Take(Kind::Thread) => Operation::Take(
                Kind::Thread,
                self.place == Place::ToThread,
            ),
            Call::Complete if flags.in_busy_poll => Operation::Complete(Done::Held),
            Call::Complete if flags.missed => Operation::Complete(Done::Again),
            Call::Complete => Operation::Complete(Done::Released),
            Call::BusyTake => Operation::BusyTake,
            Call::BusyStop => Operation::BusyStop,
            Call::MarkDisable => Operation::MarkDisable,
            Call::TakeDisable => Operation::TakeDisable(!flags.sched && !flags.npsvc),
            Call::Unmark => Operation::Unmark,
            Call::Enable(threaded) => Operation::Enable(threaded),
            Call::SetThreaded(threaded) => Operation::SetThreaded(threaded),
        }
    }
}
