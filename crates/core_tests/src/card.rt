//! A test bench: a card, its driver, and the thread that does what the driver asks for.

ghost use Rattle.std.specs.Prelude.{◌≡◌, ◌≤◌, length, IfOk};
ghost use Rattle.driver_core.specs.Driver.{driver_devices};

use driver_core::{DeviceSettings, Driver, DriverDevice, Limits, Pacing, Rearm, Stage, Todo, What};
use std::alloc::{AllocError, Global};

/// A model of a card. It interrupts when a packet arrives, and loses that interrupt while it is masked.
#[derive(Clone, Copy, PartialEq, Eq, PartialOrd, Ord, Debug)]
pub struct TestCard {
    /// The packets that are still to arrive.
    pub to_come: u32,
    /// The packets that the card has.
    pub packets: u32,
    /// Whether its interrupt is masked.
    pub masked: bool,
    /// Whether it has raised an interrupt that isn't reported to the driver yet.
    pub interrupting: bool,
    /// Whether the device's timer is set.
    pub timer: bool,
}

/// What the thread is doing: what the driver asked for, done or not yet.
#[derive(Clone, Copy, PartialEq, Eq, PartialOrd, Ord)]
pub enum Hand {
    /// Nothing: it calls the driver next.
    Free,
    /// It has to mask the card.
    ToMask,
    /// It has to unmask the card.
    ToUnmask,
    /// It has to look at the card.
    ToLook,
    /// It has to set the timer.
    ToSetTimer,
    /// It has to take packets from the card, at most this many.
    ToFetch(u32),
    /// It has to mask the card first.
    ToMaskFirst(u32),
    /// It has masked the card.
    Masked,
    /// It has unmasked the card.
    Unmasked,
    /// It has set the timer.
    TimerSet,
    /// It has looked at the card; true if it saw packets.
    Saw(bool),
    /// It has taken this many packets.
    Took(u32),
    /// It has taken this many packets, and unmasked the card.
    Rearming(u32),
    /// It has also looked at the card then; true if it saw packets.
    Rearmed(u32, bool),
}

/// One step of the card or of the thread, or an open or stop of the device. The steps may come in any order.
#[derive(Clone, Copy, PartialEq)]
pub enum DriverStep {
    /// A packet arrives at the card.
    Arrive,
    /// The card's interrupt is reported to the driver.
    Interrupt,
    /// The timer expires, which is reported to the driver.
    Expire,
    /// The thread calls the driver, which returns what to do.
    Say,
    /// The thread does that at the card.
    Act,
    /// After a fetch the thread also unmasks the card; then it looks at it.
    Rearm,
    /// The thread reports that it did it.
    Report,
    /// The thread reports that it did it, with the card's interrupt, and the driver returns what to do next, in one call.
    Turn,
    /// The thread forgets what it was doing, done or not, and calls the driver again.
    Forget,
    /// The device is opened.
    Open,
    /// The device is stopped.
    Stop,
}

/// All steps.
pub const STEPS: [DriverStep; 11] = [
    DriverStep::Arrive,
    DriverStep::Interrupt,
    DriverStep::Expire,
    DriverStep::Say,
    DriverStep::Act,
    DriverStep::Rearm,
    DriverStep::Report,
    DriverStep::Turn,
    DriverStep::Forget,
    DriverStep::Open,
    DriverStep::Stop,
];

/// The counts of a run so far.
#[derive(Clone, Copy, PartialEq, Eq, PartialOrd, Ord)]
pub struct RunSoFar {
    /// The polls of the run.
    pub polls: u32,
    /// The packets of these polls.
    pub packets: u32,
    /// Whether a poll used its whole weight, so that its device is polled again.
    pub repolled: bool,
}

impl RunSoFar {
    /// The counts of a run before its first poll.
    const NONE: RunSoFar = RunSoFar {
        polls: 0,
        packets: 0,
        repolled: false,
    };
}

/// The state of a test bench. Two benches in the same state behave alike from then on.
#[derive(Clone, Copy, PartialEq, Eq, PartialOrd, Ord)]
pub struct DriverState {
    device: DriverDevice,
    deferrals: u32,
    empty: u32,
    card: TestCard,
    hand: Hand,
    run: Option<RunSoFar>,
    stops: u32,
    sleeps: bool,
}

/// A driver of one device, the device's card, and the thread that drives it.
#[derive(Drop)]
pub struct DriverBench {
    /// The driver under test.
    pub driver: Driver,
    /// The card.
    pub card: TestCard,
    /// What the thread is doing.
    pub hand: Hand,
    // The number of the driver's last request, and an older one.
    number: u64,
    old: u64,
    /// How often the device may still be stopped.
    pub stops: u32,
    /// The packets that were taken from the card.
    pub taken: u32,
    /// The counts of the run in progress, if there is one.
    pub run: Option<RunSoFar>,
    /// Whether the driver returned that there is nothing to do, and nothing has happened since.
    pub sleeps: bool,
    ghost one: { length (driver_devices driver) ≡ 1 },
}

impl DriverBench {
    /// Returns a bench with a closed device. This many packets will arrive, and the device may be stopped this many times.
    pub fn new(
        alloc: Global,
        limits: Limits,
        settings: DeviceSettings,
        to_come: u32,
        stops: u32,
    ) -> Result<DriverBench, AllocError>
        requires { (1 ≤ settings.weight) × (settings.weight ≤ limits.weight) }
    {
        let mut driver = Driver::new(alloc, 1, limits, 0)?;
        // a new device is closed, so that its settings may be set
        let _ = driver.set(0, settings);
        Ok(DriverBench {
            driver,
            card: TestCard {
                to_come,
                packets: 0,
                masked: true,
                interrupting: false,
                timer: false,
            },
            hand: Hand::Free,
            number: 0,
            old: 0,
            stops,
            taken: 0,
            run: None,
            sleeps: false,
        })
    }

    fn arrive(&mut self) -> bool {
        if self.card.to_come == 0 || self.card.packets == u32::MAX {
            return false;
        }
        self.card.to_come -= 1;
        self.card.packets += 1;
        self.card.interrupting |= !self.card.masked;
        true
    }

    fn interrupt(&mut self) -> bool {
        if !self.card.interrupting {
            return false;
        }
        self.card.interrupting = false;
        self.driver.interrupt(0);
        true
    }

    fn expire(&mut self) -> bool {
        if !self.card.timer {
            return false;
        }
        self.card.timer = false;
        self.driver.timer(0);
        true
    }

    fn say(&mut self) -> bool {
        if self.hand != Hand::Free || self.sleeps {
            return false;
        }
        let masks = self.driver.polled().is_some();
        let todo = self.driver.next();
        self.heed(todo, masks);
        true
    }

    // The thread has to do this now; a fetch may have to mask the card first.
    fn heed(&mut self, todo: Todo, masks: bool) {
        if todo.number != self.number {
            self.old = self.number;
            self.number = todo.number;
        }
        match todo.what {
            What::Sleep(_) => {
                self.sleeps = true;
                self.run = None;
            }
            What::Ended(_) => self.run = None,
            What::Mask(_) => self.hand = Hand::ToMask,
            What::Unmask(_) => self.hand = Hand::ToUnmask,
            What::Look(_) => self.hand = Hand::ToLook,
            What::Timer(_, _) => self.hand = Hand::ToSetTimer,
            What::Fetch(_, most) => {
                self.hand = if masks {
                    Hand::ToMaskFirst(most)
                } else {
                    Hand::ToFetch(most)
                };
                self.run = self.run.or(Some(RunSoFar::NONE));
            }
        }
    }

    fn act(&mut self) -> bool {
        self.hand = match self.hand {
            Hand::ToMask => {
                self.card.masked = true;
                Hand::Masked
            }
            Hand::ToUnmask => {
                self.card.masked = false;
                Hand::Unmasked
            }
            Hand::ToLook => Hand::Saw(self.card.packets > 0),
            Hand::ToSetTimer => {
                self.card.timer = true;
                Hand::TimerSet
            }
            Hand::ToMaskFirst(most) => {
                self.card.masked = true;
                Hand::ToFetch(most)
            }
            Hand::ToFetch(most) => {
                let taken = self.card.packets.min(most);
                self.card.packets -= taken;
                Hand::Took(taken)
            }
            _ => return false,
        };
        true
    }

    fn rearm(&mut self) -> bool {
        self.hand = match self.hand {
            Hand::Took(taken) => {
                self.card.masked = false;
                Hand::Rearming(taken)
            }
            Hand::Rearming(taken) => Hand::Rearmed(taken, self.card.packets > 0),
            _ => return false,
        };
        true
    }

    // Returns the packets, and whether the card was unmasked, that the thread has to report, if it did what it had to.
    fn outcome(&self) -> Option<(u32, Rearm)> {
        match self.hand {
            Hand::Masked | Hand::Unmasked | Hand::TimerSet => Some((0, Rearm::No)),
            Hand::Saw(has_more) => Some((u32::from(has_more), Rearm::No)),
            Hand::Took(taken) => Some((taken, Rearm::No)),
            Hand::Rearmed(taken, false) => Some((taken, Rearm::Empty)),
            Hand::Rearmed(taken, true) => Some((taken, Rearm::More)),
            _ => None,
        }
    }

    fn report(&mut self) -> bool {
        let Some((packets, rearm)) = self.outcome() else {
            return false;
        };
        self.count_fetch(packets, rearm);
        // the report may not be due any more, which is no error here
        let _ = self.driver.done(self.number, packets, rearm);
        self.hand = Hand::Free;
        true
    }

    fn turn(&mut self) -> bool {
        let (number, packets, rearm) = match self.outcome() {
            Some((packets, rearm)) => (self.number, packets, rearm),
            None => (0, 0, Rearm::No),
        };
        let rests = self.sleeps && !self.card.interrupting;
        if number == 0 && (self.hand != Hand::Free || rests) {
            return false;
        }
        self.count_fetch(packets, rearm);
        let interrupts = u64::from(self.card.interrupting);
        self.card.interrupting = false;
        self.hand = Hand::Free;
        self.sleeps = false;
        let (_, mask, todo) = self.driver.turn(interrupts, number, packets, rearm);
        self.heed(todo, mask.is_some());
        true
    }

    // Counts a poll that is reported, if a fetch is.
    fn count_fetch(&mut self, taken: u32, rearm: Rearm) {
        if !matches!(self.hand, Hand::Took(_) | Hand::Rearmed(_, _)) {
            return;
        }
        let pacing = self.driver.pacing(0);
        let empty = if taken == 0 {
            pacing.empty.saturating_add(1)
        } else {
            0
        };
        let goes_on = taken == pacing.settings.weight || empty < pacing.settings.empty_polls;
        let is_open = self.driver.device(0).stage == Stage::Listed(false);
        let stays = is_open && goes_on && rearm == Rearm::No;
        self.taken = self.taken.saturating_add(taken);
        if let Some(run) = &mut self.run {
            run.polls = run.polls.saturating_add(1);
            run.packets = run.packets.saturating_add(taken);
            run.repolled |= stays;
        }
    }

    fn forget(&mut self) -> bool {
        // a fetch that has unmasked the card has to be reported
        if matches!(
            self.hand,
            Hand::Free | Hand::Rearming(_) | Hand::Rearmed(_, _)
        ) {
            return false;
        }
        self.hand = Hand::Free;
        true
    }

    /// Reports under an old number, which isn't due any more, if there is one. Returns whether the report was rejected and
    /// changed nothing.
    pub fn refuses_old(&mut self) -> bool {
        if self.old == 0 || self.old == self.number {
            return true;
        }
        let before = self.driver.device(0);
        self.driver.done(self.old, 1, Rearm::No).is_err() && self.driver.device(0) == before
    }

    fn open(&mut self) -> bool {
        self.driver.open(0).is_ok()
    }

    fn stop(&mut self) -> bool {
        if self.stops == 0 || self.driver.stop(0).is_err() {
            return false;
        }
        self.stops -= 1;
        true
    }

    /// Returns the state of the bench. The packets taken needn't be part of it: they are those that are neither in the card nor
    /// still to come.
    pub fn state(&self) -> DriverState {
        let Pacing {
            deferrals,
            empty,
            ..
        } = self.driver.pacing(0);
        DriverState {
            device: self.driver.device(0),
            deferrals,
            empty,
            card: self.card,
            hand: self.hand,
            run: self.run,
            stops: self.stops,
            sleeps: self.sleeps,
        }
    }

    /// Makes a step. Returns whether it could be made.
    pub fn make(&mut self, step: DriverStep) -> bool {
        let made = match step {
            DriverStep::Arrive => self.arrive(),
            DriverStep::Interrupt => self.interrupt(),
            DriverStep::Expire => self.expire(),
            DriverStep::Say => return self.say(),
            DriverStep::Act => self.act(),
            DriverStep::Rearm => self.rearm(),
            DriverStep::Report => self.report(),
            DriverStep::Turn => return self.turn(),
            DriverStep::Forget => self.forget(),
            DriverStep::Open => self.open(),
            DriverStep::Stop => self.stop(),
        };
        self.sleeps &= !made || step == DriverStep::Arrive;
        made
    }
}
