//! One device of a driver.

ghost use Rattle.std.specs.Prelude.{◌≡◌};

use napi_model::{Kind, Prep};
use poll_runs::Next;

/// The stage of a device: the state of its instance (`struct napi_struct`), and whether its card's interrupt is masked.
#[derive(Clone, Copy, PartialEq, Eq, PartialOrd, Ord, Debug)]
pub enum Stage {
    /// Disabled, and the card is masked (after `napi_disable`).
    Closed,
    /// A poll was requested and granted. The card has to be masked; then the device goes on the poll list. True if the device
    /// is being stopped.
    Masking(bool),
    /// The device was stopped while no poll was pending. The card has to be masked; then the device is closed.
    Closing,
    /// On the poll list or being polled; the card is masked. True if the device is being stopped.
    Listed(bool),
    /// No poll is pending, and the card has to be unmasked: after the last poll, or after an open.
    Unmasking,
    /// The card was unmasked, and has to be looked at: packets that arrived before the unmask raised no interrupt.
    Looking,
    /// The card was unmasked and then looked at, and had no packets: the next packet raises an interrupt.
    Armed,
    /// No poll is pending, and the interrupt is deferred: the card is masked, and the device's timer has to be set.
    Deferring,
    /// The interrupt is deferred, and the timer was set: its expiry leads to the next poll.
    Deferred,
}

/// An action that has to be done at the card of a device, or with its timer.
#[derive(Clone, Copy, PartialEq, Eq, PartialOrd, Ord, Debug)]
pub enum Chore {
    /// Mask the card's interrupt.
    Mask,
    /// Unmask the card's interrupt.
    Unmask,
    /// Look whether the card has packets.
    Look,
    /// Set the device's timer.
    Timer,
}

/// Whether a fetch also unmasked the card and then looked at it.
#[derive(Clone, Copy, PartialEq, Eq, PartialOrd, Ord, Debug)]
pub enum Rearm {
    /// It didn't: the card is still masked.
    No,
    /// It did, and the card had no packets.
    Empty,
    /// It did, and the card had packets.
    More,
}

/// One device of a driver.
#[derive(Clone, Copy, PartialEq, Eq, PartialOrd, Ord, Debug)]
pub struct DriverDevice {
    /// Its stage.
    pub stage: Stage,
    /// A poll was requested while one was pending (`NAPI_STATE_MISSED`): another poll follows.
    pub missed: bool,
}

impl DriverDevice {
    ghost use Rattle.std.specs.Prelude.{◌≡◌, ◌↔◌, IsTrue, true};
    ghost use Rattle.driver_core.specs.Device.{in_stage, chore_at, completed_at, completes, did, after_interrupt, after_timer, masks_for_poll, stage_is_listed, after_look, masked, timer_set, after_open, after_driver_poll, after_stop, rearmed_at, unmasked, is_stopping, MayStop};
    ghost use Rattle.driver_core.specs.Steps.{stage_is_scheduled, napi_of};
    ghost use Rattle.napi_model.specs.Step.{schedule_reply};

    /// A new device is closed.
    pub const NEW: DriverDevice = DriverDevice {
        stage: Stage::Closed,
        missed: false,
    };

    // At rest, with its card unmasked.
    pub(crate) const ARMED: DriverDevice = DriverDevice {
        stage: Stage::Armed,
        missed: false,
    };

    // Returns the same device, at another stage.
    #[inline(always)]
    fn to(self, stage: Stage) -> DriverDevice
        ensures { result ≡ in_stage stage self.missed }
    {
        DriverDevice { stage, ..self }
    }

    /// Returns the action that has to be done at its card, or `None` if there is none.
    #[inline(always)]
    pub fn chore(self) -> Option<Chore>
        ensures { result ≡ chore_at self.stage }
    {
        match self.stage {
            Stage::Masking(_) | Stage::Closing => Some(Chore::Mask),
            Stage::Unmasking => Some(Chore::Unmask),
            Stage::Looking => Some(Chore::Look),
            Stage::Deferring => Some(Chore::Timer),
            Stage::Closed | Stage::Listed(_) | Stage::Armed | Stage::Deferred => None,
        }
    }

    // Returns whether it is on the poll list, or being polled.
    #[inline(always)]
    pub(crate) fn is_listed(self) -> bool
        ensures { result ≡ stage_is_listed self.stage }
    {
        matches!(&self.stage, Stage::Listed(_))
    }

    // Returns whether its card has to be masked for a poll.
    #[inline(always)]
    pub(crate) fn masks_for_poll(self) -> bool
        ensures { result ≡ masks_for_poll self.stage }
    {
        matches!(&self.stage, Stage::Masking(_))
    }

    // Returns whether it may be stopped: it is neither closed nor being stopped.
    pub(crate) fn may_stop(self) -> bool
        ensures { IsTrue result ↔ MayStop self.stage }
    {
        match self.stage {
            Stage::Masking(stopping) | Stage::Listed(stopping) => !stopping,
            Stage::Closed | Stage::Closing => false,
            Stage::Unmasking | Stage::Looking | Stage::Armed | Stage::Deferring | Stage::Deferred =>
                true,
        }
    }

    /// Returns whether a poll was requested and isn't completed (`NAPI_STATE_SCHED`); also for a closed device, as in the kernel.
    pub fn is_scheduled(self) -> bool
        ensures { result ≡ stage_is_scheduled self.stage }
    {
        matches!(
            &self.stage,
            Stage::Closed | Stage::Masking(_) | Stage::Listed(_)
        )
    }

    /// Returns whether it is being stopped (`NAPI_STATE_DISABLE`).
    pub fn is_stopping(self) -> bool
        ensures { result ≡ is_stopping self.stage }
    {
        matches!(
            &self.stage,
            Stage::Closing | Stage::Masking(true) | Stage::Listed(true)
        )
    }

    // Returns the device after an interrupt of its card.
    #[inline(always)]
    pub(crate) fn interrupted(self) -> (DriverDevice, Prep)
        ensures device { result.0 ≡ after_interrupt self }
        ensures reply { result.1 ≡ schedule_reply (napi_of self) }
    {
        match self.stage {
            Stage::Closed | Stage::Masking(false) | Stage::Listed(false) => {
                let missed = DriverDevice {
                    missed: true,
                    ..self
                };
                (missed, Prep::Missed)
            }
            Stage::Masking(true) | Stage::Listed(true) | Stage::Closing => (self, Prep::Disabled),
            Stage::Unmasking | Stage::Looking | Stage::Armed | Stage::Deferring | Stage::Deferred =>
                (self.to(Stage::Masking(false)), Prep::Granted),
        }
    }

    // Returns the device after its timer expired.
    pub(crate) fn timed_out(self) -> DriverDevice
        ensures { result ≡ after_timer self }
    {
        match self.stage {
            Stage::Deferring | Stage::Deferred => self.to(Stage::Listed(false)),
            Stage::Unmasking | Stage::Looking | Stage::Armed => self.to(Stage::Masking(false)),
            _ => self,
        }
    }

    // Returns the device after its timer was set.
    #[inline(always)]
    fn timer_set(self) -> DriverDevice
        ensures { result ≡ timer_set self }
    {
        if self.stage == Stage::Deferring {
            return self.to(Stage::Deferred);
        }
        self
    }

    // Returns the device after its card was masked.
    #[inline(always)]
    fn masked(self) -> DriverDevice
        ensures { result ≡ masked self }
    {
        match self.stage {
            Stage::Masking(stopping) => self.to(Stage::Listed(stopping)),
            Stage::Closing => self.to(Stage::Closed),
            _ => self,
        }
    }

    // Returns the device after its card was unmasked.
    #[inline(always)]
    fn unmasked(self) -> DriverDevice
        ensures { result ≡ unmasked self }
    {
        if self.stage == Stage::Unmasking {
            return self.to(Stage::Looking);
        }
        self
    }

    // Returns the device after its card was looked at; `has_more` says whether the card had packets.
    #[inline(always)]
    fn looked(self, has_more: bool) -> DriverDevice
        ensures { result ≡ after_look has_more self }
    {
        if self.stage != Stage::Looking {
            return self;
        }
        self.to(if has_more {
            Stage::Masking(false)
        } else {
            Stage::Armed
        })
    }

    // Returns the device after the action was done; for a look, `has_more` says whether the card had packets.
    #[inline(always)]
    pub(crate) fn did(self, chore: Chore, has_more: bool) -> DriverDevice
        ensures { result ≡ did chore has_more self }
    {
        match chore {
            Chore::Mask => self.masked(),
            Chore::Unmask => self.unmasked(),
            Chore::Look => self.looked(has_more),
            Chore::Timer => self.timer_set(),
        }
    }

    // Returns the device after its instance was completed, and how that ends the poll.
    #[inline(always)]
    fn completed(self, stopping: bool, defers: bool) -> (DriverDevice, Next)
        ensures { result ≡ completed_at defers stopping self.missed }
    {
        if self.missed {
            let listed = DriverDevice {
                stage: Stage::Listed(stopping),
                missed: false,
            };
            return (listed, Next::Again(Kind::List));
        }
        let stage = if stopping {
            Stage::Closed
        } else if defers {
            Stage::Deferring
        } else {
            Stage::Unmasking
        };
        (self.to(stage), Next::Gone)
    }

    // Returns the device after a poll whose fetch unmasked the card and then looked at it.
    #[inline(always)]
    fn rearmed(self, stopping: bool, has_more: bool) -> DriverDevice
        ensures { result ≡ rearmed_at has_more stopping self.missed }
    {
        let stage = if self.missed || has_more && !stopping {
            Stage::Masking(stopping)
        } else if stopping {
            Stage::Closing
        } else {
            Stage::Armed
        };
        DriverDevice {
            stage,
            missed: false,
        }
    }

    // Returns the device after a poll, and how the poll ends. `stays` says whether the instance stays scheduled, `defers` whether the
    // interrupt is deferred if it doesn't.
    #[inline(always)]
    pub(crate) fn polled(self, stays: bool, defers: bool, rearm: Rearm) -> (DriverDevice, Next)
        requires { stage_is_listed self.stage ≡ true }
        ensures { result ≡ after_driver_poll stays defers rearm self }
    {
        let stopping = self.stage == Stage::Listed(true);
        match rearm {
            Rearm::No => {
                if stays && !stopping {
                    return (self, Next::Repoll);
                }
                self.completed(stopping, defers)
            }
            Rearm::Empty => (self.rearmed(stopping, false), Next::Gone),
            Rearm::More => (self.rearmed(stopping, true), Next::Gone),
        }
    }

    // Returns whether such a poll completes the instance.
    #[inline(always)]
    pub(crate) fn completes(self, stays: bool, rearm: Rearm) -> bool
        ensures { result ≡ completes stays rearm self }
    {
        !stays || rearm != Rearm::No || self.is_stopping()
    }

    // Returns the device after it was opened.
    pub(crate) fn opened(self) -> DriverDevice
        ensures { result ≡ after_open self }
    {
        if self.stage == Stage::Closed {
            return self.to(Stage::Unmasking);
        }
        self
    }

    // Returns the device after it was stopped.
    pub(crate) fn stopped(self) -> DriverDevice
        ensures { result ≡ after_stop self }
    {
        match self.stage {
            Stage::Masking(_) => self.to(Stage::Masking(true)),
            Stage::Listed(_) => self.to(Stage::Listed(true)),
            Stage::Unmasking | Stage::Looking | Stage::Armed | Stage::Deferring | Stage::Deferred =>
                self.to(Stage::Closing),
            Stage::Closed | Stage::Closing => self,
        }
    }
}
