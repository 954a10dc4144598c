//! The settings of a device, and what the driver counts for them.

ghost use Rattle.std.specs.Prelude.{◌≡◌, true, IfOk, replicate};
ghost use Rattle.driver_core.specs.Pacing.{paced_after, paced_count, deferrals_at, defers, empty_at, is_paced, new_pacing, plain_settings, keeps_polling};
ghost use Rattle.driver_core.specs.Device.{after_driver_poll, completes, stage_is_listed};

use crate::device::{DriverDevice, Rearm, Stage};
use poll_runs::Next;
use std::alloc::{AllocError, Global};

/// The settings of a device.
#[derive(Clone, Copy, Debug, PartialEq, Eq)]
pub struct DeviceSettings {
    /// The packets that one poll takes at most (`netif_napi_add_weight`): 1 to the driver's weight.
    pub weight: u32,
    /// How many completions in a row defer the card's interrupt after the last poll with packets (`napi_defer_hard_irqs`).
    pub defer_hard_irqs: u32,
    /// For how many nanoseconds such a completion defers it (`gro_flush_timeout`); 0 turns deferral off.
    pub gro_flush_timeout: u64,
    /// The empty polls in a row after which busy polling ends; 0 turns it off.
    pub empty_polls: u32,
}

impl DeviceSettings {
    /// Returns the settings of a device with this weight, whose interrupt isn't deferred and which isn't busy polled.
    pub fn of_weight(weight: u32) -> DeviceSettings
        ensures { result ≡ plain_settings weight }
    {
        DeviceSettings {
            weight,
            defer_hard_irqs: 0,
            gro_flush_timeout: 0,
            empty_polls: 0,
        }
    }

    // Returns whether its interrupt may be deferred, or it is busy polled.
    #[inline(always)]
    fn is_paced(&self) -> bool
        ensures { result ≡ is_paced self.now }
    {
        self.gro_flush_timeout > 0 || self.empty_polls > 0
    }
}

/// The settings of a device, and its counts of deferred completions and of empty polls.
#[derive(Clone, Copy, Debug, PartialEq, Eq)]
pub struct Pacing {
    /// The settings.
    pub settings: DeviceSettings,
    /// How often the interrupt may still be deferred (`napi_struct.defer_hard_irqs_count`).
    pub deferrals: u32,
    /// The empty polls in a row, while the device is busy polled; saturates.
    pub empty: u32,
}

impl Pacing {
    // Returns the counts of a device with these settings that wasn't polled yet.
    pub(crate) fn new(settings: DeviceSettings) -> Pacing
        ensures { result ≡ new_pacing settings }
    {
        Pacing {
            settings,
            deferrals: 0,
            empty: 0,
        }
    }

    // Returns how often the interrupt may be deferred, if this poll completes.
    #[inline(always)]
    fn deferrals_at(&self, packets: u32) -> u32
        ensures { result ≡ deferrals_at packets self.now }
    {
        if packets == 0 {
            self.deferrals
        } else {
            self.settings.defer_hard_irqs
        }
    }

    // Returns the empty polls in a row, with this one.
    #[inline(always)]
    fn empty_at(&self, packets: u32) -> u32
        ensures { result ≡ empty_at packets self.now }
    {
        if packets == 0 {
            self.empty.saturating_add(1)
        } else {
            0
        }
    }

    // Returns whether the interrupt is deferred, if this poll completes.
    #[inline(always)]
    pub(crate) fn defers(&self, packets: u32) -> bool
        ensures { result ≡ defers packets self.now }
    {
        self.settings.gro_flush_timeout > 0 && self.deferrals_at(packets) > 0
    }

    // Returns whether the instance stays scheduled after a poll of this many packets.
    #[inline(always)]
    pub(crate) fn keeps_polling(&self, packets: u32) -> bool
        ensures { result ≡ keeps_polling packets self.now }
    {
        packets == self.settings.weight || self.empty_at(packets) < self.settings.empty_polls
    }

    // Returns the device after a poll of this many packets, and how the poll ends. The settings decide only if the fetch left the card
    // masked.
    #[inline(always)]
    pub(crate) fn end_poll(
        &self,
        device: DriverDevice,
        packets: u32,
        rearm: Rearm,
    ) -> (DriverDevice, Next)
        requires { stage_is_listed device.stage ≡ true }
        ensures { result ≡ after_driver_poll (keeps_polling packets self.now)
            (defers packets self.now) rearm device }
    {
        match rearm {
            Rearm::No => {
                device.polled(self.keeps_polling(packets), self.defers(packets), Rearm::No)
            }
            Rearm::Empty => {
                if device.stage == Stage::Listed(false) && !device.missed {
                    return (DriverDevice::ARMED, Next::Gone);
                }
                device.polled(false, false, Rearm::Empty)
            }
            Rearm::More => device.polled(false, false, Rearm::More),
        }
    }

    // Counts a poll of this many packets from this device, if the settings need the counts.
    #[inline(always)]
    pub(crate) fn count(&mut self, device: DriverDevice, packets: u32, rearm: Rearm)
        ensures { self.new ≡ paced_after (completes (keeps_polling packets self.old) rearm device)
            packets self.old }
    {
        if self.settings.is_paced() {
            self.count_paced(device, packets, rearm);
        }
    }

    // Counts a poll of this many packets from this device.
    #[cold]
    #[inline(never)]
    fn count_paced(&mut self, device: DriverDevice, packets: u32, rearm: Rearm)
        ensures { self.new ≡ paced_count (completes (keeps_polling packets self.old) rearm device)
            packets self.old }
    {
        if device.completes(self.keeps_polling(packets), rearm) {
            self.deferrals = self.deferrals_at(packets).saturating_sub(1);
            self.empty = 0;
            return;
        }
        self.empty = self.empty_at(packets);
    }
}

// Returns the counts of this many devices with these settings.
pub(crate) fn new_pacings(
    alloc: Global,
    devices: usize,
    settings: DeviceSettings,
) -> Result<Vec<Pacing>, AllocError>
    ensures { IfOk result (λ pacings. pacings.items ≡ replicate devices (new_pacing settings)) }
{
    Ok(vec![in alloc; Pacing::new(settings); devices]?)
}
