//! Interrupts, a report and a question in one call.

use crate::device::{Chore, Rearm};
use crate::devices::{clear_bit, lowest_bit};
use crate::driver::Driver;
use crate::place::{Nowhere, TodoPlace};
use crate::todo::{Refused, Todo};
use poll_runs::PollList;

impl Driver {
    ghost use Rattle.std.specs.Prelude.{◌≡◌, ◌≢◌, ◌≤◌, ◌<◌, length, Err};
    ghost use Rattle.driver_core.specs.declared.todo.Refused.TheVariants.{TooMany};
    ghost use Rattle.driver_core.specs.Device.{after_interrupt};
    ghost use Rattle.driver_core.specs.Driver.{device_of, driver_devices, AsksJoined, AwaitsNothing, IsTurn, JoinsMask, NextJoined, PutsDevice, ReportsInterrupts};

    // Reports the interrupt of a device, if there is one with this number.
    #[inline(always)]
    fn report_interrupt(&mut self, device: u32)
        ensures known { device < length (driver_devices self.old) → PutsDevice device
            (after_interrupt (device_of self.old device)) self.old self.new }
        ensures unknown { length (driver_devices self.old) ≤ device → self.new ≡ self.old }
    {
        if (device as usize) < self.len() {
            let _reply = self.interrupt(device);
        }
    }

    // Reports the interrupts of the devices whose bits are set; bits past the last device are left out.
    #[tactic(auto, using(crate::proofs::TurnFacts::none_reported))]
    #[inline(always)]
    fn report_interrupts(&mut self, interrupts: u64)
        ensures reports { ReportsInterrupts interrupts self.old self.new }
        ensures free { AwaitsNothing self.old → AwaitsNothing self.new }
        ensures len { length (driver_devices self.new) ≡ length (driver_devices self.old) }
    {
        if interrupts != 0 {
            self.report_each(interrupts);
        }
    }

    // The same, device by device.
    #[inline(always)]
    fn report_each(&mut self, interrupts: u64)
        ensures reports { ReportsInterrupts interrupts self.old self.new }
        ensures free { AwaitsNothing self.old → AwaitsNothing self.new }
        ensures len { length (driver_devices self.new) ≡ length (driver_devices self.old) }
    {
        let mut left = interrupts;
        for _ in 0..64u32 {
            if left == 0 {
                return;
            }
            let device = lowest_bit(left);
            left = clear_bit(left, device);
            self.report_interrupt(device);
        }
    }

    // If all that has to be done is to mask one card for a poll, no run is in progress, and nothing is on the list, counts it as masked, and
    // returns its device.
    #[tactic(auto, using(crate::proofs::ChoreFacts::mask_chore))]
    #[inline(always)]
    fn join(&mut self) -> Option<u32>
        requires free { AwaitsNothing self.old }
        ensures joins { JoinsMask result self.old self.new }
        ensures len { length (driver_devices self.new) ≡ length (driver_devices self.old) }
    {
        if self.runs || !self.list.is_empty() {
            return None;
        }
        let (device, before) = self.devices.only_mask()?;
        self.did(device, before, Chore::Mask, false);
        Some(device)
    }

    // Like `ask_into`; a mask is joined to the fetch that follows it. Returns the device whose card the action masks first.
    #[inline(always)]
    fn ask_joined_into<P: TodoPlace>(&mut self, place: &mut P) -> (Option<u32>, Todo)
        requires free { AwaitsNothing self.old }
        ensures asks { AsksJoined self.old result.0 result.1 self.new }
        ensures len { length (driver_devices self.new) ≡ length (driver_devices self.old) }
        ensures takes { P.takes place.old result.1 place.new }
    {
        let mask = self.join();
        let todo = self.ask_into(place);
        (mask, todo)
    }

    // Like `next_into`, with joined masks. A fetch that is returned again masks its card again.
    #[inline(always)]
    fn next_joined_into<P: TodoPlace>(&mut self, place: &mut P) -> (Option<u32>, Todo)
        ensures asks { NextJoined self.old result.0 result.1 self.new }
        ensures len { length (driver_devices self.new) ≡ length (driver_devices self.old) }
        ensures takes { P.takes place.old result.1 place.new }
    {
        if let Some(device) = self.run.asked() {
            return (Some(device), self.again_into(place));
        }
        if self.said.is_some() {
            return (None, self.again_into(place));
        }
        self.ask_joined_into(place)
    }

    /// Like [`turn`](Driver::turn); what it returns is also written to the place, unless a fetch took too many packets.
    #[inline(always)]
    pub fn turn_into<P: TodoPlace>(
        &mut self,
        interrupts: u64,
        number: u64,
        taken: u32,
        rearm: Rearm,
        place: &mut P,
    ) -> (Result<(), Refused>, Option<u32>, Todo)
        ensures turns { IsTurn interrupts number taken rearm self.old result.0 result.1 result.2
            self.new }
        ensures len { length (driver_devices self.new) ≡ length (driver_devices self.old) }
        ensures takes { result.0 ≢ Err TooMany → P.takes place.old result.2 place.new }
        ensures kept { result.0 ≡ Err TooMany → place.new ≡ place.old }
    {
        match self.done(number, taken, rearm) {
            Ok(()) => {
                self.report_interrupts(interrupts);
                let (mask, todo) = self.ask_joined_into(place);
                (Ok(()), mask, todo)
            }
            Err(Refused::NotDue) => {
                self.report_interrupts(interrupts);
                let (mask, todo) = self.next_joined_into(place);
                (Err(Refused::NotDue), mask, todo)
            }
            Err(Refused::TooMany) => {
                self.report_interrupts(interrupts);
                (Err(Refused::TooMany), None, self.again_into(&mut Nowhere))
            }
        }
    }

    /// Reports that the action with this number was done, then the interrupts of the devices whose bits are set, and returns what the
    /// caller has to do next: [`done`](Driver::done), [`interrupt`](Driver::interrupt) for each, and [`next`](Driver::next). If all that
    /// has to be done is to mask one card for a poll, no run is in progress and nothing is on the list, that is joined to the fetch which
    /// follows it: the device is returned, whose card the caller has to mask first. A fetch that is returned again, since it wasn't
    /// reported, masks its card again.
    pub fn turn(
        &mut self,
        interrupts: u64,
        number: u64,
        packets: u32,
        rearm: Rearm,
    ) -> (Result<(), Refused>, Option<u32>, Todo)
        ensures turns { IsTurn interrupts number packets rearm self.old result.0 result.1 result.2
            self.new }
        ensures len { length (driver_devices self.new) ≡ length (driver_devices self.old) }
    {
        self.turn_into(interrupts, number, packets, rearm, &mut Nowhere)
    }
}
