//! The machine: its processors.

ghost use Rattle.std.specs.Prelude.{◌≡◌, ◌≤◌, ◌<◌, ◌*◌, Some, IfOk, OnOk, length, slice_get};
ghost use Rattle.std.specs.Option.{option_map};
ghost use Rattle.machine_model.specs.Machine.{PacketArrives, Finishes, device_report, opened_machine, processor_report};

use crate::device::QueueReport;
use crate::processor::{Processor, ProcessorReport};
use crate::settings::MachineSettings;
use std::alloc::{AllocError, Global};
use std::marker::Model;

/// A machine that receives packets over simulated time. Its processors are independent of each other.
#[derive(Drop)]
pub struct Machine {
    processors: Vec<Processor>,
}

impl Model for Machine {
    ghost use Rattle.machine_model.specs.Machine as machine;

    ghost Value = { machine.Machine };

    ghost view = { λ m. m.processors.items };
}

impl Machine {
    ghost use Rattle.std.specs.Prelude.{◌≡◌, ◌≤◌, ◌<◌, ◌*◌, Some, IfOk, OnOk, length, slice_get};

    /// Returns a machine at which no packet has arrived yet. Fails if an allocation fails.
    pub fn new(alloc: Global, settings: &MachineSettings) -> Result<Machine, AllocError>
        ensures machine { IfOk result (λ m. m ≡ opened_machine settings.now) }
        ensures processors { IfOk result (λ m. length m ≡ settings.now.processors) }
    {
        let mut processors = Vec::new(alloc);
        for _ in 0..settings.processors {
            processors.push(Processor::new(alloc, settings)?)?;
        }
        Ok(Machine { processors })
    }

    /// Handles the arrival of a packet for a queue (1 to 64 for each processor) at a time in nanoseconds. Its processor first
    /// advances to that time. Fails if an allocation for the queue or for counting a wait fails; the machine can't be used
    /// after that.
    pub fn arrive(&mut self, alloc: Global, moment: u64, device: u32) -> Result<(), AllocError>
        requires { (1 ≤ device) × (device ≤ 64 * length self.old) }
        ensures arrives { OnOk result (PacketArrives moment device self.old self.new) }
        ensures processors { length self.new ≡ length self.old }
    {
        let count = self.processors.len();
        let number = device as usize - 1;
        self.processors[number % count].arrive(alloc, moment, (number / count) as u32)?;
        Ok(())
    }

    /// Ends the run after the last packet: each processor advances until nothing is left, and then its application works until
    /// it sleeps. Fails if an allocation for counting a wait fails; the machine can't be used after that.
    pub fn finish(&mut self) -> Result<(), AllocError>
        ensures finishes { OnOk result (Finishes self.old self.new) }
        ensures processors { length self.new ≡ length self.old }
    {
        for number in 0..self.processors.len() {
            self.processors[number].finish()?;
        }
        Ok(())
    }

    /// Returns the report of a queue, or `None` if no packet arrived for it.
    pub fn device(&self, device: u32) -> Option<QueueReport>
        requires { (1 ≤ device) × (device ≤ 64 * length self.now) }
        ensures { result ≡ device_report device self.now }
    {
        let count = self.processors.len();
        let number = device as usize - 1;
        self.processors[number % count].device(number / count)
    }

    /// Returns the report of the processor with this number, counted from 0.
    pub fn processor(&self, number: usize) -> ProcessorReport
        requires { number < length self.now }
        ensures { Some result ≡ option_map processor_report (slice_get self.now number) }
    {
        self.processors[number].report()
    }
}
