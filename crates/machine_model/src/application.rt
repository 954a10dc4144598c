//! The application, which uses the packets of a socket: on the processor that receives, or on one of its own.

use crate::settings::MachineSettings;
use crate::waits::{WaitCounts, Waits};
use circular_buffer::HeapCircularBuffer;
use std::alloc::{AllocError, Global};
use std::marker::Model;

/// The report of an application that has its own processor.
#[derive(Clone, Copy, Debug, PartialEq, Eq)]
pub struct ApplicationReport {
    /// When its last use ended, in nanoseconds; 0 if it was never woken.
    pub end: u64,
    /// How often it was woken.
    pub wakes: u64,
}

/// What the application does on its own processor.
#[derive(Clone, Copy, Debug, PartialEq, Eq)]
pub enum Activity {
    /// It sleeps.
    Asleep,
    /// It wakes up.
    Waking,
    /// It uses a packet that arrived at that time.
    Using(u64),
}

/// The application and its socket.
#[derive(Drop)]
pub(crate) struct Application {
    socket: HeapCircularBuffer<u64>,
    refused: u64,
    waits: Waits,
    activity: Activity,
    end: u64,
    wakes: u64,
    sleeps: bool,
}

impl Model for Application {
    ghost use Rattle.machine_model.specs.Application.{ApplicationView};

    ghost Value = { ApplicationView };

    ghost view = { λ a. record {
      socket = a.socket;
      refused = a.refused;
      waits = a.waits;
      activity = a.activity;
      end = a.end;
      wakes = a.wakes;
      sleeps = a.sleeps;
    } };
}

impl Application {
    ghost use Rattle.std.specs.Prelude.{◌≡◌, ◌≤◌, ◌==◌, IfNone, IfOk, IfSome, OnErr, OnOk, length, slice_get, drop};
    ghost use Rattle.machine_model.specs.Waits.{summary_of};
    ghost use Rattle.machine_model.specs.Application.{fed, goes_on, has_place, is_awake, is_use_over, opened_application, takes_up_packet, use_ended, use_length, used, waking_length, went_on, woken_by};

    /// Returns an application with an empty socket.
    pub(crate) fn new(alloc: Global, settings: &MachineSettings) -> Result<Application, AllocError>
        ensures { IfOk result (λ a. a ≡ opened_application settings.now) }
    {
        let socket = HeapCircularBuffer::with_capacity(alloc, settings.socket as usize)?;
        Ok(Application {
            socket,
            refused: 0,
            waits: Waits::new(alloc),
            activity: Activity::Asleep,
            end: 0,
            wakes: 0,
            sleeps: true,
        })
    }

    /// Returns whether its socket is empty.
    pub(crate) fn is_idle(&self) -> bool
        ensures { result ≡ (length self.now.socket.items == 0) }
    {
        self.socket.is_empty()
    }

    /// Returns whether its socket has room for a packet.
    pub(crate) fn has_place(&self) -> bool
        ensures { result ≡ has_place self.now }
    {
        self.socket.len() < self.socket.capacity()
    }

    /// Returns the time of its next use on the processor that polls; if it sleeps, it is woken first.
    pub(crate) fn use_length(&self, settings: &MachineSettings) -> u32
        ensures { result ≡ use_length settings.now self.now }
    {
        if self.sleeps {
            settings.use_time + settings.app_wake
        } else {
            settings.use_time
        }
    }

    /// Returns by how much the next delivery takes longer, because it wakes the application.
    pub(crate) fn waking_length(&self, settings: &MachineSettings) -> u32
        ensures length { result ≡ waking_length settings.now self.now }
        ensures most { result ≤ 1000000000 }
    {
        if !settings.apart && self.sleeps && self.is_idle() {
            settings.poll_wake
        } else {
            0
        }
    }

    /// Takes the oldest packet out of the socket, on the processor that polls.
    pub(crate) fn take(&mut self) -> Option<u64>
        ensures packet { result ≡ slice_get self.old.socket.items 0 }
        ensures application { IfSome result (λ came. self.new
            ≡ takes_up_packet (drop 1 self.old.socket.items) self.old) }
        ensures kept { IfNone result (self.new ≡ self.old) }
    {
        let came = self.socket.pop_front()?;
        self.sleeps = false;
        Some(came)
    }

    /// Ends the use of a packet on the processor that polls. If the socket is empty, the application sleeps. Fails if the
    /// allocation for counting the packet's wait fails.
    pub(crate) fn end_use(&mut self, now: u64, came: u64) -> Result<(), AllocError>
        ensures { OnOk result (self.new ≡ use_ended now came self.old) }
    {
        self.use_packet(now, came)?;
        self.sleeps = self.socket.is_empty();
        Ok(())
    }

    // Ends the use of the packet that arrived at `came`. Fails if the allocation for counting its wait fails; then nothing is
    // counted.
    fn use_packet(&mut self, now: u64, came: u64) -> Result<(), AllocError>
        ensures used { OnOk result (self.new ≡ used now came self.old) }
        ensures kept { OnErr result (self.new ≡ self.old) }
    {
        self.waits.count(now.saturating_sub(came))?;
        Ok(())
    }

    // Returns whether its work ends at or before this time.
    fn is_over(&self, moment: u64) -> bool
        ensures { result ≡ is_use_over moment self.now }
    {
        self.activity != Activity::Asleep && self.end <= moment
    }

    // Ends its work: it takes its next packet, or sleeps.
    #[tactic(auto, unfolding(crate::specs::Application::goes_on))]
    fn go_on(&mut self, use_time: u32) -> Result<(), AllocError>
        ensures { OnOk result (self.new ≡ goes_on use_time self.old) }
    {
        if let Activity::Using(came) = self.activity {
            self.use_packet(self.end, came)?;
        }
        match self.socket.pop_front() {
            Some(came) => {
                self.activity = Activity::Using(came);
                self.end = self.end.saturating_add(u64::from(use_time));
            }
            None => self.activity = Activity::Asleep,
        }
        Ok(())
    }

    /// Works until this time, on its own processor. Fails if the allocation for counting a wait fails.
    pub(crate) fn go_on_until(&mut self, moment: u64, use_time: u32) -> Result<(), AllocError>
        ensures { OnOk result (self.new ≡ went_on moment use_time self.old) }
    {
        while self.is_over(moment) {
            self.go_on(use_time)?;
        }
        Ok(())
    }

    // Wakes it if it sleeps; waking takes until `until`.
    fn wake(&mut self, until: u64)
        ensures { self.new ≡ woken_by self.old.activity until self.old }
    {
        if self.activity == Activity::Asleep {
            self.activity = Activity::Waking;
            self.end = until;
            self.wakes = self.wakes.saturating_add(1);
        }
    }

    /// Delivers a packet that arrived at `came` to the application. A full socket drops it. Fails if the allocation for
    /// counting a wait fails.
    #[tactic(auto, unfolding(crate::specs::Application::fed))]
    pub(crate) fn feed(
        &mut self,
        now: u64,
        came: u64,
        settings: &MachineSettings,
    ) -> Result<(), AllocError>
        ensures { OnOk result (self.new ≡ fed now came settings.now self.old) }
    {
        if settings.apart {
            self.go_on_until(now, settings.use_time)?;
        }
        if self.socket.try_push_back(came).is_err() {
            self.refused = self.refused.saturating_add(1);
        } else if settings.apart {
            self.wake(now.saturating_add(u64::from(settings.app_wake)));
        }
        Ok(())
    }

    /// Packets that a full socket dropped.
    pub(crate) fn refused(&self) -> u64
        ensures { result ≡ self.now.refused }
    {
        self.refused
    }

    /// Returns what the report shows of the waits of its packets, from arrival to the end of the use.
    pub(crate) fn waits(&self) -> WaitCounts
        ensures { result ≡ summary_of self.now.waits }
    {
        self.waits.summary()
    }

    /// Returns the report of an application on its own processor.
    pub(crate) fn report(&self) -> ApplicationReport
        ensures { result ≡ record { end = self.now.end; wakes = self.now.wakes } }
    {
        ApplicationReport {
            end: self.end,
            wakes: self.wakes,
        }
    }
}
