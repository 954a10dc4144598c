//! One device: its receive side, and its counts.

ghost use Rattle.std.specs.Prelude.{◌≡◌, true, if◌then◌else◌};
ghost use Rattle.napi_model.specs.declared.event.{Done.TheVariants.{Again, Released}, Operation.TheVariants.{Complete}};
ghost use Rattle.device_bench.specs.Counter.{raised};
ghost use Rattle.device_bench.specs.Device.{after_disable, after_enable, device_after_packet, after_request, after_threaded, is_pending, new_device, settled, device_state, counted_after};
ghost use Rattle.device_bench.specs.Counts.{device_counts};
ghost use Rattle.device_bench.specs.Receive.{opened_side};

use crate::counts::{DeviceCounts, DeviceState};
use crate::receive_side::ReceiveSide;
use crate::transmit::TxCounts;
use napi_model::{Kind, Prep, encode};
use poll_runs::{BusyInstance, Instance};
use std::marker::Model;

/// The caller number of a device's interrupt handler.
pub(crate) const INTERRUPT: u32 = 0;

/// The caller number of the poller of the list.
pub(crate) const POLLER: u32 = 1;

/// The caller number of a device's thread.
pub(crate) const THREAD: u32 = 2;

/// The caller number of the controller, which makes, disables and enables an instance.
pub(crate) const CONTROLLER: u32 = 3;

/// A device's receive side, its threaded setting, and its counts.
#[derive(Drop)]
pub(crate) struct BenchDevice<S: ReceiveSide> {
    pub(crate) side: S,
    threaded: bool,
    // The counts; fields that can be computed from the receive side aren't kept up to date.
    counts: DeviceCounts,
}

impl<S: ReceiveSide> Model for BenchDevice<S> {
    ghost use Rattle.device_bench.specs.DeviceView.{DeviceView};

    ghost Value = { DeviceView };

    ghost view = { λ d. record { side = S.side d.side; threaded = d.threaded; counts = d.counts } };
}

impl<S: ReceiveSide> BenchDevice<S> {
    ghost use Rattle.std.specs.Prelude.{ℕ};

    /// Returns a device with a receive side that was just opened.
    pub(crate) fn new(side: S) -> BenchDevice<S>
        ensures { (capacity : ℕ) → S.side side ≡ opened_side capacity
            → result ≡ new_device capacity }
    {
        BenchDevice {
            side,
            threaded: false,
            counts: DeviceCounts::OPENED,
        }
    }

    /// Returns what the report shows of the device, with its transmit side.
    pub(crate) fn counts(&self, tx: TxCounts) -> DeviceCounts
        ensures counts { S.exact ≡ true → result ≡ device_counts self.now tx }
        ensures tx { result.tx ≡ tx }
    {
        DeviceCounts {
            state: self.state(),
            left: self.side.left() as u64,
            word: encode(self.side.seen()),
            tx,
            ..self.counts
        }
    }

    // Requests a poll, as an interrupt does. If the request is granted, it queues the instance, and returns in which queue.
    #[tactic(auto, unfolding(crate::specs::Device::after_request))]
    fn request(&mut self) -> Option<Kind>
        ensures device { S.exact ≡ true → self.new ≡ (after_request self.old).1 }
        ensures kind { S.exact ≡ true → result ≡ (after_request self.old).0 }
    {
        let (reply, kind) = self.side.request();
        match reply {
            Prep::Granted => self.counts.granted = self.counts.granted.saturating_add(1),
            Prep::Missed => self.counts.missed = self.counts.missed.saturating_add(1),
            Prep::Disabled => self.counts.disabled = self.counts.disabled.saturating_add(1),
        }
        kind
    }

    /// Handles the arrival of a packet of this size: a full ring drops it; otherwise its interrupt requests a poll. Returns the
    /// queue in which that put the instance, if any.
    #[tactic(auto, unfolding(crate::specs::Device::device_after_packet))]
    pub(crate) fn arrive(&mut self, bytes: u32) -> Option<Kind>
        ensures device { S.exact ≡ true → self.new ≡ (device_after_packet bytes self.old).1 }
        ensures kind { S.exact ≡ true → result ≡ (device_after_packet bytes self.old).0 }
    {
        self.counts.arrived = self.counts.arrived.saturating_add(1);
        if !self.side.put(bytes) {
            self.counts.dropped = self.counts.dropped.saturating_add(1);
            return None;
        }
        self.request()
    }
}

impl<S: ReceiveSide> BenchDevice<S> {
    /// Returns whether the device is enabled, disabled, or being disabled.
    pub(crate) fn state(&self) -> DeviceState
        ensures { result ≡ device_state self.now }
    {
        if self.is_pending() {
            DeviceState::Pending
        } else if self.side.is_off() {
            DeviceState::Off
        } else {
            DeviceState::On
        }
    }

    /// Returns whether a disable is pending.
    pub(crate) fn is_pending(&self) -> bool
        ensures { result ≡ is_pending self.now }
    {
        self.side.is_marked()
    }

    /// Marks a disable on a device that is enabled; in another state nothing changes.
    #[tactic(auto, unfolding(crate::specs::Device::after_disable))]
    pub(crate) fn disable(&mut self)
        ensures { S.exact ≡ true → self.new ≡ after_disable self.old }
    {
        if self.state() == DeviceState::On {
            self.side.mark();
        }
    }

    /// Tries a pending disable once. Returns whether it is still pending.
    #[tactic(auto, unfolding(crate::specs::Device::settled))]
    pub(crate) fn settle(&mut self) -> bool
        ensures device { S.exact ≡ true → self.new ≡ settled self.old }
        ensures pending { result ≡ is_pending self.new }
    {
        self.is_pending() && !self.side.try_take()
    }

    /// Enables a device that is disabled, with its threaded setting; in another state nothing changes.
    #[tactic(auto, unfolding(crate::specs::Device::after_enable))]
    pub(crate) fn enable(&mut self)
        ensures { S.exact ≡ true → self.new ≡ after_enable self.old }
    {
        if self.state() == DeviceState::Off {
            self.side.enable(self.threaded);
        }
    }

    /// Sets the device's threaded setting, and the flag THREADED.
    #[tactic(auto, unfolding(crate::specs::Device::after_threaded))]
    pub(crate) fn set_threaded(&mut self, threaded: bool)
        ensures { S.exact ≡ true → self.new ≡ after_threaded threaded self.old }
    {
        self.threaded = threaded;
        self.side.set_threaded(threaded);
    }

    /// Ends the device's receive side.
    pub(crate) fn end(self) -> S::End
        ensures { S.ended result }
    {
        let BenchDevice {
            side,
            threaded: _,
            counts: _,
        } = self;
        side.end()
    }
}

impl<S: ReceiveSide> Instance for BenchDevice<S> {
    ghost use Rattle.std.specs.Prelude.{◌≡◌, refl, sum, true};
    ghost use Rattle.device_bench.specs.Instance.{AtOnce, DidIf, IsDevicePolled};
    ghost use Rattle.device_bench.specs.InstanceLaws.{did_joins};

    type Packet = u32;

    type Packets = PolledBytes;

    ghost rests = { λ d. Unit };

    ghost in_hand = { IsDevicePolled };

    ghost thread = { λ d. true };

    ghost tries = { AtOnce };

    ghost did = { DidIf S.exact };

    ghost has = { λ load packets. load ≡ sum packets };

    fn take(&mut self, kind: Kind) -> bool {
        self.side.take(kind)
    }

    #[tactic(auto, unfolding(crate::specs::Device::device_polled))]
    fn poll(&mut self, weight: u32, load: &mut PolledBytes) -> u32 {
        let (count, bytes) = self.side.receive(weight);
        load.bytes = bytes;
        count_poll(&mut self.counts, count, bytes);
        count
    }

    fn is_disabling(&mut self) -> bool {
        self.is_pending()
    }

    fn requeue(&mut self) {
        self.side.requeue();
    }

    fn complete(&mut self) -> Option<Kind> {
        let again = self.side.complete();
        count_completion(&mut self.counts, again.is_some());
        again
    }

    ghost nothing = { λ d x. refl };

    ghost joins = { λ a b c first second m n x. did_joins a b c first second (m x) (n x) };

    ghost same = { λ before after deeds did. refl };
}

impl<S: ReceiveSide> BusyInstance for BenchDevice<S> {
    ghost use Rattle.std.specs.Prelude.{sum};
    ghost use Rattle.device_bench.specs.Instance.{IsPolledBusily};

    ghost in_busy = { IsPolledBusily };

    ghost bytes_in = { sum };

    fn busy_take(&mut self) -> bool {
        self.side.busy_take()
    }

    #[tactic(auto, unfolding(crate::specs::Device::device_polled))]
    fn busy_poll(&mut self, weight: u32, load: &mut PolledBytes) -> u32 {
        let (count, bytes) = self.side.receive(weight);
        load.bytes = bytes;
        count_poll(&mut self.counts, count, bytes);
        count
    }

    fn hold(&mut self) {
        self.side.hold();
        self.counts.held = self.counts.held.saturating_add(1);
    }

    fn stop(&mut self) {
        self.side.stop();
    }

    fn bytes_of(load: &PolledBytes) -> u64 {
        load.bytes
    }
}

// Counts a poll of this many packets, which have this many bytes.
fn count_poll(counts: &mut DeviceCounts, packets: u32, bytes: u64)
    ensures { counts.new ≡ record counts.old {
      polled = raised counts.old.polled packets;
      bytes = raised counts.old.bytes bytes;
      polls = raised counts.old.polls 1;
    } }
{
    counts.polled = counts.polled.saturating_add(u64::from(packets));
    counts.bytes = counts.bytes.saturating_add(bytes);
    counts.polls = counts.polls.saturating_add(1);
}

// Counts a completion that didn't return Held.
fn count_completion(counts: &mut DeviceCounts, again: bool)
    ensures { counts.new ≡ counted_after (Complete (if again then Again else Released)) counts.old }
{
    if again {
        counts.again = counts.again.saturating_add(1);
    } else {
        counts.released = counts.released.saturating_add(1);
    }
}

/// The sum of the bytes of a poll's packets: at most 64 packets, whose sizes have 32 bits.
#[derive(Drop)]
pub(crate) struct PolledBytes {
    bytes: u64,
}

impl Model for PolledBytes {
    ghost use Rattle.std.specs.Prelude.{ℕ, ◌<◌, ◌^◌};

    ghost Value = { ℕ };

    ghost view = { λ load. load.bytes };

    ghost invariant = { λ load. load.bytes < 2 ^ 38 };
}

impl PolledBytes {
    /// No packets.
    pub(crate) const NONE: PolledBytes = PolledBytes { bytes: 0 };
}
