//! The devices of a replay, by their numbers.

ghost use Rattle.std.specs.Prelude.{◌≡◌, length, true};
ghost use Rattle.device_bench.specs.Kept.{IsKept};

use crate::counts::DeviceCounts;
use crate::device::{BenchDevice, PolledBytes};
use crate::places::put_back;
use crate::receive_side::{KitSide, ReceiveSide};
use crate::serial_receive::SerialReceive;
use crate::table::{DeviceTable, empty_table};
use crate::transmit::{Transmit, TxCounts};
use device_places::TABLE_LEN;
use napi_model::Kind;
use poll_runs::{
    Bench, BusyReport, Next, Once, ThreadReport, poll_busy_of, poll_once_of, poll_thread_of,
};
use std::alloc::{AllocError, Global};

/// At most sixteen devices, by number, on which the rows of a trace act. A call with a number that has no device changes
/// nothing.
///
/// Each call has exactly the effect on the devices and their transmit sides that the rules define. At most 17 devices wait on
/// the list, because each number waits at most once.
#[derive(Drop)]
pub struct DeviceBench<S: ReceiveSide> {
    kit: S::Kit,
    devices: DeviceTable<BenchDevice<S>>,
    // The transmit side of each device; a number without a device has none.
    transmits: DeviceTable<Transmit>,
    // Whether a disable may be pending on some device.
    unsettled: bool,
    ghost places: { length devices.items ≡ 17 },
    ghost kept: { S.exact ≡ true → IsKept unsettled devices.items },
    ghost sides: { length transmits.items ≡ 17 },
}

/// The devices of one thread.
pub type SerialBench = DeviceBench<SerialReceive>;

impl DeviceBench<SerialReceive> {
    ghost use Rattle.std.specs.Prelude.{IfOk};
    ghost use Rattle.device_places.specs.Places.{empty};
    ghost use Rattle.device_bench.specs.DeviceBench.{ShowsTransmits, devices_of};

    /// Returns a bench without devices. The table is allocated here, so only `attach` allocates later.
    pub fn new(alloc: Global) -> Result<SerialBench, AllocError>
        ensures devices { IfOk result (λ bench. devices_of bench ≡ empty) }
        ensures transmits { IfOk result (λ bench. ShowsTransmits bench empty) }
    {
        DeviceBench::over((), alloc)
    }
}

impl<S: KitSide> DeviceBench<S> {
    ghost use Rattle.std.specs.Prelude.{IfOk};
    ghost use Rattle.device_places.specs.Places.{empty};
    ghost use Rattle.device_bench.specs.DeviceBench.{ShowsTransmits, devices_of};

    /// Returns a bench without devices, whose receive sides are opened with this kit. The table is allocated here, so only
    /// `attach` allocates later.
    pub fn new(kit: S::Kit, alloc: Global) -> Result<DeviceBench<S>, AllocError>
        ensures devices { IfOk result (λ bench. devices_of bench ≡ empty) }
        ensures transmits { IfOk result (λ bench. ShowsTransmits bench empty) }
    {
        DeviceBench::over(kit, alloc)
    }
}

impl<S: ReceiveSide> DeviceBench<S> {
    ghost use Rattle.std.specs.Prelude.{◌≡◌, ◌≤◌, ◌+◌, ℕ, IfOk, OnErr, OnOk, Some, is_some, not, true, ◌==◌, if◌then◌else◌};
    ghost use Rattle.device_bench.specs.Bench.{all_settled, after_arrival, attached, counts_at, handed_by};
    ghost use Rattle.device_bench.specs.Transmits.{Changes, KeepsTransmits, Transmits, is_used, tx_counts_of};
    ghost use Rattle.device_bench.specs.Device.{after_disable, after_enable, after_threaded, new_device, settled};
    ghost use Rattle.device_bench.specs.DeviceBench.{ShowsTransmits, devices_of, waiting_of};
    ghost use Rattle.device_bench.specs.Ending.{AllEnded};
    ghost use Rattle.device_bench.specs.Kept.{is_pending_at};
    ghost use Rattle.device_places.specs.Places.{added, at, changed, empty};
    ghost use Rattle.device_places.specs.Range.{IsWithin};
    ghost use Rattle.device_bench.specs.Transmit.{after_finish, after_tx, opened_transmit};
    ghost use Rattle.device_bench.specs.Waiting.{one_when, is_listed};

    // Returns a bench without devices, whose receive sides are opened with this kit.
    fn over(kit: S::Kit, alloc: Global) -> Result<DeviceBench<S>, AllocError>
        ensures devices { IfOk result (λ bench. devices_of bench ≡ empty) }
        ensures transmits { IfOk result (λ bench. ShowsTransmits bench empty) }
    {
        let transmits = empty_table(alloc)?;
        Ok(DeviceBench {
            kit,
            devices: empty_table(alloc)?,
            transmits,
            unsettled: false,
        })
    }

    fn taken_places(&self) -> usize
        ensures { result ≡ attached (devices_of self.now) }
    {
        self.devices.iter().filter(|place| place.is_some()).count()
    }

    // Adds a device, unless its number has one.
    fn keep(&mut self, alloc: Global, device: u32, capacity: u32) -> Result<(), AllocError>
        requires device { IsWithin 1 16 device }
        requires capacity { IsWithin 1 65536 capacity }
        ensures devices { S.exact ≡ true → OnOk result
            (devices_of self.new ≡ added device (new_device capacity) (devices_of self.old)) }
        ensures attached { OnOk result ((number : ℕ)
            → is_some (at number (devices_of self.new))
            ≡ (if number == device then true else is_some (at number (devices_of self.old)))) }
        ensures transmits { self.new.transmits ≡ self.old.transmits }
        ensures waiting { S.exact ≡ true → waiting_of self.new ≡ waiting_of self.old }
        ensures refused { OnErr result (self.new ≡ self.old) }
    {
        if self.devices[device as usize].is_some() {
            return Ok(());
        }
        let opened = BenchDevice::new(S::open(&self.kit, alloc, capacity)?);
        put_back(&mut self.devices[device as usize], opened);
        Ok(())
    }

    // Tries a pending disable of this device once. Returns whether it is still pending.
    fn settle_one(&mut self, device: u32) -> bool
        ensures devices { S.exact ≡ true → devices_of self.new
            ≡ changed settled device (devices_of self.old) }
        ensures places { (number : ℕ) → is_some (at number (devices_of self.new))
            ≡ is_some (at number (devices_of self.old)) }
        ensures transmits { self.new.transmits ≡ self.old.transmits }
        ensures unsettled { self.new.unsettled ≡ self.old.unsettled }
        ensures pending { result ≡ is_pending_at (at device (devices_of self.new)) }
    {
        if device < TABLE_LEN {
            if let Some(device) = &mut self.devices[device as usize] {
                return device.settle();
            }
        }
        false
    }

    /// Handles the arrival of a packet of this size at a device (`napi_schedule`). Returns the queue in which that put the
    /// instance, if any; if it is the list, the caller still has to push the number.
    pub fn arrive(&mut self, device: u32, bytes: u32) -> Option<Kind>
        ensures devices { S.exact ≡ true → devices_of self.new
            ≡ after_arrival device bytes (devices_of self.old) }
        ensures transmits { KeepsTransmits ShowsTransmits self.old self.new }
        ensures kind { S.exact ≡ true → result ≡ handed_by bytes (at device (devices_of self.old)) }
        ensures waiting { S.exact ≡ true
            → waiting_of self.old + one_when (is_listed result) ≤ waiting_of self.new }
    {
        if device < TABLE_LEN {
            if let Some(device) = &mut self.devices[device as usize] {
                return device.arrive(bytes);
            }
        }
        None
    }

    /// Creates a device with a receive and a transmit ring of this capacity, both empty, a queue limit that starts at this
    /// time, and an instance that is enabled and not threaded. If the number has a device already, nothing changes. If an
    /// allocation fails, nothing changes either.
    pub fn attach(
        &mut self,
        alloc: Global,
        device: u32,
        capacity: u32,
        moment: u64,
    ) -> Result<(), AllocError>
        requires device { IsWithin 1 16 device }
        requires capacity { IsWithin 1 65536 capacity }
        ensures devices { S.exact ≡ true → OnOk result
            (devices_of self.new ≡ added device (new_device capacity) (devices_of self.old)) }
        ensures transmits { OnOk result
            (Changes ShowsTransmits (added device (opened_transmit capacity moment))
            self.old self.new) }
        ensures waiting { S.exact ≡ true → waiting_of self.old ≤ waiting_of self.new }
        ensures refused { OnErr result (self.new ≡ self.old) }
    {
        let transmit = Transmit::open(alloc, capacity, moment)?;
        self.keep(alloc, device, capacity)?;
        if self.transmits[device as usize].is_none() {
            self.transmits[device as usize] = Some(transmit);
        }
        Ok(())
    }

    /// Sends a packet of this size, or counts it as held if the ring rejects it (`netdev_tx_sent_queue`).
    pub fn send(&mut self, device: u32, bytes: u32)
        ensures devices { S.exact ≡ true → devices_of self.new ≡ devices_of self.old }
        ensures transmits { Changes ShowsTransmits
            (changed (after_tx bytes) device) self.old self.new }
        ensures waiting { S.exact ≡ true → waiting_of self.new ≡ waiting_of self.old }
    {
        if device < TABLE_LEN {
            if let Some(transmit) = &mut self.transmits[device as usize] {
                transmit.send(bytes);
            }
        }
    }

    /// Completes this many packets, or counts the completion as denied if the ring holds fewer (`netdev_tx_completed_queue`).
    pub fn done(&mut self, device: u32, count: u32, moment: u64)
        ensures devices { S.exact ≡ true → devices_of self.new ≡ devices_of self.old }
        ensures transmits { Changes ShowsTransmits
            (changed (after_finish count moment) device) self.old self.new }
        ensures waiting { S.exact ≡ true → waiting_of self.new ≡ waiting_of self.old }
    {
        if device < TABLE_LEN {
            if let Some(transmit) = &mut self.transmits[device as usize] {
                transmit.finish(count, moment);
            }
        }
    }

    /// Marks a disable on a device that is enabled (`napi_disable`). The disable takes effect later, in `settle`.
    pub fn disable(&mut self, device: u32)
        ensures devices { S.exact ≡ true → devices_of self.new
            ≡ changed after_disable device (devices_of self.old) }
        ensures transmits { KeepsTransmits ShowsTransmits self.old self.new }
        ensures waiting { S.exact ≡ true → waiting_of self.new ≡ waiting_of self.old }
    {
        if device < TABLE_LEN {
            if let Some(device) = &mut self.devices[device as usize] {
                self.unsettled = true;
                device.disable();
            }
        }
    }

    /// Enables a device that is disabled, with its threaded setting (`napi_enable`). Returns false if its disable is still
    /// pending.
    pub fn enable(&mut self, device: u32) -> bool
        ensures devices { S.exact ≡ true → devices_of self.new
            ≡ changed after_enable device (devices_of self.old) }
        ensures transmits { KeepsTransmits ShowsTransmits self.old self.new }
        ensures answer { S.exact ≡ true → result
            ≡ not (is_pending_at (at device (devices_of self.old))) }
        ensures waiting { S.exact ≡ true → waiting_of self.new ≡ waiting_of self.old }
    {
        if device < TABLE_LEN {
            if let Some(device) = &mut self.devices[device as usize] {
                let pending = device.is_pending();
                device.enable();
                return !pending;
            }
        }
        true
    }

    /// Sets the threaded setting of a device, and the flag THREADED (`dev_set_threaded`).
    pub fn set_threaded(&mut self, device: u32, threaded: bool)
        ensures devices { S.exact ≡ true → devices_of self.new
            ≡ changed (after_threaded threaded) device (devices_of self.old) }
        ensures transmits { KeepsTransmits ShowsTransmits self.old self.new }
        ensures waiting { S.exact ≡ true → waiting_of self.new ≡ waiting_of self.old }
    {
        if device < TABLE_LEN {
            if let Some(device) = &mut self.devices[device as usize] {
                device.set_threaded(threaded);
            }
        }
    }

    /// Tries each pending disable once, in the order of device numbers (the loop of `napi_disable`).
    pub fn settle(&mut self)
        ensures devices { S.exact ≡ true → devices_of self.new ≡ all_settled (devices_of self.old) }
        ensures transmits { KeepsTransmits ShowsTransmits self.old self.new }
        ensures waiting { S.exact ≡ true → waiting_of self.new ≡ waiting_of self.old }
    {
        if !self.unsettled {
            return;
        }
        let mut unsettled = false;
        for device in 0..TABLE_LEN {
            if self.settle_one(device) {
                unsettled = true;
            }
        }
        self.unsettled = unsettled;
    }

    /// The number of devices.
    pub fn attached(&self) -> usize
        ensures devices { result ≡ attached (devices_of self.now) }
        ensures transmits { (all : Transmits) → ShowsTransmits self.now all
            → result ≡ attached all }
    {
        self.taken_places()
    }

    /// Returns whether a device is attached.
    pub fn is_attached(&self, device: u32) -> bool
        ensures devices { result ≡ is_some (at device (devices_of self.now)) }
        ensures transmits { (all : Transmits) → ShowsTransmits self.now all
            → result ≡ is_some (at device all) }
    {
        matches!(self.devices.get(device as usize), Some(Some(_)))
    }

    /// Returns what the report shows of an attached device. A device has its transmit side since `attach`.
    pub fn counts(&self, device: u32) -> DeviceCounts
        requires attached { is_some (at device (devices_of self.now)) ≡ true }
        ensures devices { S.exact ≡ true → (all : Transmits) → ShowsTransmits self.now all
            → Some result
            ≡ counts_at (at device (devices_of self.now)) (tx_counts_of (at device all)) }
        ensures transmits { (all : Transmits) → ShowsTransmits self.now all
            → result.tx ≡ tx_counts_of (at device all) }
    {
        let Some(Some(opened)) = self.devices.get(device as usize) else {
            unreachable!();
        };
        match self.transmits.get(device as usize) {
            Some(Some(transmit)) => opened.counts(transmit.counts()),
            _ => opened.counts(TxCounts::NONE),
        }
    }

    /// Returns whether an attached device had a tx or done row; otherwise the report omits its transmit side.
    pub fn uses_transmit(&self, device: u32) -> bool
        ensures { (all : Transmits) → ShowsTransmits self.now all
            → result ≡ is_used (at device all) }
    {
        match self.transmits.get(device as usize) {
            Some(Some(transmit)) => transmit.is_used(),
            _ => false,
        }
    }

    /// Ends the receive side of each device, which may wait. It doesn't allocate. It may be called in any state, even after an
    /// error. Returns what each receive side left, by device number.
    pub fn end(self) -> [Option<S::End>; TABLE_LEN as usize]
        ensures { AllEnded S.ended (devices_of self) result }
    {
        let DeviceBench {
            kit: _,
            mut devices,
            transmits: _,
            unsettled: _,
        } = self;
        let mut ends: [Option<S::End>; TABLE_LEN as usize] = Default::default();
        while let Some(place) = devices.pop() {
            if let Some(device) = place {
                ends[devices.len()] = Some(device.end());
            }
        }
        devices.destroy_empty();
        ends
    }
}

impl<S: ReceiveSide> Bench for DeviceBench<S> {
    ghost use Rattle.device_bench.specs.DeviceBench.{IsBusyPoll, IsListPoll, IsThreadPolls};

    ghost polls = { IsListPoll };

    ghost thread_polls = { IsThreadPolls };

    ghost busy_polls = { IsBusyPoll };

    fn poll_once(&mut self, id: u32, weight: u32) -> Once {
        if id < TABLE_LEN {
            if let Some(device) = &mut self.devices[id as usize] {
                return poll_once_of(device, weight, &mut PolledBytes::NONE);
            }
        }
        Once {
            work: 0,
            next: Next::Absent,
        }
    }

    fn poll_thread(&mut self, id: u32, weight: u32, most: u32) -> ThreadReport {
        if id < TABLE_LEN {
            if let Some(device) = &mut self.devices[id as usize] {
                return poll_thread_of(device, weight, most, &mut PolledBytes::NONE);
            }
        }
        ThreadReport::NONE
    }

    fn busy_poll(&mut self, id: u32, weight: u32, rounds: u32) -> BusyReport {
        if id < TABLE_LEN {
            if let Some(device) = &mut self.devices[id as usize] {
                return poll_busy_of(device, rounds, weight, &mut PolledBytes::NONE);
            }
        }
        BusyReport::NONE
    }
}
