//! The receive queues of a processor.

ghost use Rattle.std.specs.Prelude.{◌≡◌, ◌≢◌, ◌≤◌, ◌<◌, ◌+◌, ◌-◌, ◌++◌, ◌==◌, ◌&&◌, ℕ, IfSome, OnOk, length, nat_lt, position, replicate, None, false, true};
ghost use Rattle.std.specs.Int.{bit_at};
ghost use Rattle.std.specs.Option.{option_map_or};
ghost use Rattle.device_places.specs.Places.{at, changed};
ghost use Rattle.machine_model.specs.Device.{QueueView};
ghost use Rattle.machine_model.specs.Devices.{QueueViews, asks_at, soonest_from, sooner, timer_at};
ghost use Rattle.machine_model.specs.Kept.{all_scheduled};
ghost use Rattle.machine_model.specs.Shown.{IsMask, IsPending, earlier, has_timer, mask_bit};
ghost use Rattle.machine_model.specs.declared.devices.Pending.{Pending};

use crate::device::{QueueReport, ReceiveQueue};
use crate::settings::MachineSettings;
use std::alloc::{AllocError, Global};
use std::marker::Model;

/// A timer that is set: when it expires, and the number of its queue.
#[derive(Clone, Copy, Debug, PartialEq, Eq)]
pub struct Timer {
    /// When it expires, in nanoseconds.
    pub at: u64,
    /// The number of its queue.
    pub device: u32,
}

/// What a processor needs to know of its queues at each step. It is kept up to date, because a search would go through all
/// queues.
#[derive(Clone, Copy)]
pub(crate) struct Pending {
    /// A bit for each queue that asks for an interrupt.
    pub(crate) asking: u64,
    /// A bit for each queue whose timer is set.
    pub(crate) timed: u64,
    /// The timer that expires first.
    pub(crate) soonest: Option<Timer>,
}

/// The queues of a processor, by their numbers there. A queue is created when its first packet arrives.
#[derive(Drop)]
pub(crate) struct QueueTable {
    places: Vec<Option<ReceiveQueue>>,
    pending: Pending,
}

impl Model for QueueTable {
    ghost use Rattle.std.specs.Prelude.{◌≡◌, ◌≤◌, length};
    ghost use Rattle.machine_model.specs.Devices as devices;
    ghost use Rattle.machine_model.specs.Shown.{IsPending};

    ghost Value = { devices.QueueViews };

    ghost view = { λ d. d.places.items };

    ghost invariant = { λ d. (length d.places.items ≤ 64)
        × IsPending d.places.items d.pending };
}

// Returns whether the queue in this entry, if there is one, asks for an interrupt.
fn asks(place: &Option<ReceiveQueue>) -> bool
    ensures { result ≡ asks_at place.now }
{
    match place {
        Some(device) => device.asks(),
        None => false,
    }
}

// Returns whether the timer of the queue in this entry, if there is one, is set.
fn has_timer(place: &Option<ReceiveQueue>) -> bool
    ensures { result ≡ has_timer place.now }
{
    match place {
        Some(device) => device.timer().is_some(),
        None => false,
    }
}

// Returns the timer of the queue in this entry, if there is one and it is set.
fn timer_in(place: &Option<ReceiveQueue>, device: u32) -> Option<Timer>
    ensures { result ≡ timer_at device place.now }
{
    let at = place.as_ref()?.timer()?;
    Some(Timer { at, device })
}

// Returns the timer that expires first of two, or the first argument if both expire at the same time.
fn sooner(first: Option<Timer>, second: Option<Timer>) -> Option<Timer>
    ensures { result ≡ sooner first second }
{
    match (first, second) {
        (Some(timer), Some(other)) if other.at < timer.at => Some(other),
        (Some(timer), _) => Some(timer),
        (None, other) => other,
    }
}

// Returns the timer of a queue, if there is one and it is set.
fn timer_of(places: &[Option<ReceiveQueue>], number: u32) -> Option<Timer>
    ensures { result ≡ timer_at number (at number places.now) }
{
    timer_in(places.get(number as usize)?, number)
}

// Returns the timer that expires first, of the queues in these entries; `timed` has a bit for each queue whose timer is set.
fn soonest_in(places: &[Option<ReceiveQueue>], timed: u64) -> Option<Timer>
    requires { length places.now ≤ 64 }
    ensures { IsMask has_timer places.now timed → result ≡ soonest_from 0 places.now }
{
    let mut best = None;
    let mut left = timed;
    'walk: while left != 0 {
        let number = left.trailing_zeros();
        left &= !(1u64 << number);
        best = sooner(best, timer_of(places, number));
    }
    best
}

// Returns the timer that expires first of two, or that of the lower queue if both expire at the same time.
fn earlier(first: Option<Timer>, second: Option<Timer>) -> Option<Timer>
    ensures { result ≡ earlier first second }
{
    match (first, second) {
        (Some(timer), Some(other))
            if other.at < timer.at || other.at == timer.at && other.device < timer.device => {
            Some(other)
        }
        (Some(timer), _) => Some(timer),
        (None, other) => other,
    }
}

// Returns the lowest queue that asks for an interrupt; `asking` has a bit for each that does.
fn lowest_in(asking: u64) -> Option<usize>
    ensures lowest { (devices : QueueViews) → length devices ≤ 64 → IsMask asks_at devices asking
        → result ≡ position asks_at devices }
    ensures below { IfSome result (λ number. number < 64) }
{
    if asking == 0 {
        return None;
    }
    Some(asking.trailing_zeros() as usize)
}

// Sets or clears the bit of a queue in a mask.
fn with_bit(mask: u64, number: usize, is_set: bool) -> u64
    requires { number < 64 }
    ensures own { bit_at result number ≡ mask_bit is_set }
    ensures others { (n : ℕ) → n < 64 → n ≢ number → bit_at result n ≡ bit_at mask n }
{
    if is_set {
        mask | (1u64 << number)
    } else {
        mask & !(1u64 << number)
    }
}

// Returns whether a timer is that of this queue.
fn is_of(timer: Option<Timer>, number: usize) -> bool
    ensures { result ≡ option_map_or (λ t. t.device == number) timer false }
{
    match timer {
        Some(timer) => timer.device as usize == number,
        None => false,
    }
}

// Returns whether the two are the same timer.
fn is_same(first: Option<Timer>, second: Option<Timer>) -> bool
    ensures { result ≡ true → first ≡ second }
{
    match (first, second) {
        (Some(timer), Some(other)) => timer.at == other.at && timer.device == other.device,
        _ => false,
    }
}

// Returns the timer that expires first, after this queue changed; `timed` has a bit for each queue whose timer is set.
fn soonest_after(
    soonest: Option<Timer>,
    number: usize,
    timed: u64,
    places: &[Option<ReceiveQueue>],
) -> Option<Timer>
    requires number { number < length places.now }
    requires few { length places.now ≤ 64 }
    ensures { (change : QueueView → QueueView) (before : QueueViews)
        → places.now ≡ changed change number before
        → soonest ≡ soonest_from 0 before
        → IsMask has_timer places.now timed
        → result ≡ soonest_from 0 places.now }
{
    let own = timer_in(&places[number], number as u32);
    if is_same(own, soonest) {
        return soonest;
    }
    if is_of(soonest, number) {
        return soonest_in(places, timed);
    }
    earlier(soonest, own)
}

// Returns the cached values, after this queue changed.
fn pending_after(pending: Pending, number: usize, places: &[Option<ReceiveQueue>]) -> Pending
    requires number { number < length places.now }
    requires few { length places.now ≤ 64 }
    ensures { (change : QueueView → QueueView) (before : QueueViews)
        → places.now ≡ changed change number before
        → IsPending before pending
        → IsPending places.now result }
{
    let asking = with_bit(pending.asking, number, asks(&places[number]));
    let timed = with_bit(pending.timed, number, has_timer(&places[number]));
    Pending {
        asking,
        timed,
        soonest: soonest_after(pending.soonest, number, timed, places),
    }
}

// Adds empty entries, up to this number.
fn make_place(places: &mut Vec<Option<ReceiveQueue>>, number: usize) -> Result<(), AllocError>
    requires number { number < 64 }
    requires few { length places.old.items ≤ 64 }
    ensures places { OnOk result (places.new.items
        ≡ places.old.items ++ replicate (number + 1 - length places.old.items) None) }
    ensures few { length places.new.items ≤ 64 }
    ensures scheduled { all_scheduled places.old.items ≤ all_scheduled places.new.items }
    ensures pending { (pending : Pending) → IsPending places.old.items pending
        → IsPending places.new.items pending }
{
    for _ in places.len()..number + 1 {
        places.push(None)?;
    }
    Ok(())
}

impl QueueTable {
    ghost use Rattle.std.specs.Prelude.{◌≡◌, ◌≤◌, ◌<◌, [], IfSome, OnOk, length, position};
    ghost use Rattle.std.specs.Option.{option_map};
    ghost use Rattle.machine_model.specs.Machine.{queue_report};
    ghost use Rattle.device_places.specs.Places.{at, changed};
    ghost use Rattle.machine_model.specs.Device.{after_packet, queue_delivered, expired, holding, interrupted, missed_early, queue_polled, raised_again, without_held, without_next};
    ghost use Rattle.machine_model.specs.Devices.{asks_at, has_room_at, is_missed_at, is_rescheduled_at, is_fired_at, next_held_at, next_packet_at, schedules_at, soonest_from, starts_timer_at, pulls_at, with_device};
    ghost use Rattle.machine_model.specs.Kept.{all_scheduled};

    /// Returns an empty table.
    pub(crate) fn new(alloc: Global) -> QueueTable
        ensures { result ≡ [] }
    {
        QueueTable {
            places: Vec::new(alloc),
            pending: Pending {
                asking: 0,
                timed: 0,
                soonest: None,
            },
        }
    }

    /// Returns the lowest queue that asks for an interrupt.
    pub(crate) fn lowest_asking(&self) -> Option<usize>
        ensures lowest { result ≡ position asks_at self.now }
        ensures below { IfSome result (λ number. number < 64) }
    {
        lowest_in(self.pending.asking)
    }

    /// Returns the timer that expires first, or that of the lowest queue if several expire at the same time.
    pub(crate) fn soonest(&self) -> Option<Timer>
        ensures { result ≡ soonest_from 0 self.now }
    {
        self.pending.soonest
    }

    /// Creates a queue when its first packet arrives, with a ring of this capacity. Fails if the allocation fails.
    #[tactic(auto, unfolding(crate::specs::Devices::with_device))]
    pub(crate) fn open(
        &mut self,
        alloc: Global,
        number: usize,
        capacity: u32,
    ) -> Result<(), AllocError>
        requires { number < 64 }
        ensures devices { OnOk result (self.new ≡ with_device capacity number self.old) }
        ensures scheduled { all_scheduled self.old ≤ all_scheduled self.new }
    {
        make_place(&mut self.places, number)?;
        if number < self.places.len() && self.places[number].is_none() {
            self.places[number] = Some(ReceiveQueue::new(alloc, capacity)?);
        }
        Ok(())
    }

    /// Handles the arrival of a packet for a queue. Returns whether its ring had room.
    pub(crate) fn arrive(&mut self, number: usize, moment: u64, settings: &MachineSettings) -> bool
        ensures devices { self.new ≡ changed (after_packet moment settings.now) number self.old }
        ensures room { result ≡ has_room_at (at number self.old) }
    {
        if number < self.places.len() {
            if let Some(device) = &mut self.places[number] {
                if device.is_masked() {
                    return device.arrive(moment, settings);
                }
                let is_taken = device.arrive(moment, settings);
                self.pending = pending_after(self.pending, number, &self.places);
                return is_taken;
            }
        }
        false
    }

    /// Expires the timer of a queue that is first.
    pub(crate) fn expire(&mut self, number: usize)
        ensures { self.new ≡ changed expired number self.old }
    {
        if number < self.places.len() {
            if let Some(device) = &mut self.places[number] {
                device.expire();
                self.pending = pending_after(self.pending, number, &self.places);
            }
        }
    }

    /// Returns whether the NAPI timer of a queue expired.
    pub(crate) fn is_fired(&self, number: usize) -> bool
        ensures { result ≡ is_fired_at (at number self.now) }
    {
        matches!(self.places.get(number), Some(Some(device)) if device.is_fired())
    }

    /// Returns whether the instance of a queue is scheduled again, if it completes after a poll that processed this many packets.
    pub(crate) fn is_rescheduled(
        &self,
        number: usize,
        given: u32,
        settings: &MachineSettings,
    ) -> bool
        ensures { result ≡ is_rescheduled_at given settings.now (at number self.now) }
    {
        matches!(self.places.get(number), Some(Some(device)) if device.is_rescheduled(given, settings))
    }

    /// Returns whether the completion of a queue after a poll that processed this many packets starts its NAPI timer.
    pub(crate) fn starts_timer(&self, number: usize, given: u32, settings: &MachineSettings) -> bool
        ensures { result ≡ starts_timer_at given settings.now (at number self.now) }
    {
        matches!(self.places.get(number), Some(Some(device)) if device.starts_timer(given, settings))
    }

    /// Returns whether the instance of a queue missed an interrupt.
    pub(crate) fn is_missed(&self, number: usize) -> bool
        ensures { result ≡ is_missed_at (at number self.now) }
    {
        matches!(self.places.get(number), Some(Some(device)) if device.is_missed())
    }

    /// Handles an interrupt of a queue that comes before the completion of its poll: the instance misses it.
    pub(crate) fn miss(&mut self, number: usize)
        ensures devices { self.new ≡ changed missed_early number self.old }
        ensures scheduled { all_scheduled self.old ≤ all_scheduled self.new }
    {
        if number < self.places.len() {
            if let Some(device) = &mut self.places[number] {
                device.miss();
            }
        }
    }

    /// Returns whether the interrupt of a queue schedules its instance.
    pub(crate) fn schedules(&self, number: usize) -> bool
        ensures { result ≡ schedules_at (at number self.now) }
    {
        matches!(self.places.get(number), Some(Some(device)) if device.schedules())
    }

    /// Handles the interrupt of a queue. The handler ends at the time `until`.
    pub(crate) fn interrupt(&mut self, number: usize, until: u64, polling: bool)
        ensures devices { self.new ≡ changed (interrupted until polling) number self.old }
        ensures few { length self.new ≤ 64 }
    {
        if number < self.places.len() {
            if let Some(device) = &mut self.places[number] {
                device.interrupt(until, polling);
                self.pending = pending_after(self.pending, number, &self.places);
            }
        }
    }

    /// Ends an interrupt of a queue that delivered a packet without polling.
    pub(crate) fn raise_again(&mut self, number: usize)
        ensures { self.new ≡ changed raised_again number self.old }
    {
        if number < self.places.len() {
            if let Some(device) = &mut self.places[number] {
                device.raise_again();
                self.pending = pending_after(self.pending, number, &self.places);
            }
        }
    }

    /// Takes the next packet of a queue for a poll.
    pub(crate) fn take_next(&mut self, number: usize, backlog: bool) -> Option<u64>
        ensures packet { result ≡ next_packet_at backlog (at number self.old) }
        ensures devices { self.new ≡ changed (without_next backlog) number self.old }
    {
        if number < self.places.len() {
            if let Some(device) = &mut self.places[number] {
                return device.take_next(backlog);
            }
        }
        None
    }

    /// Takes another packet of a queue for GRO, if a poll of this weight that took this many packets, and hands over batches of this
    /// many, does so. Returns whether it does.
    pub(crate) fn hold(&mut self, number: usize, weight: u32, batch: u32, given: u32) -> bool
        requires batch { (1 ≤ batch) × (batch ≤ 64) }
        ensures more { result ≡ (nat_lt given weight && pulls_at batch given (at number self.old)) }
        ensures taken { result ≡ true → self.new ≡ changed holding number self.old }
        ensures kept { result ≡ false → self.new ≡ self.old }
    {
        if given < weight && number < self.places.len() {
            if let Some(device) = &mut self.places[number] {
                if device.pulls(batch, given) {
                    device.hold();
                    return true;
                }
            }
        }
        false
    }

    /// Takes the oldest packet of a queue that GRO holds.
    pub(crate) fn take_held(&mut self, number: usize) -> Option<u64>
        ensures packet { result ≡ next_held_at (at number self.old) }
        ensures devices { self.new ≡ changed without_held number self.old }
    {
        if number < self.places.len() {
            if let Some(device) = &mut self.places[number] {
                return device.take_held();
            }
        }
        None
    }

    /// Delivers a packet of a queue; it arrived at `came`. Fails if the allocation for counting its wait fails.
    pub(crate) fn deliver(&mut self, number: usize, now: u64, came: u64) -> Result<(), AllocError>
        ensures devices { OnOk result (self.new
            ≡ changed (queue_delivered now came) number self.old) }
        ensures scheduled { all_scheduled self.new ≡ all_scheduled self.old }
    {
        if number < self.places.len() {
            if let Some(device) = &mut self.places[number] {
                device.deliver(now, came)?;
            }
        }
        Ok(())
    }

    /// Ends a poll of a queue that processed this many packets.
    pub(crate) fn end_poll(
        &mut self,
        number: usize,
        now: u64,
        given: u32,
        settings: &MachineSettings,
    )
        ensures { self.new ≡ changed (queue_polled now given settings.now) number self.old }
    {
        if number < self.places.len() {
            if let Some(device) = &mut self.places[number] {
                device.end_poll(now, given, settings);
                self.pending = pending_after(self.pending, number, &self.places);
            }
        }
    }

    /// Returns the report of a queue, if there is one.
    pub(crate) fn report(&self, number: usize) -> Option<QueueReport>
        ensures { result ≡ option_map queue_report (at number self.now) }
    {
        match self.places.get(number) {
            Some(Some(device)) => Some(device.report()),
            _ => None,
        }
    }
}
