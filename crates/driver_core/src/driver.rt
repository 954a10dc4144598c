//! The driver of up to 64 devices.

ghost use Rattle.std.specs.Prelude.{◌≡◌, ◌≤◌, ◌<◌, ◌+◌, ◌*◌, false, true, length, IfOk};
ghost use Rattle.poll_runs.specs.Steps.{HoldsNothing};
ghost use Rattle.driver_core.specs.Queue.{HasLimits, HasWeights, IsStillDue, IsQueue};

use crate::counts::{PollCounts, new_counts};
use crate::device::{Chore, DriverDevice, Rearm, Stage};
use crate::devices::Devices;
use crate::limits::Limits;
use crate::list::DriverList;
use crate::pacing::{DeviceSettings, Pacing, new_pacings};
use crate::place::{Nowhere, TodoPlace};
use crate::said::{following, still_due};
use crate::todo::{NotDue, Refused, Todo, What, what_of};
use napi_model::Prep;
use poll_runs::{PollList, PollingRun, RunReport};
use std::alloc::{AllocError, Global};

/// The driver of up to 64 devices, for one thread: the instances, the poll list and the runs over it. It does no input or
/// output: [`next`](Driver::next) returns what the caller has to do, [`done`](Driver::done) reports that it was done, and the
/// other calls report what else happened.
#[derive(Drop)]
pub struct Driver {
    pub(crate) devices: Devices,
    counts: Vec<PollCounts>,
    pacings: Vec<Pacing>,
    pub(crate) list: DriverList,
    pub(crate) run: PollingRun,
    pub(crate) runs: bool,
    // The caller has ended the run in progress: it makes no further poll.
    ending: bool,
    limits: Limits,
    // The action at a card, or with a timer, that `next` returned last, if it isn't reported yet. A fetch is stored in the run.
    pub(crate) said: Option<(u32, Chore)>,
    // The number of the action that `next` returned last.
    number: u64,
    ghost counted: { length counts.items ≡ length devices.all.items },
    ghost paced: { length pacings.items ≡ length devices.all.items },
    ghost weights: { HasWeights limits pacings.items },
    ghost queue: { IsQueue devices.all.items list run },
    ghost idle: { runs ≡ false → HoldsNothing run },
    ghost ends: { runs ≡ false → ending ≡ false },
    ghost pace: { runs ≡ true → HasLimits limits run },
    ghost asks: { IsStillDue devices.all.items run.asked said },
    ghost numbers: { 1 ≤ number },
}

// The report of no run.
const NO_RUN: RunReport = RunReport {
    polls: 0,
    work: 0,
    squeezed: false,
};

// The first numbers of two drivers' actions are at least this far apart.
const APART: u64 = 281474976710656;

impl Driver {
    ghost use Rattle.std.specs.List.{All};
    ghost use Rattle.std.specs.Prelude.{◌↔◌, ◌≢◌, ◌^◌, ◌∷◌, ◌++◌, nat_lt, None, Some, Err, List, [], IsOk, IsSome, IfErr, IfNone, IfSome, OnOk, OnErr};
    ghost use Rattle.poll_runs.specs.{Polls.{Poll}, Driven.{IsOver}, Plain.{NothingBehind, OwnPushes, all_held}};
    ghost use Rattle.napi_model.specs.Step.{schedule_reply};
    ghost use Rattle.driver_core.specs.declared.todo.{Refused.TheVariants.{TooMany}, What.TheVariants.{Ended}};
    ghost use Rattle.driver_core.specs.declared.device.Stage.TheVariants.{Closed};
    ghost use Rattle.driver_core.specs.Counts.{count_one_poll};
    ghost use Rattle.driver_core.specs.Todo.{ended_in};
    ghost use Rattle.driver_core.specs.Device.{chore_at, after_interrupt, after_timer, stage_is_listed, after_open, after_stop, MayStop};
    ghost use Rattle.driver_core.specs.Steps.{is_unscheduled, napi_of};
    ghost use Rattle.driver_core.specs.Driver.{poll_counts_of, pacing_of, weight_of, timeout_of, device_of, driver_devices, said_number_of, polled_device, poll_of, said_of, stage_of, is_running, driver_limits, list_of, is_ending, line_of, awaits_another, AddsToLine, AreClosed, ArePlain, AsksNext, AsksJoined, NextJoined, JoinsMask, ReportsInterrupts, IsTurn, Ends, EndsRun, DoesChore, IsDue, IsDriverReport, IsEndedEarly, EndsSqueezed, AwaitsNothing, IsIdle, IsNumberedTodo, IsNumberedWhat, IsReport, IsRunning, IsStep, IsUncounted, KeepsLimits, PutsDevice, Reports, SetsDevice};

    /// Creates a driver of this many devices, at most 64, all closed, each with the weight of `limits`. Drivers with different salts number their actions
    /// differently, for 2^48 actions, so that none takes another one's report.
    #[tactic(auto, using(crate::proofs::QueueFacts::new_weights))]
    pub fn new(alloc: Global, devices: u32, limits: Limits, salt: u16) -> Result<Driver, AllocError>
        requires { devices ≤ 64 }
        ensures devices { IfOk result (AreClosed devices) }
        ensures idle { IfOk result (λ driver. IsIdle driver) }
        ensures limits { IfOk result (λ driver. driver_limits driver ≡ limits) }
        ensures counts { IfOk result (λ driver. IsUncounted driver) }
        ensures pacings { IfOk result (ArePlain devices) }
        ensures number { IfOk result (λ driver. said_number_of driver
            ≡ salt * 281474976710656 + 1) }
    {
        let closed = Devices::new(alloc, devices)?;
        let counts = new_counts(alloc, devices as usize)?;
        let plain = DeviceSettings::of_weight(limits.weight);
        let pacings = new_pacings(alloc, devices as usize, plain)?;
        Ok(Driver {
            devices: closed,
            counts,
            pacings,
            list: DriverList::new(),
            run: PollingRun::idle(),
            runs: false,
            ending: false,
            limits,
            said: None,
            number: u64::from(salt) * APART + 1,
        })
    }

    /// Returns the number of its devices, at most 64.
    pub fn len(&self) -> usize
        ensures len { result ≡ length (driver_devices self.now) }
        ensures few { result ≤ 64 }
    {
        self.devices.all.len()
    }

    /// Returns whether each bit that is set is that of a device.
    #[inline(always)]
    pub fn has_devices(&self, bits: u64) -> bool
        ensures { result ≡ nat_lt bits (2 ^ length (driver_devices self.now)) }
    {
        if bits == 0 {
            return true;
        }
        let count = self.len() as u32;
        count == 64 || bits >> count == 0
    }

    /// Returns whether an action waits for its report, and not under this number.
    #[inline(always)]
    pub fn awaits_another(&self, number: u64) -> bool
        ensures { result ≡ awaits_another number self.now }
    {
        number != self.number && (self.run.asked().is_some() || self.said.is_some())
    }

    /// Returns the device whose fetch waits for its report.
    #[inline(always)]
    pub fn polled(&self) -> Option<u32>
        ensures { result ≡ polled_device self.now }
    {
        self.run.asked()
    }

    /// Returns the limits of its runs.
    pub fn limits(&self) -> Limits
        ensures { result ≡ driver_limits self.now }
    {
        self.limits
    }

    /// Returns the device with this number.
    pub fn device(&self, device: u32) -> DriverDevice
        requires { device < length (driver_devices self.now) }
        ensures { result ≡ device_of self.now device }
    {
        self.devices.get(device)
    }

    /// Returns the counts of a device's polls.
    #[inline(always)]
    pub fn counts(&self, device: u32) -> PollCounts
        requires { device < length (driver_devices self.now) }
        ensures { result ≡ poll_counts_of self.now device }
    {
        self.counts[device as usize]
    }

    /// Returns the settings of a device, and what is counted for them.
    #[inline(always)]
    pub fn pacing(&self, device: u32) -> Pacing
        requires { device < length (driver_devices self.now) }
        ensures { result ≡ pacing_of self.now device }
    {
        self.pacings[device as usize]
    }

    /// Sets the settings of a device that is closed. Its weight is at most the driver's.
    #[tactic(auto, using(crate::proofs::QueueFacts::put_weights))]
    pub fn set(&mut self, device: u32, settings: DeviceSettings) -> Result<(), NotDue>
        requires device { device < length (driver_devices self.old) }
        requires weight { (1 ≤ settings.weight)
            × (settings.weight ≤ (driver_limits self.old).weight) }
        ensures when { IsOk result ↔ (stage_of self.old device ≡ Closed) }
        ensures ok { OnOk result (SetsDevice device settings self.old self.new) }
        ensures err { OnErr result (self.new ≡ self.old) }
    {
        if self.devices.get(device).stage != Stage::Closed {
            return Err(NotDue);
        }
        self.pacings[device as usize] = Pacing::new(settings);
        Ok(())
    }

    // Replaces the device with this number. If the action that was returned last isn't due any more, it is forgotten.
    #[inline(always)]
    fn put(&mut self, device: u32, to: DriverDevice)
        requires range { device < length (driver_devices self.old) }
        requires listed { stage_is_listed to.stage ≡ stage_is_listed (stage_of self.old device) }
        ensures { PutsDevice device to self.old self.new }
    {
        self.devices.put(device, to);
        self.said = still_due(self.said, device, to);
    }

    // Replaces the device with this number by one that is listed only now, and puts it on the list.
    #[tactic(auto, using(crate::proofs::QueueFacts::put_new, crate::proofs::QueueFacts::put_asked, crate::proofs::QueueFacts::room))]
    fn put_listed(&mut self, device: u32, to: DriverDevice)
        requires range { device < length (driver_devices self.old) }
        requires before { stage_is_listed (stage_of self.old device) ≡ false }
        requires after { stage_is_listed to.stage ≡ true }
        ensures { PutsDevice device to self.old self.new }
    {
        self.devices.put(device, to);
        self.said = still_due(self.said, device, to);
        self.list.push(device);
    }

    /// Reports that the timer of a device expired (`napi_watchdog`), at any time. Returns whether that requested a poll: not if the
    /// instance is scheduled, disabled or being disabled, and then nothing is changed or missed.
    pub fn timer(&mut self, device: u32) -> bool
        requires { device < length (driver_devices self.old) }
        ensures reply { result ≡ is_unscheduled (stage_of self.old device) }
        ensures puts { PutsDevice device (after_timer (device_of self.old device)) self.old
            self.new }
    {
        let before = self.devices.get(device);
        let after = before.timed_out();
        if before.is_listed() == after.is_listed() {
            self.put(device, after);
        } else {
            self.put_listed(device, after);
        }
        !before.is_scheduled() && !before.is_stopping()
    }

    /// Reports an interrupt of a card (`napi_schedule_prep`), at any time. If the request for a poll is granted,
    /// [`next`](Driver::next) returns what to do, first to mask the card.
    #[inline(always)]
    pub fn interrupt(&mut self, device: u32) -> Prep
        requires { device < length (driver_devices self.old) }
        ensures reply { result ≡ schedule_reply (napi_of (device_of self.old device)) }
        ensures puts { PutsDevice device (after_interrupt (device_of self.old device)) self.old
            self.new }
    {
        let (after, reply) = self.devices.get(device).interrupted();
        self.put(device, after);
        reply
    }

    /// Opens a device that is closed (`napi_enable`).
    pub fn open(&mut self, device: u32) -> Result<(), NotDue>
        requires { device < length (driver_devices self.old) }
        ensures when { IsOk result ↔ (stage_of self.old device ≡ Closed) }
        ensures ok { OnOk result (PutsDevice device (after_open (device_of self.old device))
            self.old self.new) }
        ensures err { OnErr result (self.new ≡ self.old) }
    {
        let before = self.devices.get(device);
        if before.stage != Stage::Closed {
            return Err(NotDue);
        }
        self.put(device, before.opened());
        Ok(())
    }

    /// Stops a device that is open (`napi_disable`). It is closed once its card is masked and the polls that were requested are
    /// done.
    pub fn stop(&mut self, device: u32) -> Result<(), NotDue>
        requires { device < length (driver_devices self.old) }
        ensures when { IsOk result ↔ MayStop (stage_of self.old device) }
        ensures ok { OnOk result (PutsDevice device (after_stop (device_of self.old device))
            self.old self.new) }
        ensures err { OnErr result (self.new ≡ self.old) }
    {
        let before = self.devices.get(device);
        if !before.may_stop() {
            return Err(NotDue);
        }
        self.put(device, before.stopped());
        Ok(())
    }

    /// Ends the run in progress, for a caller that has a clock of its own (`netdev_budget_usecs`). A poll that
    /// [`next`](Driver::next) has asked for is still made; then the run has ended, and counts as squeezed. Fails if no run is in
    /// progress.
    pub fn end_run(&mut self) -> Result<(), NotDue>
        ensures when { IsOk result ↔ (is_running self.old ≡ true) }
        ensures ok { OnOk result (EndsRun self.old self.new) }
        ensures err { OnErr result (self.new ≡ self.old) }
    {
        if !self.runs {
            return Err(NotDue);
        }
        self.ending = true;
        Ok(())
    }

    // Handles the report that the action at the card of a device was done. After a mask, a device goes on the poll list if its
    // poll was granted (`____napi_schedule`), and is closed if it was stopped.
    #[tactic(auto, using(crate::proofs::QueueFacts::put_same, crate::proofs::QueueFacts::put_new, crate::proofs::QueueFacts::room))]
    #[inline(always)]
    pub(crate) fn did(&mut self, device: u32, before: DriverDevice, chore: Chore, has_more: bool)
        requires range { device < length (driver_devices self.old) }
        requires before { before ≡ device_of self.old device }
        requires chore { chore_at (stage_of self.old device) ≡ Some chore }
        requires free { AwaitsNothing self.old }
        ensures { DoesChore device chore has_more self.old self.new }
    {
        let after = before.did(chore, has_more);
        self.devices.put(device, after);
        if after.is_listed() {
            self.list.push(device);
        }
    }

    // Handles the report that this many packets were taken from the card of the device that is being polled, which ends the
    // poll (`__napi_poll`, `napi_complete_done`).
    #[tactic(auto, using(crate::proofs::QueueFacts::asked_alone))]
    #[inline(always)]
    fn fetched(&mut self, device: u32, packets: u32, rearm: Rearm)
        requires range { device < length (driver_devices self.old) }
        requires listed { stage_is_listed (stage_of self.old device) ≡ true }
        requires polled { polled_device self.old ≡ Some device }
        requires most { packets ≤ weight_of self.old device }
        ensures ends { Ends device packets rearm self.old self.new }
        ensures going { (start : List _) (polls : List Poll) → IsRunning start polls self.old
            → IsRunning start (polls ++ poll_of device packets rearm self.old ∷ []) self.new }
    {
        let so_far = self.counts(device);
        let before = self.devices.get(device);
        let pacing = self.pacing(device);
        let (after, next) = pacing.end_poll(before, packets, rearm);
        self.devices.put(device, after);
        self.counts[device as usize] = so_far.and(packets);
        self.pacings[device as usize].count(before, packets, rearm);
        self.list.polled(&mut self.run, packets, next);
    }

    /// Reports that the action with this number was done. After a look, `packets` is the number of packets that the card has,
    /// or 1 if it has any. After a fetch, it is the number of packets taken, and the report ends the poll (`__napi_poll`,
    /// `napi_complete_done`). `rearm` says whether the fetch also unmasked the card and then looked at it; such a fetch has to be
    /// reported. It is `No` for any other action. Fails if the driver doesn't wait for this report any more, or if a fetch took more packets than
    /// it was allowed to.
    #[tactic(auto, using(crate::proofs::QueueFacts::asked_is_listed, crate::proofs::QueueFacts::asked_in_range))]
    #[inline(always)]
    pub fn done(&mut self, number: u64, packets: u32, rearm: Rearm) -> Result<(), Refused>
        ensures when { IsOk result ↔ IsReport number packets self.old }
        ensures ok { OnOk result (Reports packets rearm self.old self.new) }
        ensures free { OnOk result (AwaitsNothing self.new) }
        ensures len { length (driver_devices self.new) ≡ length (driver_devices self.old) }
        ensures going { (start : List _) (polls : List Poll) (id : _)
            → polled_device self.old ≡ Some id
            → IsRunning start polls self.old → OnOk result
            (IsRunning start (polls ++ poll_of id packets rearm self.old ∷ []) self.new) }
        ensures err { OnErr result (self.new ≡ self.old) }
        ensures many { IfErr result (λ why. (why ≡ TooMany)
            ↔ ((number ≡ said_number_of self.old) × IsSome (polled_device self.old))) }
    {
        if number != self.number {
            return Err(Refused::NotDue);
        }
        if let Some(device) = self.run.asked() {
            if packets > self.pacing(device).settings.weight {
                return Err(Refused::TooMany);
            }
            self.fetched(device, packets, rearm);
            return Ok(());
        }
        let Some((device, chore)) = self.said else {
            return Err(Refused::NotDue);
        };
        self.said = None;
        let before = self.devices.get(device);
        self.did(device, before, chore, packets > 0);
        Ok(())
    }

    // Begins a run, if none is in progress.
    #[tactic(auto, using(crate::proofs::QueueFacts::begin_keeps, crate::proofs::LineFacts::begin_line))]
    #[inline(always)]
    fn begin(&mut self)
        requires free { AwaitsNothing self.old }
        ensures devices { self.new.devices ≡ self.old.devices }
        ensures counts { self.new.counts ≡ self.old.counts }
        ensures pacings { self.new.pacings ≡ self.old.pacings }
        ensures free { AwaitsNothing self.new }
        ensures limits { self.new.limits ≡ self.old.limits }
        ensures number { said_number_of self.new ≡ said_number_of self.old }
        ensures runs { is_running self.new ≡ true }
        ensures ending { is_ending self.new ≡ is_ending self.old }
        ensures same { is_running self.old ≡ true → self.new ≡ self.old }
        ensures line { line_of self.new ≡ line_of self.old }
        ensures going { (start : List _) (polls : List Poll) → IsRunning start polls self.old
            → IsRunning start polls self.new }
        ensures begun { is_running self.old ≡ false → IsRunning (list_of self.old) [] self.new }
    {
        if self.runs {
            return;
        }
        let Limits {
            budget,
            weight,
            window,
        } = self.limits;
        self.run.restart(&mut self.list, budget, weight, window);
        self.runs = true;
    }

    // Returns the device that the run polls next, or `None` if the run is over or the caller has ended it.
    #[tactic(auto, using(crate::proofs::QueueFacts::advance_keeps, crate::proofs::LineFacts::advance_line))]
    #[inline(always)]
    fn next_device(&mut self) -> Option<u32>
        requires free { AwaitsNothing self.old }
        requires runs { is_running self.old ≡ true }
        ensures devices { self.new.devices ≡ self.old.devices }
        ensures counts { self.new.counts ≡ self.old.counts }
        ensures pacings { self.new.pacings ≡ self.old.pacings }
        ensures limits { self.new.limits ≡ self.old.limits }
        ensures number { said_number_of self.new ≡ said_number_of self.old }
        ensures said { said_of self.new ≡ None }
        ensures runs { is_running self.new ≡ true }
        ensures ending { is_ending self.new ≡ is_ending self.old }
        ensures asks { polled_device self.new ≡ result }
        ensures early { is_ending self.old ≡ true → (result ≡ None) × (self.new ≡ self.old) }
        ensures line { line_of self.new ≡ line_of self.old }
        ensures going { (start : List _) (polls : List Poll) → IsRunning start polls self.old
            → IsRunning start polls self.new }
        ensures over { (start : List _) (polls : List Poll) → result ≡ None
            → is_ending self.old ≡ false → IsRunning start polls self.old
            → IsOver all_held OwnPushes NothingBehind start polls self.new.run }
    {
        if self.ending {
            return None;
        }
        self.run.next(&mut self.list)
    }

    // Ends the run, and returns its report.
    #[tactic(auto, using(crate::proofs::QueueFacts::finish_keeps, crate::proofs::LineFacts::finish_line))]
    #[inline(always)]
    fn finish(&mut self) -> RunReport
        requires free { AwaitsNothing self.old }
        requires runs { is_running self.old ≡ true }
        ensures nothing { HoldsNothing self.new.run }
        ensures within { KeepsLimits (driver_limits self.old) result }
        ensures devices { self.new.devices ≡ self.old.devices }
        ensures counts { self.new.counts ≡ self.old.counts }
        ensures pacings { self.new.pacings ≡ self.old.pacings }
        ensures limits { self.new.limits ≡ self.old.limits }
        ensures number { said_number_of self.new ≡ said_number_of self.old }
        ensures runs { is_running self.new ≡ false }
        ensures ending { is_ending self.new ≡ false }
        ensures squeezed { is_ending self.old ≡ true → result.squeezed ≡ true }
        ensures line { line_of self.new ≡ line_of self.old ++ self.old.run.repoll }
        ensures ended { (start : List _) (polls : List Poll) → is_ending self.old ≡ false
            → IsRunning start polls self.old
            → IsOver all_held OwnPushes NothingBehind start polls self.old.run
            → IsDriverReport (driver_limits self.old) start polls self.new result }
        ensures early { (start : List _) (polls : List Poll) → is_ending self.old ≡ true
            → IsRunning start polls self.old → IsEndedEarly polls self.old self.new result }
    {
        let report = self.run.finish(&mut self.list);
        let squeezed = report.squeezed || self.ending;
        self.runs = false;
        self.ending = false;
        RunReport { squeezed, ..report }
    }

    // Returns what follows the end of a run with this report.
    #[tactic(auto, using(crate::proofs::QueueFacts::all_rest))]
    #[inline(always)]
    fn after(&self, report: RunReport) -> What
        requires chores { All (λ device. chore_at device.stage ≡ None)
            (driver_devices self.now) }
        requires nothing { HoldsNothing self.now.run }
        requires within { KeepsLimits (driver_limits self.now) report }
        ensures due { IsDue self.now result }
        ensures report { ended_in result ≡ Some report }
        ensures squeezed { report.squeezed ≡ true → result ≡ Ended report }
        ensures number { (before after : _) → after ≡ before
            → IsNumberedWhat before after 0 result }
    {
        if report.squeezed || !self.list.is_empty() {
            return What::Ended(report);
        }
        What::Sleep(report)
    }

    // Writes the next poll of the run, or its end, to the place, and returns it.
    #[tactic(auto, using(crate::proofs::QueueFacts::asked_is_listed, crate::proofs::QueueFacts::asked_in_range))]
    #[inline(always)]
    fn advance_into<P: TodoPlace>(&mut self, place: &mut P) -> Todo
        requires free { AwaitsNothing self.old }
        requires runs { is_running self.old ≡ true }
        requires chores { All (λ device. chore_at device.stage ≡ None)
            (driver_devices self.old) }
        ensures due { IsDue self.new result.what }
        ensures number { IsNumberedTodo (said_number_of self.old) (said_number_of self.new) result }
        ensures devices { self.new.devices ≡ self.old.devices }
        ensures counts { self.new.counts ≡ self.old.counts }
        ensures pacings { self.new.pacings ≡ self.old.pacings }
        ensures limits { self.new.limits ≡ self.old.limits }
        ensures going { (start : List _) (polls : List Poll) → IsRunning start polls self.old
            → is_running self.new ≡ true → IsRunning start polls self.new }
        ensures ended { (start : List _) (polls : List Poll) (report : _)
            → ended_in result.what ≡ Some report → IsRunning start polls self.old
            → is_ending self.old ≡ false
            → IsDriverReport (driver_limits self.old) start polls self.new report }
        ensures early { (start : List _) (polls : List Poll) (report : _)
            → result.what ≡ Ended report → IsRunning start polls self.old
            → is_ending self.old ≡ true → IsEndedEarly polls self.old self.new report }
        ensures stops { is_ending self.old ≡ true → EndsSqueezed result.what }
        ensures line { AddsToLine self.old self.new }
        ensures ending { is_running self.new ≡ true → is_ending self.new ≡ is_ending self.old }
        ensures takes { P.takes place.old result place.new }
    {
        match self.next_device() {
            Some(device) => {
                self.number = following(self.number);
                let fetch = self.todo(What::Fetch(device, self.pacing(device).settings.weight));
                place.put(fetch);
                fetch
            }
            None => {
                let report = self.finish();
                let over = Todo {
                    number: 0,
                    what: self.after(report),
                };
                place.put(over);
                over
            }
        }
    }

    // Returns the time of a device's timer.
    #[inline(always)]
    fn timeout(&self, device: u32) -> u64
        requires { device < length (driver_devices self.now) }
        ensures { result ≡ timeout_of self.now device }
    {
        self.pacings[device as usize].settings.gro_flush_timeout
    }

    // Returns this action, under the number of the action returned last.
    #[inline(always)]
    fn todo(&self, what: What) -> Todo
        ensures number { result.number ≡ said_number_of self.now }
        ensures what { result.what ≡ what }
    {
        Todo {
            number: self.number,
            what,
        }
    }

    // Returns the action that was returned last, if it isn't reported yet.
    #[tactic(auto, using(crate::proofs::QueueFacts::asked_is_listed, crate::proofs::QueueFacts::asked_in_range))]
    #[inline(always)]
    fn last(&self) -> Option<Todo>
        ensures none { IfNone result (AwaitsNothing self.now) }
        ensures due { IfSome result (λ todo. IsDue self.now todo.what) }
        ensures number { IfSome result (λ todo. todo.number ≡ said_number_of self.now) }
        ensures free { IfSome result (λ _. ¬ AwaitsNothing self.now) }
        ensures more { IfSome result (λ todo. ended_in todo.what ≡ None) }
    {
        if let Some(device) = self.run.asked() {
            return Some(self.todo(What::Fetch(device, self.pacing(device).settings.weight)));
        }
        let (device, chore) = self.said?;
        Some(self.todo(what_of(device, self.timeout(device), chore)))
    }

    // Like `ask_into`, if a run is in progress and no card needs an action.
    #[inline(always)]
    fn go_on_into<P: TodoPlace>(&mut self, place: &mut P) -> Todo
        requires free { AwaitsNothing self.old }
        requires runs { is_running self.old ≡ true }
        requires chores { All (λ device. chore_at device.stage ≡ None)
            (driver_devices self.old) }
        ensures asks { AsksNext self.old result self.new }
        ensures takes { P.takes place.old result place.new }
    {
        self.advance_into(place)
    }

    // Like `ask_into`, if no run is in progress and no card needs an action: a run begins.
    #[inline(always)]
    fn begin_into<P: TodoPlace>(&mut self, place: &mut P) -> Todo
        requires free { AwaitsNothing self.old }
        requires chores { All (λ device. chore_at device.stage ≡ None)
            (driver_devices self.old) }
        ensures asks { AsksNext self.old result self.new }
        ensures takes { P.takes place.old result place.new }
    {
        self.begin();
        self.advance_into(place)
    }

    // Writes what the caller has to do next to the place, and returns it, if no report is awaited.
    #[tactic(auto, using(crate::proofs::QueueFacts::all_rest))]
    #[inline(always)]
    pub(crate) fn ask_into<P: TodoPlace>(&mut self, place: &mut P) -> Todo
        requires free { AwaitsNothing self.old }
        ensures asks { AsksNext self.old result self.new }
        ensures takes { P.takes place.old result place.new }
    {
        if let Some((device, chore)) = self.devices.first_chore() {
            self.said = Some((device, chore));
            self.number = following(self.number);
            let act = self.todo(what_of(device, self.timeout(device), chore));
            place.put(act);
            return act;
        }
        if self.runs {
            return self.go_on_into(place);
        }
        if self.list.is_empty() {
            let sleep = Todo {
                number: 0,
                what: What::Sleep(NO_RUN),
            };
            place.put(sleep);
            return sleep;
        }
        self.begin_into(place)
    }

    // Like `next_into`, out of line: most callers have reported the action that was returned last.
    #[cold]
    #[inline(never)]
    pub(crate) fn again_into<P: TodoPlace>(&mut self, place: &mut P) -> Todo
        ensures asks { AsksNext self.old result self.new }
        ensures takes { P.takes place.old result place.new }
    {
        self.next_into(place)
    }

    /// Like [`next`](Driver::next); what it returns is also written to the place.
    #[inline(always)]
    pub fn next_into<P: TodoPlace>(&mut self, place: &mut P) -> Todo
        ensures asks { AsksNext self.old result self.new }
        ensures takes { P.takes place.old result place.new }
    {
        let Some(todo) = self.last() else {
            return self.ask_into(place);
        };
        place.put(todo);
        todo
    }

    /// Returns what the caller has to do next. It returns the same action, with the same number, until that action is reported
    /// or isn't due any more.
    pub fn next(&mut self) -> Todo
        ensures { AsksNext self.old result self.new }
    {
        self.next_into(&mut Nowhere)
    }

    /// Like [`step`](Driver::step); what it returns is also written to the place, unless a fetch took too many packets.
    #[inline(always)]
    pub fn step_into<P: TodoPlace>(
        &mut self,
        number: u64,
        packets: u32,
        rearm: Rearm,
        place: &mut P,
    ) -> (Result<(), Refused>, Todo)
        ensures steps { IsStep number packets rearm self.old result.0 result.1 self.new }
        ensures takes { result.0 ≢ Err TooMany → P.takes place.old result.1 place.new }
        ensures kept { result.0 ≡ Err TooMany → place.new ≡ place.old }
    {
        match self.done(number, packets, rearm) {
            Ok(()) => (Ok(()), self.ask_into(place)),
            Err(Refused::NotDue) => (Err(Refused::NotDue), self.next_into(place)),
            Err(Refused::TooMany) => (Err(Refused::TooMany), self.again_into(&mut Nowhere)),
        }
    }

    /// Reports that the action with this number was done, and returns what the caller has to do next: [`done`](Driver::done) and
    /// then [`next`](Driver::next) in one call. Number 0 reports nothing, so that report fails with `NotDue`. If the report
    /// fails, nothing has changed, and the caller gets what `next` returns then.
    pub fn step(&mut self, number: u64, packets: u32, rearm: Rearm) -> (Result<(), Refused>, Todo)
        ensures { IsStep number packets rearm self.old result.0 result.1 self.new }
    {
        self.step_into(number, packets, rearm, &mut Nowhere)
    }
}
