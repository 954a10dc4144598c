//! The calls of a driver, and their statuses.

ghost use Rattle.std.specs.Prelude.{◌≡◌, ◌<◌, false, length, nat_lt};
ghost use Rattle.driver_core.specs.Driver.{driver_devices};
ghost use Rattle.c_handles.specs.Status.{OK};
ghost use Rattle.c_handles.specs.Drivers.{device_in, most_in, rearm_in, unset_packets, reply_status, squeezed_in, nanoseconds_in, settings_in, shown_of, device_state_in, todo_in, what_in, IsDriverEndRun, IsDriverInterrupt, IsDriverNext, IsDriverOpen, IsDriverSet, IsDriverStep, IsDriverTimer, IsDriverTurn, IsTodoReport, IsDriverShow, IsDriverStop, TakesTurn, report_status};

use crate::status;
use driver_core::{
    DeviceSettings, Driver, DriverDevice, Rearm, Refused, Stage, Todo, TodoPlace, What,
};
use napi_model::Prep;
use std::mem::size_of;

/// What a driver has to do: `struct fq_todo`.
#[repr(C)]
#[derive(Clone, Copy)]
pub struct FqTodo {
    /// The number under which to report it; 0 if there is nothing to report.
    pub number: u64,
    /// The time after which the device's timer has to expire.
    pub nanoseconds: u64,
    /// What has to be done (`enum fq_what`).
    pub what: u32,
    /// The device.
    pub device: u32,
    /// The packets that a fetch may take; after the end of a run its polls.
    pub most: u32,
    /// The packets that a fetch took, or a look found: set by the caller; after the end of a run its packets.
    pub packets: u32,
    /// Whether a fetch also unmasked the card and then looked at it (`enum fq_rearm`): set by the caller.
    pub rearm: u32,
    /// Why the call failed, or that the report before it came too late.
    pub status: u16,
    /// Whether a fetch begins by masking the card.
    pub mask: bool,
    /// Whether the run that ended was squeezed.
    pub squeezed: bool,
}

/// The settings of a device: `struct fq_device_settings`.
#[repr(C)]
#[derive(Clone, Copy)]
pub struct FqDeviceSettings {
    /// The size of this struct in bytes.
    pub size: usize,
    /// The packets that one poll takes at most.
    pub weight: u32,
    /// How many completions in a row defer the interrupt.
    pub defer_hard_irqs: u32,
    /// For how many nanoseconds they do.
    pub gro_flush_timeout: u64,
    /// The empty polls in a row after which busy polling ends.
    pub empty_polls: u32,
}

/// The state of a device, for display: `struct fq_device_shown`.
#[repr(C)]
#[derive(Clone, Copy)]
pub struct FqDeviceShown {
    /// The size of this struct in bytes.
    pub size: usize,
    /// Closed, open or being stopped (`enum fq_device_state`).
    pub state: u32,
    /// Whether a poll was requested and isn't completed.
    pub scheduled: bool,
    /// Whether another interrupt came meanwhile.
    pub missed: bool,
    /// The polls that were reported.
    pub polls: u64,
    /// Their packets.
    pub packets: u64,
}

// The number of no action, after a call that failed.
const FAILED: u32 = 6;

// Returns the number of an action (`enum fq_what`).
#[inline(always)]
fn what_in(what: What) -> u32
    ensures { result ≡ what_in what }
{
    match what {
        What::Sleep(_) => 0,
        What::Mask(_) => 1,
        What::Unmask(_) => 2,
        What::Look(_) => 3,
        What::Fetch(_, _) => 4,
        What::Ended(_) => 5,
        What::Timer(_, _) => 7,
    }
}

// Returns the device of an action.
#[inline(always)]
fn device_in(what: What) -> u32
    ensures { result ≡ device_in what }
{
    match what {
        What::Mask(device)
        | What::Unmask(device)
        | What::Look(device)
        | What::Timer(device, _)
        | What::Fetch(device, _) => device,
        What::Sleep(_) | What::Ended(_) => 0,
    }
}

// Returns the packets that a fetch may take, or the polls of the run that ended.
#[inline(always)]
fn most_in(what: What) -> u32
    ensures { result ≡ most_in what }
{
    match what {
        What::Fetch(_, most) => most,
        What::Ended(report) | What::Sleep(report) => report.polls,
        _ => 0,
    }
}

// Returns the packets of an action that the caller doesn't set: a look that was forgotten leads to a poll; or those of the run that ended.
#[inline(always)]
fn unset_packets(what: What) -> u32
    ensures { result ≡ unset_packets what }
{
    match what {
        What::Look(_) => 1,
        What::Ended(report) | What::Sleep(report) => report.work,
        _ => 0,
    }
}

// Returns whether the run that ended was squeezed.
#[inline(always)]
fn squeezed_in(what: What) -> bool
    ensures { result ≡ squeezed_in what }
{
    match what {
        What::Ended(report) | What::Sleep(report) => report.squeezed,
        _ => false,
    }
}

// Returns the time of a timer.
#[inline(always)]
fn nanoseconds_in(what: What) -> u64
    ensures { result ≡ nanoseconds_in what }
{
    match what {
        What::Timer(_, nanoseconds) => nanoseconds,
        _ => 0,
    }
}

impl TodoPlace for FqTodo {
    ghost use Rattle.c_handles.specs.Drivers.{todo_in};

    ghost takes = { λ before todo after. after ≡ todo_in OK false todo.number todo.what };

    #[inline(always)]
    fn put(&mut self, todo: Todo) {
        let Todo { number, what } = todo;
        self.number = number;
        self.nanoseconds = nanoseconds_in(what);
        self.what = what_in(what);
        self.device = device_in(what);
        self.most = most_in(what);
        self.packets = unset_packets(what);
        self.rearm = 0;
        self.status = 0;
        self.mask = false;
        self.squeezed = squeezed_in(what);
    }
}

impl FqTodo {
    ghost use Rattle.c_handles.specs.Drivers.{failed_in, step_status, todo_settled};

    /// Writes that a call failed with this status, which it returns: there is nothing to do.
    #[cold]
    #[inline(never)]
    pub fn fail(&mut self, status: u32) -> u32
        requires { status < 65536 }
        ensures written { self.new ≡ failed_in status }
        ensures status { result ≡ status }
    {
        *self = FqTodo {
            number: 0,
            nanoseconds: 0,
            what: FAILED,
            device: 0,
            most: 0,
            packets: 0,
            rearm: 0,
            status: status as u16,
            mask: false,
            squeezed: false,
        };
        status
    }

    // Ends a call whose report had this status, and returns the call's own. If the report was of another action than the one that waits,
    // or of too many packets, the call failed; else the next action was written, which the caller learns with the report's status, and
    // whether to mask the card first.
    #[inline(always)]
    fn settle(&mut self, is_other: bool, said: u32, mask: bool) -> u32
        requires { said < 65536 }
        ensures written { self.new ≡ todo_settled is_other said mask self.old }
        ensures status { result ≡ step_status is_other said }
    {
        if is_other {
            return self.fail(status::NOT_REPORTED);
        }
        if said == status::BAD_WORK {
            return self.fail(said);
        }
        self.status = said as u16;
        self.mask = mask;
        status::OK
    }
}

// Returns whether a fetch unmasked the card and then looked at it, by its number (`enum fq_rearm`). A number that isn't known counts as
// a card that had packets, which is then masked and polled again.
#[inline(always)]
fn rearm_of(number: u32) -> Rearm
    ensures { result ≡ rearm_in number }
{
    match number {
        0 => Rearm::No,
        2 => Rearm::Empty,
        _ => Rearm::More,
    }
}

// Returns the status of the report of an action with this number.
#[inline(always)]
fn report_status(number: u64, reported: Result<(), Refused>) -> u32
    ensures status { result ≡ report_status number reported }
    ensures small { result < 65536 }
{
    match reported {
        Ok(()) => status::OK,
        Err(Refused::TooMany) => status::BAD_WORK,
        Err(Refused::NotDue) => {
            if number == 0 {
                status::OK
            } else {
                status::NOT_DUE
            }
        }
    }
}

/// Reports that the action in `todo` was done (`Driver::done`); number 0 reports nothing.
#[inline(always)]
pub fn done(driver: &mut Driver, todo: &FqTodo) -> u32
    ensures { IsTodoReport todo.now.number todo.now.packets todo.now.rearm driver.old result
        driver.new }
{
    let reported = driver.done(todo.number, todo.packets, rearm_of(todo.rearm));
    report_status(todo.number, reported)
}

/// Sets `todo` to the next action (`Driver::next`). A fetch that is returned again, since it wasn't reported, masks the card again.
#[inline(always)]
pub fn next(driver: &mut Driver, todo: &mut FqTodo) -> u32
    ensures { IsDriverNext todo.new driver.old result driver.new }
{
    let mask = driver.polled().is_some();
    driver.next_into(todo);
    todo.settle(false, status::OK, mask)
}

/// Reports that the action in `todo` was done, unless its number is 0, and sets `todo` to the next one (`Driver::step`).
#[inline(always)]
pub fn step(driver: &mut Driver, todo: &mut FqTodo) -> u32
    ensures { IsDriverStep todo.old todo.new driver.old result driver.new }
{
    let number = todo.number;
    let packets = todo.packets;
    let rearm = rearm_of(todo.rearm);
    let is_other = driver.awaits_another(number);
    let (reported, _) = driver.step_into(number, packets, rearm, todo);
    todo.settle(is_other, report_status(number, reported), false)
}

// Like `turn`, if each bit is that of a device.
#[inline(always)]
fn take_turn(driver: &mut Driver, interrupts: u64, todo: &mut FqTodo) -> u32
    ensures { TakesTurn interrupts todo.old todo.new driver.old result driver.new }
{
    let number = todo.number;
    let packets = todo.packets;
    let rearm = rearm_of(todo.rearm);
    let is_other = driver.awaits_another(number);
    let (reported, mask, _) = driver.turn_into(interrupts, number, packets, rearm, todo);
    todo.settle(is_other, report_status(number, reported), mask.is_some())
}

/// Reports that the action in `todo` was done, unless its number is 0, and the interrupts of the devices whose bits are set, and sets `todo` to the
/// next action (`Driver::turn_into`).
#[inline(always)]
pub fn turn(driver: &mut Driver, interrupts: u64, todo: &mut FqTodo) -> u32
    ensures { IsDriverTurn interrupts todo.old todo.new driver.old result driver.new }
{
    if !driver.has_devices(interrupts) {
        return todo.fail(status::BAD_DEVICE);
    }
    take_turn(driver, interrupts, todo)
}

#[inline(always)]
fn has_device(driver: &Driver, device: u32) -> bool
    ensures { result ≡ nat_lt device (length (driver_devices driver.now)) }
{
    (device as usize) < driver.len()
}

/// Reports an interrupt of a card (`Driver::interrupt`).
#[inline(always)]
pub fn interrupt(driver: &mut Driver, device: u32) -> u32
    ensures { IsDriverInterrupt device driver.old result driver.new }
{
    if !has_device(driver, device) {
        return status::BAD_DEVICE;
    }
    match driver.interrupt(device) {
        Prep::Granted => status::GRANTED,
        Prep::Missed => status::MISSED,
        Prep::Disabled => status::DISABLED,
    }
}

/// Reports that the timer of a device expired (`Driver::timer`).
pub fn timer(driver: &mut Driver, device: u32) -> u32
    ensures { IsDriverTimer device driver.old result driver.new }
{
    if !has_device(driver, device) {
        return status::BAD_DEVICE;
    }
    if driver.timer(device) {
        status::GRANTED
    } else {
        status::NOT_DUE
    }
}

// Returns these settings.
fn settings_of(settings: &FqDeviceSettings) -> DeviceSettings
    ensures { result ≡ settings_in settings.now }
{
    DeviceSettings {
        weight: settings.weight,
        defer_hard_irqs: settings.defer_hard_irqs,
        gro_flush_timeout: settings.gro_flush_timeout,
        empty_polls: settings.empty_polls,
    }
}

/// Sets the settings of a device that is closed (`Driver::set`).
pub fn set(driver: &mut Driver, device: u32, settings: &FqDeviceSettings) -> u32
    ensures { IsDriverSet device settings.now driver.old result driver.new }
{
    if !has_device(driver, device) {
        return status::BAD_DEVICE;
    }
    if settings.weight == 0 || settings.weight > driver.limits().weight {
        return status::BAD_WEIGHT;
    }
    if settings.defer_hard_irqs > 0 && settings.gro_flush_timeout == 0 {
        return status::BAD_SETTING;
    }
    match driver.set(device, settings_of(settings)) {
        Ok(()) => status::OK,
        Err(_) => status::NOT_ALLOWED,
    }
}

/// Ends the run in progress (`Driver::end_run`).
pub fn end_run(driver: &mut Driver) -> u32
    ensures { IsDriverEndRun driver.old result driver.new }
{
    match driver.end_run() {
        Ok(()) => status::OK,
        Err(_) => status::NOT_DUE,
    }
}

/// Opens a device (`Driver::open`).
pub fn open(driver: &mut Driver, device: u32) -> u32
    ensures { IsDriverOpen device driver.old result driver.new }
{
    if !has_device(driver, device) {
        return status::BAD_DEVICE;
    }
    match driver.open(device) {
        Ok(()) => status::OK,
        Err(_) => status::NOT_DUE,
    }
}

/// Stops a device (`Driver::stop`).
pub fn stop(driver: &mut Driver, device: u32) -> u32
    ensures { IsDriverStop device driver.old result driver.new }
{
    if !has_device(driver, device) {
        return status::BAD_DEVICE;
    }
    match driver.stop(device) {
        Ok(()) => status::OK,
        Err(_) => status::NOT_DUE,
    }
}

// Returns the number of a device's state (`enum fq_device_state`).
fn state_of(device: DriverDevice) -> u32
    ensures { result ≡ device_state_in device.stage }
{
    match device.stage {
        Stage::Closed => 0,
        Stage::Closing => 2,
        Stage::Masking(stopping) | Stage::Listed(stopping) => { if stopping { 2 } else { 1 } }
        Stage::Unmasking | Stage::Looking | Stage::Armed | Stage::Deferring | Stage::Deferred => 1,
    }
}

/// Sets `shown` to the state and the counts of a device.
pub fn show(driver: &Driver, device: u32, shown: &mut FqDeviceShown) -> u32
    ensures { IsDriverShow shown.old shown.new device driver.now result driver.now }
{
    if !has_device(driver, device) {
        return status::BAD_DEVICE;
    }
    let is = driver.device(device);
    let counts = driver.counts(device);
    *shown = FqDeviceShown {
        size: shown.size,
        state: state_of(is),
        scheduled: is.is_scheduled(),
        missed: is.missed,
        polls: counts.polls,
        packets: counts.packets,
    };
    status::OK
}
