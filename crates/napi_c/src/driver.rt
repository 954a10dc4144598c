//! Drivers for C.
ghost use Rattle.std.specs.Prelude.{◌≡◌, ◌≢◌, ◌≤◌, ◌<◌, ◌↔◌, IsSome, IfOk};
ghost use Rattle.c_handles.specs.Drivers.{failed_in, IsDriverEndRun, IsDriverInterrupt, IsNewDriver, IsDriverNext, IsDriverOpen, IsDriverSet, IsDriverShow, IsDriverStep, IsDriverStop, IsDriverTimer, IsDriverTurn, IsTodoReport, new_status};
ghost use Rattle.c_handles.specs.Handles.{DriverMakes, DriverMakesIn, IsDriverWith, LeadsToDriver};
ghost use Rattle.c_handles.specs.Status.{OK, IN_USE, OUT_OF_MEMORY, BAD_HANDLE, BAD_SIZE};

use c_handles::{FqDeviceSettings, FqDeviceShown, FqHandle, FqTodo, Object, drive, status};
use driver_core::{Driver, Limits};
use std::alloc::{AllocError, Global};
use std::mem::size_of;

// Returns a new driver, boxed as the object of a handle.
fn boxed(
    alloc: Global,
    devices: u32,
    limits: Limits,
    salt: u16,
) -> Result<Box<Object, Global>, AllocError>
    requires { devices ≤ 64 }
    ensures { IfOk result (λ b. IsDriverWith
        (IsNewDriver devices limits.budget limits.weight limits.window salt) b.value) }
{
    let driver = Driver::new(alloc, devices, limits, salt)?;
    let driver = Box::new(alloc, driver)?;
    let body = Box::new(alloc, Object::Driver(driver))?;
    Ok(body)
}

/// Makes a driver of this many devices, all closed. Drivers with different salts number their actions differently.
#[unsafe(no_mangle)]
pub extern "C" fn fq_driver_new_salted(
    alloc: Global,
    handle: &mut FqHandle,
    devices: u32,
    budget: u32,
    weight: u32,
    window: u32,
    salt: u16,
) -> u32
    ensures made { result ≡ OK → LeadsToDriver (IsNewDriver devices budget weight window salt)
        handle.new.held.body }
    ensures kept { result ≢ OK → handle.new ≡ handle.old }
    ensures in_use { (result ≡ IN_USE) ↔ IsSome handle.old.held.body }
    ensures status { result ≢ IN_USE → result ≢ OUT_OF_MEMORY
        → result ≡ new_status devices budget weight window }
{
    if handle.is_set() {
        return status::IN_USE;
    }
    if devices == 0 || devices > 64 {
        return status::BAD_COUNT;
    }
    if weight == 0 || weight > 64 {
        return status::BAD_WEIGHT;
    }
    if budget == 0 || budget > 65535 || window == 0 || window > 65535 {
        return status::BAD_BUDGET;
    }
    let limits = Limits {
        budget,
        weight,
        window,
    };
    match boxed(alloc, devices, limits, salt) {
        Ok(body) => {
            handle.put(body);
            status::OK
        }
        Err(_) => status::OUT_OF_MEMORY,
    }
}

/// Opens a device, like `Driver::open`.
#[unsafe(no_mangle)]
pub extern "C" fn fq_driver_open(handle: &mut FqHandle, device: u32) -> u32
    ensures { DriverMakes (IsDriverOpen device) handle.old result handle.new }
{
    if !handle.is_set() {
        return status::BAD_HANDLE;
    }
    match handle.held.as_mut() {
        Object::Driver(driver) => drive::open(driver, device),
        _ => status::BAD_HANDLE,
    }
}

/// Stops a device, like `Driver::stop`.
#[unsafe(no_mangle)]
pub extern "C" fn fq_driver_stop(handle: &mut FqHandle, device: u32) -> u32
    ensures { DriverMakes (IsDriverStop device) handle.old result handle.new }
{
    if !handle.is_set() {
        return status::BAD_HANDLE;
    }
    match handle.held.as_mut() {
        Object::Driver(driver) => drive::stop(driver, device),
        _ => status::BAD_HANDLE,
    }
}

/// Reports an interrupt of a device's card, like `Driver::interrupt`.
#[unsafe(no_mangle)]
pub extern "C" fn fq_driver_interrupt(handle: &mut FqHandle, device: u32) -> u32
    ensures { DriverMakes (IsDriverInterrupt device) handle.old result handle.new }
{
    if !handle.is_set() {
        return status::BAD_HANDLE;
    }
    match handle.held.as_mut() {
        Object::Driver(driver) => drive::interrupt(driver, device),
        _ => status::BAD_HANDLE,
    }
}

/// Reports that the timer of a device expired, like `Driver::timer`.
#[unsafe(no_mangle)]
pub extern "C" fn fq_driver_timer(handle: &mut FqHandle, device: u32) -> u32
    ensures { DriverMakes (IsDriverTimer device) handle.old result handle.new }
{
    if !handle.is_set() {
        return status::BAD_HANDLE;
    }
    match handle.held.as_mut() {
        Object::Driver(driver) => drive::timer(driver, device),
        _ => status::BAD_HANDLE,
    }
}

/// Sets the settings of a device, like `Driver::set`.
#[unsafe(no_mangle)]
pub extern "C" fn fq_driver_set_sized(
    handle: &mut FqHandle,
    device: u32,
    settings: &FqDeviceSettings,
) -> u32
    ensures size { settings.now.size ≢ 32 → (result ≡ BAD_SIZE) × (handle.new ≡ handle.old) }
    ensures makes { settings.now.size ≡ 32
        → DriverMakes (IsDriverSet device settings.now) handle.old result handle.new }
{
    if settings.size != size_of::<FqDeviceSettings>() {
        return status::BAD_SIZE;
    }
    if !handle.is_set() {
        return status::BAD_HANDLE;
    }
    match handle.held.as_mut() {
        Object::Driver(driver) => drive::set(driver, device, settings),
        _ => status::BAD_HANDLE,
    }
}

/// Ends the run in progress, like `Driver::end_run`.
#[unsafe(no_mangle)]
pub extern "C" fn fq_driver_end_run(handle: &mut FqHandle) -> u32
    ensures { DriverMakes IsDriverEndRun handle.old result handle.new }
{
    if !handle.is_set() {
        return status::BAD_HANDLE;
    }
    match handle.held.as_mut() {
        Object::Driver(driver) => drive::end_run(driver),
        _ => status::BAD_HANDLE,
    }
}

/// Reports that an action was done, unless its number is 0, and the interrupts of the devices whose bits are set, and sets `todo` to the next
/// action, like `Driver::turn_into`.
#[tactic(auto, using(crate::proofs::DriverFacts::turn_failed))]
#[unsafe(no_mangle)]
pub extern "C" fn fq_driver_turn(handle: &mut FqHandle, interrupts: u64, todo: &mut FqTodo) -> u32
    ensures makes { DriverMakes (IsDriverTurn interrupts todo.old todo.new) handle.old result
        handle.new }
    ensures none { result ≡ BAD_HANDLE → todo.new ≡ failed_in BAD_HANDLE }
{
    if !handle.is_set() {
        return todo.fail(status::BAD_HANDLE);
    }
    match handle.held.as_mut() {
        Object::Driver(driver) => drive::turn(driver, interrupts, todo),
        _ => todo.fail(status::BAD_HANDLE),
    }
}

/// Sets `todo` to the next action, like `Driver::next`.
#[unsafe(no_mangle)]
pub extern "C" fn fq_driver_next(handle: &mut FqHandle, todo: &mut FqTodo) -> u32
    ensures makes { DriverMakes (IsDriverNext todo.new) handle.old result handle.new }
    ensures none { result ≡ BAD_HANDLE → todo.new ≡ failed_in BAD_HANDLE }
{
    if !handle.is_set() {
        return todo.fail(status::BAD_HANDLE);
    }
    match handle.held.as_mut() {
        Object::Driver(driver) => drive::next(driver, todo),
        _ => todo.fail(status::BAD_HANDLE),
    }
}

/// Reports that an action was done, like `Driver::done`.
#[unsafe(no_mangle)]
pub extern "C" fn fq_driver_done(handle: &mut FqHandle, todo: &FqTodo) -> u32
    ensures { DriverMakes (IsTodoReport todo.now.number todo.now.packets todo.now.rearm) handle.old
        result handle.new }
{
    if !handle.is_set() {
        return status::BAD_HANDLE;
    }
    match handle.held.as_mut() {
        Object::Driver(driver) => drive::done(driver, todo),
        _ => status::BAD_HANDLE,
    }
}

/// Reports that an action was done, unless its number is 0, and sets `todo` to the next action, like `Driver::step`.
#[tactic(auto, using(crate::proofs::DriverFacts::step_failed))]
#[unsafe(no_mangle)]
pub extern "C" fn fq_driver_step(handle: &mut FqHandle, todo: &mut FqTodo) -> u32
    ensures makes { DriverMakes (IsDriverStep todo.old todo.new) handle.old result handle.new }
    ensures none { result ≡ BAD_HANDLE → todo.new ≡ failed_in BAD_HANDLE }
{
    if !handle.is_set() {
        return todo.fail(status::BAD_HANDLE);
    }
    match handle.held.as_mut() {
        Object::Driver(driver) => drive::step(driver, todo),
        _ => todo.fail(status::BAD_HANDLE),
    }
}

/// Sets the state and the counts of a device.
#[unsafe(no_mangle)]
pub extern "C" fn fq_driver_show_sized(
    handle: &mut FqHandle,
    device: u32,
    shown: &mut FqDeviceShown,
) -> u32
    ensures size { shown.old.size ≢ 32 → (result ≡ BAD_SIZE) × (handle.new ≡ handle.old) }
    ensures makes { shown.old.size ≡ 32
        → DriverMakes (IsDriverShow shown.old shown.new device) handle.old result handle.new }
    ensures none { result ≢ OK → shown.new ≡ shown.old }
{
    if shown.size != size_of::<FqDeviceShown>() {
        return status::BAD_SIZE;
    }
    if !handle.is_set() {
        return status::BAD_HANDLE;
    }
    match &*handle.held.as_mut() {
        Object::Driver(driver) => drive::show(driver, device, shown),
        _ => status::BAD_HANDLE,
    }
}
