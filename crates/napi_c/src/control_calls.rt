//! The calls of the controller of a shared instance.
ghost use Rattle.std.specs.Prelude.{◌≡◌, ◌≢◌, true, false};
ghost use Rattle.c_handles.specs.Freeing.{is_control_off};
ghost use Rattle.c_handles.specs.Handles.{ControlDoes, ControlMakes, LeadsToController};
ghost use Rattle.c_handles.specs.CallerCalls.{ControlEnables, ControlMarks, ControlTakes};
ghost use Rattle.c_handles.specs.Status.{OK, BAD_HANDLE};
ghost use Rattle.napi_c.specs.Objects.{is_caller, is_controller, is_object};
ghost use Rattle.napi_c.specs.Rules.{ControlSteps, IsSwitched, ControlStops};

use crate::attempts::{EnableAttempt, TakeAttempt, repeat};
use c_handles::{Controller, FqHandle, Object, status};
use napi_calls::ControlState;

/// Like `Control::try_enable`: returns OK or CHANGED; NOT_ALLOWED if the instance isn't disabled.
#[unsafe(no_mangle)]
pub extern "C" fn fq_control_enable(handle: &mut FqHandle, threaded: bool) -> u32
    ensures { ControlMakes (ControlEnables threaded) handle.old result handle.new }
{
    if !handle.is_set() {
        return status::BAD_HANDLE;
    }
    match handle.held.as_mut() {
        Object::Controller(control) => control.enable(threaded),
        _ => status::BAD_HANDLE,
    }
}

/// Like `Control::mark`: returns OK; NOT_ALLOWED if the instance isn't enabled, or is marked already.
#[unsafe(no_mangle)]
pub extern "C" fn fq_control_mark(handle: &mut FqHandle) -> u32
    ensures { ControlMakes ControlMarks handle.old result handle.new }
{
    if !handle.is_set() {
        return status::BAD_HANDLE;
    }
    match handle.held.as_mut() {
        Object::Controller(control) => control.mark(),
        _ => status::BAD_HANDLE,
    }
}

/// Like `Control::try_take`: returns TAKEN, BUSY or CHANGED; NOT_ALLOWED if no disable is pending.
#[unsafe(no_mangle)]
pub extern "C" fn fq_control_try_take(handle: &mut FqHandle) -> u32
    ensures { ControlMakes ControlTakes handle.old result handle.new }
{
    if !handle.is_set() {
        return status::BAD_HANDLE;
    }
    match handle.held.as_mut() {
        Object::Controller(control) => control.try_take(),
        _ => status::BAD_HANDLE,
    }
}

fn is_off(control: &Controller) -> bool
    ensures { result ≡ is_control_off control.now.state }
{
    matches!(control.state, ControlState::Off(_))
}

// Marks the instance for a disable, unless that is done already, and tries to take it.
fn stop(control: &mut Controller) -> u32
    ensures makes { ControlStops control.old result control.new }
    ensures off { result ≡ OK → IsSwitched false control.new.state }
{
    if is_off(control) {
        return status::OK;
    }
    control.mark();
    match repeat(control, &TakeAttempt) {
        status::TAKEN => status::OK,
        other => other,
    }
}

// Enables the instance.
fn start(control: &mut Controller, threaded: bool) -> u32
    ensures makes { ControlSteps true threaded control.old result control.new }
    ensures on { result ≡ OK → IsSwitched true control.new.state }
{
    repeat(control, &EnableAttempt { threaded })
}

/// Makes one step of a driver's open (`on`: `napi_enable`) or stop (`napi_disable`), whose attempts are repeated while another
/// thread interferes. Returns OK: the instance is enabled, or it is off, as it may have been before; BUSY: a disable is pending,
/// and the instance's owner has to complete it before the next step; NOT_ALLOWED to open an instance that isn't off; CHANGED
/// only after 2^64 attempts.
#[unsafe(no_mangle)]
pub extern "C" fn fq_control_step(handle: &mut FqHandle, on: bool, threaded: bool) -> u32
    ensures makes { ControlDoes (ControlSteps on threaded) handle.old result handle.new }
    ensures switched { result ≡ OK
        → LeadsToController (λ c. IsSwitched on c.state) handle.new.held.body }
{
    if !handle.is_set() {
        return status::BAD_HANDLE;
    }
    match handle.held.as_mut() {
        Object::Controller(control) => {
            if on {
                start(control, threaded)
            } else {
                stop(control)
            }
        }
        _ => status::BAD_HANDLE,
    }
}

/// Returns OK if the caller belongs to the controller's instance, otherwise BAD_HANDLE. Both handles keep their objects.
#[unsafe(no_mangle)]
pub extern "C" fn fq_control_has(handle: &mut FqHandle, caller: &mut FqHandle) -> u32
    ensures status { result ≢ OK → result ≡ BAD_HANDLE }
    ensures kinds { result ≡ OK → (is_object is_controller handle.old.held.body ≡ true)
        × (is_object is_caller caller.old.held.body ≡ true) }
    ensures kept { (handle.new.held.body ≡ handle.old.held.body)
        × (caller.new.held.body ≡ caller.old.held.body) }
{
    if !handle.is_set() || !caller.is_set() {
        return status::BAD_HANDLE;
    }
    match (&*handle.held.as_mut(), &*caller.held.as_mut()) {
        (Object::Controller(control), Object::Caller(caller)) if control.has(caller) => status::OK,
        _ => status::BAD_HANDLE,
    }
}
