//! Poll lists and runs for C.
ghost use Rattle.std.specs.Prelude.{◌≡◌, ◌≢◌, ◌↔◌, IsSome};
ghost use Rattle.c_handles.specs.Handles.{LeadsToList, ListMakes, ListMakesIn};
ghost use Rattle.c_handles.specs.Runs.{IsNewListObject, IsLength, IsPush, IsRemoveCall, IsBeginCall, IsNext, IsPolledCall, IsEnd};
ghost use Rattle.c_handles.specs.Status.{OK, IN_USE, OUT_OF_MEMORY, BAD_SIZE};

use c_handles::{FqHandle, FqRunReport, ListObject, Object, status};
use std::alloc::Global;
use std::mem::size_of;

/// Makes a poll list of one thread.
#[unsafe(no_mangle)]
pub extern "C" fn fq_list_new(alloc: Global, handle: &mut FqHandle) -> u32
    ensures made { result ≡ OK → LeadsToList IsNewListObject handle.new.held.body }
    ensures kept { result ≢ OK → handle.new ≡ handle.old }
    ensures in_use { (result ≡ IN_USE) ↔ IsSome handle.old.held.body }
    ensures memory { result ≢ OK → result ≢ IN_USE → result ≡ OUT_OF_MEMORY }
{
    if handle.is_set() {
        return status::IN_USE;
    }
    let Ok(list) = Box::new(alloc, ListObject::new()) else {
        return status::OUT_OF_MEMORY;
    };
    match Box::new(alloc, Object::List(list)) {
        Ok(body) => {
            handle.put(body);
            status::OK
        }
        Err(_) => status::OUT_OF_MEMORY,
    }
}

/// Appends a number to the list: returns OK; IN_USE if the list or its run has it already; FULL if they hold 64.
#[unsafe(no_mangle)]
pub extern "C" fn fq_list_push(handle: &mut FqHandle, id: u32) -> u32
    ensures { ListMakes (IsPush id) handle.old result handle.new }
{
    if !handle.is_set() {
        return status::BAD_HANDLE;
    }
    match handle.held.as_mut() {
        Object::List(list) => list.push(id),
        _ => status::BAD_HANDLE,
    }
}

/// Removes a number from the list, for a device that goes away; the others keep their order. Returns OK; BUSY if it isn't on
/// the list, but the run over the list polls it or will; NOT_THERE if neither has it. Nothing changes unless it returns OK.
#[unsafe(no_mangle)]
pub extern "C" fn fq_list_remove(handle: &mut FqHandle, id: u32) -> u32
    ensures { ListMakes (IsRemoveCall id) handle.old result handle.new }
{
    if !handle.is_set() {
        return status::BAD_HANDLE;
    }
    match handle.held.as_mut() {
        Object::List(list) => list.remove(id),
        _ => status::BAD_HANDLE,
    }
}

/// Returns how many numbers the list and its run hold together.
#[unsafe(no_mangle)]
pub extern "C" fn fq_list_len(handle: &mut FqHandle, len: &mut u32) -> u32
    ensures makes { ListMakes (IsLength len.old len.new) handle.old result handle.new }
    ensures none { result ≢ OK → len.new ≡ len.old }
{
    if !handle.is_set() {
        return status::BAD_HANDLE;
    }
    match &*handle.held.as_mut() {
        Object::List(list) => {
            *len = list.len() as u32;
            status::OK
        }
        _ => status::BAD_HANDLE,
    }
}

/// Starts a run, like `PollingRun::begin`.
#[unsafe(no_mangle)]
pub extern "C" fn fq_run_begin(handle: &mut FqHandle, budget: u32, weight: u32, window: u32) -> u32
    ensures { ListMakes (IsBeginCall budget weight window) handle.old result handle.new }
{
    if !handle.is_set() {
        return status::BAD_HANDLE;
    }
    match handle.held.as_mut() {
        Object::List(list) => list.begin(budget, weight, window),
        _ => status::BAD_HANDLE,
    }
}

/// Sets `id` to the number to poll next, and returns OK; returns DONE if the run is over (`PollingRun::next`).
#[unsafe(no_mangle)]
pub extern "C" fn fq_run_next(handle: &mut FqHandle, id: &mut u32) -> u32
    ensures makes { ListMakes (IsNext id.old id.new) handle.old result handle.new }
    ensures none { result ≢ OK → id.new ≡ id.old }
{
    if !handle.is_set() {
        return status::BAD_HANDLE;
    }
    match handle.held.as_mut() {
        Object::List(list) => list.next(id),
        _ => status::BAD_HANDLE,
    }
}

/// Reports the outcome of the poll, like `PollingRun::polled`. Returns IN_USE if its number would go back to a list that has it
/// already.
#[unsafe(no_mangle)]
pub extern "C" fn fq_run_polled(handle: &mut FqHandle, work: u32, next: u32) -> u32
    ensures { ListMakes (IsPolledCall work next) handle.old result handle.new }
{
    if !handle.is_set() {
        return status::BAD_HANDLE;
    }
    match handle.held.as_mut() {
        Object::List(list) => list.polled(work, next),
        _ => status::BAD_HANDLE,
    }
}

/// Ends the run, like `PollingRun::end`.
#[unsafe(no_mangle)]
pub extern "C" fn fq_run_end_sized(handle: &mut FqHandle, report: &mut FqRunReport) -> u32
    ensures size { report.old.size ≢ 24 → (result ≡ BAD_SIZE) × (handle.new ≡ handle.old) }
    ensures makes { report.old.size ≡ 24
        → ListMakes (IsEnd report.old report.new) handle.old result handle.new }
    ensures none { result ≢ OK → report.new ≡ report.old }
{
    if report.size != size_of::<FqRunReport>() {
        return status::BAD_SIZE;
    }
    if !handle.is_set() {
        return status::BAD_HANDLE;
    }
    match handle.held.as_mut() {
        Object::List(list) => list.end(report),
        _ => status::BAD_HANDLE,
    }
}
