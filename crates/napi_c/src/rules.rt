//! What the kernel does with a shared instance in several steps: a request and a completion, each repeated while another thread
//! interferes, the queueing of a granted instance, and the end of a poll.
ghost use Rattle.std.specs.Prelude.{◌≡◌, ◌≢◌};
ghost use Rattle.c_handles.specs.Endings.{LeadsToCaller};
ghost use Rattle.c_handles.specs.Handles.{IsCallerWith, AtCaller, AtCallerIn, CallerStep};
ghost use Rattle.c_handles.specs.CallerCalls.{CallerCompletes, CallerSchedules};
ghost use Rattle.c_handles.specs.Callers.{IsGrantedCaller, IsPolling, IsResting};
ghost use Rattle.c_handles.specs.Status.{OK};
ghost use Rattle.napi_c.specs.Rules.{CallerFinishes, CallerEndsFull, is_full_poll, Queues, Repeats, CallerEnds, CallerQueues};
ghost use Rattle.napi_c.specs.Serial.{NEXT_GONE};

use crate::attempts::{CompleteAttempt, ScheduleAttempt, repeat};
use crate::serial_end::{GONE, REPOLL, queue_of, stays_scheduled};
use c_handles::{CallerObject, FqHandle, Object, status};
use napi_calls::CallerState;

/// Requests a poll (`napi_schedule_prep`): like `fq_caller_schedule`, repeated while another thread interferes. Returns GRANTED,
/// MISSED or DISABLED; NOT_ALLOWED if the caller owns the instance; CHANGED only after 2^64 attempts.
#[unsafe(no_mangle)]
pub extern "C" fn fq_caller_schedule_prep(handle: &mut FqHandle) -> u32
    ensures { AtCaller (Repeats (CallerStep CallerSchedules)) handle.old result handle.new }
{
    if !handle.is_set() {
        return status::BAD_HANDLE;
    }
    match handle.held.as_mut() {
        Object::Caller(caller) => repeat(caller, &ScheduleAttempt),
        _ => status::BAD_HANDLE,
    }
}

/// Completes a poll (`napi_complete_done`): like `fq_caller_complete`, repeated while another thread interferes. Returns RELEASED
/// or AGAIN; HELD if the caller busy polls; NOT_ALLOWED if it doesn't poll; CHANGED only after 2^64 attempts.
#[unsafe(no_mangle)]
pub extern "C" fn fq_caller_complete_done(handle: &mut FqHandle) -> u32
    ensures { AtCaller (Repeats (CallerStep CallerCompletes)) handle.old result handle.new }
{
    if !handle.is_set() {
        return status::BAD_HANDLE;
    }
    match handle.held.as_mut() {
        Object::Caller(caller) => repeat(caller, &CompleteAttempt),
        _ => status::BAD_HANDLE,
    }
}

// Queues an instance that the caller was granted, and returns how the poll ended for a run.
fn queue_granted(caller: &mut CallerObject) -> u32
    requires { IsGrantedCaller caller.old.state }
    ensures queues { Queues caller.old result caller.new }
    ensures rests { IsResting caller.new.state }
{
    let Some(seen) = caller.look() else {
        unreachable!()
    };
    let (kind, next) = queue_of(seen.flags);
    caller.hand(kind);
    next
}

/// Queues a granted instance (`____napi_schedule`): for its thread if THREADED is set, on the list otherwise. Sets `next` to
/// which (`enum fq_next`). Returns OK; NOT_ALLOWED if the caller wasn't granted the instance.
#[unsafe(no_mangle)]
pub extern "C" fn fq_caller_hand_again(handle: &mut FqHandle, next: &mut u32) -> u32
    ensures makes { AtCaller (CallerQueues next.new) handle.old result handle.new }
    ensures none { result ≢ OK → next.new ≡ NEXT_GONE }
{
    *next = GONE;
    if !handle.is_set() {
        return status::BAD_HANDLE;
    }
    let Object::Caller(caller) = handle.held.as_mut() else {
        return status::BAD_HANDLE;
    };
    if !matches!(caller.state, CallerState::Granted(_)) {
        return status::NOT_ALLOWED;
    }
    *next = queue_granted(caller);
    status::OK
}

// Completes the poll, and queues the instance again if a request was missed.
fn complete(caller: &mut CallerObject, next: &mut u32) -> u32
    requires { next.old ≡ NEXT_GONE }
    ensures makes { CallerFinishes caller.old result next.new caller.new }
    ensures rests { result ≡ OK → IsResting caller.new.state }
    ensures none { result ≢ OK → next.new ≡ NEXT_GONE }
{
    match repeat(caller, &CompleteAttempt) {
        status::RELEASED => status::OK,
        status::AGAIN => {
            *next = queue_granted(caller);
            status::OK
        }
        other => other,
    }
}

// Returns whether a poll returned its whole weight, and isn't a busy poll.
fn is_full_poll(full: bool, state: &CallerState) -> bool
    ensures { result ≡ is_full_poll full state.now }
{
    full && matches!(state, CallerState::Polls(_))
}

// Ends a poll that returned its whole weight, and isn't a busy poll.
fn end_full(caller: &mut CallerObject, next: &mut u32) -> u32
    requires polls { IsPolling caller.old.state }
    requires gone { next.old ≡ NEXT_GONE }
    ensures makes { CallerEndsFull caller.old result next.new caller.new }
    ensures rests { result ≡ OK → IsResting caller.new.state }
    ensures none { result ≢ OK → next.new ≡ NEXT_GONE }
{
    let Some(seen) = caller.look() else {
        unreachable!()
    };
    if !stays_scheduled(true, seen.flags) {
        return complete(caller, next);
    }
    if seen.flags.sched_threaded {
        return status::HELD;
    }
    *next = REPOLL;
    caller.requeue()
}

fn end_in(at: &mut Object, full: bool, next: &mut u32) -> u32
    ensures makes { AtCallerIn (CallerEnds full next.new) at.old result at.new }
    ensures rests { result ≡ OK → IsCallerWith (λ s. IsResting s.state) at.new }
    ensures none { result ≢ OK → next.new ≡ NEXT_GONE }
{
    *next = GONE;
    let Object::Caller(caller) = at else {
        return status::BAD_HANDLE;
    };
    if is_full_poll(full, &caller.state) {
        return end_full(caller, next);
    }
    complete(caller, next)
}

/// Ends a poll, full or not, as `__napi_poll` and its callers do, and sets `next` to how it ended (`enum fq_next`). After a full
/// poll the instance goes to the list again, or the thread that polls it goes on (HELD), unless a disable is pending. After any
/// other poll it is completed, which is repeated while another thread interferes, and queued again if a request was missed.
/// Returns OK, and the caller owns nothing; HELD, also for a busy poller, and the caller still polls; NOT_ALLOWED if it doesn't
/// poll; CHANGED only after 2^64 attempts, and the caller still polls.
#[unsafe(no_mangle)]
pub extern "C" fn fq_caller_end(handle: &mut FqHandle, full: bool, next: &mut u32) -> u32
    ensures makes { AtCaller (CallerEnds full next.new) handle.old result handle.new }
    ensures rests { result ≡ OK → LeadsToCaller (λ s. IsResting s.state) handle.new.held.body }
    ensures none { result ≢ OK → next.new ≡ NEXT_GONE }
{
    if !handle.is_set() {
        *next = GONE;
        return status::BAD_HANDLE;
    }
    end_in(handle.held.as_mut(), full, next)
}
