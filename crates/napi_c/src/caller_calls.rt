//! The calls of the callers of a shared instance (`fq_caller_..`). Each makes one attempt, and returns CHANGED if another thread
//! interfered.
ghost use Rattle.std.specs.Prelude.{◌≡◌, ◌≢◌, ◌<◌, ◌≤◌, ◌⊎◌, ◌↔◌, true, false, length, take, Some, None};
ghost use Rattle.napi_model.specs.declared.state.Kind.{Kind};
ghost use Rattle.napi_model.specs.declared.event.Done.TheVariants as done;
ghost use Rattle.c_handles.specs.Kinds.{kind_in};
ghost use Rattle.c_handles.specs.Status.{OK, RELEASED, AGAIN, BAD_KIND, BAD_HANDLE, BAD_SIZE, BAD_WEIGHT, NO_ROOM};
ghost use Rattle.c_handles.specs.CallerCalls.{RestsWith, GrantedWith};
ghost use Rattle.c_handles.specs.CallerCalls.{CallerSchedules, CallerHands, CallerTakes, CallerRequeues, CallerCompletes};
ghost use Rattle.c_handles.specs.CallerCalls.{CallerBusyTakes, CallerBusyStops, CallerSetsThreaded};
ghost use Rattle.c_handles.specs.Endings.{EndsByReply, LeadsToCaller};
ghost use Rattle.c_handles.specs.declared.caller.CallerObject.{CallerObject};
ghost use Rattle.c_handles.specs.declared.body.Object.TheVariants as variant;
ghost use Rattle.c_handles.specs.Handles.{CallerMakes, CallerGives, CallerShows};
ghost use Rattle.napi_c.specs.Objects.{is_polling_caller, is_caller, LeadsToKind, LeadsToOther};

use c_handles::{FqAnswers, FqHandle, Object, kind_of, status};
use napi_model::encode;
use rx_ring::{MAX_WEIGHT, Packet};
use std::mem::size_of;

/// Sets `word` to the state word, a sum of bits. Allowed in every state of the caller.
#[unsafe(no_mangle)]
pub extern "C" fn fq_caller_look(handle: &mut FqHandle, word: &mut u64) -> u32
    ensures shows { CallerShows word.old word.new handle.old result handle.new }
    ensures none { result ≢ OK → word.new ≡ word.old }
{
    if !handle.is_set() {
        return status::BAD_HANDLE;
    }
    match handle.held.as_mut() {
        Object::Caller(caller) => match caller.look() {
            Some(seen) => {
                *word = encode(seen);
                status::OK
            }
            None => status::NOT_ALLOWED,
        },
        _ => status::BAD_HANDLE,
    }
}

/// Like `Caller::try_schedule`: returns GRANTED, MISSED, DISABLED or CHANGED; NOT_ALLOWED if the caller owns the instance.
#[unsafe(no_mangle)]
pub extern "C" fn fq_caller_schedule(handle: &mut FqHandle) -> u32
    ensures { CallerMakes CallerSchedules handle.old result handle.new }
{
    if !handle.is_set() {
        return status::BAD_HANDLE;
    }
    match handle.held.as_mut() {
        Object::Caller(caller) => caller.schedule(),
        _ => status::BAD_HANDLE,
    }
}

/// Like `Granted::hand`: returns OK; BAD_KIND; NOT_ALLOWED if the caller wasn't granted the instance.
#[unsafe(no_mangle)]
pub extern "C" fn fq_caller_hand(handle: &mut FqHandle, kind: u32) -> u32
    ensures made { (k : Kind) → kind_in kind ≡ Some k
        → CallerMakes (CallerHands k) handle.old result handle.new }
    ensures bad { kind_in kind ≡ None → (result ≡ BAD_KIND) × (handle.new ≡ handle.old) }
{
    let Some(kind) = kind_of(kind) else {
        return status::BAD_KIND;
    };
    if !handle.is_set() {
        return status::BAD_HANDLE;
    }
    match handle.held.as_mut() {
        Object::Caller(caller) => caller.hand(kind),
        _ => status::BAD_HANDLE,
    }
}

/// Like `Caller::take`: returns TAKEN or NOT_THERE; BAD_KIND; NOT_ALLOWED if the caller owns the instance.
#[unsafe(no_mangle)]
pub extern "C" fn fq_caller_take(handle: &mut FqHandle, kind: u32) -> u32
    ensures made { (k : Kind) → kind_in kind ≡ Some k
        → CallerMakes (CallerTakes k) handle.old result handle.new }
    ensures bad { kind_in kind ≡ None → (result ≡ BAD_KIND) × (handle.new ≡ handle.old) }
{
    let Some(kind) = kind_of(kind) else {
        return status::BAD_KIND;
    };
    if !handle.is_set() {
        return status::BAD_HANDLE;
    }
    match handle.held.as_mut() {
        Object::Caller(caller) => caller.take(kind),
        _ => status::BAD_HANDLE,
    }
}

/// Like `Polling::requeue`: returns OK; NOT_ALLOWED if the caller doesn't poll.
#[unsafe(no_mangle)]
pub extern "C" fn fq_caller_requeue(handle: &mut FqHandle) -> u32
    ensures { CallerMakes CallerRequeues handle.old result handle.new }
{
    if !handle.is_set() {
        return status::BAD_HANDLE;
    }
    match handle.held.as_mut() {
        Object::Caller(caller) => caller.requeue(),
        _ => status::BAD_HANDLE,
    }
}

/// Like `Polling::try_complete`: returns RELEASED, AGAIN or CHANGED; HELD if the caller busy polls (`Busy::complete_held`);
/// NOT_ALLOWED if it doesn't poll.
#[unsafe(no_mangle)]
pub extern "C" fn fq_caller_complete(handle: &mut FqHandle) -> u32
    ensures makes { CallerMakes CallerCompletes handle.old result handle.new }
    ensures released { result ≡ RELEASED
        → LeadsToCaller
        (λ s. RestsWith (EndsByReply done.Released false) s.state) handle.new.held.body }
    ensures again { result ≡ AGAIN
        → LeadsToCaller
        (λ s. GrantedWith (EndsByReply done.Again true) s.state) handle.new.held.body }
{
    if !handle.is_set() {
        return status::BAD_HANDLE;
    }
    match handle.held.as_mut() {
        Object::Caller(caller) => caller.complete(),
        _ => status::BAD_HANDLE,
    }
}

/// Like `Caller::try_busy`: returns TAKEN, BUSY or CHANGED; NOT_ALLOWED if the caller owns the instance.
#[unsafe(no_mangle)]
pub extern "C" fn fq_caller_busy_take(handle: &mut FqHandle) -> u32
    ensures { CallerMakes CallerBusyTakes handle.old result handle.new }
{
    if !handle.is_set() {
        return status::BAD_HANDLE;
    }
    match handle.held.as_mut() {
        Object::Caller(caller) => caller.busy_take(),
        _ => status::BAD_HANDLE,
    }
}

/// Like `Busy::try_stop`: returns OK, after which the caller polls once more, or CHANGED; NOT_ALLOWED if it doesn't busy poll.
#[unsafe(no_mangle)]
pub extern "C" fn fq_caller_busy_stop(handle: &mut FqHandle) -> u32
    ensures { CallerMakes CallerBusyStops handle.old result handle.new }
{
    if !handle.is_set() {
        return status::BAD_HANDLE;
    }
    match handle.held.as_mut() {
        Object::Caller(caller) => caller.busy_stop(),
        _ => status::BAD_HANDLE,
    }
}

/// Like `Caller::set_threaded`: returns OK; NOT_ALLOWED if the caller owns the instance.
#[unsafe(no_mangle)]
pub extern "C" fn fq_caller_set_threaded(handle: &mut FqHandle, threaded: bool) -> u32
    ensures { CallerMakes (CallerSetsThreaded threaded) handle.old result handle.new }
{
    if !handle.is_set() {
        return status::BAD_HANDLE;
    }
    match handle.held.as_mut() {
        Object::Caller(caller) => caller.set_threaded(threaded),
        _ => status::BAD_HANDLE,
    }
}

/// Like `Polling::poll`, into an array: sets `count`; the packets are the first `count` elements. Returns OK; BAD_WEIGHT if the
/// weight isn't 1 to 64; NO_ROOM if the array is shorter than the weight; NOT_ALLOWED if the caller doesn't poll. After an
/// error nothing was polled.
#[unsafe(no_mangle)]
pub extern "C" fn fq_caller_poll(
    handle: &mut FqHandle,
    weight: usize,
    out: &mut [Packet],
    count: &mut usize,
) -> u32
    ensures polls { result ≢ BAD_WEIGHT → result ≢ NO_ROOM
        → CallerGives weight (take count.new out.new) handle.old result handle.new }
    ensures there { LeadsToKind is_polling_caller handle.old → 1 ≤ weight → weight ≤ 64
        → weight ≤ length out.old → result ≡ OK }
    ensures other { LeadsToOther is_caller handle.old → 1 ≤ weight → weight ≤ 64
        → weight ≤ length out.old → result ≡ BAD_HANDLE }
    ensures most { (count.new ≤ weight) × (count.new ≤ length out.new) }
    ensures none { result ≢ OK → (count.new ≡ 0) × (out.new ≡ out.old) }
    ensures kept { result ≢ OK → handle.new ≡ handle.old }
    ensures weight { (weight ≡ 0) ⊎ (64 < weight) → result ≡ BAD_WEIGHT }
    ensures room { 1 ≤ weight → weight ≤ 64 → length out.old < weight → result ≡ NO_ROOM }
{
    *count = 0;
    if weight == 0 || weight > MAX_WEIGHT {
        return status::BAD_WEIGHT;
    }
    if out.len() < weight {
        return status::NO_ROOM;
    }
    if !handle.is_set() {
        return status::BAD_HANDLE;
    }
    match handle.held.as_mut() {
        Object::Caller(caller) => caller.poll(weight, out, count),
        _ => status::BAD_HANDLE,
    }
}

/// Sets `answers` to the counts of the results of a caller's calls.
#[unsafe(no_mangle)]
pub extern "C" fn fq_caller_count_sized(handle: &mut FqHandle, answers: &mut FqAnswers) -> u32
    ensures shown { (s : CallerObject) → handle.old.held.body ≡ Some (variant.Caller s)
        → answers.old.size ≡ 64 → (result ≡ OK)
        × (answers.new ≡ record s.answers { size = 64 }) }
    ensures other { LeadsToOther is_caller handle.old → answers.old.size ≡ 64
        → result ≡ BAD_HANDLE }
    ensures size { (result ≡ BAD_SIZE) ↔ (answers.old.size ≢ 64) }
    ensures kept { result ≢ OK → (answers.new ≡ answers.old)
        × (result ≢ BAD_SIZE → result ≡ BAD_HANDLE) }
    ensures same { handle.new.held.body ≡ handle.old.held.body }
{
    if answers.size != size_of::<FqAnswers>() {
        return status::BAD_SIZE;
    }
    if !handle.is_set() {
        return status::BAD_HANDLE;
    }
    match &*handle.held.as_mut() {
        Object::Caller(caller) => {
            *answers = caller.answers;
            answers.size = size_of::<FqAnswers>();
            status::OK
        }
        _ => status::BAD_HANDLE,
    }
}
