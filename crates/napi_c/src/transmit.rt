//! Transmit rings for C, each under a byte queue limit.
ghost use Rattle.std.specs.Prelude.{◌≡◌, ◌≢◌, ◌<◌, ◌≤◌, ◌⊎◌, ◌↔◌, false, None, Some, IsNone, IsSome};
ghost use Rattle.dql_core.specs.Bounds.{DQL_MAX_LIMIT};
ghost use Rattle.dql_core.specs.Limit.{new_limit};
ghost use Rattle.dql_core.specs.declared.event.DqlFault.TheVariants.{BadBounds};
ghost use Rattle.tx_ring.specs.Queue.{TransmitQueue, most_tx_places, opening_queue, tx_state, after_send, after_done, send_fault, done_fault};
ghost use Rattle.tx_ring.specs.Ring.{ShowsQueue};
ghost use Rattle.tx_ring.specs.declared.event.TxFault.{TxFault};
ghost use Rattle.c_handles.specs.Status.{OK, IN_USE, BAD_CAPACITY, BAD_HANDLE, BAD_SIZE, OUT_OF_MEMORY, dql_status};
ghost use Rattle.c_handles.specs.Transmits.{IsTxWith, TxShows, tx_status};
ghost use Rattle.napi_c.specs.Counts.{tx_shown_of};
ghost use Rattle.napi_c.specs.Objects.{is_tx, LeadsToOther};

use crate::counts::FqTxShown;
use c_handles::{FqHandle, Object, status};
use dql_core::{Dql, DqlFault};
use std::alloc::Global;
use std::mem::size_of;
use tx_ring::{TxFault, TxRing};

fn status_of(fault: TxFault) -> u32
    ensures { result ≡ tx_status (Some fault) }
{
    match fault {
        TxFault::Stopped => status::STOPPED,
        TxFault::Full => status::FULL,
        TxFault::TooLarge => u32::from(DqlFault::TooLarge.number()),
        TxFault::TooMuchInFlight => u32::from(DqlFault::TooMuchInFlight.number()),
        TxFault::MoreThanSent => status::MORE_THAN_SENT,
        TxFault::BadCapacity => status::BAD_CAPACITY,
        TxFault::OutOfMemory => status::OUT_OF_MEMORY,
    }
}

/// Makes a limit like `Dql::new`, and a ring with that limit like `TxRing::new`.
#[unsafe(no_mangle)]
pub extern "C" fn fq_tx_new(
    alloc: Global,
    handle: &mut FqHandle,
    capacity: usize,
    min: u32,
    max: u32,
    hold: u64,
    now: u64,
) -> u32
    ensures made { result ≡ OK
        → TxShows handle.new (opening_queue capacity (new_limit min max hold now)) }
    ensures kept { result ≢ OK → handle.new ≡ handle.old }
    ensures bounds { IsNone handle.old.held.body
        → (max < min) ⊎ (DQL_MAX_LIMIT < max) → result ≡ dql_status (Some BadBounds) }
    ensures capacity { IsNone handle.old.held.body → (min ≤ max) × (max ≤ DQL_MAX_LIMIT)
        → (capacity ≡ 0) ⊎ (most_tx_places < capacity) → result ≡ BAD_CAPACITY }
    ensures only { IsNone handle.old.held.body → (min ≤ max) × (max ≤ DQL_MAX_LIMIT)
        → (1 ≤ capacity) × (capacity ≤ most_tx_places)
        → (result ≡ OK) ⊎ (result ≡ OUT_OF_MEMORY) }
    ensures in_use { IsSome handle.old.held.body → result ≡ IN_USE }
{
    if handle.is_set() {
        return status::IN_USE;
    }
    let limit = match Dql::new(min, max, hold, now) {
        Ok(limit) => limit,
        Err(fault) => return u32::from(fault.number()),
    };
    match TxRing::new(alloc, capacity, limit) {
        Ok(ring) => match Box::new(alloc, Object::Tx(ring)) {
            Ok(body) => {
                handle.put(body);
                status::OK
            }
            Err(_) => status::OUT_OF_MEMORY,
        },
        Err(fault) => status_of(fault),
    }
}

/// Like `TxRing::send`.
#[unsafe(no_mangle)]
pub extern "C" fn fq_tx_send(handle: &mut FqHandle, bytes: u32) -> u32
    ensures ok { (t : TransmitQueue) → TxShows handle.old t → result ≡ OK
        → TxShows handle.new (after_send t bytes) }
    ensures status { (t : TransmitQueue) → TxShows handle.old t
        → result ≡ tx_status (send_fault t bytes) }
    ensures other { LeadsToOther is_tx handle.old → result ≡ BAD_HANDLE }
    ensures kept { result ≢ OK → handle.new.held.body ≡ handle.old.held.body }
{
    if !handle.is_set() {
        return status::BAD_HANDLE;
    }
    match handle.held.as_mut() {
        Object::Tx(ring) => match ring.send(bytes) {
            Ok(()) => status::OK,
            Err(fault) => status_of(fault),
        },
        _ => status::BAD_HANDLE,
    }
}

/// Like `TxRing::done`.
#[unsafe(no_mangle)]
pub extern "C" fn fq_tx_done(handle: &mut FqHandle, count: u32, now: u64) -> u32
    ensures ok { (t : TransmitQueue) → TxShows handle.old t → result ≡ OK
        → TxShows handle.new (after_done t count now) }
    ensures status { (t : TransmitQueue) → TxShows handle.old t
        → result ≡ tx_status (done_fault t count) }
    ensures other { LeadsToOther is_tx handle.old → result ≡ BAD_HANDLE }
    ensures kept { result ≢ OK → handle.new.held.body ≡ handle.old.held.body }
{
    if !handle.is_set() {
        return status::BAD_HANDLE;
    }
    match handle.held.as_mut() {
        Object::Tx(ring) => match ring.done(count, now) {
            Ok(()) => status::OK,
            Err(fault) => status_of(fault),
        },
        _ => status::BAD_HANDLE,
    }
}

/// Sets the caller's struct to the ring's state, like `TxRing::state`.
#[unsafe(no_mangle)]
pub extern "C" fn fq_tx_state_sized(handle: &mut FqHandle, state: &mut FqTxShown) -> u32
    ensures shown { (t : TransmitQueue) → TxShows handle.old t → state.old.size ≡ 40
        → (result ≡ OK) × (state.new ≡ tx_shown_of (tx_state t)) }
    ensures other { LeadsToOther is_tx handle.old → state.old.size ≡ 40 → result ≡ BAD_HANDLE }
    ensures size { (result ≡ BAD_SIZE) ↔ (state.old.size ≢ 40) }
    ensures kept { result ≢ OK → (state.new ≡ state.old)
        × (result ≢ BAD_SIZE → result ≡ BAD_HANDLE) }
    ensures same { handle.new.held.body ≡ handle.old.held.body }
{
    if state.size != size_of::<FqTxShown>() {
        return status::BAD_SIZE;
    }
    if !handle.is_set() {
        return status::BAD_HANDLE;
    }
    match &*handle.held.as_mut() {
        Object::Tx(ring) => {
            *state = FqTxShown::of(ring.state());
            status::OK
        }
        _ => status::BAD_HANDLE,
    }
}
