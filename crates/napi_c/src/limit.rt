//! Byte queue limits for C.

ghost use Rattle.std.specs.Prelude.{◌≡◌, ◌≢◌, ◌<◌, ◌⊎◌, ◌↔◌, Some};
ghost use Rattle.dql_core.specs.Bounds.{DQL_MAX_LIMIT};
ghost use Rattle.dql_core.specs.Dql.{Shows};
ghost use Rattle.dql_core.specs.Limit.{new_limit, in_flight_of, avail_of, after_reset, after_queued, after_completed, queued_fault, completed_fault};
ghost use Rattle.dql_core.specs.declared.event.DqlFault.TheVariants.{BadBounds};
ghost use Rattle.dql_core.specs.declared.whole.Limit.{Limit};
ghost use Rattle.c_handles.specs.Status.{OK, dql_status};

use c_handles::status;
use dql_core::Dql;

/// A byte queue limit in the caller's memory: `struct fq_dql`. C programs never write its fields.
#[repr(C)]
#[derive(Drop)]
pub struct FqDql {
    /// The limit.
    pub dql: Dql,
}

/// Makes a new limit, like `Dql::new`, in place of `dql`, which is unchanged if the call fails.
#[unsafe(no_mangle)]
pub extern "C" fn fq_dql_init(dql: &mut FqDql, min: u32, max: u32, hold: u64, now: u64) -> u32
    ensures ok { result ≡ OK → Shows dql.new.dql (new_limit min max hold now) }
    ensures refused { (result ≢ OK) ↔ ((max < min) ⊎ (DQL_MAX_LIMIT < max)) }
    ensures status { result ≢ OK → result ≡ dql_status (Some BadBounds) }
    ensures kept { result ≢ OK → dql.new ≡ dql.old }
{
    match Dql::new(min, max, hold, now) {
        Ok(new) => {
            dql.dql = new;
            status::OK
        }
        Err(fault) => u32::from(fault.number()),
    }
}

/// Like `Dql::queued`.
#[unsafe(no_mangle)]
pub extern "C" fn fq_dql_queued(dql: &mut FqDql, count: u32) -> u32
    ensures ok { (s : Limit) → Shows dql.old.dql s → result ≡ OK
        → Shows dql.new.dql (after_queued s count) }
    ensures status { (s : Limit) → Shows dql.old.dql s
        → result ≡ dql_status (queued_fault s count) }
    ensures refused { result ≢ OK → dql.new ≡ dql.old }
{
    match dql.dql.queued(count) {
        Ok(()) => status::OK,
        Err(fault) => u32::from(fault.number()),
    }
}

/// Like `Dql::completed`.
#[unsafe(no_mangle)]
pub extern "C" fn fq_dql_completed(dql: &mut FqDql, count: u32, now: u64) -> u32
    ensures ok { (s : Limit) → Shows dql.old.dql s → result ≡ OK
        → Shows dql.new.dql (after_completed s count now) }
    ensures status { (s : Limit) → Shows dql.old.dql s
        → result ≡ dql_status (completed_fault s count) }
    ensures refused { result ≢ OK → dql.new ≡ dql.old }
{
    match dql.dql.completed(count, now) {
        Ok(()) => status::OK,
        Err(fault) => u32::from(fault.number()),
    }
}

/// Like `Dql::reset`.
#[unsafe(no_mangle)]
pub extern "C" fn fq_dql_reset(dql: &mut FqDql, now: u64)
    ensures { (s : Limit) → Shows dql.old.dql s → Shows dql.new.dql (after_reset s now) }
{
    dql.dql.reset(now);
}

/// Like `Dql::limit`.
#[unsafe(no_mangle)]
pub extern "C" fn fq_dql_limit(dql: &FqDql) -> u32
    ensures { (s : Limit) → Shows dql.now.dql s → result ≡ s.limit }
{
    dql.dql.limit()
}

/// Like `Dql::avail`.
#[unsafe(no_mangle)]
pub extern "C" fn fq_dql_avail(dql: &FqDql) -> i64
    ensures { (s : Limit) → Shows dql.now.dql s → result ≡ avail_of s }
{
    dql.dql.avail()
}

/// Like `Dql::in_flight`.
#[unsafe(no_mangle)]
pub extern "C" fn fq_dql_in_flight(dql: &FqDql) -> u32
    ensures { (s : Limit) → Shows dql.now.dql s → result ≡ in_flight_of s }
{
    dql.dql.in_flight()
}
