//! How a poll of the instance of one thread ends.
ghost use Rattle.std.specs.Prelude.{◌≡◌, ◌↔◌, true, false};
ghost use Rattle.napi_model.specs.declared.event.Operation.TheVariants as operation;
ghost use Rattle.napi_model.specs.declared.event.Call.TheVariants as call;
ghost use Rattle.napi_model.specs.declared.state.Kind.TheVariants as kind;
ghost use Rattle.napi_model.specs.Step.{MayCall, complete_reply};
ghost use Rattle.napi_c.specs.Serial.{again_kind, fq_state, FqSteps, next_again, SerialCompletes, stays_scheduled, NEXT_GONE, NEXT_REPOLL};
ghost use Rattle.c_handles.specs.Status.{OK, HELD, NOT_ALLOWED};

use crate::serial::{FqNapi, state_of, step};
use c_handles::status;
use napi_model::{Call, Done, Flags, Kind, Operation};

pub(crate) const GONE: u32 = 0;

const AGAIN: u32 = 1;

const AGAIN_THREAD: u32 = 2;

pub(crate) const REPOLL: u32 = 3;

/// Ends a poll, full or not, as `__napi_poll` and its callers do. After a full poll the instance goes to the list again, or
/// stays with its thread, unless a disable is pending. After any other poll it is completed, and queued again if a request was
/// missed.
#[unsafe(no_mangle)]
pub extern "C" fn fq_napi_end(napi: &mut FqNapi, who: u32, full: bool, next: &mut u32) -> u32
    ensures list { MayCall who call.Complete (fq_state napi.old)
        → stays_scheduled full (fq_state napi.old).flags ≡ true
        → (fq_state napi.old).flags.sched_threaded ≡ false
        → (result ≡ OK) × (next.new ≡ NEXT_REPOLL)
        × FqSteps napi.old who (operation.Hand kind.List) napi.new }
    ensures thread { MayCall who call.Complete (fq_state napi.old)
        → stays_scheduled full (fq_state napi.old).flags ≡ true
        → (fq_state napi.old).flags.sched_threaded ≡ true
        → (result ≡ HELD) × (next.new ≡ NEXT_GONE) × (napi.new ≡ napi.old) }
    ensures completed { MayCall who call.Complete (fq_state napi.old)
        → stays_scheduled full (fq_state napi.old).flags ≡ false
        → SerialCompletes (complete_reply (fq_state napi.old)) napi.old who result next.new
        napi.new }
    ensures refused { (result ≡ NOT_ALLOWED) ↔ ¬ MayCall who call.Complete (fq_state napi.old) }
    ensures kept { result ≡ NOT_ALLOWED → (napi.new ≡ napi.old) × (next.new ≡ NEXT_GONE) }
{
    *next = GONE;
    let state = state_of(napi);
    if !state.may_call(who, Call::Complete) {
        return status::NOT_ALLOWED;
    }
    let flags = state.flags;
    if !stays_scheduled(full, flags) {
        return completed(napi, who, next);
    }
    if flags.sched_threaded {
        return status::HELD;
    }
    let Some(_) = step(napi, who, Call::Hand(Kind::List)) else {
        unreachable!()
    };
    *next = REPOLL;
    status::OK
}

/// Returns whether an instance stays scheduled after a poll, full or not (`__napi_poll`), by the flags of its state word.
pub(crate) fn stays_scheduled(full: bool, flags: Flags) -> bool
    ensures { result ≡ stays_scheduled full flags }
{
    full && !(flags.disable || flags.in_busy_poll)
}

/// Returns the queue for an instance that was granted (`____napi_schedule`), by the flags of its state word, and how its poll
/// ended for a run.
pub(crate) fn queue_of(flags: Flags) -> (Kind, u32)
    ensures kind { result.0 ≡ again_kind flags }
    ensures next { result.1 ≡ next_again flags }
{
    if flags.threaded {
        (Kind::Thread, AGAIN_THREAD)
    } else {
        (Kind::List, AGAIN)
    }
}

// Completes the instance, and queues it again if a request was missed.
fn completed(napi: &mut FqNapi, who: u32, next: &mut u32) -> u32
    requires polls { MayCall who call.Complete (fq_state napi.old) }
    requires gone { next.old ≡ NEXT_GONE }
    ensures { SerialCompletes (complete_reply (fq_state napi.old)) napi.old who result next.new
        napi.new }
{
    let (kind, queued) = queue_of(state_of(napi).flags);
    match step(napi, who, Call::Complete) {
        Some(Operation::Complete(Done::Released)) => status::OK,
        Some(Operation::Complete(Done::Held)) => status::HELD,
        Some(Operation::Complete(Done::Again)) => {
            let Some(_) = step(napi, who, Call::Hand(kind)) else {
                unreachable!()
            };
            *next = queued;
            status::OK
        }
        _ => unreachable!(),
    }
}
