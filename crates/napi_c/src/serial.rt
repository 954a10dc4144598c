//! The instance of one thread, in the caller's memory.
ghost use Rattle.std.specs.Prelude.{◌≡◌, ◌↔◌, IsNone, IfSome};
ghost use Rattle.napi_model.specs.Step.{opening, MayCall, reply_of, seen_of};
ghost use Rattle.napi_model.specs.Word.{word_of};
ghost use Rattle.napi_c.specs.Serial.{is_set, fq_place, fq_state, FqSteps};

use napi_model::{Call, Event, Flags, Operation, Place, State, encode};

/// An instance: `struct fq_napi`. Any bytes are a valid instance: a flag is set unless its byte is 0.
#[repr(C)]
#[derive(Clone, Copy)]
pub struct FqNapi {
    /// SCHED: a poll is requested or in progress.
    pub sched: u8,
    /// MISSED: another poll has to follow.
    pub missed: u8,
    /// DISABLE: a disable is pending.
    pub disable: u8,
    /// NPSVC: the instance is disabled.
    pub npsvc: u8,
    /// IN_BUSY_POLL.
    pub in_busy_poll: u8,
    /// THREADED: the instance is scheduled on its own thread.
    pub threaded: u8,
    /// SCHED_THREADED: the instance was scheduled on its own thread, which hasn't completed it since.
    pub sched_threaded: u8,
    /// The place: 0 no owner, 1 granted, 2 on the list, 3 waits for its thread, 4 polled, any other number disabled.
    pub place: u8,
    /// The number of its owner.
    pub owner: u32,
    /// The number of the caller that may disable and enable it.
    pub controller: u32,
}

fn place_of(place: u8, owner: u32) -> Place
    ensures { result ≡ fq_place place owner }
{
    match place {
        0 => Place::Nobody,
        1 => Place::Granted(owner),
        2 => Place::Listed,
        3 => Place::ToThread,
        4 => Place::Polling(owner),
        _ => Place::Control(owner),
    }
}

// Returns the number and the owner of a place.
fn numbers_of(place: Place) -> (u8, u32)
    ensures { fq_place result.0 result.1 ≡ place }
{
    match place {
        Place::Nobody => (0, 0),
        Place::Granted(owner) => (1, owner),
        Place::Listed => (2, 0),
        Place::ToThread => (3, 0),
        Place::Polling(owner) => (4, owner),
        Place::Control(owner) => (5, owner),
    }
}

/// Returns the state that the struct represents.
pub fn state_of(napi: &FqNapi) -> State
    ensures { result ≡ fq_state napi.now }
{
    State {
        flags: Flags {
            sched: napi.sched != 0,
            missed: napi.missed != 0,
            disable: napi.disable != 0,
            npsvc: napi.npsvc != 0,
            in_busy_poll: napi.in_busy_poll != 0,
            threaded: napi.threaded != 0,
            sched_threaded: napi.sched_threaded != 0,
        },
        place: place_of(napi.place, napi.owner),
    }
}

fn byte_of(flag: bool) -> u8
    ensures { is_set result ≡ flag }
{
    if flag { 1 } else { 0 }
}

fn napi_of(state: State, controller: u32) -> FqNapi
    ensures state { fq_state result ≡ state }
    ensures controller { result.controller ≡ controller }
{
    let (place, owner) = numbers_of(state.place);
    let flags = state.flags;
    FqNapi {
        sched: byte_of(flags.sched),
        missed: byte_of(flags.missed),
        disable: byte_of(flags.disable),
        npsvc: byte_of(flags.npsvc),
        in_busy_poll: byte_of(flags.in_busy_poll),
        threaded: byte_of(flags.threaded),
        sched_threaded: byte_of(flags.sched_threaded),
        place,
        owner,
        controller,
    }
}

/// Makes the call if it is allowed, and returns its reply.
pub fn step(napi: &mut FqNapi, caller: u32, call: Call) -> Option<Operation>
    ensures refused { IsNone result ↔ ¬ MayCall caller call (fq_state napi.old) }
    ensures answer { IfSome result (λ o. o ≡ reply_of call (fq_state napi.old)) }
    ensures step { IfSome result (λ o. FqSteps napi.old caller o napi.new) }
    ensures kept { IsNone result → napi.new ≡ napi.old }
{
    let state = state_of(napi);
    if !state.may_call(caller, call) {
        return None;
    }
    let operation = state.answer(caller, call);
    *napi = napi_of(state.after(Event { caller, operation }), napi.controller);
    Some(operation)
}

/// Like `SerialNapi::new`.
#[unsafe(no_mangle)]
pub extern "C" fn fq_napi_new(controller: u32) -> FqNapi
    ensures state { fq_state result ≡ opening controller }
    ensures controller { result.controller ≡ controller }
{
    napi_of(State::opening(controller), controller)
}

/// Returns the state word, like `encode`.
#[unsafe(no_mangle)]
pub extern "C" fn fq_napi_word(napi: &FqNapi) -> u64
    ensures { result ≡ word_of (seen_of (fq_state napi.now)) }
{
    encode(state_of(napi).seen())
}
