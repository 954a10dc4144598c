//! The values on which calls are made. Each has one pass of the instance's state table, its type says what the caller may do,
//! and it is linear.
ghost use Rattle.std.specs.Prelude.{◌≡◌, Some, true, false};
ghost use Rattle.napi_model.specs.declared.state.Place.TheVariants as place;
ghost use Rattle.napi_word.specs.Knowledge.{received_in};
ghost use Rattle.napi_word.specs.Passes.{view_of, controller_of_table};
ghost use Rattle.napi_calls.specs.Knows.{Free, Stands, KnowsBusyPoll, ControllerKnows, Has, received_held};

use napi_word::{Pass, StateTable};
use rx_ring::RxCtx;

/// An instance (`struct napi_struct`), which its threads share. Every call takes it as an argument, next to the value on which
/// it is made.
pub struct Napi {
    pub(crate) table: StateTable,
    pub(crate) callers: u32,
    ghost count: { controller_of_table table ≡ callers },
}

/// A caller that owns nothing: an interrupt handler, or a poller or thread that isn't polling.
pub struct Caller {
    pub(crate) pass: Pass,
    pub(crate) number: u32,
    ghost stands: { Stands Free number pass },
}

/// A caller that was granted the instance, and has to queue it.
pub struct Granted {
    pub(crate) pass: Pass,
    pub(crate) number: u32,
    ghost stands: { Stands place.Granted number pass },
}

/// A caller that polls the instance. It has the poll context, which moves only to the instance's slot.
pub struct Polling {
    pub(crate) pass: Pass,
    pub(crate) number: u32,
    pub(crate) ctx: RxCtx,
    ghost stands: { Stands place.Polling number pass },
    ghost busy: { KnowsBusyPoll false pass },
    ghost has: { Has pass (Some ctx) },
}

/// A caller that busy polls the instance. It makes one more poll at the end, which serves all requests that came meanwhile. It
/// has the poll context, like [`Polling`], and becomes one.
pub struct Busy {
    pub(crate) pass: Pass,
    pub(crate) number: u32,
    pub(crate) ctx: RxCtx,
    ghost stands: { Stands place.Polling number pass },
    ghost busy: { KnowsBusyPoll true pass },
    ghost has: { Has pass (Some ctx) },
}

/// What the controller did last with the instance: [`Off`], [`On`] or [`Marked`].
pub trait Mode {
    ghost use Rattle.std.specs.Prelude.{ℕ, Bool, Option};
    ghost use Rattle.rx_ring.specs.declared.ends.RxCtx.{RxCtx};
    ghost use Rattle.napi_model.specs.declared.state.Place.{Place};

    // What the controller knows in this mode: the place as it sees it, the disable flag, and whether it has the context.
    ghost role: { ℕ → Place };

    ghost disable: { Bool };

    ghost ctx: { Self → Option RxCtx };
}

/// The instance is disabled, and the controller has its poll context.
#[derive(Drop)]
pub struct Off {
    pub(crate) ctx: RxCtx,
}

/// The instance is enabled.
#[derive(Drop)]
pub struct On;

/// A disable is pending: the controller takes the instance as soon as its owner releases it.
#[derive(Drop)]
pub struct Marked;

impl Mode for Off {
    ghost use Rattle.std.specs.Prelude.{false, Some};
    ghost use Rattle.napi_model.specs.declared.state.Place.TheVariants as place;

    ghost role = { place.Control };

    ghost disable = { false };

    ghost ctx = { λ s. Some s.ctx };
}

impl Mode for On {
    ghost use Rattle.std.specs.Prelude.{false, None};
    ghost use Rattle.napi_calls.specs.Knows.{Free};

    ghost role = { Free };

    ghost disable = { false };

    ghost ctx = { λ s. None };
}

impl Mode for Marked {
    ghost use Rattle.std.specs.Prelude.{true, None};
    ghost use Rattle.napi_calls.specs.Knows.{Free};

    ghost role = { Free };

    ghost disable = { true };

    ghost ctx = { λ s. None };
}

/// The controller of an instance, which a driver's open and stop functions use.
pub struct Control<S: Mode> {
    pub(crate) pass: Pass,
    pub(crate) state: S,
    ghost controls: { ControllerKnows S.role S.disable pass },
    ghost has: { Has pass (S.ctx state) },
    ghost exact: { received_held (S.ctx state) (received_in (view_of pass)) ≡ received_in (view_of pass) },
}
