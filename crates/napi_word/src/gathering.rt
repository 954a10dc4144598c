//! The passes of a table, gathered to close it.
ghost use Rattle.std.specs.Prelude.{◌≡◌, [], true};
ghost use Rattle.napi_word.specs.Knowledge.{is_pass};

use crate::history::Knowledge;
use atomic_table::Seat;
use rx_ring::RxCtx;

/// What the gathered passes held.
#[derive(Drop)]
pub struct Found {
    /// The context, if a pass had it in the slot.
    pub(crate) ctx: Option<RxCtx>,
    /// Whether a pass had the context out of the slot.
    pub(crate) out: bool,
}

/// The passes gathered so far, as one seat (what `atomic_table` gives a thread for its steps) that has joined theirs.
pub struct Gathering {
    pub(crate) seat: Seat<Option<RxCtx>, Knowledge>,
    pub(crate) found: Found,
    ghost is_pass: { is_pass seat.me.0 ≡ true },
    ghost empty: { seat.me.1 ≡ [] },
}
