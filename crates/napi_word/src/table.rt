//! The table of an instance, and its passes.
ghost use Rattle.std.specs.Prelude.{◌≡◌, true, false, Some};
ghost use Rattle.napi_word.specs.Knowledge.{is_pass, view_ring, received_in, Continues};
ghost use Rattle.napi_word.specs.Slot.{hold_of, has_slot, owns_slot, ring_in, beside_in, carried_received};

use crate::history::{Holds, Key, Knowledge};
use crate::rule::InOneHistory;
use atomic_table::{Seat, Table};
use rx_ring::RxCtx;
use std::alloc::Global;

/// The state word of an instance (`napi->state`), and the slot of its poll context.
#[derive(Drop)]
pub struct StateTable {
    pub(crate) table: Table<Option<RxCtx>, Knowledge, Key, InOneHistory, Global>,
    ghost one_word: { table.shared.table_id.words ≡ 1 },
    ghost one_slot: { table.shared.table_id.slots ≡ 1 },
}

/// One caller's access to a table: its number, the list of events that it has seen, and a mark that says what it holds of the
/// slot. It can be sent to another thread. Dropping one is allowed, but has a cost: if one is dropped, its table can't be
/// closed any more.
#[derive(Drop)]
pub struct Pass {
    pub(crate) seat: Seat<Option<RxCtx>, Knowledge>,
    pub(crate) holds: Holds,
    ghost is_pass: { is_pass seat.me.0 ≡ true },
    ghost marked: { hold_of seat.me.1 ≡ Some holds },
    ghost right: { owns_slot seat.me.0 ≡ has_slot holds },
    ghost ring: { ring_in seat.me.1 seat.me.0 ≡ view_ring seat.me.0 },
    ghost unmarked: { beside_in seat.me.1 ≡ false },
    ghost received: { Continues (received_in seat.me.0) (carried_received seat.me.1 seat.me.0) },
}
