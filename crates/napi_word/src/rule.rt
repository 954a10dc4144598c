//! The invariant of a table, which every step preserves.
ghost use Rattle.napi_word.specs.Rule.{Holding, first_view};

use crate::history::{Key, Knowledge};
use atomic_table::TableRule;
use rx_ring::RxCtx;

/// There is one legal history; the word encodes the state after it, and every pass shows a prefix of it.
pub struct InOneHistory;

impl TableRule<Option<RxCtx>, Knowledge, Key> for InOneHistory {
    ghost holds = { Holding };

    ghost first = { first_view };
}
