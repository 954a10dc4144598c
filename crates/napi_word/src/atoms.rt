//! The atomic steps on the word, each written once for every kind of step.
ghost use Rattle.std.specs.Prelude.{◌≡◌, ◌≢◌, ◌+◌, ◌-◌, ◌%◌, ◌^◌, OnOk, IfErr, bit_and, bit_or};
ghost use Rattle.napi_model.specs.declared.event.Operation.TheVariants.{Look};
ghost use Rattle.napi_model.specs.Step.{seen_after};
ghost use Rattle.napi_model.specs.Word.{word_of};
ghost use Rattle.napi_word.specs.Slot.{stays};
ghost use Rattle.napi_word.specs.Operations.{Did};
ghost use Rattle.napi_word.specs.Atoms.{MayMake, MayExchange};

use crate::history::Knowledge;
use crate::step_kinds::{ByWord, Exchanged, Step};
use crate::table::StateTable;
use atomic_table::Seat;
use napi_model::bits::{MISSED, SCHED, SCHED_THREADED};
use napi_model::{Done, Operation, Prep, Seen, decode_known, encode};
use rx_ring::RxCtx;

// Returns the word after an operation, computed from the word before it. If few bits change, only those are set or cleared, and
// the flags needn't be encoded again.
#[inline(always)]
#[tactic(auto, using(crate::proofs::Bits::granted_word, crate::proofs::Bits::missed_word, crate::proofs::Bits::again_word, crate::proofs::Bits::released_word))]
fn word_after(seen: Seen, word: u64, operation: Operation) -> u64
    requires { word ≡ word_of seen }
    ensures { result ≡ word_of (seen_after operation seen) }
{
    match operation {
        Operation::Schedule(Prep::Granted) => word | SCHED,
        Operation::Schedule(Prep::Missed) => word | MISSED,
        Operation::Complete(Done::Again) => word & !(MISSED | SCHED_THREADED),
        Operation::Complete(Done::Released) => word & !(SCHED | SCHED_THREADED),
        _ => encode(seen.after(operation)),
    }
}

impl StateTable {
    // Reads the word, and returns what it showed.
    #[inline]
    pub(crate) fn load<K: Step>(&self, seat: &mut Seat<Option<RxCtx>, Knowledge>) -> Seen
        requires table { seat.old.table_id ≡ self.now.table.shared.table_id }
        requires may { MayMake self.now seat.old (λ n. n) K.operation K.moves }
        ensures table { seat.new.table_id ≡ seat.old.table_id }
        ensures did { Did (K.operation result) (K.moves result) seat.old.me seat.new.me }
    {
        let word = self.table.shared.load::<ByWord<K>>(seat, 0);
        decode_known(word)
    }

    // Sets these bits, and returns what the word showed before.
    #[inline]
    pub(crate) fn set<K: Step>(&self, seat: &mut Seat<Option<RxCtx>, Knowledge>, bits: u64) -> Seen
        requires table { seat.old.table_id ≡ self.now.table.shared.table_id }
        requires may { MayMake self.now seat.old (λ n. bit_or n bits) K.operation K.moves }
        ensures table { seat.new.table_id ≡ seat.old.table_id }
        ensures did { Did (K.operation result) (K.moves result) seat.old.me seat.new.me }
    {
        let word = self.table.shared.fetch_or::<ByWord<K>>(seat, 0, bits);
        decode_known(word)
    }

    // Sets these bits, which must be clear, by an addition (one instruction), and returns what the word showed before.
    #[inline]
    pub(crate) fn add<K: Step>(&self, seat: &mut Seat<Option<RxCtx>, Knowledge>, bits: u64) -> Seen
        requires table { seat.old.table_id ≡ self.now.table.shared.table_id }
        requires may { MayMake self.now seat.old (λ n. (n + bits) % 2 ^ 64) K.operation K.moves }
        ensures table { seat.new.table_id ≡ seat.old.table_id }
        ensures did { Did (K.operation result) (K.moves result) seat.old.me seat.new.me }
    {
        let word = self.table.shared.fetch_add::<ByWord<K>>(seat, 0, bits);
        decode_known(word)
    }

    // Clears these bits, which must be set, and returns what the word showed before.
    #[inline]
    pub(crate) fn subtract<K: Step>(
        &self,
        seat: &mut Seat<Option<RxCtx>, Knowledge>,
        bits: u64,
    ) -> Seen
        requires table { seat.old.table_id ≡ self.now.table.shared.table_id }
        requires may { MayMake self.now seat.old (λ n. (n + (2 ^ 64 - bits)) % 2 ^ 64) K.operation
            K.moves }
        ensures table { seat.new.table_id ≡ seat.old.table_id }
        ensures did { Did (K.operation result) (K.moves result) seat.old.me seat.new.me }
    {
        let word = self.table.shared.fetch_sub::<ByWord<K>>(seat, 0, bits);
        decode_known(word)
    }

    // Clears all bits except these, and returns what the word showed before.
    #[inline]
    pub(crate) fn keep<K: Step>(&self, seat: &mut Seat<Option<RxCtx>, Knowledge>, bits: u64) -> Seen
        requires table { seat.old.table_id ≡ self.now.table.shared.table_id }
        requires may { MayMake self.now seat.old (λ n. bit_and n bits) K.operation K.moves }
        ensures table { seat.new.table_id ≡ seat.old.table_id }
        ensures did { Did (K.operation result) (K.moves result) seat.old.me seat.new.me }
    {
        let word = self.table.shared.fetch_and::<ByWord<K>>(seat, 0, bits);
        decode_known(word)
    }

    // Makes the operation and succeeds, if the word still shows what was seen. Otherwise it writes nothing, and returns what
    // the word shows now. Most instances aren't queued, and their words have only flags, so that case has its own branch.
    #[inline(always)]
    pub(crate) fn exchange<K: Step>(
        &self,
        seat: &mut Seat<Option<RxCtx>, Knowledge>,
        seen: Seen,
        operation: Operation,
    ) -> Result<(), Seen>
        requires table { seat.old.table_id ≡ self.now.table.shared.table_id }
        requires operation { operation ≡ K.operation seen }
        requires may { MayExchange self.now seat.old seen K.operation K.moves }
        ensures table { seat.new.table_id ≡ seat.old.table_id }
        ensures won { OnOk result (Did (K.operation seen) (K.moves seen) seat.old.me seat.new.me) }
        ensures lost { IfErr result
            (λ found. Did (Look found) stays seat.old.me seat.new.me × (found ≢ seen)) }
    {
        let Seen { flags, handed } = seen;
        match handed {
            None => {
                let seen = Seen {
                    flags,
                    handed: None,
                };
                self.exchange_seen::<K>(seat, seen, operation)
            }
            Some(kind) => {
                let seen = Seen {
                    flags,
                    handed: Some(kind),
                };
                self.exchange_seen::<K>(seat, seen, operation)
            }
        }
    }

    // The same compare-exchange, for both cases.
    #[inline(always)]
    fn exchange_seen<K: Step>(
        &self,
        seat: &mut Seat<Option<RxCtx>, Knowledge>,
        seen: Seen,
        operation: Operation,
    ) -> Result<(), Seen>
        requires table { seat.old.table_id ≡ self.now.table.shared.table_id }
        requires operation { operation ≡ K.operation seen }
        requires may { MayExchange self.now seat.old seen K.operation K.moves }
        ensures table { seat.new.table_id ≡ seat.old.table_id }
        ensures won { OnOk result (Did (K.operation seen) (K.moves seen) seat.old.me seat.new.me) }
        ensures lost { IfErr result
            (λ found. Did (Look found) stays seat.old.me seat.new.me × (found ≢ seen)) }
    {
        let old = encode(seen);
        let next = word_after(seen, old, operation);
        let word = self
            .table
            .shared
            .compare_exchange::<Exchanged<K>>(seat, 0, old, next);
        let found = decode_known(word);
        if word == old { Ok(()) } else { Err(found) }
    }
}
