//! The state word: the flags at the kernel's bits (`struct napi_struct`, `state`), and above them two bits for the queue in
//! which the instance waits.

ghost use Rattle.std.specs.Prelude.{◌≡◌, ◌↔◌, IsTrue, IsNone, IfSome, Some};
ghost use Rattle.napi_model.specs.declared.state.Seen.{Seen};
ghost use Rattle.napi_model.specs.Word.{bit_if, mark_word, word_of, mark_in, seen_in, IsMalformed};

use crate::bits::{
    DISABLE, IN_BUSY_POLL, MISSED, NPSVC, QUEUED, SCHED, SCHED_THREADED, THREADED, TO_THREAD,
};
use crate::{Flags, Kind, Seen};

const BOTH_MARKS: u64 = QUEUED | TO_THREAD;

const OTHER_BITS: u64 = !(SCHED
    | MISSED
    | DISABLE
    | NPSVC
    | IN_BUSY_POLL
    | THREADED
    | SCHED_THREADED
    | BOTH_MARKS);

fn bit(on: bool, bit: u64) -> u64
    ensures { result ≡ bit_if on bit }
{
    if on { bit } else { 0 }
}

fn mark(handed: Option<Kind>) -> u64
    ensures { result ≡ mark_word handed }
{
    match handed {
        None => 0,
        Some(Kind::List) => QUEUED,
        Some(Kind::Thread) => TO_THREAD,
    }
}

/// Returns the state word: the flags' bits of `include/linux/netdevice.h`, and bit 32 or 33 while the instance is queued on the
/// list or for the thread.
#[tactic(auto, using(crate::proofs::Words::joined_bits))]
pub fn encode(seen: Seen) -> u64
    ensures { result ≡ word_of seen }
{
    let flags = seen.flags;
    bit(flags.sched, SCHED)
        | bit(flags.missed, MISSED)
        | bit(flags.disable, DISABLE)
        | bit(flags.npsvc, NPSVC)
        | bit(flags.in_busy_poll, IN_BUSY_POLL)
        | bit(flags.threaded, THREADED)
        | bit(flags.sched_threaded, SCHED_THREADED)
        | mark(seen.handed)
}

fn marked(queued: bool, to_thread: bool) -> Option<Kind>
    ensures { result ≡ mark_in queued to_thread }
{
    match (queued, to_thread) {
        (true, _) => Some(Kind::List),
        (false, true) => Some(Kind::Thread),
        (false, false) => None,
    }
}

#[tactic(auto, unfolding(crate::specs::Word::seen_in))]
fn read(word: u64) -> Seen
    ensures { result ≡ seen_in word }
{
    let flags = Flags {
        sched: word & SCHED != 0,
        missed: word & MISSED != 0,
        disable: word & DISABLE != 0,
        npsvc: word & NPSVC != 0,
        in_busy_poll: word & IN_BUSY_POLL != 0,
        threaded: word & THREADED != 0,
        sched_threaded: word & SCHED_THREADED != 0,
    };
    let handed = marked(word & QUEUED != 0, word & TO_THREAD != 0);
    Seen { flags, handed }
}

fn is_malformed(word: u64) -> bool
    ensures { IsTrue result ↔ IsMalformed word }
{
    word & OTHER_BITS != 0 || word & BOTH_MARKS == BOTH_MARKS
}

/// Returns what a state word shows, or `None` if an unnamed bit or both bits 32 and 33 are set.
///
/// It checks only the bits: a word with bit 32 and without SCHED is decoded, though no instance ever has it.
pub fn decode(word: u64) -> Option<Seen>
    ensures malformed { IsNone result ↔ IsMalformed word }
    ensures word { IfSome result (λ seen. word_of seen ≡ word) }

    // So `decode(encode(seen))` is `seen`.
    ensures inverse { (seen : Seen) → word_of seen ≡ word → result ≡ Some seen }
{
    if is_malformed(word) {
        return None;
    }
    Some(read(word))
}

/// Returns what a valid state word shows: the inverse of [`encode`], without a check.
pub fn decode_known(word: u64) -> Seen
    requires { (seen : Seen) × (word_of seen ≡ word) }
    ensures word { word_of result ≡ word }
    ensures inverse { (seen : Seen) → word_of seen ≡ word → result ≡ seen }
{
    read(word)
}
