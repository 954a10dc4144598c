//! The list of scheduled instances, by their numbers.

ghost use Rattle.std.specs.Prelude.{◌≡◌, ◌+◌, ◌≤◌, ℕ, List, [], ◌∷◌, ◌++◌, length};
ghost use Rattle.poll_runs.specs.Batches.{empties};

use crate::soft::SoftList;

/// A poll list (`poll_list` of `struct softnet_data`), as its poller sees it. Numbers arrive by the poller's own pushes and, on
/// a shared list, by those of other threads. Each list states by ghost members what it holds and what arrived.
pub trait PollList {
    /// What the next splice begins with: all entries of a list of one thread; for a shared list, those that its poller has
    /// moved out already.
    ghost entries: { Self → List ℕ };

    /// `moves before pushed came found after`: between these two times the poller pushed the numbers `pushed`, the numbers
    /// `came` arrived after the entries, each in order, and the list was found empty at least `found` times.
    ghost moves: { Self → List ℕ → List ℕ → ℕ → Self → Type 0 };

    /// `is_all taken after`: when the list was left in this state, everything that had arrived is in these entries, or there
    /// was no room for more.
    ghost is_all: { List ℕ → Self → Type 0 };

    /// The list has room for a push, or the push waits for it.
    ghost can_push: { Self → Type 0 };

    /// The list has room for this many of the numbers that were taken from it, if they are pushed one by one or put back.
    ghost has_room: { Self → ℕ → Type 0 };

    /// Appends a number to the list (`list_add_tail` in `____napi_schedule`).
    fn push(&mut self, id: u32)
        requires { can_push self.old }
        ensures pushed { (came : List ℕ) × moves self.old (id ∷ []) came 0 self.new
            × (entries self.new ≡ entries self.old ++ came) }
        ensures room { (n : ℕ) → has_room self.old (n + 1) → has_room self.new n };

    /// Moves all entries of the list, at most 64, into an empty list, and returns how many there were (`list_splice_init`).
    fn splice(&mut self, to: &mut SoftList) -> usize
        requires { to.old ≡ [] }
        ensures given { (came : List ℕ) × moves self.old [] came (empties to.new) self.new
            × (to.new ≡ entries self.old ++ came) }
        ensures nothing_kept { entries self.new ≡ [] }
        ensures all { is_all to.new self.new }
        ensures count { result ≡ length to.new }
        ensures most { result ≤ 64 }
        ensures room { has_room self.new (length to.new) };

    /// Puts these numbers before the entries of the list, and the repolls after them (`list_splice_tail_init`,
    /// `list_splice_tail` and `list_splice` at the end of `net_rx_action`).
    fn put_back(&mut self, rest: &SoftList, repoll: &SoftList)
        requires { has_room self.old (length rest.now + length repoll.now) }
        ensures back { (came : List ℕ)
            × moves self.old [] came (empties (entries self.new)) self.new
            × (entries self.new ≡ rest.now ++ (entries self.old ++ came) ++ repoll.now) }
        ensures all { is_all (entries self.new) self.new };

    /// A list that is unchanged: nothing was pushed, nothing arrived, and it wasn't read.
    ghost stays: { (list : Self) → moves list [] [] 0 list };

    /// What was pushed and arrived over two consecutive periods, composed.
    ghost joins: { (first second third : Self) (pushed more came later : List ℕ) (n m : ℕ) → moves first pushed came n second → moves second more later m third → moves first (pushed ++ more) (came ++ later) (n + m) third };

    /// A list with room for a number has room for a push.
    ghost room_to_push: { (list : Self) (n : ℕ) → has_room list (n + 1) → can_push list };

    /// A list with room for `n + 1` numbers has room for `n`.
    ghost room_for_less: { (list : Self) (n : ℕ) → has_room list (n + 1) → has_room list n };
}
