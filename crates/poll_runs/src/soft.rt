//! A short list of instance numbers.

ghost use Rattle.std.specs.Prelude.{◌≡◌, ◌↔◌, ◌+◌, ◌<◌, ◌≤◌, ℕ, List, [], ◌∷◌, ◌++◌, length, drop, MatchOption, IsOk, OnOk, OnErr, IfErr, ◌==◌};

use arrayvec::ArrayVec;
use std::marker::Model;

/// At most 64 instance numbers, in order, like the lists `list` and `repoll` that `net_rx_action` keeps on its stack.
#[derive(Drop)]
pub struct SoftList {
    ids: ArrayVec<u32, 64>,
    // The index of the first entry: those before it were removed. So a removal doesn't move the others.
    first: usize,
}

impl Model for SoftList {
    ghost Value = { List ℕ };

    ghost view = { λ s. drop s.first s.ids.items };

    ghost invariant = { λ s. s.first ≤ length s.ids.items };
}

// Drops the first entries, which were removed.
#[inline(never)]
fn drop_taken(ids: &mut ArrayVec<u32, 64>, first: usize)
    requires { first ≤ length ids.old.items }
    ensures { ids.new.items ≡ drop first ids.old.items }
{
    ids.drain(..first);
}

// Drops the removed entries if `count` more don't fit after the others, and returns the index of the first entry.
#[inline]
fn make_room(ids: &mut ArrayVec<u32, 64>, first: usize, count: usize) -> usize
    requires first { first ≤ length ids.old.items }
    requires count { length ids.old.items + count ≤ 64 + first }
    ensures same { drop result ids.new.items ≡ drop first ids.old.items }
    ensures first { result ≤ length ids.new.items }
    ensures room { length ids.new.items + count ≤ 64 }
{
    if count <= 64 - ids.len() {
        return first;
    }
    drop_taken(ids, first);
    0
}

impl SoftList {
    /// Returns an empty list.
    pub fn new() -> SoftList
        ensures { result ≡ [] }
    {
        SoftList {
            ids: ArrayVec::new(),
            first: 0,
        }
    }

    /// Appends a number. If the list holds 64 already, it returns the number, and the list is unchanged.
    pub fn push(&mut self, id: u32) -> Result<(), u32>
        ensures room { IsOk result ↔ (length self.old < 64) }
        ensures ok { OnOk result (self.new ≡ self.old ++ id ∷ []) }
        ensures full { IfErr result (λ back. back ≡ id) }
        ensures same { OnErr result (self.new ≡ self.old) }
    {
        if self.ids().len() == 64 {
            return Err(id);
        }
        self.append(id);
        Ok(())
    }

    /// Removes and returns the first number, or `None` if the list is empty.
    pub fn pop_front(&mut self) -> Option<u32>
        ensures { MatchOption result ((self.old ≡ []) × (self.new ≡ []))
            (λ id. self.old ≡ id ∷ self.new) }
    {
        if self.first == self.ids.len() {
            return None;
        }
        let id = self.ids.as_slice()[self.first];
        self.first += 1;
        Some(id)
    }

    /// The numbers, in order.
    pub fn ids(&self) -> &[u32]
        ensures ids { result.now ≡ self.now }
        ensures room { length self.now ≤ 64 }
    {
        &self.ids.as_slice()[self.first..]
    }

    /// Returns whether the list is empty.
    pub fn is_empty(&self) -> bool
        ensures { result ≡ (length self.now == 0) }
    {
        self.ids().is_empty()
    }

    /// Appends a number; there is room for it.
    pub fn append(&mut self, id: u32)
        requires { length self.old < 64 }
        ensures { self.new ≡ self.old ++ id ∷ [] }
    {
        self.first = make_room(&mut self.ids, self.first, 1);
        self.ids.push(id);
    }

    // Clears the list.
    pub(crate) fn clear(&mut self)
        ensures { self.new ≡ [] }
    {
        self.first = self.ids.len();
    }

    /// Appends the numbers of another list; there is room for them.
    pub fn append_all(&mut self, more: &SoftList)
        requires { length self.old + length more.now ≤ 64 }
        ensures { self.new ≡ self.old ++ more.now }
    {
        let ids = more.ids();
        self.first = make_room(&mut self.ids, self.first, ids.len());
        let _ = self.ids.try_extend_from_slice(ids);
    }

    /// Moves all numbers of another list into this one, which is empty.
    pub fn take_all(&mut self, from: &mut SoftList)
        requires { self.old ≡ [] }
        ensures taken { self.new ≡ from.old }
        ensures none_left { from.new ≡ [] }
    {
        self.ids.clear();
        self.first = 0;
        let _ = self.ids.try_extend_from_slice(from.ids());
        from.clear();
    }

    /// Puts the numbers of another list before those of this one; there is room for them.
    pub fn put_before(&mut self, first: &SoftList)
        requires { length first.now + length self.old ≤ 64 }
        ensures { self.new ≡ first.now ++ self.old }
    {
        let mut all = SoftList::new();
        all.append_all(first);
        all.append_all(self);
        *self = all;
    }
}
