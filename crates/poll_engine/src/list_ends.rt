//! Making a shared poll list with its ends, and closing it.

ghost use Rattle.std.specs.Prelude.{◌≡◌, ℕ, ◌+◌, ◌≤◌, ◌<◌, List, [], ◌∷◌, ◌++◌, ◌↔◌, ◌⊎◌, ◌≢◌, true, false, length, slice_index_or, map, IfOk, IfErr, IsErr, All};
ghost use Rattle.crossbeam_queue.specs.Passes.{view, IsPassOf};
ghost use Rattle.poll_engine.specs.PushOrder.{Push, returned_pushes, poller, PopsMore, WasEmpty};
ghost use Rattle.poll_engine.specs.SharedLists.{AreFew, IsInOf, IsNewList, AreNewEnds, IsOneOrder, in_hand, as_returned, pushers_of};
ghost use Rattle.poll_engine.specs.declared.list_fault.ListFault.TheVariants.{BadSize, NotAll};

use crate::list_fault::ListFault;
use crate::list_in::ListIn;
use crate::list_rule::{EndPass, PoppedLast, PushQueue, PusherEnd};
use crate::pops::Pops;
use crate::shared::{SharedList, fill};
use poll_runs::SoftList;
use std::alloc::{AllocError, Global};
use std::sync::{Arc, Wait};

// The capacity of the queue.
const ROOM: usize = 64;

// Returns a list with this many ends for pushing.
fn with_ends<R: Wait + Copy>(
    rt: R,
    alloc: Global,
    pushers: u32,
) -> Result<(SharedList<R>, Vec<ListIn<R>>), AllocError>
    ensures list { IfOk result (λ r. IsNewList pushers r.0) }
    ensures ins { IfOk result (λ r. AreNewEnds r.0 pushers r.1.items) }
{
    let mut ins = Vec::with_capacity(alloc, pushers as usize)?;
    let (queue, mut pass) = PushQueue::ruled(alloc, ROOM)?;
    let queue = Arc::new(alloc, queue)?;
    for _ in 0..pushers {
        let theirs = Arc::try_clone(&queue)?;
        let end = queue.another::<PusherEnd>(&mut pass);
        ins.push(ListIn {
            rt,
            queue: theirs,
            pass: end,
        })?;
    }
    let list = SharedList {
        rt,
        queue,
        pass,
        pops: Pops::none(),
        hand: SoftList::new(),
        pushers,
    };
    Ok((list, ins))
}

// Returns whether a list can have this many ends for pushing.
fn is_in_range(pushers: u32) -> bool
    ensures good { result ≡ true → (1 ≤ pushers) × (pushers ≤ 64) }
    ensures bad { result ≡ false → (pushers ≡ 0) ⊎ (64 < pushers) }
{
    (1..=64).contains(&pushers)
}

/// Returns an empty list and the requested number of ends, 1 to 64, at which other threads push. They are numbered 1, 2 .. in
/// order.
///
/// Fails with `BadSize` (1) for another number, and with `OutOfMemory` (2) if an allocation fails. No later call on the list or
/// its ends allocates.
pub fn shared_list<R: Wait + Copy>(
    rt: R,
    alloc: Global,
    pushers: u32,
) -> Result<(SharedList<R>, Vec<ListIn<R>>), ListFault>
    ensures list { IfOk result (λ r. IsNewList pushers r.0) }
    ensures ins { IfOk result (λ r. AreNewEnds r.0 pushers r.1.items) }
    ensures good { IfOk result (λ _. (1 ≤ pushers) × (pushers ≤ 64)) }
    ensures bad { IfErr result (λ e. (e ≡ BadSize) ↔ ((pushers ≡ 0) ⊎ (64 < pushers))) }
    ensures fault { IfErr result (λ e. e ≢ NotAll) }
{
    if !is_in_range(pushers) {
        return Err(ListFault::BadSize);
    }
    with_ends(rt, alloc, pushers).map_err(|_| ListFault::OutOfMemory)
}

/// What [`end_list`] returns if ends are missing: the list and its ends, unchanged.
#[derive(Drop)]
pub struct ListBack<R> {
    /// `NotAll` (3).
    pub fault: ListFault,
    /// The list.
    pub list: SharedList<R>,
    /// The ends that were passed in.
    pub ins: Vec<ListIn<R>>,
}

// Takes the ends back, one by one.
fn take_back<R: Drop>(queue: &PushQueue, pass: &mut EndPass, ins: Vec<ListIn<R>>)
    requires pass { IsPassOf queue.now pass.old × ((view pass.old).polls ≡ true)
        × (view pass.old
        ≡ poller (view pass.old).made (view pass.old).pushed (view pass.old).popped
        (view pass.old).returned) }
    requires ins { All (λ i. i.pass.table_id ≡ queue.now.table.shared.table_id) ins.items }
    ensures pass { IsPassOf queue.now pass.new }
    ensures returned { view pass.new
        ≡ poller (view pass.old).made (view pass.old).pushed (view pass.old).popped
        ((view pass.old).returned ++ map as_returned ins.items) }
{
    for end in ins {
        let ListIn {
            rt: _,
            queue: _,
            pass: theirs,
        } = end;
        queue.absorb::<PusherEnd>(pass, theirs);
    }
}

// Pops everything that is left, if all ends were returned and there is room.
fn drain<R: Wait>(
    rt: &R,
    queue: &PushQueue,
    pass: &mut EndPass,
    pops: &mut Pops,
    into: &mut SoftList,
)
    requires pass { IsPassOf queue.now pass.old × ((view pass.old).polls ≡ true) }
    requires returned { (view pass.old).made ≤ length (view pass.old).returned + 1 }
    requires few { length into.old
        + (length (view pass.old).pushed + returned_pushes (view pass.old).returned) ≤ 64
        + length (view pass.old).popped }
    ensures pass { IsPassOf queue.now pass.new }
    ensures popped { (fresh : List ℕ) × (into.new ≡ into.old ++ fresh)
        × PopsMore (view pass.old) fresh (view pass.new) }
    ensures empty { WasEmpty (view pass.new) }
{
    fill(rt, queue, pass, pops, into, 64);
    queue.learn_as::<PoppedLast>(pass);
}

/// Closes a list together with all its ends, and returns the remaining entries: first those that the poller holds, then the
/// queue's. Its contract states the order of all pushes: first what was popped and then what is left. The order has the pushes
/// of the poller and of each end in their own order, each once, and no others.
///
/// The list may hold at most 64 entries. Fails with `NotAll` (3) if some of its ends are missing, and returns the list and the
/// ends unchanged.
pub fn end_list<R: Wait + Drop>(
    list: SharedList<R>,
    ins: Vec<ListIn<R>>,
) -> Result<SoftList, ListBack<R>>
    requires ins { All (λ i. IsInOf list i) ins.items }
    requires few { AreFew list ins.items }
    ensures ok { IfOk result
        (λ soft. (left : List ℕ) × (order : List Push) × (soft ≡ in_hand list ++ left)
        × IsOneOrder list ins.items left order) }
    ensures back { IfErr result
        (λ b. (b.list ≡ list) × (b.ins.items ≡ ins.items) × (b.fault ≡ NotAll)) }
    ensures when { IsErr result ↔ (length ins.items < pushers_of list) }
{
    if ins.len() < list.pushers as usize {
        return Err(ListBack {
            fault: ListFault::NotAll,
            list,
            ins,
        });
    }
    let SharedList {
        rt,
        queue,
        mut pass,
        mut pops,
        mut hand,
        pushers: _,
    } = list;
    take_back(&queue, &mut pass, ins);
    drain(&rt, &queue, &mut pass, &mut pops, &mut hand);
    Ok(hand)
}
