//! Tests of the poll list to which several threads push: two examples worked out by hand, and what no contract says.

ghost use Rattle.std.specs.Prelude.{◌≡◌, [], ◌∷◌, IfOk};
ghost use Rattle.poll_engine.specs.SharedLists.{IsInOf, IsNewList, in_hand, pushed_by};

use poll_engine::{ListFault, ListIn, PollList, SharedList, SoftList, end_list, shared_list};
use std::alloc::Global;
use std::sync::Wait;
use std::test::Fail;
use std::thread;

/// Returns a list with two ends for pushing.
fn two_ended<R: Wait + Copy>(
    rt: R,
    alloc: Global,
) -> Result<(SharedList<R>, ListIn<R>, ListIn<R>), Fail>
    ensures list { IfOk result (λ r. IsNewList 2 r.0) }
    ensures first { IfOk result (λ r. IsInOf r.0 r.1 × (pushed_by r.1 ≡ [])) }
    ensures second { IfOk result (λ r. IsInOf r.0 r.2 × (pushed_by r.2 ≡ [])) }
{
    let (list, mut ins) = shared_list(rt, alloc, 2)?;
    let Some(second) = ins.pop() else {
        return Err("no second end".into());
    };
    let Some(first) = ins.pop() else {
        return Err("no first end".into());
    };
    Ok((list, first, second))
}

/// Returns the numbers of a splice.
fn spliced<R: Wait>(list: &mut SharedList<R>) -> SoftList
    ensures { in_hand list.new ≡ [] }
{
    let mut soft = SoftList::new();
    list.splice(&mut soft);
    soft
}

/// Returns a list with one number.
fn only(id: u32) -> SoftList
    ensures { result ≡ id ∷ [] }
{
    let mut soft = SoftList::new();
    soft.append(id);
    soft
}

// what is left, then what arrived meanwhile, then what is polled again
#[test]
fn shared_list_order(rt: HostRuntime) -> Result<(), Fail> {
    let none = shared_list(&rt, rt.alloc(), 0).err();
    assert_eq!(rt; none, Some(ListFault::BadSize));
    let (mut list, mut first, _second) = two_ended(&rt, rt.alloc())?;
    first.push(3);
    first.push(5);
    assert_eq!(rt; spliced(&mut list).ids(), [3, 5].as_slice());
    first.push(9);
    list.put_back(&only(7), &only(3));
    assert_eq!(rt; spliced(&mut list).ids(), [7, 9, 3].as_slice());
    Ok(())
}

#[test]
fn list_read_off(rt: HostRuntime) -> Result<(), Fail> {
    let (mut list, mut first, mut second) = two_ended(&rt, rt.alloc())?;
    first.push(3);
    second.push(4);
    first.push(5);
    let mut soft = SoftList::new();
    assert_eq!(rt; list.splice(&mut soft), 3);
    assert_eq!(rt; soft.ids(), [3, 4, 5].as_slice());
    second.push(6);
    let Err(mut back) = end_list(list, vec![in rt.alloc(); first]?) else {
        panic!(rt; "ended with one of two ends");
    };
    assert_eq!(rt; back.fault, ListFault::NotAll);
    back.ins.push(second).ok().ok_or("no memory")?;
    let left = end_list(back.list, back.ins).ok().ok_or("not all")?;
    assert_eq!(rt; left.ids(), [6].as_slice());
    Ok(())
}

// an end fills the queue of 64 entries; a push at the poller's own end doesn't wait then, because the poller holds the queue's
// first entry itself
#[test]
fn a_poller_never_waits_for_itself(rt: HostRuntime) -> Result<(), Fail> {
    let (mut list, mut first, _second) = two_ended(&rt, rt.alloc())?;
    for id in 0..64u32 {
        first.push(id);
    }
    list.push(64);
    assert!(rt; spliced(&mut list).ids().iter().copied().eq(0..64u32));
    assert_eq!(rt; spliced(&mut list).ids(), [64].as_slice());
    assert!(rt; spliced(&mut list).is_empty());
    Ok(())
}

/// Pushes this many numbers in a thread, from this one on.
fn push_many<R: Wait>(mut end: ListIn<R>, from: u32, count: u32) -> ListIn<R> {
    for k in 0..count {
        end.push(from.saturating_add(k));
    }
    end
}

// the queue has room for 64 numbers, so each pusher waits for the poller many times
#[test]
fn two_threads_push_each_number_once(rt: HostRuntime) -> Result<(), Fail> {
    let (mut list, first, second) = two_ended(rt, rt.alloc())?;
    let low_thread = thread::spawn(&rt, move || push_many(first, 0, 10_000))
        .ok()
        .ok_or("no thread")?;
    let high_thread = thread::spawn(&rt, move || push_many(second, 100_000, 10_000))
        .ok()
        .ok_or("no thread")?;
    let mut low = 0u32;
    let mut high = 100_000u32;
    for _ in rt.forever() {
        let soft = spliced(&mut list);
        for id in soft.ids() {
            if *id < 100_000 {
                assert_eq!(rt; *id, low);
                low = low.saturating_add(1);
            } else {
                assert_eq!(rt; *id, high);
                high = high.saturating_add(1);
            }
        }
        if low == 10_000 && high == 110_000 {
            break;
        }
        if soft.is_empty() {
            thread::yield_now();
        }
    }
    let _first = low_thread.join(&rt);
    let _second = high_thread.join(&rt);
    assert!(rt; spliced(&mut list).is_empty());
    Ok(())
}

/// Takes this many numbers in the poller's thread, and counts those that arrive in order, from 0 on.
fn take_many<R: Wait + Drop>(rt: R, mut list: SharedList<R>, count: u32) -> u32 {
    let mut taken = 0u32;
    let mut in_turn = 0u32;
    for _ in rt.forever() {
        for id in spliced(&mut list).ids() {
            taken = taken.saturating_add(1);
            if *id == in_turn {
                in_turn = in_turn.saturating_add(1);
            }
        }
        if taken >= count {
            break;
        }
        thread::yield_now();
    }
    in_turn
}

// the poller's end can also be sent to another thread
#[test]
fn a_poller_in_its_own_thread(rt: HostRuntime) -> Result<(), Fail> {
    let (list, mut first, _second) = two_ended(rt, rt.alloc())?;
    let poller = thread::spawn(&rt, move || take_many(rt, list, 1_000))
        .ok()
        .ok_or("no thread")?;
    for id in 0..1_000u32 {
        first.push(id);
    }
    assert_eq!(rt; poller.join(&rt), 1_000);
    Ok(())
}
