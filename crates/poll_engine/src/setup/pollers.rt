//! The pollers of a run, each with its waker and its list.

ghost use Rattle.std.specs.Prelude.{◌≡◌, ◌≤◌, ◌<◌, ◌+◌, ℕ, [], List, IfOk, length, vec_items, vec_len};
ghost use Rattle.std.specs.List.{All, AllZip};
ghost use Rattle.poll_engine.specs.SharedLists.{IsNewList};
ghost use Rattle.poll_engine.specs.declared.shared.SharedList.{SharedList};
ghost use Rattle.poll_engine.specs.Limits.{IsLawful};
ghost use Rattle.poll_engine.specs.Wakers.{Wakes};
ghost use Rattle.poll_engine.specs.Spreads.{AreEndsOf, ArePollers, IsEndOf, IsNewEnd};

use crate::acts::Device;
use crate::driving::Tasks;
use crate::gate::Gate;
use crate::list_ends::shared_list;
use crate::list_in::ListIn;
use crate::list_poller::ListPoller;
use crate::poller::Poller;
use crate::setup::context::RunContext;
use crate::setup::signals::{IdleWait, Waker};
use crate::setup::trail::{Signal, Trail};
use crate::shared::SharedList;
use crate::thread_poller::ThreadPoller;
use crate::worker::InterruptWorker;
use std::alloc::{AllocError, Global};
use std::sync::Wait;

// The poller's number for the gate is this plus its number, counted from 0 (`poller_name`).
const FIRST_POLLER: u32 = 100;

/// A poller with a list.
pub(crate) type OwnPoller<'t, 'p, 'n, R, G> = Poller<'t, 'p, R, G, ListPoller<'n, R>>;

/// A poller that is the thread of an instance.
pub(crate) type OwnThread<'t, 'p, 'n, R, G> = Poller<'t, 'n, R, G, ThreadPoller<'p, 'n, R>>;

/// The tasks of a run.
pub(crate) type RunTasks<'t, 'p, 'n, R, D, G> = Tasks<
    OwnPoller<'t, 'p, 'n, R, G>,
    InterruptWorker<'t, 'p, 'n, R, D, G>,
    OwnThread<'t, 'p, 'n, R, G>,
>;

/// Returns the trace of the closes of these tasks' queues.
pub(crate) fn closes_of<'t, 'p, 'n, R: Wait + Copy + Drop, D: Device + Drop, G: Gate>(
    _tasks: &RunTasks<'t, 'p, 'n, R, D, G>,
) -> Trail<Signal<RunTasks<'t, 'p, 'n, R, D, G>>> {
    Trail::new()
}

/// Returns the wakers of this many pollers, and how each of these pollers waits.
pub(crate) fn wakers_of(
    alloc: Global,
    pollers: usize,
) -> Result<(Vec<Waker>, Vec<IdleWait>), AllocError>
    ensures len { IfOk result (λ r. length (vec_items r.0) ≡ pollers) }
    ensures wakes { IfOk result (λ r. AllZip Wakes (vec_items r.0) (vec_items r.1)) }
{
    let mut wakers = Vec::new(alloc);
    let mut waits = Vec::new(alloc);
    for _ in 0..pollers {
        let (waker, wait) = Waker::new(alloc)?;
        wakers.push(waker)?;
        waits.push(wait)?;
    }
    Ok((wakers, waits))
}

// Returns a new list, and two ends of it for each of this many stations.
fn list_of<R: Wait + Drop + Copy>(
    rt: R,
    alloc: Global,
    count: usize,
) -> Result<(SharedList<R>, Vec<ListIn<R>>), AllocError>
    requires { count ≤ 16 }
    ensures new { IfOk result (λ r. (ends : ℕ) × IsNewList ends r.0) }
    ensures ends { IfOk result (λ r. count + count ≤ vec_len r.1) }
    ensures own { IfOk result (λ r. All (IsNewEnd r.0) (vec_items r.1)) }
{
    shared_list(rt, alloc, 2 * count as u32).map_err(|_| AllocError)
}

/// Returns the pollers with these wakers, each with room for this many handles, and for each of them two ends of its list for
/// each of this many stations.
pub(crate) fn pollers_of<'t, 'p, 'n, R: Wait + Drop + Copy, G: Gate>(
    context: &'t RunContext<R, G>,
    alloc: Global,
    wakers: &'p [Waker],
    waits: Vec<IdleWait>,
    count: usize,
) -> Result<(Vec<OwnPoller<'t, 'p, 'n, R, G>>, Vec<Vec<ListIn<R>>>), AllocError>
    requires wakes { AllZip Wakes wakers.now (vec_items waits) }
    requires few { length wakers.now ≤ 8 }
    requires count { count ≤ 16 }
    requires limits { IsLawful context.now.limits }
    ensures pollers { IfOk result
        (λ r. ArePollers context.now wakers.now count [] (vec_items r.0)) }
    ensures own { IfOk result
        (λ r. AllZip (λ p ends. All (IsNewEnd p.served.list) (vec_items ends))
        (vec_items r.0) (vec_items r.1)) }
    ensures enough { IfOk result (λ r. All (λ e. count + count ≤ vec_len e) (vec_items r.1)) }
{
    let mut pollers = Vec::new(alloc);
    let mut ends = Vec::new(alloc);
    let mut rest = wakers;
    let mut waits = waits.into_iter();
    while let Some(wait) = waits.next() {
        let Some((waker, more)) = rest.split_first() else {
            unreachable!()
        };
        rest = more;
        let (list, own_ends) = list_of(context.rt, alloc, count)?;
        let seats = Vec::with_capacity(alloc, count)?;
        let name = FIRST_POLLER + pollers.len() as u32;
        let wakes = Trail::new();
        pollers.push(Poller {
            context,
            name,
            waker,
            wait,
            served: ListPoller::new(context.rt, list, seats, wakes, context.limits),
            asked: Trail::new(),
            stop: None,
        })?;
        ends.push(own_ends)?;
    }
    Ok((pollers, ends))
}

/// Returns two ends of a poller's list, one for a worker and one for a thread poller.
pub(crate) fn two_ends<R: Wait + Drop>(
    ends: &mut Vec<Vec<ListIn<R>>>,
    poller: usize,
) -> (ListIn<R>, ListIn<R>)
    requires within { poller < length (vec_items ends.old) }
    requires some { All (λ e. 2 ≤ vec_len e) (vec_items ends.old) }
    ensures left { (n : ℕ) → All (λ e. n + 2 ≤ vec_len e) (vec_items ends.old)
        → All (λ e. n ≤ vec_len e) (vec_items ends.new) }
    ensures own { (lists : List (SharedList _)) → AreEndsOf lists (vec_items ends.old)
        → IsEndOf lists poller result.0 × IsEndOf lists poller result.1
        × AreEndsOf lists (vec_items ends.new) }
    ensures len { length (vec_items ends.new) ≡ length (vec_items ends.old) }
{
    let own = &mut ends[poller];
    let Some(one) = own.pop() else { unreachable!() };
    let Some(other) = own.pop() else {
        unreachable!()
    };
    (one, other)
}
