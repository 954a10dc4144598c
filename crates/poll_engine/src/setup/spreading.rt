//! Distributes the parts of the opened instances over the threads of a run.

ghost use Rattle.std.specs.Prelude.{◌≡◌, ◌+◌, ◌≤◌, [], List, IfSome, Some, is_some, length, map, vec_items, vec_len};
ghost use Rattle.std.specs.List.{All, AllByRecursion, AllZip};
ghost use Rattle.napi_calls.specs.Instance.{IsSeatOf};
ghost use Rattle.poll_engine.specs.declared.shared.SharedList.{SharedList};
ghost use Rattle.poll_engine.specs.declared.handle.PollHandle.{PollHandle};
ghost use Rattle.napi_calls.specs.declared.kept.DropBomb.{DropBomb};
ghost use Rattle.poll_engine.specs.Opens.{IsKeptSideOf, IsSideOf};
ghost use Rattle.poll_engine.specs.Limits.{IsLawful};
ghost use Rattle.poll_engine.specs.Spreads.{AreEndsOf, ArePollers, IsJobAt, IsJobOf, IsKeptJobOf, IsKeptSeatFor, IsKeptThreadFor};
ghost use Rattle.poll_engine.specs.Spreads.{IsSeatAt, IsSeatFor, IsThreadAt, IsThreadFor, IsWiredJob, IsWiredSide};
ghost use Rattle.poll_engine.specs.Tasks.{HasRoom};

use crate::acts::Device;
use crate::dealing::poller_of;
use crate::gate::Gate;
use crate::handle::PollHandle;
use crate::list_in::ListIn;
use crate::outbox::Outbox;
use crate::poller::Poller;
use crate::setup::context::RunContext;
use crate::setup::opening::{Loose, Placed};
use crate::setup::pollers::{OwnThread, RunTasks, two_ends};
use crate::setup::signals::Waker;
use crate::setup::trail::Trail;
use crate::thread_poller::ThreadPoller;
use crate::worker::{InterruptHandler, InterruptWorker};
use napi_calls::{Caller, DropBomb};
use std::sync::Wait;

// The number of an instance's thread for the gate is this plus its device's number (`thread_name`).
const FIRST_THREAD: u32 = 200;

// Returns the waker of an instance's own thread, if it has one.
fn thread_waker<'n>(placed: &'n Placed) -> Option<&'n Waker>
    ensures thread { is_some result ≡ placed.now.has_thread }
    ensures waker { IfSome result (λ b. b.now ≡ placed.now.waker) }
{
    if placed.has_thread {
        Some(&placed.waker)
    } else {
        None
    }
}

// Returns the interrupt handler of an instance's worker: where its interrupts go.
fn handler_at<'p, 'n, R: Copy, G: Gate>(
    context: &RunContext<R, G>,
    waker: &'p Waker,
    placed: &'n Placed,
    number: u32,
) -> InterruptHandler<'p, 'n, R>
    ensures number { result.number ≡ number }
    ensures napi { result.napi.now ≡ placed.now.napi }
    ensures thread { is_some result.thread ≡ placed.now.has_thread }
    ensures poller { result.poller.now ≡ waker.now }
{
    let thread = thread_waker(placed);
    InterruptHandler {
        rt: context.rt,
        number,
        napi: &placed.napi,
        thread,
        poller: waker,
    }
}

// Returns the handle by which this caller polls an instance.
fn seat_of<'n, R: Wait + Drop + Copy>(
    rt: R,
    placed: &'n Placed,
    number: u32,
    caller: Caller,
) -> DropBomb<R, PollHandle<'n>>
    requires { IsSeatOf placed.now.napi caller.pass }
    ensures number { result.value.number ≡ number }
    ensures napi { result.value.napi.now ≡ placed.now.napi }
    ensures thread { is_some result.value.thread ≡ placed.now.has_thread }
    ensures waker { IfSome result.value.thread (λ b. b.now ≡ placed.now.waker) }
    ensures caller { result.value.caller ≡ Some caller }
{
    DropBomb::new(
        rt,
        PollHandle {
            number,
            napi: &placed.napi,
            thread: thread_waker(placed),
            caller: Some(caller),
        },
    )
}

// Returns the parts of one instance: its worker, the handle for the poller of its list, and its thread poller.
fn split<'t, 'p, 'n, R: Wait + Drop + Copy, D: Drop, G: Gate>(
    context: &'t RunContext<R, G>,
    waker: &'p Waker,
    placed: &'n DropBomb<R, Placed>,
    loose: Loose<D>,
    ends: (ListIn<R>, ListIn<R>),
) -> (
    InterruptWorker<'t, 'p, 'n, R, D, G>,
    DropBomb<R, PollHandle<'n>>,
    OwnThread<'t, 'p, 'n, R, G>,
)
    requires side { IsSideOf loose placed.now.value }
    requires limits { IsLawful context.now.limits }
    ensures job { IsJobOf context.now loose result.0 × IsJobAt placed.now result.0 }
    ensures seat { IsSeatAt placed.now result.1 × IsSeatFor loose loose.poller result.1 }
    ensures thread { IsThreadAt placed.now result.2 × IsThreadFor context.now loose result.2 }
    ensures lists { (result.0.out.list ≡ ends.0) × (result.2.served.list ≡ ends.1) }
    ensures wakers { (result.0.handler.poller.now ≡ waker.now)
        × (result.2.served.poller.now ≡ waker.now) }
{
    let Loose {
        number,
        device,
        rx,
        handles,
        poller,
        thread,
        has_thread: _,
        wait,
        asked,
    } = loose;
    let worker = InterruptWorker {
        context,
        handler: handler_at(context, waker, &placed.value, number),
        out: Outbox::new(ends.0, Trail::new(), asked, Trail::new()),
        closes: Trail::new(),
        device,
        rx,
        handles: DropBomb::new(context.rt, handles),
        stop: None,
    };
    let seat = seat_of(context.rt, &placed.value, number, poller);
    let side = Poller {
        context,
        name: FIRST_THREAD + number,
        waker: &placed.value.waker,
        wait,
        served: ThreadPoller::new(
            context.rt,
            seat_of(context.rt, &placed.value, number, thread),
            ends.1,
            waker,
            Trail::new(),
            context.limits,
        ),
        asked: Trail::new(),
        stop: None,
    };
    (worker, seat, side)
}

/// Distributes the opened instances over the threads of the run. `ends` has two ends of its poller's list for each instance.
pub(crate) fn spread<'t, 'p, 'n, R: Wait + Drop + Copy, D: Device + Drop, G: Gate>(
    context: &'t RunContext<R, G>,
    wakers: &'p [Waker],
    placed: &'n [DropBomb<R, Placed>],
    loose: Vec<DropBomb<R, Loose<D>>>,
    ends: Vec<Vec<ListIn<R>>>,
    tasks: RunTasks<'t, 'p, 'n, R, D, G>,
) -> RunTasks<'t, 'p, 'n, R, D, G>
    requires sides { AllZip IsKeptSideOf (vec_items loose) placed.now }
    requires limits { IsLawful context.now.limits }
    requires some { 1 ≤ length wakers.now }
    requires ends { All (λ e. vec_len loose + vec_len loose ≤ vec_len e) (vec_items ends)
        × (length (vec_items ends) ≡ length wakers.now) }
    requires pollers { ArePollers context.now wakers.now (vec_len loose) []
        (vec_items tasks.pollers) }
    requires room { HasRoom (vec_len loose) tasks.workers × HasRoom (vec_len loose) tasks.threads }
    ensures jobs { AllZip (IsKeptJobOf context.now) (vec_items loose) (vec_items result.workers) }
    ensures job_places { AllZip IsJobAt placed.now (vec_items result.workers) }
    ensures thread_places { AllZip IsThreadAt placed.now (vec_items result.threads) }
    ensures threads { AllZip (IsKeptThreadFor context.now) (vec_items loose)
        (vec_items result.threads) }
    // Each worker and each thread poller pushes on the list of its station's poller, and wakes that poller.
    ensures wired_jobs { (lists : List (SharedList _)) → AreEndsOf lists (vec_items ends)
        → AllByRecursion (IsWiredJob lists wakers.now) (vec_items result.workers) }
    ensures wired_threads { (lists : List (SharedList _)) → AreEndsOf lists (vec_items ends)
        → AllByRecursion (IsWiredSide lists wakers.now) (vec_items result.threads) }
    ensures seats { (sat : List (DropBomb _ PollHandle)) × AllZip IsSeatAt placed.now sat
        × AllZip IsKeptSeatFor (vec_items loose) sat
        × ArePollers context.now wakers.now (vec_len loose) sat (vec_items result.pollers) }
    ensures lists { map (λ p. p.served.list) (vec_items result.pollers)
        ≡ map (λ p. p.served.list) (vec_items tasks.entry.pollers) }
    ensures rest { (result.polling ≡ tasks.entry.polling)
        × (result.working ≡ tasks.entry.working) × (result.siding ≡ tasks.entry.siding) }
{
    let mut tasks = tasks;
    let mut lists = ends;
    let mut places = placed;
    let mut rests = loose.into_iter();
    while let Some(rest) = rests.next() {
        let Some((place, more)) = places.split_first() else {
            unreachable!()
        };
        places = more;
        let poller = poller_of(place.value.number, wakers.len());
        let both = two_ends(&mut lists, poller);
        let (job, seat, side) = split(context, &wakers[poller], place, rest.open(), both);
        tasks.pollers[poller].add(seat);
        tasks.workers.push_reserved(job);
        tasks.threads.push_reserved(side);
    }
    tasks
}
