//! How the instances of stations are opened and closed.

ghost use Rattle.std.specs.Prelude.{◌≡◌, ◌≤◌, [], ◌∷◌, IfOk, OnOk, vec_items, vec_len};
ghost use Rattle.std.specs.List.{All, AllZip};
ghost use Rattle.napi_calls.specs.Instance.{IsSeatOf, callers_of};
ghost use Rattle.poll_engine.specs.Ends.{IsFinishOf, IsKeptFinishOf};
ghost use Rattle.poll_engine.specs.Opens.{IsHome, IsKeptLoose, IsKeptPartOf, IsKeptSideOf, IsLoose, IsPartOf, IsSideOf, IsStation};
ghost use Rattle.poll_engine.specs.Tasks.{HasRoom};
ghost use Rattle.poll_engine.specs.Closings.{IsCallersOf, IsClosedAs};
ghost use Rattle.poll_engine.specs.Handles.{AreAtRest};

use crate::setup::signals::{IdleWait, Waker};
use crate::setup::trail::{Asked, Trail};
use crate::station::{Closed, Finished, Station};
use crate::worker::{ControllerState, WorkerHandles};
use napi_calls::{Caller, DropBomb, Napi, NewBack, next_caller};
use rx_ring::{RxCtx, RxIn, beside, finish, ring};
use std::alloc::{AllocError, Global};
use std::snapshot::Snapshot;
use std::sync::Wait;

/// The part of a station's instance that stays with the caller while its threads run: the instance, the waker of its own
/// thread, if it has one, and room for its three callers. It is linear: it can't be dropped.
pub struct Placed {
    /// The device's number.
    pub number: u32,
    /// The instance.
    pub napi: Napi,
    /// Whether it has its own thread.
    pub has_thread: bool,
    /// The waker of that thread.
    pub waker: Waker,
    /// Room for its three callers, reserved before the run.
    pub room: Vec<Caller>,
}

/// The parts of a station that go to its threads. It is linear: it can't be dropped.
pub struct Loose<D> {
    /// The device's number.
    pub number: u32,
    /// The device, before its acts.
    pub device: D,
    /// The input of its receive ring.
    pub rx: RxIn,
    /// The worker's handles on the instance, which is disabled.
    pub handles: WorkerHandles,
    /// The caller that the poller of its list uses.
    pub poller: Caller,
    /// The caller that its own thread uses.
    pub thread: Caller,
    /// Whether it has its own thread.
    pub has_thread: bool,
    /// How that thread waits.
    pub wait: IdleWait,
    /// The worker's questions to the gate.
    pub asked: Trail<Asked<D>>,
}

impl Placed {
    /// Closes the instance, with its three callers (`netif_napi_del`).
    fn close(self, handles: WorkerHandles, poller: Caller, thread: Caller) -> (Closed, RxCtx)
        requires home { IsHome self }
        requires handles { AreAtRest self.napi handles }
        requires callers { IsSeatOf self.napi poller.pass × IsSeatOf self.napi thread.pass }
        ensures napi { result.0.napi.value ≡ self.napi }
        ensures of { IsCallersOf handles poller thread result.0 }
        ensures closed { IsClosedAs result.0 result.1 }
    {
        let Placed {
            number: _,
            napi,
            has_thread: _,
            waker: _,
            room,
        } = self;
        let WorkerHandles {
            caller,
            control: ControllerState::Off(control),
            threaded: _,
        } = handles
        else {
            unreachable!()
        };
        let at = Snapshot::of(&napi);
        let worker = Snapshot::of(&caller);
        let own_poller = Snapshot::of(&poller);
        let own_thread = Snapshot::of(&thread);
        let off = Snapshot::of(&control);
        let mut callers = room;
        callers.push_reserved(caller);
        callers.push_reserved(poller);
        callers.push_reserved(thread);
        let closed = napi_calls::close(napi, callers, control);
        let Ok(ctx) = closed else { unreachable!() };
        let closed = Closed {
            napi: at,
            worker,
            poller: own_poller,
            thread: own_thread,
            control: off,
        };
        (closed, ctx)
    }
}

// Opens a station: returns its instance, made and disabled, in the parts for its threads and the part that stays.
fn open<D: Drop>(alloc: Global, station: Station<D>) -> Result<(Placed, Loose<D>), AllocError>
    requires { IsStation station }
    ensures loose { IfOk result (λ r. IsLoose station r.1) }
    ensures side { IfOk result (λ r. IsSideOf r.1 r.0) }
{
    let Station {
        number,
        capacity,
        thread: has_thread,
        device,
    } = station;
    let (waker, wait) = Waker::new(alloc)?;
    let (rx, ctx) = ring(alloc, capacity).map_err(|_| AllocError)?;
    let (napi, mut callers, control) = match Napi::new(alloc, ctx, 3) {
        Ok(made) => made,
        Err(NewBack { fault: _, ctx: _ }) => return Err(AllocError),
    };
    let thread = next_caller(&napi, &mut callers);
    let poller = next_caller(&napi, &mut callers);
    let caller = next_caller(&napi, &mut callers);
    let placed = Placed {
        number,
        napi,
        has_thread,
        waker,
        room: callers,
    };
    let loose = Loose {
        number,
        device,
        rx,
        handles: WorkerHandles {
            caller,
            control: ControllerState::Off(control),
            threaded: false,
        },
        poller,
        thread,
        has_thread,
        wait,
        asked: Trail::new(),
    };
    Ok((placed, loose))
}

// Closes the instance of a station (`netif_napi_del`), and counts what is in its ring.
fn end<D: Drop>(placed: Placed, loose: Loose<D>) -> Finished<D>
    requires { IsPartOf loose placed }
    ensures { IsFinishOf loose result }
{
    let Loose {
        number,
        device,
        mut rx,
        handles,
        poller,
        thread,
        has_thread: _,
        wait: _,
        asked,
    } = loose;
    let (closed, mut ctx) = placed.close(handles, poller, thread);
    // The ends meet, so it is known that the ring holds at most its capacity.
    beside(&mut rx, &mut ctx);
    let totals = finish(rx, ctx);
    Finished {
        number,
        device,
        totals,
        closed,
        asked,
    }
}

/// Closes instances, in order, that no thread uses any more. Requires room for the results.
pub fn end_all<R: Wait + Drop, D: Drop>(
    placed: Vec<DropBomb<R, Placed>>,
    loose: Vec<DropBomb<R, Loose<D>>>,
    room: Vec<Finished<D>>,
) -> Vec<Finished<D>>
    requires parts { AllZip IsKeptPartOf (vec_items loose) (vec_items placed) }
    requires room { HasRoom (vec_len loose) room }
    ensures { AllZip IsKeptFinishOf (vec_items loose) (vec_items result) }
{
    let mut finished = room;
    let mut others = loose.into_iter();
    let mut all = placed.into_iter();
    while let Some(other) = others.next() {
        let Some(one) = all.next() else {
            unreachable!()
        };
        finished.push_reserved(end(one.open(), other.open()));
    }
    finished
}

/// Opens the instances of all stations, in order. Requires room for their parts. If an allocation fails, those that were opened
/// before stay open.
pub fn open_all<R: Wait + Drop + Copy, D: Drop>(
    rt: R,
    alloc: Global,
    stations: Vec<Station<D>>,
    placed: &mut Vec<DropBomb<R, Placed>>,
    loose: &mut Vec<DropBomb<R, Loose<D>>>,
) -> Result<(), AllocError>
    requires stations { All IsStation (vec_items stations) }
    requires placed { HasRoom (vec_len stations) placed.old }
    requires loose { HasRoom (vec_len stations) loose.old }
    ensures loose { OnOk result (AllZip IsKeptLoose (vec_items stations) (vec_items loose.new)) }
    ensures sides { AllZip IsKeptSideOf (vec_items loose.new) (vec_items placed.new) }
    ensures few { vec_len loose.new ≤ vec_len stations }
{
    for station in stations {
        let (one, other) = open(alloc, station)?;
        placed.push_reserved(DropBomb::new(rt, one));
        loose.push_reserved(DropBomb::new(rt, other));
    }
    Ok(())
}
