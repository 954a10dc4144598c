//! The polling of one instance that threads share.

ghost use Rattle.std.specs.Prelude.{◌≡◌, ◌≤◌, true, [], List, length};
ghost use Rattle.poll_runs.specs.Plan.{Action, Follows, given, operations};
ghost use Rattle.poll_runs.specs.Polling.{busy_poll_plan, thread_poll_plan, poll_once_plan};
ghost use Rattle.poll_runs.specs.Ranges.{IsMost, IsRounds, IsWeight};
ghost use Rattle.poll_runs.specs.Thread.{IsThreadPolling};
ghost use Rattle.poll_runs.specs.declared.bench.Once.{Once};
ghost use Rattle.poll_runs.specs.declared.bench.Next.TheVariants.{Absent};
ghost use Rattle.rx_ring.specs.ReceiveRing.{bytes_of};
ghost use Rattle.rx_ring.specs.declared.packet.Packet.{Packet};
ghost use Rattle.napi_calls.specs.Dealt.{Delivers};
ghost use Rattle.napi_calls.specs.Instance.{IsSeatOf};
ghost use Rattle.napi_calls.specs.Made.{Made};
ghost use Rattle.napi_calls.specs.Seats.{SameSeat};
ghost use Rattle.poll_shared.specs.Tries.{Tries};

use crate::seat::SharedHandle;
use napi_calls::{Caller, CallerState, Napi};
use poll_runs::{BusyReport, Next, Once, ThreadReport, poll_busy_of, poll_once_of, poll_thread_of};
use rx_ring::Batch;
use std::sync::Wait;

/// Takes an instance that threads share from the list and polls it once (`napi_poll`), with this weight, in 1..=64. If `thread`
/// is true the instance has its own thread, and after a missed request it is queued for that thread if THREADED is set;
/// otherwise it is always queued on the list. After [`Next::Repoll`], and [`Next::Again`] with the list, the caller still has
/// to push its number.
///
/// Afterwards the batch has the packets of the poll, which are all that the caller delivers by it; it is empty if the instance
/// wasn't on the list.
pub fn poll_instance<R: Wait>(
    rt: &R,
    napi: &Napi,
    caller: Caller,
    weight: u32,
    thread: bool,
    batch: &mut Batch,
) -> (Caller, Once)
    requires seat { IsSeatOf napi.now caller.pass }
    requires weight { IsWeight weight }
    ensures seat { SameSeat caller.pass result.0.pass }
    ensures made { (deeds : List (Action Packet))
        × Made caller.pass (operations deeds) result.0.pass
        × Follows Tries (poll_once_plan thread weight) deeds
        (record { once = result.1; packets = batch.new.items }) }
    ensures packets { Delivers caller.pass batch.new.items result.0.pass }
    ensures absent { result.1.next ≡ Absent → batch.new.items ≡ [] }
    ensures work { result.1.work ≡ length batch.new.items }
    ensures bound { result.1.work ≤ weight }
{
    batch.clear();
    let mut seat = SharedHandle {
        rt,
        napi,
        thread,
        state: CallerState::Rests(caller),
    };
    let once = poll_once_of(&mut seat, weight, batch);
    (seat.rise(), once)
}

/// Polls an instance that threads share by its own thread (`napi_threaded_poll`), with this weight, in 1..=64, at most `most`
/// times, in 1..=131072. It takes the instance, if it was queued for the thread, and polls it until no repoll is asked for.
/// After a missed request the instance is queued for the thread and taken again if THREADED is set, otherwise queued on the
/// list. After [`Next::Repoll`], and [`Next::Again`] with the list, the caller still has to push its number.
///
/// The batch is cleared before each poll: afterwards it has the packets of the last poll, and is empty if there was none.
pub fn poll_instance_by_thread<R: Wait>(
    rt: &R,
    napi: &Napi,
    caller: Caller,
    weight: u32,
    most: u32,
    batch: &mut Batch,
) -> (Caller, ThreadReport)
    requires seat { IsSeatOf napi.now caller.pass }
    requires weight { IsWeight weight }
    requires most { IsMost most }
    ensures seat { SameSeat caller.pass result.0.pass }
    ensures polls { (polls : List Once) × (deeds : List (Action Packet))
        × Made caller.pass (operations deeds) result.0.pass
        × Follows Tries (thread_poll_plan true weight most) deeds
        (record { polls = polls; packets = batch.new.items })
        × Delivers caller.pass (given deeds) result.0.pass
        × IsThreadPolling weight most polls result.1 }
{
    batch.clear();
    let mut seat = SharedHandle {
        rt,
        napi,
        thread: true,
        state: CallerState::Rests(caller),
    };
    let report = poll_thread_of(&mut seat, weight, most, batch);
    (seat.rise(), report)
}

/// Busy polls an instance that threads share (`napi_busy_loop`): if it is idle, the caller takes it, makes this many rounds, in
/// 1..=65535, stops (`busy_poll_stop`) and polls once more, each time with this weight, in 1..=64. A round with work below the
/// weight completes, and the completion is held. The last poll releases the instance or, after a missed request, queues it: for
/// the thread if THREADED is set, otherwise on the list; if it uses its whole weight, it queues it on the list. After
/// [`Next::Repoll`], and [`Next::Again`] with the list, the caller still has to push its number. Returns [`Next::Absent`] for
/// an instance that isn't idle.
///
/// The batch is cleared before each poll: afterwards it has the packets of the last poll, and is empty if there was none.
pub fn busy_instance<R: Wait>(
    rt: &R,
    napi: &Napi,
    caller: Caller,
    rounds: u32,
    weight: u32,
    batch: &mut Batch,
) -> (Caller, BusyReport)
    requires seat { IsSeatOf napi.now caller.pass }
    requires rounds { IsRounds rounds }
    requires weight { IsWeight weight }
    ensures seat { SameSeat caller.pass result.0.pass }
    ensures polls { (deeds : List (Action Packet))
        × Made caller.pass (operations deeds) result.0.pass
        × Follows Tries (busy_poll_plan bytes_of true weight rounds) deeds
        (record { report = result.1; packets = batch.new.items })
        × Delivers caller.pass (given deeds) result.0.pass }
{
    batch.clear();
    let mut seat = SharedHandle {
        rt,
        napi,
        thread: true,
        state: CallerState::Rests(caller),
    };
    let report = poll_busy_of(&mut seat, rounds, weight, batch);
    (seat.rise(), report)
}
