//! A poller with a list. Its handles form a [`Bench`], over which it makes polling runs while there is an instance on the list.

ghost use Rattle.std.specs.Prelude.{◌≡◌, ◌==◌, ◌<◌, position, vec_capacity, vec_len};
ghost use Rattle.poll_engine.specs.Limits.{IsLawful};

use crate::gate::Gate;
use crate::handle::PollHandle;
use crate::poller::{Poller, Serves};
use crate::setup::context::PollLimits;
use crate::setup::trail::{Signal, Trail};
use crate::shared::SharedList;
use napi_calls::{Caller, DropBomb};
use poll_runs::{Bench, BusyReport, Next, Once, RunReport, ThreadReport, run_softirq};
use rx_ring::Batch;
use std::sync::Wait;

// The handles of a poller, as a bench in which instances have their numbers.
#[derive(Drop)]
pub(crate) struct HandleBench<'n, R: Wait + Drop> {
    rt: R,
    seats: Vec<DropBomb<R, PollHandle<'n>>>,
    batch: Batch,
    // The wake-ups of the instances' threads, each with the caller at that time.
    wakes: Trail<Signal<Option<Caller>>>,
}

// Returns the index of the handle on the instance with this number.
fn find<'n, R: Wait + Drop>(seats: &[DropBomb<R, PollHandle<'n>>], number: u32) -> Option<usize>
    ensures { result ≡ position (λ seat. seat.value.number == number) seats.now }
{
    seats.iter().position(|seat| seat.value.number == number)
}

impl<'n, R: Wait + Drop> Bench for HandleBench<'n, R> {
    ghost use Rattle.poll_engine.specs.HandleBenches.{PollsSeat};

    ghost polls = { PollsSeat };

    fn poll_once(&mut self, id: u32, weight: u32) -> Once {
        match find(self.seats.as_slice(), id) {
            Some(at) => {
                let batch = &mut self.batch;
                self.seats[at]
                    .value
                    .poll(&self.rt, weight, batch, &mut self.wakes)
            }
            None => Once {
                work: 0,
                next: Next::Absent,
            },
        }
    }

    fn poll_thread(&mut self, _id: u32, _weight: u32, _most: u32) -> ThreadReport {
        ThreadReport::NONE
    }

    fn busy_poll(&mut self, _id: u32, _weight: u32, _rounds: u32) -> BusyReport {
        BusyReport::NONE
    }
}

/// A poller's list, and its handles on its instances.
#[derive(Drop)]
pub struct ListPoller<'n, R: Wait + Drop> {
    /// The list of instances that the poller polls.
    pub list: SharedList<R>,
    // Its handles on its instances.
    bench: HandleBench<'n, R>,
    /// How it polls.
    pub limits: PollLimits,
    ghost lawful: { IsLawful limits },
}

impl<'n, R: Wait + Drop> ListPoller<'n, R> {
    ghost use Rattle.poll_engine.specs.Turns.{RunsOnce};

    /// Returns a poller with this list, these handles and this trace.
    pub fn new(
        rt: R,
        list: SharedList<R>,
        seats: Vec<DropBomb<R, PollHandle<'n>>>,
        wakes: Trail<Signal<Option<Caller>>>,
        limits: PollLimits,
    ) -> Self
        requires { IsLawful limits }
        ensures list { result.list ≡ list }
        ensures seats { result.bench.seats ≡ seats.entry }
        ensures limits { result.limits ≡ limits }
    {
        ListPoller {
            list,
            bench: HandleBench {
                rt,
                seats,
                batch: Batch::new(),
                wakes,
            },
            limits,
        }
    }

    // Runs over the instances on the list, with the budget, the weight and the window of the limits (`net_rx_action`).
    fn run(&mut self) -> RunReport
        ensures { RunsOnce self.old result self.new }
    {
        let PollLimits {
            budget,
            weight,
            window,
        } = self.limits;
        run_softirq(&mut self.list, &mut self.bench, budget, weight, window)
    }
}

impl<'t, 'p, 'n, R: Wait + Drop, G: Gate> Poller<'t, 'p, R, G, ListPoller<'n, R>> {
    ghost use Rattle.poll_engine.specs.HandleBenches.{HasFirst, HasOneMore, TakesFirst};

    /// Adds a handle. Requires room for it.
    pub fn add(&mut self, seat: DropBomb<R, PollHandle<'n>>)
        requires { vec_len self.old.served.bench.seats < vec_capacity self.old.served.bench.seats }
        ensures { HasOneMore self.old seat.entry self.new }
    {
        let served = &mut self.served;
        served.bench.seats.push_reserved(seat);
    }

    /// Takes the first of its handles, and returns its caller.
    pub fn take(&mut self) -> Caller
        requires { HasFirst self.old }
        ensures { TakesFirst self.old result self.new }
    {
        let served = &mut self.served;
        served.bench.seats.remove(0).open().leave()
    }
}

impl<'n, R: Wait + Drop> Serves for ListPoller<'n, R> {
    ghost use Rattle.std.specs.Prelude.{false};
    ghost use Rattle.poll_engine.specs.Turns.{TurnsByRun};

    ghost idle = { λ _. false };

    ghost turns = { TurnsByRun };

    fn is_idle(&self) -> bool {
        false
    }

    fn turn(&mut self) -> bool {
        self.run().polls > 0
    }
}
