//! Tests of runs of workers and pollers. Their gates show that the threads run concurrently.

ghost use Rattle.std.specs.Prelude.{◌≡◌, ◌≤◌, ◌∷◌, ◌++◌, [], IfOk, IsTrue};
ghost use Rattle.std.specs.List.{All};
ghost use Rattle.poll_engine.specs.Opens.{IsStation};
ghost use Rattle.poll_engine.specs.Numbers.{have_distinct_numbers, numbers_of};

use poll_engine::{
    Act, ActList, Device, Finished, Gate, OpenGate, Station, WorkFault, run_workers,
};
use rx_ring::Packet;
use std::alloc::{AllocError, Global};
use std::process::Abort;
use std::sync::Wait;
use std::sync::atomic::{AtomicBool, Ordering};
use std::test::Fail;
use std::thread;
use std::thread::Threads;

// Adds the arrivals of this many packets of 100 bytes.
fn receive(acts: &mut Vec<Act>, packets: u64) -> Result<(), AllocError> {
    for number in 0..packets {
        acts.push(Act::Arrive(Packet { number, bytes: 100 }))?;
    }
    Ok(())
}

/// Runs the stations by this many pollers, with the default budget, weight and window.
pub(crate) fn run<R, D, G>(
    rt: &R,
    alloc: Global,
    stations: Vec<Station<D>>,
    pollers: u32,
    gate: &G,
) -> Result<Vec<Finished<D>>, WorkFault>
where
    R: Threads + Wait + Sync,
    D: Device + Drop + Send,
    G: Gate + Sync,
    requires stations { All IsStation stations.items }
    requires numbers { IsTrue (have_distinct_numbers stations.items) }
    requires pollers { (1 ≤ pollers) × (pollers ≤ 8) }
{
    run_workers(rt, alloc, stations, pollers, 300, 64, 1024, gate)
}

/// How often a gate checks before it gives up: some seconds, so that a run that would otherwise wait forever ends.
pub(crate) const LOOKS: u32 = 20_000_000;

/// A gate at which each of two threads waits at its act until the other reaches its own act, but not forever.
#[derive(Drop)]
pub(crate) struct Together {
    first: (u32, u32),
    second: (u32, u32),
    came: [AtomicBool; 2],
}

impl Together {
    /// Returns the gate of two threads, each given by its number and its act.
    pub(crate) fn new(first: (u32, u32), second: (u32, u32)) -> Together {
        Together {
            first,
            second,
            came: [AtomicBool::new(false), AtomicBool::new(false)],
        }
    }

    fn meet(&self, mine: usize, other: usize) -> bool {
        if let Some(flag) = self.came.get(mine) {
            flag.store(true, Ordering::SeqCst);
        }
        for _ in 0..LOOKS {
            if let Some(flag) = self.came.get(other)
                && flag.load(Ordering::SeqCst)
            {
                return true;
            }
            thread::yield_now();
        }
        false
    }
}

impl Gate for Together {
    fn pass(&self, worker: u32, act: u32) -> bool {
        if (worker, act) == self.first {
            self.meet(0, 1)
        } else if (worker, act) == self.second {
            self.meet(1, 0)
        } else {
            true
        }
    }
}

/// A gate that returns false at one act of one worker.
#[derive(Drop)]
pub(crate) struct ShutAt {
    /// The worker.
    pub(crate) worker: u32,
    /// The act.
    pub(crate) act: u32,
}

impl Gate for ShutAt {
    fn pass(&self, worker: u32, act: u32) -> bool {
        worker != self.worker || act != self.act
    }
}

/// A gate that delays a poller at its start until a worker has reached its disable, and some time more. The worker may reach
/// its next act only after the poller was released.
#[derive(Drop)]
pub(crate) struct HoldsPoller {
    poller: u32,
    worker: u32,
    disable: u32,
    asked: AtomicBool,
    let_go: AtomicBool,
}

impl HoldsPoller {
    /// Returns the gate that delays this poller until this worker has reached the act that disables.
    pub(crate) fn new(poller: u32, worker: u32, disable: u32) -> HoldsPoller {
        HoldsPoller {
            poller,
            worker,
            disable,
            asked: AtomicBool::new(false),
            let_go: AtomicBool::new(false),
        }
    }

    fn hold(&self) -> bool {
        let mut more = 100_000u32;
        for _ in 0..LOOKS {
            thread::yield_now();
            if self.asked.load(Ordering::SeqCst) {
                more = more.saturating_sub(1);
            }
            if more == 0 {
                break;
            }
        }
        self.let_go.store(true, Ordering::SeqCst);
        self.asked.load(Ordering::SeqCst)
    }
}

impl Gate for HoldsPoller {
    fn pass(&self, worker: u32, act: u32) -> bool {
        if worker == self.poller {
            return self.hold();
        }
        if worker != self.worker {
            return true;
        }
        if act == self.disable {
            self.asked.store(true, Ordering::SeqCst);
        }
        act <= self.disable || self.let_go.load(Ordering::SeqCst)
    }
}

// Adds one more station.
fn with(
    mut stations: Vec<Station<ActList>>,
    number: u32,
    capacity: usize,
    thread: bool,
    acts: Vec<Act>,
) -> Result<Vec<Station<ActList>>, AllocError>
    requires all { All IsStation stations.items }
    requires number { (1 ≤ number) × (number ≤ 16) }
    requires capacity { (1 ≤ capacity) × (capacity ≤ 65536) }
    ensures all { IfOk result (λ v. All IsStation v.items) }
    ensures numbers { IfOk result
        (λ v. numbers_of v.items ≡ numbers_of stations.items ++ number ∷ []) }
{
    stations.push(Station {
        number,
        capacity,
        thread,
        device: ActList::new(acts),
    })?;
    Ok(stations)
}

// Returns two devices with this many packets each; `thread` says whether the first one has its own thread.
fn two(alloc: Global, packets: u64, thread: bool) -> Result<Vec<Station<ActList>>, AllocError>
    ensures all { IfOk result (λ v. All IsStation v.items) }
    ensures numbers { IfOk result (λ v. numbers_of v.items ≡ 2 ∷ 1 ∷ []) }
{
    let mut first = vec![in alloc; Act::SetThreaded(thread)]?;
    receive(&mut first, packets)?;
    let mut second = vec![in alloc; Act::Nothing]?;
    receive(&mut second, packets)?;
    let stations = with(Vec::new(alloc), 2, 1000, false, second)?;
    with(stations, 1, 1000, thread, first)
}

// Checks how many devices ended, and the totals of each one's ring: the packets put, those polled plus those left, and the bytes
// of all. Returns how many are left.
fn add_totals(rt: &impl Abort, done: &[Finished<ActList>], devices: usize, packets: u64) -> u64 {
    assert_eq!(rt; done.len(), devices);
    let mut left = 0u64;
    for finished in done {
        let totals = finished.totals;
        let found = [
            totals.put,
            totals.polled.saturating_add(totals.left),
            totals.bytes,
        ];
        assert_eq!(rt; found, [packets, packets, packets.saturating_mul(100)]);
        left = left.saturating_add(totals.left);
    }
    left
}

// the last disable of a worker waits for the polls that its packets requested
#[test]
fn what_was_put_is_polled(rt: HostRuntime) -> Result<(), Fail> {
    for thread in [false, true] {
        let stations = two(rt.alloc(), 63, thread)?;
        let done = run(&rt, rt.alloc(), stations, 1, &OpenGate)?;
        assert_eq!(rt; add_totals(&rt, done.as_slice(), 2, 63), 0);
    }
    Ok(())
}

// two workers at the same act, a worker and its poller, a worker and the instance's own thread: each waits for the other
#[test]
fn threads_run_side_by_side(rt: HostRuntime) -> Result<(), Fail> {
    for (first, second) in [
        ((1, 0), (2, 0)),
        ((1, 49), (2, 49)),
        ((1, 0), (100, 0)),
        ((2, 0), (101, 0)),
        ((1, 0), (201, 0)),
    ] {
        let gate = Together::new(first, second);
        let stations = two(rt.alloc(), 50, true)?;
        let done = run(&rt, rt.alloc(), stations, 2, &gate)?;
        add_totals(&rt, done.as_slice(), 2, 50);
    }
    Ok(())
}

// wherever the gate returns false, the run ends with that error
#[test]
fn a_gate_shuts_the_run(rt: HostRuntime) -> Result<(), Fail> {
    for (worker, act) in [(1, 0), (1, 1), (2, 7), (1, 10), (100, 0), (201, 0)] {
        let stations = two(rt.alloc(), 10, true)?;
        let done = run(&rt, rt.alloc(), stations, 1, &ShutAt { worker, act });
        assert!(rt; matches!(done, Err(WorkFault::GateShut)));
    }
    Ok(())
}

// Returns a device that is disabled after its packet; `thread` says whether it has its own thread.
fn disabling(alloc: Global, thread: bool) -> Result<Vec<Station<ActList>>, AllocError>
    ensures all { IfOk result (λ v. All IsStation v.items) }
    ensures numbers { IfOk result (λ v. numbers_of v.items ≡ 1 ∷ []) }
{
    let mut acts = vec![in alloc; Act::SetThreaded(thread)]?;
    receive(&mut acts, 1)?;
    acts.push(Act::Disable)?;
    acts.push(Act::Nothing)?;
    with(Vec::new(alloc), 1, 4, thread, acts)
}

// a packet arrives and the device is disabled while its poller waits at the gate: the disable waits for the poll
#[test]
fn a_disable_waits_for_a_poller_at_the_gate(rt: HostRuntime) -> Result<(), Fail> {
    for (poller, thread) in [(100, false), (201, true)] {
        let stations = disabling(rt.alloc(), thread)?;
        let done = run(
            &rt,
            rt.alloc(),
            stations,
            1,
            &HoldsPoller::new(poller, 1, 2),
        )?;
        assert_eq!(rt; add_totals(&rt, done.as_slice(), 1, 1), 0);
    }
    Ok(())
}

/// A gate that delays a poller in that way, and then returns false for it.
#[derive(Drop)]
struct ShutsPoller(HoldsPoller);

impl Gate for ShutsPoller {
    fn pass(&self, worker: u32, act: u32) -> bool {
        self.0.pass(worker, act) && worker != self.0.poller
    }
}

// a poller or a thread for which the gate returned false still polls what was put before: a disable waits for that
#[test]
fn a_poller_goes_on_behind_a_shut_gate(rt: HostRuntime) -> Result<(), Fail> {
    for (poller, thread) in [(100, false), (201, true)] {
        let stations = disabling(rt.alloc(), thread)?;
        let gate = ShutsPoller(HoldsPoller::new(poller, 1, 2));
        let done = run(&rt, rt.alloc(), stations, 1, &gate);
        assert!(rt; matches!(done, Err(WorkFault::GateShut)));
    }
    Ok(())
}
