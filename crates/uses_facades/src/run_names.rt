//! The public types and calls of `poll_engine`, `device_model` and `replay`, each used as a user writes it.

ghost use Rattle.std.specs.Prelude.{◌≡◌, [], IsSome, IsTrue, vec_items};
ghost use Rattle.std.specs.List.{All};
ghost use Rattle.napi_calls.specs.Instance.{IsSeatOf};
ghost use Rattle.poll_engine.specs.Numbers.{have_distinct_numbers};
ghost use Rattle.poll_engine.specs.SharedLists.{AreFew, IsInOf};
ghost use Rattle.poll_engine.specs.Opens.{IsStation};
ghost use Rattle.device_model.specs.Script.{opening_of};

use device_model::{
    DeviceCounts, DeviceState, Event, ReceiveSide, ReplayBench, Row, ScriptDevice, SerialBench,
    SharedBench, Trace, TraceFault, TxCounts, read_trace,
};
use napi_calls::{Caller, Napi};
use napi_model::Kind;
use poll_engine::{
    Act, Bench, BusyReport, Device, Finished, Gate, ListBack, ListFault, ListIn, Next, Once,
    OpenGate, PlainList, PollList, RunReport, SharedList, SoftList, Station, ThreadReport,
    WorkFault, busy_instance, end_list, poll_instance, run_softirq, run_workers, shared_list,
};
use replay::{
    Mode, Polled, ReplayFault, Settings, WordFault, fault_line, parse_words, replay_serial,
    replay_shared, replay_threads, status, word_line, word_status,
};
use rx_ring::Batch;
use std::alloc::{AllocError, Global};
use std::io::{Read, Write};
use std::sync::Wait;
use std::thread::Threads;

// ---- poll_engine

/// The calls of a list of instances.
pub fn soft_list() -> (Result<(), u32>, Option<u32>, usize) {
    let mut list = SoftList::new();
    let pushed = list.push(3);
    let first = list.pop_front();
    (pushed, first, list.ids().len())
}

/// The calls of a poll list.
pub fn poll_list(own: &mut SoftList) -> usize
    requires { own.old ≡ [] }
{
    let mut list = PlainList::new();
    list.push(3);
    let count = list.splice(own);
    list.put_back(own, &SoftList::new());
    count
}

/// A list for threads.
pub fn shared<R: Wait + Copy>(
    rt: R,
    alloc: Global,
) -> Result<(SharedList<R>, Vec<ListIn<R>>), ListFault> {
    shared_list(rt, alloc, 2)
}

/// A push to a list for threads.
pub fn push<R: Wait>(input: &mut ListIn<R>) {
    input.push(3);
}

/// A list for threads is closed with all its ends.
pub fn read_off<R: Wait + Drop>(
    list: SharedList<R>,
    ins: Vec<ListIn<R>>,
) -> Result<SoftList, ListBack<R>>
    requires ins { All (λ i. IsInOf list i) ins.items }
    requires few { AreFew list ins.items }
{
    end_list(list, ins)
}

/// The polls of a shared instance: from the list, and busy.
pub fn instance_polls<R: Wait>(
    rt: &R,
    napi: &Napi,
    caller: Caller,
    batch: &mut Batch,
) -> (Caller, Once, BusyReport)
    requires { IsSeatOf napi.now caller.pass }
{
    let (caller, once) = poll_instance(rt, napi, caller, 64, true, batch);
    let (caller, busy) = busy_instance(rt, napi, caller, 2, 64, batch);
    (caller, once, busy)
}

/// The polls of a bench.
pub fn polls<B: Bench>(bench: &mut B) -> (u32, Next, u32) {
    let Once { work, next } = bench.poll_once(1, 64);
    let ThreadReport { polls, .. } = bench.poll_thread(1, 64, 1024);
    (work, next, polls)
}

/// A run over a list.
pub fn run<L: PollList, B: Bench>(list: &mut L, bench: &mut B) -> (u32, u32, bool) {
    let RunReport {
        polls,
        work,
        squeezed,
    } = run_softirq(list, bench, 300, 64, 1024);
    (polls, work, squeezed)
}

/// A gate.
pub fn passes<G: Gate>(gate: &G) -> bool {
    gate.pass(1, 0) && OpenGate.pass(100, 0)
}

/// A device's first act.
pub fn first_act<D: Device>(device: &mut D) -> Act {
    if device.acts() == 0 {
        return Act::Nothing;
    }
    device.act(0)
}

/// A run by threads.
pub fn workers<R, D>(
    rt: &R,
    alloc: Global,
    stations: Vec<Station<D>>,
) -> Result<Vec<Finished<D>>, WorkFault>
where
    R: Threads + Wait + Sync,
    D: Device + Drop + Send,
    requires stations { All IsStation (vec_items stations) }
    requires numbers { IsTrue (have_distinct_numbers (vec_items stations)) }
{
    run_workers(rt, alloc, stations, 2, 300, 64, 1024, &OpenGate)
}

// ---- device_model

/// The rows of a trace.
pub fn rows<R: Read + Drop>(alloc: Global, reader: R) -> Result<usize, TraceFault> {
    let trace: Trace = read_trace(alloc, reader)?;
    Ok(trace.rows().len())
}

/// A row with each event.
pub fn row(event: Event) -> Row {
    let value = match event {
        Event::Opened | Event::Rx | Event::Tx | Event::Finish => 1,
        Event::Softirq | Event::Kthread | Event::Disable | Event::Enable => 0,
        Event::Threaded | Event::Busy => 1,
    };
    Row {
        moment: 0,
        device: 1,
        event,
        value,
    }
}

/// The calls of a bench for one thread.
pub fn bench(alloc: Global) -> Result<(Option<Kind>, bool), AllocError> {
    let mut bench = SerialBench::new(alloc)?;
    bench.attach(alloc, 1, 4, 0)?;
    let kind = bench.arrive(1, 100);
    bench.send(1, 1000);
    bench.done(1, 1, 6);
    bench.disable(1);
    bench.settle();
    let enabled = bench.enable(1);
    bench.set_threaded(1, true);
    Ok((kind, enabled))
}

/// The arrival of a packet at a bench of either kind.
pub fn arrives<S: ReceiveSide>(bench: &mut ReplayBench<S>) -> Option<Kind> {
    bench.arrive(1, 100)
}

/// A bench over instances that threads could share: it has to be ended.
pub fn shared_bench<R: Wait + Copy + Drop>(rt: R, alloc: Global) -> Result<(), AllocError> {
    let bench = SharedBench::new(rt, alloc)?;
    bench.end();
    Ok(())
}

/// What a bench counts of a device.
pub fn counts(bench: &SerialBench) -> Option<(DeviceState, u64, TxCounts)> {
    if !bench.is_attached(1) {
        return None;
    }
    let DeviceCounts {
        state,
        arrived,
        tx,
        ..
    } = bench.counts(1);
    Some((state, arrived, tx))
}

/// A device of a trace.
pub fn script(alloc: Global, trace: &Trace) -> Result<TxCounts, AllocError>
    requires { IsSome (opening_of 1 trace.now.rows) }
{
    let device = ScriptDevice::new(alloc, trace, 1)?;
    Ok(device.tx_counts())
}

// ---- replay

/// The settings of a replay.
pub fn settings() -> Option<Settings> {
    Settings::new(1, 300, 64, 1024)
}

/// A program's arguments.
pub fn words(alloc: Global, words: &[String]) -> Result<(Mode, Settings), (&'static str, u8)> {
    let parsed: Result<(Mode, Settings), WordFault> = parse_words(alloc, words);
    parsed.map_err(|fault| (word_line(&fault), word_status(&fault)))
}

/// The line and the status of an error.
pub fn line(alloc: Global, fault: &ReplayFault) -> Result<(String, u8), AllocError> {
    Ok((fault_line(alloc, fault)?, status(fault)))
}

/// A replay on one thread, or by one thread on instances that threads could share. Both have the same result.
pub fn replays<H: Wait + Copy + Drop, R: Read + Drop, W: Write>(
    rt: H,
    alloc: Global,
    mode: Mode,
    reader: R,
    writer: &mut W,
    settings: &Settings,
) -> Result<(), ReplayFault> {
    if matches!(mode, Mode::Shared) {
        replay_shared(rt, alloc, reader, writer, settings)
    } else {
        replay_serial(alloc, reader, writer, settings)
    }
}

/// A replay with threads: what was polled of the first device, and what was left.
pub fn threads<P: Threads + Wait + Sync, R: Read + Drop, W: Write>(
    rt: &P,
    alloc: Global,
    reader: R,
    writer: &mut W,
    settings: &Settings,
) -> Result<Option<(u32, u64, u64)>, ReplayFault> {
    let all: Vec<Polled> = replay_threads(rt, alloc, reader, writer, settings, &OpenGate)?;
    Ok(all.first().map(|one| (one.device, one.polled, one.left)))
}
