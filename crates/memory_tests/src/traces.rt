//! Traces, scripted devices, arguments and messages. Each function returns whether an allocation failed once.

use anyhow::{Result, ensure};
use device_model::{ScriptDevice, Trace, TraceFault, opening_of, read_trace};
use poll_engine::Device;
use replay::{Mode, ReplayFault, WordFault, fault_line, parse_words};
use std::alloc::{AllocError, Global};

// Rows of two devices.
const TEXT: &[u8] =
    b"moment,device,event,value\n0,2,open,4\n1,2,rx,100\n2,3,open,8\n3,2,tx,60\n4,2,done,1\n";

fn read(alloc: Global) -> Result<Trace, TraceFault> {
    read_trace(alloc, TEXT)
}

pub(crate) fn trace_is_read(alloc: Global) -> Result<bool> {
    let (refused, trace) = made!(read(alloc), TraceFault::OutOfMemory);
    ensure!(trace.rows().len() == 5, "other rows");
    Ok(refused)
}

// Creates the device, and returns whether an allocation failed once.
fn device_is_made(alloc: Global, trace: &Trace) -> Result<bool> {
    let opening = opening_of(trace.rows(), 2);
    ensure!(opening.is_some(), "the device isn't opened");
    let (refused, device) = made!(ScriptDevice::new(alloc, trace, 2), AllocError);
    ensure!(device.acts() == 3, "other acts");
    Ok(refused)
}

pub(crate) fn script_is_made(alloc: Global) -> Result<bool> {
    let (_, trace) = made!(read(alloc), TraceFault::OutOfMemory);
    device_is_made(alloc, &trace)
}

fn some_words(alloc: Global) -> Result<Vec<String>, AllocError> {
    Ok(vec![in alloc; String::from_str(alloc, "--mode=threads")?]?)
}

pub(crate) fn words_are_read(alloc: Global) -> Result<bool> {
    let (_, words) = made!(some_words(alloc), AllocError);
    let (refused, (mode, _settings)) = made!(
        parse_words(alloc, words.as_slice()),
        WordFault::OutOfMemory
    );
    ensure!(mode == Mode::Threads, "another mode");
    Ok(refused)
}

pub(crate) fn line_is_told(alloc: Global) -> Result<bool> {
    let (refused, line) = made!(fault_line(alloc, &ReplayFault::GateShut), AllocError);
    ensure!(
        line.as_str() == "worker fault 14 GateShut\n",
        "another line"
    );
    Ok(refused)
}
