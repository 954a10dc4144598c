//! One instance on one thread: two requests for a poll, of which the second one is missed, and two polls.
#![tactic(auto)]

use anyhow::Result;
use napi_model::{Done, Kind, Prep, SerialNapi};

// Each caller of an instance has a number. The controller's number is an argument when the instance is made.
const INTERRUPT: u32 = 0;

const POLLER: u32 = 1;

const CONTROLLER: u32 = 2;

// The card's interrupt. Returns whether the instance was queued on the poll list now.
fn interrupt(napi: &mut SerialNapi) -> bool {
    if napi.schedule(INTERRUPT) != Prep::Granted {
        return false;
    }
    napi.hand(INTERRUPT, Kind::List);
    true
}

// The poller takes the instance from the list, polls the device, and completes. If a request was missed meanwhile, it still
// owns the instance and queues it on the list again.
fn poll(napi: &mut SerialNapi) -> Option<Done> {
    if !napi.take(POLLER, Kind::List) {
        return None;
    }
    let done = napi.complete(POLLER);
    if done == Done::Again {
        napi.hand(POLLER, Kind::List);
    }
    Some(done)
}

fn main(rt: HostRuntime) -> Result<()> {
    let mut napi = SerialNapi::new(CONTROLLER);
    napi.enable(CONTROLLER, false);
    let first = interrupt(&mut napi);
    let second = interrupt(&mut napi);
    println!(rt; "handed over: {first}, {second}")?;
    for _ in 0..2 {
        let done = poll(&mut napi);
        println!(rt; "polled: {done:?}")?;
    }
    Ok(())
}
