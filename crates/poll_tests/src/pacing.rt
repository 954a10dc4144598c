//! A poller goes on while its list isn't empty, also if its polls return nothing.

use crate::gates::LOOKS;
use crate::threads::{HEADER, settings_of};
use poll_engine::Gate;
use replay::replay_threads;
use std::alloc::{AllocError, Global};
use std::sync::atomic::{AtomicBool, AtomicU32, Ordering};
use std::test::Fail;
use std::thread;

/// How often a gate looks while it waits for some time until others have done something.
pub(crate) const LONG: u32 = 100_000;

/// Waits until all these bits are set, and this many looks more, but not forever. Returns whether they were set.
pub(crate) fn comes(flags: &AtomicU32, bits: u32, more: u32) -> bool {
    let mut more = more;
    for _ in 0..LOOKS {
        if flags.load(Ordering::SeqCst) & bits == bits {
            if more == 0 {
                return true;
            }
            more -= 1;
        }
        thread::yield_now();
    }
    false
}

// Returns the bit of a device.
fn bit(device: u32) -> u32 {
    if device < 32 { 1 << device } else { 0 }
}

// Fifteen devices, each with two packets, a disable and an enable.
fn fifteen(alloc: Global) -> Result<String, AllocError> {
    let mut text = String::from_str(alloc, HEADER)?;
    for device in 1..16u32 {
        text.push_str(&format!(in alloc; "0,{device},open,4\n")?)?;
        text.push_str(&format!(in alloc; "1,{device},rx,100\n1,{device},rx,100\n")?)?;
        text.push_str(&format!(in alloc; "2,{device},disable,0\n3,{device},enable,0\n")?)?;
    }
    Ok(text)
}

/// Lets the poller start when devices 1 to 15 have put their packets, and these be disabled some time later. The packet of
/// device 16, which wakes the poller, comes after that, or if that takes too long.
#[derive(Drop)]
struct Sleepless {
    put: AtomicU32,
    begun: AtomicU32,
    disabled: AtomicU32,
    came: AtomicBool,
}

const FIFTEEN: u32 = 65534;

impl Gate for Sleepless {
    fn pass(&self, worker: u32, act: u32) -> bool {
        match (worker, act) {
            (100, _) => {
                let open = comes(&self.put, FIFTEEN, 0);
                self.begun.store(1, Ordering::SeqCst);
                open
            }
            (16, 0) => {
                let came = comes(&self.disabled, FIFTEEN, 0);
                self.came.store(came, Ordering::SeqCst);
                true
            }
            (_, 2) => {
                self.put.fetch_or(bit(worker), Ordering::SeqCst);
                comes(&self.begun, 1, LONG / 5)
            }
            (_, 3) => {
                self.disabled.fetch_or(bit(worker), Ordering::SeqCst);
                true
            }
            _ => true,
        }
    }
}

// A run of one poll each: for each device two polls return a packet, and the two after them return nothing. A poller that took
// that for the end would sleep after many of them in a row, with devices on its list.
#[test]
fn a_poller_goes_on_behind_polls_of_nothing(rt: HostRuntime) -> Result<(), Fail> {
    let mut text = fifteen(rt.alloc())?;
    text.push_str("0,16,open,4\n1,16,rx,100\n")?;
    let settings = settings_of(1, 300, 1, 1)?;
    let gate = Sleepless {
        put: AtomicU32::new(0),
        begun: AtomicU32::new(0),
        disabled: AtomicU32::new(0),
        came: AtomicBool::new(false),
    };
    let mut report = Vec::new(rt.alloc());
    let text = text.as_bytes();
    let polled = replay_threads(&rt, rt.alloc(), text, &mut report, &settings, &gate)?;
    assert!(rt; polled.iter().all(|one| one.left == 0));
    assert!(rt; gate.came.load(Ordering::SeqCst));
    Ok(())
}
