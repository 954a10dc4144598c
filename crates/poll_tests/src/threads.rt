//! Traces and settings of replays with threads, and a replay whose packets are all polled.

use poll_engine::{Gate, OpenGate};
use replay::{Polled, ReplayFault, Settings, replay_threads};
use std::alloc::{AllocError, Global};
use std::sync::Wait;
use std::test::Fail;
use std::thread::Threads;

/// The first record of a trace.
pub(crate) const HEADER: &str = "moment,device,event,value\n";

/// Returns the text of these rows below a header.
pub(crate) fn text_of(alloc: Global, rows: &[(u32, &str)]) -> Result<String, AllocError> {
    let mut text = String::from_str(alloc, HEADER)?;
    for (times, row) in rows {
        for _ in 0..*times {
            text.push_str(row)?;
        }
    }
    Ok(text)
}

/// Returns settings with this many pollers and this budget, weight and window.
pub(crate) fn settings_of(
    pollers: u32,
    budget: u32,
    weight: u32,
    window: u32,
) -> Result<Settings, Fail> {
    Ok(Settings::new(pollers, budget, weight, window).ok_or("in range")?)
}

/// Replays a trace with threads, with the default budget, weight and window. Returns the counts of each device's polls, or the
/// error; and the report.
pub(crate) fn replayed<R: Threads + Wait + Sync, G: Gate + Sync>(
    rt: &R,
    alloc: Global,
    text: &str,
    pollers: u32,
    gate: &G,
) -> Result<(Result<Vec<Polled>, ReplayFault>, Vec<u8>), Fail> {
    let settings = settings_of(pollers, 300, 64, 1024)?;
    let mut report = Vec::new(alloc);
    let polled = replay_threads(rt, alloc, text.as_bytes(), &mut report, &settings, gate);
    Ok((polled, report))
}

// the last disable waits for the polls that the packets requested
#[test]
fn packets_are_polled(rt: HostRuntime) -> Result<(), Fail> {
    let text = text_of(rt.alloc(), &[(1, "0,1,open,63\n"), (63, "1,1,rx,100\n")])?;
    let wanted = Polled {
        device: 1,
        polled: 63,
        left: 0,
    };
    for pollers in [1, 2, 8] {
        let (polled, _report) = replayed(&rt, rt.alloc(), text.as_str(), pollers, &OpenGate)?;
        assert_eq!(rt; polled?.as_slice(), [wanted].as_slice());
    }
    Ok(())
}
