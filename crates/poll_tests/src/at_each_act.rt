//! A test with a gate at which two devices meet at each of their acts.

use crate::threads::{replayed, text_of};
use poll_engine::Gate;
use std::sync::atomic::{AtomicU64, Ordering};
use std::test::Fail;
use std::thread;

const ACTS: u32 = 50;

const REPORT: &str =
    "device 1 arrived 50 bytes 5000\ndevice 2 arrived 50 bytes 5000\ntotal devices 2\n";

/// A gate that lets devices 1 and 2 continue at an act only after the other one has reached its own act with that number.
#[derive(Drop)]
struct MeetsAtEachAct {
    // A bit for each act that a device has reached.
    came: [AtomicU64; 2],
}

impl MeetsAtEachAct {
    fn meet(&self, mine: usize, other: usize, act: u32) -> bool {
        let flag = 1u64.checked_shl(act).unwrap_or(0);
        if let Some(came) = self.came.get(mine) {
            came.fetch_or(flag, Ordering::SeqCst);
        }
        for _ in 0..1_000_000u32 {
            if let Some(came) = self.came.get(other)
                && came.load(Ordering::SeqCst) & flag != 0
            {
                return true;
            }
            thread::yield_now();
        }
        false
    }
}

impl Gate for MeetsAtEachAct {
    fn pass(&self, worker: u32, act: u32) -> bool {
        match worker {
            1 => self.meet(0, 1, act),
            2 => self.meet(1, 0, act),
            _ => true,
        }
    }
}

// a run that made all acts on one thread, or ran one device after the other, would find the gate closed
#[test]
fn devices_meet_at_each_of_50_acts(rt: HostRuntime) -> Result<(), Fail> {
    let rows = [
        (1, "0,1,open,50\n0,2,open,50\n"),
        (ACTS, "1,1,rx,100\n1,2,rx,100\n"),
    ];
    let text = text_of(rt.alloc(), &rows)?;
    for pollers in [1, 2, 8] {
        let gate = MeetsAtEachAct {
            came: [AtomicU64::new(0), AtomicU64::new(0)],
        };
        let (polled, report) = replayed(&rt, rt.alloc(), text.as_str(), pollers, &gate)?;
        assert_eq!(rt; polled?.len(), 2);
        assert_eq!(rt; report.as_slice(), REPORT.as_bytes());
        let came = [
            gate.came[0].load(Ordering::SeqCst),
            gate.came[1].load(Ordering::SeqCst),
        ];
        assert_eq!(rt; came, [(1u64 << ACTS) - 1; 2]);
    }
    Ok(())
}
