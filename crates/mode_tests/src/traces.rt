//! Small traces, and random ones.

ghost use Rattle.std.specs.Prelude.{◌<◌};

use std::alloc::{AllocError, Global};

const HEADER: &str = "moment,device,event,value,2\n";

// The first rows of small traces: a ring for two packets, and one for a single packet.
const OPENED: &str = "0,1,open,2\n0,2,open,1\n";

// The other rows of small traces.
const ROWS: [&str; 10] = [
    "1,1,rx,60\n",
    "1,2,rx,1500\n",
    "1,0,softirq,0\n",
    "1,1,kthread,0\n",
    "1,1,busy,1\n",
    "1,2,busy,3\n",
    "1,1,disable,0\n",
    "1,1,enable,0\n",
    "1,1,threaded,1\n",
    "1,1,threaded,0\n",
];

/// Returns the small trace of this number with so many rows after the first ones.
pub(crate) fn small_trace(alloc: Global, number: u32, rows: u32) -> Result<String, AllocError> {
    let mut text = String::new(alloc);
    text.push_str(HEADER)?;
    text.push_str(OPENED)?;
    let mut rest = number;
    for _ in 0..rows {
        text.push_str(ROWS[(rest % 10) as usize])?;
        rest /= 10;
    }
    Ok(text)
}

// A linear congruential generator.
#[derive(Drop)]
struct Random {
    state: u64,
}

impl Random {
    // Returns a number below this bound.
    fn below(&mut self, bound: u32) -> u32
        requires { 0 < bound }
        ensures { result < bound }
    {
        self.state = self
            .state
            .wrapping_mul(6364136223846793005)
            .wrapping_add(1442695040888963407);
        ((self.state >> 33) % u64::from(bound)) as u32
    }
}

/// Returns the random trace of this number: up to 60 rows after the first ones. Each device is disabled and enabled in turn.
pub(crate) fn random_trace(alloc: Global, number: u32) -> Result<String, AllocError> {
    let mut random = Random {
        state: u64::from(number),
    };
    let mut text = String::new(alloc);
    text.push_str(HEADER)?;
    text.push_str("0,1,open,3\n0,2,open,80\n0,3,open,1\n")?;
    let mut off = [false; 3];
    for _ in 0..random.below(61) {
        let at = random.below(3);
        let size = 1 + random.below(1500);
        let rounds = 1 + random.below(4);
        let (device, event, value) = match random.below(16) {
            0..=6 => (at + 1, "rx", size),
            7..=9 => (0, "softirq", 0),
            10 => (at + 1, "kthread", 0),
            11 => (at + 1, "busy", rounds),
            12 => (at + 1, "threaded", size % 2),
            13 => (at + 1, "tx", size),
            14 => (at + 1, "done", size % 3),
            _ => {
                let was = off[at as usize];
                off[at as usize] = !was;
                (at + 1, if was { "enable" } else { "disable" }, 0)
            }
        };
        let row = format!(in alloc; "1,{device},{event},{value}\n")?;
        text.push_str(row.as_str())?;
    }
    Ok(text)
}
