//! The load of a run.

ghost use Rattle.std.specs.Prelude.{◌≡◌, ◌≤◌, ◌<◌, ◌+◌, ◌*◌, IfOk, IsTrue, vec_items};
ghost use Rattle.std.specs.List.{All};
ghost use Rattle.poll_engine.specs.Numbers.{have_distinct_numbers};
ghost use Rattle.poll_engine.specs.Opens.{IsStation};

use anyhow::{Context, Result, ensure};
use poll_engine::{Act, ActList, Station};
use rx_ring::Packet;
use std::alloc::{AllocError, Global};
use std::env::Args;
use std::time::Duration;

// After every so many packets, a device is disabled, switched between its thread and the list, and enabled again.
const PERIOD: u64 = 1000;

// The greatest capacity of a ring.
const MOST_SHARE: u64 = 65_536;

/// The arguments of a run.
#[derive(Drop)]
pub struct Load {
    devices: u32,
    /// Pollers, 1 to 8.
    pub pollers: u32,
    /// Packets of all devices.
    pub packets: u64,
    /// How long the gate delays the first device.
    pub hold: Duration,
    ghost some: { (1 ≤ devices) × (devices ≤ 16) },
    ghost polled: { (1 ≤ pollers) × (pollers ≤ 8) },
    ghost room: { packets ≤ devices * 65536 },
}

/// The packets of one device.
#[derive(Clone, Copy)]
pub struct Share {
    /// The number of packets.
    pub packets: u64,
    /// The bytes of these packets.
    pub bytes: u64,
}

/// Returns the next argument, a number.
pub fn number(words: &mut Args<Global>, name: &'static str) -> Result<u32> {
    let word = words.next().context(name)?;
    word.as_str().parse().context(name)
}

// Returns the acts of a device. After every `PERIOD` packets it is disabled, switched between its thread and the list, and
// enabled again.
fn acts(alloc: Global, packets: u64) -> Result<Vec<Act>, AllocError>
    requires { packets ≤ 65536 }
{
    let mut acts = Vec::new(alloc);
    for number in 0..packets {
        if number % PERIOD == 0 {
            acts.push(Act::Disable)?;
            acts.push(Act::SetThreaded(number / PERIOD % 2 == 0))?;
            acts.push(Act::Enable)?;
        }
        let bytes = number as u32 + 1;
        acts.push(Act::Arrive(Packet { number, bytes }))?;
    }
    Ok(acts)
}

impl Load {
    /// Returns the load that the next four arguments ask for.
    pub fn of_words(words: &mut Args<Global>) -> Result<Load> {
        let devices = number(words, "how many devices")?;
        let pollers = number(words, "how many pollers")?;
        let packets = u64::from(number(words, "how many packets")?);
        let hold = number(words, "for how many milliseconds")?;
        ensure!(1 <= devices && devices <= 16, "1 to 16 devices");
        ensure!(1 <= pollers && pollers <= 8, "1 to 8 pollers");
        ensure!(
            packets <= u64::from(devices) * MOST_SHARE,
            "at most 65536 packets a device"
        );
        Ok(Load {
            devices,
            pollers,
            packets,
            hold: Duration::from_millis(u64::from(hold)),
        })
    }

    /// Returns the packets of the device with this number. They have 1, 2, 3 .. bytes.
    pub fn share(&self, number: u32) -> Share
        ensures { result.packets ≤ 65536 }
    {
        let devices = u64::from(self.devices);
        let more = u64::from(number) <= self.packets % devices;
        let packets = (self.packets / devices + u64::from(more)).min(MOST_SHARE);
        Share {
            packets,
            bytes: packets * (packets + 1) / 2,
        }
    }

    /// Returns the devices, each with a ring that holds all its packets; every second one has its own thread.
    pub fn stations(&self, alloc: Global) -> Result<Vec<Station<ActList>>, AllocError>
        ensures { IfOk result (λ v. All IsStation (vec_items v)) }
    {
        let mut stations = Vec::new(alloc);
        for number in 1..=self.devices {
            let packets = self.share(number).packets;
            stations.push(Station {
                number,
                capacity: packets.max(1) as usize,
                thread: number % 2 == 0,
                device: ActList::new(acts(alloc, packets)?),
            })?;
        }
        Ok(stations)
    }
}
