//! Polls of a receive ring: it is filled, and then emptied while the clock runs, for the weights 1, 16 and 64 and by a plain
//! loop over the `pop` of `rtrb`.

ghost use Rattle.std.specs.Prelude.{◌≤◌};

use anyhow::Result;
use rtrb::RingBuffer;
use rx_ring::{Batch, Packet, ring};
use std::alloc::Global;
use std::io::Eprint;
use std::time::{Clock, Instant};

// The number of packets in a round, which is the capacity of its ring.
const PACKETS: u32 = 4096;

// The time and the counts of the rounds. The sums wrap.
#[derive(Clone, Copy)]
struct ReceiveTimes {
    // The time in nanoseconds.
    nanos: u128,
    // How many packets came out.
    packets: u64,
    // The bytes of these packets.
    bytes: u64,
    // The sum of their numbers.
    sum: u64,
}

impl ReceiveTimes {
    fn new() -> ReceiveTimes {
        ReceiveTimes {
            nanos: 0,
            packets: 0,
            bytes: 0,
            sum: 0,
        }
    }

    fn add(&mut self, packet: &Packet) {
        self.packets = self.packets.wrapping_add(1);
        self.bytes = self.bytes.wrapping_add(u64::from(packet.bytes));
        self.sum = self.sum.wrapping_add(packet.number);
    }
}

fn packet(round: u32, k: u32) -> Packet {
    Packet {
        number: u64::from(round ^ k),
        bytes: 60 + k % 1440,
    }
}

// Empties a receive ring by polls with one weight, this many times.
fn time_polls(rt: &impl Clock, alloc: Global, rounds: u32, weight: u32) -> Result<ReceiveTimes>
    requires { (1 ≤ weight) × (weight ≤ 64) }
{
    let (mut input, mut ctx) = ring(alloc, PACKETS as usize)?;
    let mut batch = Batch::new();
    let mut spent = ReceiveTimes::new();
    for round in 0..rounds {
        for k in 0..PACKETS {
            let _ = input.put(packet(round, k));
        }
        let start = Instant::now(rt)?;
        for _ in 0..PACKETS / weight {
            ctx.poll(weight as usize, &mut batch);
            for packet in batch.as_slice() {
                spent.add(packet);
            }
        }
        spent.nanos = spent.nanos.wrapping_add(start.elapsed(rt)?.as_nanos());
    }
    Ok(spent)
}

// Empties a ring of `rtrb` by its own `pop`, this many times.
fn time_pops(rt: &impl Clock, alloc: Global, rounds: u32) -> Result<ReceiveTimes> {
    let (mut producer, mut consumer) = RingBuffer::new(alloc, PACKETS as usize)?;
    let mut spent = ReceiveTimes::new();
    for round in 0..rounds {
        for k in 0..PACKETS {
            let _ = producer.push(packet(round, k));
        }
        let start = Instant::now(rt)?;
        for _ in 0..PACKETS {
            if let Ok(packet) = consumer.pop() {
                spent.add(&packet);
            }
        }
        spent.nanos = spent.nanos.wrapping_add(start.elapsed(rt)?.as_nanos());
    }
    Ok(spent)
}

/// Times so many rounds of each kind.
pub fn time_rounds(rt: &(impl Clock + Print + Eprint + AllocGlobal), rounds: u32) -> Result<()> {
    for (name, spent) in [
        ("pop", time_pops(rt, rt.alloc(), rounds)?),
        ("weight-1", time_polls(rt, rt.alloc(), rounds, 1)?),
        ("weight-16", time_polls(rt, rt.alloc(), rounds, 16)?),
        ("weight-64", time_polls(rt, rt.alloc(), rounds, 64)?),
    ] {
        let ReceiveTimes {
            nanos,
            packets,
            bytes,
            sum,
        } = spent;
        println!(rt; "{name} packets {packets} bytes {bytes} sum {sum}")?;
        eprintln!(rt; "{name} {nanos} ns")?;
    }
    Ok(())
}
