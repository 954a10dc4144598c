//! A bare ring of `rtrb`.

use crate::tally::{PLACES, ReceivedCounts, packet};
use anyhow::Result;
use rtrb::{Consumer, Producer, RingBuffer};
use rx_ring::Packet;
use std::alloc::Global;
use std::sync::Wait;
use std::thread::{Threads, join, yield_now};

// Puts this many packets into the ring, and waits while it is full.
fn put_all(rt: &impl Wait, mut producer: Producer<Packet>, packets: u64) {
    let mut number = 0u64;
    for _ in rt.forever() {
        if number == packets {
            return;
        }
        match producer.push(packet(number)) {
            Ok(()) => number = number.wrapping_add(1),
            Err(_) => yield_now(),
        }
    }
}

// Takes this many packets out.
fn take_all(rt: &impl Wait, mut consumer: Consumer<Packet>, packets: u64) -> ReceivedCounts {
    let mut tally = ReceivedCounts::new();
    let mut count = 0u64;
    for _ in rt.forever() {
        if count == packets {
            break;
        }
        match consumer.pop() {
            Ok(packet) => {
                tally.add(&packet);
                count = count.wrapping_add(1);
            }
            Err(_) => yield_now(),
        }
    }
    tally
}

/// Passes this many packets to a second thread.
pub fn pass_plainly<R: Threads + Wait + Copy + Drop + Send>(
    rt: R,
    alloc: Global,
    packets: u64,
) -> Result<ReceivedCounts> {
    let (producer, consumer) = RingBuffer::new(alloc, PLACES)?;
    // If no thread can be started, `join` calls the second closure before the first, and it waits forever once the ring is
    // full.
    let (tally, ()) = join(
        &rt,
        move || -> ReceivedCounts { take_all(&rt, consumer, packets) },
        move || { put_all(&rt, producer, packets) },
    );
    Ok(tally)
}
