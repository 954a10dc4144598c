//! Benches, and devices on them. Each function returns whether an allocation failed once.

use anyhow::{Result, ensure};
use device_model::{ReceiveSide, ReplayBench, SerialBench, SharedBench};
use poll_engine::Bench;
use std::alloc::{AllocError, Global};
use std::sync::Wait;

// Attaches device 2 after device 1, which has a packet. If an allocation fails, it isn't attached, and device 1 is unchanged.
fn device_is_attached<S: ReceiveSide>(alloc: Global, bench: &mut ReplayBench<S>) -> Result<bool> {
    let first = bench.attach(alloc, 1, 256, 0).is_err();
    if first {
        ensure!(
            bench.attached() == 0,
            "a device that was refused is attached"
        );
        bench.attach(alloc, 1, 256, 0)?;
    }
    bench.arrive(1, 100);
    ensure!(bench.is_attached(1), "a device isn't attached");
    let before = bench.counts(1);
    let second = bench.attach(alloc, 2, 4, 5).is_err();
    if second {
        ensure!(
            !bench.is_attached(2),
            "a device that was refused is attached"
        );
        ensure!(
            bench.is_attached(1) && bench.counts(1) == before,
            "another device changed"
        );
        bench.attach(alloc, 2, 4, 5)?;
    }
    ensure!(bench.is_attached(2), "a device isn't attached");
    ensure!(
        bench.is_attached(1) && bench.counts(1) == before,
        "another device changed"
    );
    let once = bench.poll_once(1, 64);
    ensure!(once.work == 1, "a packet is lost");
    Ok(first || second)
}

pub(crate) fn bench_is_made(alloc: Global) -> Result<bool> {
    let (refused, mut bench) = made!(SerialBench::new(alloc), AllocError);
    Ok(device_is_attached(alloc, &mut bench)? || refused)
}

pub(crate) fn shared_bench_is_made<R: Wait + Copy + Drop>(rt: R, alloc: Global) -> Result<bool> {
    let (refused, mut bench) = made!(SharedBench::new(rt, alloc), AllocError);
    let attached = device_is_attached(alloc, &mut bench);
    bench.end();
    Ok(attached? || refused)
}
