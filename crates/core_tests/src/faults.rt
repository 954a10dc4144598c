//! The numbers and the texts of errors.

use dql_core::DqlFault;
use napi_calls::{CloseFault, NewFault};
use rx_ring::RingFault;
use std::alloc::Global;
use std::fmt::Display;
use std::process::Abort;
use std::test::Fail;
use tx_ring::TxFault;

const OF_LIMITS: [(DqlFault, &str); 4] = [
    (
        DqlFault::BadBounds,
        "1 the bounds of the limit are out of order or too large",
    ),
    (DqlFault::TooLarge, "2 the object is too large"),
    (
        DqlFault::TooMuchInFlight,
        "3 too many bytes would be in flight",
    ),
    (
        DqlFault::MoreThanQueued,
        "4 more bytes are completed than were queued",
    ),
];

const OF_RINGS: [(RingFault, &str); 2] = [
    (RingFault::OutOfMemory, "1 out of memory"),
    (RingFault::BadCapacity, "2 the capacity is out of range"),
];

const OF_TRANSMIT_RINGS: [(TxFault, &str); 7] = [
    (TxFault::Stopped, "1 the queue is stopped"),
    (TxFault::Full, "2 the ring is full"),
    (TxFault::TooLarge, "3 the packet is too large"),
    (
        TxFault::TooMuchInFlight,
        "4 too many bytes would be in flight",
    ),
    (
        TxFault::MoreThanSent,
        "5 more packets are complete than were sent",
    ),
    (TxFault::BadCapacity, "6 the capacity is out of range"),
    (TxFault::OutOfMemory, "7 out of memory"),
];

const OF_INSTANCES: [(NewFault, &str); 2] = [
    (NewFault::OutOfMemory, "1 out of memory"),
    (NewFault::BadCount, "2 the count of callers is out of range"),
];

// Checks the number and the text of an error, with a space between them.
fn told<F: Display>(
    rt: &impl Abort,
    alloc: Global,
    fault: &F,
    number: u8,
    wanted: &str,
) -> Result<(), Fail> {
    let found = format!(in alloc; "{number} {fault}")?;
    assert_eq!(rt; found.as_str(), wanted);
    Ok(())
}

#[test]
fn faults_of_limits(rt: HostRuntime) -> Result<(), Fail> {
    for (fault, text) in OF_LIMITS {
        told(&rt, rt.alloc(), &fault, fault.number(), text)?;
    }
    Ok(())
}

#[test]
fn faults_of_rings(rt: HostRuntime) -> Result<(), Fail> {
    for (fault, text) in OF_RINGS {
        told(&rt, rt.alloc(), &fault, fault.number(), text)?;
    }
    Ok(())
}

#[test]
fn faults_of_transmit_rings(rt: HostRuntime) -> Result<(), Fail> {
    for (fault, text) in OF_TRANSMIT_RINGS {
        told(&rt, rt.alloc(), &fault, fault.number(), text)?;
    }
    Ok(())
}

#[test]
fn faults_of_instances(rt: HostRuntime) -> Result<(), Fail> {
    for (fault, text) in OF_INSTANCES {
        told(&rt, rt.alloc(), &fault, fault.number(), text)?;
    }
    let fault = CloseFault::NotAll;
    told(
        &rt,
        rt.alloc(),
        &fault,
        fault.number(),
        "1 callers are missing",
    )
}
