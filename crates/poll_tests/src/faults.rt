//! The numbers and the texts of errors.

use poll_engine::{ListFault, WorkFault};
use std::alloc::Global;
use std::fmt::Display;
use std::process::Abort;
use std::test::Fail;

const OF_LISTS: [(ListFault, &str); 3] = [
    (ListFault::BadSize, "1 the count of pushers is out of range"),
    (ListFault::OutOfMemory, "2 out of memory"),
    (ListFault::NotAll, "3 ends of the list are missing"),
];

const OF_RUNS: [(WorkFault, &str); 3] = [
    (WorkFault::OutOfMemory, "1 work fault 1 OutOfMemory"),
    (WorkFault::GateShut, "2 work fault 2 GateShut"),
    (WorkFault::SpawnFailed, "3 work fault 3 SpawnFailed"),
];

// Checks the number and the text of an error, with a space between them.
fn told<F: Display>(
    rt: &impl Abort,
    alloc: Global,
    fault: &F,
    number: u32,
    wanted: &str,
) -> Result<(), Fail> {
    let found = format!(in alloc; "{number} {fault}")?;
    assert_eq!(rt; found.as_str(), wanted);
    Ok(())
}

#[test]
fn faults_of_lists(rt: HostRuntime) -> Result<(), Fail> {
    for (fault, text) in OF_LISTS {
        told(&rt, rt.alloc(), &fault, u32::from(fault.number()), text)?;
    }
    Ok(())
}

#[test]
fn faults_of_runs(rt: HostRuntime) -> Result<(), Fail> {
    for (fault, text) in OF_RUNS {
        told(&rt, rt.alloc(), &fault, fault.number(), text)?;
    }
    Ok(())
}
