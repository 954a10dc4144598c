//! Tests of runs that fail. `tests/machine.sh` compares reports, those of the built program.

use crate::calls::machine_of;
use crate::ends::{FailingReader, FailingWriter, begins};
use machine::{MachineFault, MachineSettings, fault_line, run_machine, status};
use std::alloc::{AllocError, Global};
use std::process::Abort;
use std::test::Fail;

// Arrivals whose report is worked by hand, by the rules of docs/FORMATS.md.
const ARRIVALS: &str = "moment,device,bytes\n0,1,100\n0,1,100\n500,2,60\n9000,1,60\n";

const APART: &str = "--apart=1 --app-wake=3000";

// More than the report's length.
const REPORT_END: usize = 700;

// The report of a machine whose application is apart, worked by hand.
const REPORT: &str =
    "device 1 arrived 3 dropped 0 polled 3 interrupts 1 polls 1 mean 8000 wait50 10000 wait90 10992 wait99 10992 wait999 10992 most 11000
device 2 arrived 1 dropped 0 polled 1 interrupts 1 polls 1 mean 13500 wait50 13488 wait90 13488 wait99 13488 wait999 13488 most 13500
processor 0 interrupts 2 timers 0 runs 1 polls 2 work 4 squeezed 0 late 0 refused 0 used 4 mean 15625 wait50 14992 wait90 20480 wait99 20480 wait999 20480 most 20500
time 0 end 14000 interrupt 8000 poll 6000 use 0 idle 0
application 0 end 21000 wakes 1 use 8000 idle 10000
total devices 2 arrived 4 dropped 0 polled 4 refused 0 used 4
";

// Arguments, arrivals, and the message of their error.
const FAULTS: [(&str, &str, &str); 15] = [
    ("", "", "arrivals fault 1 BadHeader row 0\n"),
    ("", "moment,device\n", "arrivals fault 1 BadHeader row 0\n"),
    (
        "",
        "moment,device,bytes,flow\n",
        "arrivals fault 1 BadHeader row 0\n",
    ),
    (
        "",
        "moment,device,bytes\n0,1\n",
        "arrivals fault 2 BadFields row 1\n",
    ),
    (
        "",
        "moment,device,bytes\n0,1,60\n0,1,+60\n",
        "arrivals fault 3 BadNumber row 2\n",
    ),
    (
        "",
        "moment,device,bytes\n0,65,60\n",
        "arrivals fault 5 OutOfRange row 1\n",
    ),
    (
        "",
        "moment,device,bytes\n4611686018427387904,1,60\n",
        "arrivals fault 5 OutOfRange row 1\n",
    ),
    (
        "",
        "moment,device,bytes\n0,1,0\n",
        "arrivals fault 5 OutOfRange row 1\n",
    ),
    (
        "",
        "moment,device,bytes\n7,1,60\n6,1,60\n",
        "arrivals fault 8 Falls row 2\n",
    ),
    (
        "--queues=2",
        "moment,device,bytes\n",
        "arrivals fault 1 BadHeader row 0\n",
    ),
    (
        "--queues=2",
        "moment,device,bytes,flow\n0,1,60\n",
        "arrivals fault 2 BadFields row 1\n",
    ),
    (
        "--queues=2",
        "moment,device,bytes,flow\n0,1,60,\n",
        "arrivals fault 3 BadNumber row 1\n",
    ),
    (
        "--queues=2",
        "moment,device,bytes,flow\n0,1,60,100000000000000000000\n",
        "arrivals fault 3 BadNumber row 1\n",
    ),
    (
        "--queues=2",
        "moment,device,bytes,flow\n0,32,60,1\n0,33,60,0\n",
        "arrivals fault 5 OutOfRange row 2\n",
    ),
    (
        "--queues=2",
        "moment,device,bytes,flow\n0,0,60,0\n",
        "arrivals fault 5 OutOfRange row 1\n",
    ),
];

// Returns the message and the exit status of an error.
fn told(alloc: Global, fault: &MachineFault) -> Result<(String, u8), AllocError> {
    Ok((fault_line(alloc, fault)?, status(fault)))
}

// Checks that a run fails with this message and exit status 2, and writes nothing.
fn fails(
    rt: &impl Abort,
    alloc: Global,
    words: &str,
    arrivals: &str,
    wanted: &str,
) -> Result<(), Fail> {
    let settings = machine_of(alloc, words)?;
    let mut report = Vec::new(alloc);
    let answer = run_machine(alloc, arrivals.as_bytes(), &mut report, &settings);
    let (found, ends) = told(alloc, &answer.err().ok_or("taken")?)?;
    assert_eq!(rt; found.as_str(), wanted, "{words} {arrivals}");
    assert_eq!(rt; (ends, report.len()), (2, 0), "{words} {arrivals}");
    Ok(())
}

#[test]
fn faults_are_told(rt: HostRuntime) -> Result<(), Fail> {
    for (words, arrivals, wanted) in FAULTS {
        fails(&rt, rt.alloc(), words, arrivals, wanted)?;
    }
    Ok(())
}

// Runs the machine with a reader that fails after this many reads, and a writer that fails after this many writes. Returns
// the answer, and what was written.
fn run_failing(
    alloc: Global,
    settings: &MachineSettings,
    reads: usize,
    writes: usize,
) -> (Result<(), MachineFault>, Vec<u8>) {
    let reader = FailingReader::new(ARRIVALS, reads);
    let mut writer = FailingWriter::new(alloc, writes);
    let answer = run_machine(alloc, reader, &mut writer, settings);
    (answer, writer.taken)
}

#[test]
fn reads_fail_in_turn(rt: HostRuntime) -> Result<(), Fail> {
    let settings = machine_of(rt.alloc(), APART)?;
    let reads = ARRIVALS.len() + 1;
    for before in 0..reads + 2 {
        let (answer, written) = run_failing(rt.alloc(), &settings, before, usize::MAX);
        let (wanted, text) = if before < reads {
            (Err(MachineFault::ReadFailed), "")
        } else {
            (Ok(()), REPORT)
        };
        assert_eq!(rt; answer, wanted, "after {before} reads");
        assert!(rt;
            written.as_slice() == text.as_bytes(),
            "after {before} reads"
        );
    }
    Ok(())
}

#[test]
fn writes_fail_in_turn(rt: HostRuntime) -> Result<(), Fail> {
    let settings = machine_of(rt.alloc(), APART)?;
    for before in 0..REPORT_END {
        let (answer, written) = run_failing(rt.alloc(), &settings, usize::MAX, before);
        let (wanted, count) = if before < REPORT.len() {
            (Err(MachineFault::OutputFailed), before)
        } else {
            (Ok(()), REPORT.len())
        };
        assert_eq!(rt; answer, wanted, "after {before} writes");
        assert!(rt;
            begins(REPORT, written.as_slice(), count),
            "after {before} writes"
        );
    }
    Ok(())
}

// Errors that no text of arrivals has.
const OUTSIDE: [(MachineFault, &str, u8); 3] = [
    (
        MachineFault::ReadFailed,
        "arrivals fault 10 ReadFailed\n",
        2,
    ),
    (
        MachineFault::OutOfMemory,
        "memory fault 11 OutOfMemory\n",
        4,
    ),
    (
        MachineFault::OutputFailed,
        "output fault 15 OutputFailed\n",
        4,
    ),
];

#[test]
fn other_faults_are_told(rt: HostRuntime) -> Result<(), Fail> {
    for (fault, line, ends) in OUTSIDE {
        let (found, found_end) = told(rt.alloc(), &fault)?;
        assert_eq!(rt; found.as_str(), line);
        assert_eq!(rt; found_end, ends, "of {line:?}");
    }
    Ok(())
}
