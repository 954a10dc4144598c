//! The result of each mode if its reader or its writer fails, and the messages of errors that no run of the program shows.

use crate::ends::{
    FailingReader, FailingWriter, ONE_PACKET, ONE_PACKET_REPORT, ONE_PACKET_THREADS, begins,
};
use device_model::TraceFault;
use poll_engine::OpenGate;
use replay::{
    Mode, ReplayFault, Settings, fault_line, replay_serial, replay_shared, replay_threads, status,
};
use std::alloc::{AllocError, Global};
use std::process::ExitCode;
use std::sync::Wait;
use std::test::Fail;
use std::thread::Threads;
use text_io::{ProgramFault, end_by};

const MODES: [(Mode, &str); 3] = [
    (Mode::Serial, ONE_PACKET_REPORT),
    (Mode::Shared, ONE_PACKET_REPORT),
    (Mode::Threads, ONE_PACKET_THREADS),
];

// More than the reports' lengths.
const REPORT_END: usize = 300;

// Opens devices with all numbers.
const SIXTEEN: &str = "moment,device,event,value
0,1,open,333
0,2,open,666
0,3,open,999
0,4,open,1332
0,5,open,1665
0,6,open,1998
0,7,open,2331
0,8,open,2664
0,9,open,2997
0,10,open,3330
0,11,open,3663
0,12,open,3996
0,13,open,4329
0,14,open,4662
0,15,open,4995
0,16,open,5328
";

// The ends of its reports.
const SIXTEEN_TOTALS: [(Mode, &str); 3] = [
    (
        Mode::Serial,
        "total devices 16 runs 0 polls 0 work 0 squeezed 0\n",
    ),
    (
        Mode::Shared,
        "total devices 16 runs 0 polls 0 work 0 squeezed 0\n",
    ),
    (Mode::Threads, "total devices 16\n"),
];

// Replays a trace with a reader that fails after this many reads, and a writer that fails after this many writes. Returns the
// answer, and what was written.
fn replay_in<P: Threads + Wait + Sync>(
    rt: &P,
    alloc: Global,
    mode: Mode,
    trace: &'static str,
    reads: usize,
    writes: usize,
) -> (Result<(), ReplayFault>, Vec<u8>) {
    let reader = FailingReader::new(trace, reads);
    let mut writer = FailingWriter::new(alloc, writes);
    let settings = Settings::default();
    let answer = match mode {
        Mode::Serial => replay_serial(alloc, reader, &mut writer, &settings),
        Mode::Shared => replay_shared(rt, alloc, reader, &mut writer, &settings),
        Mode::Threads => {
            replay_threads(rt, alloc, reader, &mut writer, &settings, &OpenGate).map(drop)
        }
    };
    (answer, writer.taken)
}

#[test]
fn failing_reads(rt: HostRuntime) {
    // the end is read only once, although both `csv` and the reader of plain rows read up to it
    let reads = ONE_PACKET.len() + 1;
    for (mode, report) in MODES {
        for before in 0..reads + 2 {
            let (answer, written) = replay_in(
                &rt,
                rt.alloc(),
                mode,
                ONE_PACKET,
                before,
                usize::MAX,
            );
            let (wanted, text) = if before < reads {
                (Err(ReplayFault::Trace(TraceFault::ReadFailed)), "")
            } else {
                (Ok(()), report)
            };
            assert_eq!(rt; answer, wanted, "after {before} reads");
            assert!(rt;
                written.as_slice() == text.as_bytes(),
                "after {before} reads"
            );
        }
    }
}

#[test]
fn failing_writes(rt: HostRuntime) {
    for (mode, report) in MODES {
        for before in 0..REPORT_END {
            let (answer, written) = replay_in(
                &rt,
                rt.alloc(),
                mode,
                ONE_PACKET,
                usize::MAX,
                before,
            );
            let (wanted, count) = if before < report.len() {
                (Err(ReplayFault::OutputFailed), before)
            } else {
                (Ok(()), report.len())
            };
            assert_eq!(rt; answer, wanted, "after {before} writes");
            assert!(rt;
                begins(report, written.as_slice(), count),
                "after {before} writes"
            );
        }
    }
}

// there is memory for devices with all numbers; the program `memory_tests` tests failing allocations
#[test]
fn sixteen_devices(rt: HostRuntime) {
    for (mode, total) in SIXTEEN_TOTALS {
        let (answer, written) = replay_in(&rt, rt.alloc(), mode, SIXTEEN, usize::MAX, usize::MAX);
        assert_eq!(rt; answer, Ok(()));
        assert!(rt; written.as_slice().ends_with(total.as_bytes()), "{total}");
    }
}

// the exit status is that of the error, even if its message can't be written
#[test]
fn failing_errors(rt: HostRuntime) {
    let fault = ProgramFault::Run(ReplayFault::Trace(TraceFault::BadHeader));
    let mut errors = FailingWriter::new(rt.alloc(), 3);
    let code = end_by(rt.alloc(), &fault, &mut errors);
    assert!(rt; code == ExitCode::from(2));
    assert_eq!(rt; errors.taken.as_slice(), b"tra".as_slice());
}

const LINES: [(ReplayFault, &str, u8); 5] = [
    (
        ReplayFault::Trace(TraceFault::ReadFailed),
        "trace fault 10 ReadFailed\n",
        2,
    ),
    (
        ReplayFault::Trace(TraceFault::OutOfMemory),
        "memory fault 11 OutOfMemory\n",
        4,
    ),
    (ReplayFault::GateShut, "worker fault 14 GateShut\n", 4),
    (
        ReplayFault::OutputFailed,
        "output fault 15 OutputFailed\n",
        4,
    ),
    (ReplayFault::SpawnFailed, "worker fault 16 SpawnFailed\n", 4),
];

// Returns the message and the exit status of an error.
fn told(alloc: Global, fault: &ReplayFault) -> Result<(String, u8), AllocError> {
    Ok((fault_line(alloc, fault)?, status(fault)))
}

#[test]
fn fault_lines(rt: HostRuntime) -> Result<(), Fail> {
    for (fault, line, number) in LINES {
        let (found, ends) = told(rt.alloc(), &fault)?;
        assert_eq!(rt; found.as_str(), line);
        assert_eq!(rt; ends, number, "of {line:?}");
    }
    Ok(())
}
