//! Makes each call that allocates, and checks the state after a failed allocation: the error is out of memory, and the call
//! succeeds when it is made again. `tests/refusals.sh` makes each allocation of this program fail in turn.
#![tactic(auto)]

// Makes a call, and again if it fails with this error. Returns whether it failed, and its value.
macro_rules! made {
    ($call:expr, $error:pat) => {
        match $call {
            Ok(value) => (false, value),
            Err(error) => {
                ensure!(matches!(error, $error), "another error");
                (true, $call?)
            }
        }
    };
}

mod benches;
mod rings;
mod stops;
mod traces;
mod workers;

use anyhow::Result;
use poll_engine::WorkFault;

// Returns the end of an output line: whether an allocation of the call failed once.
const fn once(refused: bool) -> &'static str {
    if refused { ", refused once" } else { "" }
}

// Returns the end of an output line: whether a run failed once, by an allocation or by the start of a thread.
const fn once_by(fault: Option<WorkFault>) -> &'static str {
    match fault {
        None => "",
        Some(WorkFault::SpawnFailed) => ", a start refused once",
        Some(_) => ", refused once",
    }
}

fn main(rt: HostRuntime) -> Result<()> {
    let alloc = rt.alloc();
    let calls = [
        ("a ring", once(rings::ring_is_made(alloc)?)),
        (
            "a transmit ring",
            once(rings::transmit_ring_is_made(alloc)?),
        ),
        ("a table", once(rings::table_is_made(alloc)?)),
        ("an instance", once(rings::instance_is_made(&rt, alloc)?)),
        ("a list", once(rings::list_is_made(&rt, alloc)?)),
        ("a bench", once(benches::bench_is_made(alloc)?)),
        (
            "a shared bench",
            once(benches::shared_bench_is_made(&rt, alloc)?),
        ),
        ("a trace", once(traces::trace_is_read(alloc)?)),
        ("a scripted device", once(traces::script_is_made(alloc)?)),
        (
            "a run of workers",
            once_by(workers::workers_are_run(&rt, alloc)?),
        ),
        (
            "a run that is held",
            once_by(stops::acts_are_stopped(&rt, alloc)?),
        ),
        ("the words", once(traces::words_are_read(alloc)?)),
        ("a line", once(traces::line_is_told(alloc)?)),
    ];
    for (call, refused) in calls {
        println!(rt; "{call}{refused}")?;
    }
    Ok(())
}
