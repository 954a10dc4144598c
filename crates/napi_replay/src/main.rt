//! `napi_replay` replays a trace of network events through the packet polling core, and reports what it did.
//!
//! It reads the trace from standard input, and writes the report to standard output. After an error it writes one line, the
//! message, to standard error, and its exit status is that of the error; otherwise it is 0. The arguments select a mode and the
//! settings of a run.
#![tactic(auto)]

mod program;

use crate::program::run_program;
use std::io;
use std::process::ExitCode;
use text_io::given_args;

// Runs the program with the real standard input and outputs.
fn main(rt: HostRuntime) -> ExitCode {
    match given_args(&rt) {
        Ok(words) => run_program(
            &rt,
            rt.alloc(),
            words.as_slice(),
            rt.reader(),
            &mut io::writer(&rt),
            &mut rt.stderr(),
        ),
        Err(status) => status,
    }
}
