//! `napi_series` replays a trace like `napi_replay`, and writes a CSV line after each row: what the report of the rows so far
//! would show of the row's device, and what the row polled.
//!
//! Its arguments are those of `napi_replay`; `--every N` before them asks for a line after every Nth row only. Errors, their
//! messages and their exit statuses are those of `napi_replay`.
#![tactic(auto)]

mod args;
mod line;
mod polls;
mod series;
mod settings;

use crate::args::parse_series_words;
use crate::series::write_series;
use crate::settings::SeriesSettings;
use std::alloc::Global;
use std::io::{self, Read, Write};
use std::process::ExitCode;
use text_io::{Program, ReplayFault, WordFault, given_args, run_asked};

// A replay that writes its series: that of the bytes read, as the arguments ask for it.
struct SeriesProgram;

impl Program for SeriesProgram {
    ghost use Rattle.napi_series.specs.Program.{AnswersSeries, AskForSeries};

    type Settings = SeriesSettings;

    type Fault = ReplayFault;

    ghost asks = { AskForSeries };

    ghost answers = { AnswersSeries };

    fn parse(&self, alloc: Global, words: &[String]) -> Result<SeriesSettings, WordFault> {
        parse_series_words(alloc, words)
    }

    fn run<R: Read + Drop, W: Write>(
        &self,
        alloc: Global,
        settings: &SeriesSettings,
        input: R,
        output: &mut W,
    ) -> Result<(), ReplayFault> {
        write_series(alloc, input, output, settings)
    }
}

// Runs the program with the real standard input and outputs.
fn main(rt: HostRuntime) -> ExitCode {
    match given_args(&rt) {
        Ok(words) => run_asked(
            &SeriesProgram,
            rt.alloc(),
            words.as_slice(),
            rt.reader(),
            &mut io::writer(&rt),
            &mut rt.stderr(),
        ),
        Err(status) => status,
    }
}
