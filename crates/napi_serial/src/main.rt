//! `napi_serial` is the serial mode of `napi_replay` as a program without any dependency on threads: for arguments that ask for
//! serial mode it writes the same bytes and has the same exit status. Any other mode is a usage error.
#![tactic(auto)]

use replay_rows::replay_serial;
use std::alloc::Global;
use std::io::{self, Read, Write};
use std::process::ExitCode;
use text_io::{
    Program, ReplayFault, ReplaySettings, WordFault, given_args, parse_serial_words, run_asked,
};

// A replay in serial mode: the report of the bytes read, with the settings that the arguments ask for.
struct SerialProgram;

impl Program for SerialProgram {
    ghost use Rattle.napi_serial.specs.Program.{AnswersSerial, AskForSerial};

    type Settings = ReplaySettings;

    type Fault = ReplayFault;

    ghost asks = { AskForSerial };

    ghost answers = { AnswersSerial };

    fn parse(&self, alloc: Global, words: &[String]) -> Result<ReplaySettings, WordFault> {
        parse_serial_words(alloc, words)
    }

    fn run<R: Read + Drop, W: Write>(
        &self,
        alloc: Global,
        settings: &ReplaySettings,
        input: R,
        output: &mut W,
    ) -> Result<(), ReplayFault> {
        replay_serial(alloc, input, output, settings)
    }
}

// Runs the program with the real standard input and outputs.
fn main(rt: HostRuntime) -> ExitCode {
    match given_args(&rt) {
        Ok(words) => run_asked(
            &SerialProgram,
            rt.alloc(),
            words.as_slice(),
            rt.reader(),
            &mut io::writer(&rt),
            &mut rt.stderr(),
        ),
        Err(status) => status,
    }
}
