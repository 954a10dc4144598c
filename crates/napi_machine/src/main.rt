//! `napi_machine` is a machine that receives packets over simulated time: its options name how long an interrupt, a poll, a
//! packet and its use take on its processors. It reads arrivals from standard input and writes its report to standard output.
#![tactic(auto)]

ghost use Rattle.std.specs.Prelude.{◌≡◌, IfErr, OnErr, OnOk, map, string_bytes};
ghost use Rattle.std.specs.Io.KnownBytes.{Appends};
ghost use Rattle.machine.specs.declared.fault.MachineFault.TheVariants.{OutputFailed};
ghost use Rattle.text_io.specs.Stops.{HasStopped};
ghost use Rattle.text_io.specs.Written.{AppendsPart};
ghost use Rattle.napi_machine.specs.Program.{is_only};

use machine::{MachineFault, run_machine};
use machine_model::{MachineSettings, parse_words};
use std::alloc::Global;
use std::io::{self, Read, Write};
use std::process::ExitCode;
use text_io::{Program, WordFault, given_args, run_asked, write_text};

// What the arguments ask for: a machine with these settings, or a text about the program.
#[derive(Clone, Copy)]
enum Asked {
    Machine(MachineSettings),
    Help,
    Version,
}

const HELP: &str =
    "usage: napi_machine [--OPTION VALUE ..] < ARRIVALS\nPredicts latency, drops and processor time of a receiving Linux machine.\nman napi_machine explains the options.\n";

const VERSION: &str = "napi_machine 3.0.0\n";

// Returns whether this is the only argument.
fn is_only(words: &[String], name: &str) -> bool
    ensures { result ≡ is_only name.now (map string_bytes words.now) }
{
    let [word] = words else {
        return false;
    };
    word.as_str() == name
}

// Writes a text about the program.
fn write_about<W: Write>(output: &mut W, text: &str) -> Result<(), MachineFault>
    ensures written { OnOk result
        (Appends (W.contents output.old) (W.contents output.new) text.now) }
    ensures fault { IfErr result (λ fault. (fault ≡ OutputFailed) × HasStopped) }
    ensures cut { OnErr result
        (AppendsPart (W.contents output.old) (W.contents output.new) text.now) }
{
    match write_text(output, text.as_bytes()) {
        Ok(()) => Ok(()),
        Err(_) => Err(MachineFault::OutputFailed),
    }
}

// The receiving machine: its report of the bytes read, with the settings that the arguments ask for.
struct MachineProgram;

impl Program for MachineProgram {
    ghost use Rattle.napi_machine.specs.Program.{AnswersMachine, AskForMachine};

    type Settings = Asked;

    type Fault = MachineFault;

    ghost asks = { AskForMachine };

    ghost answers = { AnswersMachine };

    fn parse(&self, alloc: Global, words: &[String]) -> Result<Asked, WordFault> {
        if is_only(words, "--help") {
            return Ok(Asked::Help);
        }
        if is_only(words, "--version") {
            return Ok(Asked::Version);
        }
        Ok(Asked::Machine(parse_words(alloc, words)?))
    }

    fn run<R: Read + Drop, W: Write>(
        &self,
        alloc: Global,
        asked: &Asked,
        input: R,
        output: &mut W,
    ) -> Result<(), MachineFault> {
        match asked {
            Asked::Machine(settings) => run_machine(alloc, input, output, settings),
            Asked::Help => write_about(output, HELP),
            Asked::Version => write_about(output, VERSION),
        }
    }
}

// Runs the program with the real standard input and outputs.
fn main(rt: HostRuntime) -> ExitCode {
    match given_args(&rt) {
        Ok(words) => run_asked(
            &MachineProgram,
            rt.alloc(),
            words.as_slice(),
            rt.reader(),
            &mut io::writer(&rt),
            &mut rt.stderr(),
        ),
        Err(status) => status,
    }
}
