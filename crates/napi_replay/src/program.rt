//! The whole program as a function of its arguments, its input and its two outputs.

ghost use Rattle.std.specs.Prelude.{◌≡◌, ◌≢◌, IfErr, Ok, OnOk, map, string_bytes};
ghost use Rattle.std.specs.Io.KnownBytes.{Keeps};
ghost use Rattle.std.specs.Process.{exit_status};
ghost use Rattle.std.specs.Borrow.{Bor};
ghost use Rattle.napi_replay.specs.Program.{AnswersReplay, AskForReplay, Ran, RanIn};
ghost use Rattle.text_io.specs.Fault.{replay_fault_line, replay_fault_status};
ghost use Rattle.text_io.specs.Program.{FailedBy, IsFaultOn, IsTextBy};
ghost use Rattle.text_io.specs.Written.{LeavesText, Writes};
ghost use Rattle.text_io.specs.declared.fault.ReplayFault.TheVariants.{OutputFailed};

use poll_engine::OpenGate;
use replay::{replay_shared, replay_threads};
use replay_rows::replay_serial;
use std::alloc::Global;
use std::io::{Read, Write};
use std::process::ExitCode;
use std::sync::Wait;
use std::thread::Threads;
use text_io::{ProgramFault, ReplayFault, ReplayMode, ReplaySettings, end_by, parse_words};

// Replays the input in a mode. No impl of `Program`, because there a type's bound `Sync` isn't known.
fn replay_in<H: Threads + Wait + Sync, R: Read + Drop, W: Write>(
    rt: &H,
    alloc: Global,
    asked: &(ReplayMode, ReplaySettings),
    input: R,
    output: &mut W,
) -> Result<(), ReplayFault>
    ensures written { OnOk result (Writes (λ bytes text. AnswersReplay asked.now bytes (Ok text))
        (R.remaining input) (W.contents output.old) (W.contents output.new)) }
    ensures run { OnOk result (RanIn (Bor H) asked.now.0 asked.now.1 (R.remaining input)) }
    ensures fault { IfErr result (IsFaultOn (AnswersReplay asked.now) (R.remaining input)) }
    ensures output { IfErr result
        (LeavesText (λ bytes text. AnswersReplay asked.now bytes (Ok text))
        (R.remaining input) (W.contents output.old) (W.contents output.new)) }
{
    let (mode, settings) = *asked;
    match mode {
        ReplayMode::Serial => replay_serial(alloc, input, output, &settings),
        ReplayMode::Shared => replay_shared(rt, alloc, input, output, &settings),
        ReplayMode::Threads => match replay_threads(
            rt, alloc, input, output, &settings, &OpenGate,
        ) {
            Ok(_) => Ok(()),
            Err(fault) => Err(fault),
        },
    }
}

/// Runs the program: replays `input` as its arguments ask for, writes the report to `output` or the message of an error to
/// `errors`, and returns the exit status.
///
/// The status is 0 exactly if the report was written. In threads mode, the gate always returns true.
pub fn run_program<H: Threads + Wait + Sync, R: Read + Drop, W: Write, E: Write>(
    rt: &H,
    alloc: Global,
    words: &[String],
    input: R,
    output: &mut W,
    errors: &mut E,
) -> ExitCode
    // The bytes written are the report of the bytes read, in the mode and with the settings that the arguments ask for.
    ensures written { exit_status result ≡ 0
        → Writes (IsTextBy (AskForReplay (map string_bytes words.now)) AnswersReplay)
        (R.remaining input) (W.contents output.old) (W.contents output.new) }
    // In shared mode its rows were processed on shared instances; in threads mode they were polled with the settings that the
    // arguments ask for.
    ensures run { exit_status result ≡ 0
        → Ran (Bor H) (map string_bytes words.now) (R.remaining input) }
    ensures quiet { exit_status result ≡ 0 → Keeps (E.contents errors.old) (E.contents errors.new) }
    ensures failed { exit_status result ≢ 0
        → FailedBy replay_fault_line replay_fault_status OutputFailed
        (AskForReplay (map string_bytes words.now)) AnswersReplay
        (R.remaining input) (W.contents output.old) (W.contents output.new)
        (E.contents errors.old) (E.contents errors.new) (exit_status result) }
{
    match parse_words(alloc, words) {
        Ok(asked) => match replay_in(rt, alloc, &asked, input, output) {
            Ok(()) => ExitCode::SUCCESS,
            Err(fault) => end_by(alloc, &ProgramFault::Run(fault), errors),
        },
        Err(fault) => end_by(alloc, &ProgramFault::<ReplayFault>::Args(fault), errors),
    }
}
