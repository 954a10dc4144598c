//! What all programs have in common: their arguments, their run, why they failed, and how they end.

ghost use Rattle.std.specs.Prelude.{◌≡◌, ◌≢◌, ◌⊎◌, ◌++◌, ℕ, Err, IfErr, IfOk, List, None, Ok, OnOk, Option, Result, Some, codes, false, map, string_bytes, true};
ghost use Rattle.std.specs.Io.KnownBytes.{Appends, Keeps};
ghost use Rattle.std.specs.Process.{exit_status};
ghost use Rattle.device_rows.specs.Failures.{IsTraceOutOfMemory};
ghost use Rattle.text_io.specs.Program.{EndsBy, FailedBy, IsFaultOn, IsTextBy, program_fault_line, program_fault_status};
ghost use Rattle.text_io.specs.Stops.{HasStopped};
ghost use Rattle.text_io.specs.Written.{AppendsPart, LeavesBy, Writes};
ghost use Rattle.text_io.specs.Refusals.{IsArgsOutOfMemory};
ghost use Rattle.text_io.specs.Args.{Text};
ghost use Rattle.text_io.specs.declared.args.WordFault.TheVariants.{OutOfMemory, Usage};

use crate::args::{WordFault, word_line, word_status};
use crate::fault::ReplayFault;
use crate::lines::write_out;
use std::alloc::{AllocError, Global};
use std::env::{self, Env, FillError};
use std::io::{ErrorKind, Read, Write};
use std::process::ExitCode;

/// An error of a program whose arguments were accepted: its message on standard error, and its exit status.
pub trait Fault {
    /// The message on standard error, without its line feed.
    ghost line: { Self → List ℕ };

    /// The exit status.
    ghost status: { Self → ℕ };

    /// The error of a failed output.
    ghost output_failed: { Self };

    /// Returns the message on standard error, including the line feed. Fails only if an allocation fails.
    fn line(&self, alloc: Global) -> Result<String, AllocError>
        ensures { IfOk result (λ text. string_bytes text ≡ line self.now ++ codes "\n") };

    /// Returns the exit status, which isn't 0.
    fn status(&self) -> u8
        ensures status { result ≡ status self.now }
        ensures fails { result ≢ 0 };
}

/// Why a program wrote no report.
#[derive(Clone, Copy, Debug)]
pub enum ProgramFault<F> {
    /// The arguments were rejected, and nothing was read.
    Args(WordFault),
    /// The arguments were accepted, and the run failed.
    Run(F),
}

/// A program: which settings its arguments ask for, and how a run with these answers its input.
pub trait Program {
    /// The settings of a run.
    type Settings: Copy;

    /// Why a run writes no report.
    type Fault: Fault + Copy;

    /// `asks words settings`: the arguments ask for these settings, or for `None` if they are an error.
    ghost asks: { List Text → Option Self.Settings → Type 0 };

    /// `answers settings bytes answer`: a run on these bytes can have this report, or this error.
    ghost answers: { Self.Settings → List ℕ → Result (List ℕ) Self.Fault → Type 0 };

    /// Returns the settings that the arguments ask for.
    fn parse(&self, alloc: Global, words: &[String]) -> Result<Self::Settings, WordFault>
        ensures asked { IfOk result (λ s. asks (map string_bytes words.now) (Some s)) }
        ensures usage { result ≡ Err Usage → asks (map string_bytes words.now) None }
        ensures memory { result ≡ Err OutOfMemory → IsArgsOutOfMemory };

    /// Runs with these settings, and writes the report.
    fn run<R: Read + Drop, W: Write>(
        &self,
        alloc: Global,
        settings: &Self::Settings,
        input: R,
        output: &mut W,
    ) -> Result<(), Self::Fault>
        ensures written { OnOk result (Writes (λ bytes text. answers settings.now bytes (Ok text))
            (R.remaining input) (W.contents output.old) (W.contents output.new)) }
        ensures fault { IfErr result (IsFaultOn (answers settings.now) (R.remaining input)) }
        ensures output { IfErr result (LeavesBy Self.Fault.output_failed
            (λ bytes text. answers settings.now bytes (Ok text))
            (R.remaining input) (W.contents output.old) (W.contents output.new)) };
}

// The arguments after the program's name. `env::args` fails if one argument isn't UTF-8, and the name, as in a folder with
// a name in Latin-1, need not be.
#[derive(Drop)]
struct AfterName<'a>(&'a HostRuntime);

impl Env for AfterName<'_> {
    fn arg(&self, i: usize, buf: &mut [u8]) -> Result<usize, FillError> {
        self.0.arg(i.saturating_add(1), buf)
    }

    fn var(&self, name: &str, buf: &mut [u8]) -> Result<usize, FillError> {
        self.0.var(name, buf)
    }

    fn var_at(&self, i: usize, buf: &mut [u8]) -> Result<usize, FillError> {
        self.0.var_at(i, buf)
    }
}

// Returns the arguments after the program's name. Fails with `Usage` if one of them isn't UTF-8.
fn words_of(rt: &HostRuntime) -> Result<Vec<String>, WordFault> {
    match env::args(&(AfterName(rt), rt.alloc())) {
        Ok(words) => words
            .collect(rt.alloc())
            .map_err(|_| WordFault::OutOfMemory),
        Err(error) if error.kind() == ErrorKind::OutOfMemory => Err(WordFault::OutOfMemory),
        Err(_) => Err(WordFault::Usage),
    }
}

// Writes the message of an error, and returns whether all of it was written.
#[tactic(auto, using(crate::proofs::OutFacts::none_out))]
fn write_message<F: Fault, E: Write>(alloc: Global, fault: &ProgramFault<F>, errors: &mut E) -> bool
    ensures whole { result ≡ true
        → Appends (E.contents errors.old) (E.contents errors.new)
        (program_fault_line F.line fault.now) }
    ensures cut { result ≡ false → AppendsPart (E.contents errors.old) (E.contents errors.new)
        (program_fault_line F.line fault.now) }
    ensures stopped { result ≡ false → HasStopped ⊎ IsTraceOutOfMemory }
{
    match fault {
        ProgramFault::Args(fault) => write_out(errors, word_line(fault).as_bytes()),
        ProgramFault::Run(fault) => match fault.line(alloc) {
            Ok(line) => write_out(errors, line.as_bytes()),
            Err(_) => false,
        },
    }
}

/// Ends the program after an error: writes its message to `errors`, and returns its exit status, even if the message couldn't
/// be written.
pub fn end_by<F: Fault, E: Write>(
    alloc: Global,
    fault: &ProgramFault<F>,
    errors: &mut E,
) -> ExitCode
    ensures ends { EndsBy F.line F.status fault.now
        (E.contents errors.old) (E.contents errors.new) (exit_status result) }
    ensures fails { exit_status result ≢ 0 }
{
    let _is_written = write_message(alloc, fault, errors);
    let status = match fault {
        ProgramFault::Args(fault) => word_status(fault),
        ProgramFault::Run(fault) => fault.status(),
    };
    ExitCode::from(status)
}

/// Returns the arguments after the program's name. If there are none to be had, or one isn't UTF-8, it writes the message to
/// standard error, and fails with the exit status.
pub fn given_args(rt: &HostRuntime) -> Result<Vec<String>, ExitCode> {
    match words_of(rt) {
        Ok(words) => Ok(words),
        Err(fault) => {
            let fault = ProgramFault::<ReplayFault>::Args(fault);
            Err(end_by(rt.alloc(), &fault, &mut rt.stderr()))
        }
    }
}

/// Runs a program as its arguments ask for: writes the report to `output` or the message of an error to `errors`, and returns
/// the exit status, which is 0 exactly if the report was written.
pub fn run_asked<P: Program, R: Read + Drop, W: Write, E: Write>(
    program: &P,
    alloc: Global,
    words: &[String],
    input: R,
    output: &mut W,
    errors: &mut E,
) -> ExitCode
    ensures written { exit_status result ≡ 0
        → Writes (IsTextBy (P.asks (map string_bytes words.now)) P.answers)
        (R.remaining input) (W.contents output.old) (W.contents output.new) }
    ensures quiet { exit_status result ≡ 0 → Keeps (E.contents errors.old) (E.contents errors.new) }
    ensures failed { exit_status result ≢ 0
        → FailedBy P.Fault.line P.Fault.status P.Fault.output_failed
        (P.asks (map string_bytes words.now)) P.answers
        (R.remaining input) (W.contents output.old) (W.contents output.new)
        (E.contents errors.old) (E.contents errors.new) (exit_status result) }
{
    match program.parse(alloc, words) {
        Ok(settings) => match program.run(alloc, &settings, input, output) {
            Ok(()) => ExitCode::SUCCESS,
            Err(fault) => end_by(alloc, &ProgramFault::Run(fault), errors),
        },
        Err(fault) => end_by(alloc, &ProgramFault::<P::Fault>::Args(fault), errors),
    }
}
