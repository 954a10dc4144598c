//! The command line.

ghost use Rattle.std.specs.Prelude.{◌≡◌, ◌≤◌, Some, None, Err, IfOk, IfSome, option_map, map, string_bytes, codes};
ghost use Rattle.text_io.specs.Given.{or_default};
ghost use Rattle.text_io.specs.Options.{value_in};
ghost use Rattle.text_io.specs.Refusals.{IsArgsOutOfMemory};
ghost use Rattle.text_io.specs.Args.{replay_asked_for, replay_args_of, replay_args_with, fault_number, word_fault_line, mode_of};
ghost use Rattle.text_io.specs.Args.{number_up_to, serial_asked_for, word_fault_status};
ghost use Rattle.text_io.specs.declared.mode.ReplayMode.TheVariants.{Serial};
ghost use Rattle.text_io.specs.declared.args.WordFault.TheVariants.{OutOfMemory, Usage};

use crate::mode::ReplayMode;
use crate::options::{number_within, option_number, read_options, with_name};
use crate::settings::{MOST_BUDGET, MOST_POLLERS, MOST_WEIGHT, MOST_WINDOW, ReplaySettings};
use clap::ArgMatches;
use std::alloc::{AllocError, Global};
use thiserror::Error;

// The names of the options.
const OPTIONS: [&str; 5] = ["mode", "pollers", "budget", "weight", "window"];

/// Why the arguments were rejected. They are parsed before the trace is read; after an error it isn't read.
#[derive(Clone, Copy, Debug, PartialEq, Eq, Error)]
pub enum WordFault {
    /// Number 1: invalid arguments: one that is neither an option nor a value, an option that is repeated or has no value, a
    /// value out of its range.
    #[error("the words ask for nothing that the program does")]
    Usage,
    /// Number 2: out of memory while they were parsed.
    #[error("out of memory")]
    OutOfMemory,
}

impl From<AllocError> for WordFault {
    ghost use Rattle.std.specs.Prelude.{◌≡◌};
    ghost use Rattle.text_io.specs.declared.args.WordFault.TheVariants.{OutOfMemory};

    ghost from_gives = { λ _ fault. fault ≡ OutOfMemory };

    fn from(_: AllocError) -> WordFault {
        WordFault::OutOfMemory
    }
}

impl WordFault {
    /// The number of this error: 1 `Usage`, 2 `OutOfMemory`.
    pub fn number(&self) -> u32
        ensures { result ≡ fault_number self.now }
    {
        match self {
            WordFault::Usage => 1,
            WordFault::OutOfMemory => 2,
        }
    }
}

/// Returns the message of an error for standard error, including the line feed.
pub fn word_line(fault: &WordFault) -> &'static str
    ensures { result.now ≡ word_fault_line fault.now }
{
    match fault {
        WordFault::Usage => "usage fault 64\n",
        WordFault::OutOfMemory => "memory fault 11 OutOfMemory\n",
    }
}

/// Returns the exit status of an error.
pub fn word_status(fault: &WordFault) -> u8
    ensures { result ≡ word_fault_status fault.now }
{
    match fault {
        WordFault::Usage => 64,
        WordFault::OutOfMemory => 4,
    }
}

// Returns the mode with this name.
fn mode_of(word: &str) -> Option<ReplayMode>
    ensures { result ≡ mode_of word.now }
{
    if word == "serial" {
        Some(ReplayMode::Serial)
    } else if word == "shared" {
        Some(ReplayMode::Shared)
    } else if word == "threads" {
        Some(ReplayMode::Threads)
    } else {
        None
    }
}

/// Returns the number from 1 to `high` that one to five ASCII digits denote, or `None`.
pub fn number_of(text: &str, high: u32) -> Option<u32>
    ensures number { result ≡ number_up_to high text.now }
    ensures range { IfSome result (λ n. (1 ≤ n) × (n ≤ high)) }
{
    number_within(text, 5, 1, high)
}

// Returns the mode that is given, or the default; `None` for an unknown name.
fn mode_in(matches: &ArgMatches<'_>) -> Option<ReplayMode>
    ensures { result ≡ or_default Serial mode_of (value_in matches.now (codes "mode")) }
{
    match matches.get_str("mode") {
        None => Some(ReplayMode::Serial),
        Some(word) => mode_of(word),
    }
}

// Returns the number given for an option, or the default; `None` if it isn't a number in the range.
fn number_in(matches: &ArgMatches<'_>, name: &str, default: u32, high: u32) -> Option<u32>
    ensures number { result
        ≡ or_default default (number_up_to high) (value_in matches.now name.now) }
    ensures range { (1 ≤ default) × (default ≤ high) → IfSome result (λ n. (1 ≤ n) × (n ≤ high)) }
{
    option_number(matches, name, default, 5, 1, high)
}

// Returns what the matches ask for.
fn asked_by(matches: &ArgMatches<'_>) -> Option<(ReplayMode, ReplaySettings)>
    ensures { option_map replay_args_of result ≡ replay_args_with (value_in matches.now) }
{
    let mode = mode_in(matches)?;
    let default = ReplaySettings::default();
    let pollers = number_in(matches, "pollers", default.pollers, MOST_POLLERS)?;
    let budget = number_in(matches, "budget", default.budget, MOST_BUDGET)?;
    let weight = number_in(matches, "weight", default.weight, MOST_WEIGHT)?;
    let window = number_in(matches, "window", default.window, MOST_WINDOW)?;
    let settings = ReplaySettings::new(pollers, budget, weight, window)?;
    Some((mode, settings))
}

/// Returns the mode and the settings that the arguments name, with defaults for the rest: serial mode, one poller, a budget of
/// 300, a weight of 64 and a window of 1024.
///
/// The arguments are those after the program's name. An option is `--mode`, `--pollers`, `--budget`, `--weight` or `--window`,
/// each at most once; its value follows `=` in the same argument, or is the next argument. A number is one to five ASCII
/// digits, in the range that [`ReplaySettings::new`] checks.
///
/// # Errors
///
/// [`WordFault::Usage`] if the arguments are invalid, which includes `--help`. [`WordFault::OutOfMemory`] if an allocation
/// fails, whatever the arguments are.
pub fn parse_words(
    alloc: Global,
    words: &[String],
) -> Result<(ReplayMode, ReplaySettings), WordFault>
    ensures asked { IfOk result
        (λ asked. replay_asked_for (map string_bytes words.now) ≡ Some (replay_args_of asked)) }
    ensures usage { result ≡ Err Usage → replay_asked_for (map string_bytes words.now) ≡ None }
    ensures memory { result ≡ Err OutOfMemory → IsArgsOutOfMemory }
{
    let words = with_name(alloc, words)?;
    let matches = read_options(alloc, &OPTIONS, words.as_slice())?;
    asked_by(&matches).ok_or(WordFault::Usage)
}

/// Returns the settings that the arguments name, for a program that has only serial mode: like [`parse_words`], but every other
/// mode is an error.
///
/// # Errors
///
/// [`WordFault::Usage`] if the arguments are invalid, or name another mode. [`WordFault::OutOfMemory`] if an allocation fails,
/// whatever the arguments are.
pub fn parse_serial_words(alloc: Global, words: &[String]) -> Result<ReplaySettings, WordFault>
    ensures asked { IfOk result
        (λ settings. serial_asked_for (map string_bytes words.now)
        ≡ Some (replay_args_of (Serial, settings))) }
    ensures usage { result ≡ Err Usage → serial_asked_for (map string_bytes words.now) ≡ None }
    ensures memory { result ≡ Err OutOfMemory → IsArgsOutOfMemory }
{
    match parse_words(alloc, words) {
        Ok((ReplayMode::Serial, settings)) => Ok(settings),
        Ok(_) => Err(WordFault::Usage),
        Err(fault) => Err(fault),
    }
}
