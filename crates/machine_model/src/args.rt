//! The program's arguments.

ghost use Rattle.std.specs.Prelude.{◌≡◌, Some, None, Err, IfOk, IfSome, map, option_map, string_bytes};
ghost use Rattle.machine_model.specs.Options.{AreInRange, machine_asked_for, machine_options, machine_with, option_names, values_of, values_with};
ghost use Rattle.text_io.specs.Options.{value_in};
ghost use Rattle.text_io.specs.Refusals.{IsArgsOutOfMemory};
ghost use Rattle.text_io.specs.declared.args.WordFault.TheVariants.{OutOfMemory, Usage};

use crate::settings::{MachineOption, MachineSettings, OPTION_COUNT};
use clap::ArgMatches;
use std::alloc::Global;
use text_io::{WordFault, option_number, read_options, with_name};

// Returns the names of the options.
fn names() -> [&'static str; OPTION_COUNT]
    ensures { map (λ s. s.now) result ≡ option_names }
{
    let mut names = [""; OPTION_COUNT];
    for i in 0..OPTION_COUNT {
        names[i] = MachineOption::at(i).name;
    }
    names
}

// Returns the value of each option: the number that one to ten digits denote, or the default. `None` if one isn't a number in its
// range.
fn values_in(matches: &ArgMatches<'_>) -> Option<[u32; OPTION_COUNT]>
    ensures values { result ≡ values_with machine_options (value_in matches.now) }
    ensures in_range { IfSome result AreInRange }
{
    let mut values = [0; OPTION_COUNT];
    for i in 0..OPTION_COUNT {
        let option = MachineOption::at(i);
        let default = option.default;
        values[i] = option_number(matches, option.name, default, 10, option.least, option.most)?;
    }
    Some(values)
}

// Returns the machine that the values of the options ask for.
fn asked_by(matches: &ArgMatches<'_>) -> Option<MachineSettings>
    ensures { option_map values_of result ≡ machine_with (value_in matches.now) }
{
    MachineSettings::from_values(&values_in(matches)?).ok()
}

/// Returns the machine that the program's arguments ask for, with the defaults of [`OPTIONS`] for the rest.
///
/// The arguments are options of [`OPTIONS`], each at most once, as `--ring`. Its value follows `=` in the same argument, or is the
/// next argument. A value is one to ten ASCII digits, in the range of the option; for a flag it is 0 or 1. `--rx-gap` above 0 excludes
/// `--rx-nsecs` and `--rx-frames` above 0, `--take` is at most `--packet`, and `--early` above 0 excludes `--heedless 1`.
///
/// # Errors
///
/// [`WordFault::Usage`] if the arguments are invalid, which includes `--help`. [`WordFault::OutOfMemory`] if an allocation
/// fails, whatever the arguments are.
pub fn parse_words(alloc: Global, words: &[String]) -> Result<MachineSettings, WordFault>
    ensures asked { IfOk result
        (λ asked. machine_asked_for (map string_bytes words.now) ≡ Some (values_of asked)) }
    ensures usage { result ≡ Err Usage → machine_asked_for (map string_bytes words.now) ≡ None }
    ensures memory { result ≡ Err OutOfMemory → IsArgsOutOfMemory }
{
    let words = with_name(alloc, words)?;
    let matches = read_options(alloc, &names(), words.as_slice())?;
    asked_by(&matches).ok_or(WordFault::Usage)
}
