//! The options on a command line, for any program, by clap.

ghost use Rattle.std.specs.Prelude.{◌≡◌, ◌≤◌, ◌<◌, ◌∷◌, List, Some, None, Err, IfOk, IfSome, option_map, map, string_bytes, codes, false};
ghost use Rattle.std.specs.List.{list_any};
ghost use Rattle.clap.specs.Words.{app_of, found_of, rows_of, rule_of};
ghost use Rattle.text_io.specs.Given.{Text, given_by, is_stray, number_within, or_default};
ghost use Rattle.text_io.specs.Options.{option, rows_for, tool, value_in, with_name};
ghost use Rattle.text_io.specs.Refusals.{IsArgsOutOfMemory};
ghost use Rattle.text_io.specs.declared.args.WordFault.TheVariants.{OutOfMemory, Usage};

use crate::args::WordFault;
use clap::error::ErrorKind;
use clap::{Arg, ArgAction, ArgMatches, Command};
use std::alloc::{AllocError, Global};

/// Returns the number from `low` to `high` that a text of one to `digits` ASCII digits denotes, or `None`.
pub fn number_within(text: &str, digits: usize, low: u32, high: u32) -> Option<u32>
    requires { digits ≤ 10 }
    ensures number { result ≡ number_within digits low high text.now }
    ensures range { IfSome result (λ n. (low ≤ n) × (n ≤ high)) }
{
    let bytes = text.as_bytes();
    if bytes.is_empty() || bytes.len() > digits {
        return None;
    }
    let mut number: u64 = 0;
    for byte in bytes {
        if !byte.is_ascii_digit() {
            return None;
        }
        number = number * 10 + u64::from(*byte - b'0');
    }
    if u64::from(low) <= number && number <= u64::from(high) {
        Some(number as u32)
    } else {
        None
    }
}

/// Returns the number given for an option, or the default; `None` if it isn't a number in the range.
pub fn option_number(
    matches: &ArgMatches<'_>,
    name: &str,
    default: u32,
    digits: usize,
    low: u32,
    high: u32,
) -> Option<u32>
    requires { digits ≤ 10 }
    ensures number { result
        ≡ or_default default (number_within digits low high) (value_in matches.now name.now) }
    ensures range { (low ≤ default) × (default ≤ high)
        → IfSome result (λ n. (low ≤ n) × (n ≤ high)) }
{
    match matches.get_str(name) {
        None => Some(default),
        Some(text) => number_within(text, digits, low, high),
    }
}

// Returns an option with a value. Clap rejects a second use.
fn option<'a>(alloc: Global, name: &'a str) -> Arg<'a>
    ensures rule { rule_of result ≡ option name.now }
    ensures global { result.global ≡ false }
{
    Arg::new(alloc, name).long(name).action(ArgAction::Set)
}

// Returns a program with these options. It has no `--help`, because clap's output is never printed here.
fn tool<'a>(alloc: Global, names: &[&'a str]) -> Result<Command<'a>, AllocError>
    ensures { IfOk result (λ c. app_of c ≡ tool (map (λ s. s.now) names.now)) }
{
    let mut command = Command::new(alloc, "napi").disable_help_flag(true);
    for name in names {
        command = command.arg(option(alloc, *name))?;
    }
    Ok(command)
}

// Returns whether an argument begins with a hyphen and is neither `--name` nor `--name=value`. Clap would take `--` as the end
// of the options.
fn is_stray(word: &str) -> bool
    ensures { result ≡ is_stray word.now }
{
    match word.as_bytes() {
        [b'-', b'-', _, ..] => false,
        [b'-', ..] => true,
        _ => false,
    }
}

// Returns whether one of the arguments is stray.
fn has_stray(words: &[&str]) -> bool
    ensures { result ≡ list_any is_stray (map (λ s. s.now) words.now) }
{
    words.iter().any(|word| is_stray(*word))
}

/// Returns a program's name followed by the arguments, as [`read_options`] expects them.
pub fn with_name<'a>(alloc: Global, words: &'a [String]) -> Result<Vec<&'a str>, AllocError>
    ensures { IfOk result
        (λ v. map (λ s. s.now) v.items ≡ with_name (map string_bytes words.now)) }
{
    let mut all = Vec::new(alloc);
    all.push("napi")?;
    for word in words {
        all.push(word.as_str())?;
    }
    Ok(all)
}

/// Parses the arguments after the program's name, for a program whose options have these names.
///
/// # Errors
///
/// [`WordFault::Usage`] if the arguments are invalid. [`WordFault::OutOfMemory`] if an allocation fails, here or in clap,
/// whatever the arguments are.
pub fn read_options<'a>(
    alloc: Global,
    names: &[&'a str],
    words: &'a [&'a str],
) -> Result<ArgMatches<'a>, WordFault>
    ensures given { IfOk result (λ m. (rest : List Text)
        → map (λ s. s.now) words.now ≡ with_name rest
        → option_map rows_for (given_by (map (λ s. s.now) names.now) rest)
        ≡ Some (rows_of (found_of m))) }
    ensures usage { result ≡ Err Usage → (rest : List Text)
        → map (λ s. s.now) words.now ≡ with_name rest
        → given_by (map (λ s. s.now) names.now) rest ≡ None }
    ensures memory { result ≡ Err OutOfMemory → IsArgsOutOfMemory }
{
    if has_stray(words) {
        return Err(WordFault::Usage);
    }
    match tool(alloc, names)?.try_get_matches_from(words) {
        Ok(matches) => Ok(matches),
        Err(error) if error.kind() == ErrorKind::OutOfMemory => Err(WordFault::OutOfMemory),
        Err(_) => Err(WordFault::Usage),
    }
}
