//! The command line.

ghost use Rattle.std.specs.Prelude.{◌≡◌, ◌≤◌, None, Some, Err, IfOk, IfSome, map, option_map, string_bytes};
ghost use Rattle.std.specs.Option.{ForSome};
ghost use Rattle.napi_series.specs.Args.{is_allowed, options_of, restarts_of};
ghost use Rattle.napi_series.specs.Program.{AskForSeries};
ghost use Rattle.text_io.specs.Refusals.{IsArgsOutOfMemory};
ghost use Rattle.text_io.specs.declared.args.WordFault.TheVariants.{OutOfMemory, Usage};

use crate::settings::{SeriesOptions, SeriesSettings};
use std::alloc::Global;
use text_io::{WordFault, number_of, number_within, parse_serial_words};

// More runs than a trace has room for: runs are added until the list is empty.
const UNTIL_EMPTY: u32 = 100000;

impl SeriesOptions {
    ghost use Rattle.std.specs.Prelude.{◌≡◌, ◌≤◌, IfSome};
    ghost use Rattle.std.specs.Option.{ForSome};
    ghost use Rattle.napi_series.specs.Args.{with_every, with_polls, with_restarts, with_rows};

    // Each of these returns the options with one more, or `None` if it was given before.
    fn with_every(self, every: u32) -> Option<SeriesOptions>
        requires { 1 ≤ every }
        ensures options { result ≡ with_every self every }
        ensures range { IfSome result (λ o. ForSome o.every (λ n. 1 ≤ n)) }
    {
        if self.every.is_some() {
            return None;
        }
        Some(SeriesOptions {
            every: Some(every),
            restarts: self.restarts,
            polls: self.polls,
            rows: self.rows,
        })
    }

    fn with_restarts(self, restarts: u32) -> Option<SeriesOptions>
        requires { ForSome self.every (λ n. 1 ≤ n) }
        ensures options { result ≡ with_restarts self restarts }
        ensures range { IfSome result (λ o. ForSome o.every (λ n. 1 ≤ n)) }
    {
        if self.restarts.is_some() {
            return None;
        }
        Some(SeriesOptions {
            every: self.every,
            restarts: Some(restarts),
            polls: self.polls,
            rows: self.rows,
        })
    }

    fn with_polls(self) -> Option<SeriesOptions>
        requires { ForSome self.every (λ n. 1 ≤ n) }
        ensures options { result ≡ with_polls self }
        ensures range { IfSome result (λ o. ForSome o.every (λ n. 1 ≤ n)) }
    {
        if self.polls {
            return None;
        }
        Some(SeriesOptions {
            every: self.every,
            restarts: self.restarts,
            polls: true,
            rows: self.rows,
        })
    }

    fn with_rows(self) -> Option<SeriesOptions>
        requires { ForSome self.every (λ n. 1 ≤ n) }
        ensures options { result ≡ with_rows self }
        ensures range { IfSome result (λ o. ForSome o.every (λ n. 1 ≤ n)) }
    {
        if self.rows {
            return None;
        }
        Some(SeriesOptions {
            every: self.every,
            restarts: self.restarts,
            polls: self.polls,
            rows: true,
        })
    }

    // Returns whether the options go together: with `--rows` there are no lines.
    fn is_allowed(&self) -> bool
        ensures { result ≡ is_allowed self.now }
    {
        !(self.rows && (self.polls || self.every.is_some()))
    }
}

// Returns the most runs that are added after a row, if the argument is `--raise` or `--raise=N`.
fn restarts_of(word: &str) -> Option<u32>
    ensures { result ≡ restarts_of word.now }
{
    if word == "--raise" {
        return Some(UNTIL_EMPTY);
    }
    match word.split_once('=') {
        Some((name, number)) => {
            if name == "--raise" {
                number_within(number, 5, 0, 99999)
            } else {
                None
            }
        }
        None => None,
    }
}

// Returns the options at the front of the arguments, in addition to these, and the remaining arguments. `awaits` says whether
// the next argument is the number of `--every`.
#[tactic(auto, unfolding(crate::specs::Args::options_of))]
fn split_options(
    awaits: bool,
    options: SeriesOptions,
    words: &[String],
) -> Option<(SeriesOptions, &[String])>
    requires { ForSome options.every (λ n. 1 ≤ n) }
    ensures split { option_map (λ s. (s.0, map string_bytes s.1.now)) result
        ≡ options_of awaits options (map string_bytes words.now) }
    ensures range { IfSome result (λ s. ForSome s.0.every (λ n. 1 ≤ n)) }
{
    let [word, rest @ ..] = words else {
        return if awaits { None } else { Some((options, words)) };
    };
    if awaits {
        let every = number_of(word.as_str(), 99999)?;
        return split_options(false, options.with_every(every)?, rest);
    }
    if word.as_str() == "--every" {
        return split_options(true, options, rest);
    }
    if word.as_str() == "--polls" {
        return split_options(false, options.with_polls()?, rest);
    }
    if word.as_str() == "--rows" {
        return split_options(false, options.with_rows()?, rest);
    }
    match restarts_of(word.as_str()) {
        Some(restarts) => split_options(false, options.with_restarts(restarts)?, rest),
        None => Some((options, words)),
    }
}

/// Returns the settings of the series. Its options, `--every N`, `--raise` or `--raise=N`, `--polls` and `--rows`, come before
/// the other arguments, which are those of `napi_replay`. The mode is serial, because that processes the rows in order.
///
/// # Errors
///
/// [`WordFault::Usage`] if the arguments are invalid; [`WordFault::OutOfMemory`] if an allocation fails.
pub(crate) fn parse_series_words(
    alloc: Global,
    words: &[String],
) -> Result<SeriesSettings, WordFault>
    ensures asked { IfOk result (λ asked. AskForSeries (map string_bytes words.now) (Some asked)) }
    ensures usage { result ≡ Err Usage → AskForSeries (map string_bytes words.now) None }
    ensures memory { result ≡ Err OutOfMemory → IsArgsOutOfMemory }
{
    let none = SeriesOptions {
        every: None,
        restarts: None,
        polls: false,
        rows: false,
    };
    let Some((options, rest)) = split_options(false, none, words) else {
        return Err(WordFault::Usage);
    };
    if !options.is_allowed() {
        return Err(WordFault::Usage);
    }
    let replay = parse_serial_words(alloc, rest)?;
    Ok(SeriesSettings { options, replay })
}
