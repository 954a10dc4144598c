//! Plain rows, parsed in one pass: digits, commas, an event's name, a line feed. For any other row these functions return
//! `None`.

ghost use Rattle.std.specs.Prelude.{◌≡◌, ◌<◌, true, IfSome, length, slice_index_or, take};
ghost use Rattle.std.specs.Str.{all_ascii_digits};
ghost use Rattle.device_places.specs.Range.{IsWithin};
ghost use Rattle.device_rows.specs.Plain.{StartsWithEvent, StartsWithNumber, StartsWithRow, StartsWithTitles};
ghost use Rattle.device_rows.specs.Record.{numeral};

use crate::event::{RowEvent, event_of};
use crate::row::Row;

// A number below this, with one more digit, fits into 64 bits.
const ROOM_FOR_DIGIT: u64 = 1844674407370955161;

// Returns the number of twenty digits at the start of a text, of which the first nineteen are `front`, as `number` does.
#[inline(never)]
fn twenty_digits(front: u64, text: &[u8], stop: u8) -> Option<(u64, &[u8])>
    requires digits { all_ascii_digits (take 19 text.now) ≡ true }
    requires front { front ≡ numeral (take 19 text.now) }
    ensures { IfSome result (λ found. StartsWithNumber text.now stop found.0 found.1.now) }
{
    if text.len() < 21
        || !text[19].is_ascii_digit()
        || text[20] != stop
        || front >= ROOM_FOR_DIGIT
    {
        return None;
    }
    Some((front * 10 + u64::from(text[19] - b'0'), &text[21..]))
}

/// Returns the number of one to twenty digits at the start of a text, if it fits into 64 bits and `stop` ends it, and the text
/// after `stop`. It may return `None` for a number just below 2^64.
#[inline(always)]
pub fn number(text: &[u8], stop: u8) -> Option<(u64, &[u8])>
    ensures { IfSome result (λ found. StartsWithNumber text.now stop found.0 found.1.now) }
{
    let mut number = 0;
    for place in 0..text.len() {
        let byte = text[place];
        if byte.is_ascii_digit() {
            // Nineteen digits always fit. This constant bound also lets the compiler unroll the loop.
            if place == 19 {
                return twenty_digits(number, text, stop);
            }
            number = number * 10 + u64::from(byte - b'0');
        } else {
            if byte != stop || place == 0 {
                return None;
            }
            return Some((number, &text[place + 1..]));
        }
    }
    None
}

// Returns the place of the first comma of a text.
#[inline(always)]
fn first_comma(text: &[u8]) -> Option<usize>
    ensures below { IfSome result (λ place. place < length text.now) }
    ensures comma { IfSome result (λ place. slice_index_or text.now place 0 ≡ 44) }
{
    for place in 0..text.len() {
        if text[place] == b',' {
            return Some(place);
        }
    }
    None
}

// Returns the event whose name starts a text, if a comma ends the name, and the text after the comma.
#[inline(always)]
fn plain_event(version: u32, text: &[u8]) -> Option<(RowEvent, &[u8])>
    ensures { IfSome result (λ found. StartsWithEvent version text.now found.0 found.1.now) }
{
    let end = first_comma(text)?;
    let event = event_of(version, &text[..end])?;
    Some((event, &text[end + 1..]))
}

/// Returns the plain row at the start of a text, and the text after it. Its moment is unrestricted; its device and its value
/// are at most 65536.
#[inline(always)]
pub(crate) fn plain_row(version: u32, text: &[u8]) -> Option<(Row, &[u8])>
    ensures { IfSome result (λ found. StartsWithRow version text.now found.0 found.1.now) }
{
    let (moment, text) = number(text, b',')?;
    let (device, text) = number(text, b',')?;
    let (event, text) = plain_event(version, text)?;
    let (value, text) = number(text, b'\n')?;
    if device > 65536 || value > 65536 {
        return None;
    }
    let row = Row {
        moment,
        device: device as u32,
        event,
        value: value as u32,
    };
    Some((row, text))
}

/// Returns the version of a trace that starts with the titles and a line feed, and the text after that.
pub(crate) fn plain_titles(text: &[u8]) -> Option<(u32, &[u8])>
    ensures titles { IfSome result (λ found. StartsWithTitles text.now found.0 found.1.now) }
    ensures range { IfSome result (λ found. IsWithin 1 2 found.0) }
{
    if let Some(rest) = text.strip_prefix(b"moment,device,event,value\n".as_slice()) {
        return Some((1, rest));
    }
    let rest = text.strip_prefix(b"moment,device,event,value,2\n".as_slice())?;
    Some((2, rest))
}
