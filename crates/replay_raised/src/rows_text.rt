//! Rows as the text of a trace. Each line is written from its end to its start, as the digits of a number are.

ghost use Rattle.std.specs.Prelude.{◌≡◌, ◌+◌, ◌*◌, ◌≤◌, ◌++◌, IfOk, codes, flat_map, length, drop};
ghost use Rattle.device_rows.specs.Row.{event_name};
ghost use Rattle.replay_raised.specs.TraceText.{row_line, titles, trace_text};
ghost use Rattle.text_io.specs.Lines.{with_newline};

use device_rows::{Row, RowEvent};
use itoa::write_digits;
use std::alloc::{AllocError, Global};

// The bytes of the longest line: 20 digits for the time, 10 for the device and 10 for the value, the longest event with its
// commas, another comma, and a line feed.
const MOST_LINE: usize = 52;

// So many lines are written at once, from the last to the first.
const LINES: usize = 32;

const MOST_LINES: usize = LINES * MOST_LINE;

// The bytes of the longer titles.
const MOST_TITLES: usize = 28;

// Writes a word so that it ends at `end`, and returns where it starts.
#[inline(always)]
fn write_word(word: &[u8], buf: &mut [u8], end: usize) -> usize
    requires { (length word.now ≤ end) × (end ≤ length buf.old) }
    ensures start { result + length word.now ≡ end }
    ensures written { drop result buf.new ≡ word.now ++ drop end buf.old }
{
    let start = end - word.len();
    buf[start..end].copy_from_slice(word);
    start
}

// Writes the name of an event between two commas so that it ends at `end`, and returns where it starts.
#[inline(always)]
fn write_event(event: RowEvent, buf: &mut [u8], end: usize) -> usize
    requires { (10 ≤ end) × (end ≤ length buf.old) }
    ensures start { (result ≤ end) × (end ≤ result + 10) }
    ensures written { drop result buf.new
        ≡ codes "," ++ (event_name event ++ (codes "," ++ drop end buf.old)) }
{
    let at = write_word(b",", buf, end);
    let at = write_word(event.name(), buf, at);
    write_word(b",", buf, at)
}

// Writes the line of a row so that it ends at `end`, and returns where it starts.
fn write_row(row: &Row, buf: &mut [u8], end: usize) -> usize
    requires { (52 ≤ end) × (end ≤ length buf.old) }
    ensures start { (result ≤ end) × (end ≤ result + 52) }
    ensures written { drop result buf.new ≡ with_newline (row_line row.now) ++ drop end buf.old }
{
    let at = write_word(b"\n", buf, end);
    let at = write_digits(u64::from(row.value), buf, at);
    let at = write_event(row.event, buf, at);
    let at = write_digits(u64::from(row.device), buf, at);
    let at = write_word(b",", buf, at);
    write_digits(row.moment, buf, at)
}

// Writes the lines of the rows so that they end at `end`, and returns where they start.
fn write_rows(rows: &[Row], buf: &mut [u8], end: usize) -> usize
    requires { (52 * length rows.now ≤ end) × (end ≤ length buf.old) }
    ensures start { (result ≤ end) × (end ≤ result + 52 * length rows.now) }
    ensures written { drop result buf.new
        ≡ flat_map (λ row. with_newline (row_line row)) rows.now ++ drop end buf.old }
{
    let mut at = end;
    let mut left = rows.len();
    while left > 0 {
        left -= 1;
        at = write_row(&rows[left], buf, at);
    }
    at
}

// Returns the first line of a trace of this version.
fn titles(version: u32) -> &'static str
    ensures titles { result.now ≡ titles version }
    ensures short { length result.now ≤ 28 }
{
    if version == 2 {
        "moment,device,event,value,2\n"
    } else {
        "moment,device,event,value\n"
    }
}

// Returns the text of a trace of this version with these rows: the titles, and a line for each row with its numbers in decimal.
pub(crate) fn trace_text(alloc: Global, version: u32, rows: &[Row]) -> Result<Vec<u8>, AllocError>
    requires { length rows.now ≤ 100000 }
    ensures { IfOk result (λ text. text.items ≡ trace_text version rows.now) }
{
    let mut text = Vec::with_capacity(alloc, MOST_TITLES + MOST_LINE * rows.len())?;
    text.extend_from_slice(titles(version).as_bytes())?;
    let mut lines = [0; MOST_LINES];
    let mut done = 0;
    while done < rows.len() {
        let next = done + LINES.min(rows.len() - done);
        let at = write_rows(&rows[done..next], &mut lines, MOST_LINES);
        text.extend_from_slice(&lines[at..])?;
        done = next;
    }
    Ok(text)
}
