//! Reading a trace.

ghost use Rattle.std.specs.Prelude.{◌≡◌, ◌≤◌, ◌<◌, ◌+◌, ◌++◌, length, OnOk, ◌⊎◌, ℕ, List, [], Option, Some, Ok, Err, IfOk, IfErr, MatchResult, true, false, vec_items};
ghost use Rattle.csv.specs.Machine.{next_record};
ghost use Rattle.csv.specs.Reading.{default_config, reader_state, records_from, strip_bom};
ghost use Rattle.csv.specs.Records.{fields_of};
ghost use Rattle.csv.specs.declared.parser.State.TheVariants as state;
ghost use Rattle.device_places.specs.Range.{IsWithin};
ghost use Rattle.device_rows.specs.Adding.{AddsNext, IsSoFar, rows_with};
ghost use Rattle.device_rows.specs.Block.{Holds};
ghost use Rattle.device_rows.specs.Failures.{HasFailed, IsTraceOutOfMemory};
ghost use Rattle.device_rows.specs.Source.{IsOpen, IsReadFailure, StandsAt, ReadsNext};
ghost use Rattle.device_rows.specs.Trace.{AcceptedAfter, TraceView, records_of, rows_after, trace_of, version_in, with_row};
ghost use Rattle.device_rows.specs.declared.source.NextRecord.TheVariants as next;
ghost use Rattle.device_rows.specs.declared.row.Row.{Row};

use crate::block::Block;
use crate::fault::TraceFault;
use crate::plain::{plain_row, plain_titles};
use crate::record::{row_of, version_of};
use crate::row::Row;
use crate::source::{NextRecord, next_record};
use crate::switch::Switches;
use csv::{ByteRecord, Reader};
use std::alloc::Global;
use std::io::Read;
use std::marker::Model;

/// The most rows of a trace.
pub const MOST_ROWS: u32 = 100000;

// Room for any row whose numbers have at most twenty digits, so that the record never grows for a valid row.
const RECORD_BYTES: usize = 96;

/// The version of a trace and its rows, in order: at most [`MOST_ROWS`], each with its numbers in their ranges and allowed by
/// those before it.
#[derive(Debug, Drop)]
pub struct Trace {
    version: u32,
    rows: Vec<Row>,
}

impl Model for Trace {
    ghost Value = { TraceView };

    ghost view = { λ trace. record { version = trace.version; rows = trace.rows.items } };

    ghost invariant = { λ trace. IsWithin 1 2 trace.version × (length trace.rows.items ≤ 100000) × AcceptedAfter [] trace.rows.items };
}

impl Trace {
    /// The rows, in order. Row 1 is the first.
    pub fn rows(&self) -> &[Row]
        ensures rows { result.now ≡ self.now.rows }
        ensures count { length result.now ≤ 100000 }
        ensures accepted { AcceptedAfter [] result.now }
    {
        self.rows.as_slice()
    }

    /// The version, 1 or 2, by its first record.
    pub fn version(&self) -> u32
        ensures version { result ≡ self.now.version }
        ensures range { IsWithin 1 2 result }
    {
        self.version
    }
}

// Appends the row of a record, or returns the first of its errors 2 to 8.
#[inline(never)]
fn add_row(
    version: u32,
    number: u32,
    fields: &ByteRecord,
    switches: &mut Switches,
    rows: &mut Vec<Row>,
) -> Result<(), TraceFault>
    requires number { number ≡ length (vec_items rows.old) + 1 }
    requires room { length (vec_items rows.old) < 100000 }
    requires so_far { IsSoFar switches.old.of rows.old }
    ensures { MatchResult result
        (λ _. AddsNext version (fields_of fields.now) switches.new.of rows.old rows.new)
        (λ fault. with_row version (vec_items rows.old) (fields_of fields.now) ≡ Err fault) }
{
    let row = row_of(version, number, fields)?;
    switches.admit(number, row)?;
    rows.push_reserved(row);
    Ok(())
}

// Appends the plain rows at the start of a text, up to the first one with an error, and returns the text after them.
#[inline(never)]
fn add_plain<'t>(
    version: u32,
    text: &'t [u8],
    switches: &mut Switches,
    rows: &mut Vec<Row>,
) -> &'t [u8]
    requires { IsSoFar switches.old.of rows.old }
    ensures so_far { IsSoFar switches.new.of rows.new }
    ensures behind { (used : List ℕ) × (text.now ≡ used ++ result.now) }
    ensures same { (more : List ℕ)
        → rows_with version (vec_items rows.old) state.StartRecord (text.now ++ more)
        ≡ rows_with version (vec_items rows.new) state.StartRecord (result.now ++ more) }
{
    let mut left = text;
    for before in rows.len() as u32..MOST_ROWS {
        let Some((row, behind)) = plain_row(version, left) else {
            break;
        };
        if !switches.accept(before + 1, row) {
            break;
        }
        rows.push_reserved(row);
        left = behind;
    }
    left
}

// Appends the plain rows among the bytes that are read.
fn add_held<R: Read>(
    version: u32,
    block: &mut Block<R>,
    switches: &mut Switches,
    rows: &mut Vec<Row>,
)
    requires { IsSoFar switches.old.of rows.old }
    ensures so_far { IsSoFar switches.new.of rows.new }
    ensures same { (bytes : List ℕ) → Holds R.remaining block.old bytes
        → (left : List ℕ) × Holds R.remaining block.new left
        × (rows_with version (vec_items rows.old) state.StartRecord bytes
        ≡ rows_with version (vec_items rows.new) state.StartRecord left) }
{
    let left = add_plain(version, block.text(), switches, rows).len();
    let used = block.text().len() - left;
    block.advance(used);
}

// Appends the plain rows of a block, up to the first record that isn't plain or has an error.
fn add_block<R: Read>(
    alloc: Global,
    version: u32,
    block: &mut Block<R>,
    switches: &mut Switches,
    rows: &mut Vec<Row>,
) -> Result<(), TraceFault>
    requires { IsSoFar switches.old.of rows.old }
    ensures so_far { OnOk result (IsSoFar switches.new.of rows.new) }
    ensures same { OnOk result ((bytes : List ℕ) → Holds R.remaining block.old bytes
        → (left : List ℕ) × Holds R.remaining block.new left
        × (rows_with version (vec_items rows.old) state.StartRecord bytes
        ≡ rows_with version (vec_items rows.new) state.StartRecord left)) }
    ensures fault { IfErr result IsReadFailure }
{
    for _ in 0..u64::MAX {
        add_held(version, block, switches, rows);
        if block.has_line() {
            return Ok(());
        }
        if !block.refill(alloc)? {
            return Ok(());
        }
    }
    Ok(())
}

// Returns the trace of the rows so far and of those that remain in the reader, or the first error among these.
fn read_rows<R: Read>(
    alloc: Global,
    version: u32,
    reader: &mut Reader<R>,
    mut switches: Switches,
    mut rows: Vec<Row>,
) -> Result<Trace, TraceFault>
    requires reader { IsOpen reader.old }
    requires version { IsWithin 1 2 version }
    requires so_far { IsSoFar switches.of rows }
    ensures version { IfOk result (λ trace. trace.version ≡ version) }
    ensures rows { IfOk result (λ trace. (bytes : List ℕ) → StandsAt R.remaining reader.old bytes
        → rows_with version (vec_items rows) (reader_state reader.old) bytes ≡ Ok trace.rows) }
    ensures fault { IfErr result (λ fault. (bytes : List ℕ) → StandsAt R.remaining reader.old bytes
        → IsReadFailure fault
        ⊎ (rows_with version (vec_items rows) (reader_state reader.old) bytes ≡ Err fault)) }
{
    let mut fields = ByteRecord::with_capacity(alloc, RECORD_BYTES, 4)?;
    for before in rows.len() as u32..MOST_ROWS + 1 {
        match next_record(reader, &mut fields) {
            NextRecord::Record => {}
            NextRecord::End => break,
            NextRecord::ReadFailed => return Err(TraceFault::ReadFailed),
            NextRecord::OutOfMemory => return Err(TraceFault::OutOfMemory),
        }
        if before == MOST_ROWS {
            return Err(TraceFault::TooManyRows);
        }
        add_row(version, before + 1, &fields, &mut switches, &mut rows)?;
    }
    Ok(Trace { version, rows })
}

// Returns the trace of a block after the titles.
fn plain_trace<R: Read + Drop>(
    alloc: Global,
    version: u32,
    mut block: Block<R>,
) -> Result<Trace, TraceFault>
    requires { IsWithin 1 2 version }
    ensures version { IfOk result (λ trace. trace.version ≡ version) }
    ensures rows { IfOk result (λ trace. (bytes : List ℕ) → Holds R.remaining block bytes
        → rows_with version [] state.StartRecord bytes ≡ Ok trace.rows) }
    ensures fault { IfErr result (λ fault. (bytes : List ℕ) → Holds R.remaining block bytes
        → IsReadFailure fault ⊎ (rows_with version [] state.StartRecord bytes ≡ Err fault)) }
{
    // Room for all rows at once: memory that is never written costs nothing, and no row is moved.
    let mut rows = Vec::with_capacity(alloc, MOST_ROWS as usize)?;
    let mut switches = Switches::new();
    add_block(alloc, version, &mut block, &mut switches, &mut rows)?;
    let mut reader = block.records_left(alloc)?;
    read_rows(alloc, version, &mut reader, switches, rows)
}

// Returns the trace of a reader of a text of which nothing was consumed.
fn record_trace<R: Read>(alloc: Global, reader: &mut Reader<R>) -> Result<Trace, TraceFault>
    requires reader { IsOpen reader.old }
    ensures rows { IfOk result (λ trace. (bytes : List ℕ) → StandsAt R.remaining reader.old bytes
        → trace_of (records_from default_config 100002 (reader_state reader.old) bytes)
        ≡ Ok trace.rows) }
    ensures version { IfOk result (λ trace. (bytes : List ℕ) → StandsAt R.remaining reader.old bytes
        → trace.version
        ≡ version_in (records_from default_config 100002 (reader_state reader.old) bytes)) }
    ensures fault { IfErr result (λ fault. (bytes : List ℕ) → StandsAt R.remaining reader.old bytes
        → IsReadFailure fault
        ⊎ (trace_of (records_from default_config 100002 (reader_state reader.old) bytes)
        ≡ Err fault)) }
{
    let mut fields = ByteRecord::with_capacity(alloc, RECORD_BYTES, 4)?;
    match next_record(reader, &mut fields) {
        NextRecord::Record => {}
        NextRecord::End => return Err(TraceFault::BadHeader),
        NextRecord::ReadFailed => return Err(TraceFault::ReadFailed),
        NextRecord::OutOfMemory => return Err(TraceFault::OutOfMemory),
    }
    let Some(version) = version_of(&fields) else {
        return Err(TraceFault::BadHeader);
    };
    let rows = Vec::with_capacity(alloc, MOST_ROWS as usize)?;
    read_rows(alloc, version, reader, Switches::new(), rows)
}

/// Reads the rows of a trace, or its first error. It asks for at most 100002 records, of any length. It reads ahead of the row
/// that decides, and a read error there is its result. After an error it keeps nothing.
pub fn read_trace<R: Read + Drop>(alloc: Global, source: R) -> Result<Trace, TraceFault>
    // The rows are those of the bytes read, if the source's bytes are known.
    ensures rows { IfOk result
        (λ trace. (bytes : List ℕ) → R.remaining source ≡ Some bytes
        → trace_of (records_of bytes) ≡ Ok trace.rows) }
    ensures version { IfOk result
        (λ trace. (bytes : List ℕ) → R.remaining source ≡ Some bytes
        → trace.version ≡ version_in (records_of bytes)) }
    // An error is the first one in the bytes read, unless the reader or an allocation failed.
    ensures fault { IfErr result (λ fault. (bytes : List ℕ) → R.remaining source ≡ Some bytes
        → IsReadFailure fault ⊎ (trace_of (records_of bytes) ≡ Err fault)) }
{
    let mut block = Block::new(alloc, source);
    block.fill_line(alloc)?;
    let Some((version, left)) = plain_titles(block.text()) else {
        return record_trace(alloc, &mut block.records(alloc));
    };
    let used = block.text().len() - left.len();
    block.advance(used);
    plain_trace(alloc, version, block)
}
