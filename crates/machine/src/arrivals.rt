//! The arrivals of a text, one row at a time.

ghost use Rattle.std.specs.Prelude.{◌≡◌, ◌⊎◌, false, ℕ, List, None, Some, Err, IfErr, IfOk, IfSome};
ghost use Rattle.csv.specs.Machine.{ends_at_end};
ghost use Rattle.csv.specs.Reading.{reader_state};
ghost use Rattle.csv.specs.declared.parser.State.{State};
ghost use Rattle.csv.specs.declared.parser.State.TheVariants as state;
ghost use Rattle.device_rows.specs.Block.{Holds, left_remaining};
ghost use Rattle.device_rows.specs.Source.{HasCause, IsOpen, StandsAt};
ghost use Rattle.device_rows.specs.Trace.{records_of};
ghost use Rattle.machine.specs.Arrivals.{IsInRange, arrivals_of};
ghost use Rattle.machine.specs.Fault.{IsArrivalReadFailure};
ghost use Rattle.machine.specs.Reading.{IsByRecords, IsOpenAt, IsTitled, LeavesSame, LeftAt, TakesPlain, records_in};
ghost use Rattle.text_io.specs.Written.{IsFaultBy};

use crate::arrival::{Arrival, arrival_of, is_title};
use crate::fault::MachineFault;
use crate::plain::{after_header, plain_arrival};
use csv::ByteRecord;
use device_rows::{Block, NextRecord, ReadError, RecordsLeft, next_record};
use machine_model::MachineSettings;
use std::alloc::{AllocError, Global};
use std::io::Read;
use std::mem;

// Room for any row with four numbers of at most twenty digits, so that the record never grows for a valid row.
const RECORD_BYTES: usize = 96;

// The source of the next rows.
#[derive(Drop)]
enum ArrivalRows<R> {
    // A block of bytes that were read ahead: all rows so far were plain.
    Plain(Block<R>),
    // `csv`, from the first row on that isn't plain or has an error.
    Records(RecordsLeft<R>),
    // None, because an allocation failed.
    Failed,
}

/// The arrivals of a text, read one row at a time.
#[derive(Drop)]
pub struct Arrivals<R> {
    source: ArrivalRows<R>,
    alloc: Global,
    fields: ByteRecord,
    settings: MachineSettings,
    rows: u64,
    last: u64,
}

// Returns the rows after the header, read by `csv`.
fn titled<R: Read + Drop>(
    mut reader: RecordsLeft<R>,
    fields: &mut ByteRecord,
    settings: &MachineSettings,
) -> Result<ArrivalRows<R>, MachineFault>
    requires opened { IsOpen reader }
    requires state { reader_state reader ≡ state.StartRecord }
    ensures opened { IfOk result IsOpenAt }
    ensures title { IfOk result (λ rows. (bytes : List ℕ)
        → StandsAt (left_remaining R.remaining) reader bytes
        → IsTitled R.remaining settings.now rows
        (arrivals_of settings.now (records_in state.StartRecord bytes))) }
    ensures fault { IfErr result (λ fault. (bytes : List ℕ)
        → StandsAt (left_remaining R.remaining) reader bytes → IsArrivalReadFailure fault
        ⊎ (arrivals_of settings.now (records_in state.StartRecord bytes) ≡ Err fault)) }
{
    match next_record(&mut reader, fields) {
        NextRecord::Record => {}
        NextRecord::End => return Err(MachineFault::BadHeader),
        NextRecord::ReadFailed => return Err(MachineFault::ReadFailed),
        NextRecord::OutOfMemory => return Err(MachineFault::OutOfMemory),
    }
    if !is_title(settings.queues, fields) {
        return Err(MachineFault::BadHeader);
    }
    Ok(ArrivalRows::Records(reader))
}

// Returns the rows after the header of a text.
fn rows_of<R: Read + Drop>(
    alloc: Global,
    source: R,
    fields: &mut ByteRecord,
    settings: &MachineSettings,
) -> Result<ArrivalRows<R>, MachineFault>
    ensures opened { IfOk result IsOpenAt }
    ensures title { IfOk result (λ rows. (bytes : List ℕ) → R.remaining source ≡ Some bytes
        → IsTitled R.remaining settings.now rows (arrivals_of settings.now (records_of bytes))) }
    ensures fault { IfErr result (IsFaultBy IsArrivalReadFailure
        (λ bytes fault. arrivals_of settings.now (records_of bytes) ≡ Err fault)
        (R.remaining source)) }
{
    let mut block = Block::new(alloc, source);
    block.fill_line(alloc)?;
    let Some(rest) = after_header(settings.queues, block.text()) else {
        return titled(block.records(alloc), fields, settings);
    };
    let used = block.text().len() - rest.len();
    block.advance(used);
    Ok(ArrivalRows::Plain(block))
}

// Returns the plain row at the start of the unread bytes of a block, if there is one.
#[inline(always)]
fn take_plain<R: Read>(
    block: &mut Block<R>,
    settings: &MachineSettings,
    row: u64,
    last: u64,
) -> Option<Arrival>
    ensures row { IfSome result (λ arrival. (bytes : List ℕ) → Holds R.remaining block.old bytes
        → TakesPlain R.remaining settings.now row last bytes arrival block.new) }
    ensures none { result ≡ None → block.new ≡ block.old }
    ensures range { IfSome result (IsInRange settings.now.processors) }
{
    let (arrival, rest) = plain_arrival(settings, row, last, block.text())?;
    let left = rest.len();
    let used = block.text().len() - left;
    block.advance(used);
    Some(arrival)
}

// Returns the next row of a block, if it is plain. Reads more bytes if the block has no whole line.
#[inline(always)]
fn next_plain<R: Read>(
    alloc: Global,
    block: &mut Block<R>,
    settings: &MachineSettings,
    row: u64,
    last: u64,
) -> Result<Option<Arrival>, ReadError>
    ensures row { IfOk result (λ found. IfSome found (λ arrival. (bytes : List ℕ)
        → Holds R.remaining block.old bytes
        → TakesPlain R.remaining settings.now row last bytes arrival block.new)) }
    ensures none { IfOk result (λ found. found ≡ None → (bytes : List ℕ)
        → Holds R.remaining block.old bytes → Holds R.remaining block.new bytes) }
    ensures range { IfOk result (λ found. IfSome found (IsInRange settings.now.processors)) }
    ensures fault { IfErr result HasCause }
{
    if let Some(arrival) = take_plain(block, settings, row, last) {
        return Ok(Some(arrival));
    }
    block.fill_line(alloc)?;
    Ok(take_plain(block, settings, row, last))
}

// Returns a reader of the same rows by `csv`.
fn by_records<R: Read + Drop>(
    alloc: Global,
    rows: ArrivalRows<R>,
) -> Result<ArrivalRows<R>, AllocError>
    requires { IsOpenAt rows }
    ensures opened { IfOk result IsByRecords }
    ensures same { IfOk result (λ after. (state : State) (bytes : List ℕ)
        → LeftAt R.remaining rows state bytes → ends_at_end state ≡ false
        → LeavesSame R.remaining after state bytes) }
{
    match rows {
        ArrivalRows::Plain(block) => Ok(ArrivalRows::Records(block.records_left(alloc)?)),
        left => Ok(left),
    }
}

impl<R: Read + Drop> Arrivals<R> {
    ghost use Rattle.std.specs.Prelude.{◌≡◌, ◌≤◌, ◌+◌, ◌∷◌, ◌++◌, ◌⊎◌, [], ℕ, List, None, Some, Err, IfErr, IfOk, IfSome, OnOk, Result};
    ghost use Rattle.device_rows.specs.Trace.{records_of};
    ghost use Rattle.machine.specs.Arrivals.{IsInRange, arrivals_of};
    ghost use Rattle.machine.specs.Fault.{IsArrivalReadFailure};
    ghost use Rattle.machine.specs.Reading.{GivesNextArrival, HasGiven, IsByRecords, IsOpenAt};
    ghost use Rattle.machine.specs.declared.arrival.Arrival.{Arrival};
    ghost use Rattle.machine.specs.declared.fault.MachineFault.{MachineFault};
    ghost use Rattle.text_io.specs.Written.{IsFaultBy};

    /// Reads the header of a text of arrivals, for a machine with these settings.
    ///
    /// # Errors
    ///
    /// `BadHeader` if the first record isn't `moment,device,bytes`, or `moment,device,bytes,flow` with several queues per
    /// device; `ReadFailed`, `OutOfMemory`.
    pub fn new(
        alloc: Global,
        source: R,
        settings: &MachineSettings,
    ) -> Result<Arrivals<R>, MachineFault>
        ensures opened { IfOk result (λ arrivals. IsOpenAt arrivals.source) }
        ensures settings { IfOk result (λ arrivals. arrivals.settings ≡ settings.now) }
        ensures start { IfOk result (λ arrivals. (bytes : List ℕ) → R.remaining source ≡ Some bytes
            → HasGiven R.remaining arrivals [] (arrivals_of settings.now (records_of bytes))) }
        ensures fault { IfErr result (IsFaultBy IsArrivalReadFailure
            (λ bytes fault. arrivals_of settings.now (records_of bytes) ≡ Err fault)
            (R.remaining source)) }
    {
        let mut fields = ByteRecord::with_capacity(alloc, RECORD_BYTES, 4)?;
        let rows = rows_of(alloc, source, &mut fields, settings)?;
        Ok(Arrivals {
            source: rows,
            alloc,
            fields,
            settings: *settings,
            rows: 0,
            last: 0,
        })
    }

    // Counts the row of an arrival.
    fn count(&mut self, row: u64, arrival: Arrival)
        ensures { self.new ≡ record self.old { rows = row; last = arrival.moment } }
    {
        self.rows = row;
        self.last = arrival.moment;
    }

    // Uses `csv` from here on. It is a function of its own because the reader takes some KB of stack, which are cleared at each
    // call.
    #[inline(never)]
    fn leave_plain(&mut self) -> Result<(), AllocError>
        requires { IsOpenAt self.old.source }
        ensures opened { OnOk result (IsByRecords self.new.source) }
        ensures same { OnOk result ((earlier : List Arrival)
            (all : Result (List Arrival) MachineFault) → HasGiven R.remaining self.old earlier all
            → HasGiven R.remaining self.new earlier all) }
        ensures rows { self.new.rows ≡ self.old.rows }
        ensures settings { self.new.settings ≡ self.old.settings }
    {
        let rows = mem::replace(&mut self.source, ArrivalRows::Failed);
        self.source = by_records(self.alloc, rows)?;
        Ok(())
    }

    // Returns the next arrival if its row is plain. Otherwise `csv` reads from here on.
    #[inline(always)]
    fn plain(&mut self, row: u64) -> Result<Option<Arrival>, MachineFault>
        requires opened { IsOpenAt self.old.source }
        requires row { row ≡ self.old.rows + 1 }
        ensures opened { IfOk result (λ found. IfSome found (λ _. IsOpenAt self.new.source)) }
        ensures arrival { IfOk result (λ found. IfSome found (λ arrival. (earlier : List Arrival)
            (all : Result (List Arrival) MachineFault) → HasGiven R.remaining self.old earlier all
            → HasGiven R.remaining self.new (earlier ++ arrival ∷ []) all)) }
        ensures none { IfOk result (λ found. found ≡ None → IsByRecords self.new.source
            × (self.new.rows ≡ self.old.rows)) }
        ensures same { IfOk result (λ found. found ≡ None → (earlier : List Arrival)
            (all : Result (List Arrival) MachineFault) → HasGiven R.remaining self.old earlier all
            → HasGiven R.remaining self.new earlier all) }
        ensures range { IfOk result (λ found.
            IfSome found (IsInRange self.old.settings.processors)) }
        ensures settings { self.new.settings ≡ self.old.settings }
        ensures fault { IfErr result IsArrivalReadFailure }
    {
        let ArrivalRows::Plain(block) = &mut self.source else {
            return Ok(None);
        };
        let found = next_plain(self.alloc, block, &self.settings, row, self.last)?;
        let Some(arrival) = found else {
            self.leave_plain()?;
            return Ok(None);
        };
        self.count(row, arrival);
        Ok(Some(arrival))
    }

    // Returns the next arrival, read by `csv`.
    fn record(&mut self, row: u64) -> Result<Option<Arrival>, MachineFault>
        requires opened { IsByRecords self.old.source }
        requires row { row ≡ self.old.rows + 1 }
        ensures opened { IfOk result (λ next. IfSome next (λ _. IsOpenAt self.new.source)) }
        ensures arrival { IfOk result (λ next. (earlier : List Arrival)
            (all : Result (List Arrival) MachineFault) → HasGiven R.remaining self.old earlier all
            → GivesNextArrival R.remaining self.new earlier all next) }
        ensures range { IfOk result (λ next. IfSome next (IsInRange self.old.settings.processors)) }
        ensures settings { self.new.settings ≡ self.old.settings }
        ensures fault { IfErr result (λ fault. (earlier : List Arrival)
            (all : Result (List Arrival) MachineFault) → HasGiven R.remaining self.old earlier all
            → IsArrivalReadFailure fault ⊎ (all ≡ Err fault)) }
    {
        let ArrivalRows::Records(reader) = &mut self.source else {
            unreachable!()
        };
        match next_record(reader, &mut self.fields) {
            NextRecord::Record => {}
            NextRecord::End => return Ok(None),
            NextRecord::ReadFailed => return Err(MachineFault::ReadFailed),
            NextRecord::OutOfMemory => return Err(MachineFault::OutOfMemory),
        }
        let arrival = arrival_of(&self.settings, row, self.last, &self.fields)?;
        self.count(row, arrival);
        Ok(Some(arrival))
    }

    /// Returns the next arrival, or `None` at the end of the text.
    ///
    /// # Errors
    ///
    /// The error of the row, `ReadFailed` or `OutOfMemory`. It may not be called after an error.
    pub fn next(&mut self) -> Result<Option<Arrival>, MachineFault>
        requires { IsOpenAt self.old.source }
        ensures opened { IfOk result (λ next. IfSome next (λ _. IsOpenAt self.new.source)) }
        ensures arrival { IfOk result (λ next. (earlier : List Arrival)
            (all : Result (List Arrival) MachineFault) → HasGiven R.remaining self.old earlier all
            → GivesNextArrival R.remaining self.new earlier all next) }
        ensures range { IfOk result (λ next. IfSome next (IsInRange self.old.settings.processors)) }
        ensures settings { self.new.settings ≡ self.old.settings }
        ensures fault { IfErr result (λ fault. (earlier : List Arrival)
            (all : Result (List Arrival) MachineFault) → HasGiven R.remaining self.old earlier all
            → IsArrivalReadFailure fault ⊎ (all ≡ Err fault)) }
    {
        // no text has this many rows
        let Some(row) = self.rows.checked_add(1) else {
            return Err(MachineFault::ReadFailed);
        };
        if let Some(arrival) = self.plain(row)? {
            return Ok(Some(arrival));
        }
        self.record(row)
    }
}
