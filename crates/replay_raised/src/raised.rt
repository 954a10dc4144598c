//! The rows of a trace with the runs that the kernel adds.

ghost use Rattle.std.specs.Prelude.{◌≡◌, ◌≢◌, ◌⊎◌, ◌≤◌, [], Ok, Err, IfOk, IfErr, OnOk, length, true, vec_capacity};
ghost use Rattle.device_rows.specs.Row.{device_fits, value_fits};
ghost use Rattle.device_rows.specs.Trace.{AcceptedAfter};
ghost use Rattle.replay_raised.specs.Raised.{RaisedIsTrace, is_last_run, is_run_at, raised_rows};
ghost use Rattle.text_io.specs.Outside.{IsReplayOutOfMemory};
ghost use Rattle.text_io.specs.declared.fault.ReplayFault.TheVariants.{OutputFailed};

use device_bench::{SerialBench, SerialReceive};
use device_rows::{MOST_ROWS, Row, TraceFault};
use replay_rows::{Replay, is_softirq, room_for_lines};
use std::alloc::{AllocError, Global};
use text_io::{ReplayFault, ReplaySettings};

/// The rows so far, with those that were added, and a replay of them.
#[derive(Drop)]
pub(crate) struct Raising {
    replay: Replay<SerialReceive>,
    rows: Vec<Row>,
    // No row is moved, and the last row has room.
    ghost room: { 100000 ≤ vec_capacity rows },
}

impl Raising {
    ghost use Rattle.std.specs.Prelude.{◌≡◌, ◌≢◌, ◌⊎◌, ◌==◌, Ok, Err, IfOk, IfErr, OnOk, length};
    ghost use Rattle.replay_raised.specs.Raised.{and_again, and_row, no_rows};
    ghost use Rattle.replay_raised.specs.Raising.{raised_so_far};

    // Returns a raise before its first row.
    fn new(alloc: Global, rows: &[Row]) -> Result<Raising, AllocError>
        ensures { IfOk result (λ raising. raised_so_far raising ≡ no_rows) }
    {
        Ok(Raising {
            replay: Replay::new(SerialBench::new(alloc)?, room_for_lines(alloc, rows)?),
            rows: Vec::with_capacity(alloc, MOST_ROWS as usize)?,
        })
    }

    // Returns whether the poll list is empty.
    fn has_emptied(&self) -> bool
        ensures { result ≡ (length (raised_so_far self.now).state.list == 0) }
    {
        self.replay.list().is_empty()
    }

    // Plays one more row.
    #[tactic(auto, unfolding(crate::specs::Raised::and_row))]
    fn play(
        &mut self,
        alloc: Global,
        settings: &ReplaySettings,
        row: &Row,
    ) -> Result<(), ReplayFault>
        requires device { device_fits row.now.event row.now.device ≡ true }
        requires value { value_fits row.now.event row.now.value ≡ true }
        ensures raised { OnOk result (and_row settings.now row.now (raised_so_far self.old)
            ≡ Ok (raised_so_far self.new)) }
        ensures fault { IfErr result (λ fault. IsReplayOutOfMemory fault
            ⊎ (and_row settings.now row.now (raised_so_far self.old) ≡ Err fault)) }
        ensures unwritten { IfErr result (λ fault. fault ≢ OutputFailed) }
    {
        if self.rows.len() >= MOST_ROWS as usize {
            return Err(ReplayFault::Trace(TraceFault::TooManyRows));
        }
        let number = self.rows.len() as u32 + 1;
        self.replay.play_row(alloc, settings, number, row)?;
        self.rows.push_reserved(*row);
        Ok(())
    }

    // Plays a run again while the poll list isn't empty, at most this many times.
    fn play_again(
        &mut self,
        alloc: Global,
        settings: &ReplaySettings,
        restarts: u32,
        row: &Row,
    ) -> Result<(), ReplayFault>
        requires device { device_fits row.now.event row.now.device ≡ true }
        requires value { value_fits row.now.event row.now.value ≡ true }
        ensures raised { OnOk result (and_again settings.now restarts row.now
            (raised_so_far self.old) ≡ Ok (raised_so_far self.new)) }
        ensures fault { IfErr result (λ fault. IsReplayOutOfMemory fault
            ⊎ (and_again settings.now restarts row.now (raised_so_far self.old) ≡ Err fault)) }
        ensures unwritten { IfErr result (λ fault. fault ≢ OutputFailed) }
    {
        let mut left = restarts;
        while left > 0 {
            if self.has_emptied() {
                return Ok(());
            }
            self.play(alloc, settings, row)?;
            left -= 1;
        }
        Ok(())
    }
}

// Returns whether the first of these rows is a run at this time.
fn is_run_at(moment: u64, rows: &[Row]) -> bool
    ensures { result ≡ is_run_at moment rows.now }
{
    match rows {
        [row, ..] => is_softirq(row.event) && row.moment == moment,
        [] => false,
    }
}

// Returns whether a row is a run that may be repeated. If the next row is a run at the same time, the trace has the added run
// already.
fn is_last_run(row: &Row, rows: &[Row]) -> bool
    ensures { result ≡ is_last_run row.now rows.now }
{
    is_softirq(row.event) && !is_run_at(row.moment, rows)
}

/// Returns the rows of a trace with the runs that the kernel adds: a softirq row that leaves devices on the poll list is
/// repeated until the list is empty, at most `restarts` times. A trace has at most 100000 rows, so with 100000 restarts or more
/// only the list decides.
///
/// A softirq row that is followed by one at the same time has its added run already, and isn't repeated.
///
/// # Errors
///
/// `TooManyRows` if there would be a row 100001; `Pending` if a row enables a device whose disable is still pending, with the
/// number of the row, for which added rows count too; `OutOfMemory`.
pub fn raise_rows(
    alloc: Global,
    settings: &ReplaySettings,
    restarts: u32,
    rows: &[Row],
) -> Result<Vec<Row>, ReplayFault>
    requires accepted { AcceptedAfter [] rows.now }
    requires count { length rows.now ≤ 100000 }
    ensures raised { IfOk result
        (λ all. raised_rows settings.now restarts rows.now ≡ Ok all.items) }
    ensures fault { IfErr result (λ fault. IsReplayOutOfMemory fault
        ⊎ (raised_rows settings.now restarts rows.now ≡ Err fault)) }
    ensures unwritten { IfErr result (λ fault. fault ≢ OutputFailed) }
    // They are rows that a trace can have.
    ensures accepted { IfOk result (λ all. AcceptedAfter [] all.items) }
    ensures count { IfOk result (λ all. length all.items ≤ 100000) }
{
    let mut raising = Raising::new(alloc, rows)?;
    for (i, row) in rows.iter().enumerate() {
        raising.play(alloc, settings, row)?;
        if is_last_run(row, &rows[i + 1..]) {
            raising.play_again(alloc, settings, restarts, row)?;
        }
    }
    let Raising { replay: _, rows } = raising;
    Ok(rows)
}

/// The rows with the added runs are rows that a trace can have, and a replay of them has no error.
pub fn raised_is_trace()
    ensures { RaisedIsTrace }
{}
