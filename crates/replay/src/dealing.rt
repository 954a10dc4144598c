//! Splits the rows of a trace by device, in one pass.

ghost use Rattle.std.specs.Prelude.{◌≡◌, ◌<◌, ◌≤◌, ◌++◌, ◌∷◌, [], List, IfOk, OnOk, slice_index_or, slice_set, vec_len};
ghost use Rattle.device_rows.specs.declared.row.Row.{Row};
ghost use Rattle.replay.specs.Dealing.{AreScripts, lists};
ghost use Rattle.replay.specs.Script.{is_act_of, is_open, openings_of, opens};

use device_places::TABLE_LEN;
use device_rows::{Row, RowEvent};
use std::alloc::{AllocError, Global};
use std::mem;

fn is_open(row: &Row) -> bool
    ensures { result ≡ is_open row.now.event }
{
    matches!(row.event, RowEvent::Opened)
}

/// Returns whether the row opens the device.
pub(crate) fn opens(row: &Row, device: u32) -> bool
    ensures { result ≡ opens device row.now }
{
    is_open(row) && row.device == device
}

/// Returns whether the row is of this device and doesn't open it.
pub(crate) fn is_act_of(row: &Row, device: u32) -> bool
    ensures { result ≡ is_act_of device row.now }
{
    !is_open(row) && row.device == device
}

/// Returns the open rows among these, in order.
pub fn openings_of(alloc: Global, rows: &[Row]) -> Result<Vec<Row>, AllocError>
    ensures { IfOk result (λ openings. openings.items ≡ openings_of rows.now) }
{
    let mut openings = Vec::new(alloc);
    for row in rows {
        if is_open(row) {
            openings.push(*row)?;
        }
    }
    Ok(openings)
}

// Returns an empty script (list of rows) for each of the sixteen devices.
fn no_scripts(alloc: Global) -> Result<Vec<Vec<Row>>, AllocError>
    ensures scripts { IfOk result (λ scripts. AreScripts (lists scripts) []) }
    ensures count { IfOk result (λ scripts. vec_len scripts ≡ 16) }
{
    let mut scripts = Vec::new(alloc);
    for _ in 1..TABLE_LEN {
        scripts.push(Vec::new(alloc))?;
    }
    Ok(scripts)
}

// Appends a row to the script of its device. If the row opens the device, it isn't appended, but room for this many rows is
// reserved there.
fn deal(row: &Row, room: usize, scripts: &mut Vec<Vec<Row>>) -> Result<(), AllocError>
    requires { vec_len scripts.old ≡ 16 }
    ensures scripts { OnOk result
        ((rows : List Row) → AreScripts (lists scripts.old) rows
        → AreScripts (lists scripts.new) (rows ++ row.now ∷ [])) }
    ensures count { vec_len scripts.new ≡ 16 }
{
    if row.device == 0 || row.device >= TABLE_LEN {
        return Ok(());
    }
    if is_open(row) {
        scripts[row.device as usize - 1].reserve(room)?;
        return Ok(());
    }
    scripts[row.device as usize - 1].push(*row)?;
    Ok(())
}

/// Returns, for each of the sixteen devices, its rows after its open row: those of device 1 are at index 0.
pub fn scripts_of(alloc: Global, rows: &[Row]) -> Result<Vec<Vec<Row>>, AllocError>
    ensures scripts { IfOk result (λ scripts. AreScripts (lists scripts) rows.now) }
    ensures count { IfOk result (λ scripts. vec_len scripts ≡ 16) }
{
    let mut scripts = no_scripts(alloc)?;
    for row in rows {
        // reserve room for all rows at once: memory that is never written costs nothing, and no row is moved later
        deal(row, rows.len(), &mut scripts)?;
    }
    Ok(scripts)
}

/// Removes and returns the script at an index.
pub fn take_script(alloc: Global, scripts: &mut Vec<Vec<Row>>, place: usize) -> Vec<Row>
    requires { place < vec_len scripts.old }
    ensures script { result.items ≡ slice_index_or (lists scripts.old) place [] }
    ensures scripts { lists scripts.new ≡ slice_set (lists scripts.old) place [] }
    ensures count { vec_len scripts.new ≡ vec_len scripts.old }
{
    mem::replace(&mut scripts[place], Vec::new(alloc))
}
