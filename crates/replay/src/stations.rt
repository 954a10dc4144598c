//! The stations of a trace, and their run.

ghost use Rattle.std.specs.Prelude.{◌≡◌, ◌≢◌, ◌≤◌, ◌⊎◌, ◌+◌, ◌++◌, ◌∷◌, ℕ, [], List, None, Some, filter, IfErr, IfOk, OnOk, length, vec_items};
ghost use Rattle.std.specs.List.{All, AllZip};
ghost use Rattle.std.specs.Borrow.{Bor};
ghost use Rattle.device_places.specs.Range.{IsWithin};
ghost use Rattle.device_rows.specs.Trace.{AcceptedAfter};
ghost use Rattle.device_rows.specs.declared.row.Row.{Row};
ghost use Rattle.poll_engine.specs.Asks.{IsAsked};
ghost use Rattle.poll_engine.specs.Opens.{IsStation};
ghost use Rattle.replay.specs.ThreadsAnswer.{IsThreadsOutside, IsReportedAs, ring_fault};
ghost use Rattle.replay.specs.Script.{opening_of, script_of};
ghost use Rattle.replay.specs.ThreadsStations.{AreRunBy, IsStationEnd, IsStationOf, is_small, small_fault};
ghost use Rattle.text_io.specs.declared.fault.ReplayFault.TheVariants.{OutputFailed};
ghost use Rattle.replay.specs.ThreadsReport.{is_opened, opened_devices};

use crate::dealing::{openings_of, scripts_of, take_script};
use crate::script::{ScriptDevice, opening_of};
use device_places::TABLE_LEN;
use device_rows::Row;
use poll_engine::{Finished, Gate, Station, WorkFault, run_workers};
use std::alloc::{AllocError, Global};
use std::sync::Wait;
use std::thread::Threads;
use text_io::{ReplayFault, ReplaySettings};

// Returns the station of the device that this row opens, with the device's rows after it.
fn station_of(
    alloc: Global,
    number: u32,
    opening: Row,
    script: Vec<Row>,
) -> Result<Station<ScriptDevice>, AllocError>
    requires places { IsWithin 1 65536 opening.value }
    requires count { length script.items ≤ 100000 }
    requires number { IsWithin 1 16 number }
    ensures station { (rows : List Row) → opening_of number rows ≡ Some opening
        → script.items ≡ script_of number rows
        → IfOk result (λ station. IsStationOf rows number station) }
    ensures lawful { IfOk result (λ station. IsStation station) }
{
    let device = ScriptDevice::of(alloc, opening, script)?;
    Ok(Station {
        number,
        capacity: device.capacity() as usize,
        thread: device.is_threaded(),
        device,
    })
}

// Adds the station of a device with its script (its list of rows), if one of the open rows opens it.
fn add_station(
    alloc: Global,
    openings: &[Row],
    number: u32,
    script: Vec<Row>,
    stations: &mut Vec<Station<ScriptDevice>>,
) -> Result<(), AllocError>
    requires places { (opening : Row) → opening_of number openings.now ≡ Some opening
        → IsWithin 1 65536 opening.value }
    requires count { length script.items ≤ 100000 }
    requires number { IsWithin 1 16 number }
    ensures stations { OnOk result
        ((rows : List Row) → opening_of number openings.now ≡ opening_of number rows
        → script.items ≡ script_of number rows
        → (devices : List ℕ) → AllZip (IsStationOf rows) devices (vec_items stations.old)
        → AllZip (IsStationOf rows) (devices ++ filter (is_opened rows) (number ∷ []))
        (vec_items stations.new)) }
    ensures lawful { OnOk result
        (All IsStation (vec_items stations.old) → All IsStation (vec_items stations.new)) }
{
    if let Some(opening) = opening_of(openings, number) {
        stations.push(station_of(alloc, number, opening, script)?)?;
    }
    Ok(())
}

// Returns the stations of the devices that the rows open, by increasing number.
fn stations_of(alloc: Global, rows: &[Row]) -> Result<Vec<Station<ScriptDevice>>, AllocError>
    requires accepted { AcceptedAfter [] rows.now }
    requires count { length rows.now ≤ 100000 }
    ensures stations { IfOk result
        (λ stations. AllZip (IsStationOf rows.now) (opened_devices rows.now) (vec_items stations)) }
    ensures lawful { IfOk result (λ stations. All IsStation (vec_items stations)) }
{
    let openings = openings_of(alloc, rows)?;
    let mut scripts = scripts_of(alloc, rows)?;
    let mut stations = Vec::with_capacity(alloc, TABLE_LEN as usize)?;
    for number in 1..TABLE_LEN {
        let script = take_script(alloc, &mut scripts, number as usize - 1);
        add_station(alloc, &openings, number, script, &mut stations)?;
    }
    Ok(stations)
}

fn is_small(station: &Station<ScriptDevice>) -> bool
    ensures { result ≡ is_small station.now }
{
    station.capacity < station.device.packets() as usize
}

// Returns an error for the first station at which more packets arrive than its ring has room for.
fn ring_fault(stations: &[Station<ScriptDevice>]) -> Option<ReplayFault>
    ensures { result ≡ small_fault stations.now }
{
    for station in stations {
        if is_small(station) {
            return Some(ReplayFault::RingTooSmall {
                device: station.number,
                needs: station.device.packets(),
            });
        }
    }
    None
}

// Returns the error of the replay that reports an error of a run.
fn work_fault(fault: WorkFault) -> ReplayFault
    ensures { IsReportedAs fault result }
{
    match fault {
        WorkFault::OutOfMemory => AllocError.into(),
        WorkFault::GateShut => ReplayFault::GateShut,
        WorkFault::SpawnFailed => ReplayFault::SpawnFailed,
    }
}

/// Runs the devices that the rows open, by increasing number.
pub(crate) fn run_rows<P, G>(
    rt: &P,
    alloc: Global,
    rows: &[Row],
    settings: &ReplaySettings,
    gate: &G,
) -> Result<Vec<Finished<ScriptDevice>>, ReplayFault>
where
    P: Threads + Wait + Sync,
    G: Gate + Sync,
    requires accepted { AcceptedAfter [] rows.now }
    requires count { length rows.now ≤ 100000 }
    ensures ends { IfOk result
        (λ all. AllZip (IsStationEnd rows.now) (opened_devices rows.now) (vec_items all)) }
    ensures polled { IfOk result
        (λ all. AreRunBy (Bor P) (IsAsked G.answers gate.now) settings.now rows.now
        (vec_items all)) }
    ensures rings { OnOk result (ring_fault rows.now ≡ None) }
    ensures fault { IfErr result
        (λ fault. IsThreadsOutside G.may_shut fault ⊎ (ring_fault rows.now ≡ Some fault)) }
    ensures unwritten { IfErr result (λ fault. fault ≢ OutputFailed) }
{
    let stations = stations_of(alloc, rows)?;
    if let Some(fault) = ring_fault(&stations) {
        return Err(fault);
    }
    let ReplaySettings {
        pollers,
        budget,
        weight,
        window,
    } = *settings;
    match run_workers(rt, alloc, stations, pollers, budget, weight, window, gate) {
        Ok(finished) => Ok(finished),
        Err(fault) => Err(work_fault(fault)),
    }
}
