//! A device whose acts are its rows of a trace.

ghost use Rattle.std.specs.Prelude.{◌≡◌, ◌≤◌, ◌<◌, ◌+◌, ◌^◌, ℕ, List, [], ◌∷◌, Some, IfOk, OnOk, IsSome, filter, length, take};
ghost use Rattle.device_places.specs.Range.{IsWithin};
ghost use Rattle.device_bench.specs.Transmit.{ShowsTransmit, TransmitView, tx_counts};
ghost use Rattle.replay.specs.Script.{act_of, has_thread, is_rx, makes_threaded, opening_of, rx_of, script_of, transmit_by};
ghost use Rattle.replay.specs.ScriptShown.{side_of};

use crate::dealing::{is_act_of, opens};
use device_bench::{Transmit, TxCounts};
use device_rows::{Row, RowEvent, Trace};
use poll_engine::{Act, Device};
use rx_ring::Packet;
use std::alloc::{AllocError, Global};
use std::marker::Model;

/// A device of a trace. Its acts are its rows after its open row, in order. A tx or done row is applied to its transmit side
/// when its act is asked for.
#[derive(Drop)]
pub struct ScriptDevice {
    opening: Row,
    rows: Vec<Row>,
    made: u32,
    packets: u64,
    transmit: Transmit,
}

impl Model for ScriptDevice {
    ghost use Rattle.std.specs.Prelude.{vec_items};
    ghost use Rattle.replay.specs.ScriptShown.{IsScriptKept, Script};

    ghost Value = { Script };

    ghost view = { λ d. record { opening = d.opening; rows = d.rows.items; made = d.made } };

    ghost invariant = { λ d. IsScriptKept d.opening d.rows.items d.made d.packets d.transmit };
}

/// Returns the open row of a device, if it has one.
pub fn opening_of(rows: &[Row], device: u32) -> Option<Row>
    ensures { result ≡ opening_of device rows.now }
{
    for row in rows {
        if opens(row, device) {
            return Some(*row);
        }
    }
    None
}

// Returns the rows of a device after its open row.
fn script_of(alloc: Global, rows: &[Row], device: u32) -> Result<Vec<Row>, AllocError>
    ensures { IfOk result (λ script. script.items ≡ script_of device rows.now) }
{
    let mut script = Vec::new(alloc);
    for row in rows {
        if is_act_of(row, device) {
            script.push(*row)?;
        }
    }
    Ok(script)
}

fn is_rx(row: &Row) -> bool
    ensures { result ≡ is_rx row.now.event }
{
    matches!(row.event, RowEvent::Rx)
}

// Returns how many of the rows deliver a packet.
fn count_rx(rows: &[Row]) -> u32
    requires { length rows.now ≤ 100000 }
    ensures { result ≡ length (rx_of rows.now) }
{
    let mut packets = 0;
    for row in rows {
        if is_rx(row) {
            packets += 1;
        }
    }
    packets
}

fn makes_threaded(row: &Row) -> bool
    ensures { result ≡ makes_threaded row.now }
{
    matches!(row.event, RowEvent::Threaded) && row.value == 1
}

// Returns whether one of the rows makes its device threaded.
fn has_thread(rows: &[Row]) -> bool
    ensures { result ≡ has_thread rows.now }
{
    for row in rows {
        if makes_threaded(row) {
            return true;
        }
    }
    false
}

// Applies a row to the transmit side if it is a tx or done row, and returns what the interrupt handler does. `packets` counts
// the packets so far.
fn play(row: Row, packets: &mut u64, transmit: &mut Transmit) -> Act
    requires { packets.old < 2 ^ 63 }
    ensures act { result ≡ act_of (packets.old + 1) row.event row.value }
    ensures packets { packets.new ≡ packets.old + length (rx_of (row ∷ [])) }
    ensures transmit { (view : TransmitView) → ShowsTransmit transmit.old view
        → ShowsTransmit transmit.new (transmit_by row.event row view) }
{
    match row.event {
        RowEvent::Rx => {
            *packets += 1;
            return Act::Arrive(Packet {
                number: *packets,
                bytes: row.value,
            });
        }
        RowEvent::Tx => transmit.send(row.value),
        RowEvent::Finish => transmit.finish(row.value, row.moment),
        RowEvent::Disable => return Act::Disable,
        RowEvent::Enable => return Act::Enable,
        RowEvent::Threaded => return Act::SetThreaded(row.value == 1),
        RowEvent::Opened | RowEvent::Softirq | RowEvent::Kthread | RowEvent::Busy => {}
    }
    Act::Nothing
}

impl ScriptDevice {
    /// Returns the device with this number in a trace that opens it, before its first act. Fails only if an allocation fails.
    pub fn new(alloc: Global, trace: &Trace, device: u32) -> Result<ScriptDevice, AllocError>
        requires opened { IsSome (opening_of device trace.now.rows) }
        ensures opening { IfOk result
            (λ script. opening_of device trace.now.rows ≡ Some script.opening) }
        ensures rows { IfOk result (λ script. script.rows ≡ script_of device trace.now.rows) }
        ensures made { IfOk result (λ script. script.made ≡ 0) }
    {
        let rows = trace.rows();
        let Some(opening) = opening_of(rows, device) else {
            unreachable!()
        };
        ScriptDevice::of(alloc, opening, script_of(alloc, rows, device)?)
    }

    /// Returns the device with this open row and these rows after it, before its first act.
    pub fn of(alloc: Global, opening: Row, rows: Vec<Row>) -> Result<ScriptDevice, AllocError>
        requires places { IsWithin 1 65536 opening.value }
        requires count { length rows.items ≤ 100000 }
        ensures opening { IfOk result (λ script. script.opening ≡ opening) }
        ensures rows { IfOk result (λ script. script.rows ≡ rows.items) }
        ensures made { IfOk result (λ script. script.made ≡ 0) }
    {
        Ok(ScriptDevice {
            opening,
            rows,
            made: 0,
            packets: 0,
            transmit: Transmit::open(alloc, opening.value, opening.moment)?,
        })
    }

    /// The capacity of the device's rings.
    pub fn capacity(&self) -> u32
        ensures { result ≡ self.now.opening.value }
    {
        self.opening.value
    }

    /// Returns how many packets its acts deliver, those already made included.
    pub fn packets(&self) -> u32
        ensures { result ≡ length (rx_of self.now.rows) }
    {
        count_rx(self.rows.as_slice())
    }

    /// Returns whether one of its acts makes it threaded.
    pub fn is_threaded(&self) -> bool
        ensures { result ≡ has_thread self.now.rows }
    {
        has_thread(self.rows.as_slice())
    }

    /// The counts of the device's transmit side after the acts so far.
    pub fn tx_counts(&self) -> TxCounts
        ensures { result ≡ tx_counts (side_of self.now) }
    {
        self.transmit.counts()
    }

    /// Returns whether one of the acts so far was a tx or done row; otherwise the report omits the transmit side.
    pub fn uses_transmit(&self) -> bool
        ensures { result ≡ (side_of self.now).used }
    {
        self.transmit.is_used()
    }
}

impl Device for ScriptDevice {
    ghost use Rattle.replay.specs.ScriptShown.{acts, script_after, answer};

    ghost acts = { acts };

    ghost answer = { answer };

    ghost after = { script_after };

    fn acts(&self) -> u32 {
        self.rows.len() as u32
    }

    /// an act that is asked for out of order is `Nothing`, and applies no row
    fn act(&mut self, k: u32) -> Act {
        if k != self.made {
            return Act::Nothing;
        }
        let row = self.rows[k as usize];
        self.made += 1;
        play(row, &mut self.packets, &mut self.transmit)
    }
}
