//! What the fields of one record mean by themselves.

ghost use Rattle.std.specs.Prelude.{◌≡◌, ◌≤◌, length, true, option_map, if◌then◌else◌, ℕ, ◌&&◌, ◌<◌, ◌+◌, false, Some, None, Ok, IfOk, IfSome, vec_capacity, vec_items, vec_len};
ghost use Rattle.std.specs.Str.{all_ascii_digits};
ghost use Rattle.csv.specs.Records.{fields_of};
ghost use Rattle.device_places.specs.Range.{IsWithin};
ghost use Rattle.device_rows.specs.Record.{first_four, four_of, is_numeral, is_title, numeral, of_fields, ranged, row_of, version_of};
ghost use Rattle.device_rows.specs.Row.{device_fits, value_fits};

use crate::event::{RowEvent, event_of};
use crate::fault::TraceFault;
use crate::row::Row;
use csv::ByteRecord;

// Returns the number that a field denotes, 0 if it is empty, if all of its bytes are digits. It fits into a u64.
fn number_below_20(digits: &[u8]) -> Option<u64>
    requires few { length digits.now ≤ 19 }
    ensures { result ≡ (if all_ascii_digits digits.now then Some (numeral digits.now) else None) }
{
    let mut number = 0;
    for place in 0..digits.len() {
        let byte = digits[place];
        if !byte.is_ascii_digit() {
            return None;
        }
        number = number * 10 + u64::from(byte) - 48;
    }
    Some(number)
}

/// Returns the number that one to twenty digits denote, computed in a u64 up to the last digit.
pub fn number_below_21(field: &[u8]) -> Option<u128>
    ensures { result ≡ (if is_numeral field.now then Some (numeral field.now) else None) }
{
    let (last, front) = field.split_last()?;
    if front.len() > 19 {
        return None;
    }
    let number = number_below_20(front)?;
    if !last.is_ascii_digit() {
        return None;
    }
    Some(u128::from(number) * 10 + u128::from(*last - b'0'))
}

/// Returns whether a row of this event may name this device and have this value.
pub(crate) fn fits(event: RowEvent, device: u128, value: u128) -> bool
    ensures { result ≡ (device_fits event device && value_fits event value) }
{
    let is_device = match event {
        RowEvent::Softirq => device == 0,
        _ => 1 <= device && device <= 16,
    };
    is_device && event.takes(value)
}

// Returns row `number` with these numbers, if they are in their ranges.
#[tactic(auto, unfolding(crate::specs::Record::ranged))]
fn ranged(
    number: u32,
    moment: u128,
    device: u128,
    event: RowEvent,
    value: u128,
) -> Result<Row, TraceFault>
    ensures row { result ≡ ranged number moment device event value }
    ensures device { IfOk result (λ row. device_fits row.event row.device ≡ true) }
    ensures value { IfOk result (λ row. value_fits row.event row.value ≡ true) }
{
    if moment < 1 << 64 && fits(event, device, value) {
        Ok(Row {
            moment: moment as u64,
            device: device as u32,
            event,
            value: value as u32,
        })
    } else {
        Err(TraceFault::OutOfRange { row: number })
    }
}

// Returns row `number` of these fields.
#[tactic(auto, unfolding(crate::specs::Record::of_fields))]
fn of_fields(
    version: u32,
    number: u32,
    moment: &[u8],
    device: &[u8],
    event: &[u8],
    value: &[u8],
) -> Result<Row, TraceFault>
    ensures row { result ≡ of_fields version number moment.now device.now event.now value.now }
    ensures device { IfOk result (λ row. device_fits row.event row.device ≡ true) }
    ensures value { IfOk result (λ row. value_fits row.event row.value ≡ true) }
{
    let (Some(moment), Some(device), Some(value)) = (
        number_below_21(moment),
        number_below_21(device),
        number_below_21(value),
    ) else {
        return Err(TraceFault::BadNumber { row: number });
    };
    let Some(event) = event_of(version, event) else {
        return Err(TraceFault::BadEvent { row: number });
    };
    ranged(number, moment, device, event, value)
}

// Returns the four fields of a record that has four.
#[tactic(auto, unfolding(crate::specs::Record::four_of))]
fn four_of(fields: &ByteRecord) -> Option<(&[u8], &[u8], &[u8], &[u8])>
    ensures { option_map (λ four. (four.0.now, four.1.now, four.2.now, four.3.now)) result
        ≡ four_of (fields_of fields.now) }
{
    if fields.len() != 4 {
        return None;
    }
    first_four(fields)
}

// Returns the first four fields of a record that has at least four.
fn first_four(fields: &ByteRecord) -> Option<(&[u8], &[u8], &[u8], &[u8])>
    ensures { option_map (λ four. (four.0.now, four.1.now, four.2.now, four.3.now)) result
        ≡ first_four (fields_of fields.now) }
{
    let moment = fields.get(0)?;
    let device = fields.get(1)?;
    let event = fields.get(2)?;
    let value = fields.get(3)?;
    Some((moment, device, event, value))
}

/// Returns the row of a record of a trace of this version, whose row number is `number`, or the first of its errors 2 to 5.
pub(crate) fn row_of(version: u32, number: u32, fields: &ByteRecord) -> Result<Row, TraceFault>
    ensures row { result ≡ row_of version number (fields_of fields.now) }
    ensures device { IfOk result (λ row. device_fits row.event row.device ≡ true) }
    ensures value { IfOk result (λ row. value_fits row.event row.value ≡ true) }
{
    let Some((moment, device, event, value)) = four_of(fields) else {
        return Err(TraceFault::BadFields { row: number });
    };
    of_fields(version, number, moment, device, event, value)
}

// Returns whether the first fields of a record are the titles `moment,device,event,value`.
fn is_titled(fields: &ByteRecord) -> bool
    ensures { result ≡ is_title (first_four (fields_of fields.now)) }
{
    let Some((moment, device, event, value)) = first_four(fields) else {
        return false;
    };
    moment == b"moment".as_slice()
        && device == b"device".as_slice()
        && event == b"event".as_slice()
        && value == b"value".as_slice()
}

/// Returns the version by a trace's first record: `moment,device,event,value` is version 1, and the same with a fifth field `2`
/// is version 2.
#[tactic(auto, unfolding(crate::specs::Record::version_of))]
pub(crate) fn version_of(fields: &ByteRecord) -> Option<u32>
    ensures version { result ≡ version_of (fields_of fields.now) }
    ensures range { IfSome result (λ version. IsWithin 1 2 version) }
{
    if !is_titled(fields) {
        return None;
    }
    if fields.len() == 4 {
        return Some(1);
    }
    if fields.len() != 5 {
        return None;
    }
    match fields.get(4) {
        Some(field) if field == b"2".as_slice() => Some(2),
        _ => None,
    }
}
