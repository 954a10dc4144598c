//! One arrival, as a record of the text.

ghost use Rattle.std.specs.Prelude.{◌≡◌, ◌≤◌, ◌*◌, ◌%◌, IfOk, option_map};
ghost use Rattle.csv.specs.Records.{fields_of};
ghost use Rattle.machine.specs.Arrivals.{IsInRange, flow_of, arrival_fields, is_arrivals_title, arrival_of_fields, queue_of};
ghost use Rattle.machine.specs.Arrivals.{arrival_in_range, width};

use crate::fault::MachineFault;
use csv::ByteRecord;
use device_rows::number_below_21;
use machine_model::MachineSettings;

/// A packet arrives for a queue.
#[derive(Clone, Copy, Debug, PartialEq, Eq)]
pub struct Arrival {
    /// The arrival time in nanoseconds, below 2^62.
    pub moment: u64,
    /// The number of the queue, 1 to 64 for each processor. With one queue per device it is the device's number.
    pub device: u32,
}

/// The numbers in a row. With one queue per device `flow` is 0.
#[derive(Clone, Copy)]
pub(crate) struct Numbers {
    pub(crate) moment: u128,
    pub(crate) device: u128,
    pub(crate) bytes: u128,
    pub(crate) flow: u128,
}

// Returns how many fields a record has.
fn width(queues: u32) -> usize
    ensures { result ≡ width queues }
{
    if queues == 1 { 3 } else { 4 }
}

// Returns the flow of a record: its fourth field, or 0 with one queue per device.
fn flow_of(queues: u32, fields: &ByteRecord) -> Option<&[u8]>
    ensures { option_map (λ flow. flow.now) result ≡ flow_of queues (fields_of fields.now) }
{
    if queues == 1 {
        Some(b"0".as_slice())
    } else {
        fields.get(3)
    }
}

// Returns the fields of a record that has the right number of fields.
#[tactic(auto, unfolding(crate::specs::Arrivals::arrival_fields))]
fn four_of(queues: u32, fields: &ByteRecord) -> Option<(&[u8], &[u8], &[u8], &[u8])>
    ensures { option_map (λ four. (four.0.now, four.1.now, four.2.now, four.3.now)) result
        ≡ arrival_fields queues (fields_of fields.now) }
{
    if fields.len() != width(queues) {
        return None;
    }
    let moment = fields.get(0)?;
    let device = fields.get(1)?;
    let bytes = fields.get(2)?;
    let flow = flow_of(queues, fields)?;
    Some((moment, device, bytes, flow))
}

/// Returns whether a record is the header: `ns,device,bytes`, and `flow` with several queues per device. Older texts have `moment`
/// for `ns`.
pub(crate) fn is_title(queues: u32, fields: &ByteRecord) -> bool
    ensures { result ≡ is_arrivals_title queues (arrival_fields queues (fields_of fields.now)) }
{
    let Some((moment, device, bytes, flow)) = four_of(queues, fields) else {
        return false;
    };
    (moment == b"ns".as_slice() || moment == b"moment".as_slice())
        && device == b"device".as_slice()
        && bytes == b"bytes".as_slice()
        && (queues == 1 || flow == b"flow".as_slice())
}

// Returns `flow` modulo `queues`. The common case of a flow below 2^64 is computed without the slow division of 128 bits.
fn remainder(flow: u128, queues: u32) -> u32
    requires { (1 ≤ queues) × (queues ≤ 64) }
    ensures { result ≡ flow % queues }
{
    match u64::try_from(flow) {
        Ok(small) => (small % u64::from(queues)) as u32,
        Err(_) => (flow % u128::from(queues)) as u32,
    }
}

// Returns the number of the queue that receives a flow of a device.
fn queue_of(queues: u32, device: u32, flow: u128) -> u32
    requires queues { (1 ≤ queues) × (queues ≤ 64) }
    requires device { (1 ≤ device) × (device ≤ 4096) }
    ensures { result ≡ queue_of queues device flow }
{
    (device - 1) * queues + remainder(flow, queues) + 1
}

/// Returns the arrival of row `row` with these numbers, after a row at the time `last`.
#[tactic(auto, unfolding(crate::specs::Arrivals::arrival_in_range))]
#[inline]
pub(crate) fn ranged(
    settings: &MachineSettings,
    row: u64,
    last: u64,
    numbers: &Numbers,
) -> Result<Arrival, MachineFault>
    ensures arrival { result ≡ arrival_in_range settings.now row last numbers.now }
    ensures range { IfOk result (IsInRange settings.now.processors) }
{
    let most = 64 * settings.processors;
    let is_device = 1 <= numbers.device && numbers.device <= u128::from(most);
    if !(numbers.moment < 1 << 62 && is_device && 1 <= numbers.bytes && numbers.bytes <= 65535) {
        return Err(MachineFault::OutOfRange { row });
    }
    let queue = queue_of(settings.queues, numbers.device as u32, numbers.flow);
    if queue > most {
        return Err(MachineFault::OutOfRange { row });
    }
    if u128::from(last) > numbers.moment {
        return Err(MachineFault::Falls { row });
    }
    Ok(Arrival {
        moment: numbers.moment as u64,
        device: queue,
    })
}

/// Returns the arrival of a record in row `row`, after a row at the time `last`, or the first error of the record.
#[tactic(auto, unfolding(crate::specs::Arrivals::arrival_of_fields))]
pub(crate) fn arrival_of(
    settings: &MachineSettings,
    row: u64,
    last: u64,
    fields: &ByteRecord,
) -> Result<Arrival, MachineFault>
    ensures arrival { result
        ≡ arrival_of_fields settings.now row last
        (arrival_fields settings.now.queues (fields_of fields.now)) }
    ensures range { IfOk result (IsInRange settings.now.processors) }
{
    let Some((moment, device, bytes, flow)) = four_of(settings.queues, fields) else {
        return Err(MachineFault::BadFields { row });
    };
    let (Some(moment), Some(device), Some(bytes), Some(flow)) = (
        number_below_21(moment),
        number_below_21(device),
        number_below_21(bytes),
        number_below_21(flow),
    ) else {
        return Err(MachineFault::BadNumber { row });
    };
    let numbers = Numbers {
        moment,
        device,
        bytes,
        flow,
    };
    ranged(settings, row, last, &numbers)
}
