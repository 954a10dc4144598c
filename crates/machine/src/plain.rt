//! Plain rows of arrivals, read in one pass: numbers, commas, a line feed.

ghost use Rattle.std.specs.Prelude.{◌≡◌, IfOk, IfSome};
ghost use Rattle.machine.specs.Arrivals.{IsInRange};
ghost use Rattle.machine.specs.Plain.{StartsWithArrival, StartsWithHeader, StartsWithNumbers};

use crate::arrival::{Arrival, Numbers, ranged};
use device_rows::number;
use machine_model::MachineSettings;

// Returns the numbers of the row at the start of a text, and the text after it.
#[inline(always)]
fn plain_numbers(queues: u32, text: &[u8]) -> Option<(Numbers, &[u8])>
    ensures { IfSome result (λ found. StartsWithNumbers queues text.now found.0 found.1.now) }
{
    let (moment, text) = number(text, b',')?;
    let (device, text) = number(text, b',')?;
    if queues == 1 {
        let (bytes, text) = number(text, b'\n')?;
        let numbers = Numbers {
            moment: u128::from(moment),
            device: u128::from(device),
            bytes: u128::from(bytes),
            flow: 0,
        };
        return Some((numbers, text));
    }
    let (bytes, text) = number(text, b',')?;
    let (flow, text) = number(text, b'\n')?;
    let numbers = Numbers {
        moment: u128::from(moment),
        device: u128::from(device),
        bytes: u128::from(bytes),
        flow: u128::from(flow),
    };
    Some((numbers, text))
}

/// Returns the arrival of row `row` at the start of a text, after a row at `last`, and the text after it. `None` doesn't mean
/// that there is no such row, only that it isn't plain or has an error.
#[inline(always)]
pub(crate) fn plain_arrival<'t>(
    settings: &MachineSettings,
    row: u64,
    last: u64,
    text: &'t [u8],
) -> Option<(Arrival, &'t [u8])>
    ensures row { IfSome result
        (λ found. StartsWithArrival settings.now row last text.now found.0 found.1.now) }
    ensures range { IfSome result (λ found. IsInRange settings.now.processors found.0) }
{
    let (numbers, rest) = plain_numbers(settings.queues, text)?;
    let arrival = ranged(settings, row, last, &numbers).ok()?;
    Some((arrival, rest))
}

/// Returns the text after the header `ns,device,bytes`, or with several queues `ns,device,bytes,flow`, if a text starts with it.
pub(crate) fn after_header(queues: u32, text: &[u8]) -> Option<&[u8]>
    ensures { IfSome result (λ rest. StartsWithHeader queues text.now rest.now) }
{
    if queues == 1 {
        let rest = text.strip_prefix(b"ns,device,bytes\n".as_slice())?;
        return Some(rest);
    }
    let rest = text.strip_prefix(b"ns,device,bytes,flow\n".as_slice())?;
    Some(rest)
}
