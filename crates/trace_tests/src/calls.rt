//! Tests of the options, and of a machine by its calls.

ghost use Rattle.std.specs.Prelude.{◌≤◌, length, IfOk};

use machine::{Machine, MachineSettings, OPTION_COUNT, OPTIONS, parse_words};
use std::alloc::Global;
use std::test::Fail;

// Changes of the values, one after the other: the place, its value, and the number that is refused then, or 0.
const CHANGES: [(usize, u32, u32); 19] = [
    (6, 65, 7),
    (6, 64, 0),
    (10, 1, 0),
    (22, 1, 23),
    (22, 0, 0),
    (23, 1_000_000_001, 24),
    (23, u32::MAX, 0),
    (25, 3, 26),
    (25, 2, 0),
    (27, 1001, 28),
    (27, 1000, 0),
    (28, 1_000_000_001, 29),
    (28, 1_000_000_000, 0),
    (21, 1, 29),
    (28, 0, 0),
    (29, 1_000_000_001, 30),
    (29, 1_000_000_000, 0),
    (30, 1_000_000_001, 31),
    (30, 1_000_000_000, 0),
];

/// Returns the machine that these arguments, separated by spaces, ask for.
pub(crate) fn machine_of(alloc: Global, words: &str) -> Result<MachineSettings, Fail> {
    let mut given = Vec::new(alloc);
    for word in words.split_ascii_whitespace() {
        given.push(String::from_str(alloc, word)?)?;
    }
    Ok(parse_words(alloc, given.as_slice())?)
}

// Returns the values of the machine that these arguments ask for.
fn values_of(alloc: Global, words: &str) -> Result<[u32; OPTION_COUNT], Fail> {
    Ok(machine_of(alloc, words)?.values())
}

// Returns the name of the value at this place.
fn name_of(place: usize) -> &'static str {
    match OPTIONS.get(place) {
        Some(option) => option.name,
        None => "",
    }
}

// Returns the number of the value that is refused, or 0.
fn refused(values: &[u32; OPTION_COUNT]) -> u32 {
    MachineSettings::from_values(values).err().unwrap_or(0)
}

#[test]
fn values_are_settings(rt: HostRuntime) -> Result<(), Fail> {
    let mut values = values_of(rt.alloc(), "--weight=3 --apart 1 --wake=9")?;
    assert_eq!(rt; [values[6], values[14], values[20]], [3, 1, 9]);
    for (place, value, number) in CHANGES {
        if let Some(changed) = values.get_mut(place) {
            *changed = value;
        }
        assert_eq!(rt; refused(&values), number, "value {value} at {place}");
    }
    let names = [
        name_of(6),
        name_of(21),
        name_of(22),
        name_of(27),
        name_of(28),
        name_of(30),
    ];
    assert_eq!(rt;
        names,
        ["weight", "heedless", "rx-gap", "take", "early", "arm"]
    );
    Ok(())
}

// Returns the machine that these arguments ask for, after a packet arrived for device 1 at 5, and all was done.
fn finished(alloc: Global, words: &str) -> Result<Machine, Fail>
    ensures { IfOk result (λ m. 1 ≤ length m) }
{
    let settings = machine_of(alloc, words)?;
    let mut machine = Machine::new(alloc, &settings)?;
    machine.arrive(alloc, 5, 1)?;
    machine.finish()?;
    Ok(machine)
}

#[test]
fn a_machine_runs(rt: HostRuntime) -> Result<(), Fail> {
    let machine = finished(rt.alloc(), "")?;
    let device = machine.device(1).ok_or("no packet")?;
    let processor = machine.processor(0);
    let found = [
        device.counts.arrived,
        device.counts.polled,
        device.waits.count,
        device.waits.most,
        processor.counts.runs,
        processor.waits.most,
        processor.end,
    ];
    assert_eq!(rt; found, [1, 1, 1, 6000, 1, 8000, 8005]);
    assert!(rt; machine.device(2).is_none() && processor.application.is_none());
    Ok(())
}

#[test]
fn an_application_apart_is_reported(rt: HostRuntime) -> Result<(), Fail> {
    let processor = finished(rt.alloc(), "--apart=1 --app-wake=3000")?.processor(0);
    let application = processor.application.ok_or("no application")?;
    let found = [processor.end, application.end, application.wakes];
    assert_eq!(rt; found, [6005, 11005, 1]);
    Ok(())
}
