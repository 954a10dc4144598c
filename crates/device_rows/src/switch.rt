//! The state in which the rows so far leave each device: unopened, on or off.

ghost use Rattle.std.specs.Prelude.{◌≡◌, ◌≢◌, ◌∷◌, ◌++◌, ℕ, List, [], Some, None, true, false, ◌+◌, length, MatchResult, OnErr, OnOk};
ghost use Rattle.device_rows.specs.Row.{device_fits, is_device};
ghost use Rattle.device_rows.specs.Switch.{Passes, Tracks, refusal, set_by, switch_of};
ghost use Rattle.device_rows.specs.Trace.{IsAccepted};
ghost use Rattle.device_rows.specs.declared.row.Row.{Row};
ghost use Rattle.device_rows.specs.declared.switch.Switch.TheVariants.{Unopened};

use crate::event::RowEvent;
use crate::fault::TraceFault;
use crate::record::fits;
use crate::row::Row;

/// The greatest number of a device in a trace; the least is 1.
const MOST_DEVICES: usize = 16;

/// The state in which the rows of a device leave it: whether it was opened, and whether it is on or off.
#[derive(Clone, Copy)]
pub enum Switch {
    /// No row opened it.
    Unopened,
    /// The last of its open, enable and disable rows is an open or an enable.
    On,
    /// The last of these rows is a disable.
    Off,
}

// Returns the state in which a row of this event leaves its device, if it sets it.
fn set_by(event: RowEvent) -> Option<Switch>
    ensures { result ≡ set_by event }
{
    match event {
        RowEvent::Opened | RowEvent::Enable => Some(Switch::On),
        RowEvent::Disable => Some(Switch::Off),
        _ => None,
    }
}

// Returns the error of a row of this event, if there is one, by the state in which earlier rows leave its device.
fn refusal(row: u32, event: RowEvent, switch: Switch) -> Option<TraceFault>
    ensures { result ≡ refusal row event switch }
{
    match (event, switch) {
        (RowEvent::Softirq, _) | (RowEvent::Opened, Switch::Unopened) => None,
        (RowEvent::Opened, _) => Some(TraceFault::OpenTwice { row }),
        (_, Switch::Unopened) => Some(TraceFault::UnknownDevice { row }),
        (RowEvent::Disable, Switch::Off) | (RowEvent::Enable, Switch::On) => {
            Some(TraceFault::WrongState { row })
        }
        _ => None,
    }
}

/// The state of each device after the rows that were accepted.
#[derive(Drop)]
pub(crate) struct Switches {
    of: [Switch; MOST_DEVICES],
}

impl Switches {
    /// Returns the states before any row, when no device is open.
    pub(crate) fn new() -> Switches
        ensures { Tracks result.of [] }
    {
        Switches {
            of: [Switch::Unopened; MOST_DEVICES],
        }
    }

    // Returns whether the device with this number was opened.
    #[inline(always)]
    fn has(&self, device: u32) -> bool
        ensures device { result ≡ true → is_device device ≡ true }
        ensures opened { result ≡ true
            → (earlier : List Row) → Tracks self.now.of earlier
            → switch_of device earlier ≢ Unopened }
    {
        1 <= device && device <= 16 && !matches!(self.of[device as usize - 1], Switch::Unopened)
    }

    /// Returns whether a row of this event changes no state, is accepted, and may name this device and have this value.
    #[inline(always)]
    pub(crate) fn pass(&self, event: RowEvent, device: u32, value: u32) -> bool
        ensures { result ≡ true → (moment : ℕ)
            → Passes self.now.of
            (record { moment = moment; device = device; event = event; value = value }) }
    {
        match event {
            RowEvent::Opened | RowEvent::Disable | RowEvent::Enable => false,
            RowEvent::Softirq => device == 0 && event.takes(u128::from(value)),
            _ => self.has(device) && event.takes(u128::from(value)),
        }
    }

    /// Accepts the next row, number `number`, or returns its error, and then changes nothing.
    pub(crate) fn admit(&mut self, number: u32, row: Row) -> Result<(), TraceFault>
        requires { device_fits row.event row.device ≡ true }
        ensures admits { (earlier : List Row) → Tracks self.old.of earlier
            → MatchResult result
            (λ _. refusal number row.event (switch_of row.device earlier) ≡ None)
            (λ fault. refusal number row.event (switch_of row.device earlier) ≡ Some fault) }
        ensures tracks { OnOk result
            ((earlier : List Row) → Tracks self.old.of earlier
            → Tracks self.new.of (earlier ++ row ∷ [])) }
        ensures refused { OnErr result (self.new.of ≡ self.old.of) }
    {
        if row.event == RowEvent::Softirq {
            return Ok(());
        }
        let place = (row.device - 1) as usize;
        if let Some(fault) = refusal(number, row.event, self.of[place]) {
            return Err(fault);
        }
        if let Some(switch) = set_by(row.event) {
            self.of[place] = switch;
        }
        Ok(())
    }

    /// Accepts the next row, number `number`, if its numbers are in their ranges and it has no error; returns whether it did.
    #[inline(always)]
    pub(crate) fn accept(&mut self, number: u32, row: Row) -> bool
        ensures accepted { result ≡ true → (earlier : List Row) → Tracks self.old.of earlier
            → number ≡ length earlier + 1 → IsAccepted earlier row }
        ensures tracks { result ≡ true → (earlier : List Row) → Tracks self.old.of earlier
            → Tracks self.new.of (earlier ++ row ∷ []) }
        ensures kept { result ≡ false → self.new.of ≡ self.old.of }
    {
        if self.pass(row.event, row.device, row.value) {
            return true;
        }
        fits(row.event, u128::from(row.device), u128::from(row.value))
            && self.admit(number, row).is_ok()
    }
}
