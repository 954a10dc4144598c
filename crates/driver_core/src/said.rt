//! The action that a driver asked for last, and its number.

ghost use Rattle.std.specs.Prelude.{◌≡◌, ◌≢◌, ◌⊎◌, ◌≤◌, ℕ, Some, None};
ghost use Rattle.driver_core.specs.Device.{chore_at};
ghost use Rattle.driver_core.specs.Queue.{following};
ghost use Rattle.driver_core.specs.declared.device.Chore.{Chore};

use crate::device::{Chore, DriverDevice};

// The number after this one. It is never 0.
#[inline(always)]
pub(crate) fn following(number: u64) -> u64
    ensures next { result ≡ following number }
    ensures some { 1 ≤ result }
{
    if number == u64::MAX {
        return 1;
    }
    number + 1
}

// Returns the action that was asked for, unless it was at the card of this device and isn't due there any more.
#[inline(always)]
pub(crate) fn still_due(
    said: Option<(u32, Chore)>,
    device: u32,
    to: DriverDevice,
) -> Option<(u32, Chore)>
    ensures kept { (result ≡ said) ⊎ (result ≡ None) }
    ensures due { (id : ℕ) (chore : Chore) → result ≡ Some (id, chore)
        → (id ≢ device) ⊎ (chore_at to.stage ≡ Some chore) }
    ensures stays { (id : ℕ) (chore : Chore) → said ≡ Some (id, chore)
        → (id ≢ device) ⊎ (chore_at to.stage ≡ Some chore) → result ≡ said }
{
    let Some((id, chore)) = said else {
        return None;
    };
    if id == device && to.chore() != Some(chore) {
        return None;
    }
    said
}
