//! Fields for linear values: a call takes the value out, and puts it back at its end.

ghost use Rattle.std.specs.Prelude.{◌≡◌, None, Some, false, is_some, true};

use std::mem;

/// Takes the value out of its field.
pub fn take_out<T>(place: &mut Option<T>) -> T
    requires { is_some place.old ≡ true }
    ensures was { place.old ≡ Some result }
    ensures out { place.new ≡ None }
{
    match mem::replace(place, None) {
        Some(value) => value,
        None => unreachable!(),
    }
}

/// Puts the value into its field, which is empty.
pub fn put_back<T>(place: &mut Option<T>, value: T)
    requires { is_some place.old ≡ false }
    ensures { place.new ≡ Some value }
{
    match mem::replace(place, Some(value)) {
        None => {}
        Some(_) => unreachable!(),
    }
}
