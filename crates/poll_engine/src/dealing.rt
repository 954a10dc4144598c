//! Which poller polls which station.

ghost use Rattle.std.specs.Prelude.{◌<◌, ◌==◌, ◌≤◌, true, ◌≡◌};
ghost use Rattle.poll_engine.specs.Deals.{is_own};

/// Returns the poller of the station with this number: the number minus 1, modulo the count of pollers.
pub fn poller_of(number: u32, pollers: usize) -> usize
    requires { 1 ≤ pollers }
    ensures own { is_own result pollers number ≡ true }
    ensures within { result < pollers }
{
    number.saturating_sub(1) as usize % pollers
}
