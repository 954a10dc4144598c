//! A program that uses only `driver_core`: the loop of a driver, over any cards. Its contract repeats what the driver promises
//! about a sleep.

ghost use Rattle.std.specs.Prelude.{◌≡◌, ◌≤◌, IfOk, true, length};
ghost use Rattle.driver_core.specs.Driver.{MaySleep, driver_devices};

use driver_core::{Driver, Rearm, Refused, What};

/// A card: its interrupt mask, its receive ring, and a timer.
pub trait LoopCard {
    /// Masks its interrupt.
    fn mask(&mut self);

    /// Unmasks its interrupt.
    fn unmask(&mut self);

    /// Returns whether its ring has packets.
    fn has_packets(&mut self) -> bool;

    /// Sets its timer, so that it expires after this many nanoseconds, once.
    fn set_timer(&mut self, nanoseconds: u64);

    /// Takes packets from its ring, at most this many, and delivers them. Returns how many it took.
    fn fetch(&mut self, most: u32) -> u32
        ensures { result ≤ most };
}

// Does what the driver asks for. Returns whether there was nothing to do.
fn act<C: LoopCard>(driver: &mut Driver, cards: &mut [C]) -> Result<bool, Refused>
    requires { length (driver_devices driver.old) ≡ length cards.old }
    ensures sleep { IfOk result (λ sleeps. sleeps ≡ true → MaySleep driver.new) }
    ensures cards { length cards.new ≡ length cards.old }
    ensures devices { length (driver_devices driver.new) ≡ length (driver_devices driver.old) }
{
    let todo = driver.next();
    let packets = match todo.what {
        What::Mask(device) => {
            cards[device as usize].mask();
            0
        }
        What::Unmask(device) => {
            cards[device as usize].unmask();
            0
        }
        What::Look(device) => u32::from(cards[device as usize].has_packets()),
        What::Timer(device, nanoseconds) => {
            cards[device as usize].set_timer(nanoseconds);
            0
        }
        What::Fetch(device, most) => cards[device as usize].fetch(most),
        What::Ended(_) => return Ok(false),
        What::Sleep(_) => return Ok(true),
    };
    driver.done(todo.number, packets, Rearm::No)?;
    Ok(false)
}

/// Does what the driver asks for until there is nothing to do, but at most this many times. Returns whether it may sleep: then
/// each device is at rest, and nothing is on the poll list.
pub fn drive<C: LoopCard>(driver: &mut Driver, cards: &mut [C], most: u32) -> Result<bool, Refused>
    requires { length (driver_devices driver.old) ≡ length cards.old }
    ensures { IfOk result (λ sleeps. sleeps ≡ true → MaySleep driver.new) }
{
    for _ in 0..most {
        if act(driver, cards)? {
            return Ok(true);
        }
    }
    Ok(false)
}
