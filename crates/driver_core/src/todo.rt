//! What a driver has to do.

ghost use Rattle.std.specs.Prelude.{◌≡◌, None};
ghost use Rattle.driver_core.specs.Todo.{what_of, ended_in};

use crate::device::Chore;
use poll_runs::RunReport;

/// What a driver asks the caller to do, at the device with this number.
#[derive(Clone, Copy, Debug, PartialEq, Eq)]
pub enum What {
    /// Mask the interrupt of the device's card.
    Mask(u32),
    /// Unmask the interrupt of the device's card.
    Unmask(u32),
    /// Look whether the device's card has packets.
    Look(u32),
    /// Set the device's timer, so that it expires after this many nanoseconds, once; a timer that is still set is replaced. Its card stays
    /// masked. Report the expiry by [`Driver::timer`](crate::Driver::timer).
    Timer(u32, u64),
    /// Take packets from the device's card, at most as many as the second number says, and deliver them. If no packets are left,
    /// the caller may also unmask the card and then look at it, and report both together ([`Rearm`](crate::Rearm)).
    Fetch(u32, u32),
    /// A run has ended (`net_rx_action`): it was squeezed, or devices are on the list. The caller may do other work before it calls
    /// [`Driver::next`](crate::Driver::next) again. There is nothing to report.
    Ended(RunReport),
    /// Do nothing until the next interrupt, open or stop. The report is that of the run that has ended, without polls if none has.
    /// There is nothing to report.
    Sleep(RunReport),
}

/// What a driver has to do next. Do it before the next call of [`Driver::next`](crate::Driver::next), and report it by
/// [`Driver::done`](crate::Driver::done).
#[derive(Clone, Copy, Debug, PartialEq, Eq)]
pub struct Todo {
    /// The number under which to report it; 0 if there is nothing to report.
    pub number: u64,
    /// What has to be done.
    pub what: What,
}

/// The call isn't due, and changed nothing.
#[derive(Clone, Copy, Debug, PartialEq, Eq)]
pub struct NotDue;

/// Why a report was rejected. Nothing has changed.
#[derive(Clone, Copy, Debug, PartialEq, Eq)]
pub enum Refused {
    /// The driver doesn't wait for this report any more.
    NotDue,
    /// A fetch took more packets than it was allowed to.
    TooMany,
}

// Returns the action at the card of a device, or with its timer, as the driver asks for it.
#[inline(always)]
pub(crate) fn what_of(device: u32, nanoseconds: u64, chore: Chore) -> What
    ensures what { result ≡ what_of device nanoseconds chore }
    ensures more { ended_in result ≡ None }
{
    match chore {
        Chore::Mask => What::Mask(device),
        Chore::Unmask => What::Unmask(device),
        Chore::Look => What::Look(device),
        Chore::Timer => What::Timer(device, nanoseconds),
    }
}
