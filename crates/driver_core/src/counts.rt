//! The counts of a device's polls.

ghost use Rattle.std.specs.Prelude.{◌≡◌, IfOk, replicate};
ghost use Rattle.driver_core.specs.Counts.{count_one_poll, no_counts};

use std::alloc::{AllocError, Global};

/// The counts of a device's polls, since the driver was created. Each count saturates.
#[derive(Clone, Copy, Debug, PartialEq, Eq)]
pub struct PollCounts {
    /// The polls that were reported.
    pub polls: u64,
    /// The packets of these polls.
    pub packets: u64,
}

impl PollCounts {
    /// The counts before the first poll.
    pub const NONE: PollCounts = PollCounts {
        polls: 0,
        packets: 0,
    };

    // Returns the counts after one more poll, with this many packets.
    #[inline(always)]
    pub(crate) fn and(self, packets: u32) -> PollCounts
        ensures { result ≡ count_one_poll packets self }
    {
        PollCounts {
            polls: self.polls.saturating_add(1),
            packets: self.packets.saturating_add(u64::from(packets)),
        }
    }
}

// Returns zero counts for this many devices.
pub(crate) fn new_counts(alloc: Global, devices: usize) -> Result<Vec<PollCounts>, AllocError>
    ensures { IfOk result (λ counts. counts.items ≡ replicate devices no_counts) }
{
    Ok(vec![in alloc; PollCounts::NONE; devices]?)
}
