//! The counts of the results of calls on a shared instance.
ghost use Rattle.std.specs.Prelude.{◌≡◌};
ghost use Rattle.c_handles.specs.Answers.{no_answers, count_answer};

use crate::status;
use std::mem::size_of;

/// The counts of the results of one caller's calls: `struct fq_answers`. Each count saturates.
#[repr(C)]
#[derive(Clone, Copy)]
pub struct FqAnswers {
    /// The size of this struct in bytes.
    pub size: usize,
    /// Requests that were granted.
    pub granted: u64,
    /// Requests that were missed.
    pub missed: u64,
    /// Requests that came while a disable was pending.
    pub disabled: u64,
    /// Completions that released the instance.
    pub released: u64,
    /// Completions that found a missed request.
    pub again: u64,
    /// Completions by a busy poller, which keeps the instance.
    pub held: u64,
    /// Attempts, of any call, that failed because another thread interfered.
    pub changed: u64,
}

impl FqAnswers {
    /// Returns zero counts.
    pub fn none() -> FqAnswers
        ensures { result ≡ no_answers }
    {
        FqAnswers {
            size: size_of::<FqAnswers>(),
            granted: 0,
            missed: 0,
            disabled: 0,
            released: 0,
            again: 0,
            held: 0,
            changed: 0,
        }
    }

    /// Counts one more result.
    #[inline(always)]
    pub(crate) fn count(&mut self, status: u32)
        ensures { self.new ≡ count_answer status self.old }
    {
        match status {
            status::GRANTED => self.granted = self.granted.saturating_add(1),
            status::MISSED => self.missed = self.missed.saturating_add(1),
            status::DISABLED => self.disabled = self.disabled.saturating_add(1),
            status::RELEASED => self.released = self.released.saturating_add(1),
            status::AGAIN => self.again = self.again.saturating_add(1),
            status::HELD => self.held = self.held.saturating_add(1),
            status::CHANGED => self.changed = self.changed.saturating_add(1),
            _ => {}
        }
    }
}
