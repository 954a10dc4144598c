//! The statuses that these calls return: some of those of `enum fq_status`. They are repeated here because `c_handles`, which has
//! all of them, depends on crates for threads, and this crate doesn't.

/// The report, the trace or the settings were written.
pub(crate) const OK: u32 = 0;

/// Out of memory.
pub(crate) const OUT_OF_MEMORY: u32 = 112;

/// A weight isn't 1 to 64.
pub(crate) const BAD_WEIGHT: u32 = 114;

/// The array is shorter than the text.
pub(crate) const NO_ROOM: u32 = 115;

/// A budget or a window isn't 1 to 65535.
pub(crate) const BAD_BUDGET: u32 = 116;

/// The bytes aren't a trace, or a row of it can't be processed.
pub(crate) const BAD_TRACE: u32 = 120;

/// A struct doesn't have this library's size.
pub(crate) const BAD_SIZE: u32 = 122;

/// A setting is out of its range.
pub(crate) const BAD_SETTING: u32 = 123;

/// The bytes aren't arrivals.
pub(crate) const BAD_ARRIVALS: u32 = 124;
