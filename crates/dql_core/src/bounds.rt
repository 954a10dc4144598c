//! The greatest counts and limits.

/// The most bytes of one object: the kernel's `DQL_MAX_OBJECT`, a sixteenth of a counter's range.
pub const MAX_OBJECT: u32 = 268_435_455;

/// The greatest limit: the kernel's `DQL_MAX_LIMIT`, half of a counter's range less one object.
pub const MAX_LIMIT: u32 = 1_879_048_192;

/// The most bytes in flight, a quarter of a counter's range. The kernel has no such bound; with it, signed 32-bit differences
/// never overflow.
pub const MAX_IN_FLIGHT: u32 = 1_073_741_823;
