//! The bits of the state word: the flags at the kernel's positions (`NAPI_STATE_..` of `include/linux/netdevice.h`), and two
//! bits of this project's own.

/// A poll is requested or in progress, or the instance is disabled (`NAPIF_STATE_SCHED`).
pub const SCHED: u64 = 1;

/// A poll was requested again while SCHED was set (`NAPIF_STATE_MISSED`).
pub const MISSED: u64 = 1 << 1;

/// A disable is pending (`NAPIF_STATE_DISABLE`).
pub const DISABLE: u64 = 1 << 2;

/// The instance is disabled (`NAPIF_STATE_NPSVC`).
pub const NPSVC: u64 = 1 << 3;

/// The instance is busy polled (`NAPIF_STATE_IN_BUSY_POLL`).
pub const IN_BUSY_POLL: u64 = 1 << 6;

/// The instance is polled by its own thread (`NAPIF_STATE_THREADED`).
pub const THREADED: u64 = 1 << 8;

/// The instance was scheduled on its thread, which hasn't completed it since (`NAPIF_STATE_SCHED_THREADED`).
pub const SCHED_THREADED: u64 = 1 << 9;

/// The instance waits on the poll list.
pub const QUEUED: u64 = 1 << 32;

/// The instance waits for its own thread.
pub const TO_THREAD: u64 = 1 << 33;
