//! The statuses that calls on objects return (`enum fq_status`). `scripts/abi.py` writes this file.

/// Done.
pub const OK: u32 = 0;

/// Schedule: the caller owns the instance, and has to queue it.
pub const GRANTED: u32 = 16;

/// Schedule: already scheduled: one more poll follows, unless the instance is disabled.
pub const MISSED: u32 = 17;

/// Schedule: a disable is pending, and no poll was requested.
pub const DISABLED: u32 = 18;

/// Take, busy take, take disable: the caller owns the instance.
pub const TAKEN: u32 = 19;

/// Take, remove: the instance is not queued there, or the number is not on the list.
pub const NOT_THERE: u32 = 20;

/// Complete: no caller owns the instance any more.
pub const RELEASED: u32 = 21;

/// Complete: a request was missed: the caller has to queue the instance again.
pub const AGAIN: u32 = 22;

/// Complete, end: the caller keeps polling.
pub const HELD: u32 = 23;

/// Busy take, take disable, remove: another caller owns the instance, or a run has the number.
pub const BUSY: u32 = 24;

/// Shared instances: another thread interfered, and nothing is decided: call again.
pub const CHANGED: u32 = 25;

/// Put, push, send: there is no room.
pub const FULL: u32 = 26;

/// Next: no poll is left in the run.
pub const DONE: u32 = 27;

/// Send: the limit has stopped the queue.
pub const STOPPED: u32 = 28;

/// Driver: this is not due, and nothing has changed.
pub const NOT_DUE: u32 = 30;

/// The state of the object does not allow this call.
pub const NOT_ALLOWED: u32 = 100;

/// The kind is 0 (list) or 1 (thread).
pub const BAD_KIND: u32 = 101;

/// The handle has no object, or one of another kind.
pub const BAD_HANDLE: u32 = 110;

/// The handle is set already, or the number is listed already.
pub const IN_USE: u32 = 111;

/// Out of memory.
pub const OUT_OF_MEMORY: u32 = 112;

/// The capacity of a ring is 1 to 65536.
pub const BAD_CAPACITY: u32 = 113;

/// A weight is 1 to 64 packets.
pub const BAD_WEIGHT: u32 = 114;

/// The array is too short.
pub const NO_ROOM: u32 = 115;

/// Budget and window are 1 to 65535.
pub const BAD_BUDGET: u32 = 116;

/// A shared instance has 2 to 8 callers, a driver 1 to 64 devices.
pub const BAD_COUNT: u32 = 117;

/// How a poll ended is 0 to 4 (enum fq_next).
pub const BAD_NEXT: u32 = 118;

/// A poll is reported with more packets than the weight.
pub const BAD_WORK: u32 = 119;

/// The driver has no device with this number.
pub const BAD_DEVICE: u32 = 121;

/// A struct's size is not one that the library knows.
pub const BAD_SIZE: u32 = 122;

/// Driver, machine: a setting is out of its range, or doesn't go with another.
pub const BAD_SETTING: u32 = 123;

/// Done: more packets are completed than were sent.
pub const MORE_THAN_SENT: u32 = 125;

/// Driver: an action waits for its report, and this is not it.
pub const NOT_REPORTED: u32 = 126;
