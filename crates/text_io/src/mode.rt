//! The kind of replay.

/// The kind of replay of a trace.
#[derive(Clone, Copy, Debug, PartialEq, Eq)]
pub enum ReplayMode {
    /// One thread processes the rows in order, on instances that aren't shared.
    Serial,
    /// One thread processes the rows in order, on instances that threads could share.
    Shared,
    /// Each device's rows are processed by its own thread, while other threads poll.
    Threads,
}
