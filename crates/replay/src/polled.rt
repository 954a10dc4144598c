//! The counts of the polls of a run, which the report doesn't show.

/// What happened to the packets of one device in a run with threads.
#[derive(Clone, Copy, Debug, PartialEq, Eq)]
pub struct Polled {
    /// The device's number.
    pub device: u32,
    /// The packets that were polled.
    pub polled: u64,
    /// The packets that were left in its ring at the end.
    pub left: u64,
}
