//! What the report shows of a device.

use crate::transmit::TxCounts;

/// Whether a device is enabled.
#[derive(Clone, Copy, Debug, PartialEq, Eq)]
pub enum DeviceState {
    /// Enabled; a device is enabled when it is opened.
    On,
    /// Disabled.
    Off,
    /// A disable is pending until no caller owns the instance.
    Pending,
}

/// The values in a device's lines of the report, in order. Each count saturates.
#[derive(Clone, Copy, Debug, PartialEq, Eq)]
pub struct DeviceCounts {
    /// Whether the device is enabled after the last row.
    pub state: DeviceState,
    /// Packets that arrived, including those that were dropped.
    pub arrived: u64,
    /// Packets that a full ring dropped.
    pub dropped: u64,
    /// Packets that polls processed.
    pub polled: u64,
    /// The bytes of these packets.
    pub bytes: u64,
    /// Packets that the ring holds.
    pub left: u64,
    /// Polls, from the list and by the thread.
    pub polls: u64,
    /// Requests for a poll that returned Granted.
    pub granted: u64,
    /// Requests that returned Missed.
    pub missed: u64,
    /// Requests that returned Disabled.
    pub disabled: u64,
    /// Completions that returned Again.
    pub again: u64,
    /// Completions that returned Released.
    pub released: u64,
    /// The state word.
    pub word: u64,
    /// Completions that returned Held.
    pub held: u64,
    /// The transmit side.
    pub tx: TxCounts,
}

impl DeviceCounts {
    /// The counts of a device without packets and without a transmit side, before any event, with state word 0.
    pub const OPENED: DeviceCounts = DeviceCounts {
        state: DeviceState::On,
        arrived: 0,
        dropped: 0,
        polled: 0,
        bytes: 0,
        left: 0,
        polls: 0,
        granted: 0,
        missed: 0,
        disabled: 0,
        again: 0,
        released: 0,
        word: 0,
        held: 0,
        tx: TxCounts::NONE,
    };
}
