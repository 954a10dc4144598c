//! A row of a trace.

use crate::event::RowEvent;

/// One row. In a [`Trace`](crate::Trace) its numbers are in their ranges.
#[derive(Clone, Copy, Debug, PartialEq, Eq)]
pub struct Row {
    /// The time of the row in milliseconds. Times need not increase.
    pub moment: u64,
    /// The device's number, 1 to 16; 0 for a softirq.
    pub device: u32,
    /// What happens.
    pub event: RowEvent,
    /// The ring capacity of an open (1 to 65536), the bytes of an rx or a tx (1 to 65535), the packets of a done (at most
    /// 65536), 0 or 1 for a threaded, the rounds of a busy (1 to 65535), and otherwise 0.
    pub value: u32,
}
