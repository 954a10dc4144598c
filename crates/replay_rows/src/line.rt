//! What a row that polls adds to the report.

use poll_runs::{BusyReport, RunReport, ThreadReport};

/// What one row did that polled.
#[derive(Clone, Copy)]
pub enum PollRecord {
    /// A softirq row: its number, and the run over the poll list.
    Softirq {
        row: u32,
        run: RunReport,
    },
    /// A kthread row: its number, its device, and the polling by the device's thread.
    Kthread {
        row: u32,
        device: u32,
        report: ThreadReport,
    },
    /// A busy row: its number, its device, and the busy polling of the device.
    Busy {
        row: u32,
        device: u32,
        report: BusyReport,
    },
}

ghost use Rattle.std.specs.Prelude.{◌≡◌};
ghost use Rattle.replay_rows.specs.Report.{record_row};

impl PollRecord {
    /// The number of the row.
    pub fn row(&self) -> u32
        ensures { result ≡ record_row self.now }
    {
        match self {
            PollRecord::Softirq { row, .. } => *row,
            PollRecord::Kthread { row, .. } => *row,
            PollRecord::Busy { row, .. } => *row,
        }
    }
}
