//! A poll list for C, with the run over it.
ghost use Rattle.std.specs.Prelude.{◌≡◌, false};
ghost use Rattle.poll_runs.specs.Plain.{HasListRoom};
ghost use Rattle.poll_runs.specs.Steps.{HoldsNothing};
ghost use Rattle.c_handles.specs.Lists.{held_by_run, run_in};

use poll_runs::{PlainList, PollingRun};

/// The report of a run: `struct fq_run_report`.
#[repr(C)]
#[derive(Clone, Copy)]
pub struct FqRunReport {
    /// The size of this struct in bytes.
    pub size: usize,
    /// The number of polls, at most the window.
    pub polls: u32,
    /// The packets of all polls together.
    pub work: u32,
    /// Whether budget or window was used up.
    pub squeezed: bool,
}

/// A poll list of one thread, and the run over it, which is stored here while it is in progress.
#[derive(Drop)]
pub struct ListObject {
    pub(crate) list: PlainList,
    pub(crate) place: PollingRun,
    pub(crate) runs: bool,
    ghost few: { HasListRoom list (held_by_run (run_in runs place)) },
    ghost idle: { runs ≡ false → HoldsNothing place },
}
