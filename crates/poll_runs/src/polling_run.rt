//! The state of a polling run between its polls.

ghost use Rattle.std.specs.Prelude.{◌≡◌, ◌+◌, ◌<◌, ◌≤◌, ◌++◌, true, is_some, length};
ghost use Rattle.poll_runs.specs.Turn.{asked_for};

use crate::soft::SoftList;

/// A polling run (`net_rx_action`) whose polls the caller makes: call [`begin`](PollingRun::begin); while
/// [`next`](PollingRun::next) returns a number, poll it and report the outcome by [`polled`](PollingRun::polled); then call
/// [`end`](PollingRun::end).
#[derive(Drop)]
pub struct PollingRun {
    pub(crate) own: SoftList,
    pub(crate) repoll: SoftList,
    pub(crate) asked: Option<u32>,
    pub(crate) budget: u32,
    pub(crate) weight: u32,
    pub(crate) window: u32,
    pub(crate) polls: u32,
    pub(crate) work: u32,
    ghost ranges: { (weight ≤ 64) × (budget ≤ 65535) × (window ≤ 65535) },
    ghost few: { length (asked_for asked ++ own) + length repoll ≤ 64 },
    ghost polls_are: { polls ≤ window },
    ghost work_is: { work < budget + weight },
    ghost left: { is_some asked ≡ true → (work < budget) × (polls < window) },
}
