//! The limits of runs.

ghost use Rattle.poll_runs.specs.Ranges.{IsBudget, IsWeight, IsWindow};

/// The limits of a run (`net_rx_action`).
#[derive(Clone, Copy, Debug, PartialEq, Eq)]
pub struct Limits {
    /// The packets after which it stops, 1 to 65535 (`netdev_budget`).
    pub budget: u32,
    /// The packets that one poll takes at most, 1 to 64 (`napi_struct.weight`).
    pub weight: u32,
    /// The polls after which it stops, 1 to 65535; it takes the place of `netdev_budget_usecs`.
    pub window: u32,
    ghost budgets: { IsBudget budget },
    ghost weights: { IsWeight weight },
    ghost windows: { IsWindow window },
}
