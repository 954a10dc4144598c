//! The settings of a replay.

/// The greatest number of threads that poll.
pub const MOST_POLLERS: u32 = 8;

/// The greatest budget of a run.
pub const MOST_BUDGET: u32 = 65535;

/// The greatest weight of a poll.
pub const MOST_WEIGHT: u32 = 64;

/// The greatest window of a run.
pub const MOST_WINDOW: u32 = 65535;

/// The settings of a replay: the parameters of a run over the poll list.
#[derive(Clone, Copy, Debug, PartialEq, Eq)]
pub struct ReplaySettings {
    /// Threads that poll, 1 to 8. A replay on one thread doesn't use it.
    pub pollers: u32,
    /// Packets that a run polls before it is squeezed, 1 to 65535 (`netdev_budget`).
    pub budget: u32,
    /// Packets that one poll may process, 1 to 64 (`NAPI_POLL_WEIGHT`).
    pub weight: u32,
    /// Polls that a run makes before it is squeezed, 1 to 65535. It takes the place of the kernel's `netdev_budget_usecs`.
    pub window: u32,
    ghost pollers_in: { (1 ≤ pollers) × (pollers ≤ 8) },
    ghost budget_in: { (1 ≤ budget) × (budget ≤ 65535) },
    ghost weight_in: { (1 ≤ weight) × (weight ≤ 64) },
    ghost window_in: { (1 ≤ window) × (window ≤ 65535) },
}

ghost use Rattle.std.specs.Prelude.{◌≤◌};

impl ReplaySettings {
    ghost use Rattle.std.specs.Prelude.{◌≡◌, ◌≤◌, ◌↔◌, IsSome, IfSome};

    /// Returns the settings with these numbers, or `None` exactly if one is out of its range.
    pub fn new(pollers: u32, budget: u32, weight: u32, window: u32) -> Option<ReplaySettings>
        ensures lawful { IsSome result
            ↔ (((1 ≤ pollers) × (pollers ≤ 8)) × ((1 ≤ budget) × (budget ≤ 65535))
            × ((1 ≤ weight) × (weight ≤ 64)) × ((1 ≤ window) × (window ≤ 65535))) }
        ensures pollers { IfSome result (λ s. s.pollers ≡ pollers) }
        ensures budget { IfSome result (λ s. s.budget ≡ budget) }
        ensures weight { IfSome result (λ s. s.weight ≡ weight) }
        ensures window { IfSome result (λ s. s.window ≡ window) }
    {
        let pollers_in = 1 <= pollers && pollers <= MOST_POLLERS;
        let budget_in = 1 <= budget && budget <= MOST_BUDGET;
        let weight_in = 1 <= weight && weight <= MOST_WEIGHT;
        let window_in = 1 <= window && window <= MOST_WINDOW;
        if pollers_in && budget_in && weight_in && window_in {
            Some(ReplaySettings {
                pollers,
                budget,
                weight,
                window,
            })
        } else {
            None
        }
    }
}

impl Default for ReplaySettings {
    ghost use Rattle.text_io.specs.Defaults.{HasDefaults};

    ghost is_default = { HasDefaults };

    /// One poller, a budget of 300, a weight of 64 and a window of 1024.
    fn default() -> ReplaySettings {
        ReplaySettings {
            pollers: 1,
            budget: 300,
            weight: 64,
            window: 1024,
        }
    }
}
