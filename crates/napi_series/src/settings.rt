//! What the arguments ask for.

ghost use Rattle.std.specs.Prelude.{◌≤◌};
ghost use Rattle.std.specs.Option.{ForSome};

use text_io::ReplaySettings;

/// The options of a series, which come before those of the replay.
#[derive(Clone, Copy)]
pub(crate) struct SeriesOptions {
    /// How many rows make one line, 1 to 99999; by default 1.
    pub(crate) every: Option<u32>,
    /// The most runs that are added after a softirq row; by default none are.
    pub(crate) restarts: Option<u32>,
    /// Whether each poll of a softirq row has a line.
    pub(crate) polls: bool,
    /// Whether the rows are printed, in place of the series.
    pub(crate) rows: bool,
}

/// The settings of a series.
#[derive(Clone, Copy)]
pub(crate) struct SeriesSettings {
    /// The options of the series.
    pub(crate) options: SeriesOptions,
    /// The settings of the replay, which is on one thread.
    pub(crate) replay: ReplaySettings,
    ghost every_in: { ForSome options.every (λ n. 1 ≤ n) },
}

impl SeriesSettings {
    ghost use Rattle.std.specs.Prelude.{◌≡◌, ◌<◌};
    ghost use Rattle.napi_series.specs.Series.{every_of};

    /// How many rows make one line.
    pub(crate) fn every(&self) -> u32
        ensures every { result ≡ every_of self.now }
        ensures range { 0 < result }
    {
        match self.options.every {
            Some(every) => every,
            None => 1,
        }
    }
}
