//! A device whose acts are a fixed list.

ghost use Rattle.std.specs.Prelude.{◌≡◌, List};
ghost use Rattle.poll_engine.specs.declared.acts.Act.{Act};

use crate::acts::{Act, Device};
use std::marker::Model;

/// A device that returns the acts of a list, in order. It uses at most the first 4294967295 of them.
#[derive(Drop)]
pub struct ActList {
    acts: Vec<Act>,
}

impl Model for ActList {
    ghost Value = { List Act };

    ghost view = { λ d. d.acts.items };
}

impl ActList {
    /// Returns a device with these acts.
    pub fn new(acts: Vec<Act>) -> ActList
        ensures { result ≡ acts.items }
    {
        ActList { acts }
    }
}

impl Device for ActList {
    ghost use Rattle.std.specs.Prelude.{min, length, slice_index_or};
    ghost use Rattle.poll_engine.specs.declared.acts.Act.TheVariants.{Nothing};

    ghost acts = { λ d. min (length d) 4294967295 };

    ghost answer = { λ d k. slice_index_or d k Nothing };

    ghost after = { λ d _. d };

    fn acts(&self) -> u32 {
        self.acts.len().min(u32::MAX as usize) as u32
    }

    fn act(&mut self, k: u32) -> Act {
        self.acts[k as usize]
    }
}
