//! The gate of a run.

use poll_engine::Gate;
use std::thread;
use std::time::{Clock, Duration};

/// A gate that delays the worker of device 1 before its first act.
#[derive(Drop)]
pub struct HoldsFirst<R> {
    rt: R,
    hold: Duration,
}

impl<R: Clock> HoldsFirst<R> {
    /// Returns a gate with this delay.
    pub fn new(rt: R, hold: Duration) -> HoldsFirst<R> {
        HoldsFirst { rt, hold }
    }
}

impl<R: Clock> Gate for HoldsFirst<R> {
    fn pass(&self, worker: u32, act: u32) -> bool {
        if worker == 1 && act == 0 && !self.hold.is_zero() {
            thread::sleep(&self.rt, self.hold);
        }
        true
    }
}
