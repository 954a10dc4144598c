//! The state of a caller and of the controller of a shared instance, for code that knows it only at run time: what their types
//! say elsewhere is a value here.
ghost use Rattle.std.specs.Prelude.{◌≡◌};
ghost use Rattle.napi_calls.specs.declared.state.CallerState.TheVariants as caller;
ghost use Rattle.napi_calls.specs.declared.state.ControlState.TheVariants as controller;

use crate::types::{Busy, Caller, Control, Granted, Marked, Off, On, Polling};
use std::mem;

/// The state of a caller. It is linear, like the value that it contains.
pub enum CallerState {
    /// The caller owns nothing.
    Rests(Caller),
    /// The caller was granted the instance, and has to queue it.
    Granted(Granted),
    /// The caller polls the instance.
    Polls(Polling),
    /// The caller busy polls the instance.
    Busy(Busy),
    /// The caller is taken out for a call.
    Gone,
}

/// The state of a controller. It is linear, like the value that it contains.
pub enum ControlState {
    /// Disabled.
    Off(Control<Off>),
    /// Enabled.
    On(Control<On>),
    /// A disable is pending.
    Marked(Control<Marked>),
    /// The controller is taken out for a call.
    Gone,
}

impl CallerState {
    /// Writes the state after a call to a caller that was taken out for it.
    #[inline(always)]
    pub fn put(&mut self, state: CallerState)
        requires { self.old ≡ caller.Gone }
        ensures { self.new ≡ state }
    {
        match mem::replace(self, state) {
            CallerState::Gone => {}
            _ => unreachable!(),
        }
    }

    /// Drops the caller, in any state: its instance can't be closed any more.
    pub fn abandon(self) {
        match self {
            CallerState::Rests(caller) => caller.abandon(),
            CallerState::Granted(granted) => granted.abandon(),
            CallerState::Polls(polling) => polling.abandon(),
            CallerState::Busy(busy) => busy.abandon(),
            CallerState::Gone => {}
        }
    }
}

impl ControlState {
    /// Writes the state after a call to a controller that was taken out for it.
    #[inline(always)]
    pub fn put(&mut self, state: ControlState)
        requires { self.old ≡ controller.Gone }
        ensures { self.new ≡ state }
    {
        match mem::replace(self, state) {
            ControlState::Gone => {}
            _ => unreachable!(),
        }
    }

    /// Drops the controller, in any state: its instance can't be closed any more.
    pub fn abandon(self) {
        match self {
            ControlState::Off(control) => control.abandon(),
            ControlState::On(control) => control.abandon(),
            ControlState::Marked(control) => control.abandon(),
            ControlState::Gone => {}
        }
    }
}
