//! The objects of C's handles: what a handle refers to, how its object is lent to a call or taken out, and the effect of calls
//! on the callers and the controller of a shared instance and on a poll list, in every state. The exports are
//! in `napi_c`.
#![tactic(auto)]

mod answers;
mod body;
mod caller;
pub mod drive;
mod handle;
mod held;
mod input;
mod kind;
mod lister;
mod parts;
mod run;
mod sharing;
pub mod status;

pub use answers::FqAnswers;
pub use body::{Object, Ring};
pub use caller::{CallerObject, Controller, Shared};
pub use drive::{FqDeviceSettings, FqDeviceShown, FqTodo};
pub use handle::FqHandle;
pub use input::{FqRingShown, RingInput};
pub use kind::kind_of;
pub use lister::{FqRunReport, ListObject};
pub use sharing::is_sent;
