//! Which values may cross threads.
use crate::types::{Busy, Caller, Control, Granted, Marked, Napi, Off, On, Polling};

fn shared<T: Sync>() {}

fn sent<T: Send>() {}

/// Proves that threads can share an instance (`Sync`).
pub fn is_shared() {
    shared::<Napi>();
}

/// Proves that each value on which calls are made can be sent to another thread (`Send`).
pub fn is_sent() {
    sent::<Napi>();
    sent::<Caller>();
    sent::<Granted>();
    sent::<Polling>();
    sent::<Busy>();
    sent::<Control<Off>>();
    sent::<Control<On>>();
    sent::<Control<Marked>>();
}
