//! What a run is set up from: the opened instances, the pollers and workers with their parts, and what all threads share. Only here
//! are traces made and extended: a thread has those that it was given, and uses its gate and its wakers only with them.

pub(crate) mod context;
pub(crate) mod opening;
pub(crate) mod pollers;
pub(crate) mod signals;
pub(crate) mod spreading;
pub(crate) mod trail;
