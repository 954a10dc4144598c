//! The devices of a replay over instances that threads could share.

use crate::shared_receive::SharedReceive;
use device_bench::DeviceBench;

/// The devices, each with its own instance, which threads could share. `SharedBench::new(rt, alloc)` makes a bench; `rt` is the
/// capability with which calls on its instances would wait. It is linear: `end` waits until no caller owns an instance,
/// disables and closes it, and polls all packets in its ring.
pub type SharedBench<R> = DeviceBench<SharedReceive<R>>;
