//! The limit in whole numbers, on which the rules are defined.

/// A queue limit whose counters never wrap. Each field names its counterpart in the kernel's `struct dql`.
///
/// `specs/Limit.antt` defines what each call does to it, and [`Dql::to_limit`](crate::Dql::to_limit) returns one.
#[derive(Clone, Copy, Debug, PartialEq, Eq)]
pub struct Limit {
    /// All bytes ever queued (`num_queued`).
    pub queued: u128,
    /// All bytes ever completed (`num_completed`).
    pub completed: u128,
    /// The bytes of the object that was queued last (`last_obj_cnt`).
    pub last_object: u128,
    /// How many bytes may be in flight (`limit`).
    pub limit: u128,
    /// The bytes ever queued at the time of the previous completion (`prev_num_queued`).
    pub previous_queued: u128,
    /// The bytes over the limit at the previous completion (`prev_ovlimit`).
    pub previous_over: u128,
    /// The bytes of the object that was last queued at the time of the previous completion (`prev_last_obj_cnt`).
    pub previous_last_object: u128,
    /// The lowest slack since `slack_start` (`lowest_slack`).
    pub lowest_slack: u128,
    /// The time, in milliseconds, since which there is slack (`slack_start_time`).
    pub slack_start: u64,
    /// The least limit (`min_limit`).
    pub min_limit: u128,
    /// The greatest limit (`max_limit`).
    pub max_limit: u128,
    /// How long slack has to last, in milliseconds (`slack_hold_time`).
    pub hold: u64,
}
