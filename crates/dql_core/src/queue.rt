//! The limit as the kernel keeps it: 32-bit counters that wrap.

ghost use Rattle.std.specs.Prelude.{◌≡◌, ◌+◌, ◌-◌, ◌%◌, ◌<◌, ◌≤◌};
ghost use Rattle.dql_core.specs.Counter.{distance_of};
ghost use Rattle.dql_core.specs.Bounds.{DQL_MAX_LIMIT, DQL_MAX_OBJECT, most_in_flight};

use crate::bounds::{MAX_IN_FLIGHT, MAX_LIMIT, MAX_OBJECT};
use crate::counter::{advance, distance, is_at_or_after, positive_difference, signed_difference};
use crate::event::{DqlFault, LimitEvent};
use crate::whole::Limit;

// The new limit and slack that a completion computes, before the limit is clamped.
#[derive(Clone, Copy)]
struct Adjustment {
    limit: u32,
    lowest_slack: u32,
    slack_start: u64,
}

/// A dynamic queue limit (the kernel's `struct dql`): how many bytes may be in flight. A completion raises it if the queue
/// starved, and lowers it if the queue held more than it needed.
///
/// [`queued`](Dql::queued) adds bytes, [`completed`](Dql::completed) removes them. The limit is advisory: more bytes may be
/// queued than [`avail`](Dql::avail) returns, up to [`MAX_IN_FLIGHT`](crate::MAX_IN_FLIGHT) in flight. The counters wrap after
/// 2^32 bytes, and all results stay those of the same limit in whole numbers, [`Limit`](crate::Limit). Times are milliseconds
/// of a clock that the caller chooses. Each call except [`run`](Dql::run) takes constant time, and none allocates.
#[derive(Debug, Drop)]
#[repr(C)]
pub struct Dql {
    queued: u32,
    completed: u32,
    last_object: u32,
    limit: u32,
    previous_queued: u32,
    previous_over: u32,
    previous_last_object: u32,
    lowest_slack: u32,
    slack_start: u64,
    min_limit: u32,
    max_limit: u32,
    hold: u64,
    ghost bounds: { (min_limit ≤ limit) × (limit ≤ max_limit) × (max_limit ≤ DQL_MAX_LIMIT) },
    ghost in_flight: { distance_of queued completed ≤ most_in_flight },
    ghost previous: { distance_of previous_queued completed ≤ distance_of queued completed },
    // limit + previous_over is at most MAX_IN_FLIGHT if previous_over isn't 0
    ghost over: { previous_over ≤ most_in_flight - limit },
    ghost objects: { (last_object ≤ DQL_MAX_OBJECT) × (previous_last_object ≤ DQL_MAX_OBJECT) },
}

impl Dql {
    ghost use Rattle.std.specs.Prelude.{◌≡◌, ℕ, ◌+◌, ◌-◌, ◌%◌, ◌^◌, ◌<◌, ◌≤◌, ◌⊎◌, ◌↔◌, IsOk, IfOk, IfErr, OnOk, OnErr, IsErr, length, fold, is_some, pos, ◌-ℤ◌};
    ghost use Rattle.std.specs.Result.{result_err};
    ghost use Rattle.dql_core.specs.Accepted.{accepted, after_all};
    ghost use Rattle.dql_core.specs.Counter.{IsWrapped, distance_of};
    ghost use Rattle.dql_core.specs.Dql.{Shows, IsNewLimit, bytes_in_flight, with_adjustment};
    ghost use Rattle.dql_core.specs.Limit.{new_limit, in_flight_of, avail_of, after_reset, after_queued, over_of, completes_previous, is_starved, was_busy, slack_of, slackened, adjusted, limit_settled, after_completed, queued_fault, completed_fault, limit_event_fault, limit_after};
    ghost use Rattle.dql_core.specs.declared.event.DqlFault.TheVariants.{BadBounds};
    ghost use Rattle.dql_core.specs.declared.whole.Limit.{Limit};

    /// Returns a new limit between `min` and `max` bytes, made at the time `now`, which starts at `min`; slack has to last
    /// longer than `hold` milliseconds before the limit shrinks. The kernel's `dql_init` uses the bounds 0 and
    /// [`MAX_LIMIT`](crate::MAX_LIMIT).
    ///
    /// Fails with [`BadBounds`](DqlFault::BadBounds) if `min` is over `max` or `max` over `MAX_LIMIT`.
    pub fn new(min: u32, max: u32, hold: u64, now: u64) -> Result<Dql, DqlFault>
        ensures ok { IfOk result (λ d. Shows d (new_limit min max hold now)) }
        ensures fresh { IfOk result IsNewLimit }
        ensures fault { IfErr result (λ e. e ≡ BadBounds) }
        ensures refused { IsErr result ↔ ((max < min) ⊎ (DQL_MAX_LIMIT < max)) }
    {
        if min > max || max > MAX_LIMIT {
            return Err(DqlFault::BadBounds);
        }
        Ok(Dql {
            queued: 0,
            completed: 0,
            last_object: 0,
            limit: min,
            previous_queued: 0,
            previous_over: 0,
            previous_last_object: 0,
            lowest_slack: u32::MAX,
            slack_start: now,
            min_limit: min,
            max_limit: max,
            hold,
        })
    }

    /// Resets the limit at the time `now` (`dql_reset`), with the bounds and the hold time of [`new`](Dql::new): nothing is in
    /// flight, and the limit is its least.
    pub fn reset(&mut self, now: u64)
        ensures reset { (s : Limit) → Shows self.old s → Shows self.new (after_reset s now) }
        ensures fresh { IsNewLimit self.new }
    {
        self.queued = 0;
        self.completed = 0;
        self.last_object = 0;
        self.limit = self.min_limit;
        self.previous_queued = 0;
        self.previous_over = 0;
        self.previous_last_object = 0;
        self.lowest_slack = u32::MAX;
        self.slack_start = now;
    }

    /// The limit in bytes: how many may be in flight.
    pub fn limit(&self) -> u32
        ensures { (s : Limit) → Shows self.now s → result ≡ s.limit }
    {
        self.limit
    }

    /// The bytes in flight: queued and not yet completed, at most [`MAX_IN_FLIGHT`](crate::MAX_IN_FLIGHT).
    pub fn in_flight(&self) -> u32
        ensures counter { (result ≡ bytes_in_flight self.now) × (result ≤ most_in_flight) }
        ensures whole { (s : Limit) → Shows self.now s → result ≡ in_flight_of s }
    {
        distance(self.queued, self.completed)
    }

    /// The bytes that may still be queued: the limit minus the bytes in flight, negative if the queue is over its limit
    /// (`dql_avail`). The kernel's value is stale between a reset and the next completion; this one never is.
    pub fn avail(&self) -> i64
        ensures { (s : Limit) → Shows self.now s → result ≡ avail_of s }
    {
        signed_difference(self.adjusted_limit(), self.queued)
    }

    /// All bytes ever queued since the limit was new or reset, modulo 2^32 (the kernel's `num_queued`).
    pub fn total_queued(&self) -> u32
        ensures { (s : Limit) → Shows self.now s → IsWrapped result s.queued }
    {
        self.queued
    }

    /// All bytes ever completed since the limit was new or reset, modulo 2^32 (the kernel's `num_completed`).
    pub fn total_completed(&self) -> u32
        ensures { (s : Limit) → Shows self.now s → IsWrapped result s.completed }
    {
        self.completed
    }

    /// Returns a limit in whole numbers that this one represents, as if its counters hadn't wrapped yet. So there always is
    /// one, and what the other calls state for each such limit is never vacuous.
    pub fn to_limit(&self) -> Limit
        ensures { Shows self.now result }
    {
        let completed = u128::from(self.completed);
        Limit {
            queued: completed + u128::from(distance(self.queued, self.completed)),
            completed,
            last_object: u128::from(self.last_object),
            limit: u128::from(self.limit),
            previous_queued: completed + u128::from(distance(self.previous_queued, self.completed)),
            previous_over: u128::from(self.previous_over),
            previous_last_object: u128::from(self.previous_last_object),
            lowest_slack: u128::from(self.lowest_slack),
            slack_start: self.slack_start,
            min_limit: u128::from(self.min_limit),
            max_limit: u128::from(self.max_limit),
            hold: self.hold,
        }
    }

    // The kernel's `adj_limit`.
    fn adjusted_limit(&self) -> u32
        ensures { (s : Limit) → Shows self.now s → IsWrapped result (s.limit + s.completed) }
    {
        advance(self.completed, self.limit)
    }

    /// Adds an object of `count` bytes (`dql_queued`).
    ///
    /// Fails with [`TooLarge`](DqlFault::TooLarge) if `count` is over [`MAX_OBJECT`](crate::MAX_OBJECT), otherwise with
    /// [`TooMuchInFlight`](DqlFault::TooMuchInFlight) if more than [`MAX_IN_FLIGHT`](crate::MAX_IN_FLIGHT) bytes would be in
    /// flight; nothing is queued then.
    #[inline(always)]
    pub fn queued(&mut self, count: u32) -> Result<(), DqlFault>
        ensures ok { (s : Limit) → Shows self.old s
            → OnOk result (Shows self.new (after_queued s count)) }
        ensures err { OnErr result (self.new ≡ self.old) }
        ensures fault { (s : Limit) → Shows self.old s → result_err result ≡ queued_fault s count }
        ensures in_flight { OnOk result
            (bytes_in_flight self.new ≡ bytes_in_flight self.old + count) }
    {
        if count > MAX_OBJECT {
            return Err(DqlFault::TooLarge);
        }
        if self.in_flight() + count > MAX_IN_FLIGHT {
            return Err(DqlFault::TooMuchInFlight);
        }
        self.last_object = count;
        self.queued = advance(self.queued, count);
        Ok(())
    }

    /// Completes `count` bytes at the time `now`, and adjusts the limit (`dql_completed`).
    ///
    /// A time before that of an earlier call is no error; it counts as no slack time.
    ///
    /// Fails with [`MoreThanQueued`](DqlFault::MoreThanQueued) if fewer than `count` bytes are in flight; nothing is completed
    /// then.
    #[inline(always)]
    pub fn completed(&mut self, count: u32, now: u64) -> Result<(), DqlFault>
        ensures ok { (s : Limit) → Shows self.old s
            → OnOk result (Shows self.new (after_completed s count now)) }
        ensures err { OnErr result (self.new ≡ self.old) }
        ensures fault { (s : Limit) → Shows self.old s
            → result_err result ≡ completed_fault s count }
        ensures in_flight { OnOk result
            (bytes_in_flight self.new + count ≡ bytes_in_flight self.old) }
        ensures room { IsOk result ↔ (count ≤ bytes_in_flight self.old) }
    {
        if count > self.in_flight() {
            return Err(DqlFault::MoreThanQueued);
        }
        let adjustment = self.adjustment(count, now);
        self.settle(count, adjustment);
        Ok(())
    }

    /// Makes these calls in order, and returns how many failed.
    pub fn run(&mut self, events: &[LimitEvent]) -> u64
        ensures state { (s : Limit) → Shows self.old s
            → Shows self.new (after_all limit_event_fault limit_after s events.now) }
        ensures refused { (s : Limit) → Shows self.old s
            → result + length (accepted limit_event_fault limit_after s events.now)
            ≡ length events.now }
    {
        let mut refused = 0u64;
        for i in 0..events.len() {
            let event = events[i];
            refused += u64::from(self.apply(event).is_err());
        }
        refused
    }

    // Makes the call that the event names.
    fn apply(&mut self, event: LimitEvent) -> Result<(), DqlFault>
        ensures ok { (s : Limit) → Shows self.old s
            → OnOk result (Shows self.new (limit_after s event)) }
        ensures err { OnErr result (self.new ≡ self.old) }
        ensures fault { (s : Limit) → Shows self.old s
            → result_err result ≡ limit_event_fault s event }
    {
        match event {
            LimitEvent::Queued(count) => self.queued(count),
            LimitEvent::Completed(count, now) => self.completed(count, now),
            LimitEvent::Reset(now) => {
                self.reset(now);
                Ok(())
            }
        }
    }

    // The bytes in flight over the limit (`ovlimit`).
    fn over(&self) -> u32
        ensures counter { result ≡ bytes_in_flight self.now - self.now.limit }
        ensures whole { (s : Limit) → Shows self.now s → result ≡ over_of s }
    {
        self.in_flight().saturating_sub(self.limit)
    }

    fn completed_after(&self, count: u32) -> u32
        ensures counter { (result ≡ (self.now.completed + count) % 2 ^ 32)
            × (self.now.completed < 2 ^ 32) }
        ensures whole { (s : Limit) → Shows self.now s → IsWrapped result (s.completed + count) }
    {
        advance(self.completed, count)
    }

    // Returns whether this completion completes all that was queued at the previous one (`all_prev_completed`).
    fn completes_previous(&self, count: u32) -> bool
        requires { count ≤ bytes_in_flight self.now }
        ensures { (s : Limit) → Shows self.now s → result ≡ completes_previous s count }
    {
        is_at_or_after(self.completed_after(count), self.previous_queued)
    }

    fn is_starved(&self, count: u32) -> bool
        requires { count ≤ bytes_in_flight self.now }
        ensures { (s : Limit) → Shows self.now s → result ≡ is_starved s count }
    {
        // a completion of all bytes also completes those queued at the previous one
        if self.in_flight() == count {
            return self.over() != 0 || self.previous_over != 0;
        }
        self.previous_over != 0 && self.completes_previous(count)
    }

    fn is_busy(&self, count: u32) -> bool
        requires { count ≤ bytes_in_flight self.now }
        ensures { (s : Limit) → Shows self.now s → result ≡ was_busy s count }
    {
        self.in_flight() != count
            && distance(self.previous_queued, self.completed) != 0
            && !self.completes_previous(count)
    }

    // The bytes in the queue that weren't needed to keep it busy.
    fn slack(&self, count: u32) -> u32
        requires { count ≤ most_in_flight }
        ensures most { result ≤ DQL_MAX_LIMIT }
        ensures whole { (s : Limit) → Shows self.now s → result ≡ slack_of s count }
    {
        let last = if self.previous_over == 0 {
            0
        } else {
            positive_difference(self.previous_last_object, self.previous_over)
        };
        positive_difference(self.limit + self.previous_over, 2 * count).max(last)
    }

    // The bytes that this completion completes beyond those queued at the previous one.
    fn completed_beyond_previous(&self, count: u32) -> u32
        requires { count ≤ bytes_in_flight self.now }
        ensures most { result ≤ count }
        ensures whole { (s : Limit) → Shows self.now s
            → result ≡ (s.completed + count) - s.previous_queued }
    {
        positive_difference(self.completed_after(count), self.previous_queued)
    }

    fn adjustment(&self, count: u32, now: u64) -> Adjustment
        requires { count ≤ bytes_in_flight self.now }
        ensures { (s : Limit) → Shows self.now s → with_adjustment s result ≡ adjusted s count now }
    {
        if self.is_starved(count) {
            return Adjustment {
                limit: self.limit + (self.completed_beyond_previous(count) + self.previous_over),
                lowest_slack: u32::MAX,
                slack_start: now,
            };
        }
        if self.is_busy(count) {
            return self.slackened(self.lowest_slack.min(self.slack(count)), now);
        }
        Adjustment {
            limit: self.limit,
            lowest_slack: self.lowest_slack,
            slack_start: self.slack_start,
        }
    }

    fn slackened(&self, lowest: u32, now: u64) -> Adjustment
        requires { lowest ≤ DQL_MAX_LIMIT }
        ensures { (s : Limit) → Shows self.now s
            → with_adjustment s result ≡ slackened s lowest now }
    {
        if now.saturating_sub(self.slack_start) > self.hold {
            return Adjustment {
                limit: positive_difference(self.limit, lowest),
                lowest_slack: u32::MAX,
                slack_start: now,
            };
        }
        Adjustment {
            limit: self.limit,
            lowest_slack: lowest,
            slack_start: self.slack_start,
        }
    }

    // Counts the completion, and clamps the limit.
    fn settle(&mut self, count: u32, adjustment: Adjustment)
        requires { count ≤ bytes_in_flight self.old }
        ensures in_flight { bytes_in_flight self.new + count ≡ bytes_in_flight self.old }
        ensures whole { (s : Limit) → Shows self.old s
            → Shows self.new (limit_settled s count (with_adjustment s adjustment)) }
    {
        let limit = adjustment.limit.min(self.max_limit).max(self.min_limit);
        let over = if limit == self.limit { self.over() } else { 0 };
        self.completed = self.completed_after(count);
        self.limit = limit;
        self.previous_queued = self.queued;
        self.previous_over = over;
        self.previous_last_object = self.last_object;
        self.lowest_slack = adjustment.lowest_slack;
        self.slack_start = adjustment.slack_start;
    }
}
