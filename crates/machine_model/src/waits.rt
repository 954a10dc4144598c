//! The waits of packets, counted in buckets.

ghost use Rattle.std.specs.Prelude.{◌≡◌, ◌≤◌, ◌<◌, IfOk, OnErr, OnOk, length, ◌-◌, ◌^◌};
ghost use Rattle.machine_model.specs.Waits.{bucket_of, counted, first_with, least_of, no_waits, summary_of, up_to, wait_at};

use std::alloc::{AllocError, Global};
use std::marker::Model;

/// The greatest number of buckets, for all waits of 64 bits.
const BUCKETS: usize = 28672;

/// What the report shows of waits. Times are in nanoseconds.
#[derive(Clone, Copy, Debug, PartialEq, Eq)]
pub struct WaitCounts {
    /// The number of waits.
    pub count: u64,
    /// Their sum divided by their count, rounded down; 0 if there are none.
    pub mean: u64,
    /// The median: the least wait of the bucket in which it is.
    pub wait50: u64,
    /// The 90th percentile.
    pub wait90: u64,
    /// The 99th percentile.
    pub wait99: u64,
    /// The 99.9th percentile.
    pub wait999: u64,
    /// The longest wait.
    pub most: u64,
}

/// The waits of packets in nanoseconds: their number, their sum, the longest one, and how many are in each bucket. Only the
/// buckets up to that of the longest wait are allocated.
#[derive(Drop)]
pub struct Waits {
    count: u64,
    sum: u128,
    most: u64,
    buckets: Vec<u64>,
}

impl Model for Waits {
    ghost use Rattle.std.specs.Prelude.{◌≤◌, length};
    ghost use Rattle.machine_model.specs.Waits.{WaitsView};

    ghost Value = { WaitsView };

    ghost view = { λ w. record { count = w.count; sum = w.sum; most = w.most; buckets = w.buckets.items } };

    ghost invariant = { λ w. length w.buckets.items ≤ 28672 };
}

// Returns the bucket of a wait.
fn bucket_of(wait: u64) -> usize
    ensures bucket { result ≡ bucket_of wait }
    ensures below { result < 28672 }
{
    let rest = 54u32.saturating_sub(wait.leading_zeros());
    512 * rest as usize + (wait >> rest) as usize
}

// Returns the first bucket such that it and the buckets before it have at least this many waits; bucket 0 if there is none.
fn first_with(buckets: &[u64], mut rank: u64) -> usize
    ensures bucket { result ≡ first_with rank 0 buckets.now }
    ensures below { 0 < length buckets.now → result < length buckets.now }
    ensures first { length buckets.now ≤ 0 → result ≡ 0 }
{
    for (bucket, count) in buckets.iter().enumerate() {
        if rank <= *count {
            return bucket;
        }
        rank -= *count;
    }
    0
}

// Returns the least wait of a bucket.
fn least_of(bucket: usize) -> u64
    requires { bucket < 28672 }
    ensures { result ≡ least_of bucket }
{
    let rest = (bucket / 512).saturating_sub(1);
    ((bucket - 512 * rest) as u64) << rest
}

// Extends the buckets by empty ones, up to this one. If the allocation fails, they stay as they are.
fn extend(buckets: &mut Vec<u64>, bucket: usize) -> Result<(), AllocError>
    requires bucket { bucket < 28672 }
    requires few { length buckets.old.items ≤ 28672 }
    ensures buckets { OnOk result (buckets.new.items ≡ up_to bucket buckets.old.items) }
    ensures within { OnOk result (bucket < length buckets.new.items) }
    ensures kept { OnErr result (buckets.new.items ≡ buckets.old.items) }
    ensures few { length buckets.new.items ≤ 28672 }
{
    if buckets.len() <= bucket {
        buckets.resize(bucket + 1, 0)?;
    }
    Ok(())
}

impl Waits {
    /// Returns counts without a wait, which don't allocate.
    #[tactic(auto, unfolding(crate::specs::Waits::no_waits))]
    pub fn new(alloc: Global) -> Waits
        ensures { result ≡ no_waits }
    {
        Waits {
            count: 0,
            sum: 0,
            most: 0,
            buckets: Vec::new(alloc),
        }
    }

    /// Returns a percentile: the least wait of the first bucket such that it and those below it have at least this many of 1000
    /// waits; 0 if there are no waits.
    pub fn wait_at(&self, share: u32) -> u64
        requires { share ≤ 1000 }
        ensures { result ≡ wait_at share self.now }
    {
        if self.count == 0 {
            return 0;
        }
        let rank = (u128::from(share) * u128::from(self.count) + 999) / 1000;
        least_of(first_with(&self.buckets, rank as u64))
    }

    /// Returns what the report shows of these waits.
    pub fn summary(&self) -> WaitCounts
        ensures { result ≡ summary_of self.now }
    {
        let mean = self.sum.checked_div(u128::from(self.count)).unwrap_or(0);
        WaitCounts {
            count: self.count,
            mean: mean.min(u128::from(u64::MAX)) as u64,
            wait50: self.wait_at(500),
            wait90: self.wait_at(900),
            wait99: self.wait_at(990),
            wait999: self.wait_at(999),
            most: self.most,
        }
    }

    /// Counts one more wait. Fails if the allocation of the buckets up to its own fails; then the wait isn't counted.
    #[tactic(auto, unfolding(crate::specs::Waits::counted))]
    pub fn count(&mut self, wait: u64) -> Result<(), AllocError>
        ensures counted { OnOk result (self.new ≡ counted wait self.old) }
        ensures kept { OnErr result (self.new ≡ self.old) }
    {
        let bucket = bucket_of(wait);
        extend(&mut self.buckets, bucket)?;
        self.count = self.count.saturating_add(1);
        self.sum = self.sum.saturating_add(u128::from(wait));
        self.most = self.most.max(wait);
        self.buckets[bucket] = self.buckets[bucket].saturating_add(1);
        Ok(())
    }
}
