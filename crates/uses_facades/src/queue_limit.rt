//! A program that uses only `dql_core`: its contract is about the limit in whole numbers that a limit of wrapping counters
//! represents.

ghost use Rattle.std.specs.Prelude.{◌≡◌, true, false};
ghost use Rattle.dql_core.specs.Dql.{Shows};
ghost use Rattle.dql_core.specs.Limit.{after_queued};
ghost use Rattle.dql_core.specs.declared.whole.Limit.{Limit};

use dql_core::Dql;

/// Queues an object if enough bytes are available, and returns whether it did; otherwise the limit is unchanged.
pub fn queue_within(limit: &mut Dql, count: u32) -> bool
    ensures queued { result ≡ true → (s : Limit) → Shows limit.old s
        → Shows limit.new (after_queued s count) }
    ensures same { result ≡ false → limit.new ≡ limit.old }
{
    limit.avail() > 0 && limit.queued(count).is_ok()
}
