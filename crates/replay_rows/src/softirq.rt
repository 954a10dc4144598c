//! The rows that are runs over the poll list.

ghost use Rattle.std.specs.Prelude.{◌≡◌};
ghost use Rattle.replay_rows.specs.Softirq.{is_softirq};

use device_rows::RowEvent;

/// Returns whether the event is a run over the poll list.
pub fn is_softirq(event: RowEvent) -> bool
    ensures { result ≡ is_softirq event }
{
    matches!(event, RowEvent::Softirq)
}
