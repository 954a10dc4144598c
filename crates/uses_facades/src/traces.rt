//! A program that uses only `device_model`: its contract counts the rows of a trace.

ghost use Rattle.std.specs.Prelude.{◌≡◌, filter, length};
ghost use Rattle.device_model.specs.Script.{is_rx};

use device_model::{Event, Row, Trace};

fn is_arrival(row: &Row) -> bool
    ensures { result ≡ is_rx row.now.event }
{
    matches!(row.event, Event::Rx)
}

/// Returns how many packets arrive in a trace.
pub fn arrivals(trace: &Trace) -> usize
    ensures { result ≡ length (filter (λ row. is_rx row.event) trace.now.rows) }
{
    trace.rows().iter().filter(|row| is_arrival(row)).count()
}
