//! The numbers of stations.

ghost use Rattle.std.specs.Prelude.{◌≡◌, ◌==◌};
ghost use Rattle.std.specs.List.{list_any};
ghost use Rattle.poll_engine.specs.Numbers.{have_distinct_numbers, numbers_of};

use crate::station::Station;

// Returns whether one of the stations has the number.
fn is_among<D: Drop>(number: u32, stations: &[Station<D>]) -> bool
    ensures { result ≡ list_any (λ other. other == number) (numbers_of stations.now) }
{
    stations
        .iter()
        .map(|station| station.number)
        .any(|other| other == number)
}

/// Returns whether no two stations have the same number, as `run_workers` requires.
pub fn have_distinct_numbers<D: Drop>(stations: &[Station<D>]) -> bool
    ensures { result ≡ have_distinct_numbers stations.now }
{
    let mut rest = stations;
    for _ in 0..stations.len() {
        let Some((first, more)) = rest.split_first() else {
            break;
        };
        if is_among(first.number, more) {
            return false;
        }
        rest = more;
    }
    true
}
