//! Each interleaving of a card, the thread that drives it, and stops of the device, with the real driver.

ghost use Rattle.std.specs.Prelude.{◌≤◌};

use crate::card::{DriverBench, DriverState, DriverStep, STEPS};
use driver_core::{DeviceSettings, Limits, Stage};
use std::alloc::Global;
use std::collections::{BTreeSet, VecDeque};
use std::mem;
use std::process::Abort;
use std::test::Fail;

const LIMITS: Limits = Limits {
    budget: 3,
    weight: 2,
    window: 2,
};

const PLAIN: DeviceSettings = DeviceSettings {
    weight: 2,
    defer_hard_irqs: 0,
    gro_flush_timeout: 0,
    empty_polls: 0,
};

const DEFERRED: DeviceSettings = DeviceSettings {
    weight: 2,
    defer_hard_irqs: 2,
    gro_flush_timeout: 1000,
    empty_polls: 0,
};

const BUSY: DeviceSettings = DeviceSettings {
    weight: 1,
    defer_hard_irqs: 0,
    gro_flush_timeout: 0,
    empty_polls: 2,
};

// Returns the bench after these steps.
fn bench_after(
    alloc: Global,
    settings: DeviceSettings,
    packets: u32,
    stops: u32,
    path: &[DriverStep],
) -> Result<DriverBench, Fail>
    requires { (1 ≤ settings.weight) × (settings.weight ≤ 2) }
{
    let mut bench = DriverBench::new(alloc, LIMITS, settings, packets, stops)?;
    for step in path {
        bench.make(*step);
    }
    Ok(bench)
}

// Checks the sleep: the device is closed and masked; or its card is unmasked, and has no packets or has an interrupt that isn't
// reported yet; or its card is masked, and its timer is set.
fn check_sleep(rt: &impl Abort, bench: &DriverBench) {
    if !bench.sleeps {
        return;
    }
    let card = bench.card;
    match bench.driver.device(0).stage {
        Stage::Closed => assert!(rt; card.masked, "closed and unmasked: {card:?}"),
        Stage::Armed => assert!(rt;
            !card.masked && (card.packets == 0 || card.interrupting),
            "sleeps with packets: {card:?}"
        ),
        Stage::Deferred => assert!(rt;
            card.masked && card.timer,
            "defers without a timer: {card:?}"
        ),
        stage => assert!(rt; false, "sleeps at {stage:?}"),
    }
}

// Checks that, if no more packets arrive, the thread takes all packets and then sleeps.
fn check_drains(rt: &impl Abort, mut bench: DriverBench) {
    for _ in 0..100 {
        if bench.sleeps && !bench.card.interrupting && !bench.card.timer {
            break;
        }
        let _ = bench.make(DriverStep::Interrupt)
            || bench.sleeps && bench.make(DriverStep::Expire)
            || bench.make(DriverStep::Act)
            || bench.make(DriverStep::Report)
            || bench.make(DriverStep::Rearm)
            || bench.make(DriverStep::Say);
    }
    check_sleep(rt, &bench);
    assert!(rt; bench.sleeps, "doesn't come to rest");
    let is_open = bench.driver.device(0).stage == Stage::Armed;
    assert!(rt;
        !is_open || bench.card.packets == 0,
        "left packets in the card"
    );
}

/// The counts of the states that an exploration visited.
#[derive(Clone, Copy)]
struct Met {
    states: usize,
    sleeping: u32,
    ends: u32,
}

// Visits each state that is possible with this many packets and stops.
fn explore(
    rt: &impl Abort,
    alloc: Global,
    settings: DeviceSettings,
    packets: u32,
    stops: u32,
) -> Result<Met, Fail>
    requires { (1 ≤ settings.weight) × (settings.weight ≤ 2) }
{
    let mut seen: BTreeSet<DriverState> = BTreeSet::new(alloc);
    let mut paths: VecDeque<Vec<DriverStep>> = VecDeque::new(alloc);
    paths.push_back(Vec::new(alloc))?;
    let mut met = Met {
        states: 0,
        sleeping: 0,
        ends: 0,
    };
    for _ in 0..1_000_000u32 {
        let Some(path) = paths.pop_front() else {
            break;
        };
        let mut is_end = true;
        let mut bench = bench_after(alloc, settings, packets, stops, &path)?;
        for step in STEPS {
            if !bench.make(step) {
                continue;
            }
            is_end = false;
            let again = bench_after(alloc, settings, packets, stops, &path)?;
            let mut reached = mem::replace(&mut bench, again);
            if !seen.insert(reached.state())? {
                continue;
            }
            assert!(rt; reached.refuses_old(), "accepts an old report");
            check_sleep(rt, &reached);
            met.sleeping = met.sleeping.saturating_add(u32::from(reached.sleeps));
            check_drains(rt, reached);
            let mut longer = path.clone()?;
            longer.push(step)?;
            paths.push_back(longer)?;
        }
        met.ends = met.ends.saturating_add(u32::from(is_end));
    }
    met.states = seen.len();
    assert!(rt; paths.is_empty(), "too many states");
    Ok(met)
}

#[test]
fn it_never_sleeps_with_work_left(rt: HostRuntime) -> Result<(), Fail> {
    let met = explore(&rt, rt.alloc(), PLAIN, 5, 2)?;
    assert!(&rt; met.sleeping > 0 && met.ends > 0, "{} states", met.states);
    Ok(())
}

#[test]
fn it_never_sleeps_without_a_timer(rt: HostRuntime) -> Result<(), Fail> {
    let met = explore(&rt, rt.alloc(), DEFERRED, 4, 1)?;
    assert!(&rt; met.sleeping > 0 && met.ends > 0, "{} states", met.states);
    Ok(())
}

#[test]
fn busy_polling_ends(rt: HostRuntime) -> Result<(), Fail> {
    let met = explore(&rt, rt.alloc(), BUSY, 3, 1)?;
    assert!(&rt; met.sleeping > 0 && met.ends > 0, "{} states", met.states);
    Ok(())
}
