//! The order in which a driver asks for work, of which no contract says more than that it is due.

use driver_core::{Driver, Limits, Rearm, What};
use napi_model::Prep;
use std::test::Fail;

const LIMITS: Limits = Limits {
    budget: 300,
    weight: 64,
    window: 10,
};

// work at cards comes before polls, and lower numbers come first
#[test]
fn cards_first(rt: HostRuntime) -> Result<(), Fail> {
    let mut driver = Driver::new(rt.alloc(), 3, LIMITS, 0)?;
    assert_eq!(rt; driver.open(2), Ok(()));
    assert_eq!(rt; driver.open(1), Ok(()));
    let unmask = driver.next();
    assert_eq!(rt; unmask.what, What::Unmask(1));
    let (_, look) = driver.step(unmask.number, 0, Rearm::No);
    assert_eq!(rt; look.what, What::Look(1));
    let (_, mask) = driver.step(look.number, 1, Rearm::No);
    assert_eq!(rt; mask.what, What::Mask(1));
    let (_, other) = driver.step(mask.number, 0, Rearm::No);
    assert_eq!(rt; other.what, What::Unmask(2));
    let (_, look) = driver.step(other.number, 0, Rearm::No);
    assert_eq!(rt; look.what, What::Look(2));
    let (_, fetch) = driver.step(look.number, 0, Rearm::No);
    assert_eq!(rt; fetch.what, What::Fetch(1, 64));
    assert_eq!(rt; driver.interrupt(2), Prep::Granted);
    let (_, mask) = driver.step(fetch.number, 64, Rearm::No);
    assert_eq!(rt; mask.what, What::Mask(2));
    Ok(())
}
