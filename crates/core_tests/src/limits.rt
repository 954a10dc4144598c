//! Queue limits worked out by hand, number by number: the definition of the limit compared with the kernel's rules.

use dql_core::{Dql, DqlFault, LimitEvent};
use std::process::Abort;
use std::test::Fail;

fn wide_limit() -> Result<Dql, DqlFault> {
    Dql::new(0, 1_879_048_192, 1000, 0)
}

// Returns a limit that has grown to 3000 bytes.
fn grown_limit(rt: &impl Abort) -> Result<Dql, DqlFault> {
    let mut limit = wide_limit()?;
    limit.queued(1500)?;
    assert_eq!(rt; limit.avail(), -1500);
    limit.completed(1500, 6)?;
    assert_eq!(rt; (limit.limit(), limit.avail()), (1500, 1500));
    limit.queued(1500)?;
    limit.queued(1500)?;
    assert_eq!(rt; limit.avail(), -1500);
    limit.completed(1500, 6)?;
    assert_eq!(rt; (limit.limit(), limit.avail()), (1500, 0));
    limit.completed(1500, 7)?;
    assert_eq!(rt; (limit.limit(), limit.avail()), (3000, 3000));
    Ok(limit)
}

#[test]
fn limit_grows(rt: HostRuntime) -> Result<(), Fail> {
    let mut limit = grown_limit(&rt)?;
    limit.reset(50);
    assert_eq!(rt;
        (limit.limit(), limit.avail(), limit.in_flight()),
        (0, 0, 0)
    );
    Ok(())
}

#[test]
fn slack_shrinks_the_limit(rt: HostRuntime) -> Result<(), Fail> {
    for (moment, limit_then, avail_then) in [(1100, 2000, 0), (1007, 3000, 1000), (1008, 2000, 0)] {
        let mut limit = grown_limit(&rt)?;
        for _ in 0..3 {
            limit.queued(1000)?;
        }
        assert_eq!(rt; limit.avail(), 0);
        limit.completed(1000, 8)?;
        assert_eq!(rt; (limit.limit(), limit.avail()), (3000, 1000));
        limit.queued(1000)?;
        assert_eq!(rt; limit.avail(), 0);
        limit.completed(1000, moment)?;
        assert_eq!(rt;
            (limit.limit(), limit.avail()),
            (limit_then, avail_then),
            "at {moment}"
        );
    }
    Ok(())
}

// the totals are 4563402735 bytes each, and the counters show them modulo 2^32
#[test]
fn totals_past_32_bits(rt: HostRuntime) -> Result<(), Fail> {
    let pair = [
        LimitEvent::Queued(268_435_455),
        LimitEvent::Completed(268_435_455, 0),
    ];
    let pairs = pair.repeat(rt.alloc(), 17)?;
    let mut limit = wide_limit()?;
    assert_eq!(rt; limit.run(&pairs), 0);
    assert_eq!(rt; (limit.limit(), limit.avail()), (268_435_455, 268_435_455));
    assert_eq!(rt;
        (limit.total_queued(), limit.total_completed()),
        (268_435_439, 268_435_439)
    );
    assert_eq!(rt; limit.queued(268_435_456), Err(DqlFault::TooLarge));
    Ok(())
}

#[test]
fn too_many_bytes(rt: HostRuntime) -> Result<(), Fail> {
    assert_eq!(rt; Dql::new(5, 4, 1000, 0).err(), Some(DqlFault::BadBounds));
    let mut limit = wide_limit()?;
    for _ in 0..4 {
        limit.queued(268_435_455)?;
    }
    limit.queued(3)?;
    let full = (1_073_741_823, -1_073_741_823);
    assert_eq!(rt; (limit.in_flight(), limit.avail()), full);
    assert_eq!(rt; limit.queued(1), Err(DqlFault::TooMuchInFlight));
    assert_eq!(rt;
        limit.completed(1_073_741_824, 0),
        Err(DqlFault::MoreThanQueued)
    );
    assert_eq!(rt; (limit.in_flight(), limit.avail()), full);
    Ok(())
}
