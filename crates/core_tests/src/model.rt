//! Tests of the bits of the state word, and of long histories.

use napi_model::{Event, Flags, Kind, Operation, Prep, Seen, decode, encode, own};
use std::test::Fail;

#[test]
fn a_word_of_all_flags(rt: HostRuntime) {
    let flags = Flags {
        sched: true,
        missed: true,
        disable: true,
        npsvc: true,
        in_busy_poll: true,
        threaded: true,
        sched_threaded: true,
    };
    let seen = Seen {
        flags,
        handed: Some(Kind::List),
    };
    assert_eq!(rt; encode(seen), 0x1_0000_034f);
    assert_eq!(rt; decode(encode(seen)), Some(seen));
}

#[test]
fn malformed_words(rt: HostRuntime) {
    for bit in 0..64u32 {
        let is_named = matches!(bit, 0..4 | 6 | 8 | 9 | 32 | 33);
        assert_eq!(rt; decode(1 << bit).is_some(), is_named, "bit {bit}");
    }
    assert_eq!(rt; decode(1 + (1 << 32) + (1 << 33)), None, "both marks");
}

// a caller's own list can be extracted from a long history, if allocations succeed
#[test]
fn own_events_of_a_long_history(rt: HostRuntime) -> Result<(), Fail> {
    let missed = Operation::Schedule(Prep::Missed);
    let both = [0, 1].map(|caller| Event {
        caller,
        operation: missed,
    });
    let history = both.repeat(rt.alloc(), 5000)?;
    let events = own(rt.alloc(), 1, &history)?;
    assert_eq!(rt; events.len(), 5000);
    assert_eq!(rt; events.as_slice().first(), Some(&both[1]));
    Ok(())
}
