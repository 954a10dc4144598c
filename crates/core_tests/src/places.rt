//! Tests of a ring of places: an example worked out by hand, and what no contract says: that a claim finds what was released, that a
//! peek finds what was published, and that both work from two threads.

use place_ring::{PlaceFault, PlaceIn, PlaceOut, Places, place_ring};
use std::process::Abort;
use std::sync::Wait;
use std::test::Fail;
use std::thread;

// Publishes all that is claimed, and claims up to `want` places, which have to be these.
fn claims(rt: &impl Abort, input: &mut PlaceIn, want: usize, first: usize, count: usize) {
    let places = input.claim(input.claimed(), want);
    assert_eq!(rt; places, Places { first, count });
}

// Releases all that is peeked, and peeks at up to `want` packets, which have to be in these places.
fn peeks(rt: &impl Abort, output: &mut PlaceOut, want: usize, first: usize, count: usize) {
    let places = output.peek(output.peeked(), want);
    assert_eq!(rt; places, Places { first, count });
}

#[test]
fn ring_of_three_places(rt: HostRuntime) -> Result<(), Fail> {
    let (mut input, mut output) = place_ring(rt.alloc(), 3)?;
    claims(&rt, &mut input, 2, 0, 2);
    peeks(&rt, &mut output, 64, 0, 0);
    claims(&rt, &mut input, 64, 2, 1);
    peeks(&rt, &mut output, 1, 0, 1);
    // the last place is published, and the first two aren't released
    claims(&rt, &mut input, 64, 0, 0);
    peeks(&rt, &mut output, 64, 1, 2);
    claims(&rt, &mut input, 64, 0, 1);
    peeks(&rt, &mut output, 64, 0, 0);
    // what isn't published is claimed again
    let places = input.claim(0, 64);
    assert_eq!(rt; places, Places { first: 0, count: 3 });
    // what isn't released is peeked at again
    claims(&rt, &mut input, 0, 0, 0);
    peeks(&rt, &mut output, 64, 0, 3);
    let places = output.peek(0, 2);
    assert_eq!(rt; places, Places { first: 0, count: 2 });
    for capacity in [0, 65_537] {
        let made = place_ring(rt.alloc(), capacity);
        assert_eq!(rt; made.err(), Some(PlaceFault::BadCapacity));
    }
    Ok(())
}

#[test]
fn at_most_64_places_at_once(rt: HostRuntime) -> Result<(), Fail> {
    for capacity in [65, 128, 65_536] {
        let (mut input, mut output) = place_ring(rt.alloc(), capacity)?;
        claims(&rt, &mut input, capacity, 0, 64);
        claims(&rt, &mut input, 0, 64, 0);
        peeks(&rt, &mut output, capacity, 0, 64);
    }
    Ok(())
}

const COUNT: usize = 100_000;

// Publishes this many packets, and waits while the ring is full.
fn publish_all(rt: &impl Wait, input: PlaceIn) {
    let mut input = input;
    let mut left = COUNT;
    for _ in rt.forever() {
        let own = input.claimed();
        if left == 0 && own == 0 {
            return;
        }
        let places = input.claim(own, left.min(32));
        left = left.saturating_sub(places.count);
        if places.count == 0 {
            thread::yield_now();
        }
    }
    unreachable!()
}

// Releases packets until this many came, and counts those that came in order.
fn release_all(rt: &impl Wait, output: PlaceOut) -> usize {
    let mut output = output;
    let mut next = 0usize;
    let mut came = 0usize;
    let mut in_turn = 0usize;
    for _ in rt.forever() {
        if came >= COUNT {
            return in_turn;
        }
        let places = output.peek(output.peeked(), 32);
        if places.count == 0 {
            thread::yield_now();
        }
        if places.first == next % 100 {
            in_turn = in_turn.saturating_add(places.count);
        }
        came = came.saturating_add(places.count);
        next = places.first.saturating_add(places.count);
    }
    unreachable!()
}

#[test]
fn two_threads_pass_each_place_on(rt: HostRuntime) -> Result<(), Fail> {
    let (input, output) = place_ring(rt.alloc(), 100)?;
    let ((), in_turn) = thread::join(
        &rt,
        move || publish_all(&rt, input),
        move || -> usize { release_all(&rt, output) },
    );
    assert_eq!(rt; in_turn, COUNT);
    Ok(())
}
