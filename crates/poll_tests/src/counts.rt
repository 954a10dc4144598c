//! Tests of all counts in a range: whatever can be made for a range of counts can be made for each of them, if allocations
//! succeed. No contract can say that.

ghost use Rattle.std.specs.Prelude.{◌≤◌, IfOk, IsTrue, vec_items};
ghost use Rattle.std.specs.List.{All};
ghost use Rattle.poll_engine.specs.Opens.{IsStation};
ghost use Rattle.poll_engine.specs.Numbers.{have_distinct_numbers};

use napi_calls::Napi;
use poll_engine::{
    ActList, OpenGate, PollList, SoftList, Station, have_distinct_numbers, run_workers, shared_list,
};
use rx_ring::ring;
use std::alloc::{AllocError, Global};
use std::sync::Wait;
use std::test::Fail;
use std::thread::Threads;

// an instance with 2 to 8 callers can be made, and closed again
#[test]
fn instances_of_each_count(rt: HostRuntime) -> Result<(), Fail> {
    for callers in 2..9u32 {
        let (_input, ctx) = ring(rt.alloc(), 5)?;
        let made = Napi::new(rt.alloc(), ctx, callers);
        let Ok((napi, seats, control)) = made else {
            panic!(rt; "{callers} callers are refused")
        };
        assert_eq!(rt; seats.len(), callers as usize);
        let closed = napi_calls::close(napi, seats, control);
        let Ok(_ctx) = closed else {
            panic!(rt; "one of {callers} callers is missing")
        };
    }
    Ok(())
}

// a list with 1 to 64 ends can be made, and each end can push once
#[test]
fn lists_of_each_count(rt: HostRuntime) -> Result<(), Fail> {
    for pushers in 1..65u32 {
        let (mut list, mut ins) = shared_list(&rt, rt.alloc(), pushers)?;
        assert_eq!(rt; ins.len(), pushers as usize);
        for k in 0..ins.len() {
            ins[k].push(5);
        }
        let mut soft = SoftList::new();
        list.splice(&mut soft);
        assert_eq!(rt; soft.ids().len(), pushers as usize);
    }
    Ok(())
}

// Returns this many stations without acts, each with its own thread.
fn stations_of(alloc: Global, count: u32) -> Result<Vec<Station<ActList>>, AllocError>
    requires { count ≤ 16 }
    ensures { IfOk result (λ v. All IsStation (vec_items v)) }
{
    let mut stations = Vec::new(alloc);
    for index in 0..count {
        stations.push(Station {
            number: index + 1,
            capacity: 5,
            thread: true,
            device: ActList::new(Vec::new(alloc)),
        })?;
    }
    Ok(stations)
}

// Returns how many of this many stations were run by this many pollers.
fn run_idle<R: Threads + Wait + Sync>(
    rt: &R,
    alloc: Global,
    count: u32,
    pollers: u32,
) -> Result<usize, Fail>
    requires count { count ≤ 16 }
    requires pollers { (1 ≤ pollers) × (pollers ≤ 8) }
{
    let stations = stations_of(alloc, count)?;
    if !have_distinct_numbers(&stations) {
        return Err("two stations have one number".into());
    }
    Ok(run_workers(rt, alloc, stations, pollers, 300, 64, 1024, &OpenGate)?.len())
}

// 1 to 16 stations can be run by one poller, and by 1 to 8 pollers
#[test]
fn runs_of_each_count(rt: HostRuntime) -> Result<(), Fail> {
    for count in 1..17u32 {
        assert_eq!(rt; run_idle(&rt, rt.alloc(), count, 1)?, count as usize);
        let pollers = 1 + count % 8;
        assert_eq!(rt; run_idle(&rt, rt.alloc(), count, pollers)?, count as usize);
    }
    Ok(())
}
