//! The polling of one instance, from the list and by its thread, for every kind of instance.

ghost use Rattle.std.specs.Prelude.{◌≡◌, ◌≢◌, ◌==◌, ◌≤◌, false, true, List, MatchBool};
ghost use Rattle.poll_runs.specs.Plan.{Does};
ghost use Rattle.poll_runs.specs.Polling.{HasLast, ended, followed, let_go, next_of, poll_plan, thread_poll_plan, poll_once_plan};
ghost use Rattle.poll_runs.specs.Polls.{is_repoll};
ghost use Rattle.poll_runs.specs.Ranges.{IsMost, IsWeight};
ghost use Rattle.poll_runs.specs.Thread.{IsThreadPolling, is_for_thread};
ghost use Rattle.poll_runs.specs.declared.bench.Next.TheVariants.{Absent, Repoll};
ghost use Rattle.poll_runs.specs.declared.bench.Once.{Once};

use crate::bench::{Next, Once, ThreadReport};
use crate::instance::Instance;
use napi_model::Kind;

// Returns how a poll ended, if it completed its instance: queued again, or released.
fn next_of(again: Option<Kind>) -> Next
    ensures { result ≡ next_of again }
{
    match again {
        None => Next::Gone,
        Some(kind) => Next::Again(kind),
    }
}

// Ends a poll; `full` says whether it used its whole weight.
fn end<I: Instance>(instance: &mut I, full: bool) -> Next
    requires { I.in_hand instance.old }
    ensures does { Does I.tries I.did (ended (I.thread instance.old) full) instance.old result
        instance.new }
    ensures there { result ≢ Absent }
    ensures hands { MatchBool (is_repoll result) (I.in_hand instance.new) (I.rests instance.new) }
{
    if full && !instance.is_disabling() {
        return Next::Repoll;
    }
    next_of(instance.complete())
}

// Polls an instance that its poller owns (`__napi_poll`).
fn poll_held<I: Instance>(instance: &mut I, weight: u32, packets: &mut I::Packets) -> Once
    requires hand { I.in_hand instance.old }
    requires weight { IsWeight weight }
    ensures does { (given : List I.Packet)
        × Does I.tries I.did (poll_plan (I.thread instance.old) weight) instance.old
        (record { once = result; packets = given }) instance.new
        × I.has packets.new given }
    ensures there { result.next ≢ Absent }
    ensures hands { MatchBool (is_repoll result.next) (I.in_hand instance.new)
        (I.rests instance.new) }
    ensures bound { result.work ≤ weight }
{
    let work = instance.poll(weight, packets);
    let next = end(instance, work == weight);
    Once { work, next }
}

// Requeues an instance that asked for a repoll and whose poller stops.
fn let_go<I: Instance>(instance: &mut I, next: Next)
    requires { MatchBool (is_repoll next) (I.in_hand instance.old) (I.rests instance.old) }
    ensures does { Does I.tries I.did (let_go next) instance.old tt instance.new }
    ensures rests { I.rests instance.new }
{
    if next == Next::Repoll {
        instance.requeue();
    }
}

/// Takes an instance from the list and polls it once, with this weight, in 1..=64 (`napi_poll`). Returns [`Next::Absent`] for
/// an instance that isn't on the list. An instance that gets a repoll is queued on the list: after [`Next::Repoll`], and
/// [`Next::Again`] with the list, the caller still has to push its number.
pub fn poll_once_of<I: Instance>(instance: &mut I, weight: u32, packets: &mut I::Packets) -> Once
    requires rests { I.rests instance.old }
    requires weight { IsWeight weight }
    ensures does { (given : List I.Packet)
        × Does I.tries I.did (poll_once_plan (I.thread instance.old) weight) instance.old
        (record { once = result; packets = given }) instance.new
        × HasLast I.has result.next packets.old given packets.new }
    ensures rests { I.rests instance.new }
    ensures bound { result.work ≤ weight }
{
    if !instance.take(Kind::List) {
        return Once {
            work: 0,
            next: Next::Absent,
        };
    }
    let once = poll_held(instance, weight, packets);
    let_go(instance, once.next);
    once
}

// Decides what follows a poll by the thread: it keeps the instance, or takes it again if it was queued for the thread, unless
// this was the last poll that it may make. After the last poll, an instance that gets a repoll goes to the list.
fn follow<I: Instance>(instance: &mut I, next: Next, is_last: bool) -> bool
    requires { MatchBool (is_repoll next) (I.in_hand instance.old) (I.rests instance.old) }
    ensures does { Does I.tries I.did (followed is_last next) instance.old result instance.new }
    ensures kept { result ≡ true → (is_for_thread next ≡ true) × (is_last ≡ false) }
    ensures gone { result ≡ false → is_last ≡ false → next ≢ Repoll }
    ensures hands { MatchBool result (I.in_hand instance.new) (I.rests instance.new) }
{
    if is_last {
        let_go(instance, next);
        return false;
    }
    match next {
        Next::Repoll => true,
        Next::Again(Kind::Thread) => instance.take(Kind::Thread),
        _ => false,
    }
}

/// Polls an instance by its thread (`napi_threaded_poll`): takes it, if it was queued for the thread, and polls it until no
/// repoll is asked for; if it was queued for the thread again, it takes it again. It makes at most `most` polls, in 1..=131072,
/// each with this weight, in 1..=64. An instance that the last one leaves to be polled again is queued on the list: after
/// [`Next::Repoll`], and [`Next::Again`] with the list, the caller still has to push its number.
pub fn poll_thread_of<I: Instance>(
    instance: &mut I,
    weight: u32,
    most: u32,
    packets: &mut I::Packets,
) -> ThreadReport
    requires rests { I.rests instance.old }
    requires weight { IsWeight weight }
    requires most { IsMost most }
    ensures does { (polls : List Once) × (given : List I.Packet)
        × Does I.tries I.did (thread_poll_plan (I.thread instance.old) weight most)
        instance.old
        (record { polls = polls; packets = given }) instance.new
        × HasLast I.has result.next packets.old given packets.new
        × IsThreadPolling weight most polls result }
    ensures rests { I.rests instance.new }
{
    let mut report = ThreadReport {
        polls: 0,
        work: 0,
        next: Next::Absent,
    };
    let mut held = instance.take(Kind::Thread);
    while held {
        let once = poll_held(instance, weight, packets);
        report.polls += 1;
        report.work += once.work;
        report.next = once.next;
        held = follow(instance, once.next, report.polls == most);
    }
    report
}
