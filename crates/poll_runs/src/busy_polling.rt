//! Busy polling, for every kind of instance.

ghost use Rattle.std.specs.Prelude.{◌≡◌, ◌≢◌, ◌≤◌, ◌<◌, ◌+◌, ◌^◌, List, MatchBool, nat_lt};
ghost use Rattle.poll_runs.specs.Plan.{Does};
ghost use Rattle.poll_runs.specs.Polling.{HasLast, left_by, busy_poll_plan, round};
ghost use Rattle.poll_runs.specs.Ranges.{IsRounds, IsWeight};
ghost use Rattle.poll_runs.specs.declared.bench.Next.TheVariants.{Absent};

use crate::bench::{BusyReport, Next};
use crate::instance::BusyInstance;

impl BusyReport {
    // Returns the report after one more poll.
    fn with(self, work: u32, bytes: u64) -> BusyReport
        requires polls { self.polls + 1 < 2 ^ 32 }
        requires work { self.work + work < 2 ^ 32 }
        requires bytes { self.bytes + bytes < 2 ^ 64 }
        ensures { result ≡ record self {
          polls = self.polls + 1;
          work = self.work + work;
          bytes = self.bytes + bytes;
        } }
    {
        BusyReport {
            polls: self.polls + 1,
            work: self.work + work,
            bytes: self.bytes + bytes,
            ..self
        }
    }
}

// Makes one round: a poll, and a completion, which is held, if its work is below the weight.
fn round<I: BusyInstance>(
    instance: &mut I,
    weight: u32,
    packets: &mut I::Packets,
    report: &mut BusyReport,
)
    requires busy { I.in_busy instance.old }
    requires weight { IsWeight weight }
    requires polls { report.old.polls + 1 < 2 ^ 32 }
    requires work { report.old.work + 64 < 2 ^ 32 }
    requires bytes { report.old.bytes + 2 ^ 38 < 2 ^ 64 }
    requires held { report.old.held + 1 < 2 ^ 32 }
    ensures does { Does I.tries I.did
        (round I.bytes_in (I.thread instance.old) weight report.old) instance.old report.new
        instance.new }
    ensures busy { I.in_busy instance.new }
    ensures polls { report.new.polls ≡ report.old.polls + 1 }
    ensures work { report.new.work ≤ report.old.work + 64 }
    ensures bytes { report.new.bytes ≤ report.old.bytes + 2 ^ 38 }
    ensures held { report.new.held ≤ report.old.held + 1 }
{
    let work = instance.busy_poll(weight, packets);
    *report = report.with(work, I::bytes_of(packets));
    if work < weight {
        instance.hold();
        report.held += 1;
    }
}

// Ends the poll after the stop, by whether its work is below the weight.
fn leave<I: BusyInstance>(instance: &mut I, below: bool) -> Next
    requires { I.in_hand instance.old }
    ensures does { Does I.tries I.did (left_by (I.thread instance.old) below) instance.old
        result instance.new }
    ensures there { result ≢ Absent }
    ensures rests { I.rests instance.new }
{
    if !below {
        instance.requeue();
        return Next::Repoll;
    }
    match instance.complete() {
        None => Next::Gone,
        Some(kind) => Next::Again(kind),
    }
}

/// Busy polls an idle instance (`napi_busy_loop`): takes it, makes this many rounds, in 1..=65535, stops (`busy_poll_stop`) and
/// polls once more, each time with this weight, in 1..=64. A round with work below the weight completes, and the completion is
/// held. The last poll releases the instance or queues it; if it uses its whole weight, it queues it on the list. After
/// [`Next::Repoll`], and [`Next::Again`] with the list, the caller still has to push its number. Returns [`Next::Absent`] for
/// an instance that isn't idle.
pub fn poll_busy_of<I: BusyInstance>(
    instance: &mut I,
    rounds: u32,
    weight: u32,
    packets: &mut I::Packets,
) -> BusyReport
    requires rests { I.rests instance.old }
    requires rounds { IsRounds rounds }
    requires weight { IsWeight weight }
    ensures does { (given : List I.Packet)
        × Does I.tries I.did
        (busy_poll_plan I.bytes_in (I.thread instance.old) weight rounds) instance.old
        (record { report = result; packets = given }) instance.new
        × HasLast I.has result.next packets.old given packets.new }
    ensures rests { I.rests instance.new }
{
    let mut report = BusyReport::NONE;
    if !instance.busy_take() {
        return report;
    }
    for _ in 0..rounds {
        round(instance, weight, packets, &mut report);
    }
    instance.stop();
    let work = instance.poll(weight, packets);
    report = report.with(work, I::bytes_of(packets));
    report.next = leave(instance, work < weight);
    report
}
