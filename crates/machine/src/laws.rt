//! Laws of whole runs, for all settings and all arrivals: each is the contract of a function that does nothing.
#![tactic(auto, using(crate::proofs::AllLaws::laws))]

ghost use Rattle.machine.specs.Fates.{CountsOfQueue, DeliversInOrder};
ghost use Rattle.machine.specs.Gaps.{InterruptsAreApart};
ghost use Rattle.machine.specs.Lives.{ArrivesAsOne, EachLives, EveryRunEnds, RunsAsOne, WorksWithin};
ghost use Rattle.machine.specs.Reports.{HasOneReport, ReportsLives};

/// The events on a processor up to a time are determined.
pub fn runs_as_one()
    ensures { RunsAsOne }
{}

/// An arrival leads from each machine to exactly one machine.
pub fn arrives_as_one()
    ensures { ArrivesAsOne }
{}

/// The bytes of arrivals and the settings determine the report.
pub fn has_one_report()
    ensures { HasOneReport }
{}

/// With no further packets, the events on a processor end.
pub fn every_run_ends()
    ensures { EveryRunEnds }
{}

/// Each processor of a machine has a life by these laws, with the packets of its own queues.
pub fn each_lives()
    ensures { EachLives }
{}

/// Each processor of a report lived as the laws say, with the packets of the bytes read, until nothing was left.
pub fn reports_live()
    ensures { ReportsLives }
{
    each_lives();
}

/// A packet that found room in its queue's ring is delivered once and in order, or it is still in the queue.
pub fn delivers_in_order()
    ensures { DeliversInOrder }
{}

/// The counts of a queue, and its waits, are those of its packets.
pub fn counts_of_queue()
    ensures { CountsOfQueue }
{}

/// A run's work is less than budget plus weight.
pub fn works_within()
    ensures { WorksWithin }
{}

/// With polling and without `early`, a card asks for each two consecutive interrupts of a queue at times that are at least `rx-gap` apart.
pub fn interrupts_are_apart()
    ensures { InterruptsAreApart }
{}
