//! One instance, as its poller sees it.

ghost use Rattle.std.specs.Prelude.{◌≡◌, ℕ, Bool, ◌≤◌, ◌<◌, ◌^◌, MatchBool, List, ◌++◌, [], length, Option};
ghost use Rattle.napi_model.specs.declared.event.Call.{Call};
ghost use Rattle.napi_model.specs.declared.event.Operation.{Operation};
ghost use Rattle.napi_model.specs.declared.event.Done.TheVariants.{Held};
ghost use Rattle.napi_model.specs.declared.event.Operation.TheVariants.{BusyStop, Complete, Hand};
ghost use Rattle.napi_model.specs.declared.state.Kind.TheVariants.{List as ToList};
ghost use Rattle.poll_runs.specs.Plan.{Action, Does};
ghost use Rattle.poll_runs.specs.Polling.{busy_takes, completed, disabling, gives, makes, next_of, takes};
ghost use Rattle.poll_runs.specs.Ranges.{IsWeight};

use napi_model::Kind;

/// An instance (`struct napi_struct`) with its receive ring, as its poller sees it. An implementation states by `did` what its
/// calls and polls do, and by `tries` which operations a call makes; each call follows its part of the rule.
pub trait Instance {
    /// A packet, for proofs only.
    type Packet;

    /// The buffer to which a poll adds its packets.
    type Packets;

    /// Its poller doesn't own it.
    ghost rests: { Self → Type 0 };

    /// Its poller owns it.
    ghost in_hand: { Self → Type 0 };

    /// It has a thread of its own.
    ghost thread: { Self → Bool };

    /// `tries call operation all`: the call makes all these operations, of which `operation` is the deciding one.
    ghost tries: { Call → Operation → List Operation → Type 0 };

    /// `did before actions after`: these actions lead from one state to the other.
    ghost did: { Self → List (Action Self.Packet) → Self → Type 0 };

    /// `has packets given`: the buffer holds exactly these packets.
    ghost has: { Self.Packets → List Self.Packet → Type 0 };

    /// Takes the instance from the list, or from its thread's queue. Returns whether it was there.
    fn take(&mut self, kind: Kind) -> bool
        requires { rests self.old }
        ensures does { Does tries did (takes kind) self.old result self.new }
        ensures hands { MatchBool result (in_hand self.new) (rests self.new) };

    /// A driver's poll: takes the ring's next packets, at most `weight`, which is 1 to 64, and returns how many.
    fn poll(&mut self, weight: u32, packets: &mut Self::Packets) -> u32
        requires hand { in_hand self.old }
        requires weight { IsWeight weight }
        ensures does { (given : List Self.Packet)
            × Does tries did (gives weight) self.old given self.new
            × has packets.new given × (result ≡ length given) }
        ensures hand { in_hand self.new }
        ensures bound { result ≤ weight };

    /// Returns whether the instance is being disabled (`napi_disable_pending`).
    fn is_disabling(&mut self) -> bool
        requires { in_hand self.old }
        ensures does { Does tries did disabling self.old result self.new }
        ensures hand { in_hand self.new };

    /// Queues the instance on the list, to be polled once more (the repoll of `napi_poll`).
    fn requeue(&mut self)
        requires { in_hand self.old }
        ensures does { Does tries did (makes (Hand ToList)) self.old tt self.new }
        ensures rests { rests self.new };

    /// Completes the instance (`napi_complete_done`). If a request was missed, it queues the instance again
    /// (`____napi_schedule`) and returns in which queue; `None` means that the instance was released.
    fn complete(&mut self) -> Option<Kind>
        requires { in_hand self.old }
        ensures does { Does tries did (completed (thread self.old))
            self.old (next_of result) self.new }
        ensures rests { rests self.new };

    /// An empty list of actions leaves the state as it was.
    ghost nothing: { (it : Self) → did it [] it };

    /// Actions compose.
    ghost joins: { (a b c : Self) (first second : List (Action Self.Packet)) → did a first b
        → did b second c → did a (first ++ second) c };

    /// An action doesn't change whether the instance has a thread.
    ghost same: { (before after : Self) (deeds : List (Action Self.Packet)) → did before deeds after
        → thread after ≡ thread before };
}

/// An instance that can also be busy polled. Between [`busy_take`](BusyInstance::busy_take) and [`stop`](BusyInstance::stop)
/// IN_BUSY_POLL is set.
pub trait BusyInstance: Instance {
    /// Its poller owns it, and busy polls it.
    ghost in_busy: { Self → Type 0 };

    /// The sum of the bytes of these packets.
    ghost bytes_in: { List Self.Packet → ℕ };

    /// Takes the instance to busy poll it (`napi_busy_loop`). Returns whether it was idle.
    fn busy_take(&mut self) -> bool
        requires { Self.rests self.old }
        ensures does { Does Self.tries Self.did busy_takes self.old result self.new }
        ensures hands { MatchBool result (in_busy self.new) (Self.rests self.new) };

    /// A driver's poll under IN_BUSY_POLL: takes the ring's next packets, at most `weight`, which is 1 to 64, and returns how
    /// many.
    fn busy_poll(&mut self, weight: u32, packets: &mut Self::Packets) -> u32
        requires busy { in_busy self.old }
        requires weight { IsWeight weight }
        ensures does { (given : List Self.Packet)
            × Does Self.tries Self.did (gives weight) self.old given self.new
            × Self.has packets.new given × (result ≡ length given) }
        ensures busy { in_busy self.new }
        ensures bound { result ≤ weight };

    /// Completes a poll with work below its weight. Under IN_BUSY_POLL `napi_complete_done` returns false, and the poller keeps
    /// the instance.
    fn hold(&mut self)
        requires { in_busy self.old }
        ensures does { Does Self.tries Self.did (makes (Complete Held)) self.old tt self.new }
        ensures busy { in_busy self.new };

    /// Stops busy polling (`busy_poll_stop`): one poll has to follow.
    fn stop(&mut self)
        requires { in_busy self.old }
        ensures does { Does Self.tries Self.did (makes BusyStop) self.old tt self.new }
        ensures hand { Self.in_hand self.new };

    /// Returns the sum of the bytes of a poll's packets: at most 64 packets, whose sizes have 32 bits.
    fn bytes_of(packets: &Self::Packets) -> u64
        ensures sum { (given : List Self.Packet) → Self.has packets.now given
            → result ≡ bytes_in given }
        ensures bound { result < 2 ^ 38 };
}
