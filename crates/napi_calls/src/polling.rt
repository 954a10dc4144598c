//! The calls of a poller, which has the poll context.
ghost use Rattle.std.specs.Prelude.{◌≡◌, ◌≤◌, [], ◌∷◌, ◌++◌, length, take, drop, Some, false};
ghost use Rattle.napi_model.specs.declared.state.Kind.TheVariants as kind;
ghost use Rattle.napi_model.specs.declared.state.Place.TheVariants as place;
ghost use Rattle.napi_model.specs.declared.event.Operation.TheVariants.{Look, Hand};
ghost use Rattle.rx_ring.specs.ReceiveRing.{counts_of};
ghost use Rattle.rx_ring.specs.Ends.{ring_name, polls_of, received_list, GivesNext, Meets};
ghost use Rattle.napi_calls.specs.Seats.{pass_number, state_shown, instance_ring, ShowsLegal, PutsIntoRingOf};
ghost use Rattle.napi_calls.specs.Instance.{IsSeatOf};
ghost use Rattle.napi_calls.specs.Made.{Made};
ghost use Rattle.napi_calls.specs.Calls.{TriesToComplete, Completes};
ghost use Rattle.napi_calls.specs.Packets.{HoldsOn, GivesBack, TriesToGiveBack, CompletesGivenBack, polled};

use crate::answers::{Completed, TryDone};
use crate::between::{Between, Nothing};
use crate::types::{Caller, Granted, Napi, Polling};
use napi_model::{Done, Kind, Seen};
use rx_ring::{Batch, MAX_WEIGHT, Packet, RxCounts, RxIn};
use std::sync::Wait;

impl Polling {
    /// The caller's number.
    pub fn number(&self) -> u32
        ensures { result ≡ pass_number self.now.pass }
    {
        self.number
    }

    /// States what holds for every poller, and that its context belongs to the instance's ring.
    pub fn knows(&self)
        ensures shows { ShowsLegal self.now.pass }
        ensures place { (state_shown self.now.pass).place
            ≡ place.Polling (pass_number self.now.pass) }
        ensures flag { (state_shown self.now.pass).flags.in_busy_poll ≡ false }
        ensures context { instance_ring self.now.pass ≡ Some (ring_name self.now.ctx) }
    {}

    /// Reads the state word: the flags, and in which queue the instance waits until it is taken.
    #[inline]
    pub fn look(&mut self, napi: &Napi) -> Seen
        requires { IsSeatOf napi.now self.old.pass }
        ensures event { Made self.old.pass (Look result ∷ []) self.new.pass }
        ensures packets { HoldsOn self.old.pass self.new.pass }
        ensures ctx { self.new.ctx ≡ self.old.ctx }
    {
        napi.table.look(&mut self.pass)
    }

    /// Polls once, like a driver's `poll` that `__napi_poll` calls: clears the batch and fills it with the ring's next packets,
    /// at most `weight`, which is 1 to 64. Returns how many these are. The history doesn't change.
    #[inline]
    pub fn poll(&mut self, weight: usize, batch: &mut Batch) -> usize
        requires { (1 ≤ weight) × (weight ≤ MAX_WEIGHT) }
        ensures next { GivesNext weight self.old.ctx self.new.ctx batch.new.items }
        ensures work { result ≡ length batch.new.items }
        ensures pass { self.new.pass ≡ self.old.pass }
        ensures polled { polled self.new.pass self.new.ctx ≡ polled self.old.pass self.old.ctx
            ++ batch.new.items }
    {
        self.ctx.poll(weight, batch)
    }

    /// Like [`poll`](Polling::poll), into an array that has room for at least `weight` packets: it moves the packets into the first
    /// elements, and returns how many these are. The array's other elements stay as they are.
    #[inline]
    pub fn poll_into(&mut self, weight: usize, packets: &mut [Packet]) -> usize
        requires weight { (1 ≤ weight) × (weight ≤ MAX_WEIGHT) }
        requires room { weight ≤ length packets.old }
        ensures next { GivesNext weight self.old.ctx self.new.ctx (take result packets.new) }
        ensures work { result ≤ weight }
        ensures others { drop result packets.new ≡ drop result packets.old }
        ensures pass { self.new.pass ≡ self.old.pass }
        ensures polled { polled self.new.pass self.new.ctx ≡ polled self.old.pass self.old.ctx
            ++ take result packets.new }
    {
        self.ctx.poll_into(weight, packets)
    }

    /// The counts of the ring's polls so far, including those of other callers.
    pub fn counts(&self) -> RxCounts
        ensures { result ≡ counts_of (polls_of self.now.ctx) (received_list self.now.ctx) }
    {
        self.ctx.counts()
    }

    /// Lets the ends of the ring meet: a poll right after it returns exactly the lesser of its weight and what the ring holds.
    pub fn beside(&mut self, input: &mut RxIn)
        requires { PutsIntoRingOf input.old self.old.pass }
        ensures meets { Meets input.old self.old.ctx input.new self.new.ctx }
        ensures pass { self.new.pass ≡ self.old.pass }
    {
        rx_ring::beside(input, &mut self.ctx);
    }

    /// Queues the instance on the list again, to be polled once more (the repoll of `napi_poll`). The context goes back.
    #[inline]
    pub fn requeue(self, napi: &Napi) -> Caller
        requires { IsSeatOf napi.now self.pass }
        ensures event { Made self.pass (Hand kind.List ∷ []) result.pass }
        ensures packets { GivesBack self.pass self.ctx result.pass }
    {
        let Polling {
            mut pass,
            number,
            ctx,
        } = self;
        napi.table.slot_in(&mut pass, ctx);
        napi.table.hand(&mut pass, Kind::List);
        Caller { pass, number }
    }

    /// Tries once to end the poll (`napi_complete_done`): a look, and an exchange. It doesn't wait.
    #[inline]
    pub fn try_complete(self, napi: &Napi) -> TryDone
        requires { IsSeatOf napi.now self.pass }
        ensures events { TriesToComplete self.pass result }
        ensures packets { TriesToGiveBack self.pass self.ctx result }
    {
        self.try_complete_between(napi, &mut Nothing)
    }

    /// Like [`try_complete`](Polling::try_complete); it runs `between` after the look.
    #[inline]
    pub fn try_complete_between<B: Between>(self, napi: &Napi, between: &mut B) -> TryDone
        requires { IsSeatOf napi.now self.pass }
        ensures events { TriesToComplete self.pass result }
        ensures packets { TriesToGiveBack self.pass self.ctx result }
        ensures run { B.ran between.old between.new }
    {
        let Polling {
            mut pass,
            number,
            ctx,
        } = self;
        let seen = napi.table.look(&mut pass);
        between.run();
        napi.table.slot_in(&mut pass, ctx);
        match napi.table.complete_swap(&mut pass, seen) {
            Ok(Done::Released) => TryDone::Released(Caller { pass, number }),
            Ok(Done::Again) => TryDone::Again(Granted { pass, number }),
            Ok(Done::Held) => unreachable!(),
            Err(_) => {
                let ctx = napi.table.slot_out(&mut pass);
                TryDone::Changed(Polling { pass, number, ctx })
            }
        }
    }

    /// Ends the poll, and retries until an attempt decides (`napi_complete_done`).
    pub fn complete<R: Wait>(self, rt: &R, napi: &Napi) -> Completed
        requires { IsSeatOf napi.now self.pass }
        ensures events { Completes self.pass result }
        ensures packets { CompletesGivenBack self.pass self.ctx result }
    {
        let mut polling = self;
        for _ in rt.forever() {
            match polling.try_complete(napi) {
                TryDone::Released(caller) => return Completed::Released(caller),
                TryDone::Again(granted) => return Completed::Again(granted),
                TryDone::Changed(changed) => polling = changed,
            }
        }
        unreachable!()
    }
}
