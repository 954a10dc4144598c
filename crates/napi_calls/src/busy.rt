//! Busy polling: the call by which a caller starts it, and the calls of a caller that busy polls.
ghost use Rattle.std.specs.Prelude.{◌≡◌, ◌≤◌, [], ◌∷◌, ◌++◌, length, take, drop, Some, true};
ghost use Rattle.napi_model.specs.declared.state.Place.TheVariants as place;
ghost use Rattle.napi_model.specs.declared.event.Done.TheVariants.{Held};
ghost use Rattle.napi_model.specs.declared.event.Operation.TheVariants.{Look, Complete};
ghost use Rattle.rx_ring.specs.ReceiveRing.{counts_of};
ghost use Rattle.rx_ring.specs.Ends.{ring_name, polls_of, received_list, GivesNext, Meets};
ghost use Rattle.napi_calls.specs.Seats.{pass_number, state_shown, instance_ring, ShowsLegal, PutsIntoRingOf};
ghost use Rattle.napi_calls.specs.Instance.{IsSeatOf};
ghost use Rattle.napi_calls.specs.Made.{Made};
ghost use Rattle.napi_calls.specs.Calls.{TriesToBusyPoll, RunsUnlessRefused, BusyPolling, TriesToStop, Stops};
ghost use Rattle.napi_calls.specs.Packets.{HoldsOn, TriesToBusyPollFresh, BusyPollsFresh, TriesToStopHolding, polled};

use crate::answers::{TryBusy, TryStop};
use crate::between::{Between, Nothing};
use crate::types::{Busy, Caller, Napi, Polling};
use napi_model::Seen;
use rx_ring::{Batch, MAX_WEIGHT, Packet, RxCounts, RxIn};
use std::sync::Wait;

impl Caller {
    /// Tries once to take an idle instance to busy poll it (`napi_busy_loop`): a look, and an exchange. It doesn't wait.
    /// Returns `Refused` exactly if the look shows DISABLE, SCHED or IN_BUSY_POLL.
    #[inline]
    pub fn try_busy(self, napi: &Napi) -> TryBusy
        requires { IsSeatOf napi.now self.pass }
        ensures events { TriesToBusyPoll self.pass result }
        ensures packets { TriesToBusyPollFresh self.pass result }
    {
        self.try_busy_between(napi, &mut Nothing)
    }

    /// Like [`try_busy`](Caller::try_busy); it runs `between` after the look, unless it returns `Refused`.
    #[inline]
    pub fn try_busy_between<B: Between>(self, napi: &Napi, between: &mut B) -> TryBusy
        requires { IsSeatOf napi.now self.pass }
        ensures events { TriesToBusyPoll self.pass result }
        ensures packets { TriesToBusyPollFresh self.pass result }
        ensures run { RunsUnlessRefused result (between.new ≡ between.old)
            (B.ran between.old between.new) }
    {
        let Caller { mut pass, number } = self;
        let seen = napi.table.look(&mut pass);
        if !seen.flags.may_busy_take() {
            return TryBusy::Refused(Caller { pass, number });
        }
        between.run();
        match napi.table.busy_swap(&mut pass, seen) {
            Ok(()) => {
                let ctx = napi.table.slot_out(&mut pass);
                TryBusy::Taken(Busy { pass, number, ctx })
            }
            Err(_) => TryBusy::Changed(Caller { pass, number }),
        }
    }

    /// Takes an idle instance to busy poll it, and retries until an attempt decides (`napi_busy_loop`). Returns `Err` if the
    /// instance isn't idle.
    pub fn busy<R: Wait>(self, rt: &R, napi: &Napi) -> Result<Busy, Caller>
        requires { IsSeatOf napi.now self.pass }
        ensures events { BusyPolling self.pass result }
        ensures packets { BusyPollsFresh self.pass result }
    {
        let mut caller = self;
        for _ in rt.forever() {
            match caller.try_busy(napi) {
                TryBusy::Taken(busy) => return Ok(busy),
                TryBusy::Refused(refused) => return Err(refused),
                TryBusy::Changed(changed) => caller = changed,
            }
        }
        unreachable!()
    }
}

impl Busy {
    /// The caller's number.
    pub fn number(&self) -> u32
        ensures { result ≡ pass_number self.now.pass }
    {
        self.number
    }

    /// States what holds for every caller that busy polls, and that its context belongs to the instance's ring.
    pub fn knows(&self)
        ensures shows { ShowsLegal self.now.pass }
        ensures place { (state_shown self.now.pass).place
            ≡ place.Polling (pass_number self.now.pass) }
        ensures flag { (state_shown self.now.pass).flags.in_busy_poll ≡ true }
        ensures context { instance_ring self.now.pass ≡ Some (ring_name self.now.ctx) }
    {}

    /// Reads the state word: the flags, and in which queue the instance waits until it is taken.
    pub fn look(&mut self, napi: &Napi) -> Seen
        requires { IsSeatOf napi.now self.old.pass }
        ensures event { Made self.old.pass (Look result ∷ []) self.new.pass }
        ensures packets { HoldsOn self.old.pass self.new.pass }
        ensures ctx { self.new.ctx ≡ self.old.ctx }
    {
        napi.table.look(&mut self.pass)
    }

    /// Polls once, like [`Polling::poll`].
    #[inline]
    pub fn poll(&mut self, weight: usize, batch: &mut Batch) -> usize
        requires { (1 ≤ weight) × (weight ≤ MAX_WEIGHT) }
        ensures next { GivesNext weight self.old.ctx self.new.ctx batch.new.items }
        ensures work { result ≡ length batch.new.items }
        ensures pass { self.new.pass ≡ self.old.pass }
        ensures polled { polled self.new.pass self.new.ctx ≡ polled self.old.pass self.old.ctx
            ++ batch.new.items }
    {
        self.ctx.poll(weight, batch)
    }

    /// Like [`poll`](Busy::poll), into an array that has room for at least `weight` packets: it moves the packets into the first
    /// elements, and returns how many these are. The array's other elements stay as they are.
    #[inline]
    pub fn poll_into(&mut self, weight: usize, packets: &mut [Packet]) -> usize
        requires weight { (1 ≤ weight) × (weight ≤ MAX_WEIGHT) }
        requires room { weight ≤ length packets.old }
        ensures next { GivesNext weight self.old.ctx self.new.ctx (take result packets.new) }
        ensures work { result ≤ weight }
        ensures others { drop result packets.new ≡ drop result packets.old }
        ensures pass { self.new.pass ≡ self.old.pass }
        ensures polled { polled self.new.pass self.new.ctx ≡ polled self.old.pass self.old.ctx
            ++ take result packets.new }
    {
        self.ctx.poll_into(weight, packets)
    }

    /// The counts of the ring's polls so far, including those of other callers.
    pub fn counts(&self) -> RxCounts
        ensures { result ≡ counts_of (polls_of self.now.ctx) (received_list self.now.ctx) }
    {
        self.ctx.counts()
    }

    /// Lets the ends of the ring meet, like [`Polling::beside`].
    pub fn beside(&mut self, input: &mut RxIn)
        requires { PutsIntoRingOf input.old self.old.pass }
        ensures meets { Meets input.old self.old.ctx input.new self.new.ctx }
        ensures pass { self.new.pass ≡ self.old.pass }
    {
        rx_ring::beside(input, &mut self.ctx);
    }

    /// Completes a poll whose work is below its weight (`napi_complete_done`, which does nothing under IN_BUSY_POLL): the
    /// caller keeps busy polling.
    #[inline]
    pub fn complete_held(&mut self, napi: &Napi)
        requires { IsSeatOf napi.now self.old.pass }
        ensures event { Made self.old.pass (Complete Held ∷ []) self.new.pass }
        ensures packets { HoldsOn self.old.pass self.new.pass }
        ensures ctx { self.new.ctx ≡ self.old.ctx }
    {
        napi.table.complete_load(&mut self.pass);
    }

    /// Tries once to stop busy polling (`busy_poll_stop`): a look, and an exchange. It doesn't wait. The poll that has to
    /// follow serves what was scheduled meanwhile.
    #[inline]
    pub fn try_stop(self, napi: &Napi) -> TryStop
        requires { IsSeatOf napi.now self.pass }
        ensures events { TriesToStop self.pass result }
        ensures packets { TriesToStopHolding self.pass self.ctx result }
    {
        self.try_stop_between(napi, &mut Nothing)
    }

    /// Like [`try_stop`](Busy::try_stop); it runs `between` after the look.
    #[inline]
    pub fn try_stop_between<B: Between>(self, napi: &Napi, between: &mut B) -> TryStop
        requires { IsSeatOf napi.now self.pass }
        ensures events { TriesToStop self.pass result }
        ensures packets { TriesToStopHolding self.pass self.ctx result }
        ensures run { B.ran between.old between.new }
    {
        let Busy {
            mut pass,
            number,
            ctx,
        } = self;
        let seen = napi.table.look(&mut pass);
        between.run();
        match napi.table.stop_swap(&mut pass, seen) {
            Ok(()) => TryStop::Stopped(Polling { pass, number, ctx }),
            Err(_) => TryStop::Changed(Busy { pass, number, ctx }),
        }
    }

    /// Stops busy polling, and retries until an attempt decides (`busy_poll_stop`).
    pub fn stop<R: Wait>(self, rt: &R, napi: &Napi) -> Polling
        requires { IsSeatOf napi.now self.pass }
        ensures events { Stops self.pass result.pass }
        ensures packets { HoldsOn self.pass result.pass }
        ensures ctx { result.ctx ≡ self.ctx }
    {
        let mut busy = self;
        for _ in rt.forever() {
            match busy.try_stop(napi) {
                TryStop::Stopped(polling) => return polling,
                TryStop::Changed(changed) => busy = changed,
            }
        }
        unreachable!()
    }
}
