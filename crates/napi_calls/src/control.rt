//! The calls of the controller, which enables and disables the instance.
ghost use Rattle.std.specs.Prelude.{◌≡◌, [], ◌∷◌, MatchResult, Some, true, false};
ghost use Rattle.napi_model.specs.declared.state.Place.TheVariants as place;
ghost use Rattle.napi_model.specs.declared.event.Call.TheVariants.{Enable};
ghost use Rattle.napi_model.specs.declared.event.Operation.TheVariants.{MarkDisable};
ghost use Rattle.napi_model.specs.Laws.{IsOwnedBy};
ghost use Rattle.rx_ring.specs.ReceiveRing.{counts_of};
ghost use Rattle.rx_ring.specs.Ends.{ring_name, polls_of, received_list, Meets};
ghost use Rattle.napi_calls.specs.Seats.{pass_number, controller_of, state_shown, instance_ring, ShowsLegal, PutsIntoRingOf};
ghost use Rattle.napi_calls.specs.Instance.{IsSeatOf};
ghost use Rattle.napi_calls.specs.Made.{Made, WasLost};
ghost use Rattle.napi_calls.specs.Calls.{TriesToTake, RunsUnlessBusy, Disables, EnablesAt, Enables};
ghost use Rattle.napi_calls.specs.Packets.{Quiet, HoldsOn, IsSame, IsFresh, GivesBack, TriesToTakeFresh, received_before};

use crate::answers::TryTake;
use crate::between::{Between, Nothing};
use crate::types::{Control, Marked, Napi, Off, On};
use rx_ring::{RxCounts, RxIn};
use std::sync::Wait;

impl Control<On> {
    /// States what holds for the controller of an enabled instance.
    pub fn knows(&self)
        ensures shows { ShowsLegal self.now.pass }
        ensures number { pass_number self.now.pass ≡ controller_of self.now.pass }
        ensures place { ¬ IsOwnedBy (pass_number self.now.pass) (state_shown self.now.pass).place }
        ensures flag { (state_shown self.now.pass).flags.disable ≡ false }
    {}

    /// Marks a disable as pending (the first step of `napi_disable`): from now on requests for a poll fail.
    pub fn mark(self, napi: &Napi) -> Control<Marked>
        requires { IsSeatOf napi.now self.pass }
        ensures event { Made self.pass (MarkDisable ∷ []) result.pass }
        ensures packets { Quiet self.pass result.pass }
    {
        let Control {
            mut pass,
            state: On,
        } = self;
        napi.table.mark(&mut pass);
        Control {
            pass,
            state: Marked,
        }
    }

    /// Disables the instance (`napi_disable`): marks it, and retries until its owner has released it.
    pub fn disable<R: Wait>(self, rt: &R, napi: &Napi) -> Control<Off>
        requires { IsSeatOf napi.now self.pass }
        ensures events { Disables self.pass result.pass }
        ensures packets { IsFresh self.pass result.pass result.state.ctx }
    {
        self.disable_pausing(rt, napi, &mut Nothing)
    }

    /// Like [`disable`](Control::disable); it runs `pause` after each attempt that finds the instance busy, so that a thread
    /// can yield the processor to the owner (`usleep_range` in the kernel).
    pub fn disable_pausing<R: Wait, P: Between>(
        self,
        rt: &R,
        napi: &Napi,
        pause: &mut P,
    ) -> Control<Off>
        requires { IsSeatOf napi.now self.pass }
        ensures events { Disables self.pass result.pass }
        ensures packets { IsFresh self.pass result.pass result.state.ctx }
    {
        let mut control = self.mark(napi);
        for _ in rt.forever() {
            match control.try_take(napi) {
                TryTake::Taken(taken) => return taken,
                TryTake::Busy(busy) => {
                    control = busy;
                    pause.run();
                }
                TryTake::Changed(changed) => control = changed,
            }
        }
        unreachable!()
    }
}

impl Control<Marked> {
    /// States what holds for the controller of an instance that it marked.
    pub fn knows(&self)
        ensures shows { ShowsLegal self.now.pass }
        ensures number { pass_number self.now.pass ≡ controller_of self.now.pass }
        ensures place { ¬ IsOwnedBy (pass_number self.now.pass) (state_shown self.now.pass).place }
        ensures flag { (state_shown self.now.pass).flags.disable ≡ true }
    {}

    /// Tries once to take the instance, if no caller owns it, and clears the mark of the disable (the second and third step of
    /// `napi_disable`). It doesn't wait.
    pub fn try_take(self, napi: &Napi) -> TryTake
        requires { IsSeatOf napi.now self.pass }
        ensures events { TriesToTake self.pass result }
        ensures packets { TriesToTakeFresh self.pass result }
    {
        self.try_take_between(napi, &mut Nothing)
    }

    /// Like [`try_take`](Control::try_take); it runs `between` after the load, unless it returns `Busy`.
    pub fn try_take_between<B: Between>(self, napi: &Napi, between: &mut B) -> TryTake
        requires { IsSeatOf napi.now self.pass }
        ensures events { TriesToTake self.pass result }
        ensures packets { TriesToTakeFresh self.pass result }
        ensures run { RunsUnlessBusy result (between.new ≡ between.old)
            (B.ran between.old between.new) }
    {
        let Control {
            mut pass,
            state: Marked,
        } = self;
        let Some(seen) = napi.table.take_load(&mut pass) else {
            return TryTake::Busy(Control {
                pass,
                state: Marked,
            });
        };
        between.run();
        match napi.table.take_swap(&mut pass, seen) {
            Ok(()) => {
                let ctx = napi.table.slot_out(&mut pass);
                napi.table.unmark(&mut pass);
                TryTake::Taken(Control {
                    pass,
                    state: Off { ctx },
                })
            }
            Err(_) => TryTake::Changed(Control {
                pass,
                state: Marked,
            }),
        }
    }
}

impl Control<Off> {
    /// States what holds for the controller of a disabled instance, and that its context belongs to the instance's ring and has
    /// received exactly what was delivered.
    pub fn knows(&self)
        ensures shows { ShowsLegal self.now.pass }
        ensures number { pass_number self.now.pass ≡ controller_of self.now.pass }
        ensures place { (state_shown self.now.pass).place
            ≡ place.Control (pass_number self.now.pass) }
        ensures context { instance_ring self.now.pass ≡ Some (ring_name self.now.state.ctx) }
        ensures flag { (state_shown self.now.pass).flags.disable ≡ false }
        ensures received { received_list self.now.state.ctx ≡ received_before self.now.pass }
    {}

    /// The counts of the ring's polls so far.
    pub fn counts(&self) -> RxCounts
        ensures { result ≡ counts_of (polls_of self.now.state.ctx)
            (received_list self.now.state.ctx) }
    {
        self.state.ctx.counts()
    }

    /// Lets the two ends of the ring meet (see `rx_ring::beside`): the context learns of all packets in the ring.
    pub fn beside(&mut self, input: &mut RxIn)
        requires { PutsIntoRingOf input.old self.old.pass }
        ensures meets { Meets input.old self.old.state.ctx input.new self.new.state.ctx }
        ensures pass { self.new.pass ≡ self.old.pass }
    {
        rx_ring::beside(input, &mut self.state.ctx);
    }

    /// Tries once to enable the instance, and sets whether it is scheduled on its own thread (`napi_enable`): a look, and an
    /// exchange. The context goes back to the slot. It doesn't wait. Returns `Err` if the state changed between the two;
    /// nothing is decided then.
    pub fn try_enable(self, napi: &Napi, threaded: bool) -> Result<Control<On>, Control<Off>>
        requires { IsSeatOf napi.now self.pass }
        ensures events { MatchResult result (λ r. EnablesAt threaded self.pass r.pass)
            (λ r. WasLost (Enable threaded) self.pass r.pass) }
        ensures packets { MatchResult result (λ r. GivesBack self.pass self.state.ctx r.pass)
            (λ r. HoldsOn self.pass r.pass × IsSame self.state.ctx r.state.ctx) }
    {
        self.try_enable_between(napi, threaded, &mut Nothing)
    }

    /// Like [`try_enable`](Control::try_enable); it runs `between` after the look.
    pub fn try_enable_between<B: Between>(
        self,
        napi: &Napi,
        threaded: bool,
        between: &mut B,
    ) -> Result<Control<On>, Control<Off>>
        requires { IsSeatOf napi.now self.pass }
        ensures events { MatchResult result (λ r. EnablesAt threaded self.pass r.pass)
            (λ r. WasLost (Enable threaded) self.pass r.pass) }
        ensures packets { MatchResult result (λ r. GivesBack self.pass self.state.ctx r.pass)
            (λ r. HoldsOn self.pass r.pass × IsSame self.state.ctx r.state.ctx) }
        ensures run { B.ran between.old between.new }
    {
        let Control {
            mut pass,
            state: Off { ctx },
        } = self;
        let seen = napi.table.look(&mut pass);
        between.run();
        napi.table.slot_in(&mut pass, ctx);
        match napi.table.enable_swap(&mut pass, seen, threaded) {
            Ok(()) => Ok(Control { pass, state: On }),
            Err(_) => {
                let ctx = napi.table.slot_out(&mut pass);
                Err(Control {
                    pass,
                    state: Off { ctx },
                })
            }
        }
    }

    /// Enables the instance, and retries until an attempt decides (`napi_enable`).
    pub fn enable<R: Wait>(self, rt: &R, napi: &Napi, threaded: bool) -> Control<On>
        requires { IsSeatOf napi.now self.pass }
        ensures events { Enables threaded self.pass result.pass }
        ensures packets { GivesBack self.pass self.state.ctx result.pass }
    {
        let mut control = self;
        for _ in rt.forever() {
            match control.try_enable(napi, threaded) {
                Ok(enabled) => return enabled,
                Err(off) => control = off,
            }
        }
        unreachable!()
    }
}
