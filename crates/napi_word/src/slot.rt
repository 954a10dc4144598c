//! Moving the context out of the slot and back into it. These steps aren't events of the history.
ghost use Rattle.std.specs.Prelude.{◌≡◌, false, Some};
ghost use mathlib.Core.List.{IsPrefix};
ghost use Rattle.rx_ring.specs.Ends.{is_beside, received_list};
ghost use Rattle.napi_word.specs.Knowledge.{received_in};
ghost use Rattle.napi_word.specs.declared.history.Holds.TheVariants.{Within, Out};
ghost use Rattle.napi_word.specs.Passes.{view_of, ctx_of, received_of, IsStored, IsPassOf, Keeps, IsSlotFilled, OwnsSlot, OfItsRing};

use crate::history::Holds;
use crate::table::{Pass, StateTable};
use rx_ring::RxCtx;

impl StateTable {
    /// Takes the context out of the slot, which the pass owns because it polls or controls the instance.
    #[inline]
    pub fn slot_out(&self, pass: &mut Pass) -> RxCtx
        requires table { IsPassOf self.now pass.old }
        requires owner { OwnsSlot pass.old }
        requires within { IsSlotFilled pass.old }
        ensures keeps { Keeps pass.old pass.new }
        ensures holds { pass.new.holds ≡ Out }
        ensures ring { OfItsRing pass.old result }
        ensures unmarked { is_beside result ≡ false }
        ensures ctx { ctx_of pass.old ≡ Some result }
        ensures received { received_list result ≡ received_of pass.old }
    {
        let Some(ctx) = self.table.shared.exchange(&mut pass.seat, 0, None) else {
            unreachable!()
        };
        pass.holds = Holds::Out;
        ctx
    }

    /// Puts the context back into the slot, which the pass owns; it must belong to the same ring. This clears the mark of
    /// `beside`, so that the next owner's poll reads the ring for packets put meanwhile.
    #[inline]
    pub fn slot_in(&self, pass: &mut Pass, ctx: RxCtx)
        requires table { IsPassOf self.now pass.old }
        requires out { pass.old.holds ≡ Out }
        requires ring { OfItsRing pass.old ctx }
        requires received { IsPrefix (received_in (view_of pass.old)) (received_list ctx) }
        ensures keeps { Keeps pass.old pass.new }
        ensures holds { pass.new.holds ≡ Within }
        ensures stored { IsStored ctx pass.new }
        ensures received { received_of pass.new ≡ received_list ctx }
    {
        let mut ctx = ctx;
        ctx.apart();
        let old = self.table.shared.exchange(&mut pass.seat, 0, Some(ctx));
        let None = old else { unreachable!() };
        pass.holds = Holds::Within;
    }
}
