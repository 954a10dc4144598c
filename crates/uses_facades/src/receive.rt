//! A program that uses only `rx_ring`: its contract states which packets a poll returns, by the ring of both ends.

ghost use Rattle.std.specs.Prelude.{◌≡◌, take};
ghost use Rattle.rx_ring.specs.Ends.{IsOneRing, ring_of};
ghost use Rattle.rx_ring.specs.ReceiveRing.{NAPI_POLL_WEIGHT, held_of};

use rx_ring::{Batch, MAX_WEIGHT, RxCtx, RxIn, beside};

/// Polls as the owner of both ends of a ring: returns exactly the first packets in the ring, as many as a poll may.
pub fn poll_beside(input: &mut RxIn, ctx: &mut RxCtx, batch: &mut Batch)
    requires { IsOneRing input.old ctx.old }
    ensures { batch.new.items ≡ take NAPI_POLL_WEIGHT (held_of (ring_of input.old ctx.old)) }
{
    beside(input, ctx);
    ctx.poll(MAX_WEIGHT, batch);
}
