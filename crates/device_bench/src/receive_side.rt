//! The receive ring of a device, and its instance with all its callers.

ghost use Rattle.std.specs.Prelude.{◌≡◌, ◌<◌, ◌≤◌, ◌^◌, Bool, false, true, not, length, drop, IfOk};
ghost use Rattle.napi_model.specs.Step.{CallerPolls, after, complete_reply, event, schedule_reply, seen_of, take_disable_reply, take_reply};
ghost use Rattle.napi_model.specs.declared.event.Operation.TheVariants as operation;
ghost use Rattle.napi_model.specs.declared.state.Kind.TheVariants as kind;
ghost use Rattle.device_bench.specs.declared.device.TheConstants.{CONTROLLER, POLLER};
ghost use Rattle.device_bench.specs.Receive.{ReceiveView, busy_taken, polled_bytes, done_by, given_of, handed_again, queued_kind, ring_has_place, is_control, is_idle, is_polling_place, opened_side, poller_in, put_if, requested, taker_of, tried_by};
ghost use Rattle.device_places.specs.Range.{IsWithin};
ghost use Rattle.poll_runs.specs.Ranges.{IsWeight};

use napi_model::{Kind, Prep, Seen};
use std::alloc::{AllocError, Global};

/// A device's receive side: its receive ring, and its NAPI instance with the four callers, owned by one thread.
///
/// The interrupt handler is caller 0, the poller of the list is 1, the device's thread 2, and the controller 3. Each call has
/// the effect on ring and instance that the rules for one thread define, whether or not other threads could share the instance.
/// If it is `exact`, its clauses state that effect; otherwise tests compare it. What a call requires of its caller is its
/// precondition.
pub trait ReceiveSide {
    /// What opening a receive side needs besides memory.
    type Kit: Drop;

    /// What it leaves at its end.
    type End: Drop;

    /// The state of the instance, and the content of the ring.
    ghost side: { Self → ReceiveView };

    /// Whether clauses state the exact effect of each call on `side`, which is the one that the rules for one thread define.
    /// If they don't, `side` only says who owns the instance, and whether a disable is pending.
    ghost exact: { Bool };

    /// `ended end`: a receive side was ended, and left `end`.
    ghost ended: { Self.End → Type 0 };

    /// Opens a receive side with an empty ring of this capacity, and an instance that is enabled, not threaded.
    fn open(kit: &Self::Kit, alloc: Global, capacity: u32) -> Result<Self, AllocError>
        requires { IsWithin 1 65536 capacity }
        ensures { exact ≡ true → IfOk result (λ opened. side opened ≡ opened_side capacity) };

    /// Puts a packet of this size into the ring. Returns false, and changes nothing, if the ring is full.
    fn put(&mut self, bytes: u32) -> bool
        ensures fits { exact ≡ true → result ≡ ring_has_place (side self.old) }
        ensures side { exact ≡ true → side self.new ≡ put_if result bytes (side self.old) };

    /// How many packets the ring holds.
    fn left(&self) -> usize
        ensures { exact ≡ true → result ≡ length (side self.now).packets };

    /// Reads the state word.
    fn seen(&self) -> Seen
        ensures { exact ≡ true → result ≡ seen_of (side self.now).napi };

    /// Returns whether a disable is pending.
    fn is_marked(&self) -> bool
        ensures { result ≡ (side self.now).napi.flags.disable };

    /// Returns whether the instance is disabled.
    fn is_off(&self) -> bool
        ensures { result ≡ is_control (side self.now).napi.place };

    /// Requests a poll, as an interrupt does (`napi_schedule_prep`). If the request is granted, it queues the instance, and
    /// returns in which queue.
    fn request(&mut self) -> (Prep, Option<Kind>)
        ensures reply { exact ≡ true → result.0 ≡ schedule_reply (side self.old).napi }
        ensures kind { exact ≡ true → result.1 ≡ queued_kind result.0 (side self.old).napi }
        ensures side { exact ≡ true → side self.new ≡ record (side self.old) {
          napi = requested result.0 (side self.old).napi;
        } };

    /// Takes the instance from the list, for the poller of the list, or from its thread's queue, for the thread
    /// (`net_rx_action`, `napi_thread_wait`). Returns false, and changes nothing, if it isn't in that queue.
    fn take(&mut self, kind: Kind) -> bool
        ensures reply { exact ≡ true → result ≡ take_reply kind (side self.old).napi }
        ensures side { exact ≡ true → side self.new ≡ record (side self.old) {
          napi = after (side self.old).napi
              (event (taker_of kind) (operation.Take kind result));
        } }
        ensures hand { result ≡ true → CallerPolls (poller_in (side self.new).napi.place) false
            (side self.new).napi };

    /// Takes the ring's next packets, at most the weight (a driver's `poll`). Returns how many, and their bytes.
    fn receive(&mut self, weight: u32) -> (u32, u64)
        requires weight { IsWeight weight }
        requires polled { is_polling_place (side self.old).napi.place ≡ true }
        ensures count { exact ≡ true → result.0 ≡ given_of weight (side self.old) }
        ensures bytes { exact ≡ true → result.1 ≡ polled_bytes weight (side self.old) }
        ensures side { exact ≡ true → side self.new ≡ record (side self.old) {
          packets = drop (given_of weight (side self.old)) (side self.old).packets;
        } }
        ensures hand { (side self.new).napi ≡ (side self.old).napi }
        ensures most { result.0 ≤ weight }
        ensures least { result.0 ≡ 0 → result.1 ≡ 0 }
        ensures bound { result.1 < 2 ^ 38 };

    /// Queues an instance that is being polled on the list again (the repoll of `napi_poll`).
    fn requeue(&mut self)
        requires { CallerPolls (poller_in (side self.old).napi.place) false (side self.old).napi }
        ensures side { exact ≡ true → side self.new ≡ record (side self.old) {
          napi = after (side self.old).napi
              (event (poller_in (side self.old).napi.place) (operation.Hand kind.List));
        } };

    /// Completes an instance that is being polled (`napi_complete_done`). If a request was missed, it queues the instance
    /// again, and returns in which queue.
    fn complete(&mut self) -> Option<Kind>
        requires { CallerPolls (poller_in (side self.old).napi.place) false (side self.old).napi }
        ensures kind { exact ≡ true → result ≡ handed_again
            (complete_reply (side self.old).napi) (side self.old).napi }
        ensures side { exact ≡ true → side self.new ≡ record (side self.old) {
          napi = done_by (poller_in (side self.old).napi.place)
              (complete_reply (side self.old).napi) (side self.old).napi;
        } };

    /// Takes an idle instance, to busy poll it (`napi_busy_loop`). Returns false, and changes nothing, if it isn't idle.
    fn busy_take(&mut self) -> bool
        ensures reply { exact ≡ true → result ≡ is_idle (side self.old).napi }
        ensures side { exact ≡ true → side self.new ≡ record (side self.old) {
          napi = busy_taken result (side self.old).napi;
        } }
        ensures hand { result ≡ true → CallerPolls POLLER true (side self.new).napi };

    /// Completes a poll while busy polling: the poller still owns the instance (`napi_complete_done` returns false).
    fn hold(&mut self)
        requires { CallerPolls POLLER true (side self.old).napi }
        ensures { side self.new ≡ side self.old };

    /// Stops busy polling (`busy_poll_stop`): the poller polls once more.
    fn stop(&mut self)
        requires { CallerPolls POLLER true (side self.old).napi }
        ensures side { exact ≡ true → side self.new ≡ record (side self.old) {
          napi = after (side self.old).napi (event POLLER operation.BusyStop);
        } }
        ensures hand { CallerPolls (poller_in (side self.new).napi.place) false
            (side self.new).napi };

    /// Marks a disable on an instance that is enabled (`napi_disable`).
    fn mark(&mut self)
        requires unmarked { (side self.old).napi.flags.disable ≡ false }
        requires on { is_control (side self.old).napi.place ≡ false }
        ensures side { exact ≡ true → side self.new ≡ record (side self.old) {
          napi = after (side self.old).napi (event CONTROLLER operation.MarkDisable);
        } };

    /// Tries a pending disable once. Returns true if the controller took the instance; the mark of the disable is cleared then.
    fn try_take(&mut self) -> bool
        requires { (side self.old).napi.flags.disable ≡ true }
        ensures reply { exact ≡ true → result ≡ take_disable_reply (side self.old).napi }
        ensures side { exact ≡ true → side self.new ≡ record (side self.old) {
          napi = tried_by result (side self.old).napi;
        } }
        ensures marked { (side self.new).napi.flags.disable ≡ not result };

    /// Enables an instance that is disabled (`napi_enable`).
    fn enable(&mut self, threaded: bool)
        requires unmarked { (side self.old).napi.flags.disable ≡ false }
        requires off { is_control (side self.old).napi.place ≡ true }
        ensures side { exact ≡ true → side self.new ≡ record (side self.old) {
          napi = after (side self.old).napi (event CONTROLLER (operation.Enable threaded));
        } };

    /// Sets whether the device is scheduled on its own thread from now on (`dev_set_threaded`).
    fn set_threaded(&mut self, threaded: bool)
        ensures side { exact ≡ true → side self.new ≡ record (side self.old) {
          napi = after (side self.old).napi
              (event CONTROLLER (operation.SetThreaded threaded));
        } };

    /// Ends a receive side: if other callers can own the instance, waits until none does, disables it, and polls all packets in
    /// the ring.
    fn end(self) -> Self::End
        ensures { ended result };
}

/// A receive side that is opened with a kit of the caller's, which the bench's `new` takes.
pub trait KitSide: ReceiveSide {}
