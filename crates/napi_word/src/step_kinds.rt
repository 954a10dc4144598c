//! The kinds of steps. Each determines its operation, and how it moves the slot, from the word that it finds.
ghost use Rattle.napi_word.specs.Rule.{left_of, right_of, copy_of, joined, spent_view};
ghost use Rattle.napi_word.specs.Operations.{makes_as_seen, exchanged, table_begun, slot_returned};

use crate::history::Knowledge;
use atomic_table::{Join, Play, Split};
use rx_ring::RxCtx;
use std::marker::PhantomData;

/// A kind of step.
pub(crate) trait Step {
    ghost use Rattle.napi_model.specs.declared.state.Seen.{Seen};
    ghost use Rattle.napi_model.specs.declared.event.Operation.{Operation};
    ghost use Rattle.napi_word.specs.Slot.{Moves};

    ghost operation: { Seen → Operation };

    ghost moves: { Seen → Moves };
}

/// A step by a load, an or, or an and.
pub(crate) struct ByWord<K: Step> {
    marker: PhantomData<K>,
}

impl<K: Step> Play<Option<RxCtx>, Knowledge> for ByWord<K> {
    ghost then = { λ s. makes_as_seen K.operation K.moves };
}

/// A step by a compare-exchange: its operation if it succeeds, otherwise a look.
pub(crate) struct Exchanged<K: Step> {
    marker: PhantomData<K>,
}

impl<K: Step> Play<Option<RxCtx>, Knowledge> for Exchanged<K> {
    ghost then = { λ s. exchanged K.operation K.moves s.first };
}

pub(crate) struct Looks;

impl Step for Looks {
    ghost use Rattle.napi_model.specs.declared.event.Operation.TheVariants.{Look};
    ghost use Rattle.napi_word.specs.Operations.{no_move};

    ghost operation = { λ x. Look x };

    ghost moves = { no_move };
}

pub(crate) struct Tries;

impl Step for Tries {
    ghost use Rattle.napi_word.specs.Operations.{load_op, no_move};

    ghost operation = { λ x. load_op x.flags.disable x };

    ghost moves = { no_move };
}

pub(crate) struct Schedules;

impl Step for Schedules {
    ghost use Rattle.napi_model.specs.declared.event.Operation.TheVariants.{Schedule};
    ghost use Rattle.napi_word.specs.Operations.{prep_of, no_move};

    ghost operation = { λ x. Schedule (prep_of x.flags.sched) };

    ghost moves = { no_move };
}

pub(crate) struct HandsToList;

impl Step for HandsToList {
    ghost use Rattle.napi_model.specs.declared.event.Operation.TheVariants.{Hand};
    ghost use Rattle.napi_model.specs.declared.state.Kind.TheVariants as kind;
    ghost use Rattle.napi_word.specs.Slot.{given};

    ghost operation = { λ x. Hand kind.List };

    ghost moves = { λ x. given };
}

pub(crate) struct HandsToThread;

impl Step for HandsToThread {
    ghost use Rattle.napi_model.specs.declared.event.Operation.TheVariants.{Hand};
    ghost use Rattle.napi_model.specs.declared.state.Kind.TheVariants as kind;
    ghost use Rattle.napi_word.specs.Slot.{given};

    ghost operation = { λ x. Hand kind.Thread };

    ghost moves = { λ x. given };
}

pub(crate) struct TakesFromList;

impl Step for TakesFromList {
    ghost use Rattle.napi_model.specs.declared.event.Operation.TheVariants.{Take};
    ghost use Rattle.napi_model.specs.declared.state.Kind.TheVariants as kind;
    ghost use Rattle.napi_word.specs.Slot.{taken};
    ghost use Rattle.napi_word.specs.Operations.{is_marked, when};

    ghost operation = { λ x. Take kind.List (is_marked kind.List x.handed) };

    ghost moves = { λ x. when (is_marked kind.List x.handed) taken };
}

pub(crate) struct TakesFromThread;

impl Step for TakesFromThread {
    ghost use Rattle.napi_model.specs.declared.event.Operation.TheVariants.{Take};
    ghost use Rattle.napi_model.specs.declared.state.Kind.TheVariants as kind;
    ghost use Rattle.napi_word.specs.Slot.{taken};
    ghost use Rattle.napi_word.specs.Operations.{is_marked, when};

    ghost operation = { λ x. Take kind.Thread (is_marked kind.Thread x.handed) };

    ghost moves = { λ x. when (is_marked kind.Thread x.handed) taken };
}

pub(crate) struct Completes;

impl Step for Completes {
    ghost use Rattle.napi_model.specs.declared.event.Operation.TheVariants.{Complete};
    ghost use Rattle.napi_word.specs.Slot.{given};
    ghost use Rattle.napi_word.specs.Operations.{done_of};

    ghost operation = { λ x. Complete (done_of x.flags.missed) };

    ghost moves = { λ x. given };
}

pub(crate) struct TakesBusy;

impl Step for TakesBusy {
    ghost use Rattle.napi_model.specs.declared.event.Operation.TheVariants.{BusyTake};
    ghost use Rattle.napi_word.specs.Slot.{taken};

    ghost operation = { λ x. BusyTake };

    ghost moves = { λ x. taken };
}

pub(crate) struct StopsBusy;

impl Step for StopsBusy {
    ghost use Rattle.napi_model.specs.declared.event.Operation.TheVariants.{BusyStop};
    ghost use Rattle.napi_word.specs.Operations.{no_move};

    ghost operation = { λ x. BusyStop };

    ghost moves = { no_move };
}

pub(crate) struct CompletesHeld;

impl Step for CompletesHeld {
    ghost use Rattle.napi_model.specs.declared.event.Done.TheVariants.{Held};
    ghost use Rattle.napi_model.specs.declared.event.Operation.TheVariants.{Complete};
    ghost use Rattle.napi_word.specs.Operations.{no_move};

    ghost operation = { λ x. Complete Held };

    ghost moves = { no_move };
}

pub(crate) struct SetsThreaded;

impl Step for SetsThreaded {
    ghost use Rattle.std.specs.Prelude.{true};
    ghost use Rattle.napi_model.specs.declared.event.Operation.TheVariants.{SetThreaded};
    ghost use Rattle.napi_word.specs.Operations.{no_move};

    ghost operation = { λ x. SetThreaded true };

    ghost moves = { no_move };
}

pub(crate) struct ClearsThreaded;

impl Step for ClearsThreaded {
    ghost use Rattle.std.specs.Prelude.{false};
    ghost use Rattle.napi_model.specs.declared.event.Operation.TheVariants.{SetThreaded};
    ghost use Rattle.napi_word.specs.Operations.{no_move};

    ghost operation = { λ x. SetThreaded false };

    ghost moves = { no_move };
}

pub(crate) struct Marks;

impl Step for Marks {
    ghost use Rattle.napi_model.specs.declared.event.Operation.TheVariants.{MarkDisable};
    ghost use Rattle.napi_word.specs.Operations.{no_move};

    ghost operation = { λ x. MarkDisable };

    ghost moves = { no_move };
}

pub(crate) struct Asks;

impl Step for Asks {
    ghost use Rattle.napi_word.specs.Operations.{shows_busy, busy_op, no_move};

    ghost operation = { λ x. busy_op (shows_busy x) x };

    ghost moves = { no_move };
}

pub(crate) struct Disables;

impl Step for Disables {
    ghost use Rattle.std.specs.Prelude.{true};
    ghost use Rattle.napi_model.specs.declared.event.Operation.TheVariants.{TakeDisable};
    ghost use Rattle.napi_word.specs.Slot.{taken};

    ghost operation = { λ x. TakeDisable true };

    ghost moves = { λ x. taken };
}

pub(crate) struct Unmarks;

impl Step for Unmarks {
    ghost use Rattle.napi_model.specs.declared.event.Operation.TheVariants.{Unmark};
    ghost use Rattle.napi_word.specs.Operations.{no_move};

    ghost operation = { λ x. Unmark };

    ghost moves = { no_move };
}

pub(crate) struct Enables;

impl Step for Enables {
    ghost use Rattle.std.specs.Prelude.{false};
    ghost use Rattle.napi_model.specs.declared.event.Operation.TheVariants.{Enable};
    ghost use Rattle.napi_word.specs.Slot.{given};

    ghost operation = { λ x. Enable false };

    ghost moves = { λ x. given };
}

pub(crate) struct EnablesThreaded;

impl Step for EnablesThreaded {
    ghost use Rattle.std.specs.Prelude.{true};
    ghost use Rattle.napi_model.specs.declared.event.Operation.TheVariants.{Enable};
    ghost use Rattle.napi_word.specs.Slot.{given};

    ghost operation = { λ x. Enable true };

    ghost moves = { λ x. given };
}

/// The first seat of a table (what `atomic_table` gives a thread for its steps) takes the slot for the controller. It gets a
/// local history for each number. This is no event.
pub(crate) struct TakesFirstSlot;

impl Play<Option<RxCtx>, Knowledge> for TakesFirstSlot {
    ghost then = { λ s. table_begun };
}

/// A pass that has taken the context out of the slot returns the empty slot, when its table is closed. This is no event.
pub(crate) struct ReturnsSlot;

impl Play<Option<RxCtx>, Knowledge> for ReturnsSlot {
    ghost then = { λ s. slot_returned };
}

/// The first seat splits off a seat for one of the numbers.
pub(crate) struct GivesNumber;

impl Split<Knowledge> for GivesNumber {
    ghost left = { left_of };

    ghost right = { right_of };
}

/// A pass makes a copy of the history that it has seen, for another pass.
pub(crate) struct CopiesHistory;

impl Split<Knowledge> for CopiesHistory {
    ghost left = { λ v. v };

    ghost right = { copy_of };
}

/// One pass joins another one, with all its local histories.
pub(crate) struct JoinsPass;

impl Join<Knowledge> for JoinsPass {
    ghost both = { joined };

    ghost spent = { spent_view };
}
