//! Functions on histories.

ghost use Rattle.std.specs.Prelude.{◌≡◌, ◌↔◌, ◌+◌, ◌<◌, IsTrue, IsNone, IfSome, IfOk, length, take};
ghost use Rattle.napi_model.specs.History.{state_after, IsLegalFor, LegalHistory, own, IsPollStart, IsAcceptedSchedule};

use crate::{Event, Operation, Place, Prep, State};
use std::alloc::{AllocError, Global};

/// Returns the state after a list of events.
pub fn state_after(start: State, history: &[Event]) -> State
    ensures { result ≡ state_after start history.now }
{
    let mut state = start;
    for event in history {
        state = state.after(*event);
    }
    state
}

/// Returns the events of one caller in a history, in order. Fails if the allocation fails.
#[tactic(auto, unfolding(crate::specs::History::own))]
pub fn own(alloc: Global, caller: u32, history: &[Event]) -> Result<Vec<Event>, AllocError>
    ensures { IfOk result (λ events. events.items ≡ own caller history.now) }
{
    history
        .iter()
        .copied()
        .filter(|event| event.caller == caller)
        .collect(alloc)
}

/// Returns whether this event begins a poll: a successful take, or the end of busy polling, after which the caller polls once
/// more.
pub fn is_poll_start(event: Event) -> bool
    ensures { IsTrue result ↔ IsPollStart event }
{
    matches!(
        &event.operation,
        Operation::Take(_, true) | Operation::BusyStop
    )
}

/// Returns whether this event, in this state, is a request that must be followed by a poll: it was granted, or it was missed
/// while the instance wasn't the controller's.
pub fn is_accepted_schedule(state: State, event: Event) -> bool
    ensures { IsTrue result ↔ IsAcceptedSchedule state event }
{
    match event.operation {
        Operation::Schedule(Prep::Granted) => true,
        Operation::Schedule(Prep::Missed) => !matches!(&state.place, Place::Control(_)),
        _ => false,
    }
}

fn is_legal_for(controller: u32, state: State, event: Event) -> bool
    ensures { IsTrue result ↔ IsLegalFor controller state event }
{
    let is_controls = matches!(
        &event.operation,
        Operation::MarkDisable
            | Operation::TakeDisable(_)
            | Operation::Unmark
            | Operation::Enable(_)
    );
    state.is_legal(event) && (!is_controls || event.caller == controller)
}

/// Returns the index of the first illegal event in a history of an instance with this controller, or `None` if the whole
/// history is legal.
pub fn first_illegal(controller: u32, start: State, history: &[Event]) -> Option<usize>
    ensures legal { IsNone result ↔ LegalHistory controller start history.now }
    ensures before { IfSome result (λ i. LegalHistory controller start (take i history.now)) }
    ensures first { IfSome result
        (λ i. (i < length history.now)
        × ¬ LegalHistory controller start (take (i + 1) history.now)) }
{
    let mut reached = start;
    for (i, event) in history.iter().enumerate() {
        if !is_legal_for(controller, reached, *event) {
            return Some(i);
        }
        reached = reached.after(*event);
    }
    None
}
