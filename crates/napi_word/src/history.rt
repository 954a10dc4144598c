//! What a thread knows of the instance. It exists only in contracts: a program never makes a `LocalHistory` or `Knowledge`.
use napi_model::Event;
use rx_ring::{Packet, RxCtx};
use std::collections::LinkedList;
use std::snapshot::Snapshot;

/// The parameters of the invariant, fixed when a table is made.
#[derive(Drop)]
pub struct Key {
    /// The controller's number, which is the greatest.
    pub controller: u32,
    /// The table's first context, which names its ring.
    pub ring: Snapshot<RxCtx>,
}

/// The packets that an owner of the slot's context received, between taking it and returning it.
pub struct Delivery {
    /// The owner's number.
    pub by: u32,
    /// Its packets, oldest first.
    pub packets: LinkedList<Packet>,
    /// The context as it was returned.
    pub ctx: RxCtx,
}

/// What one caller knows of the instance.
pub struct LocalHistory {
    /// False only for the first seat of a new table, before it takes the slot.
    pub begun: bool,
    /// The caller's number; `None` in a copy that was made for another caller.
    pub number: Option<u32>,
    /// The events that it has seen: a prefix of the table's history.
    pub seen: LinkedList<Event>,
    /// Its own events.
    pub mine: LinkedList<Event>,
    /// The deliveries that it has seen: a prefix of all, in the order in which the context was returned.
    pub delivered: LinkedList<Delivery>,
    /// The controller's number.
    pub controller: u32,
    /// The first context of the table.
    pub ring: RxCtx,
}

/// The local histories of one pass: its own, and those of each pass that it joined. A pass that was joined to another has none
/// left.
pub type Knowledge = LinkedList<LocalHistory>;

/// What a pass holds of the slot of the poll context.
#[derive(Clone, Copy, PartialEq, Eq, Debug)]
pub enum Holds {
    /// It doesn't own the slot.
    Nothing,
    /// It owns the slot, with the context in it.
    Within,
    /// It owns the slot, and has taken the context out of it.
    Out,
}
