//! Tests of the crates below the poll lists: of what no contract says (memory, texts of errors, threads, pauses, and what a poll
//! finds), of each interleaving of a card and its driver, and of examples worked out by hand, with which the definitions are
//! compared.
#![tactic(auto)]

#[cfg(test)]
mod bed;
#[cfg(test)]
mod busy;
#[cfg(test)]
mod by_turns;
#[cfg(test)]
mod calls;
#[cfg(test)]
mod card;
#[cfg(test)]
mod contention;
#[cfg(test)]
mod dealing;
#[cfg(test)]
mod events;
#[cfg(test)]
mod faults;
#[cfg(test)]
mod interleavings;
#[cfg(test)]
mod limits;
#[cfg(test)]
mod model;
#[cfg(test)]
mod pausing;
#[cfg(test)]
mod places;
#[cfg(test)]
mod receive;
#[cfg(test)]
mod threads;
#[cfg(test)]
mod transmit;
#[cfg(test)]
mod turns;
#[cfg(test)]
mod two_callers;
#[cfg(test)]
mod word;
