//! Tests of poll lists, of the polling of a shared instance, and of each count for which something can be made: what no contract
//! says. The crate has only tests.
#![tactic(auto)]

#[cfg(test)]
mod asked_once;
#[cfg(test)]
mod at_each_act;
#[cfg(test)]
mod counts;
#[cfg(test)]
mod faults;
#[cfg(test)]
mod gates;
#[cfg(test)]
mod listing;
#[cfg(test)]
mod pacing;
#[cfg(test)]
mod polling;
#[cfg(test)]
mod shut;
#[cfg(test)]
mod threads;
