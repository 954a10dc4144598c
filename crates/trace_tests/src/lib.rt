//! Tests of traces, devices, replays and runs of the machine, of what no contract says: memory, and readers and writers that
//! fail.
#![tactic(auto)]

#[cfg(test)]
mod calls;
#[cfg(test)]
mod ends;
#[cfg(test)]
mod failing;
#[cfg(test)]
mod long;
#[cfg(test)]
mod runs;
