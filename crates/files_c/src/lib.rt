//! Exports for C of the replay of a trace and of a run of the machine: bytes in, bytes out.
#![tactic(auto)]

mod machine_calls;
mod machine_fault;
mod replay_calls;
mod replay_fault;
mod settings;
mod status;
