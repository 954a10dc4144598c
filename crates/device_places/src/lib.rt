//! Internal crate of the facade `device_model`: the numbers of devices, and a table by these numbers. It doesn't depend on
//! rows, so the prover can check benches, the machine, and the reader of traces in parallel.
#![tactic(auto)]

/// The size of a table of devices: numbers 0 to 16, of which 0 stays empty.
pub const TABLE_LEN: u32 = 17;
