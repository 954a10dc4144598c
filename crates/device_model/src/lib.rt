//! The rows of a trace, read from the bytes of a text, and the devices on which they act. One thread may process them, with
//! instances of its own or with instances that threads could share; or each device's rows are the acts of a device that runs in
//! its own thread.
//!
//! This is a facade, with no code of its own: `device_places` has the numbers of devices, `device_rows` the rows, `device_bench`
//! the devices for one thread with their transmit sides, `device_shared` those with shared instances, and `replay` a device for a
//! run with threads. `specs/Lib.antt` re-exports what contracts cite.
#![tactic(auto)]

pub use device_bench::{
    DeviceBench as ReplayBench, DeviceCounts, DeviceState, KitSide, ReceiveSide, SerialBench,
    TxCounts,
};
pub use device_rows::{
    Row, RowEvent as Event, Trace, TraceFault, first_fault_stands, first_records_decide, read_trace,
};
pub use device_shared::{ClosedSide, SharedBench, SharedReceive};
pub use replay::{ScriptDevice, opening_of};
