//! Internal crate of the facade `device_model`: the devices on which the rows of a trace act.
//!
//! `specs/Device.antt` defines the effect of rows and polls on a device, and the contracts of [`SerialBench`] say that its
//! calls have that effect. docs/RULES.md has the rules.
#![tactic(auto)]

mod bench;
mod counts;
mod device;
mod places;
mod receive_side;
mod serial_receive;
mod table;
mod transmit;

pub use bench::{DeviceBench, SerialBench};
pub use counts::{DeviceCounts, DeviceState};
pub use places::{put_back, take_out};
pub use receive_side::{KitSide, ReceiveSide};
pub use serial_receive::SerialReceive;
pub use table::DeviceTable;
pub use transmit::{Transmit, TxCounts};
