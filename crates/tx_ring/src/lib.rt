//! The transmit ring of a device: packets are sent and complete in order, and a dynamic queue limit on their bytes stops the
//! queue and starts it again.
//!
//! This is what the kernel's byte queue limits do in `netdev_tx_sent_queue` and `netdev_tx_completed_queue`
//! (`include/linux/netdevice.h` of Linux 6.6), together with a driver's ring of packets. `specs/Queue.antt` defines what each
//! call does to the queue, and the contracts of [`TxRing`] say that it does the same.
#![tactic(auto)]

mod event;
mod ring;

pub use event::{TxEvent, TxFault, TxState};
pub use ring::{MAX_CAPACITY, TxRing};
