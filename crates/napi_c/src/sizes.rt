//! The sizes of the structs that never grow, so that bindings can check theirs.
ghost use Rattle.std.specs.Prelude.{◌≡◌};
ghost use Rattle.napi_c.specs.Sizes.{size_in};

use crate::limit::FqDql;
use crate::serial::FqNapi;
use crate::watch::FqTxWatchdog;
use c_handles::{FqHandle, FqTodo};
use rx_ring::Packet;
use std::mem::size_of;

/// Returns the size of a struct in bytes, by its number (`enum fq_struct`); 0 for a number that isn't one.
#[unsafe(no_mangle)]
pub extern "C" fn fq_struct_size(which: u32) -> usize
    ensures { result ≡ size_in which }
{
    match which {
        0 => size_of::<FqHandle>(),
        1 => size_of::<FqDql>(),
        2 => size_of::<FqNapi>(),
        3 => size_of::<Packet>(),
        4 => size_of::<FqTxWatchdog>(),
        5 => size_of::<FqTodo>(),
        _ => 0,
    }
}
