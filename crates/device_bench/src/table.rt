//! A table by the numbers of devices.

ghost use Rattle.std.specs.Prelude.{◌≡◌, IfOk};
ghost use Rattle.device_places.specs.Places.{empty};

use device_places::TABLE_LEN;
use std::alloc::{AllocError, Global};

/// A table by the numbers of devices, with [`TABLE_LEN`] entries.
pub type DeviceTable<T> = Vec<Option<T>>;

/// Returns a table without entries.
pub(crate) fn empty_table<T>(alloc: Global) -> Result<DeviceTable<T>, AllocError>
    ensures { IfOk result (λ table. table.items ≡ empty) }
{
    let mut table = Vec::with_capacity(alloc, TABLE_LEN as usize)?;
    for _ in 0..TABLE_LEN {
        table.push_reserved(None);
    }
    Ok(table)
}
