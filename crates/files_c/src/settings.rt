//! The machine's settings for C.

ghost use Rattle.std.specs.Prelude.{◌≡◌, ◌≢◌, ◌↔◌};
ghost use Rattle.machine_model.specs.Options.{option_defaults};
ghost use Rattle.files_c.specs.Status.{FILES_OK, FILES_BAD_SIZE};

use crate::status;
use machine_model::{MachineSettings, OPTION_COUNT};
use std::mem::size_of;

/// The settings of the machine: `struct fq_machine_settings`.
#[repr(C)]
#[derive(Clone, Copy)]
pub struct FqMachineSettings {
    /// The size of this struct in bytes, which the caller sets.
    pub size: usize,
    /// The values of the settings, in the order of `machine_model::OPTIONS`; C has a member for each. A flag is 0 or 1.
    pub values: [u32; OPTION_COUNT],
}

impl FqMachineSettings {
    /// The size of the struct in bytes.
    pub(crate) const SIZE: usize = size_of::<FqMachineSettings>();
}

/// Sets all settings to their defaults, like `MachineSettings::default`. Returns OK, or BAD_SIZE and writes nothing.
#[unsafe(no_mangle)]
pub extern "C" fn fq_machine_default_sized(settings: &mut FqMachineSettings) -> u32
    ensures default { result ≡ FILES_OK → settings.new.values ≡ option_defaults }
    ensures size { result ≡ FILES_OK → settings.new.size ≡ 136 }
    ensures status { result ≢ FILES_OK → result ≡ FILES_BAD_SIZE }
    ensures when { (result ≡ FILES_OK) ↔ (settings.old.size ≡ 136) }
    ensures kept { result ≢ FILES_OK → settings.new ≡ settings.old }
{
    if settings.size != FqMachineSettings::SIZE {
        return status::BAD_SIZE;
    }
    settings.values = MachineSettings::default().values();
    status::OK
}
