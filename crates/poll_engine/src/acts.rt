//! What a device does, act by act.

ghost use Rattle.std.specs.Prelude.{◌≡◌, ℕ, ◌<◌};

use rx_ring::Packet;

/// One act of a device.
#[derive(Clone, Copy, Debug, PartialEq, Eq)]
pub enum Act {
    /// A packet arrives and raises an interrupt (`napi_schedule`). A full ring drops it, and then no poll is requested.
    Arrive(Packet),
    /// The device is disabled, after its polls have ended (`napi_disable`). No effect on a disabled one.
    Disable,
    /// The device is enabled with its threaded setting (`napi_enable`). No effect on an enabled one.
    Enable,
    /// Changes the threaded setting, and THREADED at once (`dev_set_threaded`).
    SetThreaded(bool),
    /// No effect on the instance.
    Nothing,
}

/// A device that returns one act after the other, which its worker executes. Its `ghost` members state each act, and the device
/// afterwards, as functions of the device and the act's number.
pub trait Device {
    ghost use Rattle.poll_engine.specs.declared.acts.Act.{Act};

    ghost acts: { Self → ℕ };

    ghost answer: { Self → ℕ → Act };

    ghost after: { Self → ℕ → Self };

    /// Returns how many acts there are. They are numbered from 0.
    fn acts(&self) -> u32
        ensures { result ≡ acts self.now };

    /// Returns act number `k`. The worker calls this for each act, in order and once.
    fn act(&mut self, k: u32) -> Act
        requires { k < acts self.old }
        ensures answer { result ≡ answer self.old k }
        ensures after { self.new ≡ after self.old k }
        ensures same { acts self.new ≡ acts self.old };
}
