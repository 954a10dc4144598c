//! What the settings say of a processor's work: how it polls, and how long its pieces take.

ghost use Rattle.std.specs.Prelude.{◌≡◌, ◌≤◌, ◌+◌};
ghost use Rattle.machine_model.specs.Processor.{interrupt_cost, is_batching, is_polling, may_arm, wake_cost};
ghost use Rattle.machine_model.specs.Waits.{saturated};

use crate::settings::MachineSettings;

/// Returns whether the machine polls, instead of delivering a packet per interrupt.
pub(crate) fn is_polling(settings: &MachineSettings) -> bool
    ensures { result ≡ is_polling settings.now }
{
    settings.budget != 0
}

/// Returns whether polls hold the packets that they take, for GRO.
pub(crate) fn is_batching(settings: &MachineSettings) -> bool
    ensures { result ≡ is_batching settings.now }
{
    settings.gro_batch != 0 && !settings.backlog
}

/// Returns whether the completion of a poll that processed this many packets takes longer if it starts the NAPI timer.
pub(crate) fn may_arm(given: u32, settings: &MachineSettings) -> bool
    ensures { result ≡ may_arm given settings.now }
{
    settings.arm != 0 && !settings.backlog && given < settings.weight
}

/// Returns the time of an interrupt of a card, or of a NAPI timer. Without polling it also takes a packet, which takes `waking` longer
/// if it wakes the application.
pub(crate) fn interrupt_cost(is_timer: bool, waking: u32, settings: &MachineSettings) -> u32
    requires { waking ≤ 1000000000 }
    ensures { result ≡ interrupt_cost is_timer waking settings.now }
{
    let time = if is_timer {
        settings.timer.unwrap_or(settings.interrupt)
    } else {
        settings.interrupt
    };
    if is_polling(settings) {
        time
    } else {
        time + settings.packet + waking
    }
}

/// Returns the time to wake an idle processor by an interrupt of a card, or of a NAPI timer.
pub(crate) fn wake_cost(is_timer: bool, settings: &MachineSettings) -> u32
    ensures { result ≡ wake_cost is_timer settings.now }
{
    if is_timer {
        settings.timer_wake.unwrap_or(settings.wake)
    } else {
        settings.wake
    }
}

/// Returns when work ends that begins at this time and takes this long.
pub(crate) fn end_after(clock: u64, time: u32) -> u64
    ensures { result ≡ saturated (clock + time) }
{
    clock.saturating_add(u64::from(time))
}
