//! The events of a trace: the name of each, and the values of its rows.

ghost use Rattle.std.specs.Prelude.{◌≡◌, ◌≤◌, IfSome, length};
ghost use Rattle.device_rows.specs.Plain.{IsPlain};
ghost use Rattle.device_rows.specs.Row.{event_name, event_of, value_fits};

/// The event of a row. The name in the trace comes first.
#[derive(Clone, Copy, Debug, PartialEq, Eq)]
pub enum RowEvent {
    /// `open`: a device with a receive and a transmit ring of capacity `value` each; its instance is made and enabled, not
    /// threaded.
    Opened,
    /// `rx`: a packet of `value` bytes arrives, and the interrupt requests a poll (`napi_schedule_prep`).
    Rx,
    /// `tx`: a packet of `value` bytes is sent (`netdev_tx_sent_queue`).
    Tx,
    /// `done`: `value` packets that were sent complete at the row's time (`netdev_tx_completed_queue`).
    Finish,
    /// `softirq`: one run over the poll list (`net_rx_action`).
    Softirq,
    /// `kthread`: the device's thread polls (`napi_threaded_poll`).
    Kthread,
    /// `disable`: a disable is marked, and the instance is taken as soon as no caller polls it (`napi_disable`).
    Disable,
    /// `enable`: the instance is enabled again (`napi_enable`).
    Enable,
    /// `threaded`: the device is polled by its thread from now on, or from the list again (`dev_set_threaded`).
    Threaded,
    /// `busy`, in version 2: the device is busy polled for `value` rounds (`napi_busy_loop`).
    Busy,
}

impl RowEvent {
    /// Returns the name in the trace, which has at most 8 bytes.
    #[inline(always)]
    pub fn name(self) -> &'static [u8]
        ensures name { result.now ≡ event_name self }
        ensures short { length result.now ≤ 8 }
        ensures plain { IsPlain result.now }
    {
        match self {
            RowEvent::Opened => b"open".as_slice(),
            RowEvent::Rx => b"rx".as_slice(),
            RowEvent::Tx => b"tx".as_slice(),
            RowEvent::Finish => b"done".as_slice(),
            RowEvent::Softirq => b"softirq".as_slice(),
            RowEvent::Kthread => b"kthread".as_slice(),
            RowEvent::Disable => b"disable".as_slice(),
            RowEvent::Enable => b"enable".as_slice(),
            RowEvent::Threaded => b"threaded".as_slice(),
            RowEvent::Busy => b"busy".as_slice(),
        }
    }

    /// Returns whether a row of this event may have this value.
    #[inline(always)]
    pub(crate) fn takes(self, value: u128) -> bool
        ensures { result ≡ value_fits self value }
    {
        match self {
            RowEvent::Opened => 1 <= value && value <= 65536,
            RowEvent::Rx | RowEvent::Tx | RowEvent::Busy => 1 <= value && value <= 65535,
            RowEvent::Finish => value <= 65536,
            RowEvent::Threaded => value <= 1,
            _ => value == 0,
        }
    }
}

/// Returns the event with this name in a trace of this version, if there is one.
#[inline(always)]
#[tactic(auto, unfolding(crate::specs::Row::event_of))]
pub(crate) fn event_of(version: u32, word: &[u8]) -> Option<RowEvent>
    ensures event { result ≡ event_of version word.now }
    ensures plain { IfSome result (λ _. IsPlain word.now) }
{
    if word == RowEvent::Opened.name() {
        return Some(RowEvent::Opened);
    }
    if word == RowEvent::Rx.name() {
        return Some(RowEvent::Rx);
    }
    if word == RowEvent::Tx.name() {
        return Some(RowEvent::Tx);
    }
    if word == RowEvent::Finish.name() {
        return Some(RowEvent::Finish);
    }
    if word == RowEvent::Softirq.name() {
        return Some(RowEvent::Softirq);
    }
    if word == RowEvent::Kthread.name() {
        return Some(RowEvent::Kthread);
    }
    if word == RowEvent::Disable.name() {
        return Some(RowEvent::Disable);
    }
    if word == RowEvent::Enable.name() {
        return Some(RowEvent::Enable);
    }
    if word == RowEvent::Threaded.name() {
        return Some(RowEvent::Threaded);
    }
    if version == 2 && word == RowEvent::Busy.name() {
        return Some(RowEvent::Busy);
    }
    None
}
