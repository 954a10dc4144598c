//! The settings of the receiving machine, and the table of the options that set them: its processors and queues, their sizes, how
//! it polls, and what each kind of work costs.

ghost use Rattle.std.specs.Prelude.{◌≤◌};
ghost use Rattle.std.specs.Option.{ForSome};
ghost use Rattle.poll_runs.specs.Ranges.{IsWeight, IsWindow};

/// An option of the machine, which sets one of its settings.
#[derive(Clone, Copy, Debug, PartialEq, Eq)]
pub struct MachineOption {
    /// The name on the command line, without the hyphens before it. The setting has the same name, with `_` for each `-`; the
    /// setting of `use` is `use_time`.
    pub name: &'static str,
    /// The least value.
    pub least: u32,
    /// The greatest value.
    pub most: u32,
    /// The value of an option that isn't given. For `timer` and `timer-wake` it is 4294967295, which stands for the value of
    /// `interrupt` and of `wake`.
    pub default: u32,
    /// The unit of the value; empty for a number that has none, and for a flag, which is 0 or 1.
    pub unit: &'static str,
    /// What the value is, and how it is set in Linux.
    pub what: &'static str,
}

macro_rules! options {
    ($(($name:literal, $least:literal, $most:literal, $default:literal, $unit:literal, $what:literal),)*) => {
        [$(MachineOption {
            name: $name,
            least: $least,
            most: $most,
            default: $default,
            unit: $unit,
            what: $what,
        },)*]
    };
}

/// The number of options.
pub const OPTION_COUNT: usize = 31;

/// The options, in the order of the settings: name, least and greatest value, default, unit, and what it is. `scripts/options.py`
/// reads this table, and writes what other languages, tools and pages have of it.
pub const OPTIONS: [MachineOption; OPTION_COUNT] = options! {
    ("processors", 1, 64, 1, "", "processors that receive; queue q belongs to processor (q - 1) mod N; each serves at most 64"),
    ("queues", 1, 64, 1, "", "queues of each device, chosen by the packet's flow (RSS: ethtool -L, -X)"),
    ("ring", 1, 65536, 256, "packets", "packets that the ring of a queue holds (ethtool -G); of a backlog net.core.netdev_max_backlog plus 1"),
    ("socket", 1, 65536, 512, "packets", "packets that the socket of a processor's application holds (SO_RCVBUF)"),
    ("backlog", 0, 1, 0, "", "1: polls take packets as a processor's backlog does (RPS: rps_cpus, process_backlog)"),
    ("budget", 0, 65535, 300, "packets", "packets after which a run ends and is squeezed (net.core.netdev_budget); 0: no polls, an interrupt for each packet"),
    ("weight", 1, 64, 64, "packets", "packets that one poll takes at most (NAPI_POLL_WEIGHT; of a backlog net.core.dev_weight times dev_weight_rx_bias)"),
    ("window", 1, 65535, 1024, "polls", "polls after which a run ends and is squeezed; Linux has no such limit"),
    ("time-limit", 1, 1000000000, 8000000, "ns", "time after which a run ends and is squeezed (net.core.netdev_budget_usecs, in us there)"),
    ("rx-nsecs", 0, 1000000000, 0, "ns", "time by which a card delays its interrupt (ethtool -C rx-usecs, in us there)"),
    ("rx-frames", 0, 65535, 0, "packets", "packets at which the interrupt comes before that time (ethtool -C rx-frames); 0: never"),
    ("defer-hard-irqs", 0, 65535, 0, "polls", "polls without packets, one after each timeout; the last unmasks the queue (napi_defer_hard_irqs)"),
    ("gro-flush-timeout", 0, 1000000000, 0, "ns", "time until a queue that stays masked is polled again (gro_flush_timeout); 0: none does"),
    ("threaded", 0, 1, 0, "", "1: each queue is polled by a thread of its own (/sys/class/net/DEV/threaded)"),
    ("apart", 0, 1, 0, "", "1: the application has a processor of its own (taskset)"),
    ("app-wake", 0, 1000000000, 0, "ns", "time from waking the application until it runs; on the processor that polls a part of the use"),
    ("interrupt", 0, 1000000000, 4000, "ns", "time of an interrupt"),
    ("poll", 0, 1000000000, 1000, "ns", "time of a poll before its first packet"),
    ("packet", 0, 1000000000, 1000, "ns", "time of each packet of a poll"),
    ("use", 0, 1000000000, 2000, "ns", "time that the application takes for a packet"),
    ("wake", 0, 1000000000, 0, "ns", "time to wake an idle processor, which counts as interrupt time"),
    ("heedless", 0, 1, 0, "", "1: the driver unmasks the queue whatever napi_complete_done returns (vmxnet3, tg3, be2net, mana, bnx2, cxgb4, qede and others)"),
    ("rx-gap", 0, 1000000000, 0, "ns", "least time between two interrupts of a card (ethtool -C rx-usecs of igb, igc, ixgbe, e1000, e1000e, i40e, in us there); not with rx-nsecs, rx-frames"),
    ("timer", 0, 1000000000, 4294967295, "ns", "time of the interrupt of an expired NAPI timer (napi_watchdog)"),
    ("timer-wake", 0, 1000000000, 4294967295, "ns", "time to wake an idle processor by an expired NAPI timer, which counts as interrupt time"),
    ("latched", 0, 2, 0, "", "1: a packet while the interrupt is raised or masked sets a cause, which raises it when the driver unmasks it (igb, igc, ixgbe, vmxnet3); 2: its handler clears the cause too (e1000, e1000e without MSI-X)"),
    ("gro-batch", 0, 64, 0, "packets", "packets that a poll takes before it hands them over (net.core.gro_normal_batch), with napi_gro_receive; 0: each at once"),
    ("take", 0, 1000000000, 0, "ns", "with gro-batch the part of packet that taking one from the ring and GRO take"),
    ("early", 0, 1000000000, 0, "ns", "time of an interrupt between a driver's asking for it and napi_complete_done (virtio_net); 0: other drivers; not with heedless"),
    ("poll-wake", 0, 1000000000, 0, "ns", "time by which a delivery that wakes the application takes longer (sock_def_readable); not with apart"),
    ("arm", 0, 1000000000, 0, "ns", "time by which a poll that starts the NAPI timer takes longer (hrtimer_start)"),
};

/// The settings of a receiving machine. Times are in nanoseconds.
#[derive(Clone, Copy, Debug, PartialEq, Eq)]
pub struct MachineSettings {
    /// Processors, 1 to 64. Queue q belongs to processor (q - 1) mod `processors`.
    pub processors: u32,
    /// Queues of each device, 1 to 64, each with its own instance (`ethtool -L`, RSS). If it is 1, a device and its queue have
    /// the same number.
    pub queues: u32,
    /// Packets that a queue's ring holds, 1 to 65536 (`ethtool -G`; with `backlog`, `net.core.netdev_max_backlog` plus 1).
    pub ring: u32,
    /// Packets that a processor's socket holds, 1 to 65536 (SO_RCVBUF, in packets).
    pub socket: u32,
    /// Whether a poll takes packets as `process_backlog` does: it moves the whole ring to a second queue, and takes packets
    /// from that. So up to twice as many packets may wait.
    pub backlog: bool,
    /// Packets that a run polls before it is squeezed, 0 to 65535 (`net.core.netdev_budget`, `net_rx_action`). With 0 there is no
    /// polling, and each interrupt delivers a packet.
    pub budget: u32,
    /// Packets that one poll takes at most, 1 to 64 (`NAPI_POLL_WEIGHT`; with `backlog`, `net.core.dev_weight` times
    /// `dev_weight_rx_bias`).
    pub weight: u32,
    /// Polls that a run makes before it is squeezed, 1 to 65535. The kernel has no such limit.
    pub window: u32,
    /// The time after which a run is squeezed, 1 to 1000000000 (`net.core.netdev_budget_usecs`, `net_rx_action`).
    pub time_limit: u32,
    /// How long a card delays its interrupt, 0 to 1000000000 (`ethtool -C rx-usecs`). With 0 it doesn't delay it.
    pub rx_nsecs: u32,
    /// The number of frames at which a card interrupts before `rx_nsecs` is over, 0 to 65535 (`ethtool -C rx-frames`). With 0
    /// it doesn't count frames.
    pub rx_frames: u32,
    /// How often a queue stays masked after a poll that completes, and waits for its timer, 0 to 65535
    /// (`/sys/class/net/NAME/napi_defer_hard_irqs`, `napi_complete_done`). A poll with packets sets it back to this number.
    pub defer_hard_irqs: u32,
    /// The time of that timer, 0 to 1000000000 (`/sys/class/net/NAME/gro_flush_timeout`, `napi_watchdog`). With 0 there is none.
    pub gro_flush_timeout: u32,
    /// Whether each queue is polled by its own thread (`/sys/class/net/NAME/threaded`, `napi_threaded_poll`).
    pub threaded: bool,
    /// Whether the application has its own processor.
    pub apart: bool,
    /// The time from waking the application until it runs, 0 to 1000000000. Without `apart` it is a part of the use of the packet
    /// that finds the application asleep.
    pub app_wake: u32,
    /// The time of an interrupt, 0 to 1000000000. It is also that of a NAPI timer's interrupt, unless `timer` is given.
    pub interrupt: u32,
    /// The time of a poll before its first packet, 0 to 1000000000.
    pub poll: u32,
    /// The time of each packet of a poll, 0 to 1000000000.
    pub packet: u32,
    /// The time that the application takes for a packet, 0 to 1000000000.
    pub use_time: u32,
    /// The time that it takes to wake an idle processor, 0 to 1000000000. It counts as interrupt time. A NAPI timer takes it too,
    /// unless `timer_wake` is given.
    pub wake: u32,
    /// Whether the driver unmasks the queue whatever `napi_complete_done` returns, so that a deferred interrupt isn't masked.
    pub heedless: bool,
    /// The least time between two interrupts of a card, 0 to 1000000000 (`ethtool -C rx-usecs` of igb, igc, ixgbe, e1000, e1000e and
    /// i40e). Above 0 it takes the place of `rx_nsecs` and `rx_frames`.
    pub rx_gap: u32,
    /// The time of the interrupt of an expired NAPI timer, 0 to 1000000000 (`napi_watchdog`); `None` if it is `interrupt`.
    pub timer: Option<u32>,
    /// The time that a NAPI timer takes to wake an idle processor, 0 to 1000000000; `None` if it is `wake`.
    pub timer_wake: Option<u32>,
    /// Whether a packet that comes while the interrupt is raised or masked sets a cause in the card, which raises the interrupt when the
    /// driver unmasks it, 0 to 2. With 1 only that clears the cause (EICR of igb, igc and ixgbe; vmxnet3), with 2 the interrupt's handler
    /// clears it too, at its end (ICR of e1000, and of e1000e without MSI-X).
    pub latched: u32,
    /// The number of packets that a poll takes before it hands them over, 0 to 64 (`net.core.gro_normal_batch`, for drivers that call
    /// `napi_gro_receive`). With 0, or with `backlog`, it delivers each packet before it takes the next one.
    pub gro_batch: u32,
    /// With `gro_batch`, the part of `packet` that it takes to get a packet from the ring to GRO, at most `packet`.
    pub take: u32,
    /// With `gro_batch`, for drivers that ask for interrupts before `napi_complete_done` (virtio_net: `virtqueue_enable_cb_prepare`): the
    /// time of an interrupt that comes between the two, 0 to 1000000000. It only makes the completion schedule the instance again. With 0
    /// the driver asks for interrupts afterwards. Above 0 it excludes `heedless`.
    pub early: u32,
    /// The time by which the delivery that wakes the sleeping application takes longer, without `apart`, 0 to 1000000000
    /// (`sock_def_readable`, `try_to_wake_up`).
    pub poll_wake: u32,
    /// The time by which a poll takes longer, after its last delivery, if its completion starts the NAPI timer, 0 to 1000000000
    /// (`hrtimer_start` in `napi_complete_done`). With `backlog` it does nothing.
    pub arm: u32,
    ghost processors_in: { (1 ≤ processors) × (processors ≤ 64) },
    ghost queues_in: { (1 ≤ queues) × (queues ≤ 64) },
    ghost ring_in: { (1 ≤ ring) × (ring ≤ 65536) },
    ghost socket_in: { (1 ≤ socket) × (socket ≤ 65536) },
    ghost budget_in: { budget ≤ 65535 },
    ghost weight_in: { IsWeight weight },
    ghost window_in: { IsWindow window },
    ghost time_limit_in: { (1 ≤ time_limit) × (time_limit ≤ 1000000000) },
    ghost rx_nsecs_in: { rx_nsecs ≤ 1000000000 },
    ghost rx_frames_in: { rx_frames ≤ 65535 },
    ghost defer_hard_irqs_in: { defer_hard_irqs ≤ 65535 },
    ghost gro_flush_timeout_in: { gro_flush_timeout ≤ 1000000000 },
    ghost app_wake_in: { app_wake ≤ 1000000000 },
    ghost interrupt_in: { interrupt ≤ 1000000000 },
    ghost poll_in: { poll ≤ 1000000000 },
    ghost packet_in: { packet ≤ 1000000000 },
    ghost use_in: { use_time ≤ 1000000000 },
    ghost wake_in: { wake ≤ 1000000000 },
    ghost rx_gap_in: { rx_gap ≤ 1000000000 },
    ghost timer_in: { ForSome timer (λ time. time ≤ 1000000000) },
    ghost timer_wake_in: { ForSome timer_wake (λ time. time ≤ 1000000000) },
    ghost latched_in: { latched ≤ 2 },
    ghost gro_batch_in: { gro_batch ≤ 64 },
    ghost take_in: { take ≤ packet },
    ghost early_in: { early ≤ 1000000000 },
    ghost poll_wake_in: { poll_wake ≤ 1000000000 },
    ghost arm_in: { arm ≤ 1000000000 },
}

impl MachineOption {
    ghost use Rattle.std.specs.Prelude.{◌≡◌, ◌<◌, ◌⊎◌, ◌↔◌, IsTrue, map, slice_index_or};
    ghost use Rattle.machine_model.specs.Options.{IsOption, OptionRule, machine_options, row_of_option, rule_row};

    // Returns the table, whose texts the proof of a row then doesn't read.
    fn table() -> [MachineOption; OPTION_COUNT]
        ensures { map row_of_option result ≡ map rule_row machine_options }
    {
        OPTIONS
    }

    /// Returns the option at this position of [`OPTIONS`].
    pub(crate) fn at(i: usize) -> MachineOption
        requires { i < OPTION_COUNT }
        ensures { (o : OptionRule) → IsOption result (slice_index_or machine_options i o) }
    {
        let table = MachineOption::table();
        table[i]
    }

    // Returns whether a value is in the range of this option, or its default.
    fn admits(&self, value: u32) -> bool
        ensures { IsTrue result ↔ (((self.now.least ≤ value) × (value ≤ self.now.most))
            ⊎ (value ≡ self.now.default)) }
    {
        self.least <= value && value <= self.most || value == self.default
    }
}

impl MachineSettings {
    ghost use Rattle.std.specs.Prelude.{◌≡◌, IfErr, IfNone, IfOk, IfSome, None, false};
    ghost use Rattle.machine_model.specs.Options.{AreInRange, IsFirstOut, IsRejected, exceeds, excludes, misfit, option_defaults, own_cost, values_of};

    // Returns the number of the first value that is out of its range, counted from 1.
    fn first_out(values: &[u32; OPTION_COUNT]) -> Option<u32>
        ensures in_range { IfNone result (AreInRange values.now) }
        ensures out { IfSome result (λ number. IsFirstOut values.now number) }
    {
        for (i, value) in values.iter().enumerate() {
            if !MachineOption::at(i).admits(*value) {
                return Some(i as u32 + 1);
            }
        }
        None
    }

    // Returns whether the card has both a least time between interrupts and a time or a number of frames to wait for.
    fn excludes(values: &[u32; OPTION_COUNT]) -> bool
        ensures { result ≡ excludes values.now }
    {
        values[22] != 0 && (values[9] != 0 || values[10] != 0)
    }

    // Returns the number of the value that doesn't fit the others, counted from 1.
    fn misfit(values: &[u32; OPTION_COUNT]) -> Option<u32>
        ensures { result ≡ misfit values.now }
    {
        if MachineSettings::excludes(values) {
            Some(23)
        } else if values[18] < values[27] {
            Some(28)
        } else if values[28] != 0 && values[21] != 0 {
            Some(29)
        } else {
            None
        }
    }

    // Returns a cost of its own, or `None` if it is that of another option.
    fn own_cost(value: u32) -> Option<u32>
        ensures { result ≡ own_cost value }
    {
        if value == u32::MAX { None } else { Some(value) }
    }

    // Returns the settings with these values.
    fn of_values(values: &[u32; OPTION_COUNT]) -> MachineSettings
        requires in_range { AreInRange values.now }
        requires fit { exceeds values.now ≡ false }
        ensures { values_of result ≡ values.now }
    {
        MachineSettings {
            processors: values[0],
            queues: values[1],
            ring: values[2],
            socket: values[3],
            backlog: values[4] == 1,
            budget: values[5],
            weight: values[6],
            window: values[7],
            time_limit: values[8],
            rx_nsecs: values[9],
            rx_frames: values[10],
            defer_hard_irqs: values[11],
            gro_flush_timeout: values[12],
            threaded: values[13] == 1,
            apart: values[14] == 1,
            app_wake: values[15],
            interrupt: values[16],
            poll: values[17],
            packet: values[18],
            use_time: values[19],
            wake: values[20],
            heedless: values[21] == 1,
            rx_gap: values[22],
            timer: MachineSettings::own_cost(values[23]),
            timer_wake: MachineSettings::own_cost(values[24]),
            latched: values[25],
            gro_batch: values[26],
            take: values[27],
            early: values[28],
            poll_wake: values[29],
            arm: values[30],
        }
    }

    // Returns the defaults of the options.
    fn defaults() -> [u32; OPTION_COUNT]
        ensures { result ≡ option_defaults }
    {
        let mut values = [0; OPTION_COUNT];
        for i in 0..OPTION_COUNT {
            values[i] = MachineOption::at(i).default;
        }
        values
    }

    /// Returns the settings with these values, in the order of [`OPTIONS`]; a flag is 0 or 1. Each value is in the range of its
    /// option, or its default.
    ///
    /// # Errors
    ///
    /// The number of the first value that is out of its range, counted from 1. If there is none, the number of `rx-gap`, which isn't
    /// 0, and nor is `rx-nsecs` or `rx-frames`; or else that of `take`, which is above `packet`; or else that of `early`, which isn't 0,
    /// and nor is `heedless`.
    pub fn from_values(values: &[u32; OPTION_COUNT]) -> Result<MachineSettings, u32>
        ensures settings { IfOk result (λ settings. values_of settings ≡ values.now) }
        ensures fit { IfOk result (λ settings. misfit values.now ≡ None) }
        ensures out { IfErr result (λ number. IsRejected values.now number) }
    {
        if let Some(number) = MachineSettings::first_out(values) {
            return Err(number);
        }
        match MachineSettings::misfit(values) {
            Some(number) => Err(number),
            None => Ok(MachineSettings::of_values(values)),
        }
    }

    /// Returns the values of the settings, in the order of [`OPTIONS`]; a flag is 0 or 1.
    pub fn values(&self) -> [u32; OPTION_COUNT]
        ensures { result ≡ values_of self.now }
    {
        [
            self.processors,
            self.queues,
            self.ring,
            self.socket,
            u32::from(self.backlog),
            self.budget,
            self.weight,
            self.window,
            self.time_limit,
            self.rx_nsecs,
            self.rx_frames,
            self.defer_hard_irqs,
            self.gro_flush_timeout,
            u32::from(self.threaded),
            u32::from(self.apart),
            self.app_wake,
            self.interrupt,
            self.poll,
            self.packet,
            self.use_time,
            self.wake,
            u32::from(self.heedless),
            self.rx_gap,
            self.timer.unwrap_or(u32::MAX),
            self.timer_wake.unwrap_or(u32::MAX),
            self.latched,
            self.gro_batch,
            self.take,
            self.early,
            self.poll_wake,
            self.arm,
        ]
    }
}

impl Default for MachineSettings {
    ghost use Rattle.machine_model.specs.Options.{IsDefault};

    ghost is_default = { IsDefault };

    /// One processor with the kernel's budget, weight and time limit, a ring of 256 packets, a socket of 512, costs of a few
    /// microseconds, and no coalescing, deferral, threads or second processor for the application.
    fn default() -> MachineSettings {
        MachineSettings::of_values(&MachineSettings::defaults())
    }
}
