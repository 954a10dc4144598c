//! One processor: which work it begins, and what happens when work ends, timers expire and packets arrive.

ghost use Rattle.std.specs.Prelude.{◌≡◌, ◌≤◌, ◌<◌, true, false, None, Some, IfOk, OnOk, if◌then◌else◌};
ghost use Rattle.std.specs.Option.{option_map};
ghost use Rattle.device_places.specs.Places.{at};
ghost use Rattle.machine_model.specs.Devices.{asks_at};
ghost use Rattle.machine_model.specs.Kept.{IsProcessorKept, all_scheduled, polled_by};
ghost use Rattle.machine_model.specs.Machine.{ArrivesAt, FinishesAt, processor_report, queue_report};
ghost use Rattle.machine_model.specs.Processor.{Advances, begins_run, closes_poll, comes_early, delivers, disturbed, ends_current, ends_interrupt, ends_poll, ends_run, goes_on, interrupts, interrupts_early, is_batching, is_completing, is_due, is_polling, leaves_softirq, batch_looks, notices, plain_looks, poll_looks, opened_processor, rests, runs_first, scheduled, set_aside, spent, step, takes_up, upcoming, uses, woken};
ghost use Rattle.machine_model.specs.Shown.{listed};
ghost use Rattle.machine_model.specs.declared.processor.Work.TheVariants.{Nothing};

use crate::application::{Application, ApplicationReport};
use crate::costs::{end_after, interrupt_cost, is_batching, is_polling, may_arm, wake_cost};
use crate::device::QueueReport;
use crate::devices::{QueueTable, Timer};
use crate::settings::MachineSettings;
use crate::softirq::Softirq;
use crate::tasks::{RunQueue, RunnableTask};
use crate::waits::WaitCounts;
use std::alloc::{AllocError, Global};
use std::marker::Model;

/// A packet that a poll has taken and is processing.
#[derive(Clone, Copy, Debug, PartialEq, Eq)]
pub struct InHand {
    /// The number of its queue.
    pub device: u32,
    /// When it arrived, in nanoseconds.
    pub came: u64,
    /// How many packets its poll took besides it.
    pub given: u32,
}

/// A poll that looks for its next packet when this work ends.
#[derive(Clone, Copy, Debug, PartialEq, Eq)]
pub struct Looking {
    /// The number of its queue.
    pub device: u32,
    /// How many packets it took.
    pub given: u32,
}

/// A piece of work of a processor.
#[derive(Clone, Copy, Debug, PartialEq, Eq)]
pub enum Work {
    /// No work is in progress.
    Nothing,
    /// The interrupt of a queue.
    Interrupt(u32),
    /// The poll of a queue, before its first packet; with `gro_batch` also while it takes a packet.
    Poll(Looking),
    /// A packet that a poll processes, or hands over.
    Packet(InHand),
    /// The end of a poll whose completion starts the NAPI timer, with `arm`.
    Arm(Looking),
    /// The application uses a packet that arrived at this time.
    Use(u64),
}

/// The rest of a use that was interrupted: when its packet arrived, and the remaining time.
#[derive(Clone, Copy, Debug, PartialEq, Eq)]
pub struct Rest {
    /// When its packet arrived, in nanoseconds.
    pub came: u64,
    /// The remaining time, in nanoseconds.
    pub left: u64,
}

/// The next event, if no packet arrives.
#[derive(Clone, Copy, Debug, PartialEq, Eq)]
pub enum Upcoming {
    /// Nothing.
    Never,
    /// The work in progress ends.
    Ends,
    /// A timer expires.
    Expires(Timer),
}

/// The counts of a processor. Times are in nanoseconds.
#[derive(Clone, Copy, Debug, PartialEq, Eq)]
pub struct ProcessorCounts {
    /// The interrupts of its queues' cards.
    pub interrupts: u64,
    /// The interrupts of its queues' NAPI timers.
    pub timers: u64,
    /// The runs that ended.
    pub runs: u64,
    /// The polls, of runs and of threads.
    pub polls: u64,
    /// The packets that the polls processed.
    pub work: u64,
    /// The runs that ended before everything was polled (`time_squeeze`).
    pub squeezed: u64,
    /// The squeezed runs that only exceeded their time, not the budget or the window.
    pub late: u64,
    /// The packets that a full socket dropped.
    pub refused: u64,
    /// The time of interrupts and of waking up.
    pub interrupt_time: u64,
    /// The time of polls.
    pub poll_time: u64,
    /// The time in which the application used packets.
    pub use_time: u64,
}

/// The report of a processor.
#[derive(Clone, Copy, Debug, PartialEq, Eq)]
pub struct ProcessorReport {
    /// The counts.
    pub counts: ProcessorCounts,
    /// Its clock, in nanoseconds.
    pub end: u64,
    /// The waits of the packets that were used, from arrival to the end of the use.
    pub waits: WaitCounts,
    /// The application, if it has its own processor.
    pub application: Option<ApplicationReport>,
}

impl ProcessorCounts {
    /// Zero counts.
    pub const NONE: ProcessorCounts = ProcessorCounts {
        interrupts: 0,
        timers: 0,
        runs: 0,
        polls: 0,
        work: 0,
        squeezed: 0,
        late: 0,
        refused: 0,
        interrupt_time: 0,
        poll_time: 0,
        use_time: 0,
    };

    // Adds the time that a piece of work took.
    fn spend(&mut self, work: Work, time: u64)
        ensures { self.new ≡ spent work time self.old }
    {
        match work {
            Work::Nothing => {}
            Work::Interrupt(_) => self.interrupt_time = self.interrupt_time.saturating_add(time),
            Work::Poll(_) | Work::Packet(_) | Work::Arm(_) => self.poll_time = self
                .poll_time
                .saturating_add(time),
            Work::Use(_) => self.use_time = self.use_time.saturating_add(time),
        }
    }
}

/// A processor.
#[derive(Drop)]
pub(crate) struct Processor {
    settings: MachineSettings,
    work: Work,
    ends: u64,
    clock: u64,
    devices: QueueTable,
    softirq: Softirq,
    tasks: RunQueue,
    rest: Option<Rest>,
    application: Application,
    counts: ProcessorCounts,
}

impl Model for Processor {
    ghost use Rattle.machine_model.specs.Kept.{ProcessorKept};
    ghost use Rattle.machine_model.specs.Processor.{ProcessorView};

    ghost Value = { ProcessorView };

    ghost view = { λ p. record {
      settings = p.settings;
      work = p.work;
      ends = p.ends;
      clock = p.clock;
      devices = p.devices;
      softirq = p.softirq;
      tasks = p.tasks;
      rest = p.rest;
      application = p.application;
      counts = p.counts;
    } };

    ghost invariant = { λ p. ProcessorKept p.settings p.work p.devices p.softirq };
}

impl Processor {
    // Schedules the instance of a queue (`____napi_schedule`).
    fn schedule(&mut self, number: u32) -> Result<(), AllocError>
        requires work { self.old.work ≡ Nothing }
        requires polling { is_polling self.old.settings ≡ true }
        requires few { listed self.old.softirq < all_scheduled self.old.devices }
        requires room { listed self.old.softirq < 64 }
        ensures { OnOk result (self.new ≡ scheduled number self.old) }
    {
        if self.settings.threaded {
            self.tasks.push_thread(number)
        } else {
            self.softirq.push(number);
            Ok(())
        }
    }

    // Handles an interrupt, of a card or of a NAPI timer.
    #[tactic(auto, unfolding(crate::specs::Processor::interrupts))]
    fn interrupt(&mut self, number: u32) -> Result<(), AllocError>
        requires work { self.old.work ≡ Nothing }
        requires asks { asks_at (at number self.old.devices) ≡ true }
        ensures { OnOk result (self.new ≡ interrupts number self.old) }
    {
        let polling = is_polling(&self.settings);
        let is_timer = self.devices.is_fired(number as usize);
        let schedules = self.devices.schedules(number as usize);
        let waking = self.application.waking_length(&self.settings);
        let ends = end_after(self.clock, interrupt_cost(is_timer, waking, &self.settings));
        self.devices.interrupt(number as usize, ends, polling);
        if polling && schedules {
            self.schedule(number)?;
        }
        if is_timer {
            self.counts.timers = self.counts.timers.saturating_add(1);
        } else {
            self.counts.interrupts = self.counts.interrupts.saturating_add(1);
        }
        self.work = Work::Interrupt(number);
        self.ends = ends;
        Ok(())
    }

    // Lets the application use the oldest packet of its socket, if there is one.
    fn use_first(&mut self)
        requires { self.old.work ≡ Nothing }
        ensures { self.new ≡ uses self.old.application.socket.items self.old }
    {
        let length = self.application.use_length(&self.settings);
        if let Some(came) = self.application.take() {
            self.work = Work::Use(came);
            self.ends = end_after(self.clock, length);
        }
    }

    // Runs the first task: a thread makes a poll, or the application uses a packet.
    #[tactic(auto, unfolding(crate::specs::Processor::runs_first))]
    fn run_first(&mut self)
        requires work { self.old.work ≡ Nothing }
        requires threaded { self.old.settings.threaded ≡ true }
        ensures { self.new ≡ runs_first self.old }
    {
        match self.tasks.next(self.application.is_idle()) {
            Some(RunnableTask::Thread(number)) => {
                self.work = Work::Poll(Looking {
                    device: number,
                    given: 0,
                });
                self.ends = end_after(self.clock, self.settings.poll);
            }
            Some(RunnableTask::Application) => self.use_first(),
            None => {}
        }
    }

    // Continues with the rest of an interrupted use, the first task, or the application.
    fn leave_softirq(&mut self)
        requires { self.old.work ≡ Nothing }
        ensures { self.new ≡ leaves_softirq self.old.rest self.old }
    {
        if let Some(rest) = self.rest.take() {
            self.work = Work::Use(rest.came);
            self.ends = self.clock.saturating_add(rest.left);
        } else if self.settings.threaded {
            self.run_first();
        } else if !self.settings.apart {
            self.use_first();
        }
    }

    // Begins a run and makes its first poll.
    #[tactic(auto, unfolding(crate::specs::Processor::begins_run))]
    fn begin_run(&mut self)
        requires work { self.old.work ≡ Nothing }
        requires run { self.old.softirq.run ≡ None }
        requires polling { is_polling self.old.settings ≡ true }
        requires threaded { self.old.settings.threaded ≡ false }
        ensures { self.new ≡ begins_run self.old }
    {
        let MachineSettings {
            budget,
            weight,
            window,
            ..
        } = self.settings;
        self.softirq.begin(self.clock, budget, weight, window);
        if let Some(number) = self.softirq.next() {
            self.work = Work::Poll(Looking {
                device: number,
                given: 0,
            });
            self.ends = end_after(self.clock, self.settings.poll);
        }
    }

    // Without a run in progress: begins a run over the list, or continues with what comes after softirqs.
    #[tactic(auto, unfolding(crate::specs::Processor::rests))]
    fn rest(&mut self)
        requires work { self.old.work ≡ Nothing }
        requires run { self.old.softirq.run ≡ None }
        ensures { self.new ≡ rests self.old }
    {
        if is_polling(&self.settings) && !self.softirq.is_empty() {
            self.begin_run();
        } else {
            self.leave_softirq();
        }
    }

    // Ends the run.
    #[tactic(auto, unfolding(crate::specs::Processor::ends_run))]
    fn end_run(&mut self, late: bool)
        requires { self.old.work ≡ Nothing }
        ensures processor { self.new ≡ ends_run late self.old }
        ensures work { self.new.work ≡ Nothing }
        ensures run { self.new.softirq.run ≡ None }
    {
        let spent = self.softirq.end();
        self.counts.runs = self.counts.runs.saturating_add(1);
        self.counts.squeezed = self
            .counts
            .squeezed
            .saturating_add(u64::from(spent || late));
        self.counts.late = self.counts.late.saturating_add(u64::from(late && !spent));
    }

    // With a run in progress: ends it or makes its next poll.
    #[tactic(auto, unfolding(crate::specs::Processor::goes_on))]
    fn go_on(&mut self)
        requires { self.old.work ≡ Nothing }
        ensures { self.new ≡ goes_on self.old }
    {
        let took = self.clock.saturating_sub(self.softirq.began());
        if u64::from(self.settings.time_limit) <= took {
            self.end_run(true);
            self.rest();
            return;
        }
        match self.softirq.next() {
            Some(number) => {
                self.work = Work::Poll(Looking {
                    device: number,
                    given: 0,
                });
                self.ends = end_after(self.clock, self.settings.poll);
            }
            None => {
                self.end_run(false);
                self.rest();
            }
        }
    }

    // Begins the first work that is possible, unless work is in progress.
    #[tactic(auto, unfolding(crate::specs::Processor::takes_up))]
    fn take_up(&mut self) -> Result<(), AllocError>
        ensures { OnOk result (self.new ≡ takes_up self.old) }
    {
        if self.work != Work::Nothing {
            return Ok(());
        }
        if let Some(number) = self.devices.lowest_asking() {
            return self.interrupt(number as u32);
        }
        if self.softirq.is_running() {
            self.go_on();
        } else {
            self.rest();
        }
        Ok(())
    }

    // Delivers a packet of a queue. If the socket takes it, the application becomes runnable.
    #[tactic(auto, unfolding(crate::specs::Processor::delivers))]
    fn deliver(&mut self, number: u32, came: u64) -> Result<(), AllocError>
        ensures { OnOk result (self.new ≡ delivers number came self.old) }
    {
        let MachineSettings {
            threaded,
            apart,
            ..
        } = self.settings;
        let is_task = threaded && !apart && self.application.has_place();
        self.devices.deliver(number as usize, self.clock, came)?;
        self.application.feed(self.clock, came, &self.settings)?;
        if is_task {
            self.tasks.push_application()?;
        }
        Ok(())
    }

    // Delivers the oldest packet of a queue, by an interrupt without polling.
    #[tactic(auto, unfolding(crate::specs::Processor::ends_interrupt))]
    fn end_interrupt(&mut self, number: u32) -> Result<(), AllocError>
        requires { is_polling self.old.settings ≡ false }
        ensures { OnOk result (self.new ≡ ends_interrupt number self.old) }
    {
        if let Some(came) = self.devices.take_next(number as usize, false) {
            self.deliver(number, came)?;
        }
        self.devices.raise_again(number as usize);
        Ok(())
    }

    // Ends a poll that processed this many packets. An instance that completes may be scheduled again at once.
    #[tactic(auto, unfolding(crate::specs::Processor::ends_poll))]
    fn end_poll(&mut self, number: u32, given: u32) -> Result<(), AllocError>
        requires polled { polled_by self.old.work ≡ Some number }
        requires given { given ≤ self.old.settings.weight }
        ensures { OnOk result
            (self.new ≡ ends_poll number given (record self.old { work = Nothing })) }
    {
        let full = given == self.settings.weight;
        let again = self
            .devices
            .is_rescheduled(number as usize, given, &self.settings);
        let stays = full || again;
        if !self.settings.threaded {
            self.softirq.poll_ended(number, given, full, again);
        } else if stays {
            self.tasks.push_first(number)?;
        }
        self.devices
            .end_poll(number as usize, self.clock, given, &self.settings);
        self.counts.polls = self.counts.polls.saturating_add(1);
        self.counts.work = self.counts.work.saturating_add(u64::from(given));
        self.work = Work::Nothing;
        Ok(())
    }

    // Ends a poll that processed this many packets, which takes longer if its completion starts the NAPI timer.
    #[tactic(auto, unfolding(crate::specs::Processor::closes_poll))]
    fn close_poll(&mut self, number: u32, given: u32) -> Result<(), AllocError>
        requires polled { polled_by self.old.work ≡ Some number }
        requires given { given ≤ self.old.settings.weight }
        ensures { OnOk result
            (self.new ≡ closes_poll number given (record self.old { work = Nothing })) }
    {
        let may = may_arm(given, &self.settings);
        if may
            && self
                .devices
                .starts_timer(number as usize, given, &self.settings)
        {
            self.work = Work::Arm(Looking {
                device: number,
                given,
            });
            self.ends = end_after(self.clock, self.settings.arm);
            return Ok(());
        }
        self.end_poll(number, given)
    }

    // Takes the next packet for a poll that took this many packets, or hands over one that GRO holds; without one, ends the poll.
    #[tactic(auto, unfolding(crate::specs::Processor::batch_looks))]
    fn batch_look(&mut self, number: u32, given: u32) -> Result<(), AllocError>
        requires batching { is_batching self.old.settings ≡ true }
        requires polled { polled_by self.old.work ≡ Some number }
        requires given { given ≤ self.old.settings.weight }
        ensures { OnOk result (self.new ≡ batch_looks number given
            (record self.old { work = Nothing })) }
    {
        let MachineSettings {
            packet,
            take,
            weight,
            gro_batch,
            ..
        } = self.settings;
        if self.devices.hold(number as usize, weight, gro_batch, given) {
            self.work = Work::Poll(Looking {
                device: number,
                given: given + 1,
            });
            self.ends = end_after(self.clock, take);
            return Ok(());
        }
        if let Some(came) = self.devices.take_held(number as usize) {
            self.work = Work::Packet(InHand {
                device: number,
                came,
                given: given.saturating_sub(1),
            });
            let waking = self.application.waking_length(&self.settings);
            self.ends = end_after(self.clock, packet - take + waking);
            return Ok(());
        }
        self.close_poll(number, given)
    }

    // Takes the next packet for a poll that processed this many packets; without one, ends the poll.
    #[tactic(auto, unfolding(crate::specs::Processor::plain_looks))]
    fn plain_look(&mut self, number: u32, given: u32) -> Result<(), AllocError>
        requires polled { polled_by self.old.work ≡ Some number }
        requires given { given ≤ self.old.settings.weight }
        ensures { OnOk result (self.new ≡ plain_looks number given
            (record self.old { work = Nothing })) }
    {
        if given < self.settings.weight {
            let backlog = self.settings.backlog;
            if let Some(came) = self.devices.take_next(number as usize, backlog) {
                self.work = Work::Packet(InHand {
                    device: number,
                    came,
                    given,
                });
                let waking = self.application.waking_length(&self.settings);
                self.ends = end_after(self.clock, self.settings.packet + waking);
                return Ok(());
            }
        }
        self.close_poll(number, given)
    }

    // Continues a poll that processed this many packets, or ends it.
    fn look(&mut self, number: u32, given: u32) -> Result<(), AllocError>
        requires polled { polled_by self.old.work ≡ Some number }
        requires given { given ≤ self.old.settings.weight }
        ensures { OnOk result (self.new ≡ poll_looks number given
            (record self.old { work = Nothing })) }
    {
        if is_batching(&self.settings) {
            self.batch_look(number, given)
        } else {
            self.plain_look(number, given)
        }
    }

    // Ends the work in progress.
    #[tactic(auto, unfolding(crate::specs::Processor::ends_current))]
    fn end_current(&mut self) -> Result<(), AllocError>
        ensures { OnOk result (self.new ≡ ends_current self.old) }
    {
        self.counts
            .spend(self.work, self.ends.saturating_sub(self.clock));
        self.clock = self.ends;
        match self.work {
            Work::Nothing => {}
            Work::Interrupt(number) => {
                self.work = Work::Nothing;
                if !is_polling(&self.settings) {
                    self.end_interrupt(number)?;
                }
            }
            Work::Poll(look) => self.look(look.device, look.given)?,
            Work::Packet(packet) => {
                self.deliver(packet.device, packet.came)?;
                self.look(packet.device, packet.given + 1)?;
            }
            Work::Arm(look) => self.end_poll(look.device, look.given)?,
            Work::Use(came) => {
                self.application.end_use(self.clock, came)?;
                self.work = Work::Nothing;
            }
        }
        Ok(())
    }

    // Interrupts a use, and keeps the rest of it for later.
    fn set_aside(&mut self, moment: u64)
        ensures { self.new ≡ set_aside moment self.old.work self.old }
    {
        if let Work::Use(came) = self.work {
            self.counts
                .spend(self.work, moment.saturating_sub(self.clock));
            self.work = Work::Nothing;
            self.clock = moment;
            let left = self.ends.saturating_sub(moment);
            self.rest = Some(Rest { came, left });
        }
    }

    // Advances an idle processor to this time; if the interrupt of a queue wakes it, that takes some time more.
    fn wake(&mut self, moment: u64, asking: Option<usize>)
        ensures { self.new ≡ woken moment asking self.old }
    {
        self.clock = moment;
        if let Some(number) = asking {
            let wake = wake_cost(self.devices.is_fired(number), &self.settings);
            self.clock = end_after(moment, wake);
            let time = self.counts.interrupt_time;
            self.counts.interrupt_time = time.saturating_add(u64::from(wake));
        }
    }

    // Interrupts an idle time or a use, if a queue asks for an interrupt.
    #[tactic(auto, unfolding(crate::specs::Processor::disturbed))]
    fn disturb(&mut self, moment: u64) -> Result<(), AllocError>
        ensures { OnOk result (self.new ≡ disturbed moment self.old) }
    {
        let asking = self.devices.lowest_asking();
        if self.work == Work::Nothing {
            self.wake(moment, asking);
        } else if asking.is_some() {
            self.set_aside(moment);
        }
        self.take_up()
    }

    // Returns whether the poll of a queue hands over the last packets that GRO holds, or starts the NAPI timer.
    fn is_completing(&self, number: u32) -> bool
        ensures { result ≡ is_completing number self.now.settings self.now.work }
    {
        match self.work {
            Work::Packet(hand) => {
                let given = hand.given + 1;
                hand.device == number
                    && is_batching(&self.settings)
                    && given < self.settings.weight
                    && given % self.settings.gro_batch != 0
            }
            Work::Arm(look) => look.device == number,
            _ => false,
        }
    }

    // Returns whether a packet that comes for a queue brings an interrupt before the completion of its poll.
    fn comes_early(&self, number: u32) -> bool
        ensures { result ≡ comes_early number self.now }
    {
        self.settings.early != 0
            && self.is_completing(number)
            && !self.devices.is_missed(number as usize)
    }

    // Handles an interrupt that comes before the completion of a queue's poll: the instance misses it, and the work in progress ends
    // later.
    #[tactic(auto, unfolding(crate::specs::Processor::interrupts_early))]
    fn interrupt_early(&mut self, number: u32)
        ensures { self.new ≡ interrupts_early number self.old }
    {
        let time = self.settings.early;
        self.devices.miss(number as usize);
        self.clock = end_after(self.clock, time);
        self.ends = end_after(self.ends, time);
        self.counts.interrupts = self.counts.interrupts.saturating_add(1);
        let interrupts = self.counts.interrupt_time;
        self.counts.interrupt_time = interrupts.saturating_add(u64::from(time));
    }

    // Takes notice of a packet that found room in the ring of a queue.
    fn notice(&mut self, moment: u64, number: u32) -> Result<(), AllocError>
        ensures { OnOk result (self.new ≡ notices moment number self.old) }
    {
        if self.comes_early(number) {
            self.interrupt_early(number);
            return Ok(());
        }
        self.disturb(moment)
    }

    // Returns the next event, if no packet arrives.
    fn upcoming(&self) -> Upcoming
        ensures upcoming { result ≡ upcoming self.now }
        ensures kept { IsProcessorKept self.now }
    {
        let is_busy = self.work != Work::Nothing;
        match self.devices.soonest() {
            Some(timer) if !is_busy || timer.at < self.ends => Upcoming::Expires(timer),
            _ if is_busy => Upcoming::Ends,
            _ => Upcoming::Never,
        }
    }

    // Makes the next event happen.
    #[tactic(auto, unfolding(crate::specs::Processor::step))]
    fn step(&mut self) -> Result<(), AllocError>
        ensures { OnOk result (self.new ≡ step self.old) }
    {
        match self.upcoming() {
            Upcoming::Never => Ok(()),
            Upcoming::Ends => {
                self.end_current()?;
                self.take_up()
            }
            Upcoming::Expires(timer) => {
                self.devices.expire(timer.device as usize);
                self.disturb(timer.at)
            }
        }
    }

    // Returns whether an event is due at or before this time, if no packet arrives.
    fn is_due(&self, moment: u64) -> bool
        ensures due { result ≡ is_due moment self.now }
        ensures kept { IsProcessorKept self.now }
    {
        match self.upcoming() {
            Upcoming::Never => false,
            Upcoming::Ends => self.ends <= moment,
            Upcoming::Expires(timer) => timer.at <= moment,
        }
    }
}

impl Processor {
    /// Returns a processor at which nothing has happened yet.
    pub(crate) fn new(alloc: Global, settings: &MachineSettings) -> Result<Processor, AllocError>
        ensures { IfOk result (λ p. p ≡ opened_processor settings.now) }
    {
        let application = Application::new(alloc, settings)?;
        Ok(Processor {
            settings: *settings,
            work: Work::Nothing,
            ends: 0,
            clock: 0,
            devices: QueueTable::new(alloc),
            softirq: Softirq::new(),
            tasks: RunQueue::new(alloc),
            rest: None,
            application,
            counts: ProcessorCounts::NONE,
        })
    }

    /// Advances to a time: everything that is due at or before it happens.
    pub(crate) fn advance(&mut self, moment: u64) -> Result<(), AllocError>
        ensures { OnOk result (Advances moment self.old self.new) }
    {
        while self.is_due(moment) {
            self.step()?;
        }
        Ok(())
    }

    /// Handles the arrival of a packet for a queue; the processor first advances to that time.
    #[tactic(auto, unfolding(crate::specs::Processor::arrives))]
    pub(crate) fn arrive(
        &mut self,
        alloc: Global,
        moment: u64,
        number: u32,
    ) -> Result<(), AllocError>
        requires { number < 64 }
        ensures { OnOk result (ArrivesAt moment number self.old self.new) }
    {
        self.advance(moment)?;
        self.devices
            .open(alloc, number as usize, self.settings.ring)?;
        let is_taken = self.devices.arrive(number as usize, moment, &self.settings);
        if self.work == Work::Nothing {
            self.clock = moment;
        }
        if is_taken {
            self.notice(moment, number)?;
        }
        Ok(())
    }

    /// Ends the run after the last packet: the processor advances until nothing is left, and then its application works until
    /// it sleeps.
    pub(crate) fn finish(&mut self) -> Result<(), AllocError>
        ensures { OnOk result (FinishesAt self.old self.new) }
    {
        self.advance(u64::MAX)?;
        self.application
            .go_on_until(u64::MAX, self.settings.use_time)?;
        Ok(())
    }

    /// Returns the report of a queue, if a packet arrived for it.
    pub(crate) fn device(&self, number: usize) -> Option<QueueReport>
        ensures { result ≡ option_map queue_report (at number self.now.devices) }
    {
        self.devices.report(number)
    }

    /// Returns the report of the processor.
    pub(crate) fn report(&self) -> ProcessorReport
        ensures { result ≡ processor_report self.now }
    {
        let mut counts = self.counts;
        counts.refused = self.application.refused();
        let application = if self.settings.apart {
            Some(self.application.report())
        } else {
            None
        };
        ProcessorReport {
            counts,
            end: self.clock,
            waits: self.application.waits(),
            application,
        }
    }
}
