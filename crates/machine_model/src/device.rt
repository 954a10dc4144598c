//! A receive queue of a card, with its NAPI instance and its counts.

ghost use Rattle.std.specs.Prelude.{◌≡◌, ◌≤◌, ◌<◌, Some, IfOk, OnErr, OnOk, length};
ghost use Rattle.machine_model.specs.Machine.{queue_report};
ghost use Rattle.machine_model.specs.Device.{after_packet, armed, asks, asks_later, deferrals_after, is_deferred, expired, finds_packets, gap_end, has_cause, has_room, holding, interrupted, is_at_once, is_fired, is_masked, is_missed, is_owed, is_rescheduled, is_silent, missed_early, new_queue, next_held, next_packet, notified, queue_completed, queue_delivered, queue_polled, raised_again, schedules, starts_timer, pulls, timer_of, unmasked_line, without_held, without_next};

use crate::settings::MachineSettings;
use crate::waits::{WaitCounts, Waits};
use circular_buffer::HeapCircularBuffer;
use std::alloc::{AllocError, Global};
use std::marker::Model;
use std::mem;

/// The counts of a queue.
#[derive(Clone, Copy, Debug, PartialEq, Eq)]
pub struct QueueCounts {
    /// Packets that arrived.
    pub arrived: u64,
    /// Packets that a full ring dropped.
    pub dropped: u64,
    /// Packets that were delivered.
    pub polled: u64,
    /// Its interrupts, not counting those of its NAPI timer.
    pub interrupts: u64,
    /// Its polls.
    pub polls: u64,
}

impl QueueCounts {
    /// Zero counts.
    pub const NONE: QueueCounts = QueueCounts {
        arrived: 0,
        dropped: 0,
        polled: 0,
        interrupts: 0,
        polls: 0,
    };
}

/// The report of a queue.
#[derive(Clone, Copy, Debug, PartialEq, Eq)]
pub struct QueueReport {
    /// The counts.
    pub counts: QueueCounts,
    /// The waits of its packets, from arrival to delivery.
    pub waits: WaitCounts,
}

/// The interrupt of a queue's card.
#[derive(Clone, Copy, Debug, PartialEq, Eq)]
pub enum Line {
    /// The card doesn't ask for an interrupt.
    Quiet,
    /// The card delays its interrupt until this time, for more frames or because of its last interrupt (`rx-usecs`).
    Coalescing(u64),
    /// The card asks for an interrupt.
    Raised,
    /// The interrupt was handled, and the card doesn't report packets until the driver unmasks it.
    Masked,
}

/// The state of a queue's NAPI instance.
#[derive(Clone, Copy, Debug, PartialEq, Eq)]
pub enum NapiState {
    /// It isn't scheduled.
    Idle,
    /// It is on the poll list, or its thread is runnable, or it is being polled (`NAPI_STATE_SCHED`).
    Scheduled,
    /// It is scheduled, and the interrupt came once more since (`NAPI_STATE_MISSED`).
    Missed,
}

/// Whether a queue's NAPI timer expired (`napi_watchdog`).
#[derive(Clone, Copy, Debug, PartialEq, Eq)]
pub enum Expiry {
    /// It didn't, or the interrupt of its expiry was handled.
    NotExpired,
    /// It expired while the instance was idle.
    Expired,
    /// It expired while the instance was scheduled, so its interrupt schedules nothing.
    MetScheduled,
}

/// How a queue asks for a poll, or waits for one.
#[derive(Clone, Copy, Debug, PartialEq, Eq)]
pub struct Phase {
    /// The interrupt of its card.
    pub line: Line,
    /// Its NAPI instance.
    pub state: NapiState,
    /// When its NAPI timer will schedule the instance, if the timer is set (`napi_defer_hard_irqs`).
    pub timer: Option<u64>,
    /// Whether that timer expired.
    pub expiry: Expiry,
}

impl Phase {
    ghost use Rattle.std.specs.Prelude.{◌≡◌};
    ghost use Rattle.machine_model.specs.Device.{after_napi_timer, asks, card_handled, card_timer, expired_phase, handled, is_card_first, is_fired, is_masked, is_missed, schedules, timer_handled, timer_of};

    /// The phase of a new queue: nothing is asked for, scheduled or set.
    pub const QUIET: Phase = Phase {
        line: Line::Quiet,
        state: NapiState::Idle,
        timer: None,
        expiry: Expiry::NotExpired,
    };

    // Returns whether the card asks for an interrupt, or the NAPI timer expired.
    fn asks(&self) -> bool
        ensures { result ≡ asks self.now }
    {
        self.line == Line::Raised || self.is_fired()
    }

    // Returns whether the card's interrupt is masked.
    fn is_masked(&self) -> bool
        ensures { result ≡ is_masked self.now }
    {
        self.line == Line::Masked
    }

    // Returns whether the NAPI timer expired, and its interrupt wasn't handled yet.
    fn is_fired(&self) -> bool
        ensures { result ≡ is_fired self.now }
    {
        self.expiry != Expiry::NotExpired
    }

    // Returns whether the instance missed an interrupt.
    fn is_missed(&self) -> bool
        ensures { result ≡ is_missed self.now }
    {
        self.state == NapiState::Missed
    }

    // Returns whether an interrupt schedules the instance.
    fn schedules(&self) -> bool
        ensures { result ≡ schedules self.now }
    {
        self.state == NapiState::Idle && self.expiry != Expiry::MetScheduled
    }

    // Returns when the timer expires that is the card's or the NAPI timer, whichever is first, if one is set.
    fn timer(&self) -> Option<u64>
        ensures { result ≡ timer_of self.now }
    {
        match (self.line, self.timer) {
            (Line::Coalescing(card), Some(napi)) if napi < card => Some(napi),
            (Line::Coalescing(card), _) => Some(card),
            (_, napi) => napi,
        }
    }

    // Returns whether that timer is the card's, which is first if both expire at the same time.
    fn is_card_first(&self) -> bool
        ensures { result ≡ is_card_first (card_timer self.now.line) self.now.timer }
    {
        match (self.line, self.timer) {
            (Line::Coalescing(card), Some(napi)) => card <= napi,
            (Line::Coalescing(_), None) => true,
            _ => false,
        }
    }

    // Returns the phase after that timer expired.
    fn expired(&self) -> Phase
        ensures { result ≡ expired_phase self.now }
    {
        if self.is_card_first() {
            return Phase {
                line: Line::Raised,
                ..*self
            };
        }
        match self.timer {
            Some(_) => self.after_napi_timer(),
            None => *self,
        }
    }

    // Returns the phase after the NAPI timer expired.
    fn after_napi_timer(&self) -> Phase
        ensures { result ≡ after_napi_timer self.now }
    {
        let expiry = if self.state == NapiState::Idle {
            Expiry::Expired
        } else {
            Expiry::MetScheduled
        };
        Phase {
            timer: None,
            expiry,
            ..*self
        }
    }

    // Returns the phase after the interrupt of the NAPI timer was handled, with polling.
    fn timer_handled(&self) -> Phase
        ensures { result ≡ timer_handled self.now }
    {
        let state = if self.schedules() {
            NapiState::Scheduled
        } else {
            self.state
        };
        Phase {
            state,
            expiry: Expiry::NotExpired,
            ..*self
        }
    }

    // Returns the phase after the interrupt of the card was handled, with polling: it is masked, and the instance is scheduled.
    fn card_handled(&self) -> Phase
        ensures { result ≡ card_handled self.now }
    {
        let state = match self.state {
            NapiState::Idle => NapiState::Scheduled,
            NapiState::Scheduled | NapiState::Missed => NapiState::Missed,
        };
        Phase {
            line: Line::Masked,
            state,
            ..*self
        }
    }

    // Returns the phase after its interrupt was handled. Without polling nothing is masked or scheduled.
    fn handled(&self, polling: bool) -> Phase
        ensures { result ≡ handled polling self.now }
    {
        if !polling {
            return Phase {
                line: Line::Quiet,
                expiry: Expiry::NotExpired,
                ..*self
            };
        }
        if self.is_fired() {
            self.timer_handled()
        } else {
            self.card_handled()
        }
    }
}

// Returns the card's interrupt after the driver unmasked it.
fn unmasked_line(line: Line) -> Line
    ensures { result ≡ unmasked_line line }
{
    match line {
        Line::Masked => Line::Quiet,
        other => other,
    }
}

/// A receive queue with its NAPI instance.
#[derive(Drop)]
pub(crate) struct ReceiveQueue {
    capacity: u32,
    ring: HeapCircularBuffer<u64>,
    taken: HeapCircularBuffer<u64>,
    phase: Phase,
    asserted: Option<u64>,
    caused: Option<u64>,
    read: u64,
    frames: u64,
    deferrals: u32,
    counts: QueueCounts,
    waits: Waits,
}

impl Model for ReceiveQueue {
    ghost use Rattle.std.specs.Prelude.{◌≡◌, ◌≤◌};
    ghost use Rattle.machine_model.specs.Device.{QueueView};

    ghost Value = { QueueView };

    ghost view = { λ d. record {
      ring = d.ring.items;
      capacity = d.capacity;
      taken = d.taken.items;
      phase = d.phase;
      asserted = d.asserted;
      caused = d.caused;
      read = d.read;
      frames = d.frames;
      deferrals = d.deferrals;
      counts = d.counts;
      waits = d.waits;
    } };

    ghost invariant = { λ d. (d.taken.capacity ≡ d.ring.capacity) × (d.capacity ≤ d.ring.capacity)
        × (64 ≤ d.taken.capacity) };
}

impl ReceiveQueue {
    /// Returns a queue with an empty ring of this capacity.
    pub(crate) fn new(alloc: Global, capacity: u32) -> Result<ReceiveQueue, AllocError>
        ensures { IfOk result (λ d. d ≡ new_queue capacity) }
    {
        let most = (capacity as usize).max(64);
        let ring = HeapCircularBuffer::with_capacity(alloc, most)?;
        let taken = HeapCircularBuffer::with_capacity(alloc, most)?;
        Ok(ReceiveQueue {
            capacity,
            ring,
            taken,
            phase: Phase::QUIET,
            asserted: None,
            caused: None,
            read: 0,
            frames: 0,
            deferrals: 0,
            counts: QueueCounts::NONE,
            waits: Waits::new(alloc),
        })
    }

    /// Returns whether its card asks for an interrupt, or its NAPI timer expired.
    pub(crate) fn asks(&self) -> bool
        ensures { result ≡ asks self.now.phase }
    {
        self.phase.asks()
    }

    /// Returns whether its interrupt is masked, so that the card doesn't report packets.
    pub(crate) fn is_masked(&self) -> bool
        ensures { result ≡ is_masked self.now.phase }
    {
        self.phase.is_masked()
    }

    /// Returns whether its NAPI timer expired.
    pub(crate) fn is_fired(&self) -> bool
        ensures { result ≡ is_fired self.now.phase }
    {
        self.phase.is_fired()
    }

    /// Returns whether its interrupt schedules the instance.
    pub(crate) fn schedules(&self) -> bool
        ensures { result ≡ schedules self.now.phase }
    {
        self.phase.schedules()
    }

    /// When the timer expires that is first, the card's or its NAPI timer, if one is set.
    pub(crate) fn timer(&self) -> Option<u64>
        ensures { result ≡ timer_of self.now.phase }
    {
        self.phase.timer()
    }

    /// Expires that timer.
    pub(crate) fn expire(&mut self)
        ensures { self.new ≡ expired self.old }
    {
        if self.phase.is_card_first() {
            self.asserted = self.phase.timer();
        }
        self.phase = self.phase.expired();
    }

    // Returns when the card may ask for an interrupt again, if this is the least time between two.
    fn gap_end(&self, gap: u32) -> u64
        ensures { result ≡ gap_end gap self.now.asserted }
    {
        match self.asserted {
            Some(last) => last.saturating_add(u64::from(gap)),
            None => 0,
        }
    }

    // Returns whether one more frame makes the card ask for an interrupt at once.
    fn is_at_once(&self, moment: u64, settings: &MachineSettings) -> bool
        ensures { result ≡ is_at_once moment settings.now self.now }
    {
        if settings.rx_gap != 0 {
            return self.gap_end(settings.rx_gap) <= moment;
        }
        let wanted = u64::from(settings.rx_frames);
        settings.rx_nsecs == 0 || wanted != 0 && wanted <= self.frames.saturating_add(1)
    }

    // Returns when the card asks for an interrupt that it doesn't ask for at once.
    fn asks_later(&self, moment: u64, settings: &MachineSettings) -> u64
        ensures { result ≡ asks_later moment settings.now self.now }
    {
        if settings.rx_gap != 0 {
            return self.gap_end(settings.rx_gap);
        }
        moment.saturating_add(u64::from(settings.rx_nsecs))
    }

    // Counts one more frame for the card, which asks for an interrupt now or later.
    #[tactic(auto, unfolding(crate::specs::Device::notified))]
    fn notify(&mut self, moment: u64, settings: &MachineSettings)
        ensures { self.new ≡ notified moment settings.now self.old }
    {
        if self.is_at_once(moment, settings) {
            if self.phase.line != Line::Raised {
                self.asserted = Some(moment);
            }
            self.phase.line = Line::Raised;
        } else if self.phase.line == Line::Quiet {
            self.phase.line = Line::Coalescing(self.asks_later(moment, settings));
        }
        self.frames = self.frames.saturating_add(1);
    }

    // Returns whether the card doesn't report a packet: its interrupt is masked, or, if it latches causes, raised.
    fn is_silent(&self, settings: &MachineSettings) -> bool
        ensures { result ≡ is_silent settings.now self.now.phase }
    {
        self.is_masked() || settings.latched != 0 && self.phase.line == Line::Raised
    }

    /// Handles the arrival of a packet: a full ring drops it. Otherwise the card reports it, or only sets a cause. Returns whether
    /// the ring had room.
    #[tactic(auto, unfolding(crate::specs::Device::after_packet))]
    pub(crate) fn arrive(&mut self, moment: u64, settings: &MachineSettings) -> bool
        ensures device { self.new ≡ after_packet moment settings.now self.old }
        ensures room { result ≡ has_room self.old }
    {
        self.counts.arrived = self.counts.arrived.saturating_add(1);
        if self.ring.len() >= self.capacity as usize || self.ring.try_push_back(moment).is_err() {
            self.counts.dropped = self.counts.dropped.saturating_add(1);
            return false;
        }
        if !self.is_silent(settings) {
            self.notify(moment, settings);
        } else if settings.latched != 0 {
            self.caused = Some(moment);
        }
        true
    }

    /// Returns whether its instance missed an interrupt.
    pub(crate) fn is_missed(&self) -> bool
        ensures { result ≡ is_missed self.now.phase }
    {
        self.phase.is_missed()
    }

    /// Handles an interrupt that comes before the completion of its poll: the instance misses it.
    pub(crate) fn miss(&mut self)
        ensures { self.new ≡ missed_early self.old }
    {
        self.phase.state = NapiState::Missed;
        self.counts.interrupts = self.counts.interrupts.saturating_add(1);
    }

    /// Handles its interrupt, or that of its NAPI timer. The handler ends at the time `until`.
    #[tactic(auto, unfolding(crate::specs::Device::interrupted))]
    pub(crate) fn interrupt(&mut self, until: u64, polling: bool)
        ensures { self.new ≡ interrupted until polling self.old }
    {
        let is_timer = self.is_fired();
        self.phase = self.phase.handled(polling);
        if !is_timer {
            self.read = until;
            self.frames = 0;
            self.counts.interrupts = self.counts.interrupts.saturating_add(1);
        }
    }

    /// Ends an interrupt without polling: it is raised again if the ring isn't empty.
    pub(crate) fn raise_again(&mut self)
        ensures { self.new ≡ raised_again self.old }
    {
        if !self.ring.is_empty() {
            self.phase.line = Line::Raised;
        }
    }

    /// Takes the next packet of a poll. With a backlog, the whole ring is moved to a second queue at once when that queue is
    /// empty (`process_backlog`).
    pub(crate) fn take_next(&mut self, backlog: bool) -> Option<u64>
        ensures packet { result ≡ next_packet backlog self.old }
        ensures device { self.new ≡ without_next backlog self.old }
    {
        if !backlog {
            return self.ring.pop_front();
        }
        if self.taken.is_empty() {
            mem::swap(&mut self.ring, &mut self.taken);
        }
        self.taken.pop_front()
    }

    /// Returns whether a poll that took this many packets takes another one, if it hands over batches of this many.
    pub(crate) fn pulls(&self, batch: u32, given: u32) -> bool
        requires { 1 ≤ batch }
        ensures { result ≡ pulls batch given self.now }
    {
        self.taken.len() == (given % batch) as usize && !self.ring.is_empty()
    }

    /// Takes the oldest packet out of the ring for GRO, which holds fewer than a batch.
    pub(crate) fn hold(&mut self)
        requires { length self.old.taken < 64 }
        ensures { self.new ≡ holding self.old }
    {
        if let Some(came) = self.ring.pop_front() {
            if self.taken.try_push_back(came).is_err() {
                return;
            }
        }
    }

    /// Takes the oldest packet that GRO holds.
    pub(crate) fn take_held(&mut self) -> Option<u64>
        ensures packet { result ≡ next_held self.old }
        ensures device { self.new ≡ without_held self.old }
    {
        self.taken.pop_front()
    }

    /// Delivers a packet that arrived at `came`. Fails if the allocation for counting its wait fails; then nothing is counted.
    pub(crate) fn deliver(&mut self, now: u64, came: u64) -> Result<(), AllocError>
        ensures device { OnOk result (self.new ≡ queue_delivered now came self.old) }
        ensures kept { OnErr result (self.new ≡ self.old) }
        ensures phase { self.new.phase ≡ self.old.phase }
    {
        self.waits.count(now.saturating_sub(came))?;
        self.counts.polled = self.counts.polled.saturating_add(1);
        Ok(())
    }

    // Returns how often its interrupt may still be deferred, after a poll that processed this many packets.
    fn deferrals_after(&self, given: u32, settings: &MachineSettings) -> u32
        ensures { result ≡ deferrals_after given settings.now self.now }
    {
        if given == 0 {
            self.deferrals
        } else {
            settings.defer_hard_irqs
        }
    }

    // Returns whether its interrupt is deferred after that poll.
    fn defers(&self, given: u32, settings: &MachineSettings) -> bool
        ensures { result ≡ is_deferred given settings.now self.now }
    {
        self.deferrals_after(given, settings) != 0 && settings.gro_flush_timeout != 0
    }

    /// Returns whether its completion after that poll starts the NAPI timer.
    pub(crate) fn starts_timer(&self, given: u32, settings: &MachineSettings) -> bool
        ensures { result ≡ starts_timer given settings.now self.now }
    {
        self.defers(given, settings) && !(settings.heedless && self.phase.is_missed())
    }

    // Returns whether the driver finds packets after that poll, and schedules the instance again.
    fn finds_packets(&self, given: u32, settings: &MachineSettings) -> bool
        ensures { result ≡ finds_packets given settings.now self.now }
    {
        if self.ring.is_empty() {
            return false;
        }
        settings.latched == 0 && !settings.heedless && !self.defers(given, settings)
    }

    /// Returns whether its instance is scheduled again, if it completes after a poll that processed this many packets.
    pub(crate) fn is_rescheduled(&self, given: u32, settings: &MachineSettings) -> bool
        ensures { result ≡ is_rescheduled given settings.now self.now }
    {
        self.phase.is_missed() || self.finds_packets(given, settings)
    }

    // Returns whether the card has a cause.
    fn has_cause(&self, settings: &MachineSettings) -> bool
        ensures { result ≡ has_cause settings.now self.now }
    {
        match self.caused {
            Some(came) => settings.latched != 2 || self.read <= came,
            None => false,
        }
    }

    // Returns whether the card asks for an interrupt when the driver unmasks it.
    fn is_owed(&self, settings: &MachineSettings) -> bool
        ensures { result ≡ is_owed settings.now self.now }
    {
        if settings.latched == 0 {
            !self.ring.is_empty()
        } else {
            self.has_cause(settings)
        }
    }

    // Unmasks the card.
    #[tactic(auto, unfolding(crate::specs::Device::armed))]
    fn arm(&mut self, now: u64, settings: &MachineSettings)
        ensures { self.new ≡ armed now settings.now self.old }
    {
        let is_owed = self.is_owed(settings);
        self.phase.line = unmasked_line(self.phase.line);
        self.caused = None;
        if is_owed {
            self.notify(now, settings);
        }
    }

    // Unmasks its interrupt, unless that is deferred or was missed (`napi_complete_done`); a heedless driver unmasks it in any case.
    #[tactic(auto, unfolding(crate::specs::Device::queue_completed))]
    fn complete(&mut self, now: u64, given: u32, settings: &MachineSettings)
        ensures { self.new ≡ queue_completed now given settings.now self.old }
    {
        let defers = self.defers(given, settings);
        let finds_packets = self.finds_packets(given, settings);
        let is_missed = self.phase.is_missed();
        self.deferrals = self.deferrals_after(given, settings).saturating_sub(1);
        if defers && !is_missed {
            self.phase.timer = Some(now.saturating_add(u64::from(settings.gro_flush_timeout)));
        }
        self.phase.state = if is_missed || finds_packets {
            NapiState::Scheduled
        } else {
            NapiState::Idle
        };
        if !((defers || is_missed) && !settings.heedless || finds_packets) {
            self.arm(now, settings);
        }
    }

    /// Ends a poll that processed this many packets. If it used its whole weight, the queue is polled again; otherwise it
    /// completes.
    #[tactic(auto, unfolding(crate::specs::Device::queue_polled))]
    pub(crate) fn end_poll(&mut self, now: u64, given: u32, settings: &MachineSettings)
        ensures { self.new ≡ queue_polled now given settings.now self.old }
    {
        self.counts.polls = self.counts.polls.saturating_add(1);
        if given != settings.weight {
            self.complete(now, given, settings);
        }
    }

    /// Returns the report of this queue.
    pub(crate) fn report(&self) -> QueueReport
        ensures { result ≡ queue_report self.now }
    {
        QueueReport {
            counts: self.counts,
            waits: self.waits.summary(),
        }
    }
}
