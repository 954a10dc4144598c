//! Processing the rows of a trace on any bench, for all modes that process rows.

ghost use Rattle.std.specs.Prelude.{◌≡◌, ◌≤◌, [], IfOk, length, true};
ghost use Rattle.device_bench.specs.DeviceBench.{waiting_of};
ghost use Rattle.poll_runs.specs.Ranges.{IsRounds};

use crate::line::PollRecord;
use crate::run_log::{RunLog, run_logged};
use crate::softirq::is_softirq;
use device_bench::{DeviceBench, ReceiveSide};
use device_rows::{Row, RowEvent};
use napi_model::Kind;
use poll_runs::{Bench, Next, PlainList, PollList, run_softirq};
use std::alloc::{AllocError, Global};
use text_io::{ReplayFault, ReplaySettings};

/// The most polls that a kthread row makes. A trace has too few packets to reach this number.
pub(crate) const MOST_THREAD_POLLS: u32 = 131072;

/// The state after the rows so far, on any bench.
#[derive(Drop)]
pub struct Replay<S: ReceiveSide> {
    pub(crate) bench: DeviceBench<S>,
    pub(crate) list: PlainList,
    pub(crate) lines: Vec<PollRecord>,
    // If the bench is exact, each entry of the list is a device that waits on it, so the list has room for all of them.
    ghost room: { S.exact ≡ true → length list ≤ waiting_of bench },
}

/// Returns an empty list of lines, with room for the line of each row that polls.
pub fn room_for_lines(alloc: Global, rows: &[Row]) -> Result<Vec<PollRecord>, AllocError>
    ensures { IfOk result (λ lines. lines.items ≡ []) }
{
    let polling = rows
        .iter()
        .filter(|row| matches!(
            row.event,
            RowEvent::Softirq | RowEvent::Kthread | RowEvent::Busy
        ))
        .count();
    Vec::with_capacity(alloc, polling)
}

impl<S: ReceiveSide> Replay<S> {
    ghost use Rattle.std.specs.Prelude.{◌≡◌, ℕ, ◌+◌, ◌++◌, [], ◌∷◌, true, false, Ok, OnOk, IfErr};
    ghost use Rattle.device_bench.specs.DeviceBench.{ShowsTransmits, devices_of, waiting_of};
    ghost use Rattle.device_bench.specs.Transmits.{Changes, KeepsTransmits, Transmits};
    ghost use Rattle.device_places.specs.Places.{empty};
    ghost use Rattle.device_rows.specs.Row.{device_fits, value_fits};
    ghost use Rattle.device_rows.specs.Trace.{AcceptedAfter};
    ghost use Rattle.device_bench.specs.Waiting.{one_when, is_left_to_list};
    ghost use Rattle.replay_rows.specs.Played.{replay_state};
    ghost use Rattle.replay_rows.specs.Refused.{IsRowFault, IsSerialFault, IsRefusedAt};
    ghost use Rattle.replay_rows.specs.Replay.{after_event, after_row, entry, is_early, start, with_busy, with_packet, with_run, with_thread, after_all_rows};
    ghost use Rattle.replay_rows.specs.Run.{replay_run};
    ghost use Rattle.replay_rows.specs.RunLog.{logged, row_list, row_polls};
    ghost use Rattle.replay_rows.specs.Transmits.{after_transmit, after_transmits};

    /// Returns a replay on a bench without devices, which collects its lines in `lines`.
    pub fn new(bench: DeviceBench<S>, lines: Vec<PollRecord>) -> Replay<S>
        requires { lines.items ≡ [] }
        ensures bench { result.bench ≡ bench }
        ensures lines { result.lines.items ≡ [] }
        ensures state { devices_of bench ≡ empty → replay_state result ≡ start }
    {
        Replay {
            bench,
            list: PlainList::new(),
            lines,
        }
    }

    // Handles the arrival of a packet. If that queues the device on the list, it pushes the number.
    fn rx(&mut self, device: u32, bytes: u32)
        ensures state { S.exact ≡ true → replay_state self.new
            ≡ with_packet device bytes (replay_state self.old) }
        ensures transmits { KeepsTransmits ShowsTransmits self.old.bench self.new.bench }
        ensures lines { self.new.lines ≡ self.old.lines }
    {
        if matches!(self.bench.arrive(device, bytes), Some(Kind::List)) {
            self.push(device);
        }
    }

    // Pushes the number of a device that was queued on the list. A device waits there at most once, so there is room for it; if
    // the bench isn't exact, no clause says so.
    fn push(&mut self, device: u32)
        requires { S.exact ≡ true → length self.old.list + 1 ≤ waiting_of self.old.bench }
        ensures list { S.exact ≡ true → self.new.list ≡ self.old.list ++ device ∷ [] }
        ensures bench { self.new.bench ≡ self.old.bench }
        ensures lines { self.new.lines ≡ self.old.lines }
    {
        if self.list.ids().len() < 64 {
            self.list.push(device);
        }
    }

    // Pushes the device's number if a poll that ended like this queued the device on the list.
    fn list_left(&mut self, device: u32, next: Next)
        requires { S.exact ≡ true → length self.old.list + one_when (is_left_to_list next)
            ≤ waiting_of self.old.bench }
        ensures list { S.exact ≡ true → self.new.list
            ≡ self.old.list ++ entry (is_left_to_list next) device }
        ensures bench { self.new.bench ≡ self.old.bench }
        ensures lines { self.new.lines ≡ self.old.lines }
    {
        if matches!(next, Next::Again(Kind::List) | Next::Repoll) {
            self.push(device);
        }
    }

    // Makes one run over the poll list, and adds its line.
    fn run(&mut self, settings: &ReplaySettings, row: u32) -> Result<(), AllocError>
        ensures state { S.exact ≡ true → OnOk result (replay_state self.new
            ≡ with_run settings.now row (replay_state self.old)) }
        ensures lines { OnOk result
            (length self.new.lines.items ≡ length self.old.lines.items + 1) }
        ensures transmits { KeepsTransmits ShowsTransmits self.old.bench self.new.bench }
    {
        let run = run_softirq(
            &mut self.list,
            &mut self.bench,
            settings.budget,
            settings.weight,
            settings.window,
        );
        self.lines.push(PollRecord::Softirq { row, run })?;
        Ok(())
    }

    // Like `run`, and logs the polls.
    fn run_with(
        &mut self,
        settings: &ReplaySettings,
        row: u32,
        log: &mut RunLog,
    ) -> Result<(), AllocError>
        requires list { log.old.list.items ≡ [] }
        requires polls { log.old.polls.items ≡ [] }
        ensures state { S.exact ≡ true → OnOk result (replay_state self.new
            ≡ with_run settings.now row (replay_state self.old)) }
        ensures lines { OnOk result
            (length self.new.lines.items ≡ length self.old.lines.items + 1) }
        ensures transmits { KeepsTransmits ShowsTransmits self.old.bench self.new.bench }
        ensures list { OnOk result (log.new.list.items ≡ self.old.list) }
        ensures polls { S.exact ≡ true
            → OnOk result ((all : Transmits) → ShowsTransmits self.old.bench all
            → log.new.polls.items ≡ logged settings.now all (devices_of self.old.bench)
            (replay_run settings.now (devices_of self.old.bench) self.old.list).0.polls) }
    {
        log.begin(self.list.ids(), settings.window)?;
        let run = run_logged(&mut self.list, &mut self.bench, settings, &mut log.polls);
        self.lines.push(PollRecord::Softirq { row, run })?;
        Ok(())
    }

    // Polls the device by its thread, and adds the line.
    fn poll_thread(
        &mut self,
        settings: &ReplaySettings,
        row: u32,
        device: u32,
    ) -> Result<(), AllocError>
        ensures state { S.exact ≡ true → OnOk result (replay_state self.new
            ≡ with_thread settings.now row device (replay_state self.old)) }
        ensures lines { OnOk result
            (length self.new.lines.items ≡ length self.old.lines.items + 1) }
        ensures transmits { KeepsTransmits ShowsTransmits self.old.bench self.new.bench }
    {
        let report = self
            .bench
            .poll_thread(device, settings.weight, MOST_THREAD_POLLS);
        self.list_left(device, report.next);
        self.lines.push(PollRecord::Kthread {
            row,
            device,
            report,
        })?;
        Ok(())
    }

    // Busy polls the device, and adds the line.
    fn busy_poll(
        &mut self,
        settings: &ReplaySettings,
        row: u32,
        device: u32,
        rounds: u32,
    ) -> Result<(), AllocError>
        requires { IsRounds rounds }
        ensures state { S.exact ≡ true → OnOk result (replay_state self.new
            ≡ with_busy settings.now row device rounds (replay_state self.old)) }
        ensures lines { OnOk result
            (length self.new.lines.items ≡ length self.old.lines.items + 1) }
        ensures transmits { KeepsTransmits ShowsTransmits self.old.bench self.new.bench }
    {
        let report = self.bench.busy_poll(device, settings.weight, rounds);
        self.list_left(device, report.next);
        self.lines.push(PollRecord::Busy {
            row,
            device,
            report,
        })?;
        Ok(())
    }

    /// The numbers on the poll list, the next one first.
    pub fn list(&self) -> &[u32]
        ensures { result.now ≡ self.now.list }
    {
        self.list.ids()
    }

    // Processes the row's event. After each row the caller tries each pending disable once, by `settle`.
    fn play_event(
        &mut self,
        alloc: Global,
        settings: &ReplaySettings,
        number: u32,
        row: &Row,
    ) -> Result<(), ReplayFault>
        requires device { device_fits row.now.event row.now.device ≡ true }
        requires value { value_fits row.now.event row.now.value ≡ true }
        ensures on_time { S.exact ≡ true → OnOk result
            (is_early row.now.event row.now.device (replay_state self.old) ≡ false) }
        ensures state { S.exact ≡ true → OnOk result (replay_state self.new
            ≡ after_event settings.now number row.now.event row.now
            (replay_state self.old)) }
        ensures own { IfErr result IsRowFault }
        ensures fault { S.exact ≡ true → IfErr result
            (IsRefusedAt number row.now (replay_state self.old)) }
        ensures transmits { OnOk result
            (Changes ShowsTransmits (after_transmit row.now) self.old.bench self.new.bench) }
        ensures lines { OnOk result
            (length self.new.lines.items ≤ length self.old.lines.items + 1) }
    {
        match row.event {
            RowEvent::Opened => self.bench.attach(alloc, row.device, row.value, row.moment)?,
            RowEvent::Rx => self.rx(row.device, row.value),
            RowEvent::Tx => self.bench.send(row.device, row.value),
            RowEvent::Finish => self.bench.done(row.device, row.value, row.moment),
            RowEvent::Softirq => self.run(settings, number)?,
            RowEvent::Kthread => self.poll_thread(settings, number, row.device)?,
            RowEvent::Disable => self.bench.disable(row.device),
            RowEvent::Enable => {
                if !self.bench.enable(row.device) {
                    return Err(ReplayFault::Pending { row: number });
                }
            }
            RowEvent::Busy => self.busy_poll(settings, number, row.device, row.value)?,
            RowEvent::Threaded => self.bench.set_threaded(row.device, row.value == 1),
        }
        Ok(())
    }

    /// Processes one row, and then tries each pending disable once.
    pub fn play_row(
        &mut self,
        alloc: Global,
        settings: &ReplaySettings,
        number: u32,
        row: &Row,
    ) -> Result<(), ReplayFault>
        requires device { device_fits row.now.event row.now.device ≡ true }
        requires value { value_fits row.now.event row.now.value ≡ true }
        ensures on_time { S.exact ≡ true → OnOk result
            (is_early row.now.event row.now.device (replay_state self.old) ≡ false) }
        ensures state { S.exact ≡ true → OnOk result (replay_state self.new
            ≡ after_row settings.now number row.now (replay_state self.old)) }
        ensures own { IfErr result IsRowFault }
        ensures fault { S.exact ≡ true → IfErr result
            (IsRefusedAt number row.now (replay_state self.old)) }
        ensures transmits { OnOk result
            (Changes ShowsTransmits (after_transmit row.now) self.old.bench self.new.bench) }
        ensures lines { OnOk result
            (length self.new.lines.items ≤ length self.old.lines.items + 1) }
    {
        self.play_event(alloc, settings, number, row)?;
        self.bench.settle();
        Ok(())
    }

    /// Like `play_row`, and logs the polls of a softirq row.
    pub(crate) fn play_logged(
        &mut self,
        alloc: Global,
        settings: &ReplaySettings,
        number: u32,
        row: &Row,
        log: &mut RunLog,
    ) -> Result<(), ReplayFault>
        requires device { device_fits row.now.event row.now.device ≡ true }
        requires value { value_fits row.now.event row.now.value ≡ true }
        ensures on_time { S.exact ≡ true → OnOk result
            (is_early row.now.event row.now.device (replay_state self.old) ≡ false) }
        ensures state { S.exact ≡ true → OnOk result (replay_state self.new
            ≡ after_row settings.now number row.now (replay_state self.old)) }
        ensures fault { S.exact ≡ true → IfErr result
            (IsRefusedAt number row.now (replay_state self.old)) }
        ensures transmits { OnOk result
            (Changes ShowsTransmits (after_transmit row.now) self.old.bench self.new.bench) }
        ensures list { OnOk result
            (log.new.list.items ≡ row_list row.now (replay_state self.old)) }
        ensures polls { S.exact ≡ true
            → OnOk result ((all : Transmits) → ShowsTransmits self.old.bench all
            → log.new.polls.items
            ≡ row_polls settings.now all row.now (replay_state self.old)) }
    {
        log.clear();
        if !is_softirq(row.event) {
            return self.play_row(alloc, settings, number, row);
        }
        self.run_with(settings, number, log)?;
        self.bench.settle();
        Ok(())
    }

    /// Processes the rows of a trace in order, up to the first error, on a bench that has no devices yet. After each row it
    /// tries each pending disable once.
    pub(crate) fn play_rows(
        &mut self,
        alloc: Global,
        settings: &ReplaySettings,
        rows: &[Row],
    ) -> Result<(), ReplayFault>
        requires accepted { AcceptedAfter [] rows.now }
        requires count { length rows.now ≤ 100000 }
        requires start { replay_state self.old ≡ start }
        requires lines { self.old.lines.items ≡ [] }
        ensures state { S.exact ≡ true → OnOk result
            (after_all_rows settings.now rows.now ≡ Ok (replay_state self.new)) }
        ensures transmits { OnOk result
            (Changes ShowsTransmits (after_transmits rows.now) self.old.bench self.new.bench) }
        ensures lines { OnOk result (length self.new.lines.items ≤ 100000) }
        ensures own { IfErr result IsRowFault }
        ensures fault { S.exact ≡ true → IfErr result (IsSerialFault settings.now rows.now) }
    {
        for (i, row) in rows.iter().enumerate() {
            self.play_event(alloc, settings, i as u32 + 1, row)?;
            self.bench.settle();
        }
        Ok(())
    }
}
