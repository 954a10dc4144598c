//! The report's text.

ghost use Rattle.std.specs.Prelude.{◌≡◌, ◌*◌, ◌≤◌, ◌++◌, Some, IfOk, OnOk, length, string_bytes};
ghost use Rattle.machine_model.specs.Machine.{device_report};
ghost use Rattle.machine.specs.Report.{application_line, application_of, machine_device_line, machine_device_lines, lines_of_devices};
ghost use Rattle.machine.specs.Report.{lines_of_processors, processor_in, processor_line, processor_lines, sums_of_devices};
ghost use Rattle.machine.specs.Report.{sums_of_processors, machine_text, time_line, machine_total_line, plus_device};
ghost use Rattle.text_io.specs.Lines.{with_newline};

use machine_model::{
    ApplicationReport, Machine, MachineSettings, ProcessorReport, QueueReport, WaitCounts,
};
use std::alloc::{AllocError, Global};
use std::fmt;

/// The sums in the last line.
#[derive(Clone, Copy, Debug, PartialEq, Eq)]
pub(crate) struct MachineTotals {
    /// The queues for which a packet arrived.
    pub devices: u64,
    /// Their packets.
    pub arrived: u64,
    /// Packets that full rings dropped.
    pub dropped: u64,
    /// Packets that were delivered.
    pub polled: u64,
    /// Packets that full sockets dropped.
    pub refused: u64,
    /// Packets that were used.
    pub used: u64,
}

impl fmt::Display for MachineTotals {
    ghost use Rattle.std.specs.Prelude.{Some};
    ghost use Rattle.machine.specs.Report.{machine_total_line};

    ghost output = { λ totals. Some (machine_total_line totals) };

    fn fmt<W: fmt::Write>(&self, f: &mut fmt::Formatter<W>) -> fmt::Result {
        write!(
            f,
            "total devices {} arrived {} dropped {} polled {} refused {} used {}",
            self.devices, self.arrived, self.dropped, self.polled, self.refused, self.used
        )
    }
}

/// The numbers in the line of an application on its own processor.
#[derive(Clone, Copy)]
pub(crate) struct ApplicationLine {
    number: u32,
    end: u64,
    wakes: u64,
    used: u64,
    idle: u64,
}

impl fmt::Display for ApplicationLine {
    ghost use Rattle.std.specs.Prelude.{Some};
    ghost use Rattle.machine.specs.Report.{application_line};

    ghost output = { λ line. Some (application_line line) };

    fn fmt<W: fmt::Write>(&self, f: &mut fmt::Formatter<W>) -> fmt::Result {
        write!(
            f,
            "application {} end {} wakes {} use {} idle {}",
            self.number, self.end, self.wakes, self.used, self.idle
        )
    }
}

// What the report shows of waits.
#[derive(Drop)]
struct WaitsText<'a>(&'a WaitCounts);

impl fmt::Display for WaitsText<'_> {
    ghost use Rattle.std.specs.Prelude.{Some};
    ghost use Rattle.machine.specs.Report.{waits_text};

    ghost output = { λ waits. Some (waits_text waits.0.now) };

    #[tactic(auto, unfolding(crate::specs::Report::waits_text))]
    fn fmt<W: fmt::Write>(&self, f: &mut fmt::Formatter<W>) -> fmt::Result {
        write!(
            f,
            "mean {} wait50 {} wait90 {} wait99 {} wait999 {} most {}",
            self.0.mean, self.0.wait50, self.0.wait90, self.0.wait99, self.0.wait999, self.0.most
        )
    }
}

// What the report shows of a queue's polls.
#[derive(Drop)]
struct PollsText<'a>(&'a QueueReport);

impl fmt::Display for PollsText<'_> {
    ghost use Rattle.std.specs.Prelude.{Some};
    ghost use Rattle.machine.specs.Report.{polls_text};

    ghost output = { λ device. Some (polls_text device.0.now) };

    #[tactic(auto, unfolding(crate::specs::Report::polls_text))]
    fn fmt<W: fmt::Write>(&self, f: &mut fmt::Formatter<W>) -> fmt::Result {
        let counts = &self.0.counts;
        write!(
            f,
            "polled {} interrupts {} polls {} {}",
            counts.polled,
            counts.interrupts,
            counts.polls,
            WaitsText(&self.0.waits)
        )
    }
}

// Appends the line of a queue.
fn add_device(text: &mut String, number: u32, device: &QueueReport) -> Result<(), AllocError>
    ensures { OnOk result (string_bytes text.new
        ≡ string_bytes text.old ++ with_newline (machine_device_line number device.now)) }
{
    writeln!(
        text,
        "device {} arrived {} dropped {} {}",
        number,
        device.counts.arrived,
        device.counts.dropped,
        PollsText(device)
    )?;
    Ok(())
}

// Appends the line of what a processor did.
fn add_work(text: &mut String, number: u32, processor: &ProcessorReport) -> Result<(), AllocError>
    ensures { OnOk result (string_bytes text.new
        ≡ string_bytes text.old ++ with_newline (processor_line number processor.now)) }
{
    writeln!(
        text,
        "processor {} interrupts {} timers {} runs {} polls {} work {} squeezed {} late {} refused {} used {} {}",
        number,
        processor.counts.interrupts,
        processor.counts.timers,
        processor.counts.runs,
        processor.counts.polls,
        processor.counts.work,
        processor.counts.squeezed,
        processor.counts.late,
        processor.counts.refused,
        processor.waits.count,
        WaitsText(&processor.waits)
    )?;
    Ok(())
}

// Appends the line of how a processor's time was spent.
fn add_time(text: &mut String, number: u32, processor: &ProcessorReport) -> Result<(), AllocError>
    ensures { OnOk result (string_bytes text.new
        ≡ string_bytes text.old ++ with_newline (time_line number processor.now)) }
{
    let behind_interrupts = processor
        .end
        .saturating_sub(processor.counts.interrupt_time);
    let behind_polls = behind_interrupts.saturating_sub(processor.counts.poll_time);
    let idle = behind_polls.saturating_sub(processor.counts.use_time);
    writeln!(
        text,
        "time {} end {} interrupt {} poll {} use {} idle {}",
        number,
        processor.end,
        processor.counts.interrupt_time,
        processor.counts.poll_time,
        processor.counts.use_time,
        idle
    )?;
    Ok(())
}

// Returns the numbers in the line of an application on its own processor.
#[tactic(auto, unfolding(crate::specs::Report::application_of))]
fn application_of(
    settings: &MachineSettings,
    number: u32,
    processor: &ProcessorReport,
    application: &ApplicationReport,
) -> ApplicationLine
    ensures { result ≡ application_of settings.now number processor.now application.now }
{
    let end = application.end;
    let wakes = application.wakes;
    let waking = wakes.saturating_mul(u64::from(settings.app_wake));
    let used = processor
        .waits
        .count
        .saturating_mul(u64::from(settings.use_time));
    ApplicationLine {
        number,
        end,
        wakes,
        used,
        idle: end.saturating_sub(waking).saturating_sub(used),
    }
}

// Appends the line of an application on its own processor.
fn add_application(text: &mut String, application: &ApplicationLine) -> Result<(), AllocError>
    ensures { OnOk result (string_bytes text.new
        ≡ string_bytes text.old ++ with_newline (application_line application.now)) }
{
    writeln!(text, "{application}")?;
    Ok(())
}

// Appends the lines of a processor.
fn add_processor(
    text: &mut String,
    settings: &MachineSettings,
    number: u32,
    processor: &ProcessorReport,
) -> Result<(), AllocError>
    ensures { OnOk result (string_bytes text.new
        ≡ string_bytes text.old ++ processor_lines settings.now number (Some processor.now)) }
{
    add_work(text, number, processor)?;
    add_time(text, number, processor)?;
    if let Some(application) = processor.application {
        let line = application_of(settings, number, processor, &application);
        add_application(text, &line)?;
    }
    Ok(())
}

// Appends the last line.
fn add_totals(text: &mut String, totals: &MachineTotals) -> Result<(), AllocError>
    ensures { OnOk result
        (string_bytes text.new ≡ string_bytes text.old
        ++ with_newline (machine_total_line totals.now)) }
{
    writeln!(text, "{totals}")?;
    Ok(())
}

impl MachineTotals {
    ghost use Rattle.std.specs.Prelude.{◌≡◌, Some};
    ghost use Rattle.machine.specs.Report.{none_counted, plus_device, with_processor};

    // Returns zero sums.
    fn none() -> MachineTotals
        ensures { result ≡ none_counted }
    {
        MachineTotals {
            devices: 0,
            arrived: 0,
            dropped: 0,
            polled: 0,
            refused: 0,
            used: 0,
        }
    }

    // Adds the numbers of one more queue.
    fn count_device(&mut self, device: &QueueReport)
        ensures { self.new ≡ plus_device (Some device.now) self.old }
    {
        self.devices = self.devices.saturating_add(1);
        self.arrived = self.arrived.saturating_add(device.counts.arrived);
        self.dropped = self.dropped.saturating_add(device.counts.dropped);
        self.polled = self.polled.saturating_add(device.counts.polled);
    }

    // Adds the numbers of one more processor.
    fn count_processor(&mut self, processor: &ProcessorReport)
        ensures { self.new ≡ with_processor (Some processor.now) self.old }
    {
        self.refused = self.refused.saturating_add(processor.counts.refused);
        self.used = self.used.saturating_add(processor.waits.count);
    }
}

// Appends the line of a queue, and adds its numbers to the sums, if a packet arrived for it.
fn add_place(
    text: &mut String,
    totals: &mut MachineTotals,
    number: u32,
    device: &Option<QueueReport>,
) -> Result<(), AllocError>
    ensures text { OnOk result (string_bytes text.new
        ≡ string_bytes text.old ++ machine_device_lines number device.now) }
    ensures totals { OnOk result (totals.new ≡ plus_device device.now totals.old) }
{
    if let Some(device) = device {
        add_device(text, number, device)?;
        totals.count_device(device);
    }
    Ok(())
}

// Appends the lines of queues 1 to `devices`, and returns their sums.
fn add_devices(
    text: &mut String,
    machine: &Machine,
    devices: u32,
) -> Result<MachineTotals, AllocError>
    requires { devices ≤ 64 * length machine.now }
    ensures text { OnOk result (string_bytes text.new
        ≡ string_bytes text.old ++ lines_of_devices (λ n. device_report n machine.now) devices) }
    ensures totals { IfOk result
        (λ totals. totals ≡ sums_of_devices (λ n. device_report n machine.now) devices) }
{
    let mut totals = MachineTotals::none();
    for before in 0..devices {
        let device = machine.device(before + 1);
        add_place(text, &mut totals, before + 1, &device)?;
    }
    Ok(totals)
}

// Appends the lines of the processors, and adds their numbers to the sums.
fn add_processors(
    text: &mut String,
    machine: &Machine,
    settings: &MachineSettings,
    totals: &mut MachineTotals,
) -> Result<(), AllocError>
    requires { settings.now.processors ≡ length machine.now }
    ensures text { OnOk result (string_bytes text.new ≡ string_bytes text.old
        ++ lines_of_processors settings.now (processor_in machine.now) settings.now.processors) }
    ensures totals { OnOk result (totals.new
        ≡ sums_of_processors (processor_in machine.now) totals.old settings.now.processors) }
{
    for number in 0..settings.processors {
        let processor = machine.processor(number as usize);
        add_processor(text, settings, number, &processor)?;
        totals.count_processor(&processor);
    }
    Ok(())
}

/// Returns the report of a machine with these settings. Fails only if an allocation fails.
pub(crate) fn report_of(
    alloc: Global,
    machine: &Machine,
    settings: &MachineSettings,
) -> Result<String, AllocError>
    requires { settings.now.processors ≡ length machine.now }
    ensures { IfOk result (λ text. string_bytes text ≡ machine_text settings.now machine.now) }
{
    let mut text = String::new(alloc);
    let mut totals = add_devices(&mut text, machine, 64 * settings.processors)?;
    add_processors(&mut text, machine, settings, &mut totals)?;
    add_totals(&mut text, &totals)?;
    Ok(text)
}
