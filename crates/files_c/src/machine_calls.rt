//! A whole run of the machine, from arrivals in the caller's memory to a report in the caller's memory.

ghost use Rattle.std.specs.Prelude.{◌≡◌, ◌≢◌, ◌<◌, ◌⊎◌, ◌↔◌, ◌++◌, ℕ, [], List, IfOk, IfErr, codes, string_bytes, length, take, drop};
ghost use Rattle.machine.specs.Answer.{IsReportOf, IsArrivalsFault};
ghost use Rattle.machine.specs.Fault.{IsMachineOutside, IsMachineOutOfMemory, machine_fault_line};
ghost use Rattle.files_c.specs.MachineFaults.{machine_c_status, with_zeros};
ghost use Rattle.files_c.specs.Machine.{HasSizes, IsMachineReport, IsMachineFault, MachineLacksMemory, Tells};
ghost use Rattle.files_c.specs.Settings.{IsSettingOut};
ghost use Rattle.files_c.specs.Status.{FILES_OK, FILES_OUT_OF_MEMORY, FILES_NO_ROOM, FILES_BAD_SIZE, FILES_BAD_SETTING};
ghost use Rattle.files_c.specs.Status.{FILES_BAD_ARRIVALS};

use crate::machine_fault::{machine_c_status, machine_fault_row};
use crate::settings::FqMachineSettings;
use crate::status;
use machine::{MachineFault, fault_line, run_machine};
use machine_model::MachineSettings;
use std::alloc::Global;
use std::mem::size_of;

/// The result of a run besides its status: `struct fq_machine_ran`.
#[repr(C)]
#[derive(Clone, Copy)]
pub struct FqMachineRan {
    /// The size of this struct in bytes, which the caller sets.
    pub size: usize,
    /// The length of the report in bytes, even if there is no room for it; 0 if there is none.
    pub length: usize,
    /// The row that the error of the arrivals names; 0 if it names none.
    pub row: u64,
    /// The number of the error of the arrivals, 1 to 8; 0 if they have none.
    pub fault: u32,
    /// The first setting that is out of its range, 1 for the first of the struct; 0 if none is.
    pub setting: u32,
    /// The message of the error of the arrivals, with a 0 after it.
    pub message: [u8; 64],
}

impl FqMachineRan {
    const SIZE: usize = size_of::<FqMachineRan>();

    // Returns a result without a report and without an error.
    fn none() -> FqMachineRan
        ensures size { result.size ≡ 96 }
        ensures none { (result.length ≡ 0) × (result.row ≡ 0) × (result.fault ≡ 0)
            × (result.setting ≡ 0) }
        ensures message { result.message ≡ with_zeros [] }
    {
        FqMachineRan {
            size: FqMachineRan::SIZE,
            length: 0,
            row: 0,
            fault: 0,
            setting: 0,
            message: [0; 64],
        }
    }
}

// Returns the report of arrivals.
fn report_of(
    alloc: Global,
    settings: &MachineSettings,
    arrivals: &[u8],
) -> Result<Vec<u8>, MachineFault>
    ensures report { IfOk result (λ text. IsReportOf settings.now arrivals.now text.items) }
    ensures fault { IfErr result
        (λ fault. IsMachineOutside fault ⊎ IsArrivalsFault settings.now arrivals.now fault) }
{
    let mut text = Vec::new(alloc);
    match run_machine(alloc, arrivals, &mut text, settings) {
        Ok(()) => Ok(text),
        Err(fault) => Err(fault),
    }
}

// Copies a report to the caller's array, if that has room for all of it.
fn put_report(text: &[u8], report: &mut [u8], ran: &mut FqMachineRan) -> u32
    ensures ok { result ≡ FILES_OK → take ran.new.length report.new ≡ text.now }
    ensures no_room { result ≢ FILES_OK
        → (result ≡ FILES_NO_ROOM) × (length report.old < length text.now) }
    ensures rest { drop (length text.now) report.new ≡ drop (length text.now) report.old }
    ensures length { ran.new ≡ record ran.old { length = length text.now } }
    ensures kept { result ≢ FILES_OK → report.new ≡ report.old }
{
    ran.length = text.len();
    if report.len() < text.len() {
        return status::NO_ROOM;
    }
    report[..text.len()].copy_from_slice(text);
    status::OK
}

// Copies a message to an array of zeros, if there is room for it and a terminating 0.
fn put_message(text: &[u8], message: &mut [u8])
    ensures text { length text.now < length message.old
        → take (length text.now) message.new ≡ text.now }
    ensures rest { drop (length text.now) message.new ≡ drop (length text.now) message.old }
{
    if text.len() < message.len() {
        message[..text.len()].copy_from_slice(text);
    }
}

// Returns the message of an error, with its line feed.
fn message_of(alloc: Global, fault: &MachineFault) -> Result<String, MachineFault>
    ensures line { IfOk result
        (λ line. string_bytes line ≡ machine_fault_line fault.now ++ codes "\n") }
    ensures memory { IfErr result IsMachineOutOfMemory }
{
    Ok(fault_line(alloc, fault)?)
}

// Reports an error of the arrivals: its numbers, and its message without the line feed.
fn report_fault(alloc: Global, fault: &MachineFault, ran: &mut FqMachineRan) -> u32
    ensures reported { result ≡ FILES_BAD_ARRIVALS
        → (machine_c_status fault.now ≡ FILES_BAD_ARRIVALS) × Tells fault.now ran.new
        × (ran.new.setting ≡ 0) }
    ensures unreported { result ≢ FILES_BAD_ARRIVALS
        → (result ≡ FILES_OUT_OF_MEMORY) × (ran.new ≡ ran.old)
        × ((machine_c_status fault.now ≡ FILES_OUT_OF_MEMORY)
        ⊎ ((why : MachineFault) × IsMachineOutOfMemory why)) }
{
    if machine_c_status(fault) != status::BAD_ARRIVALS {
        return status::OUT_OF_MEMORY;
    }
    match message_of(alloc, fault) {
        Ok(line) => {
            *ran = FqMachineRan::none();
            ran.fault = u32::from(fault.number());
            ran.row = machine_fault_row(fault);
            let line = line.as_str().as_bytes();
            put_message(&line[..line.len() - 1], &mut ran.message);
            status::BAD_ARRIVALS
        }
        Err(_) => status::OUT_OF_MEMORY,
    }
}

/// Like `run_machine`, from the bytes of arrivals to an array: the report is the first `length` bytes of the array. Returns OK;
/// NO_ROOM, and writes nothing; BAD_SIZE for one of the structs; BAD_SETTING, with the setting's number; BAD_ARRIVALS, with the
/// numbers and the message of their error; or OUT_OF_MEMORY.
#[unsafe(no_mangle)]
pub extern "C" fn fq_machine_sized(
    alloc: Global,
    settings: &FqMachineSettings,
    arrivals: &[u8],
    report: &mut [u8],
    ran: &mut FqMachineRan,
) -> u32
    // The text that is written is the report of the arrivals with these settings, and an error that is reported is theirs.
    ensures written { result ≡ FILES_OK
        → IsMachineReport settings.now arrivals.now (take ran.new.length report.new) }
    ensures rest { result ≡ FILES_OK
        → drop ran.new.length report.new ≡ drop ran.new.length report.old }
    ensures no_room { result ≡ FILES_NO_ROOM → (text : List ℕ)
        × IsMachineReport settings.now arrivals.now text
        × (ran.new.length ≡ length text) × (length report.old < length text) }
    ensures fault { result ≡ FILES_BAD_ARRIVALS → (fault : MachineFault)
        × IsMachineFault settings.now arrivals.now fault × Tells fault ran.new }
    ensures setting { result ≡ FILES_BAD_SETTING → IsSettingOut settings.now ran.new.setting }
    ensures memory { result ≢ FILES_OK → result ≢ FILES_NO_ROOM
        → result ≢ FILES_BAD_ARRIVALS → result ≢ FILES_BAD_SETTING → result ≢ FILES_BAD_SIZE
        → (result ≡ FILES_OUT_OF_MEMORY) × MachineLacksMemory settings.now arrivals.now }

    // Structs of other sizes are rejected, and nothing is written; nor is a report after any other error.
    ensures size { (result ≡ FILES_BAD_SIZE) ↔ ¬ HasSizes settings.now ran.old }
    ensures same { result ≡ FILES_BAD_SIZE → ran.new ≡ ran.old }
    ensures kept { result ≢ FILES_OK → report.new ≡ report.old }
    // The other results describe the report, the error or the setting; if there is none, they are 0.
    ensures faultless { result ≢ FILES_BAD_SIZE → result ≢ FILES_BAD_ARRIVALS
        → (ran.new.fault ≡ 0) × (ran.new.row ≡ 0) }
    ensures set { result ≢ FILES_BAD_SIZE → result ≢ FILES_BAD_SETTING
        → ran.new.setting ≡ 0 }
    ensures no_report { result ≢ FILES_BAD_SIZE → result ≢ FILES_OK
        → result ≢ FILES_NO_ROOM → ran.new.length ≡ 0 }
    ensures no_message { result ≢ FILES_BAD_SIZE → result ≢ FILES_BAD_ARRIVALS
        → ran.new.message ≡ with_zeros [] }
{
    if settings.size != FqMachineSettings::SIZE || ran.size != FqMachineRan::SIZE {
        return status::BAD_SIZE;
    }
    *ran = FqMachineRan::none();
    match MachineSettings::from_values(&settings.values) {
        Ok(asked) => match report_of(alloc, &asked, arrivals) {
            Ok(text) => put_report(text.as_slice(), report, ran),
            Err(fault) => report_fault(alloc, &fault, ran),
        },
        Err(number) => {
            ran.setting = number;
            status::BAD_SETTING
        }
    }
}
