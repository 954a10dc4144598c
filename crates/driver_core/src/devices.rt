//! The devices of a driver, and which of their cards need an action.

ghost use Rattle.std.specs.Prelude.{◌≡◌, ◌≢◌, ◌≤◌, ◌<◌, ℕ, length, if◌then◌else◌, IfOk, IfNone, IfSome, Some, None, replicate, slice_set, slice_index_or, false};
ghost use Rattle.std.specs.List.{All};
ghost use Rattle.std.specs.Int.{bit_at};
ghost use Rattle.driver_core.specs.Device.{in_stage, chore_at};
ghost use Rattle.driver_core.specs.declared.device.Stage.TheVariants.{Closed};
ghost use Rattle.driver_core.specs.Queue.{device_at, MarksChores, OnlyMask};

use crate::device::{Chore, DriverDevice};
use std::alloc::{AllocError, Global};

/// The devices of a driver, at most 64.
#[derive(Drop)]
pub struct Devices {
    pub(crate) all: Vec<DriverDevice>,
    // Bit n is set if the card of device n needs an action, so that the first such card is found at once.
    chores: u64,
    ghost few: { length all.items ≤ 64 },
    ghost marks: { MarksChores all.items chores },
}

#[inline(always)]
fn set_bit(bits: u64, device: u32) -> u64
    requires { device < 64 }
    ensures same { bit_at result device ≡ 1 }
    ensures others { (k : ℕ) → k < 64 → k ≢ device → bit_at result k ≡ bit_at bits k }
{
    bits | 1u64 << device
}

#[inline(always)]
pub(crate) fn clear_bit(bits: u64, device: u32) -> u64
    requires { device < 64 }
    ensures same { bit_at result device ≡ 0 }
    ensures others { (k : ℕ) → k < 64 → k ≢ device → bit_at result k ≡ bit_at bits k }
{
    bits & !(1u64 << device)
}

// Returns the place of the lowest bit that is set.
#[tactic(auto, using(crate::proofs::ChoreFacts::lowest_set))]
#[inline(always)]
pub(crate) fn lowest_bit(bits: u64) -> u32
    requires { 1 ≤ bits }
    ensures small { result < 64 }
    ensures set { bit_at bits result ≡ 1 }
    ensures below { (k : ℕ) → k < result → bit_at bits k ≡ 0 }
{
    bits.trailing_zeros()
}

// Returns these bits, with the bit of one device set or cleared.
#[inline(always)]
fn with_bit(bits: u64, device: u32, on: bool) -> u64
    requires { device < 64 }
    ensures same { bit_at result device ≡ (if on then 1 else 0) }
    ensures others { (k : ℕ) → k < 64 → k ≢ device → bit_at result k ≡ bit_at bits k }
{
    if on {
        set_bit(bits, device)
    } else {
        clear_bit(bits, device)
    }
}

impl Devices {
    // Returns this many closed devices.
    #[tactic(auto, using(crate::proofs::ChoreFacts::new_marks))]
    pub(crate) fn new(alloc: Global, count: u32) -> Result<Devices, AllocError>
        requires { count ≤ 64 }
        ensures { IfOk result (λ devices. devices.all.items
            ≡ replicate count (in_stage Closed false)) }
    {
        Ok(Devices {
            all: vec![in alloc; DriverDevice::NEW; count as usize]?,
            chores: 0,
        })
    }

    // Returns the device with this number.
    #[inline(always)]
    pub(crate) fn get(&self, device: u32) -> DriverDevice
        requires { device < length self.now.all.items }
        ensures { result ≡ device_at self.now.all.items device }
    {
        self.all[device as usize]
    }

    // Replaces the device with this number.
    #[tactic(auto, using(crate::proofs::ChoreFacts::put_marks))]
    #[inline(always)]
    pub(crate) fn put(&mut self, device: u32, to: DriverDevice)
        requires { device < length self.old.all.items }
        ensures { self.new.all.items ≡ slice_set self.old.all.items device to }
    {
        self.all[device as usize] = to;
        self.chores = with_bit(self.chores, device, to.chore().is_some());
    }

    // Returns the number of the device whose card has to be masked for a poll, and the device, if that is all that has to be done.
    #[tactic(auto, using(crate::proofs::ChoreFacts::first_only, crate::proofs::ChoreFacts::no_only, crate::proofs::ChoreFacts::only_chore))]
    #[inline(always)]
    pub(crate) fn only_mask(&self) -> Option<(u32, DriverDevice)>
        ensures found { IfSome result (λ found. OnlyMask found.0 self.now.all.items) }
        ensures at { IfSome result (λ found. found.1 ≡ device_at self.now.all.items found.0) }
        ensures none { IfNone result ((id : ℕ) → ¬ OnlyMask id self.now.all.items) }
    {
        let Some((device, _chore)) = self.first_chore() else {
            return None;
        };
        let others = clear_bit(self.chores, device);
        if others != 0 {
            return None;
        }
        let found = self.get(device);
        if !found.masks_for_poll() {
            return None;
        }
        Some((device, found))
    }

    // Returns the first device whose card needs an action, and the action.
    #[tactic(auto, using(crate::proofs::ChoreFacts::first_in, crate::proofs::ChoreFacts::none_in))]
    #[inline(always)]
    pub(crate) fn first_chore(&self) -> Option<(u32, Chore)>
        ensures none { IfNone result
            (All (λ device. chore_at device.stage ≡ None) self.now.all.items) }
        ensures range { IfSome result (λ found. found.0 < length self.now.all.items) }
        ensures found { IfSome result
            (λ found. chore_at (device_at self.now.all.items found.0).stage ≡ Some found.1) }
    {
        if self.chores == 0 {
            return None;
        }
        let device = self.chores.trailing_zeros();
        match self.all[device as usize].chore() {
            Some(chore) => Some((device, chore)),
            None => unreachable!(),
        }
    }
}
