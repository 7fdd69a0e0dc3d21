//! The registers: reads and writes of dwords.

ghost use Rattle.std.specs.Prelude.{◌≡◌, ◌+◌, ◌*◌, ◌^◌, ◌==◌, ◌≤◌, is_some, true, false};
ghost use Rattle.nv_entry.specs.Layout.{bits};
ghost use Rattle.nv_mem.specs.GuestMap.{mapped};
ghost use Rattle.nv_model.specs.Controller.{admin_completion_base, admin_completion_size, admin_register_written};
ghost use Rattle.nv_model.specs.Controller.{admin_submission_base, admin_submission_size, base_fits, can_enable, cc_written};
ghost use Rattle.nv_model.specs.Controller.{enabled, is_enabled, reg_read, reg_write, register, reset, running, size_fits};
ghost use Rattle.nv_model.specs.Laws.{QueuesInPlace};
ghost use Rattle.nv_ring.specs.Ring.{FitsRing};
ghost use Rattle.nv_vctl.specs.Vctl.{or_unchanged, with_cc};

use crate::queues::{CompletionQueue, SubmissionQueue};
use crate::vctl::{Vctl, any_taken};
use nv_mem::{GuestMap, PAGE_SIZE};
use nv_model::limits::{CQE_SIZE, QUEUE_COUNT, SQE_SIZE};
use nv_ring::Ring;

/// CAP, the controller's capabilities: its two dwords.
const CAP_LOW: u32 = 0x00;

const CAP_HIGH: u32 = 0x04;

/// VS, the version.
const VS: u32 = 0x08;

/// CC, the controller's configuration.
const CC: u32 = 0x14;

/// CSTS, the controller's status.
const CSTS: u32 = 0x1c;

/// AQA, the admin queues' sizes.
const AQA: u32 = 0x24;

/// ASQ, the admin submission queue's base: its two dwords.
const ASQ_LOW: u32 = 0x28;

const ASQ_HIGH: u32 = 0x2c;

/// ACQ, the admin completion queue's base: its two dwords.
const ACQ_LOW: u32 = 0x30;

const ACQ_HIGH: u32 = 0x34;

/// CAP: 1,024 slots, contiguous queues required, timeout 1, stride 0, the NVM command set, pages of 4 KiB.
const CAPABILITIES: [u32; 2] = [0x0101_03ff, 0x0000_0020];

/// Version 2.0.
const VERSION: u32 = 0x0002_0000;

/// The bit of CSTS that is CFS; RDY is bit 0.
const CFS: u32 = 2;

impl Vctl {
    /// The dword of the registers at an offset; `None` exactly where the read is ignored, at an offset that is no multiple of 4.
    /// What is no register reads 0 (Base Specification 2.0, "Controller Properties").
    pub fn reg_read(&self, offset: u32) -> Option<u32>
        ensures { result ≡ reg_read self.now offset }
    {
        if offset % 4 == 0 {
            Some(self.register(offset))
        } else {
            None
        }
    }

    /// Writes the dword of the registers at an offset; false, with nothing changed, exactly where the write is ignored.
    ///
    /// A write of CC may enable the controller, which makes the admin queues in the guest's memory or sets CSTS.CFS, or reset
    /// it, which drops all queues (Base Specification 2.0, "Controller Initialization").
    #[tactic(auto, unfolding(nv_model::specs::Controller::reg_write))]
    pub fn reg_write(&mut self, offset: u32, value: u32, map: &GuestMap) -> bool
        ensures taken { result ≡ is_some (reg_write (mapped map.now.regions) self.old offset value) }
        ensures state { self.new ≡ or_unchanged self.old (reg_write (mapped map.now.regions) self.old offset value) }
        ensures in_place { let test = mapped map.now.regions in QueuesInPlace test self.old → QueuesInPlace test self.new }
    {
        if offset == CC {
            self.write_cc(value, map)
        } else {
            self.write_admin_register(offset, value)
        }
    }

    // The dword at an offset.
    #[tactic(auto, unfolding(nv_model::specs::Controller::register))]
    fn register(&self, offset: u32) -> u32
        ensures { result ≡ register self.now offset }
    {
        match offset {
            CAP_LOW => CAPABILITIES[0],
            CAP_HIGH => CAPABILITIES[1],
            VS => VERSION,
            CC => self.cc,
            CSTS => u32::from(self.ready) + CFS * u32::from(self.failed),
            AQA => self.aqa,
            ASQ_LOW => self.asq_low,
            ASQ_HIGH => self.asq_high,
            ACQ_LOW => self.acq_low,
            ACQ_HIGH => self.acq_high,
            _ => 0,
        }
    }

    // Writes CC: enables or resets the controller, where EN changes.
    fn write_cc(&mut self, value: u32, map: &GuestMap) -> bool
        ensures taken { result ≡ is_some (cc_written (is_enabled self.old) (bits value 0 0 == 1) (mapped map.now.regions) self.old value) }
        ensures state { self.new
            ≡ or_unchanged self.old (cc_written (is_enabled self.old) (bits value 0 0 == 1) (mapped map.now.regions) self.old value) }
    {
        match (self.is_enabled(), enables(value)) {
            (false, true) => {
                if self.is_running() {
                    return false;
                }
                self.enable(value, map);
            }
            (true, false) => self.reset(value),
            _ => self.cc = value,
        }
        true
    }

    // Writes a register of the admin queues, which is ignored while the controller is enabled.
    fn write_admin_register(&mut self, offset: u32, value: u32) -> bool
        ensures taken { result ≡ is_some (admin_register_written self.old offset value) }
        ensures state { self.new ≡ or_unchanged self.old (admin_register_written self.old offset value) }
    {
        if self.is_enabled() {
            return false;
        }
        match offset {
            AQA => self.aqa = value,
            ASQ_LOW => self.asq_low = value,
            ASQ_HIGH => self.asq_high = value,
            ACQ_LOW => self.acq_low = value,
            ACQ_HIGH => self.acq_high = value,
            _ => return false,
        }
        true
    }

    // EN goes from 0 to 1: the admin queues are made and RDY is set, or CFS is.
    fn enable(&mut self, value: u32, map: &GuestMap)
        requires disabled { is_enabled self.old ≡ false }
        requires enables { (bits value 0 0 == 1) ≡ true }
        requires idle { (running self.old == 0) ≡ true }
        ensures { self.new ≡ enabled (mapped map.now.regions) (with_cc value self.old) }
    {
        if self.can_enable(map) {
            let submission = SubmissionQueue::new(self.asq(), self.asqs(), 0);
            let completion = CompletionQueue::new(self.acq(), self.acqs(), Some(0));
            self.ready = true;
            self.submission[0] = Some(submission);
            self.completion[0] = Some(completion);
        } else {
            self.failed = true;
        }
        self.cc = value;
    }

    // EN goes from 1 to 0: all that was made by enabling is dropped, and RDY stays as long as a command is taken.
    fn reset(&mut self, value: u32)
        requires disables { (bits value 0 0 == 1) ≡ false }
        ensures { self.new ≡ reset (with_cc value self.old) }
    {
        let (submission, completion) = ([None; QUEUE_COUNT], [None; QUEUE_COUNT]);
        self.cc = value;
        self.ready = self.ready && any_taken(&self.taken);
        self.failed = false;
        self.submission = submission;
        self.completion = completion;
        self.held_requests = 0;
        self.deletion = None;
    }

    // Whether the admin queues that the registers name can be made: each has 2 to 1,024 slots, which lie from a page's start on
    // wholly in the guest's memory.
    fn can_enable(&self, map: &GuestMap) -> bool
        ensures value { result ≡ can_enable (mapped map.now.regions) self.now }
        ensures sizes { result ≡ true → FitsRing (admin_submission_size self.now) × FitsRing (admin_completion_size self.now) }
    {
        size_fits(self.asqs())
            && size_fits(self.acqs())
            && base_fits(map, self.asq(), SQE_SIZE * u64::from(self.asqs()))
            && base_fits(map, self.acq(), CQE_SIZE * u64::from(self.acqs()))
    }

    // AQA.ASQS, the admin submission queue's size.
    fn asqs(&self) -> u16
        ensures value { result ≡ admin_submission_size self.now }
        ensures fits { result ≤ 4096 }
    {
        admin_size(self.aqa)
    }

    // AQA.ACQS, the admin completion queue's size.
    fn acqs(&self) -> u16
        ensures value { result ≡ admin_completion_size self.now }
        ensures fits { result ≤ 4096 }
    {
        admin_size(self.aqa >> 16)
    }

    // ASQ, the admin submission queue's base.
    fn asq(&self) -> u64
        ensures { result ≡ admin_submission_base self.now }
    {
        address(self.asq_low, self.asq_high)
    }

    // ACQ, the admin completion queue's base.
    fn acq(&self) -> u64
        ensures { result ≡ admin_completion_base self.now }
    {
        address(self.acq_low, self.acq_high)
    }
}

/// Whether EN is set in a value of CC.
pub(crate) fn enables(value: u32) -> bool
    ensures { result ≡ (bits value 0 0 == 1) }
{
    value & 1 == 1
}

// The size of an admin queue, which is in the low 12 bits of AQA, or of AQA's upper half, counted from 0.
fn admin_size(sizes: u32) -> u16
    ensures value { result ≡ bits sizes 11 0 + 1 }
    ensures fits { result ≤ 4096 }
{
    (sizes & 0xfff) as u16 + 1
}

// The address in the two dwords of a register.
fn address(low: u32, high: u32) -> u64
    ensures { result ≡ low + 2 ^ 32 * high }
{
    u64::from(low) | (u64::from(high) << 32)
}

// Whether a queue may have so many slots.
fn size_fits(size: u16) -> bool
    ensures value { result ≡ size_fits size }
    ensures ring { result ≡ true → FitsRing size }
{
    Ring::fits(size)
}

// Whether a queue of so many bytes may lie there: from a page's start on, wholly in the guest's memory.
fn base_fits(map: &GuestMap, base: u64, len: u64) -> bool
    ensures { result ≡ base_fits (mapped map.now.regions) base len }
{
    base % PAGE_SIZE == 0 && map.holds(base, len)
}
