//! The bring-up of a guest: its admin queues, of 32 slots each at 10000h and 11000h, and its queue pair 1.

ghost use Rattle.std.specs.Prelude.{◌≡◌, ℕ, List, IfOk, Ok};
ghost use Rattle.nv_entry.specs.Layout.{bytes_of_dwords};

use crate::entry::bytes_of;
use nv_mem::{BoxedBytes, NoMemory};
use nv_model::Act;
use std::alloc::Global;

/// The guest addresses of the admin submission queue, of completion queue 1 and of submission queue 1.
pub const ADMIN_SUBMISSIONS: u64 = 0x1_0000;

pub const COMPLETIONS: u64 = 0x1_2000;

pub const SUBMISSIONS: u64 = 0x1_3000;

/// How many slots each queue of pair 1 has.
pub const SLOTS: u16 = 16;

/// The offsets of doorbells: the tails of the admin submission queue and of submission queue 1, and the head of completion queue 1.
pub const ADMIN_TAIL: u32 = 0x1000;

pub const TAIL: u32 = 0x1008;

pub const HEAD: u32 = 0x100c;

/// The offsets of CC and CSTS, and what CC is where the controller is enabled, and where it is not.
pub const CC: u32 = 0x14;

pub const CSTS: u32 = 0x1c;

pub const ENABLED: u32 = 0x0046_0001;

pub const DISABLED: u32 = 0x0046_0000;

/// The offsets of AQA, ASQ and ACQ.
const AQA: u32 = 0x24;

const ASQ: u32 = 0x28;

const ACQ: u32 = 0x30;

/// The admin command that makes completion queue 1, of 16 slots: CID 1.
pub const CREATE_COMPLETION_QUEUE: [u32; 16] = [
    0x0001_0005,
    0,
    0,
    0,
    0,
    0,
    0x1_2000,
    0,
    0,
    0,
    0x000f_0001,
    1,
    0,
    0,
    0,
    0,
];

/// The one that makes submission queue 1, of 16 slots, whose commands are completed in completion queue 1: CID 2.
pub const CREATE_SUBMISSION_QUEUE: [u32; 16] = [
    0x0002_0001,
    0,
    0,
    0,
    0,
    0,
    0x1_3000,
    0,
    0,
    0,
    0x000f_0001,
    0x0001_0001,
    0,
    0,
    0,
    0,
];

/// What a guest does.
#[derive(Clone, Copy)]
pub enum Deed {
    /// It stores the entry with these dwords, from that guest address on.
    Entry(u64, [u32; 16]),
    /// It writes the register at that offset: the value.
    Register(u32, u32),
    /// It rings the doorbell at that offset: the value.
    Doorbell(u32, u32),
}

/// What a guest does to get queue pair 1. After it two admin commands wait, and once these are answered the queues are made.
pub const BRING_UP: &[Deed] = &[
    Deed::Entry(ADMIN_SUBMISSIONS, CREATE_COMPLETION_QUEUE),
    Deed::Entry(ADMIN_SUBMISSIONS + 64, CREATE_SUBMISSION_QUEUE),
    Deed::Register(AQA, 0x001f_001f),
    Deed::Register(ASQ, 0x1_0000),
    Deed::Register(ACQ, 0x1_1000),
    Deed::Register(CC, ENABLED),
    Deed::Doorbell(ADMIN_TAIL, 2),
];

/// A deed as an act.
///
/// # Errors
///
/// There was no memory for the bytes of an entry.
pub fn act_of(alloc: Global, deed: &Deed) -> Result<Act, NoMemory>
    ensures entry { (addr : ℕ) (dwords : List ℕ) → deed.now ≡ Deed.Entry addr dwords → IfOk result (λ act. act ≡ Act.Store addr (bytes_of_dwords dwords)) }
    ensures register { (offset value : ℕ) → deed.now ≡ Deed.Register offset value → result ≡ Ok (Act.RegWrite offset value) }
    ensures doorbell { (offset value : ℕ) → deed.now ≡ Deed.Doorbell offset value → result ≡ Ok (Act.Doorbell offset value) }
{
    match *deed {
        Deed::Entry(addr, dwords) => {
            let bytes = BoxedBytes::from_slice(alloc, &bytes_of(&dwords))?;
            Ok(Act::Store { addr, bytes })
        }
        Deed::Register(offset, value) => Ok(Act::RegWrite { offset, value }),
        Deed::Doorbell(offset, value) => Ok(Act::Doorbell { offset, value }),
    }
}
