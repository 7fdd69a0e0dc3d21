//! A command in the device.

ghost use Rattle.std.specs.Prelude.{◌≡◌, ◌+◌, ◌==◌, ◌<◌, ◌≤◌, ◌^◌, ◌↔◌, [], Some, true, drop, IfOk, IsTrue};
ghost use Rattle.nv_entry.specs.Opcode.{io_opcode};
ghost use Rattle.nv_entry.specs.Submission.{opcode_of, prp1_of, prp2_of, slba_of};
ghost use Rattle.nv_model.specs.Judge.{count_of, deallocates, is_fua};
ghost use Rattle.nv_model.specs.Memory.{byte_in};
ghost use Rattle.nv_world_model.specs.Device.{held_of, held_status, host_pieces, unit_count, unit_gone};
ghost use Rattle.nv_device.specs.Pages.{ArePaged, host_reading, spells};
ghost use Rattle.nv_mem.specs.Places.{places_of as named};
ghost use Rattle.nv_disk.specs.Buffer.{AreBelow};
ghost use Rattle.nv_device.specs.Physical.{len_of, names_blocks};
ghost use Rattle.nv_device.specs.Units.{IsLowest};
ghost use Rattle.std.specs.List.{list_any};

use crate::paged;
use crate::pages::read_pages;
use crate::spelling::spells;
use crate::units::Units;
use nv_disk::Buffer;
use nv_entry::{IoOpcode, Sqe, Status, StatusCode};
use nv_mem::{Host, NoMemory, Places};
use std::alloc::Global;
use std::marker::Model;

/// A command in the device: its entry, where its bytes lie in the host, its units that have not moved, and whether a
/// Compare has differed.
#[derive(Debug, Drop)]
pub(crate) struct Command {
    sqe: Sqe,
    places: Places,
    left: Units,
    differed: bool,
}

impl Model for Command {
    ghost use Rattle.nv_device.specs.Pages.{ArePaged};
    ghost use Rattle.nv_world_model.specs.Device.{Held};

    ghost Value = { Held };

    ghost view = { λ c. record { entry = c.sqe; pieces = c.places; left = c.left; differed = c.differed } };

    ghost invariant = { λ c. ArePaged c.places };
}

impl Command {
    /// The command of an entry, of which no unit has moved. The bytes that it names are found in the host.
    pub(crate) fn new(alloc: Global, sqe: Sqe, host: &Host) -> Result<Self, NoMemory>
        requires { 0 < len_of (io_opcode (opcode_of sqe)) sqe →
            spells (host_reading host.now (prp1_of sqe) (prp2_of sqe) (len_of (io_opcode (opcode_of sqe)) sqe)) ≡ true }
        ensures { IfOk result (λ command. command ≡ held_of sqe (byte_in host.now)) }
    {
        let left = Units::new(alloc, unit_count(&sqe))?;
        let places = places_of(alloc, &sqe, host)?;
        Ok(Command {
            sqe,
            places,
            left,
            differed: false,
        })
    }

    /// Its opcode, where it is one of the six.
    pub(crate) fn opcode(&self) -> Option<IoOpcode>
        ensures { result ≡ io_opcode (opcode_of self.now.entry) }
    {
        self.sqe.io_opcode()
    }

    /// Where its bytes lie in the host.
    pub(crate) fn places(&self) -> &Places
        ensures { result.now ≡ self.now.pieces }
    {
        &self.places
    }

    /// What is left of these places after the first `count`.
    pub(crate) fn buffer_behind(&self, count: u64) -> Buffer<'_>
        requires { AreBelow (2 ^ 64) (named self.now.pieces) }
        ensures { result ≡ drop count (named self.now.pieces) }
    {
        paged::buffer_behind(self.places.pieces(), count)
    }

    /// SLBA, the first of its blocks.
    pub(crate) fn slba(&self) -> u64
        ensures { result ≡ slba_of self.now.entry }
    {
        self.sqe.slba()
    }

    /// Whether its blocks are kept: FUA.
    pub(crate) fn fua(&self) -> bool
        ensures { result ≡ is_fua self.now.entry }
    {
        self.sqe.fua()
    }

    /// Whether a Dataset Management deallocates.
    pub(crate) fn deallocates(&self) -> bool
        ensures { result ≡ deallocates self.now.entry }
    {
        self.sqe.deallocate()
    }

    /// Whether it is a Dataset Management that deallocates.
    pub(crate) fn deallocates_ranges(&self) -> bool
        ensures { IsTrue result
            ↔ ((io_opcode (opcode_of self.now.entry) ≡ Some IoOpcode.DatasetManagement) × (deallocates self.now.entry ≡ true)) }
    {
        match self.sqe.io_opcode() {
            Some(IoOpcode::DatasetManagement) => self.sqe.deallocate(),
            Some(IoOpcode::Read | IoOpcode::Write | IoOpcode::Compare) => false,
            Some(IoOpcode::WriteZeroes | IoOpcode::Flush) | None => false,
        }
    }

    /// Whether a Compare has differed so far.
    pub(crate) fn has_differed(&self) -> bool
        ensures { result ≡ self.now.differed }
    {
        self.differed
    }

    /// Whether that unit has not moved.
    pub(crate) fn has(&self, number: u64) -> bool
        ensures { result ≡ list_any (λ k. k == number) self.now.left }
    {
        self.left.contains(number)
    }

    /// The lowest unit that has not moved; `None` where all have.
    pub(crate) fn next_unit(&self) -> Option<u64>
        ensures { IsLowest (λ number. list_any (λ k. k == number) self.now.left) result }
    {
        self.left.first()
    }

    /// Whether all its units have moved.
    pub(crate) fn has_ended(&self) -> bool
        ensures { IsTrue result ↔ (self.now.left ≡ []) }
    {
        self.left.is_empty()
    }

    /// The status of a command that did not fail.
    pub(crate) fn status(&self) -> Status
        ensures { result ≡ held_status self.now }
    {
        if self.differed {
            StatusCode::CompareFailure.status()
        } else {
            StatusCode::Success.status()
        }
    }

    /// A unit has moved, and whether the command differed so far is as given.
    pub(crate) fn unit_done(&mut self, number: u64, differed: bool)
        requires { list_any (λ k. k == number) self.old.left ≡ true }
        ensures { self.new ≡ unit_gone number differed self.old }
    {
        self.left.remove(number);
        self.differed = differed;
    }
}

/// Where the bytes of a command lie in the host; one without a transfer names none.
fn places_of(alloc: Global, sqe: &Sqe, host: &Host) -> Result<Places, NoMemory>
    requires { 0 < len_of (io_opcode (opcode_of sqe.now)) sqe.now →
        spells (host_reading host.now (prp1_of sqe.now) (prp2_of sqe.now) (len_of (io_opcode (opcode_of sqe.now)) sqe.now)) ≡ true }
    ensures named { IfOk result (λ places. places ≡ host_pieces (io_opcode (opcode_of sqe.now)) sqe.now (byte_in host.now)) }
    ensures paged { IfOk result ArePaged }
{
    let len = transfer_len(sqe);
    if len == 0 {
        return Ok(Places::new(alloc));
    }
    read_pages(alloc, host, sqe.prp1(), sqe.prp2(), len)
}

/// How many bytes a command transfers.
fn transfer_len(sqe: &Sqe) -> u64
    ensures value { result ≡ len_of (io_opcode (opcode_of sqe.now)) sqe.now }
    ensures fits { result < 2 ^ 32 }
{
    match sqe.io_opcode() {
        Some(opcode) => u64::from(nv_judge::transfer_len(opcode, sqe)),
        None => 0,
    }
}

/// How many units a command has: one for each block, for each range, or for the whole.
fn unit_count(sqe: &Sqe) -> usize
    ensures { result ≡ unit_count (io_opcode (opcode_of sqe.now)) sqe.now }
{
    match sqe.io_opcode() {
        Some(IoOpcode::Read | IoOpcode::Write | IoOpcode::Compare | IoOpcode::WriteZeroes) =>
            usize::from(sqe.nlb()) + 1,
        Some(IoOpcode::DatasetManagement) => usize::from(sqe.nr()) + 1,
        Some(IoOpcode::Flush) => 1,
        None => 0,
    }
}

/// Whether the bytes that a command names lie in the host, and its list.
pub(crate) fn lies_in(sqe: &Sqe, host: &Host) -> bool
    ensures { IsTrue result ↔ (0 < len_of (io_opcode (opcode_of sqe.now)) sqe.now →
        spells (host_reading host.now (prp1_of sqe.now) (prp2_of sqe.now) (len_of (io_opcode (opcode_of sqe.now)) sqe.now)) ≡ true) }
{
    let len = transfer_len(sqe);
    len == 0 || spells(host, sqe.prp1(), sqe.prp2(), len)
}

/// Whether the blocks that a command names by SLBA and NLB are on a disk of so many.
pub(crate) fn is_on_disk(sqe: &Sqe, blocks: u64) -> bool
    ensures { IsTrue result ↔ (names_blocks (io_opcode (opcode_of sqe.now)) ≡ true → slba_of sqe.now + count_of sqe.now ≤ blocks) }
{
    match sqe.io_opcode() {
        Some(IoOpcode::Read | IoOpcode::Write | IoOpcode::Compare | IoOpcode::WriteZeroes) => {
            let count = u64::from(sqe.nlb()) + 1;
            count <= blocks && sqe.slba() <= blocks - count
        }
        Some(IoOpcode::DatasetManagement | IoOpcode::Flush) | None => true,
    }
}
