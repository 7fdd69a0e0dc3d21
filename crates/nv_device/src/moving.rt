//! Units of commands in the device.

ghost use Rattle.std.specs.Prelude.{◌≡◌, ◌+◌, ◌*◌, ◌==◌, ◌^◌, ◌<◌, ◌≤◌, ◌↔◌, IsTrue, ℕ, Bool, true, false, List, IfSome, Some, drop, length};
ghost use Rattle.nv_entry.specs.Opcode.{io_opcode};
ghost use Rattle.nv_entry.specs.Submission.{opcode_of, slba_of};
ghost use Rattle.nv_mem.specs.Places.{places_of};
ghost use Rattle.nv_disk.specs.Buffer.{AreBelow};
ghost use Rattle.nv_model.specs.Limits.{block, range_size};
ghost use Rattle.nv_model.specs.Memory.{byte_in};
ghost use Rattle.nv_disk.specs.Flat.{flat, moved_of};
ghost use Rattle.nv_model.specs.Carrying.{cleared};
ghost use Rattle.nv_entry.specs.Range.{blocks_of, start_of};
ghost use Rattle.std.specs.List.{list_all, list_any, range_with_len};
ghost use Rattle.nv_world_model.specs.Device.{range_at};
ghost use Rattle.nv_world_model.specs.Area.{tag_count};
ghost use Rattle.nv_device.specs.Moving.{IsMovable, IsMoved, IsRangeOnDisk, IsReady, MayMove, moves_blocks, unit_of};
ghost use Rattle.nv_device.specs.Physical.{IsHeld, done_where, has_left, held_at};
ghost use Rattle.nv_device.specs.Units.{IsLowest};
ghost use Rattle.nv_device.specs.Pages.{piece_in};

use crate::command::Command;
use crate::device::Device;
use crate::response::Response;
use nv_disk::{Blocks, Buffer, Marks};
use nv_entry::{IoOpcode, Range};
use nv_mem::{Host, Piece};
use nv_model::limits::{BLOCK_SIZE, RANGE_SIZE};

impl Device {
    /// Whether that unit of the command at a slot may move, if it is left: the bytes that the command names lie in the host,
    /// and where it deallocates, the blocks of the unit's range are on the disk. It is what [`Device::move_unit`] requires.
    pub fn may_move(&self, lane: u8, slot: u8, number: u64, host: &Host) -> bool
        requires lane { lane < length self.now.lanes }
        requires slot { slot < tag_count }
        ensures { IsTrue result ↔ MayMove lane slot number host.now self.now }
    {
        let ring = &self.lanes[usize::from(lane)];
        let Some(command) = ring.command(slot) else {
            return true;
        };
        !command.has(number) || is_movable(command, number, host, self.blocks())
    }

    /// Moves a unit of the command at a slot, by its number, in any order. Idle where no command is there, or one that has no
    /// such unit or has moved it.
    pub fn move_unit(&mut self, lane: u8, slot: u8, number: u64, host: &mut Host) -> Response
        requires lane { lane < length self.old.lanes }
        requires slot { slot < tag_count }
        requires may { MayMove lane slot number host.old self.old }
        ensures response { result ≡ done_where (has_left number (held_at self.old lane slot)) }
        ensures done { result ≡ Response.Done →
            IfSome (held_at self.old lane slot) (λ h. IsMoved lane slot number h host.old self.old host.new self.new) }
        ensures idle { result ≡ Response.Idle → (self.new ≡ self.old) × (host.new ≡ host.old) }
        ensures host_size { length host.new ≡ length host.old }
        ensures disk_size { length self.new.disk ≡ length self.old.disk }
    {
        let ring = &self.lanes[usize::from(lane)];
        let Some(command) = ring.command(slot) else {
            return Response::Idle;
        };
        if !command.has(number) {
            return Response::Idle;
        }
        let differed = move_one(command, number, host, &mut self.disk, &mut self.kept);
        self.lanes[usize::from(lane)].unit_done(slot, number, differed);
        Response::Done
    }

    /// The lowest unit that is left of the command at a slot; `None` where no command is there, or one that has no unit left. It scans the units
    /// that have moved.
    pub fn next_unit(&self, lane: u8, slot: u8) -> Option<u64>
        requires lane { lane < length self.now.lanes }
        requires slot { slot < tag_count }
        ensures { IsLowest (λ number. has_left number (held_at self.now lane slot)) result }
    {
        let ring = &self.lanes[usize::from(lane)];
        ring.command(slot)?.next_unit()
    }

    /// Whether the device holds a command at a slot that has that unit left.
    pub fn has_left(&self, lane: u8, slot: u8, number: u64) -> bool
        requires lane { lane < length self.now.lanes }
        requires slot { slot < tag_count }
        ensures { result ≡ has_left number (held_at self.now lane slot) }
    {
        let ring = &self.lanes[usize::from(lane)];
        match ring.command(slot) {
            Some(command) => command.has(number),
            None => false,
        }
    }
}

/// Moves a unit of a command, and says whether the command has differed.
fn move_one(
    command: &Command,
    number: u64,
    host: &mut Host,
    disk: &mut Blocks,
    kept: &mut Marks,
) -> bool
    requires ready { IsReady (length disk.old) host.old number command.now }
    requires marks { length kept.old ≡ length disk.old }
    ensures moved { moved_of (flat host.new disk.new kept.new) result ≡ unit_of number command.now host.old disk.old kept.old }
    ensures size { length host.new ≡ length host.old }
    ensures disk_size { length disk.new ≡ length disk.old }
    ensures marks_size { length kept.new ≡ length kept.old }
{
    match command.opcode() {
        Some(IoOpcode::Read) => read_unit(command, number, host, disk, kept),
        Some(IoOpcode::Write) => write_unit(command, number, host, disk, kept),
        Some(IoOpcode::Compare) => compare_unit(command, number, host, disk, kept),
        Some(IoOpcode::WriteZeroes) => clear_unit(command, number, disk, kept),
        Some(IoOpcode::DatasetManagement) => manage_unit(command, number, host, disk, kept),
        Some(IoOpcode::Flush) => keep_unit(command, kept),
        None => command.has_differed(),
    }
}

/// A block of a Read: it goes to the buffer.
fn read_unit(
    command: &Command,
    number: u64,
    host: &mut Host,
    disk: &Blocks,
    kept: &mut Marks,
) -> bool
    requires ready { IsReady (length disk.now) host.old number command.now }
    requires opcode { io_opcode (opcode_of command.now.entry) ≡ Some IoOpcode.Read }
    requires marks { length kept.old ≡ length disk.now }
    ensures moved { moved_of (flat host.new disk.now kept.new) result ≡ unit_of number command.now host.old disk.now kept.old }
    ensures size { length host.new ≡ length host.old }
    ensures marks_size { length kept.new ≡ length kept.old }
{
    let (lba, mut buffer) = block_of(command, number, host, disk);
    nv_disk::read_block(host, disk, kept, &mut buffer, lba, command.fua());
    command.has_differed()
}

/// A block of a Write: it comes from the buffer.
fn write_unit(
    command: &Command,
    number: u64,
    host: &Host,
    disk: &mut Blocks,
    kept: &mut Marks,
) -> bool
    requires ready { IsReady (length disk.old) host.now number command.now }
    requires opcode { io_opcode (opcode_of command.now.entry) ≡ Some IoOpcode.Write }
    requires marks { length kept.old ≡ length disk.old }
    ensures moved { moved_of (flat host.now disk.new kept.new) result ≡ unit_of number command.now host.now disk.old kept.old }
    ensures disk_size { length disk.new ≡ length disk.old }
    ensures marks_size { length kept.new ≡ length kept.old }
{
    let (lba, mut buffer) = block_of(command, number, host, disk);
    nv_disk::write_block(host, disk, kept, &mut buffer, lba, command.fua());
    command.has_differed()
}

/// A block of a Compare: the command differs where it has differed, or this block does.
fn compare_unit(
    command: &Command,
    number: u64,
    host: &Host,
    disk: &Blocks,
    kept: &mut Marks,
) -> bool
    requires ready { IsReady (length disk.now) host.now number command.now }
    requires opcode { io_opcode (opcode_of command.now.entry) ≡ Some IoOpcode.Compare }
    requires marks { length kept.old ≡ length disk.now }
    ensures moved { moved_of (flat host.now disk.now kept.new) result ≡ unit_of number command.now host.now disk.now kept.old }
    ensures marks_size { length kept.new ≡ length kept.old }
{
    let (lba, mut buffer) = block_of(command, number, host, disk);
    let differs = nv_disk::compare_block(host, disk, kept, &mut buffer, lba, command.fua());
    command.has_differed() || differs
}

/// A block of a Write Zeroes: it becomes zeros.
fn clear_unit(command: &Command, number: u64, disk: &mut Blocks, kept: &mut Marks) -> bool
    requires ready { (host : List ℕ) × IsReady (length disk.old) host number command.now }
    requires opcode { io_opcode (opcode_of command.now.entry) ≡ Some IoOpcode.WriteZeroes }
    requires marks { length kept.old ≡ length disk.old }
    ensures moved { (host : List ℕ) → moved_of (flat host disk.new kept.new) result ≡ unit_of number command.now host disk.old kept.old }
    ensures disk_size { length disk.new ≡ length disk.old }
    ensures marks_size { length kept.new ≡ length kept.old }
{
    let _known = disk.len();
    nv_disk::clear_block(disk, kept, command.slba() + number, command.fua());
    command.has_differed()
}

/// A range of a Dataset Management: where the command deallocates, its blocks become zeros that are not kept. Where a range that has no blocks
/// begins is not checked.
fn manage_unit(
    command: &Command,
    number: u64,
    host: &Host,
    disk: &mut Blocks,
    kept: &mut Marks,
) -> bool
    requires ready { IsReady (length disk.old) host.now number command.now }
    requires opcode { io_opcode (opcode_of command.now.entry) ≡ Some IoOpcode.DatasetManagement }
    requires marks { length kept.old ≡ length disk.old }
    ensures moved { moved_of (flat host.now disk.new kept.new) result ≡ unit_of number command.now host.now disk.old kept.old }
    ensures disk_size { length disk.new ≡ length disk.old }
    ensures marks_size { length kept.new ≡ length kept.old }
{
    if !command.deallocates() {
        return command.has_differed();
    }
    clear_range(range_of(command, number, host), disk, kept);
    command.has_differed()
}

/// A range of a Dataset Management, by its number, as it is in the host now.
fn range_of(command: &Command, number: u64, host: &Host) -> Range
    requires bytes { AreBelow (length host.now) (places_of command.now.pieces) }
    requires number { number < 2 ^ 8 }
    requires enough { range_size * number + range_size ≤ length (places_of command.now.pieces) }
    ensures { result ≡ range_at number command.now.pieces (byte_in host.now) }
{
    // The end of the host fits in 64 bits, and so do its addresses.
    let _known = host.len();
    let mut buffer = command.buffer_behind(RANGE_SIZE as u64 * number);
    let mut bytes = [0; RANGE_SIZE];
    buffer.fetch(host, &mut bytes);
    Range::of(&bytes)
}

/// Whether a unit that is left may move, on a disk of so many blocks.
fn is_movable(command: &Command, number: u64, host: &Host, blocks: u64) -> bool
    requires left { list_any (λ k. k == number) command.now.left ≡ true }
    requires held { IsHeld blocks command.now }
    ensures { IsTrue result ↔ IsMovable blocks host.now number command.now }
{
    if !pieces_lie_in(command.places().pieces(), host) {
        return false;
    }
    if !command.deallocates_ranges() {
        return true;
    }
    is_range_on_disk(range_of(command, number, host), blocks)
}

/// Whether a range that has blocks has them on a disk of so many.
fn is_range_on_disk(range: Range, blocks: u64) -> bool
    ensures { IsTrue result ↔ IsRangeOnDisk blocks range }
{
    let count = u64::from(range.blocks());
    count == 0 || (count <= blocks && range.start() <= blocks - count)
}

/// Whether the bytes of these pieces lie in the host.
fn pieces_lie_in(pieces: &[Piece], host: &Host) -> bool
    ensures { result ≡ list_all (piece_in (length host.now)) pieces.now }
{
    pieces.iter().all(|piece| piece_lies_in(piece, host))
}

/// Whether the bytes of a piece lie in the host; those of a bucket lie nowhere.
fn piece_lies_in(piece: &Piece, host: &Host) -> bool
    ensures { result ≡ piece_in (length host.now) piece.now }
{
    match *piece {
        Piece::Run { addr, len } => host.holds(addr, len),
        Piece::Bucket { .. } => true,
    }
}

/// Makes the blocks of a range zeros that are not kept.
fn clear_range(range: Range, disk: &mut Blocks, kept: &mut Marks)
    requires blocks { IsRangeOnDisk (length disk.old) range }
    requires marks { length kept.old ≡ length disk.old }
    ensures moved { (memory : List ℕ) (differed : Bool) → moved_of (flat memory disk.new kept.new) differed
        ≡ cleared (range_with_len (start_of range) (blocks_of range)) false (moved_of (flat memory disk.old kept.old) differed) }
    ensures disk_size { length disk.new ≡ length disk.old }
    ensures marks_size { length kept.new ≡ length kept.old }
{
    let count = u64::from(range.blocks());
    if count > 0 {
        nv_disk::clear_blocks(disk, kept, range.start(), count, false);
    }
}

/// A Flush: every block becomes kept.
fn keep_unit(command: &Command, kept: &mut Marks) -> bool
    requires opcode { io_opcode (opcode_of command.now.entry) ≡ Some IoOpcode.Flush }
    ensures moved { (number : ℕ) (host : List ℕ) (disk : List (List ℕ)) → length kept.old ≡ length disk →
        moved_of (flat host disk kept.new) result ≡ unit_of number command.now host disk kept.old }
    ensures marks_size { length kept.new ≡ length kept.old }
{
    nv_disk::keep_all(kept);
    command.has_differed()
}

/// Where a block of a command is: its LBA, and its places in the host with those after it.
fn block_of<'a>(command: &'a Command, number: u64, host: &Host, disk: &Blocks) -> (u64, Buffer<'a>)
    requires ready { IsReady (length disk.now) host.now number command.now }
    requires transfer { moves_blocks (io_opcode (opcode_of command.now.entry)) ≡ true }
    ensures lba { result.0 ≡ slba_of command.now.entry + number }
    ensures there { result.0 < length disk.now }
    ensures places { result.1 ≡ drop (block * number) (places_of command.now.pieces) }
    ensures below { AreBelow (length host.now) result.1 }
    ensures enough { block ≤ length result.1 }
{
    // Numbers of blocks and host addresses fit in 64 bits.
    let (_blocks, _size) = (disk.len(), host.len());
    let buffer = command.buffer_behind(BLOCK_SIZE as u64 * number);
    (command.slba() + number, buffer)
}
