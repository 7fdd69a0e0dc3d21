//! Blocks that move between the disk and a buffer, and blocks that become zeros.

ghost use Rattle.std.specs.Prelude.{◌≡◌, ◌+◌, ◌*◌, ◌<◌, ◌≤◌, ℕ, Bool, List, ◌||◌, false, true, length, drop, take};
ghost use Rattle.std.specs.List.{range_with_len};
ghost use Rattle.nv_mem.specs.Places.{places_of};
ghost use Rattle.nv_mem.specs.declared.piece.Piece.{Piece};
ghost use Rattle.nv_model.specs.Judge.{KeepAll, MoveBlock, Work};
ghost use Rattle.nv_model.specs.Carried.{block_work, moved_on, units_moved};
ghost use Rattle.nv_model.specs.Carrying.{cleared, cleared_one, units_from};
ghost use Rattle.nv_model.specs.Limits.{block as block_size};
ghost use Rattle.nv_model.specs.Memory.{byte_in, gathered, scattered};
ghost use Rattle.nv_model.specs.Private.{differs, marked};
ghost use Rattle.nv_disk.specs.Buffer.{AreBelow};
ghost use Rattle.nv_disk.specs.Flat.{flat, joined, moved_of};
ghost use Rattle.nv_disk.specs.Marks.{mark_of, raised};

use crate::blocks::Blocks;
use crate::buffer::Buffer;
use crate::marks::Marks;
use nv_entry::IoOpcode;
use nv_mem::Host;

/// Moves the `count` blocks from `start` on to the buffer, all at once. A set FUA bit makes them kept.
pub fn read_blocks(
    memory: &mut Host,
    disk: &Blocks,
    kept: &mut Marks,
    buffer: &mut Buffer,
    start: u64,
    count: u64,
    fua: bool,
)
    requires in_memory { AreBelow (length memory.old) buffer.old }
    requires enough { block_size * count ≤ length buffer.old }
    requires blocks { start + count ≤ length disk.now }
    requires marks { length kept.old ≡ length disk.now }
    ensures moved { (pieces : List Piece) → buffer.old ≡ places_of pieces →
        moved_of (flat memory.new disk.now kept.new) false
        ≡ units_moved (units_from 0 start count) (block_work IoOpcode.Read pieces fua) (moved_of (flat memory.old disk.now kept.old) false) }
    ensures size { length memory.new ≡ length memory.old }
    ensures marks_size { length kept.new ≡ length kept.old }
{
    // With the number of blocks comes that each has 512 bytes.
    let _known = disk.len();
    put_blocks(memory, disk, buffer, start as usize, count as usize);
    if fua {
        raise_marks(kept, start, count);
    }
}

// Gives the bytes of the `count` blocks from `start` on to the buffer, those that lie in a row at once.
fn put_blocks(memory: &mut Host, disk: &Blocks, buffer: &mut Buffer, start: usize, count: usize)
    requires in_memory { AreBelow (length memory.old) buffer.old }
    requires enough { block_size * count ≤ length buffer.old }
    requires blocks { start + count ≤ length disk.now }
    ensures memory { byte_in memory.new ≡ scattered (byte_in memory.old) buffer.old (joined (take count (drop start disk.now))) }
    ensures size { length memory.new ≡ length memory.old }
{
    // With the number of blocks comes that each has 512 bytes.
    let _known = disk.len();
    let mut at = start;
    let mut left = count;
    while left > 0 {
        let row = disk.row(at, left);
        buffer.put(memory, row.as_flattened());
        at += row.len();
        left -= row.len();
    }
}

/// Moves a block to the next places of the buffer. A set FUA bit makes it kept.
#[inline(always)]
pub fn read_block(
    memory: &mut Host,
    disk: &Blocks,
    kept: &mut Marks,
    buffer: &mut Buffer,
    lba: u64,
    fua: bool,
)
    requires in_memory { AreBelow (length memory.old) buffer.old }
    requires block { lba < length disk.now }
    requires marks { length kept.old ≡ length disk.now }
    ensures moved { (index : ℕ) (pieces : List Piece) (differed : Bool) → buffer.old ≡ drop (block_size * index) (places_of pieces) →
        moved_of (flat memory.new disk.now kept.new) differed
        ≡ moved_on (MoveBlock index lba) (block_work IoOpcode.Read pieces fua) (moved_of (flat memory.old disk.now kept.old) differed) }
    ensures size { length memory.new ≡ length memory.old }
    ensures marks_size { length kept.new ≡ length kept.old }
{
    buffer.put(memory, disk.block(lba as usize));
    raise_mark(kept, lba, fua);
}

// Makes a block kept where the FUA bit is set.
#[inline(always)]
fn raise_mark(kept: &mut Marks, lba: u64, fua: bool)
    requires { lba < length kept.old }
    ensures marks { mark_of kept.new ≡ marked (mark_of kept.old) lba (mark_of kept.old lba || fua) }
    ensures marks_size { length kept.new ≡ length kept.old }
{
    if fua {
        kept.set(lba as usize, true);
    }
}

// Makes the `count` blocks from `start` on kept.
fn raise_marks(kept: &mut Marks, start: u64, count: u64)
    requires { start + count ≤ length kept.old }
    ensures marks { mark_of kept.new ≡ raised true start count (mark_of kept.old) }
    ensures marks_size { length kept.new ≡ length kept.old }
{
    kept.set_range(start as usize, count as usize, true);
}

/// Moves a block from the next places of the buffer. It is kept where the FUA bit is set.
#[inline(always)]
pub fn write_block(
    memory: &Host,
    disk: &mut Blocks,
    kept: &mut Marks,
    buffer: &mut Buffer,
    lba: u64,
    fua: bool,
)
    requires in_memory { AreBelow (length memory.now) buffer.old }
    requires enough { block_size ≤ length buffer.old }
    requires block { lba < length disk.old }
    requires marks { length kept.old ≡ length disk.old }
    ensures moved { (index : ℕ) (pieces : List Piece) (differed : Bool) → buffer.old ≡ drop (block_size * index) (places_of pieces) →
        moved_of (flat memory.now disk.new kept.new) differed
        ≡ moved_on (MoveBlock index lba) (block_work IoOpcode.Write pieces fua) (moved_of (flat memory.now disk.old kept.old) differed) }
    ensures rest { buffer.new ≡ drop block_size buffer.old }
    ensures disk_size { length disk.new ≡ length disk.old }
    ensures marks_size { length kept.new ≡ length kept.old }
{
    disk.fetch(lba as usize, memory, buffer);
    kept.set(lba as usize, fua);
}

/// Compares a block with the bytes of the next places of the buffer, where both lie. A set FUA bit makes it kept. It
/// says whether they differ.
#[inline(always)]
pub fn compare_block(
    memory: &Host,
    disk: &Blocks,
    kept: &mut Marks,
    buffer: &mut Buffer,
    lba: u64,
    fua: bool,
) -> bool
    requires in_memory { AreBelow (length memory.now) buffer.old }
    requires enough { block_size ≤ length buffer.old }
    requires block { lba < length disk.now }
    requires marks { length kept.old ≡ length disk.now }
    ensures moved { (index : ℕ) (pieces : List Piece) (differed : Bool) → buffer.old ≡ drop (block_size * index) (places_of pieces) →
        moved_of (flat memory.now disk.now kept.new) (differed || result)
        ≡ moved_on (MoveBlock index lba) (block_work IoOpcode.Compare pieces fua) (moved_of (flat memory.now disk.now kept.old) differed) }
    ensures marks_size { length kept.new ≡ length kept.old }
{
    let differs = buffer.differs(memory, disk.block(lba as usize));
    raise_mark(kept, lba, fua);
    differs
}

/// Compares the `count` blocks from `start` on with the bytes of the buffer, all at once. A set FUA bit makes them kept. It says whether
/// they differ.
pub fn compare_blocks(
    memory: &Host,
    disk: &Blocks,
    kept: &mut Marks,
    buffer: &mut Buffer,
    start: u64,
    count: u64,
    fua: bool,
) -> bool
    requires in_memory { AreBelow (length memory.now) buffer.old }
    requires enough { block_size * count ≤ length buffer.old }
    requires blocks { start + count ≤ length disk.now }
    requires marks { length kept.old ≡ length disk.now }
    ensures moved { (pieces : List Piece) → buffer.old ≡ places_of pieces →
        moved_of (flat memory.now disk.now kept.new) result
        ≡ units_moved (units_from 0 start count) (block_work IoOpcode.Compare pieces fua) (moved_of (flat memory.now disk.now kept.old) false) }
    ensures marks_size { length kept.new ≡ length kept.old }
{
    // With the number of blocks comes that each has 512 bytes.
    let _known = disk.len();
    let differs = blocks_differ(memory, disk, buffer, start as usize, count as usize);
    if fua {
        raise_marks(kept, start, count);
    }
    differs
}

// Whether the bytes of the `count` blocks from `start` on differ from those of the buffer. Blocks that are stored in a row are compared at once,
// and none after a row that differs.
fn blocks_differ(
    memory: &Host,
    disk: &Blocks,
    buffer: &mut Buffer,
    start: usize,
    count: usize,
) -> bool
    requires in_memory { AreBelow (length memory.now) buffer.old }
    requires enough { block_size * count ≤ length buffer.old }
    requires blocks { start + count ≤ length disk.now }
    ensures { result ≡ differs (gathered (byte_in memory.now) (take (block_size * count) buffer.old)) (joined (take count (drop start disk.now))) }
{
    // With the number of blocks comes that each has 512 bytes.
    let _known = disk.len();
    let mut at = start;
    let mut left = count;
    while left > 0 {
        let row = disk.row(at, left);
        let unlike = buffer.differs(memory, row.as_flattened());
        if unlike {
            return true;
        }
        at += row.len();
        left -= row.len();
    }
    false
}

/// Makes the `count` blocks from `start` on zeros, and gives their marks this value.
pub fn clear_blocks(disk: &mut Blocks, kept: &mut Marks, start: u64, count: u64, mark: bool)
    requires blocks { start + count ≤ length disk.old }
    requires marks { length kept.old ≡ length disk.old }
    ensures moved { (memory : List ℕ) (differed : Bool) → moved_of (flat memory disk.new kept.new) differed
        ≡ cleared (range_with_len start count) mark (moved_of (flat memory disk.old kept.old) differed) }
    ensures disk_size { length disk.new ≡ length disk.old }
    ensures marks_size { length kept.new ≡ length kept.old }
{
    disk.clear_range(start as usize, count as usize);
    kept.set_range(start as usize, count as usize, mark);
}

/// Makes a block zeros, and gives its mark this value.
pub fn clear_block(disk: &mut Blocks, kept: &mut Marks, lba: u64, mark: bool)
    requires block { lba < length disk.old }
    requires marks { length kept.old ≡ length disk.old }
    ensures moved { (memory : List ℕ) (differed : Bool) → moved_of (flat memory disk.new kept.new) differed
        ≡ cleared_one lba mark (moved_of (flat memory disk.old kept.old) differed) }
    ensures disk_size { length disk.new ≡ length disk.old }
    ensures marks_size { length kept.new ≡ length kept.old }
{
    disk.clear(lba as usize);
    kept.set(lba as usize, mark);
}

/// Makes every block kept.
pub fn keep_all(kept: &mut Marks)
    ensures moved { (work : Work) (memory : List ℕ) (disk : List (List ℕ)) (differed : Bool) → length kept.old ≡ length disk →
        moved_of (flat memory disk kept.new) differed ≡ moved_on (KeepAll (length disk)) work (moved_of (flat memory disk kept.old) differed) }
    ensures size { length kept.new ≡ length kept.old }
{
    kept.set_all();
}
