//! Blocks that are zero until they are written.

ghost use Rattle.std.specs.Prelude.{◌≡◌, true, ◌+◌, ◌++◌, ◌*◌, ◌/◌, ◌<◌, ◌≤◌, ◌^◌, ℕ};
ghost use Rattle.std.specs.Prelude.{All, List, [], length, replicate, slice_index, slice_set, take, drop, IfOk, vec_capacity};
ghost use Rattle.std.specs.List.{slice_index_or};
ghost use Rattle.nv_model.specs.Limits.{block as block_size};
ghost use Rattle.nv_model.specs.Memory.{byte_in, gathered};
ghost use Rattle.nv_disk.specs.Buffer.{AreBelow};
ghost use Rattle.nv_disk.specs.Stored.{IsStored, blocks_of, is_blank, places_of};

use crate::buffer::Buffer;
use nv_mem::{Host, NoMemory};
use nv_model::limits::BLOCK_SIZE;
use std::alloc::Global;
use std::fmt::{self, Debug, Formatter};
use std::marker::Model;

/// How many blocks a page of 4 KiB has.
const PAGE_BLOCKS: usize = 8;

/// How many blocks get their places together on a disk that is small: those of 32 KiB.
const SMALL_GROUP_BLOCKS: usize = 64;

/// The most blocks of a disk that is small: 128 MiB of them.
const SMALL_BLOCKS: usize = 1 << 18;

/// How many blocks that hold zeros are given as one row at most.
const ZERO_ROW_BLOCKS: usize = 64;

/// The bytes of a block that was never written.
static ZEROS: [u8; BLOCK_SIZE] = [0; BLOCK_SIZE];

/// The bytes of blocks that were never written.
static ZERO_ROW: [[u8; BLOCK_SIZE]; ZERO_ROW_BLOCKS] = [[0; BLOCK_SIZE]; ZERO_ROW_BLOCKS];

/// Blocks that are zero until they are written, from 0 on. Their number stays as it was made.
///
/// A contract sees the list of the blocks. There is room for all of them from the start, so no write wants memory, and what is stored are groups of
/// 64 blocks of which one was written (of eight, on a disk of more than 128 MiB), in the order in which they were first: the system gives pages to
/// these alone, and blocks that are next to each other lie so, in whatever order they are written. A block that is cleared is noted as zeros, and its
/// bytes are left alone until it is written again, in the same place; where a few are cleared at once, zeros are written, so that a group is no
/// patchwork to whoever reads it whole.
#[derive(Drop)]
pub struct Blocks {
    /// Of each block twice its place among those that are stored, from 1 on, and one more where it holds zeros; 0 where nothing of its group was written.
    entries: Vec<u32>,
    stored: Vec<[u8; BLOCK_SIZE]>,
}

impl Model for Blocks {
    ghost use Rattle.std.specs.Prelude.{List, ℕ};
    ghost use Rattle.nv_disk.specs.Stored.{IsStored, blocks_of, places_of};
    ghost use Rattle.std.specs.Vec.{vec_capacity};

    ghost Value = { List (List ℕ) };

    ghost view = { λ b. blocks_of b.stored.items b.entries.items };

    ghost invariant = { λ b. IsStored (vec_capacity b.stored) (places_of b.entries.items) b.stored.items };
}

// They are shown as the list that they are for a contract, wherever they are stored.
impl Debug for Blocks {
    fn fmt<W: fmt::Write>(&self, f: &mut Formatter<W>) -> fmt::Result {
        let mut blocks = f.debug_list();
        for block in 0..self.len() {
            blocks.entry(self.block(block));
        }
        blocks.finish()
    }
}

impl Blocks {
    /// So many blocks, all zero. It takes the room of all of them, and no time for their bytes.
    ///
    /// # Errors
    ///
    /// [`NoMemory`] where memory for the blocks is refused.
    pub fn new(alloc: Global, count: usize) -> Result<Self, NoMemory>
        requires { count < 2 ^ 31 }
        ensures { IfOk result (λ blocks. blocks ≡ replicate count (replicate block_size 0)) }
    {
        let stored = Vec::with_capacity(alloc, count)?;
        let entries = no_entries(alloc, count)?;
        Ok(Blocks { entries, stored })
    }

    /// How many blocks there are. Each has 512 bytes.
    pub fn len(&self) -> usize
        ensures value { result ≡ length self.now }
        ensures sized { All (λ block. length block ≡ block_size) self.now }
    {
        self.entries.len()
    }

    /// The bytes of a block.
    pub fn block(&self, block: usize) -> &[u8; BLOCK_SIZE]
        requires { block < length self.now }
        ensures value { (other : List ℕ) → result.now ≡ slice_index_or self.now block other }
        ensures sized { length result.now ≡ block_size }
    {
        let entry = self.entries[block] as usize;
        if is_blank(entry) {
            return &ZEROS;
        }
        &self.stored[entry / 2 - 1]
    }

    /// The front of the `most` blocks from `block` on that are stored in a row, one after the other: at least one.
    pub fn row(&self, block: usize, most: usize) -> &[[u8; BLOCK_SIZE]]
        requires some { 0 < most }
        requires within { block + most ≤ length self.now }
        ensures value { result.now ≡ take (length result.now) (drop block self.now) }
        ensures some { 0 < length result.now }
        ensures most { length result.now ≤ most }
    {
        let first = self.entries[block] as usize;
        if is_blank(first) {
            let most = most.min(ZERO_ROW_BLOCKS);
            return zero_row(count_blank(&self.entries, block, most));
        }
        let count = count_in_row(&self.entries, block, most, first);
        part(&self.stored, first / 2 - 1, count)
    }

    /// Puts other bytes into a block.
    pub fn set(&mut self, block: usize, bytes: &[u8; BLOCK_SIZE])
        requires { block < length self.old }
        ensures { self.new ≡ slice_set self.old block bytes.now }
    {
        let place = settle(&mut self.entries, &mut self.stored, block);
        put(&mut self.stored, place, bytes);
        show(&mut self.entries, block, place);
    }

    /// Makes a block zeros. It is noted, and none of its bytes is written.
    pub fn clear(&mut self, block: usize)
        requires { block < length self.old }
        ensures { self.new ≡ slice_set self.old block (replicate block_size 0) }
    {
        blank(&mut self.entries, block);
    }

    /// Makes the `count` blocks from `start` on zeros. Those of a page or more are noted, and none of their bytes is written. Fewer are written where
    /// they have a place, so that they lie in a row with those around them still.
    pub fn clear_range(&mut self, start: usize, count: usize)
        requires { start + count ≤ length self.old }
        ensures { self.new ≡ take start self.old ++ (replicate count (replicate block_size 0) ++ drop (start + count) self.old) }
    {
        if count < PAGE_BLOCKS {
            self.zero_range(start, count);
        } else {
            self.note_range(start, count);
        }
    }

    // The same of blocks that are noted.
    fn note_range(&mut self, start: usize, count: usize)
        requires { start + count ≤ length self.old }
        ensures { self.new ≡ take start self.old ++ (replicate count (replicate block_size 0) ++ drop (start + count) self.old) }
    {
        clear_entries(&mut self.entries, start, count);
    }

    // The same of blocks that are written where they have a place.
    fn zero_range(&mut self, start: usize, count: usize)
        requires { start + count ≤ length self.old }
        ensures { self.new ≡ take start self.old ++ (replicate count (replicate block_size 0) ++ drop (start + count) self.old) }
    {
        // The number of blocks fits, and so does the end of the range.
        let _known = self.len();
        for at in start..start + count {
            self.zero(at);
        }
    }

    // Makes a block zeros, and writes them where it has a place.
    fn zero(&mut self, block: usize)
        requires { block < length self.old }
        ensures { self.new ≡ slice_set self.old block (replicate block_size 0) }
    {
        if self.entries[block] < 2 {
            self.clear(block);
        } else {
            self.set(block, &ZEROS);
        }
    }

    /// Takes the bytes of a block from the first of the places that are left of a buffer. The buffer goes on after these.
    #[inline(always)]
    pub fn fetch(&mut self, block: usize, memory: &Host, buffer: &mut Buffer)
        requires block { block < length self.old }
        requires in_memory { AreBelow (length memory.now) buffer.old }
        requires enough { block_size ≤ length buffer.old }
        ensures bytes { self.new ≡ slice_set self.old block (gathered (byte_in memory.now) (take block_size buffer.old)) }
        ensures rest { buffer.new ≡ drop block_size buffer.old }
    {
        let place = settle(&mut self.entries, &mut self.stored, block);
        buffer.fetch(memory, &mut self.stored[place]);
        show(&mut self.entries, block, place);
    }
}

// Whether a block of this entry holds zeros, whatever is stored at its place.
#[inline(always)]
fn is_blank(entry: usize) -> bool
    ensures { result ≡ is_blank entry }
{
    entry < 2 || entry % 2 == 1
}

// The place of a block's bytes, from 0 on. A block that has none gets one with all blocks of its group, and zeros there; it holds zeros still.
#[inline(always)]
fn settle(entries: &mut Vec<u32>, stored: &mut Vec<[u8; BLOCK_SIZE]>, block: usize) -> usize
    requires stored { IsStored (vec_capacity stored.old) (places_of entries.old.items) stored.old.items }
    requires block { block < length entries.old.items }
    ensures stored { IsStored (vec_capacity stored.new) (places_of entries.new.items) stored.new.items }
    ensures same { blocks_of stored.new.items entries.new.items ≡ blocks_of stored.old.items entries.old.items }
    ensures place { slice_index entries.new.items block / 2 ≡ result + 1 }
    ensures block { block < length entries.new.items }
    ensures there { result < length stored.new.items }
    ensures few { result + 1 < 2 ^ 31 }
{
    if entries[block] < 2 {
        settle_group(entries, stored, block);
    }
    settle_one(entries, stored, block)
}

// Gives places, one after the other, to the blocks of a block's group. Those that are next to each other are stored so, whatever is written in
// between, and share pages of the system.
#[inline(never)]
fn settle_group(entries: &mut Vec<u32>, stored: &mut Vec<[u8; BLOCK_SIZE]>, block: usize)
    requires stored { IsStored (vec_capacity stored.old) (places_of entries.old.items) stored.old.items }
    requires block { block < length entries.old.items }
    ensures stored { IsStored (vec_capacity stored.new) (places_of entries.new.items) stored.new.items }
    ensures same { blocks_of stored.new.items entries.new.items ≡ blocks_of stored.old.items entries.old.items }
    ensures count { length entries.new.items ≡ length entries.old.items }
{
    let group = group_blocks(entries.len());
    let first = block - block % group;
    let end = entries.len().min(first + group);
    for at in first..end {
        let _place = settle_one(entries, stored, at);
    }
}

// How many blocks of a disk of so many get their places together. Those of a small one are read in long rows then, and lie on few pages; at worst
// all of its bytes are zeroed for a few that are written. Of a larger one most is never written, and a block that is written alone wants one page.
fn group_blocks(count: usize) -> usize
    ensures some { 0 < result }
    ensures few { result ≤ SMALL_GROUP_BLOCKS }
{
    if count <= SMALL_BLOCKS {
        SMALL_GROUP_BLOCKS
    } else {
        PAGE_BLOCKS
    }
}

// The place of a block's bytes, from 0 on. A block that has none gets the next, and zeros there; it holds zeros still.
#[inline(always)]
fn settle_one(entries: &mut Vec<u32>, stored: &mut Vec<[u8; BLOCK_SIZE]>, block: usize) -> usize
    requires stored { IsStored (vec_capacity stored.old) (places_of entries.old.items) stored.old.items }
    requires block { block < length entries.old.items }
    ensures stored { IsStored (vec_capacity stored.new) (places_of entries.new.items) stored.new.items }
    ensures same { blocks_of stored.new.items entries.new.items ≡ blocks_of stored.old.items entries.old.items }
    ensures count { length entries.new.items ≡ length entries.old.items }
    ensures place { slice_index entries.new.items block / 2 ≡ result + 1 }
    ensures block { block < length entries.new.items }
    ensures there { result < length stored.new.items }
    ensures few { result + 1 < 2 ^ 31 }
{
    let place = entries[block] as usize / 2;
    if place != 0 {
        return place - 1;
    }
    let next = stored.len();
    // There is room for each block that has no place yet.
    stored.push_reserved([0; BLOCK_SIZE]);
    entries[block] = (2 * (next + 1) + 1) as u32;
    next
}

// A block holds what is stored at its place, which is this, from 0 on.
#[inline(always)]
fn show(entries: &mut Vec<u32>, block: usize, place: usize)
    requires block { block < length entries.old.items }
    requires few { place + 1 < 2 ^ 31 }
    ensures { entries.new.items ≡ slice_set entries.old.items block (2 * (place + 1)) }
{
    entries[block] = (2 * (place + 1)) as u32;
}

// A block holds zeros, and keeps its place.
#[inline(always)]
fn blank(entries: &mut Vec<u32>, block: usize)
    requires { block < length entries.old.items }
    ensures { entries.new.items ≡ slice_set entries.old.items block (2 * (slice_index entries.old.items block / 2) + 1) }
{
    entries[block] = 2 * (entries[block] / 2) + 1;
}

// The `count` blocks from `start` on hold zeros, and keep their places. Many entries of a slice are changed at once.
fn clear_entries(entries: &mut [u32], start: usize, count: usize)
    requires { start + count ≤ length entries.old }
    ensures shown { (stored : List (List ℕ)) → blocks_of stored entries.new
        ≡ take start (blocks_of stored entries.old) ++ (replicate count (replicate block_size 0) ++ drop (start + count) (blocks_of stored entries.old)) }
    ensures places { places_of entries.new ≡ places_of entries.old }
    ensures size { length entries.new ≡ length entries.old }
{
    for at in start..start + count {
        entries[at] = 2 * (entries[at] / 2) + 1;
    }
}

// Puts other bytes in the place of those that are stored there.
fn put(stored: &mut Vec<[u8; BLOCK_SIZE]>, place: usize, bytes: &[u8; BLOCK_SIZE])
    requires { place < length stored.old.items }
    ensures bytes { stored.new.items ≡ slice_set stored.old.items place bytes.now }
    ensures room { vec_capacity stored.new ≡ vec_capacity stored.old }
{
    stored[place] = *bytes;
}

// How many of the `most` blocks from `block` on, whose entries are these, lie in a row: the first has this entry.
fn count_in_row(entries: &[u32], block: usize, most: usize, first: usize) -> usize
    requires some { 0 < most }
    requires within { block + most ≤ length entries.now }
    requires first { slice_index entries.now block ≡ first }
    ensures some { 0 < result }
    ensures most { result ≤ most }
    ensures row { (i : ℕ) → i < result → slice_index entries.now (block + i) ≡ first + 2 * i }
{
    let mut count = 1;
    while count < most && entries[block + count] as usize == first + 2 * count {
        count += 1;
    }
    count
}

// The `count` of these blocks from `at` on.
fn part(stored: &[[u8; BLOCK_SIZE]], at: usize, count: usize) -> &[[u8; BLOCK_SIZE]]
    requires { at + count ≤ length stored.now }
    ensures part { result.now ≡ take count (drop at stored.now) }
    ensures len { length result.now ≡ count }
{
    &stored[at..at + count]
}

// How many of the `most` blocks from `block` on, whose entries are these, hold zeros up to the first that does not: the first one does.
fn count_blank(entries: &[u32], block: usize, most: usize) -> usize
    requires some { 0 < most }
    requires within { block + most ≤ length entries.now }
    requires first { is_blank (slice_index entries.now block) ≡ true }
    ensures some { 0 < result }
    ensures most { result ≤ most }
    ensures blank { (i : ℕ) → i < result → is_blank (slice_index entries.now (block + i)) ≡ true }
{
    let mut count = 1;
    while count < most && is_blank(entries[block + count] as usize) {
        count += 1;
    }
    count
}

// So many blocks of zeros.
fn zero_row(count: usize) -> &'static [[u8; BLOCK_SIZE]]
    requires { count ≤ ZERO_ROW_BLOCKS }
    ensures { result.now ≡ replicate count (replicate block_size 0) }
{
    &ZERO_ROW[..count]
}

// The entries of so many blocks that were never written.
fn no_entries(alloc: Global, count: usize) -> Result<Vec<u32>, NoMemory>
    ensures { IfOk result (λ entries. entries.items ≡ replicate count 0) }
{
    Ok(vec![in alloc; 0u32; count]?)
}
