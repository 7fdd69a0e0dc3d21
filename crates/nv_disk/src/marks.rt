//! A mark for each block.

ghost use Rattle.std.specs.Prelude.{◌≡◌, ◌+◌, ◌++◌, ◌<◌, ◌≤◌, ◌^◌, false, true, drop, length, replicate, slice_set, take, IfOk};
ghost use Rattle.std.specs.List.{slice_index_or};
ghost use Rattle.nv_disk.specs.Since.{is_kept};

use nv_mem::NoMemory;
use std::alloc::Global;
use std::fmt::{self, Debug, Formatter};
use std::marker::Model;

/// Whether each block is kept. A contract sees the list of the marks.
///
/// All marks are set by a number that goes up by one, so that a Flush costs the same on every disk: each block has the number of the flush from
/// which on it is kept, which is 0, or that of the next one.
#[derive(Drop)]
pub struct Marks {
    since: Vec<u32>,
    flushes: u32,
}

impl Model for Marks {
    ghost use Rattle.std.specs.Prelude.{Bool, List};
    ghost use Rattle.nv_disk.specs.Since.{IsCounted, marks_of};

    ghost Value = { List Bool };

    ghost view = { λ m. marks_of m.flushes m.since.items };

    ghost invariant = { λ m. IsCounted m.flushes m.since.items };
}

// They are shown as the list that they are for a contract, whatever was counted.
impl Debug for Marks {
    fn fmt<W: fmt::Write>(&self, f: &mut Formatter<W>) -> fmt::Result {
        let mut marks = f.debug_list();
        for block in 0..self.len() {
            marks.entry(&self.get(block));
        }
        marks.finish()
    }
}

impl Marks {
    /// So many marks that are clear.
    ///
    /// # Errors
    ///
    /// [`NoMemory`] where memory for the marks is refused.
    pub fn new(alloc: Global, count: usize) -> Result<Self, NoMemory>
        ensures { IfOk result (λ marks. marks ≡ replicate count false) }
    {
        Ok(Marks {
            since: next_flush(alloc, count)?,
            flushes: 0,
        })
    }

    /// How many marks there are.
    pub fn len(&self) -> usize
        ensures { result ≡ length self.now }
    {
        self.since.len()
    }

    /// The mark of a block.
    pub fn get(&self, block: usize) -> bool
        requires { block < length self.now }
        ensures { result ≡ slice_index_or self.now block false }
    {
        self.since[block] <= self.flushes
    }

    /// Gives a block this mark.
    pub fn set(&mut self, block: usize, mark: bool)
        requires { block < length self.old }
        ensures { self.new ≡ slice_set self.old block mark }
    {
        self.since[block] = first_flush(self.flushes, mark);
    }

    /// Gives the `count` blocks from `start` on this mark.
    pub fn set_range(&mut self, start: usize, count: usize, mark: bool)
        requires { start + count ≤ length self.old }
        ensures { self.new ≡ take start self.old ++ (replicate count mark ++ drop (start + count) self.old) }
    {
        let from = first_flush(self.flushes, mark);
        put_range(&mut self.since, start, count, from);
    }

    /// Sets all marks.
    pub fn set_all(&mut self)
        ensures { self.new ≡ replicate (length self.old) true }
    {
        if self.flushes + 1 < u32::MAX {
            // Each mark that is clear is kept from the next flush on: this one.
            self.flushes += 1;
        } else {
            // There is no next number: all begins anew.
            anew(&mut self.since);
            self.flushes = 0;
        }
    }
}

// Puts a number into `count` places from `start` on. Many numbers of a slice are written at once.
fn put_range(since: &mut [u32], start: usize, count: usize, number: u32)
    requires { start + count ≤ length since.old }
    ensures put { since.new ≡ take start since.old ++ (replicate count number ++ drop (start + count) since.old) }
    ensures size { length since.new ≡ length since.old }
{
    for at in start..start + count {
        since[at] = number;
    }
}

// Makes all of these numbers 0.
#[cold]
fn anew(since: &mut Vec<u32>)
    ensures { since.new.items ≡ replicate (length since.old.items) 0 }
{
    since.fill(0);
}

// From which flush on a block with this mark is kept, after so many flushes.
fn first_flush(flushes: u32, mark: bool) -> u32
    requires { flushes + 1 < 2 ^ 32 }
    ensures mark { is_kept flushes result ≡ mark }
    ensures soon { result ≤ flushes + 1 }
{
    if mark { 0 } else { flushes + 1 }
}

// Marks that are clear until the first flush.
fn next_flush(alloc: Global, count: usize) -> Result<Vec<u32>, NoMemory>
    ensures { IfOk result (λ since. since.items ≡ replicate count 1) }
{
    Ok(vec![in alloc; 1u32; count]?)
}
