//! Blocks that are stored where they are first written, and marks that a flush sets: in any order of writes, beside a plain disk.

use nv_disk::{Blocks, Marks};
use std::alloc::{AllocError, Global};
use std::process::Abort;
use std::test::Fail;

/// How many blocks the disks of these tests have.
const COUNT: usize = 600;

// What is done to a block, or to all of them.
#[derive(Clone, Copy)]
enum Step {
    // it is filled with that byte, and its mark is as given
    Write(usize, u8, bool),
    // it becomes zeros, and its mark is as given
    Clear(usize, bool),
    // so many blocks from that one on become zeros, and their marks are as given
    ClearRange(usize, usize, bool),
    // all are kept
    Flush,
}

const STEPS: [Step; 27] = [
    Step::Write(599, 1, false),
    Step::Clear(4, true),
    Step::Write(3, 2, true),
    Step::Write(4, 3, false),
    Step::Write(5, 4, false),
    Step::Flush,
    Step::Write(4, 5, false),
    Step::Clear(599, false),
    Step::Write(0, 6, true),
    Step::Flush,
    Step::Clear(3, true),
    Step::Clear(4, false),
    Step::Write(4, 9, true),
    Step::Write(599, 7, false),
    Step::Write(6, 8, false),
    Step::ClearRange(5, 592, false),
    Step::Write(100, 10, true),
    Step::ClearRange(598, 2, true),
    Step::ClearRange(100, 0, false),
    Step::ClearRange(0, 4, true),
    Step::Write(99, 11, false),
    Step::ClearRange(96, 7, true),
    Step::Write(97, 12, true),
    Step::Write(103, 13, false),
    Step::ClearRange(96, 8, false),
    Step::Write(98, 14, false),
    Step::ClearRange(97, 2, true),
];

// A disk, and beside it the byte and the mark that each block should have.
#[derive(Drop)]
struct Beside {
    blocks: Blocks,
    marks: Marks,
    bytes: Vec<u8>,
    kept: Vec<bool>,
}

impl Beside {
    fn new(alloc: Global) -> Result<Self, Fail> {
        Ok(Beside {
            blocks: Blocks::new(alloc, COUNT)?,
            marks: Marks::new(alloc, COUNT)?,
            bytes: filled(alloc, 0u8)?,
            kept: filled(alloc, false)?,
        })
    }

    // Does a step on both; nothing where there is no such block.
    fn step(&mut self, step: Step) {
        match step {
            Step::Write(block, byte, mark) => {
                if block < self.blocks.len() && block < self.marks.len() {
                    self.blocks.set(block, &[byte; 512]);
                    self.marks.set(block, mark);
                }
                self.note(block, byte, mark);
            }
            Step::Clear(block, mark) => {
                if block < self.blocks.len() && block < self.marks.len() {
                    self.blocks.clear(block);
                    self.marks.set(block, mark);
                }
                self.note(block, 0, mark);
            }
            Step::ClearRange(start, count, mark) => self.clear_range(start, count, mark),
            Step::Flush => {
                self.marks.set_all();
                self.kept.fill(true);
            }
        }
    }

    // Clears a range of both; nothing where there are not so many blocks.
    fn clear_range(&mut self, start: usize, count: usize, mark: bool) {
        let all = self.blocks.len().min(self.marks.len());
        if start > all || count > all - start {
            return;
        }
        self.blocks.clear_range(start, count);
        self.marks.set_range(start, count, mark);
        for block in start..start + count {
            self.note(block, 0, mark);
        }
    }

    // What the block should have.
    fn note(&mut self, block: usize, byte: u8, mark: bool) {
        if let Some(place) = self.bytes.get_mut(block) {
            *place = byte;
        }
        if let Some(place) = self.kept.get_mut(block) {
            *place = mark;
        }
    }

    // Whether each block is as it should be.
    fn is_same(&self) -> bool {
        let count = self.blocks.len();
        for (block, byte) in self.bytes.iter().enumerate() {
            if block >= count || block >= self.marks.len() {
                return false;
            }
            if self.blocks.block(block) != &[*byte; 512] {
                return false;
            }
            if self.kept.get(block) != Some(&self.marks.get(block)) {
                return false;
            }
        }
        count == COUNT && self.marks.len() == COUNT
    }
}

// So many equal values.
fn filled<T: Copy + Clone + Drop>(alloc: Global, value: T) -> Result<Vec<T>, AllocError> {
    let mut all = Vec::with_capacity(alloc, COUNT)?;
    for _ in 0..COUNT {
        all.push(value)?;
    }
    Ok(all)
}

#[test]
fn blocks_and_marks_are_those_of_a_plain_disk(rt: HostRuntime) -> Result<(), Fail> {
    let mut disk = Beside::new(rt.alloc())?;
    assert!(rt; disk.is_same());
    for step in STEPS {
        disk.step(step);
        assert!(rt; disk.is_same());
    }
    Ok(())
}

// How many blocks of the front of these lie in a row.
fn row(blocks: &Blocks, block: usize, most: usize) -> usize {
    if 0 < most && most <= blocks.len() && block <= blocks.len() - most {
        blocks.row(block, most).len()
    } else {
        0
    }
}

// Writes these blocks in this order.
fn write_all<const N: usize>(blocks: &mut Blocks, order: [usize; N]) {
    for block in order {
        if block < blocks.len() {
            blocks.set(block, &[1; 512]);
        }
    }
}

#[test]
fn blocks_that_are_written_in_order_lie_in_a_row(rt: HostRuntime) -> Result<(), Fail> {
    let mut blocks = Blocks::new(rt.alloc(), COUNT)?;
    write_all(&mut blocks, [63usize, 64, 65, 3, 66]);
    assert!(rt; row(&blocks, 63, 4) == 4 && row(&blocks, 64, 1) == 1 && row(&blocks, 66, 2) == 1);
    assert!(rt; row(&blocks, 60, 3) == 3 && row(&blocks, 3, 5) == 1);
    Ok(())
}

#[test]
fn blocks_of_a_group_lie_in_a_row_in_whatever_order_they_are_written(
    rt: HostRuntime,
) -> Result<(), Fail> {
    let mut blocks = Blocks::new(rt.alloc(), COUNT)?;
    write_all(&mut blocks, [66usize, 64, 63, 65]);
    assert!(rt; row(&blocks, 64, 3) == 3 && row(&blocks, 63, 2) == 1);
    // All of the second group, in another order.
    for number in 0..64usize {
        write_all(&mut blocks, [64 + number * 37 % 64]);
    }
    assert!(rt; row(&blocks, 64, 64) == 64 && row(&blocks, 64, 65) == 64);
    let mut last = Blocks::new(rt.alloc(), 69)?;
    write_all(&mut last, [68usize, 67]);
    assert!(rt; row(&last, 68, 1) == 1 && row(&last, 67, 2) == 2);
    Ok(())
}

/// How many blocks the least disk has on which few blocks get their places together.
const MANY: usize = 0x4_0001;

#[test]
fn blocks_of_a_page_lie_in_a_row_on_a_large_disk(rt: HostRuntime) -> Result<(), Fail> {
    let mut blocks = Blocks::new(rt.alloc(), MANY)?;
    write_all(&mut blocks, [10usize, 8, 7, 9]);
    assert!(rt; row(&blocks, 8, 3) == 3 && row(&blocks, 7, 2) == 1);
    write_all(&mut blocks, [0x4_0000usize, 0x3_ffff]);
    assert!(rt; row(&blocks, 0x4_0000, 1) == 1 && row(&blocks, 0x3_ffff, 2) == 1);
    let mut small = Blocks::new(rt.alloc(), MANY - 1)?;
    write_all(&mut small, [10usize, 8, 7, 9]);
    assert!(rt; row(&small, 7, 4) == 4);
    Ok(())
}

#[test]
fn blocks_that_hold_zeros_lie_in_a_row(rt: HostRuntime) -> Result<(), Fail> {
    let mut blocks = Blocks::new(rt.alloc(), COUNT)?;
    assert!(rt;
        row(&blocks, 0, 63) == 63 && row(&blocks, 8, 64) == 64 && row(&blocks, 8, 65) == 64
    );
    write_all(&mut blocks, [40usize, 41, 44]);
    assert!(rt; row(&blocks, 0, 100) == 40 && row(&blocks, 40, 8) == 2 && row(&blocks, 42, 8) == 2);
    if blocks.len() == COUNT {
        blocks.clear(41);
        blocks.clear(44);
    }
    assert!(rt;
        row(&blocks, 40, 8) == 1 && row(&blocks, 41, 8) == 8 && row(&blocks, 41, 100) == 64
    );
    Ok(())
}

// Makes so many blocks zeros.
fn clear(blocks: &mut Blocks, start: usize, count: usize) {
    if count <= blocks.len() && start <= blocks.len() - count {
        blocks.clear_range(start, count);
    }
}

// From each of these blocks on, of so many, as many lie in a row.
fn expect_rows(rt: &impl Abort, blocks: &Blocks, rows: &[(usize, usize, usize)]) {
    for (first, count, want) in rows {
        assert!(rt; row(blocks, *first, *count) == *want, "{first}");
    }
}

#[test]
fn few_blocks_that_are_cleared_lie_in_a_row_with_those_around_them(
    rt: HostRuntime,
) -> Result<(), Fail> {
    let mut blocks = Blocks::new(rt.alloc(), COUNT)?;
    write_all(&mut blocks, [8usize, 16]);
    write_all(&mut blocks, [9usize, 10, 11, 12, 13, 14, 15, 17, 18, 19]);
    write_all(&mut blocks, [20usize, 21, 22, 23]);
    clear(&mut blocks, 10, 1);
    clear(&mut blocks, 14, 7);
    expect_rows(&rt, &blocks, &[(8, 16, 16)]);
    clear(&mut blocks, 8, 8);
    expect_rows(&rt, &blocks, &[(8, 16, 8), (16, 8, 8)]);
    clear(&mut blocks, 9, 1);
    expect_rows(&rt, &blocks, &[(9, 1, 1), (8, 8, 1), (10, 6, 6)]);
    Ok(())
}

/// How many blocks are shown.
const FEW: usize = 20;

/// How many steps are made between two checks, and how many checks there are.
const STEPS_A_LOOK: u32 = 7;

const LOOKS: u32 = 24;

// A disk of few blocks, and beside it the lists that a device's disk and marks were before.
#[derive(Drop)]
struct Shown {
    blocks: Blocks,
    marks: Marks,
    disk: Vec<[u8; 512]>,
    kept: Vec<bool>,
}

impl Shown {
    fn new(alloc: Global) -> Result<Self, Fail> {
        Ok(Shown {
            blocks: Blocks::new(alloc, FEW)?,
            marks: Marks::new(alloc, FEW)?,
            disk: vec![in alloc; [0; 512]; FEW]?,
            kept: vec![in alloc; false; FEW]?,
        })
    }

    // Does what a number says to what it names, on both.
    fn step(&mut self, number: u64) {
        let block = (number / 16 % FEW as u64) as usize;
        let byte = (number / 1024 % 256) as u8;
        let mark = number / 8 % 2 == 0;
        if block >= self.blocks.len() || block >= self.marks.len() {
            return;
        }
        match number % 8 {
            0 => {
                self.marks.set_all();
                self.kept.fill(true);
            }
            1 | 2 => {
                self.blocks.clear(block);
                self.note(block, 0, mark);
            }
            _ => {
                self.blocks.set(block, &[byte; 512]);
                self.note(block, byte, mark);
            }
        }
    }

    // Gives a block's bytes and its mark to both.
    fn note(&mut self, block: usize, byte: u8, mark: bool) {
        if block < self.marks.len() {
            self.marks.set(block, mark);
        }
        if let Some(place) = self.disk.get_mut(block) {
            *place = [byte; 512];
        }
        if let Some(place) = self.kept.get_mut(block) {
            *place = mark;
        }
    }

    // Whether both are shown alike, on one line and on many.
    fn is_shown_alike(&self, alloc: Global) -> Result<bool, AllocError> {
        let Shown {
            blocks,
            marks,
            disk,
            kept,
        } = self;
        let shown = format!(in alloc; "{blocks:?} {marks:?} {blocks:#?} {marks:#?}")?;
        let wanted = format!(in alloc; "{disk:?} {kept:?} {disk:#?} {kept:#?}")?;
        Ok(shown == wanted)
    }
}

#[test]
fn blocks_and_marks_are_shown_as_lists(rt: HostRuntime) -> Result<(), Fail> {
    let mut disk = Shown::new(rt.alloc())?;
    assert!(rt; disk.is_shown_alike(rt.alloc())?);
    let mut number = 1u64;
    for _ in 0..LOOKS {
        for _ in 0..STEPS_A_LOOK {
            // Of the next numbers of a linear congruence the upper bits say what is done.
            number = number
                .wrapping_mul(6_364_136_223_846_793_005)
                .wrapping_add(1);
            disk.step(number >> 32);
        }
        assert!(rt; disk.is_shown_alike(rt.alloc())?);
    }
    Ok(())
}
