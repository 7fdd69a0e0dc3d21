//! Commands through one Data Block, or none.

use crate::flat::{
    COMPARE_BY_SGL, DIFFERS, SUCCESS, WRITE_BY_SGL, block_is, blocks_are, filled_are, is_kept,
    marks_are, prepared, put, run,
};
use crate::hand::changed;
use nv_flat::FlatController;
use std::alloc::Global;
use std::process::Abort;

/// Commands one after another, and what is in memory and on the disk after them.
struct Case {
    /// Bytes that are in the memory before: where, which, and how many.
    stored: &'static [(u64, u8, usize)],
    /// What is changed of the Read, and the last dword of its completion.
    commands: &'static [(&'static [(usize, u32)], u32)],
    memory: &'static [(u64, u8)],
    blocks: &'static [(u64, u8)],
    marks: &'static [(u64, bool)],
}

/// A Write, a Read, a Write and a Read of block 5: the first and the last with the bit of Force Unit Access.
const WRITE_THROUGH: (&[(usize, u32)], u32) = (&[(0, WRITE_BY_SGL), (12, 0x4000_0000)], SUCCESS);

const READ_BACK: (&[(usize, u32)], u32) = (&[], SUCCESS);

const WRITE_AGAIN: (&[(usize, u32)], u32) = (&[(0, WRITE_BY_SGL)], SUCCESS);

const READ_THROUGH: (&[(usize, u32)], u32) = (&[(12, 0x4000_0000)], SUCCESS);

/// A Compare of two blocks with the bit, that are equal or differ.
const EQUAL: (&[(usize, u32)], u32) = (
    &[(0, COMPARE_BY_SGL), (8, 0x400), (12, 0x4000_0001)],
    SUCCESS,
);

const UNEQUAL: (&[(usize, u32)], u32) = (
    &[(0, COMPARE_BY_SGL), (8, 0x400), (12, 0x4000_0001)],
    DIFFERS,
);

/// The bit makes the blocks of a Compare kept, also where they differ.
const COMPARED: &[(u64, bool)] = &[(5, true), (6, true), (7, false)];

/// On a controller of 20000h bytes and 64 blocks, of which block 5 is filled with 55h, block 6 with 66h and block 63 with CDh.
const CASES: &[Case] = &[
    // where the buffer is, and the bytes before it and after it, which stay zeros
    // a Read at the start of a page
    Case {
        stored: &[],
        commands: &[(&[(6, 0x3000)], SUCCESS)],
        memory: &[(0x3000, 0x55), (0x2e00, 0), (0x3200, 0)],
        blocks: &[(5, 0x55)],
        marks: &[(5, false)],
    },
    // a Read inside a page
    Case {
        stored: &[],
        commands: &[(&[(6, 0x3002)], SUCCESS)],
        memory: &[(0x3002, 0x55), (0x2e02, 0), (0x3202, 0)],
        blocks: &[(5, 0x55)],
        marks: &[(5, false)],
    },
    // a Read at the end of the memory
    Case {
        stored: &[],
        commands: &[(&[(6, 0x1_fe00)], SUCCESS)],
        memory: &[(0x1_fe00, 0x55), (0x1_fc00, 0), (0, 0)],
        blocks: &[(5, 0x55)],
        marks: &[(5, false)],
    },
    // a Read of two blocks, in order
    Case {
        stored: &[],
        commands: &[(&[(6, 0x8000), (8, 0x400), (12, 1)], SUCCESS)],
        memory: &[(0x7e00, 0), (0x8000, 0x55), (0x8200, 0x66), (0x8400, 0)],
        blocks: &[],
        marks: &[],
    },
    // a Read of the last block
    Case {
        stored: &[],
        commands: &[(&[(10, 63)], SUCCESS)],
        memory: &[(0x3000, 0xcd)],
        blocks: &[],
        marks: &[],
    },
    // a Write of two blocks, in order
    Case {
        stored: &[(0x3000, 0x11, 512), (0x3200, 0x22, 512)],
        commands: &[(&[(0, WRITE_BY_SGL), (8, 0x400), (12, 1)], SUCCESS)],
        memory: &[],
        blocks: &[(4, 0), (5, 0x11), (6, 0x22), (7, 0)],
        marks: &[(5, false), (6, false)],
    },
    // what Force Unit Access says: a Write with the bit, a Read without, a Write without, a Read with
    // a Write with the bit
    Case {
        stored: &[],
        commands: &[WRITE_THROUGH],
        memory: &[],
        blocks: &[],
        marks: &[(4, false), (5, true), (6, false)],
    },
    // a Read without the bit after it
    Case {
        stored: &[],
        commands: &[WRITE_THROUGH, READ_BACK],
        memory: &[],
        blocks: &[],
        marks: &[(4, false), (5, true), (6, false)],
    },
    // a Write without the bit after them
    Case {
        stored: &[],
        commands: &[WRITE_THROUGH, READ_BACK, WRITE_AGAIN],
        memory: &[],
        blocks: &[],
        marks: &[(4, false), (5, false), (6, false)],
    },
    // a Read with the bit after all of them
    Case {
        stored: &[],
        commands: &[WRITE_THROUGH, READ_BACK, WRITE_AGAIN, READ_THROUGH],
        memory: &[],
        blocks: &[],
        marks: &[(4, false), (5, true), (6, false)],
    },
    // where a byte of a Compare's buffer is and to what
    // a Compare whose last byte differs
    Case {
        stored: &[(0x3000, 0x55, 512), (0x3200, 0x66, 512), (0x33ff, 0, 1)],
        commands: &[UNEQUAL],
        memory: &[],
        blocks: &[(5, 0x55), (6, 0x66)],
        marks: COMPARED,
    },
    // a Compare of equal blocks
    Case {
        stored: &[(0x3000, 0x55, 512), (0x3200, 0x66, 512), (0x33ff, 0x66, 1)],
        commands: &[EQUAL],
        memory: &[],
        blocks: &[(5, 0x55), (6, 0x66)],
        marks: COMPARED,
    },
    // a Compare whose first byte differs
    Case {
        stored: &[(0x3000, 0x55, 512), (0x3200, 0x66, 512), (0x3000, 0x54, 1)],
        commands: &[UNEQUAL],
        memory: &[],
        blocks: &[(5, 0x55), (6, 0x66)],
        marks: COMPARED,
    },
];

// A prepared controller whose memory holds these bytes.
fn holding(rt: &impl Abort, alloc: Global, stored: &[(u64, u8, usize)]) -> FlatController {
    let mut controller = prepared(rt, alloc);
    assert!(rt; controller.blocks() == 64);
    controller.paint(63, 0xcd);
    for (addr, byte, len) in stored {
        assert!(rt; *len <= 512);
        put(rt, &mut controller, *addr, &[*byte; 512][..*len]);
    }
    controller
}

fn run_all(
    rt: &impl Abort,
    alloc: Global,
    controller: &mut FlatController,
    commands: &[(&[(usize, u32)], u32)],
) {
    for (changes, want) in commands {
        run(rt, alloc, controller, &changed(rt, changes), *want);
    }
}

fn is_as_expected(rt: &impl Abort, controller: &FlatController, case: &Case) {
    filled_are(rt, controller, case.memory);
    blocks_are(rt, controller, case.blocks);
    marks_are(rt, controller, case.marks);
}

fn check(rt: &impl Abort, alloc: Global, cases: &[Case]) {
    for case in cases {
        let mut controller = holding(rt, alloc, case.stored);
        run_all(rt, alloc, &mut controller, case.commands);
        is_as_expected(rt, &controller, case);
    }
}

#[test]
fn reads_writes_and_compares(rt: HostRuntime) {
    check(&rt, rt.alloc(), CASES);
}

// A Read with these changes, which is refused with this last dword: nothing moves.
macro_rules! refused {
    ($want:expr, $changes:expr) => {
        Case {
            stored: &[],
            commands: &[($changes, $want)],
            memory: &[(0x3000, 0)],
            blocks: &[(5, 0x55), (6, 0x66)],
            marks: &[],
        }
    };
}

const REFUSED: &[Case] = &[
    refused!(0x8101_0007, &[(10, 63), (12, 1), (8, 0x400)]),
    refused!(
        0x8101_0007,
        &[(10, 0xffff_ffff), (11, 0xffff_ffff), (12, 1), (8, 0x400)]
    ),
    refused!(0x8005_0007, &[(0, 0x0007_c002)]),
    refused!(0x8005_0007, &[(12, 256)]),
    refused!(0x8017_0007, &[(1, 2)]),
    refused!(0x8003_0007, &[(0, 0x0007_4004)]),
    refused!(0x8005_0007, &[(0, 0x0007_4104)]),
    refused!(0x8009_0007, &[(6, 0x2_0000)]),
    refused!(0x8009_0007, &[(6, 0x1_ffc0)]),
    refused!(0x801f_0007, &[(8, 0x400)]),
    refused!(0x8023_0007, &[(9, 0x0100_0000)]),
    refused!(0x8027_0007, &[(0, 0x0007_0002), (6, 0x3002)]),
];

#[test]
fn refuses_without_a_move(rt: HostRuntime) {
    check(&rt, rt.alloc(), REFUSED);
}

// Block 5 is kept or not, and all others are kept.
fn others_are_kept(rt: &impl Abort, controller: &FlatController, kept: bool) {
    for block in 0..64 {
        assert_eq!(rt; is_kept(rt, controller, block), block != 5 || kept);
    }
}

fn check_in_turn(
    rt: &impl Abort,
    alloc: Global,
    controller: &mut FlatController,
    rows: &[(u32, u32, u8, bool)],
) {
    for (dword, cdw12, byte, kept) in rows {
        let sqe = changed(rt, &[(0, *dword), (12, *cdw12)]);
        run(rt, alloc, controller, &sqe, SUCCESS);
        blocks_are(rt, controller, &[(4, 0), (5, *byte), (6, 0x66)]);
        others_are_kept(rt, controller, *kept);
    }
}

/// A Flush, and Write Zeroes without and with FUA, neither of which examines PSDT: dwords 0 and 12, the bytes of block 5, its mark.
const IN_TURN: &[(u32, u32, u8, bool)] = &[
    (0x0007_c000, 0, 0x55, true),
    (0x0007_c008, 0, 0, false),
    (0x0007_c008, 0x4000_0000, 0, true),
];

#[test]
fn flushes_and_writes_zeroes(rt: HostRuntime) {
    let mut controller = prepared(&rt, rt.alloc());
    check_in_turn(&rt, rt.alloc(), &mut controller, IN_TURN);
}

// The 16 bytes of a range of Dataset Management.
fn range(start: u32, blocks: u32) -> [u8; 16] {
    let mut bytes = [0; 16];
    bytes[4..8].copy_from_slice(&blocks.to_le_bytes());
    bytes[8..12].copy_from_slice(&start.to_le_bytes());
    bytes
}

// A controller of 64 blocks, each filled with 77h and kept.
fn full(rt: &impl Abort, alloc: Global) -> FlatController {
    let mut controller = FlatController::new(alloc, 0x1_0000, 64).expect(rt, "memory");
    for block in 0..64 {
        assert!(rt; controller.blocks() == 64);
        controller.paint(block, 0x77);
    }
    let flush = changed(rt, &[(0, 0x0007_4000)]);
    run(rt, alloc, &mut controller, &flush, SUCCESS);
    controller
}

// Puts 256 ranges at 3000h: block 0, time and again, and this one.
fn put_ranges(rt: &impl Abort, controller: &mut FlatController, last: &[u8; 16]) {
    for place in 0..255u16 {
        put(rt, controller, 0x3000 + 16 * u64::from(place), &range(0, 1));
    }
    put(rt, controller, 0x3ff0, last);
}

// So many blocks from LBA 0 on, and so many from LBA 5 on, are zeros and not kept; the others are as they were.
fn cleared_are(rt: &impl Abort, controller: &FlatController, first: u64, others: u64) {
    for block in 0..64 {
        let cleared = block < first || (5 <= block && block - 5 < others);
        assert!(rt; block_is(rt, controller, block, if cleared { 0 } else { 0x77 }));
        assert_eq!(rt; is_kept(rt, controller, block), !cleared);
    }
}

// A controller of full blocks that was asked to manage ranges, the last of which is this one.
fn managed(
    rt: &impl Abort,
    alloc: Global,
    last: (u32, u32),
    asked: u32,
    want: u32,
) -> FlatController {
    let (start, blocks) = last;
    let mut controller = full(rt, alloc);
    put_ranges(rt, &mut controller, &range(start, blocks));
    let sqe = changed(rt, &[(0, 0x0007_4009), (8, 4096), (10, 0xff), (11, asked)]);
    run(rt, alloc, &mut controller, &sqe, want);
    controller
}

fn check_managed(rt: &impl Abort, alloc: Global, rows: &[((u32, u32), u32, u32, u64, u64)]) {
    for (last, asked, want, first, others) in rows {
        let controller = managed(rt, alloc, *last, *asked, *want);
        cleared_are(rt, &controller, *first, *others);
    }
}

/// The last range, dword 11, the last dword of the completion, and how many blocks are deallocated from LBA 0 and from LBA 5 on: none where the
/// last range is past the end or nothing is asked for; no blocks at the end pass; ranges of several blocks.
const MANAGED: &[((u32, u32), u32, u32, u64, u64)] = &[
    ((64, 1), 4, 0x8101_0007, 0, 0),
    ((63, 1), 0, SUCCESS, 0, 0),
    ((64, 0), 4, SUCCESS, 1, 0),
    ((5, 58), 4, SUCCESS, 1, 58),
    ((5, 59), 4, SUCCESS, 1, 59),
];

#[test]
fn manages_datasets(rt: HostRuntime) {
    check_managed(&rt, rt.alloc(), MANAGED);
}
