//! Commands by SGL segments.

use crate::flat::{
    COMPARE_BY_SGL, DIFFERS, READ_BY_SGL, SUCCESS, WRITE_BY_SGL, blocks_are, filled_are, prepared,
    put, run,
};
use crate::hand::changed;
use nv_entry::Sqe;
use nv_flat::FlatController;
use std::alloc::Global;
use std::process::Abort;

/// A descriptor as a table has it: its kind, as it is in the upper bits of dword 3, with subtype 0; its address; its length.
type Row = (u32, u32, u32);

const DATA_BLOCK: u32 = 0;

const BIT_BUCKET: u32 = 0x1000_0000;

const SEGMENT: u32 = 0x2000_0000;

const LAST_SEGMENT: u32 = 0x3000_0000;

const UNKNOWN: u32 = 0x4000_0000;

// Puts a descriptor into memory.
fn put_descriptor(
    rt: &impl Abort,
    controller: &mut FlatController,
    at: u64,
    (kind, addr, len): Row,
) {
    let mut bytes = [0; 16];
    bytes[..4].copy_from_slice(&addr.to_le_bytes());
    bytes[8..12].copy_from_slice(&len.to_le_bytes());
    bytes[12..].copy_from_slice(&kind.to_le_bytes());
    put(rt, controller, at, &bytes);
}

// A prepared controller with these descriptors at 6000h.
fn with_array(rt: &impl Abort, alloc: Global, rows: &[Row]) -> FlatController {
    let mut controller = prepared(rt, alloc);
    let mut at = 0x6000u64;
    for row in rows {
        put_descriptor(rt, &mut controller, at, *row);
        at = at.wrapping_add(16);
    }
    controller
}

/// Descriptors from 6000h on, what is changed of the Read, the last dword of its completion, and what is in memory and on the disk after it.
struct Case {
    rows: &'static [Row],
    changes: &'static [(usize, u32)],
    want: u32,
    memory: &'static [(u64, u8)],
    blocks: &'static [(u64, u8)],
}

fn check(rt: &impl Abort, alloc: Global, cases: &[Case]) {
    for case in cases {
        let mut controller = with_array(rt, alloc, case.rows);
        run(
            rt,
            alloc,
            &mut controller,
            &changed(rt, case.changes),
            case.want,
        );
        filled_are(rt, &controller, case.memory);
        blocks_are(rt, &controller, case.blocks);
    }
}

/// A Read and a Write of two blocks from LBA 5 through the two descriptors at 6000h, that a Last Segment names.
const READ_TWO: &[(usize, u32)] = &[
    (0, READ_BY_SGL),
    (6, 0x6000),
    (8, 32),
    (9, LAST_SEGMENT),
    (12, 1),
];

const WRITE_TWO: &[(usize, u32)] = &[
    (0, WRITE_BY_SGL),
    (6, 0x6000),
    (8, 32),
    (9, LAST_SEGMENT),
    (12, 1),
];

// A Read of two blocks, the second of which goes to that place.
macro_rules! delivered {
    ($second:expr, $memory:expr) => {
        Case {
            rows: &[(DATA_BLOCK, 0x3e00, 512), (DATA_BLOCK, $second, 512)],
            changes: READ_TWO,
            want: SUCCESS,
            memory: $memory,
            blocks: &[],
        }
    };
}

/// Where the second block is delivered, and what else is at some address: a place that is named twice has what was delivered last.
const DELIVERED: &[Case] = &[
    delivered!(0x5000, &[(0x5000, 0x66), (0x3e00, 0x55)]),
    delivered!(0x5200, &[(0x5200, 0x66), (0x3e00, 0x55)]),
    delivered!(0x3ff0, &[(0x3ff0, 0x66), (0x41f0, 0)]),
    delivered!(0x3e00, &[(0x3e00, 0x66), (0x4000, 0)]),
];

#[test]
fn delivers_through_a_chain(rt: HostRuntime) {
    check(&rt, rt.alloc(), DELIVERED);
}

const BUCKET: Row = (BIT_BUCKET, 0, 512);

const BLOCK: Row = (DATA_BLOCK, 0x3000, 512);

// A command of two blocks that leaves the disk as it was, and this byte in its block of memory.
macro_rules! discarded {
    ($changes:expr, $rows:expr, $want:expr, $delivered:expr) => {
        Case {
            rows: $rows,
            changes: $changes,
            want: $want,
            memory: &[(0x3000, $delivered), (0x3200, 0)],
            blocks: &[(5, 0x55), (6, 0x66)],
        }
    };
}

/// A bucket is nothing for a source: then the list names half the bytes.
const DISCARDED: &[Case] = &[
    discarded!(READ_TWO, &[BUCKET, BLOCK], SUCCESS, 0x66),
    discarded!(READ_TWO, &[BLOCK, BUCKET], SUCCESS, 0x55),
    discarded!(WRITE_TWO, &[BLOCK, BUCKET], 0x801f_0007, 0),
];

#[test]
fn discards_into_a_bit_bucket(rt: HostRuntime) {
    check(&rt, rt.alloc(), DISCARDED);
}

/// Where the pieces of one block lie, and the first byte of the block that each has: 100, 300 and 112 bytes.
const PARTS: [(u64, u8, usize); 3] = [(0x3000, 0, 100), (0x4001, 100, 300), (0x5002, 144, 112)];

// `len` bytes that count up from this one, and begin again after 255.
fn counting(rt: &impl Abort, from: u8, len: usize, out: &mut [u8; 512]) {
    assert!(rt; len <= 512);
    let mut next = from;
    for byte in &mut out[..len] {
        *byte = next;
        next = next.wrapping_add(1);
    }
}

// Puts the counting bytes of one block into its pieces.
fn put_parts(rt: &impl Abort, controller: &mut FlatController) {
    for (addr, from, len) in PARTS {
        let mut bytes = [0; 512];
        assert!(rt; len <= 512);
        counting(rt, from, len, &mut bytes);
        put(rt, controller, addr, &bytes[..len]);
    }
}

// A command on block 5 through three pieces that part inside the block, of which the middle one has this kind.
fn through_parts(
    rt: &impl Abort,
    controller: &mut FlatController,
    first_dword: u32,
    kind: u32,
) -> Sqe {
    put_descriptor(rt, controller, 0x6000, (DATA_BLOCK, 0x3000, 100));
    put_descriptor(rt, controller, 0x6010, (kind, 0x4001, 300));
    put_descriptor(rt, controller, 0x6020, (DATA_BLOCK, 0x5002, 112));
    let changes = [(0, first_dword), (6, 0x6000), (8, 48), (9, LAST_SEGMENT)];
    changed(rt, &changes)
}

// A prepared controller whose block 5 was written from the three pieces.
fn written_by_parts(rt: &impl Abort, alloc: Global) -> FlatController {
    let mut controller = prepared(rt, alloc);
    put_parts(rt, &mut controller);
    let write = through_parts(rt, &mut controller, WRITE_BY_SGL, DATA_BLOCK);
    run(rt, alloc, &mut controller, &write, SUCCESS);
    controller
}

// Whether the bytes of block 5 count up from 0.
fn counts_in_block_5(rt: &impl Abort, controller: &FlatController) -> bool {
    let mut want = [0; 512];
    counting(rt, 0, 512, &mut want);
    assert!(rt; controller.blocks() == 64);
    *controller.block(5) == want
}

#[test]
fn writes_pieces_that_part_inside_a_block(rt: HostRuntime) {
    let controller = written_by_parts(&rt, rt.alloc());
    assert!(rt; counts_in_block_5(&rt, &controller));
    blocks_are(&rt, &controller, &[(6, 0x66)]);
}

// Compares the three pieces with block 5, after the byte at an address was changed.
fn compare_parts(
    rt: &impl Abort,
    alloc: Global,
    controller: &mut FlatController,
    addr: u64,
    want: u32,
) {
    put(rt, controller, addr, &[0xee]);
    let compare = through_parts(rt, controller, COMPARE_BY_SGL, DATA_BLOCK);
    run(rt, alloc, controller, &compare, want);
}

fn check_compared(rt: &impl Abort, alloc: Global, rows: &[(u64, u32)]) {
    for (addr, want) in rows {
        let mut controller = written_by_parts(rt, alloc);
        compare_parts(rt, alloc, &mut controller, *addr, *want);
    }
}

/// Where a byte is and the last dword: after the first piece, the ends of the second, after it.
const COMPARED: &[(u64, u32)] = &[
    (0x3064, SUCCESS),
    (0x4001, DIFFERS),
    (0x412c, DIFFERS),
    (0x412d, SUCCESS),
];

#[test]
fn compares_pieces_that_part_inside_a_block(rt: HostRuntime) {
    check_compared(&rt, rt.alloc(), COMPARED);
}

// Whether so many bytes that count up from this one are at an address, and zeros after them: 512 bytes.
fn counting_at(
    rt: &impl Abort,
    controller: &FlatController,
    addr: u64,
    from: u8,
    len: usize,
) -> bool {
    let (mut bytes, mut want) = ([0; 512], [0; 512]);
    assert!(rt; controller.holds(addr, 512));
    controller.load(addr, &mut bytes);
    counting(rt, from, len, &mut want);
    bytes == want
}

// A controller that has read block 5 around a bucket, after the page was cleared.
fn read_around(rt: &impl Abort, alloc: Global, page: u64) -> FlatController {
    let mut controller = written_by_parts(rt, alloc);
    put(rt, &mut controller, page, &[0; 1024]);
    let read = through_parts(rt, &mut controller, READ_BY_SGL, BIT_BUCKET);
    run(rt, alloc, &mut controller, &read, SUCCESS);
    controller
}

fn check_around(rt: &impl Abort, alloc: Global, rows: &[(u64, u64, u8, usize)]) {
    for (page, addr, from, len) in rows {
        let controller = read_around(rt, alloc, *page);
        assert!(rt; counting_at(rt, &controller, *addr, *from, *len));
    }
}

/// A page, where its piece begins, the first byte that it gets, and how many: none for the bucket's.
const AROUND: &[(u64, u64, u8, usize)] = &[
    (0x3000, 0x3000, 0, 100),
    (0x4000, 0x4001, 100, 0),
    (0x5000, 0x5002, 144, 112),
];

#[test]
fn reads_around_a_bucket_inside_a_block(rt: HostRuntime) {
    check_around(&rt, rt.alloc(), AROUND);
}

const OUTSIDE: Row = (DATA_BLOCK, 0x2_0000, 512);

const UNKNOWN_KIND: Row = (UNKNOWN, 0x3000, 512);

const NO_BYTES: Row = (DATA_BLOCK, 0, 0);

// A Read with this descriptor, which names the two at 6000h: nothing is delivered.
macro_rules! faulty {
    ($kind:expr, $len:expr, $rows:expr, $want:expr) => {
        Case {
            rows: $rows,
            changes: &[(6, 0x6000), (8, $len), (9, $kind)],
            want: $want,
            memory: &[(0x3000, 0)],
            blocks: &[],
        }
    };
}

/// The last list names itself without end.
const FAULTY: &[Case] = &[
    faulty!(SEGMENT, 24, &[BLOCK, BLOCK], 0x801b_0007),
    faulty!(SEGMENT, 32, &[(SEGMENT, 0x7000, 16), BLOCK], 0x801d_0007),
    faulty!(
        LAST_SEGMENT,
        32,
        &[(SEGMENT, 0x7000, 16), BLOCK],
        0x801b_0007
    ),
    faulty!(UNKNOWN, 32, &[BLOCK, BLOCK], 0x8023_0007),
    faulty!(LAST_SEGMENT, 32, &[OUTSIDE, UNKNOWN_KIND], 0x8009_0007),
    faulty!(SEGMENT, 32, &[NO_BYTES, (SEGMENT, 0x6000, 32)], 0x000d_0007),
];

#[test]
fn answers_faulty_lists(rt: HostRuntime) {
    check(&rt, rt.alloc(), FAULTY);
}

// Puts 1,024 descriptors at 8000h: Data Blocks of no bytes, but for that of this number (from 1 on) with 512 bytes, and one of an
// unknown type (none for 0).
fn put_array(rt: &impl Abort, controller: &mut FlatController, whole: u32, unknown: u32) {
    for place in 0..1024u32 {
        let number = place + 1;
        let kind = if number == unknown {
            UNKNOWN
        } else {
            DATA_BLOCK
        };
        let len = if number == whole { 512 } else { 0 };
        put_descriptor(
            rt,
            controller,
            0x8000 + 16 * u64::from(place),
            (kind, 0x3000, len),
        );
    }
}

// A controller that was asked to read through an array of so many bytes.
fn read_array(
    rt: &impl Abort,
    alloc: Global,
    numbers: (u32, u32, u32),
    want: u32,
) -> FlatController {
    let (len, count, unknown) = numbers;
    let mut controller = prepared(rt, alloc);
    put_array(rt, &mut controller, count, unknown);
    let sqe = changed(rt, &[(6, 0x8000), (8, len), (9, LAST_SEGMENT)]);
    run(rt, alloc, &mut controller, &sqe, want);
    controller
}

fn check_arrays(rt: &impl Abort, alloc: Global, rows: &[((u32, u32, u32), u32, u8)]) {
    for (numbers, want, delivered) in rows {
        let controller = read_array(rt, alloc, *numbers, *want);
        filled_are(rt, &controller, &[(0x3000, *delivered)]);
    }
}

/// The bytes of the array, the number of its last descriptor and of one of type 4h (from 1 on, 0 for none), the last dword, and what is
/// delivered.
const ARRAYS: &[((u32, u32, u32), u32, u8)] = &[
    ((0x3ff0, 1023, 0), SUCCESS, 0x55),
    ((0x4000, 1024, 0), 0x000d_0007, 0),
    ((0x4000, 1024, 1023), 0x8023_0007, 0),
    ((0x4000, 1024, 1024), 0x000d_0007, 0),
];

#[test]
fn reads_a_thousand_descriptors(rt: HostRuntime) {
    check_arrays(&rt, rt.alloc(), ARRAYS);
}
