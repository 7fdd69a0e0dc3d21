//! A guest's commands on the world and on a flat controller: they end alike, and leave the same bytes, blocks and
//! marks, whatever extents the guest's namespace has.

use crate::bench::{Bench, WHOLE, block_of};
use crate::commands::{ROWS, Row, TABLES, entry};
use nv_bringup::{BLOCKS, DISK, MEMORY, SLOTS, Span};
use nv_entry::{Cqe, Sqe, Status, StatusCode};
use nv_flat::FlatController;
use nv_mem::PAGE_SIZE;
use std::alloc::Global;
use std::process::Abort;

const FIRST_QUEUE: u64 = 0x1_0000;

const BEHIND_QUEUES: u64 = 0x1_4000;

/// Extents in a row: so many blocks each, from those blocks of the disk on.
macro_rules! spans {
    ($($base:literal + $blocks:literal),*) => {
        &[$(Span { base: $base, blocks: $blocks }),*]
    };
}

/// Namespaces of 64 blocks, of one extent to eight. Joins are after the middle block, before the last, within pages of a transfer, within a
/// descriptor's bytes, within a range of Dataset Management, and up to seven in one transfer.
const NAMESPACES: &[&[Span]] = &[
    WHOLE,
    spans![1000 + 32, 3000 + 32],
    spans![2000 + 3, 1000 + 10, 500 + 51],
    spans![1000 + 1, 100 + 24, 3000 + 7, 4064 + 32],
    spans![2000 + 2, 1993 + 7, 1989 + 4, 0 + 50, 4095 + 1],
    spans![1000 + 2, 1002 + 1, 900 + 6, 1003 + 20, 3000 + 34, 999 + 1],
    spans![
        7 + 1,
        5 + 1,
        3 + 1,
        1000 + 10,
        982 + 18,
        3000 + 31,
        1010 + 2
    ],
    spans![
        1000 + 26,
        998 + 2,
        996 + 2,
        993 + 3,
        992 + 1,
        988 + 4,
        986 + 2,
        1026 + 24
    ],
];

/// A world and a flat controller with the same bytes in memory.
#[derive(Drop)]
struct Pair {
    bench: Bench,
    flat: FlatController,
    spans: &'static [Span],
}

impl Pair {
    // Both at their start, the world's guest with its queues and these extents.
    fn new(alloc: Global, spans: &'static [Span]) -> Option<Self> {
        let mut bench = Bench::new(alloc, 1, &[spans], SLOTS)?;
        bench.bring_up(0);
        let flat = FlatController::new(alloc, MEMORY, BLOCKS).ok()?;
        Some(Pair { bench, flat, spans })
    }

    // Both store bytes.
    fn store(&mut self, addr: u64, bytes: &[u8]) {
        if self.flat.holds(addr, bytes.len() as u64) {
            self.flat.store(addr, bytes);
            self.bench.store(0, addr, bytes);
        }
    }

    // Whether a page of memory is the same.
    fn is_same_page(&self, addr: u64) -> bool {
        let mut bytes = [0; PAGE_SIZE as usize];
        if !self.flat.holds(addr, PAGE_SIZE) {
            return false;
        }
        self.flat.load(addr, &mut bytes);
        self.bench.shows(0, addr, &bytes)
    }

    // Whether all pages are the same but those of the queues.
    fn are_same_pages(&self) -> bool {
        for page in 0..MEMORY / PAGE_SIZE {
            let addr = page * PAGE_SIZE;
            let queue = FIRST_QUEUE <= addr && addr < BEHIND_QUEUES;
            if !queue && !self.is_same_page(addr) {
                return false;
            }
        }
        true
    }

    // Whether a block and its mark are the same.
    fn is_same_block(&self, block: u64) -> bool {
        if block >= self.flat.blocks() {
            return false;
        }
        let Some(number) = block_of(self.spans, block) else {
            return false;
        };
        let world = &self.bench.world;
        world.block(number) == Some(self.flat.block(block))
            && world.kept(number) == Some(self.flat.kept(block))
    }

    // Whether all blocks and their marks are the same.
    fn are_same_blocks(&self) -> bool {
        for block in 0..BLOCKS {
            if !self.is_same_block(block) {
                return false;
            }
        }
        true
    }

    // Whether a block of the disk is the guest's, or has the bytes of the start.
    fn is_left(&self, number: u64) -> bool {
        is_in(self.spans, number) || self.bench.world.block(number) == Some(&[0; 512])
    }

    // Whether all blocks of the disk are that.
    fn are_left(&self) -> bool {
        for number in 0..DISK {
            if !self.is_left(number) {
                return false;
            }
        }
        true
    }

    // Stores the pattern from a000h to ffffh.
    fn fill(&mut self) {
        for page in 10..16 {
            self.store(PAGE_SIZE * page, &pattern(page));
        }
    }

    // Stores the lists and ranges.
    fn set_tables(&mut self, rows: &[(u64, u64, u64)]) {
        for (addr, low, high) in rows {
            let bytes = (u128::from(*low) | u128::from(*high) << 64).to_le_bytes();
            self.store(*addr, &bytes);
        }
    }

    // The completion of a command in the world; its tags and units have their turn backwards where its number is odd.
    fn serve(&mut self, number: u16, sqe: &Sqe) -> Option<Cqe> {
        self.bench.backwards = number % 2 == 1;
        self.bench.serve(number, sqe)
    }

    // Whether the two are the same, and nothing is left of the commands so far.
    fn is_same(&self) -> bool {
        !self.bench.failed
            && self.bench.is_free(0)
            && self.are_same_pages()
            && self.are_same_blocks()
    }
}

// Whether a block of the disk is in one of these extents.
fn is_in(spans: &[Span], number: u64) -> bool {
    for span in spans {
        if span.base <= number && number.wrapping_sub(span.base) < span.blocks {
            return true;
        }
    }
    false
}

// The bytes of a page of a pattern in which no two blocks are equal.
fn pattern(page: u64) -> [u8; PAGE_SIZE as usize] {
    let mut bytes = [0u8; PAGE_SIZE as usize];
    for (at, byte) in bytes.iter_mut().enumerate() {
        let block = page.wrapping_mul(8).wrapping_add(at as u64 / 512);
        let value = block
            .wrapping_mul(37)
            .wrapping_add((at as u64).wrapping_mul(11));
        *byte = (value % 256) as u8;
    }
    bytes
}

// The status of a code: refusals carry DNR, a Compare that differs does not.
fn status_of(code: StatusCode) -> Status {
    match code {
        StatusCode::Success | StatusCode::CompareFailure => code.status(),
        _ => code.refused(),
    }
}

// Whether a completion is that of this command, as the world's queue has it at its slot.
fn is_queued(ended: &Cqe, number: u16, want: Status) -> bool {
    ended.status() == want
        && ended.cid() == number
        && ended.dw0() == 0
        && ended.sqid() == 1
        && ended.sqhd() == number.wrapping_add(1) % 16
        && ended.phase() == (number / 16 % 2 == 0)
}

// Ends the test where the flat controller ends a command otherwise than is wanted.
fn expect_flat(rt: &impl Abort, ended: &Cqe, number: u16, row: &Row) {
    let is_wanted = ended.status() == status_of(row.want);
    assert!(rt;
        is_wanted && ended.dw0() == 0 && ended.cid() == number,
        "{}",
        row.name
    );
}

// Ends the test where the world ends a command otherwise than is wanted.
fn expect_queued(rt: &impl Abort, ended: Option<Cqe>, number: u16, row: &Row) {
    let ended = ended.expect(rt, row.name);
    assert!(rt;
        is_queued(&ended, number, status_of(row.want)),
        "{}",
        row.name
    );
}

// Ends the test where the two end a command otherwise than is wanted, or differ after it.
fn expect(rt: &impl Abort, alloc: Global, pair: &mut Pair, number: u16, row: &Row) {
    let sqe = entry(row, number);
    let flat = pair.flat.one(alloc, &sqe).expect(rt, "a completion");
    expect_flat(rt, &flat, number, row);
    let ended = pair.serve(number, &sqe);
    expect_queued(rt, ended, number, row);
    assert!(rt;
        pair.is_same(),
        "{} of {} extents",
        row.name,
        pair.spans.len()
    );
}

// Ends the test where the two differ along these commands.
fn expect_all(rt: &impl Abort, alloc: Global, pair: &mut Pair, rows: &[Row]) {
    let mut number = 0;
    for row in rows {
        expect(rt, alloc, pair, number, row);
        number = number.wrapping_add(1);
    }
    assert!(rt; pair.are_left(), "{} extents", pair.spans.len());
}

// Ends the test where the two differ with a namespace of these extents.
fn expect_alike(rt: &impl Abort, alloc: Global, spans: &'static [Span]) {
    let mut pair = Pair::new(alloc, spans).expect(rt, "a pair");
    pair.fill();
    pair.set_tables(TABLES);
    expect_all(rt, alloc, &mut pair, ROWS);
}

#[test]
fn ends_commands_as_the_flat_controller_does(rt: HostRuntime) {
    assert_eq!(rt; ROWS.len(), 40);
    for spans in NAMESPACES {
        expect_alike(&rt, rt.alloc(), spans);
    }
}
