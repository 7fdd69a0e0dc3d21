//! Commands by PRP entries and lists.

use crate::flat::{SUCCESS, filled_are, put, run};
use crate::hand::changed;
use nv_entry::Sqe;
use nv_flat::FlatController;
use std::alloc::Global;
use std::process::Abort;

// A Read by PRPs of that many blocks from LBA 0, NLB counted from 0.
fn by_prp(rt: &impl Abort, nlb: u32, prp1: u32, prp2: u32) -> Sqe {
    let changes = [(0, 0x0007_0002), (6, prp1), (8, prp2), (10, 0), (12, nlb)];
    changed(rt, &changes)
}

// A controller with 40000h bytes of memory and 256 blocks, of which each is filled with its number.
fn numbered(rt: &impl Abort, alloc: Global) -> FlatController {
    let mut controller = FlatController::new(alloc, 0x4_0000, 256).expect(rt, "memory");
    for block in 0..=255 {
        assert!(rt; controller.blocks() == 256);
        controller.paint(u64::from(block), block);
    }
    controller
}

// Puts PRP entries at these addresses.
fn put_entries(rt: &impl Abort, controller: &mut FlatController, entries: &[(u64, u64)]) {
    for (addr, entry) in entries {
        put(rt, controller, *addr, &entry.to_le_bytes());
    }
}

// A numbered controller that was asked for a Read to 3000h with these entries in its memory.
fn read_with(
    rt: &impl Abort,
    alloc: Global,
    entries: &[(u64, u64)],
    sqe: &Sqe,
    want: u32,
) -> FlatController {
    let mut controller = numbered(rt, alloc);
    put_entries(rt, &mut controller, entries);
    run(rt, alloc, &mut controller, sqe, want);
    controller
}

// The pages at 3000h, 8000h and 9000h have the blocks from 0 on.
fn three_pages_are(rt: &impl Abort, controller: &FlatController) {
    for block in 0..8u8 {
        let at = 512 * u64::from(block);
        let pages = [
            (0x3000 + at, block),
            (0x8000 + at, block + 8),
            (0x9000 + at, block + 16),
        ];
        filled_are(rt, controller, &pages);
    }
}

fn check_reads(rt: &impl Abort, alloc: Global, rows: &[(u32, &[(u64, u64)])]) {
    for (prp2, entries) in rows {
        let sqe = by_prp(rt, 23, 0x3000, *prp2);
        let controller = read_with(rt, alloc, entries, &sqe, SUCCESS);
        three_pages_are(rt, &controller);
    }
}

/// PRP2 and the entries: a list that chains at the end of its page, and one that is within the page.
const READS: &[(u32, &[(u64, u64)])] = &[
    (
        0x6ff8,
        &[(0x6ff8, 0x7000), (0x7000, 0x8000), (0x7008, 0x9000)],
    ),
    (
        0x6ff0,
        &[(0x6ff8, 0x7000), (0x6ff0, 0x8000), (0x6ff8, 0x9000)],
    ),
];

#[test]
fn reads_by_region_pages(rt: HostRuntime) {
    check_reads(&rt, rt.alloc(), READS);
}

// Puts a list of 32 entries at 2000h: the pages from 10000h on.
fn put_32_entries(rt: &impl Abort, controller: &mut FlatController) {
    for entry in 0..32u8 {
        let page = 0x1_0000 + 0x1000 * u64::from(entry);
        put(
            rt,
            controller,
            0x2000 + 8 * u64::from(entry),
            &page.to_le_bytes(),
        );
    }
}

// A numbered controller that has read 33 pages, from 3004h on. Block 255 ends 4 bytes past the beginning of the last page.
fn read_33(rt: &impl Abort, alloc: Global) -> FlatController {
    let mut controller = numbered(rt, alloc);
    put_32_entries(rt, &mut controller);
    let sqe = by_prp(rt, 255, 0x3004, 0x2000);
    run(rt, alloc, &mut controller, &sqe, SUCCESS);
    controller
}

// The 8 bytes at an address.
fn eight_at(rt: &impl Abort, controller: &FlatController, addr: u64) -> [u8; 8] {
    let mut bytes = [0xee; 8];
    assert!(rt; controller.holds(addr, 8));
    controller.load(addr, &mut bytes);
    bytes
}

#[test]
fn reads_33_region_pages(rt: HostRuntime) {
    let controller = read_33(&rt, rt.alloc());
    filled_are(
        &rt,
        &controller,
        &[(0x3004, 0), (0x1_0004, 8), (0x2_ee04, 255)],
    );
    assert!(rt; eight_at(&rt, &controller, 0x2_f000) == [255, 255, 255, 255, 0, 0, 0, 0]);
}

fn check_refusals(rt: &impl Abort, alloc: Global, rows: &[(u32, u32, u64, u32)]) {
    for (nlb, prp2, pointer, want) in rows {
        let sqe = by_prp(rt, *nlb, 0x3000, *prp2);
        let entries = [(0x6ff8, *pointer), (0x7000, 0x8000), (0x7008, 0x9000)];
        let controller = read_with(rt, alloc, &entries, &sqe, *want);
        filled_are(rt, &controller, &[(0x3200, 0), (0x8000, 0)]);
    }
}

/// NLB, PRP2, the entry at 6FF8h, and the last dword; PRP1 is 3000h.
const REFUSED: &[(u32, u32, u64, u32)] = &[
    (15, 0x5004, 0x7000, 0x8027_0007),
    (23, 0x6ffc, 0x7000, 0x8027_0007),
    (23, 0x6ff8, 0x7008, 0x8027_0007),
    (15, 0x4_0000, 0x7000, 0x8009_0007),
];

#[test]
fn refuses_region_pages(rt: HostRuntime) {
    check_refusals(&rt, rt.alloc(), REFUSED);
}
