//! What units do to host, blocks and marks.

use crate::device::bench::{Bench, Entry, MEDIATOR};
use nv_device::Response;
use nv_entry::StatusCode;
use nv_model::limits::{CQE_SIZE, PAGE_SIZE, RING_SLOTS, SUBMISSION_RING_PAGES};
use std::alloc::Global;
use std::test::Fail;

/// A page of the host outside the mediator's area.
const PAGE: u64 = 0x10_3000;

/// FUA, in CDW12.
const FUA: u32 = 1 << 30;

/// A command of one block at LBA 5, with its bytes at the page.
fn on_block(opcode: u8, cdw12: u32) -> Entry {
    Entry {
        prp1: PAGE,
        cdw10: 5,
        cdw12,
        ..Entry::new(opcode)
    }
}

/// Whether a Write of this byte to block 5 runs at that slot.
fn writes(bench: &mut Bench, alloc: Global, at: u16, byte: u8, fua: u32) -> bool {
    bench.store(PAGE, &[byte; 512]) && bench.runs(alloc, 0, at, &on_block(1, fua), 1)
}

/// Whether the last dword of the completion in a slot is this, in the first pass.
fn dword_is(bench: &Bench, at: u64, dword: u32) -> bool {
    at < u64::from(RING_SLOTS)
        && bench.shows(
            MEDIATOR + SUBMISSION_RING_PAGES * PAGE_SIZE + CQE_SIZE * at + 12,
            &dword.to_le_bytes(),
        )
}

#[test]
fn reads_and_writes(rt: HostRuntime) -> Result<(), Fail> {
    let mut bench = Bench::new(rt.alloc(), 0x100_0000, 1, 64)?.expect(
        &rt,
        "a device of these sizes",
    );
    assert!(rt; writes(&mut bench, rt.alloc(), 0, 0x11, FUA) && bench.block_is(5, 0x11, true));
    assert!(rt; writes(&mut bench, rt.alloc(), 1, 0x22, 0) && bench.block_is(5, 0x22, false));
    assert!(rt; bench.block_is(4, 0, false) && bench.block_is(6, 0, false));
    // a Read leaves the mark, but with FUA
    assert!(rt;
        bench.store(PAGE, &[0xee; 1024]) && bench.runs(rt.alloc(), 0, 2, &on_block(2, 0), 1)
    );
    assert!(rt; bench.is_filled(PAGE, 512, 0x22) && bench.is_filled(PAGE + 512, 512, 0xee));
    assert!(rt;
        bench.block_is(5, 0x22, false) && bench.runs(rt.alloc(), 0, 3, &on_block(2, FUA), 1)
    );
    assert!(rt; bench.block_is(5, 0x22, true) && dword_is(&bench, 3, 0x0001_0000));
    Ok(())
}

#[test]
fn compares(rt: HostRuntime) -> Result<(), Fail> {
    let mut bench = Bench::new(rt.alloc(), 0x100_0000, 1, 64)?.expect(
        &rt,
        "a device of these sizes",
    );
    assert!(rt; writes(&mut bench, rt.alloc(), 0, 0x33, 0));
    // blocks 5 and 6 against 33h and zeros
    let two = on_block(5, 1);
    assert!(rt; bench.store(PAGE + 512, &[0; 512]) && bench.runs(rt.alloc(), 0, 1, &two, 2));
    assert!(rt; dword_is(&bench, 1, 0x0001_0000));
    // the last byte of the last block alone differs
    assert!(rt; bench.store(PAGE + 1023, &[1]) && bench.runs(rt.alloc(), 0, 2, &two, 2));
    assert!(rt; dword_is(&bench, 2, 0x050b_0000));
    // the first alone does, and moves first
    assert!(rt;
        bench.store(PAGE, &[1])
            && bench.store(PAGE + 1023, &[0])
            && bench.runs(rt.alloc(), 0, 3, &two, 2)
    );
    assert!(rt; dword_is(&bench, 3, 0x050b_0000));
    assert!(rt; bench.block_is(5, 0x33, false) && bench.block_is(6, 0, false));
    Ok(())
}

#[test]
fn clears_and_keeps(rt: HostRuntime) -> Result<(), Fail> {
    let mut bench = Bench::new(rt.alloc(), 0x100_0000, 1, 64)?.expect(
        &rt,
        "a device of these sizes",
    );
    assert!(rt;
        writes(&mut bench, rt.alloc(), 0, 0x44, 0)
            && bench.runs(rt.alloc(), 0, 1, &on_block(8, FUA), 1)
    );
    assert!(rt; bench.block_is(5, 0, true) && bench.block_is(4, 0, false));
    // a Flush keeps every block, the first and the last
    assert!(rt; bench.runs(rt.alloc(), 0, 2, &Entry::new(0), 1));
    assert!(rt; bench.block_is(0, 0, true) && bench.block_is(63, 0, true));
    assert!(rt; writes(&mut bench, rt.alloc(), 3, 0x44, 0) && bench.block_is(5, 0x44, false));
    assert!(rt; bench.device.keep(5) == Response::Done && bench.block_is(5, 0x44, true));
    assert!(rt; bench.device.keep(64) == Response::Idle);
    Ok(())
}

/// A range: no attributes, its length and its first block.
fn range(bytes: &mut [u8; 32], at: usize, len: u8, start: u64) {
    if at <= 16 {
        bytes[at + 4] = len;
        bytes[at + 8..at + 16].copy_from_slice(&start.to_le_bytes());
    }
}

#[test]
fn manages_ranges(rt: HostRuntime) -> Result<(), Fail> {
    let mut bench = Bench::new(rt.alloc(), 0x100_0000, 1, 64)?.expect(
        &rt,
        "a device of these sizes",
    );
    // two blocks from 5 on, and none from far past the end of the disk
    let mut bytes = [0; 32];
    range(&mut bytes, 0, 2, 5);
    range(&mut bytes, 16, 0, u64::MAX);
    let manage = Entry {
        prp1: PAGE + 0x1000,
        cdw10: 1,
        ..Entry::new(9)
    };
    assert!(rt; bench.store(PAGE + 0x1000, &bytes) && writes(&mut bench, rt.alloc(), 0, 0x55, FUA));
    // without the deallocate bit nothing changes
    assert!(rt; bench.runs(rt.alloc(), 0, 1, &manage, 2) && bench.block_is(5, 0x55, true));
    let deallocate = Entry { cdw11: 4, ..manage };
    assert!(rt; bench.runs(rt.alloc(), 0, 2, &deallocate, 2) && bench.block_is(5, 0, false));
    assert!(rt; dword_is(&bench, 2, 0x0001_0000));
    // a range is read as it is when it moves
    assert!(rt; writes(&mut bench, rt.alloc(), 3, 0x55, 0));
    assert!(rt;
        bench.enter(0, 4, &deallocate) && bench.take(rt.alloc(), 0) == Some(Response::Done)
    );
    range(&mut bytes, 0, 1, 63);
    assert!(rt;
        bench.store(PAGE + 0x1000, &bytes) && bench.move_unit(0, 0, 0) == Some(Response::Done)
    );
    assert!(rt; bench.block_is(5, 0x55, false));
    Ok(())
}

#[test]
fn a_failed_command_moves_nothing(rt: HostRuntime) -> Result<(), Fail> {
    let mut bench = Bench::new(rt.alloc(), 0x100_0000, 1, 64)?.expect(
        &rt,
        "a device of these sizes",
    );
    assert!(rt; bench.store(PAGE, &[0x66; 512]) && bench.enter(0, 0, &on_block(1, 0)));
    assert!(rt; bench.take(rt.alloc(), 0) == Some(Response::Done));
    let status = StatusCode::UnrecoveredReadError.status();
    // no command is on identifier 1, and success is no failure
    assert!(rt; bench.fail(0, 1, status) == Some(Response::Idle));
    assert!(rt; bench.fail(0, 0, StatusCode::Success.refused()).is_none());
    assert!(rt; bench.fail(0, 0, status) == Some(Response::Done));
    assert!(rt; dword_is(&bench, 0, 0x0503_0000) && bench.block_is(5, 0, false));
    assert!(rt;
        bench.move_unit(0, 0, 0) == Some(Response::Idle) && bench.post(0, 0) == Some(Response::Idle)
    );
    Ok(())
}
