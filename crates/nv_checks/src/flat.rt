//! Worked commands, with values from outside.

mod blocks;
mod region_pages;
mod segments;

use nv_entry::Sqe;
use nv_flat::FlatController;
use std::alloc::Global;
use std::process::Abort;

/// Dword 0 of a Write, a Read and a Compare by an SGL, CID 7.
pub(crate) const WRITE_BY_SGL: u32 = 0x0007_4001;

pub(crate) const READ_BY_SGL: u32 = 0x0007_4002;

pub(crate) const COMPARE_BY_SGL: u32 = 0x0007_4005;

/// The last dword of the completion of a command that succeeds.
pub(crate) const SUCCESS: u32 = 0x0001_0007;

/// The last dword of the completion of a Compare that differs.
pub(crate) const DIFFERS: u32 = 0x050b_0007;

/// A controller with 20000h bytes of memory and 64 blocks, of which block 5 is filled with 55h and block 6 with 66h.
pub(crate) fn prepared(rt: &impl Abort, alloc: Global) -> FlatController {
    let mut controller = FlatController::new(alloc, 0x2_0000, 64).expect(rt, "memory");
    assert!(rt; controller.blocks() == 64);
    controller.paint(5, 0x55);
    controller.paint(6, 0x66);
    controller
}

/// Puts bytes into a controller's memory.
pub(crate) fn put(rt: &impl Abort, controller: &mut FlatController, addr: u64, bytes: &[u8]) {
    assert!(rt; controller.holds(addr, bytes.len() as u64));
    controller.store(addr, bytes);
}

// The 16 bytes of a completion at head 1 of queue 1 that ends in this dword.
fn completion(last: u32) -> [u8; 16] {
    let mut bytes = [0, 0, 0, 0, 0, 0, 0, 0, 1, 0, 1, 0, 0, 0, 0, 0];
    bytes[12..].copy_from_slice(&last.to_le_bytes());
    bytes
}

/// Runs a command, whose completion ends in this dword.
pub(crate) fn run(
    rt: &impl Abort,
    alloc: Global,
    controller: &mut FlatController,
    sqe: &Sqe,
    want: u32,
) {
    let ended = controller.one(alloc, sqe).expect(rt, "memory");
    assert!(rt; ended.bytes() == completion(want), "{ended:?}");
}

// Whether each of the 512 bytes from an address on is this one.
fn filled(rt: &impl Abort, controller: &FlatController, addr: u64, byte: u8) -> bool {
    let mut bytes = [0; 512];
    assert!(rt; controller.holds(addr, 512));
    controller.load(addr, &mut bytes);
    bytes == [byte; 512]
}

/// Each of these addresses begins 512 bytes of this value.
pub(crate) fn filled_are(rt: &impl Abort, controller: &FlatController, want: &[(u64, u8)]) {
    for (addr, byte) in want {
        assert!(rt; filled(rt, controller, *addr, *byte), "{addr:#x}");
    }
}

fn block_is(rt: &impl Abort, controller: &FlatController, block: u64, byte: u8) -> bool {
    assert!(rt; block < controller.blocks());
    *controller.block(block) == [byte; 512]
}

/// Each of these blocks is filled with this byte.
pub(crate) fn blocks_are(rt: &impl Abort, controller: &FlatController, want: &[(u64, u8)]) {
    for (block, byte) in want {
        assert!(rt; block_is(rt, controller, *block, *byte), "{block}");
    }
}

fn is_kept(rt: &impl Abort, controller: &FlatController, block: u64) -> bool {
    assert!(rt; block < controller.blocks());
    controller.kept(block)
}

/// Each of these blocks is kept, or is not.
pub(crate) fn marks_are(rt: &impl Abort, controller: &FlatController, want: &[(u64, bool)]) {
    for (block, kept) in want {
        assert_eq!(rt; is_kept(rt, controller, *block), *kept, "{block}");
    }
}
