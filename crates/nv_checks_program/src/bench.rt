//! A world with two lanes and two guests, each with 128 KiB of memory and 64 blocks, and the entries of their commands.

use nv_bringup::{BLOCKS, Span, guest_at, io_entry, setup_of};
use nv_world::{GuestSetup, World};
use std::alloc::Global;

/// How many bytes the host has.
pub const HOST: u64 = 0x200_0000;

/// The host address of each guest's first byte, and the disk's block that is each guest's first.
pub const IMAGES: [u64; 2] = [0x10_0000, 0x20_0000];

pub const BASES: [u64; 2] = [1000, 2000];

// What one guest is to have.
fn guest(alloc: Global, image: u64, base: u64) -> Option<GuestSetup> {
    let span = Span {
        base,
        blocks: BLOCKS,
    };
    guest_at(alloc, HOST, image, &[span])
}

/// The world at its start; none where memory was refused.
pub fn opened(alloc: Global) -> Option<World> {
    let first = guest(alloc, IMAGES[0], BASES[0])?;
    let second = guest(alloc, IMAGES[1], BASES[1])?;
    let guests = vec![in alloc; first, second].ok()?;
    World::new(alloc, setup_of(HOST, 2, guests)).ok()
}

/// A Read of block 5 into 3000h by one Data Block, as command 7.
pub const READ_BY_LIST: [u32; 16] = io_entry!(0x0007_4002, [0x3000, 0, 512, 0], [5, 0, 0]);

/// A Write of block 5 from 4000h by PRP, as command 1.
pub const WRITE_BY_PRP: [u32; 16] = io_entry!(0x0001_0001, [0x4000, 0, 0, 0], [5, 0, 0]);

/// A Flush, as command 2.
pub const FLUSH: [u32; 16] = io_entry!(0x0002_0000, [0, 0, 0, 0], [0, 0, 0]);

/// A Read of block 5 into 6000h by PRP, as command 3.
pub const READ_BY_PRP: [u32; 16] = io_entry!(0x0003_0002, [0x6000, 0, 0, 0], [5, 0, 0]);

/// A Read of block 5 through a Last Segment of 1,000 descriptors at 4000h, as command 7.
pub const READ_BY_SEGMENT: [u32; 16] = io_entry!(
    0x0007_4002,
    [0x4000, 0, 16000, 0x3000_0000],
    [5, 0, 0]
);
