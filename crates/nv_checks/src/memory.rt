//! A guest's memory, as bytes from guest address 0 on, its map, and the descriptors in it.

ghost use Rattle.std.specs.Prelude.{◌≡◌, IfSome, length};

use nv_mem::{GuestMap, Region};
use std::alloc::Global;
use std::process::Abort;

/// The last byte of a descriptor: its type and subtype.
pub(crate) const DATA: u8 = 0x00;

pub(crate) const BUCKET: u8 = 0x10;

pub(crate) const SEGMENT: u8 = 0x20;

pub(crate) const LAST: u8 = 0x30;

/// A run of a guest's bytes.
macro_rules! run {
    ($addr:expr, $len:expr) => {
        nv_mem::Piece::Run {
            addr: $addr,
            len: $len,
        }
    };
}

pub(crate) use run;

/// Guest pages 0 to 15 and 16 to 31, which lie apart in the host.
pub(crate) const APART: &[Region] = &[
    Region {
        guest: 0,
        host: 0x10_0000,
        len: 0x1_0000,
    },
    Region {
        guest: 0x1_0000,
        host: 0x15_0000,
        len: 0x1_0000,
    },
];

/// The map of these regions.
pub(crate) fn map_of(rt: &impl Abort, alloc: Global, regions: &[Region]) -> GuestMap {
    let regions = Vec::from_slice(alloc, regions).expect(rt, "memory");
    GuestMap::new(0x100_0000, regions).expect(rt, "a map")
}

/// The map of a guest whose memory of so many bytes is mapped to its end, and no further.
pub(crate) fn whole_map(rt: &impl Abort, alloc: Global, len: u64) -> GuestMap {
    let region = Region {
        guest: 0,
        host: 0x10_0000,
        len,
    };
    map_of(rt, alloc, &[region])
}

/// The bytes of a descriptor of that last byte, address and length.
pub(crate) fn descriptor_bytes(kind: u8, addr: u64, len: u32) -> [u8; 16] {
    let mut bytes = [0; 16];
    bytes[..8].copy_from_slice(&addr.to_le_bytes());
    bytes[8..12].copy_from_slice(&len.to_le_bytes());
    bytes[15] = kind;
    bytes
}

/// Stores bytes in a memory, as far as it goes.
pub(crate) fn store(memory: &mut [u8], at: usize, bytes: &[u8]) {
    let Some(room) = memory.get_mut(at..) else {
        return;
    };
    for (at, place) in room.iter_mut().enumerate() {
        let Some(byte) = bytes.get(at) else {
            return;
        };
        *place = *byte;
    }
}

/// The bytes at an address, where they are there.
pub(crate) fn part(memory: &[u8], addr: u64, len: u64) -> Option<&[u8]>
    ensures { IfSome result (λ bytes. length bytes.now ≡ len) }
{
    let from = addr as usize;
    let len = len as usize;
    if from <= memory.len() && len <= memory.len() - from {
        Some(&memory[from..from + len])
    } else {
        None
    }
}
