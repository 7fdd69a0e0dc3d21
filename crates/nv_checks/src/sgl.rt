//! Lists over a flat memory of 128 KiB, by a driver that feeds what is wanted.
mod lists;
mod long_lists;
mod refusals;
mod starved;

use crate::memory::{BUCKET, DATA, LAST, SEGMENT, descriptor_bytes, part, store, whole_map};
use nv_entry::{Descriptor, StatusCode};
use nv_mem::{GuestMap, NoMemory, Piece};
use nv_sgl::{Chain, PlacesParse, SglParse, Want};
use std::alloc::{Allocator, Global};
use std::process::Abort;
use std::test::Fail;

/// A descriptor as a table has it: its last byte, which is the type and the subtype, its address and its length.
pub(crate) type Row = (u8, u64, u32);

// The bytes of a descriptor.
fn bytes_of((kind, addr, len): Row) -> [u8; 16] {
    descriptor_bytes(kind, addr, len)
}

pub(crate) fn descriptor(row: Row) -> Descriptor {
    Descriptor::of(&bytes_of(row))
}

// A memory of zeros, which are Data Blocks of length 0, with these descriptors in it.
fn memory_of(alloc: Global, rows: &[(usize, Row)]) -> Result<Vec<u8>, NoMemory> {
    let mut memory = vec![in alloc; 0u8; 0x20000]?;
    for (at, row) in rows {
        store(&mut memory, *at, &bytes_of(*row));
    }
    Ok(memory)
}

/// A guest's memory, and the map of it.
#[derive(Drop)]
pub(crate) struct Guest {
    pub(crate) memory: Vec<u8>,
    pub(crate) map: GuestMap,
}

// The guest's memory is mapped to its end, and no further.
fn map(rt: &impl Abort, alloc: Global) -> GuestMap {
    whole_map(rt, alloc, 0x2_0000)
}

fn guest_of(rt: &impl Abort, alloc: Global, memory: Vec<u8>) -> Guest {
    Guest {
        memory,
        map: map(rt, alloc),
    }
}

/// A guest with these descriptors in its memory.
pub(crate) fn guest_with(rt: &impl Abort, alloc: Global, rows: &[(usize, Row)]) -> Guest {
    guest_of(rt, alloc, memory_of(alloc, rows).expect(rt, "memory"))
}

/// Feeds the parse the next part that it wants, or says how it ended.
pub(crate) fn step<A: Allocator + Clone>(
    parse: &mut SglParse<'_, A>,
    memory: &[u8],
) -> Result<Option<Want>, NoMemory> {
    match parse.wants() {
        Want::Read { addr, len } => match part(memory, addr, u64::from(len)) {
            Some(bytes) => {
                parse.feed(bytes)?;
                Ok(None)
            }
            None => Ok(Some(Want::Read { addr, len })),
        },
        end => Ok(Some(end)),
    }
}

// Feeds the parse until it ends.
fn drive<A: Allocator + Clone>(
    parse: &mut SglParse<'_, A>,
    memory: &[u8],
) -> Result<Want, NoMemory> {
    for _ in 0..2000 {
        if let Some(end) = step(parse, memory)? {
            return Ok(end);
        }
    }
    Ok(parse.wants())
}

/// Feeds the parse so many parts, and says whether it wanted each of them.
pub(crate) fn takes_parts<A: Allocator + Clone>(
    parse: &mut SglParse<'_, A>,
    memory: &[u8],
    parts: u32,
) -> Result<bool, NoMemory> {
    for _ in 0..parts {
        if step(parse, memory)?.is_some() {
            return Ok(false);
        }
    }
    Ok(true)
}

// How many arrays a chain has.
fn arrays<A: Allocator>(chain: &Chain<A>) -> u32 {
    let mut next = Some(chain);
    for count in 0..2000u32 {
        let Some(older) = next else {
            return count;
        };
        next = older.next();
    }
    0
}

/// A list of three arrays, the last of them in two parts. It is named by `FIRST_OF_THREE`.
pub(crate) const THREE_ARRAYS: &[(usize, Row)] = &[
    (0x6000, (DATA, 0x3000, 512)),
    (0x6010, (LAST, 0x8000, 16 * 257)),
    (0x9000, (DATA, 0x5000, 512)),
];

const FIRST_OF_THREE: Row = (SEGMENT, 0x6000, 32);

const PIECES_OF_THREE: &[Piece] = &[
    Piece::Run {
        addr: 0x3000,
        len: 512,
    },
    Piece::Run {
        addr: 0x5000,
        len: 512,
    },
];

/// A parse of the list of three arrays.
pub(crate) fn parse_of_three<A: Allocator + Clone>(
    heap: A,
    map: &GuestMap,
) -> Result<SglParse<'_, A>, NoMemory> {
    SglParse::new(heap, map, descriptor(FIRST_OF_THREE), true, 1024)
}

/// Whether a parse has read the list of three arrays.
pub(crate) fn has_read_three<A: Allocator + Clone>(
    alloc: Global,
    parse: &SglParse<'_, A>,
) -> Result<bool, NoMemory> {
    Ok(
        parse.wants() == Want::Done
            && arrays(parse.chain()) == 3
            && parse.places(alloc)?.pieces() == PIECES_OF_THREE,
    )
}

/// A guest with a list of 512 arrays: each names a block and the next array. It has 1,023 descriptors.
pub(crate) fn guest_with_long_list(rt: &impl Abort, alloc: Global) -> Guest {
    guest_of(rt, alloc, long_list(alloc).expect(rt, "memory"))
}

fn long_list(alloc: Global) -> Result<Vec<u8>, NoMemory> {
    let mut memory = memory_of(alloc, &[])?;
    for i in 0u32..511 {
        let at = 0x4000 + 32 * i as usize;
        let block = bytes_of((DATA, 0x1000 + 16 * u64::from(i), 16));
        store(&mut memory, at, &block);
        if i < 510 {
            let next = bytes_of((SEGMENT, 0x4020 + 32 * u64::from(i), 32));
            store(&mut memory, at + 16, &next);
        }
    }
    Ok(memory)
}

/// A parse of the long list.
pub(crate) fn parse_of_long_list<A: Allocator + Clone>(
    heap: A,
    map: &GuestMap,
) -> Result<SglParse<'_, A>, NoMemory> {
    SglParse::new(heap, map, descriptor((SEGMENT, 0x4000, 32)), true, 511 * 16)
}
