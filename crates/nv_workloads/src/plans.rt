//! Plans of one command, made again and again.

use byteorder::{ByteOrder, LittleEndian};
use nv_entry::Sqe;
use nv_mem::{Bytes, GuestMap, NoMemory, Region};
use nv_model::limits::MOST_DESCRIPTORS;
use nv_ns::{Extent, VirtualNs};
use nv_plan::{Job, Planned, ReadDone, Transcript, make_plan};
use std::alloc::Global;

/// A kind of command.
#[derive(Clone, Copy, Debug, PartialEq, Eq)]
pub enum Kind {
    /// A Read of one block through a Last Segment of 1,023 Data Blocks.
    Descriptors,
    /// A Dataset Management of 256 ranges.
    Ranges,
    /// A Read of 24 blocks whose list of region pages chains.
    Pages,
}

impl Kind {
    /// The kind of that name.
    pub fn of(word: &str) -> Option<Self> {
        match word {
            "descriptors" => Some(Kind::Descriptors),
            "ranges" => Some(Kind::Ranges),
            "pages" => Some(Kind::Pages),
            _ => None,
        }
    }

    // The dwords of its command that are not 0.
    fn dwords(self) -> &'static [(usize, u32)] {
        match self {
            Kind::Descriptors => &[
                (0, 0x0007_4002),
                (1, 1),
                (6, 0x8000),
                (8, 16 * 1023),
                (9, 0x3000_0000),
            ],
            Kind::Ranges => &[(0, 0x0007_4009), (1, 1), (6, 0x3000), (8, 4096), (10, 255)],
            Kind::Pages => &[(0, 0x0007_0002), (1, 1), (6, 0x3000), (8, 0x6ff8), (12, 23)],
        }
    }

    // What is read of its lists.
    fn reads(self) -> &'static [(u64, usize)] {
        match self {
            Kind::Descriptors => &[
                (0x8000, 4096),
                (0x9000, 4096),
                (0xa000, 4096),
                (0xb000, 4080),
            ],
            Kind::Ranges => &[(0x3000, 4096)],
            Kind::Pages => &[(0x6ff8, 8), (0x7000, 16)],
        }
    }
}

// The bytes that are read at an address.
fn bytes_at(alloc: Global, addr: u64, len: usize) -> Result<Vec<u8>, NoMemory> {
    let mut bytes = vec![in alloc; 0u8; len]?;
    let (at, value): (usize, u16) = match addr {
        // the last descriptor is a Data Block of 512 bytes at 3000h
        0xb000 => (len.saturating_sub(16), 0x3000),
        // the list goes on at 7000h, with pages 8000h and 9000h
        0x6ff8 => (0, 0x7000),
        0x7000 => (0, 0x8000),
        _ => (0, 0),
    };
    put(&mut bytes, at, value);
    match addr {
        0xb000 => put(&mut bytes, at.saturating_add(8), 512),
        0x7000 => put(&mut bytes, 8, 0x9000),
        _ => {}
    }
    Ok(bytes)
}

// Puts a number into two bytes.
fn put(bytes: &mut [u8], at: usize, value: u16) {
    if let Some(place) = bytes.get_mut(at..at.saturating_add(2)) {
        if let Some(place) = place.first_chunk_mut::<2>() {
            *place = value.to_le_bytes();
        }
    }
}

// The command of that kind.
fn command(kind: Kind) -> Sqe {
    let mut dwords = [0; 16];
    for (at, value) in kind.dwords() {
        if let Some(dword) = dwords.get_mut(*at) {
            *dword = *value;
        }
    }
    let mut bytes = [0; 64];
    LittleEndian::write_u32_into(&dwords, &mut bytes);
    Sqe::of(&bytes)
}

// A job of that kind, with all reads that it wants.
fn job(alloc: Global, kind: Kind) -> Result<Job, NoMemory> {
    let mut reads = Transcript::new(alloc);
    for (addr, len) in kind.reads() {
        reads.push(ReadDone::new(*addr, Bytes::new(alloc, bytes_at(alloc, *addr, *len)?)?))?;
    }
    Ok(Job {
        lane: 0,
        tag: 0,
        guest: 0,
        sqe: command(kind),
        reads,
    })
}

// The map of a guest of 20000h bytes of memory.
fn map(alloc: Global) -> Result<Option<GuestMap>, NoMemory> {
    let mut regions = Vec::new(alloc);
    regions.push(Region {
        guest: 0,
        host: 0x10_0000,
        len: 0x2_0000,
    })?;
    Ok(GuestMap::new(0x100_0000, regions).ok())
}

/// Makes so many jobs of a kind, and their plans where these are asked for, and returns how many plans there were.
pub fn planned(alloc: Global, kind: Kind, count: u64, plans: bool) -> Result<u64, NoMemory> {
    let Some(map) = map(alloc)? else {
        return Ok(0);
    };
    let ns = VirtualNs::of(Extent::new(0, 1024));
    let mut made = 0u64;
    for _ in 0..count {
        let job = job(alloc, kind)?;
        if plans {
            if let Planned::Plan(_plan) = make_plan(
                alloc,
                alloc,
                job,
                &map,
                &ns,
                MOST_DESCRIPTORS,
            ) {
                made = made.saturating_add(1);
            }
        }
    }
    Ok(made)
}
