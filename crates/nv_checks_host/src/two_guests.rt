//! Two guests with two extents each: where their memory, their blocks and the mediator's area lie.

use crate::desk::Desk;
use crate::pair::Pair;
use nv_bringup::{Span, guest_of, region};
use nv_mediator::{GuestSetup, Mediator, Setup};
use nv_mem::Region;
use nv_model::limits::{LANE_SIZE, PAGE_SIZE};
use std::alloc::Global;

/// How many guests there are.
pub const GUESTS: u8 = 2;

/// The host address at which the mediator's area begins.
pub const AREA: u64 = 0x10_0000;

/// How many blocks the disk has.
pub const DISK: u64 = 4096;

/// The regions of the first guest, which follow each other in its own memory and lie apart in the host's, and that of the second.
const FIRST: [(u64, u64); 2] = [(0, FIRST_HOST), (0x2_0000, 0x8_0000)];

/// The host address of the first guest's first byte.
pub const FIRST_HOST: u64 = 0x2_0000;

const SECOND: [(u64, u64); 1] = [(0, 0x5_0000)];

/// The guests' extents. On the disk they lie one after another, a guest's second before its first.
const FIRST_SPANS: &[Span] = &[
    Span {
        base: 1064,
        blocks: 32,
    },
    Span {
        base: 1000,
        blocks: 32,
    },
];

const SECOND_SPANS: &[Span] = &[
    Span {
        base: 1096,
        blocks: 32,
    },
    Span {
        base: 1032,
        blocks: 32,
    },
];

/// The most descriptors of a list of a guest.
const LIMIT: u32 = 64;

/// The blocks that are the guests', from this one on, and how many.
pub const FIRST_BLOCK: u64 = 1000;

pub const BLOCKS: u64 = 128;

/// How many pages are below the mediator's area.
pub const GUEST_PAGES: u64 = AREA / PAGE_SIZE;

// A guest with these regions and blocks, in a host of so many bytes.
fn guest(
    alloc: Global,
    host_bytes: u64,
    places: &[(u64, u64)],
    spans: &[Span],
) -> Option<GuestSetup> {
    let mut regions: Vec<Region> = Vec::new(alloc);
    for (at, host) in places {
        regions.push(region(*at, *host)).ok()?;
    }
    let mut guest = guest_of(alloc, host_bytes, regions, spans)?;
    guest.limit = LIMIT;
    Some(guest)
}

/// The set-up with so many lanes; none where memory was refused.
pub fn setup(alloc: Global, lanes: u8) -> Option<Setup> {
    let lanes = u64::from(lanes);
    let host_bytes = AREA + LANE_SIZE * lanes;
    let first = guest(alloc, host_bytes, &FIRST, FIRST_SPANS)?;
    let second = guest(alloc, host_bytes, &SECOND, SECOND_SPANS)?;
    Some(Setup {
        host_bytes,
        mediator: AREA,
        disk_blocks: DISK,
        lanes,
        guests: vec![in alloc; first, second].ok()?,
    })
}

/// A desk with so many lanes, at its start; none where memory was refused.
pub fn desk(alloc: Global, lanes: u8) -> Option<Desk> {
    Desk::new(alloc, setup(alloc, lanes)?)
}

/// A mediator with so many lanes, at its start, and a desk of its set-up; none where memory was refused.
pub fn opened(alloc: Global, lanes: u8) -> Option<Pair> {
    let mediator = Mediator::new(alloc, setup(alloc, lanes)?).ok()?;
    let desk = desk(alloc, lanes)?;
    Some(Pair::of(alloc, mediator, desk))
}
