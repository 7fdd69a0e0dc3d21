//! Two guests on two lanes: where their memory, blocks and queues lie, and what they do first. On the disk the honest guest's blocks lie on both
//! sides of the other's.

use nv_bringup::{
    COMPLETIONS, MEDIATOR, SLOTS, SUBMISSIONS, Span, guest_at, guest_of, region, setup_of,
};
use nv_mem::{NoMemory, Region};
use nv_world::World;
use std::alloc::Global;

/// The guest that does as it pleases.
pub const HOSTILE: u8 = 0;

/// The guest that keeps to the rules.
pub const HONEST: u8 = 1;

/// How many lanes there are.
pub const LANES: u8 = 2;

/// The host address of the honest guest's first byte.
pub const HONEST_IMAGE: u64 = 0x20_0000;

/// The same of the other guest, which may have two regions more.
pub const HOSTILE_IMAGES: [u64; 3] = [0x10_0000, 0x30_0000, 0x34_0000];

/// The honest guest's extents: they are right after the first of the other guest's, apart from both, right before its first, and right after its
/// second.
pub const HONEST_SPANS: &[Span] = &[
    Span {
        base: 1032,
        blocks: 6,
    },
    Span {
        base: 960,
        blocks: 26,
    },
    Span {
        base: 994,
        blocks: 6,
    },
    Span {
        base: 2032,
        blocks: 26,
    },
];

/// The other guest's.
pub const HOSTILE_SPANS: &[Span] = &[
    Span {
        base: 1000,
        blocks: 32,
    },
    Span {
        base: 2000,
        blocks: 32,
    },
];

/// A guest's extents.
pub fn spans_of(guest: u8) -> &'static [Span] {
    match guest {
        HONEST => HONEST_SPANS,
        _ => HOSTILE_SPANS,
    }
}

/// How many bytes the host has.
const HOST: u64 = 0x200_0000;

/// What the other guest has besides, in some runs: guest addresses that are host addresses of the honest guest and of the mediator. What
/// went by them untranslated would reach these two.
const MORE: [(u64, u64); 2] = [
    (HONEST_IMAGE, HOSTILE_IMAGES[1]),
    (MEDIATOR, HOSTILE_IMAGES[2]),
];

// The regions of the other guest's memory, with these besides.
fn regions(alloc: Global, more: &[(u64, u64)]) -> Result<Vec<Region>, NoMemory> {
    let mut regions = vec![in alloc; region(0, HOSTILE_IMAGES[0])]?;
    for (guest, host) in more {
        regions.push(region(*guest, *host))?;
    }
    Ok(regions)
}

/// The world at its start, where the other guest may have more memory; none where memory was refused.
pub fn opened(alloc: Global, more: bool) -> Option<World> {
    let besides: &[(u64, u64)] = if more { &MORE } else { &[] };
    let regions = regions(alloc, besides).ok()?;
    let hostile = guest_of(alloc, HOST, regions, HOSTILE_SPANS)?;
    let honest = guest_at(alloc, HOST, HONEST_IMAGE, HONEST_SPANS)?;
    let guests = vec![in alloc; hostile, honest].ok()?;
    World::new(alloc, setup_of(HOST, u64::from(LANES), guests)).ok()
}

/// The slot of an I/O queue that a guest's command of that number has.
pub fn slot(number: u16) -> u16 {
    number % SLOTS
}

/// Where the entry of that number is.
pub fn entry_at(number: u16) -> u64 {
    SUBMISSIONS + 64 * u64::from(slot(number))
}

/// Where the completion of that number is.
pub fn completion_at(number: u16) -> u64 {
    COMPLETIONS + 16 * u64::from(slot(number))
}

/// The doorbell's value after the entry, or the completion, of that number.
pub fn behind(number: u16) -> u32 {
    u32::from(slot(number.wrapping_add(1)))
}
