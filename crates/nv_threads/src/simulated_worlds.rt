//! The worlds that are simulated.

use nv_mem::{GuestMap, NoMemory, Region};
use nv_model::Reply;
use nv_model::limits::MOST_DESCRIPTORS;
use nv_world::{Extent, GuestSetup, Setup, World};
use nv_world_model::{Event, Logged};
use std::alloc::Global;
use std::test::Fail;

/// How many guests and lanes there are.
pub(crate) const GUESTS: u8 = 3;

pub(crate) const LANES: u8 = 2;

/// How many bytes the host and each guest's memory have.
const HOST: u64 = 0x200_0000;

const MEMORY: u64 = 0x2_0000;

/// How many blocks each extent of each guest has, 64 a guest; those of none are not there.
pub(crate) type Extents = [[u64; 8]; GUESTS as usize];

/// Guests of one extent.
pub(crate) const ONE: Extents = [[64, 0, 0, 0, 0, 0, 0, 0]; GUESTS as usize];

/// Guests of two extents.
pub(crate) const TWO: Extents = [[30, 34, 0, 0, 0, 0, 0, 0]; GUESTS as usize];

/// Guests of two extents, of three and of one.
pub(crate) const FEW: Extents = [
    [30, 34, 0, 0, 0, 0, 0, 0],
    [9, 22, 33, 0, 0, 0, 0, 0],
    [64, 0, 0, 0, 0, 0, 0, 0],
];

/// Guests of eight extents, of three and of two.
pub(crate) const MANY: Extents = [
    [12, 9, 5, 1, 11, 8, 3, 15],
    [9, 22, 33, 0, 0, 0, 0, 0],
    [30, 34, 0, 0, 0, 0, 0, 0],
];

/// How many extents the guest has that has most.
pub(crate) fn most_of(extents: &Extents) -> u32 {
    let mut most: u32 = 0;
    for blocks in extents {
        let mut count: u32 = 0;
        for blocks in blocks {
            count = count.saturating_add(u32::from(*blocks != 0));
        }
        most = most.max(count);
    }
    most
}

/// How many events a world's log has.
pub(crate) fn events(world: &World) -> usize {
    world.log().len()
}

/// What a world's log has after so many events.
pub(crate) fn entry(world: &World, before: usize) -> Option<&Logged> {
    world.log().get(before)
}

/// An event is made in a world, whatever comes of it.
pub(crate) fn step(world: &mut World, alloc: Global, event: Event) -> Reply {
    world.step(alloc, event)
}

/// Whose command a tag has that was taken and not planned; `None` where it has none.
pub(crate) fn taken_by(
    world: &World,
    alloc: Global,
    lane: u8,
    tag: u8,
) -> Result<Option<u8>, NoMemory> {
    match world.job(alloc, lane, tag)? {
        Some(job) => Ok(Some(job.guest)),
        None => Ok(None),
    }
}

/// A world of guests with these extents at its start.
pub(crate) fn opened(alloc: Global, extents: &Extents) -> Result<World, Fail> {
    let guests = guests_with(alloc, extents)?;
    world_with(alloc, HOST, 0x40_0000, LANES, guests)
}

/// The world of such a set-up at its start.
pub(crate) fn world_with(
    alloc: Global,
    host_bytes: u64,
    mediator: u64,
    lanes: u8,
    guests: Vec<GuestSetup>,
) -> Result<World, Fail> {
    Ok(World::new(
        alloc,
        Setup {
            host_bytes,
            mediator,
            disk_blocks: 4096,
            lanes: u64::from(lanes),
            guests,
        },
    )?)
}

// What the guests are given.
fn guests_with(alloc: Global, extents: &Extents) -> Result<Vec<GuestSetup>, Fail> {
    let mut guests = Vec::new(alloc);
    let mut guest: u8 = 0;
    for blocks in extents {
        guests.push(guest_with(alloc, guest, blocks)?)?;
        guest = guest.wrapping_add(1);
    }
    Ok(guests)
}

// What a guest is given. Its extents lie apart.
fn guest_with(alloc: Global, guest: u8, blocks: &[u64; 8]) -> Result<GuestSetup, Fail> {
    let number = u64::from(guest);
    let extents = extents_with(alloc, 1000 * number, blocks)?;
    setup_with(alloc, HOST, 0x10_0000 * (number + 1), extents)
}

/// What a guest is given that has these extents, and memory from that byte of the host on.
pub(crate) fn setup_with(
    alloc: Global,
    host_bytes: u64,
    host: u64,
    extents: Vec<Extent>,
) -> Result<GuestSetup, Fail> {
    let region = Region {
        guest: 0,
        host,
        len: MEMORY,
    };
    Ok(GuestSetup {
        map: GuestMap::new(host_bytes, vec![in alloc; region]?)?,
        extents,
        limit: MOST_DESCRIPTORS,
    })
}

/// Extents of so many blocks each, a hundred blocks apart, from a block on.
pub(crate) fn extents_with(
    alloc: Global,
    first: u64,
    blocks: &[u64; 8],
) -> Result<Vec<Extent>, Fail> {
    let mut extents = Vec::new(alloc);
    let mut base = first;
    for blocks in blocks {
        if *blocks != 0 {
            extents.push(Extent {
                base,
                blocks: *blocks,
            })?;
        }
        base = base.saturating_add(100);
    }
    Ok(extents)
}
