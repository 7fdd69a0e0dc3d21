//! Worlds in which guests' traffic runs.

use crate::text::Text;
use nv_mem::{GuestMap, NoMemory, Region};
use nv_model::limits::MOST_DESCRIPTORS;
use nv_world::{Extent, GuestSetup, Setup};
use std::alloc::Global;

/// The bytes of each guest's memory.
const GUEST_BYTES: u64 = 0x40_0000;

/// Where the guests' memory begins in the host, and how far regions lie apart there.
const FIRST_BYTE: u64 = 0x10_0000;

const GAP: u64 = 0x1000;

/// Where the mediator's area begins.
const MEDIATOR: u64 = 0x600_0000;

/// The bytes of a planner's heap; scripts name them, and nothing is planned there.
const HEAP: u64 = 0x10_0000;

/// What a world is like, and its guests' traffic.
#[derive(Clone, Copy, Debug)]
pub struct Shape {
    /// how many guests there are: a power of 2, 2 to 16
    pub guests: u64,
    /// how many lanes, 1 to 8
    pub lanes: u64,
    /// in how many regions each guest's memory lies, scattered in the host: a power of 2, 1 to 64
    pub regions: u64,
    /// the host's bytes
    pub host: u64,
    /// the disk's blocks
    pub disk: u64,
    /// the most commands of a guest that are on their way at once, 1 to 32
    pub depth: u64,
    /// one command in so many is a Flush
    pub flushes: u64,
    /// one transfer in so many lies at odd addresses
    pub odd: u64,
    /// one command in so many has 128 KiB
    pub large: u64,
    /// whether some guests are hostile or slow: lists with a late fault, full completion queues, resets, plans that are stale, and
    /// commands of all six kinds
    pub is_awkward: bool,
}

impl Shape {
    /// The first block of a guest's range, and how many it has.
    pub fn range(&self, guest: u64) -> (u64, u64) {
        let blocks = self.disk / self.guests.max(1);
        (blocks.wrapping_mul(guest), blocks)
    }

    // The region of that number of a guest, in the order in which they are handed in.
    fn region(&self, guest: u64, number: u64) -> Region {
        let regions = self.regions.max(1);
        let all = regions.wrapping_mul(self.guests).max(1);
        let len = GUEST_BYTES / regions;
        let index = number.wrapping_mul(37).wrapping_add(11) % regions;
        let place = guest.wrapping_mul(regions).wrapping_add(index);
        let place = place.wrapping_mul(389).wrapping_add(7) % all;
        Region {
            guest: index.wrapping_mul(len),
            host: place
                .wrapping_mul(len.wrapping_add(GAP))
                .wrapping_add(FIRST_BYTE),
            len,
        }
    }

    /// The set-up of the world; `None` where the shape is none that may be.
    pub fn setup(&self, alloc: Global) -> Result<Option<Setup>, NoMemory> {
        let mut guests = Vec::new(alloc);
        for guest in 0..self.guests {
            let mut regions = Vec::new(alloc);
            for number in 0..self.regions {
                regions.push(self.region(guest, number))?;
            }
            let Ok(map) = GuestMap::new(self.host, regions) else {
                return Ok(None);
            };
            let (base, blocks) = self.range(guest);
            guests.push(GuestSetup {
                map,
                extents: vec![in alloc; Extent { base, blocks }]?,
                limit: MOST_DESCRIPTORS,
            })?;
        }
        Ok(Some(Setup {
            host_bytes: self.host,
            mediator: MEDIATOR,
            disk_blocks: self.disk,
            lanes: self.lanes,
            guests,
        }))
    }

    /// The lines of the same set-up in a script.
    pub fn script(&self, text: &mut Text) -> Result<(), NoMemory> {
        text.line("host", &[self.host])?;
        text.line("mediator", &[MEDIATOR])?;
        text.line("disk", &[self.disk])?;
        text.line("lanes", &[self.lanes])?;
        for guest in 0..self.guests {
            let (base, blocks) = self.range(guest);
            text.guest(guest, base, blocks, HEAP)?;
            for number in 0..self.regions {
                let Region {
                    guest: addr,
                    host,
                    len,
                } = self.region(guest, number);
                text.line("map", &[guest, addr, host, len])?;
            }
        }
        Ok(())
    }
}
