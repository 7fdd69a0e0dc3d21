//! The set-up, in plain structs.

ghost use Rattle.std.specs.Prelude.{◌≡◌, IfErr, IfOk};
ghost use Rattle.nv_c.specs.Calls.{IsGuestRefused, IsRefused};
ghost use Rattle.nv_world_model.specs.SetUp.{refusal_of};
ghost use Rattle.nv_c.specs.Tables.{extents_of, given, regions_of, setup_of};
ghost use Rattle.nv_host.specs.Served.{serving_refusal_of};

use crate::status;
use nv_mediator::{Extent as OneExtent, GuestSetup, Setup};
use nv_mem::{GuestMap, NoMemory, Region as OneRegion};
use std::alloc::Global;

// How many guests there may be.
const MOST_GUESTS: usize = nv_model::limits::MOST_GUESTS as usize;

/// The sizes of a set-up: C's `nvmed_sizes`.
#[repr(C)]
#[derive(Clone, Copy)]
pub struct Sizes {
    /// how many bytes the host's memory has: 4,096 to 1,073,741,824, a multiple of 4,096
    pub host_bytes: u64,
    /// the host address at which the mediator's area begins, a multiple of 4,096; it has 8,663,040 bytes for each lane
    pub mediator: u64,
    /// how many blocks of 512 bytes the disk has: 1 to 2,097,152
    pub disk_blocks: u64,
    /// how many lanes there are: 1 to 8
    pub lanes: u64,
}

/// Bytes in a row of a guest's memory, and where in the host's they lie: C's `nvmed_region`.
#[repr(C)]
#[derive(Clone, Copy)]
pub struct Region {
    /// the number of the guest
    pub guest: u64,
    /// the guest address of the first byte, a multiple of 4,096
    pub address: u64,
    /// the host address of the first byte, a multiple of 4,096
    pub host: u64,
    /// how many bytes, a multiple of 4,096, at least 1
    pub bytes: u64,
}

/// Blocks of the disk in a row that are a guest's: C's `nvmed_extent`.
#[repr(C)]
#[derive(Clone, Copy)]
pub struct GuestExtent {
    /// the number of the guest
    pub guest: u64,
    /// the disk's block that is the first
    pub base: u64,
    /// how many blocks, at least 1
    pub blocks: u64,
}

/// The set-up that these make, or what is answered where they make none: a map is none, or there was no memory. Whether the set-up is
/// accepted is the mediator's to judge.
pub(crate) fn setup_of(
    alloc: Global,
    sizes: &Sizes,
    limits: &[u32],
    regions: &[Region],
    extents: &[GuestExtent],
) -> Result<Setup, u32>
    ensures ok { IfOk result (λ setup. setup ≡ setup_of sizes.now limits.now regions.now extents.now) }
    ensures err { IfErr result (λ answer. IsRefused refusal_of (setup_of sizes.now limits.now regions.now extents.now) answer) }
    ensures host { IfErr result (λ answer. IsRefused serving_refusal_of (setup_of sizes.now limits.now regions.now extents.now) answer) }
{
    if limits.len() > MOST_GUESTS {
        return Err(status::TOO_MANY_GUESTS);
    }
    let mut guests = Vec::new(alloc);
    for number in 0..limits.len() {
        let own = Own {
            guest: number as u64,
            regions,
            extents,
        };
        let given = own.given(alloc, sizes.host_bytes, limits[number])?;
        let Ok(_pushed) = guests.push(given) else {
            return Err(status::NO_MEMORY);
        };
    }
    Ok(Setup {
        host_bytes: sizes.host_bytes,
        mediator: sizes.mediator,
        disk_blocks: sizes.disk_blocks,
        lanes: sizes.lanes,
        guests,
    })
}

// What a set-up has for the guest of that number, among what it has for others.
#[derive(Clone, Copy)]
struct Own<'a> {
    guest: u64,
    regions: &'a [Region],
    extents: &'a [GuestExtent],
}

impl Own<'_> {
    // What the guest is to have, with that limit.
    fn given(&self, alloc: Global, host_bytes: u64, limit: u32) -> Result<GuestSetup, u32>
        ensures ok { IfOk result (λ guest. guest ≡ given host_bytes self.now.regions.now self.now.extents.now self.now.guest limit) }
        ensures err { IfErr result (λ answer. IsGuestRefused (given host_bytes self.now.regions.now self.now.extents.now self.now.guest limit) answer) }
    {
        let Ok(regions) = regions_of(alloc, self.guest, self.regions) else {
            return Err(status::NO_MEMORY);
        };
        let Ok(extents) = extents_of(alloc, self.guest, self.extents) else {
            return Err(status::NO_MEMORY);
        };
        match GuestMap::new(host_bytes, regions) {
            Ok(map) => Ok(GuestSetup {
                map,
                extents,
                limit,
            }),
            Err(error) => Err(status::of_map_error(error)),
        }
    }
}

// The regions of the guest of that number, in order.
fn regions_of(alloc: Global, guest: u64, regions: &[Region]) -> Result<Vec<OneRegion>, NoMemory>
    ensures { IfOk result (λ own. own.items ≡ regions_of guest regions.now) }
{
    let mut own = Vec::new(alloc);
    for region in regions {
        if region.guest == guest {
            own.push(OneRegion {
                guest: region.address,
                host: region.host,
                len: region.bytes,
            })?;
        }
    }
    Ok(own)
}

// The extents of the guest of that number, in order.
fn extents_of(
    alloc: Global,
    guest: u64,
    extents: &[GuestExtent],
) -> Result<Vec<OneExtent>, NoMemory>
    ensures { IfOk result (λ own. own.items ≡ extents_of guest extents.now) }
{
    let mut own = Vec::new(alloc);
    for extent in extents {
        if extent.guest == guest {
            own.push(OneExtent {
                base: extent.base,
                blocks: extent.blocks,
            })?;
        }
    }
    Ok(own)
}
