//! What worlds under test are made of.

ghost use Rattle.std.specs.Prelude.{◌≡◌, [], ◌∷◌, map, IfOk, IfSome};
ghost use Rattle.nv_bringup.specs.declared.set_up.Span.{Span};

use nv_mediator::{Extent, GuestSetup, Setup};
use nv_mem::{GuestMap, Region};
use nv_model::limits::MOST_DESCRIPTORS;
use std::alloc::{AllocError, Global};

/// How many bytes a region of a guest's memory has: 128 KiB.
pub const MEMORY: u64 = 0x2_0000;

/// How many blocks of 512 bytes a guest has.
pub const BLOCKS: u64 = 64;

/// The same of the disk.
pub const DISK: u64 = 4096;

/// The host address at which the mediator's area begins.
pub const MEDIATOR: u64 = 0x40_0000;

/// The most descriptors of a list of a guest.
pub const LIMIT: u32 = MOST_DESCRIPTORS;

/// Blocks of the disk in a row: so many from that one on.
#[derive(Clone, Copy)]
pub struct Span {
    /// the disk's block that is its first
    pub base: u64,
    /// how many blocks it has
    pub blocks: u64,
}

/// The region of a guest's memory from these addresses of the guest and of the host on.
pub fn region(guest: u64, host: u64) -> Region
    ensures { result ≡ record { guest = guest; host = host; len = MEMORY } }
{
    Region {
        guest,
        host,
        len: MEMORY,
    }
}

/// The extents that these spans are, in their order.
///
/// # Errors
///
/// There was no memory for them.
pub fn extents_of(alloc: Global, spans: &[Span]) -> Result<Vec<Extent>, AllocError>
    ensures { IfOk result (λ made. made.items ≡ map (λ (span : Span). record { base = span.base; blocks = span.blocks }) spans.now) }
{
    spans
        .iter()
        .map(|span| Extent {
            base: span.base,
            blocks: span.blocks,
        })
        .collect(alloc)
}

/// A guest with these regions and spans, in a host of so many bytes; none where the regions are no map, or memory was refused.
pub fn guest_of(
    alloc: Global,
    host_bytes: u64,
    regions: Vec<Region>,
    spans: &[Span],
) -> Option<GuestSetup>
    ensures memory { IfSome result (λ guest. guest.memory_map ≡ record { host_len = host_bytes; regions = regions.items }) }
    ensures limit { IfSome result (λ guest. guest.limit ≡ LIMIT) }
{
    Some(GuestSetup {
        map: GuestMap::new(host_bytes, regions).ok()?,
        extents: extents_of(alloc, spans).ok()?,
        limit: LIMIT,
    })
}

/// A guest with these spans, whose memory is one region: it lies in the host from that address on.
pub fn guest_at(alloc: Global, host_bytes: u64, image: u64, spans: &[Span]) -> Option<GuestSetup>
    ensures limit { IfSome result (λ guest. guest.limit ≡ LIMIT) }
{
    let regions = vec![in alloc; region(0, image)].ok()?;
    guest_of(alloc, host_bytes, regions, spans)
}

/// The set-up of these guests, in a host of so many bytes and with so many lanes.
pub fn setup_of(host_bytes: u64, lanes: u64, guests: Vec<GuestSetup>) -> Setup
    ensures { result ≡ record {
      host_bytes = host_bytes;
      lanes = lanes;
      geometry = record { mediator = MEDIATOR; disk_blocks = DISK; guests = guests.items };
    } }
{
    Setup {
        host_bytes,
        mediator: MEDIATOR,
        disk_blocks: DISK,
        lanes,
        guests,
    }
}
