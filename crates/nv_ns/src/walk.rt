//! Walks over the extents of a namespace.

ghost use Rattle.std.specs.Prelude.{◌≡◌, ◌^◌, ◌<◌, ◌≤◌, length};
ghost use Rattle.std.specs.List.{list_all};
ghost use Rattle.nv_ns.specs.Extents.{blocks_in, cuts, is_within, most_extents};

use crate::extent::Extent;
use crate::part::Part;
use crate::parts::Parts;

/// Whether `blocks` blocks from the base of each of these extents on end below 2 to the 64.
pub fn all_within(extents: &[Extent], blocks: u64) -> bool
    ensures { result ≡ list_all (is_within blocks) extents.now }
{
    extents
        .iter()
        .all(|extent| extent.base() <= u64::MAX - blocks)
}

/// The parts of a run of `count` blocks from block `slba` of the namespace of these extents.
#[inline(never)]
pub fn parts_of(extents: &[Extent], slba: u64, count: u64) -> Parts
    requires few { length extents.now ≤ most_extents }
    requires fit { blocks_in extents.now < 2 ^ 64 }
    ensures { result ≡ cuts extents.now slba count }
{
    let mut parts = Parts::none();
    let mut before = 0;
    for extent in extents {
        if let Some(part) = Part::of(*extent, before, slba, count) {
            parts.push(part);
        }
        before += extent.blocks();
    }
    parts
}
