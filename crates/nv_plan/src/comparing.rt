//! Whether two guests were given the same.

ghost use Rattle.std.specs.Prelude.{◌≡◌, ◌↔◌, IsTrue};

use nv_mem::{GuestMap, Region};
use nv_ns::Extent;

/// Whether two maps are the same: for the same length of the host, with the same regions in the same order.
pub fn same_map(map: &GuestMap, other: &GuestMap) -> bool
    ensures { IsTrue result ↔ (map.now ≡ other.now) }
{
    map.host_len() == other.host_len() && same_regions(map.regions(), other.regions())
}

// Whether two lists of regions are the same.
fn same_regions(regions: &[Region], others: &[Region]) -> bool
    ensures { IsTrue result ↔ (regions.now ≡ others.now) }
{
    regions == others
}

/// Whether two lists of extents are the same.
pub fn same_extents(extents: &[Extent], others: &[Extent]) -> bool
    ensures { IsTrue result ↔ (extents.now ≡ others.now) }
{
    extents == others
}
