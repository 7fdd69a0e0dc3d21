//! Why a list of regions is refused as a map.
ghost use Rattle.std.specs.Prelude.{◌≡◌};
ghost use Rattle.std.specs.List.{list_all, list_any};
ghost use Rattle.nv_mem.specs.MapRefusal.{any_two_meet, is_inside, is_paged, refusal_of, regions_meet};

use crate::map_error::MapError;
use crate::region::Region;

// The lowest number that applies, or none.
#[tactic(auto, unfolding(crate::specs::MapRefusal::refusal_of))]
pub fn refusal(host_len: u64, regions: &[Region]) -> Option<MapError>
    ensures { result ≡ refusal_of host_len regions.now }
{
    if !all_paged(regions) {
        Some(MapError::Unaligned)
    } else if any_two_meet(regions) {
        Some(MapError::Overlap)
    } else if !all_inside(host_len, regions) {
        Some(MapError::OutsideHost)
    } else {
        None
    }
}

// Whether some region meets a later one.
#[tactic(auto, using(crate::proofs::Overlaps::any_two_meet_drop))]
fn any_two_meet(regions: &[Region]) -> bool
    ensures { result ≡ any_two_meet regions.now }
{
    for (i, region) in regions.iter().enumerate() {
        if meets_any(region, &regions[i + 1..]) {
            return true;
        }
    }
    false
}

// Whether the region meets one of the others.
fn meets_any(region: &Region, others: &[Region]) -> bool
    ensures { result ≡ list_any (regions_meet region.now) others.now }
{
    others.iter().any(|other| region.meets(other))
}

// Whether each region is made of whole pages, at least one.
fn all_paged(regions: &[Region]) -> bool
    ensures { result ≡ list_all is_paged regions.now }
{
    regions.iter().all(|region| region.is_paged())
}

// Whether each region lies in the host and in the 64 bits of a guest's addresses.
fn all_inside(host_len: u64, regions: &[Region]) -> bool
    ensures { result ≡ list_all (is_inside host_len) regions.now }
{
    regions.iter().all(|region| region.is_inside(host_len))
}
