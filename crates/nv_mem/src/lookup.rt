//! What a list of regions has of an address or a range of addresses.
ghost use Rattle.std.specs.Prelude.{◌≡◌, ◌≤◌};
ghost use Rattle.std.specs.List.{find, list_any};
ghost use Rattle.nv_mem.specs.GuestMap.{covers, hosts_meet, span_met};
ghost use Rattle.nv_mem.specs.MapRuns.{covered_of};

use crate::region::Region;

// How many of the `len` guest addresses from `addr` on lie in the regions, taken together.
#[inline(never)]
#[tactic(auto, unfolding(crate::specs::MapRuns::covered_of))]
pub fn covered(regions: &[Region], addr: u64, len: u64) -> u64
    requires { covered_of regions.now addr len ≤ len }
    ensures { result ≡ covered_of regions.now addr len }
{
    regions.iter().map(|region| region.overlap(addr, len)).sum()
}

// The region that a guest address lies in.
#[inline(never)]
pub fn find(regions: &[Region], addr: u64) -> Option<Region>
    ensures { result ≡ find (λ region. covers region addr) regions.now }
{
    regions.iter().copied().find(|region| region.covers(addr))
}

// Whether some region has one of the `len` host addresses from `host` on.
pub fn span_met(regions: &[Region], host: u64, len: u64) -> bool
    ensures { result ≡ span_met regions.now host len }
{
    regions.iter().any(|region| region.meets_host(host, len))
}

// Whether the two lists of regions have a host address in common.
pub fn hosts_meet(regions: &[Region], others: &[Region]) -> bool
    ensures { result ≡ hosts_meet regions.now others.now }
{
    others
        .iter()
        .any(|other| span_met(regions, other.host, other.len))
}
