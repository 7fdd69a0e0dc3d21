//! The order of a map's regions by guest address, for a search in few steps.
ghost use Rattle.std.specs.Prelude.{◌≡◌, ℕ, ◌+◌, ◌<◌, ◌≤◌, AllPairs, All, IsPermutation, length, nat_le, option_map, IsTrue, if◌then◌else◌, slice_index};
ghost use Rattle.std.specs.List.{find};
ghost use Rattle.std.specs.List.Sorted.{IsNonDecreasingBy};
ghost use Rattle.nv_mem.specs.GuestMap.{IsApart, IsPaged, covers};
ghost use Rattle.nv_mem.specs.GuestOrder.{IsGuestOrder, IsWindow, begin_of, ranked_begin, ranks};

use crate::region::Region;
use std::array;

/// A list of so many regions at most is kept in order.
pub const RANKS: usize = 64;

/// Where the regions of a list are in it, the lowest guest address first, so that the list itself stays as it was handed in.
///
/// The rank of a region is its number in this order. Of a list of more than [`RANKS`] regions nothing is kept.
#[derive(Clone, Copy)]
pub struct GuestOrder {
    places: [u8; RANKS],
}

/// A region that has an address, and the rank of the one after it.
#[derive(Clone, Copy)]
pub struct Ranked {
    /// The region.
    pub region: Region,
    /// Most likely the rank of the region that is next by guest address, where there is one.
    pub next: usize,
}

impl GuestOrder {
    /// The order of these regions.
    pub fn of(regions: &[Region]) -> Self
        ensures { length regions.now ≤ ranks → IsGuestOrder regions.now result.places }
    {
        let mut places = in_list_order();
        if regions.len() <= RANKS {
            sort_by_guest(regions, &mut places[..regions.len()]);
        }
        GuestOrder { places }
    }

    /// The region that has a guest address.
    pub fn find(&self, regions: &[Region], addr: u64) -> Option<Ranked>
        requires few { length regions.now ≤ ranks }
        requires ordered { IsGuestOrder regions.now self.now.places }
        requires paged { All IsPaged regions.now }
        requires apart { AllPairs IsApart regions.now }
        ensures { option_map (λ ranked. ranked.region) result ≡ find (λ region. covers region addr) regions.now }
    {
        if regions.is_empty() {
            return None;
        }
        let rank = self.rank_of(regions, addr);
        self.find_ranked(regions, addr, rank)
    }

    /// The same for an address at which the region of rank `rank` most likely begins, if any does. Where the one before it ends there, a few reads
    /// decide, and nothing is searched.
    #[inline(always)]
    pub fn find_at(&self, regions: &[Region], addr: u64, rank: usize) -> Option<Ranked>
        requires few { length regions.now ≤ ranks }
        requires ordered { IsGuestOrder regions.now self.now.places }
        requires paged { All IsPaged regions.now }
        requires apart { AllPairs IsApart regions.now }
        ensures { option_map (λ ranked. ranked.region) result ≡ find (λ region. covers region addr) regions.now }
    {
        if self.is_rank_of(regions, addr, rank) {
            self.find_ranked(regions, addr, rank)
        } else if 0 < rank && self.is_rank_of(regions, addr, rank - 1) {
            self.find_ranked(regions, addr, rank - 1)
        } else {
            self.find(regions, addr)
        }
    }

    // The region that has a guest address: it is the last that begins at or before it, or none.
    fn find_ranked(&self, regions: &[Region], addr: u64, rank: usize) -> Option<Ranked>
        requires few { length regions.now ≤ ranks }
        requires ordered { IsGuestOrder regions.now self.now.places }
        requires paged { All IsPaged regions.now }
        requires apart { AllPairs IsApart regions.now }
        requires last { IsWindow (ranked_begin regions.now self.now.places) (length regions.now) addr rank 1 }
        ensures { option_map (λ ranked. ranked.region) result ≡ find (λ region. covers region addr) regions.now }
    {
        let region = regions[usize::from(self.places[rank])];
        if region.covers(addr) {
            Some(Ranked {
                region,
                next: rank + 1,
            })
        } else {
            None
        }
    }

    // The rank of the last region that begins at or before the address, or 0 where none does.
    //
    // Three reads per step leave a quarter of the ranks. They do not wait for each other, as those of twice as many steps of one read would. Their
    // results are counted: no branch is predicted.
    #[inline(never)]
    fn rank_of(&self, regions: &[Region], addr: u64) -> usize
        requires few { length regions.now ≤ ranks }
        requires some { 0 < length regions.now }
        requires ordered { IsGuestOrder regions.now self.now.places }
        ensures { IsWindow (ranked_begin regions.now self.now.places) (length regions.now) addr result 1 }
    {
        let mut rank = 0;
        let mut size = regions.len();
        while size > 3 {
            let quarter = size / 4;
            let begun = self.begun(regions, rank + quarter, addr)
                + self.begun(regions, rank + 2 * quarter, addr)
                + self.begun(regions, rank + 3 * quarter, addr);
            rank += quarter * begun;
            size -= 3 * quarter;
        }
        while size > 1 {
            let half = size / 2;
            rank += half * self.begun(regions, rank + half, addr);
            size -= half;
        }
        rank
    }

    // Whether the region of that rank is the last that begins at or before the address.
    fn is_rank_of(&self, regions: &[Region], addr: u64, rank: usize) -> bool
        requires few { length regions.now ≤ ranks }
        requires ordered { IsGuestOrder regions.now self.now.places }
        ensures { IsTrue result → IsWindow (ranked_begin regions.now self.now.places) (length regions.now) addr rank 1 }
    {
        rank < regions.len()
            && self.begun(regions, rank, addr) == 1
            && (rank + 1 == regions.len() || self.begun(regions, rank + 1, addr) == 0)
    }

    // 1 where the region of a rank begins at or before the address, and 0 where it begins after it.
    fn begun(&self, regions: &[Region], rank: usize, addr: u64) -> usize
        requires few { rank < ranks }
        requires within { slice_index self.now.places rank < length regions.now }
        ensures { result ≡ (if nat_le (ranked_begin regions.now self.now.places rank) addr then 1 else 0) }
    {
        let region = regions[usize::from(self.places[rank])];
        usize::from(region.guest <= addr)
    }
}

// The places from 0 on.
fn in_list_order() -> [u8; RANKS]
    ensures { (k : ℕ) → k < ranks → slice_index result k ≡ k }
{
    array::from_fn(|place| place as u8)
}

// Puts places into the order of the regions that they name.
fn sort_by_guest(regions: &[Region], places: &mut [u8])
    ensures permutation { IsPermutation places.old places.new }
    ensures ascending { IsNonDecreasingBy (begin_of regions.now) places.new }
{
    places.sort_unstable_by_key(|place| begin_of(regions, *place));
}

// The guest address at which the region at a place begins, or 0 where there is no such place.
fn begin_of(regions: &[Region], place: u8) -> u64
    ensures { result ≡ begin_of regions.now place }
{
    regions
        .get(usize::from(place))
        .map_or(0, |region| region.guest)
}
