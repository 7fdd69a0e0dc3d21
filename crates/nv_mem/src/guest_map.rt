//! A guest's memory map: which lists of regions are one, and what it answers about addresses.

ghost use Rattle.std.specs.Prelude.{◌≡◌, ◌≢◌, ℕ, ◌+◌, ◌<◌, ◌≤◌, ◌↔◌, IsTrue, IfOk, IfSome, MatchOption, option_map};
ghost use Rattle.std.specs.List.{find};
ghost use Rattle.std.specs.Result.{result_err};

use crate::guest_order::{GuestOrder, RANKS, Ranked};
use crate::map_error::MapError;
use crate::no_memory::NoMemory;
use crate::region::Region;
use crate::{lookup, refusal};
use std::alloc::Global;
use std::fmt::{self, Debug, Formatter};
use std::marker::Model;

/// A guest's memory map: regions of whole pages that are apart in guest and in host addresses and
/// lie inside the host.
///
/// It means a finite function from guest addresses to host addresses. A contract sees it as the
/// regions in the order in which they were handed in, beside the length of the host.
#[derive(Drop)]
pub struct GuestMap {
    host_len: u64,
    regions: Vec<Region>,
    // An index beside the list: it is made once, since no region changes, and copied with it.
    order: GuestOrder,
}

// Where a guest address lies.
#[derive(Clone, Copy)]
struct Stretch {
    // Its host address.
    host: u64,
    // How many bytes its region has from there on.
    left: u64,
    // The rank of the next region, as `Ranked` has it.
    next: usize,
}

impl Model for GuestMap {
    ghost use Rattle.nv_mem.specs.GuestMap.{Mapping};

    ghost Value = { Mapping };

    ghost use Rattle.nv_mem.specs.GuestOrder.{IsKeptInOrder};

    ghost view = { λ m. record { host_len = m.host_len; regions = m.regions.items } };

    ghost invariant = { λ m. IsKeptInOrder (record { host_len = m.host_len; regions = m.regions.items }) m.order.places };
}

impl Debug for GuestMap {
    fn fmt<W: fmt::Write>(&self, f: &mut Formatter<W>) -> fmt::Result {
        f.debug_struct("GuestMap")
            .field("host_len", &self.host_len)
            .field("regions", &self.regions)
            .finish()
    }
}

impl GuestMap {
    ghost use Rattle.nv_mem.specs.GuestMap.{Mapping, IsSound, covers, all_mapped, host_of, span_met, hosts_meet};
    ghost use Rattle.nv_mem.specs.MapRefusal.{refusal_of};
    ghost use Rattle.nv_mem.specs.MapRuns.{IsContiguous, IsLongestRun, AllMapped};

    /// The map with these regions, for a host of `host_len` bytes, or the lowest of the three
    /// refusals that applies. It takes no memory.
    ///
    /// # Errors
    ///
    /// The first of these that applies: [`MapError::Unaligned`] where an address or a length is no multiple of 4,096, or a length is 0;
    /// [`MapError::Overlap`] where two regions share a guest or host address; [`MapError::OutsideHost`] where a region leaves the host's
    /// memory or the 64 bits of guest addresses.
    pub fn new(host_len: u64, regions: Vec<Region>) -> Result<Self, MapError>
        ensures refusal { result_err result ≡ refusal_of host_len regions.items }
        ensures map { IfOk result (λ map. map ≡ record { host_len = host_len; regions = regions.items }) }
    {
        match refusal::refusal(host_len, &regions) {
            Some(error) => Err(error),
            None => {
                let order = GuestOrder::of(&regions);
                Ok(GuestMap {
                    host_len,
                    regions,
                    order,
                })
            }
        }
    }

    /// Whether each of the `len` guest addresses from `addr` on is mapped. No addresses always are. It takes time by the number of regions at most,
    /// whatever `len` is. Of 64 regions or fewer it reads a few, and those that the addresses are in.
    pub fn holds(&self, addr: u64, len: u64) -> bool
        ensures value { result ≡ all_mapped self.now.regions addr len }
        ensures all_mapped { IsTrue result ↔ AllMapped self.now.regions addr len }
    {
        match self.locate_in_first(addr) {
            Some(start) if len <= start.left => true,
            _ => self.holds_elsewhere(addr, len),
        }
    }

    /// The host address of guest address `addr`, and how many of the `len` bytes from there on are contiguous in the host, across regions that
    /// touch in both. `None` exactly where `addr` is not mapped. It takes time by the square of the number of regions at most, whatever `len` is.
    /// Of 64 regions or fewer it reads a few, and those that the run is in.
    pub fn run(&self, addr: u64, len: u64) -> Option<(u64, u64)>
        requires { 0 < len }
        ensures { MatchOption result (host_of self.now.regions addr ≡ None)
            (λ run. IsLongestRun self.now.regions addr len run.0 run.1) }
    {
        match self.locate_in_first(addr) {
            Some(start) if len <= start.left => Some((start.host, len)),
            _ => self.run_elsewhere(addr, len),
        }
    }

    /// Whether some region has one of the `len` host addresses from `host` on.
    pub fn meets_host(&self, host: u64, len: u64) -> bool
        ensures { result ≡ span_met self.now.regions host len }
    {
        lookup::span_met(&self.regions, host, len)
    }

    /// Whether the two maps have a host address in common.
    pub fn meets(&self, other: &GuestMap) -> bool
        ensures { result ≡ hosts_meet self.now.regions other.now.regions }
    {
        lookup::hosts_meet(&self.regions, &other.regions)
    }

    /// The length of the host's memory that the map was made for, in bytes.
    pub fn host_len(&self) -> u64
        ensures value { result ≡ self.now.host_len }
        ensures sound { IsSound self.now }
    {
        self.host_len
    }

    /// The regions, as they were handed in.
    pub fn regions(&self) -> &[Region]
        ensures value { result.now ≡ self.now.regions }
        ensures sound { IsSound self.now }
    {
        &self.regions
    }

    /// The same map again, in memory of its own.
    ///
    /// # Errors
    ///
    /// [`NoMemory`] where memory for the regions is refused.
    pub fn try_clone(&self, alloc: Global) -> Result<Self, NoMemory>
        ensures { IfOk result (λ map. map ≡ self.now) }
    {
        Ok(GuestMap {
            host_len: self.host_len,
            regions: Vec::from_slice(alloc, &self.regions)?,
            order: self.order,
        })
    }

    // Where a guest address lies, if the first region has it. Most often that has all that is asked
    // for, and then nothing is searched.
    #[inline(always)]
    fn locate_in_first(&self, addr: u64) -> Option<Stretch>
        ensures { IfSome result (λ stretch. IsContiguous self.now.regions addr stretch.host stretch.left) }
    {
        match self.regions.first() {
            Some(first) if first.covers(addr) => {
                let region = *first;
                Some(self.stretch(addr, Ranked { region, next: 0 }))
            }
            _ => None,
        }
    }

    // The same as `holds`, in whichever regions the addresses lie.
    #[inline(never)]
    fn holds_elsewhere(&self, addr: u64, len: u64) -> bool
        ensures { result ≡ all_mapped self.now.regions addr len }
    {
        match self.locate(addr) {
            Some(start) => {
                len <= start.left || self.holds_across(addr, len, start.left, start.next)
            }
            None => len == 0,
        }
    }

    // The same as `run`, in whichever regions the run lies.
    #[inline(never)]
    fn run_elsewhere(&self, addr: u64, len: u64) -> Option<(u64, u64)>
        requires { 0 < len }
        ensures { MatchOption result (host_of self.now.regions addr ≡ None)
            (λ run. IsLongestRun self.now.regions addr len run.0 run.1) }
    {
        let Stretch { host, left, next } = self.locate(addr)?;
        if len <= left {
            return Some((host, len));
        }
        Some((host, self.run_len(addr, len, host, left, next)))
    }

    // Whether each of the `len` guest addresses from `addr` on is mapped. The first `front` of them are, and after these the region of rank `rank`
    // most likely begins.
    #[inline(never)]
    fn holds_across(&self, addr: u64, len: u64, front: u64, mut rank: usize) -> bool
        requires mapped { AllMapped self.now.regions addr front }
        requires within { front ≤ len }
        ensures { result ≡ all_mapped self.now.regions addr len }
    {
        if self.regions.len() > RANKS {
            return lookup::covered(&self.regions, addr, len) == len;
        }
        // What is read is known to be below 2 to the 64, and so is each address that is mapped.
        let _known = self.host_len;
        let mut done = front;
        while done < len {
            let Some(at) = addr.checked_add(done) else {
                return false;
            };
            let Some(stretch) = self.locate_at(at, rank) else {
                return false;
            };
            done += stretch.left.min(len - done);
            rank = stretch.next;
        }
        true
    }

    // The length, up to `len`, of the longest run that begins with this one of `front` bytes. After these the region of rank `rank` most likely
    // begins.
    #[inline(never)]
    fn run_len(&self, addr: u64, len: u64, host: u64, front: u64, mut rank: usize) -> u64
        requires run { IsContiguous self.now.regions addr host front }
        requires within { front ≤ len }
        ensures { IsLongestRun self.now.regions addr len host result }
    {
        // What is read is known to be below 2 to the 64, and so is what ends inside the host.
        let _known = self.host_len;
        let mut n = front;
        while n < len {
            let Some(at) = addr.checked_add(n) else {
                break;
            };
            let Some(more) = self.next(at, host + n, rank) else {
                break;
            };
            n += more.left.min(len - n);
            rank = more.next;
        }
        n
    }

    // Where a guest address lies.
    #[inline(always)]
    fn locate(&self, addr: u64) -> Option<Stretch>
        ensures { MatchOption result (host_of self.now.regions addr ≡ None)
            (λ stretch. IsContiguous self.now.regions addr stretch.host stretch.left) }
    {
        match self.find(addr) {
            None => None,
            Some(ranked) => Some(self.stretch(addr, ranked)),
        }
    }

    // The same, where the region of rank `rank` most likely begins at the address, if any does.
    #[inline(always)]
    fn locate_at(&self, addr: u64, rank: usize) -> Option<Stretch>
        ensures { MatchOption result (host_of self.now.regions addr ≡ None)
            (λ stretch. IsContiguous self.now.regions addr stretch.host stretch.left) }
    {
        match self.find_at(addr, rank) {
            None => None,
            Some(ranked) => Some(self.stretch(addr, ranked)),
        }
    }

    // Where a guest address lies in the region that has it.
    fn stretch(&self, addr: u64, ranked: Ranked) -> Stretch
        requires { find (λ region. covers region addr) self.now.regions ≡ Some ranked.region }
        ensures { IsContiguous self.now.regions addr result.host result.left }
    {
        // What is read is known to be below 2 to the 64, and so is what lies inside the host.
        let _known = self.host_len;
        let Ranked { region, next } = ranked;
        let offset = addr - region.guest;
        Stretch {
            host: region.host + offset,
            left: region.len - offset,
            next,
        }
    }

    // The region that has a guest address.
    #[inline(always)]
    fn find(&self, addr: u64) -> Option<Ranked>
        ensures { option_map (λ ranked. ranked.region) result ≡ find (λ region. covers region addr) self.now.regions }
    {
        if self.regions.len() <= RANKS {
            self.order.find(&self.regions, addr)
        } else {
            lookup::find(&self.regions, addr).map(|region| Ranked { region, next: 0 })
        }
    }

    // The same, where the region of rank `rank` most likely begins at the address, if any does.
    #[inline(always)]
    fn find_at(&self, addr: u64, rank: usize) -> Option<Ranked>
        ensures { option_map (λ ranked. ranked.region) result ≡ find (λ region. covers region addr) self.now.regions }
    {
        if self.regions.len() <= RANKS {
            self.order.find_at(&self.regions, addr, rank)
        } else {
            self.find(addr)
        }
    }

    // Where guest address `addr` lies if it is at host address `host`, or `None` where the one is
    // not at the other. The region of rank `rank` most likely begins there, if any does.
    fn next(&self, addr: u64, host: u64, rank: usize) -> Option<Stretch>
        ensures { MatchOption result (host_of self.now.regions addr ≢ Some host)
            (λ stretch. IsContiguous self.now.regions addr host stretch.left) }
    {
        match self.locate_at(addr, rank) {
            Some(stretch) if stretch.host == host => Some(stretch),
            _ => None,
        }
    }
}
