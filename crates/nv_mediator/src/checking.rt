//! Whether a set-up makes a world.

ghost use Rattle.std.specs.Prelude.{◌≡◌, ◌||◌, ◌++◌, nat_le, true};
ghost use Rattle.std.specs.List.{list_all, list_any};
ghost use Rattle.nv_mediator.specs.Refused.{refused};
ghost use Rattle.nv_ns.specs.Extents.{blocks_in};
ghost use Rattle.nv_world_model.specs.SetUp.{all_extents, any_two, blocks_meet, extent_fits, guest_fits, host_fits};
ghost use Rattle.nv_world_model.specs.SetUp.{host_refusal_of, maps_meet, meets_area, namespace_fits, refusal_of, refusal_within, sizes_fit};

use crate::limits::{Limits, MOST_NAMESPACE_BLOCKS};
use crate::refusal::Refusal;
use crate::setup::{Extent, GuestSetup, Setup};
use nv_mem::{PAGE_SIZE, spans_meet};
use nv_model::limits::{
    LANE_SIZE, MOST_EXTENTS, MOST_GUESTS, MOST_LANES, MOST_LIMIT, MOST_REGIONS,
};

#[tactic(auto, unfolding(nv_world_model::specs::SetUp::refusal_of))]
/// The first reason for which a script's set-up is refused; `None` where there is none.
pub(crate) fn refusal_of(setup: &Setup) -> Option<Refusal>
    ensures { result ≡ refused (refusal_of setup.now) }
{
    refusal_within(&Limits::of_scripts(), setup)
}

impl Setup {
    /// The first reason for which the set-up is refused of a host that has memory and a drive of its own; `None` where there is none.
    #[tactic(auto, unfolding(nv_world_model::specs::SetUp::host_refusal_of))]
    pub fn host_refusal(&self) -> Option<Refusal>
        ensures { result ≡ refused (host_refusal_of self.now) }
    {
        refusal_within(&Limits::of_hosts(), self)
    }
}

// The first reason for which a set-up is refused within these limits; `None` where there is none.
fn refusal_within(limits: &Limits, setup: &Setup) -> Option<Refusal>
    ensures { result ≡ refused (refusal_within limits.now setup.now) }
{
    if setup.guests.len() > MOST_GUESTS as usize {
        Some(Refusal::TooManyGuests)
    } else if extents_meet(&setup.guests) {
        Some(Refusal::ExtentsMeet)
    } else if maps_meet(&setup.guests) || area_met(setup) {
        Some(Refusal::MapsMeet)
    } else if !sizes_fit(limits, setup) {
        Some(Refusal::BadSize)
    } else {
        None
    }
}

// Whether some two extents, of one guest or of two, have a block in common. Each is compared with each after it: with E extents that is about half
// of E times E.
fn extents_meet(guests: &[GuestSetup]) -> bool
    ensures { result ≡ any_two blocks_meet (all_extents guests.now) }
{
    for (number, guest) in guests.iter().enumerate() {
        if meet_later(&guest.extents, &guests[number + 1..]) {
            return true;
        }
    }
    false
}

// Whether one of these extents has a block in common with another of them, or with one of these guests.
fn meet_later(extents: &[Extent], others: &[GuestSetup]) -> bool
    ensures { any_two blocks_meet (extents.now ++ all_extents others.now)
        ≡ (result || any_two blocks_meet (all_extents others.now)) }
{
    for (number, extent) in extents.iter().enumerate() {
        if has_block_of(*extent, &extents[number + 1..]) || has_block_with(*extent, others) {
            return true;
        }
    }
    false
}

// Whether an extent has a block in common with one of these.
fn has_block_of(extent: Extent, others: &[Extent]) -> bool
    ensures { result ≡ list_any (blocks_meet extent) others.now }
{
    others.iter().any(|other| blocks_meet(extent, *other))
}

// Whether an extent has a block in common with one of these guests'.
#[tactic(auto, using(crate::proofs::Twos::any_extents_drop))]
fn has_block_with(extent: Extent, guests: &[GuestSetup]) -> bool
    ensures { result ≡ list_any (blocks_meet extent) (all_extents guests.now) }
{
    for guest in guests {
        if has_block_of(extent, &guest.extents) {
            return true;
        }
    }
    false
}

// Whether two extents have a block in common.
fn blocks_meet(extent: Extent, other: Extent) -> bool
    ensures { result ≡ blocks_meet extent other }
{
    spans_meet(extent.base, extent.blocks, other.base, other.blocks)
}

// Whether some two guests' memories have a byte of the host in common.
#[tactic(auto, using(crate::proofs::Twos::any_two_drop))]
fn maps_meet(guests: &[GuestSetup]) -> bool
    ensures { result ≡ any_two maps_meet guests.now }
{
    for (number, guest) in guests.iter().enumerate() {
        if has_byte_of(guest, &guests[number + 1..]) {
            return true;
        }
    }
    false
}

// Whether a guest's memory has a byte in common with that of one of these.
fn has_byte_of(guest: &GuestSetup, others: &[GuestSetup]) -> bool
    ensures { result ≡ list_any (maps_meet guest.now) others.now }
{
    others.iter().any(|other| guest.map.meets(&other.map))
}

// Whether some guest's memory and the mediator's area have a byte in common.
fn area_met(setup: &Setup) -> bool
    ensures { result ≡ list_any (meets_area setup.now) setup.now.geometry.guests }
{
    setup.guests.iter().any(|guest| meets_area(setup, guest))
}

// Whether a guest's memory and the mediator's area have a byte in common. No map has a byte past 2 to the 64, so an area that reaches beyond that
// may be cut there.
fn meets_area(setup: &Setup, guest: &GuestSetup) -> bool
    ensures { result ≡ meets_area setup.now guest.now }
{
    // With the length of the host comes what is known of every map.
    let _known = guest.map.host_len();
    let area = LANE_SIZE.saturating_mul(setup.lanes);
    guest.map.meets_host(setup.mediator, area)
}

// Whether all sizes may be.
fn sizes_fit(limits: &Limits, setup: &Setup) -> bool
    ensures { result ≡ sizes_fit limits.now setup.now }
{
    host_fits(limits, setup)
        && 1 <= setup.disk_blocks
        && setup.disk_blocks <= limits.disk_blocks
        && all_fit(setup)
        && namespaces_fit(&setup.guests)
}

// Whether the host and the mediator's area in it have a size that may be.
fn host_fits(limits: &Limits, setup: &Setup) -> bool
    ensures { result ≡ host_fits limits.now setup.now }
{
    setup.host_bytes % PAGE_SIZE == 0
        && PAGE_SIZE <= setup.host_bytes
        && setup.host_bytes <= limits.host_bytes
        && 1 <= setup.lanes
        && setup.lanes <= u64::from(MOST_LANES)
        && setup.mediator % PAGE_SIZE == 0
        && LANE_SIZE * setup.lanes <= setup.host_bytes
        && setup.mediator <= setup.host_bytes - LANE_SIZE * setup.lanes
}

// Whether each guest may have what it is to have.
fn all_fit(setup: &Setup) -> bool
    ensures { result ≡ list_all (guest_fits setup.now) setup.now.geometry.guests }
{
    setup.guests.iter().all(|guest| guest_fits(setup, guest))
}

// Whether each guest's namespace may have as many blocks as it has.
fn namespaces_fit(guests: &[GuestSetup]) -> bool
    ensures { result ≡ list_all namespace_fits guests.now }
{
    guests.iter().all(|guest| have_at_most(MOST_NAMESPACE_BLOCKS, &guest.extents))
}

// Whether extents have so many blocks at most.
fn have_at_most(most: u64, extents: &[Extent]) -> bool
    ensures { result ≡ nat_le (blocks_in extents.now) most }
{
    let Some((first, rest)) = extents.split_first() else {
        return true;
    };
    first.blocks <= most && have_at_most(most - first.blocks, rest)
}

// Whether a guest may have what it is to have.
fn guest_fits(setup: &Setup, guest: &GuestSetup) -> bool
    ensures { result ≡ guest_fits setup.now guest.now }
{
    guest.map.host_len() == setup.host_bytes
        && guest.map.regions().len() <= MOST_REGIONS
        && 1 <= guest.extents.len()
        && guest.extents.len() <= MOST_EXTENTS
        && extents_fit(setup, &guest.extents)
        && 1 <= guest.limit
        && guest.limit <= MOST_LIMIT
}

// Whether each of a guest's extents may be.
fn extents_fit(setup: &Setup, extents: &[Extent]) -> bool
    ensures { result ≡ list_all (extent_fits setup.now) extents.now }
{
    extents.iter().all(|extent| extent_fits(setup, *extent))
}

// Whether an extent has a block, and all of its blocks are on the disk.
fn extent_fits(setup: &Setup, extent: Extent) -> bool
    ensures { result ≡ extent_fits setup.now extent }
{
    1 <= extent.blocks
        && extent.blocks <= setup.disk_blocks
        && extent.base <= setup.disk_blocks - extent.blocks
}
