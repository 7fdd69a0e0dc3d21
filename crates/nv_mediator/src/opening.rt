//! The world of a set-up that is not refused.

ghost use Rattle.std.specs.Prelude.{◌≡◌, ◌+◌, ◌^◌, ◌<◌, ℕ, IfOk, IsTrue, None, Some, slice_get};
ghost use Rattle.nv_mem.specs.GuestMap.{IsSound};
ghost use Rattle.nv_ns.specs.Extents.{is_namespace};
ghost use Rattle.nv_mediator.specs.Hosted.{IsAtStart, MayBeGiven};
ghost use Rattle.nv_world_model.specs.Geometry.{Guest};
ghost use Rattle.nv_world_model.specs.SetUp.{refusal_of};

use crate::mediator::Mediator;
use crate::setup::{Extent, GuestSetup, Setup};
use nv_core::{Core, Grant, Layout};
use nv_mem::NoMemory;
use nv_ns::{Extent as OneExtent, VirtualNs};
use std::alloc::Global;

impl Mediator {
    /// The world of a set-up that is not refused, at its start.
    pub(crate) fn open(alloc: Global, setup: Setup) -> Result<Self, NoMemory>
        requires { refusal_of setup ≡ None }
        ensures { IfOk result (λ mediator. IsAtStart setup mediator) }
    {
        let host_bytes = setup.host_bytes;
        let lanes = setup.lanes;
        let layout = setup.into_layout(alloc)?;
        let core = Core::new(alloc, &layout, host_bytes, lanes as u8)?;
        Ok(Mediator { layout, core })
    }
}

impl Setup {
    /// What stays as it is while the world of this set-up runs: the place of the mediator's area, the blocks of the disk, and what each guest has. With
    /// each map comes what is known of it.
    ///
    /// # Errors
    ///
    /// [`NoMemory`] where memory for the guests is refused.
    pub fn into_layout(self, alloc: Global) -> Result<Layout, NoMemory>
        requires { (number : ℕ) (guest : Guest) → slice_get self.geometry.guests number ≡ Some guest → MayBeGiven guest }
        ensures given { IfOk result (λ layout. layout ≡ self.geometry) }
        ensures sound { IfOk result (λ layout. (number : ℕ) (guest : Guest) → slice_get layout.guests number ≡ Some guest → IsSound guest.memory_map) }
    {
        let Setup {
            host_bytes: _,
            mediator,
            disk_blocks,
            lanes: _,
            guests,
        } = self;
        let guests = all_given(alloc, guests)?;
        Ok(Layout::new(mediator, disk_blocks, guests))
    }
}

// What the guests have, by number. With each map comes what is known of it.
fn all_given(alloc: Global, guests: Vec<GuestSetup>) -> Result<Vec<Grant>, NoMemory>
    requires { (number : ℕ) (guest : Guest) → slice_get guests.items number ≡ Some guest → MayBeGiven guest }
    ensures given { IfOk result (λ given. given.items ≡ guests.items) }
    ensures sound { IfOk result (λ given. (number : ℕ) (guest : Guest) → slice_get given.items number ≡ Some guest → IsSound guest.memory_map) }
{
    let mut given = Vec::with_capacity(alloc, guests.len())?;
    for guest in guests {
        given.push(given_of(guest))?;
    }
    Ok(given)
}

// What a guest has.
fn given_of(guest: GuestSetup) -> Grant
    requires { MayBeGiven guest }
    ensures value { result ≡ guest }
    ensures sound { IsSound result.memory_map }
{
    let GuestSetup {
        map,
        extents,
        limit,
    } = guest;
    let _known = map.host_len();
    Grant::new(map, namespace_of(&extents), limit)
}

// The namespace of these extents.
fn namespace_of(extents: &[Extent]) -> VirtualNs
    requires { IsTrue (is_namespace extents.now) }
    ensures { result ≡ extents.now }
{
    let Some((first, rest)) = extents.split_first() else {
        unreachable!()
    };
    let mut ns = VirtualNs::of(extent_of(*first));
    for extent in rest {
        ns.push(extent_of(*extent));
    }
    ns
}

// An extent of a namespace.
fn extent_of(extent: Extent) -> OneExtent
    requires { extent.base + extent.blocks < 2 ^ 64 }
    ensures { result ≡ extent }
{
    OneExtent::new(extent.base, extent.blocks)
}
