//! What a planner's guest was given.

ghost use Rattle.nv_core.specs.Submit.{IsLimit};

use crate::shared::Shared;
use nv_mem::{GuestMap, NoMemory};
use nv_ns::VirtualNs;
use nv_world::World;
use std::alloc::Global;
use std::marker::Model;
use std::sync::Wait;

/// The map, the namespace and the limit on descriptors that a guest was given.
#[derive(Debug, Drop)]
pub(crate) struct GrantCopy {
    map: GuestMap,
    ns: VirtualNs,
    limit: u32,
}

impl Model for GrantCopy {
    ghost use Rattle.nv_core.specs.Submit.{IsLimit};
    ghost use Rattle.nv_world_model.specs.Geometry.{Guest};

    ghost Value = { Guest };

    ghost view = { λ g. record { memory_map = g.map; namespace = g.ns; limit = g.limit } };

    ghost invariant = { λ g. IsLimit g.limit };
}

impl GrantCopy {
    /// What a guest was given, with a copy of its map; `None` where there is no such guest. Each is read while the world's lock is held for
    /// it alone.
    pub(crate) fn of<R: Wait>(
        rt: &R,
        alloc: Global,
        shared: &Shared,
        guest: u8,
    ) -> Result<Option<Self>, NoMemory> {
        let map = map_of(&shared.lock(rt).world, alloc, guest)?;
        let ns = shared.lock(rt).world.range(guest).copied();
        let limit = shared.lock(rt).world.limit(guest);
        let (Some(map), Some(ns), Some(limit)) = (map, ns, limit) else {
            return Ok(None);
        };
        Ok(Some(GrantCopy { map, ns, limit }))
    }

    /// Its map.
    pub(crate) fn map(&self) -> &GuestMap {
        &self.map
    }

    /// Its namespace.
    pub(crate) fn ns(&self) -> &VirtualNs {
        &self.ns
    }

    /// The most descriptors of a list of its.
    pub(crate) fn limit(&self) -> u32
        ensures { IsLimit result }
    {
        self.limit
    }
}

// A copy of a guest's map, where there is such a guest.
fn map_of(world: &World, alloc: Global, guest: u8) -> Result<Option<GuestMap>, NoMemory> {
    match world.map(guest) {
        Some(map) => Ok(Some(map.try_clone(alloc)?)),
        None => Ok(None),
    }
}
