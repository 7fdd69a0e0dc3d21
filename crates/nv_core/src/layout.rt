//! What stays as it is while a world runs.

ghost use Rattle.std.specs.Prelude.{◌≡◌, MatchOption, None, Some, slice_get};
ghost use Rattle.nv_core.specs.Submit.{IsLimit};

use nv_mem::GuestMap;
use nv_ns::VirtualNs;
use std::marker::Model;

/// What a guest was given: its memory, its namespace, and the most descriptors of a list.
#[derive(Debug, Drop)]
pub struct Grant {
    pub(crate) map: GuestMap,
    pub(crate) ns: VirtualNs,
    pub(crate) limit: u32,
}

impl Model for Grant {
    ghost use Rattle.nv_core.specs.Submit.{IsLimit};
    ghost use Rattle.nv_world_model.specs.Geometry.{Guest};

    ghost Value = { Guest };

    ghost view = { λ g. record { memory_map = g.map; namespace = g.ns; limit = g.limit } };

    ghost invariant = { λ g. IsLimit g.limit };
}

impl Grant {
    /// This memory, this namespace, and this limit on descriptors, which is 1 to 4,096.
    pub fn new(map: GuestMap, ns: VirtualNs, limit: u32) -> Self
        requires { IsLimit limit }
        ensures { result ≡ record { memory_map = map; namespace = ns; limit = limit } }
    {
        Grant { map, ns, limit }
    }

    /// The guest's memory.
    pub fn map(&self) -> &GuestMap
        ensures { result.now ≡ self.now.memory_map }
    {
        &self.map
    }

    /// The guest's namespace.
    pub fn ns(&self) -> &VirtualNs
        ensures { result.now ≡ self.now.namespace }
    {
        &self.ns
    }

    /// The most descriptors of a list.
    pub fn limit(&self) -> u32
        ensures value { result ≡ self.now.limit }
        ensures fits { IsLimit result }
    {
        self.limit
    }
}

/// Where the mediator's area begins in the host's memory, how many blocks the disk has, and what each guest was given.
#[derive(Debug, Drop)]
pub struct Layout {
    pub(crate) mediator: u64,
    pub(crate) disk_blocks: u64,
    pub(crate) guests: Vec<Grant>,
}

impl Model for Layout {
    ghost use Rattle.nv_world_model.specs.Geometry.{Geometry};

    ghost Value = { Geometry };

    ghost view = { λ l. record { mediator = l.mediator; disk_blocks = l.disk_blocks; guests = l.guests.items } };
}

impl Layout {
    /// An area that begins there, a disk of so many blocks, and guests by number.
    pub fn new(mediator: u64, disk_blocks: u64, guests: Vec<Grant>) -> Self
        ensures { result ≡ record { mediator = mediator; disk_blocks = disk_blocks; guests = guests.items } }
    {
        Layout {
            mediator,
            disk_blocks,
            guests,
        }
    }

    /// Where the mediator's area begins.
    pub fn mediator(&self) -> u64
        ensures { result ≡ self.now.mediator }
    {
        self.mediator
    }

    /// How many blocks the disk has.
    pub fn disk_blocks(&self) -> u64
        ensures { result ≡ self.now.disk_blocks }
    {
        self.disk_blocks
    }

    /// What the guest of that number was given, where there is one.
    pub fn guest(&self, guest: u8) -> Option<&Grant>
        ensures { MatchOption result (slice_get self.now.guests guest ≡ None) (λ given. slice_get self.now.guests guest ≡ Some given.now) }
    {
        self.guests.get(usize::from(guest))
    }
}
