//! What a world is made of.

use nv_mem::GuestMap;
use std::marker::Model;

/// Blocks of the disk in a row: `blocks` of them from block `base` on.
#[derive(Clone, Copy, Debug, PartialEq, Eq)]
pub struct Extent {
    /// the disk's block that is its first
    pub base: u64,
    /// how many blocks it has, at least 1
    pub blocks: u64,
}

impl Model for Extent {
    ghost use Rattle.nv_ns.specs.BlockRange.{Extent as OneRange};

    ghost Value = { OneRange };

    ghost view = { λ e. record { base = e.base; blocks = e.blocks } };

    ghost inverse = { λ r. record { base = r.base; blocks = r.blocks } };
}

/// What a guest is to have: its memory, its blocks of the disk, and the most descriptors of a list.
#[derive(Debug, Drop)]
pub struct GuestSetup {
    /// the guest's memory, 0 to 64 regions of a map that was made for the host's length
    pub map: GuestMap,
    /// the disk's blocks that are the guest's, in the order in which the guest counts them: one to eight extents, which have no block in common with
    /// each other or with another guest's, and fewer than 2 to the 32 blocks together
    pub extents: Vec<Extent>,
    /// the most descriptors of a list, 1 to 4,096
    pub limit: u32,
}

impl Model for GuestSetup {
    ghost use Rattle.nv_world_model.specs.Geometry.{Guest};

    ghost Value = { Guest };

    ghost view = { λ g. record { memory_map = g.map; namespace = g.extents.items; limit = g.limit } };
}

/// What a world is to be made of.
#[derive(Debug, Drop)]
pub struct Setup {
    /// how many bytes the host's memory has, a multiple of 4,096: 4,096 to 1,073,741,824, or up to 2 to the 47 where the memory is a host's own
    pub host_bytes: u64,
    /// where the mediator's area begins in it: a multiple of 4,096; it has 8,663,040 bytes for each lane
    pub mediator: u64,
    /// how many blocks of 512 bytes the disk has: 1 to 2,097,152, or up to 2 to the 48 where the drive is a host's own
    pub disk_blocks: u64,
    /// how many lanes there are: 1 to 8
    pub lanes: u64,
    /// the guests by number, 0 to 16
    pub guests: Vec<GuestSetup>,
}

impl Model for Setup {
    ghost use Rattle.nv_world_model.specs.SetUp.{SetUp};

    ghost Value = { SetUp };

    ghost view = { λ s. record {
      host_bytes = s.host_bytes;
      lanes = s.lanes;
      geometry = record { mediator = s.mediator; disk_blocks = s.disk_blocks; guests = s.guests.items };
    } };
}
