//! One range of the disk's blocks, in numbers that never wrap.

ghost use Rattle.std.specs.Prelude.{◌≡◌, ◌+◌, ◌^◌, ◌<◌, ◌↔◌, IsTrue};

use std::marker::Model;

/// An extent of a namespace: `blocks` blocks that are on the disk from block `base` on.
///
/// The type guarantees that `base + blocks` is below 2 to the 64, so that each of its blocks, and the place after them, has a number on the disk.
#[derive(Clone, Copy, Debug, PartialEq, Eq)]
pub struct Extent {
    base: u64,
    blocks: u64,
}

impl Model for Extent {
    ghost use Rattle.std.specs.Prelude.{◌+◌, ◌^◌, ◌<◌};
    ghost use Rattle.nv_ns.specs.BlockRange.{Extent as OneRange};

    ghost Value = { OneRange };

    ghost view = { λ e. record { base = e.base; blocks = e.blocks } };

    ghost invariant = { λ e. e.base + e.blocks < 2 ^ 64 };

    ghost inverse = { λ r. record { base = r.base; blocks = r.blocks } };
}

impl Extent {
    /// Whether `blocks` blocks may lie on the disk from block `base` on: whether their sum, in whole numbers, is below 2 to the 64. It is
    /// what [`Extent::new`] requires.
    pub fn fits(base: u64, blocks: u64) -> bool
        ensures { IsTrue result ↔ (base + blocks < 2 ^ 64) }
    {
        blocks <= u64::MAX - base
    }

    /// `blocks` blocks that lie on the disk from block `base` on.
    ///
    /// The caller knows that the sum of both is below 2 to the 64 ([`Extent::fits`] tests it).
    pub fn new(base: u64, blocks: u64) -> Self
        requires { base + blocks < 2 ^ 64 }
        ensures { result ≡ record { base = base; blocks = blocks } }
    {
        Extent { base, blocks }
    }

    /// The disk block that is its first.
    pub fn base(self) -> u64
        ensures value { result ≡ self.base }
        ensures fits { self.base + self.blocks < 2 ^ 64 }
    {
        self.base
    }

    /// How many blocks it has.
    pub fn blocks(self) -> u64
        ensures value { result ≡ self.blocks }
        ensures fits { self.base + self.blocks < 2 ^ 64 }
    {
        self.blocks
    }
}
