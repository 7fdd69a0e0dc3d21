//! A part of a run of blocks: those of its blocks that lie in one extent.

ghost use Rattle.std.specs.Prelude.{◌≡◌, ℕ, ◌+◌, ◌^◌, ◌<◌};
ghost use Rattle.nv_ns.specs.Extents.{Cut, common, if_any};

use crate::extent::Extent;
use std::marker::Model;

/// Contiguous blocks that are in one extent of a namespace: how far after the first block of the run they begin, where on the disk, and how many
/// they are.
///
/// The type guarantees that it has a block, and that `start + count` is below 2 to the 64, so that each of its blocks, and the place after them,
/// has a number on the disk.
#[derive(Clone, Copy, Debug, PartialEq, Eq)]
pub struct Part {
    first: u64,
    start: u64,
    count: u64,
}

impl Model for Part {
    ghost Value = { Cut };

    ghost view = { λ p. record { first = p.first; start = p.start; count = p.count } };

    ghost invariant = { λ p. (0 < p.count) × (p.start + p.count < 2 ^ 64) };

    ghost inverse = { λ c. record { first = c.first; start = c.start; count = c.count } };
}

impl Part {
    /// `count` blocks from the disk's block `start` on, which are the run's from its block `first` on.
    pub fn new(first: u64, start: u64, count: u64) -> Self
        requires some { 0 < count }
        requires fits { start + count < 2 ^ 64 }
        ensures { result ≡ record { first = first; start = start; count = count } }
    {
        Part {
            first,
            start,
            count,
        }
    }

    /// What the run of `count` blocks from the namespace's block `slba` has in common with an extent before whose blocks `before` others
    /// of the namespace come, or `None` where that is no block.
    pub fn of(extent: Extent, before: u64, slba: u64, count: u64) -> Option<Self>
        ensures { result ≡ if_any (common (record { before = before; extent = extent }) slba count) }
    {
        let skip = slba.saturating_sub(before);
        let first = before.saturating_sub(slba);
        let part = extent
            .blocks()
            .saturating_sub(skip)
            .min(count.saturating_sub(first));
        if part > 0 {
            Some(Part::new(first, extent.base() + skip, part))
        } else {
            None
        }
    }

    /// How many blocks of the run come before it.
    pub fn first(self) -> u64
        ensures { result ≡ self.first }
    {
        self.first
    }

    /// The disk block that is its first.
    pub fn start(self) -> u64
        ensures value { result ≡ self.start }
        ensures fits { self.start + self.count < 2 ^ 64 }
    {
        self.start
    }

    /// How many blocks it has.
    pub fn count(self) -> u64
        ensures value { result ≡ self.count }
        ensures some { 0 < self.count }
        ensures fits { self.start + self.count < 2 ^ 64 }
    {
        self.count
    }
}
