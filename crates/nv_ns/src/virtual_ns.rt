//! A guest's namespace of one to eight extents: which blocks of the disk are its own, in numbers that never wrap.

ghost use Rattle.std.specs.Prelude.{◌≡◌, ◌<◌, ◌≤◌, ◌↔◌, IsTrue, SomeIff, [], ◌∷◌, ◌++◌, length, slice_get};
ghost use Rattle.nv_ns.specs.BlockRange.{InNamespace, in_namespace};
ghost use Rattle.nv_ns.specs.Extents.{blocks_in, cut_out, cuts, is_namespace, most_extents};

use crate::extent::Extent;
use crate::part::Part;
use crate::parts::Parts;
use crate::walk;
use std::marker::Model;

/// The most extents of a namespace (profile).
pub const MOST_EXTENTS: usize = 8;

/// A guest's namespace: its blocks are those of its extents, joined in their order.
///
/// The type keeps that there are one to eight of them, and that the base of each and the blocks of all come to less than 2 to the 64.
#[derive(Clone, Copy, Debug, PartialEq, Eq)]
pub struct VirtualNs {
    extents: [Extent; MOST_EXTENTS],
    len: usize,
    blocks: u64,
}

impl Model for VirtualNs {
    ghost use Rattle.std.specs.Prelude.{length, take};
    ghost use Rattle.nv_ns.specs.Extents.{Namespace, blocks_in};
    ghost use Rattle.nv_ns.specs.Filled.{filled, filled_back, filled_len, nowhere};
    ghost use Rattle.nv_ns.specs.Joined.{AreJoined};

    ghost Value = { Namespace };

    ghost view = { λ n. take n.len n.extents };

    ghost invariant = { λ n. AreJoined n.extents n.len n.blocks };

    ghost inverse = { λ ns. record { extents = filled nowhere ns; len = length ns; blocks = blocks_in ns } };

    ghost inverse_ok = { λ n h i. record {
      extents = filled_back nowhere n.extents n.len h.filled i;
      len = filled_len nowhere n.extents n.len h.filled i;
      blocks = h.blocks i;
    } };
}

impl VirtualNs {
    /// The namespace of one extent.
    pub fn of(first: Extent) -> Self
        ensures { result ≡ first ∷ [] }
    {
        let mut extents = [Extent::new(0, 0); MOST_EXTENTS];
        extents[0] = first;
        VirtualNs {
            extents,
            len: 1,
            blocks: first.blocks(),
        }
    }

    /// Whether a namespace may have one more extent after the others: whether there are at most eight then, and no sum of a base and of all blocks,
    /// in whole numbers, reaches 2 to the 64. It is what [`VirtualNs::push`] requires.
    pub fn fits_behind(&self, next: Extent) -> bool
        ensures { result ≡ is_namespace (self.now ++ next ∷ []) }
    {
        if self.len == MOST_EXTENTS || next.blocks() > u64::MAX - self.blocks {
            return false;
        }
        let blocks = self.blocks + next.blocks();
        walk::all_within(self.as_slice(), blocks) && next.base() <= u64::MAX - blocks
    }

    /// Adds an extent after the others.
    ///
    /// The caller knows that it may be there ([`VirtualNs::fits_behind`] tests it).
    pub fn push(&mut self, next: Extent)
        requires { IsTrue (is_namespace (self.old ++ next ∷ [])) }
        ensures { self.new ≡ self.old ++ next ∷ [] }
    {
        self.extents[self.len] = next;
        self.len += 1;
        self.blocks += next.blocks();
    }

    /// The extents in their order.
    pub fn as_slice(&self) -> &[Extent]
        ensures items { result.now ≡ self.now }
        ensures kept { IsTrue (is_namespace self.now) }
    {
        &self.extents[..self.len]
    }

    /// How many extents there are.
    pub fn len(&self) -> usize
        ensures value { result ≡ length self.now }
        ensures some { 0 < length self.now }
        ensures few { length self.now ≤ most_extents }
    {
        self.len
    }

    /// The extent of this number, from 0.
    pub fn extent(&self, i: usize) -> Option<Extent>
        ensures { result ≡ slice_get self.now i }
    {
        self.as_slice().get(i).copied()
    }

    /// How many blocks the namespace has.
    pub fn blocks(&self) -> u64
        ensures value { result ≡ blocks_in self.now }
        ensures kept { IsTrue (is_namespace self.now) }
    {
        self.blocks
    }

    /// Whether the run of `count` blocks from the namespace's block `slba` is in it; where it is not, a command that names it is refused (LBA Out
    /// of Range).
    ///
    /// A run of no blocks is in the namespace up to and including the place after its last block.
    pub fn holds(&self, slba: u64, count: u64) -> bool
        ensures { result ≡ in_namespace slba count (blocks_in self.now) }
    {
        count <= self.blocks && slba <= self.blocks - count
    }

    /// The parts of the run of `count` blocks from the namespace's block `slba`, one for each extent that they meet, or `None` exactly where that
    /// run is not in the namespace (LBA Out of Range; [`VirtualNs::holds`] reports it, too).
    ///
    /// A run of no blocks has no parts.
    pub fn translate(&self, slba: u64, count: u64) -> Option<Parts>
        ensures value { result ≡ cut_out self.now slba count }
        ensures none_exactly_outside { SomeIff result (InNamespace slba count (blocks_in self.now)) (cuts self.now slba count) }
    {
        let first = self.extents[0];
        if count > 0 && count <= first.blocks() && slba <= first.blocks() - count {
            return Some(Parts::one(Part::new(0, first.base() + slba, count)));
        }
        if self.holds(slba, count) {
            Some(walk::parts_of(self.as_slice(), slba, count))
        } else {
            None
        }
    }
}
