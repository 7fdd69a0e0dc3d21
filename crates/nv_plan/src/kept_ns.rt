//! A guest's namespace, as a plan keeps it.

ghost use Rattle.std.specs.Prelude.{◌≡◌, ◌<◌, ◌≤◌, ◌^◌, IfOk, length, slice_get, true};
ghost use Rattle.nv_entry.specs.Submission.{slba_of};
ghost use Rattle.nv_model.specs.Judge.{count_of};
ghost use Rattle.nv_ns.specs.BlockRange.{in_namespace};
ghost use Rattle.nv_ns.specs.Extents.{blocks_in, cuts, most_extents};

use crate::tags::parts_of;
use nv_entry::Sqe;
use nv_mem::NoMemory;
use nv_ns::{Extent, Part, VirtualNs};
use std::alloc::Global;
use std::marker::Model;
use std::slice;

/// How the extents are stored: most guests have one.
#[derive(Debug, Drop)]
enum Extents {
    /// One, in place.
    One(Extent),
    /// Several, in a block of their own.
    Several(Box<VirtualNs>),
}

/// A guest's namespace, as a plan keeps it: one extent takes no memory, and several take one block. So a plan is small where it moves.
#[derive(Debug, Drop)]
pub(crate) struct KeptNs {
    extents: Extents,
}

impl Model for KeptNs {
    ghost use Rattle.nv_ns.specs.Extents.{Namespace};
    ghost use Rattle.nv_plan.specs.Told.{namespace_of};

    ghost Value = { Namespace };

    ghost view = { λ n. namespace_of n.extents };
}

impl KeptNs {
    /// A namespace, to be kept.
    pub(crate) fn of(alloc: Global, ns: &VirtualNs) -> Result<Self, NoMemory>
        ensures { IfOk result (λ kept. kept ≡ ns.now) }
    {
        let extents = match ns.as_slice() {
            [extent] => Extents::One(*extent),
            _ => Extents::Several(Box::new(alloc, *ns)?),
        };
        Ok(KeptNs { extents })
    }

    /// The extents in their order.
    pub(crate) fn as_slice(&self) -> &[Extent]
        ensures { result.now ≡ self.now }
    {
        match &self.extents {
            Extents::One(extent) => slice::from_ref(extent),
            Extents::Several(ns) => ns.as_slice(),
        }
    }

    /// How many extents there are.
    pub(crate) fn len(&self) -> usize
        ensures value { result ≡ length self.now }
        ensures some { 0 < length self.now }
        ensures few { length self.now ≤ most_extents }
    {
        match &self.extents {
            Extents::One(_) => 1,
            Extents::Several(ns) => ns.len(),
        }
    }

    /// The part of this number, from 0, of the run of blocks that a command names, which lies in the namespace.
    pub(crate) fn part(&self, sqe: &Sqe, number: usize) -> Option<Part>
        requires { in_namespace (slba_of sqe.now) (count_of sqe.now) (blocks_in self.now) ≡ true }
        ensures value { result ≡ slice_get (cuts self.now (slba_of sqe.now) (count_of sqe.now)) number }
        ensures short { count_of sqe.now ≤ 2 ^ 16 }
    {
        let count = u64::from(sqe.nlb()) + 1;
        match &self.extents {
            Extents::One(extent) => {
                if number > 0 {
                    return None;
                }
                Part::of(*extent, 0, sqe.slba(), count)
            }
            Extents::Several(ns) => parts_of(sqe, ns).get(number),
        }
    }
}
