//! A plan: what is done with a command, and what that was made of.

ghost use Rattle.std.specs.Prelude.{◌≡◌, ◌<◌, ◌≤◌, ◌^◌, Some, length, true};
ghost use Rattle.nv_entry.specs.Opcode.{io_opcode};
ghost use Rattle.nv_entry.specs.Submission.{opcode_of};
ghost use Rattle.nv_entry.specs.declared.opcode.IoOpcode.{IoOpcode};
ghost use Rattle.nv_model.specs.Judge.{Work, has_blocks};
ghost use Rattle.nv_model.specs.Limits.{most_bytes};
ghost use Rattle.nv_ns.specs.Extents.{most_extents, place_in};
ghost use Rattle.nv_plan.specs.Made.{IsJobsPlan, plan_made, share_made, shares_made};
ghost use Rattle.nv_plan.specs.Outline.{kind_of};
ghost use Rattle.nv_plan.specs.Parts.{len_in, places_in, ranges_of};
ghost use Rattle.nv_world_model.specs.Seat.{work_of};
ghost use Rattle.nv_world_model.specs.Share.{Share};
ghost use Rattle.nv_world_model.specs.ShareArea.{first_lba};

use crate::job::Job;
use crate::kept_ns::KeptNs;
use crate::kind::PlanKind;
use crate::outline::Outline;
use crate::portions::Portions;
use nv_entry::{IoOpcode, Range};
use nv_mem::{GuestMap, Piece};
use nv_model::limits::{BLOCK_SIZE, RANGE_SIZE};
use nv_ns::{Extent, Part};
use std::marker::Model;

/// What is done with a command. A plan carries its job, the guest's map and namespace and the limit on descriptors that it was made
/// with, and its type keeps that it is what the definition says of these: whoever holds one need not know who made it.
#[derive(Debug, Drop)]
pub struct Plan {
    job: Job,
    map: GuestMap,
    ns: KeptNs,
    limit: u32,
    kind: PlanKind,
    portions: Portions,
}

impl Model for Plan {
    ghost use Rattle.nv_plan.specs.Made.{IsJobsPlan, MadePlan};

    ghost Value = { MadePlan };

    ghost view = { λ p. record {
      job = p.job;
      given = record { memory_map = p.map; namespace = p.ns; limit = p.limit };
      outline = record { kind = p.kind; portions = p.portions };
    } };

    ghost invariant = { λ p. IsJobsPlan (record {
      job = p.job;
      given = record { memory_map = p.map; namespace = p.ns; limit = p.limit };
      outline = record { kind = p.kind; portions = p.portions };
    }) };
}

impl Plan {
    /// The plan of a job, where this is what it says.
    pub(crate) fn new(job: Job, map: GuestMap, ns: KeptNs, limit: u32, outline: Outline) -> Self
        requires { IsJobsPlan (record { job = job; given = record { memory_map = map; namespace = ns; limit = limit }; outline = outline }) }
        ensures { result ≡ record { job = job; given = record { memory_map = map; namespace = ns; limit = limit }; outline = outline } }
    {
        let (kind, portions) = outline.into_parts();
        Plan {
            job,
            map,
            ns,
            limit,
            kind,
            portions,
        }
    }

    /// The job that it was made of.
    pub fn job(&self) -> &Job
        ensures value { result.now ≡ self.now.job }
        ensures is_plan { IsJobsPlan self.now }
    {
        &self.job
    }

    /// The guest's map that it was made with.
    pub fn map(&self) -> &GuestMap
        ensures value { result.now ≡ self.now.given.memory_map }
        ensures is_plan { IsJobsPlan self.now }
    {
        &self.map
    }

    /// The extents of the guest's namespace that it was made with, in their order.
    pub fn extents(&self) -> &[Extent]
        ensures value { result.now ≡ self.now.given.namespace }
        ensures is_plan { IsJobsPlan self.now }
    {
        self.ns.as_slice()
    }

    /// The most descriptors of a list that it was made with.
    pub fn limit(&self) -> u32
        ensures value { result ≡ self.now.given.limit }
        ensures is_plan { IsJobsPlan self.now }
    {
        self.limit
    }

    /// What is done with the command.
    pub fn kind(&self) -> PlanKind
        ensures value { result ≡ self.now.outline.kind }
        ensures made { result ≡ kind_of (plan_made self.now) }
        ensures is_plan { IsJobsPlan self.now }
    {
        self.kind
    }

    /// How many physical commands the command is: one for each share of its plan, and none where it is answered.
    pub fn parts(&self) -> u8
        ensures value { result ≡ length (shares_made self.now) }
        ensures most { result ≤ most_extents }
        ensures is_plan { IsJobsPlan self.now }
    {
        // A namespace has at most eight extents.
        let _known = self.ns.len();
        self.portions.len() as u8
    }

    /// Where the bytes of a part of a Read, Write or Compare lie in the guest's memory, as its list named them, in pieces that have bytes.
    /// Other commands have none.
    pub fn part_places(&self, part: u8) -> &[Piece]
        requires { part < length (shares_made self.now) }
        ensures value { (share : Share) → share_made part self.now ≡ Some share → result.now ≡ places_in share.plan }
        ensures is_plan { IsJobsPlan self.now }
    {
        self.portions.places(usize::from(part))
    }

    /// The ranges of a part of a Dataset Management as the disk has them, in order: attributes 0, the length, and the disk's starting
    /// block. Other commands have none.
    pub fn part_ranges(&self, part: u8) -> &[Range]
        requires { part < length (shares_made self.now) }
        ensures value { (share : Share) → share_made part self.now ≡ Some share →
            result.now ≡ ranges_of self.now.given.namespace share.plan }
        ensures is_plan { IsJobsPlan self.now }
    {
        self.portions.ranges(usize::from(part))
    }

    /// How many bytes a part transfers.
    pub fn part_len(&self, part: u8) -> u64
        requires { part < length (shares_made self.now) }
        ensures value { (share : Share) → share_made part self.now ≡ Some share → result ≡ len_in share.plan }
        ensures most { result ≤ most_bytes }
        ensures is_plan { IsJobsPlan self.now }
    {
        let Some(opcode) = self.job.sqe.io_opcode() else {
            unreachable!()
        };
        match opcode {
            IoOpcode::Read | IoOpcode::Write | IoOpcode::Compare => {
                BLOCK_SIZE as u64 * self.part_blocks(part).count()
            }
            IoOpcode::DatasetManagement => RANGE_SIZE as u64 * self.part_ranges(part).len() as u64,
            IoOpcode::Flush | IoOpcode::WriteZeroes => 0,
        }
    }

    /// The blocks of a part on the disk, of a Read, Write, Compare or Write Zeroes.
    pub fn part_blocks(&self, part: u8) -> Part
        requires part { part < length (shares_made self.now) }
        requires blocks { (opcode : IoOpcode) → io_opcode (opcode_of self.now.job.sqe) ≡ Some opcode → has_blocks opcode ≡ true }
        ensures value { (share : Share) (work : Work) → share_made part self.now ≡ Some share → work_of share.plan ≡ Some work →
            (result.start ≡ place_in self.now.given.namespace (first_lba work.units)) × (result.count ≡ length work.units) }
        ensures most { result.count ≤ 2 ^ 16 }
        ensures is_plan { IsJobsPlan self.now }
    {
        match self.ns.part(&self.job.sqe, usize::from(part)) {
            Some(part) => part,
            None => unreachable!(),
        }
    }
}
