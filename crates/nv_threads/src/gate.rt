//! Where a planner makes its plans.

use nv_mem::GuestMap;
use nv_ns::VirtualNs;
use nv_plan::{Job, Planned, make_plan};
use std::alloc::{Allocator, Global};
use std::sync::Wait;
use std::time::Clock;

/// What makes plans for planners. All planners share it; each hands in its own heap.
pub trait Gate {
    ghost use Rattle.std.specs.Prelude.{◌<◌, ◌≤◌};
    ghost use Rattle.nv_plan.specs.Planned.{IsPlanned};
    ghost use Rattle.nv_world_model.specs.SetUp.{most_limit};

    /// The plan of a job, the bytes that are wanted next, or that there is no memory: what `make_plan` answers of the same arguments, but
    /// that a gate may answer of its own accord that there is no memory, and may wait.
    fn plan<R: Wait + Clock, A: Allocator + Clone>(
        &self,
        rt: &R,
        heap: A,
        alloc: Global,
        job: Job,
        map: &GuestMap,
        ns: &VirtualNs,
        limit: u32,
    ) -> Planned
        requires some { 0 < limit }
        requires most { limit ≤ most_limit }
        ensures { IsPlanned result job (record { memory_map = map.now; namespace = ns.now; limit = limit }) };
}

/// The gate that just makes plans.
#[derive(Clone, Copy, Debug)]
pub struct Open;

impl Gate for Open {
    fn plan<R: Wait + Clock, A: Allocator + Clone>(
        &self,
        _rt: &R,
        heap: A,
        alloc: Global,
        job: Job,
        map: &GuestMap,
        ns: &VirtualNs,
        limit: u32,
    ) -> Planned {
        make_plan(heap, alloc, job, map, ns, limit)
    }
}
