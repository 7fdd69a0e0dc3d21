//! How a planner's plans are made, outside the lock.

use crate::feeder::{Fed, Feeder};
use crate::gate::Gate;
use crate::given::GrantCopy;
use nv_plan::{Job, Plan, Planned, ReadDone};
use std::alloc::{Allocator, Global};
use std::sync::Wait;
use std::time::Clock;

/// What comes of a job, or of what was read for it.
#[derive(Debug, Drop)]
pub(crate) enum Prepared {
    /// So many bytes are wanted from a guest address on, for the command of a tag: tag, address, number.
    Wanted(u8, u64, u64),
    /// The plan, with the job inside.
    Plan(Plan),
    /// There was no memory for the plan of that tag's command.
    NoMemory(u8),
    /// The job of that tag is to be examined again.
    Again(u8),
}

/// Makes a planner's plans: finds what they want by a plan that is fed, and has the gate make each. The gate has the whole heap each time.
#[derive(Drop)]
pub(crate) struct PlanMaker<'a, G, A: Allocator + Clone + Copy> {
    gate: &'a G,
    alloc: Global,
    feeder: Feeder<'a, A>,
}

impl<'a, G: Gate, A: Allocator + Clone + Copy> PlanMaker<'a, G, A> {
    /// One that has no plan under way.
    pub(crate) fn new(gate: &'a G, heap: A, alloc: Global, given: &'a GrantCopy) -> Self {
        PlanMaker {
            gate,
            alloc,
            feeder: Feeder::new(heap, alloc, given),
        }
    }

    /// What comes of a job. Most want no read, so the gate comes first.
    pub(crate) fn plan<R: Wait + Clock>(&mut self, rt: &R, job: Job) -> Prepared {
        match self.made(rt, job) {
            Planned::Need(job, _, _) => {
                let fed = self.feeder.begin(job);
                self.go_on(rt, fed)
            }
            planned => Prepared::of(planned),
        }
    }

    /// What comes of what was read for the command of a tag.
    pub(crate) fn feed<R: Wait + Clock>(&mut self, rt: &R, tag: u8, read: ReadDone) -> Prepared {
        let fed = self.feeder.feed(tag, read);
        self.go_on(rt, fed)
    }

    // What comes of a plan that was fed. Where all is read, the gate makes it.
    fn go_on<R: Wait + Clock>(&mut self, rt: &R, fed: Fed) -> Prepared {
        match fed {
            Fed::Wanted(tag, addr, len) => Prepared::Wanted(tag, addr, len),
            Fed::NoMemory(tag) => Prepared::NoMemory(tag),
            Fed::Lost(tag) => Prepared::Again(tag),
            Fed::Whole(job) => Prepared::of(self.made(rt, job)),
        }
    }

    // What the gate makes of a job.
    fn made<R: Wait + Clock>(&mut self, rt: &R, job: Job) -> Planned {
        let heap = self.feeder.cleared_heap();
        let given = self.feeder.given();
        self.gate.plan(
            rt,
            heap,
            self.alloc,
            job,
            given.map(),
            given.ns(),
            given.limit(),
        )
    }
}

impl Prepared {
    /// The same of what was made of a job at once.
    pub(crate) fn of(planned: Planned) -> Self {
        match planned {
            Planned::Need(job, addr, len) => Prepared::Wanted(job.tag, addr, len),
            Planned::Plan(plan) => Prepared::Plan(plan),
            Planned::NoMemory(job) => Prepared::NoMemory(job.tag),
        }
    }
}
