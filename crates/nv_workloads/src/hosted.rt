//! What a host steps: a world with its log, or a mediator without one.

ghost use Rattle.std.specs.Prelude.{IfSome};
ghost use Rattle.nv_core.specs.Submit.{IsLimit};

use nv_mediator::Mediator;
use nv_mem::{GuestMap, NoMemory};
use nv_model::Reply;
use nv_model::limits::BLOCK_SIZE;
use nv_ns::VirtualNs;
use nv_plan::{Job, Plan, Planned, make_plan};
use nv_world::{Refusal, Setup, World};
use nv_world_model::Event;
use std::alloc::Global;

/// What a host steps.
pub trait Hosted {
    /// The world of a set-up, at its start.
    fn new(alloc: Global, setup: Setup) -> Result<Self, Refusal>;

    /// Carries out an event, and answers it.
    fn step(&mut self, alloc: Global, event: Event) -> Reply;

    /// Carries out a plan that was made elsewhere; Stale where what it was made of is no longer current.
    fn submit_plan(&mut self, plan: Plan) -> Reply;

    /// Whether an event of a worker would be done now.
    fn due(&self, event: &Event) -> bool;

    /// The job of a tag that was taken.
    fn job(&self, alloc: Global, lane: u8, tag: u8) -> Result<Option<Job>, NoMemory>;

    /// What a planner makes of a job; `None` where there is no such guest.
    fn planned(&self, alloc: Global, job: Job) -> Option<Planned>;

    /// The bytes of a block of the disk.
    fn block(&self, block: u64) -> Option<&[u8; BLOCK_SIZE]>;

    /// Whether a block of the disk is kept when power is lost.
    fn kept(&self, block: u64) -> Option<bool>;

    /// How many events were carried out: those that were refused because memory ran out, and plans that were stale, don't count.
    fn events(&self) -> u64;
}

impl Hosted for World {
    fn new(alloc: Global, setup: Setup) -> Result<Self, Refusal> {
        World::new(alloc, setup)
    }

    fn step(&mut self, alloc: Global, event: Event) -> Reply {
        World::step(self, alloc, event)
    }

    fn submit_plan(&mut self, plan: Plan) -> Reply {
        World::submit_plan(self, plan)
    }

    fn due(&self, event: &Event) -> bool {
        World::due(self, event)
    }

    fn job(&self, alloc: Global, lane: u8, tag: u8) -> Result<Option<Job>, NoMemory> {
        World::job(self, alloc, lane, tag)
    }

    fn planned(&self, alloc: Global, job: Job) -> Option<Planned> {
        let guest = job.guest;
        let limit = self.limit(guest);
        planned(alloc, job, self.map(guest), self.range(guest), limit)
    }

    fn block(&self, block: u64) -> Option<&[u8; BLOCK_SIZE]> {
        World::block(self, block)
    }

    fn kept(&self, block: u64) -> Option<bool> {
        World::kept(self, block)
    }

    fn events(&self) -> u64 {
        self.log().len() as u64
    }
}

/// A mediator, of which nothing is kept but how many events it carried out.
#[derive(Drop)]
pub struct Counted {
    mediator: Mediator,
    events: u64,
}

impl Counted {
    // The step by which the physical controller moves a unit, as most are. Apart from the others it stores little, and so waits little for the
    // copy of a block.
    #[inline(never)]
    fn move_unit(&mut self, lane: u8, slot: u8, number: u64) -> Reply {
        self.events = self.events.wrapping_add(1);
        self.mediator.dev_move(lane, slot, number)
    }

    // A step of any kind.
    #[inline(never)]
    fn step_any(&mut self, alloc: Global, event: Event) -> Reply {
        let Ok(reply) = self.mediator.step(alloc, &event) else {
            return Reply::NoMemory;
        };
        self.events = self.events.wrapping_add(1);
        reply
    }
}

impl Hosted for Counted {
    fn new(alloc: Global, setup: Setup) -> Result<Self, Refusal> {
        let mediator = Mediator::new(alloc, setup)?;
        Ok(Counted {
            mediator,
            events: 0,
        })
    }

    fn step(&mut self, alloc: Global, event: Event) -> Reply {
        match event {
            Event::DevMove(lane, slot, number) => self.move_unit(lane, slot, number),
            event => self.step_any(alloc, event),
        }
    }

    fn submit_plan(&mut self, plan: Plan) -> Reply {
        let Some(reply) = self.mediator.submit_plan(plan) else {
            return Reply::Stale;
        };
        self.events = self.events.wrapping_add(1);
        reply
    }

    fn due(&self, event: &Event) -> bool {
        self.mediator.due(event)
    }

    fn job(&self, alloc: Global, lane: u8, tag: u8) -> Result<Option<Job>, NoMemory> {
        self.mediator.job(alloc, lane, tag)
    }

    fn planned(&self, alloc: Global, job: Job) -> Option<Planned> {
        let (mediator, guest) = (&self.mediator, job.guest);
        let limit = mediator.limit(guest);
        planned(
            alloc,
            job,
            mediator.map(guest),
            mediator.range(guest),
            limit,
        )
    }

    fn block(&self, block: u64) -> Option<&[u8; BLOCK_SIZE]> {
        self.mediator.block(block)
    }

    fn kept(&self, block: u64) -> Option<bool> {
        self.mediator.kept(block)
    }

    fn events(&self) -> u64 {
        self.events
    }
}

// What a planner makes of a job of a guest with that memory, that namespace and that limit on descriptors.
fn planned(
    alloc: Global,
    job: Job,
    map: Option<&GuestMap>,
    ns: Option<&VirtualNs>,
    limit: Option<u32>,
) -> Option<Planned>
    requires { IfSome limit (λ limit. IsLimit limit) }
{
    Some(make_plan(alloc, alloc, job, map?, ns?, limit?))
}
