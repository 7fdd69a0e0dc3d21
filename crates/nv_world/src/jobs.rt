//! Jobs of commands that were taken, and whose commands tags have.

ghost use Rattle.std.specs.Prelude.{◌≡◌, ◌<◌, ◌≤◌, IfOk, IsSome, OnErr, slice_get};
ghost use Rattle.nv_core.specs.Held.{held_in};
ghost use Rattle.nv_core.specs.Jobs.{holder_of, job_of};
ghost use Rattle.nv_core.specs.State.{world_of};
ghost use Rattle.nv_world_model.specs.SetUp.{most_guests};

use crate::world::World;
use nv_mediator::Holder;
use nv_mem::NoMemory;
use nv_plan::Job;
use std::alloc::Global;

impl World {
    /// The job of a tag that was taken: its lane and tag, whose command it is, the command, and a copy of what was
    /// read of its lists so far. `None` where the tag is at another point, or there is no such tag. Whoever plans it
    /// hands the plan to [`World::submit_plan`].
    ///
    /// # Errors
    ///
    /// There was no memory for the copy, of a tag that was taken.
    pub fn job(&self, alloc: Global, lane: u8, tag: u8) -> Result<Option<Job>, NoMemory>
        ensures ok { IfOk result (λ job. job ≡ job_of (world_of self.now.state) lane tag) }
        ensures err { OnErr result (IsSome (job_of (world_of self.now.state) lane tag)) }
    {
        self.mediator.job(alloc, lane, tag)
    }

    /// Whose command a tag of a lane has, and the tag that it goes by; `None` where the tag is free, or there is none.
    pub fn holder(&self, lane: u8, tag: u8) -> Option<Holder>
        ensures { result ≡ holder_of (world_of self.now.state) lane tag }
    {
        self.mediator.holder(lane, tag)
    }

    /// How many tags of a lane the commands of a guest have. There are none of a number from 16 on, which is no guest's, and none where there is no such lane.
    pub fn held_by(&self, lane: u8, guest: u8) -> u8
        ensures held { guest < most_guests → result ≡ held_in guest (slice_get (world_of self.now.state).lanes lane) }
        ensures none { most_guests ≤ guest → result ≡ 0 }
    {
        self.mediator.held_by(lane, guest)
    }
}
