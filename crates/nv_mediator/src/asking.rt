//! What is asked of the mediator: nothing changes.

ghost use Rattle.std.specs.Prelude.{◌≡◌, ◌<◌, ◌≤◌, ◌↔◌, IfOk, IfSome, IsSome, IsTrue, MatchOption, None, OnErr, Some, false, length, slice_get};
ghost use Rattle.nv_core.specs.Held.{held_in};
ghost use Rattle.nv_core.specs.Jobs.{holder_of, job_of};
ghost use Rattle.nv_core.specs.Noted.{IsQuietAt};
ghost use Rattle.nv_core.specs.Shown.{IsBlock, mark_shown};
ghost use Rattle.nv_core.specs.State.{world_of};
ghost use Rattle.nv_core.specs.Submit.{IsLimit};
ghost use Rattle.nv_core.specs.Tags.{ended_in, flying_in, taken_in};
ghost use Rattle.nv_device.specs.Units.{IsLowest};
ghost use Rattle.nv_mediator.specs.Hosted.{limit_of, map_of, range_of, setup_of};
ghost use Rattle.nv_model.specs.Memory.{byte_in};
ghost use Rattle.nv_world_model.specs.Due.{due};
ghost use Rattle.nv_world_model.specs.SetUp.{most_guests};

use crate::mediator::Mediator;
use nv_core::Holder;
use nv_mem::{GuestMap, Host, NoMemory};
use nv_model::limits::BLOCK_SIZE;
use nv_ns::VirtualNs;
use nv_plan::Job;
use nv_tags::Group;
use nv_world_model::Event;
use std::alloc::Global;

impl Mediator {
    /// The memory of the guest of that number; `None` where there is no such guest.
    #[inline]
    pub fn map(&self, guest: u8) -> Option<&GuestMap>
        ensures { MatchOption result (slice_get self.now.geometry.guests guest ≡ None)
            (λ map. Some map.now ≡ map_of (slice_get self.now.geometry.guests guest)) }
    {
        Some(self.layout.guest(guest)?.map())
    }

    /// The namespace of the guest of that number; `None` where there is no such guest.
    #[inline]
    pub fn range(&self, guest: u8) -> Option<&VirtualNs>
        ensures { MatchOption result (slice_get self.now.geometry.guests guest ≡ None)
            (λ ns. Some ns.now ≡ range_of (slice_get self.now.geometry.guests guest)) }
    {
        Some(self.layout.guest(guest)?.ns())
    }

    /// The most descriptors of a list that the guest of that number was given, 1 to 4,096; `None` where there is no such guest.
    #[inline]
    pub fn limit(&self, guest: u8) -> Option<u32>
        ensures value { result ≡ limit_of (slice_get self.now.geometry.guests guest) }
        ensures fits { IfSome result (λ limit. IsLimit limit) }
    {
        Some(self.layout.guest(guest)?.limit())
    }

    /// Whether an event is one of Admin, Take, DevTake, DevMove, DevPost, Reap and Post and would be done now. It is what a worker asks
    /// before it makes such an event. No memory is taken, and what it costs does not depend on the host.
    #[inline]
    pub fn due(&self, event: &Event) -> bool
        ensures { result ≡ due self.now.geometry event.now (world_of self.now.state) }
    {
        self.core.due(&self.layout, event)
    }

    /// The lowest unit for which DevMove is due, of the command that the physical controller holds in a slot of a lane; `None` where it holds none
    /// there, or all units have moved. It searches the units that have moved, and nothing else.
    #[inline]
    pub fn next_unit(&self, lane: u8, slot: u8) -> Option<u64>
        ensures { IsLowest (λ number. due self.now.geometry (Event.DevMove lane slot number) (world_of self.now.state)) result }
    {
        self.core.next_unit(&self.layout, lane, slot)
    }

    /// How many lanes there are, 1 to 8.
    #[inline]
    pub fn lanes(&self) -> u8
        ensures { (result ≡ length (world_of self.now.state).device) × (result ≡ length (world_of self.now.state).lanes) }
    {
        self.core.lanes(&self.layout)
    }

    /// The job of a tag that was taken: its lane and tag, whose command it is, the command, and a copy of what was
    /// read of its lists so far. `None` where the tag is at another point, or there is no such tag. Whoever plans it
    /// hands the plan to [`Mediator::submit_plan`].
    ///
    /// # Errors
    ///
    /// There was no memory for the copy, of a tag that was taken.
    #[inline]
    pub fn job(&self, alloc: Global, lane: u8, tag: u8) -> Result<Option<Job>, NoMemory>
        ensures ok { IfOk result (λ job. job ≡ job_of (world_of self.now.state) lane tag) }
        ensures err { OnErr result (IsSome (job_of (world_of self.now.state) lane tag)) }
    {
        self.core.job(alloc, lane, tag)
    }

    /// Whether the command that goes by a tag waits for its plan, so that [`Mediator::job`] has its job.
    #[inline]
    pub fn is_waiting(&self, lane: u8, tag: u8) -> bool
        ensures { IsTrue result ↔ IsSome (job_of (world_of self.now.state) lane tag) }
    {
        self.core.is_waiting(lane, tag)
    }

    /// Whether a job is that of its tag: the same command, and the same was read of its lists.
    #[inline]
    pub fn has_job(&self, job: &Job) -> bool
        ensures { IsTrue result ↔ (job_of (world_of self.now.state) job.now.lane job.now.tag ≡ Some job.now) }
    {
        self.core.has_job(job)
    }

    /// Whose command a tag of a lane has, and the tag that it goes by; `None` where the tag is free, or there is none.
    #[inline]
    pub fn holder(&self, lane: u8, tag: u8) -> Option<Holder>
        ensures { result ≡ holder_of (world_of self.now.state) lane tag }
    {
        self.core.holder(lane, tag)
    }

    /// How many tags of a lane the commands of a guest have. There are none of a number from 16 on, which is no guest's, and none where there is no such lane.
    #[inline]
    pub fn held_by(&self, lane: u8, guest: u8) -> u8
        ensures held { guest < most_guests → result ≡ held_in guest (slice_get (world_of self.now.state).lanes lane) }
        ensures none { most_guests ≤ guest → result ≡ 0 }
    {
        self.core.held_by(lane, guest)
    }

    /// The tags of a lane whose commands wait for their plans, in order; none where there is no such lane.
    #[inline]
    pub fn taken(&self, lane: u8) -> Group
        ensures { result ≡ taken_in (slice_get (world_of self.now.state).lanes lane) }
    {
        self.core.taken(lane)
    }

    /// The tags of a lane whose parts are with the physical controller, in order; none where there is no such lane.
    #[inline]
    pub fn flying(&self, lane: u8) -> Group
        ensures { result ≡ flying_in (slice_get (world_of self.now.state).lanes lane) }
    {
        self.core.flying(lane)
    }

    /// The tags of a lane whose parts have ended, in order; none where there is no such lane.
    #[inline]
    pub fn ended(&self, lane: u8) -> Group
        ensures { result ≡ ended_in (slice_get (world_of self.now.state).lanes lane) }
    {
        self.core.ended(lane)
    }

    /// Whether an event of a guest's admin queue or the taking of its commands may be due. Where not, none is, whatever is in memory.
    #[inline]
    pub fn is_noted(&self, guest: u8) -> bool
        ensures { result ≡ false → IsQuietAt guest (world_of self.now.state).controllers }
    {
        self.core.is_noted(guest)
    }

    /// The guest isn't noted any more, where nothing is due of its queues whatever is in memory. Nothing else changes.
    #[inline]
    pub fn settle(&mut self, guest: u8)
        ensures { self.new ≡ self.old }
    {
        self.core.settle(guest);
    }

    /// The host's memory: the guests' memory, by their maps, the mediator's area, and what is nobody's.
    #[inline]
    pub fn host(&self) -> &Host
        ensures bytes { byte_in result.now ≡ (world_of self.now.state).host }
        ensures len { length result.now ≡ (setup_of self.now).host_bytes }
    {
        self.core.host()
    }

    /// The 512 bytes of a block of the disk, by its number on the disk; `None` where there is no such block.
    #[inline]
    pub fn block(&self, block: u64) -> Option<&[u8; BLOCK_SIZE]>
        ensures { MatchOption result (self.now.geometry.disk_blocks ≤ block)
            (λ bytes. IsBlock self.now.geometry.disk_blocks (world_of self.now.state) block bytes.now) }
    {
        self.core.block(block)
    }

    /// Whether a block of the disk, by its number on the disk, is kept when power is lost; `None` where there is no
    /// such block.
    #[inline]
    pub fn kept(&self, block: u64) -> Option<bool>
        ensures { result ≡ mark_shown self.now.geometry.disk_blocks (world_of self.now.state) block }
    {
        self.core.kept(block)
    }
}
