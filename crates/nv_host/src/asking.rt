//! What is asked of the mediator: nothing changes.

ghost use Rattle.std.specs.Prelude.{◌≡◌, ◌↔◌, IfOk, IfSome, IsSome, IsTrue, MatchOption, None, OnErr, Some, slice_get};
ghost use Rattle.nv_core.specs.Jobs.{holder_in, job_in};
ghost use Rattle.nv_core.specs.Submit.{IsLimit};
ghost use Rattle.nv_mediator.specs.Hosted.{limit_of, map_of, range_of};
ghost use Rattle.nv_world_model.specs.World.{tag_in};

use crate::host_mediator::HostMediator;
use nv_core::Holder;
use nv_mem::{GuestMap, NoMemory};
use nv_ns::VirtualNs;
use nv_plan::Job;
use std::alloc::Global;

impl HostMediator {
    /// How many bytes the host's memory has, which each call is lent.
    pub fn host_bytes(&self) -> u64
        ensures { result ≡ self.now.setup.host_bytes }
    {
        self.host_bytes
    }

    /// How many lanes there are, 1 to 8.
    pub fn lanes(&self) -> u8
        ensures { result ≡ self.now.setup.lanes }
    {
        self.lanes
    }

    /// The memory of the guest of that number; `None` where there is no such guest.
    pub fn map(&self, guest: u8) -> Option<&GuestMap>
        ensures { MatchOption result (slice_get self.now.setup.geometry.guests guest ≡ None)
            (λ map. Some map.now ≡ map_of (slice_get self.now.setup.geometry.guests guest)) }
    {
        Some(self.layout.guest(guest)?.map())
    }

    /// The namespace of the guest of that number; `None` where there is no such guest.
    pub fn range(&self, guest: u8) -> Option<&VirtualNs>
        ensures { MatchOption result (slice_get self.now.setup.geometry.guests guest ≡ None)
            (λ ns. Some ns.now ≡ range_of (slice_get self.now.setup.geometry.guests guest)) }
    {
        Some(self.layout.guest(guest)?.ns())
    }

    /// The most descriptors of a list that the guest of that number was given, 1 to 4,096; `None` where there is no such guest.
    pub fn limit(&self, guest: u8) -> Option<u32>
        ensures value { result ≡ limit_of (slice_get self.now.setup.geometry.guests guest) }
        ensures fits { IfSome result (λ limit. IsLimit limit) }
    {
        Some(self.layout.guest(guest)?.limit())
    }

    /// The job of a tag that was taken: its lane and tag, whose command it is, the command, and a copy of what was read of its lists so far. `None` where
    /// the tag is at another point, or there is no such tag. Whoever plans it hands the plan to [`HostMediator::submit_plan`].
    ///
    /// # Errors
    ///
    /// There was no memory for the copy, of a tag that was taken.
    pub fn job(&self, alloc: Global, lane: u8, tag: u8) -> Result<Option<Job>, NoMemory>
        ensures ok { IfOk result (λ job. job ≡ job_in lane tag (tag_in (slice_get self.now.side.lanes lane) tag)) }
        ensures err { OnErr result (IsSome (job_in lane tag (tag_in (slice_get self.now.side.lanes lane) tag))) }
    {
        self.front.job(alloc, lane, tag)
    }

    /// Whether the command that goes by a tag waits for its plan, so that [`HostMediator::job`] has its job.
    pub fn is_waiting(&self, lane: u8, tag: u8) -> bool
        ensures { IsTrue result ↔ IsSome (job_in lane tag (tag_in (slice_get self.now.side.lanes lane) tag)) }
    {
        self.front.is_waiting(lane, tag)
    }

    /// Whether a job is that of its tag: the same command, and the same was read of its lists.
    pub fn has_job(&self, job: &Job) -> bool
        ensures { IsTrue result ↔ (job_in job.now.lane job.now.tag (tag_in (slice_get self.now.side.lanes job.now.lane) job.now.tag) ≡ Some job.now) }
    {
        self.front.has_job(job)
    }

    /// Whose command a tag of a lane has, and the tag that it goes by; `None` where the tag is free, or there is none.
    pub fn holder(&self, lane: u8, tag: u8) -> Option<Holder>
        ensures { result ≡ holder_in (tag_in (slice_get self.now.side.lanes lane) tag) }
    {
        self.front.holder(lane, tag)
    }
}
