//! Jobs of commands that were taken, as those who plan them are given them.

ghost use Rattle.std.specs.Prelude.{◌≡◌, ◌↔◌, IfOk, IsSome, IsTrue, List, OnErr, Some, slice_get};
ghost use Rattle.nv_core.specs.Jobs.{job_in};
ghost use Rattle.nv_core.specs.Submit.{IsJobOf};
ghost use Rattle.nv_core.specs.Tags.{state_in};
ghost use Rattle.nv_model.specs.Transcript.{ReadDone as Read};
ghost use Rattle.nv_tags.specs.declared.state.TagState.TheVariants as state;
ghost use Rattle.nv_world_model.specs.World.{Command, Taken, tag_in};

use crate::front::Front;
use crate::lane::Lane;
use nv_mem::NoMemory;
use nv_plan::Job;
use std::alloc::Global;

impl Front {
    /// The job of a tag that was taken: its command, and a copy of what was read of its lists so far. `None` where
    /// the tag is at another point, or there is no such tag.
    ///
    /// # Errors
    ///
    /// There was no memory for the copy.
    pub fn job(&self, alloc: Global, lane: u8, tag: u8) -> Result<Option<Job>, NoMemory>
        ensures ok { IfOk result (λ job. job ≡ job_in lane tag (tag_in (slice_get self.now.lanes lane) tag)) }
        ensures err { OnErr result (IsSome (job_in lane tag (tag_in (slice_get self.now.lanes lane) tag))) }
    {
        if self.untaken(lane, tag).is_some() {
            return Ok(None);
        }
        let job = self.lanes[usize::from(lane)].job(alloc, lane, tag)?;
        Ok(Some(job))
    }

    /// Whether the tag has a command that waits for its plan, so that [`Front::job`] has its job.
    pub fn is_waiting(&self, lane: u8, tag: u8) -> bool
        ensures { IsTrue result ↔ IsSome (job_in lane tag (tag_in (slice_get self.now.lanes lane) tag)) }
    {
        self.untaken(lane, tag).is_none()
    }

    /// Whether a job is that of its tag: the same command, and the same was read of its lists.
    pub fn has_job(&self, job: &Job) -> bool
        ensures { IsTrue result ↔ (job_in job.now.lane job.now.tag (tag_in (slice_get self.now.lanes job.now.lane) job.now.tag) ≡ Some job.now) }
    {
        if self.untaken(job.lane, job.tag).is_some() {
            return false;
        }
        self.lanes[usize::from(job.lane)].has_job(job.tag, job)
    }
}

impl Lane {
    // The job of a tag that was taken.
    fn job(&self, alloc: Global, lane: u8, tag: u8) -> Result<Job, NoMemory>
        requires { state_in (slice_get self.now.tags tag) ≡ Some state.Taken }
        ensures { IfOk result (λ job. (command : Command) (reads : List Read) →
            slice_get self.now.tags tag ≡ Some (Taken command reads) → IsJobOf lane tag command reads job) }
    {
        let claim = *self.claimed(tag);
        let reads = self.reads(tag).try_clone(alloc)?;
        Ok(Job {
            lane,
            tag,
            guest: claim.guest,
            sqe: claim.entry,
            reads,
        })
    }
}
