//! A lane's tags that were taken: their transcripts, and what becomes of them once they are planned.

ghost use Rattle.std.specs.Prelude.{◌≡◌, ◌↔◌, IsTrue, List, Some, slice_get};
ghost use Rattle.nv_core.specs.Submit.{IsJobOf};
ghost use Rattle.nv_core.specs.Tags.{IsReading, state_in};
ghost use Rattle.nv_core.specs.declared.progress.Progress.TheVariants as progress;
ghost use Rattle.nv_model.specs.Transcript.{ReadDone as Read};
ghost use Rattle.nv_tags.specs.declared.state.TagState.TheVariants as state;
ghost use Rattle.nv_world_model.specs.World.{Command, Taken, tag_changed};

use crate::comparing::same_reads;
use crate::lane::Lane;
use crate::progress::Progress;
use nv_plan::{Job, Transcript};
use nv_tags::Claim;

impl Lane {
    /// Puts this transcript in the place of that of a tag that was taken, which is given back.
    pub(crate) fn replace_reads(&mut self, tag: u8, reads: Transcript) -> Transcript
        requires { state_in (slice_get self.old.tags tag) ≡ Some state.Taken }
        ensures before { (command : Command) (before : List Read) → slice_get self.old.tags tag ≡ Some (Taken command before) →
            result ≡ before }
        ensures changed { (command : Command) (before : List Read) → slice_get self.old.tags tag ≡ Some (Taken command before) →
            self.new ≡ tag_changed tag (Taken command reads) self.old }
    {
        let kept = &mut self.progress[usize::from(tag)];
        let before = std::mem::replace(kept, Progress::Reading(reads));
        transcript_of(before)
    }
}

impl Lane {
    /// Whether a job is that of the command of a tag that was taken, with what was read of its lists.
    pub(crate) fn has_job(&self, tag: u8, job: &Job) -> bool
        requires { state_in (slice_get self.now.tags tag) ≡ Some state.Taken }
        ensures { (command : Command) (reads : List Read) → slice_get self.now.tags tag ≡ Some (Taken command reads) →
            IsTrue result ↔ IsJobOf job.now.lane job.now.tag command reads job.now }
    {
        is_claimed(self.claimed(tag), job) && same_reads(self.reads(tag).reads(), job.reads.reads())
    }

    /// The transcript of a tag that was taken.
    pub(crate) fn reads(&self, tag: u8) -> &Transcript
        requires { state_in (slice_get self.now.tags tag) ≡ Some state.Taken }
        ensures { (command : Command) (reads : List Read) → slice_get self.now.tags tag ≡ Some (Taken command reads) →
            result.now ≡ reads }
    {
        let Progress::Reading(reads) = &self.progress[usize::from(tag)] else {
            unreachable!()
        };
        reads
    }
}

// Whether a job is that of this command.
fn is_claimed(claim: &Claim, job: &Job) -> bool
    ensures { IsTrue result ↔ ((job.now.guest ≡ claim.now.guest) × (job.now.sqe ≡ claim.now.entry)) }
{
    claim.guest == job.guest && claim.entry.bytes() == job.sqe.bytes()
}

// The transcript of a command that was taken.
fn transcript_of(kept: Progress) -> Transcript
    requires { IsReading kept }
    ensures { (reads : List Read) → kept ≡ progress.Reading reads → result ≡ reads }
{
    let Progress::Reading(reads) = kept else {
        unreachable!()
    };
    reads
}
