//! The end of a lane's commands: completions that are read, and tags that become free.

ghost use Rattle.std.specs.Prelude.{◌≡◌, ◌<◌, Option, Some, slice_get};
ghost use Rattle.nv_core.specs.Ending.{IsEnded};
ghost use Rattle.nv_core.specs.Handing.{part_ended};
ghost use Rattle.nv_core.specs.Tags.{state_in};
ghost use Rattle.nv_entry.specs.Status.{StatusField};
ghost use Rattle.nv_tags.specs.Tags.{command_of};
ghost use Rattle.nv_tags.specs.declared.state.TagState.TheVariants as state;
ghost use Rattle.nv_world_model.specs.Area.{ring_size};
ghost use Rattle.nv_world_model.specs.Share.{Share};
ghost use Rattle.nv_world_model.specs.Step.{completion_read};
ghost use Rattle.nv_world_model.specs.World.{Command, Ended, Flying, Standing, tag_changed};

use crate::lane::Lane;
use crate::progress::Progress;
use nv_entry::Status;
use nv_model::limits::RING_SLOTS;
use nv_ring::Ring;
use nv_tags::Claim;
use std::mem;

impl Lane {
    /// The slot of the completion ring that is read next.
    pub(crate) fn head(&self) -> u16
        ensures value { result ≡ self.now.head }
        ensures fits { result < ring_size }
    {
        self.head
    }

    /// The phase tag that a completion in that slot has.
    pub(crate) fn wanted_phase(&self) -> bool
        ensures { result ≡ self.now.phase }
    {
        self.phase.expected()
    }

    /// The completion in the slot that is read next was read.
    pub(crate) fn read_completion(&mut self)
        ensures { self.new ≡ completion_read self.old }
    {
        let ring = Ring::new(RING_SLOTS);
        self.phase.go_on(ring, self.head);
        self.head = ring.next(self.head);
    }

    /// The part of a tag that was handed on ends with this status, and stays known.
    pub(crate) fn end_with(&mut self, tag: u8, status: Status)
        requires { state_in (slice_get self.old.tags tag) ≡ Some state.Flying }
        ensures { (command : Command) (share : Share) (standing : Standing) → slice_get self.old.tags tag ≡ Some (Flying command share standing) →
            self.new ≡ tag_changed tag (Ended command status (Some share)) self.old }
    {
        self.tags.end(tag, status);
        let kept = &mut self.progress[usize::from(tag)];
        end_part(kept);
    }

    /// The command of a tag that has ended.
    pub(crate) fn ended(&self, tag: u8) -> &Claim
        requires { IsEnded (slice_get self.now.tags tag) }
        ensures { (command : Command) (st : StatusField) (share : Option Share) → slice_get self.now.tags tag ≡ Some (Ended command st share) →
            command_of result.now command.leader ≡ command }
    {
        self.tags.claimed(tag)
    }
}

// What is kept of a part that was handed on, and has ended.
fn end_part(kept: &mut Progress)
    ensures { kept.new ≡ part_ended kept.old }
{
    *kept = match mem::replace(kept, Progress::Nothing) {
        Progress::Going(plan) => Progress::Over(plan),
        Progress::Part(part) => Progress::PartOver(part),
        other => other,
    };
}
