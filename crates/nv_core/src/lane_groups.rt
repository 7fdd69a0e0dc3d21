//! All tags of a lane's command at once.

ghost use Rattle.std.specs.Prelude.{◌≡◌, ◌<◌, ◌∷◌, [], All, List, MatchOption, None, Option, Some, if◌then◌else◌, length, option_map, slice_get, vec_len};
ghost use Rattle.nv_core.specs.Ending.{IsEnded};
ghost use Rattle.nv_core.specs.Groups.{AreTaken, all_ended, statuses_in, tags_changed};
ghost use Rattle.nv_core.specs.Tags.{IsTaken, plan_kept, state_in};
ghost use Rattle.nv_core.specs.declared.progress.Progress.TheVariants as progress;
ghost use Rattle.nv_entry.specs.Status.{StatusField};
ghost use Rattle.nv_model.specs.Transcript.{ReadDone as Read};
ghost use Rattle.nv_plan.specs.Made.{share_made, shares_made};
ghost use Rattle.nv_tags.specs.Tags.{Leads, group, released, set_each};
ghost use Rattle.nv_tags.specs.declared.state.TagState.TheVariants as state;
ghost use Rattle.nv_world_model.specs.Share.{Share};
ghost use Rattle.nv_world_model.specs.Step.{deciding, is_success};
ghost use Rattle.nv_world_model.specs.World.{Command, Ended, Free, Taken, group_in, tag_changed};

use crate::lane::Lane;
use crate::progress::{Progress, keep};
use nv_entry::{Status, StatusCode};
use nv_plan::Plan;
use nv_tags::{Group, Tags};

impl Lane {
    /// The tags of the command that was taken and goes by this one, in order; itself, where it is the only one.
    pub(crate) fn taken_group(&self, tag: u8) -> Group
        requires { IsTaken tag (slice_get self.now.tags tag) }
        ensures { result ≡ group_in (Some self.now) tag }
    {
        // With a field comes what is kept of the lane.
        let _known = &self.head;
        self.tags.group(tag)
    }

    /// The command that was taken and goes by this tag ends with this status, without a physical command: its other tags end with success.
    ///
    /// All its tags were taken, and no more.
    pub(crate) fn answer(&mut self, tag: u8, status: Status)
        requires led { IsTaken tag (slice_get self.old.tags tag) }
        requires together { AreTaken (group_in (Some self.old) tag) self.old }
        ensures { (command : Command) (reads : List Read) → slice_get self.old.tags tag ≡ Some (Taken command reads) →
            self.new ≡ all_ended (group_in (Some self.old) tag) command status self.old }
    {
        // With a field comes what is kept of the lane.
        let _known = &self.head;
        let mut others = self.taken_group(tag);
        let _leader = others.pop();
        self.end_taken(tag, status);
        while let Some(other) = others.pop() {
            self.end_taken(other, StatusCode::Success.status());
        }
    }

    // The command of a tag that was taken ends in this tag with this status, without a physical command.
    fn end_taken(&mut self, tag: u8, status: Status)
        requires { state_in (slice_get self.old.tags tag) ≡ Some state.Taken }
        ensures { (command : Command) (reads : List Read) → slice_get self.old.tags tag ≡ Some (Taken command reads) →
            self.new ≡ tag_changed tag (Ended command status None) self.old }
    {
        self.tags.end(tag, status);
        self.progress[usize::from(tag)] = Progress::Nothing;
    }

    /// The tags of the command whose first part has ended, and that goes by this one, in order; itself, where it is the only one.
    pub(crate) fn ended_group(&self, tag: u8) -> Group
        requires ended { IsEnded (slice_get self.now.tags tag) }
        requires led { (command : Command) (st : StatusField) (share : Option Share) →
            slice_get self.now.tags tag ≡ Some (Ended command st share) → command.leader ≡ tag }
        ensures { result ≡ group_in (Some self.now) tag }
    {
        // With a field comes what is kept of the lane.
        let _known = &self.head;
        self.tags.group(tag)
    }

    /// The status of the command that goes by this tag, whose first part has ended: that of the first part that failed, or success. `None` where
    /// some part has not ended.
    pub(crate) fn outcome(&self, tag: u8) -> Option<Status>
        requires ended { IsEnded (slice_get self.now.tags tag) }
        requires led { (command : Command) (st : StatusField) (share : Option Share) →
            slice_get self.now.tags tag ≡ Some (Ended command st share) → command.leader ≡ tag }
        ensures { result ≡ option_map deciding (statuses_in (group_in (Some self.now) tag) self.now) }
    {
        let mut others = self.ended_group(tag);
        let _leader = others.pop();
        let mut outcome = self.tags.state(tag).ended()?;
        while let Some(other) = others.pop() {
            let status = self.tags.state(other).ended()?;
            outcome = first_failure(outcome, status);
        }
        Some(decided(outcome))
    }

    /// The plan of which a tag that has ended had a part, and the number of this part; `None` where its command was not handed on.
    pub(crate) fn ended_part(&self, tag: u8) -> Option<(&Plan, u8)>
        requires { IsEnded (slice_get self.now.tags tag) }
        ensures which { (command : Command) (st : StatusField) (share : Option Share) → slice_get self.now.tags tag ≡ Some (Ended command st share) →
            MatchOption result (share ≡ None) (λ made. share ≡ share_made made.1 made.0.now) }
        ensures some { (command : Command) (st : StatusField) (share : Share) → slice_get self.now.tags tag ≡ Some (Ended command st (Some share)) →
            MatchOption result ⊥ (λ made. made.1 < length (shares_made made.0.now)) }
    {
        match &self.progress[usize::from(tag)] {
            Progress::Over(plan) => Some((plan, 0)),
            Progress::PartOver(part) => {
                let leader = self.tags.leader(tag);
                let Some(plan) = plan_in(&self.progress[usize::from(leader)]) else {
                    unreachable!()
                };
                Some((plan, *part))
            }
            _ => None,
        }
    }

    /// The tags of the command that goes by this tag, whose first part has ended, become free, all at once.
    pub(crate) fn release(&mut self, tag: u8)
        requires ended { IsEnded (slice_get self.old.tags tag) }
        requires led { (command : Command) (st : StatusField) (share : Option Share) →
            slice_get self.old.tags tag ≡ Some (Ended command st share) → command.leader ≡ tag }
        ensures { self.new ≡ tags_changed (group_in (Some self.old) tag) Free self.old }
    {
        free_all(&mut self.tags, &mut self.progress, tag);
    }
}

// All tags of the command that goes by this one become free, and nothing is kept of them any more.
fn free_all(tags: &mut Tags, kept: &mut Vec<Progress>, leader: u8)
    requires leads { Leads leader tags.old }
    requires below { All (λ tag. tag < vec_len kept.old) (group leader tags.old) }
    ensures tags { tags.new ≡ released leader tags.old }
    ensures kept { kept.new.items ≡ set_each (group leader tags.old) progress.Nothing kept.old.items }
{
    let mut left = tags.group(leader);
    tags.release_group(leader);
    while let Some(tag) = left.pop() {
        keep(kept, tag, Progress::Nothing);
    }
}

// The plan that is kept of a command.
fn plan_in(kept: &Progress) -> Option<&Plan>
    ensures { MatchOption result (plan_kept kept.now ≡ None) (λ plan. plan_kept kept.now ≡ Some plan.now) }
{
    match kept {
        Progress::Going(plan) | Progress::Over(plan) => Some(plan),
        _ => None,
    }
}

// The first of two statuses that isn't success; or the other one.
fn first_failure(first: Status, second: Status) -> Status
    ensures { result ≡ (if is_success first then second else first) }
{
    if first.is_success() {
        return second;
    }
    first
}

// The status that a command ends with, by the first that isn't success.
fn decided(status: Status) -> Status
    ensures { result ≡ deciding (status ∷ []) }
{
    if status.is_success() {
        return StatusCode::Success.status();
    }
    status
}
