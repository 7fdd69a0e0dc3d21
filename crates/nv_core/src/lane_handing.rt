//! A command that was taken and is handed on by a plan: part by part, each in its tag.

ghost use Rattle.std.specs.Prelude.{◌≡◌, ◌<◌, All, List, Some, drop, length, slice_get, vec_len};
ghost use Rattle.nv_core.specs.Groups.{AreTaken, all_handed};
ghost use Rattle.nv_core.specs.Handing.{IsRising, first_kept, part_kept, parts_kept, parts_slots, point_of};
ghost use Rattle.nv_core.specs.Tags.{IsTaken};
ghost use Rattle.nv_model.specs.Transcript.{ReadDone as Read};
ghost use Rattle.nv_plan.specs.Made.{shares_made};
ghost use Rattle.nv_tags.specs.Tags.{Leads, group, state_at, with_point};
ghost use Rattle.nv_tags.specs.declared.state.TagState.TheVariants as state;
ghost use Rattle.nv_world_model.specs.World.{Command, Taken, group_in};

use crate::lane::Lane;
use crate::parts::is_nothing;
use crate::progress::{Progress, keep};
use nv_entry::StatusCode;
use nv_plan::Plan;
use nv_tags::{Group, Tags};

impl Lane {
    /// The command that was taken and goes by this tag is handed on by this plan: part by part, each in its tag, in order. A part without a range of
    /// its Dataset Management has ended.
    ///
    /// All its tags were taken, and no more.
    pub(crate) fn fly(&mut self, tag: u8, plan: Plan)
        requires led { IsTaken tag (slice_get self.old.tags tag) }
        requires together { AreTaken (group_in (Some self.old) tag) self.old }
        requires some { 0 < length (shares_made plan) }
        ensures { (command : Command) (reads : List Read) → slice_get self.old.tags tag ≡ Some (Taken command reads) →
            self.new ≡ all_handed (group_in (Some self.old) tag) (shares_made plan) command self.old }
    {
        let nothing = is_nothing(&plan, 0);
        hand_on_further(&mut self.tags, &mut self.progress, tag, &plan);
        hand_on(&mut self.tags, tag, nothing);
        self.progress[usize::from(tag)] = first_kept(nothing, plan);
    }
}

// Hands the further parts of a plan on, in order, each in one of the other tags of the command that goes by this one.
fn hand_on_further(tags: &mut Tags, kept: &mut Vec<Progress>, leader: u8, plan: &Plan)
    requires leads { Leads leader tags.old }
    requires taken { All (λ tag. state_at tags.old tag ≡ state.Taken) (group leader tags.old) }
    requires below { All (λ tag. tag < vec_len kept.old) (group leader tags.old) }
    requires some { 0 < length (shares_made plan.now) }
    ensures tags { tags.new ≡ parts_slots (drop 1 (group leader tags.old)) (drop 1 (shares_made plan.now)) tags.old }
    ensures kept { kept.new.items ≡ parts_kept (drop 1 (group leader tags.old)) (drop 1 (shares_made plan.now)) 1 kept.old.items }
    ensures len { vec_len kept.new ≡ vec_len kept.old }
{
    if plan.parts() == 1 {
        return;
    }
    let mut others = tags.group(leader);
    let _leader = others.pop();
    hand_on_others(tags, kept, others, plan);
}

// Hands the further parts of a plan on, in order, each in one of these tags.
fn hand_on_others(tags: &mut Tags, kept: &mut Vec<Progress>, others: Group, plan: &Plan)
    requires taken { All (λ tag. state_at tags.old tag ≡ state.Taken) others }
    requires below { All (λ tag. tag < vec_len kept.old) others }
    requires order { IsRising 0 others }
    requires some { 0 < length (shares_made plan.now) }
    ensures tags { tags.new ≡ parts_slots others (drop 1 (shares_made plan.now)) tags.old }
    ensures kept { kept.new.items ≡ parts_kept others (drop 1 (shares_made plan.now)) 1 kept.old.items }
    ensures len { vec_len kept.new ≡ vec_len kept.old }
{
    let mut left = others;
    for part in 1..plan.parts() {
        let Some(tag) = left.pop() else {
            return;
        };
        let nothing = is_nothing(plan, part);
        hand_on(tags, tag, nothing);
        keep(kept, tag, part_kept(nothing, part));
    }
}

// Hands a tag that was taken on. A part that is no physical command has ended.
fn hand_on(tags: &mut Tags, tag: u8, nothing: bool)
    requires { state_at tags.old tag ≡ state.Taken }
    ensures { tags.new ≡ with_point (point_of nothing) tag tags.old }
{
    if nothing {
        tags.end(tag, StatusCode::Success.status());
    } else {
        tags.fly(tag);
    }
}

// What is kept of a first part that is handed on, with its plan.
fn first_kept(nothing: bool, plan: Plan) -> Progress
    ensures { result ≡ first_kept nothing plan }
{
    if nothing {
        return Progress::Over(plan);
    }
    Progress::Going(plan)
}

// What is kept of a further part that is handed on.
fn part_kept(nothing: bool, part: u8) -> Progress
    ensures { result ≡ part_kept nothing part }
{
    if nothing {
        return Progress::PartOver(part);
    }
    Progress::Part(part)
}
