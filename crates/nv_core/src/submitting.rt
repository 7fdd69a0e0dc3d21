//! Commands that were taken, planned, and handed on or answered.

ghost use Rattle.std.specs.Prelude.{◌≡◌, ◌<◌, ◌↔◌, [], IfOk, IfSome, IsTrue, List, None, OnErr, Some, length, slice_get};
ghost use Rattle.nv_core.specs.Front.{HasTailMoved, IsStepInEach};
ghost use Rattle.nv_core.specs.Kept.{IsLent};
ghost use Rattle.nv_core.specs.Submit.{HaveRoom, IsCarriedOut, IsCurrentIn, IsGoing, IsJobOf, IsSubmitted, WaitsForPlan};
ghost use Rattle.nv_core.specs.Tags.{state_in};
ghost use Rattle.nv_model.specs.Memory.{byte_in};
ghost use Rattle.nv_model.specs.Transcript.{ReadDone as Read};
ghost use Rattle.nv_plan.specs.Made.{IsJobsPlan, plan_made};
ghost use Rattle.nv_tags.specs.declared.state.TagState.TheVariants as state;
ghost use Rattle.nv_world_model.specs.Area.{ring_size};
ghost use Rattle.nv_world_model.specs.Plan.{plan_over};
ghost use Rattle.nv_world_model.specs.World.{Command, Taken, group_in, tag_changed};

use crate::area::TagPlace;
use crate::comparing::is_given;
use crate::front::Front;
use crate::handing::hand_all;
use crate::lane::Lane;
use crate::layout::{Grant, Layout};
use nv_mem::{MemoryCell, NoMemory};
use nv_model::Reply;
use nv_plan::{Job, Plan, PlanKind, Planned, Transcript, make_plan};
use nv_world_model::Event;
use std::alloc::Global;

impl Front {
    /// Plans the command of a tag that was taken, and carries the plan out: the command is handed to the physical controller, or ends at
    /// once. Stale where the tag is at another point, or more of the command's lists is wanted; Ignored where there is no such tag.
    ///
    /// # Errors
    ///
    /// [`NoMemory`] where memory is refused: nothing has changed.
    #[inline(never)]
    pub fn submit<C: MemoryCell>(
        &mut self,
        alloc: Global,
        layout: &Layout,
        lane: u8,
        tag: u8,
        host: &mut [C],
    ) -> Result<Reply, NoMemory>
        requires { IsLent layout.now self.old (C.bytes host.old) }
        ensures ok { IfOk result (λ reply.
            IsStepInEach layout.now (Event.Submit lane tag) self.old (C.bytes host.old) reply self.new (C.bytes host.new)) }
        ensures same { IfOk result (λ reply. (reply ≡ Reply.Done → ⊥) → self.new ≡ self.old) }
        ensures err { OnErr result ((self.new ≡ self.old) × (C.bytes host.new ≡ C.bytes host.old)) }
        ensures tails { HasTailMoved lane self.old.tails self.new.tails }
        ensures len { length (C.bytes host.new) ≡ length (C.bytes host.old) }
    {
        if let Some(reply) = self.untaken(lane, tag) {
            return Ok(reply);
        }
        let at = usize::from(lane);
        let guest = self.lanes[at].claimed(tag).guest;
        let Some(given) = layout.guest(guest) else {
            return Ok(Reply::Stale);
        };
        let place = TagPlace {
            mediator: layout.mediator(),
            lane,
            tag,
        };
        let ring = &mut self.lanes[at];
        let tail = &mut self.tails[at];
        let reply = submit_on(alloc, given, place, host, tail, ring)?;
        Ok(reply)
    }

    /// Carries out a plan that was made elsewhere, where it was made of the state as it is: its tag was taken, by the guest's command of its job,
    /// with the same reads of its lists, and the guest's map, namespace and limit are those that it was made with. `None` where not, and nothing
    /// has changed.
    pub fn submit_plan<C: MemoryCell>(
        &mut self,
        layout: &Layout,
        plan: Plan,
        host: &mut [C],
    ) -> Option<Reply>
        requires { IsLent layout.now self.old (C.bytes host.old) }
        ensures some { IfSome result (λ reply.
            IsCurrentIn layout.now self.old.lanes plan
            × IsStepInEach layout.now (Event.Submit plan.job.lane plan.job.tag) self.old (C.bytes host.old) reply self.new (C.bytes host.new)) }
        ensures done { IfSome result (λ reply. reply ≡ Reply.Done) }
        ensures none { result ≡ None → (self.new ≡ self.old)
            × ((C.bytes host.new ≡ C.bytes host.old) × (IsCurrentIn layout.now self.old.lanes plan → ⊥)) }
        ensures tails { HasTailMoved plan.job.lane self.old.tails self.new.tails }
        ensures len { length (C.bytes host.new) ≡ length (C.bytes host.old) }
    {
        if !self.is_current(layout, &plan) {
            return None;
        }
        let job = plan.job();
        let place = TagPlace {
            mediator: layout.mediator(),
            lane: job.lane,
            tag: job.tag,
        };
        let at = usize::from(place.lane);
        let ring = &mut self.lanes[at];
        let tail = &mut self.tails[at];
        carry_out(plan, place, host, tail, ring);
        Some(Reply::Done)
    }

    // Whether a plan was made of the state as it is.
    fn is_current(&self, layout: &Layout, plan: &Plan) -> bool
        ensures { IsTrue result ↔ IsCurrentIn layout.now self.now.lanes plan.now }
    {
        let job = plan.job();
        if self.untaken(job.lane, job.tag).is_some() {
            return false;
        }
        let Some(given) = layout.guest(job.guest) else {
            return false;
        };
        let ring = &self.lanes[usize::from(job.lane)];
        ring.has_job(job.tag, job) && is_given(plan, given)
    }
}

// Plans the command that waits for its plan and goes by a tag, and carries the plan out. The first entry goes to slot `tail` of the lane's
// submission ring, which becomes the slot after the last.
fn submit_on<C: MemoryCell>(
    alloc: Global,
    given: &Grant,
    place: TagPlace,
    host: &mut [C],
    tail: &mut u16,
    ring: &mut Lane,
) -> Result<Reply, NoMemory>
    requires room { HaveRoom place.mediator place.lane given.now (C.bytes host.old) }
    requires tail { tail.old < ring_size }
    requires waits { WaitsForPlan given.now.namespace place.tag ring.old }
    ensures ok { IfOk result (λ reply. (command : Command) (reads : List Read) →
        slice_get ring.old.tags place.tag ≡ Some (Taken command reads) →
        IsSubmitted (plan_over given.now command.entry reads) given.now place.mediator place.lane (group_in (Some ring.old) place.tag) command reply
        (byte_in (C.bytes host.old)) (byte_in (C.bytes host.new)) tail.old tail.new ring.old ring.new) }
    ensures err { OnErr result (((C.bytes host.new) ≡ (C.bytes host.old)) × ((tail.new ≡ tail.old) × (ring.new ≡ ring.old))) }
    ensures len { length (C.bytes host.new) ≡ length (C.bytes host.old) }
    ensures fits { tail.new < ring_size }
{
    let job = take_job(alloc, place, ring);
    match make_plan(alloc, alloc, job, given.map(), given.ns(), given.limit()) {
        Planned::Need(job, _, _) => {
            ring.replace_reads(place.tag, job.reads);
            Ok(Reply::Stale)
        }
        Planned::NoMemory(job) => {
            ring.replace_reads(place.tag, job.reads);
            Err(NoMemory)
        }
        Planned::Plan(plan) => {
            carry_out(plan, place, host, tail, ring);
            Ok(Reply::Done)
        }
    }
}

// The job of a tag that was taken. Its transcript moves into the job.
fn take_job(alloc: Global, place: TagPlace, ring: &mut Lane) -> Job
    requires { state_in (slice_get ring.old.tags place.tag) ≡ Some state.Taken }
    ensures job { (command : Command) (reads : List Read) → slice_get ring.old.tags place.tag ≡ Some (Taken command reads) →
        IsJobOf place.lane place.tag command reads result }
    ensures moved { (command : Command) (reads : List Read) → slice_get ring.old.tags place.tag ≡ Some (Taken command reads) →
        ring.new ≡ tag_changed place.tag (Taken command []) ring.old }
{
    let claim = *ring.claimed(place.tag);
    let reads = ring.replace_reads(place.tag, Transcript::new(alloc));
    Job {
        lane: place.lane,
        tag: place.tag,
        guest: claim.guest,
        sqe: claim.entry,
        reads,
    }
}

// Carries out the plan of the command that waits for it and goes by a tag.
fn carry_out<C: MemoryCell>(
    plan: Plan,
    place: TagPlace,
    host: &mut [C],
    tail: &mut u16,
    ring: &mut Lane,
)
    requires room { HaveRoom place.mediator place.lane plan.given (C.bytes host.old) }
    requires tail { tail.old < ring_size }
    requires waits { WaitsForPlan plan.given.namespace place.tag ring.old }
    requires whose { (command : Command) (reads : List Read) → slice_get ring.old.tags place.tag ≡ Some (Taken command reads) →
        command.entry ≡ plan.job.sqe }
    ensures done { (command : Command) (reads : List Read) → slice_get ring.old.tags place.tag ≡ Some (Taken command reads) →
        IsCarriedOut (plan_made plan) plan.given place.mediator place.lane (group_in (Some ring.old) place.tag) command
        (byte_in (C.bytes host.old)) (byte_in (C.bytes host.new)) tail.old tail.new ring.old ring.new }
    ensures len { length (C.bytes host.new) ≡ length (C.bytes host.old) }
    ensures fits { tail.new < ring_size }
{
    match plan.kind() {
        PlanKind::Answer(status) => ring.answer(place.tag, status),
        PlanKind::NoData | PlanKind::Direct | PlanKind::Bounced => {
            hand_on(plan, place, host, tail, ring);
        }
    }
}

// Puts the command that waits for its plan and goes by a tag on the lane's submission ring: what each part of the plan needs is written.
fn hand_on<C: MemoryCell>(
    plan: Plan,
    place: TagPlace,
    host: &mut [C],
    tail: &mut u16,
    ring: &mut Lane,
)
    requires is_plan { IsJobsPlan plan }
    requires goes { IsGoing (plan_made plan) }
    requires room { HaveRoom place.mediator place.lane plan.given (C.bytes host.old) }
    requires tail { tail.old < ring_size }
    requires waits { WaitsForPlan plan.given.namespace place.tag ring.old }
    requires whose { (command : Command) (reads : List Read) → slice_get ring.old.tags place.tag ≡ Some (Taken command reads) →
        command.entry ≡ plan.job.sqe }
    ensures done { (command : Command) (reads : List Read) → slice_get ring.old.tags place.tag ≡ Some (Taken command reads) →
        IsCarriedOut (plan_made plan) plan.given place.mediator place.lane (group_in (Some ring.old) place.tag) command
        (byte_in (C.bytes host.old)) (byte_in (C.bytes host.new)) tail.old tail.new ring.old ring.new }
    ensures len { length (C.bytes host.new) ≡ length (C.bytes host.old) }
    ensures fits { tail.new < ring_size }
{
    hand_all(&plan, place, ring, host, tail);
    ring.fly(place.tag, plan);
}
