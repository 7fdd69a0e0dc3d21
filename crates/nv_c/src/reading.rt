//! A command's lists, read one after another, up to its plan. Where a turn or a call ends within them, the plan under way is put aside, to go on with.

ghost use Rattle.std.specs.Prelude.{◌≡◌, ◌<◌, IfOk, IfSome, Some, slice_get};
ghost use Rattle.nv_c.specs.Work.{IsGiven, IsReading, IsStride, IsTurn, IsWaiting, IsWaitingAt, IsWithin, MayGiveUp, turn_with};
ghost use Rattle.nv_core.specs.Jobs.{job_of};
ghost use Rattle.nv_core.specs.Submit.{IsLimit};
ghost use Rattle.nv_mediator.specs.Hosted.{hosted_world};
ghost use Rattle.nv_model.specs.Transcript.{Settled};
ghost use Rattle.nv_plan.specs.Made.{outcome_of};
ghost use Rattle.nv_world_model.specs.Geometry.{Guest};
ghost use Rattle.nv_world_model.specs.Plan.{Plan};

use crate::kept::Kept;
use crate::working::{Last, Scope, TURN, Turn, is_another_waiting, submit};
use nv_mediator::Mediator;
use nv_mem::{GuestMap, NoMemory};
use nv_model::Reply;
use nv_ns::VirtualNs;
use nv_plan::{Aside, Job, Next, Planned, Planning, ReadDone};
use nv_world_model::Event;
use std::alloc::Global;

/// How the reading of a command's lists went on.
#[derive(Clone, Copy)]
pub(crate) enum Stride {
    /// what was wanted was read
    Read,
    /// nothing more is wanted
    Planned,
    /// there was no memory for the plan
    Starved,
    /// there was no memory for the event
    Full,
    /// the event was made, and the plan has not got what it read
    Lost,
}

/// What a guest was given: a copy of its map, which lasts while the mediator changes.
#[derive(Drop)]
struct GrantCopy {
    map: GuestMap,
    ns: VirtualNs,
    limit: u32,
}

/// What a guest was given: its map, its namespace and its limit on descriptors.
pub(crate) fn given_to<'a>(mediator: &'a Mediator, guest: u8) -> (&'a GuestMap, &'a VirtualNs, u32)
    requires { (given : Guest) × (slice_get mediator.now.geometry.guests guest ≡ Some given) }
    ensures is { slice_get mediator.now.geometry.guests guest ≡ Some (record { memory_map = result.0.now; namespace = result.1.now; limit = result.2 }) }
    ensures limit { IsLimit result.2 }
{
    let (Some(map), Some(ns), Some(limit)) = (
        mediator.map(guest),
        mediator.range(guest),
        mediator.limit(guest),
    ) else {
        unreachable!()
    };
    (map, ns, limit)
}

impl GrantCopy {
    // What the guest of a job was given.
    fn of(alloc: Global, mediator: &Mediator, guest: u8) -> Result<Self, NoMemory>
        requires { (given : Guest) × (slice_get mediator.now.geometry.guests guest ≡ Some given) }
        ensures { IfOk result (λ copy. IsGiven mediator.now guest copy) }
    {
        let (map, ns, limit) = given_to(mediator, guest);
        Ok(GrantCopy {
            map: map.try_clone(alloc)?,
            ns: *ns,
            limit,
        })
    }
}

/// Reads what the command of a job wants of its lists, up to its plan, which is carried out: `most` events at most, and as many as are left of the
/// turn where another waits. It is not inlined, since a function pays for its locals at each call, and most events need none of these.
#[inline(never)]
pub(crate) fn read_lists(
    alloc: Global,
    mediator: &mut Mediator,
    kept: &mut Kept,
    scope: Scope,
    last: &Last,
    job: Job,
    most: u64,
) -> Turn
    requires some { 0 < most }
    requires waits { (given : Guest) × IsWaiting scope mediator.old job given }
    ensures { IsTurn scope most mediator.old result mediator.new }
{
    let (lane, tag) = (job.lane, job.tag);
    let Ok(given) = GrantCopy::of(alloc, mediator, job.guest) else {
        return give_up(alloc, mediator, scope, lane, tag, most);
    };
    match Planning::new(alloc, alloc, job, &given.map, &given.ns, given.limit) {
        Ok(planning) => read_on(alloc, mediator, kept, scope, last, planning, most),
        Err(_) => give_up(alloc, mediator, scope, lane, tag, most),
    }
}

/// Reads on for the command of a tag whose plan was put aside, where that is still the plan of the tag's job; else its lists are gone through from their
/// beginning.
#[inline(never)]
pub(crate) fn resume_lists(
    alloc: Global,
    mediator: &mut Mediator,
    kept: &mut Kept,
    scope: Scope,
    last: &Last,
    lane: u8,
    tag: u8,
    most: u64,
) -> Turn
    requires some { 0 < most }
    requires waits { IsWaitingAt scope mediator.old lane tag }
    ensures { IsTurn scope most mediator.old result mediator.new }
{
    match taken(mediator, kept, lane, tag) {
        Some(aside) => go_on(alloc, mediator, kept, scope, last, aside, most),
        None => match mediator.job(alloc, lane, tag) {
            Ok(Some(job)) => read_lists(alloc, mediator, kept, scope, last, job, most),
            Ok(None) => unreachable!(),
            Err(NoMemory) => Turn::Starved,
        },
    }
}

// Takes the plan that is kept of a tag, where it is still a plan of the tag's job, with all that was read of its lists.
fn taken(mediator: &Mediator, kept: &mut Kept, lane: u8, tag: u8) -> Option<Aside<Global>>
    ensures { IfSome result (λ plan. job_of (hosted_world mediator.now) lane tag ≡ Some plan.job) }
{
    let plan = kept.take(lane, tag)?;
    let job = plan.job();
    if job.lane != lane || job.tag != tag || !mediator.has_job(job) {
        return None;
    }
    Some(plan)
}

// Goes on with a plan that was put aside.
fn go_on(
    alloc: Global,
    mediator: &mut Mediator,
    kept: &mut Kept,
    scope: Scope,
    last: &Last,
    aside: Aside<Global>,
    most: u64,
) -> Turn
    requires some { 0 < most }
    requires waits { (given : Guest) × IsWaiting scope mediator.old aside.job given }
    ensures { IsTurn scope most mediator.old result mediator.new }
{
    let Job {
        lane,
        tag,
        guest,
        ..
    } = aside.job();
    let (lane, tag) = (*lane, *tag);
    let Ok(given) = GrantCopy::of(alloc, mediator, *guest) else {
        return give_up(alloc, mediator, scope, lane, tag, most);
    };
    match Planning::resume(aside, alloc, &given.map, &given.ns, given.limit) {
        Ok(planning) => read_on(alloc, mediator, kept, scope, last, planning, most),
        Err(job) => read_lists(alloc, mediator, kept, scope, last, job, most),
    }
}

// Reads on for a plan under way.
fn read_on<'a>(
    alloc: Global,
    mediator: &mut Mediator,
    kept: &mut Kept,
    scope: Scope,
    last: &Last,
    mut planning: Planning<'a, Global>,
    most: u64,
) -> Turn
    requires some { 0 < most }
    requires reading { IsReading scope mediator.old planning }
    ensures { IsTurn scope most mediator.old result mediator.new }
{
    let mut done: u64 = 0;
    let mut left = last.left();
    while done < most {
        if left == 0 && done > 0 {
            if is_another_waiting(alloc, mediator, kept, scope, last) {
                put_aside(alloc, kept, planning);
                return Turn::Served(done);
            }
            left = TURN;
        }
        left = left.saturating_sub(1);
        match read_next(alloc, mediator, scope, &mut planning) {
            Stride::Read => done += 1,
            Stride::Planned => {
                let turn = hand_over(alloc, mediator, scope, planning, most - done);
                return after(done, turn);
            }
            Stride::Starved => {
                let Job { lane, tag, .. } = planning.into_job();
                let turn = give_up(alloc, mediator, scope, lane, tag, most - done);
                return after(done, turn);
            }
            Stride::Full => return after(done, Turn::Starved),
            Stride::Lost => return Turn::Served(done + 1),
        }
    }
    put_aside(alloc, kept, planning);
    Turn::Served(done)
}

// Puts a plan under way aside, to go on with at the command's next turn. Where there is no memory for that, nothing is kept.
fn put_aside<'a>(alloc: Global, kept: &mut Kept, planning: Planning<'a, Global>) {
    if let Some(aside) = planning.put_aside() {
        kept.put(alloc, aside);
    }
}

// Reads what a plan under way wants next.
fn read_next<'a>(
    alloc: Global,
    mediator: &mut Mediator,
    _scope: Scope,
    planning: &mut Planning<'a, Global>,
) -> Stride
    requires { IsReading _scope mediator.old planning.old }
    ensures { IsStride _scope mediator.old planning.old result mediator.new planning.new }
{
    let (addr, len) = match planning.wants() {
        Ok(Next::Read { addr, len }) => (addr, len),
        Ok(Next::Done) => return Stride::Planned,
        Err(NoMemory) => return Stride::Starved,
    };
    let Job { lane, tag, .. } = planning.job();
    let list = Event::List(*lane, *tag, addr, len);
    let Ok(reply) = mediator.step(alloc, &list) else {
        return Stride::Full;
    };
    let Reply::Bytes(bytes) = reply else {
        return Stride::Lost;
    };
    if bytes.as_slice().len() as u64 != len {
        return Stride::Lost;
    }
    match planning.feed(ReadDone::new(addr, bytes)) {
        Ok(()) => Stride::Read,
        Err(NoMemory) => Stride::Lost,
    }
}

// Carries out the plan of a command of which all was read.
fn hand_over<'a>(
    alloc: Global,
    mediator: &mut Mediator,
    scope: Scope,
    planning: Planning<'a, Global>,
    most: u64,
) -> Turn
    requires some { 0 < most }
    requires reading { IsReading scope mediator.old planning }
    requires planned { (plan : Plan) × (outcome_of planning.given planning.job ≡ Settled plan) }
    ensures { IsTurn scope most mediator.old result mediator.new }
{
    match planning.finish() {
        Planned::Plan(plan) => submit(mediator, scope, plan, most),
        Planned::NoMemory(job) => give_up(alloc, mediator, scope, job.lane, job.tag, most),
        Planned::Need(_, _, _) => unreachable!(),
    }
}

/// Gives a command up: there was no memory for its plan.
pub(crate) fn give_up(
    alloc: Global,
    mediator: &mut Mediator,
    _scope: Scope,
    lane: u8,
    tag: u8,
    _most: u64,
) -> Turn
    requires some { 0 < _most }
    requires may { MayGiveUp _scope mediator.old lane tag }
    ensures { IsTurn _scope _most mediator.old result mediator.new }
{
    match mediator.step(alloc, &Event::GiveUp(lane, tag)) {
        Ok(_reply) => Turn::GaveUp(1),
        // It takes no memory.
        Err(_) => unreachable!(),
    }
}

// The whole turn, where a turn came after so many events.
fn after(done: u64, turn: Turn) -> Turn
    requires { IsWithin done turn }
    ensures { result ≡ turn_with done turn }
{
    match turn {
        Turn::Served(count) => Turn::Served(done + count),
        Turn::GaveUp(count) => Turn::GaveUp(done + count),
        Turn::Idle | Turn::Starved if done > 0 => Turn::Served(done),
        Turn::Idle | Turn::Starved => turn,
    }
}
