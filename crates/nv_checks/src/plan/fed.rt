//! Plans that are fed, read by read.

ghost use Rattle.std.specs.Prelude.{◌<◌, ◌≤◌};

use crate::hand::changed;
use crate::plan::chain::{CHAIN, ROWS, is_in_halves};
use crate::plan::guest::{Changes, Guest, joined};
use crate::plan::ranges::{PARTED, TRANSLATED, has_ranges, lying_apart};
use nv_entry::Sqe;
use nv_mem::NoMemory;
use nv_model::limits::MOST_DESCRIPTORS;
use nv_plan::{Job, Next, Planned, Planning, make_plan};
use nv_refusing::Refusing;
use std::alloc::{Allocator, Global};
use std::process::Abort;

/// Feeds a plan what it wants next: whether there was something.
pub fn feed<A: Allocator + Clone>(
    alloc: Global,
    guest: &Guest,
    planning: &mut Planning<A>,
) -> Result<bool, NoMemory> {
    let Next::Read { addr, len } = planning.wants()? else {
        return Ok(false);
    };
    let read = guest.done(alloc, addr, len)?;
    if read.bytes().len() as u64 != len {
        return Ok(false);
    }
    planning.feed(read)?;
    Ok(true)
}

/// A command on its way to its plan.
#[derive(Drop)]
enum Stage<'a> {
    Fed(Planning<'a, Global>),
    Aside(Planning<'a, Global>),
    Anew(Job),
}

/// How what is read of a command's list reaches its plan.
#[derive(Clone, Copy, Debug)]
pub enum Way {
    /// The plan is fed it.
    Fed,
    /// The same, but the plan is put aside before each read.
    Aside,
    /// A plan is made anew after each read.
    Anew,
}

/// All ways.
pub const WAYS: &[Way] = &[Way::Fed, Way::Aside, Way::Anew];

// The plan of a job as it is.
fn begun_of<'a>(
    rt: &impl Abort,
    alloc: Global,
    guest: &'a Guest,
    job: Job,
    limit: u32,
) -> Planning<'a, Global>
    requires some { 0 < limit }
    requires most { limit ≤ 4096 }
{
    Planning::new(alloc, alloc, job, &guest.map, &guest.ns, limit)
        .ok()
        .expect(rt, "a plan")
}

// A plan that was put aside, and taken up again.
fn taken_up<'a>(
    rt: &impl Abort,
    alloc: Global,
    guest: &'a Guest,
    planning: Planning<'a, Global>,
    limit: u32,
) -> Planning<'a, Global> {
    let aside = planning.put_aside().expect(rt, "a plan that is put aside");
    Planning::resume(aside, alloc, &guest.map, &guest.ns, limit)
        .ok()
        .expect(rt, "a plan that goes on")
}

// Feeds a plan once: the plan, or what comes of it where it wants nothing more.
fn fed_once<'a>(
    rt: &impl Abort,
    alloc: Global,
    guest: &'a Guest,
    planning: Planning<'a, Global>,
) -> Result<Planning<'a, Global>, Planned> {
    let mut planning = planning;
    if feed(alloc, guest, &mut planning).expect(rt, "memory") {
        Ok(planning)
    } else {
        Err(planning.finish())
    }
}

// Makes the plan of a job: the job with what is wanted read, or what comes of it where nothing is wanted.
fn made_once(
    rt: &impl Abort,
    alloc: Global,
    guest: &Guest,
    job: Job,
    limit: u32,
) -> Result<Job, Planned>
    requires some { 0 < limit }
    requires most { limit ≤ 4096 }
{
    match make_plan(alloc, alloc, job, &guest.map, &guest.ns, limit) {
        Planned::Need(mut job, addr, len) => {
            guest.read(rt, alloc, addr, len, &mut job.reads);
            Ok(job)
        }
        planned => Err(planned),
    }
}

// Reads what is wanted next: the next stage, or what comes of the command where nothing is wanted.
fn next_stage<'a>(
    rt: &impl Abort,
    alloc: Global,
    guest: &'a Guest,
    stage: Stage<'a>,
    limit: u32,
) -> Result<Stage<'a>, Planned>
    requires some { 0 < limit }
    requires most { limit ≤ 4096 }
{
    match stage {
        Stage::Fed(planning) => Ok(Stage::Fed(fed_once(rt, alloc, guest, planning)?)),
        Stage::Aside(planning) => {
            let planning = taken_up(rt, alloc, guest, planning, limit);
            Ok(Stage::Aside(fed_once(rt, alloc, guest, planning)?))
        }
        Stage::Anew(job) => Ok(Stage::Anew(made_once(rt, alloc, guest, job, limit)?)),
    }
}

/// Reads what is wanted of a command's list until nothing is: what comes of it, and how often something was wanted.
pub fn fed(
    rt: &impl Abort,
    alloc: Global,
    guest: &Guest,
    sqe: Sqe,
    limit: u32,
    way: Way,
) -> Option<(Planned, u32)>
    requires some { 0 < limit }
    requires most { limit ≤ 4096 }
{
    let job = guest.job(rt, alloc, sqe, &[]);
    let mut stage = match way {
        Way::Fed => Stage::Fed(begun_of(rt, alloc, guest, job, limit)),
        Way::Aside => Stage::Aside(begun_of(rt, alloc, guest, job, limit)),
        Way::Anew => Stage::Anew(job),
    };
    for count in 0..3000u32 {
        match next_stage(rt, alloc, guest, stage, limit) {
            Ok(next) => stage = next,
            Err(planned) => return Some((planned, count)),
        }
    }
    drop(stage);
    None
}

/// A plan of a command of which nothing was read, under the usual limit.
pub fn begun<'a>(
    rt: &impl Abort,
    alloc: Global,
    guest: &'a Guest,
    changes: Changes,
) -> Planning<'a, Global> {
    begun_after(rt, alloc, guest, changes, &[])
}

// The same after these reads.
fn begun_after<'a>(
    rt: &impl Abort,
    alloc: Global,
    guest: &'a Guest,
    changes: Changes,
    reads: &[(u64, u64)],
) -> Planning<'a, Global> {
    let job = guest.job(rt, alloc, changed(rt, changes), reads);
    begun_of(rt, alloc, guest, job, MOST_DESCRIPTORS)
}

#[test]
fn the_bytes_of_ranges_after_their_list(rt: HostRuntime) {
    let alloc = rt.alloc();
    let guest = lying_apart(&rt, alloc);
    let sqe = changed(&rt, PARTED);
    let came = fed(&rt, alloc, &guest, sqe, MOST_DESCRIPTORS, Way::Fed);
    let (planned, count) = came.expect(&rt, "a plan");
    assert!(rt; count == 3 && has_ranges(&planned, TRANSLATED));
}

// Whether a job of the chain has both of its reads.
fn is_whole(job: &Job) -> bool {
    job.reads.reads().len() == 2 && (job.lane, job.tag, job.guest) == (1, 9, 3)
}

/// The second array of the chain.
const SECOND: Next = Next::Read {
    addr: 0x7000,
    len: 16,
};

// What a plan wants next.
fn wanted(rt: &impl Abort, planning: &mut Planning<Global>) -> Next {
    planning.wants().expect(rt, "memory")
}

#[test]
fn a_job_of_which_something_was_read(rt: HostRuntime) {
    let alloc = rt.alloc();
    let guest = Guest::with(&rt, alloc, ROWS);
    let mut planning = begun_after(&rt, alloc, &guest, CHAIN, &[(0x6000, 32)]);
    assert!(rt; wanted(&rt, &mut planning) == SECOND);
    assert!(rt; feed(alloc, &guest, &mut planning).expect(&rt, "memory"));
    assert!(rt; wanted(&rt, &mut planning) == Next::Done && is_whole(&planning.into_job()));
}

/// Whether it is the plan of the chain over a join after its first block.
pub fn is_chain(planned: &Planned) -> bool {
    match planned {
        Planned::Plan(plan) => is_in_halves(plan),
        _ => false,
    }
}

/// A guest with the chain, and a namespace that has a join after the first block of its Read.
pub fn over_a_join(rt: &impl Abort, alloc: Global) -> Guest {
    let mut guest = Guest::with(rt, alloc, ROWS);
    guest.ns = joined(rt, (1000, 6), &[(5000, 58)]);
    guest
}

// Feeds a plan of the chain with that allocation of the heap refused once: whether it came to the refusal, then wanted what it had wanted
// before, and came to its plan.
fn refused_once(
    rt: &impl Abort,
    heap: &Refusing<Global>,
    alloc: Global,
    guest: &Guest,
    granted: u64,
) -> bool {
    let job = guest.job(rt, alloc, changed(rt, CHAIN), &[]);
    let made = Planning::new(heap, alloc, job, &guest.map, &guest.ns, MOST_DESCRIPTORS);
    let mut planning = made.ok().expect(rt, "a plan");
    heap.refuse_after(granted);
    let mut refusals = 0u32;
    for _ in 0..8u32 {
        let before = planning.wants().expect(rt, "memory");
        match feed(alloc, guest, &mut planning) {
            Ok(true) => {}
            Ok(false) => return refusals == 1 && is_chain(&planning.finish()),
            Err(NoMemory) => {
                refusals = refusals.saturating_add(1);
                heap.grant_all();
                if planning.wants().expect(rt, "memory") != before {
                    return false;
                }
            }
        }
    }
    false
}

#[test]
fn each_allocation_refused_in_turn(rt: HostRuntime) {
    let guest = over_a_join(&rt, rt.alloc());
    let heap = Refusing::new(rt.alloc());
    // each of two arrays takes two blocks of memory
    for granted in 0..4u64 {
        assert!(rt;
            refused_once(&rt, &heap, rt.alloc(), &guest, granted),
            "{granted}"
        );
    }
}
