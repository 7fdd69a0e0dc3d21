//! A call that had no memory, and the same call again. With `rt try --test --fail-alloc N` the N-th allocation of a
//! test is refused; the log has to be the same whichever it is, or none.

use crate::bench::{self, WHOLE, completion_at};
use nv_bringup::{BRING_UP, Deed as GuestDeed, LIMIT, act_of, io_entry};
use nv_mem::NoMemory;
use nv_model::{Act, Reply};
use nv_plan::{Plan, Planned, make_plan};
use nv_world::World;
use nv_world_model::{Event, Logged};
use std::alloc::Global;
use std::process::Abort;

/// What is done: events of the first guest, lane, tag and slot.
#[derive(Clone, Copy)]
enum Deed {
    /// The guest acts.
    Guest(GuestDeed),
    /// So many bytes are loaded.
    Load(u64, u64),
    Admin,
    Take,
    List(u64, u64),
    DevTake,
    DevMove,
    DevPost,
    Reap,
    Post,
}

/// A Read of one block by a Last Segment at 6000h, whose one descriptor is stored with what comes after it.
const READ: [u32; 16] = io_entry!(0x0007_4002, [0x6000, 0, 16, 0x3000_0000], [5, 0, 0]);

const DESCRIPTOR: [u32; 16] = [0x3002, 0, 512, 0, 0, 0, 0, 0, 0, 0, 0, 0, 0, 0, 0, 0];

/// How many events there are before the plan, so that the log has no room left for the next.
const PREPARED: usize = 16;

/// After the guest's bring-up both admin commands are answered, and its command is taken and its list read.
const BEFORE: &[Deed] = &[
    Deed::Admin,
    Deed::Admin,
    Deed::Guest(GuestDeed::Entry(0x6000, DESCRIPTOR)),
    Deed::Guest(GuestDeed::Entry(0x1_3000, READ)),
    Deed::Guest(GuestDeed::Doorbell(0x1008, 1)),
    Deed::Take,
    Deed::List(0x6000, 16),
    Deed::Load(0x6000, 4),
    Deed::Load(0x3002, 4),
];

/// It is carried out and completed, and what it read is loaded.
const BEHIND: &[Deed] = &[
    Deed::DevTake,
    Deed::DevMove,
    Deed::DevPost,
    Deed::Reap,
    Deed::Post,
    Deed::Load(0x3002, 512),
];

// A deed as an event.
fn event_of(alloc: Global, deed: &Deed) -> Result<Event, NoMemory> {
    Ok(match *deed {
        Deed::Guest(deed) => Event::Guest(0, act_of(alloc, &deed)?),
        Deed::Load(addr, len) => Event::Guest(0, Act::Load { addr, len }),
        Deed::Admin => Event::Admin(0),
        Deed::Take => Event::Take(0, 1, 0),
        Deed::List(addr, len) => Event::List(0, 0, addr, len),
        Deed::DevTake => Event::DevTake(0),
        Deed::DevMove => Event::DevMove(0, 0, 0),
        Deed::DevPost => Event::DevPost(0, 0),
        Deed::Reap => Event::Reap(0),
        Deed::Post => Event::Post(0, 0),
    })
}

// Whether a deed is done, by `step` or by `run`; none where there was no memory.
fn does(world: &mut World, alloc: Global, deed: &Deed, runs: bool) -> Option<bool> {
    let event = event_of(alloc, deed).ok()?;
    if !runs {
        return is_done(&world.step(alloc, event));
    }
    let mut replies = Vec::new(alloc);
    world.run(alloc, &[event], &mut replies).ok()?;
    is_done(replies.first()?)
}

// Whether a reply says that something was done; none where there was no memory.
fn is_done(reply: &Reply) -> Option<bool> {
    match reply {
        Reply::NoMemory => None,
        Reply::Done | Reply::Bytes(_) => Some(true),
        _ => Some(false),
    }
}

// Ends the test where this is not done, at the second time at the latest; nothing is in the log of the first.
fn expect_one_done(rt: &impl Abort, alloc: Global, world: &mut World, deed: &Deed, runs: bool) {
    let before = world.log().len();
    let mut done = does(world, alloc, deed, runs);
    if done.is_none() {
        assert!(rt; world.log().len() == before);
        done = does(world, alloc, deed, runs);
    }
    assert!(rt; done == Some(true) && world.log().len() == before + 1);
}

// The same of each of these.
fn expect_done(rt: &impl Abort, alloc: Global, world: &mut World, deeds: &[Deed], runs: bool) {
    for deed in deeds {
        expect_one_done(rt, alloc, world, deed, runs);
    }
}

// The same of all that comes before the plan.
fn expect_prepared(rt: &impl Abort, alloc: Global, world: &mut World, runs: bool) {
    for deed in BRING_UP {
        expect_one_done(rt, alloc, world, &Deed::Guest(*deed), runs);
    }
    expect_done(rt, alloc, world, BEFORE, runs);
    assert_eq!(rt; world.log().len(), PREPARED);
}

// What is planned of the command of tag 0; none where there was no memory, or there is no such command.
fn planned(world: &World, alloc: Global) -> Option<Planned> {
    let job = world.job(alloc, 0, 0).ok()??;
    let map = world.map(job.guest)?;
    let ns = world.range(job.guest)?;
    Some(make_plan(alloc, alloc, job, map, ns, LIMIT))
}

// Whether the command of tag 0 is planned, and its plan carried out; none where there was no memory.
fn submits(world: &mut World, alloc: Global) -> Option<bool> {
    match planned(world, alloc)? {
        Planned::Plan(plan) => is_done(&world.submit_plan(plan)),
        Planned::NoMemory(_job) => None,
        Planned::Need(_job, _addr, _len) => Some(false),
    }
}

// Ends the test where the plan of tag 0 is not carried out, at the second time at the latest.
fn expect_submitted(rt: &impl Abort, alloc: Global, world: &mut World) {
    let before = world.log().len();
    let mut done = submits(world, alloc);
    if done.is_none() {
        assert!(rt; world.log().len() == before);
        done = submits(world, alloc);
    }
    assert!(rt; done == Some(true) && world.log().len() == before + 1);
}

// Ends the test where a command is not carried out, or where the log is not that of these events.
fn expect_command(rt: &impl Abort, alloc: Global, runs: bool) {
    let mut world = bench::opened(alloc, 1, &[WHOLE]);
    if world.is_none() {
        world = bench::opened(alloc, 1, &[WHOLE]);
    }
    let mut world = world.expect(rt, "a world");
    expect_prepared(rt, alloc, &mut world, runs);
    expect_submitted(rt, alloc, &mut world);
    expect_done(rt, alloc, &mut world, BEHIND, runs);
    expect_log(rt, world.log());
    let ended = completion_at(&world, 0, 0).expect(rt, "a completion");
    // the identifier 7, head 1 of queue 1, phase 1, success
    assert_eq!(rt;
        ended.bytes(),
        [0, 0, 0, 0, 0, 0, 0, 0, 1, 0, 1, 0, 7, 0, 1, 0]
    );
}

// Ends the test where the log has another number of events, or another in the place of the plan.
fn expect_log(rt: &impl Abort, log: &[Logged]) {
    assert_eq!(rt; log.len(), PREPARED + 1 + BEHIND.len());
    let submitted = log.get(PREPARED).expect(rt, "the plan");
    assert!(rt; matches!(submitted.event, Event::Submit(0, 0)));
    assert!(rt; matches!(submitted.reply, Reply::Done));
}

#[test]
fn steps_again_where_memory_was_refused(rt: HostRuntime) {
    expect_command(&rt, rt.alloc(), false);
}

#[test]
fn runs_again_where_memory_was_refused(rt: HostRuntime) {
    expect_command(&rt, rt.alloc(), true);
}

// The plan of the command of tag 0, where nothing is wanted of its list.
fn plan_of(world: &World, alloc: Global) -> Option<Plan> {
    match planned(world, alloc)? {
        Planned::Plan(plan) => Some(plan),
        _ => None,
    }
}

// Ends the test where a plan is answered otherwise than as stale, or is logged.
fn expect_stale(rt: &impl Abort, world: &mut World, plan: Plan) {
    let before = world.log().len();
    assert!(rt; matches!(world.submit_plan(plan), Reply::Stale));
    assert_eq!(rt; world.log().len(), before);
}

#[test]
fn a_plan_of_fewer_reads_is_stale(rt: HostRuntime) {
    let alloc = rt.alloc();
    let mut world = bench::opened(alloc, 1, &[WHOLE]).expect(&rt, "a world");
    expect_prepared(&rt, alloc, &mut world, false);
    let earlier = plan_of(&world, alloc).expect(&rt, "a plan");
    let again = [Deed::List(0x6000, 16)];
    expect_done(&rt, alloc, &mut world, &again, false);
    expect_stale(&rt, &mut world, earlier);
    let twice = plan_of(&world, alloc).expect(&rt, "a plan");
    expect_submitted(&rt, alloc, &mut world);
    expect_stale(&rt, &mut world, twice);
}
