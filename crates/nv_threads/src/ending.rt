//! How many parts of a command are noted as ended once its planner is through with it.
//!
//! A Dataset Management has a part in each extent. The parts that none of its ranges meets have ended once it is handed on. All have ended where it
//! is answered or given up. Then the lane's reaper is notified, and else the physical controller.

use crate::brought_up::{brought_up, ring, store};
use crate::concern::Concern;
use crate::locked::Locked;
use crate::maker::Prepared;
use crate::notes::Notes;
use crate::planning::GuestPlanner;
use crate::simulated::go_on;
use crate::simulated_guest::{entry_of, range_of};
use crate::simulated_worlds::{Extents, MANY, ONE, TWO};
use crate::tasks::Turn;
use nv_plan::{Job, Planned, make_plan};
use nv_world::World;
use std::alloc::Global;
use std::process::Abort;
use std::test::Fail;

/// How many turns a planner has at most.
const TURNS: u32 = 1_000;

/// A Dataset Management of guest 0 with one range, by its first block and how many it has; whether there is no memory for its plan; and how many
/// parts it has, and how many of them have ended after it.
struct Case {
    extents: Extents,
    start: u8,
    count: u8,
    is_starved: bool,
    parts: u64,
    ended: u64,
}

/// A range in the first extent, in the second and in both, one that leaves the namespace, and one that there is no memory to plan.
const CASES: &[Case] = &[
    Case {
        extents: TWO,
        start: 0,
        count: 1,
        is_starved: false,
        parts: 2,
        ended: 1,
    },
    Case {
        extents: TWO,
        start: 40,
        count: 1,
        is_starved: false,
        parts: 2,
        ended: 1,
    },
    Case {
        extents: TWO,
        start: 29,
        count: 2,
        is_starved: false,
        parts: 2,
        ended: 0,
    },
    Case {
        extents: TWO,
        start: 62,
        count: 5,
        is_starved: false,
        parts: 2,
        ended: 2,
    },
    Case {
        extents: TWO,
        start: 0,
        count: 1,
        is_starved: true,
        parts: 2,
        ended: 2,
    },
    Case {
        extents: MANY,
        start: 60,
        count: 1,
        is_starved: false,
        parts: 8,
        ended: 7,
    },
    Case {
        extents: MANY,
        start: 0,
        count: 1,
        is_starved: true,
        parts: 8,
        ended: 8,
    },
    Case {
        extents: ONE,
        start: 0,
        count: 1,
        is_starved: false,
        parts: 1,
        ended: 0,
    },
];

// Guest 0 gives a Dataset Management of one range.
fn give(world: &mut World, alloc: Global, start: u8, count: u8) -> Result<(), Fail> {
    store(world, alloc, 0, 0x1_8000, &range_of(start, count))?;
    let entry = entry_of(0x09, 1, 0x1_8000, (0, 0), [0, 4, 0]);
    store(world, alloc, 0, 0x1_3000, &entry)?;
    ring(world, alloc, 0, 0x1008, 1);
    Ok(())
}

// Turns of guest 0's planner on lane 0, until it has nothing to do: which reapers it rings for, and which physical controllers.
fn plan(locked: &mut Locked, alloc: Global, is_starved: bool) -> [u64; 2] {
    let mut planner = GuestPlanner::new(0, 0);
    let mut rung = [0, 0];
    for _turn in 0..TURNS {
        let Some(told) = plan_on(&mut planner, locked, alloc, is_starved) else {
            return rung;
        };
        rung = [rung[0] | told.reapers, rung[1] | told.devices];
    }
    rung
}

// One of these turns: whom it concerns, or `None` where there was nothing to do.
fn plan_on(
    planner: &mut GuestPlanner,
    locked: &mut Locked,
    alloc: Global,
    is_starved: bool,
) -> Option<Concern> {
    match planner.turn(locked, alloc) {
        Turn::Job(job) => {
            let planned = planned(&locked.world, alloc, job, is_starved);
            go_on(planner, locked, Prepared::of(planned))
        }
        // with no plan that is fed, the job is examined again
        Turn::Read(_, _) => Some(Concern::nobody()),
        Turn::Done(told) => Some(told),
        Turn::Nothing => None,
    }
}

// What comes of a job; as where there is no memory, where it is starved or there is no such guest.
fn planned(world: &World, alloc: Global, job: Job, is_starved: bool) -> Planned {
    let guest = job.guest;
    match (world.map(guest), world.range(guest), world.limit(guest)) {
        (Some(map), Some(ns), Some(limit)) if !is_starved => {
            make_plan(alloc, alloc, job, map, ns, limit)
        }
        _ => Planned::NoMemory(job),
    }
}

// This many parts are noted as ended, no more and no fewer: with the others and one of another command, which is posted after this one, one is left
// and then none.
fn expect_ended(rt: &impl Abort, notes: &mut Notes, case: &Case) {
    let others = case.parts.saturating_sub(case.ended);
    notes.end(0, others.saturating_add(1));
    let _concern = notes.post(0, 0);
    assert!(rt; notes.has_ended(0), "too few have ended");
    let _concern = notes.post(0, 63);
    assert!(rt; !notes.has_ended(0), "too many have ended");
}

// Its planner is through with a case.
fn expect_planned(rt: &impl Abort, alloc: Global, world: World, case: &Case) {
    let notes = Notes::of(&world);
    let mut locked = Locked { world, notes };
    let rung = plan(&mut locked, alloc, case.is_starved);
    let have_all = case.ended == case.parts;
    assert!(rt; rung[0] == u64::from(have_all), "the reaper");
    assert!(rt; rung[1] == u64::from(!have_all), "the physical controller");
    assert!(rt; locked.notes.size(0, 0) == case.parts);
    expect_ended(rt, &mut locked.notes, case);
}

#[test]
fn parts_that_are_no_commands_have_ended(rt: HostRuntime) -> Result<(), Fail> {
    let alloc = rt.alloc();
    for case in CASES {
        let mut world = brought_up(alloc, &case.extents)?;
        give(&mut world, alloc, case.start, case.count)?;
        expect_planned(&rt, alloc, world, case);
    }
    Ok(())
}
