//! Whom an event concerns besides the one who goes on with its command: the planners of its guest.
//!
//! They are notified where another entry may be at the front of a queue, or the one at the front has other bytes, and a lane is short of tags; and
//! where a deletion can be finished.

use crate::brought_up::{brought_up, expect_done, ring, store};
use crate::concern::Concern;
use crate::locked::{Errand, Locked};
use crate::notes::Notes;
use crate::planning::GuestPlanner;
use crate::reaping::LaneReaper;
use crate::simulated_guest::{entry_of, rings};
use crate::simulated_worlds::{TWO, events};
use crate::tasks::Turn;
use nv_world::World;
use nv_world_model::Event;
use std::alloc::Global;
use std::process::Abort;
use std::test::Fail;

/// How many turns a planner has at most.
const TURNS: u32 = 100;

// Guest 0 has a Flush in queue 1.
fn with_flush(alloc: Global) -> Result<World, Fail> {
    let mut world = brought_up(alloc, &TWO)?;
    let flush = entry_of(0x00, 1, 0, (0, 0), [0, 0, 0]);
    store(&mut world, alloc, 0, 0x1_3000, &flush)?;
    ring(&mut world, alloc, 0, 0x1008, 1);
    Ok(world)
}

// The world, with what is noted of it. Lane 1 has one free tag or 64, as far as is noted, and a command takes up to two.
fn noted(world: World, is_short: bool) -> Locked {
    let mut notes = Notes::of(&world);
    if is_short {
        for _tag in 0..63u8 {
            let _taken = notes.take(&world, 1, 2);
        }
    }
    Locked { world, notes }
}

// Whom the first event concerns that guest 0's planner on lane 0 makes.
fn by_planner(locked: &mut Locked, alloc: Global) -> Concern {
    let before = events(&locked.world);
    let mut planner = GuestPlanner::new(0, 0);
    for _turn in 0..TURNS {
        let Turn::Done(told) = planner.turn(locked, alloc) else {
            break;
        };
        if events(&locked.world) != before {
            return told;
        }
    }
    Concern::nobody()
}

// Whom the event concerns that the reaper of lane 0 makes.
fn by_reaper(locked: &mut Locked, alloc: Global) -> Concern {
    let mut reaper = LaneReaper::new(0);
    let told = reaper.turn(locked, alloc);
    told.unwrap_or(Concern::nobody())
}

// Guest 0's planners are notified where they should be, and no others are.
fn expect_planners(rt: &impl Abort, told: Concern, are_rung_for: bool, behind: &str) {
    assert!(rt; told.planners == u64::from(are_rung_for), "{behind}");
}

// The guest itself is notified, too.
fn expect_guest(rt: &impl Abort, told: Concern, are_rung_for: bool, behind: &str) {
    expect_planners(rt, told, are_rung_for, behind);
    assert!(rt; told.guests == 1, "{behind}");
}

// Guest 0 stores bytes, its planner takes the Flush and gives it up, it is posted, and an admin command is answered.
fn expect_told(rt: &impl Abort, alloc: Global, locked: &mut Locked, is_short: bool) {
    expect_planners(rt, locked.concern(0, Errand::Bytes), is_short, "a store");
    expect_planners(rt, by_planner(locked, alloc), is_short, "a take");
    expect_done(rt, &mut locked.world, alloc, Event::GiveUp(0, 0));
    expect_guest(rt, by_reaper(locked, alloc), is_short, "a post");
    expect_done(
        rt,
        &mut locked.world,
        alloc,
        Event::Guest(0, rings(0x1000, 3)),
    );
    expect_guest(rt, by_planner(locked, alloc), is_short, "an answer");
}

#[test]
fn another_entry_in_front_is_told_of_where_tags_are_short(rt: HostRuntime) -> Result<(), Fail> {
    let alloc = rt.alloc();
    for is_short in [false, true] {
        let mut locked = noted(with_flush(alloc)?, is_short);
        expect_told(&rt, alloc, &mut locked, is_short);
    }
    Ok(())
}

// The Flush was taken and has ended, and queue 1 is to be deleted: that waits for the Flush to be posted.
#[test]
fn a_deletion_that_can_be_finished_is_told_of(rt: HostRuntime) -> Result<(), Fail> {
    let alloc = rt.alloc();
    let mut world = with_flush(alloc)?;
    let delete = entry_of(0x00, 2, 0, (0, 0), [1, 0, 0]);
    store(&mut world, alloc, 0, 0x1_0080, &delete)?;
    expect_deletion(&rt, &mut world, alloc);
    let mut locked = noted(world, false);
    expect_guest(&rt, by_reaper(&mut locked, alloc), true, "a post");
    Ok(())
}

// The Flush is taken and ends, and the deletion begins.
fn expect_deletion(rt: &impl Abort, world: &mut World, alloc: Global) {
    expect_done(rt, world, alloc, Event::Take(0, 1, 0));
    expect_done(rt, world, alloc, Event::GiveUp(0, 0));
    expect_done(rt, world, alloc, Event::Guest(0, rings(0x1000, 3)));
    expect_done(rt, world, alloc, Event::Admin(0));
    assert!(rt; !world.due(&Event::Admin(0)));
}
