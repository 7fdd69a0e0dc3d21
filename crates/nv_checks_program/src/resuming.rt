//! Workers go on with commands that were under way before they came.

use crate::acting::{Seat, awaits};
use crate::bench::opened;
use crate::preparing::{brings_up, rings, stores_entry};
use crate::running::{others, workers};
use nv_bringup::io_entry;
use nv_model::Reply;
use nv_threads::{Open, Port, Shared};
use nv_world::World;
use nv_world_model::Event;
use std::alloc::Global;
use std::process::Abort;
use std::sync::Wait;
use std::test::Fail;
use std::thread::{Threads, join};
use std::time::Clock;

/// A Read of four blocks from block 5 into 3000h by one Data Block, as command 7. It is given twice.
const READ_FOUR: [u32; 16] = io_entry!(0x0007_4002, [0x3000, 0, 2048, 0], [5, 0, 3]);

/// A heap with room for a plan.
const HEAP: u64 = 65_536;

/// What was done of both: two of the four units of each have moved.
const UNDER_WAY: [Event; 10] = [
    Event::Take(0, 1, 0),
    Event::Submit(0, 0),
    Event::DevTake(0),
    Event::DevMove(0, 0, 0),
    Event::DevMove(0, 0, 2),
    Event::Take(0, 1, 0),
    Event::Submit(0, 1),
    Event::DevTake(0),
    Event::DevMove(0, 1, 1),
    Event::DevMove(0, 1, 2),
];

/// Both are taken, and neither is planned.
const TAKEN: [Event; 2] = [Event::Take(0, 1, 0), Event::Take(0, 1, 0)];

// Whether both Reads are given.
fn gives_reads(world: &mut World, alloc: Global) -> bool {
    stores_entry(world, alloc, 0x1_3000, &READ_FOUR)
        && stores_entry(world, alloc, 0x1_3040, &READ_FOUR)
        && rings(world, alloc, 0x1008, 2)
}

// Whether both Reads come to be taken.
fn takes_reads(world: &mut World, alloc: Global) -> bool {
    if !gives_reads(world, alloc) {
        return false;
    }
    for event in TAKEN {
        if !matches!(world.step(alloc, event), Reply::Done) {
            return false;
        }
    }
    true
}

// Whether both Reads come to be under way.
fn begins_to_read(world: &mut World, alloc: Global) -> bool {
    if !gives_reads(world, alloc) {
        return false;
    }
    for event in UNDER_WAY {
        if !matches!(world.step(alloc, event), Reply::Done) {
            return false;
        }
    }
    true
}

// Whether the guest finds both completions; then the workers get the signal to stop.
fn finds_completions<R: Wait + Clock>(rt: &R, alloc: Global, shared: &Shared) -> bool {
    let mut port = Port::new(alloc, 0);
    let mut seat = Seat {
        alloc,
        shared,
        port: &mut port,
    };
    let first = awaits(rt, &mut seat, 0x1_200c, 0x0001_0007);
    let second = awaits(rt, &mut seat, 0x1_201c, 0x0001_0007);
    shared.stop();
    matches!((first, second), (Ok(true), Ok(true)))
}

// Whether the reaper and the physical controller end both Reads.
fn are_ended<R: Threads + Wait + Clock + Sync>(rt: &R, alloc: Global, world: World) -> bool {
    let shared = Shared::new(world);
    let (found, _) = join(
        rt,
        || finds_completions(rt, alloc, &shared),
        || others(rt, alloc, &shared),
    );
    found
}

// Whether all workers end both Reads.
fn are_planned_and_ended<R: Threads + Wait + Clock + Sync>(
    rt: &R,
    alloc: Global,
    world: World,
) -> bool {
    let shared = Shared::new(world);
    let (found, _) = join(
        rt,
        || finds_completions(rt, alloc, &shared),
        || workers(rt, alloc, &shared, &Open, HEAP),
    );
    found
}

// No command comes after them, so the planner takes none.
#[test]
fn all_commands_that_were_taken_are_planned(rt: HostRuntime) -> Result<(), Fail> {
    let alloc = rt.alloc();
    let mut world = opened(alloc).expect(&rt, "a world");
    assert!(rt; brings_up(&mut world, alloc));
    assert!(rt; takes_reads(&mut world, alloc));
    assert!(rt; are_planned_and_ended(&rt, alloc, world));
    Ok(())
}

#[test]
fn half_moved_commands_go_on(rt: HostRuntime) -> Result<(), Fail> {
    let alloc = rt.alloc();
    let mut world = opened(alloc).expect(&rt, "a world");
    assert!(rt; brings_up(&mut world, alloc));
    assert!(rt; begins_to_read(&mut world, alloc));
    assert!(rt; are_ended(&rt, alloc, world));
    Ok(())
}
