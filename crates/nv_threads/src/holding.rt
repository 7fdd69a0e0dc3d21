//! A worker makes one event at most while it holds the world's lock.
//!
//! Each worker has nothing to do at first. Then somebody takes the lock, gives the worker several events to make, waits until it waits for the
//! lock, and asks it to stop. So it makes one event, or none.

use crate::brought_up::{brought_up, ring, store};
use crate::device_side::device_loop;
use crate::gate::Open;
use crate::locked::Locked;
use crate::planning::planner;
use crate::reaping::reaper;
use crate::share::Share;
use crate::shared::Shared;
use crate::simulated_guest::entry_of;
use crate::simulated_worlds::{ONE, step};
use nv_world::World;
use nv_world_model::Event;
use std::alloc::Global;
use std::sync::Wait;
use std::test::Fail;
use std::thread;
use std::thread::{Threads, join};
use std::time::{Clock, Duration};

/// A heap with room for a plan.
const HEAP: u64 = 65_536;

/// For how many milliseconds a worker has nothing to do, and then waits for the lock.
const A_WHILE: u64 = 20;

/// A worker.
#[derive(Clone, Copy, Debug)]
enum Worker {
    Planner,
    Device,
    Reaper,
}

/// What was done before the reaper came: a Read that guest 0 rang for is handed on and moved.
const BEFORE_REAPER: [Event; 4] = [
    Event::Take(0, 1, 0),
    Event::Submit(0, 0),
    Event::DevTake(0),
    Event::DevMove(0, 0, 0),
];

// Guest 0 has queue pair 1, with a Read for which it has not rung the doorbell.
fn with_read(alloc: Global) -> Result<World, Fail> {
    let mut world = brought_up(alloc, &ONE)?;
    let read = entry_of(0x02, 1, 0x6000, (0, 0), [5, 0, 0]);
    store(&mut world, alloc, 0, 0x1_3000, &read)?;
    Ok(world)
}

// What is done before a worker comes: guest 0 rings for the Read before the physical controller and the reaper do.
fn prepare(world: &mut World, alloc: Global, worker: Worker) {
    if matches!(worker, Worker::Planner) {
        return;
    }
    ring(world, alloc, 0, 0x1008, 1);
    if matches!(worker, Worker::Reaper) {
        for event in BEFORE_REAPER {
            step(world, alloc, event);
        }
    }
}

// What gives a worker several events to make: guest 0 rings for a Read and an admin command, the Read is handed on, and it is completed.
fn give(world: &mut World, alloc: Global, worker: Worker) {
    match worker {
        Worker::Planner => {
            ring(world, alloc, 0, 0x1008, 1);
            ring(world, alloc, 0, 0x1000, 3);
        }
        Worker::Device => {
            step(world, alloc, Event::Take(0, 1, 0));
            step(world, alloc, Event::Submit(0, 0));
        }
        Worker::Reaper => {
            step(world, alloc, Event::DevPost(0, 0));
        }
    }
}

// The worker works, until it is asked to stop.
fn works<R: Wait + Clock>(rt: &R, alloc: Global, shared: &Shared, worker: Worker) -> Share {
    match worker {
        Worker::Planner => planner(rt, alloc, shared, 0, 0, &Open, HEAP),
        Worker::Device => device_loop(rt, alloc, shared, 0),
        Worker::Reaper => reaper(rt, alloc, shared, 0),
    }
}

// Gives a worker what it has to do, and asks it to stop, under one hold of the lock.
fn gives<R: Wait + Clock>(rt: &R, alloc: Global, shared: &Shared, worker: Worker) {
    thread::sleep(rt, Duration::from_millis(A_WHILE));
    let mut locked = shared.lock(rt);
    give_noted(&mut locked, alloc, worker);
    shared.bells.ring_all();
    thread::sleep(rt, Duration::from_millis(A_WHILE));
    shared.stop();
    drop(locked);
}

// Gives a worker what it has to do, and notes it.
fn give_noted(locked: &mut Locked, alloc: Global, worker: Worker) {
    give(&mut locked.world, alloc, worker);
    locked.notes.ring_for(0, 1);
}

// How many events a worker makes.
fn made<R: Threads + Wait + Clock + Sync>(
    rt: &R,
    alloc: Global,
    world: World,
    worker: Worker,
) -> u64 {
    let shared = Shared::new(world);
    let (share, _) = join(
        rt,
        || works(rt, alloc, &shared, worker),
        || gives(rt, alloc, &shared, worker),
    );
    share.events()
}

#[test]
fn a_worker_makes_one_event_under_the_lock(rt: HostRuntime) -> Result<(), Fail> {
    let alloc = rt.alloc();
    for worker in [Worker::Planner, Worker::Device, Worker::Reaper] {
        let mut world = with_read(alloc)?;
        prepare(&mut world, alloc, worker);
        let count = made(&rt, alloc, world, worker);
        assert!(rt; count <= 1, "{worker:?} made {count}");
    }
    Ok(())
}
