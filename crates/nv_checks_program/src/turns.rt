//! A planner alone with a world whose queues were filled before: what it does, event by event, on lane 1.

use crate::bench::{FLUSH, READ_BY_PRP, READ_BY_SEGMENT, opened};
use crate::preparing::{answers, brings_up, rings, stores, stores_entry};
use nv_mem::GuestMap;
use nv_model::Reply;
use nv_ns::VirtualNs;
use nv_plan::{Job, Planned, make_plan};
use nv_threads::{Gate, Shared, finish, planner};
use nv_world::World;
use nv_world_model::{Event, Logged};
use std::alloc::{Allocator, Global};
use std::process::Abort;
use std::sync::Wait;
use std::sync::atomic::{AtomicU64, Ordering};
use std::test::Fail;
use std::thread;
use std::thread::{Threads, join};
use std::time::{Clock, Duration};

/// A heap with room for any plan.
const HEAP: u64 = 1_048_576;

/// How often it is polled whether both plans are made, a millisecond apart.
const LOOKS: u32 = 10_000;

/// Submission queue 8 of 16 slots at 14000h is created, for completion queue 1.
const CREATE_QUEUE_EIGHT: [u32; 16] = [
    0x0003_0001,
    0,
    0,
    0,
    0,
    0,
    0x1_4000,
    0,
    0,
    0,
    0x000f_0008,
    0x0001_0001,
    0,
    0,
    0,
    0,
];

/// What a planner does.
#[derive(Clone, Copy, Debug, PartialEq, Eq)]
enum Move {
    Take(u8, u16, u8),
    List(u8, u8, u64, u64),
    Submit(u8, u8),
    GiveUp(u8, u8),
}

/// What it does here. It turns to the next queue that has a command, and so comes back to queue 1; tags are the lowest that are free; a part
/// of a list that is wanted has at most 4,096 bytes.
const MOVES: [Move; 10] = [
    Move::Take(0, 1, 1),
    Move::Submit(1, 0),
    Move::Take(0, 8, 1),
    Move::GiveUp(1, 1),
    Move::Take(0, 1, 1),
    Move::List(1, 2, 0x4000, 4096),
    Move::List(1, 2, 0x5000, 4096),
    Move::List(1, 2, 0x6000, 4096),
    Move::List(1, 2, 0x7000, 3712),
    Move::Submit(1, 2),
];

/// A gate that has no memory at its second call.
#[derive(Drop)]
struct Second {
    calls: AtomicU64,
    plans: AtomicU64,
}

impl Gate for Second {
    fn plan<R: Wait + Clock, A: Allocator + Clone>(
        &self,
        _rt: &R,
        heap: A,
        alloc: Global,
        job: Job,
        map: &GuestMap,
        ns: &VirtualNs,
        limit: u32,
    ) -> Planned {
        if self.calls.fetch_add(1, Ordering::SeqCst) == 1 {
            return Planned::NoMemory(job);
        }
        let planned = make_plan(heap, alloc, job, map, ns, limit);
        if let Planned::Plan(_) = &planned {
            self.plans.fetch_add(1, Ordering::SeqCst);
        }
        planned
    }
}

// Whether submission queue 8 is made.
fn brings_up_eight(world: &mut World, alloc: Global) -> bool {
    stores_entry(world, alloc, 0x1_0080, &CREATE_QUEUE_EIGHT)
        && rings(world, alloc, 0x1000, 3)
        && answers(world, alloc)
}

// Whether a list of 1,000 Data Blocks of no bytes is stored: it is read whole, and the Read is then refused by its plan.
fn stores_segment(world: &mut World, alloc: Global) -> bool {
    stores(world, alloc, 0x4000, &[0; 16_000])
}

// Whether there are two commands in queue 1 and one in queue 8.
fn fills(world: &mut World, alloc: Global) -> bool {
    stores_segment(world, alloc)
        && stores_entry(world, alloc, 0x1_3000, &READ_BY_PRP)
        && stores_entry(world, alloc, 0x1_3040, &READ_BY_SEGMENT)
        && stores_entry(world, alloc, 0x1_4000, &FLUSH)
        && rings(world, alloc, 0x1008, 2)
        && rings(world, alloc, 0x1040, 1)
}

// Signals the planner to stop once both plans are made.
fn stops<C: Clock>(clock: &C, shared: &Shared, gate: &Second) {
    for _look in 0..LOOKS {
        if gate.plans.load(Ordering::SeqCst) == 2 {
            break;
        }
        thread::sleep(clock, Duration::from_millis(1));
    }
    shared.stop();
}

// The world after the planner.
fn planned<R: Threads + Wait + Clock + Abort + Sync>(rt: &R, alloc: Global, world: World) -> World {
    let shared = Shared::new(world);
    let gate = Second {
        calls: AtomicU64::new(0),
        plans: AtomicU64::new(0),
    };
    let (_share, _) = join(
        rt,
        || planner(rt, alloc, &shared, 0, 1, &gate, HEAP),
        || stops(rt, &shared, &gate),
    );
    shared.close()
}

// What a planner did by this event, if it is one of these.
fn moved(event: &Event) -> Option<Move> {
    match event {
        Event::Take(guest, queue, lane) => Some(Move::Take(*guest, *queue, *lane)),
        Event::List(lane, tag, addr, len) => Some(Move::List(*lane, *tag, *addr, *len)),
        Event::Submit(lane, tag) => Some(Move::Submit(*lane, *tag)),
        Event::GiveUp(lane, tag) => Some(Move::GiveUp(*lane, *tag)),
        _ => None,
    }
}

// Whether an event was carried out.
fn is_done(logged: &Logged) -> bool {
    matches!(logged.reply, Reply::Done | Reply::Bytes(_))
}

#[test]
fn a_planner_takes_of_each_queue_in_turn(rt: HostRuntime) -> Result<(), Fail> {
    let alloc = rt.alloc();
    let mut world = opened(alloc).expect(&rt, "a world");
    assert!(rt; brings_up(&mut world, alloc) && brings_up_eight(&mut world, alloc));
    assert!(rt; fills(&mut world, alloc));
    let world = planned(&rt, alloc, world);
    let mut moves = Vec::new(alloc);
    for logged in world.log() {
        assert!(rt; is_done(logged), "{logged:?}");
        if let Some(made) = moved(&logged.event) {
            moves.push(made)?;
        }
    }
    assert_eq!(rt; moves.as_slice(), MOVES.as_slice());
    Ok(())
}
