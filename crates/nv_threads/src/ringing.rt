//! Who rings for whom: each bell for its own, a port for workers, and each worker for the next.

use crate::bell::Bell;
use crate::bells::Bells;
use crate::bits::bit;
use crate::brought_up::{brought_up, ring, store};
use crate::concern::Concern;
use crate::device_side::device_loop;
use crate::gate::Gate;
use crate::notes::Notes;
use crate::planning::planner;
use crate::port::Port;
use crate::reaping::reaper;
use crate::shared::Shared;
use crate::simulated_guest::{entry_of, rings};
use crate::simulated_worlds::{Extents, MANY, ONE, TWO, opened, step};
use nv_mem::{GuestMap, NoMemory};
use nv_model::Act;
use nv_model::limits::{MOST_GUESTS, TAGS};
use nv_ns::VirtualNs;
use nv_plan::{Job, Planned, make_plan};
use nv_world::World;
use nv_world_model::Event;
use std::alloc::{Allocator, Global};
use std::process::Abort;
use std::sync::Wait;
use std::test::Fail;
use std::thread;
use std::thread::{Threads, join};
use std::time::{Clock, Duration};

/// How often it is checked whether a bell was rung, a millisecond apart.
const LOOKS: u32 = 5_000;

/// How often a guest waits for news that there is.
const WAITS: u32 = 200_000;

/// A heap with room for a plan.
const HEAP: u64 = 65_536;

// Which bells were rung at least so often: those of guests, planners, reapers and physical controllers, a set each.
fn rung(bells: &Bells, times: u64) -> [u64; 4] {
    let mut rung = [0; 4];
    for number in 0..MOST_GUESTS {
        rung[0] |= rung_as(bells.guest(number), times, number);
        rung[1] |= rung_as(bells.planner(number), times, number);
        rung[2] |= rung_as(bells.reaper(number), times, number);
        rung[3] |= rung_as(bells.device(number), times, number);
    }
    // There are eight lanes.
    [rung[0], rung[1], rung[2] % 256, rung[3] % 256]
}

// The set of this number, where the bell was rung at least so often.
fn rung_as(bell: &Bell, times: u64, number: u8) -> u64 {
    if bell.rings() >= times {
        bit(number)
    } else {
        0
    }
}

// These bells were rung at least so often, and no others.
fn expect_rung(rt: &impl Abort, bells: &Bells, times: u64, sets: [u64; 4]) {
    expect_sets(rt, rung(bells, times), sets);
}

// These are the sets of bells.
fn expect_sets(rt: &impl Abort, rung: [u64; 4], sets: [u64; 4]) {
    assert_eq!(rt; rung, sets);
}

/// Bells that are rung, each with a number of its own and some together.
const CALLED: &[Concern] = &[
    Concern {
        guests: 0x8005,
        planners: 0x0002,
        reapers: 0x80,
        devices: 0x05,
    },
    Concern {
        guests: 0x0010,
        planners: 0xc000,
        reapers: 0x12,
        devices: 0xa0,
    },
    Concern {
        guests: 0,
        planners: 0x0001,
        reapers: 0,
        devices: 0x01,
    },
];

#[test]
fn each_bell_is_rung_for_its_own(rt: HostRuntime) -> Result<(), Fail> {
    for called in CALLED {
        expect_called(&rt, *called);
    }
    let bells = Bells::new();
    bells.ring_all();
    expect_rung(&rt, &bells, 1, [0xffff, 0xffff, 0xff, 0xff]);
    Ok(())
}

// The bells that are called are rung once, and no others.
fn expect_called(rt: &impl Abort, called: Concern) {
    let bells = Bells::new();
    bells.ring(called);
    let sets = [
        called.guests,
        called.planners,
        called.reapers,
        called.devices,
    ];
    expect_rung(rt, &bells, 1, sets);
    expect_rung(rt, &bells, 2, [0; 4]);
}

#[test]
fn each_guest_has_its_own_news(rt: HostRuntime) -> Result<(), Fail> {
    let shared = Shared::new(opened(rt.alloc(), &ONE)?);
    shared.bells.ring(Concern::guest(5));
    for guest in 0..MOST_GUESTS {
        assert!(rt; shared.news(guest) == u64::from(guest == 5));
    }
    // None of them waits. A millisecond for each would be too long.
    for _wait in 0..WAITS {
        shared.wait_for_news(&rt, 5, 0);
    }
    Ok(())
}

#[test]
fn a_wait_tells_whether_the_bell_was_rung(rt: HostRuntime) -> Result<(), Fail> {
    let bell = Bell::new();
    assert!(rt; !bell.wait(&rt, 0));
    bell.ring();
    assert!(rt; bell.wait(&rt, 0));
    assert!(rt; !bell.wait(&rt, 1));
    Ok(())
}

// Takes the lock again and again, until the workers are to stop.
fn takes<R: Wait>(rt: &R, shared: &Shared) {
    for _ in rt.forever() {
        if shared.is_stopped() {
            return;
        }
        drop(shared.lock(rt));
    }
}

// Holds the lock until a thread sleeps on it, and signals the workers to stop; whether one slept on it.
fn holds<R: Wait + Clock>(rt: &R, shared: &Shared) -> bool {
    let locked = shared.lock(rt);
    for _look in 0..LOOKS {
        if shared.is_awaited() {
            break;
        }
        thread::sleep(rt, Duration::from_millis(1));
    }
    let is_awaited = shared.is_awaited();
    shared.stop();
    drop(locked);
    is_awaited
}

#[test]
fn who_sleeps_on_the_lock_is_awaited(rt: HostRuntime) -> Result<(), Fail> {
    let shared = Shared::new(opened(rt.alloc(), &ONE)?);
    assert!(rt; !shared.is_awaited());
    let (was_awaited, _) = join(&rt, || holds(&rt, &shared), || takes(&rt, &shared));
    assert!(rt; was_awaited);
    assert!(rt; !shared.is_awaited());
    Ok(())
}

/// A guest's controller is enabled with a completion queue of two slots, and it rings for two admin commands.
const ENABLE: [Act; 5] = [
    Act::RegWrite {
        offset: 0x24,
        value: 0x0001_001f,
    },
    Act::RegWrite {
        offset: 0x28,
        value: 0x1_0000,
    },
    Act::RegWrite {
        offset: 0x30,
        value: 0x1_1000,
    },
    Act::RegWrite {
        offset: 0x14,
        value: 0x0046_0001,
    },
    Act::Doorbell {
        offset: 0x1000,
        value: 2,
    },
];

// The port of guest 1 rings for its planners where there is an entry to be taken up; and again where its completion queue has room for the second.
fn expect_rings<R: Wait + Abort>(rt: &R, alloc: Global, shared: &Shared) -> Result<(), NoMemory> {
    let mut port = Port::new(alloc, 1);
    for act in ENABLE {
        expect_rung(rt, &shared.bells, 1, [0; 4]);
        acts(rt, alloc, shared, &mut port, act)?;
    }
    expect_rung(rt, &shared.bells, 1, [0, 0b10, 0, 0]);
    expect_rung(rt, &shared.bells, 2, [0; 4]);
    let _reply = step(&mut shared.lock(rt).world, alloc, Event::Admin(1));
    acts(rt, alloc, shared, &mut port, rings(0x1004, 1))?;
    expect_rung(rt, &shared.bells, 2, [0, 0b10, 0, 0]);
    expect_rung(rt, &shared.bells, 3, [0; 4]);
    Ok(())
}

// A guest acts by its port.
fn acts<R: Wait>(
    rt: &R,
    alloc: Global,
    shared: &Shared,
    port: &mut Port,
    act: Act,
) -> Result<(), NoMemory> {
    let _reply = port.act(rt, alloc, shared, act)?;
    Ok(())
}

#[test]
fn a_port_rings_behind_its_act(rt: HostRuntime) -> Result<(), Fail> {
    let shared = Shared::new(opened(rt.alloc(), &ONE)?);
    expect_rings(&rt, rt.alloc(), &shared)?;
    Ok(())
}

#[test]
fn a_reset_rings_where_commands_have_ended(rt: HostRuntime) -> Result<(), Fail> {
    let shared = Shared::new(opened(rt.alloc(), &ONE)?);
    shared.lock(&rt).notes.end(1, 1);
    let reset = Act::RegWrite {
        offset: 0x14,
        value: 0,
    };
    let mut port = Port::new(rt.alloc(), 0);
    acts(&rt, rt.alloc(), &shared, &mut port, reset)?;
    expect_rung(&rt, &shared.bells, 1, [0, 0, 0b10, 0]);
    Ok(())
}

/// How many tags a lane has.
const ALL: u32 = TAGS as u32;

/// Worlds, and how many tags their largest commands take.
const SHORT: &[Short] = &[
    Short {
        extents: ONE,
        most: 1,
    },
    Short {
        extents: TWO,
        most: 2,
    },
    Short {
        extents: MANY,
        most: 8,
    },
];

/// The extents of a world's guests, and how many tags the largest commands take there.
struct Short {
    extents: Extents,
    most: u32,
}

// Tags of lane 1 are taken one by one: it is short while fewer are free than a command may take, but some.
fn expect_short(rt: &impl Abort, world: &World, most: u32) {
    let mut notes = Notes::of(world);
    for taken in 0..=ALL {
        let is_short = taken != ALL && ALL - taken < most;
        assert!(rt; notes.are_short() == is_short, "{taken} taken");
        let _tag = notes.take(world, 1, 0);
    }
}

#[test]
fn a_lane_is_short_of_tags(rt: HostRuntime) -> Result<(), Fail> {
    for short in SHORT {
        expect_short(&rt, &opened(rt.alloc(), &short.extents)?, short.most);
    }
    Ok(())
}

// Tags of lane 1 are taken one by one. A post of one rings for all planners where fewer were free than a command may take, and else for none.
fn expect_post_rings(rt: &impl Abort, world: &World, most: u32) {
    let mut notes = Notes::of(world);
    for taken in 1..=ALL {
        let _tag = notes.take(world, 1, 2);
        let mut behind = notes;
        let told = behind.post(1, 0);
        let planners = if ALL - taken < most { u64::MAX } else { 0 };
        assert!(rt; told.planners == planners, "{taken} taken");
        assert!(rt; told.guests == bit(2));
    }
}

#[test]
fn a_post_rings_for_planners_where_tags_were_few(rt: HostRuntime) -> Result<(), Fail> {
    for short in SHORT {
        expect_post_rings(&rt, &opened(rt.alloc(), &short.extents)?, short.most);
    }
    Ok(())
}

/// A gate that signals the workers to stop, and makes the plan.
#[derive(Drop)]
struct Last<'a> {
    shared: &'a Shared,
}

impl Gate for Last<'_> {
    fn plan<R: Wait + Clock, A: Allocator + Clone>(
        &self,
        _rt: &R,
        heap: A,
        alloc: Global,
        job: Job,
        map: &GuestMap,
        ns: &VirtualNs,
        limit: u32,
    ) -> Planned {
        self.shared.stop();
        make_plan(heap, alloc, job, map, ns, limit)
    }
}

// Guest 0 has queue pair 1, in which a Read waits, and an admin command waits, too.
fn waiting(alloc: Global) -> Result<World, Fail> {
    let mut world = brought_up(alloc, &ONE)?;
    let read = entry_of(0x02, 1, 0x6000, (0, 0), [5, 0, 0]);
    store(&mut world, alloc, 0, 0x1_3000, &read)?;
    ring(&mut world, alloc, 0, 0x1008, 1);
    ring(&mut world, alloc, 0, 0x1000, 3);
    Ok(world)
}

// Signals the workers to stop once a bell was rung.
fn stops<C: Clock>(clock: &C, shared: &Shared, bell: &Bell) {
    for _look in 0..LOOKS {
        if bell.rings() != 0 {
            break;
        }
        thread::sleep(clock, Duration::from_millis(1));
    }
    shared.stop();
}

// Guest 0's planner on lane 0 does what it can, until it has made a plan.
fn plans<R: Wait + Clock>(rt: &R, alloc: Global, shared: &Shared) {
    let gate = Last { shared };
    let _share = planner(rt, alloc, shared, 0, 0, &gate, HEAP);
}

// Which bells it rings, in addition to all of them once, and the world after it.
fn planned<R: Wait + Clock>(rt: &R, alloc: Global, world: World) -> ([u64; 4], World) {
    let shared = Shared::new(world);
    plans(rt, alloc, &shared);
    (rung(&shared.bells, 2), shared.close())
}

// The same of the physical controller on lane 0.
fn moved<R: Threads + Wait + Clock + Sync>(
    rt: &R,
    alloc: Global,
    world: World,
) -> ([u64; 4], World) {
    let shared = Shared::new(world);
    let (_share, _) = join(
        rt,
        || device_loop(rt, alloc, &shared, 0),
        || stops(rt, &shared, shared.bells.reaper(0)),
    );
    (rung(&shared.bells, 2), shared.close())
}

// The same of the reaper of lane 0.
fn reaped<R: Threads + Wait + Clock + Sync>(
    rt: &R,
    alloc: Global,
    world: World,
) -> ([u64; 4], World) {
    let shared = Shared::new(world);
    let (_share, _) = join(
        rt,
        || reaper(rt, alloc, &shared, 0),
        || stops(rt, &shared, shared.bells.guest(0)),
    );
    (rung(&shared.bells, 2), shared.close())
}

#[test]
fn each_worker_rings_for_the_next(rt: HostRuntime) -> Result<(), Fail> {
    let alloc = rt.alloc();
    let (by_planner, world) = planned(&rt, alloc, waiting(alloc)?);
    expect_sets(&rt, by_planner, [1, 0, 0, 1]);
    let (by_device, world) = moved(&rt, alloc, world);
    expect_sets(&rt, by_device, [0, 0, 1, 0]);
    let (by_reaper, _) = reaped(&rt, alloc, world);
    expect_sets(&rt, by_reaper, [1, 0, 0, 0]);
    Ok(())
}
