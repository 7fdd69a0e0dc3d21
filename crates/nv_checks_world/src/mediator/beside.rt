//! A mediator beside a world: the same events, the same replies, and then the same memory and disk.

use crate::mediator::calls::call;
use crate::mediator::events::next;
use nv_bringup::{BRING_UP, Random, Span, act_of, guest_at, is_same_page, is_same_reply, setup_of};
use nv_mediator::{Mediator, Setup};
use nv_mem::NoMemory;
use nv_model::Reply;
use nv_model::limits::{LANE_PAGES, PAGE_SIZE};
use nv_world::World;
use nv_world_model::Event;
use std::alloc::Global;
use std::process::Abort;

/// How many random events there are in a run.
const EVENTS: u16 = 2000;

/// How many bytes the host has, and the host address of the guest's first.
const HOST: u64 = 0x100_0000;

const IMAGE: u64 = 0x10_0000;

/// The guest's extents, the second before the first on the disk.
const SPANS: &[Span] = &[
    Span {
        base: 2000,
        blocks: 32,
    },
    Span {
        base: 1000,
        blocks: 32,
    },
];

/// The pages of the host's memory that are compared: the guest's, and the mediator's of the lane.
const PAGES: [(u64, u64); 2] = [(0x10_0000, 32), (0x40_0000, LANE_PAGES)];

/// The mediator and the world.
#[derive(Drop)]
struct Both {
    mediator: Mediator,
    world: World,
}

/// What was seen of a run.
#[derive(Clone, Copy)]
struct Seen {
    // whether each reply was the same
    alike: bool,
    // how many commands were completed for the guest
    completed: u16,
}

// The set-up: one lane, and one guest.
fn setup(alloc: Global) -> Option<Setup> {
    let guest = guest_at(alloc, HOST, IMAGE, SPANS)?;
    Some(setup_of(HOST, 1, vec![in alloc; guest].ok()?))
}

/// The mediator at its start: one lane, and one guest.
pub fn opened_mediator(alloc: Global) -> Option<Mediator> {
    Mediator::new(alloc, setup(alloc)?).ok()
}

// Both at their start.
fn opened(alloc: Global) -> Option<Both> {
    Some(Both {
        mediator: opened_mediator(alloc)?,
        world: World::new(alloc, setup(alloc)?).ok()?,
    })
}

// Whether an event is answered alike, by the mediator's own call or by its step, and due in both or in neither.
fn is_alike(both: &mut Both, alloc: Global, event: Event, calls: bool, seen: &mut Seen) {
    let due = both.mediator.due(&event) == both.world.due(&event);
    let posts = matches!(event, Event::Post(_, _));
    let told = if calls {
        call(&mut both.mediator, alloc, &event)
    } else {
        both.mediator.step(alloc, &event)
    };
    let told = told.unwrap_or(Reply::NoMemory);
    let logged = both.world.step(alloc, event);
    seen.alike = seen.alike && due && is_same_reply(&told, &logged);
    if posts && matches!(told, Reply::Done) {
        seen.completed = seen.completed.wrapping_add(1);
    }
}

// The guest is brought up.
fn brings_up(both: &mut Both, alloc: Global, calls: bool, seen: &mut Seen) -> Result<(), NoMemory> {
    for deed in BRING_UP {
        let event = Event::Guest(0, act_of(alloc, deed)?);
        is_alike(both, alloc, event, calls, seen);
    }
    is_alike(both, alloc, Event::Admin(0), calls, seen);
    is_alike(both, alloc, Event::Admin(0), calls, seen);
    Ok(())
}

// A run of random events.
fn runs(both: &mut Both, alloc: Global, seed: u64, seen: &mut Seen) -> Result<(), NoMemory> {
    let calls = seed % 2 == 1;
    brings_up(both, alloc, calls, seen)?;
    let mut random = Random::new(seed);
    for _ in 0..EVENTS {
        let event = next(alloc, &mut random)?;
        is_alike(both, alloc, event, calls, seen);
    }
    Ok(())
}

// Whether a page is the same in both.
fn has_same_page(both: &Both, addr: u64) -> bool {
    is_same_page(both.mediator.host(), both.world.host(), addr)
}

// Whether all pages that are compared are the same.
fn is_same_memory(both: &Both) -> bool {
    PAGES.iter().all(|(start, count)| (0..*count).all(|page| has_same_page(
        both,
        start + PAGE_SIZE * page,
    )))
}

// Whether a block is the same in both, and kept in both or in neither.
fn is_same_block(both: &Both, block: u64) -> bool {
    let Both { mediator, world } = both;
    mediator.kept(block) == world.kept(block) && mediator.block(block) == world.block(block)
}

// Whether the guest's blocks are the same.
fn is_same_disk(both: &Both) -> bool {
    (0..32).all(|place| is_same_block(both, 1000 + place) && is_same_block(both, 2000 + place))
}

// Ends the test where a run of this seed differs, or where too little happened in it.
fn expect_alike(rt: &impl Abort, alloc: Global, seed: u64) {
    let mut both = opened(alloc).expect(rt, "a mediator and a world");
    let mut seen = Seen {
        alike: true,
        completed: 0,
    };
    assert!(rt; runs(&mut both, alloc, seed, &mut seen).is_ok());
    assert!(rt; seen.alike && is_same_memory(&both) && is_same_disk(&both));
    assert!(rt; seen.completed >= 10, "{} were completed", seen.completed);
}

#[test]
fn steps_as_the_world_does(rt: HostRuntime) {
    expect_alike(&rt, rt.alloc(), 2);
}

#[test]
fn calls_as_the_world_steps(rt: HostRuntime) {
    expect_alike(&rt, rt.alloc(), 3);
}
