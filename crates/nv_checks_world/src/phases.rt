//! The mediator reaps by positions, and a driver by phase tags: along commands that go round the physical completion ring more than twice,
//! the slot that is reaped next has the phase tag that a driver waits for exactly where a completion is due to be reaped.

use crate::bench::{Bench, WHOLE};
use crate::commands::{ROWS, entry};
use nv_bringup::{MEDIATOR, SLOTS};
use nv_entry::Cqe;
use nv_model::limits::{CQE_SIZE, PAGE_SIZE, RING_SLOTS, SUBMISSION_RING_PAGES};
use nv_world::World;
use nv_world_model::Event;
use std::process::Abort;

/// How many commands there are, a Flush each.
const COMMANDS: u16 = 140;

/// How many slots a physical ring has.
const RING: u64 = RING_SLOTS as u64;

/// Where the completion ring of the first lane lies in the host: it is the third page of the mediator's area.
const FIRST_SLOT: u64 = MEDIATOR + SUBMISSION_RING_PAGES * PAGE_SIZE;

/// How many events a Flush has between its doorbell and that of its completion, and which of them reaps.
const STEPS: u8 = 7;

const REAP: u8 = 5;

// An event of a Flush under tag 0, by its number.
fn step_of(number: u8) -> Event {
    match number {
        0 => Event::Take(0, 1, 0),
        1 => Event::Submit(0, 0),
        2 => Event::DevTake(0),
        3 => Event::DevMove(0, 0, 0),
        4 => Event::DevPost(0, 0),
        REAP => Event::Reap(0),
        _ => Event::Post(0, 0),
    }
}

// Whether the slot that is reaped next, after so many completions, has the phase tag that a driver waits for there.
fn is_found(world: &World, reaped: u64) -> bool {
    let addr = FIRST_SLOT + CQE_SIZE * (reaped % RING);
    let host = world.host();
    if !host.holds(addr, 16) {
        return false;
    }
    let mut bytes = [0; 16];
    host.load(addr, &mut bytes);
    Cqe::of(&bytes).phase() == (reaped / RING % 2 == 0)
}

// Ends the test where position and phase tag say different things along a Flush, after so many completions.
fn expect_agreement(rt: &impl Abort, bench: &mut Bench, completed: u16) {
    for number in 0..STEPS {
        let reaped = u64::from(completed) + u64::from(number > REAP);
        let due = bench.world.due(&Event::Reap(0));
        assert!(rt;
            due == (number == REAP) && is_found(&bench.world, reaped) == due,
            "{completed}"
        );
        bench.must(step_of(number));
    }
}

// Ends the test where they do along so many commands.
fn expect_all(rt: &impl Abort, bench: &mut Bench) {
    for completed in 0..COMMANDS {
        bench.enter(0, completed, &entry(&ROWS[0], completed));
        expect_agreement(rt, bench, completed);
        bench.look(0, completed);
    }
    assert!(rt; !bench.failed);
}

#[test]
fn phase_tags_tell_what_is_due_to_be_reaped(rt: HostRuntime) {
    let mut bench = Bench::new(rt.alloc(), 1, &[WHOLE], SLOTS).expect(&rt, "a world");
    bench.bring_up(0);
    expect_all(&rt, &mut bench);
}
