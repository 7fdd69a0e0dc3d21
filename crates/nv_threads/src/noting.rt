//! Notes of each guest and of each lane, where there are as many as there may be.

use crate::bits::bit;
use crate::brought_up::{bring_up, expect_done, ring, store};
use crate::device_side::LaneDevice;
use crate::locked::Locked;
use crate::notes::Notes;
use crate::shared::Shared;
use crate::simulated_guest::entry_of;
use crate::simulated_worlds::{entry, events, extents_with, setup_with, world_with};
use nv_model::limits::{MOST_GUESTS, MOST_LANES};
use nv_world::{GuestSetup, World};
use nv_world_model::Event;
use std::alloc::Global;
use std::process::Abort;
use std::test::Fail;

/// The last guest.
const LAST: u8 = MOST_GUESTS - 1;

/// The last lane.
const LAST_LANE: u8 = MOST_LANES - 1;

/// How many turns the physical controller has at most.
const TURNS: u32 = 100;

/// How many bytes the host has.
const HOST: u64 = 0x800_0000;

// What a guest is given: 64 blocks, and the last guest as many more in a second extent.
fn guest_with(alloc: Global, guest: u8) -> Result<GuestSetup, Fail> {
    let number = u64::from(guest);
    let second = if guest == LAST { 64 } else { 0 };
    let extents = extents_with(alloc, 200 * number, &[64, second, 0, 0, 0, 0, 0, 0])?;
    setup_with(alloc, HOST, 0x10_0000 * number, extents)
}

// A world of all guests and all lanes.
fn widest(alloc: Global) -> Result<World, Fail> {
    let mut guests = Vec::new(alloc);
    for guest in 0..MOST_GUESTS {
        guests.push(guest_with(alloc, guest)?)?;
    }
    world_with(alloc, HOST, 0x200_0000, MOST_LANES, guests)
}

// A ring, an end, a taken command and its post are noted of that guest and of that lane alone.
fn expect_alone(rt: &impl Abort, world: &World, guest: u8, lane: u8) {
    let mut notes = Notes::of(world);
    notes.ring_for(guest, 8);
    notes.end(lane, 1);
    assert!(rt; matches!(notes.take(world, lane, guest), Some(0)));
    assert!(rt; has_rung_alone(&notes, guest));
    assert!(rt; has_taken_alone(&notes, lane));
    assert!(rt; notes.with_ended() == bit(lane));
    assert!(rt; notes.post(lane, 0).guests == bit(guest));
    assert!(rt; notes.with_ended() == 0);
}

// Whether a ring is noted of that guest alone.
fn has_rung_alone(notes: &Notes, guest: u8) -> bool {
    for other in 0..MOST_GUESTS {
        if (notes.queues(other) == 0x100) != (other == guest) {
            return false;
        }
    }
    true
}

// Whether an end and a taken tag are noted of that lane alone.
fn has_taken_alone(notes: &Notes, lane: u8) -> bool {
    for other in 0..MOST_LANES {
        let is_same = other == lane;
        if notes.has_ended(other) != is_same || (notes.used(other) == 1) != is_same {
            return false;
        }
    }
    true
}

#[test]
fn each_guest_and_each_lane_has_its_own_notes(rt: HostRuntime) -> Result<(), Fail> {
    let world = widest(rt.alloc())?;
    for guest in 0..MOST_GUESTS {
        expect_alone(&rt, &world, guest, guest % MOST_LANES);
    }
    Ok(())
}

// A lane with one free tag is short of tags, since the last guest's commands take up to two.
fn expect_short(rt: &impl Abort, world: &World, lane: u8) {
    let mut notes = Notes::of(world);
    for _tag in 0..63u8 {
        assert!(rt; !notes.are_short());
        let _taken = notes.take(world, lane, 0);
    }
    assert!(rt; notes.are_short(), "lane {lane}");
}

#[test]
fn each_lane_may_be_short_of_tags(rt: HostRuntime) -> Result<(), Fail> {
    let world = widest(rt.alloc())?;
    for lane in 0..MOST_LANES {
        expect_short(&rt, &world, lane);
    }
    Ok(())
}

/// What is done of the last guest's command, on the last lane: it is handed on, and the physical controller takes both its parts.
const HANDED_ON: [Event; 2] = [Event::Take(LAST, 1, LAST_LANE), Event::Submit(LAST_LANE, 0)];

const TAKEN: [Event; 2] = [Event::DevTake(LAST_LANE), Event::DevTake(LAST_LANE)];

/// Then a block of each part is moved, and the other is left.
const MOVED: [Event; 2] = [
    Event::DevMove(LAST_LANE, 0, 0),
    Event::DevMove(LAST_LANE, 1, 1),
];

// A world in which the last guest has queue pair 1, and a Write Zeroes that lies in both its extents waits there.
fn waiting(alloc: Global) -> Result<World, Fail> {
    let mut world = widest(alloc)?;
    bring_up(&mut world, alloc, LAST)?;
    let entry = entry_of(0x08, 1, 0, (0, 0), [62, 0, 3]);
    store(&mut world, alloc, LAST, 0x1_3000, &entry)?;
    ring(&mut world, alloc, LAST, 0x1008, 1);
    Ok(world)
}

// Both events are done.
fn expect_both(rt: &impl Abort, world: &mut World, alloc: Global, events: [Event; 2]) {
    for event in events {
        expect_done(rt, world, alloc, event);
    }
}

// What is noted of a lane on which a command is under way, or none.
fn expect_lane(rt: &impl Abort, notes: &Notes, lane: u8, has_command: bool) {
    let tags: u64 = if has_command { 0b11 } else { 0 };
    assert!(rt; notes.used(lane) == tags, "lane {lane}");
    assert!(rt; notes.leaders(lane) == tags & 1);
    assert!(rt; notes.has_ended(lane) == has_command);
}

// What is noted of the world with this command.
fn expect_noted(rt: &impl Abort, notes: &Notes) {
    for lane in 0..MOST_LANES {
        expect_lane(rt, notes, lane, lane == LAST_LANE);
    }
    for guest in 0..MOST_GUESTS {
        let rung = if guest == LAST { 0b11 } else { 0 };
        assert!(rt; notes.queues(guest) == rung);
    }
    assert!(rt; notes.size(LAST_LANE, 0) == 2);
    assert!(rt; matches!(notes.owner(LAST_LANE, 0), Some(LAST)));
}

// Both parts may have ended, and no more: with one of another command, which is posted before this one, one is left and then none. After the
// command's own post nothing is noted of it.
fn expect_posted(rt: &impl Abort, notes: &mut Notes) {
    let _concern = notes.post(LAST_LANE, 63);
    assert!(rt; notes.has_ended(LAST_LANE), "fewer than two");
    let mut behind = *notes;
    let _concern = behind.post(LAST_LANE, 63);
    assert!(rt; !behind.has_ended(LAST_LANE), "more than two");
    let _concern = notes.post(LAST_LANE, 0);
    expect_lane(rt, notes, LAST_LANE, false);
    assert!(rt; notes.size(LAST_LANE, 0) == 1);
}

#[test]
fn what_was_under_way_is_noted(rt: HostRuntime) -> Result<(), Fail> {
    let mut world = waiting(rt.alloc())?;
    expect_both(&rt, &mut world, rt.alloc(), HANDED_ON);
    expect_both(&rt, &mut world, rt.alloc(), TAKEN);
    let mut notes = Notes::of(&world);
    expect_noted(&rt, &notes);
    expect_posted(&rt, &mut notes);
    expect_used(&rt, &Shared::new(world));
    Ok(())
}

// The physical controller took commands on the last lane alone.
fn expect_used(rt: &impl Abort, shared: &Shared) {
    for lane in 0..MOST_LANES {
        assert!(rt; shared.was_used(lane) == (lane == LAST_LANE));
    }
}

// Turns of the physical controller on the last lane until it has nothing to do; how many commands it has completed.
fn completed(device: &mut LaneDevice, locked: &mut Locked, alloc: Global) -> usize {
    let before = events(&locked.world);
    for _turn in 0..TURNS {
        if device.turn(locked, alloc).is_none() {
            break;
        }
    }
    posted_after(&locked.world, before)
}

// How many commands the physical controller has completed after so many events.
fn posted_after(world: &World, before: usize) -> usize {
    let mut posted: usize = 0;
    for at in before..events(world) {
        if let Some(logged) = entry(world, at) {
            if matches!(logged.event, Event::DevPost(_, _)) {
                posted = posted.saturating_add(1);
            }
        }
    }
    posted
}

// The physical controller checks all slots first, and then only those that are noted: it goes on with each part of a command.
#[test]
fn each_part_of_a_command_goes_on(rt: HostRuntime) -> Result<(), Fail> {
    let world = waiting(rt.alloc())?;
    let notes = Notes::of(&world);
    let mut locked = Locked { world, notes };
    let mut device = LaneDevice::new(LAST_LANE, false);
    assert!(rt; completed(&mut device, &mut locked, rt.alloc()) == 0);
    expect_both(&rt, &mut locked.world, rt.alloc(), HANDED_ON);
    let taken = locked.notes.take(&locked.world, LAST_LANE, LAST);
    assert!(rt; matches!(taken, Some(0)));
    assert!(rt; completed(&mut device, &mut locked, rt.alloc()) == 2);
    Ok(())
}

// What was moved before the physical controller came is passed by, and what is left is not.
#[test]
fn units_that_were_left_are_moved(rt: HostRuntime) -> Result<(), Fail> {
    let mut world = waiting(rt.alloc())?;
    expect_both(&rt, &mut world, rt.alloc(), HANDED_ON);
    expect_both(&rt, &mut world, rt.alloc(), TAKEN);
    expect_both(&rt, &mut world, rt.alloc(), MOVED);
    let notes = Notes::of(&world);
    let mut locked = Locked { world, notes };
    let mut device = LaneDevice::new(LAST_LANE, true);
    assert!(rt; completed(&mut device, &mut locked, rt.alloc()) == 2);
    Ok(())
}
