//! What a worker that makes no event would have to make one for: what the world says is due (`World::due`), polled everywhere and without notes.

use crate::locked::Locked;
use crate::simulated_worlds::taken_by;
use nv_mem::NoMemory;
use nv_model::Reply;
use nv_model::limits::{LAST_QUEUE, TAGS};
use nv_world::World;
use nv_world_model::{Event, Logged};
use std::alloc::Global;

/// At least as many units as any command of the simulations has, and as most have.
pub(crate) const ALL_UNITS: u64 = 64;

pub(crate) const FEW_UNITS: u64 = 8;

/// Whether a guest has nothing for its planner on a lane: no admin command, no command to be taken within its share, and none that was taken and not planned.
pub(crate) fn has_nothing_to_plan(
    locked: &Locked,
    alloc: Global,
    guest: u8,
    lane: u8,
) -> Result<bool, NoMemory> {
    let world = &locked.world;
    if world.due(&Event::Admin(guest)) {
        return Ok(false);
    }
    if has_room(locked, guest, lane) && has_front(world, guest, lane) {
        return Ok(false);
    }
    for tag in 0..TAGS {
        if taken_by(world, alloc, lane, tag)? == Some(guest) {
            return Ok(false);
        }
    }
    Ok(true)
}

// Whether a command of a guest may be taken on a lane.
fn has_front(world: &World, guest: u8, lane: u8) -> bool {
    for queue in 1..=LAST_QUEUE {
        if world.due(&Event::Take(guest, queue, lane)) {
            return true;
        }
    }
    false
}

// Whether a guest has no more tags of a lane than it may have while one more command is taken for it. They are counted one by one.
fn has_room(locked: &Locked, guest: u8, lane: u8) -> bool {
    held(&locked.world, guest, lane) <= u64::from(locked.notes.spare())
}

/// Whether a guest has no more tags of a lane than its share, which has one for each of its extents beside those.
pub(crate) fn is_within_share(locked: &Locked, guest: u8, lane: u8) -> bool {
    let extents = match locked.world.range(guest) {
        Some(ns) => ns.len() as u64,
        None => 0,
    };
    held(&locked.world, guest, lane) <= u64::from(locked.notes.spare()).saturating_add(extents)
}

// How many tags of a lane a guest's commands have.
fn held(world: &World, guest: u8, lane: u8) -> u64 {
    let mut tags: u64 = 0;
    for tag in 0..TAGS {
        if let Some(holder) = world.holder(lane, tag) {
            tags = tags.saturating_add(u64::from(holder.guest == guest));
        }
    }
    tags
}

/// Whether a lane has nothing for its reaper: no completion that waits, and no command to be completed.
pub(crate) fn has_nothing_to_reap(world: &World, lane: u8) -> bool {
    if world.due(&Event::Reap(lane)) {
        return false;
    }
    for tag in 0..TAGS {
        if world.due(&Event::Post(lane, tag)) {
            return false;
        }
    }
    true
}

/// Whether a lane has nothing for its physical controller: no entry that waits, and no command in any slot. So many units of each slot are asked for.
pub(crate) fn has_nothing_to_move(world: &World, lane: u8, units: u64) -> bool {
    if world.due(&Event::DevTake(lane)) {
        return false;
    }
    for slot in 0..TAGS {
        if is_held(world, lane, slot, units) {
            return false;
        }
    }
    true
}

// Whether the physical controller holds a command in a slot: it has a unit to move, or is to be completed. A slot has the number of its command's
// tag, so that of a free tag holds none.
fn is_held(world: &World, lane: u8, slot: u8, units: u64) -> bool {
    if world.holder(lane, slot).is_none() {
        return false;
    }
    for unit in 0..units {
        if world.due(&Event::DevMove(lane, slot, unit)) {
            return true;
        }
    }
    world.due(&Event::DevPost(lane, slot))
}

/// Whether an event that a worker made had something to do.
pub(crate) fn was_due(logged: &Logged) -> bool {
    matches!(
        &logged.reply,
        Reply::Done | Reply::Bytes(_) | Reply::Unmapped | Reply::Stale
    )
}
