//! The worker that is the physical controller on a lane.

ghost use Rattle.std.specs.Prelude.{◌<◌};
ghost use Rattle.nv_world_model.specs.Area.{tag_count};

use crate::bits::{bit, next_behind};
use crate::concern::Concern;
use crate::locked::Locked;
use crate::share::Share;
use crate::shared::Shared;
use nv_model::Reply;
use nv_model::limits::{TAG_COUNT, TAGS};
use nv_world::World;
use nv_world_model::Event;
use std::alloc::Global;
use std::sync::Wait;
use std::time::Clock;

/// How many units a command has at most: a block each.
const UNITS: u64 = 65_536;

/// Takes the physical commands of a lane, moves their units in order and completes them, until the workers are to stop. Where there is no memory
/// for a step, it is tried again. Commands that were in the lane before, some of whose units may have moved, go on, too.
///
/// This waits for the world's lock. It returns how many events it put into the log.
pub fn device_loop<R: Wait + Clock>(rt: &R, alloc: Global, shared: &Shared, lane: u8) -> Share {
    let mut device = LaneDevice::new(lane, shared.was_used(lane));
    let bell = shared.bells.device(lane);
    for _ in rt.forever() {
        let rings = bell.rings();
        if shared.is_stopped() {
            break;
        }
        let concern = device.turn(&mut shared.lock(rt), alloc);
        match concern {
            Some(concern) => shared.bells.ring(concern),
            None => {
                if !bell.wait(rt, rings) {
                    device.look_everywhere();
                }
            }
        }
    }
    device.share
}

// The physical controller on a lane.
#[derive(Debug, Drop)]
pub(crate) struct LaneDevice {
    pub(crate) lane: u8,
    // the slot that was checked last
    pub(crate) slot: u8,
    // whether some slot may hold a command
    held: bool,
    // whether all slots are checked next, and not only those whose tags are noted as taken
    thorough: bool,
    // the next unit of each slot's command
    pub(crate) units: [u64; TAG_COUNT],
    // of commands that were there before the worker came, no unit below this one is left
    pub(crate) earlier: u64,
    share: Share,
    ghost in_range: { slot < tag_count },
}

impl LaneDevice {
    pub(crate) fn new(lane: u8, was_used: bool) -> Self {
        LaneDevice {
            lane,
            slot: 0,
            held: true,
            thorough: true,
            units: [0; TAG_COUNT],
            earlier: if was_used { 0 } else { UNITS },
            share: Share::new(),
        }
    }

    // What is done under the lock, one event at most: whom it concerns, or `None` where nothing was done. The command of the last slot
    // goes on; else the next entry is taken; else another slot's command goes on.
    pub(crate) fn turn(&mut self, locked: &mut Locked, alloc: Global) -> Option<Concern> {
        if self.held {
            if let Some(event) = self.due(&locked.world, self.slot) {
                return self.carry_out(&mut locked.world, alloc, event);
            }
        }
        let take = Event::DevTake(self.lane);
        if locked.world.due(&take) {
            self.held = true;
            return done(
                self.share.step(&mut locked.world, alloc, take),
                Concern::nobody(),
            );
        }
        if self.held {
            let concern = self.turn_to_another(locked, alloc);
            if self.held {
                return concern;
            }
        }
        self.look_further()
    }

    // No notification came for a while: all slots are checked once more.
    pub(crate) fn look_everywhere(&mut self) {
        self.held = true;
        self.thorough = true;
    }

    // The units of earlier commands that had moved are passed by, one number a turn.
    fn look_further(&mut self) -> Option<Concern> {
        if self.earlier >= UNITS {
            return None;
        }
        self.earlier = self.earlier.saturating_add(1);
        self.held = true;
        Some(Concern::nobody())
    }

    // The next event of a slot's command, where one is due.
    fn due(&self, world: &World, slot: u8) -> Option<Event>
        requires { slot < tag_count }
    {
        let next = Event::DevMove(self.lane, slot, self.units[usize::from(slot)]);
        if world.due(&next) {
            return Some(next);
        }
        if self.earlier < UNITS {
            let earlier = Event::DevMove(self.lane, slot, self.earlier);
            if world.due(&earlier) {
                return Some(earlier);
            }
        }
        let post = Event::DevPost(self.lane, slot);
        if world.due(&post) {
            return Some(post);
        }
        None
    }

    // Carries out the next event of the last slot's command, and keeps which unit comes next.
    fn carry_out(&mut self, world: &mut World, alloc: Global, event: Event) -> Option<Concern> {
        let (next, concern) = match &event {
            Event::DevMove(_, _, unit) => (unit.wrapping_add(1), Concern::nobody()),
            _ => (0, Concern::reaper(self.lane)),
        };
        let concern = done(self.share.step(world, alloc, event), concern)?;
        self.units[usize::from(self.slot)] = next;
        Some(concern)
    }

    // After the last slot, the next slot whose command has something due goes on. Where there is none, no slot holds a command, as far as is known.
    // A slot has the number of its command's tag, so those of free tags hold none.
    fn turn_to_another(&mut self, locked: &mut Locked, alloc: Global) -> Option<Concern> {
        let mut left = if self.thorough {
            u64::MAX
        } else {
            locked.notes.used(self.lane)
        };
        let mut slot = self.slot;
        for _ in 0..TAGS {
            let Some(next) = next_behind(left, slot) else {
                break;
            };
            slot = next;
            if let Some(event) = self.due(&locked.world, slot) {
                self.slot = slot;
                return self.carry_out(&mut locked.world, alloc, event);
            }
            left &= !bit(slot);
        }
        self.held = false;
        self.thorough = false;
        None
    }
}

// Whom an event concerns that was due, where it was done and there was memory for it.
fn done(reply: Reply, concern: Concern) -> Option<Concern> {
    match reply {
        Reply::Done => Some(concern),
        _ => None,
    }
}
