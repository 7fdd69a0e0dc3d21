//! The worker that ends commands.

use crate::bits::{bit, next_behind};
use crate::concern::Concern;
use crate::locked::Locked;
use crate::share::Share;
use crate::shared::Shared;
use nv_model::Reply;
use nv_model::limits::TAGS;
use nv_world_model::Event;
use std::alloc::Global;
use std::sync::Wait;
use std::time::Clock;

/// Reaps the completions of a lane, and posts the commands that have ended to their guests, until the workers are to stop. Where there is no memory
/// for a step, it is tried again.
///
/// This waits for the world's lock. It returns how many events it put into the log.
pub fn reaper<R: Wait + Clock>(rt: &R, alloc: Global, shared: &Shared, lane: u8) -> Share {
    let mut reaper = LaneReaper::new(lane);
    let bell = shared.bells.reaper(lane);
    for _ in rt.forever() {
        let rings = bell.rings();
        if shared.is_stopped() {
            break;
        }
        let concern = reaper.turn(&mut shared.lock(rt), alloc);
        match concern {
            Some(concern) => shared.bells.ring(concern),
            None => reaper.thorough = !bell.wait(rt, rings),
        }
    }
    reaper.share
}

// A lane's reaper.
#[derive(Debug, Drop)]
pub(crate) struct LaneReaper {
    pub(crate) lane: u8,
    // the tag whose command was posted last
    pub(crate) tag: u8,
    // whether all tags are checked, and not only those by which commands go, and these only where some have ended, as far as is noted
    pub(crate) thorough: bool,
    share: Share,
}

impl LaneReaper {
    pub(crate) fn new(lane: u8) -> Self {
        LaneReaper {
            lane,
            tag: 0,
            thorough: true,
            share: Share::new(),
        }
    }

    // What is done under the lock, one event at most: whom it concerns, or `None` where there was none.
    pub(crate) fn turn(&mut self, locked: &mut Locked, alloc: Global) -> Option<Concern> {
        let reap = Event::Reap(self.lane);
        if locked.world.due(&reap) {
            return self.reap(locked, alloc, reap);
        }
        let tag = self.ended(locked)?;
        self.tag = tag;
        self.post(locked, alloc, tag)
    }

    // Reaps a completion: one part of a command has ended.
    fn reap(&mut self, locked: &mut Locked, alloc: Global, reap: Event) -> Option<Concern> {
        if !is_done(self.share.step(&mut locked.world, alloc, reap)) {
            return None;
        }
        locked.notes.end(self.lane, 1);
        Some(Concern::nobody())
    }

    // Posts the command that goes by a tag. After it, a deletion that waited for it may be finished; and what it wrote may be in an entry that
    // waits.
    fn post(&mut self, locked: &mut Locked, alloc: Global, tag: u8) -> Option<Concern> {
        let post = Event::Post(self.lane, tag);
        if !is_done(self.share.step(&mut locked.world, alloc, post)) {
            return None;
        }
        let mut concern = locked.notes.post(self.lane, tag);
        if let Some(guest) = locked.notes.owner(self.lane, tag) {
            concern.planners |= locked.with_admin(guest) | locked.with_other_front(guest);
        }
        Some(concern)
    }

    // The next tag, after the last one, whose command may be completed.
    fn ended(&self, locked: &Locked) -> Option<u8> {
        let mut left = if self.thorough {
            u64::MAX
        } else if locked.notes.has_ended(self.lane) {
            locked.notes.leaders(self.lane)
        } else {
            return None;
        };
        let mut tag = self.tag;
        for _ in 0..TAGS {
            tag = next_behind(left, tag)?;
            if locked.world.due(&Event::Post(self.lane, tag)) {
                return Some(tag);
            }
            left &= !bit(tag);
        }
        None
    }
}

// Whether an event that was due was done, and there was memory for it.
fn is_done(reply: Reply) -> bool {
    matches!(reply, Reply::Done)
}
