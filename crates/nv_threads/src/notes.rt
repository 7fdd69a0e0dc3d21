//! What is noted of the tags of lanes beside the world.

use crate::bits::bit;
use crate::concern::Concern;
use crate::locked::Errand;
use nv_core::Holder;
use nv_model::limits::{MOST_GUESTS, MOST_LANES, TAG_COUNT, TAGS};
use nv_world::World;
use nv_world_model::Event;
use std::{array, mem};

/// How many lanes there are at most.
pub(crate) const LANES: usize = MOST_LANES as usize;

/// How many guests there are at most.
pub(crate) const GUESTS: usize = MOST_GUESTS as usize;

/// What is noted of each lane: where workers check first, and so hold the lock for less time. Only the world says what is due.
#[derive(Clone, Copy, Debug)]
pub(crate) struct Notes {
    lanes: [LaneNotes; LANES],
    // for each guest, the I/O queues whose doorbells it has rung: no other has entries that wait
    queues: [u64; GUESTS],
    // how many extents the namespace has that has most: no command takes more tags
    most: u8,
    // how many tags of a lane a guest may have while one more command is taken for it there
    spare: u8,
}

impl Notes {
    /// What there is to be noted of a world as it is. Its log is gone through once.
    pub(crate) fn of(world: &World) -> Self {
        let mut notes = Notes {
            lanes: [LaneNotes::new(); LANES],
            queues: [0; GUESTS],
            most: most_extents(world),
            spare: spare_tags(world),
        };
        for lane in 0..LANES as u8 {
            notes.look_at(world, lane);
        }
        for logged in world.log() {
            notes.follow(&logged.event);
        }
        notes
    }

    // Goes along with an event, but for what it does to tags.
    fn follow(&mut self, event: &Event) {
        match event {
            Event::DevTake(lane) => self.serve(*lane),
            Event::Guest(guest, act) => {
                if let Errand::Entries(queue) = Errand::of(act) {
                    self.ring_for(*guest, queue);
                }
            }
            _ => {}
        }
    }

    /// A guest rang for entries of the queue of that number, which counts modulo 64.
    pub(crate) fn ring_for(&mut self, guest: u8, queue: u8) {
        if let Some(queues) = self.queues.get_mut(usize::from(guest)) {
            *queues |= bit(queue);
        }
    }

    /// The queues of a guest that may have entries, as a set: those whose doorbells it has rung.
    pub(crate) fn queues(&self, guest: u8) -> u64 {
        match self.queues.get(usize::from(guest)) {
            Some(queues) => *queues,
            None => 0,
        }
    }

    // Notes which tags of a lane are not free.
    fn look_at(&mut self, world: &World, lane: u8) {
        if let Some(notes) = self.lanes.get_mut(usize::from(lane)) {
            notes.look_at(world, lane);
        }
    }

    // The physical controller took, or tried to take, a command on a lane.
    fn serve(&mut self, lane: u8) {
        if let Some(notes) = self.lanes.get_mut(usize::from(lane)) {
            notes.served = true;
        }
    }

    /// The lanes on which the physical controller took commands in the log of the world that these notes are of.
    pub(crate) fn served(&self) -> [bool; LANES] {
        array::from_fn(|lane| self.lanes.get(lane).is_some_and(|notes| notes.served))
    }

    /// The tags of a lane that are not free.
    pub(crate) fn used(&self, lane: u8) -> u64 {
        match self.lanes.get(usize::from(lane)) {
            Some(notes) => notes.used,
            None => 0,
        }
    }

    /// The tags of a lane by which commands go.
    pub(crate) fn leaders(&self, lane: u8) -> u64 {
        match self.lanes.get(usize::from(lane)) {
            Some(notes) => notes.leaders,
            None => 0,
        }
    }

    /// How many tags of a lane a guest may have while one more command is taken for it there.
    pub(crate) fn spare(&self) -> u8 {
        self.spare
    }

    /// Guests may have all tags of a lane.
    #[cfg(test)]
    pub(crate) fn without_shares(self) -> Self {
        Notes {
            spare: TAGS,
            ..self
        }
    }

    /// The guests, as a set, of which a command was held back on a lane.
    #[cfg(test)]
    pub(crate) fn held_back(&self, lane: u8) -> u64 {
        match self.lanes.get(usize::from(lane)) {
            Some(notes) => notes.held_back,
            None => 0,
        }
    }

    /// A command of a guest may be taken on a lane, and is not, since the guest's share has no room.
    pub(crate) fn hold_back(&mut self, lane: u8, guest: u8) {
        if let Some(notes) = self.lanes.get_mut(usize::from(lane)) {
            notes.held_back |= bit(guest);
        }
    }

    /// Whose command goes by a tag, or went by it last.
    pub(crate) fn owner(&self, lane: u8, leader: u8) -> Option<u8> {
        let notes = self.lanes.get(usize::from(lane))?;
        notes.owners.get(usize::from(leader)).copied()
    }

    /// How many tags the command has that goes by this one.
    pub(crate) fn size(&self, lane: u8, leader: u8) -> u64 {
        match self.lanes.get(usize::from(lane)) {
            Some(notes) => size_with(notes.behind(leader)),
            None => 0,
        }
    }

    /// A guest's command was taken: the tag that it goes by, the lowest that was free. It got the next ones, too, as far as the world says.
    pub(crate) fn take(&mut self, world: &World, lane: u8, guest: u8) -> Option<u8> {
        let notes = self.lanes.get_mut(usize::from(lane))?;
        let leader = notes.take(guest)?;
        for _ in 1..self.most {
            if !notes.join(world, lane, leader) {
                break;
            }
        }
        Some(leader)
    }

    /// So many tags' parts of commands of a lane have ended.
    pub(crate) fn end(&mut self, lane: u8, parts: u64) {
        if let Some(notes) = self.lanes.get_mut(usize::from(lane)) {
            notes.ended = notes.ended.saturating_add(parts);
        }
    }

    /// The command that goes by a tag was posted: whom that concerns.
    pub(crate) fn post(&mut self, lane: u8, leader: u8) -> Concern {
        let most = self.most;
        match self.lanes.get_mut(usize::from(lane)) {
            Some(notes) => notes.post(leader, most),
            None => Concern::nobody(),
        }
    }

    /// Whether a lane has tags free, and yet fewer than some command takes. Whether a command is taken there hangs on the entry in front of its queue.
    pub(crate) fn are_short(&self) -> bool {
        if self.most <= 1 {
            return false;
        }
        for notes in &self.lanes {
            if notes.is_short(self.most) {
                return true;
            }
        }
        false
    }

    /// Whether a lane has parts of commands that have ended, as far as is noted, and are not posted.
    pub(crate) fn has_ended(&self, lane: u8) -> bool {
        match self.lanes.get(usize::from(lane)) {
            Some(notes) => notes.ended != 0,
            None => false,
        }
    }

    /// The lanes with parts of commands that have ended, as far as is noted, and are not posted.
    pub(crate) fn with_ended(&self) -> u64 {
        let mut lanes = 0;
        for (lane, notes) in self.lanes.iter().enumerate() {
            if notes.ended != 0 {
                lanes |= bit(lane as u8);
            }
        }
        lanes
    }
}

// How many extents the namespace has that has most.
fn most_extents(world: &World) -> u8 {
    let mut most = 1;
    for guest in 0..GUESTS as u8 {
        if let Some(ns) = world.range(guest) {
            most = most.max(ns.len() as u8);
        }
    }
    most
}

// Of a lane's tags those that are left where each guest has one for each of its extents, divided among the guests. None, where these alone are more than
// there are: then a guest has one command at a time.
fn spare_tags(world: &World) -> u8 {
    let mut left = TAGS;
    let mut guests: u8 = 0;
    for guest in 0..MOST_GUESTS {
        if let Some(ns) = world.range(guest) {
            left = left.saturating_sub(ns.len() as u8);
            guests = guests.saturating_add(1);
        }
    }
    left / guests.max(1)
}

// How many tags a command has that has these after the one that it goes by.
fn size_with(behind: u64) -> u64 {
    if behind == 0 {
        1
    } else {
        1 + u64::from(behind.count_ones())
    }
}

// What is noted of a lane.
#[derive(Clone, Copy, Debug)]
struct LaneNotes {
    // the tags that are not free
    used: u64,
    // those of them by which commands go
    leaders: u64,
    // of how many tags the parts have ended that are not posted; more, where some were under way before the world was shared
    ended: u64,
    // whose command goes by each tag, or went by it last
    owners: [u8; TAG_COUNT],
    // of the command that goes by each tag, the further tags; none where no command takes several
    groups: [u64; TAG_COUNT],
    // the guests of which a command might be taken, and is not, since their share has no room
    held_back: u64,
    // whether the physical controller took commands before the world was shared
    served: bool,
}

impl LaneNotes {
    // All tags are free.
    fn new() -> Self {
        LaneNotes {
            used: 0,
            leaders: 0,
            ended: 0,
            owners: [0; TAG_COUNT],
            groups: [0; TAG_COUNT],
            held_back: 0,
            served: false,
        }
    }

    // Notes which tags are not free, and whose they are. Parts of all of them may have ended.
    fn look_at(&mut self, world: &World, lane: u8) {
        for tag in 0..TAGS {
            if let Some(holder) = world.holder(lane, tag) {
                self.hold(tag, holder);
            }
        }
        self.ended = u64::from(self.used.count_ones());
    }

    // A tag is not free.
    fn hold(&mut self, tag: u8, holder: Holder) {
        if tag == holder.leader {
            let _noted = self.lead(tag, holder.guest);
        } else {
            let _noted = self.follow(tag, holder.leader);
        }
    }

    // A guest's command goes by this tag.
    fn lead(&mut self, tag: u8, guest: u8) -> Option<()> {
        *self.owners.get_mut(usize::from(tag))? = guest;
        self.used |= bit(tag);
        self.leaders |= bit(tag);
        Some(())
    }

    // A tag is one of the command that goes by another.
    fn follow(&mut self, tag: u8, leader: u8) -> Option<()> {
        *self.groups.get_mut(usize::from(leader))? |= bit(tag);
        self.used |= bit(tag);
        Some(())
    }

    // The further tags of the command that goes by this one.
    fn behind(&self, leader: u8) -> u64 {
        match self.groups.get(usize::from(leader)) {
            Some(behind) => *behind,
            None => 0,
        }
    }

    // The lowest free tag is taken.
    fn take(&mut self, guest: u8) -> Option<u8> {
        let tag = self.used.trailing_ones() as u8;
        self.lead(tag, guest)?;
        Some(tag)
    }

    // The lowest free tag is taken, too, where the command that goes by this one has it; whether it has.
    fn join(&mut self, world: &World, lane: u8, leader: u8) -> bool {
        let tag = self.used.trailing_ones() as u8;
        match world.holder(lane, tag) {
            Some(holder) if holder.leader == leader => self.follow(tag, leader).is_some(),
            _ => false,
        }
    }

    // The tags of the command that goes by this one are free again. Its guest may see the completion, and may have a command taken that was held back.
    // Where fewer tags were free than some command takes, any planner may take one now.
    fn post(&mut self, leader: u8, most: u8) -> Concern {
        let were_few = self.has_fewer(most);
        let behind = match self.groups.get_mut(usize::from(leader)) {
            Some(behind) if most > 1 => mem::take(behind),
            _ => 0,
        };
        self.used &= !(bit(leader) | behind);
        self.leaders &= !bit(leader);
        self.ended = self.ended.saturating_sub(size_with(behind));
        let mut concern = match self.owners.get(usize::from(leader)).copied() {
            Some(owner) => Concern {
                planners: self.let_go(owner),
                ..Concern::guest(owner)
            },
            None => Concern::nobody(),
        };
        if were_few {
            concern.planners = u64::MAX;
        }
        concern
    }

    // The guest, as a set, where a command of it was held back. It is tried again.
    fn let_go(&mut self, guest: u8) -> u64 {
        let held_back = self.held_back & bit(guest);
        self.held_back &= !held_back;
        held_back
    }

    // Whether fewer tags are free than so many.
    fn has_fewer(&self, most: u8) -> bool {
        self.used == u64::MAX || self.is_short(most)
    }

    // Whether tags are free, and fewer than so many.
    fn is_short(&self, most: u8) -> bool {
        self.used != u64::MAX && self.used.count_zeros() < u32::from(most)
    }
}
