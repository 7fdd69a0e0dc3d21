//! What is counted beside the notes of a simulation.

use crate::bits::bit;
use crate::locked::Locked;
use crate::notes::Notes;
use crate::simulated_worlds::LANES;
use nv_model::Reply;
use nv_model::limits::TAGS;
use nv_plan::{Plan, PlanKind};
use nv_world::World;
use nv_world_model::{Event, Logged};
use std::process::Abort;

/// Of how many tags of each lane the parts have ended that are not posted.
#[derive(Drop)]
pub(crate) struct Ended {
    lanes: [u64; LANES as usize],
    // how many parts end where the last plan is handed on; `None` where it answers its command
    by_plan: Option<u64>,
}

impl Ended {
    /// None.
    pub(crate) fn new() -> Self {
        Ended {
            lanes: [0; LANES as usize],
            by_plan: None,
        }
    }

    /// Workers come to the world as it is: parts of all tags that are taken may have ended.
    pub(crate) fn share(&mut self, notes: &Notes) {
        for lane in 0..LANES {
            if let Some(ended) = self.lanes.get_mut(usize::from(lane)) {
                *ended = u64::from(notes.used(lane).count_ones());
            }
        }
    }

    /// This plan will be handed on.
    pub(crate) fn see(&mut self, plan: &Plan) {
        self.by_plan = match plan.kind() {
            PlanKind::Answer(_) => None,
            _ => Some(idle_parts(plan)),
        };
    }

    /// Goes along with an event of a worker, where there was one. The notes say how many tags its command has.
    pub(crate) fn follow(&mut self, notes: &Notes, logged: Option<&Logged>) {
        let Some(logged) = logged else {
            return;
        };
        if !matches!(logged.reply, Reply::Done) {
            return;
        }
        match &logged.event {
            Event::Reap(lane) => self.add(*lane, 1),
            Event::GiveUp(lane, tag) => self.add(*lane, notes.size(*lane, *tag)),
            Event::Submit(lane, tag) => {
                let parts = self.by_plan.unwrap_or(notes.size(*lane, *tag));
                self.add(*lane, parts);
            }
            Event::Post(lane, tag) => self.take(*lane, notes.size(*lane, *tag)),
            _ => {}
        }
    }

    // So many have ended.
    fn add(&mut self, lane: u8, parts: u64) {
        if let Some(ended) = self.lanes.get_mut(usize::from(lane)) {
            *ended = ended.saturating_add(parts);
        }
    }

    // So many are posted.
    fn take(&mut self, lane: u8, parts: u64) {
        if let Some(ended) = self.lanes.get_mut(usize::from(lane)) {
            *ended = ended.saturating_sub(parts);
        }
    }

    /// Whether it is noted on which lanes parts have ended.
    pub(crate) fn is_noted(&self, notes: &Notes) -> bool {
        let mut with_ended = 0;
        for lane in 0..LANES {
            with_ended |= self.is_left(lane);
        }
        notes.with_ended() == with_ended
    }

    // The lane, as a set, where parts have ended.
    fn is_left(&self, lane: u8) -> u64 {
        match self.lanes.get(usize::from(lane)) {
            Some(ended) if *ended != 0 => bit(lane),
            _ => 0,
        }
    }
}

/// Whether it is noted of each command how many tags it has.
pub(crate) fn are_sizes_noted(locked: &Locked) -> bool {
    for lane in 0..LANES {
        if !is_size_noted(locked, lane) {
            return false;
        }
    }
    true
}

// Whether it is noted of each command of a lane how many tags it has.
fn is_size_noted(locked: &Locked, lane: u8) -> bool {
    let leaders = locked.notes.leaders(lane);
    for tag in 0..TAGS {
        if leaders & bit(tag) != 0
            && locked.notes.size(lane, tag) != tags_of(&locked.world, lane, tag)
        {
            return false;
        }
    }
    true
}

// How many tags the command has that goes by this one.
fn tags_of(world: &World, lane: u8, leader: u8) -> u64 {
    let mut tags: u64 = 0;
    for tag in 0..TAGS {
        tags = tags.saturating_add(u64::from(is_of(world, lane, tag, leader)));
    }
    tags
}

// Whether a tag is one of the command that goes by another.
fn is_of(world: &World, lane: u8, tag: u8, leader: u8) -> bool {
    match world.holder(lane, tag) {
        Some(holder) => holder.leader == leader,
        None => false,
    }
}

// How many parts of a plan are no physical commands, since they manage no range.
fn idle_parts(plan: &Plan) -> u64 {
    let mut idle: u64 = 0;
    if matches!(plan.kind(), PlanKind::Bounced) {
        for part in 0..plan.parts() {
            idle = idle.saturating_add(u64::from(plan.part_len(part) == 0));
        }
    }
    idle
}

/// What simulations met with.
#[derive(Clone, Copy)]
pub(crate) struct Met {
    /// how often a lane had no free tag, and how often some but fewer than a command may take
    pub(crate) full: u64,
    pub(crate) short: u64,
    /// how often a worker that waited was notified
    pub(crate) woken: u64,
    /// how many plans had several parts, and how many had one that is no physical command
    pub(crate) parted: u64,
    pub(crate) idle: u64,
    /// how many commands were taken where a lane was short of tags, so that its guest's other planners were notified
    pub(crate) passed: u64,
    /// how often a guest disabled its controller
    pub(crate) resets: u64,
    /// how many reads plans were fed with
    pub(crate) fed: u64,
    /// how often a planner found nothing while a command of its guest was held back, since the guest's share had no room
    pub(crate) held_back: u64,
}

impl Met {
    /// Nothing yet.
    pub(crate) fn new() -> Self {
        Met {
            full: 0,
            short: 0,
            woken: 0,
            parted: 0,
            idle: 0,
            passed: 0,
            resets: 0,
            fed: 0,
            held_back: 0,
        }
    }

    /// A planner of a guest on a lane found nothing.
    pub(crate) fn hold_back(&mut self, notes: &Notes, guest: u8, lane: u8) {
        let is_held_back = notes.held_back(lane) & bit(guest) != 0;
        self.held_back = self.held_back.saturating_add(u64::from(is_held_back));
    }

    /// A plan was made.
    pub(crate) fn see(&mut self, plan: &Plan) {
        self.parted = self.parted.saturating_add(u64::from(plan.parts() > 1));
        self.idle = self.idle.saturating_add(u64::from(idle_parts(plan) != 0));
    }

    /// Lanes were full and short of tags, commands took several tags, parts of some ended where they were handed on, commands were taken where a
    /// lane was short of tags, commands were held back, and controllers were reset.
    pub(crate) fn expect_all(&self, rt: &impl Abort) {
        assert!(rt; self.full > 0 && self.short > 0 && self.passed > 0, "tags");
        assert!(rt; self.parted > 100 && self.idle > 0, "parts");
        assert!(rt; self.resets > 0 && self.held_back > 0, "resets and shares");
    }
}
