//! The worker that takes and plans a guest's commands.

use crate::bits::bit;
use crate::concern::Concern;
use crate::gate::Gate;
use crate::given::GrantCopy;
use crate::locked::Locked;
use crate::maker::{PlanMaker, Prepared};
use crate::share::Share;
use crate::shared::Shared;
use crate::tasks::{Task, Turn};
use linked_list_allocator::LocalHeap;
use nv_mem::NoMemory;
use nv_model::Reply;
use nv_model::limits::{LAST_QUEUE, TAGS};
use nv_plan::{Job, Plan, PlanKind, ReadDone};
use nv_world::World;
use nv_world_model::Event;
use std::alloc::Global;
use std::sync::Wait;
use std::time::Clock;

/// Takes and plans the commands of a guest on a lane, until the workers are to stop: its admin commands, and those of its I/O queues. A command is taken
/// only where the guest's share of the lane's tags has room for it: a guest has one tag for each of its extents, and of the tags that are left the same number
/// as each other guest. Where a plan wants bytes that were not read, they are read. Where there is no memory for a plan, the command is given up. What is wanted next is found by a
/// plan that is fed, read by read, so that each read costs the same however many were made before. Plans are made by the gate. Both happen outside
/// the lock, in a heap of `heap_bytes` bytes, and the gate has all of it. Where there is no memory for the heap itself, every command is given up.
/// Where there is no memory for a job, for the copy of the guest's map or for a step, it is tried again. A guest that isn't there has nothing to be
/// planned.
///
/// This waits for the world's lock, and for the gate. It returns how many events it put into the log.
pub fn planner<G: Gate, R: Wait + Clock>(
    rt: &R,
    alloc: Global,
    shared: &Shared,
    guest: u8,
    lane: u8,
    gate: &G,
    heap_bytes: u64,
) -> Share {
    let mut planner = GuestPlanner::new(guest, lane);
    let Some(given) = given(rt, alloc, shared, guest) else {
        return planner.share;
    };
    let heap = LocalHeap::new(alloc, heap_bytes as usize).ok();
    let mut maker = maker_in(gate, &heap, alloc, &given);
    let bell = shared.bells.planner(guest);
    for _ in rt.forever() {
        let rings = bell.rings();
        if shared.is_stopped() {
            break;
        }
        let turn = planner.turn(&mut shared.lock(rt), alloc);
        let told = match turn {
            Turn::Job(job) => {
                let prepared = match &mut maker {
                    Some(maker) => maker.plan(rt, job),
                    None => Prepared::NoMemory(job.tag),
                };
                planner.go_on(rt, shared, prepared)
            }
            Turn::Read(tag, read) => {
                let prepared = match &mut maker {
                    Some(maker) => maker.feed(rt, tag, read),
                    None => Prepared::NoMemory(tag),
                };
                planner.go_on(rt, shared, prepared)
            }
            Turn::Done(concern) => Some(concern),
            Turn::Nothing => None,
        };
        match told {
            Some(concern) => shared.bells.ring(concern),
            None => {
                let _rung = bell.wait(rt, rings);
            }
        }
    }
    planner.share
}

// What the guest was given. It is tried again until there is memory for it; `None` where there is no such guest, or the workers are
// to stop.
fn given<R: Wait + Clock>(rt: &R, alloc: Global, shared: &Shared, guest: u8) -> Option<GrantCopy> {
    let bell = shared.bells.planner(guest);
    for _ in rt.forever() {
        let rings = bell.rings();
        if shared.is_stopped() {
            return None;
        }
        match GrantCopy::of(rt, alloc, shared, guest) {
            Ok(given) => return given,
            Err(NoMemory) => {
                let _rung = bell.wait(rt, rings);
            }
        }
    }
    unreachable!()
}

// What makes the plans; without a heap there is nothing.
fn maker_in<'a, G: Gate>(
    gate: &'a G,
    heap: &'a Option<LocalHeap>,
    alloc: Global,
    given: &'a GrantCopy,
) -> Option<PlanMaker<'a, G, &'a LocalHeap>> {
    match heap {
        Some(heap) => Some(PlanMaker::new(gate, heap, alloc, given)),
        None => None,
    }
}

// A guest's planner on a lane.
#[derive(Debug, Drop)]
pub(crate) struct GuestPlanner {
    pub(crate) guest: u8,
    pub(crate) lane: u8,
    // the queue that a command was taken of last, 0 where there was none
    pub(crate) queue: u16,
    // the tag that a command was found at last
    pub(crate) tag: u8,
    // whether commands may be left that were taken before it came: then its own are searched for as if among these
    thorough: bool,
    pub(crate) task: Task,
    share: Share,
}

impl GuestPlanner {
    // One that has put nothing into the log. Commands that were taken before it came are found first.
    pub(crate) fn new(guest: u8, lane: u8) -> Self {
        GuestPlanner {
            guest,
            lane,
            queue: 0,
            tag: 0,
            thorough: true,
            task: Task::Search(0),
            share: Share::new(),
        }
    }

    // What is done under the lock: one event, or a check of one job.
    pub(crate) fn turn(&mut self, locked: &mut Locked, alloc: Global) -> Turn {
        match self.task {
            Task::Search(looked) => self.search(&locked.world, alloc, looked),
            Task::TakeUp => self.take_up(locked, alloc),
            Task::Plan(tag) => self.plan(&locked.world, alloc, tag),
            Task::Read(tag, addr, len) => self.read(&mut locked.world, alloc, tag, addr, len),
            Task::GiveUp(tag) => self.give_up(locked, alloc, tag),
        }
    }

    // Goes on with what came of a job: whom that concerns. `None` where there was no memory to hand a plan over.
    fn go_on<R: Wait>(&mut self, rt: &R, shared: &Shared, prepared: Prepared) -> Option<Concern> {
        self.task = match prepared {
            Prepared::Wanted(tag, addr, len) => Task::Read(tag, addr, len),
            Prepared::NoMemory(tag) => Task::GiveUp(tag),
            Prepared::Again(tag) => Task::Plan(tag),
            Prepared::Plan(plan) => return self.submit(&mut shared.lock(rt), plan),
        };
        Some(Concern::nobody())
    }

    // Hands a plan over, and returns whom it concerns. Where the plan is stale, its job is examined again. Where there was no memory, the job is
    // examined again, too, and this is `None`.
    pub(crate) fn submit(&mut self, locked: &mut Locked, plan: Plan) -> Option<Concern> {
        let tag = plan.job().tag;
        let is_answer = matches!(plan.kind(), PlanKind::Answer(_));
        let idle = idle_parts(&plan);
        let reply = self.share.submit(&mut locked.world, plan);
        self.task = match reply {
            Reply::Done => Task::TakeUp,
            _ => Task::Plan(tag),
        };
        match reply {
            Reply::Done if is_answer => Some(self.ended(locked, tag)),
            Reply::Done => Some(self.handed_on(locked, idle)),
            Reply::NoMemory => None,
            _ => Some(Concern::nobody()),
        }
    }

    // Whom it concerns that the command of a tag has ended without a physical one.
    fn ended(&self, locked: &mut Locked, tag: u8) -> Concern {
        let parts = locked.notes.size(self.lane, tag);
        locked.notes.end(self.lane, parts);
        Concern::reaper(self.lane)
    }

    // Whom it concerns that a command was handed on, of which so many parts are no physical commands and have ended.
    fn handed_on(&self, locked: &mut Locked, idle: u64) -> Concern {
        if idle != 0 {
            locked.notes.end(self.lane, idle);
        }
        Concern::device(self.lane)
    }

    // Checks a tag for another command that was taken. The tags checked are those from the last tag on that had a command of the guest's, that tag
    // itself first. A tag that another planner's command has costs a copy of what was read for it.
    fn search(&mut self, world: &World, alloc: Global, looked: u8) -> Turn {
        let tag = self.tag.wrapping_add(looked) % TAGS;
        match self.own_job(world, alloc, tag) {
            Ok(Some(job)) => {
                self.tag = tag;
                self.task = Task::Plan(tag);
                Turn::Job(job)
            }
            Ok(None) => {
                self.go_behind(looked);
                Turn::Done(Concern::nobody())
            }
            Err(NoMemory) => Turn::Nothing,
        }
    }

    // What is done after a check of a tag that had nothing, where this many were checked before it. Where no tag has a command of the guest's that
    // was taken, only this planner's own will have to be found.
    fn go_behind(&mut self, looked: u8) {
        let looked = looked.saturating_add(1);
        if looked < TAGS {
            self.task = Task::Search(looked);
        } else {
            self.thorough = false;
            self.task = Task::TakeUp;
        }
    }

    // The job of a tag, where it is one of the guest's.
    fn own_job(&self, world: &World, alloc: Global, tag: u8) -> Result<Option<Job>, NoMemory> {
        let job = world.job(alloc, self.lane, tag)?;
        Ok(job.filter(|job| job.guest == self.guest))
    }

    // Takes up an admin command, or takes a command of the next queue, after the last, that has one. Queues whose doorbells the guest has not rung
    // have none. A command is held back where the guest's share of the lane has no room for it.
    fn take_up(&mut self, locked: &mut Locked, alloc: Global) -> Turn {
        let admin = Event::Admin(self.guest);
        if locked.world.due(&admin) {
            return self.answer(locked, alloc, admin);
        }
        let queues = locked.notes.queues(self.guest);
        for step in 0..LAST_QUEUE {
            let queue = self.queue.wrapping_add(step) % LAST_QUEUE + 1;
            if queues & bit(queue as u8) == 0 {
                continue;
            }
            let take = Event::Take(self.guest, queue, self.lane);
            if locked.world.due(&take) {
                if !locked.has_share(self.guest, self.lane) {
                    locked.notes.hold_back(self.lane, self.guest);
                    break;
                }
                self.queue = queue;
                return self.take(locked, alloc, take);
            }
        }
        self.search_again()
    }

    // What is done where there is nothing to be taken up. Several commands may have been taken before the planner came, and a search ends with the
    // first of them. So the next is searched for now, until there is none.
    fn search_again(&mut self) -> Turn {
        if !self.thorough {
            return Turn::Nothing;
        }
        self.task = Task::Search(0);
        Turn::Done(Concern::nobody())
    }

    // Takes up an admin command, whose completion is the guest's to see. What it wrote may lie in an entry that waits.
    fn answer(&mut self, locked: &mut Locked, alloc: Global, admin: Event) -> Turn {
        match self.share.step(&mut locked.world, alloc, admin) {
            Reply::NoMemory => Turn::Nothing,
            _ => Turn::Done(Concern {
                planners: locked.with_other_front(self.guest),
                ..Concern::guest(self.guest)
            }),
        }
    }

    // Takes a command. The tag that it goes by has to be searched for: first where it should be, where there is no other. The entry after the
    // command is at the front now, and may need fewer tags than the command did: it may be one for the guest's planner on another lane.
    fn take(&mut self, locked: &mut Locked, alloc: Global, take: Event) -> Turn {
        match self.share.step(&mut locked.world, alloc, take) {
            Reply::Done => {
                let noted = locked.notes.take(&locked.world, self.lane, self.guest);
                if !self.thorough {
                    self.tag = noted.unwrap_or(self.tag);
                }
                self.task = Task::Search(0);
                Turn::Done(Concern::planners(locked.with_other_front(self.guest)))
            }
            _ => Turn::Nothing,
        }
    }

    // The job of a tag as it is. Where the command was dropped, another is to be taken up.
    fn plan(&mut self, world: &World, alloc: Global, tag: u8) -> Turn {
        match self.own_job(world, alloc, tag) {
            Ok(Some(job)) => Turn::Job(job),
            Ok(None) => {
                self.task = Task::TakeUp;
                Turn::Done(Concern::nobody())
            }
            Err(NoMemory) => Turn::Nothing,
        }
    }

    // Reads bytes for the command of a tag, whose plan is to be fed with them. Where the tag has no command of the guest's any more, there is
    // another to be taken up. Where nothing was read, or nobody feeds a plan with what was, the job is taken from the world again.
    fn read(&mut self, world: &mut World, alloc: Global, tag: u8, addr: u64, len: u64) -> Turn {
        if !self.holds(world, tag) {
            self.task = Task::TakeUp;
            return Turn::Done(Concern::nobody());
        }
        let list = Event::List(self.lane, tag, addr, len);
        match self.share.step(world, alloc, list) {
            Reply::NoMemory => Turn::Nothing,
            Reply::Bytes(bytes) => {
                self.task = Task::Plan(tag);
                Turn::Read(tag, ReadDone::new(addr, bytes))
            }
            _ => {
                self.task = Task::Plan(tag);
                Turn::Done(Concern::nobody())
            }
        }
    }

    // Whether a tag has a command of the guest's.
    fn holds(&self, world: &World, tag: u8) -> bool {
        match world.holder(self.lane, tag) {
            Some(holder) => holder.guest == self.guest,
            None => false,
        }
    }

    // Gives up the command that goes by a tag. Where it was dropped, there is another to be taken up, too.
    fn give_up(&mut self, locked: &mut Locked, alloc: Global, tag: u8) -> Turn {
        let give_up = Event::GiveUp(self.lane, tag);
        let reply = self.share.step(&mut locked.world, alloc, give_up);
        if let Reply::NoMemory = &reply {
            return Turn::Nothing;
        }
        self.task = Task::TakeUp;
        match reply {
            Reply::Done => Turn::Done(self.ended(locked, tag)),
            _ => Turn::Done(Concern::nobody()),
        }
    }
}

// How many parts of a plan are no physical commands: those of a Dataset Management in an extent that none of its ranges meets. They have
// ended once the command is handed on.
fn idle_parts(plan: &Plan) -> u64 {
    let parts = plan.parts();
    if parts <= 1 || !matches!(plan.kind(), PlanKind::Bounced) {
        return 0;
    }
    let mut idle: u64 = 0;
    for part in 0..parts {
        if plan.part_len(part) == 0 {
            idle = idle.saturating_add(1);
        }
    }
    idle
}
