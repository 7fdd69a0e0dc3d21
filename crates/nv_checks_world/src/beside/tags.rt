//! Whose the tags of the run of both guests are, and which tag each has in the run of its guest alone.

use crate::beside::bench::{HONEST, spans_of};
use crate::beside::parts::tags_of;
use nv_mem::NoMemory;
use nv_model::Reply;
use nv_model::limits::TAGS;
use nv_world::World;
use nv_world_model::{Event, Logged};
use std::alloc::Global;

/// Where a command is, as far as the events that name no tag ask.
#[derive(Clone, Copy, PartialEq, Eq)]
enum Point {
    /// It is not in the device, nor was it.
    Before,
    InDevice,
    /// Its physical completion was posted, as the one of that number.
    Posted(u64),
    /// Its physical completion was reaped.
    Behind,
}

/// Who has a tag.
#[derive(Clone, Copy, PartialEq, Eq)]
pub struct Holder {
    /// whose command it is
    pub guest: u8,
    /// the lowest tag of the command, by which it goes
    leader: u8,
    /// its tag in the run of that guest alone
    alone: u8,
    point: Point,
}

/// A tag, by its lane and number.
#[derive(Clone, Copy, PartialEq, Eq)]
pub struct Tag {
    pub lane: u8,
    pub number: u8,
}

/// An event of the run of one guest alone.
#[derive(Drop)]
pub struct Own {
    pub guest: u8,
    pub event: Event,
}

impl Own {
    fn new(guest: u8, event: Event) -> Self {
        Own { guest, event }
    }
}

/// A guest that there is not.
const NOBODY: u8 = 255;

/// The holders of a lane's tags.
type Lane = [Option<Holder>; 64];

/// Who has which tag in the run of both guests.
#[derive(Drop)]
pub struct Tags {
    lanes: [Lane; 2],
    posted: u64,
    /// whether something happened that this table did not expect
    pub astray: bool,
    /// how many of the honest guest's commands had another tag than in the run alone
    pub renumbered: u32,
    /// how many commands of other guests were taken
    pub others: u32,
}

impl Tags {
    /// No tag is taken.
    pub fn new() -> Self {
        Tags {
            lanes: [[None; 64]; 2],
            posted: 0,
            astray: false,
            renumbered: 0,
            others: 0,
        }
    }

    /// Whose event it was that was carried out last in the run of both guests, and the event that it is in the run of that guest alone: the same with
    /// the guest's tag renumbered. None where it is nobody's, or there it could not be that one: nobody else takes the lane's tags.
    ///
    /// A command's tags are the lowest that are free when it is taken, in each run. An event that names no tag is that of the command that the
    /// device takes, or whose physical completion is reaped.
    pub fn renumber(
        &mut self,
        alloc: Global,
        world: &World,
        logged: &Logged,
    ) -> Result<Option<Own>, NoMemory> {
        let is_done = matches!(logged.reply, Reply::Done);
        let own = match &logged.event {
            Event::Guest(guest, act) => {
                let act = act.try_clone(alloc)?;
                Some(Own::new(*guest, Event::Guest(*guest, act)))
            }
            Event::Admin(guest) => Some(Own::new(*guest, Event::Admin(*guest))),
            Event::Take(guest, queue, lane) => {
                if is_done {
                    self.take(alloc, world, *guest, *lane)?;
                }
                if matches!(logged.reply, Reply::Busy) {
                    return Ok(None);
                }
                Some(Own::new(*guest, Event::Take(*guest, *queue, *lane)))
            }
            Event::DevTake(lane) => {
                if !is_done {
                    return Ok(None);
                }
                Some(Own::new(self.enter(world, *lane), Event::DevTake(*lane)))
            }
            Event::Reap(lane) => {
                if !is_done {
                    return Ok(None);
                }
                Some(Own::new(self.reap(*lane), Event::Reap(*lane)))
            }
            named => self.named(named, is_done),
        };
        Ok(own)
    }

    // The same, of an event that names a tag.
    fn named(&mut self, event: &Event, is_done: bool) -> Option<Own> {
        let tag = tag_of(event)?;
        let Holder { guest, alone, .. } = self.holder(tag.lane, tag.number)?;
        if is_done {
            self.note(event, tag);
        }
        Some(Own::new(guest, with_tag(event, alone)?))
    }

    // Notes what an event did to the command of a tag.
    fn note(&mut self, event: &Event, tag: Tag) {
        let Tag { lane, number } = tag;
        match event {
            Event::DevPost(..) | Event::DevFail(..) => {
                self.posted = self.posted.wrapping_add(1);
                self.move_to(lane, number, Point::Posted(self.posted));
            }
            Event::Post(..) => self.let_go(lane, number),
            _ => {}
        }
    }

    // All tags of the command that goes by a tag are free.
    fn let_go(&mut self, lane: u8, leader: u8) {
        for tag in 0..TAGS {
            if self.goes_by(lane, tag, leader) {
                self.set(lane, tag, None);
            }
        }
    }

    /// Whether a tag is one of the command that goes by that tag.
    pub fn goes_by(&self, lane: u8, tag: u8, leader: u8) -> bool {
        match self.holder(lane, tag) {
            Some(holder) => holder.leader == leader,
            None => false,
        }
    }

    /// The tag that the command of a tag goes by; none where nobody has it.
    pub fn leader(&self, tag: Tag) -> Option<Tag> {
        let Holder { leader, .. } = self.holder(tag.lane, tag.number)?;
        Some(Tag {
            lane: tag.lane,
            number: leader,
        })
    }

    /// Who has a tag; none where nobody has, or there is no such tag.
    pub fn holder(&self, lane: u8, tag: u8) -> Option<Holder> {
        *self.lanes.get(usize::from(lane))?.get(usize::from(tag))?
    }

    /// One of a guest's tags, by its place among them, which goes round; none where it has none.
    pub fn nth(&self, guest: u8, place: u32) -> Option<Tag> {
        let mut mine = [Tag { lane: 0, number: 0 }; 128];
        let mut count = 0u32;
        for lane in 0..2 {
            for number in 0..TAGS {
                if self.is_of(guest, lane, number)
                    && let Some(room) = mine.get_mut(count as usize)
                {
                    *room = Tag { lane, number };
                    count = count.wrapping_add(1);
                }
            }
        }
        if count == 0 {
            return None;
        }
        mine.get((place % count) as usize).copied()
    }

    /// Whether a tag is that guest's.
    pub fn is_of(&self, guest: u8, lane: u8, tag: u8) -> bool {
        match self.holder(lane, tag) {
            Some(holder) => holder.guest == guest,
            None => false,
        }
    }

    // Says who has a tag.
    fn set(&mut self, lane: u8, tag: u8, holder: Option<Holder>) {
        if let Some(tags) = self.lanes.get_mut(usize::from(lane))
            && let Some(room) = tags.get_mut(usize::from(tag))
        {
            *room = holder;
        } else {
            self.astray = true;
        }
    }

    // Says where the command of a tag is.
    fn move_to(&mut self, lane: u8, tag: u8, point: Point) {
        match self.holder(lane, tag) {
            Some(holder) => self.set(lane, tag, Some(Holder { point, ..holder })),
            None => self.astray = true,
        }
    }

    // A guest's command was taken: it has the lowest tags that were free, and in the run alone the lowest that are free there.
    fn take(&mut self, alloc: Global, world: &World, guest: u8, lane: u8) -> Result<(), NoMemory> {
        let leader = self.lowest_free(lane);
        let Some(job) = world.job(alloc, lane, leader)? else {
            self.astray = true;
            return Ok(());
        };
        if job.guest != guest {
            self.astray = true;
        }
        if guest != HONEST {
            self.others = self.others.wrapping_add(1);
        } else if leader != self.lowest_alone(guest, lane) {
            self.renumbered = self.renumbered.wrapping_add(1);
        }
        for _ in 0..tags_of(&job.sqe, spans_of(guest)) {
            self.take_one(guest, lane, leader);
        }
        Ok(())
    }

    // A guest's command got one more tag.
    fn take_one(&mut self, guest: u8, lane: u8, leader: u8) {
        let holder = Holder {
            guest,
            leader,
            alone: self.lowest_alone(guest, lane),
            point: Point::Before,
        };
        self.set(lane, self.lowest_free(lane), Some(holder));
    }

    // The lowest tag of a lane that nobody has; one that there is not where all are taken.
    fn lowest_free(&self, lane: u8) -> u8 {
        for tag in 0..TAGS {
            if self.holder(lane, tag).is_none() {
                return tag;
            }
        }
        TAGS
    }

    // The same in the run of a guest alone.
    fn lowest_alone(&self, guest: u8, lane: u8) -> u8 {
        for alone in 0..TAGS {
            if !self.has_alone(guest, lane, alone) {
                return alone;
            }
        }
        TAGS
    }

    // Whether one of a guest's commands has that tag in the run of the guest alone.
    fn has_alone(&self, guest: u8, lane: u8, alone: u8) -> bool {
        for tag in 0..TAGS {
            if let Some(holder) = self.holder(lane, tag)
                && holder.guest == guest
                && holder.alone == alone
            {
                return true;
            }
        }
        false
    }

    // The device has taken a command; whose. It is the one whose first unit can be moved, and was not there.
    fn enter(&mut self, world: &World, lane: u8) -> u8 {
        for tag in 0..TAGS {
            if let Some(holder) = self.holder(lane, tag)
                && holder.point == Point::Before
                && world.due(&Event::DevMove(lane, tag, 0))
            {
                self.move_to(lane, tag, Point::InDevice);
                return holder.guest;
            }
        }
        self.astray = true;
        NOBODY
    }

    // A completion was reaped; whose. It is the lane's first of those that the device had posted.
    fn reap(&mut self, lane: u8) -> u8 {
        let mut first = u64::MAX;
        let mut found = TAGS;
        for tag in 0..TAGS {
            if let Some(holder) = self.holder(lane, tag)
                && let Point::Posted(number) = holder.point
                && number < first
            {
                first = number;
                found = tag;
            }
        }
        self.move_to(lane, found, Point::Behind);
        match self.holder(lane, found) {
            Some(holder) => holder.guest,
            None => NOBODY,
        }
    }
}

// The tag that an event names.
fn tag_of(event: &Event) -> Option<Tag> {
    let (lane, number) = match event {
        Event::List(lane, tag, _, _)
        | Event::Submit(lane, tag)
        | Event::GiveUp(lane, tag)
        | Event::DevMove(lane, tag, _)
        | Event::DevPost(lane, tag)
        | Event::DevFail(lane, tag, _)
        | Event::Post(lane, tag) => (*lane, *tag),
        _ => return None,
    };
    Some(Tag { lane, number })
}

// The same event of another tag of its lane.
fn with_tag(event: &Event, tag: u8) -> Option<Event> {
    match event {
        Event::List(lane, _, addr, len) => Some(Event::List(*lane, tag, *addr, *len)),
        Event::Submit(lane, _) => Some(Event::Submit(*lane, tag)),
        Event::GiveUp(lane, _) => Some(Event::GiveUp(*lane, tag)),
        Event::DevMove(lane, _, unit) => Some(Event::DevMove(*lane, tag, *unit)),
        Event::DevPost(lane, _) => Some(Event::DevPost(*lane, tag)),
        Event::DevFail(lane, _, status) => Some(Event::DevFail(*lane, tag, *status)),
        Event::Post(lane, _) => Some(Event::Post(*lane, tag)),
        _ => None,
    }
}
