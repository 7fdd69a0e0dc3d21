//! What the mediator and the physical controller do with a command that has a tag, event by event.

use crate::beside::runs::Runs;
use crate::beside::tags::Tag;
use nv_model::limits::{MOST_COMMAND_BLOCKS, TAGS};
use nv_plan::{Planned, make_plan};
use nv_world_model::Event;

/// The most units of a command.
const UNITS: u64 = MOST_COMMAND_BLOCKS as u64;

impl Runs {
    /// Advances the command of a tag by one event, if it can go on. Its list is read as it is wanted, it is submitted, the device takes it, moves
    /// its units and posts its completion, which is reaped, and it is reported to the guest. Another command that is before it in the lane goes on
    /// in its place.
    pub fn carry(&mut self, tag: Tag, backwards: bool) {
        if let Some(event) = self.next(tag, backwards) {
            self.play(event);
        }
    }

    // The next event of a command.
    fn next(&mut self, tag: Tag, backwards: bool) -> Option<Event> {
        let leader = self.tags.leader(tag)?;
        if let Some(event) = self.wanted(leader) {
            return Some(event);
        }
        let Tag { lane, number } = leader;
        self.if_due(Event::Post(lane, number))
            .or(self.worked(leader, backwards))
            .or(self.if_due(Event::DevTake(lane)))
            .or(self.if_due(Event::Reap(lane)))
    }

    // What the device does next with a part of the command that goes by a tag, of the lowest of its tags or the highest.
    fn worked(&self, leader: Tag, backwards: bool) -> Option<Event> {
        let lane = leader.lane;
        for place in 0..TAGS {
            let number = if backwards { TAGS - 1 - place } else { place };
            if self.tags.goes_by(lane, number, leader.number) {
                let event = self
                    .if_due(Event::DevPost(lane, number))
                    .or(self.unit(Tag { lane, number }, backwards));
                if event.is_some() {
                    return event;
                }
            }
        }
        None
    }

    // An event, if it is due.
    fn if_due(&self, event: Event) -> Option<Event> {
        if self.both.due(&event) {
            Some(event)
        } else {
            None
        }
    }

    /// The event by which a command that was taken goes on: what is wanted of its list is read, or it is submitted; none where it was already.
    pub fn wanted(&mut self, tag: Tag) -> Option<Event> {
        let Tag { lane, number } = tag;
        match self.planned(tag)? {
            Planned::Need(_job, addr, len) => Some(Event::List(lane, number, addr, len)),
            Planned::Plan(_plan) => Some(Event::Submit(lane, number)),
            Planned::NoMemory(_job) => {
                self.lost = true;
                None
            }
        }
    }

    // What planning gives for the job of a tag as it is; none where it was planned already.
    fn planned(&self, tag: Tag) -> Option<Planned> {
        let job = self.both.job(self.alloc, tag.lane, tag.number).ok()??;
        let map = self.both.map(job.guest)?;
        let ns = self.both.range(job.guest)?;
        let limit = self.both.limit(job.guest)?;
        Some(make_plan(self.alloc, self.alloc, job, map, ns, limit))
    }

    // The first unit of a command that has not moved, or the last.
    fn unit(&self, tag: Tag, backwards: bool) -> Option<Event> {
        for number in 0..UNITS {
            let unit = if backwards {
                UNITS - 1 - number
            } else {
                number
            };
            let event = Event::DevMove(tag.lane, tag.number, unit);
            if self.both.due(&event) {
                return Some(event);
            }
        }
        None
    }
}
