//! What the lock keeps.

use crate::bits::bit;
use crate::concern::Concern;
use crate::notes::Notes;
use nv_model::Act;
use nv_world::World;
use nv_world_model::Event;

/// The world, and what is noted beside it.
#[derive(Drop)]
pub(crate) struct Locked {
    pub(crate) world: World,
    pub(crate) notes: Notes,
}

/// What a guest's act may give workers to do.
#[derive(Clone, Copy, Debug)]
pub(crate) enum Errand {
    /// Nothing.
    Nothing,
    /// Bytes of its memory that are others now, maybe those of an entry that waits.
    Bytes,
    /// Entries of the queue of that number, which counts modulo 64, to be taken.
    Entries(u8),
    /// A completion queue that has room, or a controller that is enabled or reset: commands that have ended may be posted.
    Room,
}

impl Errand {
    /// What this act may give them to do. The doorbells of submission queues and of completion queues take turns, four bytes each, from 4,096 on.
    pub(crate) fn of(act: &Act) -> Self {
        match act {
            Act::Store { addr: _, bytes: _ } => Errand::Bytes,
            Act::Load { addr: _, len: _ } => Errand::Nothing,
            Act::RegRead { offset: _ } => Errand::Nothing,
            Act::RegWrite {
                offset: _,
                value: _,
            } => Errand::Room,
            Act::Doorbell { offset, value: _ } => {
                if *offset % 8 == 0 {
                    Errand::Entries((*offset / 8 % 64) as u8)
                } else {
                    Errand::Room
                }
            }
        }
    }
}

impl Locked {
    /// Notes what an act says that the guest has done, and returns whom it concerns.
    pub(crate) fn concern(&mut self, guest: u8, errand: Errand) -> Concern {
        match errand {
            Errand::Nothing => Concern::nobody(),
            Errand::Bytes => Concern::planners(self.with_other_front(guest)),
            Errand::Entries(queue) => {
                self.notes.ring_for(guest, queue);
                Concern::planner(guest)
            }
            Errand::Room => Concern {
                reapers: self.notes.with_ended(),
                planners: self.with_admin(guest),
                ..Concern::nobody()
            },
        }
    }

    /// Whether a guest's share of a lane has room for one more command.
    pub(crate) fn has_share(&self, guest: u8, lane: u8) -> bool {
        self.world.held_by(lane, guest) <= self.notes.spare()
    }

    /// The guest, as a set, where its admin queue has something to do: its planner takes that up.
    pub(crate) fn with_admin(&self, guest: u8) -> u64 {
        if self.world.due(&Event::Admin(guest)) {
            bit(guest)
        } else {
            0
        }
    }

    /// The guest, as a set, where the entry in front of a queue of its may be another now, or have other bytes, and a lane has fewer free tags
    /// than some command takes: there this entry may be taken, though the one before was not.
    pub(crate) fn with_other_front(&self, guest: u8) -> u64 {
        if self.notes.are_short() {
            bit(guest)
        } else {
            0
        }
    }
}
