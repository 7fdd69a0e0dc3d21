//! The events that take no memory, each by a call that can't be refused.

ghost use Rattle.std.specs.Prelude.{◌≡◌, length};
ghost use Rattle.nv_core.specs.Seat.{IsLoaded};
ghost use Rattle.nv_mediator.specs.Hosted.{IsMade};

use crate::mediator::Mediator;
use crate::performing;
use nv_entry::Status;
use nv_model::{Act, Reply};
use nv_world_model::Event;
use std::alloc::Global;

impl Mediator {
    /// A guest stores these bytes from its address `addr` on, as by the act that holds them: Unmapped, with nothing changed, where one of them
    /// is mapped nowhere, and Ignored where there is no such guest.
    #[inline]
    pub fn store(&mut self, guest: u8, addr: u64, bytes: &[u8]) -> Reply
        ensures { IsMade (Event.Guest guest (Act.Store addr bytes.now)) self.old result self.new }
    {
        self.core.store(&self.layout, guest, addr, bytes)
    }

    /// A guest loads as many bytes from its address `addr` on as there is room for, as by the act that asks for them: Done, with the bytes in
    /// the room; Unmapped, with the room as it was, where one of them is mapped nowhere, and Ignored where there is no such guest. Nothing
    /// of the world changes.
    #[inline]
    pub fn load(&self, guest: u8, addr: u64, room: &mut [u8]) -> Reply
        ensures { let load = Event.Guest guest (Act.Load addr (length room.old)) in
            IsLoaded (λ reply. IsMade load self.now reply self.now) result room.old room.new }
    {
        self.core.load(&self.layout, guest, addr, room)
    }

    /// One event of a guest's admin queue: a command of it, or the end of a deletion that waits. Idle where there is nothing to do, Held
    /// where the admin completion queue is full, Ignored where there is no such guest.
    #[inline(always)]
    pub fn admin(&mut self, guest: u8) -> Reply
        ensures { IsMade (Event.Admin guest) self.old result self.new }
    {
        self.core.admin(&self.layout, guest)
    }

    /// The command at the front of a guest's I/O queue, 1 to 8, gets the lowest free tags of a lane, as many as it may become physical
    /// commands. Idle where none may be taken, Busy where fewer tags are free, Ignored where there is no such guest, queue or lane.
    #[inline(always)]
    pub fn take(&mut self, alloc: Global, guest: u8, queue: u16, lane: u8) -> Reply
        ensures { IsMade (Event.Take guest queue lane) self.old result self.new }
    {
        self.core.take(alloc, &self.layout, guest, queue, lane)
    }

    /// The command of a tag that was taken ends with Internal Error, like one that can't be planned because memory ran out. Stale where the tag is
    /// at another point, Ignored where there is no such tag.
    #[inline(always)]
    pub fn give_up(&mut self, lane: u8, tag: u8) -> Reply
        ensures { IsMade (Event.GiveUp lane tag) self.old result self.new }
    {
        self.core.give_up(&self.layout, lane, tag)
    }

    /// The physical controller moves a unit, by its number, of the command that it holds in a slot of a lane. Idle where it holds none there,
    /// or one without such a unit left, Ignored where there is no such lane or slot.
    #[inline(always)]
    pub fn dev_move(&mut self, lane: u8, slot: u8, number: u64) -> Reply
        ensures { IsMade (Event.DevMove lane slot number) self.old result self.new }
    {
        self.core.dev_move(&self.layout, lane, slot, number)
    }

    /// The physical controller completes the command that it holds in a slot of a lane: with success, or with Compare Failure. Idle where it
    /// holds none there, or one that has units left, Ignored where there is no such lane or slot.
    #[inline(always)]
    pub fn dev_post(&mut self, lane: u8, slot: u8) -> Reply
        ensures { IsMade (Event.DevPost lane slot) self.old result self.new }
    {
        self.core.dev_post(&self.layout, lane, slot)
    }

    /// The command that the physical controller holds in a slot of a lane fails with that status. Idle where it holds none there, Ignored
    /// where there is no such lane or slot, or the status is that of success.
    #[inline(always)]
    pub fn dev_fail(&mut self, lane: u8, slot: u8, status: Status) -> Reply
        ensures { IsMade (Event.DevFail lane slot status) self.old result self.new }
    {
        performing::fits(status);
        self.core.dev_fail(&self.layout, lane, slot, status)
    }

    /// A block of the disk becomes kept, as the physical controller may make it at any time. Idle where there is no such block.
    #[inline(always)]
    pub fn keep(&mut self, block: u64) -> Reply
        ensures { IsMade (Event.Keep block) self.old result self.new }
    {
        self.core.keep(&self.layout, block)
    }

    /// The next completion of a lane ends the part of a command whose tag it names. Idle where none waits, Ignored where there is no such
    /// lane.
    #[inline(always)]
    pub fn reap(&mut self, lane: u8) -> Reply
        ensures { IsMade (Event.Reap lane) self.old result self.new }
    {
        self.core.reap(&self.layout, lane)
    }

    /// The command that goes by a tag, whose parts have all ended, is completed for its guest, and its tags become free. Held, with nothing
    /// changed, where the guest's completion queue is full; Stale where some part has not ended, or the tag is none that a command goes by;
    /// Ignored where there is no such tag.
    #[inline(always)]
    pub fn post(&mut self, lane: u8, tag: u8) -> Reply
        ensures { IsMade (Event.Post lane tag) self.old result self.new }
    {
        self.core.post(&self.layout, lane, tag)
    }
}
