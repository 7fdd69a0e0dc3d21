//! The events of guests and of the mediator, by its front with the host's memory and the physical controller's doorbells.

ghost use Rattle.std.specs.Prelude.{◌≡◌, ◌↔◌, ◌<◌, ◌≤◌, IfOk, IfSome, IsSome, IsTrue, None, OnErr, Some, false, length, slice_get};
ghost use Rattle.nv_core.specs.Front.{HasTailMoved};
ghost use Rattle.nv_laws_sound.specs.Side.{rung_with, tails_of};
ghost use Rattle.nv_core.specs.Held.{held_in};
ghost use Rattle.nv_core.specs.Jobs.{holder_of, job_of};
ghost use Rattle.nv_core.specs.Noted.{IsQuietAt};
ghost use Rattle.nv_core.specs.Seat.{IsLoaded, bytes_told, is_long_load};
ghost use Rattle.nv_core.specs.State.{CountsMore, IsOf, IsStep, world_of};
ghost use Rattle.nv_core.specs.Submit.{IsCurrent};
ghost use Rattle.nv_core.specs.Tags.{ended_in, flying_in, taken_in};
ghost use Rattle.nv_laws_sound.specs.Counted.{IsCounted};
ghost use Rattle.nv_world_model.specs.SetUp.{most_guests};

use crate::front::Front;
use crate::holding::Holder;
use crate::layout::Layout;
use crate::state::Core;
use nv_device::Device;
use nv_mem::{Bytes, NoMemory};
use nv_model::limits::MOST_GUESTS;
use nv_model::{Act, Reply};
use nv_plan::{Job, Plan};
use nv_tags::Group;
use nv_world_model::Event;
use std::alloc::Global;
use std::slice;

impl Core {
    /// A guest acts: it reads and writes its memory, its controller's registers and its doorbells. Ignored where there is no such guest.
    ///
    /// # Errors
    ///
    /// [`NoMemory`] where memory for the bytes of a load is refused: nothing has changed. Memory is taken for the bytes of a load that a
    /// reply does not hold in itself, and for nothing else.
    #[inline]
    pub fn act(
        &mut self,
        alloc: Global,
        layout: &Layout,
        guest: u8,
        act: &Act,
    ) -> Result<Reply, NoMemory>
        requires { IsOf layout.now self.old }
        ensures ok { IfOk result (λ reply. IsStep layout.now (Event.Guest guest act.now) self.old reply self.new) }
        ensures err { OnErr result ((self.new ≡ self.old) × IsTrue (is_long_load act.now)) }
    {
        let host = slice::from_mut(&mut self.host);
        self.front.act(alloc, layout, guest, act, host)
    }

    /// A guest stores these bytes from its address `addr` on, as by the act that holds them: Unmapped, with nothing changed, where one of them
    /// is mapped nowhere, and Ignored where there is no such guest.
    pub fn store(&mut self, layout: &Layout, guest: u8, addr: u64, bytes: &[u8]) -> Reply
        requires { IsOf layout.now self.old }
        ensures { IsStep layout.now (Event.Guest guest (Act.Store addr bytes.now)) self.old result self.new }
    {
        let host = slice::from_mut(&mut self.host);
        self.front.store(layout, guest, addr, bytes, host)
    }

    /// A guest loads as many bytes from its address `addr` on as there is room for, as by the act that asks for them: Done, with the bytes in
    /// the room; Unmapped, with the room as it was, where one of them is mapped nowhere, and Ignored where there is no such guest. Nothing
    /// of the world changes.
    pub fn load(&self, layout: &Layout, guest: u8, addr: u64, room: &mut [u8]) -> Reply
        requires { IsOf layout.now self.now }
        ensures { let load = Event.Guest guest (Act.Load addr (length room.old)) in
            IsLoaded (λ reply. IsStep layout.now load self.now reply self.now) result room.old room.new }
    {
        self.front
            .load(layout, guest, addr, room, slice::from_ref(&self.host))
    }

    /// One event of a guest's admin queue: a command of it, or the end of a deletion that waits. Idle where there is nothing to do, Held
    /// where the admin completion queue is full, Ignored where there is no such guest.
    #[inline]
    pub fn admin(&mut self, layout: &Layout, guest: u8) -> Reply
        requires { IsOf layout.now self.old }
        ensures { IsStep layout.now (Event.Admin guest) self.old result self.new }
    {
        let host = slice::from_mut(&mut self.host);
        self.front.admin(layout, guest, host)
    }

    /// The command at the front of a guest's I/O queue gets the lowest free tags of a lane, as many as it may become physical commands. Idle
    /// where none may be taken, Busy where fewer tags are free, Ignored where there is no such guest or lane, or the queue is none of 1 to 8.
    ///
    /// The caller knows that one more taken command can be counted.
    #[inline]
    pub fn take(&mut self, alloc: Global, layout: &Layout, guest: u8, queue: u16, lane: u8) -> Reply
        requires of { IsOf layout.now self.old }
        requires counted { CountsMore guest self.old }
        ensures { IsStep layout.now (Event.Take guest queue lane) self.old result self.new }
    {
        let host = slice::from_ref(&self.host);
        self.front.take(alloc, layout, guest, queue, lane, host)
    }

    /// Bytes of the guest's memory join the transcript of a tag that was taken, and are the reply. Stale where the tag is at another point,
    /// Ignored where there is no such tag, Unmapped where not all of the bytes are mapped, and Ignored where they are none or more than
    /// 4,096.
    ///
    /// Bytes that are the reply are returned once more, for a log: after the event there might be no memory for a copy.
    ///
    /// # Errors
    ///
    /// [`NoMemory`] where memory for the bytes, or for their place in the transcript, is refused: nothing has changed.
    #[inline]
    pub fn list(
        &mut self,
        alloc: Global,
        layout: &Layout,
        lane: u8,
        tag: u8,
        addr: u64,
        len: u64,
    ) -> Result<(Reply, Option<Bytes>), NoMemory>
        requires { IsOf layout.now self.old }
        ensures ok { IfOk result (λ told. IsStep layout.now (Event.List lane tag addr len) self.old told.0 self.new) }
        ensures again { IfOk result (λ told. told.1 ≡ bytes_told told.0) }
        ensures err { OnErr result (self.new ≡ self.old) }
    {
        let host = slice::from_ref(&self.host);
        self.front.list(alloc, layout, lane, tag, addr, len, host)
    }

    /// Ends the command of a tag that was taken with Internal Error. Stale where the tag is at another point, Ignored where there is no
    /// such tag.
    #[inline]
    pub fn give_up(&mut self, _layout: &Layout, lane: u8, tag: u8) -> Reply
        requires { IsOf _layout.now self.old }
        ensures { IsStep _layout.now (Event.GiveUp lane tag) self.old result self.new }
    {
        self.front.give_up(_layout, lane, tag)
    }

    /// Plans the command of a tag that was taken, and carries the plan out: the command is handed to the physical controller, or ends at
    /// once. Stale where the tag is at another point, or more of the command's lists is wanted; Ignored where there is no such tag.
    ///
    /// # Errors
    ///
    /// [`NoMemory`] where memory is refused: nothing has changed.
    #[inline]
    pub fn submit(
        &mut self,
        alloc: Global,
        layout: &Layout,
        lane: u8,
        tag: u8,
    ) -> Result<Reply, NoMemory>
        requires { IsOf layout.now self.old }
        ensures ok { IfOk result (λ reply. IsStep layout.now (Event.Submit lane tag) self.old reply self.new) }
        ensures err { OnErr result (self.new ≡ self.old) }
    {
        let host = slice::from_mut(&mut self.host);
        let reply = self.front.submit(alloc, layout, lane, tag, host)?;
        ring(lane, &self.front, &mut self.device);
        Ok(reply)
    }

    /// Carries out a plan that was made elsewhere, where it was made of the state as it is: its tag was taken, by the guest's command of its job,
    /// with the same reads of its lists, and the guest's map, namespace and limit are those that it was made with. `None` where not, and nothing
    /// has changed.
    pub fn submit_plan(&mut self, layout: &Layout, plan: Plan) -> Option<Reply>
        requires { IsOf layout.now self.old }
        ensures some { IfSome result (λ reply.
            IsCurrent layout.now (world_of self.old) plan
            × IsStep layout.now (Event.Submit plan.job.lane plan.job.tag) self.old reply self.new) }
        ensures done { IfSome result (λ reply. reply ≡ Reply.Done) }
        ensures none { result ≡ None → (self.new ≡ self.old) × (IsCurrent layout.now (world_of self.old) plan → ⊥) }
    {
        let lane = plan.job().lane;
        let host = slice::from_mut(&mut self.host);
        let reply = self.front.submit_plan(layout, plan, host)?;
        ring(lane, &self.front, &mut self.device);
        Some(reply)
    }

    /// The next completion of a lane ends the command of the tag that it names, with the status that the guest gets. Idle where none
    /// waits, Ignored where there is no such lane.
    #[inline]
    pub fn reap(&mut self, _layout: &Layout, lane: u8) -> Reply
        requires { IsOf _layout.now self.old }
        ensures { IsStep _layout.now (Event.Reap lane) self.old result self.new }
    {
        let host = slice::from_ref(&self.host);
        let Ok(reply) = self.front.reap(_layout, lane, host) else {
            unreachable!()
        };
        reply
    }

    /// The command that goes by a tag, whose parts have all ended, is completed for its guest, and its tags become free. The bytes of a
    /// bounced Read that succeeded reach the guest first. Where the guest has reset its controller meanwhile, the command runs out without a
    /// completion. Held, with nothing changed, where the guest's completion queue is full; Stale where some part has not ended, or the tag is
    /// none that a command goes by; Ignored where there is no such tag.
    ///
    /// The caller knows that each guest's controller counts the guest's commands, as it does in every world that events lead to.
    #[inline]
    pub fn post(&mut self, layout: &Layout, lane: u8, tag: u8) -> Reply
        requires of { IsOf layout.now self.old }
        requires counted { IsCounted layout.now (world_of self.old) }
        ensures { IsStep layout.now (Event.Post lane tag) self.old result self.new }
    {
        let host = slice::from_mut(&mut self.host);
        self.front.post(layout, lane, tag, host)
    }

    /// Whose command a tag of a lane has, and the tag that it goes by; `None` where the tag is free, or there is none.
    pub fn holder(&self, lane: u8, tag: u8) -> Option<Holder>
        ensures { result ≡ holder_of (world_of self.now) lane tag }
    {
        self.front.holder(lane, tag)
    }

    /// How many tags of a lane the commands of a guest have. There are none of a number from 16 on, which is no guest's, and none where there is no such lane.
    pub fn held_by(&self, lane: u8, guest: u8) -> u8
        ensures held { guest < most_guests → result ≡ held_in guest (slice_get (world_of self.now).lanes lane) }
        ensures none { most_guests ≤ guest → result ≡ 0 }
    {
        if guest >= MOST_GUESTS {
            return 0;
        }
        self.front.held_by(lane, guest)
    }

    /// The tags of a lane whose commands wait for their plans, in order; none where there is no such lane.
    #[inline]
    pub fn taken(&self, lane: u8) -> Group
        ensures { result ≡ taken_in (slice_get (world_of self.now).lanes lane) }
    {
        self.front.taken(lane)
    }

    /// The tags of a lane whose parts are with the physical controller, in order; none where there is no such lane.
    #[inline]
    pub fn flying(&self, lane: u8) -> Group
        ensures { result ≡ flying_in (slice_get (world_of self.now).lanes lane) }
    {
        self.front.flying(lane)
    }

    /// The tags of a lane whose parts have ended, in order; none where there is no such lane.
    #[inline]
    pub fn ended(&self, lane: u8) -> Group
        ensures { result ≡ ended_in (slice_get (world_of self.now).lanes lane) }
    {
        self.front.ended(lane)
    }

    /// Whether an event of a guest's admin queue or the taking of its commands may be due. Where not, none is, whatever is in memory.
    #[inline]
    pub fn is_noted(&self, guest: u8) -> bool
        ensures { result ≡ false → IsQuietAt guest (world_of self.now).controllers }
    {
        self.front.is_noted(guest)
    }

    /// The guest isn't noted any more, where nothing is due of its queues whatever is in memory.
    #[inline]
    pub fn settle(&mut self, guest: u8)
        ensures { self.new ≡ self.old }
    {
        self.front.settle(guest);
    }

    /// The job of a tag that was taken: its command, and a copy of what was read of its lists so far. `None` where
    /// the tag is at another point, or there is no such tag.
    ///
    /// # Errors
    ///
    /// There was no memory for the copy.
    pub fn job(&self, alloc: Global, lane: u8, tag: u8) -> Result<Option<Job>, NoMemory>
        ensures ok { IfOk result (λ job. job ≡ job_of (world_of self.now) lane tag) }
        ensures err { OnErr result (IsSome (job_of (world_of self.now) lane tag)) }
    {
        self.front.job(alloc, lane, tag)
    }

    /// Whether the tag has a command that waits for its plan, so that [`Core::job`] has its job.
    pub fn is_waiting(&self, lane: u8, tag: u8) -> bool
        ensures { IsTrue result ↔ IsSome (job_of (world_of self.now) lane tag) }
    {
        self.front.is_waiting(lane, tag)
    }

    /// Whether a job is that of its tag: the same command, and the same was read of its lists.
    pub fn has_job(&self, job: &Job) -> bool
        ensures { IsTrue result ↔ (job_of (world_of self.now) job.now.lane job.now.tag ≡ Some job.now) }
    {
        self.front.has_job(job)
    }
}

// Rings the doorbell of a lane's submission ring with the front's tail, which alone may have moved since the doorbells were rung.
fn ring(lane: u8, front: &Front, device: &mut Device)
    requires { HasTailMoved lane (tails_of device.old.lanes) front.now.tails }
    ensures { device.new ≡ record device.old { lanes = rung_with front.now.tails device.old.lanes } }
{
    let at = usize::from(lane);
    if at < front.tails.len() {
        device.ring(lane, front.tails[at]);
    }
}
