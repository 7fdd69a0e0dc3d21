//! The mediator's own events: commands from the guests' queues to the drive, and back.

ghost use Rattle.std.specs.Prelude.{◌≡◌, ℕ, IfOk, IfSome, List, None, Ok, OnErr, false, length, slice_get, true};
ghost use Rattle.std.specs.Result.{result_ok};
ghost use Rattle.nv_core.specs.Front.{IsBeside, IsLive, IsReaped, IsStepBeside};
ghost use Rattle.nv_core.specs.Reaping.{answer_of};
ghost use Rattle.nv_core.specs.Seat.{bytes_told};
ghost use Rattle.nv_core.specs.Submit.{IsCurrentIn};
ghost use Rattle.nv_host.specs.Served.{IsDone, IsNext, IsUnreached, is_closed};
ghost use Rattle.nv_world_model.specs.World.{World};

use crate::closing::Closed;
use crate::host_mediator::HostMediator;
use nv_core::Stray;
use nv_mem::{Bytes, MemoryCell, NoMemory};
use nv_model::Reply;
use nv_plan::Plan;
use nv_world_model::Event;
use std::alloc::Global;

impl HostMediator {
    /// The command at the front of a guest's I/O queue, 1 to 8, gets the lowest free tags of a lane, as many as it may become physical commands. Idle
    /// where none may be taken, Busy where fewer tags are free, Ignored where there is no such guest, queue or lane.
    ///
    /// # Errors
    ///
    /// [`Closed`] where the lane was closed: nothing has changed.
    pub fn take<C: MemoryCell>(
        &mut self,
        alloc: Global,
        guest: u8,
        queue: u16,
        lane: u8,
        memory: &[C],
    ) -> Result<Reply, Closed>
        requires { length (C.bytes memory.now) ≡ self.old.setup.host_bytes }
        ensures ok { IfOk result (λ reply. IsDone (Event.Take guest queue lane) self.old (C.bytes memory.now) reply self.new (C.bytes memory.now)) }
        ensures open { IfOk result (λ _. is_closed self.old lane ≡ false) }
        ensures err { OnErr result ((is_closed self.old lane ≡ true) × (self.new ≡ self.old)) }
        ensures setup { self.new.setup ≡ self.old.setup }
    {
        if self.is_closed(lane) {
            return Err(Closed);
        }
        Ok(self.take_open(alloc, guest, queue, lane, memory))
    }

    // The same for a lane whether or not it was closed.
    fn take_open<C: MemoryCell>(
        &mut self,
        alloc: Global,
        guest: u8,
        queue: u16,
        lane: u8,
        memory: &[C],
    ) -> Reply
        requires { length (C.bytes memory.now) ≡ self.old.setup.host_bytes }
        ensures { IsDone (Event.Take guest queue lane) self.old (C.bytes memory.now) result self.new (C.bytes memory.now) }
    {
        let reply = self
            .front
            .take(alloc, &self.layout, guest, queue, lane, memory);
        self.holds.note(&reply, guest);
        self.holds.keep(lane, self.front.ended(lane));
        reply
    }

    /// Bytes of the guest's memory join the transcript of a tag that was taken, and are the reply. Stale where the tag is at another point, Ignored where
    /// there is no such tag, Unmapped where not all of the bytes are mapped, and Ignored where they are none or more than 4,096.
    ///
    /// Bytes that are the reply are returned once more, for a log: after the event there might be no memory for a copy.
    ///
    /// # Errors
    ///
    /// [`NoMemory`] where memory for the bytes, or for their place in the transcript, is refused: nothing has changed.
    pub fn list<C: MemoryCell>(
        &mut self,
        alloc: Global,
        lane: u8,
        tag: u8,
        addr: u64,
        len: u64,
        memory: &[C],
    ) -> Result<(Reply, Option<Bytes>), NoMemory>
        requires { length (C.bytes memory.now) ≡ self.old.setup.host_bytes }
        ensures ok { IfOk result (λ told. IsDone (Event.List lane tag addr len) self.old (C.bytes memory.now) told.0 self.new (C.bytes memory.now)) }
        ensures again { IfOk result (λ told. told.1 ≡ bytes_told told.0) }
        ensures err { OnErr result (self.new ≡ self.old) }
        ensures setup { self.new.setup ≡ self.old.setup }
    {
        self.front
            .list(alloc, &self.layout, lane, tag, addr, len, memory)
    }

    /// Plans the command of a tag that was taken, and carries the plan out: the command is on the lane's submission ring, whose tail is then
    /// [`HostMediator::tail`], or ends at once. Stale where the tag is at another point, or more of the command's lists is wanted; Ignored where there is
    /// no such tag.
    ///
    /// # Errors
    ///
    /// [`NoMemory`] where memory is refused: nothing has changed.
    pub fn submit<C: MemoryCell>(
        &mut self,
        alloc: Global,
        lane: u8,
        tag: u8,
        memory: &mut [C],
    ) -> Result<Reply, NoMemory>
        requires { length (C.bytes memory.old) ≡ self.old.setup.host_bytes }
        ensures ok { IfOk result (λ reply. IsDone (Event.Submit lane tag) self.old (C.bytes memory.old) reply self.new (C.bytes memory.new)) }
        ensures err { OnErr result ((self.new ≡ self.old) × (C.bytes memory.new ≡ C.bytes memory.old)) }
        ensures setup { self.new.setup ≡ self.old.setup }
        ensures len { length (C.bytes memory.new) ≡ length (C.bytes memory.old) }
    {
        self.front.submit(alloc, &self.layout, lane, tag, memory)
    }

    /// Carries out a plan that was made elsewhere, as the event Submit of its tag. `None`, with nothing changed, where it was not made from what is there
    /// now: its job is not its tag's, or the guest's map, namespace or limit is another. It takes no memory.
    pub fn submit_plan<C: MemoryCell>(&mut self, plan: Plan, memory: &mut [C]) -> Option<Reply>
        requires { length (C.bytes memory.old) ≡ self.old.setup.host_bytes }
        ensures some { IfSome result (λ reply.
            IsCurrentIn self.old.setup.geometry self.old.side.lanes plan
            × IsDone (Event.Submit plan.job.lane plan.job.tag) self.old (C.bytes memory.old) reply self.new (C.bytes memory.new)) }
        ensures done { IfSome result (λ reply. reply ≡ Reply.Done) }
        ensures none { result ≡ None → (self.new ≡ self.old)
            × ((C.bytes memory.new ≡ C.bytes memory.old) × (IsCurrentIn self.old.setup.geometry self.old.side.lanes plan → ⊥)) }
        ensures setup { self.new.setup ≡ self.old.setup }
        ensures len { length (C.bytes memory.new) ≡ length (C.bytes memory.old) }
    {
        self.front.submit_plan(&self.layout, plan, memory)
    }

    /// The command of a tag that was taken ends with Internal Error, like one that can't be planned because memory ran out. Stale where the tag is at
    /// another point, Ignored where there is no such tag.
    pub fn give_up(&mut self, lane: u8, tag: u8) -> Reply
        ensures { (memory : List ℕ) → IsDone (Event.GiveUp lane tag) self.old memory result self.new memory }
    {
        self.front.give_up(&self.layout, lane, tag)
    }

    /// The next completion of a lane ends the part of a command whose tag it names. Idle where none waits, Ignored where there is no such lane.
    ///
    /// # Errors
    ///
    /// [`Stray`] where it names no command that the drive has: nothing has changed. Then no log leads to the mediator and the memory as they are, so the
    /// drive or the host has done what it may not.
    pub fn reap<C: MemoryCell>(&mut self, lane: u8, memory: &[C]) -> Result<Reply, Stray>
        requires { length (C.bytes memory.now) ≡ self.old.setup.host_bytes }
        ensures answer { result_ok result ≡ answer_of self.old.setup.geometry lane (slice_get self.old.side.lanes lane) (C.bytes memory.now) }
        ensures ended { result ≡ Ok Reply.Done → IsReaped self.old.setup.geometry lane self.old.side self.new.side (C.bytes memory.now) }
        ensures ok { IfOk result (λ reply. IsNext (Event.Reap lane) self.old (C.bytes memory.now) reply self.new (C.bytes memory.now)) }
        ensures worlds { IfOk result (λ reply. (w : World) → IsBeside self.old.side (C.bytes memory.now) w → IsLive self.old.setup.geometry w →
            IsStepBeside self.old.setup.geometry (Event.Reap lane) w reply self.new.side (C.bytes memory.now)) }
        ensures same { (result ≡ Ok Reply.Done → ⊥) → self.new ≡ self.old }
        ensures stray { OnErr result (IsUnreached self.old (C.bytes memory.now)) }
        ensures nowhere { OnErr result ((w : World) → IsBeside self.old.side (C.bytes memory.now) w → IsLive self.old.setup.geometry w → ⊥) }
        ensures tails { self.new.side.tails ≡ self.old.side.tails }
        ensures closed { self.new.closed ≡ self.old.closed }
        ensures spare { self.new.spare ≡ self.old.spare }
        ensures setup { self.new.setup ≡ self.old.setup }
    {
        self.front.reap(&self.layout, lane, memory)
    }

    /// The command that goes by a tag, whose parts have all ended, is completed for its guest, and its tags become free. Held, with nothing changed, where
    /// the guest's completion queue is full; Stale where some part has not ended, or the tag is none that a command goes by; Ignored where there is no
    /// such tag.
    pub fn post<C: MemoryCell>(&mut self, lane: u8, tag: u8, memory: &mut [C]) -> Reply
        requires { length (C.bytes memory.old) ≡ self.old.setup.host_bytes }
        ensures done { IsDone (Event.Post lane tag) self.old (C.bytes memory.old) result self.new (C.bytes memory.new) }
        ensures len { length (C.bytes memory.new) ≡ length (C.bytes memory.old) }
    {
        let holder = self.front.holder(lane, tag);
        let reply = self.front.post(&self.layout, lane, tag, memory);
        if let Some(holder) = holder {
            self.holds.note(&reply, holder.guest);
        }
        reply
    }
}
