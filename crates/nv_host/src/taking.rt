//! A guest's commands, taken from its queues.

ghost use Rattle.std.specs.Prelude.{◌≡◌, ◌+◌, ◌<◌, ◌≤◌, ℕ, IsTrue, List, false, length, slice_get};
ghost use Rattle.nv_core.specs.Noted.{has_front};
ghost use Rattle.nv_host.specs.Passes.{IsPass};
ghost use Rattle.nv_host.specs.Work.{Leads, NotDue, scene};
ghost use Rattle.nv_model.specs.Limits.{last_queue};

use crate::closing::Closed;
use crate::host_mediator::HostMediator;
use crate::worked::{Scope, Worked, is_done};
use nv_mem::MemoryCell;
use nv_model::limits::LAST_QUEUE;
use nv_world_model::Event;
use std::alloc::Global;

impl HostMediator {
    /// Takes commands of the guest's queues, and plans them. It has `turn` events, and the lists of its last command have as many more as `most` allows.
    pub(crate) fn take_queues<C: MemoryCell>(
        &mut self,
        alloc: Global,
        guest: u8,
        turn: u64,
        most: u64,
        memory: &mut [C],
    ) -> Worked
        requires some { 0 < turn }
        requires within { turn ≤ most }
        requires lent { length (C.bytes memory.old) ≡ self.old.setup.host_bytes }
        ensures pass { let old = scene self.old (C.bytes memory.old) in
            IsPass (Scope.Guest guest) ((queue lane : ℕ) → NotDue old (Event.Take guest queue lane)) most result old (scene self.new (C.bytes memory.new)) }
        ensures setup { self.new.setup ≡ self.old.setup }
        ensures len { length (C.bytes memory.new) ≡ length (C.bytes memory.old) }
    {
        let mut done: u64 = 0;
        let mut queue = self.next_waiting(guest, 1);
        while queue <= LAST_QUEUE {
            if done >= turn {
                return Worked::so_far(done);
            }
            let pass = self.take_lanes(alloc, guest, queue, turn - done, most - done, memory);
            let stopped = pass.has_stopped();
            let whole = Worked::after(done, pass);
            if stopped {
                return whole;
            }
            done = whole.done;
            queue = self.next_waiting(guest, queue + 1);
        }
        Worked::so_far(done)
    }

    // The first queue of the guest's, from that number on, of which a command may be taken, where enough tags are free; 9 where it is none.
    fn next_waiting(&self, guest: u8, from: u16) -> u16
        ensures passed { (memory : List ℕ) (queue lane : ℕ) → from ≤ queue → queue < result → NotDue (scene self.now memory) (Event.Take guest queue lane) }
        ensures on { result ≤ last_queue → from ≤ result }
        ensures within { result ≤ last_queue + 1 }
    {
        self.front.next_waiting(guest, from)
    }

    // Whether a command of a queue of the guest's may be taken, where enough tags are free.
    #[inline(always)]
    fn waits(&self, guest: u8, queue: u16) -> bool
        ensures { result ≡ has_front queue (slice_get self.now.side.controllers guest) }
    {
        self.front.waits(guest, queue)
    }

    // Takes commands of a queue of the guest's for all lanes, as long as any waits, and plans them.
    fn take_lanes<C: MemoryCell>(
        &mut self,
        alloc: Global,
        guest: u8,
        queue: u16,
        turn: u64,
        most: u64,
        memory: &mut [C],
    ) -> Worked
        requires some { 0 < turn }
        requires within { turn ≤ most }
        requires lent { length (C.bytes memory.old) ≡ self.old.setup.host_bytes }
        ensures pass { let old = scene self.old (C.bytes memory.old) in
            IsPass (Scope.Guest guest) ((lane : ℕ) → NotDue old (Event.Take guest queue lane)) most result old (scene self.new (C.bytes memory.new)) }
        ensures setup { self.new.setup ≡ self.old.setup }
        ensures len { length (C.bytes memory.new) ≡ length (C.bytes memory.old) }
    {
        self.sizes();
        let mut done: u64 = 0;
        for lane in 0..self.lanes() {
            if done >= turn {
                return Worked::so_far(done);
            }
            if !self.waits(guest, queue) {
                return Worked::so_far(done);
            }
            let pass = self.take_on(alloc, guest, queue, lane, turn - done, most - done, memory);
            let stopped = pass.has_stopped();
            let whole = Worked::after(done, pass);
            if stopped {
                return whole;
            }
            done = whole.done;
        }
        Worked::so_far(done)
    }

    // Takes commands of a queue of the guest's for a lane, and plans them.
    fn take_on<C: MemoryCell>(
        &mut self,
        alloc: Global,
        guest: u8,
        queue: u16,
        lane: u8,
        turn: u64,
        most: u64,
        memory: &mut [C],
    ) -> Worked
        requires some { 0 < turn }
        requires within { turn ≤ most }
        requires lent { length (C.bytes memory.old) ≡ self.old.setup.host_bytes }
        ensures pass { let old = scene self.old (C.bytes memory.old) in
            IsPass (Scope.Guest guest) (NotDue old (Event.Take guest queue lane)) most result old (scene self.new (C.bytes memory.new)) }
        ensures setup { self.new.setup ≡ self.old.setup }
        ensures len { length (C.bytes memory.new) ≡ length (C.bytes memory.old) }
    {
        let done = self.take_queue(alloc, guest, queue, lane, turn, memory);
        if done == 0 {
            return Worked::so_far(done);
        }
        if done >= turn {
            return Worked::so_far(done);
        }
        let planned = self.plan_each(alloc, guest, lane, turn - done, most - done, memory);
        Worked::after(done, planned)
    }

    // Takes commands of a queue of the guest's for a lane; how many.
    fn take_queue<C: MemoryCell>(
        &mut self,
        alloc: Global,
        guest: u8,
        queue: u16,
        lane: u8,
        most: u64,
        memory: &[C],
    ) -> u64
        requires some { 0 < most }
        requires lent { length (C.bytes memory.now) ≡ self.old.setup.host_bytes }
        ensures leads { Leads (Scope.Guest guest) result (scene self.old (C.bytes memory.now)) (scene self.new (C.bytes memory.now)) }
        ensures few { result ≤ most }
        ensures none { result ≡ 0 → NotDue (scene self.old (C.bytes memory.now)) (Event.Take guest queue lane) }
        ensures setup { self.new.setup ≡ self.old.setup }
    {
        let mut done: u64 = 0;
        while done < most {
            if !self.waits(guest, queue) {
                return done;
            }
            let taken = self.has_taken(alloc, guest, queue, lane, memory);
            if taken {
                done += 1;
            } else {
                return done;
            }
        }
        done
    }

    // Takes a command of a queue of the guest's for a lane where one may be taken, and the guest's share has room for it; whether one was.
    fn has_taken<C: MemoryCell>(
        &mut self,
        alloc: Global,
        guest: u8,
        queue: u16,
        lane: u8,
        memory: &[C],
    ) -> bool
        requires { length (C.bytes memory.now) ≡ self.old.setup.host_bytes }
        ensures yes { IsTrue result → Leads (Scope.Guest guest) 1 (scene self.old (C.bytes memory.now)) (scene self.new (C.bytes memory.now)) }
        ensures no { result ≡ false → (self.new ≡ self.old) × NotDue (scene self.old (C.bytes memory.now)) (Event.Take guest queue lane) }
        ensures setup { self.new.setup ≡ self.old.setup }
    {
        if !self.has_share(guest, lane) {
            return false;
        }
        match self.take(alloc, guest, queue, lane, memory) {
            Ok(reply) => is_done(&reply),
            Err(Closed) => false,
        }
    }
}
