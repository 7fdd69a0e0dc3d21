//! The commands that wait for their plans: those of a lane, whoever's they are, and those of one guest.

ghost use Rattle.std.specs.Prelude.{◌≡◌, ◌<◌, ◌≤◌, ℕ, length};
ghost use Rattle.nv_host.specs.Passes.{IsPass, NoneWaits, NothingWaitsAt};
ghost use Rattle.nv_host.specs.Work.{scene};

use crate::host_mediator::HostMediator;
use crate::worked::{Scope, Worked};
use nv_mem::MemoryCell;
use std::alloc::Global;

impl HostMediator {
    /// The commands of a lane that wait are planned and handed on. They have `turn` events, and the lists of the last command have as many more as `most`
    /// allows.
    pub(crate) fn plan_lane<C: MemoryCell>(
        &mut self,
        alloc: Global,
        lane: u8,
        turn: u64,
        most: u64,
        memory: &mut [C],
    ) -> Worked
        requires some { 0 < turn }
        requires within { turn ≤ most }
        requires lent { length (C.bytes memory.old) ≡ self.old.setup.host_bytes }
        ensures pass { let old = scene self.old (C.bytes memory.old) in
            IsPass Scope.All ((tag : ℕ) → NothingWaitsAt old lane tag) most result old (scene self.new (C.bytes memory.new)) }
        ensures setup { self.new.setup ≡ self.old.setup }
        ensures len { length (C.bytes memory.new) ≡ length (C.bytes memory.old) }
    {
        let mut done: u64 = 0;
        let mut taken = self.front.taken(lane);
        while let Some(tag) = taken.pop() {
            if done >= turn {
                return Worked::so_far(done);
            }
            let pass = self.plan_tag(alloc, lane, tag, most - done, memory);
            let stopped = pass.has_stopped();
            let whole = Worked::after(done, pass);
            if stopped {
                return whole;
            }
            done = whole.done;
        }
        Worked::so_far(done)
    }

    // The command that goes by a tag, where it waits.
    fn plan_tag<C: MemoryCell>(
        &mut self,
        alloc: Global,
        lane: u8,
        tag: u8,
        most: u64,
        memory: &mut [C],
    ) -> Worked
        requires some { 0 < most }
        requires lent { length (C.bytes memory.old) ≡ self.old.setup.host_bytes }
        ensures pass { let old = scene self.old (C.bytes memory.old) in
            IsPass Scope.All (NothingWaitsAt old lane tag) most result old (scene self.new (C.bytes memory.new)) }
        ensures setup { self.new.setup ≡ self.old.setup }
        ensures len { length (C.bytes memory.new) ≡ length (C.bytes memory.old) }
    {
        match self.holder(lane, tag) {
            None => Worked::so_far(0),
            Some(holder) => self.plan(alloc, holder.guest, lane, tag, most, memory),
        }
    }

    /// The guest's commands of all lanes that wait are planned and handed on.
    pub(crate) fn plan_lanes<C: MemoryCell>(
        &mut self,
        alloc: Global,
        guest: u8,
        turn: u64,
        most: u64,
        memory: &mut [C],
    ) -> Worked
        requires some { 0 < turn }
        requires within { turn ≤ most }
        requires lent { length (C.bytes memory.old) ≡ self.old.setup.host_bytes }
        ensures pass { let old = scene self.old (C.bytes memory.old) in
            IsPass (Scope.Guest guest) ((lane : ℕ) → lane < self.old.setup.lanes → NoneWaits old guest lane) most result old
            (scene self.new (C.bytes memory.new)) }
        ensures setup { self.new.setup ≡ self.old.setup }
        ensures len { length (C.bytes memory.new) ≡ length (C.bytes memory.old) }
    {
        let mut done: u64 = 0;
        for lane in 0..self.lanes() {
            if done >= turn {
                return Worked::so_far(done);
            }
            let pass = self.plan_each(alloc, guest, lane, turn - done, most - done, memory);
            let stopped = pass.has_stopped();
            let whole = Worked::after(done, pass);
            if stopped {
                return whole;
            }
            done = whole.done;
        }
        Worked::so_far(done)
    }
}
