//! How the commands of a lane that is closed end: by completions that the mediator writes in the drive's place.

ghost use Rattle.std.specs.Prelude.{◌≡◌, ◌↔◌, ◌<◌, ◌+◌, ◌≤◌, ℕ, IsTrue, List, Some, false, length, slice_get};
ghost use Rattle.std.specs.Option.{unwrap_or};
ghost use Rattle.nv_core.specs.Front.{IsReaped};
ghost use Rattle.nv_core.specs.Reaping.{answer_of, next_completion, waits_in};
ghost use Rattle.nv_entry.specs.Completion.{completion};
ghost use Rattle.nv_entry.specs.StatusCode.{done_with};
ghost use Rattle.nv_host.specs.Ending.{IsFailing, failed_at, given_up_by};
ghost use Rattle.nv_host.specs.Ending.{AreIdle, IsIdle, IsIdleRun, IsRun};
ghost use Rattle.nv_host.specs.Closing.{AreEach, IsDrained, IsLaneAlone, IsRingAlone, failed, given_up};
ghost use Rattle.nv_model.specs.Memory.{byte_in, stored};
ghost use Rattle.nv_model.specs.Queue.{cqe_size};
ghost use Rattle.nv_world_model.specs.Area.{completion_slot, queue_pair, ring_size};
ghost use Rattle.nv_world_model.specs.World.{Lane};

use crate::host_mediator::HostMediator;
use nv_entry::{Cqe, StatusCode};
use nv_mem::MemoryCell;
use nv_model::Reply;
use nv_model::limits::{CQE_SIZE, TAGS};

impl HostMediator {
    /// The completions of a lane that are there are read, up to one that names no command.
    pub(crate) fn drain<C: MemoryCell>(&mut self, lane: u8, memory: &[C])
        requires { length (C.bytes memory.now) ≡ self.old.setup.host_bytes }
        ensures reaped { IsDrained self.old.setup.geometry lane (C.bytes memory.now) self.old.side self.new.side }
        ensures run { IsRun self.old.setup.geometry lane self.old.side (C.bytes memory.now) self.new.side (C.bytes memory.now) }
        ensures idle { AreIdle self.old.setup.geometry lane self.new.side (C.bytes memory.now) }
        ensures alone { IsLaneAlone lane self.old.side self.new.side }
        ensures setup { self.new.setup ≡ self.old.setup }
        ensures closed { self.new.closed ≡ self.old.closed }
        ensures spare { self.new.spare ≡ self.old.spare }
    {
        // Each has ended a tag that was in flight, so there are at most 64.
        while self.has_reaped(lane, memory) {}
    }

    /// Each command of a lane that was handed on fails.
    pub(crate) fn fail_each<C: MemoryCell>(&mut self, lane: u8, memory: &mut [C])
        requires there { lane < self.old.setup.lanes }
        requires lent { length (C.bytes memory.old) ≡ self.old.setup.host_bytes }
        ensures each { AreEach (λ _ t. failed t) lane self.old.side self.new.side }
        ensures run { IsIdleRun self.old.setup.geometry lane self.old.side (C.bytes memory.old) self.new.side (C.bytes memory.new) }
        ensures alone { IsLaneAlone lane self.old.side self.new.side }
        ensures ring { IsRingAlone self.old.setup.geometry lane (C.bytes memory.old) (C.bytes memory.new) }
        ensures setup { self.new.setup ≡ self.old.setup }
        ensures closed { self.new.closed ≡ self.old.closed }
        ensures spare { self.new.spare ≡ self.old.spare }
    {
        // With a field comes what is kept of the lane.
        let _known = &self.front;
        for tag in 0..TAGS {
            self.fail(lane, tag, memory);
        }
    }

    /// Each command of a lane that waits for its plan is given up.
    pub(crate) fn give_up_each(&mut self, lane: u8)
        ensures each { AreEach given_up lane self.old.side self.new.side }
        ensures run { (memory : List ℕ) → IsIdleRun self.old.setup.geometry lane self.old.side memory self.new.side memory }
        ensures alone { IsLaneAlone lane self.old.side self.new.side }
        ensures setup { self.new.setup ≡ self.old.setup }
        ensures closed { self.new.closed ≡ self.old.closed }
        ensures spare { self.new.spare ≡ self.old.spare }
    {
        // With a field comes what is kept of the lane.
        let _known = &self.front;
        for tag in 0..TAGS {
            self.give_up_led(lane, tag);
        }
    }

    /// No completion of a lane waits any more; nothing is written where none does.
    pub(crate) fn mute<C: MemoryCell>(&self, lane: u8, memory: &mut [C])
        requires there { lane < self.now.setup.lanes }
        requires lent { length (C.bytes memory.old) ≡ self.now.setup.host_bytes }
        ensures ring { IsRingAlone self.now.setup.geometry lane (C.bytes memory.old) (C.bytes memory.new) }
        ensures idle { waits_in self.now.setup.geometry lane (slice_get self.now.side.lanes lane) (C.bytes memory.new) ≡ false }
        ensures same { IsIdle self.now.setup.geometry lane self.now.side (C.bytes memory.old) → C.bytes memory.new ≡ C.bytes memory.old }
    {
        if !self.reap_due(lane, memory) {
            return;
        }
        let there = self.next_entry(lane, memory);
        let other = Cqe::new(0, 0, 0, 0, !there.phase(), StatusCode::Success.status());
        self.put_entry(lane, &other, memory);
    }

    // The command of a tag fails where it was handed on: the completion with which the drive fails it is written and read. Where there is none, the slot
    // has its bytes again.
    fn fail<C: MemoryCell>(&mut self, lane: u8, tag: u8, memory: &mut [C])
        requires there { lane < self.old.setup.lanes }
        requires lent { length (C.bytes memory.old) ≡ self.old.setup.host_bytes }
        ensures each { AreEach (failed_at tag) lane self.old.side self.new.side }
        ensures run { IsIdleRun self.old.setup.geometry lane self.old.side (C.bytes memory.old) self.new.side (C.bytes memory.new) }
        ensures alone { IsLaneAlone lane self.old.side self.new.side }
        ensures ring { IsRingAlone self.old.setup.geometry lane (C.bytes memory.old) (C.bytes memory.new) }
        ensures setup { self.new.setup ≡ self.old.setup }
        ensures closed { self.new.closed ≡ self.old.closed }
        ensures spare { self.new.spare ≡ self.old.spare }
    {
        // With a field comes what is kept of the lane.
        let _known = &self.front;
        let there = self.next_entry(lane, memory);
        let phase = self.wanted_phase(lane, &there, memory);
        let entry = self.failing_entry(lane, tag, phase);
        self.put_entry(lane, &entry, memory);
        if !self.has_reaped(lane, memory) {
            self.put_entry(lane, &there, memory);
        }
    }

    // The command that goes by a tag is given up where it waits for its plan.
    fn give_up_led(&mut self, lane: u8, tag: u8)
        ensures each { AreEach (given_up_by tag) lane self.old.side self.new.side }
        ensures run { (memory : List ℕ) → IsIdleRun self.old.setup.geometry lane self.old.side memory self.new.side memory }
        ensures alone { IsLaneAlone lane self.old.side self.new.side }
        ensures setup { self.new.setup ≡ self.old.setup }
        ensures closed { self.new.closed ≡ self.old.closed }
        ensures spare { self.new.spare ≡ self.old.spare }
    {
        let _told = self.front.give_up(&self.layout, lane, tag);
    }

    // Whether the next completion of a lane was there, and has ended a tag; nothing has changed where not.
    fn has_reaped<C: MemoryCell>(&mut self, lane: u8, memory: &[C]) -> bool
        requires { length (C.bytes memory.now) ≡ self.old.setup.host_bytes }
        ensures answer { IsTrue result ↔ (answer_of self.old.setup.geometry lane (slice_get self.old.side.lanes lane) (C.bytes memory.now) ≡ Some Reply.Done) }
        ensures done { IsTrue result → IsReaped self.old.setup.geometry lane self.old.side self.new.side (C.bytes memory.now) }
        ensures same { result ≡ false → self.new ≡ self.old }
        ensures run { IsTrue result → IsRun self.old.setup.geometry lane self.old.side (C.bytes memory.now) self.new.side (C.bytes memory.now) }
        ensures idle { result ≡ false → AreIdle self.old.setup.geometry lane self.old.side (C.bytes memory.now) }
        ensures alone { IsLaneAlone lane self.old.side self.new.side }
        ensures setup { self.new.setup ≡ self.old.setup }
        ensures closed { self.new.closed ≡ self.old.closed }
        ensures spare { self.new.spare ≡ self.old.spare }
    {
        // With a field comes what is kept of the lane.
        let _known = &self.front;
        matches!(self.reap(lane, memory), Ok(Reply::Done))
    }

    // The phase tag that a lane wants of its next completion, where this is what is in its slot.
    fn wanted_phase<C: MemoryCell>(&self, lane: u8, there: &Cqe, memory: &[C]) -> bool
        requires lent { length (C.bytes memory.now) ≡ self.now.setup.host_bytes }
        requires there { (l : Lane) → slice_get self.now.side.lanes lane ≡ Some l →
            there.now ≡ next_completion self.now.setup.geometry lane l (C.bytes memory.now) }
        ensures { (l : Lane) → slice_get self.now.side.lanes lane ≡ Some l → result ≡ l.phase }
    {
        self.reap_due(lane, memory) == there.phase()
    }

    // The completion with which the drive fails the command of a tag: it has taken all entries by then.
    fn failing_entry(&self, lane: u8, tag: u8, phase: bool) -> Cqe
        ensures bytes { result ≡ completion 0 (unwrap_or (slice_get self.now.side.tails lane) 0) (queue_pair lane) tag phase (done_with StatusCode.InternalError) }
        ensures fields { IsFailing lane tag phase result }
    {
        let head = self.tail(lane).unwrap_or(0);
        let status = StatusCode::InternalError.status();
        Cqe::new(0, head, u16::from(lane) + 1, u16::from(tag), phase, status)
    }

    // What is in the slot of a lane's completion ring that is read next.
    fn next_entry<C: MemoryCell>(&self, lane: u8, memory: &[C]) -> Cqe
        requires there { lane < self.now.setup.lanes }
        requires lent { length (C.bytes memory.now) ≡ self.now.setup.host_bytes }
        ensures { (l : Lane) → slice_get self.now.side.lanes lane ≡ Some l →
            result ≡ next_completion self.now.setup.geometry lane l (C.bytes memory.now) }
    {
        let mut bytes = [0; 16];
        C::load(memory, self.next_slot(lane), &mut bytes);
        Cqe::of(&bytes)
    }

    // Writes an entry there.
    fn put_entry<C: MemoryCell>(&self, lane: u8, entry: &Cqe, memory: &mut [C])
        requires there { lane < self.now.setup.lanes }
        requires lent { length (C.bytes memory.old) ≡ self.now.setup.host_bytes }
        ensures next { (l : Lane) → slice_get self.now.side.lanes lane ≡ Some l →
            next_completion self.now.setup.geometry lane l (C.bytes memory.new) ≡ entry.now }
        ensures stored { (l : Lane) → slice_get self.now.side.lanes lane ≡ Some l → byte_in (C.bytes memory.new)
            ≡ stored (byte_in (C.bytes memory.old)) (completion_slot self.now.setup.geometry.mediator lane l.head) entry.now }
        ensures ring { IsRingAlone self.now.setup.geometry lane (C.bytes memory.old) (C.bytes memory.new) }
    {
        C::store(memory, self.next_slot(lane), &entry.bytes());
    }

    // The host address of that slot.
    fn next_slot(&self, lane: u8) -> u64
        requires { lane < self.now.setup.lanes }
        ensures value { (l : Lane) → slice_get self.now.side.lanes lane ≡ Some l →
            result ≡ completion_slot self.now.setup.geometry.mediator lane l.head }
        ensures inside { result + cqe_size ≤ self.now.setup.host_bytes }
        ensures low { completion_slot self.now.setup.geometry.mediator lane 0 ≤ result }
        ensures high { result + cqe_size ≤ completion_slot self.now.setup.geometry.mediator lane ring_size }
    {
        // With a field comes what is kept of the lane.
        let _known = &self.front;
        let ring = self.completion_ring(lane).unwrap_or(0);
        let head = self.head(lane).unwrap_or(0);
        ring + CQE_SIZE * u64::from(head)
    }
}
