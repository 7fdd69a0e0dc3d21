//! Commands that are taken from the guests' queues.

ghost use Rattle.std.specs.Prelude.{◌≡◌, ◌<◌, [], Some, slice_index};
ghost use Rattle.nv_core.specs.Front.{CountMore, IsSideStep};
ghost use Rattle.nv_core.specs.Kept.{IsLent};
ghost use Rattle.nv_core.specs.Take.{IsFrontIn, IsFrontTaken};
ghost use Rattle.nv_machine.specs.Doing.{replied};
ghost use Rattle.nv_machine.specs.Machine.{call};
ghost use Rattle.nv_model.specs.Controller.{front};
ghost use Rattle.nv_model.specs.Memory.{byte_in};
ghost use Rattle.nv_vctl.specs.Vctl.{most_taken};
ghost use Rattle.nv_world_model.specs.Step.{is_io_queue};

use crate::front::Front;
use crate::lane::Lane;
use crate::layout::{Grant, Layout};
use crate::noting::noted;
use nv_entry::Sqe;
use nv_mem::MemoryCell;
use nv_model::Reply;
use nv_model::limits::LAST_QUEUE;
use nv_plan::tags_wanted;
use nv_tags::Claim;
use nv_vctl::Vctl;
use nv_world_model::Event;
use std::alloc::Global;

impl Front {
    /// The command at the front of a guest's I/O queue gets the lowest free tags of a lane, as many as it may become physical commands. Idle
    /// where none may be taken, Busy where fewer tags are free, Ignored where there is no such guest or lane, or the queue is none of 1 to 8.
    ///
    /// The caller knows that one more taken command can be counted.
    #[inline(never)]
    pub fn take<C: MemoryCell>(
        &mut self,
        alloc: Global,
        layout: &Layout,
        guest: u8,
        queue: u16,
        lane: u8,
        host: &[C],
    ) -> Reply
        requires lent { IsLent layout.now self.old (C.bytes host.now) }
        requires counted { CountMore guest self.old.controllers }
        ensures step { IsSideStep layout.now (Event.Take guest queue lane) self.old (C.bytes host.now) result self.new (C.bytes host.now) }
        ensures tails { self.new.tails ≡ self.old.tails }
    {
        let entry = self.front_entry(layout, guest, queue, host);
        self.take_fetched(alloc, layout, guest, queue, lane, entry)
    }

    /// [`Front::take`] without a memory, by the entry that was fetched. Where nothing is fetched any entry does: it isn't looked at.
    ///
    /// The caller knows that one more taken command can be counted.
    pub fn take_fetched(
        &mut self,
        alloc: Global,
        layout: &Layout,
        guest: u8,
        queue: u16,
        lane: u8,
        entry: Sqe,
    ) -> Reply
        requires { CountMore guest self.old.controllers }
        ensures call { call layout.now (Event.Take guest queue lane) entry self.old ≡ replied result (record { side = self.new; effects = [] }) }
        ensures tails { self.new.tails ≡ self.old.tails }
    {
        let Some(given) = layout.guest(guest) else {
            return Reply::Ignored;
        };
        let number = usize::from(guest);
        if number >= self.controllers.len() {
            return Reply::Ignored;
        }
        let at = usize::from(lane);
        if at >= self.lanes.len() {
            return Reply::Ignored;
        }
        if !is_io_queue(queue) {
            return Reply::Ignored;
        }
        self.noted = noted(self.noted, guest);
        let vctl = &mut self.controllers[number];
        let ring = &mut self.lanes[at];
        take_front(alloc, guest, queue, given, entry, vctl, ring)
    }

    // The entry at the front of a guest's queue; one of zeros where there is none.
    fn front_entry<C: MemoryCell>(&self, layout: &Layout, guest: u8, queue: u16, host: &[C]) -> Sqe
        requires { IsLent layout.now self.now (C.bytes host.now) }
        ensures { IsFrontIn layout.now self.now guest queue (byte_in (C.bytes host.now)) result }
    {
        let Some(given) = layout.guest(guest) else {
            return Sqe::of(&[0; 64]);
        };
        let number = usize::from(guest);
        if number >= self.controllers.len() {
            return Sqe::of(&[0; 64]);
        }
        let Some(entry) = self.controllers[number].peek_sqe(queue, given.map(), host) else {
            return Sqe::of(&[0; 64]);
        };
        entry
    }
}

// Whether a number is that of an I/O queue.
pub(crate) fn is_io_queue(queue: u16) -> bool
    ensures { result ≡ is_io_queue queue }
{
    1 <= queue && queue <= LAST_QUEUE
}

// The command at the front of a queue, which has this entry, gets its tags.
fn take_front(
    alloc: Global,
    guest: u8,
    queue: u16,
    given: &Grant,
    entry: Sqe,
    vctl: &mut Vctl,
    ring: &mut Lane,
) -> Reply
    requires { slice_index vctl.old.taken queue < most_taken }
    ensures { IsFrontTaken (front vctl.old queue) guest queue given.now.namespace entry result vctl.old vctl.new ring.old ring.new }
{
    if !vctl.waits(queue) {
        return Reply::Idle;
    }
    let count = tags_wanted(&entry, given.ns());
    let claim = Claim {
        guest,
        queue,
        entry,
    };
    if ring.claim(alloc, claim, count).is_none() {
        return Reply::Busy;
    }
    vctl.took(queue);
    Reply::Done
}
