//! Whether an event of a guest's queues or of the mediator is due.

ghost use Rattle.std.specs.Prelude.{◌≡◌, ℕ, if◌then◌else◌, List, Option, Some, is_some, length, slice_get, true};
ghost use Rattle.nv_core.specs.Ending.{IsEnded};
ghost use Rattle.nv_core.specs.Front.{IsBeside, IsLive, IsSideOf};
ghost use Rattle.nv_core.specs.Kept.{IsLent};
ghost use Rattle.nv_laws_sound.specs.Side.{IsKept};
ghost use Rattle.nv_core.specs.Reaping.{waits_in};
ghost use Rattle.nv_core.specs.Groups.{statuses_in};
ghost use Rattle.nv_core.specs.Take.{is_front_takeable};
ghost use Rattle.nv_entry.specs.Status.{StatusField};
ghost use Rattle.nv_mem.specs.GuestMap.{mapped};
ghost use Rattle.nv_model.specs.Controller.{front, is_enabled, post};
ghost use Rattle.nv_model.specs.Laws.{QueuesInPlace};
ghost use Rattle.nv_model.specs.Memory.{byte_in, image};
ghost use Rattle.nv_world_model.specs.Due.{due};
ghost use Rattle.nv_world_model.specs.Share.{Share};
ghost use Rattle.nv_world_model.specs.World.{Command, Ended, World, group_in};

use crate::area::completion_slot;
use crate::front::Front;
use crate::lane::Lane;
use crate::layout::{Grant, Layout};
use crate::reaping::{last_dword_at, phase_in};
use crate::taking::is_io_queue;
use nv_mem::MemoryCell;
use nv_plan::tags_wanted;
use nv_vctl::Vctl;
use nv_world_model::Event;

impl Front {
    /// Whether a guest's admin queue has something to do.
    pub fn admin_due(&self, layout: &Layout, guest: u8) -> bool
        requires { IsKept layout.now self.now }
        ensures { (memory : List ℕ) (w : World) → IsSideOf self.now memory w → result ≡ due layout.now (Event.Admin guest) w }
    {
        let Some(_given) = layout.guest(guest) else {
            return false;
        };
        let number = usize::from(guest);
        if number >= self.controllers.len() {
            return false;
        }
        let vctl = &self.controllers[number];
        nv_admin::is_due(vctl)
    }

    /// Whether a completion of a lane waits.
    pub fn reap_due<C: MemoryCell>(&self, layout: &Layout, lane: u8, host: &[C]) -> bool
        requires { IsLent layout.now self.now (C.bytes host.now) }
        ensures answer { result ≡ waits_in layout.now lane (slice_get self.now.lanes lane) (C.bytes host.now) }
        ensures beside { (w : World) → IsBeside self.now (C.bytes host.now) w → IsLive layout.now w → result ≡ due layout.now (Event.Reap lane) w }
    {
        let at = usize::from(lane);
        if at >= self.lanes.len() {
            return false;
        }
        // The end of the host fits in 64 bits.
        let _known = C::len(host);
        let ring = &self.lanes[at];
        let slot = completion_slot(layout.mediator(), lane, ring.head());
        let last = last_dword_at(slot, host);
        phase_in(slot, last, host) == ring.wanted_phase()
    }

    /// Whether a command of a guest's I/O queue may be taken, and as many tags of the lane are free as it wants.
    #[inline(never)]
    pub fn take_due<C: MemoryCell>(
        &self,
        layout: &Layout,
        guest: u8,
        queue: u16,
        lane: u8,
        host: &[C],
    ) -> bool
        requires { IsLent layout.now self.now (C.bytes host.now) }
        ensures { (w : World) → IsSideOf self.now (C.bytes host.now) w → result ≡ due layout.now (Event.Take guest queue lane) w }
    {
        let Some(given) = layout.guest(guest) else {
            return false;
        };
        let number = usize::from(guest);
        if number >= self.controllers.len() {
            return false;
        }
        let at = usize::from(lane);
        if at >= self.lanes.len() {
            return false;
        }
        if !is_io_queue(queue) {
            return false;
        }
        let vctl = &self.controllers[number];
        let ring = &self.lanes[at];
        is_takeable(queue, given, host, vctl, ring)
    }

    /// Whether all tags of the command that goes by a tag have ended, and its guest's controller has room for its completion or is not enabled.
    #[inline(never)]
    pub fn post_due(&self, layout: &Layout, lane: u8, tag: u8) -> bool
        requires { IsKept layout.now self.now }
        ensures { (memory : List ℕ) (w : World) → IsSideOf self.now memory w → result ≡ due layout.now (Event.Post lane tag) w }
    {
        if self.unended(lane, tag).is_some() {
            return false;
        }
        let at = usize::from(lane);
        let ring = &self.lanes[at];
        if !have_ended(tag, ring) {
            return false;
        }
        let claim = ring.ended(tag);
        let guest = claim.guest;
        let Some(_given) = layout.guest(guest) else {
            return false;
        };
        let vctl = &self.controllers[usize::from(guest)];
        may_end(claim.queue, vctl)
    }
}

// Whether a command of a queue may be taken, and as many tags are free as it wants: one, where the guest has one extent, whatever the command is.
fn is_takeable<C: MemoryCell>(
    queue: u16,
    given: &Grant,
    host: &[C],
    vctl: &Vctl,
    ring: &Lane,
) -> bool
    requires host { given.now.memory_map.host_len ≡ length (C.bytes host.now) }
    requires in_place { QueuesInPlace (mapped given.now.memory_map.regions) vctl.now }
    ensures { let memory = image given.now.memory_map.regions (byte_in (C.bytes host.now)) in
        result ≡ is_front_takeable (front vctl.now queue) given.now.namespace memory ring.now.tags }
{
    if given.ns().len() == 1 {
        return vctl.waits(queue) && ring.has_free(1);
    }
    let Some(entry) = vctl.peek_sqe(queue, given.map(), host) else {
        return false;
    };
    ring.has_free(tags_wanted(&entry, given.ns()))
}

// Whether all tags of the command that goes by this one have ended.
fn have_ended(tag: u8, ring: &Lane) -> bool
    requires ended { IsEnded (slice_get ring.now.tags tag) }
    requires led { (command : Command) (st : StatusField) (share : Option Share) →
        slice_get ring.now.tags tag ≡ Some (Ended command st share) → command.leader ≡ tag }
    ensures { result ≡ is_some (statuses_in (group_in (Some ring.now) tag) ring.now) }
{
    ring.outcome(tag).is_some()
}

/// Whether a taken command of a queue may end: with a completion, for which there is room, or without one after a reset.
pub(crate) fn may_end(queue: u16, vctl: &Vctl) -> bool
    ensures { (cid : ℕ) (st : StatusField) → result ≡ (if is_enabled vctl.now then is_some (post vctl.now queue 0 cid st) else true) }
{
    if !vctl.is_enabled() {
        return true;
    }
    vctl.has_room(queue)
}
