//! Commands that have ended, completed for their guests.

ghost use Rattle.std.specs.Prelude.{◌≡◌, ◌∷◌, ◌<◌, IfSome, List, ℕ, Option, Some, length, slice_get, true};
ghost use Rattle.nv_core.specs.Completing.{completion_stored};
ghost use Rattle.nv_core.specs.Ending.{AreParts, AreReadParts, IsBouncedRead, IsEnded, IsReadPart};
ghost use Rattle.nv_core.specs.Ending.{delivered_host, delivers, is_bounced, is_read_of, part_delivered, tag_delivered, tags_delivered};
ghost use Rattle.nv_core.specs.Front.{IsSideOf, IsSideStep};
ghost use Rattle.nv_core.specs.Kept.{IsLent};
ghost use Rattle.nv_core.specs.Submit.{IsPlaced};
ghost use Rattle.nv_entry.specs.Opcode.{io_opcode};
ghost use Rattle.nv_entry.specs.Status.{StatusField};
ghost use Rattle.nv_entry.specs.Submission.{opcode_of};
ghost use Rattle.nv_laws_sound.specs.Counted.{IsCounted};
ghost use Rattle.nv_mem.specs.GuestMap.{everywhere, mapped};
ghost use Rattle.nv_model.specs.Memory.{byte_in};
ghost use Rattle.nv_plan.specs.Made.{share_made, shares_made};
ghost use Rattle.nv_world_model.specs.Area.{bounce_page};
ghost use Rattle.nv_world_model.specs.Share.{Share};
ghost use Rattle.nv_world_model.specs.Step.{is_success};
ghost use Rattle.nv_world_model.specs.World.{Command, Ended, World, group_in};

use crate::area::TagPlace;
use crate::completing::Completion;
use crate::front::Front;
use crate::lane::Lane;
use crate::layout::Layout;
use nv_entry::{IoOpcode, Sqe, Status};
use nv_mem::{GuestMap, MemoryCell};
use nv_model::Reply;
use nv_plan::{Plan, PlanKind};
use nv_world_model::Event;

impl Front {
    /// The command that goes by a tag, whose parts have all ended, is completed for its guest, and its tags become free. The bytes of a
    /// bounced Read that succeeded reach the guest first. Where the guest has reset its controller meanwhile, the command runs out without a
    /// completion. Held, with nothing changed, where the guest's completion queue is full; Stale where some part has not ended, or the tag is
    /// none that a command goes by; Ignored where there is no such tag.
    ///
    /// The decision and the mediator's side of it are those of [`Front::complete`].
    ///
    /// The caller knows that each guest's controller counts the guest's commands, as it does in every world that events lead to.
    #[inline(never)]
    pub fn post<C: MemoryCell>(
        &mut self,
        layout: &Layout,
        lane: u8,
        tag: u8,
        host: &mut [C],
    ) -> Reply
        requires lent { IsLent layout.now self.old (C.bytes host.old) }
        requires counted { (w : World) → IsSideOf self.old (C.bytes host.old) w → IsCounted layout.now w }
        ensures step { IsSideStep layout.now (Event.Post lane tag) self.old (C.bytes host.old) result self.new (C.bytes host.new) }
        ensures tails { self.new.tails ≡ self.old.tails }
        ensures len { length (C.bytes host.new) ≡ length (C.bytes host.old) }
    {
        let ending = match self.ending(layout, lane, tag) {
            Ok(ending) => ending,
            Err(reply) => return reply,
        };
        let Some(given) = layout.guest(ending.guest) else {
            unreachable!()
        };
        let map = given.map();
        // The end of the host fits in 64 bits.
        let _known = C::len(host);
        let place = TagPlace {
            mediator: layout.mediator(),
            lane,
            tag,
        };
        let ring = &self.lanes[usize::from(lane)];
        deliver(place, ending.status, map, ring, host);
        let completion = self.finish(lane, tag, ending);
        store(completion, map, host);
        Reply::Done
    }
}

// A completion is stored in its guest's memory, where there is one.
fn store<C: MemoryCell>(completion: Option<Completion>, map: &GuestMap, host: &mut [C])
    requires host { map.now.host_len ≡ length (C.bytes host.old) }
    requires mapped { IfSome completion (λ c. everywhere (mapped map.now.regions) c.posting.addr (length c.posting.entry) ≡ true) }
    ensures bytes { byte_in (C.bytes host.new) ≡ completion_stored completion map.now.regions (byte_in (C.bytes host.old)) }
    ensures len { length (C.bytes host.new) ≡ length (C.bytes host.old) }
{
    if let Some(Completion { posting, .. }) = completion {
        nv_bounce::store(&posting.entry, posting.addr, map, host);
    }
}

// The bytes of a bounced Read that succeeded reach the guest, part by part, and in each place by place in order; nothing does of any other
// command.
fn deliver<C: MemoryCell>(
    place: TagPlace,
    status: Status,
    map: &GuestMap,
    ring: &Lane,
    host: &mut [C],
)
    requires placed { IsPlaced place.mediator place.lane place.tag }
    requires ended { IsEnded (slice_get ring.now.tags place.tag) }
    requires led { (command : Command) (st : StatusField) (share : Option Share) →
        slice_get ring.now.tags place.tag ≡ Some (Ended command st share) → command.leader ≡ place.tag }
    requires parts { (command : Command) (st : StatusField) (share : Option Share) →
        slice_get ring.now.tags place.tag ≡ Some (Ended command st share) → is_success status ≡ true →
        AreParts command.entry place.mediator place.lane place.tag ring.now (length (C.bytes host.old)) map.now.regions }
    requires host { map.now.host_len ≡ length (C.bytes host.old) }
    ensures bytes { byte_in (C.bytes host.new) ≡
        delivered_host status place.mediator place.lane (group_in (Some ring.now) place.tag) ring.now map.now.regions (byte_in (C.bytes host.old)) }
    ensures len { length (C.bytes host.new) ≡ length (C.bytes host.old) }
{
    let Some((plan, part)) = ring.ended_part(place.tag) else {
        return;
    };
    if delivers(plan.kind(), &ring.ended(place.tag).entry, status) {
        scatter_part(plan, part, place, map, host);
        deliver_others(place, map, ring, host);
    }
}

// The bytes of a bounced Read reach the guest, as far as they are not those of its first part.
fn deliver_others<C: MemoryCell>(place: TagPlace, map: &GuestMap, ring: &Lane, host: &mut [C])
    requires placed { IsPlaced place.mediator place.lane place.tag }
    requires ended { IsEnded (slice_get ring.now.tags place.tag) }
    requires led { (command : Command) (st : StatusField) (share : Option Share) →
        slice_get ring.now.tags place.tag ≡ Some (Ended command st share) → command.leader ≡ place.tag }
    requires parts { AreReadParts place.mediator place.lane place.tag ring.now (length (C.bytes host.old)) map.now.regions }
    requires host { map.now.host_len ≡ length (C.bytes host.old) }
    ensures bytes { (others : List ℕ) → group_in (Some ring.now) place.tag ≡ place.tag ∷ others →
        byte_in (C.bytes host.new) ≡ tags_delivered place.mediator place.lane others ring.now map.now.regions (byte_in (C.bytes host.old)) }
    ensures len { length (C.bytes host.new) ≡ length (C.bytes host.old) }
{
    let mut tags = ring.ended_group(place.tag);
    let _first = tags.pop();
    while let Some(tag) = tags.pop() {
        deliver_part(TagPlace { tag, ..place }, map, ring, host);
    }
}

// The bytes of a part of a bounced Read reach the guest.
fn deliver_part<C: MemoryCell>(place: TagPlace, map: &GuestMap, ring: &Lane, host: &mut [C])
    requires placed { IsPlaced place.mediator place.lane place.tag }
    requires part { IsReadPart (bounce_page place.mediator place.lane place.tag) (length (C.bytes host.old)) map.now.regions
        (slice_get ring.now.tags place.tag) }
    requires host { map.now.host_len ≡ length (C.bytes host.old) }
    ensures bytes { byte_in (C.bytes host.new) ≡
        tag_delivered (slice_get ring.now.tags place.tag) (bounce_page place.mediator place.lane place.tag) map.now.regions (byte_in (C.bytes host.old)) }
    ensures len { length (C.bytes host.new) ≡ length (C.bytes host.old) }
{
    let Some((plan, part)) = ring.ended_part(place.tag) else {
        unreachable!()
    };
    scatter_part(plan, part, place, map, host);
}

// The bytes of a part of a bounced Read reach the guest from the bounce pages of the part's tag.
fn scatter_part<C: MemoryCell>(
    plan: &Plan,
    part: u8,
    place: TagPlace,
    map: &GuestMap,
    host: &mut [C],
)
    requires placed { IsPlaced place.mediator place.lane place.tag }
    requires part { part < length (shares_made plan.now) }
    requires read { (share : Share) → share_made part plan.now ≡ Some share →
        IsBouncedRead share.plan (bounce_page place.mediator place.lane place.tag) (length (C.bytes host.old)) map.now.regions }
    requires host { map.now.host_len ≡ length (C.bytes host.old) }
    ensures bytes { (share : Share) → share_made part plan.now ≡ Some share → byte_in (C.bytes host.new) ≡
        part_delivered share.plan (bounce_page place.mediator place.lane place.tag) map.now.regions (byte_in (C.bytes host.old)) }
    ensures len { length (C.bytes host.new) ≡ length (C.bytes host.old) }
{
    nv_bounce::scatter(place.bounce_page(), plan.part_places(part), map, host);
}

// Whether a command with a plan of that kind, which has ended with that status, is a bounced Read that succeeded.
fn delivers(kind: PlanKind, entry: &Sqe, status: Status) -> bool
    ensures { result ≡ delivers kind entry.now status }
{
    is_bounced(kind) && is_read(entry) && status.is_success()
}

// Whether a plan goes by way of the bounce pages.
fn is_bounced(kind: PlanKind) -> bool
    ensures { result ≡ is_bounced kind }
{
    matches!(kind, PlanKind::Bounced)
}

// Whether a command is a Read.
fn is_read(entry: &Sqe) -> bool
    ensures { result ≡ is_read_of (io_opcode (opcode_of entry.now)) }
{
    matches!(entry.io_opcode(), Some(IoOpcode::Read))
}
