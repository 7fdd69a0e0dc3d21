//! The parts of a plan, put on the lane's submission ring one after the other, each in a tag of its own.

ghost use Rattle.std.specs.Prelude.{◌≡◌, ◌<◌, Some, length};
ghost use Rattle.nv_core.specs.Submit.{HasRoom, HaveRoom, WaitsForPlan, host_carried, host_handed, slot_after, tail_handed};
ghost use Rattle.nv_model.specs.Memory.{byte_in};
ghost use Rattle.nv_plan.specs.Made.{share_made, shares_made};
ghost use Rattle.nv_world_model.specs.Area.{ring_size};
ghost use Rattle.nv_world_model.specs.Share.{Share};
ghost use Rattle.nv_world_model.specs.World.{group_in};

use crate::area::TagPlace;
use crate::lane::Lane;
use crate::parts::is_nothing;
use crate::writing::write;
use nv_mem::MemoryCell;
use nv_model::limits::RING_SLOTS;
use nv_plan::Plan;
use nv_ring::Ring;
use nv_tags::Group;

/// Hands all parts of a plan on, in order, each in its tag of the command that waits for the plan and goes by the tag of `place`. The first
/// entry goes to slot `tail` of the lane's submission ring, which becomes the slot after the last.
pub(crate) fn hand_all<C: MemoryCell>(
    plan: &Plan,
    place: TagPlace,
    ring: &Lane,
    host: &mut [C],
    tail: &mut u16,
)
    requires room { HaveRoom place.mediator place.lane plan.now.given (C.bytes host.old) }
    requires tail { tail.old < ring_size }
    requires waits { WaitsForPlan plan.now.given.namespace place.tag ring.now }
    ensures bytes { byte_in (C.bytes host.new) ≡ host_handed (group_in (Some ring.now) place.tag) (shares_made plan.now) plan.now.given plan.now.job.sqe
        place.mediator place.lane tail.old (byte_in (C.bytes host.old)) }
    ensures tail { tail.new ≡ tail_handed (group_in (Some ring.now) place.tag) (shares_made plan.now) tail.old }
    ensures fits { tail.new < ring_size }
    ensures len { length (C.bytes host.new) ≡ length (C.bytes host.old) }
{
    if plan.parts() == 1 {
        hand_part(plan, 0, place, host, tail);
    } else {
        hand_parts(plan, place, ring.taken_group(place.tag), host, tail);
    }
}

// Hands all parts of a plan on, in order, each in one of these tags.
fn hand_parts<C: MemoryCell>(
    plan: &Plan,
    place: TagPlace,
    tags: Group,
    host: &mut [C],
    tail: &mut u16,
)
    requires room { HaveRoom place.mediator place.lane plan.now.given (C.bytes host.old) }
    requires tail { tail.old < ring_size }
    ensures bytes { byte_in (C.bytes host.new) ≡ host_handed tags (shares_made plan.now) plan.now.given plan.now.job.sqe
        place.mediator place.lane tail.old (byte_in (C.bytes host.old)) }
    ensures tail { tail.new ≡ tail_handed tags (shares_made plan.now) tail.old }
    ensures fits { tail.new < ring_size }
    ensures len { length (C.bytes host.new) ≡ length (C.bytes host.old) }
{
    let mut tags = tags;
    for part in 0..plan.parts() {
        let Some(tag) = tags.pop() else {
            return;
        };
        hand_part(plan, part, TagPlace { tag, ..place }, host, tail);
    }
}

// Hands a part on in a tag: what it needs is written, its entry in slot `tail` of the submission ring. A part without a range is no physical
// command, and nothing is done.
fn hand_part<C: MemoryCell>(plan: &Plan, part: u8, place: TagPlace, host: &mut [C], tail: &mut u16)
    requires part { part < length (shares_made plan.now) }
    requires room { HasRoom place.mediator place.lane place.tag plan.now.given (C.bytes host.old) }
    requires tail { tail.old < ring_size }
    ensures bytes { (share : Share) → share_made part plan.now ≡ Some share →
        byte_in (C.bytes host.new) ≡ host_carried share plan.now.given plan.now.job.sqe place.mediator place.lane place.tag
        tail.old (byte_in (C.bytes host.old)) }
    ensures tail { (share : Share) → share_made part plan.now ≡ Some share → tail.new ≡ slot_after share tail.old }
    ensures fits { tail.new < ring_size }
    ensures len { length (C.bytes host.new) ≡ length (C.bytes host.old) }
{
    if is_nothing(plan, part) {
        return;
    }
    write(plan, part, place, *tail, host);
    *tail = Ring::new(RING_SLOTS).next(*tail);
}
