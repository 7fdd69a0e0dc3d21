//! What the calls of a device read, write and leave as it was, as functions that do nothing: each contract is a law.

ghost use Rattle.std.specs.Prelude.{◌≡◌, ◌≢◌, ℕ, ◌+◌, ◌<◌, ◌⊎◌, ◌≤◌, Bool, List, slice_get};
ghost use Rattle.nv_entry.specs.Completion.{IsCompletion};
ghost use Rattle.nv_entry.specs.Opcode.{io_opcode};
ghost use Rattle.nv_entry.specs.Status.{StatusField};
ghost use Rattle.nv_entry.specs.Submission.{opcode_of};
ghost use Rattle.nv_model.specs.Laws.{AgreeAt, AgreeOn};
ghost use Rattle.nv_model.specs.Memory.{byte_in, bytes_from, gathered};
ghost use Rattle.nv_world_model.specs.Area.{completion_slot, ring_size, submission_slot, tag_count};
ghost use Rattle.nv_world_model.specs.Device.{Held};
ghost use Rattle.nv_world_model.specs.LaneRuns.{IsInLane, IsNotAmong, IsSameEffect, list_named, unit_places};
ghost use Rattle.nv_device.specs.Moving.{IsMoved, unit_of};
ghost use Rattle.nv_device.specs.Physical.{lane_of, with_lane};
ghost use Rattle.nv_device.specs.State.{Physical};
ghost use Rattle.nv_device.specs.Posting.{IsPosted};
ghost use Rattle.nv_device.specs.Taking.{front_of, taken};
ghost use Rattle.nv_model.specs.Queue.{cqe_size};
ghost use Rattle.nv_world_model.specs.SetUp.{most_lanes};

/// A call on one lane leaves the other lanes as they were: their positions and the commands in them.
pub fn a_call_leaves_the_other_lanes()
    ensures ring { (lane other tail : ℕ) (p : Physical) → other ≢ lane →
        slice_get (with_lane lane (record (lane_of p lane) { tail = tail }) p).lanes other ≡ slice_get p.lanes other }
    ensures taken { (lane other : ℕ) (host : List ℕ) (p : Physical) → other ≢ lane →
        slice_get (taken lane host p).lanes other ≡ slice_get p.lanes other }
    ensures moved { (lane slot number other : ℕ) (h : Held) (old_host new_host : List ℕ) (old new : Physical) →
        IsMoved lane slot number h old_host old new_host new → other ≢ lane →
        slice_get new.lanes other ≡ slice_get old.lanes other }
    ensures posted { (lane slot other : ℕ) (st : StatusField) (old_host new_host : List ℕ) (old new : Physical) →
        IsPosted lane slot st old_host old new_host new → other ≢ lane →
        slice_get new.lanes other ≡ slice_get old.lanes other }
{}

/// It leaves the bytes of their areas, too: a completion is written in its own lane's, and a unit writes where its command names.
pub fn a_call_leaves_the_bytes_of_other_lanes()
    ensures posted { (lane slot other at : ℕ) (st : StatusField) (old_host new_host : List ℕ) (old new : Physical) →
        IsPosted lane slot st old_host old new_host new → (lane_of old lane).posted < ring_size →
        IsInLane old.mediator other at → other ≢ lane → byte_in new_host at ≡ byte_in old_host at }
    ensures moved { (lane slot number at : ℕ) (h : Held) (old_host new_host : List ℕ) (old new : Physical) →
        IsMoved lane slot number h old_host old new_host new →
        IsNotAmong at (unit_places (io_opcode (opcode_of h.entry)) number h.pieces) →
        byte_in new_host at ≡ byte_in old_host at }
{}

/// A completion that is posted is a completion queue entry in the next slot of the lane's completion ring, and no other byte changes.
pub fn a_posted_completion_is_the_standards()
    ensures entry { (lane slot : ℕ) (st : StatusField) (old_host new_host : List ℕ) (old new : Physical) →
        IsPosted lane slot st old_host old new_host new →
        (lane_of old lane).head < ring_size → lane < most_lanes → slot < tag_count → st.sct < 8 → st.sc < 256 →
        IsCompletion 0 (lane_of old lane).head (lane + 1) slot (lane_of old lane).phase st
        (bytes_from (byte_in new_host) (completion_slot old.mediator lane (lane_of old lane).posted) 16) }
    ensures others { (lane slot at : ℕ) (st : StatusField) (old_host new_host : List ℕ) (old new : Physical) →
        IsPosted lane slot st old_host old new_host new →
        (at < completion_slot old.mediator lane (lane_of old lane).posted)
        ⊎ (completion_slot old.mediator lane (lane_of old lane).posted + cqe_size ≤ at) →
        byte_in new_host at ≡ byte_in old_host at }
{}

/// What a call makes of the device depends on no bytes of the host but those of the front entry and its list, or those that the
/// unit's command names.
pub fn a_call_reads_what_is_named()
    ensures taken { (lane : ℕ) (host other : List ℕ) (p : Physical) →
        AgreeAt (byte_in host) (byte_in other) (submission_slot p.mediator lane (lane_of p lane).head, 64) →
        AgreeOn (byte_in host) (byte_in other) (list_named (io_opcode (opcode_of (front_of lane host p))) (front_of lane host p) (byte_in host)) →
        taken lane other p ≡ taken lane host p }
    ensures moved { (number : ℕ) (h : Held) (host other : List ℕ) (disk : List (List ℕ)) (kept : List Bool) →
        gathered (byte_in host) (unit_places (io_opcode (opcode_of h.entry)) number h.pieces)
        ≡ gathered (byte_in other) (unit_places (io_opcode (opcode_of h.entry)) number h.pieces) →
        IsSameEffect (unit_of number h host disk kept) (unit_of number h other disk kept) }
{}
