//! The physical rings of a consistent world.

ghost use Rattle.std.specs.Prelude.{◌≡◌, ℕ, ◌≤◌, true, false, List, Some, slice_get};
ghost use Rattle.nv_model.specs.Queue.{ahead, is_full};
ghost use Rattle.nv_model.specs.Transcript.{ReadDone};
ghost use Rattle.nv_world_model.specs.Area.{ring_size, tag_count};
ghost use Rattle.nv_world_model.specs.Contained.{is_answered_at, is_queued_at, tag_stands};
ghost use Rattle.nv_world_model.specs.Device.{DeviceLane};
ghost use Rattle.nv_world_model.specs.Geometry.{Geometry};
ghost use Rattle.nv_world_model.specs.Share.{Share};
ghost use Rattle.nv_world_model.specs.World.{Command, InDevice, Flying, Lane, Tag, Taken, World};
ghost use Rattle.nv_laws_sound.specs.Consistent.{IsConsistent};

/// No physical ring holds more than its size minus 1, and there is room for the entry of a tag that is Taken, and for the completion of
/// one that is in the device.
pub fn no_ring_overflows()
    ensures entries { (geometry : Geometry) (w : World) (lane : ℕ) (l : Lane) (d : DeviceLane) → IsConsistent geometry w →
        slice_get w.lanes lane ≡ Some l → slice_get w.device lane ≡ Some d → ahead ring_size d.head d.tail ≤ tag_count }
    ensures completions { (geometry : Geometry) (w : World) (lane : ℕ) (l : Lane) (d : DeviceLane) → IsConsistent geometry w →
        slice_get w.lanes lane ≡ Some l → slice_get w.device lane ≡ Some d → ahead ring_size l.head d.posted ≤ tag_count }
    ensures room_for_an_entry { (geometry : Geometry) (w : World) (lane tag : ℕ) (l : Lane) (d : DeviceLane) (command : Command) (reads : List ReadDone) →
        IsConsistent geometry w → slice_get w.lanes lane ≡ Some l → slice_get w.device lane ≡ Some d → slice_get l.tags tag ≡ Some (Taken command reads) →
        is_full ring_size d.head d.tail ≡ false }
    ensures room_for_a_completion { (geometry : Geometry) (w : World) (lane tag : ℕ) (l : Lane) (d : DeviceLane) (command : Command) (share : Share) →
        IsConsistent geometry w → slice_get w.lanes lane ≡ Some l → slice_get w.device lane ≡ Some d →
        slice_get l.tags tag ≡ Some (Flying command share InDevice) → is_full ring_size l.head d.posted ≡ false }
{}

/// A slot of a ring is that of one tag.
pub fn a_slot_is_one_tags()
    ensures entry { (geometry : Geometry) (w : World) (lane at one other : ℕ) (l : Lane) (t u : Tag) → IsConsistent geometry w →
        slice_get w.lanes lane ≡ Some l → slice_get l.tags one ≡ Some t → slice_get l.tags other ≡ Some u →
        tag_stands (is_queued_at at) t ≡ true → tag_stands (is_queued_at at) u ≡ true → one ≡ other }
    ensures completion { (geometry : Geometry) (w : World) (lane at one other : ℕ) (l : Lane) (t u : Tag) → IsConsistent geometry w →
        slice_get w.lanes lane ≡ Some l → slice_get l.tags one ≡ Some t → slice_get l.tags other ≡ Some u →
        tag_stands (is_answered_at at) t ≡ true → tag_stands (is_answered_at at) u ≡ true → one ≡ other }
{}
