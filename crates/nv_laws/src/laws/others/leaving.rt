//! What each event leaves.

ghost use Rattle.std.specs.Prelude.{◌≡◌, ℕ, List, None, Some, length, slice_get};
ghost use Rattle.nv_mem.specs.GuestMap.{IsSound};
ghost use Rattle.nv_world_model.specs.declared.event.Event.{Event};
ghost use Rattle.nv_world_model.specs.declared.event.Event.TheVariants as event;
ghost use Rattle.nv_world_model.specs.Contained.{Contained, LeavesOthers, RaisesOne, owner};
ghost use Rattle.nv_world_model.specs.Geometry.{Geometry, Guest};
ghost use Rattle.nv_world_model.specs.SetUp.{SetUp, host_refusal_of};
ghost use Rattle.nv_world_model.specs.Step.{replay, step};
ghost use Rattle.nv_world_model.specs.World.{World, opening_world};
ghost use Rattle.nv_laws_sound.specs.Consistent.{IsConsistent};
ghost use Rattle.nv_laws_sound.specs.LaidOut.{IsLaidOut};

/// Every other guest's view is as it was. So is each byte that is neither the owner's nor the mediator's, and each block that isn't the owner's,
/// except that its mark may become set. This holds whatever the guests do, and whichever commands fail. It holds for one event in a consistent
/// world, and for the next event after any others since a set-up that isn't refused.
pub fn events_leave_others()
    ensures each { (host_bytes : ℕ) (geometry : Geometry) (w : World) (e : Event) → IsLaidOut host_bytes (length w.lanes) geometry → IsConsistent geometry w →
        LeavesOthers geometry (owner e w) w (step geometry e w).world }
    ensures from_start { (s : SetUp) (host : ℕ → ℕ) (disk : ℕ → ℕ → ℕ) (events : List Event) (e : Event) → host_refusal_of s ≡ None →
        ((number : ℕ) (guest : Guest) → slice_get s.geometry.guests number ≡ Some guest → IsSound guest.memory_map) →
        let w = replay s.geometry events (opening_world host disk s.geometry s.lanes) in
        LeavesOthers s.geometry (owner e w) w (step s.geometry e w).world }
{}

/// A Keep raises one block's mark at most; and an event that is no guest's, as one that names a tag that is free, is contained, whole.
pub fn events_of_nobody_are_contained()
    ensures keep { (geometry : Geometry) (w : World) (block : ℕ) → RaisesOne block w (step geometry (event.Keep block) w).world }
    ensures contained { (host_bytes : ℕ) (geometry : Geometry) (w : World) (e : Event) → IsLaidOut host_bytes (length w.lanes) geometry → IsConsistent geometry w →
        owner e w ≡ None → Contained geometry e w }
{}
