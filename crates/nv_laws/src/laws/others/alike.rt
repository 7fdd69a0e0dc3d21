//! Worlds that are alike to an event's owner.

ghost use Rattle.std.specs.Prelude.{◌≡◌, ℕ, Some, length, slice_get};
ghost use Rattle.nv_world_model.specs.declared.event.Event.{Event};
ghost use Rattle.nv_world_model.specs.Contained.{owner};
ghost use Rattle.nv_world_model.specs.Geometry.{Geometry, Guest};
ghost use Rattle.nv_world_model.specs.Step.{step};
ghost use Rattle.nv_world_model.specs.View.{IsAlike};
ghost use Rattle.nv_world_model.specs.World.{World};
ghost use Rattle.nv_laws_sound.specs.Consistent.{IsConsistent};
ghost use Rattle.nv_laws_sound.specs.LaidOut.{IsLaidOut};
ghost use Rattle.nv_laws.specs.Alike.{GoesByItsOwn, HasFittingStatus, HoldsNothingFree};

/// Two worlds that are alike to an event's owner are alike to it after the event. One of them is consistent, as each world is that events lead to.
/// Of the other only two things are required: the device holds nothing under a free tag, and what goes by a tag of the owner's is the owner's. So
/// it may be the world cut down to the owner's view.
pub fn events_keep_worlds_alike()
    ensures { (host_bytes : ℕ) (geometry : Geometry) (w z : World) (number : ℕ) (guest : Guest) (e : Event) →
        IsLaidOut host_bytes (length w.lanes) geometry → IsConsistent geometry w → HoldsNothingFree z →
        GoesByItsOwn number z → slice_get geometry.guests number ≡ Some guest →
        IsAlike number guest geometry w z → HasFittingStatus e → owner e w ≡ Some number →
        IsAlike number guest geometry (step geometry e w).world (step geometry e z).world }
{}
