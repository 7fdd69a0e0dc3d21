//! What an event reads: of other guests nothing, so far as its reply shows.

ghost use Rattle.std.specs.Prelude.{◌≡◌, ℕ, Some, slice_get};
ghost use Rattle.nv_world_model.specs.declared.event.Event.{Event};
ghost use Rattle.nv_world_model.specs.Contained.{owner};
ghost use Rattle.nv_world_model.specs.CutDown.{cut};
ghost use Rattle.nv_world_model.specs.Geometry.{Geometry, Guest};
ghost use Rattle.nv_world_model.specs.Step.{step};
ghost use Rattle.nv_world_model.specs.View.{IsAlike};
ghost use Rattle.nv_world_model.specs.World.{World};
ghost use Rattle.nv_laws_sound.specs.Consistent.{IsConsistent};
ghost use Rattle.nv_laws_sound.specs.LaidOut.{IsLaidOut};
ghost use Rattle.nv_laws.specs.Alike.{GoesByItsOwn};

/// An event of a guest's has the same reply in worlds that are alike to that guest, where what goes by a tag of its own is its own, as in each
/// world that events lead to. So it also has the same reply in such a world cut down to that guest.
pub fn replies_are_by_what_is_the_owners()
    ensures alike { (geometry : Geometry) (w z : World) (number : ℕ) (guest : Guest) (e : Event) → slice_get geometry.guests number ≡ Some guest →
        GoesByItsOwn number w → GoesByItsOwn number z → IsAlike number guest geometry w z → owner e w ≡ Some number → (step geometry e w).reply ≡ (step geometry e z).reply }
    ensures cut_down { (host_bytes lanes : ℕ) (geometry : Geometry) (w : World) (number : ℕ) (guest : Guest) (e : Event) → IsLaidOut host_bytes lanes geometry →
        IsConsistent geometry w → slice_get geometry.guests number ≡ Some guest → owner e w ≡ Some number →
        (step geometry e w).reply ≡ (step geometry e (cut number guest geometry w)).reply }
{}
