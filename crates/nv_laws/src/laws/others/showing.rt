//! What is shown to a guest of the mediator's area.

ghost use Rattle.std.specs.Prelude.{◌≡◌, ℕ, true, Some, length, slice_get};
ghost use Rattle.nv_world_model.specs.Geometry.{Geometry, Guest};
ghost use Rattle.nv_world_model.specs.View.{lies_in, shown};
ghost use Rattle.nv_world_model.specs.World.{World};
ghost use Rattle.nv_laws_sound.specs.Consistent.{IsConsistent};
ghost use Rattle.nv_laws_sound.specs.LaidOut.{IsLaidOut};
ghost use Rattle.nv_laws.specs.Leaving.{IsShownAt};

/// It is bytes of tags of its own: their pages, or the slots of their entries and completions.
pub fn what_is_shown_is_of_own_tags()
    ensures { (host_bytes : ℕ) (geometry : Geometry) (w : World) (number : ℕ) (guest : Guest) (addr : ℕ) →
        IsLaidOut host_bytes (length w.lanes) geometry → IsConsistent geometry w → slice_get geometry.guests number ≡ Some guest →
        lies_in (shown number guest geometry w) addr ≡ true → IsShownAt number geometry w addr }
{}
