//! Worlds that are cut down to what is a guest's.

ghost use Rattle.std.specs.Prelude.{◌≡◌, ℕ, Some, slice_get};
ghost use Rattle.nv_world_model.specs.CutDown.{cut};
ghost use Rattle.nv_world_model.specs.Geometry.{Geometry, Guest};
ghost use Rattle.nv_world_model.specs.View.{IsAlike};
ghost use Rattle.nv_world_model.specs.World.{World};
ghost use Rattle.nv_laws_sound.specs.LaidOut.{IsLaidOut};

/// A guest can't distinguish a world from the same world cut down to that guest's view and the shared numbers.
pub fn a_world_cut_down_looks_alike()
    ensures { (host_bytes lanes : ℕ) (geometry : Geometry) (w : World) (number : ℕ) (guest : Guest) → IsLaidOut host_bytes lanes geometry →
        slice_get geometry.guests number ≡ Some guest → IsAlike number guest geometry w (cut number guest geometry w) }
{}
