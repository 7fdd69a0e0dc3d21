//! Where the world and a guest's private controller begin, and what the guest can observe.

ghost use Rattle.std.specs.Prelude.{◌≡◌, ℕ, Some, slice_get};
ghost use Rattle.nv_model.specs.Private.{Private};
ghost use Rattle.nv_world_model.specs.Agrees.{Agrees};
ghost use Rattle.nv_world_model.specs.Geometry.{Geometry, Guest};
ghost use Rattle.nv_world_model.specs.Headline.{start_in};
ghost use Rattle.nv_world_model.specs.SetUp.{SetUp};
ghost use Rattle.nv_world_model.specs.World.{World, opening_world};
ghost use Rattle.nv_laws_sound.specs.Consistent.{IsConsistent};
ghost use Rattle.nv_laws.specs.Related.{Related};

/// At the start they correspond to each other, whatever memory and disk have.
pub fn they_begin_alike()
    ensures { (s : SetUp) (host : ℕ → ℕ) (disk : ℕ → ℕ → ℕ) (number : ℕ) (guest : Guest) → slice_get s.geometry.guests number ≡ Some guest →
        let w = opening_world host disk s.geometry s.lanes in Related s.geometry number guest w (start_in guest w) }
{}

/// Where they correspond to each other, in a world that events lead to, they agree in all that the guest can observe.
pub fn what_stands_for_it_agrees()
    ensures { (geometry : Geometry) (number : ℕ) (guest : Guest) (w : World) (p : Private) →
        slice_get geometry.guests number ≡ Some guest → IsConsistent geometry w → Related geometry number guest w p →
        Agrees number guest w p }
{}
