//! Events of others.

ghost use Rattle.std.specs.Prelude.{◌≡◌, ℕ, Some, slice_get};
ghost use Rattle.nv_model.specs.Private.{Private};
ghost use Rattle.nv_world_model.specs.declared.event.Event.{Event};
ghost use Rattle.nv_world_model.specs.Contained.{owner};
ghost use Rattle.nv_world_model.specs.Geometry.{Geometry, Guest};
ghost use Rattle.nv_world_model.specs.Step.{step};
ghost use Rattle.nv_world_model.specs.World.{World};
ghost use Rattle.nv_laws.specs.Following.{GoesAlong, IsReached};
ghost use Rattle.nv_laws.specs.Related.{Related};

/// The private controller of a guest follows each event that isn't the guest's, whether that guest is disciplined or not. A unit of another's
/// Flush, and a Keep, represent a Keep of each block of the guest's that they reach. Any other event represents nothing.
pub fn events_of_others_are_followed()
    ensures { (host_bytes : ℕ) (geometry : Geometry) (number : ℕ) (guest : Guest) (w : World) (p : Private) (e : Event) →
        slice_get geometry.guests number ≡ Some guest → IsReached host_bytes geometry w → Related geometry number guest w p →
        (owner e w ≡ Some number → ⊥) → GoesAlong geometry number guest e w p (step geometry e w) }
{}
