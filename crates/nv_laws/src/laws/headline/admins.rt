//! A guest's admin steps.

ghost use Rattle.std.specs.Prelude.{◌≡◌, ℕ, Some, slice_get};
ghost use Rattle.nv_world_model.specs.declared.event.Event.TheVariants as event;
ghost use Rattle.nv_world_model.specs.Geometry.{Geometry, Guest};
ghost use Rattle.nv_laws.specs.Following.{IsFollowed};

/// The private controller of a disciplined guest follows each admin step of the guest's. Where one is done, it makes its own, which finds the same
/// command, and both correspond to each other after it.
pub fn admin_steps_are_followed()
    ensures { (host_bytes : ℕ) (geometry : Geometry) (number : ℕ) (guest : Guest) →
        slice_get geometry.guests number ≡ Some guest → IsFollowed geometry host_bytes number guest (event.Admin number) }
{}
