//! Commands that are handed on.

ghost use Rattle.std.specs.Prelude.{◌≡◌, ℕ, Some, slice_get};
ghost use Rattle.nv_world_model.specs.declared.event.Event.TheVariants as event;
ghost use Rattle.nv_world_model.specs.Geometry.{Geometry, Guest};
ghost use Rattle.nv_laws.specs.Following.{IsFollowed};

/// The private controller of a disciplined guest goes along where a command of the guest's is answered at once or handed on: it judges the command, and
/// the verdict in its own memory is the one by which the mediator acts. All units are left then, in whichever tag's share they are.
pub fn submits_are_followed()
    ensures { (host_bytes : ℕ) (geometry : Geometry) (number : ℕ) (guest : Guest) (lane tag : ℕ) → slice_get geometry.guests number ≡ Some guest →
        IsFollowed geometry host_bytes number guest (event.Submit lane tag) }
{}
