//! Commands that are completed.

ghost use Rattle.std.specs.Prelude.{◌≡◌, ℕ, Some, slice_get};
ghost use Rattle.nv_world_model.specs.declared.event.Event.TheVariants as event;
ghost use Rattle.nv_world_model.specs.Geometry.{Geometry, Guest};
ghost use Rattle.nv_laws.specs.Following.{IsFollowed};

/// The private controller of a disciplined guest goes along where a command of the guest's is completed, or runs out after a reset: all its tags become
/// free at once. What the shares of a bounced Read have read reaches the guest's memory first, tag by tag, as the private controller has had it since the
/// command's units moved. Where the completion queue is full, or a tag of the command has not ended, nothing is done.
pub fn posts_are_followed()
    ensures { (host_bytes : ℕ) (geometry : Geometry) (number : ℕ) (guest : Guest) (lane tag : ℕ) → slice_get geometry.guests number ≡ Some guest →
        IsFollowed geometry host_bytes number guest (event.Post lane tag) }
{}
