//! Takes of a guest's commands.

ghost use Rattle.std.specs.Prelude.{◌≡◌, ℕ, Some, slice_get};
ghost use Rattle.nv_model.specs.Private.{Private};
ghost use Rattle.nv_world_model.specs.declared.event.Event.TheVariants as event;
ghost use Rattle.nv_world_model.specs.Geometry.{Geometry, Guest};
ghost use Rattle.nv_world_model.specs.Step.{step};
ghost use Rattle.nv_world_model.specs.World.{World};
ghost use Rattle.nv_laws.specs.Following.{GoesAlong, IsDisciplinedAt, IsReached};
ghost use Rattle.nv_laws.specs.Related.{Related};

/// The private controller of a disciplined guest goes along with each take of a command of the guest's: it takes the same 64 bytes, under the name of the
/// lowest of the tags that are claimed; the others have no name.
pub fn takes_are_followed()
    ensures { (host_bytes : ℕ) (geometry : Geometry) (number queue lane : ℕ) (guest : Guest) (w : World) (p : Private) →
        slice_get geometry.guests number ≡ Some guest → IsReached host_bytes geometry w → Related geometry number guest w p →
        IsDisciplinedAt geometry number guest (event.Take number queue lane) w →
        GoesAlong geometry number guest (event.Take number queue lane) w p (step geometry (event.Take number queue lane) w) }
{}
