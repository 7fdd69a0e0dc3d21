//! Units of a guest's own command.

ghost use Rattle.std.specs.Prelude.{◌≡◌, ℕ, Some, slice_get};
ghost use Rattle.nv_model.specs.Private.{Private};
ghost use Rattle.nv_world_model.specs.declared.event.Event.TheVariants as event;
ghost use Rattle.nv_world_model.specs.Contained.{owner};
ghost use Rattle.nv_world_model.specs.Geometry.{Geometry, Guest};
ghost use Rattle.nv_world_model.specs.Step.{step};
ghost use Rattle.nv_world_model.specs.World.{World};
ghost use Rattle.nv_laws.specs.Following.{GoesAlong, IsDisciplinedAt, IsReached};
ghost use Rattle.nv_laws.specs.Related.{Related};

/// The private controller of a disciplined guest goes along where the device moves a unit of the guest's own command, in whichever of its tags: the
/// command's unit of that number moves there, and of a range each of its blocks' units. The units of its other tags stay as they are.
pub fn moves_are_followed()
    ensures { (host_bytes : ℕ) (geometry : Geometry) (number : ℕ) (guest : Guest) (w : World) (p : Private) (lane slot unit : ℕ) →
        slice_get geometry.guests number ≡ Some guest → IsReached host_bytes geometry w → Related geometry number guest w p →
        IsDisciplinedAt geometry number guest (event.DevMove lane slot unit) w → owner (event.DevMove lane slot unit) w ≡ Some number →
        GoesAlong geometry number guest (event.DevMove lane slot unit) w p (step geometry (event.DevMove lane slot unit) w) }
{}
