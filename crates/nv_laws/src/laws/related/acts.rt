//! A guest's own acts.

ghost use Rattle.std.specs.Prelude.{◌≡◌, ℕ, Some, slice_get};
ghost use Rattle.nv_model.specs.Private.{Private};
ghost use Rattle.nv_model.specs.declared.act.Act.{Act};
ghost use Rattle.nv_world_model.specs.declared.event.Event.TheVariants as event;
ghost use Rattle.nv_world_model.specs.Geometry.{Geometry, Guest};
ghost use Rattle.nv_world_model.specs.Step.{step};
ghost use Rattle.nv_world_model.specs.World.{World};
ghost use Rattle.nv_laws.specs.Following.{GoesAlong, IsDisciplinedAt, IsReached};
ghost use Rattle.nv_laws.specs.Related.{Related};

/// The private controller of a disciplined guest goes along with its acts: each has the same reply on both.
pub fn acts_are_followed()
    ensures { (host_bytes : ℕ) (geometry : Geometry) (number : ℕ) (guest : Guest) (w : World) (p : Private) (a : Act) →
        slice_get geometry.guests number ≡ Some guest → IsReached host_bytes geometry w → Related geometry number guest w p →
        IsDisciplinedAt geometry number guest (event.Guest number a) w →
        GoesAlong geometry number guest (event.Guest number a) w p (step geometry (event.Guest number a) w) }
{}
