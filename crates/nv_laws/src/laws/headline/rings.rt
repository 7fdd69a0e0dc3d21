//! What a physical command of a guest's goes through without a step of its private controller's: it is taken into the device, and answered.

ghost use Rattle.std.specs.Prelude.{◌≡◌, ℕ, Some, slice_get};
ghost use Rattle.nv_model.specs.Private.{Private};
ghost use Rattle.nv_world_model.specs.declared.event.Event.TheVariants as event;
ghost use Rattle.nv_world_model.specs.Contained.{owner};
ghost use Rattle.nv_world_model.specs.Geometry.{Geometry, Guest};
ghost use Rattle.nv_world_model.specs.Step.{step};
ghost use Rattle.nv_world_model.specs.World.{World};
ghost use Rattle.nv_laws.specs.Following.{GoesAlong, IsReached};
ghost use Rattle.nv_laws.specs.Related.{Related};

/// The private controller goes along where the device takes a share of the guest's command: all its units are left.
pub fn takes_are_followed()
    ensures { (host_bytes : ℕ) (geometry : Geometry) (number : ℕ) (guest : Guest) (w : World) (p : Private) (lane : ℕ) →
        slice_get geometry.guests number ≡ Some guest → IsReached host_bytes geometry w → Related geometry number guest w p →
        owner (event.DevTake lane) w ≡ Some number →
        GoesAlong geometry number guest (event.DevTake lane) w p (step geometry (event.DevTake lane) w) }
{}

/// And where the device answers it: all its units have moved, and its status reports whether a Compare differed.
pub fn posts_are_followed()
    ensures { (host_bytes : ℕ) (geometry : Geometry) (number : ℕ) (guest : Guest) (w : World) (p : Private) (lane slot : ℕ) →
        slice_get geometry.guests number ≡ Some guest → IsReached host_bytes geometry w → Related geometry number guest w p →
        owner (event.DevPost lane slot) w ≡ Some number →
        GoesAlong geometry number guest (event.DevPost lane slot) w p (step geometry (event.DevPost lane slot) w) }
{}
