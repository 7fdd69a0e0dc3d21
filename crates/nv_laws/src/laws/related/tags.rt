//! A guest's commands until they are handed on, and where their completions are read.

ghost use Rattle.std.specs.Prelude.{◌≡◌, ℕ, Some, slice_get};
ghost use Rattle.nv_model.specs.Private.{Private};
ghost use Rattle.nv_world_model.specs.declared.event.Event.TheVariants as event;
ghost use Rattle.nv_world_model.specs.Contained.{owner};
ghost use Rattle.nv_world_model.specs.Geometry.{Geometry, Guest};
ghost use Rattle.nv_world_model.specs.Step.{step};
ghost use Rattle.nv_world_model.specs.World.{World};
ghost use Rattle.nv_laws.specs.Following.{GoesAlong, IsReached};
ghost use Rattle.nv_laws.specs.Related.{Related};

/// The private controller of a guest follows where a list of the guest's is read, which represents no step of it, and where a command of the guest
/// is given up, whatever tags it has.
pub fn lists_and_give_ups_are_followed()
    ensures lists { (host_bytes : ℕ) (geometry : Geometry) (number lane tag addr len : ℕ) (guest : Guest) (w : World) (p : Private) →
        slice_get geometry.guests number ≡ Some guest → IsReached host_bytes geometry w → Related geometry number guest w p →
        owner (event.List lane tag addr len) w ≡ Some number →
        GoesAlong geometry number guest (event.List lane tag addr len) w p (step geometry (event.List lane tag addr len) w) }
    ensures give_ups { (host_bytes : ℕ) (geometry : Geometry) (number lane tag : ℕ) (guest : Guest) (w : World) (p : Private) →
        slice_get geometry.guests number ≡ Some guest → IsReached host_bytes geometry w → Related geometry number guest w p →
        owner (event.GiveUp lane tag) w ≡ Some number →
        GoesAlong geometry number guest (event.GiveUp lane tag) w p (step geometry (event.GiveUp lane tag) w) }
{}

/// So it does, without a step, where the mediator reads a completion of the guest's: none of its commands has failed, so the status of that share is
/// passed on as it is, and of the command's units it leaves none, as it did before.
pub fn reaps_are_followed()
    ensures { (host_bytes : ℕ) (geometry : Geometry) (number lane : ℕ) (guest : Guest) (w : World) (p : Private) →
        slice_get geometry.guests number ≡ Some guest → IsReached host_bytes geometry w → Related geometry number guest w p →
        owner (event.Reap lane) w ≡ Some number → GoesAlong geometry number guest (event.Reap lane) w p (step geometry (event.Reap lane) w) }
{}
