//! What the mediator needs to know of where its commands are: nothing.

ghost use Rattle.std.specs.Prelude.{◌≡◌};
ghost use Rattle.nv_laws_sound.specs.Mediators.{IsMediators};
ghost use Rattle.nv_laws_sound.specs.Unplaced.{HasSameSide, IsControllers, after_unplaced, unplaced};
ghost use Rattle.nv_world_model.specs.Geometry.{Geometry};
ghost use Rattle.nv_world_model.specs.Step.{step};
ghost use Rattle.nv_world_model.specs.World.{World};
ghost use Rattle.nv_world_model.specs.declared.event.Event.{Event};

/// An event of a guest or of the mediator comes to the same whether or not it is known in which ring, or that it is in the physical controller, each part is
/// that was handed on: the reply, and all that is left of the world without these places.
pub fn the_mediator_does_not_ask_where_parts_are()
    ensures { (geometry : Geometry) (e : Event) (w : World) → IsMediators e →
        after_unplaced (step geometry e (unplaced w)) ≡ after_unplaced (step geometry e w) }
{}

/// What the physical controller does, and the failing of a command, changes nothing else of the mediator's side: its lanes but for these places, the tails
/// of its rings, and the guests' controllers are as they were.
pub fn the_controllers_events_leave_the_mediators_side_alone()
    ensures { (geometry : Geometry) (e : Event) (w : World) → IsControllers e → HasSameSide w (step geometry e w).world }
{}
