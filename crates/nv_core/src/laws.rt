//! What the calls of a front come to in every world that has its side, as functions that do nothing: each contract is a law.
//!
//! A front knows neither where a part is that it has handed on nor what the physical controller does. So its side is that of many worlds, which differ in
//! these places alone.

ghost use Rattle.std.specs.Prelude.{◌≡◌, ℕ, List, Some, length, slice_get};
ghost use Rattle.nv_core.specs.Front.{IsBeside, IsReaped, IsSideOf, IsSideStep, IsStepBeside, IsStepInEach};
ghost use Rattle.nv_laws_sound.specs.Side.{Side, opening_side, IsKept};
ghost use Rattle.nv_core.specs.Kept.{IsLent};
ghost use Rattle.nv_core.specs.Places.{placed_lanes};
ghost use Rattle.nv_laws_sound.specs.Consistent.{IsConsistent};
ghost use Rattle.nv_laws_sound.specs.Mediators.{IsMediators};
ghost use Rattle.nv_laws_sound.specs.Unplaced.{IsControllers};
ghost use Rattle.nv_model.specs.Memory.{byte_in};
ghost use Rattle.nv_model.specs.declared.reply.Reply.{Reply};
ghost use Rattle.nv_world_model.specs.Geometry.{Geometry};
ghost use Rattle.nv_world_model.specs.Step.{step};
ghost use Rattle.nv_world_model.specs.World.{Lane, World, opening_world};
ghost use Rattle.nv_world_model.specs.declared.event.Event.{Event};

/// The side of a new front is that of the world at the start, whatever memory and disk have, and keeps what a side keeps.
pub fn a_front_begins_at_the_start()
    ensures world { (memory : List ℕ) (disk : ℕ → ℕ → ℕ) (geometry : Geometry) (lanes : ℕ) →
        IsSideOf (opening_side geometry lanes) memory (opening_world (byte_in memory) disk geometry lanes) }
    ensures kept { (geometry : Geometry) (lanes : ℕ) → IsKept geometry (opening_side geometry lanes) }
{}

/// A call is a step of each world that has the side but for the places of parts: it is answered as the definition's step is, and the world after that step has
/// the new side and memory in the same way.
pub fn a_call_is_a_step_of_each_world()
    ensures step { (geometry : Geometry) (e : Event) (old new : Side) (before after : List ℕ) (r : Reply) (w : World) → IsMediators e →
        IsSideStep geometry e old before r new after → length new.tails ≡ length old.tails → IsBeside old before w →
        IsStepBeside geometry e w r new after }
    ensures handed { (geometry : Geometry) (e : Event) (old new : Side) (before after : List ℕ) (r : Reply) (w : World) →
        IsStepInEach geometry e old before r new after → length new.tails ≡ length old.tails → IsBeside old before w →
        IsStepBeside geometry e w r new after }
{}

/// What the physical controller does to a world that has the side leaves it one, with the memory as it is then.
pub fn the_controller_leaves_a_side_alone()
    ensures { (geometry : Geometry) (e : Event) (side : Side) (before after : List ℕ) (w : World) → IsControllers e → IsBeside side before w →
        (step geometry e w).world.host ≡ byte_in after → IsBeside side after (step geometry e w).world }
{}

/// Where each part is follows from the rings and the physical controller, as in any consistent world: so nobody needs to keep it.
pub fn the_places_of_parts_follow()
    ensures { (geometry : Geometry) (w : World) → IsConsistent geometry w →
        placed_lanes geometry.mediator 0 w.host w.device w.lanes ≡ w.lanes }
{}

/// What a call asks of its side and memory it leaves to the next one, whatever is in memory: so any calls may follow each other.
pub fn a_call_may_follow_a_call()
    ensures step { (geometry : Geometry) (e : Event) (old new : Side) (before after : List ℕ) (r : Reply) → IsMediators e →
        IsSideStep geometry e old before r new after → length new.tails ≡ length old.tails → length after ≡ length before →
        IsLent geometry old before → IsLent geometry new after }
    ensures handed { (geometry : Geometry) (e : Event) (old new : Side) (before after : List ℕ) (r : Reply) → IsMediators e →
        IsStepInEach geometry e old before r new after → length new.tails ≡ length old.tails → length after ≡ length before →
        IsLent geometry old before → IsLent geometry new after }
    ensures reaped { (geometry : Geometry) (lane : ℕ) (l : Lane) (old new : Side) (memory : List ℕ) → slice_get old.lanes lane ≡ Some l →
        IsReaped geometry lane old new memory → new.tails ≡ old.tails → IsLent geometry old memory → IsLent geometry new memory }
{}
