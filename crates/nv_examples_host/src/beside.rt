//! Which worlds have a mediator's side, which steps are made beside it, and which logs lead to it.

ghost use Rattle.std.specs.Prelude.{◌+◌, [], ◌∷◌, false, true};
ghost use Rattle.nv_core.specs.Front.{IsBeside, IsSideOf, IsStepBeside};
ghost use Rattle.nv_laws_sound.specs.Side.{opening_side};
ghost use Rattle.nv_examples_host.specs.Scenes.{elsewhere, given, reading, register_written, serving, side, start, unfitting, with_tails, world_of};
ghost use Rattle.nv_laws_front.specs.Reached.{IsFirst, IsReached};
ghost use Rattle.nv_model.specs.Memory.{stored};
ghost use Rattle.nv_model.specs.declared.reply.Reply.TheVariants as reply;
ghost use Rattle.nv_world_model.specs.Area.{completion_slot};
ghost use Rattle.nv_world_model.specs.Rows.{controller_with, set_up};
ghost use Rattle.nv_world_model.specs.Step.{step};
ghost use Rattle.nv_world_model.specs.World.{opening_lane, opening_world};
ghost use Rattle.nv_world_model.specs.declared.event.Event.TheVariants as event;

/// Worlds.
#[tactic(none)]
pub fn worlds()
    // A world has the side wherever the parts are that were handed on.
    ensures wherever_parts_are { IsBeside (side []) [] (world_of elsewhere []) }
    ensures with_their_places { IsSideOf (side []) [] (world_of elsewhere []) → ⊥ }
    ensures another_byte { IsBeside (side []) (7 ∷ []) (world_of (side []) []) → ⊥ }
    ensures other_tags { IsBeside (record (side []) { lanes = opening_lane ∷ opening_lane ∷ [] }) [] (world_of (side []) []) → ⊥ }
    ensures another_phase { IsBeside (record (side []) { lanes = reading 0 false ∷ opening_lane ∷ [] }) [] (world_of (side []) []) → ⊥ }
    ensures other_controllers { IsBeside (side (controller_with 16 1 ∷ [])) [] (world_of (side []) []) → ⊥ }
    ensures another_tail { IsBeside (with_tails 6 7) [] (world_of (side []) []) → ⊥ }
{}

/// Steps. A guest that is not there has no admin commands.
#[tactic(none)]
pub fn steps()
    ensures ignored { IsStepBeside set_up (event.Admin 9) (world_of (side []) []) reply.Ignored (side []) [] }
    ensures another_answer { IsStepBeside set_up (event.Admin 9) (world_of (side []) []) reply.Done (side []) [] → ⊥ }
    ensures another_side { IsStepBeside set_up (event.Admin 9) (world_of (side []) []) reply.Ignored (with_tails 6 7) [] → ⊥ }
    // A Take gives a tag.
    ensures a_side_as_before { IsStepBeside given.geometry (event.Take 0 1 0) (world_of (serving 9 9).side []) reply.Done (serving 9 9).side [] → ⊥ }
    ensures another_memory { IsStepBeside set_up (event.Admin 9) (world_of (side []) []) reply.Ignored (side []) (7 ∷ []) → ⊥ }
{}

/// Worlds at their start.
#[tactic(none)]
pub fn starts()
    // The last byte of the second lane's completion ring is not zero.
    ensures a_ring_that_is_not_clear { IsFirst given (opening_world (stored (λ _. 0) (completion_slot 0x400000 1 0 + 1039) (1 ∷ [])) (λ _ _. 0) given.geometry 2) → ⊥ }
    ensures a_mark { IsFirst given (record start { kept = (λ _. true) }) → ⊥ }
    ensures another_set_up { IsFirst (record given { lanes = 1 }) start → ⊥ }
{}

/// Logs.
#[tactic(none)]
pub fn logs()
    ensures another_answer { IsReached given start (opening_side given.geometry 2) [] (record { event = event.Admin 9; reply = reply.Done } ∷ []) start → ⊥ }
    ensures another_end { IsReached given start (opening_side given.geometry 2) [] [] (record start { kept = (λ _. true) }) → ⊥ }
    ensures another_side { IsReached given start (record (opening_side given.geometry 2) { tails = 1 ∷ 0 ∷ [] }) [] [] start → ⊥ }
    // The first guest has written a register, and the side is as before.
    ensures before_the_last_event { IsReached given start (opening_side given.geometry 2) [] (record { event = register_written; reply = reply.Done } ∷ []) (step given.geometry register_written start).world → ⊥ }
    ensures another_memory { IsReached given start (opening_side given.geometry 2) (7 ∷ []) [] start → ⊥ }
    // No completion holds a status of type 8.
    ensures a_status_of_no_completion { IsReached given start (opening_side given.geometry 2) [] (record { event = event.DevFail 9 0 unfitting; reply = reply.Ignored } ∷ []) start → ⊥ }
    ensures another_start { IsReached given (record start { kept = (λ _. true) }) (opening_side given.geometry 2) [] [] (record start { kept = (λ _. true) }) → ⊥ }
{}
