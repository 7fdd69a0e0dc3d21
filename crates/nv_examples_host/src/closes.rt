//! What a close comes to.

ghost use Rattle.std.specs.Prelude.{ℕ, ◌++◌, [], ◌∷◌, All, List, replicate, true};
ghost use Rattle.nv_core.specs.Front.{IsReaped};
ghost use Rattle.nv_laws_sound.specs.Side.{Side};
ghost use Rattle.nv_entry.specs.StatusCode.{done_with};
ghost use Rattle.nv_entry.specs.declared.status_code.StatusCode.TheVariants.{InternalError, Success};
ghost use Rattle.nv_examples_host.specs.Scenes.{one_lane, busy_lane, closed_but_one, command_of, flying, low, one_tag, reading, side, two_slots, with_tails};
ghost use Rattle.nv_host.specs.Closing.{AreDone, AreEach, AreReaped, IsDrained, IsEndedBy, IsEnding, IsLaneAlone, IsOver, IsRingAlone, over};
ghost use Rattle.nv_host.specs.Served.{LeadsTo, Served};
ghost use Rattle.nv_world_model.specs.Geometry.{Geometry};
ghost use Rattle.nv_world_model.specs.Rows.{controller_with};
ghost use Rattle.nv_world_model.specs.World.{InDevice, Taken, World, opening_lane};
ghost use Rattle.nv_world_model.specs.declared.event.Event.TheVariants as event;
ghost use Rattle.nv_world_model.specs.declared.logged.Logged.{Logged};

/// Events by which a lane's commands end.
#[tactic(none)]
pub fn endings()
    ensures a_reap { IsEnding 1 (event.Reap 1) }
    ensures a_take_by_the_drive { IsEnding 1 (event.DevTake 1) }
    ensures a_failure { IsEnding 1 (event.DevFail 1 5 (done_with InternalError)) }
    ensures one_given_up { IsEnding 1 (event.GiveUp 1 5) }
    ensures a_reap_of_another_lane { IsEnding 1 (event.Reap 0) → ⊥ }
    ensures a_take_from_another_lane { IsEnding 1 (event.DevTake 0) → ⊥ }
    ensures a_failure_on_another_lane { IsEnding 1 (event.DevFail 0 5 (done_with InternalError)) → ⊥ }
    ensures one_given_up_on_another_lane { IsEnding 1 (event.GiveUp 0 5) → ⊥ }
    ensures another_status { IsEnding 1 (event.DevFail 1 5 (done_with Success)) → ⊥ }
    ensures a_take { IsEnding 1 (event.Take 0 1 1) → ⊥ }
    ensures a_post { IsEnding 1 (event.Post 1 5) → ⊥ }
    ensures of_a_log { (lane : ℕ) (first : World) (log : List Logged) (h : Served) (memory : List ℕ) → IsEndedBy lane first log h memory →
        (added : List Logged) × (z : World) × All (λ l. IsEnding lane l.event) added × LeadsTo h first memory (log ++ added) z }
{}

/// Tags afterwards.
#[tactic(none)]
pub fn tags()
    ensures as_before { AreEach over 0 (side []) (side []) → ⊥ }
    ensures all_free { AreEach over 0 (side []) (record (side []) { lanes = opening_lane ∷ opening_lane ∷ [] }) → ⊥ }
    // All but one tag have changed.
    ensures all_but_one { AreEach over 0 (side []) closed_but_one → ⊥ }
    ensures one_in_flight { AreDone 0 (one_tag (flying 0 1 0 InDevice)) → ⊥ }
    ensures one_that_waits { AreDone 0 (one_tag (Taken (command_of 0 1 0) [])) → ⊥ }
    ensures no_lane { AreDone 9 (side []) }
    ensures another_lane { IsLaneAlone 0 (side []) (record (side []) { lanes = busy_lane ∷ busy_lane ∷ [] }) → ⊥ }
    ensures another_tail { IsLaneAlone 0 (side []) (with_tails 6 7) → ⊥ }
    ensures other_controllers { IsLaneAlone 0 (side []) (side (controller_with 16 1 ∷ [])) → ⊥ }
{}

/// Completions that are there.
#[tactic(none)]
pub fn reads()
    ensures none_read { AreReaped low 0 two_slots 0 (side []) (side []) }
    ensures none_read_and_changed { AreReaped low 0 two_slots 0 (side []) (with_tails 6 7) → ⊥ }
    // An old completion isn't read.
    ensures an_old_one { (new : Side) → AreReaped low 0 two_slots 1 (one_lane (reading 0 true)) new → ⊥ }
    // The completion in the first slot was read: the next slot comes then, and tag 1 has ended.
    ensures a_head_as_before { IsReaped low 0 (one_lane (reading 0 true)) (one_lane (reading 0 true)) two_slots → ⊥ }
    ensures a_tag_as_before { IsReaped low 0 (one_lane (reading 0 true)) (one_lane (reading 1 true)) two_slots → ⊥ }
    // A new completion waits yet.
    ensures one_left { IsDrained low 0 two_slots (one_lane (reading 1 true)) (one_lane (reading 1 true)) → ⊥ }
    // An old one doesn't.
    ensures none_left { IsDrained low 0 two_slots (one_lane (reading 0 true)) (one_lane (reading 0 true)) }
    ensures the_whole { (geometry : Geometry) (lane : ℕ) (memory : List ℕ) (old new : Side) → IsOver geometry lane memory old new →
        (read : Side) × IsDrained geometry lane memory old read × AreEach over lane read new }
{}

/// Memory.
#[tactic(none)]
pub fn bytes()
    ensures longer { IsRingAlone low 0 [] (0 ∷ []) → ⊥ }
    ensures a_byte_before { IsRingAlone low 0 (replicate 16384 0) (replicate 16383 0 ++ 7 ∷ []) → ⊥ }
    ensures a_byte_after { IsRingAlone low 0 (replicate 17425 0) (replicate 17424 0 ++ 7 ∷ []) → ⊥ }
    ensures the_same { IsRingAlone low 0 two_slots two_slots }
{}
