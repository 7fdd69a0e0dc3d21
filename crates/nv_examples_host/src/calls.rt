//! What a call of a host's mediator comes to, and what is promised.

ghost use Rattle.std.specs.Prelude.{ℕ, [], ◌∷◌, ◌++◌, List, true, false, replicate};
ghost use Rattle.nv_core.specs.Front.{IsBeside, IsStepBeside};
ghost use Rattle.nv_examples_host.specs.Scenes.{busy, elsewhere, first_area, given, set_up_of, side};
ghost use Rattle.nv_host.specs.Served.{AreGiven, AreRingsAlone, IsAtStart, IsDone, IsNext, IsPromised, IsUnreached, LeadsTo, Served, opened};
ghost use Rattle.nv_model.specs.declared.reply.Reply.{Reply};
ghost use Rattle.nv_model.specs.declared.reply.Reply.TheVariants as reply;
ghost use Rattle.nv_world_model.specs.Headline.{Headline};
ghost use Rattle.nv_world_model.specs.World.{World};
ghost use Rattle.nv_world_model.specs.declared.event.Event.{Event};
ghost use Rattle.nv_world_model.specs.declared.event.Event.TheVariants as event;
ghost use Rattle.nv_world_model.specs.declared.logged.Logged.{Logged};

/// The next event of each log.
#[tactic(none)]
pub fn nexts()
    ensures another_set_up { IsNext (event.Admin 9) (opened given) [] reply.Ignored (record (opened given) { setup = set_up_of [] }) [] → ⊥ }
    ensures a_lane_closed { IsNext (event.Admin 9) (opened given) [] reply.Ignored (record (opened given) { closed = false ∷ true ∷ [] }) [] → ⊥ }
    ensures another_share { IsNext (event.Admin 9) (opened given) [] reply.Ignored (record (opened given) { spare = 30 ∷ 31 ∷ [] }) [] → ⊥ }
    ensures tags_from_no_take { IsNext (event.Submit 0 0) (opened given) [] reply.Done (busy given) [] → ⊥ }
    ensures another_answer { IsNext (event.Admin 9) (opened given) [] reply.Done (opened given) [] → ⊥ }
    ensures another_side { IsNext (event.Admin 9) (opened given) [] reply.Ignored (record (opened given) { side = record (opened given).side { tails = 1 ∷ 0 ∷ [] } }) [] → ⊥ }
    ensures another_memory { IsNext (event.Admin 9) (opened given) [] reply.Ignored (opened given) (7 ∷ []) → ⊥ }
    // A Take gives its guest no more than a command may need, and no other guest any; the first guest has three tags then, and the second five.
    ensures more_than_needed { AreGiven (event.Take 0 1 0) (opened given) (busy given) → ⊥ }
    ensures to_another_guest { AreGiven (event.Take 9 1 0) (opened given) (busy given) → ⊥ }
{}

/// What a call comes to.
#[tactic(none)]
pub fn calls()
    // An event that is ignored changes nothing: not the length of the memory, and no place of a part.
    ensures a_longer_memory { IsDone (event.Admin 9) (opened given) [] reply.Ignored (opened given) (0 ∷ []) → ⊥ }
    ensures another_place { IsDone (event.Admin 9) (record (opened given) { side = side [] }) [] reply.Ignored (record (opened given) { side = elsewhere }) [] → ⊥ }
    ensures in_each_world { (e : Event) (old new : Served) (before after : List ℕ) (r : Reply) (w : World) → IsDone e old before r new after →
        IsBeside old.side before w → IsStepBeside old.setup.geometry e w r new.side after }
    ensures of_each_log { (e : Event) (old new : Served) (before after : List ℕ) (r : Reply) → IsDone e old before r new after → IsNext e old before r new after }
{}

/// The mediator as it is made.
#[tactic(none)]
pub fn starts()
    ensures another_set_up { IsAtStart given (opened (set_up_of [])) [] → ⊥ }
    ensures a_lane_closed { IsAtStart given (record (opened given) { closed = false ∷ true ∷ [] }) [] → ⊥ }
    ensures another_share { IsAtStart given (record (opened given) { spare = 30 ∷ 31 ∷ [] }) [] → ⊥ }
    ensures another_side { IsAtStart given (record (opened given) { side = record (opened given).side { tails = 1 ∷ 0 ∷ [] } }) [] → ⊥ }
    // The first byte of the completion ring is not zero.
    ensures a_ring_that_is_not_clear { IsAtStart first_area (opened first_area) (replicate 8192 0 ++ 1 ∷ []) → ⊥ }
    ensures a_byte_before_the_rings { AreRingsAlone first_area [] (7 ∷ []) → ⊥ }
    ensures the_byte_before_the_rings { AreRingsAlone first_area (replicate 8191 0) (replicate 8191 0 ++ 7 ∷ []) → ⊥ }
    ensures the_byte_after_the_rings { AreRingsAlone first_area (replicate 9232 0) (replicate 9232 0 ++ 7 ∷ []) → ⊥ }
{}

/// What is promised.
#[tactic(none)]
pub fn promises()
    ensures a_start_is_reached { IsUnreached (opened given) [] → ⊥ }
    ensures of_each_log { (h : Served) (first : World) (memory : List ℕ) (log : List Logged) (z : World) → IsPromised h → LeadsTo h first memory log z →
        Headline h.setup.geometry first log z }
{}
