//! What a caller has of the promises: each word of the contracts of [`nv_world::World`] and [`nv_mediator::Mediator`] gives what it means.
//!
//! There is no code here. A word that said less would be refused.

ghost use Rattle.std.specs.Prelude.{◌≡◌, ℕ, [], ◌∷◌, ◌++◌, List, Some, slice_get, true};
ghost use Rattle.nv_mediator.specs.Hosted.{HasLog, Hosted, IsAtStart, IsLog, IsMade, IsPromised, hosted_world, setup_of};
ghost use Rattle.nv_world.specs.Mediated.{IsContained, KeepsPromise, Kept, mediated};
ghost use Rattle.nv_world_model.specs.declared.logged.Logged.{Logged};
ghost use Rattle.nv_world_model.specs.Disciplined.{is_disciplined};
ghost use Rattle.nv_world_model.specs.Geometry.{Guest};
ghost use Rattle.nv_world_model.specs.Headline.{AreContained, IsPrivateRun, none_failed};
ghost use Rattle.nv_world_model.specs.Log.{IsReplay};
ghost use Rattle.nv_world_model.specs.SetUp.{SetUp, world_at_start};

/// Of a world, which keeps its log.
#[tactic(none)]
pub fn of_a_world()
    // A disciplined guest none of whose commands failed has a private run, which agrees with the world.
    ensures private { (k : Kept) (number : ℕ) (guest : Guest) → KeepsPromise k → slice_get k.geometry.guests number ≡ Some guest
        → none_failed k.geometry number k.log (world_at_start (mediated k).setup) ≡ true
        → is_disciplined k.geometry number guest k.log (world_at_start (mediated k).setup) ≡ true
        → IsPrivateRun k.geometry number guest k.log (world_at_start (mediated k).setup) (mediated k).world }
    // Each event of the log is contained; so says the whole promise, and so does its half.
    ensures contained { (k : Kept) → KeepsPromise k → AreContained k.geometry k.log (world_at_start (mediated k).setup) }
    ensures half { (k : Kept) → IsContained k → AreContained k.geometry k.log (world_at_start (mediated k).setup) }
    // The log leads to the world.
    ensures replayed { (k : Kept) → KeepsPromise k → IsReplay k.geometry (world_at_start (mediated k).setup) k.log (mediated k).world }
{}

/// Of a mediator, which keeps none: of each log that leads to it.
#[tactic(none)]
pub fn of_a_mediator()
    // A disciplined guest none of whose commands failed has a private run, which agrees with the world.
    ensures private { (h : Hosted) (log : List Logged) (number : ℕ) (guest : Guest) → IsPromised h → IsLog log h
        → slice_get h.geometry.guests number ≡ Some guest
        → none_failed h.geometry number log (world_at_start (setup_of h)) ≡ true
        → is_disciplined h.geometry number guest log (world_at_start (setup_of h)) ≡ true
        → IsPrivateRun h.geometry number guest log (world_at_start (setup_of h)) (hosted_world h) }
    // Each event of the log is contained.
    ensures contained { (h : Hosted) (log : List Logged) → IsPromised h → IsLog log h → AreContained h.geometry log (world_at_start (setup_of h)) }
    // There is such a log, and it leads to the world.
    ensures led { (h : Hosted) → HasLog h → (log : List Logged) × IsLog log h × IsReplay h.geometry (world_at_start (setup_of h)) log (hosted_world h) }
    // A caller that keeps a log has one: it is empty at the start, and has one more member after each event that was carried out.
    ensures at_start { (s : SetUp) (h : Hosted) → IsAtStart s h → IsLog [] h }
    ensures one_more { (old new : Hosted) (log : List Logged) (l : Logged) → IsLog log old → IsMade l.event old l.reply new → IsLog (log ++ l ∷ []) new }
{}
