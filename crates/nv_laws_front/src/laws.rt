//! From the start, call by call, to the promise.

ghost use Rattle.std.specs.Prelude.{◌≡◌, ℕ, ◌++◌, [], ◌∷◌, List, None, Some, slice_get};
ghost use Rattle.nv_core.specs.Front.{IsBeside, IsLive, IsStepBeside};
ghost use Rattle.nv_laws_sound.specs.Side.{Side, opening_side};
ghost use Rattle.nv_laws.specs.Alike.{HasFittingStatus};
ghost use Rattle.nv_laws_front.specs.Reached.{IsReached};
ghost use Rattle.nv_laws_sound.specs.Mediators.{IsMediators};
ghost use Rattle.nv_laws_sound.specs.Phased.{AreRingsClear};
ghost use Rattle.nv_laws_sound.specs.Unplaced.{IsControllers};
ghost use Rattle.nv_mem.specs.GuestMap.{IsSound};
ghost use Rattle.nv_model.specs.Memory.{byte_in};
ghost use Rattle.nv_model.specs.declared.reply.Reply.{Reply};
ghost use Rattle.nv_world_model.specs.Geometry.{Geometry, Guest};
ghost use Rattle.nv_world_model.specs.Headline.{Headline};
ghost use Rattle.nv_world_model.specs.SetUp.{SetUp, host_refusal_of};
ghost use Rattle.nv_world_model.specs.Step.{step};
ghost use Rattle.nv_world_model.specs.World.{World, opening_world};
ghost use Rattle.nv_world_model.specs.declared.event.Event.{Event};
ghost use Rattle.nv_world_model.specs.declared.logged.Logged.{Logged};

/// The side of a new front is reached by a log without events, with any memory whose completion rings are clear, and any disk.
pub fn a_front_is_reached_at_its_start()
    ensures { (s : SetUp) (memory : List ℕ) (disk : ℕ → ℕ → ℕ) → AreRingsClear s (byte_in memory) →
        let w = opening_world (byte_in memory) disk s.geometry s.lanes in IsReached s w (opening_side s.geometry s.lanes) memory [] w }
{}

/// A call of the front is one more event of the log, with its reply.
pub fn a_call_is_one_more_event()
    ensures { (s : SetUp) (first : World) (e : Event) (old new : Side) (before after : List ℕ) (r : Reply) (log : List Logged) (z : World) → IsMediators e →
        IsReached s first old before log z → IsStepBeside s.geometry e z r new after →
        IsReached s first new after (log ++ record { event = e; reply = r } ∷ []) (step s.geometry e z).world }
{}

/// So is what the physical controller does, with the reply that the definition gives it. It leaves the side as it is, and the memory as it makes it.
pub fn what_the_controller_does_is_one_more_event()
    ensures { (s : SetUp) (first : World) (e : Event) (side : Side) (before after : List ℕ) (log : List Logged) (z : World) → IsControllers e → HasFittingStatus e →
        IsReached s first side before log z → (step s.geometry e z).world.host ≡ byte_in after →
        IsReached s first side after (log ++ record { event = e; reply = (step s.geometry e z).reply } ∷ []) (step s.geometry e z).world }
{}

/// A world that is reached is as events leave it, as a Reap needs it.
pub fn a_world_that_is_reached_is_live()
    ensures { (s : SetUp) (first : World) (side : Side) (memory : List ℕ) (log : List Logged) (z : World) → host_refusal_of s ≡ None →
        ((number : ℕ) (guest : Guest) → slice_get s.geometry.guests number ≡ Some guest → IsSound guest.memory_map) →
        IsReached s first side memory log z → IsLive s.geometry z }
{}

/// And it keeps the whole promise: what each disciplined guest none of whose commands failed has seen, and has, is a run of its own private controller's,
/// and each event is contained.
pub fn a_front_keeps_the_promise()
    ensures { (s : SetUp) (first : World) (side : Side) (memory : List ℕ) (log : List Logged) (z : World) → host_refusal_of s ≡ None →
        ((number : ℕ) (guest : Guest) → slice_get s.geometry.guests number ≡ Some guest → IsSound guest.memory_map) →
        IsReached s first side memory log z → Headline s.geometry first log z }
{}
