//! What ties the code to the machine.

ghost use Rattle.std.specs.Prelude.{◌≡◌, ℕ, List, None, Option, Some, length, slice_get};
ghost use Rattle.nv_core.specs.Front.{IsBeside, IsReaped, IsStepBeside};
ghost use Rattle.nv_core.specs.Reaping.{answer_of};
ghost use Rattle.nv_laws_machine.specs.Calls.{AreCalls};
ghost use Rattle.nv_laws_machine.specs.Given.{AreAnswered, Given, side_given};
ghost use Rattle.nv_laws_machine.specs.Made.{AreMachines, IsMachines, Made, side_behind};
ghost use Rattle.nv_laws_sound.specs.LaidOut.{IsLaidOut};
ghost use Rattle.nv_laws_sound.specs.Mediators.{IsMediators};
ghost use Rattle.nv_laws_sound.specs.Side.{IsKept, Side, opening_side};
ghost use Rattle.nv_machine.specs.Contained.{IsContained};
ghost use Rattle.nv_machine.specs.InWorld.{AreOnPages, IsNoReap};
ghost use Rattle.nv_model.specs.declared.reply.Reply.{Reply};
ghost use Rattle.nv_mem.specs.GuestMap.{IsSound};
ghost use Rattle.nv_world_model.specs.Geometry.{Geometry, Guest};
ghost use Rattle.nv_world_model.specs.SetUp.{SetUp, host_refusal_of};
ghost use Rattle.nv_world_model.specs.World.{World};
ghost use Rattle.nv_world_model.specs.declared.event.Event.{Event};
ghost use Rattle.nv_world_model.specs.declared.event.Event.TheVariants as event;
ghost use Rattle.nv_model.specs.declared.reply.Reply.TheVariants as reply;

/// A call that is the definition's step of each world that has this side and this memory is the machine's call: its reply, the side after it but for the
/// places of parts, and its effects in memory.
pub fn a_call_is_the_machines()
    ensures { (host_bytes : ℕ) (geometry : Geometry) (e : Event) (old new : Side) (before after : List ℕ) (r : Reply) → IsMediators e → IsNoReap e →
        IsLaidOut host_bytes (length old.lanes) geometry → IsKept geometry old → AreOnPages old.controllers →
        ((w : World) → IsBeside old before w → IsStepBeside geometry e w r new after) →
        IsMachines geometry e old before (Some r) new after }
{}

/// So is a Reap, whatever is in memory: it is answered by the slot that is read next, and has no reply where its completion is stray.
pub fn a_reap_is_the_machines()
    ensures { (geometry : Geometry) (old new : Side) (before : List ℕ) (lane : ℕ) (answer : Option Reply) →
        answer ≡ answer_of geometry lane (slice_get old.lanes lane) before →
        (answer ≡ Some reply.Done → IsReaped geometry lane old new before) → ((answer ≡ Some reply.Done → ⊥) → new ≡ old) → new.tails ≡ old.tails →
        IsMachines geometry (event.Reap lane) old before answer new before }
{}

/// So from the start of a set-up that is not refused, whichever calls the code has made over whichever memories, each of them was the machine's, and each call
/// is contained. Between the calls guests and the physical controller leave in memory what they like: no log has to lead there.
pub fn the_code_is_contained()
    ensures machines { (s : SetUp) (made : List Made) → host_refusal_of s ≡ None →
        ((number : ℕ) (guest : Guest) → slice_get s.geometry.guests number ≡ Some guest → IsSound guest.memory_map) →
        AreCalls s.geometry made (opening_side s.geometry s.lanes) → AreMachines s.geometry made (opening_side s.geometry s.lanes) }
    ensures contained { (s : SetUp) (made : List Made) (e : Event) (fetched : List ℕ) → host_refusal_of s ≡ None →
        ((number : ℕ) (guest : Guest) → slice_get s.geometry.guests number ≡ Some guest → IsSound guest.memory_map) →
        AreCalls s.geometry made (opening_side s.geometry s.lanes) →
        IsContained s.geometry e fetched (side_behind made (opening_side s.geometry s.lanes)) }
{}

/// So is the code without memory, whose contracts are the machine's call: from the start of such a set-up, behind any calls, each of which was given as many bytes
/// as it asks for, whichever they are, or any where it asks for none, each call is contained. Neither a world nor a memory is in it.
pub fn the_code_without_memory_is_contained()
    ensures { (s : SetUp) (given : List Given) (e : Event) (fetched : List ℕ) → host_refusal_of s ≡ None →
        ((number : ℕ) (guest : Guest) → slice_get s.geometry.guests number ≡ Some guest → IsSound guest.memory_map) →
        AreAnswered s.geometry given (opening_side s.geometry s.lanes) →
        IsContained s.geometry e fetched (side_given given (opening_side s.geometry s.lanes)) }
{}
