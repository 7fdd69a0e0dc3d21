//! Whatever was fetched, a call touches nothing of another guest.

ghost use Rattle.std.specs.Prelude.{◌≡◌, ℕ, List, Some, None, slice_get};
ghost use Rattle.nv_laws_sound.specs.Side.{IsKept, opening_side};
ghost use Rattle.nv_machine.specs.Contained.{AreFetched, IsContained, IsFetched, after_calls};
ghost use Rattle.nv_machine.specs.InWorld.{AreOnPages, fetched_in, side_of};
ghost use Rattle.nv_mem.specs.GuestMap.{IsSound};
ghost use Rattle.nv_world_model.specs.Geometry.{Geometry, Guest};
ghost use Rattle.nv_world_model.specs.SetUp.{SetUp, host_refusal_of};
ghost use Rattle.nv_world_model.specs.World.{World};
ghost use Rattle.nv_world_model.specs.declared.event.Event.{Event};

/// From the start of any set-up that is not refused, whichever calls were made and whichever bytes were fetched for them, each call is contained: neither
/// what else is in memory, nor what guests and the physical controller do meanwhile, nor what the controller answers, is a premise.
pub fn each_call_is_contained()
    ensures { (s : SetUp) (calls : List (Event × List ℕ)) (e : Event) (fetched : List ℕ) → host_refusal_of s ≡ None →
        ((number : ℕ) (guest : Guest) → slice_get s.geometry.guests number ≡ Some guest → IsSound guest.memory_map) →
        AreFetched s.geometry calls (opening_side s.geometry s.lanes) →
        IsContained s.geometry e fetched (after_calls s.geometry calls (opening_side s.geometry s.lanes)) }
{}

/// The mediator's side keeps what it keeps in a world, and its guests' queues begin with pages, whichever bytes were fetched.
pub fn sides_stay_sound()
    ensures kept { (s : SetUp) (calls : List (Event × List ℕ)) → host_refusal_of s ≡ None →
        ((number : ℕ) (guest : Guest) → slice_get s.geometry.guests number ≡ Some guest → IsSound guest.memory_map) →
        AreFetched s.geometry calls (opening_side s.geometry s.lanes) →
        IsKept s.geometry (after_calls s.geometry calls (opening_side s.geometry s.lanes)) }
    ensures pages { (s : SetUp) (calls : List (Event × List ℕ)) → host_refusal_of s ≡ None →
        ((number : ℕ) (guest : Guest) → slice_get s.geometry.guests number ≡ Some guest → IsSound guest.memory_map) →
        AreFetched s.geometry calls (opening_side s.geometry s.lanes) →
        AreOnPages (after_calls s.geometry calls (opening_side s.geometry s.lanes)).controllers }
{}

/// The bytes that lie in a world's memory at a call's fetch are as many as it asks for.
pub fn what_lies_in_memory_is_fetched()
    ensures { (geometry : Geometry) (e : Event) (w : World) → IsFetched geometry e (side_of w) (fetched_in geometry e w) }
{}
