//! Data comes before the completion, and the completion's phase tag last.

ghost use Rattle.std.specs.Prelude.{◌≡◌, ℕ, ◌+◌, ◌≤◌, All, List, [], ◌∷◌, ◌++◌, Some, false, length, slice_get, take};
ghost use Rattle.nv_laws_sound.specs.LaidOut.{IsLaidOut};
ghost use Rattle.nv_laws_sound.specs.Side.{IsKept, Side};
ghost use Rattle.nv_machine.specs.Doing.{tag_at};
ghost use Rattle.nv_machine.specs.Effects.{Effect, Store, writes_to};
ghost use Rattle.nv_machine.specs.InWorld.{AreOnPages};
ghost use Rattle.nv_machine.specs.Machine.{call};
ghost use Rattle.nv_machine.specs.Order.{IsDelivered, IsInOrder, IsStructure};
ghost use Rattle.nv_model.specs.Controller.{Controller};
ghost use Rattle.nv_world_model.specs.Contained.{guest_of_one};
ghost use Rattle.nv_world_model.specs.Geometry.{Geometry, Guest};
ghost use Rattle.nv_world_model.specs.declared.event.Event.TheVariants as event;

/// Where a Post or an Admin posts a completion, its effects are data, then 12 bytes, and then the dword with the phase tag; and where the data leaves that dword
/// alone, nothing writes it but the last effect. (A guest may name its own completion queue as the buffer of a Read, or of an Identify.)
pub fn a_completion_comes_last()
    ensures posts { (host_bytes : ℕ) (geometry : Geometry) (s : Side) (lane tag number : ℕ) (fetched : List ℕ) (given : Guest) (c : Controller) →
        IsLaidOut host_bytes (length s.lanes) geometry → IsKept geometry s → AreOnPages s.controllers →
        guest_of_one (tag_at s lane tag) ≡ Some number → slice_get geometry.guests number ≡ Some given → slice_get s.controllers number ≡ Some c →
        IsInOrder (IsDelivered geometry s lane given) given c (slice_get (call geometry (event.Post lane tag) fetched s).now.side.controllers number)
        (call geometry (event.Post lane tag) fetched s).now.effects }
    ensures admins { (host_bytes : ℕ) (geometry : Geometry) (s : Side) (number : ℕ) (entry : List ℕ) (given : Guest) (c : Controller) →
        IsLaidOut host_bytes (length s.lanes) geometry → IsKept geometry s → AreOnPages s.controllers →
        slice_get geometry.guests number ≡ Some given → slice_get s.controllers number ≡ Some c →
        IsInOrder (IsStructure given entry) given c (slice_get (call geometry (event.Admin number) entry s).now.side.controllers number)
        (call geometry (event.Admin number) entry s).now.effects }
    ensures dword { (before : List Effect) (to : ℕ) (entry : List ℕ) (at : ℕ) → length entry ≡ 16 → to + 12 ≤ at →
        All (λ (e : Effect). writes_to e at ≡ false) before → All (λ (e : Effect). writes_to e at ≡ false) (before ++ Store to (take 12 entry) ∷ []) }
{}
