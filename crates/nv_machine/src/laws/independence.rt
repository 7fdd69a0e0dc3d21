//! What a call comes to for its guest depends on nothing of the others.

ghost use Rattle.std.specs.Prelude.{◌≡◌, ℕ, List, Some};
ghost use Rattle.nv_laws_sound.specs.Side.{IsKept, Side};
ghost use Rattle.nv_machine.specs.Alike.{ComeToAlike, IsAlike};
ghost use Rattle.nv_machine.specs.Contained.{guest_for};
ghost use Rattle.nv_machine.specs.Machine.{call, fetch, fetch_then};
ghost use Rattle.nv_world_model.specs.Geometry.{Geometry};
ghost use Rattle.nv_world_model.specs.declared.event.Event.{Event};

/// In two sides that are alike to a guest, a call for it fetches from the same addresses, and with the same fetched bytes it has the same reply and the same
/// effects, and comes to sides that are alike: they are a function of the guest's part, the shared numbers and the fetched bytes.
pub fn a_call_depends_on_its_guest_alone()
    ensures fetches { (geometry : Geometry) (e : Event) (fetched : List ℕ) (s z : Side) (number : ℕ) → IsAlike number s z →
        guest_for e fetched s ≡ Some number → fetch geometry e s ≡ fetch geometry e z }
    ensures fetches_then { (geometry : Geometry) (e : Event) (first : List ℕ) (s z : Side) (number : ℕ) → IsAlike number s z →
        fetch_then geometry e s first ≡ fetch_then geometry e z first }
    ensures calls { (geometry : Geometry) (e : Event) (fetched : List ℕ) (s z : Side) (number : ℕ) → IsKept geometry s → IsKept geometry z →
        IsAlike number s z → guest_for e fetched s ≡ Some number → ComeToAlike number (call geometry e fetched s) (call geometry e fetched z) }
    ensures guests { (e : Event) (fetched : List ℕ) (s z : Side) (number : ℕ) → IsAlike number s z →
        guest_for e fetched s ≡ Some number → guest_for e fetched z ≡ Some number }
{}
