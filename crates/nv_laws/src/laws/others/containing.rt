//! Containment: no event reads or changes what is not its owner's.

ghost use Rattle.std.specs.Prelude.{◌≡◌, ℕ, All, List, None, Some, length, slice_get};
ghost use Rattle.nv_mem.specs.GuestMap.{IsSound};
ghost use Rattle.nv_world_model.specs.declared.event.Event.{Event};
ghost use Rattle.nv_world_model.specs.declared.logged.Logged.{Logged};
ghost use Rattle.nv_world_model.specs.Contained.{Contained};
ghost use Rattle.nv_world_model.specs.Geometry.{Geometry, Guest};
ghost use Rattle.nv_world_model.specs.Headline.{AreContained};
ghost use Rattle.nv_world_model.specs.SetUp.{SetUp, host_refusal_of};
ghost use Rattle.nv_world_model.specs.World.{World, opening_world};
ghost use Rattle.nv_laws_sound.specs.Consistent.{IsConsistent};
ghost use Rattle.nv_laws_sound.specs.LaidOut.{IsLaidOut};
ghost use Rattle.nv_laws.specs.Alike.{HasFittingStatus};

/// Every event is contained, whole, whatever the guests do, and whichever commands fail: one event in a consistent world, each along a log from
/// such a world on, and each along any log since a set-up that isn't refused.
pub fn every_event_is_contained()
    ensures each { (host_bytes : ℕ) (geometry : Geometry) (w : World) (e : Event) → IsLaidOut host_bytes (length w.lanes) geometry → IsConsistent geometry w →
        HasFittingStatus e → Contained geometry e w }
    ensures along { (host_bytes : ℕ) (geometry : Geometry) (log : List Logged) (w : World) → IsLaidOut host_bytes (length w.lanes) geometry →
        IsConsistent geometry w → All (λ l. HasFittingStatus l.event) log → AreContained geometry log w }
    ensures from_start { (s : SetUp) (host : ℕ → ℕ) (disk : ℕ → ℕ → ℕ) (log : List Logged) → host_refusal_of s ≡ None →
        ((number : ℕ) (guest : Guest) → slice_get s.geometry.guests number ≡ Some guest → IsSound guest.memory_map) →
        All (λ l. HasFittingStatus l.event) log → AreContained s.geometry log (opening_world host disk s.geometry s.lanes) }
{}
