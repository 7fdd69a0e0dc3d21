//! What each event keeps.

ghost use Rattle.std.specs.Prelude.{◌≡◌, ℕ, List, Some, None, length, slice_get};
ghost use Rattle.nv_mem.specs.GuestMap.{IsSound};
ghost use Rattle.nv_world_model.specs.Geometry.{Geometry, Guest};
ghost use Rattle.nv_world_model.specs.SetUp.{SetUp, host_refusal_of};
ghost use Rattle.nv_world_model.specs.Step.{reaped, replay, step};
ghost use Rattle.nv_world_model.specs.World.{World, opening_world};
ghost use Rattle.nv_world_model.specs.declared.event.Event.{Event};
ghost use Rattle.nv_laws_sound.specs.Consistent.{IsConsistent};
ghost use Rattle.nv_laws_sound.specs.Kept.{IsKeptWorld};
ghost use Rattle.nv_laws_sound.specs.LaidOut.{IsLaidOut};
ghost use Rattle.nv_laws_sound.specs.Mediators.{IsMediators};

/// Each event leads from a consistent world to one with as many lanes.
pub fn each_event_keeps_a_world_consistent()
    ensures consistent { (host_bytes : ℕ) (geometry : Geometry) (e : Event) (w : World) →
        IsLaidOut host_bytes (length w.lanes) geometry → IsConsistent geometry w → IsConsistent geometry (step geometry e w).world }
    ensures lanes { (geometry : Geometry) (e : Event) (w : World) → length (step geometry e w).world.lanes ≡ length w.lanes }
{}

/// So whatever events a set-up that isn't refused sees, hostile guests' and the failing of commands among them, its world stays consistent.
pub fn worlds_stay_consistent()
    ensures events { (host_bytes : ℕ) (geometry : Geometry) (events : List Event) (w : World) →
        IsLaidOut host_bytes (length w.lanes) geometry → IsConsistent geometry w → IsConsistent geometry (replay geometry events w) }
    ensures from_start { (s : SetUp) (host : ℕ → ℕ) (disk : ℕ → ℕ → ℕ) (events : List Event) → host_refusal_of s ≡ None →
        ((number : ℕ) (guest : Guest) → slice_get s.geometry.guests number ≡ Some guest → IsSound guest.memory_map) →
        IsConsistent s.geometry (replay s.geometry events (opening_world host disk s.geometry s.lanes)) }
{}

/// What the mediator's side keeps, it keeps by itself: each event of a guest or of the mediator leads from a world in which it holds to another, whatever
/// is in memory and whatever the physical controller does. So does reading any completion, whether or not the controller has posted it.
pub fn the_mediators_side_keeps_itself()
    ensures step { (host_bytes : ℕ) (geometry : Geometry) (e : Event) (w : World) → IsMediators e →
        IsLaidOut host_bytes (length w.lanes) geometry → IsKeptWorld geometry w → IsKeptWorld geometry (step geometry e w).world }
    ensures reaped { (geometry : Geometry) (lane : ℕ) (completion : List ℕ) (w : World) → IsKeptWorld geometry w →
        IsKeptWorld geometry (reaped lane completion w) }
{}
