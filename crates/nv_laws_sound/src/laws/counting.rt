//! What each guest's controller counts.

ghost use Rattle.std.specs.Prelude.{◌≡◌, ℕ, List, Some, None, length, slice_get};
ghost use Rattle.nv_mem.specs.GuestMap.{IsSound};
ghost use Rattle.nv_world_model.specs.Geometry.{Geometry, Guest};
ghost use Rattle.nv_world_model.specs.SetUp.{SetUp, host_refusal_of};
ghost use Rattle.nv_world_model.specs.Step.{reaped, replay, step};
ghost use Rattle.nv_world_model.specs.World.{Lane, World, opening_world};
ghost use Rattle.nv_world_model.specs.declared.event.Event.{Event};
ghost use Rattle.nv_laws_sound.specs.Consistent.{IsConsistent};
ghost use Rattle.nv_laws_sound.specs.Counted.{IsCounted};
ghost use Rattle.nv_laws_sound.specs.Kept.{IsKeptWorld};
ghost use Rattle.nv_laws_sound.specs.LaidOut.{IsLaidOut};

/// Each guest's controller counts that guest's commands in all lanes, each once, in the tag that it goes by, by the queue that they were taken
/// from, and its queues, RDY and waiting deletion go with the counts, as they do along every run of the private controller.
pub fn controllers_count_their_commands()
    ensures start { (s : SetUp) (host : ℕ → ℕ) (disk : ℕ → ℕ → ℕ) → IsCounted s.geometry (opening_world host disk s.geometry s.lanes) }
    ensures step { (host_bytes : ℕ) (geometry : Geometry) (e : Event) (w : World) → IsLaidOut host_bytes (length w.lanes) geometry →
        IsConsistent geometry w → IsCounted geometry w → IsCounted geometry (step geometry e w).world }
    ensures events { (host_bytes : ℕ) (geometry : Geometry) (events : List Event) (w : World) →
        IsLaidOut host_bytes (length w.lanes) geometry → IsConsistent geometry w → IsCounted geometry w → IsCounted geometry (replay geometry events w) }
    ensures from_start { (s : SetUp) (host : ℕ → ℕ) (disk : ℕ → ℕ → ℕ) (events : List Event) → host_refusal_of s ≡ None →
        ((number : ℕ) (guest : Guest) → slice_get s.geometry.guests number ≡ Some guest → IsSound guest.memory_map) →
        IsCounted s.geometry (replay s.geometry events (opening_world host disk s.geometry s.lanes)) }
{}

/// They do whatever is in memory and whatever the physical controller does: each event leads from a world that keeps what the mediator's side keeps, and
/// where they count, to one where they count. So does reading any completion, whether or not the controller has posted it.
pub fn controllers_count_whatever_is_in_memory()
    ensures step { (host_bytes : ℕ) (geometry : Geometry) (e : Event) (w : World) → IsLaidOut host_bytes (length w.lanes) geometry →
        IsKeptWorld geometry w → IsCounted geometry w → IsCounted geometry (step geometry e w).world }
    ensures reaped { (geometry : Geometry) (lane : ℕ) (completion : List ℕ) (l : Lane) (w : World) → slice_get w.lanes lane ≡ Some l →
        IsCounted geometry w → IsCounted geometry (reaped lane completion w) }
{}
