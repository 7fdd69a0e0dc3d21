//! The phase tags of the physical completion rings, which can show what is due to be reaped. Each slot of a completion ring has the phase tag of the
//! pass in which it was written last, and a completion is there to be reaped exactly where the next slot has the phase tag that a driver expects
//! there.

ghost use Rattle.std.specs.Prelude.{◌≡◌, ◌==◌, ℕ, not, List, Some, None, length, slice_get};
ghost use Rattle.nv_entry.specs.Status.{bit};
ghost use Rattle.nv_mem.specs.GuestMap.{IsSound};
ghost use Rattle.nv_model.specs.Queue.{is_empty};
ghost use Rattle.nv_laws_sound.specs.Phased.{ArePhased, AreRingsClear, phase_at};
ghost use Rattle.nv_laws_sound.specs.Consistent.{IsConsistent};
ghost use Rattle.nv_laws_sound.specs.LaidOut.{IsLaidOut};
ghost use Rattle.nv_world_model.specs.Device.{DeviceLane};
ghost use Rattle.nv_world_model.specs.Geometry.{Geometry, Guest};
ghost use Rattle.nv_world_model.specs.SetUp.{SetUp, host_refusal_of};
ghost use Rattle.nv_world_model.specs.Step.{replay, step};
ghost use Rattle.nv_world_model.specs.World.{Lane, World, opening_world};
ghost use Rattle.nv_world_model.specs.declared.event.Event.{Event};

/// In every world that events lead to from one whose completion rings are clear, whatever else memory and disk have, the slots of a lane's completion ring have the phase tags of the passes in which they were written.
pub fn slots_have_their_passes_phase_tag()
    ensures start { (s : SetUp) (host : ℕ → ℕ) (disk : ℕ → ℕ → ℕ) → AreRingsClear s host → ArePhased s.geometry (opening_world host disk s.geometry s.lanes) }
    ensures step { (host_bytes : ℕ) (geometry : Geometry) (e : Event) (w : World) → IsLaidOut host_bytes (length w.lanes) geometry →
        IsConsistent geometry w → ArePhased geometry w → ArePhased geometry (step geometry e w).world }
    ensures from_start { (s : SetUp) (host : ℕ → ℕ) (disk : ℕ → ℕ → ℕ) (events : List Event) → host_refusal_of s ≡ None → AreRingsClear s host →
        ((number : ℕ) (guest : Guest) → slice_get s.geometry.guests number ≡ Some guest → IsSound guest.memory_map) →
        ArePhased s.geometry (replay s.geometry events (opening_world host disk s.geometry s.lanes)) }
{}

/// So a completion is there to be reaped, where the device's place differs from the mediator's, exactly where the slot that the mediator comes
/// to next has the phase tag that it wants.
pub fn a_phase_tag_tells_what_is_to_be_reaped()
    ensures { (s : SetUp) (host : ℕ → ℕ) (disk : ℕ → ℕ → ℕ) (events : List Event) (lane : ℕ) (l : Lane) (d : DeviceLane) → host_refusal_of s ≡ None → AreRingsClear s host →
        ((number : ℕ) (guest : Guest) → slice_get s.geometry.guests number ≡ Some guest → IsSound guest.memory_map) →
        slice_get (replay s.geometry events (opening_world host disk s.geometry s.lanes)).lanes lane ≡ Some l →
        slice_get (replay s.geometry events (opening_world host disk s.geometry s.lanes)).device lane ≡ Some d →
        not (is_empty l.head d.posted) ≡ (phase_at s.geometry (replay s.geometry events (opening_world host disk s.geometry s.lanes)).host lane l.head == bit l.phase) }
{}
