//! Set-ups, and worlds at their start.

ghost use Rattle.std.specs.Prelude.{◌≡◌, ℕ, Some, None, slice_get};
ghost use Rattle.nv_mem.specs.GuestMap.{IsSound};
ghost use Rattle.nv_world_model.specs.Geometry.{Guest};
ghost use Rattle.nv_world_model.specs.SetUp.{SetUp, host_refusal_of, refusal_of};
ghost use Rattle.nv_world_model.specs.World.{opening_world};
ghost use Rattle.nv_laws_sound.specs.Consistent.{IsConsistent};
ghost use Rattle.nv_laws_sound.specs.LaidOut.{IsLaidOut};

/// Where a set-up is not refused, and its maps are, no two guests share a byte or a block, and none has a byte of the mediator's area.
pub fn accepted_set_ups_are_laid_out()
    ensures { (s : SetUp) → host_refusal_of s ≡ None →
        ((number : ℕ) (guest : Guest) → slice_get s.geometry.guests number ≡ Some guest → IsSound guest.memory_map) →
        IsLaidOut s.host_bytes s.lanes s.geometry }
{}

/// A set-up that a script may have is one that a host may have: its limits are narrower.
pub fn a_scripts_set_up_is_a_hosts()
    ensures { (s : SetUp) → refusal_of s ≡ None → host_refusal_of s ≡ None }
{}

/// The world of a set-up is consistent at the start, whatever memory and disk have.
pub fn worlds_begin_consistent()
    ensures { (s : SetUp) (host : ℕ → ℕ) (disk : ℕ → ℕ → ℕ) → IsConsistent s.geometry (opening_world host disk s.geometry s.lanes) }
{}
