//! What guests and the mediator do leaves the disk and its marks alone: these are the physical controller's.

ghost use Rattle.std.specs.Prelude.{◌≡◌, ℕ, Bool};
ghost use Rattle.nv_laws_sound.specs.Mediators.{IsMediators, after_on, on_disk};
ghost use Rattle.nv_world_model.specs.Geometry.{Geometry};
ghost use Rattle.nv_world_model.specs.Step.{step};
ghost use Rattle.nv_world_model.specs.World.{World};
ghost use Rattle.nv_world_model.specs.declared.event.Event.{Event};

/// An event of a guest or of the mediator comes to the same in a world with another disk and other marks, and leaves these as they are.
pub fn the_mediators_events_leave_the_disk_alone()
    ensures { (geometry : Geometry) (e : Event) (w : World) (disk : ℕ → ℕ → ℕ) (kept : ℕ → Bool) → IsMediators e →
        step geometry e (on_disk disk kept w) ≡ after_on disk kept (step geometry e w) }
{}
