//! The machine is the mediator of the world.

ghost use Rattle.std.specs.Prelude.{◌≡◌, ℕ, List, Some, None, length, slice_get};
ghost use Rattle.nv_laws_sound.specs.Kept.{IsKeptWorld};
ghost use Rattle.nv_laws_sound.specs.LaidOut.{IsLaidOut};
ghost use Rattle.nv_laws_sound.specs.Mediators.{IsMediators};
ghost use Rattle.nv_laws_sound.specs.Phased.{AreRingsClear};
ghost use Rattle.nv_machine.specs.InWorld.{AreOnPages, IsLive, IsNoReap, called_in, fetched_in, side_of};
ghost use Rattle.nv_machine.specs.Machine.{call};
ghost use Rattle.nv_mem.specs.GuestMap.{IsSound};
ghost use Rattle.nv_world_model.specs.Geometry.{Geometry, Guest};
ghost use Rattle.nv_world_model.specs.SetUp.{SetUp, host_refusal_of};
ghost use Rattle.nv_world_model.specs.Step.{replay, step};
ghost use Rattle.nv_world_model.specs.World.{World, opening_world};
ghost use Rattle.nv_world_model.specs.declared.event.Event.{Event};

/// An event of a guest or of the mediator is the machine's call: with the bytes that are in memory at its fetch, its effects in memory, and its side. So it is
/// in every world whose side keeps what the mediator's side keeps, whatever is in memory and whatever the physical controller does; and so is a Reap in a
/// world that is as events leave it.
pub fn an_event_is_a_call()
    ensures kept { (host_bytes : ℕ) (geometry : Geometry) (e : Event) (w : World) → IsMediators e → IsNoReap e →
        IsLaidOut host_bytes (length w.lanes) geometry → IsKeptWorld geometry w → AreOnPages w.controllers →
        called_in w (call geometry e (fetched_in geometry e w) (side_of w)) ≡ Some (step geometry e w) }
    ensures live { (host_bytes : ℕ) (geometry : Geometry) (e : Event) (w : World) → IsMediators e →
        IsLaidOut host_bytes (length w.lanes) geometry → IsLive geometry w →
        called_in w (call geometry e (fetched_in geometry e w) (side_of w)) ≡ Some (step geometry e w) }
{}
