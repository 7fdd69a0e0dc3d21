//! Logs keep the promise.

ghost use Rattle.std.specs.Prelude.{◌≡◌, ℕ, List, All, None, Some, slice_get};
ghost use Rattle.nv_laws.specs.Alike.{HasFittingStatus};
ghost use Rattle.nv_laws.specs.Following.{EachEventIsFollowed};
ghost use Rattle.nv_mem.specs.GuestMap.{IsSound};
ghost use Rattle.nv_world_model.specs.declared.logged.Logged.{Logged};
ghost use Rattle.nv_world_model.specs.Geometry.{Geometry, Guest};
ghost use Rattle.nv_world_model.specs.Headline.{Headline};
ghost use Rattle.nv_world_model.specs.Log.{IsReplay};
ghost use Rattle.nv_world_model.specs.SetUp.{SetUp, host_refusal_of};
ghost use Rattle.nv_world_model.specs.World.{World, opening_world};

/// The private controller of a disciplined guest goes along with each event, wherever events have led to, where none of the guest's commands fails.
pub fn each_event_is_followed()
    ensures { (host_bytes number : ℕ) (geometry : Geometry) (guest : Guest) → slice_get geometry.guests number ≡ Some guest →
        EachEventIsFollowed geometry host_bytes number guest }
{}

/// A log of events that lead from an accepted set-up, whatever memory and disk have at the start, to a world keeps the promise, where each status with
/// which the physical controller fails a command fits into a completion.
pub fn logs_keep_the_promise()
    ensures { (s : SetUp) (host : ℕ → ℕ) (disk : ℕ → ℕ → ℕ) (log : List Logged) (z : World) → host_refusal_of s ≡ None →
        ((number : ℕ) (guest : Guest) → slice_get s.geometry.guests number ≡ Some guest → IsSound guest.memory_map) →
        All (λ l. HasFittingStatus l.event) log →
        let w = opening_world host disk s.geometry s.lanes in IsReplay s.geometry w log z → Headline s.geometry w log z }
{}
