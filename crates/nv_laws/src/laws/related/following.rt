//! A log is followed where each event is.

ghost use Rattle.std.specs.Prelude.{◌≡◌, ℕ, true, List, None, Some, slice_get};
ghost use Rattle.nv_mem.specs.GuestMap.{IsSound};
ghost use Rattle.nv_model.specs.Private.{Private};
ghost use Rattle.nv_world_model.specs.declared.logged.Logged.{Logged};
ghost use Rattle.nv_world_model.specs.Disciplined.{is_disciplined};
ghost use Rattle.nv_world_model.specs.Geometry.{Geometry, Guest};
ghost use Rattle.nv_world_model.specs.Headline.{IsPrivateRun, none_failed};
ghost use Rattle.nv_world_model.specs.Log.{IsReplay};
ghost use Rattle.nv_world_model.specs.SetUp.{SetUp, host_refusal_of};
ghost use Rattle.nv_world_model.specs.World.{World, opening_world};
ghost use Rattle.nv_laws.specs.Following.{AreRestFollowed, EachEventIsFollowed, IsReached, LogIsFollowed};
ghost use Rattle.nv_laws.specs.Related.{Related};

/// Where the private controller of a guest goes along with each event, it goes along with each log of which the guest is disciplined, and none of whose
/// events fails a command of that guest; from a set-up on, whatever memory and disk have, such a log is a run of it, which sees what the guest sees and agrees with the world.
pub fn logs_are_followed()
    ensures along { (host_bytes number : ℕ) (geometry : Geometry) (guest : Guest) (log : List Logged) (w z : World) (p : Private) →
        EachEventIsFollowed geometry host_bytes number guest → IsReached host_bytes geometry w → slice_get geometry.guests number ≡ Some guest →
        none_failed geometry number log w ≡ true → is_disciplined geometry number guest log w ≡ true → IsReplay geometry w log z →
        Related geometry number guest w p → LogIsFollowed geometry number guest log w z p }
    ensures from_start { (s : SetUp) (host : ℕ → ℕ) (disk : ℕ → ℕ → ℕ) (log : List Logged) (z : World) (number : ℕ) (guest : Guest) → host_refusal_of s ≡ None →
        ((other : ℕ) (given : Guest) → slice_get s.geometry.guests other ≡ Some given → IsSound given.memory_map) →
        slice_get s.geometry.guests number ≡ Some guest → EachEventIsFollowed s.geometry s.host_bytes number guest →
        let w = opening_world host disk s.geometry s.lanes in
        none_failed s.geometry number log w ≡ true → is_disciplined s.geometry number guest log w ≡ true →
        IsReplay s.geometry w log z → IsPrivateRun s.geometry number guest log w z }
{}

/// Each event of a disciplined guest is followed where its admin steps are, its plans that are carried out, what the device does for it, and its
/// completions that are posted. Of all else it is shown: others' events, the guest's acts, takes, reads of lists, completions that are read, and commands
/// that are given up or failed.
pub fn the_rest_is_enough()
    ensures { (geometry : Geometry) (host_bytes number : ℕ) (guest : Guest) → slice_get geometry.guests number ≡ Some guest →
        AreRestFollowed geometry host_bytes number guest → EachEventIsFollowed geometry host_bytes number guest }
{}
