//! Worlds whose step is wrong: each is shown by a log, along which the first guest is disciplined and is not followed by its private controller.
//!
//! For each, the world's own step has what the private controller has at the same place.

ghost use Rattle.std.specs.Prelude.{◌≡◌, ℕ, List, true, false, is_some};
ghost use Rattle.nv_model.specs.Private.{run_of, start};
ghost use Rattle.nv_model.specs.Memory.{image};
ghost use Rattle.nv_world_model.specs.Geometry.{regions_of, shape_of};
ghost use Rattle.nv_world_model.specs.PrivateSteps.{seen_by};
ghost use Rattle.nv_world_model.specs.declared.event.Event.{Event};
ghost use Rattle.nv_examples.specs.Stepping.{IsFollowed, behind_run, disciplined_by, logged_by, replay_by, seen_along, steps_by};
ghost use Rattle.nv_examples.specs.Breaches.{HasPrivateRun, last_byte};
ghost use Rattle.nv_examples.specs.Guests.{first, opened};
ghost use Rattle.nv_examples.specs.WrongWorlds.{bytes_dropped, flush_at_once, flush_told, flushed, fua_dropped, phase_not_inverted, read_run_out, ready_falls_early};
ghost use Rattle.nv_examples.specs.WrongWorlds.{reset_with_read, right, tag_as_identifier, three_flushes, written_with_fua};

/// With the world's own step this is the promise.
#[tactic(none)]
pub fn the_worlds_own_step()
    ensures { (events : List Event) → HasPrivateRun events → IsFollowed first opened right events }
{}

/// A Flush that is answered at once: its completion comes without its unit, which the private controller has not moved.
#[tactic(none)]
pub fn a_flush_without_its_unit()
    ensures disciplined { disciplined_by first flush_at_once flushed opened ≡ true }
    ensures its_own_step { is_some (run_of (shape_of first) (steps_by first right flushed opened) start) ≡ true }
    ensures it_is_not_followed { IsFollowed first opened flush_at_once flushed → ⊥ }
{}

/// A Write whose FUA is lost on the way: its block is not kept.
#[tactic(none)]
pub fn fua_that_is_dropped()
    ensures disciplined { disciplined_by first fua_dropped written_with_fua opened ≡ true }
    ensures its_own_step { (replay_by right written_with_fua opened).kept 2 ≡ true }
    ensures it_is_not_followed { IsFollowed first opened fua_dropped written_with_fua → ⊥ }
{}

/// A phase tag that is not inverted where the queue goes round: the third completion of a queue of two slots has phase tag 1, and should have 0.
#[tactic(none)]
pub fn a_phase_tag_that_is_not_inverted()
    ensures disciplined { disciplined_by first phase_not_inverted three_flushes opened ≡ true }
    ensures its_own_step { last_byte (seen_by 0 (logged_by right three_flushes opened)) ≡ 0 }
    ensures it_is_not_followed { IsFollowed first opened phase_not_inverted three_flushes → ⊥ }
{}

/// A Read's bytes that are dropped where it runs out after a reset.
#[tactic(none)]
pub fn bytes_that_are_dropped()
    ensures disciplined { disciplined_by first bytes_dropped read_run_out opened ≡ true }
    ensures its_own_step { last_byte (seen_by 0 (logged_by right read_run_out opened)) ≡ 0 }
    ensures it_is_not_followed { IsFollowed first opened bytes_dropped read_run_out → ⊥ }
{}

/// RDY that falls while a command is taken.
#[tactic(none)]
pub fn ready_that_falls_early()
    ensures disciplined { disciplined_by first ready_falls_early reset_with_read opened ≡ true }
    ensures its_own_step { last_byte (seen_by 0 (logged_by right reset_with_read opened)) ≡ 1 }
    ensures it_is_not_followed { IsFollowed first opened ready_falls_early reset_with_read → ⊥ }
{}

/// A completion with the tag in the place of the guest's identifier.
#[tactic(none)]
pub fn a_completion_with_the_tag()
    ensures disciplined { disciplined_by first tag_as_identifier flush_told opened ≡ true }
    ensures its_own_step { last_byte (seen_by 0 (logged_by right flush_told opened)) ≡ 3 }
    ensures it_is_not_followed { IsFollowed first opened tag_as_identifier flush_told → ⊥ }
{}
