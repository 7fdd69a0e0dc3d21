//! Worlds whose step is wrong where a command is several physical ones: each is shown by a log, along which the first guest is disciplined and is
//! not followed by its private controller.
//!
//! For each, the world's own step has what the private controller has at the same place.

ghost use Rattle.std.specs.Prelude.{◌≡◌, ℕ, List, [], ◌∷◌, true, false, is_some};
ghost use Rattle.nv_world_model.specs.Contained.{Contained, IsContained};
ghost use Rattle.nv_world_model.specs.Headline.{none_failed};
ghost use Rattle.nv_world_model.specs.declared.event.Event.{Event};
ghost use Rattle.nv_world_model.specs.declared.event.Event.TheVariants as event;
ghost use Rattle.nv_examples.specs.Stepping.{IsFollowed, disciplined_by, seen_along};
ghost use Rattle.nv_examples.specs.extents.Events.{moves};
ghost use Rattle.nv_examples.specs.extents.Guests.{first, opened, set_up};
ghost use Rattle.nv_examples.specs.Logs.{logged};
ghost use Rattle.nv_examples.specs.extents.WrongWorlds.{HasPrivateRun, all_scattered, all_told, each_completed, first_bytes, first_moved, freed_at_reap};
ghost use Rattle.nv_examples.specs.extents.WrongWorlds.{parts_scattered, parts_swapped, private_by, read_back, read_behind_the_neighbour, read_in_parts, read_that_fails, right, run_by};
ghost use Rattle.nv_examples.specs.extents.WrongWorlds.{told_by, whole_length, world_by, written_over};
ghost use Rattle.nv_examples.specs.extents.StoryRun.{memory_in};

/// With the world's own step this is the promise.
#[tactic(none)]
pub fn the_worlds_own_step()
    ensures { (events : List Event) → HasPrivateRun events → IsFollowed first opened right events }
{}

/// A part with the whole's length: each part of a Write takes as many blocks as the whole. So the first runs on into the neighbour's block after
/// its extent, and the second into one that the guest did not name.
#[tactic(none)]
pub fn a_part_with_the_whole_length()
    ensures disciplined { disciplined_by first whole_length written_over opened ≡ true }
    // Of the disk's blocks 3 and 4, and 9 and 10, the first and third are those that were named, and the second is the neighbour's.
    ensures its_own_step { first_bytes (world_by right written_over).disk (3 ∷ 4 ∷ 9 ∷ 10 ∷ []) ≡ 7 ∷ 0 ∷ 5 ∷ 0 ∷ [] }
    ensures the_wrong_step { first_bytes (world_by whole_length written_over).disk (3 ∷ 4 ∷ 9 ∷ 10 ∷ []) ≡ 7 ∷ 5 ∷ 5 ∷ 4 ∷ [] }
    ensures the_private_run { first_bytes (private_by whole_length written_over).disk (1 ∷ 2 ∷ 3 ∷ []) ≡ 7 ∷ 5 ∷ 0 ∷ [] }
    ensures it_is_not_followed { IsFollowed first opened whole_length written_over → ⊥ }
    // The device's next event, in the world after it, changes what is another guest's.
    ensures it_is_not_contained { Contained set_up (moves 0 1) (world_by whole_length first_moved) → ⊥ }
{}

/// Parts swapped: each part of a Write has the other's blocks, so that both blocks at the join change places.
#[tactic(none)]
pub fn parts_that_are_swapped()
    ensures disciplined { disciplined_by first parts_swapped written_over opened ≡ true }
    ensures its_own_step { first_bytes (world_by right written_over).disk (3 ∷ 9 ∷ []) ≡ 7 ∷ 5 ∷ [] }
    ensures the_wrong_step { first_bytes (world_by parts_swapped written_over).disk (3 ∷ 9 ∷ []) ≡ 5 ∷ 7 ∷ [] }
    ensures the_private_run { first_bytes (private_by parts_swapped written_over).disk (1 ∷ 2 ∷ []) ≡ 7 ∷ 5 ∷ [] }
    ensures it_is_not_followed { IsFollowed first opened parts_swapped written_over → ⊥ }
{}

/// A tag freed early: the second tag of a bounced Read is free once its physical completion is read, and its bytes never reach the guest.
#[tactic(none)]
pub fn a_tag_that_is_freed_early()
    ensures disciplined { disciplined_by first freed_at_reap read_back opened ≡ true }
    ensures its_own_step { told_by right read_back ≡ 7 ∷ 5 ∷ [] }
    ensures the_wrong_step { told_by freed_at_reap read_back ≡ 7 ∷ 0 ∷ [] }
    ensures the_private_run { all_told (seen_along (run_by freed_at_reap read_back)) ≡ 7 ∷ 5 ∷ [] }
    ensures it_is_not_followed { IsFollowed first opened freed_at_reap read_back → ⊥ }
{}

/// A completion a part: each tag of a Read is completed by itself, so that the guest has a completion before the second block has moved, which
/// no private controller can post, and then another of the same command.
#[tactic(none)]
pub fn a_completion_a_part()
    ensures disciplined { disciplined_by first each_completed read_in_parts opened ≡ true }
    ensures its_own_step { told_by right read_in_parts ≡ 0 ∷ 0 ∷ [] }
    ensures the_wrong_step { told_by each_completed read_in_parts ≡ 3 ∷ 3 ∷ [] }
    ensures the_private_run { is_some (run_by each_completed read_in_parts) ≡ false }
    ensures it_is_not_followed { IsFollowed first opened each_completed read_in_parts → ⊥ }
{}

/// A scatter of the parts that succeeded: the second part of a bounced Read fails, and the bytes of the first reach the guest all the same.
#[tactic(none)]
pub fn a_scatter_of_the_parts_that_succeeded()
    ensures disciplined { disciplined_by first parts_scattered read_that_fails opened ≡ true }
    ensures its_own_step { told_by right read_that_fails ≡ 0 ∷ 0 ∷ [] }
    ensures the_wrong_step { told_by parts_scattered read_that_fails ≡ 7 ∷ 0 ∷ [] }
    // The private controller has no failure: it reads both blocks, or none where the command is given up. The promise says nothing of a guest one
    // of whose commands failed. So it is the step alone that this breaks.
    ensures the_private_run { all_told (seen_along (run_by parts_scattered read_that_fails)) ≡ 7 ∷ 5 ∷ [] }
    ensures a_command_failed { none_failed set_up 0 (logged set_up read_that_fails opened) opened ≡ false }
    ensures it_is_not_followed { IsFollowed first opened parts_scattered read_that_fails → ⊥ }
{}

/// A scatter of all parts: the second part of a bounced Read fails before its block has moved. What is in its bounce pages reaches the guest,
/// although it is the neighbour's, who had that tag before.
#[tactic(none)]
pub fn a_scatter_of_all_parts()
    ensures its_own_step { memory_in (right (event.Post 0 0) (world_by right read_behind_the_neighbour)).world 0x1a01 ≡ 0 }
    ensures the_wrong_step { memory_in (all_scattered (event.Post 0 0) (world_by right read_behind_the_neighbour)).world 0x1a01 ≡ 6 }
    ensures it_is_not_contained { IsContained (all_scattered (event.Post 0 0)) set_up (event.Post 0 0) (world_by right read_behind_the_neighbour) → ⊥ }
{}
