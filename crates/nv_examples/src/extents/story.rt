//! A whole log of a disciplined guest of two extents beside a hostile neighbour of three: the premises of the theorem hold, and this is its
//! private run.
//!
//! The guest brings its controller up, writes its whole namespace, reads both blocks at the join of its extents into an aligned buffer and into
//! one at an odd address, and deallocates them by one range. Each of these commands is two physical ones, whose units move one among the other
//! and whose parts end in another order than they were handed on. Its neighbour rings what it has not written yet, reaches for what it was not
//! given, and has a part of its command failed.

ghost use Rattle.std.specs.Prelude.{◌≡◌, ℕ, ◌∷◌, [], true, false, slice_get, Some, is_some, map};
ghost use Rattle.nv_world_model.specs.Agrees.{is_awaited};
ghost use Rattle.nv_world_model.specs.Disciplined.{is_disciplined};
ghost use Rattle.nv_world_model.specs.Headline.{IsPrivateRun, none_failed};
ghost use Rattle.nv_world_model.specs.Log.{IsReplay};
ghost use Rattle.nv_world_model.specs.PrivateSteps.{private_steps, seen_by};
ghost use Rattle.nv_examples.specs.Stepping.{seen_along};
ghost use Rattle.nv_examples.specs.extents.Guests.{first, neighbour, opened, set_up};
ghost use Rattle.nv_examples.specs.extents.Story.{story};
ghost use Rattle.nv_examples.specs.extents.StoryRun.{block_of, bytes_at_end, bytes_at_places, controller_at_end, late_private, late_world, memory_in};
ghost use Rattle.nv_examples.specs.extents.StoryRun.{read_bytes, story_end, story_private, story_run, story_steps};

/// The log's premises, a clause each.
#[tactic(none)]
pub fn premises()
    // The log leads from the start to its end, and each of its replies is the world's.
    ensures the_log_is_a_replay { IsReplay set_up opened story story_end }
    // The physical controller fails no command of the first guest, although it fails a part of one of its neighbour's.
    ensures no_command_of_its_own_failed { none_failed set_up 0 story opened ≡ true }
    // The first guest keeps to its discipline in each state.
    ensures the_guest_is_disciplined { is_disciplined set_up 0 first story opened ≡ true }
    // Neither premise holds of its neighbour, and none need.
    ensures its_neighbours_failed { none_failed set_up 1 story opened ≡ false }
    ensures its_neighbour_is_not_disciplined { is_disciplined set_up 1 neighbour story opened ≡ false }
{}

/// Its private run, a clause each.
#[tactic(none)]
pub fn private_run()
    // The steps that the log represents are these.
    ensures the_steps { private_steps set_up 0 first story opened ≡ story_steps }
    // They can be made from the start of a private controller.
    ensures they_can_be_made { is_some story_run ≡ true }
    // The guest sees its acts with the replies of the log.
    ensures the_guest_sees_what_was_logged { seen_along story_run ≡ seen_by 0 story }
    // The private controller ends with these registers and queues, and so does the guest's in the world.
    ensures the_controller { story_private.controller ≡ controller_at_end }
    ensures the_controller_in_the_world { slice_get story_end.controllers 0 ≡ Some controller_at_end }
    // Its buffers and completion queue hold this, and so do the guest's.
    ensures the_memory { bytes_at_places story_private.memory ≡ bytes_at_end }
    ensures the_memory_in_the_world { bytes_at_places (memory_in story_end) ≡ bytes_at_end }
    // Its first and last block are as they were written, and both at the join are zeros; so are the disk's, which lie at 2 and 3, and at 9 and 10.
    ensures block_0 { (offset : ℕ) → story_private.disk 0 offset ≡ block_of (1 ∷ 2 ∷ []) offset }
    ensures block_2_of_the_disk { (offset : ℕ) → story_end.disk 2 offset ≡ block_of (1 ∷ 2 ∷ []) offset }
    ensures block_1 { (offset : ℕ) → story_private.disk 1 offset ≡ block_of [] offset }
    ensures block_3_of_the_disk { (offset : ℕ) → story_end.disk 3 offset ≡ block_of [] offset }
    ensures block_2 { (offset : ℕ) → story_private.disk 2 offset ≡ block_of [] offset }
    ensures block_9_of_the_disk { (offset : ℕ) → story_end.disk 9 offset ≡ block_of [] offset }
    ensures block_3 { (offset : ℕ) → story_private.disk 3 offset ≡ block_of (4 ∷ []) offset }
    ensures block_10_of_the_disk { (offset : ℕ) → story_end.disk 10 offset ≡ block_of (4 ∷ []) offset }
    // All are kept but the one that was deallocated after the Flush.
    ensures the_marks { map story_private.kept (0 ∷ 1 ∷ 2 ∷ 3 ∷ []) ≡ true ∷ false ∷ true ∷ true ∷ [] }
    ensures the_marks_of_the_disk { map story_end.kept (2 ∷ 3 ∷ 9 ∷ 10 ∷ []) ≡ true ∷ false ∷ true ∷ true ∷ [] }
{}

/// What is promised, computed: the log's steps are that run, the guest sees in it what was logged, and it ends in a state that agrees with the
/// world after the log, in every byte, block and mark.
#[tactic(none)]
pub fn the_promise()
    ensures { IsPrivateRun set_up 0 first story opened story_end }
{}

/// Where both blocks of the bounced Read have moved, the private controller's buffer has their bytes, the guest's has none of them yet, and they
/// are awaited.
#[tactic(none)]
pub fn bytes_that_come_late()
    ensures they_have_moved { read_bytes late_private.memory ≡ 7 ∷ 8 ∷ 9 ∷ 5 ∷ 6 ∷ [] }
    ensures they_have_not_come { read_bytes (memory_in late_world) ≡ 0 ∷ 0 ∷ 0 ∷ 0 ∷ 0 ∷ [] }
    ensures they_are_awaited { map (is_awaited 0 first late_world) (0x1801 ∷ 0x1a01 ∷ []) ≡ true ∷ true ∷ [] }
{}
