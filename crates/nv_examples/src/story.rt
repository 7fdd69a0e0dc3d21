//! A whole log of a disciplined guest beside a hostile one: the premises of the theorem hold, and this is its private run.
//!
//! The guest brings its controller up, writes a block from an aligned buffer, reads it by PRP and into a buffer at an odd address, resets its
//! controller with a Read in flight, and has its queues deleted while a Flush is. Its neighbour gives garbage as commands and as lists, rings
//! what isn't there, and reaches for what it was not given; one of its commands fails.

ghost use Rattle.std.specs.Prelude.{◌≡◌, ℕ, ◌+◌, ◌<◌, true, false, slice_get, Some, None, is_some};
ghost use Rattle.nv_world_model.specs.Agrees.{is_awaited};
ghost use Rattle.nv_world_model.specs.Disciplined.{is_disciplined};
ghost use Rattle.nv_world_model.specs.Headline.{IsPrivateRun, none_failed};
ghost use Rattle.nv_world_model.specs.Log.{IsReplay};
ghost use Rattle.nv_world_model.specs.PrivateSteps.{private_steps, seen_by};
ghost use Rattle.nv_world_model.specs.SetUp.{refusal_of};
ghost use Rattle.nv_examples.specs.Stepping.{seen_along};
ghost use Rattle.nv_examples.specs.Guests.{first, neighbour, opened, set_up};
ghost use Rattle.nv_examples.specs.Story.{story};
ghost use Rattle.nv_examples.specs.StoryRun.{block_at_end, bytes_at_end, bytes_at_places, controller_at_end, late_private, late_world, memory_in, story_end, story_private, story_run, story_steps};

/// The log's premises, a clause each.
#[tactic(none)]
pub fn premises()
    // The set-up is accepted.
    ensures the_set_up_is_accepted { refusal_of set_up ≡ None }
    // The log leads from the start to its end, and each of its replies is the world's.
    ensures the_log_is_a_replay { IsReplay set_up.geometry opened story story_end }
    // The physical controller fails no command of the first guest, although it fails one of its neighbour.
    ensures no_command_of_its_own_failed { none_failed set_up.geometry 0 story opened ≡ true }
    // The first guest keeps to its discipline in each state.
    ensures the_guest_is_disciplined { is_disciplined set_up.geometry 0 first story opened ≡ true }
    // Neither premise holds of its neighbour, and none need.
    ensures its_neighbours_failed { none_failed set_up.geometry 1 story opened ≡ false }
    ensures its_neighbour_is_not_disciplined { is_disciplined set_up.geometry 1 neighbour story opened ≡ false }
{}

/// Its private run, a clause each.
#[tactic(none)]
pub fn private_run()
    // The steps that the log represents are these.
    ensures the_steps { private_steps set_up.geometry 0 first story opened ≡ story_steps }
    // They can be made from the start of a private controller.
    ensures they_can_be_made { is_some story_run ≡ true }
    // The guest sees its acts with the replies of the log.
    ensures the_guest_sees_what_was_logged { seen_along story_run ≡ seen_by 0 story }
    // The private controller ends with these registers and queues, and so does the guest's in the world.
    ensures the_controller { story_private.controller ≡ controller_at_end }
    ensures the_controller_in_the_world { slice_get story_end.controllers 0 ≡ Some controller_at_end }
    // Its buffers and completion queues hold this, and so do the guest's.
    ensures the_memory { bytes_at_places story_private.memory ≡ bytes_at_end }
    ensures the_memory_in_the_world { bytes_at_places (memory_in story_end) ≡ bytes_at_end }
    // Its blocks are these, and so are the disk's; the guest's begin with the disk's block 2.
    ensures the_first_block { (offset : ℕ) → story_private.disk 0 offset ≡ block_at_end offset }
    ensures the_first_block_of_the_disk { (offset : ℕ) → story_end.disk 2 offset ≡ block_at_end offset }
    ensures the_second_block { (offset : ℕ) → story_private.disk 1 offset ≡ 0 }
    ensures the_second_block_of_the_disk { (offset : ℕ) → story_end.disk 3 offset ≡ 0 }
    // Both are kept.
    ensures the_marks { (lba : ℕ) → lba < 2 → story_private.kept lba ≡ true }
    ensures the_marks_of_the_disk { (lba : ℕ) → lba < 2 → story_end.kept (2 + lba) ≡ true }
{}

/// What is promised, computed: the log's steps are that run, the guest sees in it what was logged, and it ends in a state that agrees with the
/// world after the log, in every byte, block and mark.
#[tactic(none)]
pub fn the_promise()
    ensures { IsPrivateRun set_up.geometry 0 first story opened story_end }
{}

/// Where the block of the bounced Read has moved, the private controller's buffer has its bytes, the guest's has not yet, and they are awaited.
#[tactic(none)]
pub fn bytes_that_come_late()
    ensures they_have_moved { late_private.memory 0x0c01 ≡ 7 }
    ensures they_have_not_come { memory_in late_world 0x0c01 ≡ 0 }
    ensures they_are_awaited { is_awaited 0 first late_world 0x0c01 ≡ true }
{}
