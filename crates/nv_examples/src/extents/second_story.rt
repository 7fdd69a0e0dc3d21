//! A second log, of the guest of three extents: a bounced Write of three parts by a list, a Compare that differs in its last part, a deallocation
//! in the last extent alone, a Read that is given up, one that its list refuses, and one that runs out after a reset. Its neighbour holds the
//! lane's first two tags all the while.

ghost use Rattle.std.specs.Prelude.{◌≡◌, ◌∷◌, [], true, is_some, replicate};
ghost use Rattle.nv_model.specs.Memory.{bytes_from};
ghost use Rattle.nv_world_model.specs.Disciplined.{is_disciplined};
ghost use Rattle.nv_world_model.specs.Headline.{none_failed};
ghost use Rattle.nv_world_model.specs.Log.{IsReplay};
ghost use Rattle.nv_world_model.specs.PrivateSteps.{private_steps, seen_by};
ghost use Rattle.nv_examples.specs.Stepping.{seen_along};
ghost use Rattle.nv_examples.specs.extents.Guests.{neighbour, opened, set_up};
ghost use Rattle.nv_examples.specs.extents.SecondRun.{bytes_of_blocks, second_end, second_memory, second_private, second_run, second_steps};
ghost use Rattle.nv_examples.specs.extents.SecondStory.{second_story};

/// The log's premises and its private run, a clause each.
#[tactic(none)]
pub fn examples()
    // The log leads from the start to its end, and each of its replies is the world's.
    ensures the_log_is_a_replay { IsReplay set_up opened second_story second_end }
    // No command fails, and the guest keeps to its discipline.
    ensures no_command_failed { none_failed set_up 1 second_story opened ≡ true }
    ensures the_guest_is_disciplined { is_disciplined set_up 1 neighbour second_story opened ≡ true }
    // The steps that the log represents are these: each command is taken, judged and completed once, by the name of the lowest of its tags.
    ensures the_steps { private_steps set_up 1 neighbour second_story opened ≡ second_steps }
    // They can be made.
    ensures they_can_be_made { is_some second_run ≡ true }
    // The guest sees its acts with the replies of the log.
    ensures the_guest_sees_what_was_logged { seen_along second_run ≡ seen_by 1 second_story }
    // Blocks 1 to 3 are the disk's 5, 7 and 12: each is made of its bytes of the two pieces, and the last is deallocated.
    ensures the_blocks { bytes_of_blocks second_private.disk (1 ∷ 2 ∷ 3 ∷ [])
        ≡ (1 ∷ 2 ∷ 0 ∷ 0 ∷ 0 ∷ []) ∷ (3 ∷ 4 ∷ 0 ∷ 9 ∷ 0 ∷ []) ∷ replicate 5 0 ∷ [] }
    // The blocks of the disk beside them are as they were.
    ensures the_blocks_on_the_disk { bytes_of_blocks second_end.disk (4 ∷ 5 ∷ 6 ∷ 7 ∷ 8 ∷ 11 ∷ 12 ∷ 13 ∷ [])
        ≡ replicate 5 0 ∷ (1 ∷ 2 ∷ 0 ∷ 0 ∷ 0 ∷ []) ∷ replicate 5 0 ∷ (3 ∷ 4 ∷ 0 ∷ 9 ∷ 0 ∷ []) ∷ replicate 4 (replicate 5 0) }
    // What was given up or refused went nowhere.
    ensures what_went_nowhere { bytes_from second_private.memory 0x2c00 2 ≡ 0 ∷ 0 ∷ [] }
    ensures what_went_nowhere_in_the_world { bytes_from (second_memory second_end) 0x2c00 2 ≡ 0 ∷ 0 ∷ [] }
{}
