//! A second log of a disciplined guest, whose commands have lists: a Write by two descriptors, the second at an odd address, a Read of which a
//! quarter is discarded, and a deallocation of two ranges, the first of no blocks. Its neighbour meddles at the same guest addresses.

ghost use Rattle.std.specs.Prelude.{◌≡◌, ◌∷◌, [], true, is_some, replicate};
ghost use Rattle.nv_model.specs.Private.{AdminQueueStep, JudgeStep, MoveStep, PostStep, TakeStep};
ghost use Rattle.nv_model.specs.Memory.{bytes_from};
ghost use Rattle.nv_world_model.specs.PrivateSteps.{private_steps, seen_by};
ghost use Rattle.nv_examples.specs.Stepping.{seen_along};
ghost use Rattle.nv_examples.specs.Breaches.{is_disciplined_in, none_failed_in};
ghost use Rattle.nv_examples.specs.Guests.{first, opened, set_up};
ghost use Rattle.nv_examples.specs.SecondStory.{besides_acts, block_bytes, private_behind, replies_seen, replies_told, second_log, second_run, second_story, up_to_write, world_behind};
ghost use Rattle.nv_examples.specs.StoryRun.{memory_in};

/// The log's premises and its private run, a clause each.
#[tactic(none)]
pub fn examples()
    // No command fails, and the guest keeps to its discipline.
    ensures no_command_failed { none_failed_in second_story ≡ true }
    ensures the_guest_is_disciplined { is_disciplined_in second_story ≡ true }
    // Besides its acts these are the private controller's steps: reading a list is none of them, and the range of no blocks neither.
    ensures the_steps { besides_acts (private_steps set_up.geometry 0 first second_log opened)
        ≡ AdminQueueStep ∷ AdminQueueStep ∷ TakeStep 1 0 ∷ JudgeStep 0 ∷ MoveStep 0 0 ∷ PostStep 0
        ∷ TakeStep 1 0 ∷ JudgeStep 0 ∷ MoveStep 0 0 ∷ PostStep 0 ∷ TakeStep 1 0 ∷ JudgeStep 0 ∷ MoveStep 0 0 ∷ PostStep 0 ∷ [] }
    // They can be made.
    ensures they_can_be_made { is_some second_run ≡ true }
    // The guest sees the same in them as in the log.
    ensures what_the_guest_sees { replies_seen (seen_by 0 second_log) ≡ replies_told }
    ensures what_the_private_controller_shows { replies_seen (seen_along second_run) ≡ replies_told }
    // What is discarded goes nowhere.
    ensures what_is_discarded { bytes_from (private_behind second_story).memory 0x0d80 2 ≡ 0 ∷ 0 ∷ [] }
    ensures what_is_discarded_in_the_world { bytes_from (memory_in (world_behind second_story)) 0x0d80 2 ≡ 0 ∷ 0 ∷ [] }
    // After the Write its block is made of both pieces; the guest's block 1 is the disk's block 3.
    ensures the_block_that_was_written { block_bytes (private_behind up_to_write).disk 1 ≡ 7 ∷ 8 ∷ 9 ∷ 0 ∷ 5 ∷ 6 ∷ 0 ∷ [] }
    ensures the_block_that_was_written_on_the_disk { block_bytes (world_behind up_to_write).disk 3 ≡ 7 ∷ 8 ∷ 9 ∷ 0 ∷ 5 ∷ 6 ∷ 0 ∷ [] }
    // After the deallocation it is zero.
    ensures the_block_that_was_deallocated { block_bytes (private_behind second_story).disk 1 ≡ replicate 7 0 }
    ensures the_block_that_was_deallocated_on_the_disk { block_bytes (world_behind second_story).disk 3 ≡ replicate 7 0 }
{}
