//! How a completion is read: by the lane, its next slot, its phase tag, its queue and its identifier.

ghost use Rattle.std.specs.Prelude.{◌≡◌, Some, None, false, true};
ghost use Rattle.nv_core.specs.Reaping.{answer_of, answer_to, is_new, names_command, next_completion, waits_in};
ghost use Rattle.nv_examples_host.specs.Scenes.{busy_lane, completion_with, low, reading, two_slots};
ghost use Rattle.nv_laws_sound.specs.Phased.{phase_at, wanted_at};
ghost use Rattle.nv_model.specs.Memory.{byte_in};
ghost use Rattle.nv_model.specs.declared.reply.Reply.TheVariants as reply;

/// Phase tags.
#[tactic(none)]
pub fn phases()
    ensures new_in_a_first_pass { is_new (reading 0 true) (completion_with 1 1 true) ≡ true }
    ensures old_in_a_first_pass { is_new (reading 0 true) (completion_with 1 1 false) ≡ false }
    ensures new_in_a_second_pass { is_new (reading 0 false) (completion_with 1 1 false) ≡ true }
    ensures old_in_a_second_pass { is_new (reading 0 false) (completion_with 1 1 true) ≡ false }
    // The reader is where the writer is: what it wants there comes in this pass.
    ensures wanted_of_this_pass { wanted_at 3 3 true ≡ true }
    ensures wanted_before_the_writer { wanted_at 2 3 true ≡ true }
    // The writer has begun a new pass, and the reader is still in the one before.
    ensures wanted_of_the_pass_before { wanted_at 60 3 true ≡ false }
    ensures wanted_of_the_other_pass { wanted_at 4 3 false ≡ true }
    ensures of_the_first_slot { phase_at low (byte_in two_slots) 0 0 ≡ 0 }
    ensures of_the_second_slot { phase_at low (byte_in two_slots) 0 1 ≡ 1 }
    ensures of_a_slot_that_was_never_written { phase_at low (byte_in two_slots) 0 2 ≡ 0 }
    ensures of_another_lane { phase_at low (byte_in two_slots) 1 1 ≡ 0 }
{}

/// Which completions name a command.
#[tactic(none)]
pub fn commands()
    ensures one_that_was_handed_on { names_command 0 busy_lane (completion_with 1 1 true) ≡ true }
    ensures one_of_another_guest { names_command 0 busy_lane (completion_with 1 7 true) ≡ true }
    // By the queue pair of another lane.
    ensures of_another_queue { names_command 0 busy_lane (completion_with 2 1 true) ≡ false }
    ensures of_the_admin_queue { names_command 0 busy_lane (completion_with 0 1 true) ≡ false }
    ensures of_the_second_lane { names_command 1 busy_lane (completion_with 2 1 true) ≡ true }
    // Tags whose command waits for its plan, has ended, or is not there.
    ensures one_that_waits { names_command 0 busy_lane (completion_with 1 0 true) ≡ false }
    ensures one_that_has_ended { names_command 0 busy_lane (completion_with 1 2 true) ≡ false }
    ensures a_free_tag { names_command 0 busy_lane (completion_with 1 3 true) ≡ false }
    ensures no_tag { names_command 0 busy_lane (completion_with 1 9 true) ≡ false }
{}

/// How a Reap is answered.
#[tactic(none)]
pub fn answers()
    ensures a_new_one { answer_to 0 (reading 0 true) (completion_with 1 1 true) ≡ Some reply.Done }
    ensures an_old_one { answer_to 0 (reading 0 true) (completion_with 1 1 false) ≡ Some reply.Idle }
    ensures a_stray_one { answer_to 0 (reading 0 true) (completion_with 1 2 true) ≡ None }
    // An old completion that names no command is not stray.
    ensures an_old_one_of_no_command { answer_to 0 (reading 0 true) (completion_with 1 2 false) ≡ Some reply.Idle }
    ensures no_lane { answer_of low 9 None two_slots ≡ Some reply.Ignored }
    ensures the_first_slot { answer_of low 0 (Some (reading 0 true)) two_slots ≡ Some reply.Idle }
    ensures the_second_slot { answer_of low 0 (Some (reading 1 true)) two_slots ≡ Some reply.Done }
    // The pass after that wants the other phase tag; what is in the second slot is old then.
    ensures the_second_slot_a_pass_later { answer_of low 0 (Some (reading 1 false)) two_slots ≡ Some reply.Idle }
    ensures the_first_slot_a_pass_later { answer_of low 0 (Some (reading 0 false)) two_slots ≡ Some reply.Done }
    ensures the_bytes_of_a_slot { next_completion low 0 (reading 1 true) two_slots ≡ completion_with 1 6 true }
    ensures it_waits { waits_in low 0 (Some (reading 1 true)) two_slots ≡ true }
    ensures none_waits { waits_in low 0 (Some (reading 0 true)) two_slots ≡ false }
    ensures none_waits_without_a_lane { waits_in low 0 None two_slots ≡ false }
    // Of a lane's memory no other lane reads.
    ensures none_of_another_lane { waits_in low 1 (Some (reading 1 true)) two_slots ≡ false }
{}
