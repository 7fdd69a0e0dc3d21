//! Terms of the private controller, each distinguished from a similar one that the other rows let pass.

ghost use Rattle.std.specs.Prelude.{◌≡◌, [], ◌∷◌, ◌++◌, Some, true, false, replicate, slice_set};
ghost use Rattle.nv_examples.specs.Deleting.{deleting};
ghost use Rattle.nv_model.specs.Admin.{NothingToDo, QueueFull, admin};
ghost use Rattle.nv_model.specs.Controller.{opening, ran_out};
ghost use Rattle.nv_model.specs.Footprint.{Destination, ListBytes, is_destination, named_as, names};
ghost use Rattle.nv_model.specs.Memory.{image, put_image};
ghost use Rattle.nv_model.specs.Private.{AdminQueueStep, TakeStep, start, verdict_in};
ghost use Rattle.nv_model.specs.Rows.{by_sgl, guest, holding, last_segment, one_block, read, refusal};
ghost use Rattle.nv_model.specs.RowsRuns.{admin_entry, after, at_start, bring_up, can_run, deletion_done, done_third, dword_in, first_answer, first_taken};
ghost use Rattle.nv_model.specs.RowsRuns.{new_completion_queue, new_submission_queue, read_register, replied_to, ring, store, third_answer, write_register};
ghost use Rattle.nv_model.specs.declared.reply.Reply.TheVariants as reply;

/// Admin commands.
#[tactic(none)]
pub fn admins()
    ensures an_identifier_of_nine_bits { third_answer (admin_entry 0x04 3 0 0 0 0x101 0) ≡ Some 0x82030003 }
    ensures a_size_of_thirteen_bits { third_answer (new_completion_queue 2 0x1001 1 0x14000) ≡ Some 0x82050003 }
    ensures a_completion_queue_of_nine_bits { third_answer (new_submission_queue 2 1 1 0x101 0x14000) ≡ Some 0x82030003 }
    ensures a_feature_beside_select { third_answer (admin_entry 0x0a 3 0 0 0 0x107 0) ≡ Some 0x00010003 }
    ensures a_refusal_has_no_result { after (done_third (admin_entry 0x03 3 0 0 0 0 0)) start (dword_in 0x11020) ≡ Some 0 }
    ensures an_identify_has_no_result { after (done_third (admin_entry 0x06 3 1 0x15000 0 0x00 0)) start (dword_in 0x11020) ≡ Some 0 }
    ensures a_queue_in_pieces_that_interrupts { third_answer (admin_entry 0x05 3 0 0x14000 0 0x000f0002 2) ≡ Some 0x80050003 }
    ensures a_queue_that_leaves_the_memory_by_a_slot { third_answer (new_completion_queue 2 256 1 0x1f000) ≡ Some 0x80090003 }
    ensures the_controllers_structure_whatever_the_namespace { third_answer (admin_entry 0x06 3 1 0x15000 0 0x01 0) ≡ Some 0x00010003 }
    ensures a_queue_is_there_once { after (bring_up ++ store 0x10080 (new_completion_queue 8 1 1 0x14000 ++ new_completion_queue 8 1 1 0x15000) ∷ ring 0x1000 4 ∷ AdminQueueStep ∷ AdminQueueStep ∷ [])
        start (dword_in 0x1103c) ≡ Some 0x82030003 }
{}

/// Queues, where they lie and whose they are, and features.
#[tactic(none)]
pub fn queues_and_features()
    ensures a_queue_beside_a_page { third_answer (new_completion_queue 2 1 1 0x14040) ≡ Some 0x80270003 }
    ensures a_queue_that_just_fits { third_answer (new_completion_queue 2 255 1 0x1f000) ≡ Some 0x00010003 }
    ensures a_submission_queue_that_leaves_the_memory { third_answer (new_submission_queue 2 64 1 1 0x1f000) ≡ Some 0x80090003 }
    ensures a_feature_behind_the_only_one { third_answer (admin_entry 0x0a 3 0 0 0 0x08 0) ≡ Some 0x80050003 }
    ensures a_feature_behind_it_is_not_set { first_answer (admin_entry 0x09 3 0 0 0 0x08 0) ≡ Some 0x80050003 }
    ensures too_many_submission_queues_beside_completion_queues { first_answer (admin_entry 0x09 3 0 0 0 0x07 0x0001ffff) ≡ Some 0x80050003 }
    ensures a_completion_queue_that_is_not_the_first { after (bring_up ++ store 0x10080 (new_completion_queue 2 1 1 0x14000 ++ new_submission_queue 2 1 1 2 0x15000 ++ admin_entry 0x04 3 0 0 0 2 0)
        ∷ ring 0x1000 5 ∷ AdminQueueStep ∷ AdminQueueStep ∷ AdminQueueStep ∷ []) start (dword_in 0x1104c) ≡ Some 0x82190003 }
    ensures a_completion_queue_below_one_in_use { after (bring_up ++ store 0x10080 (new_completion_queue 2 1 1 0x14000 ++ new_completion_queue 3 1 1 0x16000 ++ new_submission_queue 2 1 1 3 0x15000 ++ admin_entry 0x04 3 0 0 0 2 0)
        ∷ ring 0x1000 6 ∷ AdminQueueStep ∷ AdminQueueStep ∷ AdminQueueStep ∷ AdminQueueStep ∷ []) start (dword_in 0x1105c) ≡ Some 0x00010003 }
{}

/// Steps that do nothing, and the one that waits for room.
#[tactic(none)]
pub fn admin_steps()
    ensures none_where_it_is_not_ready { admin (λ _. true) 64 (deleting false) (λ _. 0) ≡ NothingToDo }
    ensures none_where_commands_are_taken { admin (λ _. true) 64 (record (deleting true) { taken = slice_set opening.taken 1 1 }) (λ _. 0) ≡ NothingToDo }
    ensures none_where_the_completion_queue_is_full { admin (λ _. true) 64 (record (deleting true) {
      completion_queues = slice_set opening.completion_queues 0 (Some (record { base = 0x11000; size = 2; head = 0; tail = 1; phase = true; vector = Some 0 }));
    }) (λ _. 0) ≡ QueueFull }
{}

/// Deletions.
#[tactic(none)]
pub fn deletions()
    ensures a_queue_that_is_gone_is_made_anew { after (deletion_done ++ store 0x100c0 (new_submission_queue 1 1 1 1 0x13000) ∷ ring 0x1000 4 ∷ AdminQueueStep ∷ []) at_start (dword_in 0x1103c)
        ≡ Some 0x00010003 }
    ensures it_is_there { after deletion_done at_start (dword_in 0x1103c) ≡ Some 0 }
{}

/// Resets.
#[tactic(none)]
pub fn resets()
    ensures no_admin_command_behind_it { can_run (first_taken ++ ring 0x1000 3 ∷ write_register 0x14 0x00460000 ∷ AdminQueueStep ∷ []) at_start ≡ false }
    ensures nothing_is_taken_behind_it { can_run (first_taken ++ ring 0x1008 2 ∷ write_register 0x14 0x00460000 ∷ TakeStep 1 1 ∷ []) at_start ≡ false }
    ensures ready_until_the_last_runs_out { (ran_out (record opening { ready = true; taken = slice_set opening.taken 1 2 }) 1).ready ≡ true }
{}

/// Registers.
#[tactic(none)]
pub fn reserved()
    ensures bits_of_the_sizes { replied_to (write_register 0x24 0xf01f001f ∷ write_register 0x28 0x10000 ∷ write_register 0x30 0x11000 ∷ write_register 0x14 1 ∷ read_register 0x1c ∷ []) start
        ≡ Some (replicate 4 reply.Done ++ reply.Bytes (1 ∷ 0 ∷ 0 ∷ 0 ∷ []) ∷ []) }
    ensures a_submission_queue_above_four_gigabytes { replied_to (write_register 0x24 0x001f001f ∷ write_register 0x28 0x10000 ∷ write_register 0x2c 1 ∷ write_register 0x30 0x11000 ∷ write_register 0x14 1 ∷ read_register 0x1c ∷ []) start
        ≡ Some (replicate 5 reply.Done ++ reply.Bytes (2 ∷ 0 ∷ 0 ∷ 0 ∷ []) ∷ []) }
    ensures a_completion_queue_above_four_gigabytes { replied_to (write_register 0x24 0x001f001f ∷ write_register 0x28 0x10000 ∷ write_register 0x30 0x1000 ∷ write_register 0x34 1 ∷ write_register 0x14 1 ∷ read_register 0x1c ∷ []) start
        ≡ Some (replicate 5 reply.Done ++ reply.Bytes (2 ∷ 0 ∷ 0 ∷ 0 ∷ []) ∷ []) }
    ensures a_bit_beside_enable { replied_to (write_register 0x24 0x001f001f ∷ write_register 0x28 0x10000 ∷ write_register 0x30 0x11000 ∷ write_register 0x14 3 ∷ read_register 0x1c ∷ []) start
        ≡ Some (replicate 4 reply.Done ++ reply.Bytes (1 ∷ 0 ∷ 0 ∷ 0 ∷ []) ∷ []) }
{}

/// Limits and named bytes.
#[tactic(none)]
pub fn named()
    ensures a_limit_of_one { refusal (verdict_in (record guest { limit = 1 }) (holding 0x6000 one_block) (by_sgl read 5 0 (last_segment 0x6000 16))) ≡ Some 0x000d0007 }
    ensures the_last_byte { names (named_as Destination 0x3000 512) 0x31ff ≡ true }
    ensures a_list_is_no_destination { is_destination (named_as ListBytes 0x6000 16) ≡ false }
{}

/// Images.
#[tactic(none)]
pub fn images()
    ensures a_byte_of_it { image (record { guest = 0; host = 0x100; len = 0x10 } ∷ []) (λ at. at) 5 ≡ 0x105 }
    ensures beside_it { put_image (record { guest = 0; host = 0x100; len = 0x10 } ∷ []) (λ at. 7) (λ at. 9) 0x110 ≡ 9 }
    ensures in_it { put_image (record { guest = 0; host = 0x100; len = 0x10 } ∷ []) (λ at. at) (λ at. 9) 0x105 ≡ 5 }
{}
