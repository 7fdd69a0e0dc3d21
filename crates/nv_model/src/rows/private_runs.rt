//! Runs of the private controller from the start: bring-up, and a command from its doorbell to its completion.

ghost use Rattle.std.specs.Prelude.{◌≡◌, [], ◌∷◌, ◌++◌, ◌==◌, None, Some, is_some, map, true, false, replicate};
ghost use Rattle.std.specs.List.{list_any};
ghost use Rattle.nv_model.specs.declared.reply.Reply.TheVariants as reply;
ghost use Rattle.nv_model.specs.Controller.{pending};
ghost use Rattle.nv_model.specs.Private.{AdminQueueStep, GiveUpStep, JudgeStep, KeepStep, MoveStep, PostStep, RunOutStep, TakeStep, start};
ghost use Rattle.nv_model.specs.Rows.{command, first_example};
ghost use Rattle.nv_model.specs.RowsRuns.{admin_entry, after, at_start, block_byte, bring_up, bytes_in, can_run, create_completion_queue};
ghost use Rattle.nv_model.specs.RowsRuns.{create_submission_queue, deletion_begun, dword_in, first_ended, first_posted, first_taken};
ghost use Rattle.nv_model.specs.RowsRuns.{five_event_requests, flush_of, load, read_register, replied_to, ring, shared_completion_queue};
ghost use Rattle.nv_model.specs.RowsRuns.{store, three_ended, two_admin_slots, vector_five, write_posted_before_read, write_register};

/// The examples of this module, a clause each.
#[tactic(none)]
pub fn examples()
    // The entry that creates a completion queue, in bytes.
    ensures the_entry_that_creates_a_completion_queue { create_completion_queue 16
        ≡ 0x05 ∷ 0x00 ∷ 0x01 ∷ 0x00 ∷ replicate 20 0x00 ++ 0x00 ∷ 0x20 ∷ 0x01 ∷ replicate 13 0x00
        ++ 0x01 ∷ 0x00 ∷ 0x0f ∷ 0x00 ∷ 0x01 ∷ replicate 19 0x00 }
    // The entry that creates a submission queue, in bytes.
    ensures the_entry_that_creates_a_submission_queue { create_submission_queue
        ≡ 0x01 ∷ 0x00 ∷ 0x02 ∷ 0x00 ∷ replicate 20 0x00 ++ 0x00 ∷ 0x30 ∷ 0x01 ∷ replicate 13 0x00
        ++ 0x01 ∷ 0x00 ∷ 0x0f ∷ 0x00 ∷ 0x01 ∷ 0x00 ∷ 0x01 ∷ replicate 17 0x00 }
    // Each act of the bring-up is done.
    ensures each_act_of_the_bring_up_is_done { replied_to bring_up start ≡ Some (replicate 7 reply.Done) }
    // The bring-up's two completions, of 16 bytes each.
    ensures the_bring_up_posts_two_completions { after bring_up start (bytes_in 0x11000 32)
        ≡ Some (
        0x00 ∷ 0x00 ∷ 0x00 ∷ 0x00 ∷ 0x00 ∷ 0x00 ∷ 0x00 ∷ 0x00 ∷ 0x01 ∷ 0x00 ∷ 0x00 ∷ 0x00 ∷ 0x01 ∷ 0x00 ∷ 0x01 ∷ 0x00
        ∷ 0x00 ∷ 0x00 ∷ 0x00 ∷ 0x00 ∷ 0x00 ∷ 0x00 ∷ 0x00 ∷ 0x00 ∷ 0x02 ∷ 0x00 ∷ 0x00 ∷ 0x00 ∷ 0x02 ∷ 0x00 ∷ 0x01 ∷ 0x00 ∷ []
        ) }
    // The first example's completion, in the first slot of its queue.
    ensures the_first_example_is_completed { after first_posted at_start (bytes_in 0x12000 16)
        ≡ Some (0x00 ∷ 0x00 ∷ 0x00 ∷ 0x00 ∷ 0x00 ∷ 0x00 ∷ 0x00 ∷ 0x00 ∷ 0x01 ∷ 0x00 ∷ 0x01 ∷ 0x00 ∷ 0x07 ∷ 0x00 ∷ 0x01 ∷ 0x00 ∷ []) }
    // And its buffer, as the guest loads it.
    ensures the_first_example_reads_its_block { replied_to (first_posted ++ load 0x31fe 3 ∷ []) at_start
        ≡ Some (replicate 9 reply.Done ++ reply.Bytes (0x05 ∷ 0x05 ∷ 0x00 ∷ []) ∷ []) }
    // A command that is given up ends in Internal Error, and moves nothing.
    ensures a_command_that_is_given_up { after (first_taken ++ GiveUpStep 0 ∷ PostStep 0 ∷ []) at_start (λ p. dword_in 0x1200c p ∷ dword_in 0x3000 p ∷ [])
        ≡ Some (0x000d0007 ∷ 0 ∷ []) }
    // A command that is judged is not given up.
    ensures a_judged_command_is_not_given_up { can_run (first_taken ++ JudgeStep 0 ∷ GiveUpStep 0 ∷ []) at_start ≡ false }
    // A command with units left is not completed.
    ensures a_command_with_units_left_is_not_completed { can_run (first_taken ++ JudgeStep 0 ∷ PostStep 0 ∷ []) at_start ≡ false }
    // A command for which the doorbell was not rung is not taken.
    ensures a_command_that_was_not_rung_is_not_taken { can_run (bring_up ++ store 0x13000 first_example ∷ TakeStep 1 0 ∷ []) at_start ≡ false }
    // Of a Read and a Write of one block that are taken together, either may be completed first; each completion carries the queue's
    // head as it is when it is posted.
    ensures a_write_that_is_completed_before_an_earlier_read { after write_posted_before_read at_start (bytes_in 0x12000 32)
        ≡ Some (
        replicate 8 0x00 ++ 0x02 ∷ 0x00 ∷ 0x01 ∷ 0x00 ∷ 0x08 ∷ 0x00 ∷ 0x01 ∷ 0x00 ∷ replicate 8 0x00
        ++ 0x02 ∷ 0x00 ∷ 0x01 ∷ 0x00 ∷ 0x07 ∷ 0x00 ∷ 0x01 ∷ 0x00 ∷ []) }
    // The Read gets the block as it was when its unit moved.
    ensures a_read_gets_the_block_as_its_unit_found_it { after write_posted_before_read at_start (bytes_in 0x31fe 3) ≡ Some (5 ∷ 5 ∷ 0 ∷ []) }
    // And the Write's bytes stay in it.
    ensures a_write_that_moves_last_stays { after write_posted_before_read at_start (block_byte 5 511) ≡ Some (0x11, false) }
    // A vector is pending from a completion on until it is acknowledged: of queue 0 it is 0, queue 1 has none, and queue 2 has 5.
    ensures the_vectors_that_are_pending { map (λ acknowledged. after (vector_five ++ acknowledged) start (λ p. pending p.controller))
        ([] ∷ (ring 0x1014 1 ∷ []) ∷ (ring 0x1014 1 ∷ ring 0x1004 3 ∷ []) ∷ (ring 0x1014 1 ∷ ring 0x1004 4 ∷ []) ∷ [])
        ≡ map (λ rest. Some rest) ((Some 0 ∷ None ∷ Some 5 ∷ replicate 6 None) ∷ (Some 0 ∷ replicate 8 None) ∷ (Some 0 ∷ replicate 8 None) ∷ replicate 9 None ∷ []) }
    // A completion queue of two slots takes one completion.
    ensures a_completion_queue_of_two_slots_takes_one_completion { after (three_ended ++ PostStep 1 ∷ []) start (dword_in 0x1200c) ≡ Some 0x00010001 }
    // Then no other command's is posted.
    ensures a_full_completion_queue_holds_the_second { can_run (three_ended ++ PostStep 1 ∷ PostStep 2 ∷ []) start ≡ false }
    // Nor the third's.
    ensures a_full_completion_queue_holds_the_third { can_run (three_ended ++ PostStep 1 ∷ PostStep 3 ∷ []) start ≡ false }
    // Its head doorbell frees the second slot.
    ensures a_head_doorbell_frees_a_slot { after (three_ended ++ PostStep 1 ∷ ring 0x100c 1 ∷ PostStep 2 ∷ []) start (dword_in 0x1201c) ≡ Some 0x00010002 }
    // And after the wrap the phase tag is inverted.
    ensures behind_the_wrap_the_phase_tag_is_inverted { after (three_ended ++ PostStep 1 ∷ ring 0x100c 1 ∷ PostStep 2 ∷ ring 0x100c 0 ∷ PostStep 3 ∷ []) start (dword_in 0x1200c)
        ≡ Some 0x00000003 }
    // CC written with EN clear while a command is taken: RDY stays, a new EN is ignored, and so it is once the command has ended.
    ensures a_reset_while_a_command_is_taken { replied_to (first_taken ++ write_register 0x14 0x00460000 ∷ read_register 0x1c ∷ JudgeStep 0 ∷ MoveStep 0 0
        ∷ read_register 0x1c ∷ write_register 0x14 0x00460001 ∷ read_register 0x14 ∷ []) at_start
        ≡ Some (
        replicate 10 reply.Done ++ reply.Bytes (1 ∷ 0 ∷ 0 ∷ 0 ∷ []) ∷ reply.Bytes (1 ∷ 0 ∷ 0 ∷ 0 ∷ [])
        ∷ reply.Ignored ∷ reply.Bytes (0x00 ∷ 0x00 ∷ 0x46 ∷ 0x00 ∷ []) ∷ []) }
    // With the run-out of the last command RDY falls: it has its effect, and no completion.
    ensures a_command_runs_out_after_a_reset { replied_to (first_taken ++ write_register 0x14 0x00460000 ∷ JudgeStep 0 ∷ MoveStep 0 0 ∷ RunOutStep 0
        ∷ read_register 0x1c ∷ load 0x12000 16 ∷ load 0x3000 4 ∷ []) at_start
        ≡ Some (
        replicate 10 reply.Done ++ reply.Bytes (0 ∷ 0 ∷ 0 ∷ 0 ∷ []) ∷ reply.Bytes (replicate 16 0)
        ∷ reply.Bytes (5 ∷ 5 ∷ 5 ∷ 5 ∷ []) ∷ []) }
    // After a reset no completion is posted.
    ensures after_a_reset_nothing_is_completed { can_run (first_ended ++ write_register 0x14 0x00460000 ∷ PostStep 0 ∷ []) at_start ≡ false }
    // While the controller is enabled no command runs out.
    ensures while_enabled_nothing_runs_out { can_run (first_ended ++ RunOutStep 0 ∷ []) at_start ≡ false }
    // With no command taken RDY falls at once, and the controller may be enabled again.
    ensures a_reset_with_no_command_taken { replied_to (first_posted ++ write_register 0x14 0 ∷ read_register 0x1c ∷ write_register 0x14 0x00460001 ∷ read_register 0x1c ∷ []) at_start
        ≡ Some (
        replicate 10 reply.Done ++ reply.Bytes (0 ∷ 0 ∷ 0 ∷ 0 ∷ []) ∷ reply.Done ∷ reply.Bytes (1 ∷ 0 ∷ 0 ∷ 0 ∷ []) ∷ []) }
    // A block may become kept at any time.
    ensures a_block_may_become_kept { after (KeepStep 5 ∷ []) at_start (λ p. p.kept 4 ∷ p.kept 5 ∷ []) ≡ Some (false ∷ true ∷ []) }
    // A block beyond the namespace may not.
    ensures no_block_behind_the_namespace_becomes_kept { can_run (KeepStep 63 ∷ []) start ∷ can_run (KeepStep 64 ∷ []) start ∷ [] ≡ true ∷ false ∷ [] }
    // No I/O command is taken from the admin queue.
    ensures no_command_is_taken_from_the_admin_queue { can_run (bring_up ++ ring 0x1000 3 ∷ TakeStep 0 0 ∷ []) start ≡ false }
    // Two commands in the bag have two names.
    ensures a_name_in_use_is_not_taken_again { can_run (first_taken ++ ring 0x1008 2 ∷ TakeStep 1 0 ∷ []) at_start ≡ false }
    // No admin command is done before the bring-up.
    ensures no_admin_command_before_bring_up { can_run (store 0x10000 (create_completion_queue 16) ∷ ring 0x1000 1 ∷ AdminQueueStep ∷ []) start ≡ false }
    // Nor is one for which the doorbell was not rung.
    ensures no_admin_command_that_was_not_rung { can_run (bring_up ++ AdminQueueStep ∷ []) start ≡ false }
    // Where the admin completion queue is full, here with one completion in two slots, no admin step is made.
    ensures a_full_admin_completion_queue_holds_the_next_command { can_run (two_admin_slots ++ AdminQueueStep ∷ []) start ≡ false }
    // Its head doorbell frees a slot.
    ensures an_admin_head_doorbell_frees_a_slot { after (two_admin_slots ++ ring 0x1004 1 ∷ AdminQueueStep ∷ []) start (λ p. dword_in 0x1100c p ∷ dword_in 0x1101c p ∷ [])
        ≡ Some (0x00010001 ∷ 0x00010002 ∷ []) }
    // After the bring-up the controller is ready.
    ensures after_the_bring_up_the_controller_is_ready { replied_to (bring_up ++ read_register 0x1c ∷ read_register 0x14 ∷ []) start
        ≡ Some (replicate 7 reply.Done ++ reply.Bytes (1 ∷ 0 ∷ 0 ∷ 0 ∷ []) ∷ reply.Bytes (0x01 ∷ 0x00 ∷ 0x46 ∷ 0x00 ∷ []) ∷ []) }
    // It is held before it is examined, though it would post nothing: an event request.
    ensures a_full_admin_completion_queue_holds_an_event_request { can_run (two_admin_slots ++ store 0x10040 (admin_entry 0x0c 4 0 0 0 0 0) ∷ AdminQueueStep ∷ []) start
        ∷ can_run (two_admin_slots ++ store 0x10040 (admin_entry 0x0c 4 0 0 0 0 0) ∷ ring 0x1004 1 ∷ AdminQueueStep ∷ []) start ∷ []
        ≡ false ∷ true ∷ [] }
    // Submission queue 2, with two slots, uses the completion queue of submission queue 1: each completion names its own queue and that
    // queue's head.
    ensures two_submission_queues_share_a_completion_queue { after shared_completion_queue at_start (bytes_in 0x12000 32)
        ≡ Some (
        replicate 8 0x00 ++ 0x01 ∷ 0x00 ∷ 0x02 ∷ 0x00 ∷ 0x05 ∷ 0x00 ∷ 0x01 ∷ 0x00 ∷ replicate 8 0x00
        ++ 0x01 ∷ 0x00 ∷ 0x01 ∷ 0x00 ∷ 0x07 ∷ 0x00 ∷ 0x01 ∷ 0x00 ∷ []) }
    // After its last slot a submission queue goes on with its first: the head is 0 again.
    ensures a_submission_queue_goes_round { after (shared_completion_queue ++ store 0x14040 (flush_of 6) ∷ ring 0x1010 0 ∷ TakeStep 2 2 ∷ JudgeStep 2 ∷ MoveStep 2 0 ∷ PostStep 2 ∷ [])
        at_start (bytes_in 0x12028 8)
        ≡ Some (0x00 ∷ 0x00 ∷ 0x02 ∷ 0x00 ∷ 0x06 ∷ 0x00 ∷ 0x01 ∷ 0x00 ∷ []) }
    // A reset drops all queues and a waiting deletion, and keeps the admin queue registers.
    ensures a_reset_drops_the_queues { after (deletion_begun ++ write_register 0x14 0 ∷ []) at_start
        (λ p. list_any is_some p.controller.submission ∷ list_any is_some p.controller.completion_queues
        ∷ is_some p.controller.deletion ∷ (p.controller.aqa == 0x001f001f) ∷ [])
        ≡ Some (false ∷ false ∷ false ∷ true ∷ []) }
    // Held event requests too.
    ensures a_reset_drops_the_held_requests { after (bring_up ++ store 0x10080 five_event_requests ∷ ring 0x1000 6 ∷ replicate 4 AdminQueueStep ++ write_register 0x14 0 ∷ []) start
        (λ p. p.controller.held_requests)
        ≡ Some 0 }
{}
