//! The deletion of an I/O submission queue that has a taken command waits for it.

ghost use Rattle.std.specs.Prelude.{◌≡◌, [], ◌∷◌, ◌++◌, Some, true, false, replicate};
ghost use Rattle.nv_model.specs.declared.reply.Reply.TheVariants as reply;
ghost use Rattle.nv_model.specs.Private.{AdminQueueStep, TakeStep, start};
ghost use Rattle.nv_model.specs.Rows.{first_example};
ghost use Rattle.nv_model.specs.RowsRuns.{after, at_start, bring_up, bytes_in, can_run, deletion_begun, deletion_done, deletion_due};
ghost use Rattle.nv_model.specs.RowsRuns.{delete_submission_queue, done_third, dword_in, load, replied_to, ring, store};

/// The examples of this module, a clause each.
#[tactic(none)]
pub fn examples()
    // With no command taken the queue goes at once.
    ensures a_queue_without_taken_commands_goes_at_once { after (done_third delete_submission_queue) start (bytes_in 0x11020 16)
        ≡ Some (0x00 ∷ 0x00 ∷ 0x00 ∷ 0x00 ∷ 0x00 ∷ 0x00 ∷ 0x00 ∷ 0x00 ∷ 0x03 ∷ 0x00 ∷ 0x00 ∷ 0x00 ∷ 0x04 ∷ 0x00 ∷ 0x01 ∷ 0x00 ∷ []) }
    // With one taken, the admin step is made and posts nothing; the queue's doorbell is ignored.
    ensures a_closing_queue_has_no_doorbell { replied_to (deletion_begun ++ ring 0x1008 2 ∷ load 0x11020 16 ∷ []) at_start
        ≡ Some (replicate 11 reply.Done ++ reply.Ignored ∷ reply.Bytes (replicate 16 0) ∷ []) }
    // No admin step is made while the deletion waits.
    ensures a_deletion_waits_for_the_taken_command { can_run (deletion_begun ++ AdminQueueStep ∷ []) at_start ≡ false }
    // The command is completed as ever.
    ensures a_command_of_a_closing_queue_is_completed { after deletion_due at_start (dword_in 0x1200c) ≡ Some 0x00010007 }
    // Then the deletion is done: its completion, with the admin queue's head.
    ensures a_deletion_is_done_behind_the_last_command { after deletion_done at_start (bytes_in 0x11020 16)
        ≡ Some (0x00 ∷ 0x00 ∷ 0x00 ∷ 0x00 ∷ 0x00 ∷ 0x00 ∷ 0x00 ∷ 0x00 ∷ 0x03 ∷ 0x00 ∷ 0x00 ∷ 0x00 ∷ 0x04 ∷ 0x00 ∷ 0x01 ∷ 0x00 ∷ []) }
    // Nothing is taken from a queue that is gone.
    ensures nothing_is_taken_from_a_queue_that_is_gone { can_run (deletion_done ++ TakeStep 1 0 ∷ []) at_start ≡ false }
    // Nor from one that closes, though the doorbell was rung before for an entry of it.
    ensures nothing_is_taken_from_a_closing_queue { can_run (bring_up ++ store 0x13000 (first_example ++ first_example) ∷ ring 0x1008 2 ∷ TakeStep 1 0
        ∷ store 0x10080 delete_submission_queue ∷ ring 0x1000 3 ∷ AdminQueueStep ∷ TakeStep 1 1 ∷ []) at_start ≡ false }
    // The same entry is taken where no deletion was asked for.
    ensures the_same_entry_is_taken_from_an_open_queue { can_run (bring_up ++ store 0x13000 (first_example ++ first_example)
        ∷ ring 0x1008 2 ∷ TakeStep 1 0 ∷ TakeStep 1 1 ∷ []) at_start ≡ true }
{}
