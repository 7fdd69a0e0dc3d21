//! Admin commands with command identifier 3, done as the third after the bring-up, or as the first: the last dword of the completion.

ghost use Rattle.std.specs.Prelude.{◌≡◌, [], ◌∷◌, ◌++◌, None, Some, map, replicate, slice_get};
ghost use Rattle.nv_model.specs.Controller.{queue_of};
ghost use Rattle.nv_model.specs.Private.{AdminQueueStep, start};
ghost use Rattle.nv_model.specs.Queue.{new_completion};
ghost use Rattle.nv_model.specs.Rows.{command, prps};
ghost use Rattle.nv_model.specs.RowsRuns.{admin_entry, after, bring_up, delete_submission_queue, done_first, done_third, dword_in, first_answer};
ghost use Rattle.nv_model.specs.RowsRuns.{five_event_requests, new_completion_queue, new_submission_queue, ring, store, third_answer};

/// The examples of this module, a clause each.
#[tactic(none)]
pub fn examples()
    // Delete I/O Completion Queue of a queue that a submission queue uses: Invalid Queue Deletion.
    ensures deletion_of_a_completion_queue_in_use { third_answer (admin_entry 0x04 3 0 0 0 1 0) ≡ Some 0x82190003 }
    // Of queue 0, of one that is not there, and of one beyond the last: Invalid Queue Identifier.
    ensures deletion_of_queues_that_are_not_there { map third_answer (
        admin_entry 0x04 3 0 0 0 0 0 ∷ admin_entry 0x04 3 0 0 0 2 0 ∷ admin_entry 0x04 3 0 0 0 9 0
        ∷ admin_entry 0x00 3 0 0 0 0 0 ∷ admin_entry 0x00 3 0 0 0 2 0 ∷ admin_entry 0x00 3 0 0 0 9 0 ∷ [])
        ≡ replicate 6 (Some 0x82030003) }
    // Get Log Page: Invalid Log Page.
    ensures any_log_page { third_answer (admin_entry 0x02 3 0 0x15000 0 0x007f0002 0) ≡ Some 0x82130003 }
    // Set Features of the number of queues once an I/O queue is there: Command Sequence Error, with any CDW11.
    ensures number_of_queues_asked_for_late { map third_answer (admin_entry 0x09 3 0 0 0 7 0x00030003 ∷ admin_entry 0x09 3 0 0 0 7 0xffff0000 ∷ [])
        ≡ replicate 2 (Some 0x80190003) }
    // Asked for early, FFFFh in either half of CDW11: Invalid Field in Command.
    ensures number_of_queues_of_ffffh { map first_answer (admin_entry 0x09 3 0 0 0 7 0xffff0000 ∷ admin_entry 0x09 3 0 0 0 7 0x0000ffff ∷ [])
        ≡ replicate 2 (Some 0x80050003) }
    // Asked for early, eight queues of each kind are there, counted from 0 in DW0.
    ensures number_of_queues_asked_for_early { after (done_first (admin_entry 0x09 3 0 0 0 7 0x00030003)) start (λ p. dword_in 0x11000 p ∷ dword_in 0x1100c p ∷ [])
        ≡ Some (0x00070007 ∷ 0x00010003 ∷ []) }
    // An I/O completion queue alone makes it late, whichever it is.
    ensures number_of_queues_asked_for_behind_a_completion_queue { after (done_first (new_completion_queue 2 1 1 0x14000)
        ++ store 0x10040 (admin_entry 0x09 3 0 0 0 7 0x00030003) ∷ ring 0x1000 2 ∷ AdminQueueStep ∷ [])
        start (λ p. dword_in 0x1100c p ∷ dword_in 0x1101c p ∷ [])
        ≡ Some (0x00010003 ∷ 0x80190003 ∷ []) }
    // Queues that were deleted do not count, and a completion queue goes once no submission queue uses it.
    ensures number_of_queues_asked_for_once_all_queues_are_gone { after (bring_up ++ store 0x10080 (delete_submission_queue ++ admin_entry 0x04 5 0 0 0 1 0 ++ admin_entry 0x09 3 0 0 0 7 0x00030003)
        ∷ ring 0x1000 5 ∷ replicate 3 AdminQueueStep) start (λ p. dword_in 0x1102c p ∷ dword_in 0x1103c p ∷ dword_in 0x1104c p ∷ [])
        ≡ Some (0x00010004 ∷ 0x00010005 ∷ 0x00010003 ∷ []) }
    // Another feature: Invalid Field in Command, before all else.
    ensures other_features { map third_answer (admin_entry 0x09 3 0 0 0 6 0xffff0000 ∷ admin_entry 0x0a 3 0 0 0 6 0 ∷ []) ≡ replicate 2 (Some 0x80050003) }
    // Get Features of the number of queues, at any time.
    ensures number_of_queues_got { after (done_third (admin_entry 0x0a 3 0 0 0 7 0)) start (λ p. dword_in 0x11020 p ∷ dword_in 0x1102c p ∷ [])
        ≡ Some (0x00070007 ∷ 0x00010003 ∷ []) }
    // Abort never aborts: DW0 is 1.
    ensures abort_aborts_nothing { after (done_third (admin_entry 0x08 3 0 0 0 0x00020001 0)) start (λ p. dword_in 0x11020 p ∷ dword_in 0x1102c p ∷ [])
        ≡ Some (1 ∷ 0x00010003 ∷ []) }
    // Of five event requests four are held; the fifth, which has identifier 7: Asynchronous Event Request Limit Exceeded.
    ensures the_fifth_event_request { after (bring_up ++ store 0x10080 five_event_requests ∷ ring 0x1000 7 ∷ replicate 5 AdminQueueStep) start
        (λ p. dword_in 0x1102c p ∷ dword_in 0x1103c p ∷ p.controller.held_requests ∷ [])
        ≡ Some (0x820b0007 ∷ 0 ∷ 4 ∷ []) }
    // An opcode that is not known: Invalid Command Opcode.
    ensures an_unknown_admin_opcode { third_answer (admin_entry 0x03 3 0 0 0 0 0) ≡ Some 0x80030003 }
    // FUSE is checked before the opcode, and the opcode before PSDT.
    ensures fuse_then_opcode_then_psdt { map third_answer (
        command 0x00034103 0 (prps 0 0) 0 0 0 ∷ command 0x00034003 0 (prps 0 0) 0 0 0 ∷ command 0x00034008 0 (prps 0 0) 0 0 0 ∷ [])
        ≡ Some 0x80050003 ∷ Some 0x80030003 ∷ Some 0x80050003 ∷ [] }
    // The checks of Create I/O Completion Queue in their order: each of these entries fails one, and each check after it that it can.
    ensures the_checks_of_a_new_completion_queue { map third_answer (
        new_completion_queue 0 0 0 0x20001 ∷ new_completion_queue 9 0 0 0x20001 ∷ new_completion_queue 1 0 0 0x20001
        ∷ new_completion_queue 2 0 0 0x20001 ∷ new_completion_queue 2 1024 0 0x20001
        ∷ new_completion_queue 2 1 0 0x20001 ∷ new_completion_queue 2 1 1 0x20001 ∷ new_completion_queue 2 1 1 0x20000
        ∷ new_completion_queue 2 1 1 0x14000 ∷ new_completion_queue 8 1023 1 0x14000 ∷ [])
        ≡ Some 0x82030003 ∷ Some 0x82030003 ∷ Some 0x82030003
        ∷ Some 0x82050003 ∷ Some 0x82050003
        ∷ Some 0x80050003 ∷ Some 0x80270003 ∷ Some 0x80090003
        ∷ Some 0x00010003 ∷ Some 0x00010003 ∷ [] }
    // A completion queue has the vector of its IV where IEN is 1, and none where it is 0.
    ensures the_vector_of_a_new_completion_queue { map (λ cdw11. after (done_third (admin_entry 0x05 3 0 0x14000 0 0x00010002 cdw11)) start
        (λ p. queue_of (slice_get p.controller.completion_queues 2))) (0x12340003 ∷ 0x12340001 ∷ 0x00000003 ∷ [])
        ≡ map (λ vector. Some (Some (new_completion 0x14000 2 vector))) (Some 0x1234 ∷ None ∷ Some 0 ∷ []) }
    // Those of Create I/O Submission Queue likewise; the completion queue that it names is checked before its place.
    ensures the_checks_of_a_new_submission_queue { map third_answer (
        new_submission_queue 0 0 0 0 0x20001 ∷ new_submission_queue 9 0 0 0 0x20001 ∷ new_submission_queue 1 0 0 0 0x20001
        ∷ new_submission_queue 2 0 0 0 0x20001 ∷ new_submission_queue 2 1024 0 0 0x20001 ∷ new_submission_queue 2 1 0 0 0x20001
        ∷ new_submission_queue 2 1 1 0 0x20001 ∷ new_submission_queue 2 1 1 9 0x20001 ∷ new_submission_queue 2 1 1 2 0x20001
        ∷ new_submission_queue 2 1 1 1 0x20001 ∷ new_submission_queue 2 1 1 1 0x20000 ∷ new_submission_queue 2 1 1 1 0x14000 ∷ [])
        ≡ Some 0x82030003 ∷ Some 0x82030003 ∷ Some 0x82030003
        ∷ Some 0x82050003 ∷ Some 0x82050003 ∷ Some 0x80050003
        ∷ Some 0x82030003 ∷ Some 0x82030003 ∷ Some 0x82010003
        ∷ Some 0x80270003 ∷ Some 0x80090003 ∷ Some 0x00010003 ∷ [] }
{}
