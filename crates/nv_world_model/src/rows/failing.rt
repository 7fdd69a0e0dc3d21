//! Commands that don't succeed, and commands that run out after a reset.

ghost use Rattle.std.specs.Prelude.{◌≡◌, [], ◌∷◌, ◌++◌, replicate, true, false};
ghost use Rattle.nv_model.specs.declared.act.Act.TheVariants as act;
ghost use Rattle.nv_model.specs.declared.reply.Reply.TheVariants as reply;
ghost use Rattle.nv_model.specs.Rows.{by_sgl, data_block, first_example};
ghost use Rattle.nv_world_model.specs.Rows.{behind, first_answers, host_bytes, host_number, in_device, moves, one_command, set_up, told, whole};
ghost use Rattle.nv_world_model.specs.RowsSteps.{logged};
ghost use Rattle.nv_world_model.specs.Headline.{none_failed};
ghost use Rattle.nv_world_model.specs.declared.event.Event.TheVariants as event;

/// The examples of this module, a clause each.
#[tactic(none)]
pub fn examples()
    // A media error is passed on with its code.
    ensures a_media_error_is_passed_on { behind (in_device ++ event.DevFail 0 0 (record { sct = 2; sc = 0x81; dnr = false }) ∷ event.Reap 0 ∷ event.Post 0 0 ∷ [])
        (one_command first_example) (host_number 0x11200c 4) ≡ 0x05030007 }
    // And with its DNR.
    ensures a_media_error_keeps_its_dnr { behind (in_device ++ event.DevFail 0 0 (record { sct = 2; sc = 0x81; dnr = true }) ∷ event.Reap 0 ∷ event.Post 0 0 ∷ [])
        (one_command first_example) (host_number 0x11200c 4) ≡ 0x85030007 }
    // Any other failure becomes Internal Error, and nothing of a bounced Read is delivered, although its block was moved.
    ensures another_failure_is_an_internal_error { behind (in_device ++ moves 1 ++ event.DevFail 0 0 (record { sct = 0; sc = 0x04; dnr = true }) ∷ event.Reap 0 ∷ event.Post 0 0 ∷ [])
        (one_command (by_sgl 0x02 5 0 (data_block 0x3002 512))) (λ w. host_number 0x404000 1 w ∷ host_number 0x11200c 4 w ∷ host_number 0x103002 1 w ∷ [])
        ≡ 0xed ∷ 0x000d0007 ∷ 0 ∷ [] }
    // Success is no failure.
    ensures success_is_no_failure { told (in_device ++ event.DevFail 0 0 (record { sct = 0; sc = 0; dnr = true }) ∷ []) (one_command first_example)
        ≡ replicate 3 reply.Done ++ reply.Ignored ∷ [] }
    // A command has failed where its DevFail is done, and not where it is ignored or finds no command.
    ensures a_failure_that_is_done { none_failed set_up 0 (logged (in_device ++ event.DevFail 0 0 (record { sct = 2; sc = 0x81; dnr = false }) ∷ [])
        (one_command first_example)) (one_command first_example) ≡ false }
    ensures failures_that_are_not { none_failed set_up 0 (logged (in_device ++ event.DevFail 0 0 (record { sct = 0; sc = 0; dnr = true })
        ∷ event.DevFail 0 5 (record { sct = 2; sc = 0x81; dnr = false }) ∷ []) (one_command first_example)) (one_command first_example) ≡ true }
    // Another guest's failure is not this one's.
    ensures anothers_failure { none_failed set_up 1 (logged (in_device ++ event.DevFail 0 0 (record { sct = 2; sc = 0x81; dnr = false }) ∷ [])
        (one_command first_example)) (one_command first_example) ≡ true }
    // A Compare that differs.
    ensures a_compare_that_differs { behind (whole 1) (one_command (by_sgl 0x05 5 0 (data_block 0x3000 512))) (host_number 0x11200c 4) ≡ 0x050b0007 }
    // A refused command ends at Submit, with nothing handed on.
    ensures a_refused_command_is_not_handed_on { told (in_device ++ event.Post 0 0 ∷ []) (one_command (by_sgl 0x02 64 0 (data_block 0x3000 512)))
        ≡ reply.Done ∷ reply.Done ∷ reply.Idle ∷ reply.Done ∷ [] }
    // And is answered with its refusal.
    ensures a_refused_command_is_answered { behind (in_device ++ event.Post 0 0 ∷ []) (one_command (by_sgl 0x02 64 0 (data_block 0x3000 512))) (host_number 0x11200c 4) ≡ 0x81010007 }
    // A command that is given up.
    ensures a_command_that_is_given_up { behind (event.Take 0 1 0 ∷ event.GiveUp 0 0 ∷ event.Post 0 0 ∷ []) (one_command first_example) (host_number 0x11200c 4)
        ≡ 0x000d0007 }
    // After a reset RDY stays set while a command runs out, the controller can't be enabled again until then, and RDY is cleared after it.
    ensures ready_falls_behind_the_last_command { told
        (in_device ++ event.Guest 0 (act.RegWrite 0x14 0x00460000) ∷ event.Guest 0 (act.RegRead 0x1c) ∷ moves 1
        ++ event.DevPost 0 0 ∷ event.Reap 0 ∷ event.Guest 0 (act.RegWrite 0x14 0x00460001) ∷ event.Post 0 0
        ∷ event.Guest 0 (act.RegRead 0x1c) ∷ [])
        (one_command first_example)
        ≡ replicate 4 reply.Done ++ reply.Bytes (1 ∷ 0 ∷ 0 ∷ 0 ∷ []) ∷ replicate 3 reply.Done ++ reply.Ignored ∷ reply.Done
        ∷ reply.Bytes (0 ∷ 0 ∷ 0 ∷ 0 ∷ []) ∷ [] }
    // A bounced Read that runs out is delivered, and no completion is written.
    ensures a_command_that_runs_out_is_delivered { behind
        (in_device ++ event.Guest 0 (act.RegWrite 0x14 0x00460000) ∷ moves 1 ++ event.DevPost 0 0 ∷ event.Reap 0 ∷ event.Post 0 0 ∷ [])
        (one_command (by_sgl 0x02 5 0 (data_block 0x3002 512))) (λ w. host_number 0x103002 1 w ∷ host_number 0x112008 8 w ∷ [])
        ≡ 0xed ∷ 0 ∷ [] }
{}
