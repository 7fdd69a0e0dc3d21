//! The steps of a guest's private controller that events of the world represent.

ghost use Rattle.std.specs.Prelude.{◌≡◌, [], ◌∷◌, ◌++◌, Some, None, is_some, false, map};
ghost use Rattle.std.specs.List.{range_with_len};
ghost use Rattle.nv_model.specs.declared.act.Act.TheVariants as act;
ghost use Rattle.nv_model.specs.declared.reply.Reply.TheVariants as reply;
ghost use Rattle.nv_model.specs.Private.{ActStep, GiveUpStep, JudgeStep, KeepStep, MoveStep, PostStep, RunOutStep, TakeStep, run_of};
ghost use Rattle.nv_model.specs.Rows.{block_range, by_sgl, data_block, first_example};
ghost use Rattle.nv_model.specs.RowsRuns.{flush_of};
ghost use Rattle.nv_world_model.specs.Geometry.{shape_of};
ghost use Rattle.nv_world_model.specs.Rows.{behind, completed, in_device, moves, one_command, two_at_once, two_commands, whole};
ghost use Rattle.nv_world_model.specs.RowsSteps.{at_end, first_run, first_seat, first_steps, first_steps_of, private_bytes, second_steps};
ghost use Rattle.nv_world_model.specs.RowsWorlds.{by_second_lane, list_in_device, list_whole, read_apart, two_lanes, two_ranges};
ghost use Rattle.nv_world_model.specs.PrivateSteps.{steps_of};
ghost use Rattle.nv_world_model.specs.RowsShown.{first_guest};
ghost use Rattle.nv_world_model.specs.declared.event.Event.TheVariants as event;

/// The examples of this module, a clause each.
#[tactic(none)]
pub fn examples()
    // A command is taken under its tag's name, judged when it is submitted, and moved and completed as it is there.
    ensures the_steps_of_a_direct_read { first_steps (whole 1) (one_command first_example) ≡ TakeStep 1 0 ∷ JudgeStep 0 ∷ MoveStep 0 0 ∷ PostStep 0 ∷ [] }
    // They can be made, from the guest's seat on, and its completion is the one that the world posts.
    ensures they_end_with_the_same_completion { at_end (first_run (whole 1) (one_command first_example)) (private_bytes 0x12000 16)
        ≡ Some (0x00 ∷ 0x00 ∷ 0x00 ∷ 0x00 ∷ 0x00 ∷ 0x00 ∷ 0x00 ∷ 0x00 ∷ 0x01 ∷ 0x00 ∷ 0x01 ∷ 0x00 ∷ 0x07 ∷ 0x00 ∷ 0x01 ∷ 0x00 ∷ []) }
    // And with the same block in the buffer.
    ensures they_end_with_the_same_block { at_end (first_run (whole 1) (one_command first_example)) (private_bytes 0x31fe 3)
        ≡ Some (0xed ∷ 0xed ∷ 0x00 ∷ []) }
    // A bounced Read moves in the private controller where it moves in the device, although the guest's bytes come later.
    ensures a_bounced_read_moves_with_the_device { at_end (first_run (in_device ++ moves 1) (one_command (by_sgl 0x02 5 0 (data_block 0x3002 512)))) (private_bytes 0x3001 2)
        ≡ Some (0x00 ∷ 0xed ∷ []) }
    // Where a Take is not done there is no step.
    ensures nothing_taken_is_no_step { first_steps (event.Take 0 1 0 ∷ event.Take 0 1 0 ∷ event.Take 0 2 0 ∷ []) (one_command first_example) ≡ TakeStep 1 0 ∷ [] }
    // By another lane the names are others.
    ensures a_name_tells_the_lane { first_steps by_second_lane (two_lanes first_example) ≡ TakeStep 1 64 ∷ JudgeStep 64 ∷ MoveStep 64 0 ∷ PostStep 64 ∷ [] }
    // A unit of the device that is a range is the units of all its blocks.
    ensures a_range_is_the_units_of_its_blocks { first_steps_of (list_in_device 0x3000 32) (two_ranges (block_range 5 1) (block_range 6 2)) (event.DevMove 0 0 1)
        ≡ MoveStep 0 1 ∷ MoveStep 0 2 ∷ [] }
    // A range of no blocks is no step.
    ensures a_range_of_no_blocks_is_no_step { first_steps_of (list_in_device 0x3000 32) (two_ranges (block_range 64 0) (block_range 6 2)) (event.DevMove 0 0 0) ≡ [] }
    // The range after it begins with unit 0.
    ensures a_range_behind_one_of_no_blocks { first_steps_of (list_in_device 0x3000 32) (two_ranges (block_range 64 0) (block_range 6 2)) (event.DevMove 0 0 1)
        ≡ MoveStep 0 0 ∷ MoveStep 0 1 ∷ [] }
    // The whole of that is a run of the private controller, whose blocks are cleared.
    ensures two_ranges_are_a_run { at_end (first_run (list_whole 0x3000 32 2) (two_ranges (block_range 64 0) (block_range 6 2)))
        (λ p. p.disk 5 0 ∷ p.disk 6 0 ∷ p.disk 7 511 ∷ p.disk 8 0 ∷ []) ≡ Some (0xed ∷ 0 ∷ 0 ∷ 0xf0 ∷ []) }
    // A Flush is one step of its own guest.
    ensures a_flush_is_one_step { first_steps (whole 1) (one_command (flush_of 7)) ≡ TakeStep 1 0 ∷ JudgeStep 0 ∷ MoveStep 0 0 ∷ PostStep 0 ∷ [] }
    // Of another guest it makes each of the 64 blocks kept, and no other event of it is a step.
    ensures anothers_flush_keeps_each_block { second_steps (whole 1) (one_command (flush_of 7)) ≡ map KeepStep (range_with_len 0 64) }
    // No event of another guest's Read is a step.
    ensures anothers_read_is_no_step { second_steps (whole 1) (one_command first_example) ≡ [] }
    // Of two guests' events each has its own.
    ensures each_has_its_own { second_steps two_at_once two_commands ≡ TakeStep 1 1 ∷ JudgeStep 1 ∷ MoveStep 1 0 ∷ PostStep 1 ∷ [] }
    // A Keep is a step of the guest whose block it is, by the guest's number of it.
    ensures a_keep_is_a_step_of_one_guest { first_steps (event.Keep 1005 ∷ event.Keep 2005 ∷ event.Keep 1064 ∷ event.Keep 999 ∷ []) (one_command first_example) ≡ KeepStep 5 ∷ [] }
    // A guest's acts are steps whatever the reply; another's are none.
    ensures acts_are_steps { first_steps (event.Guest 0 (act.Load 0x20000 1) ∷ event.Guest 1 (act.Load 0 1) ∷ event.Guest 0 (act.RegRead 1) ∷ event.Admin 0 ∷ []) (one_command first_example)
        ≡ ActStep (act.Load 0x20000 1) ∷ ActStep (act.RegRead 1) ∷ [] }
    // A command that is given up.
    ensures giving_up_is_a_step { first_steps (event.Take 0 1 0 ∷ event.GiveUp 0 0 ∷ event.Post 0 0 ∷ []) (one_command first_example)
        ≡ TakeStep 1 0 ∷ GiveUpStep 0 ∷ PostStep 0 ∷ [] }
    // After a reset a command runs out.
    ensures a_post_after_a_reset_runs_out { first_steps (in_device ++ event.Guest 0 (act.RegWrite 0x14 0x00460000) ∷ moves 1 ++ completed) (one_command first_example)
        ≡ TakeStep 1 0 ∷ JudgeStep 0 ∷ ActStep (act.RegWrite 0x14 0x00460000) ∷ MoveStep 0 0 ∷ RunOutStep 0 ∷ [] }
    // That is a run, too, and RDY falls at its end.
    ensures it_can_run_out { at_end (first_run (in_device ++ event.Guest 0 (act.RegWrite 0x14 0x00460000) ∷ moves 1 ++ completed) (one_command first_example))
        (λ p. p.controller.ready) ≡ Some false }
    // Where the device fails a command before its units have moved, the private controller has no such run.
    ensures a_failure_is_no_run { is_some (first_run (in_device ++ event.DevFail 0 0 (record { sct = 2; sc = 0x81; dnr = false }) ∷ event.Reap 0 ∷ event.Post 0 0 ∷ []) (one_command first_example))
        ≡ false }
    // A private controller has its guest's limit: a list of two descriptors, and the Read's own, go with a limit of 3, and not with one of 2.
    ensures a_private_controller_has_the_guests_limit { map (λ limit. at_end (run_of (shape_of (record first_guest { limit = limit }))
        (TakeStep 1 0 ∷ JudgeStep 0 ∷ MoveStep 0 0 ∷ MoveStep 0 1 ∷ PostStep 0 ∷ []) (first_seat (read_apart 0x3000 0x8000))) (private_bytes 0x1200e 2)) (3 ∷ 2 ∷ [])
        ≡ Some (0x01 ∷ 0x00 ∷ []) ∷ None ∷ [] }
    ensures a_list_past_it_is_an_internal_error { at_end (run_of (shape_of (record first_guest { limit = 2 })) (TakeStep 1 0 ∷ JudgeStep 0 ∷ PostStep 0 ∷ [])
        (first_seat (read_apart 0x3000 0x8000))) (private_bytes 0x1200e 2) ≡ Some (0x0d ∷ 0x00 ∷ []) }
    // A command with a list that is longer than its guest may have ends at its judgement, as any refused one: it is not given up.
    ensures a_list_that_is_too_long_is_judged { behind (event.Take 0 1 0 ∷ []) (read_apart 0x3000 0x8000)
        (λ z. steps_of 0 (record first_guest { limit = 1 }) z (event.Submit 0 0) reply.Done) ≡ JudgeStep 0 ∷ [] }
{}
