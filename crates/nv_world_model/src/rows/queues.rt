//! Full queues, tags that run out, the deletion of a queue that waits, and a second lane.

ghost use Rattle.std.specs.Prelude.{◌≡◌, [], ◌∷◌, ◌++◌, replicate, slice_get, Some};
ghost use Rattle.nv_model.specs.declared.act.Act.TheVariants as act;
ghost use Rattle.nv_model.specs.declared.reply.Reply.TheVariants as reply;
ghost use Rattle.nv_model.specs.Rows.{by_sgl, data_block, first_example};
ghost use Rattle.nv_world_model.specs.Rows.{behind, completed, host_bytes, host_number, one_command, told};
ghost use Rattle.nv_world_model.specs.RowsWorlds.{at_start, bring_up, brought_up, by_second_lane, deletion_due, deletion_rung, entry_in_tag, head_rung, many_rung, three_ended, three_flushes, two_lanes};
ghost use Rattle.nv_world_model.specs.declared.event.Event.TheVariants as event;

/// The examples of this module, a clause each.
#[tactic(none)]
pub fn examples()
    // Three commands have ended, and their completion queue has two slots, one of which can be filled: the second is held until the head
    // doorbell moves, and so is the third.
    ensures a_full_queue_holds_the_next { told (three_ended ++ event.Post 0 0 ∷ event.Post 0 1 ∷ event.Post 0 2 ∷ head_rung 1 ∷ event.Post 0 1
        ∷ event.Post 0 2 ∷ head_rung 0 ∷ event.Post 0 2 ∷ event.Post 0 2 ∷ []) three_flushes
        ≡ replicate 19 reply.Done ++ reply.Held ∷ reply.Held ∷ reply.Done ∷ reply.Done ∷ reply.Held ∷ reply.Done ∷ reply.Done ∷ reply.Stale ∷ [] }
    // The first goes to the first slot, the second to the second.
    ensures the_second_goes_to_the_second_slot { behind (three_ended ++ event.Post 0 0 ∷ event.Post 0 1 ∷ head_rung 1 ∷ event.Post 0 1 ∷ [])
        three_flushes (λ w. host_number 0x11200c 4 w ∷ host_number 0x11201c 4 w ∷ []) ≡ 0x00010001 ∷ 0x00010002 ∷ [] }
    // A completion that is held writes nothing.
    ensures a_held_completion_writes_nothing { behind (three_ended ++ event.Post 0 0 ∷ event.Post 0 1 ∷ event.Post 0 2 ∷ [])
        three_flushes (λ w. host_number 0x11200c 4 w ∷ host_number 0x11201c 4 w ∷ []) ≡ 0x00010001 ∷ 0 ∷ [] }
    // The third goes to the first slot again, with the other phase tag.
    ensures the_phase_tag_turns_at_the_wrap { behind (three_ended ++ event.Post 0 0 ∷ head_rung 1 ∷ event.Post 0 1 ∷ head_rung 0 ∷ event.Post 0 2 ∷ [])
        three_flushes (λ w. host_number 0x11200c 4 w ∷ host_number 0x11201c 4 w ∷ []) ≡ 0x00000003 ∷ 0x00010002 ∷ [] }
    // A lane has 64 tags: of 65 commands the last finds none.
    ensures the_tags_of_a_lane_run_out { told (replicate 65 (event.Take 0 1 0)) many_rung ≡ replicate 64 reply.Done ++ reply.Busy ∷ [] }
    // Once one of them is posted, the command takes its tag.
    ensures a_posted_tag_is_taken_again { told (replicate 64 (event.Take 0 1 0) ++ event.GiveUp 0 9 ∷ event.Take 0 1 0 ∷ event.Post 0 9 ∷ event.Take 0 1 0 ∷ []) many_rung
        ≡ replicate 65 reply.Done ++ reply.Busy ∷ reply.Done ∷ reply.Done ∷ [] }
    // It is there with its own entry.
    ensures it_stands_in_that_tag { behind (replicate 64 (event.Take 0 1 0) ++ event.GiveUp 0 9 ∷ event.Post 0 9 ∷ event.Take 0 1 0 ∷ []) many_rung
        (entry_in_tag 0 9) ≡ first_example }
    // The lowest free tag is taken.
    ensures the_lowest_free_tag_is_taken { behind (replicate 3 (event.Take 0 1 0) ++ event.GiveUp 0 2 ∷ event.GiveUp 0 1 ∷ event.Post 0 2 ∷ event.Post 0 1 ∷ event.Take 0 1 0 ∷ []) many_rung
        (λ w. entry_in_tag 0 1 w ++ entry_in_tag 0 2 w) ≡ replicate 64 0 }
    // A guest enables its controller and creates a queue pair.
    ensures a_controller_is_brought_up { behind bring_up at_start (λ w. slice_get w.controllers 0) ≡ Some brought_up }
    // Each event of that is done, and the admin queue is empty after it.
    ensures bringing_up_is_done { told (bring_up ++ event.Admin 0 ∷ []) at_start ≡ replicate 9 reply.Done ++ reply.Idle ∷ [] }
    // The deletion of a queue that has a taken command begins, drops the entries that are rung on the queue, and waits.
    ensures a_deletion_waits { told (deletion_rung ++ event.Admin 0 ∷ event.Guest 0 (act.Doorbell 0x1008 2) ∷ event.Admin 0 ∷ event.Take 0 1 0 ∷ []) at_start
        ≡ replicate 15 reply.Done ++ reply.Ignored ∷ reply.Idle ∷ reply.Idle ∷ [] }
    // The command is completed as ever, and then the deletion is done.
    ensures a_deletion_is_done_behind_its_last_command { told (deletion_due ++ event.Admin 0 ∷ event.Admin 0 ∷ event.Take 0 1 0 ∷ []) at_start
        ≡ replicate 22 reply.Done ++ reply.Idle ∷ reply.Idle ∷ [] }
    // Its completion, in the third slot of the admin queue.
    ensures a_deletion_is_completed { behind (deletion_due ++ event.Admin 0 ∷ []) at_start (λ w. host_number 0x11200c 4 w ∷ host_bytes 0x111020 16 w)
        ≡ 0x00010007 ∷ 0x00 ∷ 0x00 ∷ 0x00 ∷ 0x00 ∷ 0x00 ∷ 0x00 ∷ 0x00 ∷ 0x00 ∷ 0x03 ∷ 0x00 ∷ 0x00 ∷ 0x00 ∷ 0x04 ∷ 0x00 ∷ 0x01 ∷ 0x00 ∷ [] }
    // Before that there is none.
    ensures a_deletion_that_waits_is_not_completed { behind deletion_due at_start (host_bytes 0x111020 16) ≡ replicate 16 0 }
    // A command goes by the second lane: tag 0 of that lane, with its own rings and pages.
    ensures a_second_lane_has_its_own_pages { behind by_second_lane (two_lanes (by_sgl 0x02 5 0 (data_block 0x3002 512)))
        (λ w. host_number 0xc43018 8 w ∷ host_number 0xc47000 1 w ∷ host_number 0x103002 1 w ∷ host_number 0x11200c 4 w ∷ host_number 0x400000 8 w ∷ [])
        ≡ 0xc47000 ∷ 0xed ∷ 0xed ∷ 0x00010007 ∷ 0 ∷ [] }
    // Its physical completion, with the number of that lane's queue pair.
    ensures a_second_lane_has_its_own_rings { behind by_second_lane (two_lanes (by_sgl 0x02 5 0 (data_block 0x3002 512))) (host_bytes 0xc45000 16)
        ≡ 0x00 ∷ 0x00 ∷ 0x00 ∷ 0x00 ∷ 0x00 ∷ 0x00 ∷ 0x00 ∷ 0x00 ∷ 0x01 ∷ 0x00 ∷ 0x02 ∷ 0x00 ∷ 0x00 ∷ 0x00 ∷ 0x01 ∷ 0x00 ∷ [] }
    // The first lane knows nothing of it.
    ensures the_first_lane_is_idle { told (event.Take 0 1 1 ∷ event.Submit 0 0 ∷ event.Submit 1 0 ∷ event.DevTake 0 ∷ event.DevTake 1 ∷ event.DevMove 0 0 0 ∷ event.DevMove 1 0 0
        ∷ event.DevPost 0 0 ∷ event.DevPost 1 0 ∷ event.Reap 0 ∷ event.Reap 1 ∷ event.Post 0 0 ∷ event.Post 1 0 ∷ []) (two_lanes first_example)
        ≡ reply.Done ∷ reply.Stale ∷ reply.Done ∷ reply.Idle ∷ reply.Done ∷ reply.Idle ∷ reply.Done
        ∷ reply.Idle ∷ reply.Done ∷ reply.Idle ∷ reply.Done ∷ reply.Stale ∷ reply.Done ∷ [] }
    // A command that was given up is posted, and its tag is free again.
    ensures a_tag_that_was_given_up_is_posted { told (event.Take 0 1 0 ∷ event.GiveUp 0 0 ∷ event.GiveUp 0 0 ∷ event.Reap 0 ∷ event.Post 0 0 ∷ event.Post 0 0 ∷ []) (one_command first_example)
        ≡ reply.Done ∷ reply.Done ∷ reply.Stale ∷ reply.Idle ∷ reply.Done ∷ reply.Stale ∷ [] }
{}
