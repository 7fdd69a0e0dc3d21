//! How events are answered that change nothing, and which events are due.

ghost use Rattle.std.specs.Prelude.{◌≡◌, [], ◌∷◌, ◌++◌, replicate, true, false};
ghost use Rattle.nv_model.specs.declared.act.Act.TheVariants as act;
ghost use Rattle.nv_model.specs.declared.reply.Reply.TheVariants as reply;
ghost use Rattle.nv_model.specs.Rows.{by_sgl, data_block, first_example};
ghost use Rattle.nv_model.specs.RowsRuns.{delete_submission_queue};
ghost use Rattle.nv_world_model.specs.Rows.{behind, in_device, moves, one_command, told};
ghost use Rattle.nv_world_model.specs.RowsWorlds.{at_start, bring_up, deletion_due, deletion_rung, due_behind, head_rung, many_rung, three_ended, three_flushes};
ghost use Rattle.nv_world_model.specs.declared.event.Event.TheVariants as event;

/// The examples of this module, a clause each.
#[tactic(none)]
pub fn examples()
    // A List: the tag is not taken, before the bytes are not mapped.
    ensures stale_comes_before_unmapped { told (event.List 0 0 0x20000 8 ∷ event.Take 0 1 0 ∷ event.GiveUp 0 0 ∷ event.List 0 0 0x20000 8 ∷ []) (one_command first_example)
        ≡ reply.Stale ∷ reply.Done ∷ reply.Done ∷ reply.Stale ∷ [] }
    // Before the length is none that may be.
    ensures stale_comes_before_ignored { told (event.List 0 0 0x3000 0 ∷ []) (one_command first_example) ≡ reply.Stale ∷ [] }
    // The bytes are not mapped, before their length is none that may be.
    ensures unmapped_comes_before_ignored { told (event.Take 0 1 0 ∷ event.List 0 0 0x1ffff 2 ∷ event.List 0 0 0x20000 4097 ∷ event.List 0 0 0x1ffff 4097 ∷ []) (one_command first_example)
        ≡ reply.Done ∷ replicate 3 reply.Unmapped }
    // No bytes are always mapped, and never read.
    ensures no_bytes_are_ignored { told (event.Take 0 1 0 ∷ event.List 0 0 0x900000 0 ∷ event.List 0 0 0x3000 0 ∷ []) (one_command first_example)
        ≡ reply.Done ∷ reply.Ignored ∷ reply.Ignored ∷ [] }
    // A List reads at most 4,096 bytes.
    ensures a_page_is_read { told (event.Take 0 1 0 ∷ event.List 0 0 0x3000 4097 ∷ event.List 0 0 0x3000 4096 ∷ []) (one_command first_example)
        ≡ reply.Done ∷ reply.Ignored ∷ reply.Bytes (replicate 4096 0) ∷ [] }
    // A guest that is not there.
    ensures no_such_guest { told (event.Guest 2 (act.RegRead 0) ∷ event.Guest 2 (act.RegRead 1) ∷ event.Admin 2 ∷ event.Take 2 1 0 ∷ []) (one_command first_example)
        ≡ replicate 4 reply.Ignored }
    // A queue that is no I/O queue, and one that can be but is not there.
    ensures no_such_queue { told (event.Take 0 0 0 ∷ event.Take 0 9 0 ∷ event.Take 0 8 0 ∷ []) (one_command first_example)
        ≡ reply.Ignored ∷ reply.Ignored ∷ reply.Idle ∷ [] }
    // A lane that is not there.
    ensures no_such_lane { told (event.Take 0 1 1 ∷ event.List 1 0 0x3000 8 ∷ event.Submit 1 0 ∷ event.GiveUp 1 0 ∷ event.DevTake 1 ∷ event.DevMove 1 0 0
        ∷ event.DevPost 1 0 ∷ event.DevFail 1 0 (record { sct = 2; sc = 0x81; dnr = false }) ∷ event.Reap 1 ∷ event.Post 1 0 ∷ []) (one_command first_example)
        ≡ replicate 10 reply.Ignored }
    // A tag, or a slot, that is not there.
    ensures no_such_tag { told (event.List 0 64 0x3000 8 ∷ event.Submit 0 64 ∷ event.GiveUp 0 64 ∷ event.DevMove 0 64 0
        ∷ event.DevPost 0 64 ∷ event.DevFail 0 64 (record { sct = 2; sc = 0x81; dnr = false }) ∷ event.Post 0 64 ∷ []) (one_command first_example)
        ≡ replicate 7 reply.Ignored }
    // The last tag of a lane is there, and free.
    ensures the_last_tag_is_there { told (event.List 0 63 0x3000 8 ∷ event.Submit 0 63 ∷ event.GiveUp 0 63 ∷ event.Post 0 63 ∷ event.DevMove 0 63 0 ∷ event.DevPost 0 63 ∷ []) (one_command first_example)
        ≡ replicate 4 reply.Stale ++ replicate 2 reply.Idle }
    // A slot that no command is in is idle, before success is no failure.
    ensures idle_comes_before_ignored { told (event.DevFail 0 0 (record { sct = 0; sc = 0; dnr = false }) ∷ []) (one_command first_example) ≡ reply.Idle ∷ [] }
    // A tag that is at another point.
    ensures a_tag_at_another_point { told (event.Take 0 1 0 ∷ event.Post 0 0 ∷ event.Submit 0 0 ∷ event.Submit 0 0 ∷ event.GiveUp 0 0 ∷ event.Post 0 0 ∷ []) (one_command first_example)
        ≡ reply.Done ∷ reply.Stale ∷ reply.Done ∷ reply.Stale ∷ reply.Stale ∷ reply.Stale ∷ [] }
    // An Admin event is due where a command waits, or a deletion whose commands are all completed.
    ensures an_admin_command_is_due { due_behind deletion_rung at_start (event.Admin 0) ≡ true }
    // Nothing is due of an empty admin queue.
    ensures no_admin_command_is_due { due_behind bring_up at_start (event.Admin 0) ≡ false }
    // A deletion is due once its queue has no taken command.
    ensures a_deletion_is_due { due_behind deletion_due at_start (event.Admin 0) ≡ true }
    // And not before.
    ensures a_deletion_that_waits_is_not_due { due_behind (deletion_rung ++ event.Admin 0 ∷ []) at_start (event.Admin 0) ≡ false }
    // A Take, where an entry is rung and a tag is free.
    ensures a_take_is_due { due_behind [] (one_command first_example) (event.Take 0 1 0) ≡ true }
    // None of a queue that is empty.
    ensures no_take_is_due { due_behind [] (one_command first_example) (event.Take 1 1 0) ≡ false }
    // None where all tags are taken.
    ensures no_take_without_a_tag_is_due { due_behind (replicate 64 (event.Take 0 1 0)) many_rung (event.Take 0 1 0) ≡ false }
    // The device's taking, where an entry is in the lane.
    ensures a_physical_entry_is_due { due_behind (event.Take 0 1 0 ∷ event.Submit 0 0 ∷ []) (one_command first_example) (event.DevTake 0) ≡ true }
    // None where it has taken all.
    ensures no_physical_entry_is_due { due_behind in_device (one_command first_example) (event.DevTake 0) ≡ false }
    // A unit, where it has not moved.
    ensures a_unit_is_due { due_behind in_device (one_command first_example) (event.DevMove 0 0 0) ≡ true }
    // And not again.
    ensures a_unit_that_moved_is_not_due { due_behind (in_device ++ moves 1) (one_command first_example) (event.DevMove 0 0 0) ≡ false }
    // A physical completion, where no unit is left.
    ensures a_physical_completion_is_due { due_behind (in_device ++ moves 1) (one_command first_example) (event.DevPost 0 0) ≡ true }
    // And not before.
    ensures no_physical_completion_is_due { due_behind in_device (one_command first_example) (event.DevPost 0 0) ≡ false }
    // A Reap, where there is a physical completion.
    ensures a_reap_is_due { due_behind (in_device ++ moves 1 ++ event.DevPost 0 0 ∷ []) (one_command first_example) (event.Reap 0) ≡ true }
    // And not before.
    ensures no_reap_is_due { due_behind (in_device ++ moves 1) (one_command first_example) (event.Reap 0) ≡ false }
    // A completion, where the command has ended and the guest's queue has room.
    ensures a_completion_is_due { due_behind (three_ended ++ event.Post 0 0 ∷ head_rung 1 ∷ []) three_flushes (event.Post 0 1) ≡ true }
    // Not where it would be held.
    ensures a_completion_that_is_held_is_not_due { due_behind (three_ended ++ event.Post 0 0 ∷ []) three_flushes (event.Post 0 1) ≡ false }
    // Nor while the command is in the device.
    ensures no_completion_is_due { due_behind in_device (one_command first_example) (event.Post 0 0) ≡ false }
    // Events of other kinds never are, even those that would be done: no Store.
    ensures a_store_is_not_due { due_behind [] (one_command first_example) (event.Guest 0 (act.Store 0x3000 [])) ≡ false }
    // Nor a Submit.
    ensures a_submit_is_not_due { due_behind (event.Take 0 1 0 ∷ []) (one_command first_example) (event.Submit 0 0) ≡ false }
    // Nor a Keep.
    ensures a_keep_is_not_due { due_behind [] (one_command first_example) (event.Keep 0) ≡ false }
    // Nor a failure.
    ensures a_failure_is_not_due { due_behind in_device (one_command first_example) (event.DevFail 0 0 (record { sct = 2; sc = 0x81; dnr = false })) ≡ false }
{}
