//! Terms of the promise and of the world's step, each distinguished from a similar one that every other example lets pass.

ghost use Rattle.std.specs.Prelude.{◌≡◌, [], ◌∷◌, ◌++◌, replicate, Some, false, true};
ghost use Rattle.nv_entry.specs.StatusCode.{done_with};
ghost use Rattle.nv_entry.specs.declared.status_code.StatusCode.TheVariants as code;
ghost use Rattle.nv_model.specs.declared.act.Act.TheVariants as act;
ghost use Rattle.nv_model.specs.declared.reply.Reply.TheVariants as reply;
ghost use Rattle.nv_model.specs.Private.{ActStep, TakeStep};
ghost use Rattle.nv_model.specs.Rows.{block_range, by_sgl, data_block, first_example, last_segment, manage, read_of};
ghost use Rattle.nv_model.specs.RowsRuns.{flush_of};
ghost use Rattle.nv_model.specs.Transcript.{Settled, Wanted};
ghost use Rattle.nv_world_model.specs.Contained.{IsContained};
ghost use Rattle.nv_world_model.specs.Headline.{AreContained, Headline};
ghost use Rattle.nv_world_model.specs.Geometry.{shape_of};
ghost use Rattle.nv_world_model.specs.Plan.{Answer, plan_over};
ghost use Rattle.nv_world_model.specs.PrivateSteps.{seen_by, steps_done};
ghost use Rattle.nv_world_model.specs.Rows.{behind, handed_on, host_number, in_device, moves, one_command, holding, one_command_on, set_up, told, two_commands, world_with};
ghost use Rattle.nv_world_model.specs.RowsAlone.{both_taken, owners};
ghost use Rattle.nv_world_model.specs.RowsExtents.{ends, read_over};
ghost use Rattle.nv_world_model.specs.RowsExtents as extents;
ghost use Rattle.nv_world_model.specs.RowsShown.{first_guest, first_shown, second_guest, span};
ghost use Rattle.nv_world_model.specs.RowsSmall.{small_first};
ghost use Rattle.nv_world_model.specs.RowsSteps.{how_far, logged, member_told, second_steps};
ghost use Rattle.nv_world_model.specs.RowsWorlds.{at_start, list_in_device, list_whole, read_apart, two_lanes};
ghost use Rattle.nv_world_model.specs.Seat.{members};
ghost use Rattle.nv_world_model.specs.RowsWrong.{low_set_up, stored_unmapped, stray_block, submitted_untranslated};
ghost use Rattle.nv_world_model.specs.Step.{replay};
ghost use Rattle.nv_world_model.specs.World.{with_host};
ghost use Rattle.nv_world_model.specs.declared.event.Event.TheVariants as event;

/// Whose an event is.
#[tactic(none)]
pub fn owned()
    // A completion of the second guest's command is that guest's.
    ensures by_a_tag_that_is_posted { owners (event.Post 0 1 ∷ event.Post 0 0 ∷ []) both_taken ≡ Some 1 ∷ Some 0 ∷ [] }
    // The entry in front is the one that was handed on first, whichever tag it has.
    ensures by_the_entry_in_front { owners (event.DevTake 0 ∷ []) (behind (event.Take 0 1 0 ∷ event.Take 1 1 0 ∷ event.Submit 0 1 ∷ event.Submit 0 0 ∷ []) two_commands (λ w. w))
        ≡ Some 1 ∷ [] }
{}

/// An event of nobody's, here of a tag that is free, changes nothing that is not the mediator's.
#[tactic(none)]
pub fn nobodys()
    ensures bytes { IsContained (stored_unmapped 0x3000 (7 ∷ [])) set_up (event.Submit 0 2) (one_command first_example) → ⊥ }
    ensures blocks { IsContained stray_block set_up (event.Submit 0 2) (one_command first_example) → ⊥ }
{}

/// Each event of a log is asked in the world that it comes to: the device takes an entry whose block was not translated, which is contained,
/// and its unit then clears another guest's block.
#[tactic(none)]
pub fn in_its_world()
    ensures { AreContained low_set_up
        (record { event = event.DevTake 0; reply = reply.Done } ∷ record { event = event.DevMove 0 0 0; reply = reply.Done } ∷ [])
        (submitted_untranslated low_set_up 0 0 (replay low_set_up (event.Take 0 1 0 ∷ []) (one_command (by_sgl 0x08 6 0 (data_block 0x3000 512))))).world → ⊥ }
{}

/// The promise says where a log leads: one of no events leads to the world at the start, and not to one with other bytes.
#[tactic(none)]
pub fn where_a_log_leads()
    ensures { Headline set_up at_start [] (with_host (λ _. 7) at_start) → ⊥ }
{}

/// Steps of private controllers, and what a guest that is not the first has seen.
#[tactic(none)]
pub fn steps()
    // A command is taken from the queue that the event names.
    ensures from_its_queue { steps_done 0 first_guest (one_command first_example) (event.Take 0 2 0) ≡ TakeStep 2 0 ∷ [] }
    // An admin step is that of its own guest.
    ensures of_its_guest { steps_done 1 second_guest (one_command first_example) (event.Admin 0) ≡ [] }
    // The second guest has seen its own acts, all of them, in their order.
    ensures all_that_it_saw { seen_by 1 (logged (event.Guest 1 (act.RegRead 0x1c) ∷ event.Guest 0 (act.RegRead 0x1c) ∷ event.Guest 1 (act.RegRead 0x08) ∷ []) two_commands)
        ≡ record { act = act.RegRead 0x1c; reply = reply.Bytes (1 ∷ 0 ∷ 0 ∷ 0 ∷ []) } ∷ record { act = act.RegRead 0x08; reply = reply.Bytes (0 ∷ 0 ∷ 2 ∷ 0 ∷ []) } ∷ [] }
    // Its acts are steps whatever the reply.
    ensures whatever_the_reply { second_steps (event.Guest 1 (act.RegRead 1) ∷ event.Guest 0 (act.RegRead 1) ∷ []) two_commands ≡ ActStep (act.RegRead 1) ∷ [] }
{}

/// Statuses of failures.
#[tactic(none)]
pub fn statuses()
    // Success has type 0 and code 0: code 0 of another type is a failure.
    ensures code_zero_of_another_type { told (in_device ++ event.DevFail 0 0 (record { sct = 1; sc = 0; dnr = false }) ∷ []) (one_command first_example) ≡ replicate 4 reply.Done }
    // A media error reports no difference,
    ensures a_media_error { behind (in_device ++ event.DevFail 0 0 (record { sct = 2; sc = 0x81; dnr = false }) ∷ []) (one_command first_example) how_far ≡ Some ([], false) }
    // and neither does the code of one that does, of another type.
    ensures the_code_of_a_difference { behind (in_device ++ event.DevFail 0 0 (record { sct = 1; sc = 0x85; dnr = false }) ∷ []) (one_command first_example) how_far ≡ Some ([], false) }
{}

/// A command of several parts is not completed while one of them is under way, although its first has ended.
#[tactic(none)]
pub fn parts()
    ensures { extents.told (extents.in_device ++ ends 0 ++ event.Post 0 0 ∷ []) (extents.one_command (read_over 0x3e00)) ≡ replicate 7 reply.Done ++ reply.Stale ∷ [] }
{}

/// How far a command is that has the first tag of the second lane.
#[tactic(none)]
pub fn lanes()
    ensures { behind (event.Take 0 1 1 ∷ event.Submit 1 0 ∷ []) (two_lanes first_example) (λ w. member_told (members set_up w 0 64)) ≡ Some (0 ∷ [], false) }
{}

/// Bytes that stay, blocks that stay, and what is handed on.
#[tactic(none)]
pub fn transfers()
    // A bounced Write gives the guest nothing: what it stored meanwhile stays.
    ensures a_write_delivers_nothing { behind (event.Take 0 1 0 ∷ event.Submit 0 0 ∷ event.Guest 0 (act.Store 0x3002 (0x33 ∷ [])) ∷ event.DevTake 0 ∷ moves 1
        ++ event.DevPost 0 0 ∷ event.Reap 0 ∷ event.Post 0 0 ∷ [])
        (one_command_on 0x3002 (replicate 512 0x11) (by_sgl 0x01 5 0 (data_block 0x3002 512))) (host_number 0x103002 1) ≡ 0x33 }
    // A direct Write leaves its bounce pages.
    ensures a_direct_write_leaves_its_bounce_pages { behind in_device (one_command_on 0x3000 (replicate 512 0x11) (by_sgl 0x01 5 0 (data_block 0x3000 512)))
        (host_number 0x404000 1) ≡ 0 }
    // Two bounce pages are two entries.
    ensures two_bounce_pages { behind in_device (one_command (by_sgl 0x02 5 15 (data_block 0x3002 8192))) handed_on ≡ 0x02 ∷ 0 ∷ 0x404000 ∷ 0x405000 ∷ 1005 ∷ 0 ∷ 15 ∷ [] }
    // Ranges that are not to be deallocated stay.
    ensures ranges_that_stay { behind (list_whole 0x3000 16 1) (one_command_on 0x3000 (block_range 6 1) (manage false 0 (data_block 0x3000 16))) (λ w. w.disk 1006 0) ≡ 0xee }
    // A range of no blocks is handed on.
    ensures a_range_of_no_blocks { behind (list_in_device 0x3000 16) (one_command_on 0x3000 (block_range 64 0) (manage true 0 (data_block 0x3000 16))) handed_on
        ≡ 0x09 ∷ 0 ∷ 0x404000 ∷ 0 ∷ 0 ∷ 4 ∷ 0 ∷ [] }
    // What the device has completed it holds no longer.
    ensures completed_once { told (in_device ++ moves 1 ++ event.DevPost 0 0 ∷ event.DevPost 0 0 ∷ []) (one_command first_example) ≡ replicate 5 reply.Done ++ reply.Idle ∷ [] }
    // A command without a list leaves its list page.
    ensures a_list_page_without_a_list { behind in_device (one_command_on 0x303008 (7 ∷ []) first_example) (host_number 0x403008 1) ≡ 7 }
    // A completion that is held delivers nothing of its bounced Read.
    ensures a_held_completion_delivers_nothing { behind (event.Take 0 1 0 ∷ event.Take 0 1 0 ∷ event.Submit 0 0 ∷ event.Submit 0 1 ∷ event.DevTake 0 ∷ event.DevTake 0
        ∷ event.DevMove 0 0 0 ∷ event.DevMove 0 1 0 ∷ event.DevPost 0 0 ∷ event.DevPost 0 1 ∷ event.Reap 0 ∷ event.Reap 0 ∷ event.Post 0 0 ∷ event.Post 0 1 ∷ [])
        (world_with (holding 0x113000 (flush_of 1 ++ by_sgl 0x02 5 0 (data_block 0x3002 512))) 2 2 0)
        (λ w. host_number 0x404000 1 w ∷ host_number 0x425000 1 w ∷ host_number 0x103002 1 w ∷ []) ≡ 0 ∷ 0xed ∷ 0 ∷ [] }
    // Of a bounced Read that has succeeded and is not reaped, its completion and its blocks are shown.
    ensures blocks_of_an_answered_read { first_shown (list_in_device 0x6000 32 ++ moves 2 ++ event.DevPost 0 0 ∷ []) (read_apart 0x3e00 0x5200)
        ≡ span 0x402000 16 ∷ span 0x403000 0 ∷ span 0x404000 512 ∷ span 0x404200 512 ∷ [] }
{}

/// Plans, and what a private controller is given.
#[tactic(none)]
pub fn given()
    // A plan wants the bytes that its verdict wants.
    ensures what_is_wanted { plan_over first_guest (manage true 1 (data_block 0x3000 32)) [] ≡ Wanted 0x3000 32 }
    // Its list has as many descriptors as its guest may have: not three of two.
    ensures a_limit_of_two { plan_over (record first_guest { limit = 2 }) (by_sgl 0x02 5 1 (last_segment 0x6000 32))
        (read_of 0x6000 (data_block 0x3000 512 ++ data_block 0x8000 512) ∷ []) ≡ Settled (Answer (done_with code.InternalError)) }
    // A private controller has its guest's blocks.
    ensures as_many_blocks { (shape_of small_first).blocks ≡ 2 }
{}
