//! What a disciplined guest does and leaves alone, and which of its bytes are awaited.

ghost use Rattle.std.specs.Prelude.{◌≡◌, [], ◌∷◌, ◌++◌, true, false};
ghost use Rattle.nv_model.specs.declared.act.Act.TheVariants as act;
ghost use Rattle.nv_model.specs.Rows.{block_range, by_sgl, data_block, first_example};
ghost use Rattle.nv_world_model.specs.Rows.{behind, in_device, moves, one_command, two_at_once, two_commands, whole};
ghost use Rattle.nv_world_model.specs.RowsSteps.{awaited_behind, keeps_to_it, read_named_twice, two_rung, writes_by_one_list};
ghost use Rattle.nv_world_model.specs.RowsWorlds.{list_whole, two_lanes, two_ranges};
ghost use Rattle.nv_world_model.specs.declared.event.Event.TheVariants as event;

/// The examples of this module, a clause each.
#[tactic(none)]
pub fn examples()
    // A Read that is left alone until it is completed, and whose buffer is loaded then.
    ensures a_plain_read { keeps_to_it (whole 1 ++ event.Guest 0 (act.Load 0x3000 512) ∷ event.Guest 0 (act.Store 0x13000 (0 ∷ [])) ∷ []) (one_command first_example) ≡ true }
    // A store into the entry of a command whose doorbell was rung.
    ensures a_store_into_an_entry { keeps_to_it (event.Guest 0 (act.Store 0x13000 (0 ∷ [])) ∷ []) (one_command first_example) ≡ false }
    // Right after the entry.
    ensures a_store_behind_an_entry { keeps_to_it (event.Guest 0 (act.Store 0x13040 (0 ∷ [])) ∷ []) (one_command first_example) ≡ true }
    // Once the command is taken its entry's slot is the guest's again.
    ensures a_store_into_an_entry_that_is_taken { keeps_to_it (event.Take 0 1 0 ∷ event.Guest 0 (act.Store 0x13000 (0 ∷ [])) ∷ []) (one_command first_example) ≡ true }
    // A load of an entry changes nothing.
    ensures a_load_of_an_entry { keeps_to_it (event.Guest 0 (act.Load 0x13000 64) ∷ []) (one_command first_example) ≡ true }
    // A load from the destination of a command whose doorbell was rung.
    ensures a_load_from_a_destination { keeps_to_it (event.Guest 0 (act.Load 0x31ff 1) ∷ []) (one_command first_example) ≡ false }
    // While it has ended and is not posted.
    ensures a_load_before_the_completion { keeps_to_it (in_device ++ moves 1 ++ event.DevPost 0 0 ∷ event.Reap 0 ∷ event.Guest 0 (act.Load 0x3000 1) ∷ []) (one_command first_example) ≡ false }
    // Right after the destination.
    ensures a_load_behind_a_destination { keeps_to_it (event.Guest 0 (act.Load 0x3200 1) ∷ []) (one_command first_example) ≡ true }
    // A store into a destination.
    ensures a_store_into_a_destination { keeps_to_it (in_device ++ event.Guest 0 (act.Store 0x3000 (1 ∷ [])) ∷ []) (one_command first_example) ≡ false }
    // A store into a source.
    ensures a_store_into_a_source { keeps_to_it (in_device ++ event.Guest 0 (act.Store 0x3000 (1 ∷ [])) ∷ []) (one_command (by_sgl 0x01 5 0 (data_block 0x3000 512))) ≡ false }
    // A load from one.
    ensures a_load_from_a_source { keeps_to_it (in_device ++ event.Guest 0 (act.Load 0x3000 512) ∷ []) (one_command (by_sgl 0x01 5 0 (data_block 0x3000 512))) ≡ true }
    // A store into a list, even once it was read.
    ensures a_store_into_a_list { keeps_to_it (event.Take 0 1 0 ∷ event.List 0 0 0x6000 32 ∷ event.Guest 0 (act.Store 0x6010 (1 ∷ [])) ∷ []) (read_named_twice 0x3000 0x3200) ≡ false }
    // Another guest may store and load where it likes.
    ensures another_guest_is_free { keeps_to_it (event.Guest 1 (act.Store 0x13000 (0 ∷ [])) ∷ event.Guest 1 (act.Load 0x3000 1) ∷ []) two_commands ≡ true }
    // A destination that names a byte twice.
    ensures a_destination_that_names_a_byte_twice { keeps_to_it [] (read_named_twice 0x3000 0x31ff) ≡ false }
    // Two places of one destination side by side.
    ensures a_destination_of_two_places { keeps_to_it [] (read_named_twice 0x3000 0x3200) ≡ true }
    // A destination that lies over its own list.
    ensures a_destination_over_its_list { keeps_to_it [] (read_named_twice 0x3000 0x5e01) ≡ false }
    // Two Reads into one buffer.
    ensures two_reads_into_one_buffer { keeps_to_it [] (two_rung first_example first_example) ≡ false }
    // One of which is taken.
    ensures one_of_them_is_taken { keeps_to_it (event.Take 0 1 0 ∷ []) (two_rung first_example first_example) ≡ false }
    // Which end with a reset: the states on the way count, and not the last alone.
    ensures they_end_with_a_reset { keeps_to_it (event.Guest 0 (act.RegWrite 0x14 0x00460000) ∷ []) (two_rung first_example first_example) ≡ false }
    ensures behind_the_reset_nothing_is_rung { keeps_to_it [] (behind (event.Guest 0 (act.RegWrite 0x14 0x00460000) ∷ []) (two_rung first_example first_example) (λ w. w)) ≡ true }
    // Two Reads into buffers side by side.
    ensures two_reads_apart { keeps_to_it [] (two_rung first_example (by_sgl 0x02 6 0 (data_block 0x3200 512))) ≡ true }
    // Two Writes that share their source.
    ensures two_writes_that_share_a_source { keeps_to_it [] (two_rung (by_sgl 0x01 5 0 (data_block 0x3000 512)) (by_sgl 0x01 6 0 (data_block 0x3000 512))) ≡ true }
    // Two Writes by one list.
    ensures two_writes_by_one_list { keeps_to_it [] writes_by_one_list ≡ true }
    // A load of a list.
    ensures a_load_of_a_list { keeps_to_it (event.Guest 0 (act.Load 0x6000 32) ∷ []) writes_by_one_list ≡ true }
    // A Dataset Management that is left alone until it is completed: its ranges are in its source.
    ensures ranges_left_alone { keeps_to_it (list_whole 0x3000 32 2) (two_ranges (block_range 5 1) (block_range 6 2)) ≡ true }
    // A load of its ranges, and a store into them.
    ensures a_load_of_ranges { keeps_to_it (event.Guest 0 (act.Load 0x3000 32) ∷ []) (two_ranges (block_range 5 1) (block_range 6 2)) ≡ true }
    ensures a_store_into_ranges { keeps_to_it (event.Guest 0 (act.Store 0x301f (0 ∷ [])) ∷ []) (two_ranges (block_range 5 1) (block_range 6 2)) ≡ false }
    // A Write from what a Read fills.
    ensures a_write_from_a_destination { keeps_to_it [] (two_rung first_example (by_sgl 0x01 6 0 (data_block 0x31ff 512))) ≡ false }
    // A destination with a slot of the completion queue in it.
    ensures a_completion_slot_in_a_destination { keeps_to_it [] (one_command (by_sgl 0x02 5 0 (data_block 0x120ff 512))) ≡ false }
    // A source with one.
    ensures a_completion_slot_in_a_source { keeps_to_it [] (one_command (by_sgl 0x01 5 0 (data_block 0x11e01 512))) ≡ false }
    // A destination right after the slots.
    ensures a_destination_behind_the_slots { keeps_to_it [] (one_command (by_sgl 0x02 5 0 (data_block 0x12100 512))) ≡ true }
    // A destination over the entry that names it.
    ensures a_destination_over_its_entry { keeps_to_it [] (one_command (by_sgl 0x02 5 0 (data_block 0x13000 512))) ≡ false }
    // Two guests' commands do not meet, though their addresses are the same.
    ensures two_guests_do_not_meet { keeps_to_it two_at_once two_commands ≡ true }
    // The bytes of a destination are awaited while its command is taken: the first, the last, and not the one after.
    ensures a_destination_is_awaited { awaited_behind in_device (one_command first_example) (0x3000 ∷ 0x31ff ∷ 0x3200 ∷ 0x2fff ∷ []) ≡ true ∷ true ∷ false ∷ false ∷ [] }
    // Not before.
    ensures nothing_is_awaited_before { awaited_behind [] (one_command first_example) (0x3000 ∷ []) ≡ false ∷ [] }
    // Nor after its completion.
    ensures nothing_is_awaited_behind_the_completion { awaited_behind (whole 1) (one_command first_example) (0x3000 ∷ []) ≡ false ∷ [] }
    // On another lane too.
    ensures what_another_lane_has_is_awaited { awaited_behind (event.Take 0 1 1 ∷ event.Submit 1 0 ∷ []) (two_lanes first_example) (0x3000 ∷ 0x3200 ∷ []) ≡ true ∷ false ∷ [] }
    // No source is.
    ensures no_source_is_awaited { awaited_behind in_device (one_command (by_sgl 0x01 5 0 (data_block 0x3000 512))) (0x3000 ∷ []) ≡ false ∷ [] }
{}
