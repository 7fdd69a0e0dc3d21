//! What of the mediator's area is shown to a guest, and the world cut down to a guest.

ghost use Rattle.std.specs.Prelude.{◌≡◌, [], ◌∷◌, ◌++◌, replicate, slice_get, Some, None, is_some, true, false};
ghost use Rattle.nv_mem.specs.declared.piece.Piece.TheVariants as piece;
ghost use Rattle.nv_model.specs.Controller.{opening};
ghost use Rattle.nv_model.specs.Rows.{block_range, first_example};
ghost use Rattle.nv_world_model.specs.Rows.{host_number, in_device, moves, one_command, two_commands, whole};
ghost use Rattle.nv_world_model.specs.RowsShown.{both_in_device, both_shared, bounced_write, cut_to_first, first_flying, first_shown, first_took, held_pieces, second_shown, span};
ghost use Rattle.nv_world_model.specs.RowsWorlds.{list_in_device, marks_at, paged_read, read_apart, two_lanes, two_ranges};
ghost use Rattle.nv_world_model.specs.Seat.{held_in};
ghost use Rattle.nv_world_model.specs.View.{shared_numbers};
ghost use Rattle.nv_world_model.specs.World.{Free, Taken, tag_of};
ghost use Rattle.nv_world_model.specs.declared.event.Event.TheVariants as event;

/// The examples of this module, a clause each.
#[tactic(none)]
pub fn examples()
    // Of a command that is taken and not handed on, nothing.
    ensures nothing_is_shown_of_a_taken_command { first_shown (event.Take 0 1 0 ∷ []) (read_apart 0x3e00 0x5000) ≡ [] }
    // Of a direct Read in a slot of the submission ring, that slot and the two entries of its list.
    ensures an_entry_and_its_list_are_shown { first_shown (event.Take 0 1 0 ∷ event.List 0 0 0x6ff8 8 ∷ event.List 0 0 0x7000 16 ∷ event.Submit 0 0 ∷ []) paged_read
        ≡ span 0x400000 64 ∷ span 0x403000 16 ∷ [] }
    // Once it is in the device, the list alone.
    ensures a_slot_is_shown_while_it_is_queued { first_shown (event.Take 0 1 0 ∷ event.List 0 0 0x6ff8 8 ∷ event.List 0 0 0x7000 16 ∷ event.Submit 0 0 ∷ event.DevTake 0 ∷ []) paged_read
        ≡ span 0x403000 16 ∷ [] }
    // Of a bounced Write in the device, its source.
    ensures a_source_is_shown { first_shown in_device bounced_write ≡ span 0x403000 0 ∷ span 0x404000 512 ∷ [] }
    // Of a Dataset Management its ranges.
    ensures ranges_are_shown { first_shown (list_in_device 0x3000 32) (two_ranges (block_range 5 2) (block_range 0 1)) ≡ span 0x403000 0 ∷ span 0x404000 32 ∷ [] }
    // Of a command on another lane what is in that lane's pages.
    ensures another_lanes_pages_are_shown { first_shown (event.Take 0 1 1 ∷ event.Submit 1 0 ∷ []) (two_lanes first_example) ≡ span 0xc43000 64 ∷ span 0xc46000 0 ∷ [] }
    // Of a bounced Read in the device, nothing before a unit has moved.
    ensures no_block_is_shown_before_it_moves { first_shown (list_in_device 0x6000 32) (read_apart 0x3e00 0x5200) ≡ span 0x403000 0 ∷ [] }
    // Then the blocks that have, here the second of two.
    ensures a_block_that_moved_is_shown { first_shown (list_in_device 0x6000 32 ++ event.DevMove 0 0 1 ∷ []) (read_apart 0x3e00 0x5200)
        ≡ span 0x403000 0 ∷ span 0x404200 512 ∷ [] }
    // Of one that failed, its completion, and no block although one has moved.
    ensures no_block_of_a_failed_read_is_shown { first_shown (list_in_device 0x6000 32 ++ event.DevMove 0 0 1 ∷ event.DevFail 0 0 (record { sct = 2; sc = 0x81; dnr = false }) ∷ [])
        (read_apart 0x3e00 0x5200) ≡ span 0x402000 16 ∷ span 0x403000 0 ∷ [] }
    // Once that is reaped, nothing.
    ensures nothing_is_shown_of_a_read_that_failed { first_shown (list_in_device 0x6000 32 ++ event.DevMove 0 0 1 ∷ event.DevFail 0 0 (record { sct = 2; sc = 0x81; dnr = false }) ∷ event.Reap 0 ∷ [])
        (read_apart 0x3e00 0x5200) ≡ [] }
    // Of one that succeeded, all its blocks, until they are delivered.
    ensures the_blocks_of_an_ended_read_are_shown { first_shown (list_in_device 0x6000 32 ++ moves 2 ++ event.DevPost 0 0 ∷ event.Reap 0 ∷ []) (read_apart 0x3e00 0x5200)
        ≡ span 0x404000 512 ∷ span 0x404200 512 ∷ [] }
    // After the completion the tag is free, and nothing is shown of it.
    ensures nothing_is_shown_of_a_free_tag { first_shown (whole 1) bounced_write ≡ [] }
    // Nothing of one guest's command is shown to another.
    ensures nothing_of_anothers_is_shown { second_shown in_device bounced_write ≡ [] }
    // Of two guests' commands each is shown its own: the second's is in the second slot.
    ensures each_is_shown_its_own { second_shown (event.Take 0 1 0 ∷ event.Take 1 1 0 ∷ event.Submit 0 0 ∷ event.Submit 0 1 ∷ []) two_commands
        ≡ span 0x400040 64 ∷ span 0x424000 0 ∷ [] }
    // The world cut down to a guest has the guest's own tag.
    ensures a_cut_keeps_the_own_tag { tag_of cut_to_first 0 0 ≡ Some first_flying }
    // Another's is taken by nobody, whose number is that of no guest.
    ensures a_cut_gives_anothers_tag_to_nobody { tag_of cut_to_first 0 1 ≡ Some (Taken (record { guest = 2; queue = 0; entry = replicate 64 0; leader = 64 }) []) }
    // A free one is free.
    ensures a_cut_leaves_a_free_tag { tag_of cut_to_first 0 2 ≡ Some Free }
    // The device holds the guest's own command.
    ensures a_cut_keeps_the_own_command { held_pieces (held_in (slice_get cut_to_first.device 0) 0) ≡ piece.Run 0x103000 512 ∷ [] }
    // And not the other's, which it held.
    ensures a_cut_drops_anothers_command { is_some (held_in (slice_get both_in_device.device 0) 1) ∷ is_some (held_in (slice_get cut_to_first.device 0) 1) ∷ []
        ≡ true ∷ false ∷ [] }
    // The guest's own bytes stay: here its entry, which is a Read.
    ensures a_cut_keeps_the_own_bytes { host_number 0x113000 1 both_in_device ∷ host_number 0x113000 1 cut_to_first ∷ [] ≡ 2 ∷ 2 ∷ [] }
    // Another's are zero, and so is what of the mediator's area is not shown: here both slots of the submission ring.
    ensures a_cut_zeroes_anothers_bytes { host_number 0x213000 1 both_in_device ∷ host_number 0x213000 1 cut_to_first ∷ host_number 0x400000 1 both_in_device
        ∷ host_number 0x400000 1 cut_to_first ∷ host_number 0x400040 1 both_in_device ∷ host_number 0x400040 1 cut_to_first ∷ [] ≡ 2 ∷ 0 ∷ 2 ∷ 0 ∷ 2 ∷ 0 ∷ [] }
    // The guest's own blocks stay, up to and with the last, and all others are zero.
    ensures a_cut_zeroes_anothers_blocks { cut_to_first.disk 999 0 ∷ cut_to_first.disk 1000 0 ∷ cut_to_first.disk 1063 511 ∷ cut_to_first.disk 1064 0
        ∷ cut_to_first.disk 2005 0 ∷ [] ≡ 0 ∷ 0xe8 ∷ 0x27 ∷ 0 ∷ 0 ∷ [] }
    // So do the marks.
    ensures a_cut_clears_anothers_marks { marks_at (1005 ∷ 2005 ∷ []) both_in_device ++ marks_at (1005 ∷ 2005 ∷ []) cut_to_first
        ≡ true ∷ true ∷ true ∷ false ∷ [] }
    // The guest's own controller stays.
    ensures a_cut_keeps_the_own_controller { slice_get cut_to_first.controllers 0 ≡ Some first_took }
    // Another's is as at the start.
    ensures a_cut_resets_anothers_controller { slice_get cut_to_first.controllers 1 ≡ Some opening }
    // The numbers that all share, in the world as it is.
    ensures the_shared_numbers { shared_numbers both_in_device ≡ both_shared }
    // They stay.
    ensures a_cut_keeps_the_shared_numbers { shared_numbers cut_to_first ≡ both_shared }
{}
