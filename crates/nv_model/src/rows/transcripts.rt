//! What a mediator has read of a command's lists, and what it wants next.

ghost use Rattle.std.specs.Prelude.{◌≡◌, [], ◌∷◌, ◌++◌, ◌+◌, replicate, false, true};
ghost use Rattle.nv_mem.specs.declared.piece.Piece.TheVariants.{Run};
ghost use Rattle.nv_entry.specs.StatusCode.{done_with, refused_with};
ghost use Rattle.nv_entry.specs.declared.status_code.StatusCode.TheVariants.{DataTransferError, InternalError, SglTypeInvalid};
ghost use Rattle.nv_model.specs.Judge.{ClearBlock, MoveBlock, Refuse};
ghost use Rattle.nv_model.specs.Transcript.{Settled, Wanted};
ghost use Rattle.nv_model.specs.Rows.{block_range, by_prp, by_sgl, data_block, last_segment, manage, manages, one_block, outcome_in, outcome_within, prp_entries, read, read_of, reads, type_four};

/// The examples of this module, a clause each.
#[tactic(none)]
pub fn examples()
    // A list of two Data Blocks with no reads: its 32 bytes are wanted.
    ensures with_no_reads_the_array_is_wanted { outcome_in (by_sgl read 5 1 (last_segment 0x6000 32)) [] ≡ Wanted 0x6000 32 }
    // A read of another length does not meet it.
    ensures a_read_of_half_the_array_does_not_meet_it { outcome_in (by_sgl read 5 1 (last_segment 0x6000 32)) (read_of 0x6000 (data_block 0x3e00 512) ∷ []) ≡ Wanted 0x6000 32 }
    // The read that is wanted settles the verdict.
    ensures the_read_that_is_wanted_settles_the_verdict { outcome_in (by_sgl read 5 1 (last_segment 0x6000 32)) (read_of 0x6000 (data_block 0x3e00 512 ++ data_block 0x5000 512) ∷ [])
        ≡ Settled (reads (Run 0x3e00 512 ∷ Run 0x5000 512 ∷ []) (MoveBlock 0 5 ∷ MoveBlock 1 6 ∷ [])) }
    // A read before it that is not wanted is skipped.
    ensures a_read_that_is_not_wanted_is_skipped { outcome_in (by_sgl read 5 1 (last_segment 0x6000 32))
        (read_of 0x5000 (replicate 16 0xff) ∷ read_of 0x6000 (data_block 0x3e00 512 ++ data_block 0x5000 512) ∷ [])
        ≡ Settled (reads (Run 0x3e00 512 ∷ Run 0x5000 512 ∷ []) (MoveBlock 0 5 ∷ MoveBlock 1 6 ∷ [])) }
    // The first read of an array counts, and a later one of the same bytes is not examined.
    ensures the_first_read_of_an_array_counts { outcome_in (by_sgl read 5 1 (last_segment 0x6000 32))
        (read_of 0x6000 (data_block 0x3e00 512 ++ data_block 0x5000 512) ∷ read_of 0x6000 (data_block 0x3e00 512 ++ data_block 0x20000 512) ∷ [])
        ≡ Settled (reads (Run 0x3e00 512 ∷ Run 0x5000 512 ∷ []) (MoveBlock 0 5 ∷ MoveBlock 1 6 ∷ [])) }
    // Where only a half was read first, the later read of the whole is the one that counts.
    ensures a_half_read_first_is_skipped { outcome_in (by_sgl read 5 1 (last_segment 0x6000 32))
        (read_of 0x6000 (data_block 0x3e00 512) ∷ read_of 0x6000 (data_block 0x3e00 512 ++ data_block 0x20000 512) ∷ [])
        ≡ Settled (Refuse (refused_with DataTransferError)) }
    // Of an array of 300 descriptors a part of 4,096 bytes is wanted first.
    ensures of_300_descriptors_256_are_wanted_first { outcome_in (by_sgl read 5 0 (last_segment 0x6000 4800)) [] ≡ Wanted 0x6000 4096 }
    // And then the rest.
    ensures of_300_descriptors_44_are_wanted_then { outcome_in (by_sgl read 5 0 (last_segment 0x6000 4800)) (read_of 0x6000 (replicate 4096 0) ∷ []) ≡ Wanted 0x7000 704 }
    // Both parts settle the verdict.
    ensures both_parts_of_300_descriptors_settle_the_verdict { outcome_in (by_sgl read 5 0 (last_segment 0x6000 4800))
        (read_of 0x6000 (replicate 4096 0) ∷ read_of 0x7000 (replicate 688 0 ++ one_block) ∷ [])
        ≡ Settled (reads (Run 0x3000 512 ∷ []) (MoveBlock 0 5 ∷ [])) }
    // After a fault in the first part nothing more is wanted.
    ensures behind_a_fault_nothing_is_wanted { outcome_in (by_sgl read 5 0 (last_segment 0x6000 4800)) (read_of 0x6000 (type_four ++ replicate 4080 0) ∷ [])
        ≡ Settled (Refuse (refused_with SglTypeInvalid)) }
    // A part in which the limit falls is wanted whole.
    ensures a_part_in_which_the_limit_falls_is_wanted_whole { outcome_within 200 (by_sgl read 5 0 (last_segment 0x6000 4800)) [] ≡ Wanted 0x6000 4096 }
    // A part that begins after the limit is not wanted: 257 descriptors are the command's own and a whole part.
    ensures a_part_behind_the_limit_is_not_wanted { outcome_within 257 (by_sgl read 5 0 (last_segment 0x6000 4800)) (read_of 0x6000 (replicate 4096 0) ∷ [])
        ≡ Settled (Refuse (done_with InternalError)) }
    // Of a PRP list the slots that are needed are wanted.
    ensures the_needed_slots_of_a_list_are_wanted { outcome_in (by_prp read 0 23 0x3000 0x6ff0) [] ≡ Wanted 0x6ff0 16 }
    // Of a list with more slots to the end of its page than pages remain, no slot after those that are needed.
    ensures the_slots_behind_the_needed_ones_are_not_wanted { outcome_in (by_prp read 0 23 0x3000 0x6000) [] ≡ Wanted 0x6000 16 }
    // Of a list that goes on, the slots to the end of its page.
    ensures the_slots_to_the_end_of_the_page_are_wanted { outcome_in (by_prp read 0 23 0x3000 0x6ff8) [] ≡ Wanted 0x6ff8 8 }
    // And then those that are needed of the next page.
    ensures the_needed_slots_of_the_next_page_are_wanted { outcome_in (by_prp read 0 23 0x3000 0x6ff8) (read_of 0x6ff8 (prp_entries (0x7000 ∷ [])) ∷ []) ≡ Wanted 0x7000 16 }
    // Where some slots to the end of the page are entries and the last points on, they are one want.
    ensures the_entries_and_the_pointer_of_a_page_are_one_want { outcome_in (by_prp read 0 31 0x3000 0x6ff0) [] ≡ Wanted 0x6ff0 16 }
    // And after them the next page's slots.
    ensures the_next_page_is_wanted_behind_the_entries_and_the_pointer { outcome_in (by_prp read 0 31 0x3000 0x6ff0)
        (read_of 0x6ff0 (prp_entries (0x8000 ∷ 0x7000 ∷ [])) ∷ []) ≡ Wanted 0x7000 16 }
    // The ranges of Dataset Management are wanted run by run.
    ensures the_ranges_are_wanted { outcome_in (manage true 1 (data_block 0x3000 32)) [] ≡ Wanted 0x3000 32 }
    // And settle the verdict.
    ensures the_ranges_settle_the_verdict { outcome_in (manage true 1 (data_block 0x3000 32)) (read_of 0x3000 (block_range 5 2 ++ block_range 0 1) ∷ [])
        ≡ Settled (manages (Run 0x3000 32 ∷ []) (block_range 5 2 ∷ block_range 0 1 ∷ [])
        (ClearBlock 5 false ∷ ClearBlock 6 false ∷ ClearBlock 0 false ∷ [])) }
{}
