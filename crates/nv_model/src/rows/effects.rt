//! What the units of a command do: a command in the bag is judged, and its units move.

ghost use Rattle.std.specs.Prelude.{◌≡◌, [], ◌∷◌, ◌++◌, ◌&&◌, ◌==◌, Some, None, true, false, replicate, if◌then◌else◌};
ghost use Rattle.nv_model.specs.Private.{JudgeStep, MoveStep, block_bytes};
ghost use Rattle.nv_model.specs.Rows.{bit_bucket, block_range, by_sgl, compare, data_block, flush, holding, last_segment, manage, one_block, read, with_fua, write, write_zeroes, zeros};
ghost use Rattle.nv_model.specs.RowsRuns.{after, all_blocks, all_bytes, all_marks, block_byte, bytes_in, can_run, carried, ended, numbered_blocks, with_command};

/// A Compare of two blocks that are equal to the buffer ends in Success.
#[tactic(none)]
pub fn a_compare_of_equal_data()
    ensures { after (carried 2) (with_command (all_bytes 0xab) (all_blocks 0xab) (all_marks false) (by_sgl compare 5 1 (data_block 0x3000 1024))) ended
        ≡ Some (Some 0x00010007) }
{}

/// One that differs in the last byte of the last block alone ends in Compare Failure, without DNR.
#[tactic(none)]
pub fn a_compare_that_differs_in_the_last_block_alone()
    ensures { after (carried 2)
        (with_command (all_bytes 0xab) (λ lba offset. if lba == 6 && offset == 511 then 0xac else 0xab) (all_marks false)
        (by_sgl compare 5 1 (data_block 0x3000 1024))) ended
        ≡ Some (Some 0x050b0007) }
{}

/// One that differs in the first block alone ends likewise: the blocks that move after it don't change that.
#[tactic(none)]
pub fn a_compare_that_differs_in_the_first_block_alone()
    ensures { after (carried 2)
        (with_command (all_bytes 0xab) (λ lba offset. if lba == 5 && offset == 0 then 0xac else 0xab) (all_marks false)
        (by_sgl compare 5 1 (data_block 0x3000 1024))) ended
        ≡ Some (Some 0x050b0007) }
{}

/// Whichever unit moves first.
#[tactic(none)]
pub fn a_compare_whose_last_block_moves_first()
    ensures { after (JudgeStep 0 ∷ MoveStep 0 1 ∷ MoveStep 0 0 ∷ [])
        (with_command (all_bytes 0xab) (λ lba offset. if lba == 6 && offset == 511 then 0xac else 0xab) (all_marks false)
        (by_sgl compare 5 1 (data_block 0x3000 1024))) ended
        ≡ Some (Some 0x050b0007) }
{}

/// A Compare changes no block, and without FUA no mark.
#[tactic(none)]
pub fn a_compare_changes_nothing()
    ensures { after (carried 1) (with_command (all_bytes 0xab) numbered_blocks (all_marks true) (by_sgl compare 5 0 one_block)) (block_byte 5 0)
        ≡ Some (5, true) }
{}

/// A Compare with FUA makes its block kept, though it differs.
#[tactic(none)]
pub fn a_compare_with_fua_makes_its_block_kept()
    ensures { after (carried 1) (with_command (all_bytes 0xab) numbered_blocks (all_marks false) (by_sgl compare 5 (with_fua 0) one_block)) (block_byte 5 0)
        ≡ Some (5, true) }
{}

/// A command has not ended before all its units have moved.
#[tactic(none)]
pub fn a_command_with_a_unit_left_has_not_ended()
    ensures { after (carried 1) (with_command (all_bytes 0xab) (all_blocks 0xab) (all_marks false) (by_sgl compare 5 1 (data_block 0x3000 1024))) ended
        ≡ Some None }
{}

/// A Read puts a block into the buffer, and no byte beside it.
#[tactic(none)]
pub fn a_read_fills_the_buffer()
    ensures { after (carried 1) (with_command (all_bytes 0xee) numbered_blocks (all_marks false) (by_sgl read 5 0 one_block)) (bytes_in 0x2fff 514)
        ≡ Some (0xee ∷ replicate 512 5 ++ 0xee ∷ []) }
{}

/// At 3002h too.
#[tactic(none)]
pub fn a_read_fills_a_buffer_at_any_address()
    ensures { after (carried 1) (with_command (all_bytes 0xee) numbered_blocks (all_marks false) (by_sgl read 5 0 (data_block 0x3002 512))) (bytes_in 0x3001 3)
        ≡ Some (0xee ∷ 5 ∷ 5 ∷ []) }
{}

/// A Bit Bucket discards the second block: nothing after the first changes.
#[tactic(none)]
pub fn a_read_into_a_bit_bucket_discards()
    ensures { after (carried 2)
        (with_command (holding 0x6000 (one_block ++ bit_bucket 512)) numbered_blocks (all_marks false) (by_sgl read 5 1 (last_segment 0x6000 32)))
        (bytes_in 0x31ff 2)
        ≡ Some (5 ∷ 0 ∷ []) }
{}

/// Where both blocks of a Read go to the same place, the one that moves last stays.
#[tactic(none)]
pub fn a_read_of_two_blocks_to_one_place()
    ensures { after (carried 2)
        (with_command (holding 0x6000 (one_block ++ one_block)) numbered_blocks (all_marks false) (by_sgl read 5 1 (last_segment 0x6000 32)))
        (bytes_in 0x3000 2)
        ≡ Some (6 ∷ 6 ∷ []) }
{}

/// A block may lie in two pieces.
#[tactic(none)]
pub fn a_block_in_two_pieces()
    ensures { after (carried 2)
        (with_command (holding 0x6000 (data_block 0x3000 256 ++ data_block 0x5000 768)) numbered_blocks (all_marks false)
        (by_sgl read 5 1 (last_segment 0x6000 32)))
        (bytes_in 0x50ff 2)
        ≡ Some (5 ∷ 6 ∷ []) }
{}

/// Of two units the second may move alone.
#[tactic(none)]
pub fn the_second_of_two_units_may_move_first()
    ensures { after (JudgeStep 0 ∷ MoveStep 0 1 ∷ []) (with_command zeros numbered_blocks (all_marks false) (by_sgl read 5 1 (data_block 0x3000 1024)))
        (bytes_in 0x31ff 2)
        ≡ Some (0 ∷ 6 ∷ []) }
{}

/// A Read without FUA leaves the marks as they were.
#[tactic(none)]
pub fn a_read_leaves_the_mark()
    ensures { after (carried 1) (with_command zeros numbered_blocks (all_marks true) (by_sgl read 5 0 one_block)) (λ p. p.kept 5) ≡ Some true }
{}

/// A Read with FUA makes its block kept, and no other.
#[tactic(none)]
pub fn a_read_with_fua_makes_its_block_kept()
    ensures { after (carried 1) (with_command zeros numbered_blocks (all_marks false) (by_sgl read 5 (with_fua 0) one_block))
        (λ p. p.kept 4 ∷ p.kept 5 ∷ p.kept 6 ∷ [])
        ≡ Some (false ∷ true ∷ false ∷ []) }
{}

/// A Write puts the buffer into its block, which is no longer kept.
#[tactic(none)]
pub fn a_write_fills_its_block()
    ensures { after (carried 1) (with_command (all_bytes 0xab) numbered_blocks (all_marks true) (by_sgl write 5 0 one_block)) (λ p. block_bytes p.disk 5)
        ≡ Some (replicate 512 0xab) }
{}

/// The blocks beside it stay, and so do their marks.
#[tactic(none)]
pub fn a_write_leaves_other_blocks()
    ensures { after (carried 1) (with_command (all_bytes 0xab) numbered_blocks (all_marks true) (by_sgl write 5 0 one_block))
        (λ p. block_byte 4 511 p ∷ block_byte 5 0 p ∷ block_byte 6 0 p ∷ [])
        ≡ Some ((4, true) ∷ (0xab, false) ∷ (6, true) ∷ []) }
{}

/// A Write with FUA makes its block kept.
#[tactic(none)]
pub fn a_write_with_fua_makes_its_block_kept()
    ensures { after (carried 1) (with_command zeros numbered_blocks (all_marks false) (by_sgl write 5 (with_fua 0) one_block)) (λ p. p.kept 5) ≡ Some true }
{}

/// Write Zeroes zeroes its blocks.
#[tactic(none)]
pub fn write_zeroes_zeroes_its_blocks()
    ensures { after (carried 2) (with_command zeros numbered_blocks (all_marks true) (by_sgl write_zeroes 5 1 one_block))
        (λ p. block_byte 4 0 p ∷ block_byte 5 0 p ∷ block_byte 6 511 p ∷ block_byte 7 0 p ∷ [])
        ≡ Some ((4, true) ∷ (0, false) ∷ (0, false) ∷ (7, true) ∷ []) }
{}

/// Write Zeroes with FUA makes the blocks of its range kept.
#[tactic(none)]
pub fn write_zeroes_with_fua_makes_its_blocks_kept()
    ensures { after (carried 2) (with_command zeros numbered_blocks (all_marks false) (by_sgl write_zeroes 5 (with_fua 1) one_block))
        (λ p. block_byte 4 0 p ∷ block_byte 5 0 p ∷ block_byte 6 511 p ∷ block_byte 7 0 p ∷ [])
        ≡ Some ((4, false) ∷ (0, true) ∷ (0, true) ∷ (7, false) ∷ []) }
{}

/// Dataset Management with deallocate set zeroes the blocks of its ranges, which are no longer kept.
#[tactic(none)]
pub fn deallocate_zeroes_its_blocks()
    ensures { after (carried 3)
        (with_command (holding 0x3000 (block_range 5 2 ++ block_range 1 1)) numbered_blocks (all_marks true) (manage true 1 (data_block 0x3000 32)))
        (λ p. block_byte 1 0 p ∷ block_byte 2 0 p ∷ block_byte 4 0 p ∷ block_byte 5 0 p ∷ block_byte 6 511 p ∷ block_byte 7 0 p ∷ [])
        ≡ Some ((0, false) ∷ (2, true) ∷ (4, true) ∷ (0, false) ∷ (0, false) ∷ (7, true) ∷ []) }
{}

/// Block by block, in the order of the ranges or in any other.
#[tactic(none)]
pub fn each_block_of_a_range_is_deallocated_alone()
    ensures in_order { after (carried 1)
        (with_command (holding 0x3000 (block_range 5 2 ++ block_range 1 1)) numbered_blocks (all_marks true) (manage true 1 (data_block 0x3000 32)))
        (λ p. block_byte 1 0 p ∷ block_byte 5 0 p ∷ block_byte 6 511 p ∷ [])
        ≡ Some ((1, true) ∷ (0, false) ∷ (6, true) ∷ []) }
    ensures any_other { after (JudgeStep 0 ∷ MoveStep 0 2 ∷ MoveStep 0 1 ∷ [])
        (with_command (holding 0x3000 (block_range 5 2 ++ block_range 1 1)) numbered_blocks (all_marks true) (manage true 1 (data_block 0x3000 32)))
        (λ p. block_byte 1 0 p ∷ block_byte 5 0 p ∷ block_byte 6 511 p ∷ [])
        ≡ Some ((0, false) ∷ (5, true) ∷ (0, false) ∷ []) }
{}

/// A unit moves once.
#[tactic(none)]
pub fn a_unit_moves_once()
    ensures again { can_run (JudgeStep 0 ∷ MoveStep 0 1 ∷ MoveStep 0 1 ∷ [])
        (with_command zeros numbered_blocks (all_marks false) (by_sgl read 5 1 (data_block 0x3000 1024))) ≡ false }
    ensures not_there { can_run (JudgeStep 0 ∷ MoveStep 0 2 ∷ [])
        (with_command zeros numbered_blocks (all_marks false) (by_sgl read 5 1 (data_block 0x3000 1024))) ≡ false }
    ensures unjudged { can_run (MoveStep 0 0 ∷ [])
        (with_command zeros numbered_blocks (all_marks false) (by_sgl read 5 1 (data_block 0x3000 1024))) ≡ false }
{}

/// With deallocate clear its units have no effect.
#[tactic(none)]
pub fn deallocate_clear_has_no_effect()
    ensures { after (carried 3)
        (with_command (holding 0x3000 (block_range 5 2 ++ block_range 1 1)) numbered_blocks (all_marks true) (manage false 1 (data_block 0x3000 32)))
        (λ p. block_byte 1 0 p ∷ block_byte 5 0 p ∷ block_byte 6 511 p ∷ [])
        ≡ Some ((1, true) ∷ (5, true) ∷ (6, true) ∷ []) }
{}

/// It has ended once they have moved.
#[tactic(none)]
pub fn deallocate_clear_ends_behind_its_units()
    ensures before { after (carried 2)
        (with_command (holding 0x3000 (block_range 5 2 ++ block_range 1 1)) numbered_blocks (all_marks true) (manage false 1 (data_block 0x3000 32))) ended
        ≡ Some None }
    ensures behind { after (carried 3)
        (with_command (holding 0x3000 (block_range 5 2 ++ block_range 1 1)) numbered_blocks (all_marks true) (manage false 1 (data_block 0x3000 32))) ended
        ≡ Some (Some 0x00010007) }
{}

/// A command whose ranges are all empty has no unit: it has ended, in Success, once it is judged, and changes nothing.
#[tactic(none)]
pub fn a_range_of_no_blocks_has_no_unit()
    ensures ended { after (carried 0) (with_command (holding 0x3000 (block_range 64 0)) numbered_blocks (all_marks true) (manage true 0 (data_block 0x3000 16))) ended
        ≡ Some (Some 0x00010007) }
    ensures unchanged { after (carried 0) (with_command (holding 0x3000 (block_range 63 0)) numbered_blocks (all_marks true) (manage true 0 (data_block 0x3000 16)))
        (λ p. block_byte 62 0 p ∷ block_byte 63 0 p ∷ [])
        ≡ Some ((62, true) ∷ (63, true) ∷ []) }
{}

/// Flush makes every block kept.
#[tactic(none)]
pub fn a_flush_makes_every_block_kept()
    ensures { after (carried 1) (with_command zeros numbered_blocks (all_marks false) (by_sgl flush 0 0 one_block)) (λ p. p.kept 0 ∷ p.kept 63 ∷ [])
        ≡ Some (true ∷ true ∷ []) }
{}

/// A command that is refused has ended once it is judged.
#[tactic(none)]
pub fn a_refused_command_ends_at_once()
    ensures { after (carried 0) (with_command zeros numbered_blocks (all_marks false) (by_sgl read 63 1 one_block)) ended ≡ Some (Some 0x81010007) }
{}
