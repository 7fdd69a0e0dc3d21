//! Dataset Management: the buffer holds ranges of 16 bytes, each of which must lie in the namespace, here of 64 blocks.

ghost use Rattle.std.specs.Prelude.{◌≡◌, [], ◌∷◌, ◌++◌, Some, None, true, false};
ghost use Rattle.nv_mem.specs.declared.piece.Piece.TheVariants.{Run};
ghost use Rattle.nv_model.specs.Judge.{ClearBlock, LeaveBlock};
ghost use Rattle.nv_model.specs.Memory.{stored};
ghost use Rattle.nv_model.specs.Private.{verdict_in};
ghost use Rattle.nv_model.specs.Rows.{block_range, data_block, guest, holding, last_segment, manage, manages, many_ranges, refusal_in};

/// The examples of this module, a clause each.
#[tactic(none)]
pub fn examples()
    // The last of 256 ranges is out of range: LBA Out of Range.
    ensures the_last_of_256_ranges_is_out_of_range { refusal_in (many_ranges (block_range 64 1)) (manage true 255 (data_block 0x3000 4096)) ≡ Some 0x81010007 }
    // With the last block in its place all 256 go.
    ensures all_of_256_ranges_are_in_range { refusal_in (many_ranges (block_range 63 1)) (manage false 255 (data_block 0x3000 4096)) ≡ None }
    // A range that would wrap is out of range.
    ensures a_range_of_blocks_that_would_wrap { refusal_in (holding 0x3000 (block_range 0xffffffffffffffff 1)) (manage true 0 (data_block 0x3000 16)) ≡ Some 0x81010007 }
    // A range of length 0 at the namespace's end passes, and has no unit.
    ensures no_blocks_at_the_end { verdict_in guest (holding 0x3000 (block_range 64 0)) (manage true 0 (data_block 0x3000 16)) ≡ manages (Run 0x3000 16 ∷ []) (block_range 64 0 ∷ []) [] }
    // Beyond the end it does not pass.
    ensures no_blocks_behind_the_end { refusal_in (holding 0x3000 (block_range 65 0)) (manage true 0 (data_block 0x3000 16)) ≡ Some 0x81010007 }
    // There is a unit for each block of each range, in their order, and each clears its block.
    ensures a_unit_for_each_block_of_each_range { verdict_in guest (holding 0x3000 (block_range 5 2 ++ block_range 0 1)) (manage true 1 (data_block 0x3000 32))
        ≡ manages (Run 0x3000 32 ∷ []) (block_range 5 2 ∷ block_range 0 1 ∷ [])
        (ClearBlock 5 false ∷ ClearBlock 6 false ∷ ClearBlock 0 false ∷ []) }
    // With deallocate clear there are as many units, and each leaves its block as it is.
    ensures deallocate_clear_leaves_each_block { verdict_in guest (holding 0x3000 (block_range 5 2 ++ block_range 0 1)) (manage false 1 (data_block 0x3000 32))
        ≡ manages (Run 0x3000 32 ∷ []) (block_range 5 2 ∷ block_range 0 1 ∷ [])
        (LeaveBlock 5 ∷ LeaveBlock 6 ∷ LeaveBlock 0 ∷ []) }
    // A range may be in two Data Blocks.
    ensures a_range_in_two_data_blocks { verdict_in guest
        (stored (stored (holding 0x6000 (data_block 0x3000 8 ++ data_block 0x5000 8)) 0x3000 (0 ∷ 0 ∷ 0 ∷ 0 ∷ 2 ∷ [])) 0x5000 (5 ∷ []))
        (manage true 0 (last_segment 0x6000 32))
        ≡ manages (Run 0x3000 8 ∷ Run 0x5000 8 ∷ []) (block_range 5 2 ∷ []) (ClearBlock 5 false ∷ ClearBlock 6 false ∷ []) }
    // A list of another number of bytes than the ranges have is refused before they are read.
    ensures a_list_of_one_range_for_two { refusal_in (holding 0x3000 (block_range 64 1)) (manage true 1 (data_block 0x3000 16)) ≡ Some 0x801f0007 }
{}
