//! One command on blocks: where its buffer lies, and what it does.

ghost use Rattle.std.specs.Prelude.{◌≡◌, [], ◌∷◌, ◌++◌, Some, true, false};
ghost use Rattle.nv_entry.specs.declared.opcode.IoOpcode.TheVariants as opcode;
ghost use Rattle.nv_mem.specs.declared.piece.Piece.TheVariants.{Run, Bucket};
ghost use Rattle.nv_model.specs.Judge.{ClearBlock, Go, KeepAll, MoveBlock};
ghost use Rattle.nv_model.specs.Private.{verdict_in};
ghost use Rattle.nv_model.specs.Rows.{bit_bucket, by_sgl, compare, data_block, first_example, flush, goes_without_buffer, guest};
ghost use Rattle.nv_model.specs.Rows.{holding, last_segment, one_block, read, reads, refusal_in, with_fua, write, write_zeroes, zeros};

/// The examples of this module, a clause each.
#[tactic(none)]
pub fn examples()
    // The bytes of the first example are a Read of block 5 by one Data Block.
    ensures the_first_example_reads_block_five { by_sgl read 5 0 one_block ≡ first_example }
    // A Read of one block whose buffer is one Data Block goes, with one run and one unit, and without FUA.
    ensures one_data_block_is_one_run { verdict_in guest zeros first_example ≡ reads (Run 0x3000 512 ∷ []) (MoveBlock 0 5 ∷ []) }
    // The pieces of two Data Blocks that a Last Segment names are in their order, and the units, one for each block, are in the order of LBA.
    ensures two_data_blocks_stand_in_order { verdict_in guest (holding 0x6000 (data_block 0x3e00 512 ++ data_block 0x5000 512)) (by_sgl read 5 1 (last_segment 0x6000 32))
        ≡ reads (Run 0x3e00 512 ∷ Run 0x5000 512 ∷ []) (MoveBlock 0 5 ∷ MoveBlock 1 6 ∷ []) }
    // Runs that meet stay as the list named them.
    ensures runs_that_meet_are_not_joined { verdict_in guest (holding 0x6000 (data_block 0x3000 512 ++ data_block 0x3200 512)) (by_sgl read 5 1 (last_segment 0x6000 32))
        ≡ reads (Run 0x3000 512 ∷ Run 0x3200 512 ∷ []) (MoveBlock 0 5 ∷ MoveBlock 1 6 ∷ []) }
    // A Bit Bucket of a Read discards the second of two blocks.
    ensures a_bit_bucket_of_a_read_discards { verdict_in guest (holding 0x6000 (one_block ++ bit_bucket 512)) (by_sgl read 5 1 (last_segment 0x6000 32))
        ≡ reads (Run 0x3000 512 ∷ Bucket 512 ∷ []) (MoveBlock 0 5 ∷ MoveBlock 1 6 ∷ []) }
    // The same list on a Write names 512 bytes of 1,024: Data SGL Length Invalid.
    ensures a_bit_bucket_of_a_write_names_no_bytes { refusal_in (holding 0x6000 (one_block ++ bit_bucket 512)) (by_sgl write 5 1 (last_segment 0x6000 32)) ≡ Some 0x801f0007 }
    // Likewise on a Compare.
    ensures a_bit_bucket_of_a_compare_names_no_bytes { refusal_in (holding 0x6000 (one_block ++ bit_bucket 512)) (by_sgl compare 5 1 (last_segment 0x6000 32)) ≡ Some 0x801f0007 }
    // A Write whose source holds a Bit Bucket beside all its bytes goes: the bucket is nothing there.
    ensures a_bit_bucket_beside_the_source_of_a_write_is_nothing { verdict_in guest (holding 0x6000 (bit_bucket 512 ++ one_block)) (by_sgl write 5 (with_fua 0) (last_segment 0x6000 32))
        ≡ Go (record { opcode = opcode.Write; pieces = Run 0x3000 512 ∷ []; ranges = []; units = MoveBlock 0 5 ∷ []; fua = true }) }
    // A Write Zeroes has no buffer, and a unit for each block, which clears it.
    ensures write_zeroes_has_no_buffer { verdict_in guest zeros (by_sgl write_zeroes 5 1 (data_block 0x20000 24))
        ≡ goes_without_buffer opcode.WriteZeroes (ClearBlock 5 false ∷ ClearBlock 6 false ∷ []) }
    // A Flush has one unit, which keeps all blocks, and ignores the fields of a range of blocks and the deallocate bit.
    ensures a_flush_has_one_unit { verdict_in guest zeros (by_sgl flush 0x400000040 (with_fua 1) (data_block 0x20000 24)) ≡ goes_without_buffer opcode.Flush (KeepAll 64 ∷ []) }
{}
