//! Lists of SGL descriptors that spell where the bytes of a transfer lie.

ghost use Rattle.std.specs.Prelude.{◌≡◌, [], ◌∷◌, ◌++◌, false};
ghost use Rattle.nv_mem.specs.declared.piece.Piece.TheVariants.{Run, Bucket};
ghost use Rattle.nv_model.specs.Dialogue.{in_memory};
ghost use Rattle.nv_model.specs.Memory.{stored};
ghost use Rattle.nv_model.specs.Reading.{Spells};
ghost use Rattle.nv_model.specs.Sgl.{read_sgl};
ghost use Rattle.nv_model.specs.Rows.{bit_bucket, data_block, guest_memory, holding, last_segment, segment, sgl_in, zeros};

/// The examples of this module, a clause each.
#[tactic(none)]
pub fn examples()
    // An array that a Segment named and whose last descriptor is a Data Block ends the list.
    ensures an_array_of_a_segment_that_ends_in_a_data_block_ends_the_list { sgl_in (holding 0x6000 (data_block 0x3000 512 ++ data_block 0x5000 512)) (segment 0x6000 32)
        ≡ Spells (Run 0x3000 512 ∷ Run 0x5000 512 ∷ []) }
    // A Segment at the end of an array goes on with the array that it names, and so does a Last Segment at the end of that.
    ensures a_segment_goes_on_with_the_array_that_it_names { sgl_in
        (stored (stored (holding 0x6000 (data_block 0x3000 512 ++ segment 0x7000 32)) 0x7000 (bit_bucket 24 ++ last_segment 0x8008 16)) 0x8008 (data_block 0x5000 8))
        (segment 0x6000 32)
        ≡ Spells (Run 0x3000 512 ∷ Bucket 24 ∷ Run 0x5000 8 ∷ []) }
    // A Data Block of length 0 at an unmapped address is no fault, and names nothing.
    ensures a_data_block_of_length_zero_is_not_looked_at { sgl_in zeros (data_block 0xffffffffffffffff 0) ≡ Spells [] }
    // A Data Block may lie at the end of the memory.
    ensures a_data_block_at_the_end_of_the_memory_is_mapped { sgl_in zeros (data_block 0x1fe01 511) ≡ Spells (Run 0x1fe01 511 ∷ []) }
    // A Bit Bucket of a source names nothing.
    ensures a_bit_bucket_of_a_source_is_nothing { in_memory zeros (read_sgl guest_memory false 1024 (bit_bucket 512)) ≡ Spells [] }
    // A Bit Bucket may be longer than any memory.
    ensures a_bit_bucket_of_a_destination_has_its_length { sgl_in zeros (bit_bucket 0xffffffff) ≡ Spells (Bucket 0xffffffff ∷ []) }
    // One of length 0 names nothing.
    ensures a_bit_bucket_of_length_zero_is_nothing { sgl_in zeros (bit_bucket 0) ≡ Spells [] }
{}
