//! Lists of SGL descriptors that are refused, each on a Read of one block with command identifier 7: the last dword of its completion.

ghost use Rattle.std.specs.Prelude.{◌≡◌, ◌++◌, Some};
ghost use Rattle.nv_model.specs.Rows.{bit_bucket, by_sgl, data_block, descriptor, holding, last_segment, one_block, read, refusal_in, segment, type_four, zeros};

/// The examples of this module, a clause each.
#[tactic(none)]
pub fn examples()
    // A Segment whose length is not a multiple of 16: Invalid SGL Segment Descriptor.
    ensures a_segment_of_length_24 { refusal_in zeros (by_sgl read 5 0 (segment 0x6000 24)) ≡ Some 0x801b0007 }
    // A Segment of no bytes: Invalid SGL Segment Descriptor.
    ensures a_segment_of_length_zero { refusal_in zeros (by_sgl read 5 0 (segment 0x6000 0)) ≡ Some 0x801b0007 }
    // A Segment that is not last in its array: Invalid Number of SGL Descriptors.
    ensures a_segment_that_is_not_last_in_its_array { refusal_in (holding 0x6000 (segment 0x7000 16 ++ one_block)) (by_sgl read 5 0 (segment 0x6000 32)) ≡ Some 0x801d0007 }
    // The same array, named by a Last Segment: Invalid SGL Segment Descriptor.
    ensures a_segment_in_an_array_of_a_last_segment { refusal_in (holding 0x6000 (segment 0x7000 16 ++ one_block)) (by_sgl read 5 0 (last_segment 0x6000 32)) ≡ Some 0x801b0007 }
    // A Last Segment that is last in an array that a Last Segment named is refused like it.
    ensures a_last_segment_at_the_end_of_an_array_of_a_last_segment { refusal_in (holding 0x6000 (one_block ++ last_segment 0x7000 16)) (by_sgl read 5 0 (last_segment 0x6000 32)) ≡ Some 0x801b0007 }
    // A Segment is checked for its place in its array before its length.
    ensures a_segment_of_length_24_that_is_not_last_in_its_array { refusal_in (holding 0x6000 (segment 0x7000 24 ++ one_block)) (by_sgl read 5 0 (segment 0x6000 32)) ≡ Some 0x801d0007 }
    // An array's address that is not a multiple of 8: Invalid SGL Segment Descriptor.
    ensures an_array_whose_address_is_not_a_multiple_of_eight { refusal_in (holding 0x6004 one_block) (by_sgl read 5 0 (last_segment 0x6004 16)) ≡ Some 0x801b0007 }
    // An address that is a multiple of 8, but not of 16, will do.
    ensures an_array_of_a_wrong_type_at_a_multiple_of_eight { refusal_in (holding 0x6008 type_four) (by_sgl read 5 0 (last_segment 0x6008 16)) ≡ Some 0x80230007 }
    // An array that leaves the memory: Data Transfer Error.
    ensures an_array_that_leaves_the_memory { refusal_in (holding 0x1fff0 one_block) (by_sgl read 5 0 (last_segment 0x1fff0 32)) ≡ Some 0x80090007 }
    // Its length decides before its bytes are checked.
    ensures an_array_of_length_24_that_is_not_mapped { refusal_in zeros (by_sgl read 5 0 (last_segment 0x20000 24)) ≡ Some 0x801b0007 }
    // And so does its address.
    ensures an_array_at_a_multiple_of_four_that_is_not_mapped { refusal_in zeros (by_sgl read 5 0 (last_segment 0x20004 16)) ≡ Some 0x801b0007 }
    // A descriptor of type 4h: SGL Descriptor Type Invalid.
    ensures a_descriptor_of_type_four { refusal_in zeros (by_sgl read 5 0 type_four) ≡ Some 0x80230007 }
    // A Data Block of a subtype other than Address likewise.
    ensures a_data_block_of_subtype_one { refusal_in zeros (by_sgl read 5 0 (descriptor 0x01 0x3000 512)) ≡ Some 0x80230007 }
    // A Data Block outside the memory: Data Transfer Error.
    ensures a_data_block_outside_the_memory { refusal_in zeros (by_sgl read 5 0 (data_block 0x20000 512)) ≡ Some 0x80090007 }
    // A Data Block of which the last byte is outside likewise.
    ensures a_data_block_that_leaves_the_memory { refusal_in zeros (by_sgl read 5 0 (data_block 0x1fe01 512)) ≡ Some 0x80090007 }
    // The first of two faulty descriptors decides.
    ensures a_data_block_outside_the_memory_before_a_type { refusal_in (holding 0x6000 (data_block 0x20000 512 ++ type_four)) (by_sgl read 5 0 (last_segment 0x6000 32)) ≡ Some 0x80090007 }
    // And so it does the other way round.
    ensures a_type_before_a_data_block_outside_the_memory { refusal_in (holding 0x6000 (type_four ++ data_block 0x20000 512)) (by_sgl read 5 0 (last_segment 0x6000 32)) ≡ Some 0x80230007 }
    // A list of too few bytes: Data SGL Length Invalid.
    ensures a_list_of_too_few_bytes { refusal_in zeros (by_sgl read 5 0 (data_block 0x3000 511)) ≡ Some 0x801f0007 }
    // A list of too many bytes likewise; a Bit Bucket of a Read counts.
    ensures a_list_of_too_many_bytes { refusal_in (holding 0x6000 (one_block ++ bit_bucket 1)) (by_sgl read 5 0 (last_segment 0x6000 32)) ≡ Some 0x801f0007 }
    // A faulty descriptor decides before the number of bytes.
    ensures a_faulty_list_of_too_few_bytes { refusal_in zeros (by_sgl read 5 0 (data_block 0x20000 511)) ≡ Some 0x80090007 }
{}
