//! The limit of 1,024 descriptors: the command's own is number 1. A memory of zeros holds Data Blocks of length 0.

ghost use Rattle.std.specs.Prelude.{◌≡◌, [], ◌∷◌, ◌++◌, ◌+◌, ◌*◌, Some};
ghost use Rattle.nv_entry.specs.declared.status_code.StatusCode.TheVariants.{InvalidSglSegment, SglTypeInvalid};
ghost use Rattle.nv_mem.specs.declared.piece.Piece.TheVariants.{Run};
ghost use Rattle.nv_model.specs.Judge.{MoveBlock};
ghost use Rattle.nv_model.specs.Private.{verdict_in};
ghost use Rattle.nv_model.specs.Reading.{Faulty, Spells, TooLong};
ghost use Rattle.nv_model.specs.Rows.{by_sgl, data_block, guest, holding, last_segment, one_block, read, reads, refusal_in, segment, sgl_in, sgl_within, type_four, zeros};

/// The examples of this module, a clause each.
#[tactic(none)]
pub fn examples()
    // A segment that names itself is too long.
    ensures a_segment_that_names_itself_is_too_long { sgl_in (holding 0x6000 (data_block 0 0 ++ segment 0x6000 32)) (segment 0x6000 32) ≡ TooLong }
    // What is too long is answered Internal Error, without DNR.
    ensures too_long_is_answered_internal_error { refusal_in (holding 0x6000 (data_block 0 0 ++ segment 0x6000 32)) (by_sgl read 5 0 (segment 0x6000 32)) ≡ Some 0x000d0007 }
    // 1,024 descriptors are read: the own one, and 1,023 of which the last alone has bytes.
    ensures as_many_descriptors_as_the_limit_go { verdict_in guest (holding (0x6000 + 16 * 1022) one_block) (by_sgl read 5 0 (last_segment 0x6000 (16 * 1023)))
        ≡ reads (Run 0x3000 512 ∷ []) (MoveBlock 0 5 ∷ []) }
    // One more is too long.
    ensures one_descriptor_more_is_too_long { refusal_in (holding (0x6000 + 16 * 1023) one_block) (by_sgl read 5 0 (last_segment 0x6000 (16 * 1024))) ≡ Some 0x000d0007 }
    // A fault of number 1,024 decides before the list is too long.
    ensures a_faulty_descriptor_at_the_limit_decides { refusal_in (holding (0x6000 + 16 * 1022) type_four) (by_sgl read 5 0 (last_segment 0x6000 (16 * 1024))) ≡ Some 0x80230007 }
    // A fault of number 1,025 does not: it is not read.
    ensures a_faulty_descriptor_behind_the_limit_is_not_read { refusal_in (holding (0x6000 + 16 * 1023) type_four) (by_sgl read 5 0 (last_segment 0x6000 (16 * 1024))) ≡ Some 0x000d0007 }
    // Under a limit of 1 a command's own Data Block spells its bytes.
    ensures a_limit_of_one_takes_one_data_block { sgl_within 1 zeros one_block ≡ Spells (Run 0x3000 512 ∷ []) }
    // Under a limit of 1 any array is too long.
    ensures a_limit_of_one_takes_no_array { sgl_within 1 (holding 0x6000 one_block) (last_segment 0x6000 16) ≡ TooLong }
    // Under a limit of 1 a faulty Segment is refused for its fault.
    ensures a_limit_of_one_refuses_a_faulty_segment { sgl_within 1 zeros (segment 0x6000 24) ≡ Faulty InvalidSglSegment }
    // Under a limit of 3 the fault of the third descriptor decides, and the fourth is not read.
    ensures a_limit_of_three_reads_three { sgl_within 3 (holding 0x6010 type_four) (last_segment 0x6000 48) ≡ Faulty SglTypeInvalid }
    // Under a limit of 1,025 a list of 1,025 descriptors spells its bytes.
    ensures a_limit_of_1025_takes_1025 { sgl_within 1025 (holding (0x6000 + 16 * 1023) one_block) (last_segment 0x6000 (16 * 1024)) ≡ Spells (Run 0x3000 512 ∷ []) }
    // Under a limit of 4,096 a segment that names itself is too long.
    ensures a_segment_that_names_itself_is_too_long_for_any_limit_tried { sgl_within 4096 (holding 0x6000 (data_block 0 0 ++ segment 0x6000 32)) (segment 0x6000 32) ≡ TooLong }
{}
