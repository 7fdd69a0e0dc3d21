//! Words of the laws, computed: what a list says that changes while it is read, its descriptors in order, and where bytes lie.

ghost use Rattle.std.specs.Prelude.{◌≡◌, [], ◌∷◌, ◌++◌, map, true};
ghost use Rattle.nv_mem.specs.declared.piece.Piece.TheVariants.{Run};
ghost use Rattle.nv_model.specs.Endings.{MayEndIn};
ghost use Rattle.nv_model.specs.Memory.{stored};
ghost use Rattle.nv_model.specs.PrpAddresses.{byte_address};
ghost use Rattle.nv_model.specs.Reading.{Spells};
ghost use Rattle.nv_model.specs.Rows.{bit_bucket, by_sgl, data_block, guest_memory, holding, last_segment, outcome_in, prp_entries, read, read_of, segment};
ghost use Rattle.nv_model.specs.Sgl.{read_sgl};
ghost use Rattle.nv_model.specs.SglSequence.{first_members};
ghost use Rattle.nv_model.specs.Transcript.{Settled, Wanted, in_transcript};

/// A list that names itself, and is another one when it is read again: some answers lead to what that one spells.
#[tactic(none)]
pub fn a_list_that_changes_while_it_is_read()
    ensures { MayEndIn (read_sgl guest_memory true 1024 (segment 0x6000 32)) (Spells (Run 0x3000 512 ∷ [])) }
{}

/// And a transcript of both reads settles in it.
#[tactic(none)]
pub fn two_reads_of_a_list_that_changes()
    ensures { in_transcript (read_sgl guest_memory true 1024 (segment 0x6000 32)) []
        (read_of 0x6000 (data_block 0 0 ++ segment 0x6000 32) ∷ read_of 0x6000 (data_block 0x3000 512 ++ bit_bucket 0) ∷ [])
        ≡ Settled (Spells (Run 0x3000 512 ∷ [])) }
{}

/// A read of as many bytes at another address does not meet what is wanted.
#[tactic(none)]
pub fn a_read_at_another_address_does_not_meet_it()
    ensures { outcome_in (by_sgl read 5 1 (last_segment 0x6000 32)) (read_of 0x5000 (data_block 0x3e00 512 ++ data_block 0x5000 512) ∷ []) ≡ Wanted 0x6000 32 }
{}

/// The descriptors of a list, of which six are asked for and there are four: the command's own, those of a segment, and that of the last segment.
#[tactic(none)]
pub fn the_descriptors_of_a_list_in_order()
    ensures { map (λ m. m.descriptor)
        (first_members guest_memory (stored (holding 0x6000 (data_block 0x3000 512 ++ last_segment 0x7000 16)) 0x7000 (bit_bucket 64)) (segment 0x6000 32) 6)
        ≡ segment 0x6000 32 ∷ data_block 0x3000 512 ∷ last_segment 0x7000 16 ∷ bit_bucket 64 ∷ [] }
{}

/// The bytes of a list that begins in the last slot of a memory page: in PRP1's page, the first after it, and the last of all.
#[tactic(none)]
pub fn bytes_of_three_pages_by_a_list_that_goes_on()
    ensures { map (byte_address (stored (holding 0x6ff8 (prp_entries (0x7000 ∷ []))) 0x7000 (prp_entries (0x8000 ∷ 0x9000 ∷ []))) 0x3004 0x6ff8 12284)
        (0 ∷ 4091 ∷ 4092 ∷ 8187 ∷ 8188 ∷ 12283 ∷ [])
        ≡ 0x3004 ∷ 0x3fff ∷ 0x8000 ∷ 0x8fff ∷ 0x9000 ∷ 0x9fff ∷ [] }
{}
