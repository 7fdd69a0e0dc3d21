//! Worked examples of one command, computed from the definitions: what is a run of it, what is none, and which commands every controller
//! carries out.

ghost use Rattle.std.specs.Prelude.{◌≡◌, ◌+◌, false, true};
ghost use Rattle.nv_entry.specs.Status.{StatusField};
ghost use Rattle.nv_entry.specs.StatusCode.{done_with, refused_with};
ghost use Rattle.nv_entry.specs.declared.status_code.StatusCode.TheVariants.{LbaOutOfRange, Success};
ghost use Rattle.nv_model.specs.Rows.{bit_bucket, by_prp, by_sgl, command, compare, data_block, descriptor, dword0, first_example};
ghost use Rattle.nv_model.specs.Rows.{flush, last_segment, manage, one_block, read, segment, type_four, with_fua, write, write_zeroes};
ghost use Rattle.nv_flat.specs.Examples.{block_read, block_read_elsewhere, block_read_in_part, block_written, block_written_and_kept, read_to_half, small, write_from_half};
ghost use Rattle.nv_disk.specs.Flat.{Flat, moved_of};
ghost use Rattle.nv_flat.specs.One.{IsRun, is_plain};

/// A Read of one block succeeds and leaves its bytes in its buffer.
#[tactic(none)]
pub fn a_read_has_a_run()
    ensures { IsRun small (read_to_half 1) (done_with Success) block_read }
{}

/// And nothing else is a run of it.
#[tactic(none)]
pub fn a_read_has_no_other_run()
    ensures { (st : StatusField) (new : Flat) → IsRun small (read_to_half 1) st new →
        (st ≡ done_with Success) × (moved_of new false ≡ moved_of block_read false) }
{}

/// No run of it moves nothing, moves the block elsewhere, or moves it but for its last byte, whatever the status.
#[tactic(none)]
pub fn a_read_moves_its_bytes()
    ensures nothing { (st : StatusField) → IsRun small (read_to_half 1) st small → ⊥ }
    ensures elsewhere { (st : StatusField) → IsRun small (read_to_half 1) st block_read_elsewhere → ⊥ }
    ensures in_part { (st : StatusField) → IsRun small (read_to_half 1) st block_read_in_part → ⊥ }
{}

/// A Write of one block without FUA succeeds: the block has the buffer's bytes, and is not kept.
#[tactic(none)]
pub fn a_write_has_a_run()
    ensures { IsRun small write_from_half (done_with Success) block_written }
{}

/// And nothing else is a run of it.
#[tactic(none)]
pub fn a_write_has_no_other_run()
    ensures { (st : StatusField) (new : Flat) → IsRun small write_from_half st new →
        (st ≡ done_with Success) × (moved_of new false ≡ moved_of block_written false) }
{}

/// No run of it writes nothing, or leaves the block kept.
#[tactic(none)]
pub fn a_write_writes_block_and_mark()
    ensures nothing { (st : StatusField) → IsRun small write_from_half st small → ⊥ }
    ensures kept { (st : StatusField) → IsRun small write_from_half st block_written_and_kept → ⊥ }
{}

/// A Read of the block after the last is refused, and changes nothing.
#[tactic(none)]
pub fn a_read_past_the_end_has_a_run()
    ensures { IsRun small (read_to_half 2) (refused_with LbaOutOfRange) small }
{}

/// And nothing else is a run of it.
#[tactic(none)]
pub fn a_read_past_the_end_has_no_other_run()
    ensures { (st : StatusField) (new : Flat) → IsRun small (read_to_half 2) st new →
        (st ≡ refused_with LbaOutOfRange) × (moved_of new false ≡ moved_of small false) }
{}

/// A command has one status: a Read that goes is not refused, and one that is refused does not succeed.
#[tactic(none)]
pub fn a_status_is_the_commands()
    ensures goes { (new : Flat) → IsRun small (read_to_half 1) (refused_with LbaOutOfRange) new → ⊥ }
    ensures refused { (new : Flat) → IsRun small (read_to_half 2) (done_with Success) new → ⊥ }
{}

/// Which commands every controller carries out, a clause each.
#[tactic(none)]
pub fn plain_commands()
    // A Read of one block by one Data Block is plain, and so is a Write.
    ensures the_first_example { is_plain first_example ≡ true }
    ensures a_write { is_plain (by_sgl write 5 0 one_block) ≡ true }
    // So is one of 8 blocks, with or without FUA, from anywhere; one of 9 is not.
    ensures eight_blocks { is_plain (by_sgl read 5 7 (data_block 0x3000 4096)) ≡ true }
    ensures eight_blocks_kept { is_plain (by_sgl write 0x100000005 (with_fua 7) (data_block 0x3000 4096)) ≡ true }
    ensures a_read_that_keeps { is_plain (by_sgl read 5 (with_fua 0) one_block) ≡ true }
    ensures nine_blocks { is_plain (by_sgl read 5 8 (data_block 0x3000 4608)) ≡ false }
    ensures nine_blocks_kept { is_plain (by_sgl write 5 (with_fua 8) (data_block 0x3000 4608)) ≡ false }
    ensures most_blocks { is_plain (by_sgl write 5 0xffff (data_block 0x3000 4096)) ≡ false }
    // No other command is.
    ensures a_compare { is_plain (by_sgl compare 5 0 one_block) ≡ false }
    ensures a_write_zeroes { is_plain (by_sgl write_zeroes 5 0 one_block) ≡ false }
    ensures a_flush { is_plain (command (dword0 flush 0 1) 1 one_block 0 0 0) ≡ false }
    ensures a_dataset_management { is_plain (manage true 0 (data_block 0x3000 16)) ≡ false }
    ensures an_unknown_opcode { is_plain (by_sgl 0x03 5 0 one_block) ≡ false }
    // No command by PRP is, whatever its PRP fields hold.
    ensures by_region_pages { is_plain (by_prp read 5 0 0x3000 0) ≡ false }
    ensures by_two_region_pages { is_plain (by_prp write 5 7 0x3200 0x5000) ≡ false }
    // Of scatter gather lists the own descriptor is a Data Block, wherever it lies, however long it is and whatever its subtype.
    ensures a_segment { is_plain (by_sgl read 5 0 (segment 0x6000 32)) ≡ false }
    ensures a_last_segment { is_plain (by_sgl read 5 0 (last_segment 0x6000 16)) ≡ false }
    ensures a_bit_bucket { is_plain (by_sgl read 5 0 (bit_bucket 512)) ≡ false }
    ensures a_reserved_type { is_plain (by_sgl write 5 0 type_four) ≡ false }
    ensures no_bytes { is_plain (by_sgl read 5 0 (data_block 0 0)) ≡ true }
    ensures bytes_that_are_too_many { is_plain (by_sgl read 5 0 (data_block 0x3001 1024)) ≡ true }
    ensures bytes_beyond_every_memory { is_plain (by_sgl write 5 0 (data_block 0xfffffffffffffff0 512)) ≡ true }
    ensures a_subtype { is_plain (by_sgl read 5 0 (descriptor 0x01 0x3000 512)) ≡ true }
    // PSDT 10b is a scatter gather list, too. What the fields refuse is plain: PSDT 11b, another namespace, a fused command.
    ensures metadata_by_list { is_plain (command (dword0 read 0 2) 1 one_block 5 0 0) ≡ true }
    ensures a_reserved_data_pointer { is_plain (command (dword0 read 0 3) 1 one_block 5 0 0) ≡ true }
    ensures another_namespace { is_plain (command (dword0 read 0 1) 2 one_block 5 0 0) ≡ true }
    ensures a_fused_command { is_plain (command (dword0 write 1 1) 1 one_block 5 0 0) ≡ true }
    ensures another_identifier { is_plain (command (dword0 write 0 1 + 0x80000) 1 one_block 5 0 0) ≡ true }
{}
