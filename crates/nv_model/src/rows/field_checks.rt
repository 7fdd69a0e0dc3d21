//! Commands that are refused by their fields, and those at the edge that are not: the first example, changed in a field or two. The value at the
//! left is the last dword of the completion; none where the command goes.

ghost use Rattle.std.specs.Prelude.{◌≡◌, [], ◌∷◌, Some, None, false};
ghost use Rattle.nv_entry.specs.declared.opcode.IoOpcode.TheVariants as opcode;
ghost use Rattle.nv_model.specs.Judge.{ClearBlock, KeepAll};
ghost use Rattle.nv_model.specs.Private.{verdict_in};
ghost use Rattle.nv_model.specs.Rows.{by_sgl, command, compare, data_block, dataset_management, dword0, flush, goes_without_buffer};
ghost use Rattle.nv_model.specs.Rows.{guest, larger_refusal_in, one_block, read, refusal, refusal_in, write, write_zeroes, zeros};

/// The examples of this module, a clause each.
#[tactic(none)]
pub fn examples()
    // The first example goes.
    ensures the_first_example_goes { refusal_in zeros (command (dword0 read 0 1) 1 one_block 5 0 0) ≡ None }
    // PSDT 11b: Invalid Field in Command.
    ensures psdt_three { refusal_in zeros (command (dword0 read 0 3) 1 one_block 5 0 0) ≡ Some 0x80050007 }
    // PSDT 01b and 10b mean the same.
    ensures psdt_two_is_as_one { verdict_in guest zeros (command (dword0 read 0 2) 1 one_block 5 0 0) ≡ verdict_in guest zeros (command (dword0 read 0 1) 1 one_block 5 0 0) }
    // 257 blocks: Invalid Field in Command, though they are not in the namespace either.
    ensures more_blocks_than_a_transfer_may_have { refusal_in zeros (command (dword0 read 0 1) 1 one_block 5 0 256) ≡ Some 0x80050007 }
    // 256 blocks are a transfer.
    ensures as_many_blocks_as_a_transfer_may_have { larger_refusal_in zeros (by_sgl write 0 255 (data_block 0x20000 0x20000)) ≡ None }
    // NSID 2: Invalid Namespace or Format.
    ensures another_namespace { refusal_in zeros (command (dword0 read 0 1) 2 one_block 5 0 0) ≡ Some 0x80170007 }
    // An opcode that is not one of the six: Invalid Command Opcode.
    ensures an_unknown_opcode { refusal_in zeros (command (dword0 0x04 0 1) 1 one_block 5 0 0) ≡ Some 0x80030007 }
    // FUSE is checked before the opcode: Invalid Field in Command.
    ensures an_unknown_opcode_that_is_fused { refusal_in zeros (command (dword0 0x04 1 1) 1 one_block 5 0 0) ≡ Some 0x80050007 }
    // A Read that is the second of two fused commands, and one with the reserved value.
    ensures a_second_fused_command { refusal_in zeros (command (dword0 read 2 1) 1 one_block 5 0 0) ≡ Some 0x80050007 }
    ensures a_command_fused_otherwise { refusal_in zeros (command (dword0 read 3 1) 1 one_block 5 0 0) ≡ Some 0x80050007 }
    // The opcode is checked before NSID.
    ensures an_unknown_opcode_in_another_namespace { refusal_in zeros (command (dword0 0x04 0 1) 2 one_block 5 0 0) ≡ Some 0x80030007 }
    // NSID is checked before PSDT.
    ensures psdt_three_in_another_namespace { refusal_in zeros (command (dword0 read 0 3) 2 one_block 5 0 0) ≡ Some 0x80170007 }
    // PSDT is checked before the range of blocks.
    ensures psdt_three_out_of_range { refusal_in zeros (command (dword0 read 0 3) 1 one_block 64 0 0) ≡ Some 0x80050007 }
    // The range of blocks is checked before the list: LBA Out of Range.
    ensures a_data_block_outside_the_memory_out_of_range { refusal_in zeros (by_sgl read 64 0 (data_block 0x20000 512)) ≡ Some 0x81010007 }
    // The last block of a namespace of 64 blocks is there.
    ensures the_last_block { refusal_in zeros (by_sgl read 63 0 one_block) ≡ None }
    // The block after it is not.
    ensures the_last_block_and_one_more { refusal_in zeros (by_sgl read 63 1 (data_block 0x3000 1024)) ≡ Some 0x81010007 }
    // A range whose end would wrap at 2 to the 64 is not in the namespace.
    ensures a_range_whose_end_would_wrap { refusal_in zeros (by_sgl read 0xffffffffffffffff 1 (data_block 0x3000 1024)) ≡ Some 0x81010007 }
    // The high half of SLBA counts.
    ensures a_range_beyond_32_bits { refusal_in zeros (by_sgl read 0x100000005 0 one_block) ≡ Some 0x81010007 }
    // Write Zeroes checks neither PSDT nor a list.
    ensures write_zeroes_with_psdt_three { verdict_in guest zeros (command (dword0 write_zeroes 0 3) 1 (data_block 0x20000 512) 63 0 0)
        ≡ goes_without_buffer opcode.WriteZeroes (ClearBlock 63 false ∷ []) }
    // Write Zeroes has no transfer, so its 257 blocks are checked for their range alone.
    ensures write_zeroes_of_more_blocks_than_a_transfer_may_have { refusal_in zeros (by_sgl write_zeroes 0 256 one_block) ≡ Some 0x81010007 }
    // In its range it goes, with any number of blocks.
    ensures write_zeroes_of_300_blocks { refusal (verdict_in (record guest { blocks = 300 }) zeros (by_sgl write_zeroes 0 299 one_block)) ≡ None }
    // Flush checks neither PSDT nor a range.
    ensures a_flush_with_psdt_three { verdict_in guest zeros (command (dword0 flush 0 3) 1 (data_block 0x20000 512) 64 0 0) ≡ goes_without_buffer opcode.Flush (KeepAll 64 ∷ []) }
    // Flush knows no namespace but number 1.
    ensures a_flush_of_all_namespaces { refusal_in zeros (command (dword0 flush 0 0) 0xffffffff one_block 0 0 0) ≡ Some 0x80170007 }
    // Compare and Write are checked as Read is.
    ensures a_compare_out_of_range { refusal_in zeros (by_sgl compare 63 1 (data_block 0x3000 1024)) ≡ Some 0x81010007 }
    // Dataset Management checks PSDT.
    ensures dataset_management_with_psdt_three { refusal_in zeros (command (dword0 dataset_management 0 3) 1 one_block 31 4 0) ≡ Some 0x80050007 }
    // Commands that differ in their identifiers alone have one verdict.
    ensures the_identifier_has_no_bearing { verdict_in guest zeros (command 0x12344002 1 one_block 5 0 0) ≡ verdict_in guest zeros (command (dword0 read 0 1) 1 one_block 5 0 0) }
{}
