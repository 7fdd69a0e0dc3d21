//! Commands of a guest whose namespace has several extents, and what each of their physical commands is.

ghost use Rattle.std.specs.Prelude.{◌≡◌, [], ◌∷◌, ◌++◌, true, false, Some};
ghost use Rattle.nv_entry.specs.StatusCode.{refused_with};
ghost use Rattle.nv_entry.specs.declared.status_code.StatusCode.TheVariants as code;
ghost use Rattle.nv_model.specs.Rows.{block_range, by_sgl, command, data_block, dataset_management, dword0, manage, read_of, with_fua};
ghost use Rattle.nv_world_model.specs.Plan.{Answer};
ghost use Rattle.nv_world_model.specs.Share.{tags_of_entry};
ghost use Rattle.nv_world_model.specs.RowsShares.{joined, numbers_sent, planned_by, ranges_sent, sent, shares_by_reads, three_joined};

/// The examples of this module, a clause each: of each physical command PRP1, PRP2 and CDW10 to CDW12, or its ranges, or the numbers of its
/// units among those of the guest's command.
#[tactic(none)]
pub fn examples()
    // A Read of the last block of one extent and of the first of the next: each from and to where it lies.
    ensures a_read_over_the_join { let entry = by_sgl 0x02 31 1 (data_block 0x3e00 1024) in sent joined entry (shares_by_reads joined entry [])
        ≡ (0x103e00 ∷ 0 ∷ 1031 ∷ 0 ∷ 0 ∷ []) ∷ (0x104000 ∷ 0 ∷ 3000 ∷ 0 ∷ 0 ∷ []) ∷ [] }
    ensures its_units_one_by_one { let entry = by_sgl 0x02 31 1 (data_block 0x3e00 1024) in numbers_sent (shares_by_reads joined entry [])
        ≡ (0 ∷ []) ∷ (1 ∷ []) ∷ [] }
    // To an odd place, by the bounce pages of each tag.
    ensures a_bounced_read_over_the_join { let entry = by_sgl 0x02 31 1 (data_block 0x3002 1024) in sent joined entry (shares_by_reads joined entry [])
        ≡ (0x404000 ∷ 0 ∷ 1031 ∷ 0 ∷ 0 ∷ []) ∷ (0x425000 ∷ 0 ∷ 3000 ∷ 0 ∷ 0 ∷ []) ∷ [] }
    // A Read that ends at the join, and the one after it, are one command each.
    ensures a_read_up_to_the_join { let entry = by_sgl 0x02 30 1 (data_block 0x3000 1024) in sent joined entry (shares_by_reads joined entry [])
        ≡ (0x103000 ∷ 0 ∷ 1030 ∷ 0 ∷ 1 ∷ []) ∷ [] }
    ensures a_read_of_the_last_block { let entry = by_sgl 0x02 63 0 (data_block 0x3000 512) in sent joined entry (shares_by_reads joined entry [])
        ≡ (0x103000 ∷ 0 ∷ 3031 ∷ 0 ∷ 0 ∷ []) ∷ [] }
    // Past the last block nothing is handed on.
    ensures past_the_last_block { planned_by (by_sgl 0x02 63 1 (data_block 0x3000 1024)) [] ≡ Some (Answer (refused_with code.LbaOutOfRange)) }
    // A Write Zeroes over three extents, with FUA.
    ensures a_write_zeroes_over_three { let entry = by_sgl 0x08 29 (with_fua 5) (data_block 0 0) in
        sent three_joined entry (shares_by_reads three_joined entry [])
        ≡ (0 ∷ 0 ∷ 1029 ∷ 0 ∷ 0x40000001 ∷ []) ∷ (0 ∷ 0 ∷ 500 ∷ 0 ∷ 0x40000000 ∷ []) ∷ (0 ∷ 0 ∷ 3000 ∷ 0 ∷ 0x40000002 ∷ []) ∷ [] }
    // A Flush is one command.
    ensures a_flush_is_one { let entry = by_sgl 0x00 0 0 (data_block 0 0) in sent joined entry (shares_by_reads joined entry [])
        ≡ (0 ∷ 0 ∷ 0 ∷ 0 ∷ 0 ∷ []) ∷ [] }
    // Ranges 30 length 4 and 0 length 1: the first crosses the join, and the second is in the first extent.
    ensures ranges_over_the_join { let entry = manage true 1 (data_block 0x3000 32) in
        sent joined entry (shares_by_reads joined entry (read_of 0x3000 (block_range 30 4 ++ block_range 0 1) ∷ []))
        ≡ (0x404000 ∷ 0 ∷ 1 ∷ 4 ∷ 0 ∷ []) ∷ (0x425000 ∷ 0 ∷ 0 ∷ 4 ∷ 0 ∷ []) ∷ [] }
    ensures as_the_disk_has_them { let entry = manage true 1 (data_block 0x3000 32) in
        ranges_sent joined (shares_by_reads joined entry (read_of 0x3000 (block_range 30 4 ++ block_range 0 1) ∷ []))
        ≡ (block_range 1030 2 ++ block_range 1000 1) ∷ block_range 3000 2 ∷ [] }
    ensures and_their_units { let entry = manage true 1 (data_block 0x3000 32) in
        numbers_sent (shares_by_reads joined entry (read_of 0x3000 (block_range 30 4 ++ block_range 0 1) ∷ []))
        ≡ (0 ∷ 1 ∷ 4 ∷ []) ∷ (2 ∷ 3 ∷ []) ∷ [] }
    // A range of no blocks goes to the first extent, wherever it starts.
    ensures a_range_of_no_blocks { let entry = manage true 1 (data_block 0x3000 32) in
        ranges_sent joined (shares_by_reads joined entry (read_of 0x3000 (block_range 40 0 ++ block_range 33 2) ∷ []))
        ≡ block_range 1040 0 ∷ block_range 3001 2 ∷ [] }
    ensures has_no_units { let entry = manage true 1 (data_block 0x3000 32) in
        numbers_sent (shares_by_reads joined entry (read_of 0x3000 (block_range 40 0 ++ block_range 33 2) ∷ []))
        ≡ [] ∷ (0 ∷ 1 ∷ []) ∷ [] }
    // A range over three extents.
    ensures a_range_over_three { let entry = manage false 0 (data_block 0x3000 16) in
        ranges_sent three_joined (shares_by_reads three_joined entry (read_of 0x3000 (block_range 30 4) ∷ []))
        ≡ block_range 1030 1 ∷ block_range 500 1 ∷ block_range 3000 2 ∷ [] }
    ensures goes_on_in_the_next { let entry = manage false 0 (data_block 0x3000 16) in
        numbers_sent (shares_by_reads three_joined entry (read_of 0x3000 (block_range 30 4) ∷ []))
        ≡ (0 ∷ []) ∷ (1 ∷ []) ∷ (2 ∷ 3 ∷ []) ∷ [] }
    // An extent that no range meets has a share without ranges.
    ensures a_share_without_ranges { let entry = manage true 0 (data_block 0x3000 16) in
        ranges_sent joined (shares_by_reads joined entry (read_of 0x3000 (block_range 0 1) ∷ []))
        ≡ block_range 1000 1 ∷ [] ∷ [] }
    // Tags by the fields: two over the join, and one up to it.
    ensures tags_over_the_join { tags_of_entry joined (by_sgl 0x02 31 1 (data_block 0x3e00 1024)) ≡ 2 }
    ensures tags_up_to_the_join { tags_of_entry joined (by_sgl 0x02 30 1 (data_block 0x3000 1024)) ≡ 1 }
    // Three over three extents.
    ensures tags_over_three { tags_of_entry three_joined (by_sgl 0x08 29 5 (data_block 0 0)) ≡ 3 }
    // As many as extents for Dataset Management, whatever its ranges are.
    ensures tags_of_ranges { tags_of_entry joined (manage true 0 (data_block 0x3000 16)) ≡ 2 }
    // One for a Flush.
    ensures tags_of_a_flush { tags_of_entry joined (by_sgl 0x00 0 0 (data_block 0 0)) ≡ 1 }
    // One for what the fields refuse: a block past the last, a namespace that is not there, and an unknown opcode.
    ensures tags_past_the_last_block { tags_of_entry joined (by_sgl 0x02 63 1 (data_block 0x3000 1024)) ≡ 1 }
    ensures tags_in_another_namespace { tags_of_entry joined (command (dword0 dataset_management 0 1) 2 (data_block 0x3000 16) 0 4 0) ≡ 1 }
    ensures tags_of_an_unknown_opcode { tags_of_entry joined (by_sgl 0x7f 31 1 (data_block 0x3e00 1024)) ≡ 1 }
{}
