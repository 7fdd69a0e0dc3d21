//! What the units of a command move, and the marks that rise and fall with them.

ghost use Rattle.std.specs.Prelude.{◌≡◌, [], ◌∷◌, ◌++◌, replicate, true, false};
ghost use Rattle.nv_model.specs.declared.act.Act.TheVariants as act;
ghost use Rattle.nv_model.specs.declared.reply.Reply.TheVariants as reply;
ghost use Rattle.nv_model.specs.Rows.{by_sgl, data_block, with_fua};
ghost use Rattle.nv_model.specs.RowsRuns.{flush_of};
ghost use Rattle.nv_world_model.specs.Rows.{behind, completed, handed_on, host_bytes, host_number, in_device, moves, one_command, one_command_on, told, whole};
ghost use Rattle.nv_world_model.specs.RowsWorlds.{marks_at};
ghost use Rattle.nv_world_model.specs.declared.event.Event.TheVariants as event;

/// The examples of this module, a clause each.
#[tactic(none)]
pub fn examples()
    // A Compare through a bounce page, whose two blocks are what the buffer holds.
    ensures a_bounced_compare_of_equal_blocks { behind (whole 2)
        (one_command_on 0x3002 (replicate 512 0xed ++ replicate 512 0xee) (by_sgl 0x05 5 1 (data_block 0x3002 1024)))
        (λ w. handed_on w ++ host_bytes 0x4043ff 1 w ++ host_number 0x11200c 4 w ∷ [])
        ≡ 0x05 ∷ 0 ∷ 0x404000 ∷ 0 ∷ 1005 ∷ 0 ∷ 1 ∷ 0xee ∷ 0x00010007 ∷ [] }
    // One of which the last block's last byte differs.
    ensures a_bounced_compare_that_differs_in_its_last_byte { behind (whole 2)
        (one_command_on 0x3002 (replicate 512 0xed ++ replicate 511 0xee ++ 0xef ∷ []) (by_sgl 0x05 5 1 (data_block 0x3002 1024)))
        (host_number 0x11200c 4) ≡ 0x050b0007 }
    // That it differs is kept over a later unit that does not.
    ensures a_difference_is_kept { behind (in_device ++ event.DevMove 0 0 1 ∷ event.DevMove 0 0 0 ∷ completed)
        (one_command_on 0x3002 (replicate 512 0xed ++ replicate 511 0xee ++ 0xef ∷ []) (by_sgl 0x05 5 1 (data_block 0x3002 1024)))
        (host_number 0x11200c 4) ≡ 0x050b0007 }
    // The source of a direct Write is read where it lies as its unit moves.
    ensures a_direct_write_reads_where_its_bytes_lie { behind (in_device ++ event.Guest 0 (act.Store 0x3000 (0x22 ∷ [])) ∷ moves 1 ++ completed)
        (one_command_on 0x3000 (replicate 512 0x11) (by_sgl 0x01 5 0 (data_block 0x3000 512)))
        (λ w. handed_on w ++ w.disk 1005 0 ∷ w.disk 1005 1 ∷ w.disk 1005 511 ∷ w.disk 1006 0 ∷ host_number 0x11200c 4 w ∷ [])
        ≡ 0x01 ∷ 0 ∷ 0x103000 ∷ 0 ∷ 1005 ∷ 0 ∷ 0 ∷ 0x22 ∷ 0x11 ∷ 0x11 ∷ 0xee ∷ 0x00010007 ∷ [] }
    // The source of a bounced one is copied when it is submitted: what is stored there afterwards is not seen.
    ensures a_bounced_write_is_copied_when_submitted { behind (event.Take 0 1 0 ∷ event.Guest 0 (act.Store 0x3003 (0x22 ∷ [])) ∷ event.Submit 0 0
        ∷ event.Guest 0 (act.Store 0x3002 (0x33 ∷ 0x33 ∷ 0x33 ∷ [])) ∷ event.DevTake 0 ∷ moves 1 ++ completed)
        (one_command_on 0x3002 (replicate 512 0x11) (by_sgl 0x01 5 0 (data_block 0x3002 512)))
        (λ w. handed_on w ++ w.disk 1005 0 ∷ w.disk 1005 1 ∷ w.disk 1005 2 ∷ w.disk 1005 511 ∷ host_number 0x11200c 4 w ∷ [])
        ≡ 0x01 ∷ 0 ∷ 0x404000 ∷ 0 ∷ 1005 ∷ 0 ∷ 0 ∷ 0x11 ∷ 0x22 ∷ 0x11 ∷ 0x11 ∷ 0x00010007 ∷ [] }
    // Write Zeroes is handed on without a place, and clears its blocks alone.
    ensures write_zeroes_has_no_place { behind (whole 2) (one_command (by_sgl 0x08 5 1 (data_block 0x3002 1024)))
        (λ w. handed_on w ++ w.disk 1004 0 ∷ w.disk 1005 0 ∷ w.disk 1006 511 ∷ w.disk 1007 0 ∷ host_number 0x11200c 4 w ∷ [])
        ≡ 0x08 ∷ 0 ∷ 0 ∷ 0 ∷ 1005 ∷ 0 ∷ 1 ∷ 0xec ∷ 0 ∷ 0 ∷ 0xef ∷ 0x00010007 ∷ [] }
    // A Flush is handed on with every field zero but identifier and namespace.
    ensures a_flush_keeps_the_whole_disk { behind (whole 1) (one_command (flush_of 7))
        (λ w. handed_on w ++ host_number 0x400004 4 w ∷ host_number 0x11200c 4 w ∷ []) ≡ 0 ∷ 0 ∷ 0 ∷ 0 ∷ 0 ∷ 0 ∷ 0 ∷ 1 ∷ 0x00010007 ∷ [] }
    // So every block of the disk becomes kept, the other guest's too, and none past it.
    ensures the_other_guests_blocks_too { behind (whole 1) (one_command (flush_of 7)) (marks_at (0 ∷ 1000 ∷ 2000 ∷ 4095 ∷ 4096 ∷ []))
        ≡ true ∷ true ∷ true ∷ true ∷ false ∷ [] }
    // Its one unit moves once.
    ensures a_flush_has_one_unit { told (in_device ++ event.DevMove 0 0 1 ∷ event.DevMove 0 0 0 ∷ event.DevMove 0 0 0 ∷ []) (one_command (flush_of 7))
        ≡ replicate 3 reply.Done ++ reply.Idle ∷ reply.Done ∷ reply.Idle ∷ [] }
    // The physical entry of a Write with Force Unit Access has the bit, too.
    ensures force_unit_access_is_handed_on { behind in_device (one_command (by_sgl 0x01 5 (with_fua 0) (data_block 0x3000 512))) (host_number 0x400030 4)
        ≡ 0x40000000 }
    // Its block becomes kept.
    ensures force_unit_access_keeps { behind (whole 1) (one_command (by_sgl 0x01 5 (with_fua 0) (data_block 0x3000 512))) (marks_at (1004 ∷ 1005 ∷ 1006 ∷ []))
        ≡ false ∷ true ∷ false ∷ [] }
    // One without it ends that its block is kept.
    ensures a_write_clears_a_mark { behind (event.Keep 1005 ∷ whole 1) (one_command (by_sgl 0x01 5 0 (data_block 0x3000 512))) (marks_at (1005 ∷ []))
        ≡ false ∷ [] }
    // A Read leaves the mark.
    ensures a_read_leaves_a_mark { behind (event.Keep 1005 ∷ whole 1) (one_command (by_sgl 0x02 5 0 (data_block 0x3000 512))) (marks_at (1005 ∷ []))
        ≡ true ∷ [] }
    // A block of the disk may become kept at any time, alone.
    ensures a_block_becomes_kept { behind (event.Keep 4095 ∷ event.Keep 7 ∷ []) (one_command (flush_of 7)) (marks_at (6 ∷ 7 ∷ 8 ∷ 4094 ∷ 4095 ∷ []))
        ≡ false ∷ true ∷ false ∷ false ∷ true ∷ [] }
    // And none past the disk.
    ensures no_block_past_the_disk { told (event.Keep 4095 ∷ event.Keep 4096 ∷ []) (one_command (flush_of 7)) ≡ reply.Done ∷ reply.Idle ∷ [] }
{}
