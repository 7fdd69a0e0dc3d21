//! What the stories don't come to: parts with lists of their own, FUA, a bucket over a join, and a namespace of eight extents.

ghost use Rattle.std.specs.Prelude.{◌≡◌, [], ◌∷◌, ◌++◌, false, true};
ghost use Rattle.std.specs.List.{range_with_len};
ghost use Rattle.nv_model.specs.Rows.{with_fua};
ghost use Rattle.nv_world_model.specs.declared.event.Event.TheVariants as event;
ghost use Rattle.nv_world_model.specs.Rows.{host_number};
ghost use Rattle.nv_world_model.specs.RowsExtents.{answer, behind, both_entries, ends, in_device, on_disk, one_command};
ghost use Rattle.nv_world_model.specs.World.{group};
ghost use Rattle.nv_examples.specs.extents.Edges.{are_kept, behind_eight, both_quarters, eight_bytes, eight_end, eight_in_device, list_at, read_all};
ghost use Rattle.nv_examples.specs.extents.Edges.{read_around, reads_around, starts, write_with_fua};

/// A clause each. Of a physical entry the opcode, the identifier, PRP1, PRP2, and CDW10 to CDW12 are given.
#[tactic(none)]
pub fn parts()
    // Each part of five pages has a PRP list of its own, in its tag's list page; the second begins where the first ends, within a page.
    ensures a_list_for_each { behind (event.Take 0 1 0 ∷ event.Submit 0 0 ∷ []) (one_command read_all) both_entries
        ≡ (0x02 ∷ 0 ∷ 0x104200 ∷ 0x403000 ∷ 1000 ∷ 0 ∷ 31 ∷ []) ∷ (0x02 ∷ 1 ∷ 0x108200 ∷ 0x424000 ∷ 3000 ∷ 0 ∷ 31 ∷ []) ∷ [] }
    ensures the_first_list { behind (event.Take 0 1 0 ∷ event.Submit 0 0 ∷ []) (one_command read_all) (list_at 0x403000 4)
        ≡ 0x105000 ∷ 0x106000 ∷ 0x107000 ∷ 0x108000 ∷ [] }
    ensures the_second_list { behind (event.Take 0 1 0 ∷ event.Submit 0 0 ∷ []) (one_command read_all) (list_at 0x424000 4)
        ≡ 0x109000 ∷ 0x10a000 ∷ 0x10b000 ∷ 0x10c000 ∷ [] }
    // The last block of each part is block 31 of its extent: 1031 and 3031 of the disk.
    ensures the_last_of_the_first { behind (in_device ++ event.DevMove 0 0 31 ∷ []) (one_command read_all) (host_number 0x108000 1) ≡ 0x07 }
    ensures the_last_of_the_second { behind (in_device ++ event.DevMove 0 1 31 ∷ []) (one_command read_all) (host_number 0x10c000 1) ≡ 0xd7 }
    // FUA is in each part's CDW12, beside its own NLB, and keeps the blocks of both.
    ensures fua_in_each { behind (event.Take 0 1 0 ∷ event.Submit 0 0 ∷ []) (one_command write_with_fua) both_entries
        ≡ (0x01 ∷ 0 ∷ 0x103e00 ∷ 0 ∷ 1031 ∷ 0 ∷ with_fua 0 ∷ []) ∷ (0x01 ∷ 1 ∷ 0x104000 ∷ 0 ∷ 3000 ∷ 0 ∷ with_fua 0 ∷ []) ∷ [] }
    ensures fua_keeps_both { behind (in_device ++ ends 0 ++ ends 1) (one_command write_with_fua) (are_kept (1030 ∷ 1031 ∷ 1032 ∷ 2999 ∷ 3000 ∷ 3001 ∷ []))
        ≡ false ∷ true ∷ false ∷ false ∷ true ∷ false ∷ [] }
    ensures both_are_written { behind (in_device ++ ends 0 ++ ends 1) (one_command write_with_fua) (on_disk (1031 ∷ 3000 ∷ [])) ≡ 0 ∷ 0 ∷ [] }
    // A bucket over the join is cut, too: half of it is the first part's, and half the second's.
    ensures around_a_bucket { behind reads_around read_around both_quarters
        ≡ (0 ∷ 0x07 ∷ []) ∷ (0x07 ∷ 0 ∷ []) ∷ (0 ∷ 0xb8 ∷ []) ∷ (0xb8 ∷ 0 ∷ []) ∷ [] }
{}

/// A command over eight extents, a clause each.
#[tactic(none)]
pub fn eight_parts()
    // It has eight tags, and an entry for each, in the order of the namespace.
    ensures its_tags { behind_eight (event.Take 0 1 0 ∷ []) (λ w. group w 0 0) ≡ range_with_len 0 8 }
    ensures its_entries { behind_eight (event.Take 0 1 0 ∷ event.Submit 0 0 ∷ []) starts
        ≡ (0x00002 ∷ 807 ∷ []) ∷ (0x10002 ∷ 706 ∷ []) ∷ (0x20002 ∷ 605 ∷ []) ∷ (0x30002 ∷ 504 ∷ []) ∷ (0x40002 ∷ 403 ∷ []) ∷ (0x50002 ∷ 302 ∷ [])
        ∷ (0x60002 ∷ 201 ∷ []) ∷ (0x70002 ∷ 100 ∷ []) ∷ [] }
    // After all of them it is completed once, and each block is where it belongs.
    ensures its_blocks { behind_eight (eight_in_device ++ eight_end) eight_bytes ≡ 39 ∷ 194 ∷ 93 ∷ 248 ∷ 147 ∷ 46 ∷ 201 ∷ 100 ∷ [] }
    ensures its_completion { behind_eight (eight_in_device ++ eight_end) answer ≡ 0x00010007 }
{}
