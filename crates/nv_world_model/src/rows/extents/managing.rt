//! Dataset Management over several extents.

ghost use Rattle.std.specs.Prelude.{◌≡◌, [], ◌∷◌, ◌++◌, map};
ghost use Rattle.nv_model.specs.Rows.{block_range};
ghost use Rattle.nv_model.specs.Private.{MoveStep};
ghost use Rattle.nv_model.specs.declared.reply.Reply.TheVariants as reply;
ghost use Rattle.nv_world_model.specs.declared.event.Event.TheVariants as event;
ghost use Rattle.nv_world_model.specs.RowsExtents.{answer, behind, both_entries, deallocating, ends, on_disk, one_command_on, ranges_in, steps_of_each, tags_of, told};

/// The examples of this module, a clause each: ranges 30 length 4 and 0 length 1, of which the first crosses the join, or one of them alone.
#[tactic(none)]
pub fn examples()
    // It takes a tag for each extent.
    ensures a_tag_for_each_extent { behind (event.Take 0 1 0 ∷ []) (one_command_on 0x3000 (block_range 0 1) (deallocating 0)) (tags_of 0) ≡ 0 ∷ 1 ∷ [] }
    // Each part with its own ranges, and as many as it has.
    ensures two_parts { behind (event.Take 0 1 0 ∷ event.List 0 0 0x3000 32 ∷ event.Submit 0 0 ∷ [])
        (one_command_on 0x3000 (block_range 30 4 ++ block_range 0 1) (deallocating 1)) both_entries
        ≡ (0x09 ∷ 0 ∷ 0x404000 ∷ 0 ∷ 1 ∷ 4 ∷ 0 ∷ []) ∷ (0x09 ∷ 1 ∷ 0x425000 ∷ 0 ∷ 0 ∷ 4 ∷ 0 ∷ []) ∷ [] }
    ensures their_ranges { behind (event.Take 0 1 0 ∷ event.List 0 0 0x3000 32 ∷ event.Submit 0 0 ∷ [])
        (one_command_on 0x3000 (block_range 30 4 ++ block_range 0 1) (deallocating 1)) (ranges_in 32 16)
        ≡ (block_range 1030 2 ++ block_range 1000 1) ∷ block_range 3000 2 ∷ [] }
    // A range of the device is several units of the guest's own, by their numbers in the whole.
    ensures units_of_the_first_range { behind (event.Take 0 1 0 ∷ event.List 0 0 0x3000 32 ∷ event.Submit 0 0 ∷ event.DevTake 0 ∷ event.DevTake 0 ∷ [])
        (one_command_on 0x3000 (block_range 30 4 ++ block_range 0 1) (deallocating 1))
        (steps_of_each (event.DevMove 0 0 0 ∷ event.DevMove 0 0 1 ∷ event.DevMove 0 1 0 ∷ []))
        ≡ map (MoveStep 0) (0 ∷ 1 ∷ []) ∷ map (MoveStep 0) (4 ∷ []) ∷ map (MoveStep 0) (2 ∷ 3 ∷ []) ∷ [] }
    // An extent that no range meets has no physical command, and its tag has ended at once; the other is waited for.
    ensures a_part_without_ranges { told (event.Take 0 1 0 ∷ event.List 0 0 0x3000 16 ∷ event.Submit 0 0 ∷ event.DevTake 0 ∷ event.DevTake 0
        ∷ event.Post 0 0 ∷ ends 0 ++ event.Post 0 0 ∷ []) (one_command_on 0x3000 (block_range 0 1) (deallocating 0))
        ≡ reply.Done ∷ reply.Bytes (block_range 0 1) ∷ reply.Done ∷ reply.Done ∷ reply.Idle ∷ reply.Stale
        ∷ reply.Done ∷ reply.Done ∷ reply.Done ∷ reply.Done ∷ [] }
    // Where it is the first, the command's completion still goes by its tag.
    ensures the_first_without_ranges { behind (event.Take 0 1 0 ∷ event.List 0 0 0x3000 16 ∷ event.Submit 0 0 ∷ event.DevTake 0 ∷ ends 1 ++ event.Post 0 0 ∷ [])
        (one_command_on 0x3000 (block_range 40 1) (deallocating 0)) answer ≡ 0x00010007 }
    ensures the_blocks_are_cleared { behind (event.Take 0 1 0 ∷ event.List 0 0 0x3000 16 ∷ event.Submit 0 0 ∷ event.DevTake 0 ∷ ends 1)
        (one_command_on 0x3000 (block_range 40 1) (deallocating 0)) (on_disk (3007 ∷ 3008 ∷ 3009 ∷ []))
        ≡ 0xbf ∷ 0 ∷ 0xc1 ∷ [] }
{}
