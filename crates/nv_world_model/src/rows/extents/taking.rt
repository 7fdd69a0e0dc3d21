//! How many tags a command takes, which they are, and that it goes by the lowest of them.

ghost use Rattle.std.specs.Prelude.{◌≡◌, [], ◌∷◌, ◌++◌, map, replicate, true, false};
ghost use Rattle.std.specs.List.{range_with_len};
ghost use Rattle.nv_model.specs.Rows.{by_sgl, data_block, first_example};
ghost use Rattle.nv_model.specs.declared.reply.Reply.TheVariants as reply;
ghost use Rattle.nv_world_model.specs.declared.event.Event.TheVariants as event;
ghost use Rattle.nv_world_model.specs.RowsExtents.{among_others, behind, frees, groups, one_command, others, read_over, tags_of, told, two_commands};
ghost use Rattle.nv_world_model.specs.World.{Free};

/// The examples of this module, a clause each.
#[tactic(none)]
pub fn examples()
    // A Read over the join takes two tags.
    ensures two_extents { behind (event.Take 0 1 0 ∷ []) (one_command (read_over 0x3e00)) groups ≡ (0 ∷ 1 ∷ []) ∷ [] ∷ [] ∷ [] }
    // One that ends with the first extent takes one.
    ensures one_extent { behind (event.Take 0 1 0 ∷ []) (one_command (by_sgl 0x02 30 1 (data_block 0x3000 1024))) (tags_of 0) ≡ 0 ∷ [] }
    // So does a Flush.
    ensures a_flush { behind (event.Take 0 1 0 ∷ []) (one_command (by_sgl 0x00 0 0 (data_block 0 0))) (tags_of 0) ≡ 0 ∷ [] }
    // And one that its fields refuse: it passes the last block.
    ensures a_refused_command { behind (event.Take 0 1 0 ∷ []) (one_command (by_sgl 0x02 63 1 (data_block 0x3000 1024))) (tags_of 0) ≡ 0 ∷ [] }
    // The lowest free tags, which need not lie side by side.
    ensures the_lowest_free { behind (event.Take 0 1 0 ∷ []) (among_others (Free ∷ others 1 ∷ Free ∷ Free ∷ []) (read_over 0x3e00)) groups
        ≡ (0 ∷ 2 ∷ []) ∷ (1 ∷ []) ∷ [] ∷ [] }
    ensures no_more_than_it_wants { behind (event.Take 0 1 0 ∷ []) (among_others (Free ∷ others 1 ∷ Free ∷ Free ∷ []) (read_over 0x3e00)) frees
        ≡ false ∷ false ∷ false ∷ true ∷ [] }
    // Where one is free and two are wanted, none is taken.
    ensures one_is_too_few { told (event.Take 0 1 0 ∷ []) (among_others (map others (range_with_len 0 63) ++ Free ∷ []) (read_over 0x3e00))
        ≡ reply.Busy ∷ [] }
    // A command that wants one has it.
    ensures one_is_enough { told (event.Take 0 1 0 ∷ []) (among_others (map others (range_with_len 0 63) ++ Free ∷ [])
        (by_sgl 0x02 30 1 (data_block 0x3e00 1024))) ≡ reply.Done ∷ [] }
    // Another guest's command gets the next.
    ensures the_next_guest { behind (event.Take 0 1 0 ∷ event.Take 1 1 0 ∷ []) (two_commands (read_over 0x3e00) first_example) groups
        ≡ (0 ∷ 1 ∷ []) ∷ [] ∷ (2 ∷ []) ∷ [] }
    // By a tag that is not its lowest, a command is neither listed, nor handed on, nor given up, nor posted.
    ensures by_its_lowest_alone { told (event.Take 0 1 0 ∷ event.Submit 0 1 ∷ event.List 0 1 0x6000 16 ∷ event.GiveUp 0 1 ∷ event.Post 0 1
        ∷ event.Submit 0 0 ∷ []) (one_command (read_over 0x3e00))
        ≡ reply.Done ∷ replicate 4 reply.Stale ++ reply.Done ∷ [] }
{}
