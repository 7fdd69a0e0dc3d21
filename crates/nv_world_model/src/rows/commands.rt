//! How far a guest's private controller has its commands, and the marks that they leave.

ghost use Rattle.std.specs.Prelude.{◌≡◌, [], ◌∷◌, ◌++◌, true, false, Some, None};
ghost use Rattle.nv_model.specs.declared.act.Act.TheVariants as act;
ghost use Rattle.nv_model.specs.Rows.{block_range, by_sgl, data_block, first_example};
ghost use Rattle.nv_world_model.specs.Rows.{behind, in_device, moves, one_command, whole};
ghost use Rattle.nv_world_model.specs.RowsSteps.{how_far};
ghost use Rattle.nv_world_model.specs.RowsWorlds.{list_in_device, two_ranges};
ghost use Rattle.nv_world_model.specs.World.{Free, tag_of};
ghost use Rattle.nv_world_model.specs.declared.event.Event.TheVariants as event;

/// The examples of this module, a clause each.
#[tactic(none)]
pub fn examples()
    // A command that is taken is not judged yet.
    ensures taken { behind (event.Take 0 1 0 ∷ []) (one_command first_example) how_far ≡ None }
    // Once it is handed on, all its units are left.
    ensures handed_on { behind (event.Take 0 1 0 ∷ event.Submit 0 0 ∷ []) (one_command (by_sgl 0x02 5 1 (data_block 0x3000 1024))) how_far
        ≡ Some (0 ∷ 1 ∷ [], false) }
    // In the device, those that have not moved there.
    ensures in_the_device { behind (in_device ++ moves 1) (one_command (by_sgl 0x02 5 1 (data_block 0x3000 1024))) how_far ≡ Some (1 ∷ [], false) }
    // A unit of the device that is a range represents each of its blocks.
    ensures a_range_of_the_device { behind (list_in_device 0x3000 32 ++ event.DevMove 0 0 1 ∷ []) (two_ranges (block_range 5 2) (block_range 0 1)) how_far
        ≡ Some (0 ∷ 1 ∷ [], false) }
    // A Compare that differed, in the device.
    ensures a_difference_in_the_device { behind (in_device ++ moves 1) (one_command (by_sgl 0x05 5 0 (data_block 0x3000 512))) how_far ≡ Some ([], true) }
    // After its physical completion.
    ensures a_difference_that_is_answered { behind (in_device ++ moves 1 ++ event.DevPost 0 0 ∷ []) (one_command (by_sgl 0x05 5 0 (data_block 0x3000 512))) how_far
        ≡ Some ([], true) }
    // And once it has ended.
    ensures a_difference_that_is_told { behind (in_device ++ moves 1 ++ event.DevPost 0 0 ∷ event.Reap 0 ∷ []) (one_command (by_sgl 0x05 5 0 (data_block 0x3000 512))) how_far
        ≡ Some ([], true) }
    // A Read differs from nothing.
    ensures no_difference_is_told { behind (in_device ++ moves 1 ++ event.DevPost 0 0 ∷ event.Reap 0 ∷ []) (one_command first_example) how_far ≡ Some ([], false) }
    // A completed command is gone.
    ensures completed { behind (whole 1) (one_command first_example) how_far ≡ None }
    // Write Zeroes without FUA leaves its blocks without a mark, and the others with theirs.
    ensures write_zeroes_takes_the_mark { behind (event.Keep 1005 ∷ event.Keep 1006 ∷ event.Keep 1007 ∷ whole 2) (one_command (by_sgl 0x08 5 1 (data_block 0x3000 1024)))
        (λ w. w.kept 1005 ∷ w.kept 1006 ∷ w.kept 1007 ∷ []) ≡ false ∷ false ∷ true ∷ [] }
    // A command that runs out after a reset is gone, too.
    ensures run_out { behind
        (in_device ++ event.Guest 0 (act.RegWrite 0x14 0x00460000) ∷ moves 1 ++ event.DevPost 0 0 ∷ event.Reap 0 ∷ event.Post 0 0 ∷ [])
        (one_command first_example) (λ w. tag_of w 0 0) ≡ Some Free }
{}
