//! Terms of the world, each distinguished from a similar one that the other rows let pass.

ghost use Rattle.std.specs.Prelude.{◌≡◌, [], ◌∷◌, ◌++◌, replicate, map, Some, None, false, true};
ghost use Rattle.std.specs.Option.{option_map};
ghost use Rattle.nv_mem.specs.declared.piece.Piece.TheVariants as piece;
ghost use Rattle.nv_model.specs.declared.act.Act.TheVariants as act;
ghost use Rattle.nv_model.specs.declared.reply.Reply.TheVariants as reply;
ghost use Rattle.nv_model.specs.Judge.{ClearBlock, MoveBlock, Work};
ghost use Rattle.nv_model.specs.Rows.{block_range, by_sgl, data_block, first_example, manage, read_of};
ghost use Rattle.nv_world_model.specs.Area.{lane_start};
ghost use Rattle.nv_world_model.specs.Seat.{work_of};
ghost use Rattle.nv_world_model.specs.Rows.{one_command, rings_at, told};
ghost use Rattle.nv_world_model.specs.RowsShares.{joined, shares_by_reads};
ghost use Rattle.nv_world_model.specs.RowsWorlds.{at_start};
ghost use Rattle.nv_world_model.specs.Share.{Share};
ghost use Rattle.nv_world_model.specs.declared.event.Event.TheVariants as event;

/// Rings and lanes.
#[tactic(none)]
pub fn rings()
    ensures the_ring_is_empty_again { told (event.Take 0 1 0 ∷ event.Submit 0 0 ∷ event.DevTake 0 ∷ event.DevTake 0 ∷ []) (rings_at 64 true (one_command first_example))
        ≡ replicate 3 reply.Done ++ reply.Idle ∷ [] }
    ensures the_third_lane { lane_start 0x400000 2 ≡ 0x1486000 }
{}

/// Shares.
#[tactic(none)]
pub fn parts_of_work()
    ensures units_of_a_read { map (λ (s : Share). option_map (λ (w : Work). w.units) (work_of s.plan)) (shares_by_reads joined (by_sgl 0x02 31 1 (data_block 0x3e00 1024)) [])
        ≡ Some (MoveBlock 0 31 ∷ []) ∷ Some (MoveBlock 0 32 ∷ []) ∷ [] }
    ensures pieces_of_ranges { map (λ (s : Share). option_map (λ (w : Work). w.pieces) (work_of s.plan))
        (shares_by_reads joined (manage true 1 (data_block 0x3000 32)) (read_of 0x3000 (block_range 30 4 ++ block_range 0 1) ∷ []))
        ≡ Some (piece.Run 0x3000 32 ∷ []) ∷ Some (piece.Run 0x3000 16 ∷ []) ∷ [] }
    ensures units_of_ranges { map (λ (s : Share). option_map (λ (w : Work). w.units) (work_of s.plan))
        (shares_by_reads joined (manage true 1 (data_block 0x3000 32)) (read_of 0x3000 (block_range 30 4 ++ block_range 0 1) ∷ []))
        ≡ Some (ClearBlock 30 false ∷ ClearBlock 31 false ∷ ClearBlock 0 false ∷ []) ∷ Some (ClearBlock 32 false ∷ ClearBlock 33 false ∷ []) ∷ [] }
{}

/// An admin completion queue of two slots.
#[tactic(none)]
pub fn admin_held()
    ensures second { told (event.Guest 0 (act.RegWrite 0x24 0x0001001f) ∷ event.Guest 0 (act.RegWrite 0x28 0x10000) ∷ event.Guest 0 (act.RegWrite 0x30 0x11000)
        ∷ event.Guest 0 (act.RegWrite 0x14 0x00460001) ∷ event.Guest 0 (act.Doorbell 0x1000 2) ∷ event.Admin 0 ∷ event.Admin 0 ∷ []) at_start
        ≡ replicate 6 reply.Done ++ reply.Held ∷ [] }
    ensures no_admin { told [] at_start ≡ [] }
{}
