//! Terms of the promise and of the world, each distinguished from a similar one that the other rows let pass.

ghost use Rattle.std.specs.Prelude.{◌≡◌, ◌+◌, ◌*◌, [], ◌∷◌, ◌++◌, replicate, Some, None, false, true, is_some, slice_get};
ghost use Rattle.nv_entry.specs.StatusCode.{done_with};
ghost use Rattle.nv_entry.specs.declared.status_code.StatusCode.TheVariants as code;
ghost use Rattle.nv_mem.specs.declared.piece.Piece.TheVariants as piece;
ghost use Rattle.nv_model.specs.declared.reply.Reply.TheVariants as reply;
ghost use Rattle.nv_model.specs.Judge.{MoveBlock};
ghost use Rattle.nv_model.specs.Private.{Ended};
ghost use Rattle.nv_model.specs.Rows.{first_example};
ghost use Rattle.nv_world_model.specs.Contained.{given_to};
ghost use Rattle.nv_world_model.specs.Headline.{Headline, none_failed, start_in};
ghost use Rattle.nv_examples.specs.Twice.{behind_it, second_stores, twice};
ghost use Rattle.nv_world_model.specs.Rows.{behind, host_number, in_device, one_command, set_up, two_commands, whole};
ghost use Rattle.nv_world_model.specs.RowsShown.{first_guest, second_guest, span};
ghost use Rattle.nv_world_model.specs.RowsSteps.{logged, member_told};
ghost use Rattle.nv_world_model.specs.RowsWorlds.{at_start, two_lanes};
ghost use Rattle.nv_world_model.specs.Seat.{members};
ghost use Rattle.nv_world_model.specs.Share.{cut_piece, cut_pieces, unit_behind};
ghost use Rattle.nv_world_model.specs.SetUp.{world_at_start};
ghost use Rattle.nv_world_model.specs.View.{in_extents, in_image, lies_in};
ghost use Rattle.nv_world_model.specs.World.{opening_world};
ghost use Rattle.nv_world_model.specs.declared.event.Event.TheVariants as event;

/// Failures.
#[tactic(none)]
pub fn failures()
    ensures none_of_a_whole_read { none_failed set_up 0 (logged (whole 1) (one_command first_example)) (one_command first_example) ≡ true }
    ensures none_of_no_log { none_failed set_up 0 [] (one_command first_example) ≡ true }
{}

/// The second lane.
#[tactic(none)]
pub fn lanes()
    ensures its_failure { behind (event.Take 0 1 1 ∷ event.Submit 1 0 ∷ event.DevTake 1 ∷ event.DevFail 1 0 (record { sct = 2; sc = 0x81; dnr = false }) ∷ event.Reap 1 ∷ event.Post 1 0 ∷ [])
        (two_lanes first_example) (host_number 0x11200c 4) ≡ 0x05030007 }
    ensures its_units { behind (event.Take 0 1 1 ∷ event.Submit 1 0 ∷ event.DevTake 1 ∷ []) (two_lanes first_example) (λ w. member_told (members set_up w 0 64)) ≡ Some (0 ∷ [], false) }
{}

/// A guest's commands.
#[tactic(none)]
pub fn bags()
    ensures anothers { behind in_device two_commands (λ w. is_some (members set_up w 1 0)) ≡ false }
    ensures given_up { behind (event.Take 0 1 0 ∷ event.GiveUp 0 0 ∷ []) (one_command first_example) (λ w. members set_up w 0 0)
        ≡ Some (record { queue = 1; entry = first_example; progress = Ended (done_with code.InternalError) }) }
{}

/// The world at the start.
#[tactic(none)]
pub fn starts()
    ensures no_mark { at_start.kept 5 ≡ false }
    ensures zero_blocks { at_start.disk 5 7 ≡ 0 }
    // A private controller begins with what the guest's own memory and blocks have, wherever they lie.
    ensures own_bytes { (start_in first_guest (opening_world (λ at. at) (λ _ _. 0) set_up 1)).memory 0x3000 ≡ 0x103000 }
    ensures own_blocks { (start_in second_guest (opening_world (λ _. 0) (λ at offset. 512 * at + offset) set_up 1)).disk 5 7 ≡ 512 * 2005 + 7 }
{}

/// What is a guest's.
#[tactic(none)]
pub fn own()
    ensures spans { lies_in (span 0x400000 64 ∷ []) 0x40003f ∷ lies_in (span 0x400000 64 ∷ []) 0x400040 ∷ [] ≡ true ∷ false ∷ [] }
    ensures memory { in_image first_guest 0xfffff ∷ in_image first_guest 0x100000 ∷ in_image first_guest 0x11ffff ∷ in_image first_guest 0x120000 ∷ [] ≡ false ∷ true ∷ true ∷ false ∷ [] }
    ensures extents { in_extents (record { base = 1000; blocks = 32 } ∷ record { base = 3000; blocks = 32 } ∷ []) 3000 ≡ true }
    ensures given { given_to (Some 1) set_up ≡ Some second_guest }
{}

/// Pieces that are cut.
#[tactic(none)]
pub fn cut_off()
    ensures run { cut_piece 256 512 (piece.Run 0x3000 512) ≡ piece.Run 0x3100 256 }
    ensures bucket_end { cut_piece 256 512 (piece.Bucket 512) ≡ piece.Bucket 256 }
    ensures bucket_len { cut_piece 0 256 (piece.Bucket 512) ≡ piece.Bucket 256 }
    ensures behind_two { cut_pieces 768 256 (piece.Run 0x3000 512 ∷ piece.Run 0x5000 512 ∷ []) ≡ piece.Run 0x3300 0 ∷ piece.Run 0x5100 256 ∷ [] }
    ensures over_two { cut_pieces 256 512 (piece.Run 0x3000 512 ∷ piece.Run 0x5000 512 ∷ []) ≡ piece.Run 0x3100 256 ∷ piece.Run 0x5000 256 ∷ [] }
    ensures unit { unit_behind 1 (MoveBlock 1 5) ≡ MoveBlock 0 5 }
{}

/// What is promised of a log: where two guests have the same memory, the second's store is in what the first has, and no such store is in the
/// first's private run; and it is not contained.
#[tactic(none)]
pub fn promised()
    ensures by_its_run { Headline twice.geometry (world_at_start twice) second_stores behind_it → ⊥ }
    ensures by_containment { Headline twice.geometry (world_at_start twice) second_stores behind_it → ⊥ }
{}
