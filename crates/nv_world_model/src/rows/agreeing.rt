//! When a private controller and the world agree.

ghost use Rattle.nv_model.specs.Memory.{stored};
ghost use Rattle.nv_model.specs.Private.{block_written, marked};
ghost use Rattle.nv_model.specs.Rows.{first_example};
ghost use Rattle.nv_world_model.specs.Agrees.{Agrees};
ghost use Rattle.nv_world_model.specs.Rows.{controller_with, one_command};
ghost use Rattle.nv_world_model.specs.RowsShown.{first_guest};
ghost use Rattle.nv_world_model.specs.RowsSteps.{first_seat};
ghost use Rattle.std.specs.Prelude.{[], ◌∷◌, false, true, replicate};

/// The examples of this module, a clause each.
#[tactic(none)]
pub fn examples()
    // A guest's seat agrees with the world that it is of.
    ensures a_seat_agrees { Agrees 0 first_guest (one_command first_example) (first_seat (one_command first_example)) }
    // Another byte of memory that nothing is awaited at.
    ensures another_byte_does_not_agree { Agrees 0 first_guest (one_command first_example)
        (record (first_seat (one_command first_example)) { memory = stored (first_seat (one_command first_example)).memory 0x3000 (1 ∷ []) }) → ⊥ }
    // Another block.
    ensures another_block_does_not_agree { Agrees 0 first_guest (one_command first_example)
        (record (first_seat (one_command first_example)) { disk = (λ lba offset. 0) }) → ⊥ }
    // Other marks.
    ensures other_marks_do_not_agree { Agrees 0 first_guest (one_command first_example)
        (record (first_seat (one_command first_example)) { kept = (λ lba. true) }) → ⊥ }
    // Another controller: one whose RDY has fallen.
    ensures another_controller_does_not_agree { Agrees 0 first_guest (one_command first_example)
        (record (first_seat (one_command first_example)) { controller = record (controller_with 16 1) { ready = false } }) → ⊥ }
    // The last byte of memory alone.
    ensures another_last_byte_does_not_agree { Agrees 0 first_guest (one_command first_example)
        (record (first_seat (one_command first_example)) { memory = stored (first_seat (one_command first_example)).memory 0x1ffff (1 ∷ []) }) → ⊥ }
    // The last byte of the last block alone.
    ensures another_last_block_does_not_agree { Agrees 0 first_guest (one_command first_example)
        (record (first_seat (one_command first_example)) { disk = block_written (first_seat (one_command first_example)).disk 63 (replicate 511 0x27) }) → ⊥ }
    // The mark of the last block alone.
    ensures another_last_mark_does_not_agree { Agrees 0 first_guest (one_command first_example)
        (record (first_seat (one_command first_example)) { kept = marked (first_seat (one_command first_example)).kept 63 true }) → ⊥ }
    // Another tail of a submission queue.
    ensures another_queue_does_not_agree { Agrees 0 first_guest (one_command first_example)
        (record (first_seat (one_command first_example)) { controller = controller_with 16 2 }) → ⊥ }
{}
