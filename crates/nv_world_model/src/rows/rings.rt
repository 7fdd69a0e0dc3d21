//! Rings that go round: 65 slots each, and a phase tag for each pass.

ghost use Rattle.std.specs.Prelude.{◌≡◌, [], ◌∷◌, true, false};
ghost use Rattle.nv_model.specs.Rows.{first_example};
ghost use Rattle.nv_world_model.specs.Rows.{behind, handed_on, host_number, one_command, positions, rings_at, two_commands, whole};
ghost use Rattle.nv_world_model.specs.declared.event.Event.TheVariants as event;

/// The examples of this module, a clause each.
#[tactic(none)]
pub fn examples()
    // The last slot of the first pass: phase tag 1, and the head of the submission ring is slot 0 again.
    ensures the_last_slot_of_a_pass { behind (whole 1) (rings_at 64 true (one_command first_example))
        (λ w. host_number 0x402408 4 w ∷ host_number 0x40240c 4 w ∷ []) ≡ 0x00010000 ∷ 0x00010000 ∷ [] }
    // After it both sides are at slot 0, and the next pass has phase tag 0.
    ensures both_sides_go_round { behind (whole 1) (rings_at 64 true (one_command first_example)) positions ≡ (0, false) ∷ (0, false) ∷ [] }
    // The first slot of the second pass: phase tag 0.
    ensures the_first_slot_of_the_second_pass { behind (whole 1) (rings_at 0 false (one_command first_example))
        (λ w. host_number 0x402008 4 w ∷ host_number 0x40200c 4 w ∷ []) ≡ 0x00010001 ∷ 0 ∷ [] }
    // After a slot that isn't the last the pass stays the same.
    ensures a_pass_stays { behind (whole 1) (rings_at 63 true (one_command first_example)) positions ≡ (64, true) ∷ (64, true) ∷ [] }
    // The completion reports how far the submission ring is read, and not how far it is written.
    ensures the_head_in_a_completion { behind
        (event.Take 0 1 0 ∷ event.Take 1 1 0 ∷ event.Submit 0 0 ∷ event.Submit 0 1 ∷ event.DevTake 0 ∷ event.DevMove 0 0 0 ∷ event.DevPost 0 0 ∷ [])
        two_commands (host_number 0x402008 4) ≡ 0x00010001 }
    // The physical entry is in the last slot, and then in the first.
    ensures the_entry_in_the_last_slot { behind (whole 1) (rings_at 64 true (one_command first_example)) (host_number 0x401000 4) ≡ 0x00000002 }
{}
