//! What discipline is for: for each clause that counts, a log that breaks it and no other, and along which the guest is not followed by its private
//! controller.
//!
//! For each log the four clauses are given: that no destination names a byte twice or shares one with anything else that is named, that no
//! completion slot is where bytes are named, that nothing is stored into such bytes, and that nothing is loaded from a destination. Two things are
//! forbidden so that what is named stays what it is: a store into an entry whose doorbell was rung and that is not taken, and a destination over
//! its command's own list or entry. In both worlds the command is the same.

ghost use Rattle.std.specs.Prelude.{◌≡◌, ◌&&◌, ℕ, List, [], ◌∷◌, Option, Some, true, false};
ghost use Rattle.nv_model.specs.Footprint.{Named};
ghost use Rattle.nv_model.specs.declared.act.Act.{Act};
ghost use Rattle.nv_world_model.specs.Disciplined.{keeps_to};
ghost use Rattle.nv_examples.specs.Breaches.{HasPrivateRun, byte_named_twice, clauses_kept, destination_in_destination, entry_in_destination, has_no_slot, is_disciplined_in};
ghost use Rattle.nv_examples.specs.Breaches.{list_in_destination, load_from_destination, loads_elsewhere, none_failed_in, refused_before_last, shares_none, slot_in_destination};
ghost use Rattle.nv_examples.specs.Breaches.{slot_in_list, slot_in_source, source_in_destination, store_into_destination, store_into_list, store_into_source, stores_elsewhere};

/// In a state the four clauses together are what the definition asks.
#[tactic(none)]
pub fn the_four_clauses()
    ensures { (a : Option Act) (commands : List (List Named)) (slots : List (ℕ × ℕ)) → keeps_to a commands slots
        ≡ ((shares_none a commands slots && has_no_slot a commands slots) && (stores_elsewhere a commands slots && loads_elsewhere a commands slots)) }
{}

/// A store into a source: the world writes what was there before, the private controller what is there now.
#[tactic(none)]
pub fn store_into_source()
    ensures no_command_failed { none_failed_in store_into_source ≡ true }
    ensures one_clause_is_broken { clauses_kept store_into_source ≡ true ∷ true ∷ false ∷ true ∷ [] }
    ensures the_guest_is_not_disciplined { is_disciplined_in store_into_source ≡ false }
    ensures it_has_no_such_run { HasPrivateRun store_into_source → ⊥ }
{}

/// A store into a destination: in the world the Read comes later than the store.
#[tactic(none)]
pub fn store_into_destination()
    ensures no_command_failed { none_failed_in store_into_destination ≡ true }
    ensures one_clause_is_broken { clauses_kept store_into_destination ≡ true ∷ true ∷ false ∷ true ∷ [] }
    ensures the_guest_is_not_disciplined { is_disciplined_in store_into_destination ≡ false }
    ensures it_has_no_such_run { HasPrivateRun store_into_destination → ⊥ }
{}

/// A store into a list: in the world the buffer is that of the list as it was read.
#[tactic(none)]
pub fn store_into_list()
    ensures no_command_failed { none_failed_in store_into_list ≡ true }
    ensures one_clause_is_broken { clauses_kept store_into_list ≡ true ∷ true ∷ false ∷ true ∷ [] }
    ensures the_guest_is_not_disciplined { is_disciplined_in store_into_list ≡ false }
    ensures it_has_no_such_run { HasPrivateRun store_into_list → ⊥ }
{}

/// A load from a destination: in the world the bytes have not come yet.
#[tactic(none)]
pub fn load_from_destination()
    ensures no_command_failed { none_failed_in load_from_destination ≡ true }
    ensures one_clause_is_broken { clauses_kept load_from_destination ≡ true ∷ true ∷ true ∷ false ∷ [] }
    ensures the_guest_is_not_disciplined { is_disciplined_in load_from_destination ≡ false }
    ensures it_has_no_such_run { HasPrivateRun load_from_destination → ⊥ }
{}

/// A byte that is named twice: in the world the last block has it, in the private controller the one that moved last.
#[tactic(none)]
pub fn byte_named_twice()
    ensures no_command_failed { none_failed_in byte_named_twice ≡ true }
    ensures one_clause_is_broken { clauses_kept byte_named_twice ≡ false ∷ true ∷ true ∷ true ∷ [] }
    ensures the_guest_is_not_disciplined { is_disciplined_in byte_named_twice ≡ false }
    ensures it_has_no_such_run { HasPrivateRun byte_named_twice → ⊥ }
{}

/// Two destinations that overlap: in the world, the one that is completed last is there.
#[tactic(none)]
pub fn destination_in_destination()
    ensures no_command_failed { none_failed_in destination_in_destination ≡ true }
    ensures one_clause_is_broken { clauses_kept destination_in_destination ≡ false ∷ true ∷ true ∷ true ∷ [] }
    ensures the_guest_is_not_disciplined { is_disciplined_in destination_in_destination ≡ false }
    ensures it_has_no_such_run { HasPrivateRun destination_in_destination → ⊥ }
{}

/// A source in a destination: in the world it is copied before the Read is delivered.
#[tactic(none)]
pub fn source_in_destination()
    ensures no_command_failed { none_failed_in source_in_destination ≡ true }
    ensures one_clause_is_broken { clauses_kept source_in_destination ≡ false ∷ true ∷ true ∷ true ∷ [] }
    ensures the_guest_is_not_disciplined { is_disciplined_in source_in_destination ≡ false }
    ensures it_has_no_such_run { HasPrivateRun source_in_destination → ⊥ }
{}

/// A list in a destination: the world has the buffer that it names, the private controller refuses what was read over it.
#[tactic(none)]
pub fn list_in_destination()
    ensures no_command_failed { none_failed_in list_in_destination ≡ true }
    ensures one_clause_is_broken { clauses_kept list_in_destination ≡ false ∷ true ∷ true ∷ true ∷ [] }
    ensures the_guest_is_not_disciplined { is_disciplined_in list_in_destination ≡ false }
    // SGL Length Invalid: so no unit of it can move.
    ensures the_private_controller_refuses { refused_before_last list_in_destination ≡ Some 0x0f }
    ensures it_has_no_such_run { HasPrivateRun list_in_destination → ⊥ }
{}

/// An entry in a destination: the world has the command, the private controller what was read over it.
#[tactic(none)]
pub fn entry_in_destination()
    ensures no_command_failed { none_failed_in entry_in_destination ≡ true }
    ensures one_clause_is_broken { clauses_kept entry_in_destination ≡ false ∷ true ∷ true ∷ true ∷ [] }
    ensures the_guest_is_not_disciplined { is_disciplined_in entry_in_destination ≡ false }
    // Invalid Namespace: so no unit of it can move.
    ensures the_private_controller_refuses { refused_before_last entry_in_destination ≡ Some 0x0b }
    ensures it_has_no_such_run { HasPrivateRun entry_in_destination → ⊥ }
{}

/// A completion slot in a source: the world writes what was there before.
#[tactic(none)]
pub fn slot_in_source()
    ensures no_command_failed { none_failed_in slot_in_source ≡ true }
    ensures one_clause_is_broken { clauses_kept slot_in_source ≡ true ∷ false ∷ true ∷ true ∷ [] }
    ensures the_guest_is_not_disciplined { is_disciplined_in slot_in_source ≡ false }
    ensures it_has_no_such_run { HasPrivateRun slot_in_source → ⊥ }
{}

/// A completion slot in a destination: in the world the Read comes later than the completion.
#[tactic(none)]
pub fn slot_in_destination()
    ensures no_command_failed { none_failed_in slot_in_destination ≡ true }
    ensures one_clause_is_broken { clauses_kept slot_in_destination ≡ true ∷ false ∷ true ∷ true ∷ [] }
    ensures the_guest_is_not_disciplined { is_disciplined_in slot_in_destination ≡ false }
    ensures it_has_no_such_run { HasPrivateRun slot_in_destination → ⊥ }
{}

/// A completion slot in a list: the world has the list as it was read.
#[tactic(none)]
pub fn slot_in_list()
    ensures no_command_failed { none_failed_in slot_in_list ≡ true }
    ensures one_clause_is_broken { clauses_kept slot_in_list ≡ true ∷ false ∷ true ∷ true ∷ [] }
    ensures the_guest_is_not_disciplined { is_disciplined_in slot_in_list ≡ false }
    // Data Transfer Error: so no unit of it can move.
    ensures the_private_controller_refuses { refused_before_last slot_in_list ≡ Some 0x04 }
    ensures it_has_no_such_run { HasPrivateRun slot_in_list → ⊥ }
{}
