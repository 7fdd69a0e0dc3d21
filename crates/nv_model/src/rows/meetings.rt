//! Acts beside the bytes that outstanding commands name, and the slots of queues.

ghost use Rattle.std.specs.Prelude.{◌≡◌, [], ◌∷◌, map, Some, false, true};
ghost use Rattle.nv_model.specs.Footprint.{completion_slots, entries_of, loads_from_destination, stores_into};
ghost use Rattle.nv_model.specs.Private.{start};
ghost use Rattle.nv_model.specs.RowsRuns.{after, bring_up, bytes_loaded, going_round, read_and_write_named, zeros_stored};

/// The examples of this module, a clause each.
#[tactic(none)]
pub fn examples()
    // A store of a byte meets the entry, the destination and the source at their ends, of the first command and of the second.
    ensures a_store_meets_each_use { map (λ at. stores_into read_and_write_named (zeros_stored 1 at)) (0x13000 ∷ 0x1303f ∷ 0x3000 ∷ 0x31ff ∷ 0x5000 ∷ 0x51ff ∷ [])
        ≡ true ∷ true ∷ true ∷ true ∷ true ∷ true ∷ [] }
    // Beside them it meets none.
    ensures a_store_beside_them_meets_none { map (λ at. stores_into read_and_write_named (zeros_stored 1 at)) (0x12fff ∷ 0x13040 ∷ 0x2fff ∷ 0x3200 ∷ 0x4fff ∷ 0x5200 ∷ [])
        ≡ false ∷ false ∷ false ∷ false ∷ false ∷ false ∷ [] }
    // One that begins before them meets what it reaches; one of no bytes meets nothing.
    ensures a_store_meets_by_its_bytes { stores_into read_and_write_named (zeros_stored 2 0x2fff) ∷ stores_into read_and_write_named (zeros_stored 0 0x3100) ∷ [] ≡ true ∷ false ∷ [] }
    // A load meets the destination, and neither entry nor source.
    ensures a_load_meets_the_destination { map (λ at. loads_from_destination read_and_write_named (bytes_loaded 1 at)) (0x3000 ∷ 0x31ff ∷ 0x2fff ∷ 0x3200 ∷ 0x13000 ∷ 0x5000 ∷ [])
        ≡ true ∷ true ∷ false ∷ false ∷ false ∷ false ∷ [] }
    // By its bytes, too.
    ensures a_load_meets_by_its_bytes { loads_from_destination read_and_write_named (bytes_loaded 2 0x2fff)
        ∷ loads_from_destination read_and_write_named (bytes_loaded 0 0x3100) ∷ [] ≡ true ∷ false ∷ [] }
    // A load stores nothing, and a store loads nothing.
    ensures other_acts_meet_none { stores_into read_and_write_named (bytes_loaded 512 0x3000)
        ∷ loads_from_destination read_and_write_named (zeros_stored 512 0x3000) ∷ [] ≡ false ∷ false ∷ [] }
    // After the bring-up, the 32 slots of the admin completion queue and the 16 of completion queue 1.
    ensures the_slots_of_each_completion_queue { after bring_up start (λ p. completion_slots p.controller) ≡ Some ((0x11000, 512) ∷ (0x12000, 256) ∷ []) }
    // Before it there are none.
    ensures no_slots_at_the_start { completion_slots start.controller ≡ [] }
    // The entries of a queue go round at its last slot.
    ensures entries_go_round { entries_of going_round ≡ 0x130c0 ∷ 0x13000 ∷ [] }
{}
