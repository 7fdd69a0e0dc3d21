//! Containment where namespaces have several extents. Of the first guest's events, a unit that moves in its second extent is contained. Steps that
//! are wrong about a block in a last extent, or about one right after a first extent, are not.

ghost use Rattle.nv_world_model.specs.Contained.{Contained};
ghost use Rattle.nv_world_model.specs.RowsAlone.{block_of, changes, mark_of};
ghost use Rattle.nv_world_model.specs.View.{in_extents};
ghost use Rattle.std.specs.Prelude.{◌≡◌, [], ◌∷◌, false, map, true};
ghost use Rattle.nv_examples.specs.extents.Containing.{IsFirstGuests, both_held, follows, own_byte};
ghost use Rattle.nv_examples.specs.extents.Events.{moves};
ghost use Rattle.nv_examples.specs.extents.Guests.{first, set_up};
ghost use Rattle.nv_examples.specs.extents.WrongWorlds.{first_bytes, right};

/// Of what is the neighbour's, a clause each.
#[tactic(none)]
pub fn changed()
    // Its last block becomes zeros, which lies in its third extent.
    ensures its_last_block { IsFirstGuests (changes (block_of 13)) → ⊥ }
    // The mark of that is lost.
    ensures its_last_mark { IsFirstGuests (changes (mark_of 13)) → ⊥ }
    // The mark of its first block, which is right after the first guest's first extent, is lost.
    ensures its_first_mark { IsFirstGuests (changes (mark_of 4)) → ⊥ }
{}

/// Of what the first guest is shown, a clause each: it follows a block of the neighbour's.
#[tactic(none)]
pub fn followed()
    // A byte of its memory follows the neighbour's last block.
    ensures the_last_block { IsFirstGuests (follows 13 own_byte) → ⊥ }
    // It follows the neighbour's first block, which is right after the first guest's first extent.
    ensures the_first_block { IsFirstGuests (follows 4 own_byte) → ⊥ }
    // The first guest's own last block, which lies in its second extent, follows the neighbour's.
    ensures its_own_last_block { IsFirstGuests (follows 13 (block_of 10)) → ⊥ }
    // So does the mark of that.
    ensures its_own_last_mark { IsFirstGuests (follows 13 (mark_of 10)) → ⊥ }
{}

/// A unit of a part in the first guest's second extent.
#[tactic(none)]
pub fn a_unit()
    // The guest's last block becomes zeros, and no block beside it.
    ensures the_blocks { first_bytes both_held.disk (9 ∷ 10 ∷ 11 ∷ []) ≡ 9 ∷ 10 ∷ 11 ∷ [] }
    ensures the_blocks_behind_it { first_bytes (right (moves 1 1) both_held).world.disk (9 ∷ 10 ∷ 11 ∷ []) ≡ 9 ∷ 0 ∷ 11 ∷ [] }
    // It is contained.
    ensures it_is_contained { Contained set_up (moves 1 1) both_held }
{}

/// Which of the disk's blocks 1 to 11 are the first guest's: those of both extents, and none between them.
#[tactic(none)]
pub fn own_blocks()
    ensures { map (in_extents first.namespace) (1 ∷ 2 ∷ 3 ∷ 4 ∷ 5 ∷ 8 ∷ 9 ∷ 10 ∷ 11 ∷ [])
        ≡ false ∷ true ∷ true ∷ false ∷ false ∷ false ∷ true ∷ true ∷ false ∷ [] }
{}
