//! Transfers by PRP, in a memory of 40000h bytes.

ghost use Rattle.std.specs.Prelude.{◌≡◌, [], ◌∷◌, ◌++◌, map};
ghost use Rattle.nv_mem.specs.declared.piece.Piece.TheVariants.{Run};
ghost use Rattle.nv_model.specs.Dialogue.{in_memory};
ghost use Rattle.nv_model.specs.Memory.{stored};
ghost use Rattle.nv_model.specs.Prp.{read_prp};
ghost use Rattle.nv_model.specs.Reading.{Spells};
ghost use Rattle.nv_model.specs.Rows.{below, holding, pages_from, prp_entries, prp_in, zeros};

/// The examples of this module, a clause each.
#[tactic(none)]
pub fn examples()
    // PRP1's page covers the transfer: PRP2 is not examined.
    ensures one_page_by_prp1 { prp_in zeros 0x3e00 0xffffffffffffffff 512 ≡ Spells (Run 0x3e00 512 ∷ []) }
    // Where the memory ends after its bytes, too: no others of its page are checked.
    ensures the_rest_of_the_first_page_is_not_looked_at { in_memory zeros (read_prp (below 0x3200) 0x3000 0 512) ≡ Spells (Run 0x3000 512 ∷ []) }
    // PRP1 may have an offset that is a multiple of 4.
    ensures prp1_at_a_multiple_of_four { prp_in zeros 0x3004 0 512 ≡ Spells (Run 0x3004 512 ∷ []) }
    // One more page: PRP2 is a page entry, of which only the transfer's bytes are meant.
    ensures two_pages_by_prp1_and_prp2 { prp_in zeros 0x3e00 0x5000 1024 ≡ Spells (Run 0x3e00 512 ∷ Run 0x5000 512 ∷ []) }
    // Where the memory ends after these bytes, too: no others of that page are checked.
    ensures the_rest_of_the_last_page_is_not_looked_at { in_memory zeros (read_prp (below 0x5200) 0x3e00 0x5000 1024) ≡ Spells (Run 0x3e00 512 ∷ Run 0x5000 512 ∷ []) }
    // Two whole pages.
    ensures two_whole_pages { prp_in zeros 0x3000 0x3000 8192 ≡ Spells (Run 0x3000 4096 ∷ Run 0x3000 4096 ∷ []) }
    // More pages: PRP2 points to a list, which may start within a page.
    ensures three_pages_by_a_list { prp_in (holding 0x6ff0 (prp_entries (0x8000 ∷ 0x9000 ∷ []))) 0x3000 0x6ff0 12288
        ≡ Spells (Run 0x3000 4096 ∷ Run 0x8000 4096 ∷ Run 0x9000 4096 ∷ []) }
    // Where more pages remain than slots to the end of the page, the last slot points to the next list page: the same pages.
    ensures three_pages_by_a_list_that_goes_on { prp_in (stored (holding 0x6ff8 (prp_entries (0x7000 ∷ []))) 0x7000 (prp_entries (0x8000 ∷ 0x9000 ∷ []))) 0x3000 0x6ff8 12288
        ≡ Spells (Run 0x3000 4096 ∷ Run 0x8000 4096 ∷ Run 0x9000 4096 ∷ []) }
    // Two slots to the end of the page and three pages: the first slot is a page entry, the second points on.
    ensures four_pages_by_a_list_that_goes_on { prp_in (stored (holding 0x6ff0 (prp_entries (0x8000 ∷ 0x7000 ∷ []))) 0x7000 (prp_entries (0x9000 ∷ 0xa000 ∷ []))) 0x3000 0x6ff0 16384
        ≡ Spells (Run 0x3000 4096 ∷ Run 0x8000 4096 ∷ Run 0x9000 4096 ∷ Run 0xa000 4096 ∷ []) }
    // The largest transfer from an offset of 4 is in 33 pages: 32 entries of a list, of which the last is for 4 bytes.
    ensures thirty_three_pages_from_an_offset_of_four { prp_in (holding 0x2000 (prp_entries (pages_from 0x8000 32))) 0x3004 0x2000 131072
        ≡ Spells (Run 0x3004 4092 ∷ map (λ addr. Run addr 4096) (pages_from 0x8000 31) ++ Run 0x27000 4 ∷ []) }
{}
