//! Transfers by PRP that are refused, in a memory of 40000h bytes, each on a Read with command identifier 7 at SLBA 0: the last dword of
//! its completion. 16 blocks are two pages, 24 blocks three.

ghost use Rattle.std.specs.Prelude.{◌≡◌, [], ◌∷◌, Some, None};
ghost use Rattle.nv_model.specs.Rows.{by_prp, holding, larger_refusal_in, pages_from, prp_entries, read, zeros};

/// The examples of this module, a clause each.
#[tactic(none)]
pub fn examples()
    // PRP1 that is not a multiple of 4: PRP Offset Invalid.
    ensures prp1_at_a_multiple_of_two { larger_refusal_in zeros (by_prp read 0 0 0x3002 0) ≡ Some 0x80270007 }
    // Its offset decides before its bytes are checked.
    ensures prp1_at_a_multiple_of_two_that_is_not_mapped { larger_refusal_in zeros (by_prp read 0 0 0x40002 0) ≡ Some 0x80270007 }
    // PRP1 outside the memory: Data Transfer Error.
    ensures prp1_that_is_not_mapped { larger_refusal_in zeros (by_prp read 0 0 0x40000 0) ≡ Some 0x80090007 }
    // PRP2 that is a page entry with an offset: PRP Offset Invalid.
    ensures a_page_entry_with_an_offset { larger_refusal_in zeros (by_prp read 0 15 0x3000 0x5004) ≡ Some 0x80270007 }
    // PRP2 that is a page entry outside the memory: Data Transfer Error.
    ensures a_page_entry_that_is_not_mapped { larger_refusal_in zeros (by_prp read 0 15 0x3000 0x40000) ≡ Some 0x80090007 }
    // PRP1 is met before PRP2.
    ensures prp1_that_is_not_mapped_before_a_page_entry_with_an_offset { larger_refusal_in zeros (by_prp read 0 15 0x40000 0x5004) ≡ Some 0x80090007 }
    // A pointer to a list at a multiple of 4 only: PRP Offset Invalid.
    ensures a_list_pointer_at_a_multiple_of_four { larger_refusal_in zeros (by_prp read 0 23 0x3000 0x6ffc) ≡ Some 0x80270007 }
    // A list that is not mapped: Data Transfer Error.
    ensures a_list_that_is_not_mapped { larger_refusal_in zeros (by_prp read 0 23 0x3000 0x40000) ≡ Some 0x80090007 }
    // A later list pointer with an offset, be it a multiple of 8: PRP Offset Invalid.
    ensures a_later_list_pointer_with_an_offset { larger_refusal_in (holding 0x6ff8 (prp_entries (0x7008 ∷ []))) (by_prp read 0 23 0x3000 0x6ff8) ≡ Some 0x80270007 }
    // A later list page that is not mapped: Data Transfer Error.
    ensures a_later_list_page_that_is_not_mapped { larger_refusal_in (holding 0x6ff8 (prp_entries (0x40000 ∷ []))) (by_prp read 0 23 0x3000 0x6ff8) ≡ Some 0x80090007 }
    // Entries of a list are checked in their order: an unmapped page first.
    ensures a_list_of_an_unmapped_page_and_an_offset { larger_refusal_in (holding 0x6000 (prp_entries (0x40000 ∷ 0x8004 ∷ []))) (by_prp read 0 23 0x3000 0x6000) ≡ Some 0x80090007 }
    // And the other way round.
    ensures a_list_of_an_offset_and_an_unmapped_page { larger_refusal_in (holding 0x6000 (prp_entries (0x8004 ∷ 0x40000 ∷ []))) (by_prp read 0 23 0x3000 0x6000) ≡ Some 0x80270007 }
    // 33 pages from an offset of 4 with pages that are mapped go.
    ensures the_largest_transfer_by_prp_goes { larger_refusal_in (holding 0x2000 (prp_entries (pages_from 0x8000 32))) (by_prp read 0 255 0x3004 0x2000) ≡ None }
{}
