//! Steps that are wrong, none of which is contained.

ghost use Rattle.std.specs.Prelude.{[], ◌∷◌};
ghost use Rattle.nv_model.specs.declared.act.Act.TheVariants as act;
ghost use Rattle.nv_model.specs.Rows.{first_example};
ghost use Rattle.nv_world_model.specs.Contained.{Contained, IsContained};
ghost use Rattle.nv_world_model.specs.Rows.{one_command, set_up};
ghost use Rattle.nv_world_model.specs.RowsWrong.{clear_untranslated, delivered_anyway, loaded_unmapped, low_set_up, old_bytes_left, posted_astray, ranges_untranslated, read_ended, read_failed, read_untranslated, all_kept, kept_and_more, mark_lost, mark_told, second_kept, second_stored, stored_unmapped, stray_block};
ghost use Rattle.nv_world_model.specs.declared.event.Event.TheVariants as event;

/// The steps of this module, a clause each.
#[tactic(none)]
pub fn examples()
    // A bounced Read that failed is delivered: its bounce page may hold what another's command left there.
    ensures a_failed_read_is_not_delivered { IsContained (delivered_anyway set_up 0 0) set_up (event.Post 0 0) read_failed → ⊥ }
    // What it delivers may be another guest's: the byte that a Write of that guest left in the bounce pages.
    ensures another_guests_bytes_are_not_delivered { IsContained (delivered_anyway set_up 0 0) set_up (event.Post 0 0) old_bytes_left → ⊥ }
    // A completion is put in another guest's queue.
    ensures a_completion_does_not_go_astray { IsContained (posted_astray set_up 1 0 0) set_up (event.Post 0 0) read_ended → ⊥ }
    // The blocks of a Write Zeroes are not translated: the device clears another guest's block.
    ensures blocks_are_translated { Contained low_set_up (event.DevMove 0 0 0) clear_untranslated → ⊥ }
    // Those of a Read are not translated: the device reads another guest's block to the guest.
    ensures blocks_that_are_read_are_translated { Contained low_set_up (event.DevMove 0 0 0) read_untranslated → ⊥ }
    // The ranges of a Dataset Management are not translated: the device clears another guest's blocks.
    ensures ranges_are_translated { Contained low_set_up (event.DevMove 0 0 0) ranges_untranslated → ⊥ }
    // A guest's address is taken as the host's: a byte outside of its memory changes.
    ensures a_store_is_mapped { IsContained (stored_unmapped 0x3000 (7 ∷ [])) set_up (event.Guest 0 (act.Store 0x3000 (7 ∷ []))) (one_command first_example) → ⊥ }
    // A reply reports another guest's byte.
    ensures a_load_is_mapped { IsContained (loaded_unmapped 0x203000) set_up (event.Guest 0 (act.Load 0x203000 1)) second_stored → ⊥ }
    // The first byte after the mediator's area changes, which is nobody's.
    ensures a_byte_behind_the_area_is_nobodys { IsContained (stored_unmapped 0xc43000 (7 ∷ [])) set_up (event.Guest 0 (act.Store 0x3000 (7 ∷ []))) (one_command first_example) → ⊥ }
    // A block changes that is nobody's.
    ensures a_block_of_nobody_stays { IsContained stray_block set_up (event.Guest 0 (act.Store 0x3000 (7 ∷ []))) (one_command first_example) → ⊥ }
    // A mark is lost that is nobody's.
    ensures a_mark_of_nobody_stays { IsContained mark_lost set_up (event.Guest 0 (act.Store 0x3000 (7 ∷ []))) all_kept → ⊥ }
    // The mark of a guest's block reveals another guest's.
    ensures a_mark_tells_of_no_other { IsContained mark_told set_up (event.Guest 0 (act.Store 0x3000 (7 ∷ []))) second_kept → ⊥ }
    // A Keep changes more than a mark.
    ensures a_keep_changes_a_mark_alone { IsContained kept_and_more set_up (event.Keep 5) (one_command first_example) → ⊥ }
{}
