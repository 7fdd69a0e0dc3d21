//! Steps that are wrong in one thing alone, none of which is contained: the first guest's events change what is another's, or follow what
//! is another's.

ghost use Rattle.std.specs.Prelude.{◌≡◌, [], ◌∷◌, ◌++◌, Some, None, false};
ghost use Rattle.nv_model.specs.declared.act.Act.TheVariants as act;
ghost use Rattle.nv_world_model.specs.Contained.{IsContained};
ghost use Rattle.nv_world_model.specs.Headline.{AreContained};
ghost use Rattle.nv_world_model.specs.Rows.{set_up, two_commands};
ghost use Rattle.nv_world_model.specs.RowsAlone.{IsFirstGuests, block_of, both_answered, both_queued, both_taken, byte_of, changes, controller_of, device_so, every_block_kept, follows_the_second, held_lost, idle_and_stores, its_numbers, kept_and_next, kept_no_longer, lane_so, looks, mark_of, moves_a_unit, one_of_two_in_device, owners, tag_freed, told_by};
ghost use Rattle.nv_world_model.specs.RowsShown.{both_in_device};
ghost use Rattle.nv_world_model.specs.RowsWrong.{clear_untranslated, low_set_up};
ghost use Rattle.nv_world_model.specs.Step.{replay};
ghost use Rattle.nv_world_model.specs.View.{shared_numbers};
ghost use Rattle.nv_world_model.specs.declared.event.Event.TheVariants as event;

/// Of what is another guest's, a clause each.
#[tactic(none)]
pub fn changed()
    // A byte of its memory changes.
    ensures memory { IsFirstGuests (changes (byte_of 0x21ffff)) both_in_device → ⊥ }
    // Its last block.
    ensures blocks { IsFirstGuests (changes (block_of 2063)) both_in_device → ⊥ }
    // The mark of that is lost.
    ensures marks { IsFirstGuests (changes (mark_of 2063)) every_block_kept → ⊥ }
    // Its controller is reset.
    ensures controller { IsFirstGuests (changes (controller_of 1)) both_in_device → ⊥ }
    // Its tag is freed.
    ensures tags { IsFirstGuests (changes (tag_freed 1)) both_in_device → ⊥ }
    // The device loses its command.
    ensures held { IsFirstGuests (changes (held_lost 1)) both_in_device → ⊥ }
    // A byte of its entry in the submission ring changes.
    ensures area { IsFirstGuests (changes (byte_of 0x40007f)) both_queued → ⊥ }
{}

/// Of what a guest is shown, a clause each: it changes where another guest's byte is 7.
#[tactic(none)]
pub fn followed()
    // A byte of its memory.
    ensures memory { IsFirstGuests (follows_the_second (byte_of 0x11ffff)) (told_by both_in_device) → ⊥ }
    // Its last block.
    ensures blocks { IsFirstGuests (follows_the_second (block_of 1063)) (told_by both_in_device) → ⊥ }
    // The mark of that.
    ensures marks { IsFirstGuests (follows_the_second (mark_of 1063)) (told_by every_block_kept) → ⊥ }
    // Its controller.
    ensures controller { IsFirstGuests (follows_the_second (controller_of 0)) (told_by both_in_device) → ⊥ }
    // Its tag.
    ensures tags { IsFirstGuests (follows_the_second (tag_freed 0)) (told_by both_in_device) → ⊥ }
    // What the device holds of it.
    ensures held { IsFirstGuests (follows_the_second (held_lost 0)) (told_by both_in_device) → ⊥ }
    // A byte of its entry in the submission ring.
    ensures area { IsFirstGuests (follows_the_second (byte_of 0x40003f)) (told_by both_queued) → ⊥ }
    // Which completion the mediator reads next, and with which phase tag.
    ensures lane_head { IsFirstGuests (follows_the_second (lane_so (λ l. record l { head = 1 }))) (told_by both_in_device) → ⊥ }
    ensures lane_phase { IsFirstGuests (follows_the_second (lane_so (λ l. record l { phase = false }))) (told_by both_in_device) → ⊥ }
    // Which tags are free: the other guest's is.
    ensures free_tags { IsFirstGuests (follows_the_second (tag_freed 1)) (told_by both_in_device) → ⊥ }
    // The positions of the device's rings.
    ensures ring_head { IsFirstGuests (follows_the_second (device_so (λ d. record d { head = 1 }))) (told_by both_in_device) → ⊥ }
    ensures ring_tail { IsFirstGuests (follows_the_second (device_so (λ d. record d { tail = 1 }))) (told_by both_in_device) → ⊥ }
    ensures ring_posted { IsFirstGuests (follows_the_second (device_so (λ d. record d { posted = 1 }))) (told_by both_in_device) → ⊥ }
    ensures ring_phase { IsFirstGuests (follows_the_second (device_so (λ d. record d { phase = false }))) (told_by both_in_device) → ⊥ }
{}

/// Of replies, marks and numbers, a clause each.
#[tactic(none)]
pub fn examples()
    // A reply that reports no change comes with one.
    ensures a_dull_reply_comes_with_no_change { IsFirstGuests idle_and_stores both_in_device → ⊥ }
    // A Keep raises another mark, too.
    ensures a_keep_raises_one_mark { IsContained kept_and_next set_up (event.Keep 5) both_in_device → ⊥ }
    // A Keep clears its mark.
    ensures a_keep_clears_none { IsContained kept_no_longer set_up (event.Keep 5) every_block_kept → ⊥ }
    // The shared numbers, each of which is another here.
    ensures the_shared_numbers_one_by_one { shared_numbers one_of_two_in_device ≡ its_numbers }
    // Of a log each event is asked: the last, and the first.
    ensures the_last_event_of_a_log_is_asked { AreContained low_set_up (looks ∷ moves_a_unit ∷ []) clear_untranslated → ⊥ }
    ensures the_first_event_of_a_log_is_asked { AreContained low_set_up (moves_a_unit ∷ looks ∷ []) clear_untranslated → ⊥ }
{}

/// Whose an event is, a clause for each way in which it is determined.
#[tactic(none)]
pub fn owned()
    // An event that names a guest.
    ensures by_guest { owners (event.Guest 1 (act.RegRead 0x1c) ∷ event.Admin 1 ∷ event.Take 1 1 0 ∷ event.Take 0 1 0 ∷ []) two_commands
        ≡ Some 1 ∷ Some 1 ∷ Some 1 ∷ Some 0 ∷ [] }
    // One that names a tag: that of its command. A free tag is nobody's, and so is one that is not there.
    ensures by_tag { owners (event.List 0 1 0x3000 8 ∷ event.Submit 0 1 ∷ event.GiveUp 0 1 ∷ event.Post 0 0 ∷ event.Submit 0 2 ∷ event.List 1 0 0x3000 8 ∷ []) both_taken
        ≡ Some 1 ∷ Some 1 ∷ Some 1 ∷ Some 0 ∷ None ∷ None ∷ [] }
    // One of a slot of the device.
    ensures by_slot { owners (event.DevMove 0 1 0 ∷ event.DevPost 0 1 ∷ event.DevFail 0 1 (record { sct = 2; sc = 0x81; dnr = false }) ∷ event.DevMove 0 0 0 ∷ event.DevPost 0 2 ∷ []) both_in_device
        ≡ Some 1 ∷ Some 1 ∷ Some 1 ∷ Some 0 ∷ None ∷ [] }
    // A take of the device's: that of the entry in front, as long as one is there.
    ensures by_entry { owners (event.DevTake 0 ∷ []) both_queued ++ owners (event.DevTake 0 ∷ []) (replay set_up (event.DevTake 0 ∷ []) both_queued)
        ++ owners (event.DevTake 0 ∷ []) both_in_device ≡ Some 0 ∷ Some 1 ∷ None ∷ [] }
    // A completion that is read: that of the command that the device completed first.
    ensures by_completion { owners (event.Reap 0 ∷ []) both_answered ++ owners (event.Reap 0 ∷ []) (replay set_up (event.Reap 0 ∷ []) both_answered)
        ++ owners (event.Reap 0 ∷ []) (replay set_up (event.Reap 0 ∷ event.Reap 0 ∷ []) both_answered) ≡ Some 1 ∷ Some 0 ∷ None ∷ [] }
    // A mark that rises: nobody.
    ensures by_block { owners (event.Keep 1005 ∷ []) two_commands ≡ None ∷ [] }
{}
