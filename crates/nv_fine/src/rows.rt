//! Worked examples of fine traces, computed.

ghost use Rattle.std.specs.Prelude.{◌≡◌, [], ◌∷◌, ◌++◌, false, map, true, replicate, Some, None};
ghost use Rattle.std.specs.List.{range_with_len};
ghost use Rattle.nv_entry.specs.Status.{status};
ghost use Rattle.nv_fine.specs.Drive.{Answers, Completes, Does, Knows, Sees, SeesEntry, Takes, Writes, chosen};
ghost use Rattle.nv_fine.specs.Fine.{Begins, Drives, GoesOn, Loads, Stores, parts_of};
ghost use Rattle.nv_fine.specs.Rows.{block_after, bytes_after, drive, first_bytes, half_read, is_refused, last_byte, on, read_out, rung, state_with, tag_after, taken, whole};
ghost use Rattle.nv_machine.specs.Effects.{Store};
ghost use Rattle.nv_machine.specs.Rows.{at_rest, flying_second, odd_read, odd_share, odd_write, of_second, taken_second};
ghost use Rattle.nv_model.specs.Judge.{ClearBlock, Clear, LeaveBlock, Manage};
ghost use Rattle.nv_world_model.specs.World.{Ended, Flying, Queued, Taken};
ghost use Rattle.nv_world_model.specs.declared.event.Event.TheVariants as event;

/// Guests store while a call fetches and copies.
#[tactic(none)]
pub fn calls()
    // Byte 0 of an entry is stored after it was fetched, byte 2 before: the entry that is taken was in memory at no moment.
    ensures a_torn_entry { tag_after 0 (Begins (event.Take 1 1 0) ∷ on 2 ++ Stores 1 0x13000 9 ∷ Stores 1 0x13002 5 ∷ on 63) (state_with at_rest [])
        ≡ Some (Some (Taken (of_second (0 ∷ 0 ∷ 5 ∷ replicate 61 0) 0) [])) }
    ensures is_not_what_memory_has { bytes_after 0x213000 4 (Begins (event.Take 1 1 0) ∷ on 2 ++ Stores 1 0x13000 9 ∷ Stores 1 0x13002 5 ∷ on 63) (state_with at_rest [])
        ≡ Some (9 ∷ 0 ∷ 5 ∷ 0 ∷ []) }
    // A source's byte is copied as it was when it was read; its next byte is read after the store.
    ensures a_source_that_changes { bytes_after 0x425000 2 (Begins (event.Submit 0 1) ∷ GoesOn ∷ Stores 1 0x3002 9 ∷ Stores 1 0x3003 8 ∷ on 3) (state_with (taken_second odd_write) [])
        ≡ Some (0 ∷ 8 ∷ []) }
    ensures one_call_after_another { is_refused (Begins (event.Take 1 1 0) ∷ Begins (event.Take 0 1 0) ∷ []) (state_with at_rest []) ≡ true }
    ensures nothing_goes_on { is_refused (GoesOn ∷ []) (state_with at_rest []) ≡ true }
    ensures nothing_beyond_a_guests_memory { is_refused (Stores 1 0x20000 1 ∷ []) (state_with at_rest []) ≡ true }
    // A completion's last dword is stored at once, and its other bytes are not.
    ensures a_dword_at_once { parts_of (Store 0x21200c (7 ∷ 0 ∷ 1 ∷ 0 ∷ [])) ≡ Store 0x21200c (7 ∷ 0 ∷ 1 ∷ 0 ∷ []) ∷ [] }
    ensures bytes_one_by_one { parts_of (Store 0x400000 (2 ∷ 3 ∷ [])) ≡ Store 0x400000 (2 ∷ []) ∷ Store 0x400001 (3 ∷ []) ∷ [] }
{}

/// A Read's destination is written in pieces. Block 2005 has 213 in every byte.
#[tactic(none)]
pub fn destinations()
    ensures in_pieces { bytes_after 0x203000 4 (drive (Knows 0 1 ∷ Does 0 1 0 false ∷ Writes 0 1 0x203002 ∷ Writes 0 1 0x203000 ∷ Writes 0 1 0x203002 ∷ []))
        (state_with flying_second (taken 2)) ≡ Some (213 ∷ 0 ∷ 213 ∷ 0 ∷ []) }
    ensures not_before_it_has_the_block { is_refused (drive (Knows 0 1 ∷ Writes 0 1 0x203002 ∷ [])) (state_with flying_second (taken 2)) ≡ true }
    ensures not_beyond_it { is_refused (drive (Knows 0 1 ∷ Does 0 1 0 false ∷ Writes 0 1 0x203200 ∷ [])) (state_with flying_second (taken 2)) ≡ true }
    ensures a_guest_may_look { bytes_after 0x203000 1 (drive (Knows 0 1 ∷ Does 0 1 0 false ∷ []) ++ Loads 1 0x3000 ∷ []) (state_with flying_second (taken 2)) ≡ Some (0 ∷ []) }
    // Not before each byte was written, nor before the block was read, is it complete.
    ensures no_completion_before_it { is_refused (drive (Knows 0 1 ∷ Does 0 1 0 false ∷ Writes 0 1 0x203002 ∷ first_bytes ++ last_byte ∷ [])) (state_with flying_second (taken 2)) ≡ true }
    ensures no_completion_without_the_block { is_refused (drive (Knows 0 1 ∷ first_bytes ++ last_byte ∷ [])) (state_with flying_second (taken 2)) ≡ true }
    // But it may fail with any part of it: here with 81h of type 2.
    ensures a_failure_in_between { is_refused (drive (Knows 0 1 ∷ Does 0 1 0 false ∷ Writes 0 1 0x203002 ∷ first_bytes ++ Answers 0 15 5 ∷ Completes 0 1 true 3 ∷ [])) (state_with flying_second (taken 2)) ≡ false }
    ensures which_is_no_success { is_refused (drive (Knows 0 1 ∷ first_bytes ++ Completes 0 1 true 1 ∷ [])) (state_with flying_second (taken 2)) ≡ true }
{}

/// A Write's block gets bytes that were in the source when they were read.
#[tactic(none)]
pub fn sources()
    ensures not_before_all_are_read { is_refused (drive (Does 0 1 0 false ∷ [])) (state_with flying_second half_read) ≡ true }
    ensures the_byte_that_was_read { block_after 2005 511 (Stores 1 0x31ff 9 ∷ Drives (Sees 0 1 0x2031ff) ∷ Stores 1 0x31ff 5 ∷ Drives (Does 0 1 0 false) ∷ []) (state_with flying_second half_read) ≡ Some 9 }
    ensures with_those_before { block_after 2005 0 (Stores 1 0x31ff 9 ∷ Drives (Sees 0 1 0x2031ff) ∷ Stores 1 0x31ff 5 ∷ Drives (Does 0 1 0 false) ∷ []) (state_with flying_second half_read) ≡ Some 7 }
    ensures once { is_refused (drive (Sees 0 1 0x2031ff ∷ Does 0 1 0 false ∷ Does 0 1 0 false ∷ [])) (state_with flying_second half_read) ≡ true }
    ensures nothing_else_is_read { is_refused (drive (Sees 0 1 0x203200 ∷ [])) (state_with flying_second half_read) ≡ true }
    ensures no_destination_of_it { is_refused (drive (Writes 0 1 0x203000 ∷ [])) (state_with flying_second half_read) ≡ true }
    // A deallocated block may keep its bytes where the set-up does not say that it reads zeros; one that a Write Zeroes clears may not.
    ensures a_deallocated_block_may_stay { chosen false true Manage (ClearBlock 5 false) ≡ Some (LeaveBlock 5) }
    ensures not_where_it_reads_zeros { chosen true true Manage (ClearBlock 5 false) ≡ None }
    ensures nor_may_a_cleared_one { chosen false true Clear (ClearBlock 5 false) ≡ None }
{}

/// A completion's phase tag is written last.
#[tactic(none)]
pub fn completions()
    ensures no_phase_tag_before { is_refused (drive (Answers 0 12 1 ∷ Answers 0 14 1 ∷ [])) (state_with flying_second read_out) ≡ true }
    ensures nor_by_a_number_that_is_no_byte { is_refused (drive (Answers 0 12 65537 ∷ [])) (state_with flying_second read_out) ≡ true }
    // A Reap before it finds nothing, whatever the other bytes are; one after it ends the tag.
    ensures a_reap_before { tag_after 1 (drive first_bytes ++ whole (event.Reap 0) 1) (state_with flying_second read_out)
        ≡ Some (Some (Flying (of_second odd_read 1) odd_share (Queued 0))) }
    ensures a_reap_after { tag_after 1 (drive (first_bytes ++ last_byte ∷ []) ++ whole (event.Reap 0) 13) (state_with flying_second read_out)
        ≡ Some (Some (Ended (of_second odd_read 1) (status 0 0 false) (Some odd_share))) }
    // The dword with the phase tag is read at once: what is written after that is not seen, and the call returns.
    ensures a_reap_meanwhile { tag_after 1 (Begins (event.Reap 0) ∷ GoesOn ∷ drive (first_bytes ++ last_byte ∷ []) ++ GoesOn ∷ []) (state_with flying_second read_out)
        ≡ Some (Some (Flying (of_second odd_read 1) odd_share (Queued 0))) }
    ensures before_it_a_byte_once_more { bytes_after 0x203000 1 (drive (first_bytes ++ Writes 0 1 0x203000 ∷ last_byte ∷ [])) (state_with flying_second read_out)
        ≡ Some (213 ∷ []) }
    ensures after_it_nothing { is_refused (drive (first_bytes ++ last_byte ∷ Writes 0 1 0x203000 ∷ [])) (state_with flying_second read_out) ≡ true }
    ensures nor_a_second_one { is_refused (drive (first_bytes ++ last_byte ∷ first_bytes)) (state_with flying_second read_out) ≡ true }
    ensures of_its_own_queue { is_refused (drive (first_bytes ++ Answers 0 10 2 ∷ last_byte ∷ [])) (state_with flying_second read_out) ≡ true }
    ensures of_its_own_identifier { is_refused (drive (first_bytes ++ Answers 0 12 0 ∷ last_byte ∷ [])) (state_with flying_second read_out) ≡ true }
    // The ring's slots are read up to its tail alone, and an entry that was not read is not taken.
    ensures no_slot_beyond_the_tail { is_refused (drive (SeesEntry 0 1 0 ∷ [])) (state_with flying_second []) ≡ true }
    ensures a_slot_before_it { is_refused (drive (SeesEntry 0 0 63 ∷ [])) (state_with (rung flying_second) []) ≡ false }
    ensures no_byte_behind_it { is_refused (drive (SeesEntry 0 0 64 ∷ [])) (state_with (rung flying_second) []) ≡ true }
    ensures an_entry_that_was_read { is_refused (drive (map (SeesEntry 0 0) (range_with_len 0 64) ++ Takes 0 ∷ [])) (state_with (rung flying_second) []) ≡ false }
    ensures no_entry_unread { is_refused (drive (Takes 0 ∷ [])) (state_with (rung flying_second) []) ≡ true }
{}
