//! Worked examples of the definitions, which the checker computes.

ghost use Rattle.std.specs.Prelude.{◌≡◌, [], ◌∷◌, codes, true, Ok, Err};
ghost use Rattle.nv_entry.specs.Status.{status};
ghost use Rattle.nv_model.specs.declared.act.Act.TheVariants as act;
ghost use Rattle.nv_world_model.specs.declared.event.Event.TheVariants as event;
ghost use Rattle.nv_once_script.specs.declared.once.fault.FaultKind.TheVariants.{BadBytes, BadNumber, MissingWord, OutOfPlace, UnknownWord};
ghost use Rattle.nv_once_script.specs.declared.once.fault.ScriptFault.TheVariants.{Line};
ghost use Rattle.nv_replay_script.specs.ReplayRows.{behind_set_up, behind_sizes, extended_by, guest_at, limited_to, of_events, sized};
ghost use Rattle.nv_replay_script.specs.ReplayScript.{script_of};

/// The examples of this module, a clause each.
#[tactic(none)]
pub fn examples()
    // The set-up alone.
    ensures set_up_alone { behind_set_up [] ≡ Ok (of_events []) }
    // A set-up needs no guest.
    ensures no_guest { behind_sizes [] ≡ Ok (sized [] []) }
    // An empty text.
    ensures nothing { script_of [] ≡ Err (Line 1 OutOfPlace) }
    // Three sizes and an event.
    ensures a_size_missing { script_of (codes "host 1\nmediator 1\ndisk 1\nkeep zz\n") ≡ Err (Line 4 OutOfPlace) }
    // Three sizes, and no more.
    ensures an_end_without_sizes { script_of (codes "host 1\nmediator 1\ndisk 1\n\n") ≡ Err (Line 4 OutOfPlace) }
    // A size named twice.
    ensures a_second_size { behind_sizes (codes "lanes zz" ∷ []) ≡ Err (Line 5 OutOfPlace) }
    // A map after an event.
    ensures a_late_map { behind_set_up (codes "reap 0" ∷ codes "map 0 0x20000 0 4096" ∷ []) ≡ Err (Line 10 OutOfPlace) }
    // A guest that is not the next.
    ensures a_guest_too_far { behind_set_up (codes "guest 3 range zz 1 heap 256" ∷ []) ≡ Err (Line 9 OutOfPlace) }
    // A region of a guest that is not there yet.
    ensures a_map_too_early { behind_set_up (codes "map 2 zz 0 4096" ∷ []) ≡ Err (Line 9 OutOfPlace) }
    // Two extents after a guest's first, in the order written: they are judged with the set-up.
    ensures extents { behind_set_up (codes "extent 1 0xffffffffffffffff 1" ∷ codes "extent 1 2000 0" ∷ []) ≡ Ok (sized
        (guest_at 0x100000 1000
        ∷ extended_by (record { base = 0xffffffffffffffff; blocks = 1 } ∷ record { base = 2000; blocks = 0 } ∷ []) (guest_at 0x200000 2000) ∷ []) []) }
    // One of a guest that is not there yet, and one after an event.
    ensures an_extent_too_early { behind_set_up (codes "extent 2 zz 8" ∷ []) ≡ Err (Line 9 OutOfPlace) }
    ensures a_late_extent { behind_set_up (codes "reap 0" ∷ codes "extent 0 zz 8" ∷ []) ≡ Err (Line 10 OutOfPlace) }
    // A word that is no number, and one that is missing.
    ensures an_extent_of_letters { behind_set_up (codes "extent 0 3000 zz" ∷ []) ≡ Err (Line 9 BadNumber) }
    ensures an_extent_cut_short { behind_set_up (codes "extent 2 zz" ∷ []) ≡ Err (Line 9 MissingWord) }
    // A limit on the descriptors of a list, which is judged with the set-up.
    ensures a_limit { behind_set_up (codes "descriptors 1 5000" ∷ [])
        ≡ Ok (sized (guest_at 0x100000 1000 ∷ limited_to 5000 (guest_at 0x200000 2000) ∷ []) []) }
    // A second one for a guest.
    ensures a_second_limit { behind_set_up (codes "descriptors 0 1" ∷ codes "descriptors 0 zz" ∷ []) ≡ Err (Line 10 OutOfPlace) }
    // One of a guest that is not there yet, and one after an event.
    ensures a_limit_too_early { behind_set_up (codes "descriptors 2 zz" ∷ []) ≡ Err (Line 9 OutOfPlace) }
    ensures a_late_limit { behind_set_up (codes "reap 0" ∷ codes "descriptors 0 1" ∷ []) ≡ Err (Line 10 OutOfPlace) }
    // A word that is no number.
    ensures a_limit_of_letters { behind_set_up (codes "descriptors 0 zz" ∷ []) ≡ Err (Line 9 BadNumber) }
    // A word at the position of `heap`.
    ensures no_heap { behind_set_up (codes "guest 2 range 0 1 pile 0" ∷ []) ≡ Err (Line 9 UnknownWord) }
    // A heap that is one byte too small.
    ensures a_small_heap { behind_set_up (codes "guest 2 range 0 1 heap 255" ∷ []) ≡ Err (Line 9 BadNumber) }
    // Three digits are no bytes.
    ensures odd_digits { behind_set_up (codes "store 0 0x3000 abc" ∷ []) ≡ Err (Line 9 BadBytes) }
    // `store` has two words under `once`, and three here.
    ensures store_without_a_guest { behind_set_up (codes "store 0x3000 abcd" ∷ []) ≡ Err (Line 9 MissingWord) }
    // A line of `run`.
    ensures a_foreign_line { behind_set_up (codes "await 0 0 0" ∷ []) ≡ Err (Line 9 OutOfPlace) }
    // Bytes, as digits and as a number of equal ones, of a guest that there is and one that there is not.
    ensures stores { behind_set_up (codes "store 0 0x3000 abCD" ∷ codes "fill 9 1 2 0xff" ∷ []) ≡ Ok (of_events
        (event.Guest 0 (act.Store 0x3000 (0xab ∷ 0xcd ∷ [])) ∷ event.Guest 9 (act.Store 1 (0xff ∷ 0xff ∷ [])) ∷ [])) }
    // A doorbell's value has 32 bits.
    ensures a_doorbell { behind_set_up (codes "bell 0 0x1000 0xffffffff" ∷ []) ≡ Ok (of_events (event.Guest 0 (act.Doorbell 0x1000 0xffffffff) ∷ [])) }
    // One more has not.
    ensures a_large_value { behind_set_up (codes "bell 0 0x1000 0x100000000" ∷ []) ≡ Err (Line 9 BadNumber) }
    // A queue has 16 bits.
    ensures a_take { behind_set_up (codes "take 0 65535 255" ∷ []) ≡ Ok (of_events (event.Take 0 65535 255 ∷ [])) }
    // A status: its type has 3 bits, and DNR one.
    ensures a_failure { behind_set_up (codes "devfail 0 63 7 0x81 1" ∷ []) ≡ Ok (of_events (event.DevFail 0 63 (status 7 0x81 true) ∷ [])) }
    // A type of 4 bits.
    ensures a_large_status { behind_set_up (codes "devfail 0 63 8 zz 1" ∷ []) ≡ Err (Line 9 BadNumber) }
{}
