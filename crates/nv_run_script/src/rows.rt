//! Worked examples of the definitions, which the checker computes.

ghost use Rattle.std.specs.Prelude.{◌≡◌, [], ◌∷◌, codes, Ok, Err};
ghost use Rattle.nv_model.specs.declared.act.Act.TheVariants as act;
ghost use Rattle.nv_run_script.specs.declared.line.Task.TheVariants as task;
ghost use Rattle.nv_once_script.specs.declared.once.fault.FaultKind.TheVariants.{BadBytes, BadNumber, MissingWord, OutOfPlace, TooManyWords, UnknownWord};
ghost use Rattle.nv_once_script.specs.declared.once.fault.ScriptFault.TheVariants.{Line};
ghost use Rattle.nv_replay_script.specs.ReplayRows.{extended_by, guest_at};
ghost use Rattle.nv_run_script.specs.RunRows.{behind_set_up, of_lines};
ghost use Rattle.nv_run_script.specs.RunScript.{script_of};

/// The examples of this module, a clause each.
#[tactic(none)]
pub fn examples()
    // The set-up alone.
    ensures set_up_alone { behind_set_up [] ≡ Ok (of_lines []) }
    // An empty text.
    ensures nothing { script_of [] ≡ Err (Line 1 OutOfPlace) }
    // Three sizes and a guest's line.
    ensures a_size_missing { script_of (codes "host 1\nmediator 1\ndisk 1\nawait zz 0 0\n") ≡ Err (Line 4 OutOfPlace) }
    // A map after a guest's line.
    ensures a_late_map { behind_set_up (codes "load 0 0 4" ∷ codes "map 0 0x20000 0 4096" ∷ []) ≡ Err (Line 10 OutOfPlace) }
    // An extent of a guest, and one after a guest's line.
    ensures an_extent { behind_set_up (codes "extent 0 3000 32" ∷ []) ≡ Ok (record (of_lines []) {
      guests = extended_by (record { base = 3000; blocks = 32 } ∷ []) (guest_at 0x100000 1000) ∷ guest_at 0x200000 2000 ∷ [];
    }) }
    ensures a_late_extent { behind_set_up (codes "load 0 0 4" ∷ codes "extent 0 zz 32" ∷ []) ≡ Err (Line 10 OutOfPlace) }
    // Lines of two guests, an empty one and a comment between them: each keeps its number.
    ensures lines { behind_set_up (codes "store 1 0x3000 abCD" ∷ [] ∷ codes "# later" ∷ codes "await 0 0x1101c 0x00010002"
        ∷ codes "awaitreg 1 0x1c 0" ∷ []) ≡ Ok (of_lines
        (record { number = 9; guest = 1; task = task.Act (act.Store 0x3000 (0xab ∷ 0xcd ∷ [])) }
        ∷ record { number = 12; guest = 0; task = task.Await 0x1101c 0x00010002 }
        ∷ record { number = 13; guest = 1; task = task.AwaitReg 0x1c 0 } ∷ [])) }
    // A guest that is not set up: that is seen before the words after its number are read.
    ensures no_such_guest { behind_set_up (codes "load 2 zz 4" ∷ []) ≡ Err (Line 9 OutOfPlace) }
    // The same of a guest that waits.
    ensures no_such_waiting_guest { behind_set_up (codes "await 2 zz 0" ∷ []) ≡ Err (Line 9 OutOfPlace) }
    // A guest's number has 8 bits.
    ensures a_large_guest { behind_set_up (codes "regread 256 0" ∷ []) ≡ Err (Line 9 BadNumber) }
    // Words are counted before they are read.
    ensures a_word_missing { behind_set_up (codes "load zz 4" ∷ []) ≡ Err (Line 9 MissingWord) }
    ensures a_word_too_many { behind_set_up (codes "awaitreg 2 zz 0 0" ∷ []) ≡ Err (Line 9 TooManyWords) }
    // A value has 32 bits, and an offset has.
    ensures a_large_value { behind_set_up (codes "await 0 0 0x100000000" ∷ []) ≡ Err (Line 9 BadNumber) }
    ensures a_large_offset { behind_set_up (codes "awaitreg 0 0x100000000 zz" ∷ []) ≡ Err (Line 9 BadNumber) }
    // Three digits are no bytes.
    ensures odd_digits { behind_set_up (codes "store 0 0x3000 abc" ∷ []) ≡ Err (Line 9 BadBytes) }
    // A line of `replay` alone, whose numbers are not read.
    ensures a_line_of_replay { behind_set_up (codes "take 0 zz 0" ∷ []) ≡ Err (Line 9 OutOfPlace) }
    // A line of `once`, whose words are counted.
    ensures a_line_of_once { behind_set_up (codes "dump 0" ∷ []) ≡ Err (Line 9 MissingWord) }
    // A word of no subcommand.
    ensures an_unknown_word { behind_set_up (codes "wait 0 0 0" ∷ []) ≡ Err (Line 9 UnknownWord) }
{}
