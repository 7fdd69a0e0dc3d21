//! What a dialogue comes to and asks for, whatever answers it: one memory, a transcript, or memory that changes from
//! question to question.
ghost use Rattle.std.specs.Prelude.{◌≡◌, ℕ, ◌≤◌, Bool, true, List, [], All, Some, length};
ghost use Rattle.std.specs.List.{list_all};
ghost use Rattle.nv_entry.specs.Opcode.{io_opcode};
ghost use Rattle.nv_entry.specs.Submission.{opcode_of};
ghost use Rattle.nv_mem.specs.Places.{places_of, total_len};
ghost use Rattle.nv_mem.specs.declared.piece.Piece.{Piece};
ghost use Rattle.nv_model.specs.Dialogue.{Dialogue, asked, in_memory};
ghost use Rattle.nv_model.specs.Endings.{IsPartFor, MayAsk, MayEndIn};
ghost use Rattle.nv_model.specs.Judge.{Verdict, Work, Go, Manage, form_of, form_units, judge, range_count_of, range_fits, transfer_len};
ghost use Rattle.nv_model.specs.Laws.{IsMappedPiece, IsMappedPlace, IsMappedSpan, IsUnitWithin, still_wanted};
ghost use Rattle.nv_model.specs.Limits.{most_bytes, part_size};
ghost use Rattle.nv_model.specs.Parts.{AsksInParts};
ghost use Rattle.nv_model.specs.Prp.{read_prp};
ghost use Rattle.nv_model.specs.Reading.{Spells};
ghost use Rattle.nv_model.specs.Sgl.{read_sgl};
ghost use Rattle.nv_model.specs.Transcript.{ReadDone, Settled, Wanted, fed, in_transcript, part};

/// Some answers lead a dialogue to its value in a memory, to all that it asks for there, and to all that is wanted
/// where it asks.
pub fn a_memory_gives_some_answers<A>()
    ensures ends { (memory : ℕ → ℕ) (d : Dialogue A) → MayEndIn d (in_memory memory d) }
    ensures asks { (memory : ℕ → ℕ) (d : Dialogue A) → All (λ span. (left : ℕ) × MayAsk d span.0 span.1 left) (asked memory d) }
    ensures wants { (memory : ℕ → ℕ) (d : Dialogue A) → All (λ span. (unit : ℕ) × MayAsk d span.0 unit span.1) (still_wanted memory d) }
{}

/// Where it asks in parts, some answers lead it to the value in which a transcript settles, and to what it wants.
pub fn a_transcript_gives_some_answers<A>()
    ensures settled { (d : Dialogue A) (reads : List ReadDone) (value : A) → AsksInParts d →
        in_transcript d [] reads ≡ Settled value → MayEndIn d value }
    ensures wanted { (d : Dialogue A) (reads : List ReadDone) (addr len : ℕ) → AsksInParts d →
        in_transcript d [] reads ≡ Wanted addr len → (unit : ℕ) × ((left : ℕ) × ((len ≡ part left) × MayAsk d addr unit left)) }
{}

/// Where it asks in parts and is fed what it wants, it asks in parts, and ends and asks as it may without.
pub fn what_is_fed_is_some_answer<A>()
    ensures ends { (d : Dialogue A) (bytes : List ℕ) (value : A) → AsksInParts d → IsPartFor d bytes →
        MayEndIn (fed d bytes) value → MayEndIn d value }
    ensures asks { (d : Dialogue A) (bytes : List ℕ) (addr unit left : ℕ) → AsksInParts d → IsPartFor d bytes →
        MayAsk (fed d bytes) addr unit left → MayAsk d addr unit left }
    ensures parts { (d : Dialogue A) (bytes : List ℕ) → AsksInParts d → IsPartFor d bytes → AsksInParts (fed d bytes) }
{}

/// So some answers lead to each verdict over a transcript.
pub fn a_verdict_over_a_transcript_is_given_by_some_answers()
    ensures { (mapped : ℕ → Bool) (limit blocks : ℕ) (entry : List ℕ) (reads : List ReadDone) (verdict : Verdict) →
        in_transcript (judge mapped limit blocks entry) [] reads ≡ Settled verdict → MayEndIn (judge mapped limit blocks entry) verdict }
{}

/// Whatever answers, each run that a list spells is mapped wholly.
pub fn lists_spell_mapped_runs_whatever_answers()
    ensures scatter_gather { (mapped : ℕ → Bool) (dest : Bool) (limit : ℕ) (own : List ℕ) (pieces : List Piece) →
        MayEndIn (read_sgl mapped dest limit own) (Spells pieces) → All (IsMappedPiece mapped) pieces }
    ensures region_pages { (mapped : ℕ → Bool) (prp1 prp2 len : ℕ) (pieces : List Piece) →
        MayEndIn (read_prp mapped prp1 prp2 len) (Spells pieces) → All (IsMappedPiece mapped) pieces }
{}

/// And what PRP1 and PRP2 spell has the transfer's length.
pub fn region_pages_have_the_transfers_length_whatever_answers()
    ensures { (mapped : ℕ → Bool) (prp1 prp2 len : ℕ) (pieces : List Piece) →
        MayEndIn (read_prp mapped prp1 prp2 len) (Spells pieces) → total_len pieces ≡ len }
{}

/// What is asked for is mapped, and so is all that is wanted there.
pub fn mapped_memory_is_asked_for_whatever_answers()
    ensures scatter_gather { (mapped : ℕ → Bool) (dest : Bool) (limit : ℕ) (own : List ℕ) (addr unit left : ℕ) →
        MayAsk (read_sgl mapped dest limit own) addr unit left → IsMappedSpan mapped (addr, left) × (unit ≤ left) }
    ensures region_pages { (mapped : ℕ → Bool) (prp1 prp2 len addr unit left : ℕ) →
        MayAsk (read_prp mapped prp1 prp2 len) addr unit left → IsMappedSpan mapped (addr, left) × (unit ≤ left) }
    ensures judging { (mapped : ℕ → Bool) (limit blocks : ℕ) (entry : List ℕ) (addr unit left : ℕ) →
        MayAsk (judge mapped limit blocks entry) addr unit left → IsMappedSpan mapped (addr, left) × (unit ≤ left) }
{}

/// So what a transcript still wants of a command's lists is mapped, and at most 4,096 bytes.
pub fn mapped_memory_is_wanted_of_a_transcript()
    ensures { (mapped : ℕ → Bool) (limit blocks : ℕ) (entry : List ℕ) (reads : List ReadDone) (addr len : ℕ) →
        in_transcript (judge mapped limit blocks entry) [] reads ≡ Wanted addr len → IsMappedSpan mapped (addr, len) × (len ≤ part_size) }
{}

/// Whatever answers, the work of a verdict that goes is that of the command's opcode.
pub fn work_is_the_commands_whatever_answers()
    ensures { (mapped : ℕ → Bool) (limit blocks : ℕ) (entry : List ℕ) (work : Work) →
        MayEndIn (judge mapped limit blocks entry) (Go work) → io_opcode (opcode_of entry) ≡ Some work.opcode }
{}

/// Its buffer is mapped, and has the transfer's length, 131,072 bytes at most.
pub fn buffer_is_mapped_whatever_answers()
    ensures pieces { (mapped : ℕ → Bool) (limit blocks : ℕ) (entry : List ℕ) (work : Work) →
        MayEndIn (judge mapped limit blocks entry) (Go work) → All (IsMappedPiece mapped) work.pieces }
    ensures places { (mapped : ℕ → Bool) (limit blocks : ℕ) (entry : List ℕ) (work : Work) →
        MayEndIn (judge mapped limit blocks entry) (Go work) → All (IsMappedPlace mapped) (places_of work.pieces) }
    ensures length { (mapped : ℕ → Bool) (limit blocks : ℕ) (entry : List ℕ) (work : Work) →
        MayEndIn (judge mapped limit blocks entry) (Go work) → total_len work.pieces ≡ transfer_len work.opcode entry }
    ensures most { (mapped : ℕ → Bool) (limit blocks : ℕ) (entry : List ℕ) (work : Work) →
        MayEndIn (judge mapped limit blocks entry) (Go work) → total_len work.pieces ≤ most_bytes }
{}

/// Its units lie in the namespace, and are those of a command of its form: of a Dataset Management, those of as many
/// ranges as it names, each in the namespace.
pub fn units_are_the_commands_whatever_answers()
    ensures within { (mapped : ℕ → Bool) (limit blocks : ℕ) (entry : List ℕ) (work : Work) →
        MayEndIn (judge mapped limit blocks entry) (Go work) → All (IsUnitWithin blocks) work.units }
    ensures those { (mapped : ℕ → Bool) (limit blocks : ℕ) (entry : List ℕ) (work : Work) →
        MayEndIn (judge mapped limit blocks entry) (Go work) →
        (work.units ≡ form_units (form_of work.opcode) blocks entry work.ranges) × ((list_all (range_fits blocks) work.ranges ≡ true)
        × (form_of work.opcode ≡ Manage → length work.ranges ≡ range_count_of entry)) }
{}
