//! What a transcript settles.
ghost use Rattle.std.specs.Prelude.{◌≡◌, ℕ, Bool, List, [], All, length};
ghost use Rattle.nv_model.specs.Dialogue.{Dialogue, asked, in_memory};
ghost use Rattle.nv_model.specs.Judge.{Verdict, judge};
ghost use Rattle.nv_model.specs.Memory.{bytes_from};
ghost use Rattle.nv_model.specs.Parts.{AsksInParts, ShowsOn, reads_met};
ghost use Rattle.nv_model.specs.Transcript.{ReadDone, Settled, in_transcript};

/// A dialogue that asks in parts ends with a transcript as it ends in a memory that the reads show: those that it met,
/// wherever it asks in that memory.
pub fn a_transcript_that_shows_a_memory_settles_its_value<A>()
    ensures { (memory : ℕ → ℕ) (d : Dialogue A) (reads : List ReadDone) (value : A) → AsksInParts d →
        All (ShowsOn memory (asked memory d)) (reads_met d [] reads) → in_transcript d [] reads ≡ Settled value →
        in_memory memory d ≡ value }
{}

/// A verdict that a transcript settles is that of each memory that its reads show: those that were met, wherever
/// judging asks in that memory; or all of them there; or the whole of each.
pub fn a_transcript_that_shows_a_memory_gives_its_verdict()
    ensures met { (mapped : ℕ → Bool) (limit blocks : ℕ) (entry : List ℕ) (memory : ℕ → ℕ) (reads : List ReadDone) (verdict : Verdict) →
        All (ShowsOn memory (asked memory (judge mapped limit blocks entry))) (reads_met (judge mapped limit blocks entry) [] reads) →
        in_transcript (judge mapped limit blocks entry) [] reads ≡ Settled verdict →
        in_memory memory (judge mapped limit blocks entry) ≡ verdict }
    ensures asked { (mapped : ℕ → Bool) (limit blocks : ℕ) (entry : List ℕ) (memory : ℕ → ℕ) (reads : List ReadDone) (verdict : Verdict) →
        All (ShowsOn memory (asked memory (judge mapped limit blocks entry))) reads →
        in_transcript (judge mapped limit blocks entry) [] reads ≡ Settled verdict →
        in_memory memory (judge mapped limit blocks entry) ≡ verdict }
    ensures whole { (mapped : ℕ → Bool) (limit blocks : ℕ) (entry : List ℕ) (memory : ℕ → ℕ) (reads : List ReadDone) (verdict : Verdict) →
        All (λ r. r.bytes ≡ bytes_from memory r.addr (length r.bytes)) reads →
        in_transcript (judge mapped limit blocks entry) [] reads ≡ Settled verdict →
        in_memory memory (judge mapped limit blocks entry) ≡ verdict }
{}
