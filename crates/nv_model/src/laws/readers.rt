//! What a reader comes to that takes reads one after the other, and one that reads in a memory what is wanted.
ghost use Rattle.std.specs.Prelude.{◌≡◌, ℕ, ◌++◌, Bool, List, []};
ghost use Rattle.nv_model.specs.Dialogue.{Dialogue, in_memory};
ghost use Rattle.nv_model.specs.Endings.{MayAsk, MayEndIn};
ghost use Rattle.nv_model.specs.Judge.{judge};
ghost use Rattle.nv_model.specs.Parts.{AsksInParts, reads_met};
ghost use Rattle.nv_model.specs.Readers.{given_all, reads_in, standing};
ghost use Rattle.nv_model.specs.Transcript.{ReadDone, Settled, in_transcript};

/// A transcript is taken read by read: one that is wanted is fed to the dialogue, and any other changes nothing. So further reads are taken by what
/// is left of the dialogue, and the reads that it meets come after those that were met.
pub fn reads_are_taken_one_after_the_other<A>()
    ensures each { (d : Dialogue A) (reads : List ReadDone) → in_transcript d [] reads ≡ standing (given_all d reads) }
    ensures further { (d : Dialogue A) (reads more : List ReadDone) →
        in_transcript d [] (reads ++ more) ≡ in_transcript (given_all d reads) [] more }
    ensures met { (d : Dialogue A) (reads more : List ReadDone) →
        reads_met d [] (reads ++ more) ≡ reads_met d [] reads ++ reads_met (given_all d reads) [] more }
{}

/// A value that is settled stays, whatever is read then.
pub fn a_settled_value_stays<A>()
    ensures { (d : Dialogue A) (reads more : List ReadDone) (value : A) →
        in_transcript d [] reads ≡ Settled value → in_transcript d [] (reads ++ more) ≡ Settled value }
{}

/// A dialogue that asks in parts does so after each read, and then ends and asks as it may without that read.
pub fn what_is_read_is_some_answer<A>()
    ensures ends { (d : Dialogue A) (reads : List ReadDone) (value : A) → AsksInParts d → MayEndIn (given_all d reads) value → MayEndIn d value }
    ensures asks { (d : Dialogue A) (reads : List ReadDone) (addr unit left : ℕ) → AsksInParts d →
        MayAsk (given_all d reads) addr unit left → MayAsk d addr unit left }
    ensures parts { (d : Dialogue A) (reads : List ReadDone) → AsksInParts d → AsksInParts (given_all d reads) }
{}

/// What a dialogue wants that asks in parts, read in a memory when it is wanted, settles its value in that memory.
pub fn reads_in_a_memory_settle_its_value<A>()
    ensures { (memory : ℕ → ℕ) (d : Dialogue A) → AsksInParts d → in_transcript d [] (reads_in memory d []) ≡ Settled (in_memory memory d) }
{}

/// So each verdict in a memory is settled by some reads.
pub fn reads_in_a_memory_settle_its_verdict()
    ensures { (mapped : ℕ → Bool) (limit blocks : ℕ) (entry : List ℕ) (memory : ℕ → ℕ) →
        in_transcript (judge mapped limit blocks entry) [] (reads_in memory (judge mapped limit blocks entry) [])
        ≡ Settled (in_memory memory (judge mapped limit blocks entry)) }
{}
