//! What lies at unmapped addresses and in blocks past the namespace has no bearing on what is visible.
ghost use Rattle.std.specs.Prelude.{◌≡◌, ℕ, List, All, Some};
ghost use Rattle.nv_model.specs.Dialogue.{asked};
ghost use Rattle.nv_model.specs.Judge.{judge};
ghost use Rattle.nv_model.specs.Private.{After, Private, Run, Shape, Step, run_of, start_with, step};
ghost use Rattle.nv_model.specs.Laws.{IsInPlace, IsMappedSpan, LookAlike, RunsAlike, StepsAlike, still_wanted};

/// What the judging of a command reads is mapped, whatever the memory holds.
pub fn judging_reads_mapped_memory()
    ensures { (shape : Shape) (memory : ℕ → ℕ) (entry : List ℕ) →
        All (IsMappedSpan shape.mapped) (asked memory (judge shape.mapped shape.limit shape.blocks entry)) }
{}

/// And so is all that it still wants where it reads, so that whoever reads for it may read whole parts.
pub fn judging_wants_mapped_memory()
    ensures { (shape : Shape) (memory : ℕ → ℕ) (entry : List ℕ) →
        All (IsMappedSpan shape.mapped) (still_wanted memory (judge shape.mapped shape.limit shape.blocks entry)) }
{}

/// Queues lie in mapped memory, and commands work in mapped memory and in the namespace: so it is at the start, and so it stays.
pub fn states_stay_in_place()
    ensures start { (shape : Shape) (memory : ℕ → ℕ) (disk : ℕ → ℕ → ℕ) → IsInPlace shape (start_with memory disk) }
    ensures step { (shape : Shape) (s : Step) (p : Private) (a : After) →
        IsInPlace shape p → step shape s p ≡ Some a → IsInPlace shape a.state }
    ensures run { (shape : Shape) (steps : List Step) (p : Private) (r : Run) →
        IsInPlace shape p → run_of shape steps p ≡ Some r → IsInPlace shape r.state }
{}

/// A step does the same to states that look alike: it can be made in both or in neither, with equal replies, and leads to states that look alike.
pub fn steps_do_the_same()
    ensures { (shape : Shape) (s : Step) (p q : Private) →
        LookAlike shape p q → IsInPlace shape p → StepsAlike shape (step shape s p) (step shape s q) }
{}

/// A run does the same from states that look alike: it gives equal replies, and leads to states that look alike.
pub fn runs_do_the_same()
    ensures alike { (shape : Shape) (steps : List Step) (p q : Private) →
        LookAlike shape p q → IsInPlace shape p → RunsAlike shape (run_of shape steps p) (run_of shape steps q) }
    ensures seen { (shape : Shape) (steps : List Step) (p q : Private) (r s : Run) →
        LookAlike shape p q → IsInPlace shape p →
        run_of shape steps p ≡ Some r → run_of shape steps q ≡ Some s → r.seen ≡ s.seen }
    ensures from_start { (memory : ℕ → ℕ) (disk : ℕ → ℕ → ℕ) (shape : Shape) (before steps : List Step) (r : Run) (q : Private) →
        run_of shape before (start_with memory disk) ≡ Some r → LookAlike shape r.state q →
        RunsAlike shape (run_of shape steps r.state) (run_of shape steps q) }
{}
