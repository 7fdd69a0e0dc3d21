//! What is read in two memories.
ghost use Rattle.std.specs.Prelude.{◌≡◌, ℕ, List};
ghost use Rattle.nv_model.specs.Dialogue.{Dialogue, asked, in_memory};
ghost use Rattle.nv_model.specs.Judge.{judge};
ghost use Rattle.nv_model.specs.Footprint.{io_named};
ghost use Rattle.nv_model.specs.Private.{Shape, verdict_in};
ghost use Rattle.nv_model.specs.Laws.{AgreeOn};

/// A dialogue ends in the same value in two memories that agree on what it asks for, and asks for the same.
pub fn dialogue_depends_on_what_it_asks_for<A>()
    ensures value { (memory other : ℕ → ℕ) (d : Dialogue A) → AgreeOn memory other (asked memory d) → in_memory other d ≡ in_memory memory d }
    ensures asked { (memory other : ℕ → ℕ) (d : Dialogue A) → AgreeOn memory other (asked memory d) → asked other d ≡ asked memory d }
{}

/// A command gets the same verdict in two memories that agree on what its judging asks for, and names the same bytes.
pub fn verdict_depends_on_what_is_read()
    ensures verdict { (shape : Shape) (memory other : ℕ → ℕ) (entry : List ℕ) →
        AgreeOn memory other (asked memory (judge shape.mapped shape.limit shape.blocks entry)) →
        verdict_in shape other entry ≡ verdict_in shape memory entry }
    ensures asked { (shape : Shape) (memory other : ℕ → ℕ) (entry : List ℕ) →
        AgreeOn memory other (asked memory (judge shape.mapped shape.limit shape.blocks entry)) →
        asked other (judge shape.mapped shape.limit shape.blocks entry) ≡ asked memory (judge shape.mapped shape.limit shape.blocks entry) }
    ensures named { (shape : Shape) (memory other : ℕ → ℕ) (entry : List ℕ) →
        AgreeOn memory other (asked memory (judge shape.mapped shape.limit shape.blocks entry)) →
        io_named shape other entry ≡ io_named shape memory entry }
{}
