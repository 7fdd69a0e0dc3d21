//! What a dialogue that is fed comes to.
ghost use Rattle.std.specs.Prelude.{◌≡◌, ℕ, [], List};
ghost use Rattle.nv_model.specs.Dialogue.{Dialogue};
ghost use Rattle.nv_model.specs.Transcript.{ReadDone, fed, in_transcript};

/// What a transcript has of the part that was met last is fed to the dialogue.
pub fn a_part_that_was_met_is_fed<A>()
    ensures { (d : Dialogue A) (bytes : List ℕ) (reads : List ReadDone) →
        in_transcript d bytes reads ≡ in_transcript (fed d bytes) [] reads }
{}
