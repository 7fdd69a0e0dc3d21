//! What the definitions of this crate come to, as functions that do nothing: each contract is a law.
ghost use Rattle.std.specs.Prelude.{◌≡◌, ℕ};
ghost use Rattle.nv_model.specs.Dialogue.{in_memory};
ghost use Rattle.nv_model.specs.Memory.{bytes_from};
ghost use Rattle.nv_model.specs.Transcript.{fed};
ghost use Rattle.nv_sgl.specs.Parse.{Parse, dialogue_of};
ghost use Rattle.nv_model.specs.Want.{want_of};
ghost use Rattle.nv_model.specs.declared.want.Want.{Want};
ghost use Rattle.nv_model.specs.declared.want.Want.TheVariants as want;

/// A parse that is fed the bytes that a memory shows at what it wants ends in this memory as it would have without them.
pub fn feeding_what_a_memory_shows_keeps_the_end()
    ensures { (memory : ℕ → ℕ) (p : Parse) (addr len : ℕ) → want_of (dialogue_of p) ≡ want.Read addr len →
        in_memory memory (fed (dialogue_of p) (bytes_from memory addr len)) ≡ in_memory memory (dialogue_of p) }
{}
