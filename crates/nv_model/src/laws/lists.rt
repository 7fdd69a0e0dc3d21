//! What lists spell, whatever the memory holds.
ghost use Rattle.std.specs.Prelude.{◌≡◌, ℕ, Bool, List, [], All};
ghost use Rattle.nv_entry.specs.Submission.{prp1_of, prp2_of};
ghost use Rattle.nv_mem.specs.Places.{total_len};
ghost use Rattle.nv_mem.specs.declared.piece.Piece.{Piece};
ghost use Rattle.nv_model.specs.Dialogue.{End, and_then, asked, in_memory};
ghost use Rattle.nv_model.specs.Judge.{sized};
ghost use Rattle.nv_model.specs.Reading.{Spells};
ghost use Rattle.nv_model.specs.Sgl.{read_sgl};
ghost use Rattle.nv_model.specs.Prp.{read_prp};
ghost use Rattle.nv_model.specs.Admin.{identify_reading};
ghost use Rattle.nv_model.specs.Laws.{IsMappedPiece, IsMappedSpan};
ghost use Rattle.nv_model.specs.Limits.{page};

/// Each run that a scatter gather list spells is mapped wholly, and so is each that PRP1 and PRP2 spell.
pub fn lists_spell_mapped_runs()
    ensures scatter_gather { (mapped : ℕ → Bool) (dest : Bool) (limit : ℕ) (own : List ℕ) (memory : ℕ → ℕ) (pieces : List Piece) →
        in_memory memory (read_sgl mapped dest limit own) ≡ Spells pieces → All (IsMappedPiece mapped) pieces }
    ensures region_pages { (mapped : ℕ → Bool) (prp1 prp2 len : ℕ) (memory : ℕ → ℕ) (pieces : List Piece) →
        in_memory memory (read_prp mapped prp1 prp2 len) ≡ Spells pieces → All (IsMappedPiece mapped) pieces }
{}

/// What is read of a list is mapped, however long the transfer is and whatever the memory holds.
pub fn lists_are_read_in_mapped_memory()
    ensures scatter_gather { (mapped : ℕ → Bool) (dest : Bool) (limit : ℕ) (own : List ℕ) (memory : ℕ → ℕ) →
        All (IsMappedSpan mapped) (asked memory (read_sgl mapped dest limit own)) }
    ensures region_pages { (mapped : ℕ → Bool) (prp1 prp2 len : ℕ) (memory : ℕ → ℕ) →
        All (IsMappedSpan mapped) (asked memory (read_prp mapped prp1 prp2 len)) }
{}

/// What PRP1 and PRP2 spell always has the transfer's length.
pub fn region_pages_have_the_transfers_length()
    ensures { (mapped : ℕ → Bool) (prp1 prp2 len : ℕ) (memory : ℕ → ℕ) (pieces : List Piece) →
        in_memory memory (read_prp mapped prp1 prp2 len) ≡ Spells pieces → total_len pieces ≡ len }
{}

/// So none is refused for its length, and its reading is the same with that check after it.
pub fn region_pages_are_sized()
    ensures { (mapped : ℕ → Bool) (prp1 prp2 len : ℕ) →
        and_then (read_prp mapped prp1 prp2 len) (λ reading. End (sized len reading)) ≡ read_prp mapped prp1 prp2 len }
{}

/// The 4,096 bytes of Identify need no list: nothing is read in memory, and so their reading is the same in every memory.
pub fn identify_reads_no_list()
    ensures nothing { (mapped : ℕ → Bool) (memory : ℕ → ℕ) (prp1 prp2 : ℕ) → asked memory (read_prp mapped prp1 prp2 page) ≡ [] }
    ensures in_any_memory { (mapped : ℕ → Bool) (memory : ℕ → ℕ) (entry : List ℕ) →
        in_memory memory (read_prp mapped (prp1_of entry) (prp2_of entry) page) ≡ identify_reading mapped entry }
{}
