//! Lists are asked for in parts: what was fetched at once is used up where the next question begins.
ghost use Rattle.std.specs.Prelude.{ℕ, ◌≤◌, Bool, List, All};
ghost use Rattle.nv_mem.specs.Places.{piece_len};
ghost use Rattle.nv_mem.specs.declared.piece.Piece.{Piece};
ghost use Rattle.nv_model.specs.Judge.{judge, read_source};
ghost use Rattle.nv_model.specs.Limits.{part_size};
ghost use Rattle.nv_model.specs.Parts.{AsksInParts};
ghost use Rattle.nv_model.specs.Prp.{read_prp};
ghost use Rattle.nv_model.specs.Sgl.{read_sgl};

/// Lists are asked for in parts, and so are the bytes of a source whose runs are one part each at most.
pub fn lists_are_asked_for_in_parts()
    ensures scatter_gather { (mapped : ℕ → Bool) (dest : Bool) (limit : ℕ) (own : List ℕ) → AsksInParts (read_sgl mapped dest limit own) }
    ensures region_pages { (mapped : ℕ → Bool) (prp1 prp2 len : ℕ) → AsksInParts (read_prp mapped prp1 prp2 len) }
    ensures source { (pieces : List Piece) (bytes : List ℕ) → All (λ piece. piece_len piece ≤ part_size) pieces → AsksInParts (read_source pieces bytes) }
{}

/// And so is all that judging a command asks for.
pub fn judging_asks_in_parts()
    ensures { (mapped : ℕ → Bool) (limit blocks : ℕ) (entry : List ℕ) → AsksInParts (judge mapped limit blocks entry) }
{}
