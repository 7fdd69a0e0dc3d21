//! What is asked of places before bytes are copied.
ghost use Rattle.std.specs.Prelude.{◌≡◌, ◌≤◌, ◌^◌, ◌↔◌, All, IsTrue, MatchOption};
ghost use Rattle.nv_mem.specs.GuestMap.{mapped};
ghost use Rattle.nv_mem.specs.Places.{total_len};
ghost use Rattle.nv_model.specs.Laws.{IsMappedPiece};
ghost use Rattle.nv_bounce.specs.Bounce.{NamesNoBucket};

use nv_mem::{GuestMap, Piece, Places, len_of};

/// Whether each address of the places is mapped. Buckets name none.
pub fn are_mapped(places: &Places, map: &GuestMap) -> bool
    ensures { IsTrue result ↔ All (IsMappedPiece (mapped map.now.regions)) places.now }
{
    places.pieces().iter().all(|piece| is_mapped(piece, map))
}

/// Whether no place is a bucket.
pub fn name_no_bucket(places: &Places) -> bool
    ensures { IsTrue result ↔ All NamesNoBucket places.now }
{
    places.pieces().iter().all(names_no_bucket)
}

/// How many bytes the places name, or `None` for 2 to the 64 and more.
pub fn total_len(places: &Places) -> Option<u64>
    ensures { MatchOption result (2 ^ 64 ≤ total_len places.now) (λ len. len ≡ total_len places.now) }
{
    let mut total: u64 = 0;
    for piece in places.pieces() {
        total = total.checked_add(len_of(piece))?;
    }
    Some(total)
}

// Whether each address of the piece is mapped.
fn is_mapped(piece: &Piece, map: &GuestMap) -> bool
    ensures { IsTrue result ↔ IsMappedPiece (mapped map.now.regions) piece.now }
{
    match *piece {
        Piece::Run { addr, len } => map.holds(addr, len),
        Piece::Bucket { .. } => true,
    }
}

// Whether the piece names no bucket.
fn names_no_bucket(piece: &Piece) -> bool
    ensures { IsTrue result ↔ NamesNoBucket piece.now }
{
    match *piece {
        Piece::Run { .. } => true,
        Piece::Bucket { len } => len == 0,
    }
}
