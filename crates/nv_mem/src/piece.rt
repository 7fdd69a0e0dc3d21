//! One piece of a list of places.

ghost use Rattle.std.specs.Prelude.{◌≡◌};
ghost use Rattle.nv_mem.specs.Places.{piece_len};

/// Part of a list of places, as the guest's list named it.
#[derive(Clone, Copy, Debug, PartialEq, Eq)]
pub enum Piece {
    /// The bytes of a stretch of the guest's memory.
    Run {
        /// The guest address of the first byte.
        addr: u64,
        /// How many bytes there are.
        len: u64,
    },
    /// Bytes that go nowhere.
    Bucket {
        /// How many bytes there are.
        len: u64,
    },
}

/// How many bytes a piece names.
#[inline(always)]
pub fn len_of(piece: &Piece) -> u64
    ensures { result ≡ piece_len piece.now }
{
    match *piece {
        Piece::Run { len, .. } | Piece::Bucket { len } => len,
    }
}
