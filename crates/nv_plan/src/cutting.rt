//! Places that are cut into those of several physical commands.

ghost use Rattle.std.specs.Prelude.{◌≡◌, ◌+◌, ◌-◌, ◌<◌, ◌≤◌, ◌^◌, ◌++◌, All, IfOk, OnOk, length, map};
ghost use Rattle.nv_mem.specs.Places.{piece_len};
ghost use Rattle.nv_ns.specs.Extents.{Cut, most_extents};
ghost use Rattle.nv_plan.specs.Told.{IsAddressed, cut_places, portion_cut};
ghost use Rattle.nv_world_model.specs.Share.{cut_piece};

use crate::ends::Ends;
use crate::portions::Portions;
use nv_mem::{NoMemory, Piece, Places, len_of};
use nv_model::limits::BLOCK_SIZE;
use nv_ns::Part;
use std::alloc::Global;

/// What each part of a transfer's blocks has of its places. It takes two blocks of memory.
pub(crate) fn cut_up(alloc: Global, pieces: &[Piece], parts: &[Part]) -> Result<Portions, NoMemory>
    requires few { length parts.now ≤ most_extents }
    requires small { All (λ (cut : Cut). cut.first + cut.count ≤ 2 ^ 16) parts.now }
    requires addressed { All IsAddressed pieces.now }
    ensures { IfOk result (λ portions. portions ≡ map (portion_cut pieces.now) parts.now) }
{
    let mut places = Places::new(alloc);
    // A piece that two parts share becomes two.
    places.reserve(pieces.len() + parts.len())?;
    let mut ends = Ends::none();
    for part in parts {
        let skip = BLOCK_SIZE as u64 * part.first();
        let len = BLOCK_SIZE as u64 * part.count();
        cut_out(pieces, skip, len, &mut places)?;
        ends.push(places.pieces().len() as u32);
    }
    Portions::placed(alloc, places, ends)
}

// Adds `len` bytes of a buffer after its first `skip` to these places.
fn cut_out(pieces: &[Piece], skip: u64, len: u64, places: &mut Places) -> Result<(), NoMemory>
    requires { All IsAddressed pieces.now }
    ensures { OnOk result (places.new ≡ places.old ++ cut_places skip len pieces.now) }
{
    let mut ahead = skip;
    let mut left = len;
    let mut rest = pieces;
    while let Some((piece, behind)) = rest.split_first() {
        if left == 0 {
            return Ok(());
        }
        let size = len_of(piece);
        let here = size.saturating_sub(ahead).min(left);
        if here > 0 {
            places.push(cut(*piece, ahead, here))?;
        }
        left -= here;
        ahead = ahead.saturating_sub(size);
        rest = behind;
    }
    Ok(())
}

// So many bytes of a piece after its first `skip`.
fn cut(piece: Piece, skip: u64, len: u64) -> Piece
    requires some { skip < piece_len piece }
    requires fits { len ≤ piece_len piece - skip }
    requires addressed { IsAddressed piece }
    ensures { result ≡ cut_piece skip len piece }
{
    match piece {
        Piece::Run { addr, len: _ } => Piece::Run {
            addr: addr + skip,
            len,
        },
        Piece::Bucket { len: _ } => Piece::Bucket { len },
    }
}
