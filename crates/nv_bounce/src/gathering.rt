//! The bytes at a guest's places, copied to a slot.
ghost use Rattle.std.specs.Prelude.{◌≡◌, All, false, length, true};
ghost use Rattle.nv_mem.specs.Bytes.{InMemory};
ghost use Rattle.nv_mem.specs.GuestMap.{everywhere, mapped, span_met};
ghost use Rattle.nv_mem.specs.Places.{addresses, piece_len, places_of, places_of_piece, total_len};
ghost use Rattle.nv_model.specs.Laws.{IsMappedPiece};
ghost use Rattle.nv_model.specs.Memory.{byte_in, gathered, image, stored};
ghost use Rattle.nv_bounce.specs.Bounce.{NamesNoBucket, gathered_to};

use nv_mem::{GuestMap, MemoryCell, Piece, len_of};

/// Copies the bytes at a guest's places to the slot, in order. No other byte of the host changes.
///
/// `slot` is the host address of the slot's first byte. The caller knows
/// - that the map was made for a host of this length ([`GuestMap::host_len`] returns it),
/// - that the places' addresses are mapped ([`crate::are_mapped`] tests it), and that no place is a bucket ([`crate::name_no_bucket`]), as for
///   every source,
/// - that as many bytes from `slot` on as the places name ([`crate::total_len`]) are in the host ([`MemoryCell::len`]), and that the map has none of
///   them ([`GuestMap::meets_host`]).
pub fn gather<C: MemoryCell>(places: &[Piece], map: &GuestMap, host: &mut [C], slot: u64)
    requires host { map.now.host_len ≡ length (C.bytes host.old) }
    requires mapped { All (IsMappedPiece (mapped map.now.regions)) places.now }
    requires no_bucket { All NamesNoBucket places.now }
    requires inside { InMemory (length (C.bytes host.old)) slot (total_len places.now) }
    requires apart { span_met map.now.regions slot (total_len places.now) ≡ false }
    ensures bytes { let before = byte_in (C.bytes host.old) in
        byte_in (C.bytes host.new) ≡ stored before slot (gathered (image map.now.regions before) (places_of places.now)) }
    ensures len { length (C.bytes host.new) ≡ length (C.bytes host.old) }
{
    // An address in the host fits in 64 bits, and so does the end of the slot.
    let _known = map.host_len();
    let mut to = slot;
    for piece in places {
        gather_piece(piece, map, host, to);
        to += len_of(piece);
    }
}

// Copies the bytes at the places of a piece to host address `to` on.
fn gather_piece<C: MemoryCell>(piece: &Piece, map: &GuestMap, host: &mut [C], to: u64)
    requires host { map.now.host_len ≡ length (C.bytes host.old) }
    requires mapped { IsMappedPiece (mapped map.now.regions) piece.now }
    requires no_bucket { NamesNoBucket piece.now }
    requires inside { InMemory (length (C.bytes host.old)) to (piece_len piece.now) }
    requires apart { span_met map.now.regions to (piece_len piece.now) ≡ false }
    ensures bytes { byte_in (C.bytes host.new) ≡ gathered_to map.now.regions (places_of_piece piece.now) to (byte_in (C.bytes host.old)) }
    ensures len { length (C.bytes host.new) ≡ length (C.bytes host.old) }
{
    match *piece {
        Piece::Run { addr, len } => gather_run(addr, len, map, host, to),
        Piece::Bucket { .. } => {}
    }
}

// Copies the `len` bytes from guest address `addr` on to host address `to` on.
fn gather_run<C: MemoryCell>(addr: u64, len: u64, map: &GuestMap, host: &mut [C], to: u64)
    requires host { map.now.host_len ≡ length (C.bytes host.old) }
    requires mapped { everywhere (mapped map.now.regions) addr len ≡ true }
    requires inside { InMemory (length (C.bytes host.old)) to len }
    requires apart { span_met map.now.regions to len ≡ false }
    ensures bytes { byte_in (C.bytes host.new) ≡ gathered_to map.now.regions (addresses addr len) to (byte_in (C.bytes host.old)) }
    ensures len { length (C.bytes host.new) ≡ length (C.bytes host.old) }
{
    // With the length of the host comes what is known of every map.
    let _known = map.host_len();
    let mut done = 0;
    while done < len {
        let Some((from, n)) = map.run(addr + done, len - done) else {
            return;
        };
        C::copy(host, from, to + done, n);
        done += n;
    }
}
