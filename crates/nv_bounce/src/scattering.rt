//! The bytes of a slot, copied to a guest's places.
ghost use Rattle.std.specs.Prelude.{◌≡◌, All, false, length, true};
ghost use Rattle.nv_mem.specs.Bytes.{InMemory};
ghost use Rattle.nv_mem.specs.GuestMap.{everywhere, mapped, span_met};
ghost use Rattle.nv_mem.specs.Places.{addresses, piece_len, places_of, places_of_piece, total_len};
ghost use Rattle.nv_model.specs.Laws.{IsMappedPiece};
ghost use Rattle.nv_model.specs.Memory.{byte_in, bytes_from, image, put_image, scattered};
ghost use Rattle.nv_bounce.specs.Bounce.{scattered_from};

use nv_mem::{GuestMap, MemoryCell, Piece, len_of};

/// Copies the bytes of the slot, as many as the places name, to a guest's places, in order. A bucket discards its bytes, and an address that is
/// named twice keeps the last byte meant for it. No other byte of the host changes.
///
/// `slot` is the host address of the slot's first byte. The caller knows
/// - that the map was made for a host of this length ([`GuestMap::host_len`] returns it),
/// - that the places' addresses are mapped ([`crate::are_mapped`] tests it),
/// - that as many bytes from `slot` on as the places name ([`crate::total_len`]) are in the host ([`MemoryCell::len`]), and that the map has none of
///   them ([`GuestMap::meets_host`]).
pub fn scatter<C: MemoryCell>(slot: u64, places: &[Piece], map: &GuestMap, host: &mut [C])
    requires host { map.now.host_len ≡ length (C.bytes host.old) }
    requires mapped { All (IsMappedPiece (mapped map.now.regions)) places.now }
    requires inside { InMemory (length (C.bytes host.old)) slot (total_len places.now) }
    requires apart { span_met map.now.regions slot (total_len places.now) ≡ false }
    ensures bytes { let regions = map.now.regions in
        let before = byte_in (C.bytes host.old) in
        let bytes = bytes_from before slot (total_len places.now) in
        byte_in (C.bytes host.new) ≡ put_image regions (scattered (image regions before) (places_of places.now) bytes) before }
    ensures len { length (C.bytes host.new) ≡ length (C.bytes host.old) }
{
    // With the length of the host comes what is known of every map, and that the end of the slot fits in 64 bits.
    let _known = map.host_len();
    let mut from = slot;
    for piece in places {
        scatter_piece(from, piece, map, host);
        from += len_of(piece);
    }
}

// Copies the bytes from host address `from` on to the places of a piece, as many as these are.
fn scatter_piece<C: MemoryCell>(from: u64, piece: &Piece, map: &GuestMap, host: &mut [C])
    requires host { map.now.host_len ≡ length (C.bytes host.old) }
    requires mapped { IsMappedPiece (mapped map.now.regions) piece.now }
    requires inside { InMemory (length (C.bytes host.old)) from (piece_len piece.now) }
    requires apart { span_met map.now.regions from (piece_len piece.now) ≡ false }
    ensures bytes { byte_in (C.bytes host.new) ≡ scattered_from map.now.regions (places_of_piece piece.now) from (byte_in (C.bytes host.old)) }
    ensures len { length (C.bytes host.new) ≡ length (C.bytes host.old) }
{
    // With the length of the host comes what is known of every map.
    let _known = map.host_len();
    match *piece {
        Piece::Run { addr, len } => scatter_run(from, addr, len, map, host),
        Piece::Bucket { .. } => {}
    }
}

// Copies the `len` bytes from host address `from` on to guest address `addr` on.
fn scatter_run<C: MemoryCell>(from: u64, addr: u64, len: u64, map: &GuestMap, host: &mut [C])
    requires host { map.now.host_len ≡ length (C.bytes host.old) }
    requires mapped { everywhere (mapped map.now.regions) addr len ≡ true }
    requires inside { InMemory (length (C.bytes host.old)) from len }
    requires apart { span_met map.now.regions from len ≡ false }
    ensures bytes { byte_in (C.bytes host.new) ≡ scattered_from map.now.regions (addresses addr len) from (byte_in (C.bytes host.old)) }
    ensures len { length (C.bytes host.new) ≡ length (C.bytes host.old) }
{
    // With the length of the host comes what is known of every map.
    let _known = map.host_len();
    let mut done = 0;
    while done < len {
        let Some((to, n)) = map.run(addr + done, len - done) else {
            return;
        };
        C::copy(host, from + done, to, n);
        done += n;
    }
}
