//! Whether places can be named by region pages at all.

ghost use Rattle.std.specs.Prelude.{◌≡◌, ◌+◌, ◌%◌, ◌<◌, ◌≤◌, ◌^◌, ℕ, List, ◌++◌, ◌&&◌, All, None, true, length};
ghost use Rattle.nv_mem.specs.GuestMap.{everywhere, mapped};
ghost use Rattle.nv_mem.specs.Places.{addresses};
ghost use Rattle.nv_model.specs.Laws.{IsMappedPiece};
ghost use Rattle.nv_prp.specs.Fits.{fit_behind, hosts_of, may_follow, places_fit};

use nv_mem::{GuestMap, PAGE_SIZE, Piece, Places};

/// Whether a transfer can name these places by PRP: no bucket is among them, they have at least one byte, the host address of the
/// first byte is a multiple of 4, and each later one is the one before plus 1, or is a page start after a page end. It takes time by
/// the places' runs in the host, whatever their length.
pub fn fits(map: &GuestMap, places: &Places) -> bool
    requires { All (IsMappedPiece (mapped map.now.regions)) places.now }
    ensures { result ≡ places_fit map.now.regions places.now }
{
    let mut end = None;
    for piece in places.pieces() {
        match *piece {
            Piece::Bucket { len: _ } => return false,
            Piece::Run { addr, len } => {
                if !run_fits(map, addr, len, &mut end) {
                    return false;
                }
            }
        }
    }
    end.is_some()
}

// Whether the host addresses of a run fit after bytes that end before `end`. If so, `end` becomes where they end.
fn run_fits(map: &GuestMap, addr: u64, len: u64, end: &mut Option<u64>) -> bool
    requires { everywhere (mapped map.now.regions) addr len ≡ true }
    ensures { (rest : List ℕ) → fit_behind end.old (hosts_of map.now.regions (addresses addr len) ++ rest)
        ≡ (result && fit_behind end.new rest) }
{
    // With the length of the host comes what is known of every map.
    let _known = map.host_len();
    let mut done = 0;
    while done < len {
        let Some((host, n)) = map.run(addr + done, len - done) else {
            return false;
        };
        if !may_follow(*end, host) {
            return false;
        }
        *end = Some(host + n);
        done += n;
    }
    true
}

// Whether a byte at this host address may be the first, or follow bytes that end before `end`.
fn may_follow(end: Option<u64>, host: u64) -> bool
    ensures { result ≡ may_follow end host }
{
    match end {
        None => host % 4 == 0,
        Some(end) => host == end || end % PAGE_SIZE == 0 && host % PAGE_SIZE == 0,
    }
}
