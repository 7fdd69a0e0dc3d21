//! Region pages that are built: for places of a guest, and for a stretch of the host's memory.

ghost use Rattle.std.specs.Prelude.{◌≡◌, ◌+◌, ◌%◌, ◌<◌, ◌≤◌, ◌^◌, All, true, length};
ghost use Rattle.std.specs.List.{range_with_len};
ghost use Rattle.nv_mem.specs.GuestMap.{everywhere, mapped};
ghost use Rattle.nv_mem.specs.Places.{addresses, total_len};
ghost use Rattle.nv_model.specs.Laws.{IsMappedPiece};
ghost use Rattle.nv_model.specs.Limits.{most_bytes, most_entries, page};
ghost use Rattle.nv_prp.specs.Built.{built};
ghost use Rattle.nv_prp.specs.Fits.{host_addresses, hosts_of, places_fit};
ghost use Rattle.nv_prp.specs.Met.{met_more};

use crate::met::Met;
use crate::prps::Prps;
use nv_mem::{GuestMap, Piece};

/// What names the host addresses of these places, which fit PRP and are at most 131,072 addresses. Where there are more than two pages, the list of
/// the page entries is at `list_page`, which is the start of a page.
pub fn build(map: &GuestMap, places: &[Piece], list_page: u64) -> Prps
    requires mapped { All (IsMappedPiece (mapped map.now.regions)) places.now }
    requires fit { places_fit map.now.regions places.now ≡ true }
    requires most { total_len places.now ≤ most_bytes }
    requires list { list_page % page ≡ 0 }
    ensures { result ≡ built list_page (host_addresses map.now.regions places.now) }
{
    let mut met = Met::nothing();
    for piece in places {
        match *piece {
            Piece::Run { addr, len } => add_run(map, addr, len, &mut met),
            Piece::Bucket { len: _ } => {}
        }
    }
    met.prps(list_page)
}

/// What names `len` bytes of the host, 1 to 131,072, in a row from `addr`, which is a page's start.
pub fn build_run(addr: u64, len: u64, list_page: u64) -> Prps
    requires some { 0 < len }
    requires most { len ≤ most_bytes }
    requires start { addr % page ≡ 0 }
    requires inside { addr + len < 2 ^ 64 }
    requires list { list_page % page ≡ 0 }
    ensures { result ≡ built list_page (range_with_len addr len) }
{
    let mut met = Met::nothing();
    met.add_row(addr, len);
    met.prps(list_page)
}

// Adds the host addresses of a run.
fn add_run(map: &GuestMap, addr: u64, len: u64, met: &mut Met)
    requires mapped { everywhere (mapped map.now.regions) addr len ≡ true }
    requires most { len ≤ most_bytes }
    requires room { length (met_more met.old (hosts_of map.now.regions (addresses addr len))).entries ≤ most_entries }
    ensures { met.new ≡ met_more met.old (hosts_of map.now.regions (addresses addr len)) }
{
    // With the length of the host comes what is known of every map.
    let _known = map.host_len();
    let mut done = 0;
    while done < len {
        let Some((host, n)) = map.run(addr + done, len - done) else {
            return;
        };
        met.add_row(host, n);
        done += n;
    }
}
