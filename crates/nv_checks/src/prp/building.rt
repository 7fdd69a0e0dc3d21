//! Which places fit, and what is built for them.
ghost use Rattle.std.specs.Prelude.{◌≡◌, ◌≤◌, true, All};
ghost use Rattle.nv_mem.specs.GuestMap.{mapped};
ghost use Rattle.nv_mem.specs.Places.{total_len};
ghost use Rattle.nv_model.specs.Laws.{IsMappedPiece};

use super::map;
use crate::memory::{APART, map_of, run};
use nv_mem::{GuestMap, Piece, Places, len_of};
use nv_prp::{Prps, build, build_run, fits};
use std::alloc::Global;
use std::process::Abort;

fn places_of(rt: &impl Abort, alloc: Global, pieces: &[Piece]) -> Places {
    let mut places = Places::new(alloc);
    for piece in pieces {
        places.push(*piece).expect(rt, "memory");
    }
    places
}

// Whether these places fit, or nothing where one of them is not mapped.
fn fit(map: &GuestMap, places: &Places) -> Option<bool> {
    if are_mapped(map, places) {
        Some(fits(map, places))
    } else {
        None
    }
}

fn are_mapped(map: &GuestMap, places: &Places) -> bool
    ensures { result ≡ true → All (IsMappedPiece (mapped map.now.regions)) places.now }
{
    for piece in places.pieces() {
        if !is_mapped(map, *piece) {
            return false;
        }
    }
    true
}

fn is_mapped(map: &GuestMap, piece: Piece) -> bool
    ensures { result ≡ true → IsMappedPiece (mapped map.now.regions) piece }
{
    match piece {
        Piece::Run { addr, len } => map.holds(addr, len),
        Piece::Bucket { len: _ } => true,
    }
}

const BUCKET: Piece = Piece::Bucket { len: 512 };

/// Two pieces, and whether they fit.
const PAIRS: &[(&[Piece], bool)] = &[
    (&[run!(0x3000, 512), run!(0x3200, 512)], true),
    (&[run!(0x3004, 512), run!(0x3204, 508)], true),
    (&[run!(0x3002, 512), run!(0x3202, 512)], false),
    // the second half of a transfer begins a page, or does not; the first ends one, or does not
    (&[run!(0x3e00, 512), run!(0x5000, 512)], true),
    (&[run!(0x3e00, 512), run!(0x5200, 512)], false),
    (&[run!(0x3c00, 512), run!(0x5000, 512)], false),
    // over the end of the first half of the memory
    (&[run!(0xff00, 256), run!(0x1_0000, 256)], true),
    (&[run!(0xff00, 512), run!(0x1_0100, 512)], true),
    (&[run!(0xff02, 254), run!(0x1_0000, 258)], false),
    (&[run!(0xfe00, 256), run!(0xff00, 256)], true),
    (&[run!(0x3000, 512), BUCKET], false),
    (&[BUCKET, run!(0x3000, 512)], false),
];

fn check_fit(rt: &impl Abort, alloc: Global, map: &GuestMap, pairs: &[(&[Piece], bool)]) {
    for (pieces, expected) in pairs {
        let fit = fit(map, &places_of(rt, alloc, pieces));
        assert!(rt; fit == Some(*expected), "{pieces:?}");
    }
}

#[test]
fn which_places_fit(rt: HostRuntime) {
    let map = map_of(&rt, rt.alloc(), APART);
    check_fit(&rt, rt.alloc(), &map, PAIRS);
}

// Whether these places are 131,072 bytes at most.
fn are_few(places: &Places) -> bool
    ensures { result ≡ true → total_len places.now ≤ 131072 }
{
    let mut left = 131072;
    for piece in places.pieces() {
        let len = len_of(piece);
        if len > left {
            return false;
        }
        left -= len;
    }
    true
}

// What names these places, or nothing where the conditions of `build` don't hold.
fn built(map: &GuestMap, places: &Places, list_page: u64) -> Option<Prps> {
    if !are_mapped(map, places) || !are_few(places) || list_page % 4096 != 0 {
        return None;
    }
    if fits(map, places) {
        Some(build(map, places.pieces(), list_page))
    } else {
        None
    }
}

const LIST_PAGE: u64 = 0x40_3000;

// A transfer with a list of these entries.
fn prps_of(prp1: u64, prp2: u64, entries: &[u64]) -> Prps {
    let mut list = [0; 32];
    for (at, entry) in entries.iter().enumerate() {
        if let Some(place) = list.get_mut(at) {
            *place = *entry;
        }
    }
    Prps {
        prp1,
        prp2,
        list,
        used: entries.len(),
    }
}

/// Places, and the PRP1, the PRP2 and the entries that name them.
struct Transfer {
    name: &'static str,
    pieces: &'static [Piece],
    prp1: u64,
    prp2: u64,
    entries: &'static [u64],
}

const TRANSFERS: &[Transfer] = &[
    Transfer {
        name: "one page",
        pieces: &[run!(0x3000, 256), run!(0x3100, 256)],
        prp1: 0x10_3000,
        prp2: 0,
        entries: &[],
    },
    Transfer {
        name: "two pages",
        pieces: &[run!(0x3e00, 512), run!(0x5000, 512)],
        prp1: 0x10_3e00,
        prp2: 0x10_5000,
        entries: &[],
    },
    Transfer {
        name: "over the end of the first half of the memory",
        pieces: &[run!(0xff00, 256), run!(0x1_0000, 256)],
        prp1: 0x10_ff00,
        prp2: 0x15_0000,
        entries: &[],
    },
    Transfer {
        name: "up to the end of the first half of the memory",
        pieces: &[run!(0xfe00, 256), run!(0xff00, 256)],
        prp1: 0x10_fe00,
        prp2: 0,
        entries: &[],
    },
    Transfer {
        name: "three pages",
        pieces: &[run!(0x3000, 4096), run!(0x8000, 8192)],
        prp1: 0x10_3000,
        prp2: LIST_PAGE,
        entries: &[0x10_8000, 0x10_9000],
    },
];

fn check_built(rt: &impl Abort, alloc: Global, map: &GuestMap, cases: &[Transfer]) {
    for case in cases {
        let found = built(map, &places_of(rt, alloc, case.pieces), LIST_PAGE);
        let expected = prps_of(case.prp1, case.prp2, case.entries);
        assert!(rt; found == Some(expected), "{}", case.name);
    }
}

#[test]
fn what_is_built(rt: HostRuntime) {
    let map = map_of(&rt, rt.alloc(), APART);
    check_built(&rt, rt.alloc(), &map, TRANSFERS);
}

// Whether a list names 33 pages from an offset of 4: its first entry, and the last.
fn names_33_pages(prps: &Prps) -> bool {
    prps.prp1 == 0x10_3004
        && prps.prp2 == LIST_PAGE
        && prps.used == 32
        && prps.list[0] == 0x10_4000
        && prps.list[31] == 0x12_3000
}

// Whether the largest transfer from this place on is built.
fn is_largest_built(rt: &impl Abort, alloc: Global, map: &GuestMap, addr: u64) -> bool {
    match built(map, &places_of(rt, alloc, &[run!(addr, 131072)]), LIST_PAGE) {
        Some(prps) => names_33_pages(&prps),
        None => false,
    }
}

#[test]
fn all_entries_of_a_list(rt: HostRuntime) {
    let map = map(&rt, rt.alloc());
    assert!(rt; is_largest_built(&rt, rt.alloc(), &map, 0x3004));
}

/// The lengths of runs from 404000h on, and the PRP2 and the entries that name them.
const RUNS: &[(u64, u64, &[u64])] = &[
    (512, 0, &[]),
    (4096, 0, &[]),
    (4097, 0x40_5000, &[]),
    (12288, LIST_PAGE, &[0x40_5000, 0x40_6000]),
];

fn check_runs(rt: &impl Abort, runs: &[(u64, u64, &[u64])]) {
    for (len, prp2, entries) in runs {
        let len = *len;
        assert!(rt; 0 < len && len <= 131072);
        let found = build_run(0x40_4000, len, LIST_PAGE);
        assert!(rt; found == prps_of(0x40_4000, *prp2, entries), "{len} bytes");
    }
}

#[test]
fn what_names_a_run(rt: HostRuntime) {
    check_runs(&rt, RUNS);
    let whole = build_run(0x40_4000, 131072, LIST_PAGE);
    assert_eq!(rt;
        (whole.used, whole.list[30], whole.list[31]),
        (31, 0x42_3000, 0)
    );
}
