//! Tests of memory maps: what is refused, what is held, and the longest runs.

use nv_mem::{GuestMap, MapError, NoMemory, PAGE_SIZE, Region};
use std::alloc::Global;
use std::process::Abort;

const MAX: u64 = u64::MAX;

macro_rules! region {
    ($guest:expr, $host:expr, $len:expr) => {
        Region {
            guest: $guest,
            host: $host,
            len: $len,
        }
    };
}

/// The first page of a guest at the first page of the host.
const FIRST: Region = region!(0, 0, PAGE_SIZE);

/// The length of a host, regions, and why there is no map of them.
const REFUSALS: &[(u64, &[Region], Option<MapError>)] = &[
    (
        0x3000,
        &[
            FIRST,
            region!(0x1000, 0x1000, PAGE_SIZE),
            region!(0x2000, 0x2000, PAGE_SIZE),
        ],
        None,
    ),
    // touching in guest only, in host only
    (
        0x9000,
        &[
            FIRST,
            region!(0x1000, 0x8000, PAGE_SIZE),
            region!(0x8000, 0x1000, PAGE_SIZE),
        ],
        None,
    ),
    // not whole pages, or none
    (
        0x3000,
        &[
            FIRST,
            region!(0x1000, 0x1000, PAGE_SIZE),
            region!(0x2000, 0x2000, 0),
        ],
        Some(MapError::Unaligned),
    ),
    (
        0x3000,
        &[
            FIRST,
            region!(0x1001, 0x1000, PAGE_SIZE),
            region!(0x2000, 0x2000, PAGE_SIZE),
        ],
        Some(MapError::Unaligned),
    ),
    (
        0x3000,
        &[
            FIRST,
            region!(0x1000, 0x1800, PAGE_SIZE),
            region!(0x2000, 0x2000, PAGE_SIZE),
        ],
        Some(MapError::Unaligned),
    ),
    (
        0x3000,
        &[
            FIRST,
            region!(0x1000, 0x1000, 0xfff),
            region!(0x2000, 0x2000, PAGE_SIZE),
        ],
        Some(MapError::Unaligned),
    ),
    // two that meet: in guest only, in host only, first and last, one inside the other, one twice
    (
        0x9000,
        &[
            FIRST,
            region!(0x1000, 0x1000, 0x2000),
            region!(0x2000, 0x8000, PAGE_SIZE),
        ],
        Some(MapError::Overlap),
    ),
    (
        0x9000,
        &[
            FIRST,
            region!(0x1000, 0x1000, 0x2000),
            region!(0x8000, 0x2000, PAGE_SIZE),
        ],
        Some(MapError::Overlap),
    ),
    (
        0x9000,
        &[
            FIRST,
            region!(0x1000, 0x1000, PAGE_SIZE),
            region!(0x8000, 0, PAGE_SIZE),
        ],
        Some(MapError::Overlap),
    ),
    (
        0x9000,
        &[
            region!(0, 0, 0x4000),
            region!(0x8000, 0x8000, PAGE_SIZE),
            region!(0x1000, 0x5000, PAGE_SIZE),
        ],
        Some(MapError::Overlap),
    ),
    (
        0x9000,
        &[FIRST, region!(0x1000, 0x1000, PAGE_SIZE), FIRST],
        Some(MapError::Overlap),
    ),
    // out of the host
    (
        0x2fff,
        &[
            FIRST,
            region!(0x1000, 0x1000, PAGE_SIZE),
            region!(0x2000, 0x2000, PAGE_SIZE),
        ],
        Some(MapError::OutsideHost),
    ),
    (
        0x3000,
        &[
            FIRST,
            region!(0x1000, 0x1000, PAGE_SIZE),
            region!(0x2000, MAX - 0xfff, PAGE_SIZE),
        ],
        Some(MapError::OutsideHost),
    ),
    (
        0,
        &[
            FIRST,
            region!(0x1000, 0x1000, PAGE_SIZE),
            region!(0x2000, 0x2000, PAGE_SIZE),
        ],
        Some(MapError::OutsideHost),
    ),
    // guest addresses up to 2 to the 64, and past it: the wrapped addresses are not checked
    (
        0x3000,
        &[
            FIRST,
            region!(0x1000, 0x1000, PAGE_SIZE),
            region!(MAX - 0xfff, 0x2000, PAGE_SIZE),
        ],
        None,
    ),
    (
        0x9000,
        &[
            FIRST,
            region!(0x1000, 0x1000, PAGE_SIZE),
            region!(MAX - 0xfff, 0x2000, 0x2000),
        ],
        Some(MapError::OutsideHost),
    ),
    // the lowest number of several
    (
        0x1000,
        &[FIRST, FIRST, region!(0x2000, 0x2000, 1)],
        Some(MapError::Unaligned),
    ),
    (
        0x1000,
        &[FIRST, region!(0x8000, 0x8000, PAGE_SIZE), FIRST],
        Some(MapError::Overlap),
    ),
    (
        0x1000,
        &[
            FIRST,
            region!(0x8000, 0x8000, 0),
            region!(MAX - 0xfff, 0x8000, PAGE_SIZE),
        ],
        Some(MapError::Unaligned),
    ),
    (
        MAX,
        &[
            FIRST,
            region!(0x1000, MAX - 0x1fff, PAGE_SIZE),
            region!(0x2000, 0x2000, PAGE_SIZE),
        ],
        None,
    ),
];

// The regions, as a map takes them.
fn listed(rt: &impl Abort, alloc: Global, regions: &[Region]) -> Vec<Region> {
    Vec::from_slice(alloc, regions).expect(rt, "memory")
}

fn check_refusals(rt: &impl Abort, alloc: Global, rows: &[(u64, &[Region], Option<MapError>)]) {
    for (host_len, regions, want) in rows {
        let refusal = GuestMap::new(*host_len, listed(rt, alloc, regions)).err();
        assert!(rt; refusal == *want, "{regions:?} in {host_len}");
    }
}

#[test]
fn new_refuses_with_the_lowest_number(rt: HostRuntime) {
    check_refusals(&rt, rt.alloc(), REFUSALS);
}

// The map of the regions for a host of `host_len` bytes.
fn map_of(rt: &impl Abort, alloc: Global, host_len: u64, regions: &[Region]) -> GuestMap {
    GuestMap::new(host_len, listed(rt, alloc, regions)).expect(rt, "a map")
}

/// Five regions in no order. By guest address, the first two touch in guest and host, the third
/// touches the second in the guest alone, the fourth touches the third in the host alone, the fifth
/// ends at 2 to the 64.
const FIVE: &[Region] = &[
    region!(0x8000, 0x3000, PAGE_SIZE),
    region!(0x3000, 0xa000, PAGE_SIZE),
    region!(MAX - 0xfff, 0, PAGE_SIZE),
    region!(0x1000, 0x8000, 0x2000),
    region!(0x4000, 0x2000, PAGE_SIZE),
];

fn five(rt: &impl Abort, alloc: Global) -> GuestMap {
    map_of(rt, alloc, 0xb000, FIVE)
}

/// An address, a length, and whether so many bytes from there on are mapped by `FIVE`.
const HELD: &[(u64, u64, bool)] = &[
    (0x1000, 0x4000, true),
    (0x1000, 0x4001, false),
    (0x0fff, 1, false),
    (0x0fff, 2, false),
    (0x4fff, 1, true),
    (0x4fff, 2, false),
    (0x8000, PAGE_SIZE, true),
    // the first and the last byte are mapped, and those between are not
    (0x4000, 0x5000, false),
    (MAX - 0xfff, PAGE_SIZE, true),
    (MAX - 0x1000, 0x1001, false),
    (MAX, 1, true),
    (MAX, 2, false),
    (MAX, MAX, false),
    (0, MAX, false),
    (0x1000, 0, true),
    (0x6000, 0, true),
    (MAX, 0, true),
];

fn check_held(rt: &impl Abort, map: &GuestMap, rows: &[(u64, u64, bool)]) {
    for (addr, len, want) in rows {
        assert!(rt; map.holds(*addr, *len) == *want, "{addr:#x}");
    }
}

#[test]
fn holds_what_is_mapped(rt: HostRuntime) {
    check_held(&rt, &five(&rt, rt.alloc()), HELD);
}

/// An address, a length, and the run of `FIVE` that begins there.
const RUNS: &[(u64, u64, Option<(u64, u64)>)] = &[
    (0x1000, 1, Some((0x8000, 1))),
    // across two regions that touch in both, up to a third that touches in the guest alone
    (0x1000, 0x3000, Some((0x8000, 0x3000))),
    (0x1000, 0x4000, Some((0x8000, 0x3000))),
    (0x2fff, 2, Some((0x9fff, 2))),
    (0x3fff, 2, Some((0xafff, 1))),
    // up to an address that is not mapped, though the host goes on in another region
    (0x4800, 0x5000, Some((0x2800, 0x800))),
    (0x8000, MAX, Some((0x3000, PAGE_SIZE))),
    (MAX, 1, Some((0xfff, 1))),
    (MAX, MAX, Some((0xfff, 1))),
    (MAX - 0xfff, MAX, Some((0, PAGE_SIZE))),
    (0, 1, None),
    (0xfff, MAX, None),
    (0x5000, 1, None),
    (MAX - 0x1000, 2, None),
];

fn check_runs(rt: &impl Abort, map: &GuestMap, rows: &[(u64, u64, Option<(u64, u64)>)]) {
    for (addr, len, want) in rows {
        assert!(rt; 0 < *len);
        assert!(rt; map.run(*addr, *len) == *want, "{len} bytes at {addr}");
    }
}

#[test]
fn runs_as_far_as_guest_and_host_go_on(rt: HostRuntime) {
    check_runs(&rt, &five(&rt, rt.alloc()), RUNS);
}

// 64 pages of a guest, the last first, after the first page of the host.
fn sixty_four(alloc: Global) -> Result<Vec<Region>, NoMemory> {
    let mut regions = Vec::new(alloc);
    for i in 0..64u64 {
        let at = (63 - i) * PAGE_SIZE;
        regions.push(region!(at, at + PAGE_SIZE, PAGE_SIZE))?;
    }
    Ok(regions)
}

fn map_of_sixty_four(rt: &impl Abort, alloc: Global) -> GuestMap {
    let regions = sixty_four(alloc).expect(rt, "memory");
    map_of(rt, alloc, 65 * PAGE_SIZE, &regions)
}

fn is_map_of(map: &GuestMap, host_len: u64, regions: &[Region]) -> bool {
    map.host_len() == host_len && map.regions() == regions
}

// Whether a map of 64 pages, and its clone, return these regions.
fn are_told(rt: &impl Abort, alloc: Global, map: &GuestMap) -> bool {
    let regions = sixty_four(alloc).expect(rt, "memory");
    let clone = map.try_clone(alloc).expect(rt, "memory");
    is_map_of(map, 65 * PAGE_SIZE, &regions) && is_map_of(&clone, 65 * PAGE_SIZE, &regions)
}

// Whether a map of 64 pages goes to its last page, and no further.
fn goes_to_its_end(map: &GuestMap) -> bool {
    map.holds(0, 64 * PAGE_SIZE)
        && !map.holds(0, 64 * PAGE_SIZE + 1)
        && map.run(1, MAX) == Some((PAGE_SIZE + 1, 64 * PAGE_SIZE - 1))
}

#[test]
fn takes_sixty_four_regions(rt: HostRuntime) {
    let map = map_of_sixty_four(&rt, rt.alloc());
    assert!(rt; are_told(&rt, rt.alloc(), &map));
    assert!(rt; goes_to_its_end(&map));
}

// The host address of a guest address in a map of pages that lie in pairs, a page apart: those of every other pair touch in guest and
// host, those of the pairs between in the guest alone, since they lie the other way round in the host.
fn paired_at(addr: u64) -> Option<u64> {
    let pair = addr / PAGE_SIZE / 3;
    let of_pair = addr / PAGE_SIZE % 3;
    if of_pair == 2 {
        return None;
    }
    let in_host = if pair % 2 == 0 { of_pair } else { 1 - of_pair };
    Some((2 * (pair % 0x1000) + in_host) * PAGE_SIZE + addr % PAGE_SIZE)
}

// That many pages in pairs, in no order.
fn paired(alloc: Global, count: u64) -> Result<Vec<Region>, NoMemory> {
    let mut regions = Vec::new(alloc);
    for i in 0..count.min(0x1000) {
        let page = i * 37 % count;
        let guest = (page / 2 % 0x1000 * 3 + page % 2) * PAGE_SIZE;
        regions.push(region!(guest, paired_at(guest).unwrap_or(0), PAGE_SIZE))?;
    }
    Ok(regions)
}

// Whether the map has the first and the last byte of each page where they are to lie, as far as its pairs reach.
fn has_each_page_in_place(map: &GuestMap, pages: u64) -> bool {
    (0..pages.min(0x1000)).all(|page| {
        let first = page * PAGE_SIZE;
        let last = first + (PAGE_SIZE - 1);
        has_byte_in_place(map, first) && has_byte_in_place(map, last)
    })
}

fn has_byte_in_place(map: &GuestMap, addr: u64) -> bool {
    match paired_at(addr) {
        Some(host) => map.run(addr, 1) == Some((host, 1)) && map.holds(addr, 1),
        None => map.run(addr, 1).is_none() && !map.holds(addr, 1),
    }
}

/// An address, a length, and whether so many bytes from there on are mapped by 64 paired pages, or more.
const HELD_PAIRED: &[(u64, u64, bool)] = &[
    // both pages of a pair, the first and the last of 64 pages
    (0, 0x2000, true),
    (0, 0x2001, false),
    (0x3000, 0x2000, true),
    (0x3fff, 2, true),
    (0x5d000, 0x2000, true),
    (0x5d000, 0x2001, false),
    // up to a gap, in it, and across it
    (0x4fff, 1, true),
    (0x4fff, 2, false),
    (0x2000, 1, false),
    (0x2fff, 2, false),
    (0x1000, 0x3000, false),
    (0, 0x5f000, false),
    (0, MAX, false),
    (MAX, 1, false),
    (MAX, MAX, false),
    (0x5f000, 0, true),
];

/// An address, a length, and the run of 64 paired pages, or more, that begins there.
const RUNS_PAIRED: &[(u64, u64, Option<(u64, u64)>)] = &[
    // across pages that touch in guest and host
    (0, 0x2000, Some((0, 0x2000))),
    (1, MAX, Some((1, 0x1fff))),
    (0xfff, 2, Some((0xfff, 2))),
    (0x5a800, 0x3000, Some((0x3c800, 0x1800))),
    // up to the end of one, where they touch in the guest alone
    (0x3000, 0x2000, Some((0x3000, 0x1000))),
    (0x3fff, 2, Some((0x3fff, 1))),
    (0x4000, 0x2000, Some((0x2000, 0x1000))),
    (0x5efff, 2, Some((0x3efff, 1))),
    // in a gap
    (0x2000, 1, None),
    (0x2fff, 2, None),
    (0x5f000, 1, None),
    (MAX, 1, None),
];

// A map of that many paired pages is right in every page, and in runs and ranges that go from one to another.
fn check_paired(rt: &impl Abort, alloc: Global, count: u64) {
    let map = map_of_paired(rt, alloc, count);
    assert!(rt; has_each_page_in_place(&map, 3 * 32));
    check_held(rt, &map, HELD_PAIRED);
    check_runs(rt, &map, RUNS_PAIRED);
}

fn map_of_paired(rt: &impl Abort, alloc: Global, count: u64) -> GuestMap {
    let regions = paired(alloc, count).expect(rt, "memory");
    map_of(rt, alloc, 0x80_000, &regions)
}

#[test]
fn finds_sixty_four_regions_in_no_order(rt: HostRuntime) {
    check_paired(&rt, rt.alloc(), 64);
}

#[test]
fn finds_more_than_sixty_four_regions_in_no_order(rt: HostRuntime) {
    check_paired(&rt, rt.alloc(), 128);
}

// Whether the map of 64 pages meets the host in all but its first page.
fn meets_all_but_the_first_page(map: &GuestMap) -> bool {
    !map.meets_host(0, PAGE_SIZE)
        && map.meets_host(0, PAGE_SIZE + 1)
        && !map.meets_host(PAGE_SIZE, 0)
}

// Whether the map of 64 pages meets the map of the host's last page, and neither meets that of the
// first.
fn meets_the_last_page_alone(map: &GuestMap, last: &GuestMap, first: &GuestMap) -> bool {
    map.meets(last) && last.meets(map) && !map.meets(first) && !first.meets(last)
}

#[test]
fn meets_what_has_a_byte_in_common(rt: HostRuntime) {
    let map = map_of_sixty_four(&rt, rt.alloc());
    assert!(rt; meets_all_but_the_first_page(&map));
    let last = map_of(&rt, rt.alloc(), 65 * PAGE_SIZE, LAST);
    let first = map_of(&rt, rt.alloc(), 65 * PAGE_SIZE, &[FIRST]);
    assert!(rt; meets_the_last_page_alone(&map, &last, &first));
}

/// The first page of a guest at the last page of a host of 65.
const LAST: &[Region] = &[region!(0, 64 * PAGE_SIZE, PAGE_SIZE)];

// Whether a map of no region maps nothing.
fn maps_nothing(map: &GuestMap) -> bool {
    map.holds(0, 0) && !map.holds(0, 1) && map.regions().is_empty() && map.run(0, 1).is_none()
}

#[test]
fn maps_nothing_without_regions(rt: HostRuntime) {
    assert!(rt; maps_nothing(&map_of(&rt, rt.alloc(), 0, &[])));
}

/// A map as it was before its regions had an order, when what it shows was derived.
mod derived {
    use nv_mem::Region;

    #[derive(Debug, Drop)]
    pub struct GuestMap {
        pub host_len: u64,
        pub regions: Vec<Region>,
    }
}

// A map of that many paired pages is shown as one without an order, on one line and on many.
fn check_shown(rt: &impl Abort, alloc: Global, count: u64) {
    let shown = shown(rt, alloc, &map_of_paired(rt, alloc, count));
    let wanted = shown_plainly(rt, alloc, count);
    assert!(rt; shown == wanted, "{shown}, and not {wanted}");
}

// What is shown of a map.
fn shown(rt: &impl Abort, alloc: Global, map: &GuestMap) -> String {
    format!(in alloc; "{map:?} {map:#?}").expect(rt, "memory")
}

// What is shown of a map of that many paired pages without an order.
fn shown_plainly(rt: &impl Abort, alloc: Global, count: u64) -> String {
    let plain = derived::GuestMap {
        host_len: 0x80_000,
        regions: paired(alloc, count).expect(rt, "memory"),
    };
    format!(in alloc; "{plain:?} {plain:#?}").expect(rt, "memory")
}

#[test]
fn is_shown_without_an_order(rt: HostRuntime) {
    for count in [0, 2, 62, 64, 66, 128] {
        check_shown(&rt, rt.alloc(), count);
    }
}
