//! A namespace of several extents: what lies in it, and where its parts are.

use nv_ns::{Extent, Part, Parts, VirtualNs};
use std::process::Abort;

const MAX: u64 = u64::MAX;

/// A namespace of these extents, each with its base and its number of blocks; none where they are no namespace.
pub(crate) fn namespace(extents: &[(u64, u64)]) -> Option<VirtualNs> {
    let (&(base, blocks), rest) = extents.split_first()?;
    let mut ns = VirtualNs::of(extent(base, blocks)?);
    for &(base, blocks) in rest {
        let next = extent(base, blocks)?;
        if !ns.fits_behind(next) {
            return None;
        }
        ns.push(next);
    }
    Some(ns)
}

fn extent(base: u64, blocks: u64) -> Option<Extent> {
    Extent::fits(base, blocks).then(|| Extent::new(base, blocks))
}

/// A part's three numbers.
fn numbers(part: Part) -> (u64, u64, u64) {
    (part.first(), part.start(), part.count())
}

// The base and the blocks of an extent.
fn base_and_blocks(extent: Extent) -> (u64, u64) {
    (extent.base(), extent.blocks())
}

#[test]
fn has_its_extents_in_order(rt: HostRuntime) {
    let ns = namespace(&[(1000, 32), (3000, 32), (7, 1)]).expect(&rt, "a namespace");
    assert!(rt; ns.len() == 3 && ns.blocks() == 65 && ns.as_slice().len() == 3);
    check_extents(&rt, &ns, &[(0, 1000, 32), (1, 3000, 32), (2, 7, 1)]);
    assert!(rt; ns.extent(3).is_none());
}

fn check_extents(rt: &impl Abort, ns: &VirtualNs, rows: &[(usize, u64, u64)]) {
    for (i, base, blocks) in rows {
        assert!(rt;
            ns.extent(*i).map(base_and_blocks) == Some((*base, *blocks)),
            "{i}"
        );
    }
}

#[test]
fn has_at_most_eight_extents(rt: HostRuntime) {
    let one = Extent::new(5, 1);
    let mut ns = VirtualNs::of(one);
    for len in 2..9 {
        assert!(rt; ns.fits_behind(one));
        ns.push(one);
        assert_eq!(rt; ns.len(), len);
    }
    assert!(rt; !ns.fits_behind(one));
}

/// Base and blocks of the first extent, of the next, and whether it may be there.
const NEXT: &[(u64, u64, u64, u64, bool)] = &[
    (0, 1, 0, MAX - 1, true),
    (0, 1, 0, MAX, false),
    (0, 1, 1, MAX - 1, false),
    (1, 1, 0, MAX - 1, false),
    (0, 62, MAX - 63, 1, true),
    (0, 63, MAX - 63, 1, false),
    (MAX - 1, 1, 0, 0, true),
    (MAX - 1, 1, 0, 1, false),
];

fn check_next(rt: &impl Abort, rows: &[(u64, u64, u64, u64, bool)]) {
    for (base, blocks, next, more, want) in rows {
        let ns = namespace(&[(*base, *blocks), (*next, *more)]);
        assert!(rt; ns.is_some() == *want, "{base} {blocks} {next} {more}");
    }
}

#[test]
fn stays_below_two_to_the_64(rt: HostRuntime) {
    check_next(&rt, NEXT);
}

/// A part's first block, its start on the disk and its count.
type Numbers = (u64, u64, u64);

/// SLBA, count, the parts.
const TRANSLATED: &[(u64, u64, &[Numbers])] = &[
    (0, 1, &[(0, 1000, 1)]),
    (0, 32, &[(0, 1000, 32)]),
    (31, 1, &[(0, 1031, 1)]),
    (31, 2, &[(0, 1031, 1), (1, 3000, 1)]),
    (32, 1, &[(0, 3000, 1)]),
    (0, 64, &[(0, 1000, 32), (32, 3000, 32)]),
    (62, 2, &[(0, 3030, 2)]),
    // no blocks: anywhere in the namespace, and at its end
    (0, 0, &[]),
    (32, 0, &[]),
    (64, 0, &[]),
];

// Whether these parts have these numbers, and are found by their places.
fn are_numbered(parts: &Parts, want: &[Numbers]) -> bool {
    let mut place = 0usize;
    for row in want {
        if parts.get(place).map(numbers) != Some(*row) {
            return false;
        }
        place = place.wrapping_add(1);
    }
    parts.get(place).is_none()
}

// Whether a run of a namespace is translated to these parts.
fn is_translated(ns: &VirtualNs, slba: u64, count: u64, want: &[Numbers]) -> bool {
    match ns.translate(slba, count) {
        Some(parts) => are_numbered(&parts, want) && parts.is_empty() == (count == 0),
        None => false,
    }
}

fn check_translated(rt: &impl Abort, ns: &VirtualNs, rows: &[(u64, u64, &[Numbers])]) {
    for (slba, count, want) in rows {
        let is_there = ns.holds(*slba, *count) && is_translated(ns, *slba, *count, want);
        assert!(rt; is_there, "{count} blocks from {slba}");
    }
}

#[test]
fn translates_to_parts(rt: HostRuntime) {
    let ns = namespace(&[(1000, 32), (3000, 32)]).expect(&rt, "a namespace");
    check_translated(&rt, &ns, TRANSLATED);
}

/// SLBA and count of runs that leave a namespace of 64 blocks.
const OUTSIDE: &[(u64, u64)] = &[
    (63, 2),
    (64, 1),
    (65, 0),
    (0, 65),
    // sums that would wrap
    (MAX, 1),
    (MAX, 2),
    (2, MAX),
    (MAX, MAX),
];

fn check_outside(rt: &impl Abort, ns: &VirtualNs, rows: &[(u64, u64)]) {
    for (slba, count) in rows {
        let is_outside = !ns.holds(*slba, *count) && ns.translate(*slba, *count).is_none();
        assert!(rt; is_outside, "{count} blocks from {slba}");
    }
}

#[test]
fn refuses_what_leaves_the_namespace(rt: HostRuntime) {
    let ns = namespace(&[(1000, 32), (3000, 32)]).expect(&rt, "a namespace");
    check_outside(&rt, &ns, OUTSIDE);
}

const IN_ORDER: &[Numbers] = &[(0, 903, 1), (1, 500, 2), (3, 100, 3), (6, 700, 3)];

#[test]
fn goes_by_the_namespaces_order(rt: HostRuntime) {
    let ns = namespace(&[(900, 4), (500, 2), (100, 3), (700, 5)]).expect(&rt, "a namespace");
    let parts = ns.translate(3, 9).expect(&rt, "in the namespace");
    assert!(rt; parts.len() == 4 && parts.as_slice().len() == 4);
    for (at, part) in parts.as_slice().iter().enumerate() {
        assert!(rt; IN_ORDER.get(at) == Some(&numbers(*part)));
    }
}

/// Eight extents of one block, the last of the disk first.
const EIGHT: &[(u64, u64)] = &[
    (70, 1),
    (60, 1),
    (50, 1),
    (40, 1),
    (30, 1),
    (20, 1),
    (10, 1),
    (0, 1),
];

#[test]
fn crosses_eight_extents(rt: HostRuntime) {
    let ns = namespace(EIGHT).expect(&rt, "a namespace");
    let parts = ns.translate(0, 8).expect(&rt, "in the namespace");
    assert!(rt; parts.len() == 8);
    assert!(rt; parts.get(0).map(numbers) == Some((0, 70, 1)));
    assert!(rt; parts.get(7).map(numbers) == Some((7, 0, 1)));
}

/// SLBA and count of a run, and its part in an extent of 32 blocks at block 3,000, whose first is 32.
const OF_AN_EXTENT: &[(u64, u64, Option<Numbers>)] = &[
    (30, 4, Some((2, 3000, 2))),
    (40, 4, Some((0, 3008, 4))),
    (63, 9, Some((0, 3031, 1))),
    (0, 32, None),
    (64, 1, None),
    (40, 0, None),
    (MAX, MAX, None),
];

fn check_parts(rt: &impl Abort, extent: Extent, rows: &[(u64, u64, Option<Numbers>)]) {
    for (slba, count, want) in rows {
        let part = Part::of(extent, 32, *slba, *count).map(numbers);
        assert!(rt; part == *want, "{count} blocks from {slba}");
    }
}

#[test]
fn an_extent_has_its_part_of_a_run(rt: HostRuntime) {
    check_parts(&rt, Extent::new(3000, 32), OF_AN_EXTENT);
}
