//! One range of the disk, and a namespace of that extent alone: what lies in it, and where.

use nv_ns::{Extent, Part, VirtualNs};
use std::process::Abort;

const MAX: u64 = u64::MAX;

/// Base and blocks of an extent, SLBA and count of a run, and in the namespace of that extent where the run's part starts.
const TRANSLATED: &[(u64, u64, u64, u64, Option<Option<u64>>)] = &[
    (100, 10, 0, 1, Some(Some(100))),
    (100, 10, 0, 10, Some(Some(100))),
    (100, 10, 9, 1, Some(Some(109))),
    (100, 10, 9, 2, None),
    (100, 10, 10, 1, None),
    (100, 10, 0, 11, None),
    // no blocks: anywhere in the namespace, and at its end
    (100, 10, 0, 0, Some(None)),
    (100, 10, 10, 0, Some(None)),
    (100, 10, 11, 0, None),
    // a namespace of no blocks
    (7, 0, 0, 0, Some(None)),
    (7, 0, 0, 1, None),
    // sums that would wrap
    (100, 10, MAX, 1, None),
    (100, 10, MAX, 2, None),
    (100, 10, 2, MAX, None),
    (100, 10, MAX, MAX, None),
    // the ends of 64 bits
    (0, MAX, MAX - 1, 1, Some(Some(MAX - 1))),
    (0, MAX, MAX, 0, Some(None)),
    (MAX, 0, 0, 0, Some(None)),
    (MAX - 5, 5, 4, 1, Some(Some(MAX - 1))),
    (MAX - 5, 5, 5, 1, None),
];

// An extent, which has the base and the number of blocks that it was made of.
fn extent(rt: &impl Abort, base: u64, blocks: u64) -> Extent {
    assert!(rt; Extent::fits(base, blocks));
    let extent = Extent::new(base, blocks);
    assert!(rt;
        extent.base() == base && extent.blocks() == blocks,
        "{base} {blocks}"
    );
    extent
}

// Where the part of a run starts; none in the outer option where the run leaves the namespace.
fn start_of(ns: &VirtualNs, slba: u64, count: u64) -> Option<Option<u64>> {
    let parts = ns.translate(slba, count)?;
    Some(parts.get(0).map(Part::start))
}

fn check_translated(rt: &impl Abort, rows: &[(u64, u64, u64, u64, Option<Option<u64>>)]) {
    for (base, blocks, slba, count, want) in rows {
        let ns = VirtualNs::of(extent(rt, *base, *blocks));
        assert!(rt;
            start_of(&ns, *slba, *count) == *want,
            "{count} blocks from {slba} in {ns:?}"
        );
        assert!(rt; ns.holds(*slba, *count) == want.is_some());
    }
}

#[test]
fn translates(rt: HostRuntime) {
    check_translated(&rt, TRANSLATED);
}

#[test]
fn fits_below_two_to_the_64(rt: HostRuntime) {
    for (base, blocks, want) in [
        (0, 0, true),
        (0, MAX, true),
        (1, MAX, false),
        (MAX, 0, true),
        (MAX, 1, false),
        (MAX, MAX, false),
    ] {
        assert_eq!(rt; Extent::fits(base, blocks), want, "{base} {blocks}");
    }
}
