//! What is wanted of a list, and which reads meet it.
use crate::hand::changed;
use crate::memory::{DATA, LAST, SEGMENT};
use crate::plan::fed::{WAYS, Way, fed};
use crate::plan::guest::{Case, Changes, Expected, Guest, Row, check_all, is_expected, range};
use nv_entry::StatusCode;
use nv_mem::Piece;
use nv_plan::{Planned, make_plan};
use std::alloc::Global;
use std::process::Abort;

/// A Read of two blocks by a Last Segment of two descriptors at 6000h.
const TWO: &[(usize, u32)] = &[(6, 0x6000), (8, 32), (9, 0x3000_0000), (12, 1)];

const ROWS: &[Row] = &[(0x6000, DATA, 0x3e00, 512), (0x6010, DATA, 0x5000, 512)];

const PLACES: &[Piece] = &[
    Piece::Run {
        addr: 0x3e00,
        len: 512,
    },
    Piece::Run {
        addr: 0x5000,
        len: 512,
    },
];

macro_rules! reading {
    ($name:expr, $reads:expr, $expected:expr) => {
        Case {
            name: $name,
            changes: TWO,
            rows: ROWS,
            reads: $reads,
            expected: $expected,
        }
    };
}

const READINGS: &[Case] = &[
    reading!("no reads", &[], Expected::Need(0x6000, 32)),
    reading!("the read", &[(0x6000, 32)], Expected::Direct(PLACES)),
    reading!(
        "another read first",
        &[(0x5000, 16), (0x6000, 32)],
        Expected::Direct(PLACES)
    ),
    reading!(
        "another read behind",
        &[(0x6000, 32), (0x5000, 16)],
        Expected::Direct(PLACES)
    ),
    reading!(
        "the read twice",
        &[(0x6000, 32), (0x6000, 32)],
        Expected::Direct(PLACES)
    ),
    reading!(
        "a read that is too short",
        &[(0x6000, 16)],
        Expected::Need(0x6000, 32)
    ),
    reading!(
        "a read that is too long",
        &[(0x6000, 48)],
        Expected::Need(0x6000, 32)
    ),
    reading!(
        "a read in two halves",
        &[(0x6000, 16), (0x6010, 16)],
        Expected::Need(0x6000, 32)
    ),
    reading!(
        "a read of another address",
        &[(0x6010, 32)],
        Expected::Need(0x6000, 32)
    ),
];

#[test]
fn reads_that_meet_a_want(rt: HostRuntime) {
    check_all(&rt, rt.alloc(), READINGS);
}

/// A Read of one block by a Segment at 6000h that leads to a Last Segment at 7000h.
const CHAIN: &[(usize, u32)] = &[(6, 0x6000), (8, 32), (9, 0x2000_0000)];

const CHAIN_ROWS: &[Row] = &[(0x6010, LAST, 0x7000, 16), (0x7000, DATA, 0x3000, 512)];

macro_rules! chaining {
    ($name:expr, $reads:expr, $expected:expr) => {
        Case {
            name: $name,
            changes: CHAIN,
            rows: CHAIN_ROWS,
            reads: $reads,
            expected: $expected,
        }
    };
}

const CHAINED: &[Case] = &[
    chaining!(
        "the first array",
        &[(0x6000, 32)],
        Expected::Need(0x7000, 16)
    ),
    chaining!(
        "both arrays",
        &[(0x6000, 32), (0x7000, 16)],
        Expected::Direct(&[Piece::Run {
            addr: 0x3000,
            len: 512
        }])
    ),
    chaining!(
        "in another order",
        &[(0x7000, 16), (0x6000, 32)],
        Expected::Need(0x7000, 16)
    ),
];

#[test]
fn arrays_in_their_order(rt: HostRuntime) {
    check_all(&rt, rt.alloc(), CHAINED);
}

/// A list in a guest's memory, the limit on descriptors, what comes of it, and how often something is wanted before.
#[derive(Drop)]
struct Limited {
    name: &'static str,
    changes: Changes,
    rows: &'static [Row],
    limit: u32,
    expected: Expected,
    wants: u32,
}

// Whether what comes of such a list is what is expected, after as many wants.
fn is_as_expected(rt: &impl Abort, alloc: Global, list: &Limited, way: Way) -> bool {
    let guest = Guest::with(rt, alloc, list.rows);
    let limit = list.limit;
    if limit == 0 || limit > 4096 {
        return false;
    }
    let sqe = changed(rt, list.changes);
    match fed(rt, alloc, &guest, sqe, limit, way) {
        Some((planned, wants)) => wants == list.wants && is_expected(&planned, &list.expected),
        None => false,
    }
}

/// Last Segments of so many descriptors at 8000h, all of length 0 but the last, which has 512 bytes; a Segment that names itself; and
/// the others with a limit.
const LIMITED: &[Limited] = &[
    Limited {
        name: "1,024 descriptors",
        changes: &[(6, 0x8000), (8, 16 * 1023), (9, 0x3000_0000)],
        rows: &[(0x8000 + 16 * 1022, DATA, 0x5000, 512)],
        limit: 1024,
        expected: Expected::Direct(&[Piece::Run {
            addr: 0x5000,
            len: 512,
        }]),
        wants: 4,
    },
    Limited {
        name: "1,025 descriptors",
        changes: &[(6, 0x8000), (8, 16 * 1024), (9, 0x3000_0000)],
        rows: &[(0x8000 + 16 * 1023, DATA, 0x5000, 512)],
        limit: 1024,
        expected: Expected::TooLong,
        wants: 4,
    },
    Limited {
        name: "1,025 descriptors where as many may be read",
        changes: &[(6, 0x8000), (8, 16 * 1024), (9, 0x3000_0000)],
        rows: &[(0x8000 + 16 * 1023, DATA, 0x5000, 512)],
        limit: 1025,
        expected: Expected::Direct(&[Piece::Run {
            addr: 0x5000,
            len: 512,
        }]),
        wants: 4,
    },
    Limited {
        name: "a Segment that names itself",
        changes: &[(6, 0x6000), (8, 32), (9, 0x2000_0000)],
        rows: &[(0x6010, SEGMENT, 0x6000, 32)],
        limit: 1024,
        expected: Expected::TooLong,
        wants: 512,
    },
    Limited {
        name: "the own descriptor alone",
        changes: &[],
        rows: &[],
        limit: 1,
        expected: Expected::Direct(&[Piece::Run {
            addr: 0x3000,
            len: 512,
        }]),
        wants: 0,
    },
    Limited {
        name: "a list of two where one may be read",
        changes: TWO,
        rows: ROWS,
        limit: 1,
        expected: Expected::TooLong,
        wants: 0,
    },
    Limited {
        name: "the first fault where one may be read",
        changes: &[(6, 0x6000), (8, 24), (9, 0x2000_0000)],
        rows: &[],
        limit: 1,
        expected: Expected::Refused(StatusCode::InvalidSglSegment),
        wants: 0,
    },
];

// Ends the test where a list comes to something else in one of the ways.
fn check_limited(rt: &impl Abort, alloc: Global, list: &Limited) {
    for way in WAYS {
        assert!(rt;
            is_as_expected(rt, alloc, list, *way),
            "{}, {way:?}",
            list.name
        );
    }
}

#[test]
fn limits_on_descriptors(rt: HostRuntime) {
    for list in LIMITED {
        check_limited(&rt, rt.alloc(), list);
    }
}

// What comes of a Segment that names itself, which was read so often, where 4,096 descriptors may be read.
fn of_the_largest_limit(rt: &impl Abort, alloc: Global, guest: &Guest, count: u32) -> Planned {
    let sqe = changed(rt, &[(6, 0x6000), (8, 32), (9, 0x2000_0000)]);
    let mut job = guest.job(rt, alloc, sqe, &[]);
    for _ in 0..count {
        guest.read(rt, alloc, 0x6000, 32, &mut job.reads);
    }
    make_plan(alloc, alloc, job, &guest.map, &range(), 4096)
}

#[test]
fn the_largest_limit(rt: HostRuntime) {
    let alloc = rt.alloc();
    let guest = Guest::with(&rt, alloc, &[(0x6010, SEGMENT, 0x6000, 32)]);
    let short = of_the_largest_limit(&rt, alloc, &guest, 2047);
    assert!(rt; is_expected(&short, &Expected::Need(0x6000, 32)));
    let whole = of_the_largest_limit(&rt, alloc, &guest, 2048);
    assert!(rt; is_expected(&whole, &Expected::TooLong));
}
