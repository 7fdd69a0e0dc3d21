//! Dataset Management.
use crate::memory::DATA;
use crate::plan::guest::{Changes, Expected, Guest, is_expected};
use nv_entry::StatusCode;
use nv_plan::{Plan, PlanKind, Planned};
use std::alloc::Global;
use std::process::Abort;

/// A deallocation of two ranges by a Data Block of 32 bytes at 3000h.
pub const TWO: Changes = &[(0, 0x0007_4009), (8, 32), (10, 1), (11, 4)];

/// The same ranges, whose bytes lie apart: 8 at 3000h and 24 at 5001h.
pub const PARTED: Changes = &[
    (0, 0x0007_4009),
    (6, 0x6000),
    (8, 32),
    (9, 0x3000_0000),
    (10, 1),
    (11, 4),
];

/// A deallocation of 256 ranges by a Data Block of 4,096 bytes at 3000h.
const MOST: Changes = &[(0, 0x0007_4009), (8, 4096), (10, 255), (11, 4)];

/// Whether a part of a plan has these ranges, and as many bytes as they take up.
pub fn has_part_ranges(plan: &Plan, part: u8, ranges: &[[u8; 16]]) -> bool {
    if part >= plan.parts() {
        return false;
    }
    let told = plan.part_ranges(part);
    for (at, range) in told.iter().enumerate() {
        if ranges.get(at) != Some(&range.bytes()) {
            return false;
        }
    }
    plan.part_len(part) / 16 == ranges.len() as u64 && told.len() == ranges.len()
}

// Whether a plan bounces these ranges.
pub fn has_ranges(planned: &Planned, ranges: &[[u8; 16]]) -> bool {
    match planned {
        Planned::Plan(plan) => {
            plan.kind() == PlanKind::Bounced
                && plan.parts() == 1
                && has_part_ranges(plan, 0, ranges)
        }
        _ => false,
    }
}

/// Blocks 5 and 6, and block 0, as the disk has them: without attributes, from block 1,005 and 1,000 on.
pub const TRANSLATED: &[[u8; 16]] = &[
    [0, 0, 0, 0, 2, 0, 0, 0, 0xed, 3, 0, 0, 0, 0, 0, 0],
    [0, 0, 0, 0, 1, 0, 0, 0, 0xe8, 3, 0, 0, 0, 0, 0, 0],
];

#[test]
fn two_ranges(rt: HostRuntime) {
    let alloc = rt.alloc();
    let mut guest = Guest::new(&rt, alloc);
    guest.put_range(0x3000, 5, 2);
    guest.put_range(0x3010, 0, 1);
    needs(&rt, alloc, &guest, TWO, &[], (0x3000, 32));
    translates(&rt, alloc, &guest, TWO, &[(0x3000, 32)]);
}

// After these reads a command wants so many bytes at an address.
fn needs(
    rt: &impl Abort,
    alloc: Global,
    guest: &Guest,
    changes: Changes,
    reads: &[(u64, u64)],
    want: (u64, u64),
) {
    let planned = guest.planned(rt, alloc, changes, reads);
    assert!(rt; is_expected(&planned, &Expected::Need(want.0, want.1)));
}

// After these reads a command has its ranges as the disk has them.
fn translates(
    rt: &impl Abort,
    alloc: Global,
    guest: &Guest,
    changes: Changes,
    reads: &[(u64, u64)],
) {
    let planned = guest.planned(rt, alloc, changes, reads);
    assert!(rt; has_ranges(&planned, TRANSLATED));
}

/// A guest whose ranges, as `TRANSLATED` has them, are in two runs: 8 bytes and 24.
pub fn lying_apart(rt: &impl Abort, alloc: Global) -> Guest {
    let mut guest = Guest::new(rt, alloc);
    guest.put_range(0x4ff9, 5, 2);
    guest.put_range(0x5009, 0, 1);
    guest.put_range(0x3000, 0, 2);
    guest.put_descriptor(0x6000, DATA, 0x3000, 8);
    guest.put_descriptor(0x6010, DATA, 0x5001, 24);
    guest
}

/// The reads of the list and of the bytes of the ranges, in another order and in theirs.
const OUT_OF_ORDER: &[(u64, u64)] = &[(0x6000, 32), (0x5001, 24), (0x3000, 8)];

const IN_ORDER: &[(u64, u64)] = &[(0x6000, 32), (0x3000, 8), (0x5001, 24)];

#[test]
fn ranges_that_lie_apart(rt: HostRuntime) {
    let alloc = rt.alloc();
    let guest = lying_apart(&rt, alloc);
    needs(&rt, alloc, &guest, PARTED, OUT_OF_ORDER, (0x5001, 24));
    translates(&rt, alloc, &guest, PARTED, IN_ORDER);
}

/// The last range of 256, of which the others are block 0, and whether all lie in the namespace.
const LAST_RANGES: &[(u64, u32, bool)] = &[
    (63, 1, true),
    (64, 1, false),
    (64, 0, true),
    (65, 0, false),
];

// A guest with 255 ranges of block 0, and another last one.
fn with_ranges(rt: &impl Abort, alloc: Global, start: u64, blocks: u32) -> Guest {
    let mut guest = Guest::new(rt, alloc);
    for range in 0..255usize {
        guest.put_range(0x3000 + 16 * range, 0, 1);
    }
    guest.put_range(0x3ff0, start, blocks);
    guest
}

fn check_last(rt: &impl Abort, alloc: Global, last: (u64, u32, bool)) {
    let (start, blocks, fits) = last;
    let guest = with_ranges(rt, alloc, start, blocks);
    let planned = guest.planned(rt, alloc, MOST, &[(0x3000, 4096)]);
    let expected = if fits {
        Expected::Bounced(&[])
    } else {
        Expected::Refused(StatusCode::LbaOutOfRange)
    };
    assert!(rt; is_expected(&planned, &expected), "{start}");
}

#[test]
fn the_last_of_256_ranges(rt: HostRuntime) {
    for last in LAST_RANGES {
        check_last(&rt, rt.alloc(), *last);
    }
}
