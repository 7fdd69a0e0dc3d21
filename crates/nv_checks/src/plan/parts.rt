//! The parts of plans, in namespaces of several extents.
use crate::hand::changed;
use crate::memory::{BUCKET, DATA, run};
use crate::plan::guest::{Changes, Guest, Row, joined};
use crate::plan::ranges::{TWO, has_part_ranges};
use nv_entry::IoOpcode;
use nv_mem::Piece;
use nv_plan::{Plan, PlanKind, Planned, tags_wanted};
use std::alloc::Global;
use std::process::Abort;

/// A part: where its bytes lie, how many they are, its first block on the disk, and how many blocks it has.
struct Told {
    pieces: &'static [Piece],
    len: u64,
    start: u64,
    blocks: u64,
}

macro_rules! told {
    ($pieces:expr, $len:expr, $start:expr, $blocks:expr) => {
        Told {
            pieces: $pieces,
            len: $len,
            start: $start,
            blocks: $blocks,
        }
    };
}

/// A command in a namespace of these extents, and the parts that it is.
struct Parted {
    name: &'static str,
    first: (u64, u64),
    others: &'static [(u64, u64)],
    changes: Changes,
    rows: &'static [Row],
    reads: &'static [(u64, u64)],
    kind: Kind,
    parts: &'static [Told],
}

/// What is done with it.
#[derive(Clone, Copy)]
enum Kind {
    NoData,
    Direct,
    Bounced,
}

impl Kind {
    fn of_plan(self) -> PlanKind {
        match self {
            Kind::NoData => PlanKind::NoData,
            Kind::Direct => PlanKind::Direct,
            Kind::Bounced => PlanKind::Bounced,
        }
    }
}

const PARTED: &[Parted] = &[
    Parted {
        name: "eight extents of a block",
        first: (100, 1),
        others: &[
            (900, 1),
            (300, 1),
            (800, 1),
            (500, 1),
            (700, 1),
            (200, 1),
            (600, 1),
        ],
        changes: &[(8, 4096), (10, 0), (12, 7)],
        rows: &[],
        reads: &[],
        kind: Kind::Direct,
        parts: &[
            told!(&[run!(0x3000, 512)], 512, 100, 1),
            told!(&[run!(0x3200, 512)], 512, 900, 1),
            told!(&[run!(0x3400, 512)], 512, 300, 1),
            told!(&[run!(0x3600, 512)], 512, 800, 1),
            told!(&[run!(0x3800, 512)], 512, 500, 1),
            told!(&[run!(0x3a00, 512)], 512, 700, 1),
            told!(&[run!(0x3c00, 512)], 512, 200, 1),
            told!(&[run!(0x3e00, 512)], 512, 600, 1),
        ],
    },
    Parted {
        name: "a join within a page",
        first: (1000, 5),
        others: &[(5000, 59)],
        changes: &[(8, 1024), (10, 4), (12, 1)],
        rows: &[],
        reads: &[],
        kind: Kind::Direct,
        parts: &[
            told!(&[run!(0x3000, 512)], 512, 1004, 1),
            told!(&[run!(0x3200, 512)], 512, 5000, 1),
        ],
    },
    Parted {
        name: "a join within the second of two pieces",
        first: (1000, 10),
        others: &[(5000, 54)],
        changes: &[(0, 0x0007_0002), (8, 0x5000), (10, 0), (12, 15)],
        rows: &[],
        reads: &[],
        kind: Kind::Direct,
        parts: &[
            told!(&[run!(0x3000, 4096), run!(0x5000, 1024)], 5120, 1000, 10),
            told!(&[run!(0x5400, 3072)], 3072, 5000, 6),
        ],
    },
    Parted {
        name: "a join at a piece's end",
        first: (1000, 8),
        others: &[(5000, 56)],
        changes: &[(0, 0x0007_0002), (8, 0x5000), (10, 0), (12, 15)],
        rows: &[],
        reads: &[],
        kind: Kind::Direct,
        parts: &[
            told!(&[run!(0x3000, 4096)], 4096, 1000, 8),
            told!(&[run!(0x5000, 4096)], 4096, 5000, 8),
        ],
    },
    Parted {
        name: "a join within a Bit Bucket",
        first: (1000, 5),
        others: &[(5000, 59)],
        changes: &[(6, 0x6000), (8, 48), (9, 0x3000_0000), (10, 4), (12, 1)],
        rows: &[
            (0x6000, DATA, 0x3000, 256),
            (0x6010, BUCKET, 0, 512),
            (0x6020, DATA, 0x4000, 256),
        ],
        reads: &[(0x6000, 48)],
        kind: Kind::Bounced,
        parts: &[
            told!(
                &[run!(0x3000, 256), Piece::Bucket { len: 256 }],
                512,
                1004,
                1
            ),
            told!(
                &[Piece::Bucket { len: 256 }, run!(0x4000, 256)],
                512,
                5000,
                1
            ),
        ],
    },
    Parted {
        name: "blocks of the second extent alone",
        first: (1000, 5),
        others: &[(5000, 59)],
        changes: &[],
        rows: &[],
        reads: &[],
        kind: Kind::Direct,
        parts: &[told!(&[run!(0x3000, 512)], 512, 5000, 1)],
    },
    Parted {
        name: "a Write Zeroes over a join",
        first: (1000, 5),
        others: &[(5000, 59)],
        changes: &[(0, 0x0007_0008), (10, 4), (12, 2)],
        rows: &[],
        reads: &[],
        kind: Kind::NoData,
        parts: &[told!(&[], 0, 1004, 1), told!(&[], 0, 5000, 2)],
    },
];

// Whether a part of a command that names blocks has these on the disk.
fn lies_at(plan: &Plan, part: u8, start: u64, blocks: u64) -> bool {
    let Some(opcode) = plan.job().sqe.io_opcode() else {
        return false;
    };
    if part >= plan.parts() || matches!(opcode, IoOpcode::Flush | IoOpcode::DatasetManagement) {
        return false;
    }
    let told = plan.part_blocks(part);
    told.start() == start && told.count() == blocks
}

// Whether a part of a plan is this.
fn is_part(plan: &Plan, part: u8, told: &Told) -> bool {
    part < plan.parts()
        && plan.part_places(part) == told.pieces
        && plan.part_len(part) == told.len
        && lies_at(plan, part, told.start, told.blocks)
}

// Whether the first parts of a plan are these.
fn are_parts(plan: &Plan, parts: &[Told]) -> bool {
    let mut part: u8 = 0;
    for told in parts {
        if !is_part(plan, part, told) {
            return false;
        }
        part = part.wrapping_add(1);
    }
    true
}

// Whether a plan of that kind is these parts.
fn has_parts(planned: &Planned, kind: PlanKind, parts: &[Told]) -> bool {
    match planned {
        Planned::Plan(plan) => {
            plan.kind() == kind
                && usize::from(plan.parts()) == parts.len()
                && are_parts(plan, parts)
        }
        _ => false,
    }
}

fn check(rt: &impl Abort, alloc: Global, case: &Parted) {
    let mut guest = Guest::with(rt, alloc, case.rows);
    guest.ns = joined(rt, case.first, case.others);
    let tags = tags_of(rt, &guest, case.changes);
    assert!(rt; usize::from(tags) == case.parts.len(), "{}", case.name);
    let planned = guest.planned(rt, alloc, case.changes, case.reads);
    assert!(rt;
        has_parts(&planned, case.kind.of_plan(), case.parts),
        "{}",
        case.name
    );
}

// How many tags a command takes.
fn tags_of(rt: &impl Abort, guest: &Guest, changes: Changes) -> u8 {
    tags_wanted(&changed(rt, changes), &guest.ns)
}

#[test]
fn transfers_over_joins(rt: HostRuntime) {
    for case in PARTED {
        check(&rt, rt.alloc(), case);
    }
}

// A range of the disk without attributes.
fn on_disk(start: u64, blocks: u32) -> [u8; 16] {
    let mut bytes = [0; 16];
    bytes[4..8].copy_from_slice(&blocks.to_le_bytes());
    bytes[8..].copy_from_slice(&start.to_le_bytes());
    bytes
}

// A guest with extents of 4, 2 and 58 blocks, from blocks 1,000, 3,000 and 7,000 of the disk on.
fn in_three(rt: &impl Abort, alloc: Global) -> Guest {
    let mut guest = Guest::new(rt, alloc);
    guest.ns = joined(rt, (1000, 4), &[(3000, 2), (7000, 58)]);
    guest
}

/// A deallocation of one range by a Data Block of 16 bytes at 3000h.
const ONE: Changes = &[(0, 0x0007_4009), (8, 16), (10, 0), (11, 4)];

// Whether the plan of a Dataset Management has these ranges in the three extents.
fn is_managed(
    planned: &Planned,
    first: &[[u8; 16]],
    second: &[[u8; 16]],
    third: &[[u8; 16]],
) -> bool {
    match planned {
        Planned::Plan(plan) => {
            plan.kind() == PlanKind::Bounced
                && plan.parts() == 3
                && has_part_ranges(plan, 0, first)
                && has_part_ranges(plan, 1, second)
                && has_part_ranges(plan, 2, third)
        }
        _ => false,
    }
}

#[test]
fn a_range_over_three_extents(rt: HostRuntime) {
    let mut guest = in_three(&rt, rt.alloc());
    guest.put_range(0x3000, 2, 6);
    assert!(rt; tags_of(&rt, &guest, ONE) == 3);
    let planned = guest.planned(&rt, rt.alloc(), ONE, &[(0x3000, 16)]);
    assert!(rt;
        is_managed(
            &planned,
            &[on_disk(1002, 2)],
            &[on_disk(3000, 2)],
            &[on_disk(7000, 2)]
        )
    );
}

#[test]
fn a_range_of_no_blocks(rt: HostRuntime) {
    let mut guest = in_three(&rt, rt.alloc());
    guest.put_range(0x3000, 5, 0);
    guest.put_range(0x3010, 5, 1);
    let planned = guest.planned(&rt, rt.alloc(), TWO, &[(0x3000, 32)]);
    assert!(rt; is_managed(&planned, &[on_disk(1005, 0)], &[on_disk(3001, 1)], &[]));
}

#[test]
fn commands_of_one_tag(rt: HostRuntime) {
    let guest = in_three(&rt, rt.alloc());
    // a Flush, a transfer past the end, an unknown opcode
    assert!(rt; tags_of(&rt, &guest, &[(0, 0x0007_0000)]) == 1);
    assert!(rt; tags_of(&rt, &guest, &[(10, 63), (12, 1)]) == 1);
    assert!(rt; tags_of(&rt, &guest, &[(0, 0x0007_4004)]) == 1);
}
