//! Which transfers are direct, and which are bounced.
use crate::memory::{APART, BUCKET, DATA, run};
use crate::plan::guest::{Case, Expected, Guest, check_all, is_expected};
use nv_mem::Piece;
use std::alloc::Global;
use std::process::Abort;

const TRANSFERS: &[Case] = &[
    Case {
        name: "one Data Block",
        changes: &[],
        rows: &[],
        reads: &[],
        expected: Expected::Direct(&[run!(0x3000, 512)]),
    },
    Case {
        name: "one Data Block at no multiple of 4",
        changes: &[(6, 0x3002)],
        rows: &[],
        reads: &[],
        expected: Expected::Bounced(&[run!(0x3002, 512)]),
    },
    Case {
        name: "two Data Blocks, a page end and a page start",
        changes: &[(6, 0x6000), (8, 32), (9, 0x3000_0000), (12, 1)],
        rows: &[(0x6000, DATA, 0x3e00, 512), (0x6010, DATA, 0x5000, 512)],
        reads: &[(0x6000, 32)],
        expected: Expected::Direct(&[run!(0x3e00, 512), run!(0x5000, 512)]),
    },
    Case {
        name: "two Data Blocks, the second within a page",
        changes: &[(6, 0x6000), (8, 32), (9, 0x3000_0000), (12, 1)],
        rows: &[(0x6000, DATA, 0x3e00, 512), (0x6010, DATA, 0x5200, 512)],
        reads: &[(0x6000, 32)],
        expected: Expected::Bounced(&[run!(0x3e00, 512), run!(0x5200, 512)]),
    },
    Case {
        name: "a Data Block and a Bit Bucket of a Read",
        changes: &[(6, 0x6000), (8, 32), (9, 0x3000_0000), (12, 1)],
        rows: &[(0x6000, DATA, 0x3000, 512), (0x6010, BUCKET, 0, 512)],
        reads: &[(0x6000, 32)],
        expected: Expected::Bounced(&[run!(0x3000, 512), Piece::Bucket { len: 512 }]),
    },
    Case {
        name: "PRP1 with an offset",
        changes: &[(0, 0x0007_0002), (6, 0x3004), (8, 0)],
        rows: &[],
        reads: &[],
        expected: Expected::Direct(&[run!(0x3004, 512)]),
    },
    Case {
        name: "a Flush",
        changes: &[(0, 0x0007_0000)],
        rows: &[],
        reads: &[],
        expected: Expected::NoData,
    },
    Case {
        name: "a Write Zeroes",
        changes: &[(0, 0x0007_0008)],
        rows: &[],
        reads: &[],
        expected: Expected::NoData,
    },
];

#[test]
fn transfers(rt: HostRuntime) {
    check_all(&rt, rt.alloc(), TRANSFERS);
}

const BESIDE_THE_GAP: &[(u32, Expected)] = &[
    (0xff00, Expected::Direct(&[run!(0xff00, 512)])),
    (0xff02, Expected::Bounced(&[run!(0xff02, 512)])),
    (0xfe00, Expected::Direct(&[run!(0xfe00, 512)])),
];

fn check_gap(rt: &impl Abort, alloc: Global, guest: &Guest) {
    for (addr, expected) in BESIDE_THE_GAP {
        let planned = guest.planned(rt, alloc, &[(6, *addr)], &[]);
        assert!(rt; is_expected(&planned, expected), "{addr:#x}");
    }
}

#[test]
fn memory_that_lies_apart_in_the_host(rt: HostRuntime) {
    let guest = Guest::mapped(&rt, rt.alloc(), APART);
    check_gap(&rt, rt.alloc(), &guest);
}

/// A Read of 24 blocks, three pages, whose list chains to a second page.
pub const CHAINED: &[(usize, u32)] = &[(0, 0x0007_0002), (8, 0x6ff8), (12, 23)];

/// What was read of it, and what comes of that.
const STEPS: &[(&[(u64, u64)], Expected)] = &[
    (&[], Expected::Need(0x6ff8, 8)),
    (&[(0x6ff8, 8)], Expected::Need(0x7000, 16)),
    (
        &[(0x6ff8, 8), (0x7000, 16)],
        Expected::Direct(&[run!(0x3000, 4096), run!(0x8000, 4096), run!(0x9000, 4096)]),
    ),
];

fn check_steps(rt: &impl Abort, alloc: Global, guest: &Guest) {
    for (reads, expected) in STEPS {
        let planned = guest.planned(rt, alloc, CHAINED, reads);
        assert!(rt; is_expected(&planned, expected));
    }
}

#[test]
fn a_list_page_that_chains(rt: HostRuntime) {
    let mut guest = Guest::new(&rt, rt.alloc());
    guest.put_slots(0x6ff8, &[0x7000, 0x8000, 0x9000]);
    check_steps(&rt, rt.alloc(), &guest);
}
