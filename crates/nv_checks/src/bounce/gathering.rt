//! What is gathered.
use crate::bounce::copies::{Transfer, Way, check_all, run};
use std::test::Fail;

const COPIES: &[Transfer] = &[
    Transfer {
        name: "two regions that are apart in the host",
        pieces: &[run!(0x10, 3), run!(0x8000, 2)],
        slot: 0x20,
        before: &[(0x3010, &[1, 2, 3]), (0x5000, &[4, 5])],
        changed: &[(0x20, &[1, 2, 3, 4, 5])],
    },
    Transfer {
        name: "the later region first",
        pieces: &[run!(0x8000, 2), run!(0x10, 1), run!(0x2fff, 1)],
        slot: 0x20,
        before: &[(0x2fff, &[4]), (0x3010, &[3]), (0x5000, &[1, 2])],
        changed: &[(0x20, &[1, 2, 3, 4])],
    },
    Transfer {
        name: "a run over the end of a region",
        pieces: &[run!(0xffe, 4)],
        slot: 0x100,
        before: &[(0x1000, &[3, 4]), (0x3ffe, &[1, 2]), (0x4000, &[9, 9])],
        changed: &[(0x100, &[1, 2, 3, 4])],
    },
    Transfer {
        name: "bytes that are named twice",
        pieces: &[run!(0x10, 2), run!(0x11, 2)],
        slot: 0x20,
        before: &[(0x3010, &[1, 2, 3])],
        changed: &[(0x20, &[1, 2, 2, 3])],
    },
    Transfer {
        name: "a slot between two regions",
        pieces: &[run!(0x1000, 3)],
        slot: 0x4ffd,
        before: &[(0x1000, &[1, 2, 3]), (0x3fff, &[8]), (0x5000, &[9])],
        changed: &[(0x4ffd, &[1, 2, 3])],
    },
    Transfer {
        name: "no places",
        pieces: &[],
        slot: 0x20,
        before: &[(0x20, &[7]), (0x3000, &[8])],
        changed: &[],
    },
];

#[test]
fn what_is_gathered(rt: HostRuntime) -> Result<(), Fail> {
    check_all(&rt, rt.alloc(), COPIES, Way::Gather)
}
