//! What is scattered.
use crate::bounce::copies::{Transfer, Way, bucket, check_all, run};
use std::test::Fail;

const COPIES: &[Transfer] = &[
    Transfer {
        name: "two regions that are apart in the host",
        pieces: &[run!(0x10, 3), run!(0x8000, 2)],
        slot: 0x20,
        before: &[(0x20, &[1, 2, 3, 4, 5]), (0x3010, &[9, 9, 9, 9])],
        changed: &[(0x3010, &[1, 2, 3]), (0x5000, &[4, 5])],
    },
    Transfer {
        name: "a run over the end of a region",
        pieces: &[run!(0xffe, 4)],
        slot: 0x100,
        before: &[(0x100, &[1, 2, 3, 4]), (0x4000, &[9, 9])],
        changed: &[(0x1000, &[3, 4]), (0x3ffe, &[1, 2])],
    },
    Transfer {
        name: "a byte that is named twice keeps the last",
        pieces: &[run!(0x10, 2), run!(0x11, 2)],
        slot: 0x20,
        before: &[(0x20, &[1, 2, 3, 4])],
        changed: &[(0x3010, &[1, 3, 4])],
    },
    Transfer {
        name: "a bucket between two runs",
        pieces: &[run!(0x10, 2), bucket!(3), run!(0x20, 1)],
        slot: 0x20,
        before: &[(0x20, &[1, 2, 3, 4, 5, 6])],
        changed: &[(0x3010, &[1, 2]), (0x3020, &[6])],
    },
    Transfer {
        name: "buckets alone",
        pieces: &[bucket!(2), bucket!(1)],
        slot: 0x4ffd,
        before: &[(0x3fff, &[7]), (0x4ffd, &[1, 2, 3]), (0x5000, &[8])],
        changed: &[],
    },
    Transfer {
        name: "no places",
        pieces: &[],
        slot: 0x20,
        before: &[(0x20, &[7]), (0x3000, &[8])],
        changed: &[],
    },
];

#[test]
fn what_is_scattered(rt: HostRuntime) -> Result<(), Fail> {
    check_all(&rt, rt.alloc(), COPIES, Way::Scatter)
}
