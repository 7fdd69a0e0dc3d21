//! The check of the ranges of a Dataset Management.

use crate::virtual_ns::namespace;
use byteorder::{ByteOrder, LittleEndian};
use nv_entry::{Status, StatusCode};
use nv_judge::judge_ranges;
use nv_model::limits::RANGE_SIZE;
use nv_ns::VirtualNs;
use std::process::Abort;

// The bytes of two ranges of Dataset Management.
fn ranges(dwords: [u32; 8]) -> [u8; 32] {
    let mut bytes = [0; 32];
    LittleEndian::write_u32_into(&dwords, &mut bytes);
    bytes
}

/// Attributes, blocks and start of two ranges, and whether both fit.
const JUDGED: &[([u32; 8], bool)] = &[
    ([0, 1, 0, 0, 0, 1, 63, 0], true),
    ([7, 64, 0, 0, 9, 0, 64, 0], true),
    ([0, 1, 0, 0, 0, 1, 64, 0], false),
    ([0, 1, 64, 0, 0, 1, 0, 0], false),
    ([0, 65, 0, 0, 0, 1, 0, 0], false),
    ([0, 1, 0, 0, 0, 2, 63, 0], false),
    ([0, 1, 0, 1, 0, 1, 0, 0], false),
    ([0, 0, 65, 0, 0, 1, 0, 0], false),
];

// What is judged of ranges that fit, or that don't.
fn judged(fit: bool) -> Result<(), Status> {
    if fit {
        Ok(())
    } else {
        Err(StatusCode::LbaOutOfRange.refused())
    }
}

fn check_judged(rt: &impl Abort, ns: &VirtualNs, rows: &[([u32; 8], bool)]) {
    for (dwords, fit) in rows {
        let bytes = ranges(*dwords);
        assert!(rt; bytes.len() % RANGE_SIZE == 0);
        assert!(rt; judge_ranges(&bytes, ns) == judged(*fit), "{dwords:?}");
    }
}

#[test]
fn judges_each_range(rt: HostRuntime) {
    let ns = namespace(&[(1000, 40), (9000, 24)]).expect(&rt, "a namespace");
    check_judged(&rt, &ns, JUDGED);
}
