//! The checks of a command's fields, in their order.

use crate::hand::changed;
use crate::virtual_ns::namespace;
use nv_entry::{Sqe, StatusCode};
use nv_judge::judge_fields;
use nv_ns::VirtualNs;
use std::process::Abort;

/// A dword of the Read, its value, and the bytes of the transfer or the refusal.
const JUDGED: &[(usize, u32, Result<u32, StatusCode>)] = &[
    (12, 0, Ok(512)),
    (12, 255, Ok(131_072)),
    (12, 256, Err(StatusCode::InvalidField)),
    (0, 0x0007_4102, Err(StatusCode::InvalidField)),
    (0, 0x0007_4004, Err(StatusCode::InvalidOpcode)),
    (0, 0x0007_4104, Err(StatusCode::InvalidField)),
    (0, 0x0007_c002, Err(StatusCode::InvalidField)),
    (0, 0x0007_c000, Ok(0)),
    (0, 0x0007_c008, Ok(0)),
    (0, 0x0007_4009, Ok(96)),
    (1, 2, Err(StatusCode::InvalidNamespace)),
    (10, 1023, Ok(512)),
    (10, 1024, Err(StatusCode::LbaOutOfRange)),
    (11, 0xffff_ffff, Err(StatusCode::LbaOutOfRange)),
];

// Whether the Read with that dword has these bytes or that refusal.
fn is_judged(ns: &VirtualNs, sqe: &Sqe, want: &Result<u32, StatusCode>) -> bool {
    match (judge_fields(sqe, ns), want) {
        (Ok(need), Ok(bytes)) => need.bytes == *bytes,
        (Err(status), Err(code)) => status == code.refused(),
        _ => false,
    }
}

fn check_judged(rt: &impl Abort, ns: &VirtualNs, rows: &[(usize, u32, Result<u32, StatusCode>)]) {
    for (dword, value, want) in rows {
        let sqe = changed(rt, &[(*dword, *value)]);
        assert!(rt; is_judged(ns, &sqe, want), "dword {dword} is {value:#x}");
    }
}

#[test]
fn judges_fields_in_their_order(rt: HostRuntime) {
    let ns = namespace(&[(7, 1000), (5000, 24)]).expect(&rt, "a namespace");
    check_judged(&rt, &ns, JUDGED);
}
