//! Transfers that PRP1 and PRP2 name without a list.
use super::map;
use crate::memory::run;
use nv_entry::StatusCode;
use nv_mem::{GuestMap, Piece};
use nv_prp::Named;
use std::alloc::Global;
use std::process::Abort;

/// PRP1 and PRP2 of a transfer, its length, and what they name.
struct Case {
    name: &'static str,
    prp1: u64,
    prp2: u64,
    need: u64,
    names: Names,
}

/// What PRP1 and PRP2 name.
enum Names {
    Pieces(&'static [Piece]),
    Fault(StatusCode),
    FirstPage,
}

const CASES: &[Case] = &[
    Case {
        name: "one page",
        prp1: 0x3004,
        prp2: u64::MAX,
        need: 512,
        names: Names::Pieces(&[run!(0x3004, 512)]),
    },
    Case {
        name: "the end of a page",
        prp1: 0x3e00,
        prp2: 0x5004,
        need: 512,
        names: Names::Pieces(&[run!(0x3e00, 512)]),
    },
    Case {
        name: "parts of two pages",
        prp1: 0x3e00,
        prp2: 0x5000,
        need: 1024,
        names: Names::Pieces(&[run!(0x3e00, 512), run!(0x5000, 512)]),
    },
    Case {
        name: "two pages",
        prp1: 0x3000,
        prp2: 0x5000,
        need: 8192,
        names: Names::Pieces(&[run!(0x3000, 4096), run!(0x5000, 4096)]),
    },
    Case {
        name: "two pages and four bytes of a third",
        prp1: 0x3004,
        prp2: 0x5000,
        need: 8192,
        names: Names::FirstPage,
    },
    Case {
        name: "PRP1 at an offset of 2",
        prp1: 0x3002,
        prp2: 0x5000,
        need: 512,
        names: Names::Fault(StatusCode::PrpOffsetInvalid),
    },
    Case {
        name: "a second page with an offset",
        prp1: 0x3000,
        prp2: 0x5004,
        need: 8192,
        names: Names::Fault(StatusCode::PrpOffsetInvalid),
    },
    Case {
        name: "a second page that isn't mapped",
        prp1: 0x3000,
        prp2: 0x4_0000,
        need: 8192,
        names: Names::Fault(StatusCode::DataTransferError),
    },
];

// Whether PRP1 and PRP2 name what is expected.
fn is_as_expected(rt: &impl Abort, alloc: Global, map: &GuestMap, case: &Case) -> bool {
    if case.need == 0 {
        return false;
    }
    match (Named::by(map, case.prp1, case.prp2, case.need), &case.names) {
        (Named::Runs(runs), Names::Pieces(pieces)) => runs
            .places(alloc)
            .expect(rt, "memory")
            .pieces()
            == *pieces,
        (Named::Fault(code), Names::Fault(expected)) => code == *expected,
        (Named::FirstPage, Names::FirstPage) => true,
        _ => false,
    }
}

#[test]
fn transfers_without_a_list(rt: HostRuntime) {
    let map = map(&rt, rt.alloc());
    for case in CASES {
        assert!(rt;
            is_as_expected(&rt, rt.alloc(), &map, case),
            "{}",
            case.name
        );
    }
}
