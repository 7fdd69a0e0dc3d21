//! Identify: the bytes that it shows, and where they go.

use crate::admin::bench::{Bench, brought_up};
use crate::admin::command::{Command, command};
use nv_admin::Admin;
use std::test::Fail;

/// Bytes that are somewhere in a guest's memory after a command.
struct Shown {
    command: Command,
    addr: u64,
    bytes: &'static [u8],
}

/// An Identify of the structure CNS for NSID, with its bytes at 15000h.
macro_rules! identify {
    ($cns:expr, $nsid:expr) => {
        crate::admin::command::Command {
            nsid: $nsid,
            prp1: 0x1_5000,
            cdw10: $cns,
            ..command!(0x06, 3)
        }
    };
}

/// The controller's structure over two pages: 512 bytes of the first from 15E00h on, and the second at 17000h.
const IN_TWO_PAGES: Command = Command {
    prp1: 0x1_5e00,
    prp2: 0x1_7000,
    ..identify!(0x01, 0)
};

const SHOWN: &[Shown] = &[
    // MDTS; SQES, CQES, NN and ONCS; SGLS
    Shown {
        command: identify!(0x01, 0),
        addr: 0x1_504c,
        bytes: &[0x00, 0x05, 0x00, 0x00],
    },
    Shown {
        command: identify!(0x01, 0),
        addr: 0x1_5200,
        bytes: &[0x66, 0x44, 0, 0, 1, 0, 0, 0, 0x0d, 0, 0, 0],
    },
    Shown {
        command: identify!(0x01, 0),
        addr: 0x1_5218,
        bytes: &[0x01, 0x00, 0x01, 0x00],
    },
    // NSZE, NCAP and NUSE; DLFEAT; the first format
    Shown {
        command: identify!(0x00, 1),
        addr: 0x1_5000,
        bytes: &[
            64, 0, 0, 0, 0, 0, 0, 0, 64, 0, 0, 0, 0, 0, 0, 0, 64, 0, 0, 0, 0, 0, 0, 0, 0, 0, 0,
        ],
    },
    Shown {
        command: identify!(0x00, 1),
        addr: 0x1_5020,
        bytes: &[0x00, 0x01, 0x00],
    },
    Shown {
        command: identify!(0x00, 1),
        addr: 0x1_5080,
        bytes: &[0x00, 0x00, 0x09, 0x00, 0x00],
    },
    // the active namespaces above 0 and above 1
    Shown {
        command: identify!(0x02, 0),
        addr: 0x1_5000,
        bytes: &[1, 0, 0, 0, 0],
    },
    Shown {
        command: identify!(0x02, 1),
        addr: 0x1_5000,
        bytes: &[0, 0, 0, 0, 0],
    },
    // in two pages: MDTS in the first, SQES in the second
    Shown {
        command: IN_TWO_PAGES,
        addr: 0x1_5e4c,
        bytes: &[0x00, 0x05],
    },
    Shown {
        command: IN_TWO_PAGES,
        addr: 0x1_7000,
        bytes: &[0x66, 0x44],
    },
];

/// Whether a command after bring-up succeeds, and these bytes are there then.
fn is_shown(bench: &mut Bench, shown: &Shown) -> bool {
    bench.store(0x1_5000, &[0xee; 0x3000])
        && bench.enter(2, &[shown.command])
        && bench.admin() == Admin::Done
        && bench.completed(2, 0, 0x0001_0003)
        && bench.shows(shown.addr, shown.bytes)
}

#[test]
fn shows_its_structures(rt: HostRuntime) -> Result<(), Fail> {
    for shown in SHOWN {
        let mut bench = brought_up(rt.alloc())?;
        assert!(rt; is_shown(&mut bench, shown), "bytes at {:x}", shown.addr);
    }
    Ok(())
}

#[test]
fn nothing_is_written_where_the_second_page_is_not_mapped(rt: HostRuntime) -> Result<(), Fail> {
    let mut bench = brought_up(rt.alloc())?;
    let command = Command {
        prp2: 0x2_0000,
        ..IN_TWO_PAGES
    };
    assert!(rt; bench.store(0x1_5e00, &[0xee; 0x200]) && bench.enter(2, &[command]));
    assert!(rt; bench.admin() == Admin::Done && bench.completed(2, 0, 0x8009_0003));
    assert!(rt; bench.shows(0x1_5e00, &[0xee; 64]) && bench.shows(0x1_5fc0, &[0xee; 64]));
    Ok(())
}

#[test]
fn a_completion_lies_over_its_own_structure(rt: HostRuntime) -> Result<(), Fail> {
    let mut bench = brought_up(rt.alloc())?;
    // the page of the admin completion queue: the structure first, then the completion in its slot
    let command = Command {
        prp1: 0x1_1000,
        ..identify!(0x01, 0)
    };
    assert!(rt; bench.enter(2, &[command]) && bench.admin() == Admin::Done);
    assert!(rt; bench.completed(0, 0, 0) && bench.completed(2, 0, 0x0001_0003));
    assert!(rt; bench.shows(0x1_104c, &[0x00, 0x05]) && bench.shows(0x1_1200, &[0x66, 0x44]));
    Ok(())
}
