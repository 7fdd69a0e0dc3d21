//! What commands answer, and in which order their checks come.

use crate::admin::bench::{Bench, brought_up};
use crate::admin::command::{Command, command};
use nv_admin::Admin;
use std::process::Abort;
use std::test::Fail;

/// A command, and the DW0 and last dword of its completion.
struct Row {
    name: &'static str,
    command: Command,
    dw0: u32,
    dword3: u32,
}

/// A command with CID 3 that is answered with DW0 0.
macro_rules! row {
    ($name:expr, $opcode:expr, $cdw10:expr, $cdw11:expr, $prp1:expr, $dword3:expr) => {
        Row {
            name: $name,
            command: crate::admin::command::Command {
                prp1: $prp1,
                cdw10: $cdw10,
                cdw11: $cdw11,
                ..command!($opcode, 3)
            },
            dw0: 0,
            dword3: $dword3,
        }
    };
}

/// Commands that come third, after bring-up.
const THIRD: &[Row] = &[
    row!("a completion queue in use", 0x04, 1, 0, 0, 0x8219_0003),
    row!("completion queue 0", 0x04, 0, 0, 0, 0x8203_0003),
    row!("a missing completion queue", 0x04, 2, 0, 0, 0x8203_0003),
    row!("submission queue 0", 0x00, 0, 0, 0, 0x8203_0003),
    row!("a missing submission queue", 0x00, 9, 0, 0, 0x8203_0003),
    row!("any log page", 0x02, 0x007f_0002, 0, 0x1_5000, 0x8213_0003),
    row!(
        "queues asked for late",
        0x09,
        7,
        0x0003_0003,
        0,
        0x8019_0003
    ),
    row!(
        "too many queues asked for late",
        0x09,
        7,
        0xffff_0000,
        0,
        0x8019_0003
    ),
    row!("another feature set", 0x09, 6, 0xffff_0000, 0, 0x8005_0003),
    row!("another feature got", 0x0a, 6, 0, 0, 0x8005_0003),
    row!("an unknown opcode", 0x03, 0, 0, 0, 0x8003_0003),
    row!(
        "a fused command of an unknown opcode",
        0x0103,
        0,
        0,
        0,
        0x8005_0003
    ),
    row!(
        "a list behind an unknown opcode",
        0x4003,
        0,
        0,
        0,
        0x8003_0003
    ),
    row!("a scatter gather list", 0x4008, 0, 0, 0, 0x8005_0003),
    row!(
        "another structure, with PRP1 at fault",
        0x06,
        0x03,
        0,
        0x1_5001,
        0x8005_0003
    ),
    row!(
        "no namespace, with PRP1 at fault",
        0x06,
        0x00,
        0,
        0x1_5001,
        0x8017_0003
    ),
    row!("PRP1 at fault", 0x06, 0x01, 0, 0x1_5001, 0x8027_0003),
    row!("PRP1 not mapped", 0x06, 0x01, 0, 0x2_0000, 0x8009_0003),
    Row {
        name: "namespace 2",
        command: Command {
            nsid: 2,
            prp1: 0x1_5000,
            cdw10: 0x00,
            ..command!(0x06, 3)
        },
        dw0: 0,
        dword3: 0x8017_0003,
    },
    Row {
        name: "all namespaces",
        command: Command {
            nsid: 0xffff_ffff,
            prp1: 0x1_5000,
            cdw10: 0x00,
            ..command!(0x06, 3)
        },
        dw0: 0,
        dword3: 0x8017_0003,
    },
    Row {
        name: "namespaces above FFFFFFFEh",
        command: Command {
            nsid: 0xffff_fffe,
            prp1: 0x1_5000,
            cdw10: 0x02,
            ..command!(0x06, 3)
        },
        dw0: 0,
        dword3: 0x8017_0003,
    },
    Row {
        name: "namespaces above FFFFFFFFh",
        command: Command {
            nsid: 0xffff_ffff,
            prp1: 0x1_5000,
            cdw10: 0x02,
            ..command!(0x06, 3)
        },
        dw0: 0,
        dword3: 0x8017_0003,
    },
    Row {
        name: "abort",
        command: command!(0x08, 3),
        dw0: 1,
        dword3: 0x0001_0003,
    },
    Row {
        name: "the number of queues got",
        command: Command {
            cdw10: 7,
            ..command!(0x0a, 3)
        },
        dw0: 0x0007_0007,
        dword3: 0x0001_0003,
    },
];

/// New completion queues: each fails one check, and each check after it that it can.
const COMPLETION_QUEUES: &[Row] = &[
    row!("number 0", 0x05, 0x0000_0000, 0, 0x2_0001, 0x8203_0003),
    row!("number 9", 0x05, 0x0000_0009, 0, 0x2_0001, 0x8203_0003),
    row!(
        "a number that is there",
        0x05,
        0x0000_0001,
        0,
        0x2_0001,
        0x8203_0003
    ),
    row!("one slot", 0x05, 0x0000_0002, 0, 0x2_0001, 0x8205_0003),
    row!("1,025 slots", 0x05, 0x0400_0002, 0, 0x2_0001, 0x8205_0003),
    row!(
        "not contiguous",
        0x05,
        0x0001_0002,
        0,
        0x2_0001,
        0x8005_0003
    ),
    row!("an offset", 0x05, 0x0001_0002, 1, 0x2_0001, 0x8027_0003),
    row!("not mapped", 0x05, 0x0001_0002, 1, 0x2_0000, 0x8009_0003),
    row!(
        "the last slot not mapped",
        0x05,
        0x0100_0002,
        1,
        0x1_f000,
        0x8009_0003
    ),
    row!("two slots", 0x05, 0x0001_0002, 1, 0x1_4000, 0x0001_0003),
    row!("1,024 slots", 0x05, 0x03ff_0008, 1, 0x1_4000, 0x0001_0003),
];

/// New submission queues likewise. The completion queue is in the upper half of CDW11.
const SUBMISSION_QUEUES: &[Row] = &[
    row!("number 0", 0x01, 0x0000_0000, 0, 0x2_0001, 0x8203_0003),
    row!("number 9", 0x01, 0x0000_0009, 0, 0x2_0001, 0x8203_0003),
    row!(
        "a number that is there",
        0x01,
        0x0000_0001,
        0,
        0x2_0001,
        0x8203_0003
    ),
    row!("one slot", 0x01, 0x0000_0002, 0, 0x2_0001, 0x8205_0003),
    row!("1,025 slots", 0x01, 0x0400_0002, 0, 0x2_0001, 0x8205_0003),
    row!(
        "not contiguous",
        0x01,
        0x0001_0002,
        0,
        0x2_0001,
        0x8005_0003
    ),
    row!(
        "completion queue 0",
        0x01,
        0x0001_0002,
        1,
        0x2_0001,
        0x8203_0003
    ),
    row!(
        "completion queue 9",
        0x01,
        0x0001_0002,
        0x0009_0001,
        0x2_0001,
        0x8203_0003
    ),
    row!(
        "a missing completion queue",
        0x01,
        0x0001_0002,
        0x0002_0001,
        0x2_0001,
        0x8201_0003
    ),
    row!(
        "an offset",
        0x01,
        0x0001_0002,
        0x0001_0001,
        0x2_0001,
        0x8027_0003
    ),
    row!(
        "not mapped",
        0x01,
        0x0001_0002,
        0x0001_0001,
        0x2_0000,
        0x8009_0003
    ),
    row!(
        "two slots",
        0x01,
        0x0001_0002,
        0x0001_0001,
        0x1_4000,
        0x0001_0003
    ),
];

/// Set Features that comes first, without an I/O queue.
const FIRST: &[Row] = &[
    row!(
        "too many completion queues",
        0x09,
        7,
        0xffff_0000,
        0,
        0x8005_0003
    ),
    row!(
        "too many submission queues",
        0x09,
        7,
        0x0000_ffff,
        0,
        0x8005_0003
    ),
    Row {
        name: "four queues of each kind",
        command: Command {
            cdw10: 7,
            cdw11: 0x0003_0003,
            ..command!(0x09, 3)
        },
        dw0: 0x0007_0007,
        dword3: 0x0001_0003,
    },
];

/// Whether the command in a slot of the admin queue is answered as given.
fn is_answered(bench: &mut Bench, slot: u32, row: &Row) -> bool {
    bench.enter(slot, &[row.command])
        && bench.admin() == Admin::Done
        && bench.completed(u64::from(slot), row.dw0, row.dword3)
}

/// Checks each row after bring-up.
fn check_third(rt: &impl Abort, alloc: std::alloc::Global, rows: &[Row]) -> Result<(), Fail> {
    for row in rows {
        let mut bench = brought_up(alloc)?;
        assert!(rt; is_answered(&mut bench, 2, row), "{}", row.name);
    }
    Ok(())
}

#[test]
fn commands_behind_bring_up(rt: HostRuntime) -> Result<(), Fail> {
    check_third(&rt, rt.alloc(), THIRD)
}

#[test]
fn checks_of_a_new_completion_queue(rt: HostRuntime) -> Result<(), Fail> {
    check_third(&rt, rt.alloc(), COMPLETION_QUEUES)
}

#[test]
fn checks_of_a_new_submission_queue(rt: HostRuntime) -> Result<(), Fail> {
    check_third(&rt, rt.alloc(), SUBMISSION_QUEUES)
}

#[test]
fn features_before_any_queue(rt: HostRuntime) -> Result<(), Fail> {
    for row in FIRST {
        let mut bench = Bench::new(rt.alloc())?;
        assert!(rt;
            bench.enable(0x001f_001f) && is_answered(&mut bench, 0, row),
            "{}",
            row.name
        );
    }
    Ok(())
}
