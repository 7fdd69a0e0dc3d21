//! Registers, and what enabling needs.

use crate::vctl::acts::{Act, BRING_UP, check};
use crate::vctl::desk::Desk;
use std::test::Fail;

/// What the registers read at the start, and what a write of the wrong ones comes to.
const REGISTERS: &[Act] = &[
    Act::Reads {
        offset: 0x00,
        value: 0x0101_03ff,
    },
    Act::Reads {
        offset: 0x04,
        value: 0x20,
    },
    Act::Reads {
        offset: 0x08,
        value: 0x2_0000,
    },
    Act::Reads {
        offset: 0x14,
        value: 0,
    },
    Act::Reads {
        offset: 0x1c,
        value: 0,
    },
    Act::Reads {
        offset: 0x38,
        value: 0,
    },
    Act::Reads {
        offset: 0xffff_fffc,
        value: 0,
    },
    Act::Unread(0x16),
    Act::Unread(0x1001),
    Act::Unwritten {
        offset: 0x00,
        value: 1,
    },
    Act::Unwritten {
        offset: 0x1c,
        value: 1,
    },
    Act::Unwritten {
        offset: 0x20,
        value: 1,
    },
    Act::Unwritten {
        offset: 0x15,
        value: 1,
    },
    Act::Write {
        offset: 0x24,
        value: 0xffff_ffff,
    },
    Act::Reads {
        offset: 0x24,
        value: 0xffff_ffff,
    },
    Act::Write {
        offset: 0x2c,
        value: 1,
    },
    Act::Write {
        offset: 0x2c,
        value: 0,
    },
];

/// After the bring-up: ready, every register as written, and the admin queues' registers closed to writes.
const READY: &[Act] = &[
    Act::Reads {
        offset: 0x1c,
        value: 1,
    },
    Act::Reads {
        offset: 0x14,
        value: 0x0046_0001,
    },
    Act::Reads {
        offset: 0x24,
        value: 0x001f_001f,
    },
    Act::Reads {
        offset: 0x28,
        value: 0x1_0000,
    },
    Act::Reads {
        offset: 0x30,
        value: 0x1_1000,
    },
    Act::Unwritten {
        offset: 0x24,
        value: 0,
    },
    Act::Unwritten {
        offset: 0x28,
        value: 0,
    },
    Act::Unwritten {
        offset: 0x34,
        value: 0,
    },
    Act::Write {
        offset: 0x14,
        value: 0x0046_4001,
    },
    Act::Reads {
        offset: 0x1c,
        value: 1,
    },
];

/// A register with a value with which enabling fails, and one with which it does not.
const WRONG: &[(u32, u32, u32)] = &[
    // one slot; 1,025 slots; the same of the completion queue
    (0x24, 0x001f_0000, 0x001f_0001),
    (0x24, 0x001f_0400, 0x001f_03ff),
    (0x24, 0x0000_001f, 0x0001_001f),
    (0x24, 0x0400_001f, 0x03ff_001f),
    // no page's start; not mapped; mapped in part
    (0x28, 0x1_0040, 0x1_f000),
    (0x28, 0x2_0000, 0x0),
    (0x2c, 0x1, 0x0),
    (0x30, 0x1_1800, 0x1_f000),
    (0x34, 0x8000_0000, 0x0),
];

#[test]
fn registers_read_what_was_written(rt: HostRuntime) -> Result<(), Fail> {
    let mut desk = Desk::new(rt.alloc())?;
    assert!(rt; !desk.vctl.is_enabled() && !desk.vctl.is_ready() && !desk.vctl.is_running());
    check(&rt, &mut desk, REGISTERS);
    check(&rt, &mut desk, BRING_UP);
    check(&rt, &mut desk, READY);
    assert!(rt; desk.vctl.is_enabled() && desk.vctl.is_ready() && !desk.vctl.is_running());
    Ok(())
}

// Whether enabling fails with a value of a register, until a reset.
fn fails_with(desk: &mut Desk, offset: u32, wrong: u32) -> bool {
    desk.vctl.reg_write(offset, wrong, &desk.map)
        && desk.vctl.reg_write(0x14, 1, &desk.map)
        && desk.vctl.reg_read(0x1c) == Some(2)
        && !desk.vctl.is_ready()
        && desk.vctl.reg_write(0x14, 0, &desk.map)
        && desk.vctl.reg_read(0x1c) == Some(0)
}

// Whether it works with a value of a register, until a reset.
fn works_with(desk: &mut Desk, offset: u32, right: u32) -> bool {
    desk.vctl.reg_write(offset, right, &desk.map)
        && desk.vctl.reg_write(0x14, 1, &desk.map)
        && desk.vctl.reg_read(0x1c) == Some(1)
        && desk.vctl.reg_write(0x14, 0, &desk.map)
}

#[test]
fn enabling_fails_with_wrong_registers(rt: HostRuntime) -> Result<(), Fail> {
    for (offset, wrong, right) in WRONG {
        let mut desk = Desk::new(rt.alloc())?;
        // both queues at the start of the map, with two slots each
        assert!(rt;
            desk.vctl.reg_write(0x24, 0x0001_0001, &desk.map)
                && fails_with(&mut desk, *offset, *wrong)
                && works_with(&mut desk, *offset, *right),
            "register {offset:x} with {wrong:x} and {right:x}"
        );
    }
    Ok(())
}
