//! Resets while commands are taken.

use crate::vctl::acts::{Act, BRING_UP, PAIR, check};
use crate::vctl::desk::Desk;
use std::test::Fail;

/// After queue pair 1: two commands run out after a reset, and RDY falls with the last.
const RUN_OUT: &[Act] = &[
    Act::Ring {
        offset: 0x1008,
        value: 3,
    },
    Act::Take { queue: 1, cid: 0 },
    Act::Take { queue: 1, cid: 0 },
    Act::Close { queue: 1, cid: 9 },
    Act::Write {
        offset: 0x14,
        value: 0x0046_0000,
    },
    Act::Reads {
        offset: 0x1c,
        value: 1,
    },
    Act::Unfinished,
    Act::Idle(1),
    Act::Idle(0),
    Act::Unrung {
        offset: 0x1000,
        value: 1,
    },
    Act::Unwritten {
        offset: 0x14,
        value: 0x0046_0001,
    },
    Act::Reads {
        offset: 0x14,
        value: 0x0046_0000,
    },
    // EN stays 0: other bits are kept
    Act::Write {
        offset: 0x14,
        value: 0x0047_0000,
    },
    Act::RunOut(1),
    Act::Reads {
        offset: 0x1c,
        value: 1,
    },
    Act::RunOut(1),
    Act::Reads {
        offset: 0x1c,
        value: 0,
    },
    Act::Taken { queue: 1, count: 0 },
    Act::Completion {
        addr: 0x1_2000,
        head: 0,
        queue: 0,
        last: 0,
    },
    // AQA, ASQ and ACQ stay
    Act::Reads {
        offset: 0x24,
        value: 0x001f_001f,
    },
    Act::Write {
        offset: 0x14,
        value: 0x0046_0001,
    },
    Act::Reads {
        offset: 0x1c,
        value: 1,
    },
    Act::Idle(1),
];

/// Where no command is taken RDY falls at once.
const AT_ONCE: &[Act] = &[
    Act::Write {
        offset: 0x14,
        value: 0,
    },
    Act::Reads {
        offset: 0x1c,
        value: 0,
    },
];

#[test]
fn commands_run_out_after_a_reset(rt: HostRuntime) -> Result<(), Fail> {
    let mut desk = Desk::new(rt.alloc())?;
    check(&rt, &mut desk, BRING_UP);
    check(&rt, &mut desk, PAIR);
    check(&rt, &mut desk, RUN_OUT);
    assert!(rt; !desk.vctl.has_io_queue() && desk.vctl.deletion().is_none());
    check(&rt, &mut desk, AT_ONCE);
    Ok(())
}
